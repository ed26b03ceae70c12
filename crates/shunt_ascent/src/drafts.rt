// Which prices the cases of a night have, and the best case without a multiplier.
ghost use Rattle.std.specs.Prelude.{◌<◌, length};
ghost use Rattle.shunt_choices.specs.defs.Paths.{IsTrailOf};

use crate::ascent::{Ascent, ascend};
use crate::numbers::{NOTHING, Number, at};
use crate::points::{EVERY, Point};
use crate::scenes::Scene;
use crate::slots::{Slot, count_of, length_slot};
use crate::valuation::Work;
use shunt_base::{ArrId, DepId, PriceKind, TrackId};
use shunt_choices::Path;
use shunt_instance::Instance;
use std::alloc::{AllocError, Global};
use std::num::Wrapping;

/// How many prices a case has at most.
pub(crate) const MOST: usize = 64;

/// An ascent at a root.
pub(crate) const FIRST: Ascent = Ascent {
    lengths: true,
    multiplier: false,
    step: 20_000,
    most: 6_000,
    goal: Wrapping(i64::MAX),
};

/// A price with its value.
#[derive(Clone, Copy)]
struct Priced {
    slot: Slot,
    value: Number,
}

/// Values of positions, and prices with theirs.
#[derive(Drop)]
struct Draft {
    beta: Vec<Number>,
    prices: Vec<Priced>,
}

impl Draft {
    // The prices without their values.
    fn slots(&self, alloc: Global) -> Result<Vec<Slot>, AllocError> {
        let mut slots = Vec::with_capacity(alloc, self.prices.len())?;
        for price in &self.prices {
            slots.push(price.slot)?;
        }
        Ok(slots)
    }

    // The point with these values, for a scene whose prices are these.
    fn point(&self, alloc: Global) -> Result<Point, AllocError> {
        let mut prices = Vec::with_capacity(alloc, self.prices.len())?;
        for price in &self.prices {
            prices.push(price.value)?;
        }
        Ok(Point {
            beta: Vec::from_slice(alloc, &self.beta)?,
            prices,
            multiplier: NOTHING,
        })
    }

    // The value of a price, and nothing where it isn't among these.
    fn value_of(&self, slot: &Slot) -> Number {
        for price in &self.prices {
            if price.slot == *slot {
                return price.value;
            }
        }
        NOTHING
    }

    fn has(&self, slot: &Slot) -> bool {
        for price in &self.prices {
            if price.slot == *slot {
                return true;
            }
        }
        false
    }

    // Whether these are among its prices.
    fn has_all(&self, slots: &[Slot]) -> bool {
        for slot in slots {
            if !self.has(slot) {
                return false;
            }
        }
        true
    }

    fn add(&mut self, slot: Slot) -> Result<(), AllocError> {
        self.prices.push(Priced {
            slot,
            value: NOTHING,
        })?;
        Ok(())
    }
}

// The draft of a point of a scene.
fn draft_of(alloc: Global, scene: &Scene, point: Point) -> Result<Draft, AllocError> {
    let mut prices = Vec::with_capacity(alloc, scene.slots.len())?;
    for (slot, value) in scene.slots.iter().zip(&point.prices) {
        prices.push(Priced {
            slot: *slot,
            value: *value,
        })?;
    }
    Ok(Draft {
        beta: point.beta,
        prices,
    })
}

// The best point with a draft's prices that an ascent finds, in a scene that has these prices then.
fn ascended(
    alloc: Global,
    instance: &Instance,
    path: &Path,
    draft: &Draft,
    most: usize,
    scene: &mut Scene,
) -> Result<Point, AllocError> {
    scene.price(alloc, instance, path.blocks(), draft.slots(alloc)?)?;
    let mut work = Work::new(alloc, scene)?;
    let ascent = Ascent { most, ..FIRST };
    let start = draft.point(alloc)?;
    let (point, _) = ascend(alloc, scene, EVERY, ascent, &start, &mut work)?;
    Ok(point)
}

// The minute of the arriving train with a number, and none behind the last.
fn minute_of(instance: &Instance, train: usize) -> u16 {
    if train >= instance.arrivals() {
        return u16::MAX;
    }
    instance.arrive(ArrId(train as u8)).minute.number()
}

/// Whether a departure lies behind the moment of an arriving train and before the next.
pub(crate) fn is_moment(instance: &Instance, train: usize) -> bool {
    let first = minute_of(instance, train);
    let next = minute_of(instance, train.saturating_add(1));
    for dep in 0..instance.departures() {
        let minute = instance.depart(DepId(dep as u8)).minute.number();
        if first < minute && minute <= next {
            return true;
        }
    }
    false
}

// The prices of length at a train's moment for all tracks.
fn add_slots(instance: &Instance, train: ArrId, slots: &mut Vec<Slot>) -> Result<(), AllocError>
    requires { train.0 < length instance.now.arrive }
{
    for track in 0..instance.station().tracks.len() {
        slots.push(length_slot(instance, TrackId(track as u8), train))?;
    }
    Ok(())
}

// The prices of length at the moments that no later one takes the place of.
fn all_slots(alloc: Global, instance: &Instance) -> Result<Vec<Slot>, AllocError> {
    let mut slots = Vec::new(alloc);
    for train in 0..instance.arrivals() {
        if is_moment(instance, train) {
            add_slots(instance, ArrId(train as u8), &mut slots)?;
        }
    }
    Ok(slots)
}

// A draft of these prices in which all is nothing.
fn empty_draft(alloc: Global, instance: &Instance, slots: &[Slot]) -> Result<Draft, AllocError> {
    let mut draft = Draft {
        beta: vec![in alloc; NOTHING; instance.positions()]?,
        prices: Vec::new(alloc),
    };
    for slot in slots {
        draft.add(*slot)?;
    }
    Ok(draft)
}

/// Less than what blocks exceed a length by, or come nearest to it.
const LEAST: Number = Wrapping(i64::MIN);

// The price of a track whose blocks exceed its length most, and by more than this, but for those that a draft has.
fn fullest(full: &Scene, work: &Work, draft: &Draft, track: usize, least: Number) -> Option<Slot> {
    let mut found = None;
    let mut most = least;
    for (place, slot) in full.slots.iter().enumerate() {
        let over = at(&work.slopes.prices, place);
        if slot.track.0 as usize == track && over > most && !draft.has(slot) {
            found = Some(*slot);
            most = over;
        }
    }
    found
}

// The point of a scene with all prices that a draft stands for.
fn full_point(alloc: Global, full: &Scene, draft: &Draft) -> Result<Point, AllocError> {
    let mut prices = Vec::with_capacity(alloc, full.slots.len())?;
    for slot in &full.slots {
        prices.push(draft.value_of(slot))?;
    }
    Ok(Point {
        beta: Vec::from_slice(alloc, &draft.beta)?,
        prices,
        multiplier: NOTHING,
    })
}

// Adds for each track the price whose moment is the fullest, where its blocks exceed its length there or the draft has no prices yet.
fn add_fullest(
    alloc: Global,
    full: &Scene,
    work: &mut Work,
    draft: &mut Draft,
) -> Result<(), AllocError> {
    let point = full_point(alloc, full, draft)?;
    work.evaluate(full, EVERY, &point);
    let least = if draft.prices.is_empty() {
        LEAST
    } else {
        NOTHING
    };
    for track in 0..full.tracks {
        if let Some(slot) = fullest(full, work, draft, track, least) {
            draft.add(slot)?;
        }
    }
    draft
        .prices
        .sort_unstable_by_key(|price| (price.slot.train.0, price.slot.track.0));
    Ok(())
}

// Drops the prices that cost nothing.
fn drop_free(draft: &mut Draft) {
    draft.prices.retain(|price| price.value > NOTHING);
}

// The prices of length that ten rounds find, each of which begins with those that cost anything and the fullest of the others; fewer rounds where
// one ends with those that it began with.
fn chosen_lengths(
    alloc: Global,
    instance: &Instance,
    path: &Path,
    slots: Vec<Slot>,
    scene: &mut Scene,
) -> Result<Draft, AllocError>
    requires { IsTrailOf instance.now path.now }
{
    let mut full = Scene::new(alloc, instance, path)?;
    full.price(alloc, instance, path.blocks(), slots)?;
    let mut work = Work::new(alloc, &full)?;
    let mut draft = empty_draft(alloc, instance, &[])?;
    add_fullest(alloc, &full, &mut work, &mut draft)?;
    'rounds: for _ in 0..10 {
        let before = draft.slots(alloc)?;
        let point = ascended(alloc, instance, path, &draft, 1_500, scene)?;
        draft = draft_of(alloc, scene, point)?;
        drop_free(&mut draft);
        add_fullest(alloc, &full, &mut work, &mut draft)?;
        if draft.prices.len() == before.len() && draft.has_all(&before) {
            return Ok(draft);
        }
    }
    Ok(draft)
}

// The prices of length to begin with: all, or where these are too many those that rounds find.
fn length_prices(
    alloc: Global,
    instance: &Instance,
    path: &Path,
    scene: &mut Scene,
) -> Result<Draft, AllocError>
    requires { IsTrailOf instance.now path.now }
{
    let slots = all_slots(alloc, instance)?;
    if slots.len() > MOST {
        return chosen_lengths(alloc, instance, path, slots, scene);
    }
    empty_draft(alloc, instance, &slots)
}

// What a length counts for a kind of price, times a number.
fn counts(kind: PriceKind, room: u32, long: u32, times: u64) -> u64 {
    count_of(kind, room, long).saturating_mul(times)
}

// Those of these lengths that a track has room for.
fn lengths_within(alloc: Global, lengths: &[u32], room: u32) -> Result<Vec<u32>, AllocError> {
    let mut within = Vec::new(alloc);
    for long in lengths {
        if *long <= room {
            within.push(*long)?;
        }
    }
    Ok(within)
}

// Whether some length counts more of that many parts than of the track's length.
fn are_useful(parts: u8, room: u32, lengths: &[u32]) -> bool {
    for long in lengths {
        let count = counts(PriceKind::Parts(parts), room, *long, u64::from(room));
        if count > counts(PriceKind::Length, room, *long, u64::from(parts)) {
            return true;
        }
    }
    false
}

// Whether each length counts as much of one number of parts, for its most, as of another.
fn rules(one: u8, other: u8, room: u32, lengths: &[u32]) -> bool {
    for long in lengths {
        let count = counts(PriceKind::Parts(one), room, *long, u64::from(other));
        if count < counts(PriceKind::Parts(other), room, *long, u64::from(one)) {
            return false;
        }
    }
    true
}

/// How many parts are tried at most.
const PARTS: u8 = 4;

// Whether another useful number of parts takes the place of one.
fn is_ruled(parts: u8, room: u32, lengths: &[u32]) -> bool {
    for other in 1..=PARTS {
        let stronger = other != parts
            && are_useful(other, room, lengths)
            && rules(other, parts, room, lengths);
        if stronger && (other < parts || !rules(parts, other, room, lengths)) {
            return true;
        }
    }
    false
}

/// The prices of parts for a price's track and moment that may be worth more than that of length, where shapes have these lengths. Err is
/// want of memory.
pub(crate) fn parts_beside(
    alloc: Global,
    lengths: &[u32],
    slot: &Slot,
) -> Result<Vec<Slot>, AllocError> {
    let lengths = lengths_within(alloc, lengths, slot.room)?;
    let mut slots = Vec::new(alloc);
    for parts in 1..=PARTS {
        if are_useful(parts, slot.room, &lengths) && !is_ruled(parts, slot.room, &lengths) {
            slots.push(Slot {
                kind: PriceKind::Parts(parts),
                ..*slot
            })?;
        }
    }
    Ok(slots)
}

// Adds these prices.
fn add_each(slots: &[Slot], draft: &mut Draft) -> Result<(), AllocError> {
    for slot in slots {
        draft.add(*slot)?;
    }
    Ok(())
}

// Above that many moments only prices that cost anything get prices of parts beside them.
const MANY: usize = 32;

// At how many moments a scene has prices.
fn count_moments(alloc: Global, scene: &Scene) -> Result<usize, AllocError> {
    let mut trains = Vec::with_capacity(alloc, scene.slots.len())?;
    for slot in &scene.slots {
        trains.push(slot.train.0)?;
    }
    trains.sort_unstable();
    trains.dedup();
    Ok(trains.len())
}

// The draft of a point of a scene, with prices of parts at its moments.
fn with_parts(alloc: Global, scene: &Scene, point: &Point) -> Result<Draft, AllocError> {
    let mut all = draft_of(alloc, scene, point.copied(alloc)?)?;
    let lengths = scene.lengths(alloc)?;
    let many = count_moments(alloc, scene)? > MANY;
    for (slot, value) in scene.slots.iter().zip(&point.prices) {
        if !many || *value > NOTHING {
            add_each(&parts_beside(alloc, &lengths, slot)?, &mut all)?;
        }
    }
    Ok(all)
}

// Keeps the 64 prices with the greatest values for their mosts.
fn keep_dearest(draft: &mut Draft) {
    drop_free(draft);
    draft
        .prices
        .sort_unstable_by_key(|price| -(price.value * price.slot.most()));
    draft.prices.truncate(MOST);
}

/// The scene of the prices that are worth a place in the cases at a path, with the best point for one case. Err is want of memory.
pub(crate) fn first_point(
    alloc: Global,
    instance: &Instance,
    path: &Path,
) -> Result<(Scene, Point), AllocError>
    requires { IsTrailOf instance.now path.now }
{
    let mut scene = Scene::new(alloc, instance, path)?;
    let lengths = length_prices(alloc, instance, path, &mut scene)?;
    let point = ascended(alloc, instance, path, &lengths, FIRST.most, &mut scene)?;
    let all = with_parts(alloc, &scene, &point)?;
    let point = ascended(alloc, instance, path, &all, FIRST.most, &mut scene)?;
    let mut dearest = draft_of(alloc, &scene, point)?;
    keep_dearest(&mut dearest);
    let point = ascended(alloc, instance, path, &dearest, FIRST.most, &mut scene)?;
    Ok((scene, point))
}
