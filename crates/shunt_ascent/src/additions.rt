// The prices that cases have beside stacks.
ghost use Rattle.std.specs.Prelude.{◌<◌, length};

use crate::drafts::{MOST, is_moment, parts_beside};
use crate::groups::leaving;
use crate::lifts::Held;
use crate::numbers::{NOTHING, Number, at};
use crate::places::Place;
use crate::points::{Point, Values};
use crate::scenes::{Row, Stand};
use crate::slots::{Slot, has_slot, length_slot};
use shunt_base::{ArrId, TrackId};
use shunt_instance::Instance;
use std::alloc::{AllocError, Global};

/// How many prices there are beside stacks at most, since a matrix of an ascent has as many rows and columns.
const WIDE: usize = 600;

// Whether a shape goes by a stack of a track.
fn is_by_stack(place: &Place, row: &Row, track: usize) -> bool {
    let Some(ways) = place.stacks.ways_of(&place.scene, row.group) else {
        return false;
    };
    ways.same.iter().any(|way| way.place / 2 == track)
}

// Whether the shapes that begin at a unit and go by a stack of a price's track all stand there at its moment.
fn all_stand_at(instance: &Instance, place: &Place, stand: &Stand, slot: &Slot) -> bool {
    for row in &stand.rows {
        let leaves = leaving(instance, row.shape.dep);
        let track = slot.track.0 as usize;
        if !slot.stands(row.shape.arr, leaves) && is_by_stack(place, row, track) {
            return false;
        }
    }
    true
}

// Whether all shapes that go by a stack of a track stand there when a train comes.
fn all_stand(instance: &Instance, place: &Place, track: TrackId, train: ArrId) -> bool
    requires { train.0 < length instance.now.arrive }
{
    let slot = length_slot(instance, track, train);
    for stand in &place.scene.stands {
        if !all_stand_at(instance, place, stand, &slot) {
            return false;
        }
    }
    true
}

// Whether all shapes that go by a stack of a track stand there at one moment.
fn stand_together(instance: &Instance, place: &Place, track: TrackId) -> bool {
    for train in 0..instance.arrivals() {
        let moment = is_moment(instance, train);
        if moment && all_stand(instance, place, track, ArrId(train as u8)) {
            return true;
        }
    }
    false
}

// Whether a track has one stack alone, and all that can stand there stands at one moment: its stack then knows its room.
fn needs_no_price(instance: &Instance, place: &Place, track: TrackId) -> bool {
    let number = track.0 as usize;
    if place.stacks.is_crossed(number) || place.stacks.has_two(number) {
        return false;
    }
    stand_together(instance, place, track)
}

fn add_slot(slots: &mut Vec<Slot>, slot: Slot) -> Result<(), AllocError> {
    if !has_slot(slots, &slot) {
        slots.push(slot)?;
    }
    Ok(())
}

// Adds a price of length with those of parts that may be worth more.
fn add_with_parts(
    alloc: Global,
    lengths: &[u32],
    slot: Slot,
    slots: &mut Vec<Slot>,
) -> Result<(), AllocError> {
    add_slot(slots, slot)?;
    for part in &parts_beside(alloc, lengths, &slot)? {
        add_slot(slots, *part)?;
    }
    Ok(())
}

// Adds the prices of a track at all moments that no later one takes the place of.
fn add_all(
    alloc: Global,
    instance: &Instance,
    lengths: &[u32],
    track: TrackId,
    slots: &mut Vec<Slot>,
) -> Result<(), AllocError> {
    for train in 0..instance.arrivals() {
        if is_moment(instance, train) {
            let slot = length_slot(instance, track, ArrId(train as u8));
            add_with_parts(alloc, lengths, slot, slots)?;
        }
    }
    Ok(())
}

/// The prices beside stacks at a place: those that are known, with which no stack brings anything yet, and all others on tracks that need some, unless
/// these are too many. Err is want of memory.
pub(crate) fn slots_beside(
    alloc: Global,
    instance: &Instance,
    place: &Place,
    known: &[Slot],
) -> Result<Vec<Slot>, AllocError> {
    let lengths = place.scene.lengths(alloc)?;
    let mut slots = Vec::from_slice(alloc, known)?;
    for track in 0..place.scene.tracks {
        let track = TrackId(u8::try_from(track).unwrap_or(u8::MAX));
        if !needs_no_price(instance, place, track) {
            add_all(alloc, instance, &lengths, track, &mut slots)?;
        }
        if slots.len() > WIDE {
            slots.truncate(known.len());
            return Ok(slots);
        }
    }
    Ok(slots)
}

/// A price with what it is worth.
#[derive(Clone, Copy)]
struct Worth {
    slot: Slot,
    number: usize,
    worth: Number,
}

fn price_at(held: &Held, number: usize) -> Number {
    at(&held.case.values.point.prices, number)
}

/// The 64 prices of a place that are worth most in some case: in the last, or in the first if there is one. Err is want of memory.
pub(crate) fn dearest(
    alloc: Global,
    place: &Place,
    first: Option<&Held>,
    last: &Held,
) -> Result<Vec<Slot>, AllocError> {
    let mut worths = Vec::new(alloc);
    for (number, slot) in place.scene.slots.iter().enumerate() {
        let other = first.map_or(NOTHING, |held| price_at(held, number));
        let worth = price_at(last, number).max(other) * slot.most();
        if worth > NOTHING {
            worths.push(Worth {
                slot: *slot,
                number,
                worth,
            })?;
        }
    }
    worths.sort_unstable_by_key(|price| (-price.worth, price.number));
    worths.truncate(MOST);
    slots_in(alloc, &worths)
}

fn slots_in(alloc: Global, worths: &[Worth]) -> Result<Vec<Slot>, AllocError> {
    let mut slots = Vec::with_capacity(alloc, worths.len())?;
    for price in worths {
        slots.push(price.slot)?;
    }
    Ok(slots)
}

// The value of a price by those of some, and nothing where it isn't among them.
fn value_in(slots: &[Slot], values: &[Number], slot: &Slot) -> Number {
    for (other, value) in slots.iter().zip(values) {
        if *other == *slot {
            return *value;
        }
    }
    NOTHING
}

/// The same numbers for other prices. Err is want of memory.
pub(crate) fn moved(
    alloc: Global,
    values: Values,
    from: &[Slot],
    to: &[Slot],
) -> Result<Values, AllocError> {
    let mut prices = Vec::with_capacity(alloc, to.len())?;
    for slot in to {
        prices.push(value_in(from, &values.point.prices, slot))?;
    }
    let Values { alpha, point } = values;
    Ok(Values {
        alpha,
        point: Point {
            beta: point.beta,
            prices,
            multiplier: point.multiplier,
        },
    })
}
