// Shapes that weigh alike: of one kind if their ways are the same, and of one group if prices count the same of them too.
ghost use Rattle.std.specs.Prelude.{◌≡◌};
ghost use Rattle.shunt_blocks.specs.defs.Shapes.{AreRunsWithin};

use crate::numbers::{NOTHING, Number, in_thousandths};
use crate::slots::{Slot, room_of};
use crate::ways::{Way, ways_there};
use indexmap::IndexSet;
use shunt_base::DepId;
use shunt_blocks::{Block, Park, Shape, block_cost, block_length, has_placed, in_range, unit_from};
use shunt_choices::options;
use shunt_instance::{Instance, Origin};
use std::alloc::{AllocError, Global};
use std::num::Wrapping;

/// Stands for a way that isn't there.
pub(crate) const NO_WAY: Number = Wrapping(1 << 56);

/// What shapes of one kind have in common: where they come from and go to, their length, the types of their units, a bit for each, where
/// any track asks for them, and, where one of their units has come already, which units they are.
#[derive(Clone, Copy, PartialEq, Eq, Hash, Drop)]
struct Likeness {
    from: u16,
    to: u16,
    long: u32,
    types: u64,
    come: usize,
}

/// Shapes of a length in dm that have the same ways for each track: the first one, the least ways by track, and those that are there, from the
/// lightest on.
#[derive(Drop)]
pub(crate) struct Kind {
    pub first: Shape,
    pub long: u32,
    pub ways: Vec<Number>,
    pub by_weight: Vec<Way>,
}

/// The kinds that are known, and what the shapes of each have in common, at the same places.
#[derive(Drop)]
pub(crate) struct Kinds {
    known: IndexSet<Likeness>,
    pub all: Vec<Kind>,
}

/// What shapes of one group have in common: their kind, at how many prices' moments they haven't come, and at how many they haven't gone.
#[derive(Clone, Copy, PartialEq, Eq, Hash, Drop)]
struct Timing {
    kind: usize,
    early: usize,
    late: usize,
}

/// What a price counts of the shapes of a group that are parked on its track.
#[derive(Clone, Copy)]
pub(crate) struct Count {
    pub slot: usize,
    pub track: usize,
    pub count: Number,
}

/// Shapes that weigh alike but for their ends: their kind, and what they count for each price.
#[derive(Drop)]
pub(crate) struct Group {
    pub kind: usize,
    pub counts: Vec<Count>,
}

/// The groups by some prices that are known, and what the shapes of each have in common, at the same places; for each arriving train at how
/// many of the prices' moments it hasn't come, and for each departing train at how many it hasn't gone.
#[derive(Drop)]
pub(crate) struct Groups {
    known: IndexSet<Timing>,
    pub all: Vec<Group>,
    early: Vec<usize>,
    late: Vec<usize>,
}

// A shape with an option as a block.
pub(crate) fn block_with(shape: Shape, park: Option<Park>) -> Block
    ensures { result ≡ record {
      id = 1;
      arr = shape.arr;
      p = shape.p;
      n = shape.n;
      dep = shape.dep;
      q = shape.q;
      park = park;
    } }
{
    Block {
        id: 1,
        arr: shape.arr,
        p: shape.p,
        n: shape.n,
        dep: shape.dep,
        q: shape.q,
        park,
    }
}

// What the ends of a shape cost.
pub(crate) fn ends(instance: &Instance, p: u8, q: u8) -> Number {
    let station = instance.station();
    let split = if p == 1 { 0 } else { station.split };
    let couple = if q == 1 { 0 } else { station.couple };
    in_thousandths(split) + in_thousandths(couple)
}

// What a block weighs by its cost alone, and nothing where it isn't in range.
pub(crate) fn weight(instance: &Instance, block: &Block) -> Number {
    if !in_range(instance, block) {
        return NOTHING;
    }
    in_thousandths(u32::try_from(block_cost(instance, block)).unwrap_or(0))
}

// The length of a shape in dm.
fn length_of(instance: &Instance, shape: Shape) -> u32
    requires { AreRunsWithin instance.now shape }
{
    block_length(instance, &block_with(shape, None))
}

// The types of a shape's units, a bit for each, where any track asks for them.
fn types_of(instance: &Instance, shape: Shape) -> u64
    requires { AreRunsWithin instance.now shape }
{
    if instance.station().permits.is_empty() {
        return 0;
    }
    let first = unit_from(instance, shape);
    let mut types = 0;
    for k in 0..shape.n as usize {
        types |= 1u64.wrapping_shl(u32::from(instance.unit(first + k).kind.0));
    }
    types
}

// Another number for each place that a train comes from or goes to.
fn number_of(origin: Origin) -> u16 {
    match origin {
        Origin::Platform(platform) => u16::from(platform.0),
        Origin::Track(track) => 256 + u16::from(track.0),
    }
}

// A number for the units of a shape where one of them has come already, and 0 for all others.
fn come_of(instance: &Instance, shape: Shape) -> usize
    requires { AreRunsWithin instance.now shape }
{
    if !has_placed(instance, &block_with(shape, None)) {
        return 0;
    }
    16 * unit_from(instance, shape) + usize::from(shape.n)
}

fn likeness_of(instance: &Instance, shape: Shape) -> Likeness
    requires { AreRunsWithin instance.now shape }
{
    Likeness {
        from: number_of(instance.arrive(shape.arr).origin),
        to: number_of(instance.depart(shape.dep).origin),
        long: length_of(instance, shape),
        types: types_of(instance, shape),
        come: come_of(instance, shape),
    }
}

// Takes one more option into the least ways by track, where its track is long enough.
fn take_way(instance: &Instance, shape: Shape, long: u32, park: Park, ways: &mut [Number]) {
    if long > room_of(instance, park.track) {
        return;
    }
    let way = weight(instance, &block_with(shape, Some(park))) - ends(instance, shape.p, shape.q);
    if let Some(least) = ways.get_mut(park.track.0 as usize) {
        if way < *least {
            *least = way;
        }
    }
}

fn ways_of(
    alloc: Global,
    instance: &Instance,
    shape: Shape,
    long: u32,
) -> Result<Vec<Number>, AllocError>
    requires { AreRunsWithin instance.now shape }
{
    let mut ways = vec![in alloc; NO_WAY; instance.station().tracks.len()]?;
    for option in options(instance, shape) {
        if let Some(park) = option {
            take_way(instance, shape, long, park, &mut ways);
        }
    }
    Ok(ways)
}

impl Kinds {
    /// None.
    pub(crate) fn new(alloc: Global) -> Kinds {
        Kinds {
            known: IndexSet::new(alloc),
            all: Vec::new(alloc),
        }
    }

    /// The number of a shape's kind, which is made where it is the first of its kind. Err is want of memory.
    pub(crate) fn number(
        &mut self,
        alloc: Global,
        instance: &Instance,
        shape: Shape,
    ) -> Result<usize, AllocError>
        requires { AreRunsWithin instance.now shape }
    {
        let likeness = likeness_of(instance, shape);
        let (number, is_new) = self.known.insert_full(likeness)?;
        if is_new {
            let ways = ways_of(alloc, instance, shape, likeness.long)?;
            self.all.push(Kind {
                first: shape,
                long: likeness.long,
                by_weight: ways_there(alloc, &ways)?,
                ways,
            })?;
        }
        Ok(number)
    }
}

/// The minute at which a departing train leaves, and 0 where there is none.
pub(crate) fn leaving(instance: &Instance, dep: DepId) -> u16 {
    if dep.0 as usize >= instance.departures() {
        return 0;
    }
    instance.depart(dep).minute.number()
}

// For each arriving train at how many prices' moments it hasn't come.
fn early_at(alloc: Global, instance: &Instance, slots: &[Slot]) -> Result<Vec<usize>, AllocError> {
    let mut early = Vec::with_capacity(alloc, instance.arrivals())?;
    for arr in 0..instance.arrivals() {
        let before = slots.iter().filter(|slot| (slot.train.0 as usize) < arr);
        early.push(before.count())?;
    }
    Ok(early)
}

// For each departing train at how many prices' moments it hasn't gone.
fn late_at(alloc: Global, instance: &Instance, slots: &[Slot]) -> Result<Vec<usize>, AllocError> {
    let mut late = Vec::with_capacity(alloc, instance.departures())?;
    for dep in 0..instance.departures() {
        let leaves = leaving(instance, DepId(dep as u8));
        late.push(slots.iter().filter(|slot| slot.minute < leaves).count())?;
    }
    Ok(late)
}

// What the prices count of a shape, those that count anything.
fn counts_of(
    alloc: Global,
    instance: &Instance,
    slots: &[Slot],
    shape: Shape,
    long: u32,
) -> Result<Vec<Count>, AllocError> {
    let leaves = leaving(instance, shape.dep);
    let mut counts = Vec::new(alloc);
    for (place, slot) in slots.iter().enumerate() {
        let count = slot.count(long);
        if long <= slot.room && slot.stands(shape.arr, leaves) && count > NOTHING {
            counts.push(Count {
                slot: place,
                track: slot.track.0 as usize,
                count,
            })?;
        }
    }
    Ok(counts)
}

fn count_at(counts: &[usize], place: u8) -> usize {
    counts.get(place as usize).copied().unwrap_or(0)
}

impl Groups {
    /// None, for some prices. Err is want of memory.
    pub(crate) fn new(
        alloc: Global,
        instance: &Instance,
        slots: &[Slot],
    ) -> Result<Groups, AllocError> {
        Ok(Groups {
            known: IndexSet::new(alloc),
            all: Vec::new(alloc),
            early: early_at(alloc, instance, slots)?,
            late: late_at(alloc, instance, slots)?,
        })
    }

    /// The number of the group of a shape of a kind and a length, which is made where it is the first of its group. Err is want of memory.
    pub(crate) fn number(
        &mut self,
        alloc: Global,
        instance: &Instance,
        slots: &[Slot],
        shape: Shape,
        kind: usize,
        long: u32,
    ) -> Result<usize, AllocError> {
        let (number, is_new) = self.known.insert_full(Timing {
            kind,
            early: count_at(&self.early, shape.arr.0),
            late: count_at(&self.late, shape.dep.0),
        })?;
        if is_new {
            self.all.push(Group {
                kind,
                counts: counts_of(alloc, instance, slots, shape, long)?,
            })?;
        }
        Ok(number)
    }
}

/// A group for each kind where there are no prices. Err is want of memory.
pub(crate) fn without_prices(alloc: Global, kinds: &Kinds) -> Result<Vec<Group>, AllocError> {
    let mut groups = Vec::with_capacity(alloc, kinds.all.len())?;
    for kind in 0..kinds.all.len() {
        groups.push(Group {
            kind,
            counts: Vec::new(alloc),
        })?;
    }
    Ok(groups)
}
