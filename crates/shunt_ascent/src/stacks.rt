// The stacks of a night: each end of a track, with the blocks that come and go by it.
use crate::events::Events;
use crate::groups::{Kind, NO_WAY, block_with, ends, weight};
use crate::numbers::Number;
use crate::rooms::Rooms;
use crate::scenes::Scene;
use crate::slots::room_of;
use crate::tables::{Part, first_leave};
use crate::ways::{Way, sort, ways_there};
use shunt_base::{Side, TrackId};
use shunt_blocks::{
    Block, Park, Shape, are_runs_within, block_length, in_range, position_from, shape_of, unit_from,
};
use shunt_choices::options;
use shunt_instance::Instance;
use std::alloc::{AllocError, Global};

/// The ways of shapes of a kind, each from the lightest on: the least across each track, and those by stacks; and the place of their length.
#[derive(Drop)]
pub(crate) struct Ways {
    pub across: Vec<Way>,
    pub same: Vec<Way>,
    pub long: usize,
}

impl Ways {
    /// The ways by stacks that weigh less than this.
    pub(crate) fn lighter_than(&self, worth: Number) -> &[Way] {
        let count = self.same.partition_point(|way| way.weight < worth);
        self.same.get(..count).unwrap_or(&[])
    }
}

/// The stacks of a night, two for each track: side A of track 0, side B of track 0, and so on.
#[derive(Drop)]
pub(crate) struct Stacks {
    pub events: Events,
    /// The rooms of each track.
    rooms: Vec<Rooms>,
    /// The ways of each kind of shapes.
    ways: Vec<Ways>,
}

/// A block of a path on a stack: the numbers of its first entry and its last leave, how many units it has, and its length in dm.
#[derive(Clone, Copy)]
struct Parked {
    enters: u16,
    leaves: u16,
    n: u16,
    long: u32,
}

/// What a path leaves of a stack.
#[derive(Drop)]
pub(crate) struct Space {
    /// The parts of the order of events, from the entry of the first uncovered unit on.
    pub parts: Vec<Part>,
    // The blocks of the path that come later.
    later: Vec<Parked>,
}

/// The stack of blocks that are parked so. None where they go by another side than they came.
pub(crate) fn stack_of(park: Park) -> Option<usize> {
    if park.side_in != park.side_out {
        return None;
    }
    let first = (park.track.0 as usize).saturating_mul(2);
    Some(match park.side_in {
        Side::A => first,
        Side::B => first.saturating_add(1),
    })
}

// Takes one more option into the ways of a shape.
fn take_way(
    instance: &Instance,
    shape: Shape,
    park: Park,
    across: &mut [Number],
    same: &mut Vec<Way>,
) -> Result<(), AllocError> {
    let way = weight(instance, &block_with(shape, Some(park))) - ends(instance, shape.p, shape.q);
    if let Some(stack) = stack_of(park) {
        same.push(Way {
            place: stack,
            weight: way,
        })?;
        return Ok(());
    }
    if let Some(least) = across.get_mut(park.track.0 as usize) {
        *least = (*least).min(way);
    }
    Ok(())
}

// Takes the options of a shape of a length in dm into its ways.
fn take_ways(
    instance: &Instance,
    shape: Shape,
    long: u32,
    across: &mut [Number],
    same: &mut Vec<Way>,
) -> Result<(), AllocError> {
    if !are_runs_within(instance, shape) {
        return Ok(());
    }
    for option in options(instance, shape) {
        if let Some(park) = option {
            if long <= room_of(instance, park.track) {
                take_way(instance, shape, park, across, same)?;
            }
        }
    }
    Ok(())
}

// The ways of a kind's shapes.
fn ways_of(
    alloc: Global,
    instance: &Instance,
    kind: &Kind,
    lengths: &[u32],
) -> Result<Ways, AllocError> {
    let mut across = vec![in alloc; NO_WAY; instance.station().tracks.len()]?;
    let mut same = Vec::new(alloc);
    take_ways(instance, kind.first, kind.long, &mut across, &mut same)?;
    sort(&mut same);
    Ok(Ways {
        across: ways_there(alloc, &across)?,
        same,
        long: lengths.partition_point(|other| *other < kind.long),
    })
}

// The ways of each kind of a scene's shapes.
fn all_ways(
    alloc: Global,
    instance: &Instance,
    scene: &Scene,
    lengths: &[u32],
) -> Result<Vec<Ways>, AllocError> {
    let mut ways = Vec::with_capacity(alloc, scene.kinds.len())?;
    for kind in &scene.kinds {
        ways.push(ways_of(alloc, instance, kind, lengths)?)?;
    }
    Ok(ways)
}

// A block of a path that goes by some stack.
fn parked_of(instance: &Instance, events: &Events, block: &Block) -> Option<Parked> {
    if !in_range(instance, block) {
        return None;
    }
    let shape = shape_of(block);
    Some(Parked {
        enters: events.entry(unit_from(instance, shape)),
        leaves: events.leave(position_from(instance, shape)),
        n: u16::from(block.n),
        long: block_length(instance, block),
    })
}

// The blocks of a path that go by a stack.
fn parked_on(
    alloc: Global,
    instance: &Instance,
    events: &Events,
    blocks: &[Block],
    stack: usize,
) -> Result<Vec<Parked>, AllocError> {
    let mut parked = Vec::new(alloc);
    for block in blocks {
        if block.park.and_then(stack_of) == Some(stack) {
            if let Some(found) = parked_of(instance, events, block) {
                parked.push(found)?;
            }
        }
    }
    Ok(parked)
}

// Those of these blocks that stand when an event comes, in the order in which they leave.
fn standing_at(alloc: Global, parked: &[Parked], event: u16) -> Result<Vec<Parked>, AllocError> {
    let mut standing = Vec::new(alloc);
    for block in parked {
        if block.enters < event && event < block.leaves {
            standing.push(*block)?;
        }
    }
    standing.sort_unstable_by_key(|block| block.leaves);
    Ok(standing)
}

// Those of these blocks that come at an event or later.
fn later_than(alloc: Global, parked: &[Parked], event: u16) -> Result<Vec<Parked>, AllocError> {
    let mut later = Vec::new(alloc);
    for block in parked {
        if event <= block.enters {
            later.push(*block)?;
        }
    }
    Ok(later)
}

fn length_together(standing: &[Parked]) -> u32 {
    let mut sum = 0u32;
    for block in standing {
        sum = sum.saturating_add(block.long);
    }
    sum
}

// The parts of a stack from an event on that standing blocks leave: inside the first one to leave, behind it, and so on.
fn parts_of(
    alloc: Global,
    rooms: &Rooms,
    standing: &[Parked],
    first: u16,
    count: u16,
) -> Result<Vec<Part>, AllocError> {
    let mut room = rooms.whole.saturating_sub(length_together(standing));
    let mut from = first;
    let mut parts = Vec::new(alloc);
    for block in standing {
        parts.push(Part {
            from,
            to: first_leave(block.leaves, block.n),
            room: rooms.place_of(room),
        })?;
        from = block.leaves.saturating_add(1);
        room = room.saturating_add(block.long);
    }
    parts.push(Part {
        from,
        to: count,
        room: rooms.place_of(room),
    })?;
    Ok(parts)
}

impl Space {
    /// The part in which an event lies.
    pub(crate) fn part_at(&self, event: u16) -> Option<Part> {
        for part in &self.parts {
            if part.from <= event && event < part.to {
                return Some(*part);
            }
        }
        None
    }

    /// Whether a block of the path comes later and crosses one that comes and goes at these events.
    pub(crate) fn is_crossed(&self, enters: u16, leaves: u16) -> bool {
        for block in &self.later {
            let is_inside = enters < block.enters && block.enters < leaves;
            let is_around = block.enters < enters && enters < block.leaves;
            if is_inside && leaves < block.leaves || is_around && block.leaves < leaves {
                return true;
            }
        }
        false
    }
}

impl Stacks {
    /// The stacks of a night for the shapes of a scene. Err is want of memory.
    pub(crate) fn new(
        alloc: Global,
        instance: &Instance,
        scene: &Scene,
    ) -> Result<Stacks, AllocError> {
        let lengths = scene.lengths(alloc)?;
        let mut rooms = Vec::with_capacity(alloc, scene.tracks)?;
        for track in 0..scene.tracks {
            let track = TrackId(u8::try_from(track).unwrap_or(u8::MAX));
            rooms.push(Rooms::new(alloc, room_of(instance, track), &lengths)?)?;
        }
        Ok(Stacks {
            events: Events::new(alloc, instance)?,
            rooms,
            ways: all_ways(alloc, instance, scene, &lengths)?,
        })
    }

    /// How many there are.
    pub(crate) fn len(&self) -> usize {
        self.rooms.len().saturating_mul(2)
    }

    /// The rooms of a stack's track.
    pub(crate) fn rooms_of(&self, stack: usize) -> Option<&Rooms> {
        self.rooms.get(stack / 2)
    }

    /// The ways of a group's shapes.
    pub(crate) fn ways_of(&self, scene: &Scene, group: usize) -> Option<&Ways> {
        self.ways.get(scene.groups.get(group)?.kind)
    }

    /// Whether shapes go across a track.
    pub(crate) fn is_crossed(&self, track: usize) -> bool {
        for ways in &self.ways {
            if ways.across.iter().any(|way| way.place == track) {
                return true;
            }
        }
        false
    }

    // Whether shapes go by a stack.
    fn is_used(&self, stack: usize) -> bool {
        for ways in &self.ways {
            if ways.same.iter().any(|way| way.place == stack) {
                return true;
            }
        }
        false
    }

    /// Whether shapes go by both stacks of a track.
    pub(crate) fn has_two(&self, track: usize) -> bool {
        let first = track.saturating_mul(2);
        self.is_used(first) && self.is_used(first.saturating_add(1))
    }

    // What blocks leave of a stack from an event on.
    fn space_of(
        &self,
        alloc: Global,
        instance: &Instance,
        blocks: &[Block],
        stack: usize,
        first: u16,
    ) -> Result<Space, AllocError> {
        let parked = parked_on(alloc, instance, &self.events, blocks, stack)?;
        let standing = standing_at(alloc, &parked, first)?;
        Ok(Space {
            parts: match self.rooms_of(stack) {
                Some(rooms) => parts_of(alloc, rooms, &standing, first, self.events.count)?,
                None => Vec::new(alloc),
            },
            later: later_than(alloc, &parked, first)?,
        })
    }

    /// What a path leaves of each stack. Room that blocks take which come later is left as well. Err is want of memory.
    pub(crate) fn spaces(
        &self,
        alloc: Global,
        instance: &Instance,
        scene: &Scene,
        blocks: &[Block],
    ) -> Result<Vec<Space>, AllocError> {
        let next = scene.stands.iter().position(|stand| !stand.covered);
        let first = next.map_or(self.events.count, |u| self.events.entry(u));
        let mut spaces = Vec::with_capacity(alloc, self.len())?;
        for stack in 0..self.len() {
            spaces.push(self.space_of(alloc, instance, blocks, stack, first)?)?;
        }
        Ok(spaces)
    }
}
