// What a path leaves free: shapes, in groups that weigh alike by the same prices, and what the path's own blocks come to.
ghost use Rattle.std.specs.Prelude.{◌<◌};
ghost use Rattle.shunt_instance.specs.defs.Instance.{Night, unit_total};
ghost use Rattle.shunt_choices.specs.defs.Free.{AreMasksOf};
ghost use Rattle.shunt_choices.specs.defs.Paths.{IsTrailOf};

use crate::groups::{Group, Groups, Kind, Kinds, ends, weight, without_prices};
use crate::numbers::{NOTHING, Number, add_at, in_thousandths};
use crate::points::{Point, Span};
use crate::scales::grain;
use crate::slots::Slot;
use crate::ways::Way;
use shunt_blocks::{Block, Shape, are_runs_within, block_length, in_range, position_from};
use shunt_choices::{Covered, Path, shapes_from};
use shunt_instance::Instance;
use std::alloc::{AllocError, Global};
use std::mem;
use std::num::Wrapping;

/// A free shape: its first position, its number of units, its group, and what its ends weigh.
#[derive(Clone, Copy)]
pub(crate) struct Row {
    pub shape: Shape,
    pub v: usize,
    pub n: usize,
    pub group: usize,
    pub ends: Number,
}

/// A unit, and the free shapes that begin at it.
#[derive(Drop)]
pub(crate) struct Stand {
    pub covered: bool,
    /// Whether the unit before it is of its train.
    pub follows: bool,
    pub rows: Vec<Row>,
}

/// A block that may come next: its first unit, its shape, its track if it has one, and what it weighs by its cost alone.
#[derive(Clone, Copy)]
pub(crate) struct Entry {
    pub u: usize,
    pub row: Row,
    pub track: Option<usize>,
    pub cost: Number,
}

/// What a path leaves free, and what its own blocks come to.
#[derive(Drop)]
pub(crate) struct Scene {
    pub slots: Vec<Slot>,
    pub kinds: Vec<Kind>,
    pub groups: Vec<Group>,
    pub stands: Vec<Stand>,
    /// For each position whether it is free.
    pub free: Vec<bool>,
    pub tracks: usize,
    /// What the constants of a search count in, in cost units.
    pub grain: i64,
    /// What an unparked block weighs but for its ends.
    pub unparked: Number,
    /// What the path's blocks weigh, and how many of them are unparked.
    pub paid: Number,
    pub left: Number,
    /// For each price what the path's blocks count there less its most.
    pub counts: Vec<Number>,
    /// If there are any, a case comes to the least that it comes to at the path with one of these.
    pub entries: Vec<Entry>,
}

// Adds a shape to those that begin at its unit, in the group of its kind.
fn add_row(
    alloc: Global,
    instance: &Instance,
    shape: Shape,
    kinds: &mut Kinds,
    rows: &mut Vec<Row>,
) -> Result<(), AllocError> {
    if !are_runs_within(instance, shape) {
        return Ok(());
    }
    let kind = kinds.number(alloc, instance, shape)?;
    rows.push(Row {
        shape,
        v: position_from(instance, shape),
        n: shape.n as usize,
        group: kind,
        ends: ends(instance, shape.p, shape.q),
    })?;
    Ok(())
}

// What a path covers.
fn covered_by(path: &Path) -> &Covered
    ensures { (night : Night) → IsTrailOf night path.now → AreMasksOf night result.now }
{
    path.covered()
}

// A unit with the free shapes that begin at it.
fn stand_of(
    alloc: Global,
    instance: &Instance,
    path: &Path,
    u: usize,
    kinds: &mut Kinds,
) -> Result<Stand, AllocError>
    requires path { IsTrailOf instance.now path.now }
    requires unit { u < unit_total instance.now }
{
    let mut rows = Vec::new(alloc);
    for shape in shapes_from(instance, u, covered_by(path)) {
        add_row(alloc, instance, shape, kinds, &mut rows)?;
    }
    Ok(Stand {
        covered: path.covered().units().get(u).copied().unwrap_or(true),
        follows: instance.unit(u).place > 1,
        rows,
    })
}

// What a block of the path counts for each price.
fn count_block(instance: &Instance, slots: &[Slot], block: &Block, counts: &mut [Number]) {
    let Some(park) = block.park else {
        return;
    };
    if !in_range(instance, block) {
        return;
    }
    let long = block_length(instance, block);
    let leaves = instance.depart(block.dep).minute.number();
    for (place, slot) in slots.iter().enumerate() {
        if slot.track == park.track && slot.stands(block.arr, leaves) {
            add_at(counts, place, slot.count(long));
        }
    }
}

// Finds for each price what these blocks count there less its most.
fn count_blocks(instance: &Instance, slots: &[Slot], blocks: &[Block], counts: &mut [Number]) {
    for (count, slot) in counts.iter_mut().zip(slots) {
        *count = -slot.most();
    }
    for block in blocks {
        count_block(instance, slots, block, counts);
    }
}

// For each position whether no block of the path has it.
fn free_positions(alloc: Global, path: &Path) -> Result<Vec<bool>, AllocError> {
    let mut free = Vec::new(alloc);
    for covered in path.covered().places() {
        free.push(!*covered)?;
    }
    Ok(free)
}

fn unparked_in(blocks: &[Block]) -> Number {
    let mut unparked = NOTHING;
    for block in blocks {
        if block.park.is_none() {
            unparked += 1;
        }
    }
    unparked
}

fn paid_for(instance: &Instance, blocks: &[Block]) -> Number {
    let mut paid = NOTHING;
    for block in blocks {
        paid += weight(instance, block);
    }
    paid
}

// Puts shapes of some groups into the groups by these prices.
fn regroup(
    alloc: Global,
    instance: &Instance,
    slots: &[Slot],
    kinds: &[Kind],
    old: &[Group],
    rows: &mut [Row],
    groups: &mut Groups,
) -> Result<(), AllocError> {
    for row in rows.iter_mut() {
        if let Some(group) = old.get(row.group) {
            let kind = group.kind;
            let long = kinds.get(kind).map_or(0, |kind| kind.long);
            row.group = groups.number(alloc, instance, slots, row.shape, kind, long)?;
        }
    }
    Ok(())
}

impl Scene {
    /// What a path leaves free, without prices. Err is want of memory.
    pub(crate) fn new(alloc: Global, instance: &Instance, path: &Path) -> Result<Scene, AllocError>
        requires { IsTrailOf instance.now path.now }
    {
        let mut kinds = Kinds::new(alloc);
        let mut stands = Vec::new(alloc);
        for u in 0..instance.units() {
            stands.push(stand_of(alloc, instance, path, u, &mut kinds)?)?;
        }
        let mut scene = Scene {
            slots: Vec::new(alloc),
            groups: without_prices(alloc, &kinds)?,
            kinds: kinds.all,
            stands,
            free: free_positions(alloc, path)?,
            tracks: instance.station().tracks.len(),
            grain: i64::from(grain(alloc, instance)?),
            unparked: in_thousandths(instance.station().unparked),
            paid: NOTHING,
            left: NOTHING,
            counts: Vec::new(alloc),
            entries: Vec::new(alloc),
        };
        scene.count(instance, path.blocks());
        Ok(scene)
    }

    /// Takes these prices in the place of others, for the path of these blocks. Err is want of memory.
    pub(crate) fn price(
        &mut self,
        alloc: Global,
        instance: &Instance,
        blocks: &[Block],
        slots: Vec<Slot>,
    ) -> Result<(), AllocError> {
        let old = mem::replace(&mut self.groups, Vec::new(alloc));
        let mut groups = Groups::new(alloc, instance, &slots)?;
        for stand in &mut self.stands {
            let rows = &mut stand.rows;
            regroup(
                alloc,
                instance,
                &slots,
                &self.kinds,
                &old,
                rows,
                &mut groups,
            )?;
        }
        self.groups = groups.all;
        self.counts = vec![in alloc; NOTHING; slots.len()]?;
        self.slots = slots;
        self.count(instance, blocks);
        Ok(())
    }

    /// Most of what an unparked block weighs but for its ends.
    pub(crate) fn most_of_unparked(&self) -> Number {
        Wrapping(self.unparked.0 / 100 * 94)
    }

    /// The least ways for each track of the shapes of a group.
    pub(crate) fn ways(&self, group: &Group) -> &[Number] {
        match self.kinds.get(group.kind) {
            Some(kind) => &kind.ways,
            None => &[],
        }
    }

    /// The least ways to tracks of the shapes of a group, from the lightest on.
    pub(crate) fn ways_by_weight(&self, group: &Group) -> &[Way] {
        match self.kinds.get(group.kind) {
            Some(kind) => &kind.by_weight,
            None => &[],
        }
    }

    /// What the path's blocks, prices, the multiplier and the values of free positions come to in a case.
    pub(crate) fn stated(&self, span: Span, point: &Point) -> Number {
        let mut sum = self.paid + point.multiplier * (self.left - span.dearest(point.multiplier));
        for (price, count) in point.prices.iter().zip(&self.counts) {
            sum += *price * *count;
        }
        for (beta, free) in point.beta.iter().zip(&self.free) {
            if *free {
                sum += *beta;
            }
        }
        sum
    }

    /// The lengths of its shapes, each once. Err is want of memory.
    pub(crate) fn lengths(&self, alloc: Global) -> Result<Vec<u32>, AllocError> {
        let mut lengths = Vec::with_capacity(alloc, self.kinds.len())?;
        for kind in &self.kinds {
            lengths.push(kind.long)?;
        }
        lengths.sort_unstable();
        lengths.dedup();
        Ok(lengths)
    }

    /// Finds what a path's blocks come to.
    pub(crate) fn count(&mut self, instance: &Instance, blocks: &[Block]) {
        self.paid = paid_for(instance, blocks);
        self.left = unparked_in(blocks);
        count_blocks(instance, &self.slots, blocks, &mut self.counts);
    }

    // Whether there is a unit that isn't covered.
    fn is_free(&self, u: usize) -> bool {
        match self.stands.get(u) {
            Some(stand) => !stand.covered,
            None => false,
        }
    }

    // Whether the unit before one is of its train.
    fn follows(&self, u: usize) -> bool {
        match self.stands.get(u) {
            Some(stand) => stand.follows,
            None => false,
        }
    }

    /// Whether a unit continues its train, and isn't covered.
    pub(crate) fn continues(&self, u: usize) -> bool {
        self.follows(u) && self.is_free(u)
    }

    /// Whether a unit isn't covered, and the one before it isn't of its train or is covered.
    pub(crate) fn begins(&self, u: usize) -> bool {
        if !self.is_free(u) {
            return false;
        }
        !self.follows(u) || !self.is_free(u.saturating_sub(1))
    }
}
