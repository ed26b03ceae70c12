// Which numbers of a case an ascent changes.
use crate::numbers::{NOTHING, Number, ONE, at, put_at};
use crate::points::Point;
use crate::scenes::Scene;
use crate::slopes::Slopes;
use crate::slots::Slot;
use std::alloc::{AllocError, Global};
use std::num::Wrapping;

/// The greatest value of a price.
const DEAREST: Number = Wrapping(999_999_999 * ONE);

/// How far any number of a case goes from 0 at most.
const LIMIT: Number = Wrapping(470_000_000_000 * ONE);

/// The numbers of a case that an ascent changes, in their order: values of units and of positions, prices, of which those of length are 512 to
/// one, and a multiplier.
#[derive(Drop)]
pub(crate) struct Changes {
    pub units: Vec<usize>,
    pub positions: Vec<usize>,
    pub slots: Vec<usize>,
    pub multiplier: bool,
}

/// The free positions of a scene. Err is want of memory.
pub(crate) fn free_positions(alloc: Global, scene: &Scene) -> Result<Vec<usize>, AllocError> {
    let mut positions = Vec::new(alloc);
    for (v, free) in scene.free.iter().enumerate() {
        if *free {
            positions.push(v)?;
        }
    }
    Ok(positions)
}

/// The uncovered units of a scene. Err is want of memory.
pub(crate) fn free_units(alloc: Global, scene: &Scene) -> Result<Vec<usize>, AllocError> {
    let mut units = Vec::new(alloc);
    for (u, stand) in scene.stands.iter().enumerate() {
        if !stand.covered {
            units.push(u)?;
        }
    }
    Ok(units)
}

/// The prices of a scene that an ascent changes, with or without those of length. Err is want of memory.
pub(crate) fn slots_of(
    alloc: Global,
    scene: &Scene,
    lengths: bool,
) -> Result<Vec<usize>, AllocError> {
    let mut slots = Vec::new(alloc);
    for (place, slot) in scene.slots.iter().enumerate() {
        if lengths || !slot.is_by_length() {
            slots.push(place)?;
        }
    }
    Ok(slots)
}

/// How far the numbers of an ascent go from 0 at most.
pub(crate) fn farthest(scene: &Scene) -> Number {
    (DEAREST * Wrapping(scene.grain)).min(LIMIT)
}

/// How far a step of an ascent goes at most.
pub(crate) fn longest(scene: &Scene) -> i64 {
    scene.grain.saturating_mul(1 << 30)
}

/// A step of that many grains.
pub(crate) fn step_of(scene: &Scene, grains: i64) -> i64 {
    grains.saturating_mul(ONE).saturating_mul(scene.grain)
}

// How far a price is shifted to the left among the numbers.
fn shift_of(slot: &Slot) -> usize {
    if slot.is_by_length() { 9 } else { 0 }
}

fn shift_at(scene: &Scene, slot: usize) -> usize {
    scene.slots.get(slot).map_or(0, shift_of)
}

// Adds the numbers at some places of a list.
fn add_each(places: &[usize], from: &[Number], into: &mut Vec<Number>) -> Result<(), AllocError> {
    for place in places {
        into.push(at(from, *place))?;
    }
    Ok(())
}

// Writes numbers from one on over those at some places of a list.
fn write_each(places: &[usize], numbers: &[Number], first: usize, into: &mut [Number]) {
    for (k, place) in places.iter().enumerate() {
        put_at(into, *place, at(numbers, first.saturating_add(k)));
    }
}

// Writes the slopes at some places of a list over those from one on.
fn read_each(places: &[usize], slopes: &[Number], first: usize, into: &mut [Number]) {
    for (k, place) in places.iter().enumerate() {
        put_at(into, first.saturating_add(k), at(slopes, *place) << 9);
    }
}

// The slope of a price, 512 to one; a price below 0 counts as 0 and is to rise.
fn slope_of(scene: &Scene, slopes: &Slopes, price: Number, slot: usize) -> Number {
    if price < NOTHING {
        return Wrapping(1536);
    }
    at(&slopes.prices, slot) << 9usize.saturating_sub(shift_at(scene, slot))
}

impl Changes {
    // The place of the first price.
    fn first_price(&self) -> usize {
        self.units.len().saturating_add(self.positions.len())
    }

    /// The numbers of a point, with values of units. Err is want of memory.
    pub(crate) fn numbers(
        &self,
        alloc: Global,
        scene: &Scene,
        alpha: &[Number],
        point: &Point,
    ) -> Result<Vec<Number>, AllocError> {
        let mut numbers = Vec::new(alloc);
        add_each(&self.units, alpha, &mut numbers)?;
        add_each(&self.positions, &point.beta, &mut numbers)?;
        for slot in &self.slots {
            numbers.push(at(&point.prices, *slot) << shift_at(scene, *slot))?;
        }
        if self.multiplier {
            numbers.push(point.multiplier)?;
        }
        Ok(numbers)
    }

    /// Writes numbers over those of a point, and over values of units.
    pub(crate) fn write(
        &self,
        scene: &Scene,
        numbers: &[Number],
        alpha: &mut [Number],
        point: &mut Point,
    ) {
        write_each(&self.units, numbers, 0, alpha);
        write_each(&self.positions, numbers, self.units.len(), &mut point.beta);
        let first = self.first_price();
        for (k, slot) in self.slots.iter().enumerate() {
            let value = at(numbers, first.saturating_add(k)) >> shift_at(scene, *slot);
            put_at(&mut point.prices, *slot, value.max(NOTHING).min(DEAREST));
        }
        if self.multiplier {
            point.multiplier = at(numbers, numbers.len().saturating_sub(1));
        }
    }

    /// Writes the slopes of numbers over others, 512 to one.
    pub(crate) fn read_slopes(
        &self,
        scene: &Scene,
        slopes: &Slopes,
        numbers: &[Number],
        into: &mut [Number],
    ) {
        read_each(&self.units, &slopes.alpha, 0, into);
        read_each(&self.positions, &slopes.beta, self.units.len(), into);
        let first = self.first_price();
        for (k, slot) in self.slots.iter().enumerate() {
            let place = first.saturating_add(k);
            put_at(
                into,
                place,
                slope_of(scene, slopes, at(numbers, place), *slot),
            );
        }
        if self.multiplier {
            put_at(
                into,
                numbers.len().saturating_sub(1),
                slopes.multiplier << 9,
            );
        }
    }
}
