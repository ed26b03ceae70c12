// Which blocks are in range, and which are blocks by the rules.
ghost use Rattle.std.specs.Prelude.{◌≡◌, ◌<◌, ◌+◌, ◌↔◌, ℕ, IsTrue};
ghost use Rattle.shunt_instance.specs.defs.Instance.{unit_total, position_total};
ghost use Rattle.shunt_blocks.specs.defs.Shapes.{AreRunsWithin, IsWithinTrains, IsInRange, IsPair};
ghost use Rattle.shunt_blocks.specs.defs.Shapes.{IsShape, shape_of, unit_from, position_from};
ghost use Rattle.shunt_blocks.specs.defs.Shapes.{is_pair};
ghost use Rattle.shunt_blocks.specs.defs.Blocks.{IsBlock, IsOption, have_one_type, type_fault};
ghost use Rattle.shunt_blocks.specs.defs.Lists.{has_unit, has_position};

use crate::firsts::{position_from, unit_from};
use crate::records::{Block, Shape, shape_of};
use crate::ways::{is_option, permits_units};
use shunt_instance::Instance;

/// Whether both trains are there, and both runs end inside their trains.
pub fn are_runs_within(instance: &Instance, shape: Shape) -> bool
    ensures { IsTrue result ↔ AreRunsWithin instance.now shape }
{
    if shape.arr.0 as usize >= instance.arrivals() {
        return false;
    }
    if shape.dep.0 as usize >= instance.departures() {
        return false;
    }
    if shape.p < 1 {
        return false;
    }
    if shape.n < 1 {
        return false;
    }
    if shape.q < 1 {
        return false;
    }
    let units = instance.arrive(shape.arr).units.len();
    if shape.p as usize + shape.n as usize > units + 1 {
        return false;
    }
    let positions = instance.depart(shape.dep).units.len();
    shape.q as usize + shape.n as usize <= positions + 1
}

/// Whether trains, runs and track are the instance's.
fn is_within_trains(instance: &Instance, block: &Block) -> bool
    ensures { IsTrue result ↔ IsWithinTrains instance.now block.now }
{
    if !are_runs_within(instance, shape_of(block)) {
        return false;
    }
    match block.park {
        Some(park) => (park.track.0 as usize) < instance.station().tracks.len(),
        None => true,
    }
}

/// Whether the block's id is from 1 to 1,000,000, its trains and its track are the instance's, and both its runs begin at
/// place 1 or later, have a unit at least and end inside their trains.
pub fn in_range(instance: &Instance, block: &Block) -> bool
    ensures { IsTrue result ↔ IsInRange instance.now block.now }
{
    if block.id < 1 {
        return false;
    }
    if block.id > 1_000_000 {
        return false;
    }
    is_within_trains(instance, block)
}

/// Whether a unit and a position are matchable.
pub fn is_pair(instance: &Instance, u: usize, v: usize) -> bool
    requires unit { u < unit_total instance.now }
    requires position { v < position_total instance.now }
    ensures fact { IsTrue result ↔ IsPair instance.now u v }
    ensures is { result ≡ is_pair instance.now u v }
{
    if instance.unit(u).kind.0 != instance.position(v).kind.0 {
        return false;
    }
    instance.ready(u) <= instance.leaves(v).number()
}

/// Whether the units and positions are matchable pair by pair.
fn are_pairs(instance: &Instance, shape: Shape) -> bool
    requires { AreRunsWithin instance.now shape }
    ensures { IsTrue result ↔ ((k : ℕ) → k < shape.n → IsPair instance.now
        (unit_from instance.now shape + k) (position_from instance.now shape + k)) }
{
    let from = unit_from(instance, shape);
    let to = position_from(instance, shape);
    for k in 0..shape.n as usize {
        if !is_pair(instance, from + k, to + k) {
            return false;
        }
    }
    true
}

/// Whether this is a shape of the instance.
fn is_shape(instance: &Instance, shape: Shape) -> bool
    ensures { IsTrue result ↔ IsShape instance.now shape }
{
    if !are_runs_within(instance, shape) {
        return false;
    }
    are_pairs(instance, shape)
}

/// Whether the block is a shape with one of its options and an id. It isn't where it is out of range.
pub fn fits(instance: &Instance, block: &Block) -> bool
    ensures { IsTrue result ↔ IsBlock instance.now block.now }
{
    if !in_range(instance, block) {
        return false;
    }
    let shape = shape_of(block);
    if !is_shape(instance, shape) {
        return false;
    }
    is_option(instance, shape, block.park)
}

/// Whether each unit has the type of its position.
fn have_one_type(instance: &Instance, shape: Shape) -> bool
    requires { AreRunsWithin instance.now shape }
    ensures { result ≡ have_one_type instance.now shape }
{
    let from = unit_from(instance, shape);
    let to = position_from(instance, shape);
    let mut all = true;
    for k in 0..shape.n as usize {
        all = all && instance.unit(from + k).kind.0 == instance.position(to + k).kind.0;
    }
    all
}

/// Whether a pair of the block has two types, or the block is parked on a track that doesn't permit the type of one of its
/// units.
pub fn type_fault(instance: &Instance, block: &Block) -> bool
    requires { IsWithinTrains instance.now block.now }
    ensures { result ≡ type_fault instance.now block.now }
{
    let shape = shape_of(block);
    let one_type = have_one_type(instance, shape);
    match block.park {
        Some(park) => !one_type || !permits_units(instance, shape, park.track),
        None => !one_type,
    }
}

/// Whether the unit with this number is one of the block's.
pub fn has_unit(instance: &Instance, block: &Block, unit: usize) -> bool
    requires { IsWithinTrains instance.now block.now }
    ensures { result ≡ has_unit instance.now (shape_of block.now) unit }
{
    let from = unit_from(instance, shape_of(block));
    from <= unit && unit < from + block.n as usize
}

/// Whether the position with this number is one of the block's.
pub fn has_position(instance: &Instance, block: &Block, position: usize) -> bool
    requires { IsWithinTrains instance.now block.now }
    ensures { result ≡ has_position instance.now (shape_of block.now) position }
{
    let from = position_from(instance, shape_of(block));
    from <= position && position < from + block.n as usize
}
