// How long blocks are, and when they stand on a track.
ghost use Rattle.std.specs.Prelude.{◌≡◌, ◌<◌, ◌≤◌, IfSome, length};
ghost use Rattle.shunt_base.specs.defs.Keys.{IsWellFormed};
ghost use Rattle.shunt_blocks.specs.defs.Shapes.{AreRunsWithin, IsWithinTrains, shape_of};
ghost use Rattle.shunt_blocks.specs.defs.Stays.{length_of, shape_length, block_length, is_too_soon};
ghost use Rattle.shunt_blocks.specs.defs.Stays.{enter_key, leave_key, stay_of};

use crate::firsts::unit_from;
use crate::records::{Block, Shape, shape_of};
use shunt_base::{EventKey, Stay, TypeId};
use shunt_instance::Instance;

/// The length of a type in dm.
fn length_of(instance: &Instance, kind: TypeId) -> u32
    requires { kind.0 < length instance.now.station.types }
    ensures exact { result ≡ length_of instance.now.station kind }
    ensures small { result ≤ 5000 }
{
    instance.station().types.as_slice()[kind.0 as usize].length
}

/// The lengths of a shape's units, added up.
fn shape_length(instance: &Instance, shape: Shape) -> u32
    requires { AreRunsWithin instance.now shape }
    ensures exact { result ≡ shape_length instance.now shape }
    ensures small { result ≤ 40000 }
{
    let from = unit_from(instance, shape);
    let mut total = 0;
    for k in 0..shape.n as usize {
        total += length_of(instance, instance.unit(from + k).kind);
    }
    total
}

/// The block's length, the sum of its units' lengths: at most 40,000 dm.
pub fn block_length(instance: &Instance, block: &Block) -> u32
    requires { IsWithinTrains instance.now block.now }
    ensures exact { result ≡ block_length instance.now block.now }
    ensures small { result ≤ 40000 }
{
    shape_length(instance, shape_of(block))
}

/// Whether the departing train leaves before one of the units is ready.
fn leaves_too_soon(instance: &Instance, shape: Shape) -> bool
    requires { AreRunsWithin instance.now shape }
    ensures { result ≡ is_too_soon instance.now shape }
{
    let from = unit_from(instance, shape);
    let minute = instance.depart(shape.dep).minute.number();
    let mut all = true;
    for k in 0..shape.n as usize {
        all = all && instance.ready(from + k) <= minute;
    }
    !all
}

/// Whether the block's departing train leaves before one of its units is ready.
pub fn is_too_soon(instance: &Instance, block: &Block) -> bool
    requires { IsWithinTrains instance.now block.now }
    ensures { result ≡ is_too_soon instance.now (shape_of block.now) }
{
    leaves_too_soon(instance, shape_of(block))
}

/// When the block enters.
fn enter_key(instance: &Instance, block: &Block) -> EventKey
    requires { IsWithinTrains instance.now block.now }
    ensures { result ≡ enter_key instance.now block.now }
{
    EventKey {
        minute: instance.arrive(block.arr).minute.number(),
        enters: true,
        train: block.arr.0,
        place: block.p,
        id: block.id,
    }
}

/// When the block leaves.
fn leave_key(instance: &Instance, block: &Block) -> EventKey
    requires { IsWithinTrains instance.now block.now }
    ensures { result ≡ leave_key instance.now block.now }
{
    EventKey {
        minute: instance.depart(block.dep).minute.number(),
        enters: false,
        train: block.dep.0,
        place: 9 - block.q,
        id: block.id,
    }
}

/// The block's stay, where it has one.
fn stay_of(instance: &Instance, block: &Block) -> Option<Stay>
    requires { IsWithinTrains instance.now block.now }
    ensures exact { result ≡ stay_of instance.now block.now }
    ensures id { IfSome result (λ s. block.now.id < 4294967296) }
{
    let Some(park) = block.park else {
        return None;
    };
    if is_too_soon(instance, block) {
        return None;
    }
    Some(Stay {
        id: block.id,
        track: park.track,
        side_in: park.side_in,
        side_out: park.side_out,
        enter: enter_key(instance, block),
        leave: leave_key(instance, block),
        length: block_length(instance, block),
    })
}

/// The block's stay on the track where it is parked: it enters at its arriving train's minute, and leaves at its departing
/// train's minute. None exactly when the block isn't parked, or where its departing train leaves before one of its units is
/// ready.
pub fn stay(instance: &Instance, block: &Block) -> Option<Stay>
    requires { IsWithinTrains instance.now block.now }
    ensures exact { result ≡ stay_of instance.now block.now }
    ensures formed { IfSome result IsWellFormed }
{
    // It tells that the station is well formed.
    instance.station();
    stay_of(instance, block)
}
