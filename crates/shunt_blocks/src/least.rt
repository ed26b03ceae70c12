// The least cost of a shape.
ghost use Rattle.std.specs.Prelude.{◌≡◌, ◌<◌, ◌≤◌, IfSome, length};
ghost use Rattle.shunt_blocks.specs.defs.Shapes.{AreRunsWithin};
ghost use Rattle.shunt_blocks.specs.defs.Costs.{IsCheapest};
ghost use Rattle.shunt_blocks.specs.defs.Least.{lesser, least_way_in, least_way_out, least_on};
ghost use Rattle.shunt_blocks.specs.defs.Least.{improved, least_below};

use crate::costs::shape_cost;
use crate::records::Shape;
use crate::ways::{permits_units, shape_way_in, way_to};
use shunt_base::{DepId, Side, TrackId};
use shunt_instance::Instance;

/// The lesser of two costs, where there is one.
fn lesser(first: Option<u32>, second: Option<u32>) -> Option<u32>
    ensures { result ≡ lesser first second }
{
    let Some(a) = first else {
        return second;
    };
    let Some(b) = second else {
        return first;
    };
    Some(if b < a { b } else { a })
}

/// The least cost of a shape's way in to a track.
fn least_way_in(instance: &Instance, shape: Shape, track: TrackId) -> Option<u32>
    requires train { shape.arr.0 < length instance.now.arrive }
    requires track { track.0 < length instance.now.station.tracks }
    ensures exact { result ≡ least_way_in instance.now shape track }
    ensures cost { IfSome result (λ c. c ≤ 1000000) }
{
    let by_a = shape_way_in(instance, shape, track, Side::A);
    let by_b = shape_way_in(instance, shape, track, Side::B);
    lesser(by_a, by_b)
}

/// The least cost of a way out from a track.
fn least_way_out(instance: &Instance, dep: DepId, track: TrackId) -> Option<u32>
    requires train { dep.0 < length instance.now.depart }
    requires track { track.0 < length instance.now.station.tracks }
    ensures exact { result ≡ least_way_out instance.now dep track }
    ensures cost { IfSome result (λ c. c ≤ 1000000) }
{
    let origin = instance.depart(dep).origin;
    let by_a = way_to(instance, origin, track, Side::A);
    let by_b = way_to(instance, origin, track, Side::B);
    lesser(by_a, by_b)
}

/// The least cost of parking a shape on a track. None where it can't be parked there.
fn least_on(instance: &Instance, shape: Shape, track: TrackId) -> Option<u32>
    requires within { AreRunsWithin instance.now shape }
    requires track { track.0 < length instance.now.station.tracks }
    ensures { result ≡ least_on instance.now shape track }
{
    if !permits_units(instance, shape, track) {
        return None;
    }
    let way_in = least_way_in(instance, shape, track)?;
    let way_out = least_way_out(instance, shape.dep, track)?;
    Some(way_in + way_out)
}

/// The lesser of a cost and of one that may be absent.
fn improved(best: u32, other: Option<u32>) -> u32
    ensures { result ≡ improved best other }
{
    let Some(cost) = other else {
        return best;
    };
    if cost < best { cost } else { best }
}

/// The least cost of being unparked or of parking a shape on any track.
fn least_option(instance: &Instance, shape: Shape) -> u32
    requires { AreRunsWithin instance.now shape }
    ensures exact { result ≡ least_below instance.now shape (length instance.now.station.tracks) }
    ensures small { result ≤ 1000000 }
{
    let station = instance.station();
    let mut best = station.unparked;
    for t in 0..station.tracks.len() {
        best = improved(best, least_on(instance, shape, TrackId(t as u8)));
    }
    best
}

/// The least cost over the options of a shape, at most 3,000,000 cost units. It needs no matchable pairs.
pub fn cheapest(instance: &Instance, shape: Shape) -> u64
    requires { AreRunsWithin instance.now shape }
    ensures least { IsCheapest instance.now shape result }
    ensures small { result ≤ 3000000 }
{
    (shape_cost(instance, shape) + least_option(instance, shape)) as u64
}
