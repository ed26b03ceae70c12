// What the ways of trains to and from tracks cost at least.
ghost use Rattle.std.specs.Prelude.{◌≡◌, ◌<◌, ◌≤◌, ◌*◌, ◌+◌, ℕ, Some, unwrap_or, length};
ghost use Rattle.std.specs.Prelude.{slice_index_or};
ghost use Rattle.shunt_base.specs.declared.ids.ArrId.{ArrId as AnArrival};
ghost use Rattle.shunt_base.specs.declared.ids.DepId.{DepId as ADeparture};
ghost use Rattle.shunt_instance.specs.defs.Words.{train_at};
ghost use Rattle.shunt_blocks.specs.declared.records.Park.{Park as APark};
ghost use Rattle.shunt_blocks.specs.defs.Shapes.{AreRunsWithin};
ghost use Rattle.shunt_blocks.specs.defs.Ways.{train_way_in, way_to};
ghost use Rattle.shunt_blocks.specs.defs.Blocks.{IsParkable};
ghost use Rattle.shunt_blocks.specs.defs.Costs.{shape_cost, cost_with};
ghost use Rattle.shunt_blocks.specs.defs.Ways.{IsUnderIn, IsUnderOut};
ghost use Rattle.shunt_dual.specs.defs.Ways.{AreLeastWays};

use crate::shape_costs::{block_with, cost_with};
use shunt_base::{ArrId, DepId, Side, TrackId};
use shunt_blocks::{Park, Shape, train_way_in, way_out};
use shunt_instance::Instance;

/// What no way in of an arriving train costs less than, whatever the track and the side, and no way out to a departing train. They
/// depend on trains alone, so they are found once for all shapes.
#[derive(Clone, Copy, Debug, Drop)]
pub(crate) struct LeastWays {
    pub(crate) ins: [u32; 100],
    pub(crate) outs: [u32; 100],
}

/// The lesser of two costs.
fn smaller(one: u32, other: u32) -> u32
    ensures first { result ≤ one }
    ensures second { result ≤ other }
{
    if one < other { one } else { other }
}

/// What the way in of the train of a shape to a track by a side costs: 1,000,000, than which none costs more, where there is no way.
fn cost_in(instance: &Instance, shape: Shape, track: TrackId, side: Side) -> u32
    requires within { AreRunsWithin instance.now shape }
    requires track { track.0 < length instance.now.station.tracks }
    ensures exact { result ≡ unwrap_or (train_way_in instance.now shape.arr track side) 1000000 }
    ensures small { result ≤ 1000000 }
{
    train_way_in(instance, shape.arr, track, side).unwrap_or(1_000_000)
}

/// What the way out of a shape from a track by a side costs: 1,000,000, than which none costs more, where there is no way.
fn cost_out(instance: &Instance, shape: Shape, track: TrackId, side: Side) -> u32
    requires within { AreRunsWithin instance.now shape }
    requires track { track.0 < length instance.now.station.tracks }
    ensures exact { result ≡ unwrap_or (way_to instance.now.station
        (train_at instance.now.depart shape.dep.0).origin track side) 1000000 }
    ensures small { result ≤ 1000000 }
{
    let park = Park {
        track,
        side_in: side,
        side_out: side,
    };
    way_out(instance, &block_with(shape, Some(park))).unwrap_or(1_000_000)
}

/// What no way in of a shape to a track costs less than.
fn least_in(instance: &Instance, shape: Shape, track: TrackId) -> u32
    requires within { AreRunsWithin instance.now shape }
    requires track { track.0 < length instance.now.station.tracks }
    ensures least { (k : APark) → k.track ≡ track → IsUnderIn instance.now shape.arr k result }
    ensures small { result ≤ 1000000 }
{
    let by_a = cost_in(instance, shape, track, Side::A);
    let by_b = cost_in(instance, shape, track, Side::B);
    smaller(by_a, by_b)
}

/// What no way out of a shape from a track costs less than.
fn least_out(instance: &Instance, shape: Shape, track: TrackId) -> u32
    requires within { AreRunsWithin instance.now shape }
    requires track { track.0 < length instance.now.station.tracks }
    ensures least { (k : APark) → k.track ≡ track → IsUnderOut instance.now shape.dep k result }
    ensures small { result ≤ 1000000 }
{
    let by_a = cost_out(instance, shape, track, Side::A);
    let by_b = cost_out(instance, shape, track, Side::B);
    smaller(by_a, by_b)
}

/// What no way in of a shape costs less than, whatever the track.
fn least_in_anywhere(instance: &Instance, shape: Shape) -> u32
    requires within { AreRunsWithin instance.now shape }
    ensures least { (k : APark) → k.track.0 < length instance.now.station.tracks
        → IsUnderIn instance.now shape.arr k result }
    ensures small { result ≤ 1000000 }
{
    let mut least = 1_000_000;
    for t in 0..instance.station().tracks.len() {
        least = smaller(least, least_in(instance, shape, TrackId(t as u8)));
    }
    least
}

/// What no way out of a shape costs less than, whatever the track.
fn least_out_anywhere(instance: &Instance, shape: Shape) -> u32
    requires within { AreRunsWithin instance.now shape }
    ensures least { (k : APark) → k.track.0 < length instance.now.station.tracks
        → IsUnderOut instance.now shape.dep k result }
    ensures small { result ≤ 1000000 }
{
    let mut least = 1_000_000;
    for t in 0..instance.station().tracks.len() {
        least = smaller(least, least_out(instance, shape, TrackId(t as u8)));
    }
    least
}

/// The first unit of an arriving train with the first position of a departing one. They need not be matchable.
fn front(instance: &Instance, arr: ArrId, dep: DepId) -> Shape
    requires arr { arr.0 < length instance.now.arrive }
    requires dep { dep.0 < length instance.now.depart }
    ensures within { AreRunsWithin instance.now result }
    ensures arr { result.arr ≡ arr }
    ensures dep { result.dep ≡ dep }
{
    // Both calls tell that a train has a unit.
    instance.arrive(arr);
    instance.depart(dep);
    Shape {
        arr,
        p: 1,
        n: 1,
        dep,
        q: 1,
    }
}

/// Zeros, than which no way costs less.
fn no_costs() -> [u32; 100]
    ensures { (t : ℕ) → slice_index_or result t 0 ≡ 0 }
{
    [0; 100]
}

/// What no way in of each arriving train costs less than. Without departing trains there are no shapes, and so no ways.
fn least_ins(instance: &Instance) -> [u32; 100]
    ensures least { (a : AnArrival) (k : APark) → a.0 < length instance.now.arrive
        → k.track.0 < length instance.now.station.tracks
        → IsUnderIn instance.now a k (slice_index_or result a.0 0) }
    ensures small { (a : ℕ) → slice_index_or result a 0 ≤ 1000000 }
{
    let mut least = no_costs();
    if instance.departures() == 0 {
        return least;
    }
    for a in 0..instance.arrivals() {
        let shape = front(instance, ArrId(a as u8), DepId(0));
        least[a] = least_in_anywhere(instance, shape);
    }
    least
}

/// What no way out to each departing train costs less than. Without arriving trains there are no shapes, and so no ways.
fn least_outs(instance: &Instance) -> [u32; 100]
    ensures least { (d : ADeparture) (k : APark) → d.0 < length instance.now.depart
        → k.track.0 < length instance.now.station.tracks
        → IsUnderOut instance.now d k (slice_index_or result d.0 0) }
    ensures small { (d : ℕ) → slice_index_or result d 0 ≤ 1000000 }
{
    let mut least = no_costs();
    if instance.arrivals() == 0 {
        return least;
    }
    for d in 0..instance.departures() {
        let shape = front(instance, ArrId(0), DepId(d as u8));
        least[d] = least_out_anywhere(instance, shape);
    }
    least
}

/// The least ways of all trains.
pub(crate) fn least_ways(instance: &Instance) -> LeastWays
    ensures { AreLeastWays instance.now result }
{
    LeastWays {
        ins: least_ins(instance),
        outs: least_outs(instance),
    }
}

/// What it costs to take a shape's units out of their train and to put them into the other.
fn ends(instance: &Instance, shape: Shape) -> u64
    requires within { AreRunsWithin instance.now shape }
    ensures exact { result ≡ shape_cost instance.now shape }
    ensures small { result ≤ 2000000 }
{
    cost_with(instance, shape, None) - instance.station().unparked as u64
}

/// What a shape costs at least wherever it is parked, in thousandths.
pub(crate) fn least_parked(instance: &Instance, ways: &LeastWays, shape: Shape) -> u64
    requires ways { AreLeastWays instance.now ways.now }
    requires within { AreRunsWithin instance.now shape }
    ensures least { (k : APark) → IsParkable instance.now shape k
        → result ≤ 1000 * cost_with instance.now shape (Some k) }
    ensures small { result ≤ 4000000000 }
{
    // The calls tell that there are at most 100 trains on either side.
    instance.arrivals();
    instance.departures();
    let both = ways.ins[shape.arr.0 as usize] + ways.outs[shape.dep.0 as usize];
    1000 * (ends(instance, shape) + both as u64)
}
