// The ways between trains and tracks, and where shapes can be parked.
ghost use Rattle.std.specs.Prelude.{◌≡◌, ◌<◌, ◌≤◌, ◌↔◌, IsTrue, IfSome, length};
ghost use Rattle.std.specs.List.{list_any};
ghost use Rattle.shunt_instance.specs.defs.Wellformed.{IsOrigin};
ghost use Rattle.shunt_blocks.specs.defs.Shapes.{AreRunsWithin, IsWithinTrains, shape_of};
ghost use Rattle.shunt_blocks.specs.defs.Ways.{way_from, way_to, meets_run, has_placed, came_to};
ghost use Rattle.shunt_blocks.specs.defs.Ways.{is_run_there, may_come, train_way_in, shape_way_in};
ghost use Rattle.shunt_blocks.specs.defs.Ways.{park_way_in, park_way_out, way_in, way_out};
ghost use Rattle.shunt_blocks.specs.defs.Ways.{permits_units};
ghost use Rattle.shunt_blocks.specs.defs.Blocks.{IsParkable, IsOption, can_park, is_option};

use crate::firsts::unit_from;
use crate::records::{Block, Park, Shape, shape_of};
use shunt_base::{ArrId, DepId, Side, TrackId};
use shunt_instance::{Instance, Origin, PlacedRun, TrackEnd};

/// The cost of the way from an origin to a track by a side.
pub(crate) fn way_from(
    instance: &Instance,
    origin: Origin,
    track: TrackId,
    side: Side,
) -> Option<u32>
    requires origin { IsOrigin instance.now.station origin }
    requires track { track.0 < length instance.now.station.tracks }
    ensures exact { result ≡ way_from instance.now.station origin track side }
    ensures cost { IfSome result (λ c. c ≤ 1000000) }
{
    match (origin, side) {
        (Origin::Platform(platform), _) => instance.route(platform, track, side),
        (Origin::Track(_), Side::A) => None,
        (Origin::Track(own), Side::B) => { if own.0 == track.0 { Some(0) } else { None } }
    }
}

/// The cost of the way to a departing train.
pub(crate) fn way_to(instance: &Instance, origin: Origin, track: TrackId, side: Side) -> Option<u32>
    requires origin { IsOrigin instance.now.station origin }
    requires track { track.0 < length instance.now.station.tracks }
    ensures exact { result ≡ way_to instance.now.station origin track side }
    ensures cost { IfSome result (λ c. c ≤ 1000000) }
{
    match origin {
        Origin::Platform(platform) => instance.route(platform, track, side),
        Origin::Track(_) => None,
    }
}

/// The cost of the way of an arriving train to a track by a side, at most 1,000,000: the route from its platform, or 0 for a standing
/// train's own track by B. None exactly when there is no such way. No way in of a block of the train costs less.
pub fn train_way_in(instance: &Instance, arr: ArrId, track: TrackId, side: Side) -> Option<u32>
    requires train { arr.0 < length instance.now.arrive }
    requires track { track.0 < length instance.now.station.tracks }
    ensures exact { result ≡ train_way_in instance.now arr track side }
    ensures cost { IfSome result (λ c. c ≤ 1000000) }
{
    way_from(instance, instance.arrive(arr).origin, track, side)
}

/// Whether a shape has a unit of a placed run.
fn meets_run(shape: Shape, run: &PlacedRun) -> bool
    ensures { result ≡ meets_run shape run.now }
{
    let (first, past) = (
        usize::from(shape.p),
        usize::from(shape.p) + usize::from(shape.n),
    );
    first < usize::from(run.first) + usize::from(run.count) && usize::from(run.first) < past
}

/// Whether a shape has a unit of one of these runs.
fn meets_one(runs: &[PlacedRun], shape: Shape) -> bool
    ensures { result ≡ list_any (meets_run shape) runs.now }
{
    runs.iter().any(|run| meets_run(shape, run))
}

/// Whether one of the block's units has come already.
pub fn has_placed(instance: &Instance, block: &Block) -> bool
    requires { IsWithinTrains instance.now block.now }
    ensures { result ≡ has_placed instance.now (shape_of block.now) }
{
    meets_one(
        instance.arrive(block.arr).placed.as_slice(),
        shape_of(block),
    )
}

// Whether what came by an end, if by one at all, came to this track by this side.
fn came_to(track: TrackId, side: Side, end: Option<TrackEnd>) -> bool
    ensures { result ≡ came_to track side end }
{
    let Some(end) = end else {
        return false;
    };
    match (end.side, side) {
        (Side::A, Side::A) | (Side::B, Side::B) => end.track.0 == track.0,
        _ => false,
    }
}

/// Whether a shape's units are exactly those of a placed run that came to a track by a side.
fn is_run_there(shape: Shape, track: TrackId, side: Side, run: &PlacedRun) -> bool
    ensures { result ≡ is_run_there shape track side run.now }
{
    run.first == shape.p && run.count == shape.n && came_to(track, side, run.came_by)
}

/// Whether a shape's units are exactly those of one of these runs that came to a track by a side.
fn is_one_there(runs: &[PlacedRun], shape: Shape, track: TrackId, side: Side) -> bool
    ensures { result ≡ list_any (is_run_there shape track side) runs.now }
{
    runs.iter().any(|run| is_run_there(shape, track, side, run))
}

/// Whether a shape's units may come to a track by a side, by what has come already.
fn may_come(runs: &[PlacedRun], shape: Shape, track: TrackId, side: Side) -> bool
    ensures { result ≡ may_come runs.now shape track side }
{
    !meets_one(runs, shape) || is_one_there(runs, shape, track, side)
}

/// The cost of a shape's way in to a track by a side.
pub(crate) fn shape_way_in(
    instance: &Instance,
    shape: Shape,
    track: TrackId,
    side: Side,
) -> Option<u32>
    requires train { shape.arr.0 < length instance.now.arrive }
    requires track { track.0 < length instance.now.station.tracks }
    ensures exact { result ≡ shape_way_in instance.now shape track side }
    ensures cost { IfSome result (λ c. c ≤ 1000000) }
{
    let train = instance.arrive(shape.arr);
    if !may_come(train.placed.as_slice(), shape, track, side) {
        return None;
    }
    train_way_in(instance, shape.arr, track, side)
}

/// The cost of the way in of an option of a shape.
pub(crate) fn park_way_in(instance: &Instance, shape: Shape, park: Park) -> Option<u32>
    requires train { shape.arr.0 < length instance.now.arrive }
    requires track { park.track.0 < length instance.now.station.tracks }
    ensures exact { result ≡ park_way_in instance.now shape park }
    ensures cost { IfSome result (λ c. c ≤ 1000000) }
{
    shape_way_in(instance, shape, park.track, park.side_in)
}

/// The cost of the way out to a departing train.
pub(crate) fn park_way_out(instance: &Instance, dep: DepId, park: Park) -> Option<u32>
    requires train { dep.0 < length instance.now.depart }
    requires track { park.track.0 < length instance.now.station.tracks }
    ensures exact { result ≡ park_way_out instance.now dep park }
    ensures cost { IfSome result (λ c. c ≤ 1000000) }
{
    way_to(
        instance,
        instance.depart(dep).origin,
        park.track,
        park.side_out,
    )
}

/// The cost of the block's way in, at most 1,000,000: the route from its arriving train's platform to the track and the side
/// in, or 0 for a standing train's own track by B. None exactly when there is no such way, as for a block that isn't parked, or where
/// one of its units has come already, unless exactly its units came together, to that track by that side.
pub fn way_in(instance: &Instance, block: &Block) -> Option<u32>
    requires { IsWithinTrains instance.now block.now }
    ensures exact { result ≡ way_in instance.now block.now }
    ensures cost { IfSome result (λ c. c ≤ 1000000) }
{
    match block.park {
        Some(park) => park_way_in(instance, shape_of(block), park),
        None => None,
    }
}

/// The cost of the block's way out, at most 1,000,000: the route from its departing train's platform to the track and the
/// side out. None exactly when there is no such way, as for a block that isn't parked.
pub fn way_out(instance: &Instance, block: &Block) -> Option<u32>
    requires { IsWithinTrains instance.now block.now }
    ensures exact { result ≡ way_out instance.now block.now }
    ensures cost { IfSome result (λ c. c ≤ 1000000) }
{
    match block.park {
        Some(park) => park_way_out(instance, block.dep, park),
        None => None,
    }
}

/// Whether a track permits the types of all units of a shape.
pub(crate) fn permits_units(instance: &Instance, shape: Shape, track: TrackId) -> bool
    requires within { AreRunsWithin instance.now shape }
    requires track { track.0 < length instance.now.station.tracks }
    ensures { result ≡ permits_units instance.now shape track }
{
    let from = unit_from(instance, shape);
    let mut all = true;
    for k in 0..shape.n as usize {
        all = all && instance.permits(track, instance.unit(from + k).kind);
    }
    all
}

/// Whether a shape can be parked there.
fn is_parkable(instance: &Instance, shape: Shape, park: Park) -> bool
    requires within { AreRunsWithin instance.now shape }
    requires track { park.track.0 < length instance.now.station.tracks }
    ensures fact { IsTrue result ↔ IsParkable instance.now shape park }
    ensures is { result ≡ can_park instance.now shape park }
{
    if park_way_in(instance, shape, park).is_none() {
        return false;
    }
    if park_way_out(instance, shape.dep, park).is_none() {
        return false;
    }
    permits_units(instance, shape, park.track)
}

/// Whether this is an option of a shape.
#[tactic(auto, unfolding(crate::specs::defs::Blocks::is_option))]
pub fn is_option(instance: &Instance, shape: Shape, option: Option<Park>) -> bool
    requires within { AreRunsWithin instance.now shape }
    requires track { IfSome option (λ k. k.track.0 < length instance.now.station.tracks) }
    ensures fact { IsTrue result ↔ IsOption instance.now shape option }
    ensures is { result ≡ is_option instance.now shape option }
{
    match option {
        Some(park) => is_parkable(instance, shape, park),
        None => true,
    }
}
