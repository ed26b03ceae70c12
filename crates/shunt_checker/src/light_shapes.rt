// Which shape with an option is the first that weighs less in a case than its duals.
ghost use Rattle.std.specs.Prelude.{◌≡◌, ◌<◌, ◌≤◌, ◌+◌, ◌↔◌, IsTrue, IfOk, Some, length};
ghost use Rattle.shunt_blocks.specs.defs.Shapes.{AreRunsWithin};
ghost use Rattle.shunt_blocks.specs.defs.Stays.{shape_length};
ghost use Rattle.shunt_choices.specs.defs.Free.{AreMasksOf};
ghost use Rattle.shunt_choices.specs.defs.Choices.{ParkBefore};
ghost use Rattle.shunt_prices.specs.defs.Limits.{ArePrices, IsCase};
ghost use Rattle.shunt_checker.specs.defs.Asked.{IsAsked};
ghost use Rattle.shunt_checker.specs.defs.Firsts.{Finds};
ghost use Rattle.shunt_checker.specs.defs.Ways.{AreLeastWays};
ghost use Rattle.shunt_checker.specs.defs.Lights.{IsLightPark, IsLightBy, IsLightOn, IsLightParked};
ghost use Rattle.shunt_checker.specs.defs.Lights.{IsLight, IsLightShape, IsFreeLight, offered};
ghost use Rattle.shunt_checker.specs.defs.NodeFaults.{EarlierChoice};

use crate::first_choices::{Sought, first_found};
use crate::offer::Offer;
use crate::prices::{cost_with, length_of, room_on, sum_over, taken_on_tracks};
use crate::ways::{LeastWays, least_on, least_parked, least_ways};
use shunt_base::{Case, Price, Side, TrackId};
use shunt_blocks::{Park, Shape, is_option};
use shunt_choices::Covered;
use shunt_instance::Instance;
use shunt_proof::Version;
use std::alloc::{AllocError, Global};

/// Whether a version asks how a shape is parked whether it weighs less than its duals.
fn is_asked(version: Version, park: Park) -> bool
    ensures { IsTrue result ↔ IsAsked version (Some park) }
{
    match version {
        Version::Prices => true,
        Version::Stacks => park.side_in != park.side_out,
    }
}

/// Whether a shape can be parked so, which is asked, and weighs less than a sum where the prices on the track come to a part.
fn is_light_park(
    instance: &Instance,
    version: Version,
    shape: Shape,
    park: Park,
    sum: i64,
    part: u64,
) -> bool
    requires within { AreRunsWithin instance.now shape }
    requires track { park.track.0 < length instance.now.station.tracks }
    requires part { part ≤ 23039936000000000 }
    ensures { IsTrue result ↔ IsLightPark version instance.now shape sum part park }
{
    if !is_asked(version, park) {
        return false;
    }
    let weight = 1000 * cost_with(instance, shape, Some(park)) + part;
    if sum <= weight as i64 {
        return false;
    }
    is_option(instance, shape, Some(park))
}

/// The first such way to park a shape on a track by one side in.
fn light_by(
    instance: &Instance,
    version: Version,
    shape: Shape,
    track: TrackId,
    side_in: Side,
    sum: i64,
    part: u64,
) -> Option<Park>
    requires within { AreRunsWithin instance.now shape }
    requires track { track.0 < length instance.now.station.tracks }
    requires part { part ≤ 23039936000000000 }
    ensures { Finds
        (IsLightBy version instance.now shape sum part track side_in) ParkBefore result }
{
    let by_a = Park {
        track,
        side_in,
        side_out: Side::A,
    };
    if is_light_park(instance, version, shape, by_a, sum, part) {
        return Some(by_a);
    }
    let by_b = Park {
        track,
        side_in,
        side_out: Side::B,
    };
    if is_light_park(instance, version, shape, by_b, sum, part) {
        return Some(by_b);
    }
    None
}

/// The first such way to park a shape on a track. A track that is too short has none, nor has one whose least ways cost too much.
fn light_on(
    instance: &Instance,
    version: Version,
    shape: Shape,
    long: u32,
    track: TrackId,
    sum: i64,
    part: u64,
) -> Option<Park>
    requires within { AreRunsWithin instance.now shape }
    requires long { long ≡ shape_length instance.now shape }
    requires track { track.0 < length instance.now.station.tracks }
    requires part { part ≤ 23039936000000000 }
    ensures { Finds (IsLightOn version instance.now shape sum part track) ParkBefore result }
{
    if long > room_on(instance, track) {
        return None;
    }
    if sum <= least_on(instance, shape, track, part) as i64 {
        return None;
    }
    if let Some(park) = light_by(instance, version, shape, track, Side::A, sum, part) {
        return Some(park);
    }
    light_by(instance, version, shape, track, Side::B, sum, part)
}

/// The first such way to park a shape on a track that is long enough for it. Each track is priced once. Prices only add to a weight,
/// so where the least ways of the shape's trains cost too much already, neither prices nor tracks are looked at.
fn light_parked(
    instance: &Instance,
    version: Version,
    ways: &LeastWays,
    prices: &[Price],
    shape: Shape,
    sum: i64,
) -> Option<Park>
    requires ways { AreLeastWays instance.now ways.now }
    requires prices { ArePrices instance.now prices.now }
    requires within { AreRunsWithin instance.now shape }
    ensures { Finds (IsLightParked version instance.now prices.now shape sum) ParkBefore result }
{
    if sum <= least_parked(instance, ways, shape) as i64 {
        return None;
    }
    let long = length_of(instance, shape);
    let taken = taken_on_tracks(instance, prices, shape, long);
    for t in 0..instance.station().tracks.len() {
        let track = TrackId(t as u8);
        if let Some(park) = light_on(instance, version, shape, long, track, sum, taken[t]) {
            return Some(park);
        }
    }
    None
}

/// A shape parked so, where it is.
fn offered(shape: Shape, park: Option<Park>) -> Option<Offer>
    ensures { result ≡ offered shape park }
{
    match park {
        Some(park) => Some(Offer {
            shape,
            park: Some(park),
        }),
        None => None,
    }
}

/// The first option of a shape that has room, is asked, and weighs less in a case than the shape's duals.
fn light_option(
    instance: &Instance,
    version: Version,
    ways: &LeastWays,
    case: &Case,
    shape: Shape,
) -> Option<Offer>
    requires ways { AreLeastWays instance.now ways.now }
    requires case { IsCase instance.now case.now }
    requires within { AreRunsWithin instance.now shape }
    ensures { Finds (IsLightShape version instance.now case.now shape)
        (EarlierChoice instance.now) result }
{
    let sum = sum_over(instance, &case.duals, shape);
    let unparked = 1000 * cost_with(instance, shape, None);
    if sum > unparked as i64 + case.multiplier {
        return Some(Offer { shape, park: None });
    }
    let prices = case.duals.prices.as_slice();
    let park = light_parked(instance, version, ways, prices, shape, sum);
    offered(shape, park)
}

/// What a version finds light in a case, with the least ways of the night's trains.
#[derive(Clone, Copy)]
struct Light<'a> {
    version: Version,
    case: &'a Case,
    ways: &'a LeastWays,
}

impl Sought for Light<'_> {
    ghost fits = { λ s night covered. IsCase night s.case.now × AreLeastWays night s.ways.now };

    ghost holds = { λ s night. IsLight s.version night s.case.now };

    fn first_option(
        &self,
        _alloc: Global,
        instance: &Instance,
        _covered: &Covered,
        shape: Shape,
    ) -> Result<Option<Offer>, AllocError> {
        Ok(light_option(instance, self.version, self.ways, self.case, shape))
    }
}

/// The first free shape with an option that has room, is asked, and weighs less in a case than the shape's duals: by its first unit,
/// then by the number of units, the departing train and the place there, then by option.
pub(crate) fn first_light(
    alloc: Global,
    instance: &Instance,
    version: Version,
    covered: &Covered,
    case: &Case,
) -> Result<Option<Offer>, AllocError>
    requires covered { AreMasksOf instance.now covered.now }
    requires case { IsCase instance.now case.now }
    ensures { IfOk result (Finds (IsFreeLight version instance.now covered.now case.now)
        (EarlierChoice instance.now)) }
{
    let ways = least_ways(instance);
    let light = Light {
        version,
        case,
        ways: &ways,
    };
    first_found(alloc, instance, covered, &light)
}
