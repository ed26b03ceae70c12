// Whether duals and cases hold at a path.
ghost use Rattle.std.specs.Prelude.{◌≡◌, ◌<◌, ◌≤◌, ◌+◌, ◌*◌, ◌↔◌, ℕ, ℤ, ◌≤ℤ◌, IsTrue, not, Some};
ghost use Rattle.std.specs.Prelude.{pos, length};
ghost use Rattle.std.specs.List.{AllByRecursion};
ghost use Rattle.shunt_base.specs.defs.Sides.{same_side};
ghost use Rattle.shunt_instance.specs.defs.Instance.{IsInstance, unit_total};
ghost use Rattle.shunt_blocks.specs.defs.Shapes.{AreRunsWithin};
ghost use Rattle.shunt_blocks.specs.defs.Stays.{shape_length};
ghost use Rattle.shunt_choices.specs.defs.Free.{AreMasksOf};
ghost use Rattle.shunt_choices.specs.defs.Choices.{shapes_of};
ghost use Rattle.shunt_choices.specs.defs.Paths.{IsTrailOf};
ghost use Rattle.shunt_prices.specs.defs.Sums.{IsWithin};
ghost use Rattle.shunt_prices.specs.defs.Limits.{ArePrices, AreDuals, AreCases, IsValue};
ghost use Rattle.shunt_prices.specs.defs.Cases.{duals_over, CasesHold, DualsHold};
ghost use Rattle.shunt_stacks.specs.defs.Cases.{StackCasesHold};
ghost use Rattle.shunt_dual.specs.defs.Ways.{AreLeastWays};
ghost use Rattle.shunt_dual.specs.defs.Weighed.{case_of, IsAsked, ParkHolds, SideHolds, TrackHolds};
ghost use Rattle.shunt_dual.specs.defs.Weighed.{TracksHold, ShapeHolds, UnitHolds, CaseHolds};
ghost use Rattle.shunt_dual.specs.defs.Weighed.{AllHold};

use crate::shape_costs::{charges, cost_with, room, run_sum, shape_length};
use crate::ways::{LeastWays, least_parked, least_ways};
use shunt_base::{Cases, Duals, Price, Side, TrackId};
use shunt_blocks::{Park, Shape, is_option, position_from, unit_from};
use shunt_choices::laws::free_shapes;
use shunt_choices::{Covered, Path, Shapes, shapes_from};
use shunt_instance::Instance;
use shunt_instance::laws::rooms_of_trains;

/// Which options are asked to weigh at least a shape's duals.
#[derive(Clone, Copy, Debug, Drop)]
pub(crate) enum Asked {
    /// Each one.
    Every,
    /// Each one but those of stacks, which come and go by one side of a track.
    BesideStacks,
}

/// Whether what is parked comes by one side and goes by the other.
fn goes_through(park: Park) -> bool
    ensures { result ≡ not (same_side park.side_in park.side_out) }
{
    match (park.side_in, park.side_out) {
        (Side::A, Side::A) => false,
        (Side::B, Side::B) => false,
        _ => true,
    }
}

/// Whether a way to park is among the options that are asked.
fn is_asked(asked: Asked, park: Park) -> bool
    ensures { IsTrue result ↔ IsAsked asked (Some park) }
{
    match asked {
        Asked::Every => true,
        Asked::BesideStacks => goes_through(park),
    }
}

/// The values of a shape's units and positions, added up.
pub(crate) fn duals_over(instance: &Instance, duals: &Duals, shape: Shape) -> i64
    requires duals { AreDuals instance.now duals.now }
    requires within { AreRunsWithin instance.now shape }
    ensures exact { result ≡ duals_over instance.now duals.now shape }
    ensures small { IsWithin 15999999999984 result }
{
    let n = shape.n as usize;
    let u = unit_from(instance, shape);
    let v = position_from(instance, shape);
    run_sum(duals.alpha.as_slice(), u, n) + run_sum(duals.beta.as_slice(), v, n)
}

/// Whether a way to park a shape weighs at least a sum, or isn't asked, or is none of its options.
fn park_holds(
    instance: &Instance,
    asked: Asked,
    shape: Shape,
    park: Park,
    sum: i64,
    part: u64,
) -> bool
    requires within { AreRunsWithin instance.now shape }
    requires track { park.track.0 < length instance.now.station.tracks }
    requires part { part ≤ 23039936000000000 }
    ensures { IsTrue result ↔ ParkHolds asked instance.now shape sum part park }
{
    if !is_asked(asked, park) {
        return true;
    }
    let weight = 1000 * cost_with(instance, shape, Some(park)) + part;
    if sum <= weight as i64 {
        return true;
    }
    !is_option(instance, shape, Some(park))
}

/// Whether each way to park a shape on a track by one side in weighs at least a sum.
fn side_holds(
    instance: &Instance,
    asked: Asked,
    shape: Shape,
    track: TrackId,
    side_in: Side,
    sum: i64,
    part: u64,
) -> bool
    requires within { AreRunsWithin instance.now shape }
    requires track { track.0 < length instance.now.station.tracks }
    requires part { part ≤ 23039936000000000 }
    ensures { IsTrue result ↔ SideHolds asked instance.now shape sum part track side_in }
{
    let by_a = Park {
        track,
        side_in,
        side_out: Side::A,
    };
    if !park_holds(instance, asked, shape, by_a, sum, part) {
        return false;
    }
    let by_b = Park {
        track,
        side_in,
        side_out: Side::B,
    };
    park_holds(instance, asked, shape, by_b, sum, part)
}

/// Whether each way to park a shape on a track weighs at least a sum, where the prices there come to a part. A track that is
/// too short has none.
fn track_holds(
    instance: &Instance,
    asked: Asked,
    shape: Shape,
    long: u32,
    track: TrackId,
    sum: i64,
    part: u64,
) -> bool
    requires within { AreRunsWithin instance.now shape }
    requires long { long ≡ shape_length instance.now shape }
    requires track { track.0 < length instance.now.station.tracks }
    requires part { part ≤ 23039936000000000 }
    ensures { IsTrue result ↔ TrackHolds asked instance.now shape sum part track }
{
    if long > room(instance, track) {
        return true;
    }
    if !side_holds(instance, asked, shape, track, Side::A, sum, part) {
        return false;
    }
    side_holds(instance, asked, shape, track, Side::B, sum, part)
}

/// Whether each way to park a shape on a track that is long enough for it weighs at least a sum. Prices only add to a weight, so where
/// the least ways of the shape's trains cost as much already, neither prices nor tracks are looked at.
fn tracks_hold(
    instance: &Instance,
    asked: Asked,
    ways: &LeastWays,
    prices: &[Price],
    shape: Shape,
    sum: i64,
) -> bool
    requires ways { AreLeastWays instance.now ways.now }
    requires prices { ArePrices instance.now prices.now }
    requires within { AreRunsWithin instance.now shape }
    ensures { IsTrue result
        ↔ TracksHold asked instance.now prices.now shape sum (length instance.now.station.tracks) }
{
    if sum <= least_parked(instance, ways, shape) as i64 {
        return true;
    }
    let long = shape_length(instance, shape);
    let charges = charges(instance, prices, shape, long);
    for t in 0..instance.station().tracks.len() {
        let track = TrackId(t as u8);
        if !track_holds(instance, asked, shape, long, track, sum, charges[t]) {
            return false;
        }
    }
    true
}

/// Whether no option of a shape that is asked and has room weighs less than the shape's duals.
fn shape_holds(
    instance: &Instance,
    asked: Asked,
    ways: &LeastWays,
    multiplier: i64,
    duals: &Duals,
    shape: Shape,
) -> bool
    requires ways { AreLeastWays instance.now ways.now }
    requires multiplier { IsValue multiplier }
    requires duals { AreDuals instance.now duals.now }
    requires within { AreRunsWithin instance.now shape }
    ensures { IsTrue result ↔ ShapeHolds asked instance.now (case_of multiplier duals.now) shape }
{
    let sum = duals_over(instance, duals, shape);
    let unparked = 1000 * cost_with(instance, shape, None);
    if sum > unparked as i64 + multiplier {
        return false;
    }
    tracks_hold(instance, asked, ways, duals.prices.as_slice(), shape, sum)
}

/// The shapes that begin at a unit.
fn shapes_at<'a>(instance: &'a Instance, covered: &Covered, u: usize) -> Shapes<'a>
    requires covered { AreMasksOf instance.now covered.now }
    requires unit { u < unit_total instance.now }
    ensures exact { result ≡ shapes_of instance.now covered.now u }
    ensures within { AllByRecursion (AreRunsWithin instance.now) result }
{
    // The first call tells that the night is well formed, the second which shapes these are.
    instance.units();
    free_shapes();
    shapes_from(instance, u, covered)
}

/// The same of each free shape that begins at a unit. A covered unit has none, and costs one test.
fn unit_holds(
    instance: &Instance,
    asked: Asked,
    ways: &LeastWays,
    covered: &Covered,
    multiplier: i64,
    duals: &Duals,
    u: usize,
) -> bool
    requires ways { AreLeastWays instance.now ways.now }
    requires covered { AreMasksOf instance.now covered.now }
    requires multiplier { IsValue multiplier }
    requires duals { AreDuals instance.now duals.now }
    requires unit { u < unit_total instance.now }
    ensures { IsTrue result
        ↔ UnitHolds asked instance.now covered.now (case_of multiplier duals.now) u }
{
    if covered.units()[u] {
        return true;
    }
    // The first call tells that the night is well formed, the second which shapes these are.
    instance.units();
    free_shapes();
    let mut shapes = shapes_at(instance, covered, u);
    'shapes: while let Some(shape) = shapes.next() {
        if !shape_holds(instance, asked, ways, multiplier, duals, shape) {
            return false;
        }
    }
    true
}

/// Whether no free shape with an option that is asked and has room weighs less than its duals.
fn holds_in_case(
    instance: &Instance,
    asked: Asked,
    covered: &Covered,
    multiplier: i64,
    duals: &Duals,
) -> bool
    requires covered { AreMasksOf instance.now covered.now }
    requires multiplier { IsValue multiplier }
    requires duals { AreDuals instance.now duals.now }
    ensures { IsTrue result
        ↔ CaseHolds asked instance.now covered.now (case_of multiplier duals.now) }
{
    // Each shape of the night begins at one of its units.
    rooms_of_trains();
    let ways = least_ways(instance);
    for u in 0..instance.units() {
        if !unit_holds(instance, asked, &ways, covered, multiplier, duals, u) {
            return false;
        }
    }
    true
}

/// Whether plain duals hold at a path: no shape of uncovered units and positions weighs less than its duals, unparked or on
/// a track that is long enough for it. It takes no memory.
pub fn duals_hold(instance: &Instance, path: &Path, duals: &Duals) -> bool
    requires path { IsTrailOf instance.now path.now }
    requires duals { AreDuals instance.now duals.now }
    ensures { IsTrue result ↔ DualsHold instance.now path.now.blocks duals.now }
{
    holds_in_case(instance, Asked::Every, path.covered(), 0, duals)
}

/// Whether cases hold at a path where so much is asked.
fn all_hold(instance: &Instance, asked: Asked, path: &Path, cases: &Cases) -> bool
    requires path { IsTrailOf instance.now path.now }
    requires cases { AreCases instance.now cases.now }
    ensures { IsTrue result ↔ AllHold asked instance.now path.now.blocks cases.now }
{
    for k in 0..cases.len() {
        let case = cases.get(k);
        if !holds_in_case(
            instance,
            asked,
            path.covered(),
            case.multiplier,
            &case.duals,
        ) {
            return false;
        }
    }
    true
}

/// Whether cases hold at a path: the duals of each do, where unparked blocks weigh its multiplier more. It takes no memory.
pub fn cases_hold(instance: &Instance, path: &Path, cases: &Cases) -> bool
    requires path { IsTrailOf instance.now path.now }
    requires cases { AreCases instance.now cases.now }
    ensures { IsTrue result ↔ CasesHold instance.now path.now.blocks cases.now }
{
    all_hold(instance, Asked::Every, path, cases)
}

/// Whether cases with stacks hold at a path: the same, but of blocks that come and go by one side of a track nothing is asked. It takes
/// no memory.
pub fn stack_cases_hold(instance: &Instance, path: &Path, cases: &Cases) -> bool
    requires path { IsTrailOf instance.now path.now }
    requires cases { AreCases instance.now cases.now }
    ensures { IsTrue result ↔ StackCasesHold instance.now path.now.blocks cases.now }
{
    all_hold(instance, Asked::BesideStacks, path, cases)
}
