// What one more choice adds to the sum of a case at a path.
ghost use Rattle.std.specs.Prelude.{◌≡◌, ◌⊎◌, ◌<◌, ◌≤◌, ◌+◌, ◌*◌, ◌+ℤ◌, ◌≤ℤ◌, ◌↔◌, IsTrue, pos};
ghost use Rattle.std.specs.Prelude.{is_none, if◌then◌else◌, length};
ghost use Rattle.shunt_blocks.specs.defs.Shapes.{AreRunsWithin, IsOnTrack};
ghost use Rattle.shunt_blocks.specs.defs.Stays.{shape_length};
ghost use Rattle.shunt_choices.specs.defs.Paths.{IsTrailOf};
ghost use Rattle.shunt_choices.specs.defs.Choices.{longer_by};
ghost use Rattle.shunt_prices.specs.defs.Sums.{IsWithin};
ghost use Rattle.shunt_prices.specs.defs.Prices.{price_part_with};
ghost use Rattle.shunt_prices.specs.defs.Limits.{IsCase, AreCases, case_at};
ghost use Rattle.shunt_prices.specs.defs.Cases.{IsFreeBlock, weight_with};
ghost use Rattle.shunt_prices.specs.defs.Bounds.{sum_at};
ghost use Rattle.shunt_checker.specs.defs.Lows.{AreGains, offer_of};

use crate::prices::{cost_with, sum_over, taken_on_tracks};
use shunt_base::{Case, Cases};
use shunt_blocks::{Park, Shape};
use shunt_choices::Path;
use shunt_instance::Instance;
use shunt_prices::laws::longer_paths;

/// What a shape's duals come to in a case, and what the prices on each track take of it.
#[derive(Clone, Copy, Debug, Drop)]
pub(crate) struct Gains {
    pub(crate) over: i64,
    pub(crate) taken: [u64; 60],
}

/// Those of a shape of this length.
fn gains_of(instance: &Instance, case: &Case, shape: Shape, long: u32) -> Gains
    requires case { IsCase instance.now case.now }
    requires within { AreRunsWithin instance.now shape }
    requires long { long ≡ shape_length instance.now shape }
    requires small { long ≤ 40000 }
    ensures { AreGains instance.now case.now shape result }
{
    let over = sum_over(instance, &case.duals, shape);
    let taken = taken_on_tracks(instance, case.duals.prices.as_slice(), shape, long);
    Gains { over, taken }
}

/// Those of a shape of this length in the case with a number.
pub(crate) fn gains_in(
    instance: &Instance,
    cases: &Cases,
    k: usize,
    shape: Shape,
    long: u32,
) -> Gains
    requires cases { AreCases instance.now cases.now }
    requires there { k < length cases.now }
    requires within { AreRunsWithin instance.now shape }
    requires long { long ≡ shape_length instance.now shape }
    requires small { long ≤ 40000 }
    ensures { AreGains instance.now (case_at cases.now k) shape result }
{
    gains_of(instance, cases.get(k), shape, long)
}

/// What the prices of a case take of a shape with an option.
fn part_of(instance: &Instance, case: &Case, gains: &Gains, shape: Shape, park: Option<Park>) -> u64
    requires gains { AreGains instance.now case.now shape gains.now }
    requires track { IsOnTrack instance.now.station park }
    ensures exact { result ≡ price_part_with instance.now case.now.duals.prices shape park }
    ensures small { result ≤ 23039936000000000 }
{
    // The call tells that there are at most 60 tracks.
    instance.station();
    let Some(place) = park else {
        return 0;
    };
    gains.taken[place.track.0 as usize]
}

/// What a shape with an option weighs in a case.
pub(crate) fn weight_of(
    instance: &Instance,
    case: &Case,
    gains: &Gains,
    shape: Shape,
    park: Option<Park>,
) -> i64
    requires case { IsCase instance.now case.now }
    requires gains { AreGains instance.now case.now shape gains.now }
    requires within { AreRunsWithin instance.now shape }
    requires track { IsOnTrack instance.now.station park }
    ensures exact { result ≡ weight_with instance.now case.now shape park }
    ensures small { IsWithin 23040939999999999 result }
{
    let part = part_of(instance, case, gains, shape, park);
    let paid = (1000 * cost_with(instance, shape, park) + part) as i64;
    match park {
        None => paid + case.multiplier,
        Some(_) => paid,
    }
}

/// The sum of a case at a path with one more choice, from the sum at the path.
pub(crate) fn longer_sum(
    instance: &Instance,
    path: &Path,
    case: &Case,
    from: u8,
    sum: i64,
    gains: &Gains,
    shape: Shape,
    park: Option<Park>,
) -> i64
    requires path { IsTrailOf instance.now path.now }
    requires case { IsCase instance.now case.now }
    requires is { sum ≡ sum_at instance.now path.now.blocks from case.now }
    requires small { IsWithin 4010000000000000000 sum }
    requires gains { AreGains instance.now case.now shape gains.now }
    requires track { IsOnTrack instance.now.station park }
    requires free { IsFreeBlock instance.now path.now.covered shape park }
    ensures exact { result
        ≡ sum_at instance.now (longer_by path.now.blocks (offer_of shape park)) from case.now }
    ensures small { IsWithin 4040000000000000000 result }
{
    longer_paths();
    let weight = weight_of(instance, case, gains, shape, park);
    sum + (weight - gains.over)
}

/// How many blocks of a path with one more choice are unparked.
pub(crate) fn unparked_with(unparked: usize, park: Option<Park>) -> usize
    requires { unparked ≤ 160 }
    ensures { result ≡ unparked + (if is_none park then 1 else 0) }
{
    match park {
        None => unparked + 1,
        Some(_) => unparked,
    }
}

/// Whether the case with a number speaks of plans with that many unparked blocks or more.
pub(crate) fn is_open_to(cases: &Cases, k: usize, unparked: usize) -> bool
    requires { k < length cases.now }
    ensures { IsTrue result ↔ ((k + 1 ≡ length cases.now) ⊎ (unparked ≤ (case_at cases.now k).to)) }
{
    if k == cases.len() - 1 {
        return true;
    }
    if unparked > cases.get(k).to as usize {
        return false;
    }
    true
}

/// Whether a sum, divided by 1000 and rounded up, is below a number.
pub(crate) fn is_below(sum: i64, stated: u64) -> bool
    requires sum { IsWithin 4100000000000000000 sum }
    requires stated { stated ≤ 1000000000000 }
    ensures { IsTrue result ↔ ((sum +ℤ pos 1000) ≤ℤ pos (1000 * stated)) }
{
    if sum + 1000 > (1000 * stated) as i64 {
        return false;
    }
    true
}
