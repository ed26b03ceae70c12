// The bound of a path by duals and by cases.
ghost use Rattle.std.specs.Prelude.{◌≡◌, ◌<◌, ◌≤◌, ◌+◌, ◌*◌, ◌+ℤ◌, ◌-ℤ◌, All, pos, length, true};
ghost use Rattle.std.specs.Prelude.{if◌then◌else◌, slice_index_or};
ghost use Rattle.shunt_blocks.specs.defs.Shapes.{IsWithinTrains};
ghost use Rattle.shunt_choices.specs.defs.Paths.{IsTrailOf};
ghost use Rattle.shunt_prices.specs.defs.Sums.{sum_z, sum_z_below, IsWithin};
ghost use Rattle.shunt_prices.specs.defs.Prices.{price_part, most, most_of, paid_at_most};
ghost use Rattle.shunt_prices.specs.defs.Limits.{IsKind, IsPrice, ArePrices, AreDuals, AreCases};
ghost use Rattle.shunt_prices.specs.defs.Limits.{IsValue, from_of};
ghost use Rattle.shunt_prices.specs.defs.Cases.{weight};
ghost use Rattle.shunt_prices.specs.defs.Bounds.{most_surcharge, sum_at, case_sum, unparked_in};
ghost use Rattle.shunt_prices.specs.defs.Bounds.{is_open, IsBoundOf, IsCasesBound, IsDualsBound};
ghost use Rattle.shunt_prices.specs.defs.Bounds.{IsLeastBelow};
ghost use Rattle.shunt_dual.specs.defs.Weighed.{case_of};

use crate::shape_costs::{parked_part, room};
use shunt_base::{Cases, Duals, Price, PriceKind};
use shunt_blocks::laws::few_blocks;
use shunt_blocks::{Block, block_cost, block_length, shape_of};
use shunt_choices::Path;
use shunt_instance::Instance;

/// The price part of a block.
fn price_part(instance: &Instance, prices: &[Price], block: &Block) -> u64
    requires prices { ArePrices instance.now prices.now }
    requires within { IsWithinTrains instance.now block.now }
    ensures exact { result ≡ price_part instance.now prices.now block.now }
    ensures small { result ≤ 23039936000000000 }
{
    let Some(park) = block.park else {
        return 0;
    };
    let long = block_length(instance, block);
    parked_part(instance, prices, shape_of(block), long, park)
}

/// What a block weighs in a case.
pub(crate) fn weight(instance: &Instance, multiplier: i64, duals: &Duals, block: &Block) -> i64
    requires multiplier { IsValue multiplier }
    requires duals { AreDuals instance.now duals.now }
    requires within { IsWithinTrains instance.now block.now }
    ensures exact { result ≡ weight instance.now (case_of multiplier duals.now) block.now }
    ensures small { IsWithin 23040939999999999 result }
{
    let part = price_part(instance, duals.prices.as_slice(), block);
    let paid = (1000 * block_cost(instance, block) + part) as i64;
    match block.park {
        None => paid + multiplier,
        Some(_) => paid,
    }
}

/// The weights of blocks, added up.
fn weights(instance: &Instance, multiplier: i64, duals: &Duals, blocks: &[Block]) -> i64
    requires multiplier { IsValue multiplier }
    requires duals { AreDuals instance.now duals.now }
    requires within { All (IsWithinTrains instance.now) blocks.now }
    requires few { length blocks.now ≤ 160 }
    ensures exact { result ≡ sum_z (weight instance.now (case_of multiplier duals.now)) blocks.now }
    ensures small { IsWithin 3686550399999999840 result }
{
    let mut total = 0;
    for block in blocks {
        total += weight(instance, multiplier, duals, block);
    }
    total
}

/// A value where it isn't covered.
fn uncovered(covered: bool, value: i64) -> i64
    ensures { result ≡ (if covered then pos 0 else value) }
{
    if covered { 0 } else { value }
}

/// The values that aren't covered, added up.
fn uncovered_sum(values: &[i64], covered: &[bool]) -> i64
    requires values { All IsValue values.now }
    requires covered { length covered.now ≡ length values.now }
    requires few { length values.now ≤ 160 }
    ensures exact { result ≡ sum_z_below (length values.now) (λ u. if slice_index_or covered.now u
        true then pos 0 else slice_index_or values.now u (pos 0)) }
    ensures small { IsWithin 159999999999840 result }
{
    let mut total = 0;
    for u in 0..values.len() {
        total += uncovered(covered[u], values[u]);
    }
    total
}

/// What a kind of price counts at most on a track with this room.
fn most_of(kind: PriceKind, room: u32) -> u64
    requires kind { IsKind kind }
    requires small { room ≤ 50000 }
    ensures exact { result ≡ most_of kind room }
    ensures small { result ≤ 50000 }
{
    match kind {
        PriceKind::Length => room as u64,
        PriceKind::Parts(r) => r as u64,
    }
}

/// What a price takes at most.
fn paid(instance: &Instance, price: Price) -> u64
    requires { IsPrice instance.now price }
    ensures exact { result ≡ price.value * most instance.now price }
    ensures small { result ≤ 50000000000000 }
{
    price.value * most_of(price.kind, room(instance, price.track))
}

/// What prices take at most, added up.
fn paid_at_most(instance: &Instance, prices: &[Price]) -> u64
    requires { ArePrices instance.now prices.now }
    ensures exact { result ≡ paid_at_most instance.now prices.now }
    ensures small { result ≤ 3200000000000000 }
{
    let mut total = 0;
    for price in prices {
        total += paid(instance, *price);
    }
    total
}

/// What the surcharge of unparked blocks comes to at most.
fn most_surcharge(multiplier: i64, from: u8, to: u8) -> i64
    requires multiplier { IsValue multiplier }
    requires from { from ≤ 160 }
    requires to { to ≤ 160 }
    ensures exact { result ≡ most_surcharge multiplier from to }
    ensures small { IsWithin 159999999999840 result }
{
    let at_from = multiplier * from as i64;
    let at_to = multiplier * to as i64;
    at_from.max(at_to)
}

/// The sum of a case from its parts.
fn sum_of(weights: i64, uncovered: i64, paid: u64, surcharge: i64) -> i64
    requires weights { IsWithin 3686550399999999840 weights }
    requires uncovered { IsWithin 319999999999680 uncovered }
    requires paid { paid ≤ 3200000000000000 }
    requires surcharge { IsWithin 159999999999840 surcharge }
    ensures exact { result ≡ weights +ℤ uncovered -ℤ pos paid -ℤ surcharge }
    ensures small { IsWithin 4010000000000000000 result }
{
    let gained = weights + uncovered;
    let lost = paid as i64 + surcharge;
    gained - lost
}

/// The sum at a path of a case that speaks of plans with from one number to another of unparked blocks.
fn sum_at(instance: &Instance, path: &Path, from: u8, to: u8, multiplier: i64, duals: &Duals) -> i64
    requires path { IsTrailOf instance.now path.now }
    requires from { from ≤ 160 }
    requires to { to ≤ 160 }
    requires multiplier { IsValue multiplier }
    requires duals { AreDuals instance.now duals.now }
    ensures exact { result ≡ sum_at instance.now path.now.blocks from
        (record { to = to; multiplier = multiplier; duals = duals.now }) }
    ensures small { IsWithin 4010000000000000000 result }
{
    // The calls tell that there are at most 160 units, positions and blocks.
    instance.units();
    instance.positions();
    few_blocks();
    let covered = path.covered();
    let weights = weights(instance, multiplier, duals, path.blocks());
    let alphas = uncovered_sum(duals.alpha.as_slice(), covered.units());
    let betas = uncovered_sum(duals.beta.as_slice(), covered.places());
    let paid = paid_at_most(instance, duals.prices.as_slice());
    let surcharge = most_surcharge(multiplier, from, to);
    sum_of(weights, alphas + betas, paid, surcharge)
}

/// A sum divided by 1000 and rounded up.
pub fn bound_of(sum: i64) -> i64
    requires { IsWithin 4100000000000000000 sum }
    ensures { IsBoundOf sum result }
{
    if sum < 0 {
        -(((-sum) as u64 / 1000) as i64)
    } else {
        ((sum as u64 + 999) / 1000) as i64
    }
}

/// How many blocks are unparked.
pub fn unparked_in(blocks: &[Block]) -> usize
    ensures { result ≡ unparked_in blocks.now }
{
    blocks.iter().filter(|b| b.park.is_none()).count()
}

/// The least number of unparked blocks of the plans that the case with a number speaks of.
fn from_of(cases: &Cases, k: usize) -> u8
    requires there { k < length cases.now }
    requires small { All (λ c. c.to ≤ 160) cases.now }
    ensures { result ≡ from_of cases.now k }
{
    let Some(before) = k.checked_sub(1) else {
        return 0;
    };
    cases.get(before).to + 1
}

/// The sum at a path of the case with a number, in thousandths of a cost unit. It takes no memory.
pub fn case_sum(instance: &Instance, path: &Path, cases: &Cases, k: usize) -> i64
    requires path { IsTrailOf instance.now path.now }
    requires cases { AreCases instance.now cases.now }
    requires there { k < length cases.now }
    ensures exact { result ≡ case_sum instance.now path.now.blocks cases.now k }
    ensures small { IsWithin 4010000000000000000 result }
{
    let case = cases.get(k);
    let from = from_of(cases, k);
    sum_at(instance, path, from, case.to, case.multiplier, &case.duals)
}

/// The bound of the case with a number.
fn case_bound(instance: &Instance, path: &Path, cases: &Cases, k: usize) -> i64
    requires path { IsTrailOf instance.now path.now }
    requires cases { AreCases instance.now cases.now }
    requires there { k < length cases.now }
    ensures { IsBoundOf (case_sum instance.now path.now.blocks cases.now k) result }
{
    bound_of(case_sum(instance, path, cases, k))
}

/// The lesser of a bound and that of the case with a number, where that is open.
fn improved(
    instance: &Instance,
    path: &Path,
    cases: &Cases,
    unparked: usize,
    k: usize,
    least: i64,
) -> i64
    requires path { IsTrailOf instance.now path.now }
    requires cases { AreCases instance.now cases.now }
    requires unparked { unparked ≡ unparked_in path.now.blocks }
    requires there { k < length cases.now }
    requires least { IsLeastBelow instance.now path.now.blocks cases.now k least }
    ensures { IsLeastBelow instance.now path.now.blocks cases.now (k + 1) result }
{
    if unparked > cases.get(k).to as usize {
        return least;
    }
    let bound = case_bound(instance, path, cases, k);
    if bound < least { bound } else { least }
}

/// The bound of a path by plain duals, for which no plan that has its blocks costs less where they hold: their sum, divided
/// by 1000 and rounded up. It may be negative. It takes no memory.
pub fn bound(instance: &Instance, path: &Path, duals: &Duals) -> i64
    requires path { IsTrailOf instance.now path.now }
    requires duals { AreDuals instance.now duals.now }
    ensures { IsDualsBound instance.now path.now.blocks duals.now result }
{
    bound_of(sum_at(instance, path, 0, 160, 0, duals))
}

/// The bound of a path by cases: the least of the bounds of those that are open there. It may be negative. It takes no
/// memory.
pub fn cases_bound(instance: &Instance, path: &Path, cases: &Cases) -> i64
    requires path { IsTrailOf instance.now path.now }
    requires cases { AreCases instance.now cases.now }
    ensures { IsCasesBound instance.now path.now.blocks cases.now result }
{
    let unparked = unparked_in(path.blocks());
    let last = cases.len() - 1;
    let mut least = case_bound(instance, path, cases, last);
    for k in 0..last {
        least = improved(instance, path, cases, unparked, k, least);
    }
    least
}
