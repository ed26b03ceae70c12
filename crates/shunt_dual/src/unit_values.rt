// The greatest values of units with which duals still hold.
ghost use Rattle.std.specs.Prelude.{◌≡◌, ℕ, ◌<◌, ◌≤◌, ◌*◌, ◌+◌, ℤ, pos, ◌≤ℤ◌, All, true, IfOk};
ghost use Rattle.std.specs.Prelude.{length, slice_set, slice_index_or};
ghost use Rattle.shunt_prices.specs.defs.Sums.{IsWithin};
ghost use Rattle.shunt_prices.specs.defs.Limits.{IsValue};
ghost use Rattle.shunt_dual.specs.defs.Refits.{IsMet, IsAsk, IsGreatestUnder, IsUnitRefit};
ghost use Rattle.shunt_dual.specs.defs.Refits.{AreUnitsRefit};

use crate::shape_costs::run_sum;
use shunt_lists::Items;
use std::alloc::{AllocError, Global};

/// What is asked of a run of units: that their values come to no more than a number.
#[derive(Clone, Copy)]
pub(crate) struct Ask {
    pub(crate) first: usize,
    pub(crate) n: u8,
    pub(crate) most: i64,
}

/// The greatest value of a unit up to a number with which an ask is met.
fn met_up_to(alpha: &[i64], ask: Ask, u: usize, z: i64) -> i64
    requires alphas { All IsValue alpha.now }
    requires ask { IsAsk (length alpha.now) ask }
    requires met { IsMet alpha.now ask }
    requires unit { u < length alpha.now }
    requires low { slice_index_or alpha.now u (pos 0) ≤ℤ z }
    requires high { z ≤ℤ pos 999999999999 }
    ensures low { slice_index_or alpha.now u (pos 0) ≤ℤ result }
    ensures at_most { result ≤ℤ z }
    ensures met { IsMet (slice_set alpha.now u result) ask }
    ensures most { (other : ℤ) → other ≤ℤ z → IsMet (slice_set alpha.now u other) ask
        → other ≤ℤ result }
{
    let n = ask.n as usize;
    if u < ask.first {
        return z;
    }
    if ask.first + n <= u {
        return z;
    }
    let slack = ask.most - run_sum(alpha, ask.first, n);
    let old = alpha[u];
    if slack < z - old { old + slack } else { z }
}

/// The greatest value of a unit with which all asks are met.
fn greatest(alpha: &[i64], asks: &[Ask], u: usize) -> i64
    requires alphas { All IsValue alpha.now }
    requires asks { All (IsAsk (length alpha.now)) asks.now }
    requires met { All (IsMet alpha.now) asks.now }
    requires unit { u < length alpha.now }
    ensures greatest { IsGreatestUnder asks.now alpha.now u result }
    ensures value { IsValue result }
{
    let mut z = 999_999_999_999;
    for ask in asks {
        z = met_up_to(alpha, *ask, u, z);
    }
    z
}

/// A unit's new value: the greatest one, or the old one where it is covered.
fn refit_value(alpha: &[i64], asks: &[Ask], covered: &[bool], u: usize) -> i64
    requires alphas { All IsValue alpha.now }
    requires asks { All (IsAsk (length alpha.now)) asks.now }
    requires met { All (IsMet alpha.now) asks.now }
    requires covered { length covered.now ≡ length alpha.now }
    requires unit { u < length alpha.now }
    ensures refit { IsUnitRefit asks.now covered.now u alpha.now (slice_set alpha.now u result) }
    ensures met { All (IsMet (slice_set alpha.now u result)) asks.now }
    ensures value { IsValue result }
{
    if covered[u] {
        return alpha[u];
    }
    greatest(alpha, asks, u)
}

/// Gives each uncovered unit, one after the other, the greatest value with which all asks are met. Tells by how much the
/// values have risen in all.
fn refit(alpha: &mut [i64], asks: &[Ask], covered: &[bool]) -> i64
    requires alphas { All IsValue alpha.old }
    requires asks { All (IsAsk (length alpha.old)) asks.now }
    requires met { All (IsMet alpha.old) asks.now }
    requires covered { length covered.now ≡ length alpha.old }
    requires few { length alpha.old ≤ 160 }
    ensures refit { AreUnitsRefit asks.now covered.now
        (length alpha.old) alpha.old alpha.new result }
    ensures alphas { All IsValue alpha.new }
    ensures met { All (IsMet alpha.new) asks.now }
    ensures small { IsWithin 319999999999680 result }
{
    let mut risen = 0;
    for u in 0..alpha.len() {
        let z = refit_value(alpha, asks, covered, u);
        risen += z - alpha[u];
        alpha[u] = z;
    }
    risen
}

/// New values of the units, and by how much they are higher in all.
#[derive(Drop)]
pub(crate) struct NewValues {
    pub(crate) alpha: Items<i64>,
    pub(crate) risen: i64,
}

/// The same values.
pub(crate) fn copied<T: Copy + Drop>(alloc: Global, values: &[T]) -> Result<Vec<T>, AllocError>
    ensures { IfOk result (λ v. v.items ≡ values.now) }
{
    let mut all = Vec::new(alloc);
    all.extend_from_slice(values)?;
    Ok(all)
}

/// New values of the units: each uncovered one, one after the other, gets the greatest value with which all asks are met.
pub(crate) fn refit_values(
    alloc: Global,
    alpha: &[i64],
    asks: &[Ask],
    covered: &[bool],
) -> Result<NewValues, AllocError>
    requires alphas { All IsValue alpha.now }
    requires asks { All (IsAsk (length alpha.now)) asks.now }
    requires met { All (IsMet alpha.now) asks.now }
    requires covered { length covered.now ≡ length alpha.now }
    requires few { length alpha.now ≤ 160 }
    ensures refit { IfOk result
        (λ r. AreUnitsRefit asks.now covered.now (length alpha.now) alpha.now r.alpha r.risen) }
    ensures alphas { IfOk result (λ r. All IsValue r.alpha) }
    ensures met { IfOk result (λ r. All (IsMet r.alpha) asks.now) }
    ensures small { IfOk result (λ r. IsWithin 319999999999680 r.risen) }
{
    let mut values = copied(alloc, alpha)?;
    let risen = refit(&mut values, asks, covered);
    Ok(NewValues {
        alpha: Items::from_vec(values),
        risen,
    })
}
