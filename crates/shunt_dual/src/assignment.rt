// The assignment of least sum of shares.
ghost use Rattle.std.specs.Prelude.{◌≡◌, ◌<◌, ◌≤◌, ◌*◌, ℕ, List, [], length, map, pos, ◌+ℤ◌, ◌≤ℤ◌};
ghost use Rattle.std.specs.Prelude.{All, IfOk};
ghost use Rattle.shunt_instance.specs.defs.Instance.{unit_total};
ghost use Rattle.shunt_matching.specs.defs.Nights.{Matches};
ghost use Rattle.shunt_prices.specs.defs.Sums.{sum_z};
ghost use Rattle.shunt_prices.specs.defs.Limits.{AreDuals};
ghost use Rattle.shunt_prices.specs.defs.Cases.{DualsHold};
ghost use Rattle.shunt_prices.specs.defs.Bounds.{duals_sum, IsBoundOf};
ghost use Rattle.shunt_dual.specs.defs.Shares.{AreShares};
ghost use Rattle.shunt_dual.specs.defs.Assignments.{share_total, AreUnder, IsAssignmentBound};
ghost use Rattle.shunt_dual.specs.defs.Assignments.{IsShown};
ghost use Rattle.shunt_dual.specs.defs.Tables.{or_top};

use crate::table::least_places;
use crate::types::Shares;
use shunt_base::Duals;
use shunt_instance::Instance;
use shunt_lists::Items;
use shunt_matching::Matching;
use std::alloc::{AllocError, Global};

/// A matching and dual values of one sum, which shows that no matching has less.
#[derive(Debug, Drop)]
pub struct Assigned {
    pub matching: Matching,
    /// They have no prices.
    pub duals: Duals,
    /// What the shares of the matching add up to, and the dual values, in thousandths of a cost unit.
    pub total: i64,
}

/// The entries, and one more than the greatest sum of shares where there is none.
fn filled(alloc: Global, entries: &[Option<u64>]) -> Result<Vec<u64>, AllocError>
    ensures { IfOk result (λ v. v.items ≡ map or_top entries.now) }
{
    let mut table = Vec::with_capacity(alloc, entries.len())?;
    for entry in entries {
        table.push(entry.unwrap_or(480_000_000_001))?;
    }
    Ok(table)
}

/// The same numbers.
fn narrowed(alloc: Global, numbers: &[usize]) -> Result<Vec<u16>, AllocError>
    requires { All (λ n. n < 65536) numbers.now }
    ensures { IfOk result (λ v. v.items ≡ numbers.now) }
{
    let mut all = Vec::with_capacity(alloc, numbers.len())?;
    for number in numbers {
        all.push(*number as u16)?;
    }
    Ok(all)
}

/// A matching and dual values that show that none has less.
#[derive(Drop)]
struct Shown {
    place: Items<u16>,
    alpha: Items<i64>,
    beta: Items<i64>,
    total: i64,
}

/// The least choice in the table of shares, filled where pairs aren't matchable.
fn least_shown(alloc: Global, instance: &Instance, shares: &Shares) -> Result<Shown, AllocError>
    requires matching { (place : List ℕ) × Matches instance.now place }
    requires shares { AreShares instance.now shares.now }
    ensures { IfOk result (λ s. IsShown instance.now shares.now s.place s.alpha s.beta s.total) }
{
    let n = instance.units();
    let table = filled(alloc, shares.entries())?;
    let placed = least_places(alloc, &table, n)?;
    let place = narrowed(alloc, &placed.place)?;
    Ok(Shown {
        place: Items::from_vec(place),
        alpha: Items::from_vec(placed.alpha),
        beta: Items::from_vec(placed.beta),
        total: placed.total as i64,
    })
}

/// A matching whose shares add up to the least total, and duals without prices that add up to the same: so no matching has
/// less, and the duals hold at the empty path. It needs that there is a matching, which is where `shortage` is None, and the
/// shares of the instance.
pub fn assign(alloc: Global, instance: &Instance, shares: &Shares) -> Result<Assigned, AllocError>
    requires matching { (place : List ℕ) × Matches instance.now place }
    requires shares { AreShares instance.now shares.now }
    ensures matching { IfOk result (λ a. Matches instance.now a.matching.place_of) }
    ensures total { IfOk result (λ a. a.total ≡ pos (share_total shares.now a.matching.place_of)) }
    ensures duals { IfOk result (λ a. AreDuals instance.now a.duals) }
    ensures no_prices { IfOk result (λ a. a.duals.prices ≡ []) }
    ensures under { IfOk result (λ a. AreUnder instance.now shares.now a.duals) }
    ensures sum { IfOk result
        (λ a. sum_z (λ z. z) a.duals.alpha +ℤ sum_z (λ z. z) a.duals.beta ≡ a.total) }
    ensures at_start { IfOk result (λ a. duals_sum instance.now [] a.duals ≡ a.total) }
    ensures least { IfOk result (λ a. (place : List ℕ) → Matches instance.now place
        → a.total ≤ℤ pos (share_total shares.now place)) }
    ensures hold { IfOk result (λ a. DualsHold instance.now [] a.duals) }
    ensures bound { IfOk result
        (λ a. (b : ℕ) → IsBoundOf a.total (pos b) → IsAssignmentBound instance.now b) }
{
    let shown = least_shown(alloc, instance, shares)?;
    Ok(Assigned {
        matching: Matching {
            place_of: shown.place,
        },
        duals: Duals {
            alpha: shown.alpha,
            beta: shown.beta,
            prices: Items::from_vec(Vec::new(alloc)),
        },
        total: shown.total,
    })
}
