// The least choice of a column for each row of a full table, with dual values that show it.
ghost use Rattle.std.specs.Prelude.{◌≡◌, ◌≢◌, ◌+◌, ◌*◌, ◌<◌, ◌≤◌, ℕ, List, length, map, pos};
ghost use Rattle.std.specs.Prelude.{replicate, slice_set, IfOk, IsTrue, EachIndex, ◌↔◌};
ghost use Rattle.shunt_dual.specs.defs.Tables.{at, cost_at, top, IsTable, IsPlace, IsAssigned};
ghost use Rattle.shunt_dual.specs.defs.Tables.{total, times, minus};
ghost use Rattle.shunt_dual.specs.defs.Pairs.{IsPaired, AreDuals};
ghost use Rattle.shunt_dual.specs.defs.Tree.{IsGrown, IsEnd, IsTriedRow};

use crate::steps::{lower, raise, walk};
use crate::tree::{choose, cost_row, relax, start};
use std::alloc::{AllocError, Global};

/// Grows the tree until it reaches a free column.
fn grow(
    table: &[u64],
    n: usize,
    rows: usize,
    alpha: &[u64],
    debt: &[u64],
    place: &[usize],
    owner: &[usize],
    distance: &mut [u64],
    way: &mut [usize],
    when: &mut [usize],
) -> usize
    requires table { IsTable n table.now }
    requires rows { rows ≤ n }
    requires alpha_len { length alpha.now ≡ n }
    requires debt_len { length debt.now ≡ n }
    requires owner_len { length owner.now ≡ n + 1 }
    requires distance_len { length distance.old ≡ n + 1 }
    requires way_len { length way.old ≡ n + 1 }
    requires when_len { length when.old ≡ n + 1 }
    requires paired { IsPaired n rows (n + 1) place.now owner.now }
    requires duals { AreDuals n rows top
        (cost_at table.now n) alpha.now debt.now place.now owner.now }
    requires free { 0 < times (n + 1) owner.now }
    requires root { at owner.now n ≢ n + 1 }
    requires grown { IsGrown n rows top 1
        (cost_at table.now n) alpha.now debt.now place.now owner.now distance.old way.old when.old }
    ensures grown { (t : ℕ) × IsGrown n rows top t
        (cost_at table.now n) alpha.now debt.now place.now owner.now distance.new way.new when.new }
    ensures end { IsEnd n result owner.now distance.new when.new }
{
    let mut joined = 1;
    'turns: loop {
        let c = choose(n + 1, when, distance);
        let r = owner[c];
        if r == n + 1 {
            return c;
        }
        when[c] = joined;
        joined += 1;
        let base = distance[c];
        relax(
            cost_row(table, n, r),
            r,
            alpha[r],
            base,
            debt,
            distance,
            way,
        );
    }
}

/// Puts row `k` in.
fn insert(
    table: &[u64],
    n: usize,
    k: usize,
    alpha: &mut [u64],
    debt: &mut [u64],
    place: &mut [usize],
    owner: &mut [usize],
    distance: &mut [u64],
    way: &mut [usize],
    when: &mut [usize],
)
    requires table { IsTable n table.now }
    requires row { k < n }
    requires alpha_len { length alpha.old ≡ n }
    requires debt_len { length debt.old ≡ n }
    requires place_len { length place.old ≡ n }
    requires owner_len { length owner.old ≡ n + 1 }
    requires distance_len { length distance.old ≡ n + 1 }
    requires way_len { length way.old ≡ n + 1 }
    requires when_len { length when.old ≡ n + 1 }
    requires paired { IsPaired n k n place.old owner.old }
    requires duals { AreDuals n k top (cost_at table.now n) alpha.old debt.old place.old owner.old }
    requires free { times (n + 1) owner.old + k ≡ n }
    requires root { at owner.old n ≢ n + 1 }
    ensures paired { IsPaired n (k + 1) n place.new owner.new }
    ensures duals { AreDuals n (k + 1) top
        (cost_at table.now n) alpha.new debt.new place.new owner.new }
    ensures free { times (n + 1) owner.new + (k + 1) ≡ n }
    ensures root { at owner.new n ≢ n + 1 }
{
    place[k] = n;
    owner[n] = k;
    start(cost_row(table, n, k), k, debt, distance, way, when);
    let end = grow(
        table,
        n,
        k + 1,
        alpha,
        debt,
        place,
        owner,
        distance,
        way,
        when,
    );
    let far = distance[end];
    raise(k + 1, far, place, distance, alpha);
    lower(far, distance, debt);
    walk(n, end, k + 1, way, when, place, owner);
}

/// Puts all rows in.
fn insert_all(
    table: &[u64],
    n: usize,
    alpha: &mut [u64],
    debt: &mut [u64],
    place: &mut [usize],
    owner: &mut [usize],
    distance: &mut [u64],
    way: &mut [usize],
    when: &mut [usize],
)
    requires table { IsTable n table.now }
    requires alpha { alpha.old ≡ replicate n 0 }
    requires debt { debt.old ≡ replicate n 0 }
    requires place_len { length place.old ≡ n }
    requires owner { owner.old ≡ slice_set (replicate (n + 1) (n + 1)) n 0 }
    requires distance_len { length distance.old ≡ n + 1 }
    requires way_len { length way.old ≡ n + 1 }
    requires when_len { length when.old ≡ n + 1 }
    ensures paired { IsPaired n n n place.new owner.new }
    ensures duals { AreDuals n n top (cost_at table.now n) alpha.new debt.new place.new owner.new }
    ensures free { times (n + 1) owner.new ≡ 0 }
{
    for k in 0..n {
        insert(table, n, k, alpha, debt, place, owner, distance, way, when);
    }
}

/// Small numbers as signed ones.
fn signed(alloc: Global, numbers: &[u64]) -> Result<Vec<i64>, AllocError>
    requires { (k : ℕ) → k < length numbers.now → at numbers.now k ≤ top }
    ensures { IfOk result (λ v. v.items ≡ map pos numbers.now) }
{
    let mut all = Vec::new(alloc);
    for number in numbers {
        all.push(*number as i64)?;
    }
    Ok(all)
}

/// Small numbers below zero.
fn negated(alloc: Global, numbers: &[u64]) -> Result<Vec<i64>, AllocError>
    requires { (k : ℕ) → k < length numbers.now → at numbers.now k ≤ top }
    ensures { IfOk result (λ v. v.items ≡ map minus numbers.now) }
{
    let mut all = Vec::new(alloc);
    for number in numbers {
        all.push(-(*number as i64))?;
    }
    Ok(all)
}

/// A column for each row, its cost, and dual values that show that no other choice costs less.
#[derive(Drop)]
pub(crate) struct PlacedRows {
    pub place: Vec<usize>,
    pub alpha: Vec<i64>,
    pub beta: Vec<i64>,
    pub total: u64,
}

/// The cost of a column for each row.
#[tactic(auto, unfolding(crate::specs::defs::Tables::cost_at))]
fn cost_of(table: &[u64], n: usize, place: &[usize]) -> u64
    requires table { IsTable n table.now }
    requires place { IsPlace n place.now }
    ensures exact { result ≡ total (cost_at table.now n) place.now }
    ensures small { result ≤ 160 * top }
{
    let mut sum = 0;
    for r in 0..n {
        sum += cost_row(table, n, r)[place[r]];
    }
    sum
}

/// The answer once all rows are in.
fn answer(
    alloc: Global,
    table: &[u64],
    n: usize,
    place: Vec<usize>,
    owner: &[usize],
    alpha: &[u64],
    debt: &[u64],
) -> Result<PlacedRows, AllocError>
    requires table { IsTable n table.now }
    requires alpha_len { length alpha.now ≡ n }
    requires debt_len { length debt.now ≡ n }
    requires place_len { length place.items ≡ n }
    requires owner_len { length owner.now ≡ n + 1 }
    requires paired { IsPaired n n n place.items owner.now }
    requires duals { AreDuals n n top
        (cost_at table.now n) alpha.now debt.now place.items owner.now }
    requires free { times (n + 1) owner.now ≡ 0 }
    ensures duals { IfOk result
        (λ a. IsAssigned n (cost_at table.now n) a.place.items a.alpha.items a.beta.items) }
    ensures total { IfOk result (λ a. a.total ≡ total (cost_at table.now n) a.place.items) }
    ensures small { IfOk result (λ a. a.total ≤ 160 * top) }
    ensures least { IfOk result
        (λ a. (other : List ℕ) → IsPlace n other → a.total ≤ total (cost_at table.now n) other) }
    ensures unfilled { IfOk result (λ a. (other : List ℕ) → IsPlace n other
        → ((r : ℕ) → r < n → cost_at table.now n r (at other r) ≤ 3000000000) → (r : ℕ) → r < n
        → cost_at table.now n r (at a.place.items r) < top) }
{
    let alpha = signed(alloc, alpha)?;
    let beta = negated(alloc, debt)?;
    let total = cost_of(table, n, &place);
    Ok(PlacedRows {
        place,
        alpha,
        beta,
        total,
    })
}

/// The assignment of least cost in a table of `n` rows and columns, row by row.
pub(crate) fn least_places(alloc: Global, table: &[u64], n: usize) -> Result<PlacedRows, AllocError>
    requires { IsTable n table.now }
    ensures duals { IfOk result
        (λ a. IsAssigned n (cost_at table.now n) a.place.items a.alpha.items a.beta.items) }
    ensures total { IfOk result (λ a. a.total ≡ total (cost_at table.now n) a.place.items) }
    ensures small { IfOk result (λ a. a.total ≤ 160 * top) }
    ensures least { IfOk result
        (λ a. (other : List ℕ) → IsPlace n other → a.total ≤ total (cost_at table.now n) other) }
    ensures unfilled { IfOk result (λ a. (other : List ℕ) → IsPlace n other
        → ((r : ℕ) → r < n → cost_at table.now n r (at other r) ≤ 3000000000) → (r : ℕ) → r < n
        → cost_at table.now n r (at a.place.items r) < top) }
{
    let mut alpha = vec![in alloc; 0u64; n]?;
    let mut debt = vec![in alloc; 0u64; n]?;
    let mut place = vec![in alloc; 0usize; n]?;
    let mut owner = vec![in alloc; n + 1; n + 1]?;
    owner[n] = 0;
    let mut distance = vec![in alloc; 0u64; n + 1]?;
    let mut way = vec![in alloc; 0usize; n + 1]?;
    let mut when = vec![in alloc; 0usize; n + 1]?;
    insert_all(
        table,
        n,
        &mut alpha,
        &mut debt,
        &mut place,
        &mut owner,
        &mut distance,
        &mut way,
        &mut when,
    );
    answer(alloc, table, n, place, &owner, &alpha, &debt)
}
