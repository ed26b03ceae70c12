// Changes of the duals and of the pairing.
ghost use Rattle.std.specs.Prelude.{◌≡◌, ◌≢◌, ◌⊎◌, ◌+◌, ◌-◌, ◌*◌, ◌<◌, ◌≤◌, ℕ, length};
ghost use Rattle.shunt_dual.specs.defs.Tables.{at, top, times};
ghost use Rattle.shunt_dual.specs.defs.Pairs.{IsPaired};

/// Raises the alphas of the first rows by what their places are nearer than `far`.
pub(crate) fn raise(rows: usize, far: u64, place: &[usize], distance: &[u64], alpha: &mut [u64])
    requires rows { rows ≤ length alpha.old }
    requires place_len { length place.now ≡ length alpha.old }
    requires placed { (r : ℕ) → r < rows → at place.now r < length distance.now }
    requires far { far ≤ 2 * top }
    requires low { (r : ℕ) → r < length alpha.old → at alpha.old r ≤ top }
    ensures raised { (r : ℕ) → r < rows
        → at alpha.new r ≡ at alpha.old r + (far - at distance.now (at place.now r)) }
    ensures rest { (r : ℕ) → rows ≤ r → at alpha.new r ≡ at alpha.old r }
{
    for r in 0..rows {
        alpha[r] += far.saturating_sub(distance[place[r]]);
    }
}

/// Raises the debts of the columns by what they are nearer than `far`.
pub(crate) fn lower(far: u64, distance: &[u64], debt: &mut [u64])
    requires len { length debt.old < length distance.now }
    requires far { far ≤ 2 * top }
    requires small { (c : ℕ) → c < length debt.old → at debt.old c ≤ top }
    ensures { (c : ℕ) → c < length debt.old
        → at debt.new c ≡ at debt.old c + (far - at distance.now c) }
{
    for c in 0..debt.len() {
        debt[c] += far.saturating_sub(distance[c]);
    }
}

/// Gives each row on the way from `end` back to column `n` the column after it.
pub(crate) fn walk(
    n: usize,
    end: usize,
    rows: usize,
    way: &[usize],
    when: &[usize],
    place: &mut [usize],
    owner: &mut [usize],
)
    requires rows { rows ≤ n }
    requires end { end < n }
    requires place_len { length place.old ≡ n }
    requires owner_len { length owner.old ≡ n + 1 }
    requires way_len { length way.now ≡ n + 1 }
    requires paired { IsPaired n rows end place.old owner.old }
    requires free { at owner.old end ≡ n + 1 }
    requires root { at owner.old n ≢ n + 1 }
    requires links { (c : ℕ) → c < n
        → (at way.now c < rows) × (at when.now (at place.old (at way.now c)) < at when.now c) }
    ensures paired { IsPaired n rows n place.new owner.new }
    ensures count { times (n + 1) owner.new + 1 ≡ times (n + 1) owner.old }
    ensures kept { (c : ℕ) → c ≤ n → at owner.new c ≡ n + 1 → at owner.old c ≡ n + 1 }
    ensures moved { (r : ℕ) → r < rows
        → (at place.new r ≡ at place.old r) ⊎ ((at way.now (at place.new r) ≡ r)
        × ((at place.new r ≡ end) ⊎ (at when.now (at place.new r) < at when.now end))) }
{
    let mut c = end;
    'back: while c < n {
        let r = way[c];
        let next = place[r];
        place[r] = c;
        owner[c] = r;
        c = next;
    }
}
