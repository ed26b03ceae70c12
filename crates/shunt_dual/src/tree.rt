// The steps of one row's tree.
ghost use Rattle.std.specs.Prelude.{◌≡◌, ◌≢◌, ◌+◌, ◌-◌, ◌*◌, ◌^◌, ◌<◌, ◌≤◌, ℕ, length};
ghost use Rattle.shunt_dual.specs.defs.Tables.{at, cost_at, top, IsTable, times};
ghost use Rattle.shunt_dual.specs.defs.Pairs.{IsPaired, AreDuals};
ghost use Rattle.shunt_dual.specs.defs.Tree.{IsGrown, IsEnd, IsTriedRow};

/// The costs of a row.
#[tactic(auto, unfolding(crate::specs::defs::Tables::cost_at))]
pub(crate) fn cost_row(table: &[u64], n: usize, row: usize) -> &[u64]
    requires table { IsTable n table.now }
    requires row { row < n }
    ensures len { length result.now ≡ n }
    ensures value { (c : ℕ) → c < n → at result.now c ≡ cost_at table.now n row c }
{
    &table[row * n..row * n + n]
}

/// The column outside the tree with the least distance.
pub(crate) fn choose(mark: usize, when: &[usize], distance: &[u64]) -> usize
    requires len { length distance.now ≡ length when.now }
    requires low { (c : ℕ) → c < length when.now → at distance.now c < 2 ^ 64 - 1 }
    requires some { (c : ℕ) × (c < length when.now) × (at when.now c ≡ mark) }
    ensures within { result < length when.now }
    ensures outside { at when.now result ≡ mark }
    ensures least { (c : ℕ) → c < length when.now → at when.now c ≡ mark
        → at distance.now result ≤ at distance.now c }
{
    let mut best = when.len();
    let mut least = u64::MAX;
    for c in 0..when.len() {
        if when[c] == mark && distance[c] < least {
            best = c;
            least = distance[c];
        }
    }
    best
}

/// Tries the paths through a row at distance `base` to each column.
pub(crate) fn relax(
    row: &[u64],
    r: usize,
    own: u64,
    base: u64,
    debt: &[u64],
    distance: &mut [u64],
    way: &mut [usize],
)
    requires row_len { length row.now ≡ length debt.now }
    requires distance_len { length distance.old ≡ length debt.now + 1 }
    requires way_len { length way.old ≡ length debt.now + 1 }
    requires base { base ≤ 2 * top }
    requires slack { (c : ℕ) → c < length debt.now → own ≤ at row.now c + at debt.now c }
    requires low { (c : ℕ) → c < length debt.now → at row.now c ≤ top }
    requires small { (c : ℕ) → c < length debt.now → at debt.now c ≤ top }
    ensures each { (c : ℕ) → c < length debt.now → IsTriedRow r own base (at row.now c)
        (at debt.now c) (at distance.old c) (at way.old c) (at distance.new c) (at way.new c) }
    ensures rest { at distance.new (length debt.now) ≡ at distance.old (length debt.now) }
{
    for c in 0..debt.len() {
        let far = base + (row[c] + debt[c]) - own;
        if far < distance[c] {
            distance[c] = far;
            way[c] = r;
        }
    }
}

/// The distances with the root alone in the tree.
pub(crate) fn start(
    row: &[u64],
    r: usize,
    debt: &[u64],
    distance: &mut [u64],
    way: &mut [usize],
    when: &mut [usize],
)
    requires row_len { length row.now ≡ length debt.now }
    requires distance_len { length distance.old ≡ length debt.now + 1 }
    requires way_len { length way.old ≡ length debt.now + 1 }
    requires when_len { length when.old ≡ length debt.now + 1 }
    requires few { length debt.now ≤ 160 }
    requires low { (c : ℕ) → c < length debt.now → at row.now c ≤ top }
    requires small { (c : ℕ) → c < length debt.now → at debt.now c ≤ top }
    ensures distance { (c : ℕ) → c < length debt.now
        → at distance.new c ≡ at row.now c + at debt.now c }
    ensures way { (c : ℕ) → c < length debt.now → at way.new c ≡ r }
    ensures root { at distance.new (length debt.now) ≡ 0 }
    ensures when { (c : ℕ) → c < length debt.now → at when.new c ≡ length debt.now + 1 }
    ensures joined { at when.new (length debt.now) ≡ 0 }
    ensures count { times (length debt.now + 1) when.new ≡ length debt.now }
{
    for c in 0..debt.len() {
        distance[c] = row[c] + debt[c];
        way[c] = r;
    }
    distance[debt.len()] = 0;
    when.fill(debt.len() + 1);
    when[debt.len()] = 0;
}
