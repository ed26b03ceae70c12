// What blocks of a stack take of the night's events, in the order in which they come.
ghost use Rattle.std.specs.Prelude.{◌≡◌, ℕ, ◌<◌, ◌≤◌, ◌↔◌, ◌-◌, take, drop, length, slice_index_or};
ghost use Rattle.std.specs.Prelude.{IsPermutation};
ghost use Rattle.std.specs.List.Sorted.{IsNonDecreasingBy};
ghost use Rattle.shunt_lists.specs.defs.Members.{In};
ghost use Rattle.shunt_stacks.specs.defs.Spans.{Span, AreOwn, coming_at};
ghost use Rattle.shunt_recount.specs.declared.visits.Visit.{Visit as AVisit};
ghost use Rattle.shunt_recount.specs.defs.Visits.{spans_of, comes_at, AreSmall, AreVisits};
ghost use Rattle.shunt_recount.specs.defs.Visits.{fixed_in, free_in};

/// What a block of a stack takes of the events by their numbers: it comes at the first one, its last unit has entered before `inside`, its
/// first leave is `until`, and it is gone before `gone`. The length is in dm, the gain in thousandths of a cost unit.
#[derive(Clone, Copy, Drop)]
pub(crate) struct Visit {
    pub comes: u32,
    pub inside: u32,
    pub until: u32,
    pub gone: u32,
    pub length: u32,
    pub gain: i64,
}

/// The visits of a path's blocks of a stack, which are fixed, and those of free blocks, each in the order in which they come.
#[derive(Drop)]
pub(crate) struct Visits {
    pub fixed: Vec<Visit>,
    pub free: Vec<Visit>,
}

/// These visits in the order in which they come.
fn in_order(visits: Vec<Visit>) -> Vec<Visit>
    ensures same { IsPermutation visits.items result.items }
    ensures order { IsNonDecreasingBy comes_at result.items }
{
    let mut visits = visits;
    visits.sort_unstable_by_key(|visit| visit.comes);
    visits
}

impl Visits {
    /// Fixed and free visits, put into order.
    pub(crate) fn new(fixed: Vec<Visit>, free: Vec<Visit>) -> Visits
        requires own { AreOwn (spans_of fixed.items) (spans_of free.items) }
        requires small { AreSmall (spans_of fixed.items) (spans_of free.items) }
        ensures visits { AreVisits result }
        ensures fixed_same { (s : Span) → In s (fixed_in result) ↔ In s (spans_of fixed.items) }
        ensures free_same { (s : Span) → In s (free_in result) ↔ In s (spans_of free.items) }
    {
        let fixed = in_order(fixed);
        let free = in_order(free);
        Visits { fixed, free }
    }
}

/// How many visits come before an event: they are the first ones.
fn come_before(visits: &[Visit], x: u32) -> usize
    requires { IsNonDecreasingBy comes_at visits.now }
    ensures bound { result ≤ length visits.now }
    ensures before { (k : ℕ) (d : AVisit) → k < result → (slice_index_or visits.now k d).comes < x }
    ensures after { (k : ℕ) (d : AVisit) → result ≤ k → k < length visits.now
        → x ≤ (slice_index_or visits.now k d).comes }
{
    visits.partition_point(|visit| visit.comes < x)
}

/// The first event from a start on, and before an end, at which one of these visits comes; the end where none does.
pub(crate) fn next_coming(visits: &[Visit], start: u32, end: u32) -> u32
    requires order { IsNonDecreasingBy comes_at visits.now }
    requires ends { start ≤ end }
    ensures from { start ≤ result }
    ensures to { result ≤ end }
    ensures none { (s : Span) → In s (spans_of visits.now) → start ≤ s.from → result ≤ s.from }
{
    let Some(visit) = visits.get(come_before(visits, start)) else {
        return end;
    };
    visit.comes.min(end)
}

/// The visits from one place on and before another.
fn between(visits: &[Visit], from: usize, to: usize) -> &[Visit]
    requires ends { from ≤ to }
    requires bound { to ≤ length visits.now }
    ensures { result.now ≡ take (to - from) (drop from visits.now) }
{
    &visits[from..to]
}

/// Those of these visits that come at an event.
pub(crate) fn coming(visits: &[Visit], x: u32) -> &[Visit]
    requires order { IsNonDecreasingBy comes_at visits.now }
    requires small { x < 4000000000 }
    ensures { spans_of result.now ≡ coming_at x (spans_of visits.now) }
{
    let from = come_before(visits, x);
    let to = come_before(visits, x + 1);
    between(visits, from, to)
}
