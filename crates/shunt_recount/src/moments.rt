// The events at which visits come, in their order, and what comes at each of them.
ghost use Rattle.std.specs.Prelude.{◌≡◌, ◌⊎◌, ◌<◌, ◌≤◌, ℕ, length, slice_index_or, IfOk};
ghost use Rattle.shunt_lists.specs.defs.Members.{In};
ghost use Rattle.shunt_stacks.specs.defs.Spans.{Span};
ghost use Rattle.shunt_recount.specs.declared.moments.Stop.{Stop as AStop};
ghost use Rattle.shunt_recount.specs.declared.moments.Moment.{Moment as AMoment};
ghost use Rattle.shunt_recount.specs.defs.Visits.{spans_of, fixed_in, free_in, AreVisits};
ghost use Rattle.shunt_recount.specs.defs.Moments.{event_at, IsRank, AreEvents, stop_spans, IsStop};
ghost use Rattle.shunt_recount.specs.defs.Moments.{IsMoment, AreMoments, fixed_of, free_of};

use crate::visits::{Visit, Visits, coming, next_coming};
use std::alloc::{AllocError, Global};

/// A visit, with how many of the listed events are before its own ones.
#[derive(Clone, Copy, Drop)]
pub(crate) struct Stop {
    pub visit: Visit,
    pub inside: usize,
    pub until: usize,
    pub gone: usize,
}

/// What comes at an event: the fixed visit, and where there is none, the free ones.
#[derive(Drop)]
pub(crate) struct Moment {
    pub is_fixed: bool,
    pub stops: Vec<Stop>,
}

/// Visits, with the events before an end at which they come, and what comes at each of these.
#[derive(Drop)]
pub(crate) struct Moments {
    pub visits: Visits,
    pub end: u32,
    pub events: Vec<u32>,
    pub list: Vec<Moment>,
}

/// The first event from a start on, and before an end, at which a visit comes; the end where none does.
fn first_coming(visits: &Visits, start: u32, end: u32) -> u32
    requires visits { AreVisits visits.now }
    requires ends { start ≤ end }
    ensures from { start ≤ result }
    ensures to { result ≤ end }
    ensures none { (s : Span) → In s (fixed_in visits.now) ⊎ In s (free_in visits.now)
        → start ≤ s.from → result ≤ s.from }
{
    let first_fixed = next_coming(&visits.fixed, start, end);
    next_coming(&visits.free, start, first_fixed)
}

/// The events before an end at which visits come.
fn events_before(alloc: Global, visits: &Visits, end: u32) -> Result<Vec<u32>, AllocError>
    requires visits { AreVisits visits.now }
    requires small { end < 4000000000 }
    ensures { IfOk result (λ v. AreEvents (fixed_in visits.now) (free_in visits.now) end v.items) }
{
    let mut events = Vec::new(alloc);
    let mut event = first_coming(visits, 0, end);
    'events: while event < end {
        events.push(event)?;
        event = first_coming(visits, event + 1, end);
    }
    Ok(events)
}

/// How many of these events are before one.
pub(crate) fn rank(events: &[u32], x: u32) -> usize
    requires { (j k : ℕ) → j < k → k < length events.now
        → event_at events.now j < event_at events.now k }
    ensures { IsRank events.now x result }
{
    events.partition_point(|event| *event < x)
}

/// A visit with how many of these events are before its own ones.
pub(crate) fn stop_of(events: &[u32], visit: Visit) -> Stop
    requires { (j k : ℕ) → j < k → k < length events.now
        → event_at events.now j < event_at events.now k }
    ensures same { result.visit ≡ visit }
    ensures is { IsStop events.now result }
{
    Stop {
        visit,
        inside: rank(events, visit.inside),
        until: rank(events, visit.until),
        gone: rank(events, visit.gone),
    }
}

/// The same of each of these visits.
fn stops_of(alloc: Global, events: &[u32], visits: &[Visit]) -> Result<Vec<Stop>, AllocError>
    requires { (j k : ℕ) → j < k → k < length events.now
        → event_at events.now j < event_at events.now k }
    ensures same { IfOk result (λ v. stop_spans v.items ≡ spans_of visits.now) }
    ensures each { IfOk result (λ v. (s : AStop) → In s v.items → IsStop events.now s) }
{
    let mut stops = Vec::with_capacity(alloc, visits.len())?;
    'visits: for visit in visits {
        stops.push(stop_of(events, *visit))?;
    }
    Ok(stops)
}

/// What comes at an event.
fn moment_at(alloc: Global, visits: &Visits, events: &[u32], x: u32) -> Result<Moment, AllocError>
    requires visits { AreVisits visits.now }
    requires small { x < 4000000000 }
    requires rise { (j k : ℕ) → j < k → k < length events.now
        → event_at events.now j < event_at events.now k }
    ensures { IfOk result (IsMoment (fixed_in visits.now) (free_in visits.now) events.now x) }
{
    let fixed = coming(&visits.fixed, x);
    if !fixed.is_empty() {
        let stops = stops_of(alloc, events, fixed)?;
        return Ok(Moment {
            is_fixed: true,
            stops,
        });
    }
    let stops = stops_of(alloc, events, coming(&visits.free, x))?;
    Ok(Moment {
        is_fixed: false,
        stops,
    })
}

/// What comes at each of these events.
fn moments_at(alloc: Global, visits: &Visits, events: &[u32]) -> Result<Vec<Moment>, AllocError>
    requires visits { AreVisits visits.now }
    requires small { (k : ℕ) → k < length events.now → event_at events.now k < 4000000000 }
    requires rise { (j k : ℕ) → j < k → k < length events.now
        → event_at events.now j < event_at events.now k }
    ensures count { IfOk result (λ v. length v.items ≡ length events.now) }
    ensures each { IfOk result (λ v. (k : ℕ) (d : AMoment) → k < length v.items → IsMoment (fixed_in
        visits.now) (free_in visits.now) events.now (event_at events.now k)
        (slice_index_or v.items k d)) }
{
    let mut moments = Vec::with_capacity(alloc, events.len())?;
    'events: for k in 0..events.len() {
        moments.push(moment_at(alloc, visits, events, events[k])?)?;
    }
    Ok(moments)
}

impl Moments {
    /// Lists the events before an end at which visits come.
    pub(crate) fn new(alloc: Global, visits: Visits, end: u32) -> Result<Moments, AllocError>
        requires visits { AreVisits visits }
        requires small { end < 4000000000 }
        ensures is { IfOk result AreMoments }
        ensures fixed_same { IfOk result (λ m. fixed_of m ≡ fixed_in visits) }
        ensures free_same { IfOk result (λ m. free_of m ≡ free_in visits) }
        ensures end_same { IfOk result (λ m. m.end ≡ end) }
    {
        let events = events_before(alloc, &visits, end)?;
        let list = moments_at(alloc, &visits, &events)?;
        Ok(Moments {
            visits,
            end,
            events,
            list,
        })
    }
}
