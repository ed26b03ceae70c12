// Runs of a train that have come, in the order of their places.
ghost use Rattle.std.specs.Prelude.{◌≡◌, ◌≤◌, ◌<◌, length, position, nat_lt, IfOk, IfSome, OnOk};
ghost use Rattle.std.specs.Prelude.{OnErr};
ghost use Rattle.shunt_timetable.specs.defs.TimetableFormat.{place_among, with_run};

use shunt_instance::PlacedRun;
use std::alloc::{AllocError, Global};

// The number of the first of these runs that begins later than one.
fn first_later(run: PlacedRun, runs: &[PlacedRun]) -> Option<usize>
    ensures exact { result ≡ position (λ s. nat_lt run.first s.first) runs.now }
    ensures within { IfSome result (λ k. k < length runs.now) }
{
    runs.iter().position(|other| run.first < other.first)
}

// The same, or how many there are.
fn place_among(run: PlacedRun, runs: &[PlacedRun]) -> usize
    ensures exact { result ≡ place_among run runs.now }
    ensures within { result ≤ length runs.now }
{
    first_later(run, runs).unwrap_or(runs.len())
}

/// Adds a run to others, before the first one that begins later. The error is want of memory, and nothing has changed.
pub fn add_run(runs: &mut Vec<PlacedRun>, run: PlacedRun) -> Result<(), AllocError>
    ensures added { OnOk result (runs.new.items ≡ with_run run runs.old.items) }
    ensures same { OnErr result (runs.new.items ≡ runs.old.items) }
{
    let at = place_among(run, runs);
    match runs.insert(at, run) {
        Ok(()) => Ok(()),
        Err(_) => Err(AllocError),
    }
}

/// Runs with one more, before the first one that begins later. The error is want of memory.
pub(crate) fn with_run(
    alloc: Global,
    runs: &[PlacedRun],
    run: PlacedRun,
) -> Result<Vec<PlacedRun>, AllocError>
    ensures { IfOk result (λ v. v.items ≡ with_run run runs.now) }
{
    let mut more = Vec::from_slice(alloc, runs)?;
    add_run(&mut more, run)?;
    Ok(more)
}
