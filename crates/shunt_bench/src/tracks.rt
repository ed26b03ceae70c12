// Stays on one track whose run goes through, and how long the two ways to judge them take.
ghost use Rattle.std.specs.Prelude.{◌≡◌, ◌<◌, ◌≤◌, length, IfOk};
ghost use Rattle.std.specs.List.{All};
ghost use Rattle.shunt_base.specs.defs.Keys.{AreStays, IsWellFormed};

use shunt_base::{EventKey, Side, Stay, TrackId};
use shunt_cross::{Clash, clashes};
use shunt_tracks::{Ran, run_lists};
use std::alloc::{AllocError, Global};
use std::io;
use std::time::CpuClock;

/// The length of the one track, in dm.
const LENGTH: u32 = 5000;

// Ten blocks enter by one side, minute after minute, and leave by it in the opposite order; ten minutes
// after the first of them the next ten begin to enter by the other side.
fn stay(number: u16) -> Stay
    requires few { number < 65000 }
    ensures formed { IsWellFormed result }
    ensures id { result.id ≡ number }
    ensures track { result.track.0 ≡ 0 }
{
    let place = number % 10;
    let side = if number / 10 % 2 == 0 {
        Side::A
    } else {
        Side::B
    };
    let id = u32::from(number);
    Stay {
        id,
        track: TrackId(0),
        side_in: side,
        side_out: side,
        enter: EventKey {
            minute: number,
            enters: true,
            train: 0,
            place: 0,
            id,
        },
        leave: EventKey {
            minute: number + 19 - 2 * place,
            enters: false,
            train: 0,
            place: 0,
            id,
        },
        length: 200 + 10 * u32::from(place),
    }
}

fn stays(alloc: Global, count: u16) -> Result<Vec<Stay>, AllocError>
    requires { count < 65000 }
    ensures formed { IfOk result (λ v. AreStays v.items) }
    ensures tracks { IfOk result (λ v. All (λ s. s.track.0 < 1) v.items) }
    ensures count { IfOk result (λ v. length v.items ≡ count) }
{
    let mut all = Vec::new(alloc);
    for number in 0..count {
        all.push(stay(number))?;
    }
    Ok(all)
}

// How many events of a run were done where it went through, else 0.
fn events_done(alloc: Global, stays: &[Stay]) -> usize
    requires formed { AreStays stays.now }
    requires tracks { All (λ s. s.track.0 < 1) stays.now }
{
    match run_lists(alloc, &[LENGTH], stays) {
        Ok(Ran::Through(steps)) => steps.len(),
        _ => 0,
    }
}

// Runs the lists that many times: the events of a run, and the time of one in microseconds.
fn time_run_lists(
    rt: &(impl AllocGlobal + CpuClock),
    stays: &[Stay],
    runs: u32,
) -> io::Result<(usize, u128)>
    requires formed { AreStays stays.now }
    requires tracks { All (λ s. s.track.0 < 1) stays.now }
    requires runs { 0 < runs }
{
    let start = rt.process_cpu_time()?;
    let mut events = 0;
    for _ in 0..runs {
        events = events_done(rt.alloc(), stays);
    }
    let end = rt.process_cpu_time()?;
    let micros = end.as_micros().saturating_sub(start.as_micros());
    Ok((events, micros / u128::from(runs)))
}

// Counts the clashes that many times: the clashes, and the time of one count in microseconds.
fn time_clashes(rt: &impl CpuClock, stays: &[Stay], runs: u32) -> io::Result<(Clash, u128)>
    requires formed { AreStays stays.now }
    requires tracks { All (λ s. s.track.0 < 1) stays.now }
    requires few { length stays.now ≤ 65536 }
    requires runs { 0 < runs }
{
    let start = rt.process_cpu_time()?;
    let mut clash = Clash { pairs: 0, over: 0 };
    for _ in 0..runs {
        clash = clashes(&[LENGTH], stays);
    }
    let end = rt.process_cpu_time()?;
    let micros = end.as_micros().saturating_sub(start.as_micros());
    Ok((clash, micros / u128::from(runs)))
}

// Both over the same stays.
fn measure_stays(
    rt: &(impl AllocGlobal + CpuClock + Print),
    stays: &[Stay],
    runs: u32,
) -> io::Result<()>
    requires formed { AreStays stays.now }
    requires tracks { All (λ s. s.track.0 < 1) stays.now }
    requires few { length stays.now ≤ 65536 }
    requires runs { 0 < runs }
{
    let count = stays.len();
    let (events, lists) = time_run_lists(rt, stays, runs)?;
    let (clash, counts) = time_clashes(rt, stays, runs)?;
    let pairs = clash.pairs;
    println!(rt;
        "tracks stays {count} events {events} pairs {pairs} run_lists microseconds {lists} clashes microseconds {counts}"
    )
}

/// Prints how long the run of the lists and the count of the clashes take over that many stays on one track, each the
/// time of one of that many runs, in microseconds.
pub(crate) fn measure_tracks(
    rt: &(impl AllocGlobal + CpuClock + Print),
    count: u16,
    runs: u32,
) -> io::Result<()>
    requires count { count < 65000 }
    requires runs { 0 < runs }
{
    match stays(rt.alloc(), count) {
        Ok(stays) => measure_stays(rt, &stays, runs),
        Err(_) => rt.println("out of memory"),
    }
}
