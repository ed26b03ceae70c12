// Stays that come to tracks one after the other and go again, and how long that takes beside a fresh count.
ghost use Rattle.std.specs.Prelude.{◌≡◌, ◌+◌, ◌<◌, ◌≤◌, length, IfOk, IfSome};
ghost use Rattle.std.specs.List.{All};
ghost use Rattle.shunt_base.specs.defs.Keys.{AreStays, IsWellFormed};
ghost use Rattle.shunt_stays.specs.defs.Run.{AreOnTracks};

use shunt_base::{EventKey, Side, Stay, TrackId};
use shunt_cross::{Clash, clashes};
use shunt_timeline::Timelines;
use std::alloc::{AllocError, Global};
use std::io;
use std::time::CpuClock;

/// The length of each track, in dm.
const LENGTH: u32 = 2000;

/// The stays don't come in the order of their minutes, but with this step from one to the next.
const STEP: u32 = 7919;

// A stay of that many, the next in the order in which they come. On each track ten blocks enter by one side, minute after minute,
// and leave by A in the opposite order; ten minutes after the first of them the next ten begin to enter by the other side. So
// there are crossings, and loads that are over, for the two counts to agree on.
fn stay(number: u16, count: u16, tracks: u8) -> Stay
    requires few { number < count }
    requires most { count ≤ 10000 }
    requires tracks { 0 < tracks }
    ensures formed { IsWellFormed result }
    ensures id { result.id ≡ number }
    ensures track { result.track.0 < tracks }
{
    let turn = (u32::from(number) * STEP % u32::from(count)) as u16;
    let minute = turn / u16::from(tracks);
    let place = minute % 10;
    let side = if minute / 10 % 2 == 0 {
        Side::A
    } else {
        Side::B
    };
    let id = u32::from(number);
    Stay {
        id,
        track: TrackId((turn % u16::from(tracks)) as u8),
        side_in: side,
        side_out: Side::A,
        enter: EventKey {
            minute,
            enters: true,
            train: 0,
            place: 0,
            id,
        },
        leave: EventKey {
            minute: minute + 19 - 2 * place,
            enters: false,
            train: 0,
            place: 0,
            id,
        },
        length: 200 + 10 * u32::from(place),
    }
}

fn stays(alloc: Global, count: u16, tracks: u8) -> Result<Vec<Stay>, AllocError>
    requires count { count ≤ 10000 }
    requires tracks { 0 < tracks }
    ensures formed { IfOk result (λ v. AreStays v.items) }
    ensures tracks { IfOk result (λ v. All (λ s. s.track.0 < tracks) v.items) }
    ensures count { IfOk result (λ v. length v.items ≡ count) }
{
    let mut all = Vec::new(alloc);
    for number in 0..count {
        all.push(stay(number, count, tracks))?;
    }
    Ok(all)
}

// The lengths of that many tracks.
fn lengths_of(alloc: Global, tracks: u8) -> Result<Vec<u32>, AllocError>
    ensures { IfOk result (λ v. length v.items ≡ tracks) }
{
    vec![in alloc; LENGTH; usize::from(tracks)]
}

// A stay comes whose id is above those of all others.
fn come(timelines: &mut Timelines, stay: Stay)
    requires formed { IsWellFormed stay }
    requires track { stay.track.0 < length timelines.old.lengths }
    requires above { All (λ s. s.id < stay.id) timelines.old.stays }
    requires few { length timelines.old.stays < 65536 }
    requires room { 0 < timelines.old.spare }
    ensures above { All (λ s. s.id < stay.id + 1) timelines.new.stays }
    ensures count { length timelines.new.stays ≡ length timelines.old.stays + 1 }
    ensures lengths { timelines.new.lengths ≡ timelines.old.lengths }
    ensures spare { timelines.new.spare + 1 ≡ timelines.old.spare }
{
    timelines.insert(stay);
}

// All stays come.
fn insert_all(timelines: &mut Timelines, count: u16, tracks: u8)
    requires empty { length timelines.old.stays ≡ 0 }
    requires lengths { length timelines.old.lengths ≡ tracks }
    requires room { count ≤ timelines.old.spare }
    requires count { count ≤ 10000 }
    requires tracks { 0 < tracks }
{
    for number in 0..count {
        come(timelines, stay(number, count, tracks));
    }
}

// All stays go, in the order in which they came.
fn remove_all(timelines: &mut Timelines, count: u16) {
    for number in 0..count {
        if timelines.remove(u32::from(number)).is_none() {
            return;
        }
    }
}

// What one run of that many took, in nanoseconds, and what it found.
#[derive(Clone, Copy)]
struct Times {
    inserts: u128,
    removals: u128,
    clash: Clash,
    left: Clash,
}

// What all runs took, in nanoseconds.
#[derive(Clone, Copy)]
struct Sums {
    inserts: u128,
    removals: u128,
}

// Empty timelines with room for that many stays. None where memory runs out.
fn empty(alloc: Global, lengths: &[u32], count: u16) -> Option<Timelines>
    ensures empty { IfSome result (λ t. length t.stays ≡ 0) }
    ensures lengths { IfSome result (λ t. t.lengths ≡ lengths.now) }
    ensures room { IfSome result (λ t. count ≤ t.spare) }
{
    let Ok(mut timelines) = Timelines::new(alloc, lengths) else {
        return None;
    };
    match timelines.reserve(usize::from(count)) {
        Ok(()) => Some(timelines),
        Err(_) => None,
    }
}

// All stays come and go.
fn time_stays(
    rt: &impl CpuClock,
    timelines: &mut Timelines,
    count: u16,
    tracks: u8,
) -> io::Result<Times>
    requires empty { length timelines.old.stays ≡ 0 }
    requires lengths { length timelines.old.lengths ≡ tracks }
    requires room { count ≤ timelines.old.spare }
    requires count { count ≤ 10000 }
    requires tracks { 0 < tracks }
{
    let start = rt.process_cpu_time()?;
    insert_all(timelines, count, tracks);
    let middle = rt.process_cpu_time()?;
    let clash = timelines.clash();
    remove_all(timelines, count);
    let end = rt.process_cpu_time()?;
    Ok(Times {
        inserts: middle.as_nanos().saturating_sub(start.as_nanos()),
        removals: end.as_nanos().saturating_sub(middle.as_nanos()),
        clash,
        left: timelines.clash(),
    })
}

// The same on new timelines. None where memory runs out.
fn time_run(
    rt: &(impl AllocGlobal + CpuClock),
    lengths: &[u32],
    count: u16,
    tracks: u8,
) -> io::Result<Option<Times>>
    requires lengths { length lengths.now ≡ tracks }
    requires count { count ≤ 10000 }
    requires tracks { 0 < tracks }
{
    match empty(rt.alloc(), lengths, count) {
        Some(mut timelines) => Ok(Some(time_stays(rt, &mut timelines, count, tracks)?)),
        None => Ok(None),
    }
}

// That many runs, each of which has to find what a fresh count found. None where one differs, or memory runs out.
fn time_runs(
    rt: &(impl AllocGlobal + CpuClock),
    lengths: &[u32],
    count: u16,
    tracks: u8,
    runs: u32,
    fresh: Clash,
) -> io::Result<Option<Sums>>
    requires lengths { length lengths.now ≡ tracks }
    requires count { count ≤ 10000 }
    requires tracks { 0 < tracks }
{
    let mut sums = Sums {
        inserts: 0,
        removals: 0,
    };
    for _ in 0..runs {
        let Some(times) = time_run(rt, lengths, count, tracks)? else {
            return Ok(None);
        };
        if times.clash != fresh || times.left != (Clash { pairs: 0, over: 0 }) {
            return Ok(None);
        }
        sums.inserts = sums.inserts.saturating_add(times.inserts);
        sums.removals = sums.removals.saturating_add(times.removals);
    }
    Ok(Some(sums))
}

// The time of a fresh count in nanoseconds, and what it found.
fn time_clashes(rt: &impl CpuClock, lengths: &[u32], stays: &[Stay]) -> io::Result<(Clash, u128)>
    requires formed { AreStays stays.now }
    requires tracks { AreOnTracks lengths.now stays.now }
    requires few { length stays.now ≤ 65536 }
{
    let start = rt.process_cpu_time()?;
    let clash = clashes(lengths, stays);
    let end = rt.process_cpu_time()?;
    Ok((clash, end.as_nanos().saturating_sub(start.as_nanos())))
}

// A fresh count of all stays. None where memory runs out.
fn count_fresh(
    rt: &(impl AllocGlobal + CpuClock),
    lengths: &[u32],
    count: u16,
    tracks: u8,
) -> io::Result<Option<(Clash, u128)>>
    requires lengths { length lengths.now ≡ tracks }
    requires count { count ≤ 10000 }
    requires tracks { 0 < tracks }
{
    match stays(rt.alloc(), count, tracks) {
        Ok(stays) => Ok(Some(time_clashes(rt, lengths, &stays)?)),
        Err(_) => Ok(None),
    }
}

// Prints the time of a fresh count and the means of the others, in nanoseconds.
fn tell(
    rt: &impl Print,
    tracks: u8,
    count: u16,
    sums: Sums,
    stays: u128,
    fresh: u128,
) -> io::Result<()>
    requires { 0 < stays }
{
    let insert = sums.inserts / stays;
    let removal = sums.removals / stays;
    println!(rt;
        "timelines tracks {tracks} stays {count} insert nanoseconds {insert} removal nanoseconds {removal} clashes nanoseconds {fresh}"
    )
}

// The same on tracks of these lengths.
fn measure_on(
    rt: &(impl AllocGlobal + CpuClock + Print),
    lengths: &[u32],
    count: u16,
    tracks: u8,
    runs: u32,
) -> io::Result<()>
    requires lengths { length lengths.now ≡ tracks }
    requires some { 0 < count }
    requires count { count ≤ 10000 }
    requires tracks { 0 < tracks }
    requires runs { 0 < runs }
{
    let Some((clash, fresh)) = count_fresh(rt, lengths, count, tracks)? else {
        return rt.println("out of memory");
    };
    let Some(sums) = time_runs(rt, lengths, count, tracks, runs, clash)? else {
        return rt.println("the counts differ, or there is no memory");
    };
    let stays = u128::from(count) * u128::from(runs);
    tell(rt, tracks, count, sums, stays, fresh)
}

/// Prints how long the coming of one stay takes, and its going, when that many come to that many tracks and go again, beside a fresh
/// count of all of them. The first two are means over that many runs, in nanoseconds.
pub(crate) fn measure_timelines(
    rt: &(impl AllocGlobal + CpuClock + Print),
    count: u16,
    tracks: u8,
    runs: u32,
) -> io::Result<()>
    requires some { 0 < count }
    requires count { count ≤ 10000 }
    requires tracks { 0 < tracks }
    requires runs { 0 < runs }
{
    match lengths_of(rt.alloc(), tracks) {
        Ok(lengths) => measure_on(rt, &lengths, count, tracks, runs),
        Err(_) => rt.println("out of memory"),
    }
}
