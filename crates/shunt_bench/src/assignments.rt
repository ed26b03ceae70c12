// How long the shares of a night take, and the assignment of least sum.
ghost use Rattle.std.specs.Prelude.{◌<◌, ℕ, List, IfSome};
ghost use Rattle.shunt_matching.specs.defs.Nights.{Matches};
ghost use Rattle.shunt_dual.specs.defs.Shares.{AreShares};

use crate::nights::{read_night, times};
use shunt_dual::types::Shares;
use shunt_dual::{assign, shares};
use shunt_instance::Instance;
use shunt_matching::shortage;
use std::alloc::Global;
use std::io;
use std::rt::Files;
use std::time::CpuClock;

// The shares of a night. None where memory runs out.
fn shares_of(alloc: Global, instance: &Instance) -> Option<Shares>
    ensures { IfSome result (AreShares instance.now) }
{
    match shares(alloc, instance) {
        Ok(shares) => Some(shares),
        Err(_) => None,
    }
}

// Whether there was memory for the table of shares.
fn makes_shares(alloc: Global, instance: &Instance) -> bool {
    shares(alloc, instance).is_ok()
}

// What the shares of the matching add up to. None where memory runs out.
fn total_of(alloc: Global, instance: &Instance, shares: &Shares) -> Option<i64>
    requires matching { (place : List ℕ) × Matches instance.now place }
    requires shares { AreShares instance.now shares.now }
{
    match assign(alloc, instance, shares) {
        Ok(assigned) => Some(assigned.total),
        Err(_) => None,
    }
}

// Makes the table of shares that many times: the time of one in nanoseconds.
fn time_shares(
    rt: &(impl AllocGlobal + CpuClock),
    instance: &Instance,
    runs: u64,
) -> io::Result<u128>
    requires { 0 < runs }
{
    let start = rt.process_cpu_time()?;
    for _ in 0..runs {
        if !makes_shares(rt.alloc(), instance) {
            break;
        }
    }
    let end = rt.process_cpu_time()?;
    let nanos = end.as_nanos().saturating_sub(start.as_nanos());
    Ok(nanos / u128::from(runs))
}

// Assigns that many times: the total, and the time of one in nanoseconds.
fn time_assignments(
    rt: &(impl AllocGlobal + CpuClock),
    instance: &Instance,
    shares: &Shares,
    runs: u64,
) -> io::Result<(Option<i64>, u128)>
    requires matching { (place : List ℕ) × Matches instance.now place }
    requires shares { AreShares instance.now shares.now }
    requires runs { 0 < runs }
{
    let start = rt.process_cpu_time()?;
    let mut total = None;
    for _ in 0..runs {
        total = total_of(rt.alloc(), instance, shares);
    }
    let end = rt.process_cpu_time()?;
    let nanos = end.as_nanos().saturating_sub(start.as_nanos());
    Ok((total, nanos / u128::from(runs)))
}

// What the least assignment adds up to, and the times of the table of shares and of the assignment in nanoseconds. None where
// memory runs out.
fn time_both(
    rt: &(impl AllocGlobal + CpuClock),
    instance: &Instance,
    runs: u64,
) -> io::Result<Option<(i64, u128, u128)>>
    requires matching { (place : List ℕ) × Matches instance.now place }
    requires runs { 0 < runs }
{
    let table = time_shares(rt, instance, runs)?;
    let Some(shares) = shares_of(rt.alloc(), instance) else {
        return Ok(None);
    };
    let (total, nanos) = time_assignments(rt, instance, &shares, runs)?;
    match total {
        Some(total) => Ok(Some((total, table, nanos))),
        None => Ok(None),
    }
}

// The same of a night, where it has a matching.
fn time_matched(
    rt: &(impl AllocGlobal + CpuClock),
    instance: &Instance,
    runs: u64,
) -> io::Result<Option<(i64, u128, u128)>>
    requires { 0 < runs }
{
    match shortage(instance) {
        None => time_both(rt, instance, runs),
        Some(_) => Ok(None),
    }
}

/// Prints what the least assignment of a night adds up to, in thousandths of a cost unit, and the times of the table of
/// shares and of the assignment, each the mean of that many, in nanoseconds.
pub(crate) fn measure_assign(
    rt: &(impl Files + AllocGlobal + CpuClock + Print),
    station: &str,
    timetable: &str,
    runs: &str,
) -> io::Result<()> {
    let Some(runs) = times(runs) else {
        return rt.println("the number of runs was refused");
    };
    let instance = match read_night(rt, station, timetable) {
        Ok(instance) => instance,
        Err(refused) => return rt.println(refused.line()),
    };
    let Some((total, table, nanos)) = time_matched(rt, &instance, runs)? else {
        return rt.println("there is no matching, or no memory");
    };
    println!(rt; "assign total {total} shares nanoseconds {table} nanoseconds {nanos}")
}
