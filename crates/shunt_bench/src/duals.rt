// How long it takes to see whether cases hold at a path, and what they bound there.
ghost use Rattle.std.specs.Prelude.{◌≡◌, ◌<◌, ◌≤◌, ℕ, List, All, IfOk, IfSome, length};
ghost use Rattle.shunt_instance.specs.defs.Instance.{Night};
ghost use Rattle.shunt_matching.specs.defs.Nights.{Matches};
ghost use Rattle.shunt_choices.specs.defs.Paths.{IsTrailOf};
ghost use Rattle.shunt_prices.specs.defs.Limits.{IsPrice, ArePrices, AreDuals, AreCases};

use crate::nights::{read_night, times};
use shunt_base::{ArrId, Case, Cases, Duals, Price, PriceKind, TrackId};
use shunt_choices::Path;
use shunt_dual::{assign, cases_bound, cases_hold, shares};
use shunt_instance::Instance;
use shunt_lists::Items;
use shunt_matching::shortage;
use std::alloc::{AllocError, Global};
use std::io;
use std::rt::Files;
use std::time::CpuClock;

/// How many prices a case has: as many as it may.
const PRICES: usize = 64;

// By turns a price of length and one of parts, going through the tracks and the trains.
fn price(instance: &Instance, k: usize) -> Price
    requires tracks { 0 < length instance.now.station.tracks }
    requires trains { 0 < length instance.now.arrive }
    ensures { IsPrice instance.now result }
{
    let kind = if k % 2 == 0 {
        PriceKind::Length
    } else {
        PriceKind::Parts((1 + k % 8) as u8)
    };
    Price {
        kind,
        track: TrackId((k % instance.station().tracks.len()) as u8),
        train: ArrId((k % instance.arrivals()) as u8),
        value: 3,
    }
}

// As many prices as a case may have.
fn prices(alloc: Global, instance: &Instance) -> Result<Vec<Price>, AllocError>
    requires tracks { 0 < length instance.now.station.tracks }
    requires trains { 0 < length instance.now.arrive }
    ensures { IfOk result (λ v. ArePrices instance.now v.items) }
{
    let mut prices = Vec::with_capacity(alloc, PRICES)?;
    for k in 0..PRICES {
        prices.push(price(instance, k))?;
    }
    Ok(prices)
}

// The same values with these prices.
fn with_prices(duals: Duals, prices: Vec<Price>) -> Duals
    ensures { (night : Night) → AreDuals night duals → ArePrices night prices.items
        → AreDuals night result }
{
    let Duals {
        alpha,
        beta,
        prices: _,
    } = duals;
    Duals {
        alpha,
        beta,
        prices: Items::from_vec(prices),
    }
}

// The duals of the least assignment, with prices.
fn priced(alloc: Global, instance: &Instance) -> Result<Duals, AllocError>
    requires matching { (place : List ℕ) × Matches instance.now place }
    requires tracks { 0 < length instance.now.station.tracks }
    requires trains { 0 < length instance.now.arrive }
    ensures { IfOk result (AreDuals instance.now) }
{
    let shares = shares(alloc, instance)?;
    let assigned = assign(alloc, instance, &shares)?;
    let prices = prices(alloc, instance)?;
    Ok(with_prices(assigned.duals, prices))
}

// A case for the plans with few unparked blocks, in which such a block weighs more, and one for the others.
fn two_cases(few: Duals, many: Duals) -> Cases
    ensures { (night : Night) → AreDuals night few → AreDuals night many → AreCases night result }
{
    let first = Case {
        to: 9,
        multiplier: 5000,
        duals: few,
    };
    let second = Case {
        to: 160,
        multiplier: 0,
        duals: many,
    };
    Cases::two(first, second)
}

// Two cases with the duals of the least assignment and as many prices as they may have.
fn cases(alloc: Global, instance: &Instance) -> Result<Cases, AllocError>
    requires matching { (place : List ℕ) × Matches instance.now place }
    requires tracks { 0 < length instance.now.station.tracks }
    requires trains { 0 < length instance.now.arrive }
    ensures { IfOk result (AreCases instance.now) }
{
    let few = priced(alloc, instance)?;
    let many = priced(alloc, instance)?;
    Ok(two_cases(few, many))
}

// Whether the cases hold at a path, and the time in nanoseconds of telling so, the mean of that many.
fn time_holding(
    rt: &impl CpuClock,
    instance: &Instance,
    path: &Path,
    cases: &Cases,
    runs: u64,
) -> io::Result<(bool, u128)>
    requires path { IsTrailOf instance.now path.now }
    requires cases { AreCases instance.now cases.now }
    requires runs { 0 < runs }
{
    let start = rt.process_cpu_time()?;
    let mut hold = true;
    for _ in 0..runs {
        hold = cases_hold(instance, path, cases);
    }
    let end = rt.process_cpu_time()?;
    let nanos = end.as_nanos().saturating_sub(start.as_nanos());
    Ok((hold, nanos / u128::from(runs)))
}

// The bound of a path by the cases, found a thousand times.
fn thousand_bounds(instance: &Instance, path: &Path, cases: &Cases) -> i64
    requires path { IsTrailOf instance.now path.now }
    requires cases { AreCases instance.now cases.now }
{
    let mut bound = 0;
    for _ in 0..1000 {
        bound = cases_bound(instance, path, cases);
    }
    bound
}

// The bound of a path by the cases, and the time of a thousand in nanoseconds, the mean of that many.
fn time_bounds(
    rt: &impl CpuClock,
    instance: &Instance,
    path: &Path,
    cases: &Cases,
    runs: u64,
) -> io::Result<(i64, u128)>
    requires path { IsTrailOf instance.now path.now }
    requires cases { AreCases instance.now cases.now }
    requires runs { 0 < runs }
{
    let start = rt.process_cpu_time()?;
    let mut bound = 0;
    for _ in 0..runs {
        bound = thousand_bounds(instance, path, cases);
    }
    let end = rt.process_cpu_time()?;
    let nanos = end.as_nanos().saturating_sub(start.as_nanos());
    Ok((bound, nanos / u128::from(runs)))
}

/// What the measured calls answered, and their times in nanoseconds.
#[derive(Clone, Copy, Debug, Drop)]
struct Measured {
    hold: bool,
    holding: u128,
    bound: i64,
    bounding: u128,
}

// The cases of a night. None where memory runs out.
fn cases_of(alloc: Global, instance: &Instance) -> Option<Cases>
    requires matching { (place : List ℕ) × Matches instance.now place }
    requires tracks { 0 < length instance.now.station.tracks }
    requires trains { 0 < length instance.now.arrive }
    ensures { IfSome result (AreCases instance.now) }
{
    match cases(alloc, instance) {
        Ok(cases) => Some(cases),
        Err(_) => None,
    }
}

// The path without blocks. None where memory runs out.
fn start(alloc: Global, instance: &Instance) -> Option<Path>
    ensures { IfSome result (IsTrailOf instance.now) }
{
    match Path::start(alloc, instance) {
        Ok(path) => Some(path),
        Err(_) => None,
    }
}

// Both at a path.
fn time_at(
    rt: &impl CpuClock,
    instance: &Instance,
    path: &Path,
    cases: &Cases,
    runs: u64,
) -> io::Result<Measured>
    requires path { IsTrailOf instance.now path.now }
    requires cases { AreCases instance.now cases.now }
    requires runs { 0 < runs }
{
    let (hold, holding) = time_holding(rt, instance, path, cases, runs)?;
    let (bound, bounding) = time_bounds(rt, instance, path, cases, runs)?;
    Ok(Measured {
        hold,
        holding,
        bound,
        bounding,
    })
}

// Both at the path without blocks. None where memory runs out.
fn time_from_start(
    rt: &(impl AllocGlobal + CpuClock),
    instance: &Instance,
    cases: &Cases,
    runs: u64,
) -> io::Result<Option<Measured>>
    requires cases { AreCases instance.now cases.now }
    requires runs { 0 < runs }
{
    match start(rt.alloc(), instance) {
        Some(path) => Ok(Some(time_at(rt, instance, &path, cases, runs)?)),
        None => Ok(None),
    }
}

// The same by the cases of the night.
fn time_both(
    rt: &(impl AllocGlobal + CpuClock),
    instance: &Instance,
    runs: u64,
) -> io::Result<Option<Measured>>
    requires matching { (place : List ℕ) × Matches instance.now place }
    requires tracks { 0 < length instance.now.station.tracks }
    requires trains { 0 < length instance.now.arrive }
    requires runs { 0 < runs }
{
    match cases_of(rt.alloc(), instance) {
        Some(cases) => time_from_start(rt, instance, &cases, runs),
        None => Ok(None),
    }
}

// The same of a night with tracks and trains, where it has a matching.
fn time_matched(
    rt: &(impl AllocGlobal + CpuClock),
    instance: &Instance,
    runs: u64,
) -> io::Result<Option<Measured>>
    requires { 0 < runs }
{
    if instance.station().tracks.len() == 0 || instance.arrivals() == 0 {
        return Ok(None);
    }
    match shortage(instance) {
        None => time_both(rt, instance, runs),
        Some(_) => Ok(None),
    }
}

/// Prints whether two cases of 64 prices hold at the path without blocks of a night, what they bound there, and the times of
/// telling so once and of a thousand bounds in nanoseconds, each the mean of that many.
pub(crate) fn measure_duals(
    rt: &(impl Files + AllocGlobal + CpuClock + Print),
    station: &str,
    timetable: &str,
    runs: &str,
) -> io::Result<()> {
    let Some(runs) = times(runs) else {
        return rt.println("the number of runs was refused");
    };
    let instance = match read_night(rt, station, timetable) {
        Ok(instance) => instance,
        Err(refused) => return rt.println(refused.line()),
    };
    let Some(measured) = time_matched(rt, &instance, runs)? else {
        return rt.println("there is no track, no train, no matching, or no memory");
    };
    let hold = u8::from(measured.hold);
    let bound = measured.bound;
    let (holding, bounding) = (measured.holding, measured.bounding);
    println!(rt;
        "duals hold {hold} bound {bound} holding nanoseconds {holding} thousand bounds nanoseconds {bounding}"
    )
}
