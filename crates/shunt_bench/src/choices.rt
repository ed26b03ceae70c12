// The choices for each unit of a night, and how long a walk over them takes.
ghost use Rattle.std.specs.Prelude.{◌≡◌, ◌<◌, length, IfSome};
ghost use Rattle.shunt_instance.specs.defs.Instance.{unit_total};
ghost use Rattle.shunt_choices.specs.defs.Free.{AreMasksOf};

use crate::nights::{read_night, times};
use shunt_blocks::{Shape, are_runs_within, cheapest};
use shunt_choices::{Covered, options, shapes_from};
use shunt_instance::Instance;
use std::alloc::Global;
use std::io;
use std::rt::Files;
use std::time::CpuClock;

/// How many options shapes have, and their least costs added up, each at most 2 ^ 64 - 1.
#[derive(Clone, Copy, Debug, Drop)]
struct Tally {
    count: u64,
    least: u64,
}

// Adds a shape's options and its least cost.
fn add_shape(tally: Tally, instance: &Instance, shape: Shape) -> Tally {
    let Tally { mut count, least } = tally;
    if !are_runs_within(instance, shape) {
        return tally;
    }
    for _ in options(instance, shape) {
        count = count.saturating_add(1);
    }
    Tally {
        count,
        least: least.saturating_add(cheapest(instance, shape)),
    }
}

// Adds the shapes that begin at a unit.
fn add_unit(tally: Tally, instance: &Instance, covered: &Covered, u: usize) -> Tally
    requires covered { AreMasksOf instance.now covered.now }
    requires unit { u < unit_total instance.now }
{
    let mut tally = tally;
    for shape in shapes_from(instance, u, covered) {
        tally = add_shape(tally, instance, shape);
    }
    tally
}

// Walks over the choices for each unit.
fn walk(instance: &Instance, covered: &Covered) -> Tally
    requires { AreMasksOf instance.now covered.now }
{
    let mut tally = Tally { count: 0, least: 0 };
    for u in 0..instance.units() {
        tally = add_unit(tally, instance, covered, u);
    }
    tally
}

// That many units or positions that aren't covered.
fn bare(alloc: Global, count: usize) -> Option<Vec<bool>>
    ensures { IfSome result (λ v. length v.items ≡ count) }
{
    match vec![in alloc; false; count] {
        Ok(mask) => Some(mask),
        Err(_) => None,
    }
}

// Nothing is covered.
fn nothing(alloc: Global, instance: &Instance) -> Option<Covered>
    ensures { IfSome result (AreMasksOf instance.now) }
{
    let units = bare(alloc, instance.units())?;
    let places = bare(alloc, instance.positions())?;
    Some(Covered::new(units, places))
}

// Walks that many times: what one walk adds up, and its time in microseconds.
fn time_walks(
    rt: &impl CpuClock,
    instance: &Instance,
    covered: &Covered,
    walks: u64,
) -> io::Result<(Tally, u128)>
    requires covered { AreMasksOf instance.now covered.now }
    requires walks { 0 < walks }
{
    let start = rt.process_cpu_time()?;
    let mut tally = Tally { count: 0, least: 0 };
    for _ in 0..walks {
        tally = walk(instance, covered);
    }
    let end = rt.process_cpu_time()?;
    let micros = end.as_micros().saturating_sub(start.as_micros());
    Ok((tally, micros / u128::from(walks)))
}

/// Prints how many options the shapes of all units have where nothing is covered, their least costs added up, and the
/// time of one walk over them in microseconds, the mean of that many.
pub(crate) fn measure_choices(
    rt: &(impl Files + AllocGlobal + CpuClock + Print),
    station: &str,
    timetable: &str,
    walks: &str,
) -> io::Result<()> {
    let Some(walks) = times(walks) else {
        return rt.println("the number of walks was refused");
    };
    let instance = match read_night(rt, station, timetable) {
        Ok(instance) => instance,
        Err(refused) => return rt.println(refused.line()),
    };
    let Some(covered) = nothing(rt.alloc(), &instance) else {
        return rt.println("out of memory");
    };
    let (Tally { count, least }, micros) = time_walks(rt, &instance, &covered, walks)?;
    println!(rt; "choices {count} least {least} microseconds {micros}")
}
