// How many moves pass each zone, and when most do.
ghost use Rattle.std.specs.Prelude.{◌≡◌, ◌≤◌, ◌<◌, ◌+◌, All, IfOk, IfSome, map, length};
ghost use Rattle.std.specs.List.{range_with_len};
ghost use Rattle.shunt_plan.specs.defs.Plans.{IsPlanInRange};
ghost use Rattle.shunt_zones.specs.defs.Passed.{passings_of};
ghost use Rattle.shunt_zones.specs.defs.Loads.{minutes_over, times, most_of, busiest_of, load_of};
ghost use Rattle.shunt_zones.specs.defs.Loads.{loads_in};

use crate::passages::{Passing, has_zone, passings_of};
use crate::records::{ZoneLoad, Zones};
use shunt_base::Minute;
use shunt_instance::Instance;
use shunt_plan::Plan;
use std::alloc::{AllocError, Global};

// The minutes of the moves that pass a zone.
fn minutes_over(alloc: Global, zone: usize, moves: &[Passing]) -> Result<Vec<u16>, AllocError>
    requires { All (λ p. p.event.key.minute < 2880) moves.now }
    ensures exact { IfOk result (λ v. v.items ≡ minutes_over zone moves.now) }
    ensures small { IfOk result (λ v. All (λ m. m < 2880) v.items) }
    ensures few { IfOk result (λ v. length v.items ≤ length moves.now) }
{
    let mut minutes = Vec::new(alloc);
    for passing in moves {
        if has_zone(passing.zones.as_slice(), zone) {
            minutes.push(passing.event.key.minute)?;
        }
    }
    Ok(minutes)
}

// How many of these minutes are this one.
fn times(minutes: &[u16], minute: u16) -> usize
    ensures exact { result ≡ times minutes.now minute }
    ensures few { result ≤ length minutes.now }
{
    let mut times = 0;
    for other in minutes {
        if *other == minute {
            times += 1;
        }
    }
    times
}

// How often one of these minutes comes at most.
fn most_of(minutes: &[u16]) -> usize
    ensures exact { result ≡ most_of minutes.now }
    ensures few { result ≤ length minutes.now }
{
    let mut most = 0;
    for minute in minutes {
        most = most.max(times(minutes, *minute));
    }
    most
}

// The first of these minutes that comes as often as any.
fn busiest_of(minutes: &[u16]) -> Option<Minute>
    requires { All (λ m. m < 2880) minutes.now }
    ensures { result ≡ busiest_of minutes.now }
{
    let most = most_of(minutes);
    for minute in minutes {
        if times(minutes, *minute) == most {
            return Minute::new(*minute);
        }
    }
    None
}

fn loads_by(alloc: Global, count: usize, moves: &[Passing]) -> Result<Vec<ZoneLoad>, AllocError>
    requires in_time { All (λ p. p.event.key.minute < 2880) moves.now }
    requires few { length moves.now ≤ 800 }
    ensures { IfOk result
        (λ v. v.items ≡ map (λ z. load_of (minutes_over z moves.now)) (range_with_len 0 count)) }
{
    let mut loads = Vec::new(alloc);
    for zone in 0..count {
        let minutes = minutes_over(alloc, zone, moves)?;
        let busiest = busiest_of(&minutes);
        let most = most_of(&minutes);
        loads.push(ZoneLoad {
            moves: minutes.len() as u32,
            busiest,
            most: most as u32,
        })?;
    }
    Ok(loads)
}

/// The load of each zone by the moves of a plan in range, in the order of the zones: how many moves pass it, the first minute
/// in which most of them do, and how many do then. The error is want of memory.
#[tactic(auto, unfolding(crate::specs::defs::Loads::loads_in))]
pub fn loads(
    alloc: Global,
    instance: &Instance,
    zones: &Zones,
    plan: &Plan,
) -> Result<Vec<ZoneLoad>, AllocError>
    requires { IsPlanInRange instance.now plan.now }
    ensures { IfOk result (λ v. v.items ≡ loads_in instance.now zones.now plan.now) }
{
    let moves = passings_of(alloc, instance, zones, plan)?;
    loads_by(alloc, zones.names.len(), &moves)
}
