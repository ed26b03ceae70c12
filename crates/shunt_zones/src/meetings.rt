// Which moves meet.
ghost use Rattle.std.specs.Prelude.{◌≡◌, ◌++◌, Some, IfOk, OnOk, if◌then◌else◌};
ghost use Rattle.std.specs.List.{filter_map};
ghost use Rattle.shunt_plan.specs.defs.Plans.{IsPlanInRange};
ghost use Rattle.shunt_blocks.specs.defs.Least.{lesser};
ghost use Rattle.shunt_zones.specs.defs.Passed.{has_zone};
ghost use Rattle.shunt_zones.specs.defs.Meetings.{is_one_train, may_meet, shared_zone, meet_of};
ghost use Rattle.shunt_zones.specs.defs.Meetings.{meets_among, meets_in};

use crate::passages::{Passing, has_zone, passings_of};
use crate::records::{Meet, Zones};
use shunt_base::EventKey;
use shunt_instance::Instance;
use shunt_plan::Plan;
use std::alloc::{AllocError, Global};

// Whether both are entries of one arriving train, or both leaves of one departing train.
fn is_one_train(first: EventKey, second: EventKey) -> bool
    ensures { result ≡ is_one_train first second }
{
    let alike = if first.enters {
        second.enters
    } else {
        !second.enters
    };
    alike && first.train == second.train
}

fn may_meet(first: EventKey, second: EventKey) -> bool
    ensures { result ≡ may_meet first second }
{
    first.minute == second.minute && !is_one_train(first, second)
}

// The least of the zones so far and this one, where it is among the others.
fn with_zone(least: Option<u8>, other: &[u8], zone: u8) -> Option<u8>
    ensures { result ≡ (if has_zone other.now zone then lesser least (Some zone) else least) }
{
    if !has_zone(other, usize::from(zone)) {
        return least;
    }
    match least {
        Some(known) => Some(known.min(zone)),
        None => Some(zone),
    }
}

// The least zone that is among both.
fn shared_zone(own: &[u8], other: &[u8]) -> Option<u8>
    ensures { result ≡ shared_zone own.now other.now }
{
    let mut least = None;
    for zone in own {
        least = with_zone(least, other, *zone);
    }
    least
}

fn meet_of(first: &Passing, second: &Passing) -> Option<Meet>
    ensures { result ≡ meet_of first.now second.now }
{
    if !may_meet(first.event.key, second.event.key) {
        return None;
    }
    match shared_zone(first.zones.as_slice(), second.zones.as_slice()) {
        Some(zone) => Some(Meet {
            first: first.event,
            second: second.event,
            zone,
        }),
        None => None,
    }
}

// Adds the meets of a move with each of the later ones.
fn add_meets_of(meets: &mut Vec<Meet>, first: &Passing, later: &[Passing]) -> Result<(), AllocError>
    ensures { OnOk result
        (meets.new.items ≡ meets.old.items ++ filter_map (meet_of first.now) later.now) }
{
    for second in later {
        if let Some(meet) = meet_of(first, second) {
            meets.push(meet)?;
        }
    }
    Ok(())
}

fn meets_among(alloc: Global, moves: &[Passing]) -> Result<Vec<Meet>, AllocError>
    ensures { IfOk result (λ v. v.items ≡ meets_among moves.now) }
{
    let mut meets = Vec::new(alloc);
    for i in 0..moves.len() {
        add_meets_of(&mut meets, &moves[i], &moves[i + 1..])?;
    }
    Ok(meets)
}

/// Each two moves of a plan in range that meet, the earlier first, by the first move and then the second.
///
/// Two moves meet where they have one minute and share a zone, and aren't both entries of one arriving train or both leaves
/// of one departing train. Each meet has its least shared zone. The error is want of memory.
#[tactic(auto, unfolding(crate::specs::defs::Meetings::meets_in))]
pub fn meets(
    alloc: Global,
    instance: &Instance,
    zones: &Zones,
    plan: &Plan,
) -> Result<Vec<Meet>, AllocError>
    requires { IsPlanInRange instance.now plan.now }
    ensures { IfOk result (λ v. v.items ≡ meets_in instance.now zones.now plan.now) }
{
    let moves = passings_of(alloc, instance, zones, plan)?;
    meets_among(alloc, &moves)
}
