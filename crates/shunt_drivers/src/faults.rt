// What is at fault with a roster.
ghost use Rattle.std.specs.Prelude.{◌≡◌, All, IfOk};
ghost use Rattle.std.specs.Option.{is_none};
ghost use Rattle.shunt_plan.specs.defs.Plans.{IsPlanInRange};
ghost use Rattle.shunt_zones.specs.defs.Moves.{moves_of, IsMoveOf};
ghost use Rattle.shunt_drivers.specs.defs.CrewFormat.{IsCrew};
ghost use Rattle.shunt_drivers.specs.defs.RosterFormat.{AreDuties};
ghost use Rattle.shunt_drivers.specs.defs.RosterFaults.{duty_for, absent_in, tasks_of, overlaps};
ghost use Rattle.shunt_drivers.specs.defs.RosterFaults.{overlap_with, overlap_in, fault_of};
ghost use Rattle.shunt_drivers.specs.defs.RosterFaults.{fault_in};

use crate::records::{Crew, Duty, RosterFault};
use crate::roster::is_of;
use crate::shares::MoveSpan;
use crate::spans::span_of;
use shunt_instance::Instance;
use shunt_plan::Plan;
use shunt_tracks::Event;
use shunt_zones::moves_of;
use std::alloc::{AllocError, Global};

/// A duty, and when its move runs.
#[derive(Clone, Copy, Debug, PartialEq, Eq, Drop)]
pub(crate) struct Task {
    pub(crate) span: MoveSpan,
    pub(crate) duty: Duty,
}

fn duty_for(duties: &[Duty], event: Event) -> Option<Duty>
    ensures { result ≡ duty_for duties.now event }
{
    for duty in duties {
        if is_of(duty, event) {
            return Some(*duty);
        }
    }
    None
}

fn absent_in(duties: &[Duty], moves: &[Event]) -> Option<RosterFault>
    ensures { result ≡ absent_in duties.now moves.now }
{
    for event in moves {
        if duty_for(duties, *event).is_none() {
            return Some(RosterFault::Absent {
                enters: event.key.enters,
                id: event.key.id,
            });
        }
    }
    None
}

// The duties of these moves, in their order, with when they run.
fn tasks_of(
    alloc: Global,
    instance: &Instance,
    crew: &Crew,
    duties: &[Duty],
    moves: &[Event],
) -> Result<Vec<Task>, AllocError>
    requires moves { All (IsMoveOf instance.now) moves.now }
    requires crew { IsCrew instance.now.station crew.now }
    ensures { IfOk result (λ v. v.items ≡ tasks_of instance.now crew.now duties.now moves.now) }
{
    let mut tasks = Vec::new(alloc);
    for event in moves {
        if let Some(duty) = duty_for(duties, *event) {
            let span = span_of(instance, crew, *event);
            tasks.push(Task { span, duty })?;
        }
    }
    Ok(tasks)
}

fn overlaps(first: &Task, second: &Task) -> bool
    ensures { result ≡ overlaps first.now second.now }
{
    first.duty.driver == second.duty.driver
        && first.span.start < second.span.end
        && second.span.start < first.span.end
}

// Overlap with the first of the later ones that overlaps the first.
fn overlap_with(first: &Task, later: &[Task]) -> Option<RosterFault>
    ensures { result ≡ overlap_with first.now later.now }
{
    for second in later {
        if overlaps(first, second) {
            return Some(RosterFault::Overlap {
                first: first.duty,
                second: second.duty,
            });
        }
    }
    None
}

fn overlap_in(tasks: &[Task]) -> Option<RosterFault>
    ensures { result ≡ overlap_in tasks.now }
{
    for i in 0..tasks.len() {
        if let Some(fault) = overlap_with(&tasks[i], &tasks[i + 1..]) {
            return Some(fault);
        }
    }
    None
}

fn fault_of(
    alloc: Global,
    instance: &Instance,
    crew: &Crew,
    moves: &[Event],
    duties: &[Duty],
) -> Result<Option<RosterFault>, AllocError>
    requires moves { All (IsMoveOf instance.now) moves.now }
    requires crew { IsCrew instance.now.station crew.now }
    ensures { IfOk result (λ f. f ≡ fault_of instance.now crew.now moves.now duties.now) }
{
    if let Some(absent) = absent_in(duties, moves) {
        return Ok(Some(absent));
    }
    let tasks = tasks_of(alloc, instance, crew, duties, moves)?;
    Ok(overlap_in(&tasks))
}

/// What is at fault with duties of a plan's moves: the first move without a duty, else the first two duties of one driver whose
/// moves run at one minute, by key order of the first move and then the second; None exactly when the duties are a sharing of
/// the moves.
///
/// The plan is in range, the crew is one that a file can state over the instance's station, and no two duties are of one move.
/// The error is want of memory.
#[tactic(auto, unfolding(crate::specs::defs::RosterFaults::fault_in))]
pub fn roster_fault(
    alloc: Global,
    instance: &Instance,
    plan: &Plan,
    crew: &Crew,
    duties: &Vec<Duty>,
) -> Result<Option<RosterFault>, AllocError>
    requires plan { IsPlanInRange instance.now plan.now }
    requires crew { IsCrew instance.now.station crew.now }
    requires duties { AreDuties (moves_of instance.now plan.now.blocks) duties.now.items }
    ensures { IfOk result (λ f. f ≡ fault_in instance.now crew.now plan.now duties.now.items) }
{
    let moves = moves_of(alloc, instance, plan)?;
    fault_of(alloc, instance, crew, &moves, duties)
}
