// The answer of `roster`.
ghost use Rattle.std.specs.Prelude.{◌≡◌, IfOk, option_map};
ghost use Rattle.shunt_plan.specs.defs.Plans.{IsPlanInRange};
ghost use Rattle.shunt_drivers.specs.defs.CrewFormat.{IsCrew};
ghost use Rattle.shunt_drivers.specs.defs.RosterFormat.{IsRoster};
ghost use Rattle.shunt_zones.specs.defs.Moves.{moves_of};
ghost use Rattle.shunt_throat.specs.defs.Rostered.{IsRostered, roster_outcome};
ghost use Rattle.shunt_inputs.specs.defs.Replies.{reply_of};

use shunt_drivers::{Crew, Duty, RosterFault, roster_fault};
use shunt_inputs::{Answer, CrewFiles, Outcome, Question, RosterFile, Then};
use shunt_instance::Instance;
use shunt_lists::Items;
use shunt_plan::Plan;
use shunt_report::roster_text;
use std::alloc::{AllocError, Global};

// How a roster ends that has this fault.
fn outcome_of_fault(fault: Option<&RosterFault>) -> Outcome
    ensures { result ≡ roster_outcome (option_map (λ f. f.now) fault.entry) }
{
    match fault {
        Some(_) => Outcome::Findings,
        None => Outcome::Done,
    }
}

// What is at fault with duties of a plan's moves.
fn roster_answer(
    alloc: Global,
    instance: &Instance,
    plan: &Plan,
    crew: &Crew,
    duties: &Vec<Duty>,
) -> Result<Answer, AllocError>
    requires plan { IsPlanInRange instance.now plan.now }
    requires crew { IsCrew instance.now.station crew.now }
    requires duties { IsRoster (moves_of instance.now plan.now.blocks) duties.now.items }
    ensures { IfOk result (λ a. IsRostered
        (record { night = instance.now; plan = plan.now; crew = crew.now; duties = duties.now.items })
        (reply_of a)) }
{
    let fault = roster_fault(alloc, instance, plan, crew, duties)?;
    Ok(Answer {
        outcome: outcome_of_fault(fault.as_ref()),
        writes: Vec::new(alloc),
        text: roster_text(alloc, duties, fault.as_ref())?,
    })
}

/// The question of `roster`: what is at fault with duties of a plan's moves.
#[derive(Clone, Copy, Drop)]
pub struct RosterCommand;

impl<'n> Question<Then<CrewFiles<'n>, RosterFile<'n>>> for RosterCommand {
    ghost answers = { λ _ x. IsRostered
        (record { night = x.0.0.0; plan = x.0.0.1; crew = x.0.1; duties = x.1 }) };

    fn answer(
        &self,
        alloc: Global,
        value: (((Instance, Plan), Crew), Items<Duty>),
    ) -> Result<Answer, AllocError>
        requires plan { IsPlanInRange value.0.0.0 value.0.0.1 }
        requires crew { IsCrew value.0.0.0.station value.0.1 }
        requires duties { IsRoster (moves_of value.0.0.0 value.0.0.1.blocks) value.1 }
        ensures { IfOk result (λ a. IsRostered
            (record { night = value.0.0.0; plan = value.0.0.1; crew = value.0.1; duties = value.1 })
            (reply_of a)) }
    {
        let (((instance, plan), crew), duties) = value;
        let duties = duties.into_vec();
        roster_answer(alloc, &instance, &plan, &crew, &duties)
    }
}
