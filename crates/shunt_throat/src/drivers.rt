// The answer of `drivers`.
ghost use Rattle.std.specs.Prelude.{IfOk};
ghost use Rattle.shunt_plan.specs.defs.Plans.{IsPlanInRange};
ghost use Rattle.shunt_drivers.specs.defs.CrewFormat.{IsCrew};
ghost use Rattle.shunt_throat.specs.defs.Shared.{IsShared};
ghost use Rattle.shunt_inputs.specs.defs.Replies.{reply_of};

use shunt_drivers::{Crew, share_moves, write_roster};
use shunt_inputs::{Answer, CrewFile, Outcome, PlanFiles, Question, Then, one_file};
use shunt_instance::Instance;
use shunt_plan::Plan;
use shunt_report::sharing_text;
use std::alloc::{AllocError, Global};

// The moves of a plan, shared among as few drivers as can be, which is written as a roster.
fn drivers_answer(
    alloc: Global,
    instance: &Instance,
    plan: &Plan,
    crew: &Crew,
    roster: &str,
) -> Result<Answer, AllocError>
    requires plan { IsPlanInRange instance.now plan.now }
    requires crew { IsCrew instance.now.station crew.now }
    ensures { IfOk result (λ a. IsShared roster.now
        (record { night = instance.now; plan = plan.now; crew = crew.now }) (reply_of a)) }
{
    let sharing = share_moves(alloc, instance, plan, crew)?;
    let written = write_roster(alloc, instance, plan, &sharing.duties)?;
    Ok(Answer {
        outcome: Outcome::Done,
        writes: one_file(alloc, roster, written)?,
        text: sharing_text(alloc, &sharing)?,
    })
}

/// The question of `drivers`, by the name of the roster: the moves of a plan, shared among as few drivers as can be.
#[derive(Clone, Copy, Drop)]
pub struct DriversCommand<'n>(pub &'n str);

impl<'n> Question<Then<PlanFiles<'n>, CrewFile<'n>>> for DriversCommand<'n> {
    ghost answers = { λ q x. IsShared q.0.now
        (record { night = x.0.0; plan = x.0.1; crew = x.1 }) };

    fn answer(&self, alloc: Global, value: ((Instance, Plan), Crew)) -> Result<Answer, AllocError>
        requires plan { IsPlanInRange value.0.0 value.0.1 }
        requires crew { IsCrew value.0.0.station value.1 }
        ensures { IfOk result (λ a. IsShared self.now.0.now
            (record { night = value.0.0; plan = value.0.1; crew = value.1 }) (reply_of a)) }
    {
        let ((instance, plan), crew) = value;
        drivers_answer(alloc, &instance, &plan, &crew, self.0)
    }
}
