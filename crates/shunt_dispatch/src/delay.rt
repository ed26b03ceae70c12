// The answer of `delay`.
ghost use Rattle.std.specs.Prelude.{[], IfOk};
ghost use Rattle.shunt_audit.specs.defs.Plans.{ArePlanFindings};
ghost use Rattle.shunt_blocks.specs.defs.Lists.{IsFeasible};
ghost use Rattle.shunt_plan.specs.defs.Plans.{IsPlanInRange};
ghost use Rattle.shunt_inputs.specs.defs.Replies.{reply_of};
ghost use Rattle.shunt_dispatch.specs.defs.Delayed.{HasDelays, IsDelayed};

use shunt_delay::delays;
use shunt_inputs::{Answer, Inputs, Outcome, PlanFile, Question, Then};
use shunt_instance::Instance;
use shunt_judging::fault_answer;
use shunt_plan::Plan;
use shunt_report::delays_text;
use std::alloc::{AllocError, Global};

// How late each train of a plan without findings can be.
fn bearable_answer(alloc: Global, instance: &Instance, plan: &Plan) -> Result<Answer, AllocError>
    requires in_range { IsPlanInRange instance.now plan.now }
    requires none { ArePlanFindings instance.now plan.now [] }
    requires feasible { IsFeasible instance.now plan.now.blocks }
    ensures { IfOk result (λ a. HasDelays (instance.now, plan.now) (reply_of a)) }
{
    let bearable = delays(alloc, instance, plan)?;
    Ok(Answer {
        outcome: Outcome::Done,
        writes: Vec::new(alloc),
        text: delays_text(alloc, instance, &bearable)?,
    })
}

/// The question of `delay`: how late each train of a plan can be, or what is wrong with the plan.
#[derive(Clone, Copy, Drop)]
pub struct DelayCommand;

impl<'n, I: Inputs<Value = Instance>> Question<Then<I, PlanFile<'n>>> for DelayCommand {
    ghost answers = { λ _ x. IsDelayed (x.0, x.1) };

    fn answer(&self, alloc: Global, value: (Instance, Plan)) -> Result<Answer, AllocError>
        requires plan { IsPlanInRange value.0 value.1 }
        ensures { IfOk result (λ a. IsDelayed (value.0, value.1) (reply_of a)) }
    {
        let (instance, plan) = value;
        match fault_answer(alloc, &instance, &plan)? {
            Some(answer) => Ok(answer),
            None => bearable_answer(alloc, &instance, &plan),
        }
    }
}
