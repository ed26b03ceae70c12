// The answer of `report`.
ghost use Rattle.std.specs.Prelude.{[], IfOk};
ghost use Rattle.shunt_audit.specs.defs.Plans.{ArePlanFindings};
ghost use Rattle.shunt_plan.specs.defs.Plans.{IsPlanInRange};
ghost use Rattle.shunt_inputs.specs.defs.Replies.{reply_of};
ghost use Rattle.shunt_exchange.specs.defs.Reported.{HasReport, IsReported};

use shunt_inputs::{Answer, Inputs, Outcome, PlanFile, Question, Then};
use shunt_instance::Instance;
use shunt_judging::fault_answer;
use shunt_plan::Plan;
use shunt_report::json_text;
use std::alloc::{AllocError, Global};

// A plan without findings as one line.
fn line_answer(alloc: Global, instance: &Instance, plan: &Plan) -> Result<Answer, AllocError>
    requires in_range { IsPlanInRange instance.now plan.now }
    requires none { ArePlanFindings instance.now plan.now [] }
    ensures { IfOk result (λ a. HasReport (instance.now, plan.now) (reply_of a)) }
{
    Ok(Answer {
        outcome: Outcome::Done,
        writes: Vec::new(alloc),
        text: json_text(alloc, instance, plan)?,
    })
}

/// The question of `report`: a plan as one line for other programs, or what is wrong with the plan.
#[derive(Clone, Copy, Drop)]
pub struct ReportCommand;

impl<'n, I: Inputs<Value = Instance>> Question<Then<I, PlanFile<'n>>> for ReportCommand {
    ghost answers = { λ _ x. IsReported (x.0, x.1) };

    fn answer(&self, alloc: Global, value: (Instance, Plan)) -> Result<Answer, AllocError>
        requires plan { IsPlanInRange value.0 value.1 }
        ensures { IfOk result (λ a. IsReported (value.0, value.1) (reply_of a)) }
    {
        let (instance, plan) = value;
        match fault_answer(alloc, &instance, &plan)? {
            Some(answer) => Ok(answer),
            None => line_answer(alloc, &instance, &plan),
        }
    }
}
