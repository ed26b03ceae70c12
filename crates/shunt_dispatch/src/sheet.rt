// The answer of `sheet`.
ghost use Rattle.std.specs.Prelude.{[], IfOk};
ghost use Rattle.shunt_audit.specs.defs.Plans.{ArePlanFindings};
ghost use Rattle.shunt_plan.specs.defs.Plans.{IsPlanInRange};
ghost use Rattle.shunt_inputs.specs.defs.Replies.{reply_of};
ghost use Rattle.shunt_dispatch.specs.defs.Ordered.{HasSheet, IsOrdered};

use shunt_inputs::{Answer, Inputs, Outcome, PlanFile, Question, Then, one_file};
use shunt_instance::Instance;
use shunt_judging::fault_answer;
use shunt_plan::Plan;
use shunt_report::sheet_text;
use shunt_sheet::{orders_of, write_sheet};
use std::alloc::{AllocError, Global};

// The orders of a plan without findings, which are written as a sheet.
fn orders_answer(
    alloc: Global,
    instance: &Instance,
    plan: &Plan,
    sheet: &str,
) -> Result<Answer, AllocError>
    requires in_range { IsPlanInRange instance.now plan.now }
    requires none { ArePlanFindings instance.now plan.now [] }
    ensures { IfOk result (λ a. HasSheet sheet.now (instance.now, plan.now) (reply_of a)) }
{
    let orders = orders_of(alloc, instance, plan)?;
    let bytes = write_sheet(alloc, instance.station(), &orders)?;
    Ok(Answer {
        outcome: Outcome::Done,
        writes: one_file(alloc, sheet, bytes)?,
        text: sheet_text(alloc, &orders)?,
    })
}

/// The question of `sheet`, by the name of the sheet: the orders of a plan, or what is wrong with the plan.
#[derive(Clone, Copy, Drop)]
pub struct SheetCommand<'n>(pub &'n str);

impl<'n, I: Inputs<Value = Instance>> Question<Then<I, PlanFile<'n>>> for SheetCommand<'n> {
    ghost answers = { λ q x. IsOrdered q.0.now x };

    fn answer(&self, alloc: Global, value: (Instance, Plan)) -> Result<Answer, AllocError>
        requires { IsPlanInRange value.0 value.1 }
        ensures { IfOk result (λ a. IsOrdered self.now.0.now value (reply_of a)) }
    {
        let (instance, plan) = value;
        match fault_answer(alloc, &instance, &plan)? {
            Some(answer) => Ok(answer),
            None => orders_answer(alloc, &instance, &plan, self.0),
        }
    }
}
