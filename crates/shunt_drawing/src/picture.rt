// The answer of `draw`.
ghost use Rattle.std.specs.Prelude.{IfOk};
ghost use Rattle.shunt_plan.specs.defs.Plans.{IsPlanInRange};
ghost use Rattle.shunt_inputs.specs.defs.Replies.{reply_of};
ghost use Rattle.shunt_drawing.specs.defs.Drawn.{IsDrawn};

use shunt_audit::audit;
use shunt_inputs::{Answer, Inputs, PlanFile, Question, Then, one_file};
use shunt_instance::Instance;
use shunt_judging::outcome_of;
use shunt_picture::{picture, picture_text};
use shunt_plan::Plan;
use shunt_report::findings_text;
use std::alloc::{AllocError, Global};

// The picture of a plan, what is wrong with it, and what it costs.
fn draw_answer(
    alloc: Global,
    instance: &Instance,
    plan: &Plan,
    file: &str,
) -> Result<Answer, AllocError>
    requires { IsPlanInRange instance.now plan.now }
    ensures { IfOk result (λ a. IsDrawn file.now (instance.now, plan.now) (reply_of a)) }
{
    let found = audit(alloc, instance, plan)?;
    let findings = found.findings.as_slice();
    let shown = picture(alloc, instance, plan)?;
    let bytes = picture_text(alloc, &shown)?;
    Ok(Answer {
        outcome: outcome_of(findings),
        writes: one_file(alloc, file, bytes)?,
        text: findings_text(alloc, instance, findings, found.cost)?,
    })
}

/// The question of `draw`, by the name of the picture: the picture of a plan, what is wrong with it, and what it costs.
#[derive(Clone, Copy, Drop)]
pub struct DrawCommand<'n>(pub &'n str);

impl<'n, I: Inputs<Value = Instance>> Question<Then<I, PlanFile<'n>>> for DrawCommand<'n> {
    ghost answers = { λ q x. IsDrawn q.0.now (x.0, x.1) };

    fn answer(&self, alloc: Global, value: (Instance, Plan)) -> Result<Answer, AllocError>
        requires plan { IsPlanInRange value.0 value.1 }
        ensures { IfOk result (λ a. IsDrawn self.now.0.now (value.0, value.1) (reply_of a)) }
    {
        let (instance, plan) = value;
        draw_answer(alloc, &instance, &plan, self.0)
    }
}
