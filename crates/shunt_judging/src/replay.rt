// The answer of `replay`.
ghost use Rattle.std.specs.Prelude.{IfOk};
ghost use Rattle.shunt_plan.specs.defs.Edits.{AreTurns};
ghost use Rattle.shunt_plan.specs.defs.Plans.{IsPlanInRange};
ghost use Rattle.shunt_judging.specs.defs.Replayed.{IsReplayed};
ghost use Rattle.shunt_inputs.specs.defs.Replies.{reply_of};

use crate::audit::outcome_of;
use crate::turns::do_turns;
use shunt_inputs::{Answer, EditsFile, PlanFiles, Question, Then, one_file};
use shunt_instance::Instance;
use shunt_lists::Items;
use shunt_moves::Workbench;
use shunt_plan::{Plan, Turn, write_plan};
use shunt_report::findings_text;
use std::alloc::{AllocError, Global};

// What the turns do to the blocks of a plan, which are written as a new one, and what is then wrong with them.
fn replay_answer(
    alloc: Global,
    instance: &Instance,
    plan: &Plan,
    turns: &[Turn],
    new_plan: &str,
) -> Result<Answer, AllocError>
    requires plan { IsPlanInRange instance.now plan.now }
    requires turns { AreTurns instance.now turns.now }
    ensures { IfOk result (λ a. IsReplayed new_plan.now
        (record { night = instance.now; plan = plan.now; turns = turns.now }) (reply_of a)) }
{
    let mut bench = Workbench::start(alloc, instance, plan)?;
    let mut text = do_turns(alloc, &mut bench, turns)?;
    let last = bench.plan()?;
    let findings = bench.findings()?;
    text.extend_from_slice(&findings_text(alloc, instance, &findings, last.cost)?)?;
    Ok(Answer {
        outcome: outcome_of(&findings),
        writes: one_file(alloc, new_plan, write_plan(alloc, instance, &last)?)?,
        text,
    })
}

/// The question of `replay`, by the name of the new plan: what edits make of a plan, which is written, and what is told of each.
#[derive(Clone, Copy, Drop)]
pub struct ReplayCommand<'n>(pub &'n str);

impl<'n> Question<Then<PlanFiles<'n>, EditsFile<'n>>> for ReplayCommand<'n> {
    ghost answers = { λ q x. IsReplayed q.0.now
        (record { night = x.0.0; plan = x.0.1; turns = x.1 }) };

    fn answer(
        &self,
        alloc: Global,
        value: ((Instance, Plan), Items<Turn>),
    ) -> Result<Answer, AllocError>
        requires plan { IsPlanInRange value.0.0 value.0.1 }
        requires turns { AreTurns value.0.0 value.1 }
        ensures { IfOk result (λ a. IsReplayed self.now.0.now
            (record { night = value.0.0; plan = value.0.1; turns = value.1 }) (reply_of a)) }
    {
        let ((instance, plan), turns) = value;
        replay_answer(alloc, &instance, &plan, turns.as_slice(), self.0)
    }
}
