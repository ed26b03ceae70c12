// The answer of `compare`.
ghost use Rattle.std.specs.Prelude.{◌≡◌, [], IfOk};
ghost use Rattle.shunt_audit.specs.defs.Plans.{ArePlanFindings};
ghost use Rattle.shunt_blocks.specs.defs.Lists.{IsFeasible};
ghost use Rattle.shunt_plan.specs.defs.Plans.{IsPlanInRange};
ghost use Rattle.shunt_inputs.specs.defs.Replies.{reply_of};
ghost use Rattle.shunt_dispatch.specs.defs.Compared.{HasComparison, IsCompared, compared_outcome};

use shunt_compare::{Comparison, compare};
use shunt_inputs::{Answer, Inputs, OtherFile, Outcome, PlanFile, Question, Then};
use shunt_instance::Instance;
use shunt_judging::fault_answer;
use shunt_plan::{Plan, blocks_cost};
use shunt_report::comparison_text;
use shunt_report::laws::comparisons;
use std::alloc::{AllocError, Global};

// How a comparison ends.
fn outcome_of_comparison(comparison: &Comparison) -> Outcome
    ensures { result ≡ compared_outcome comparison.now.changes comparison.now.regrouped }
{
    if !comparison.changes.as_slice().is_empty() {
        return Outcome::Findings;
    }
    if comparison.regrouped.as_slice().is_empty() {
        Outcome::Done
    } else {
        Outcome::Findings
    }
}

// What another plan does otherwise, where neither has findings.
fn comparison_answer(
    alloc: Global,
    instance: &Instance,
    plan: &Plan,
    other: &Plan,
) -> Result<Answer, AllocError>
    requires in_range { IsPlanInRange instance.now plan.now }
    requires none { ArePlanFindings instance.now plan.now [] }
    requires feasible { IsFeasible instance.now plan.now.blocks }
    requires other_in_range { IsPlanInRange instance.now other.now }
    requires other_none { ArePlanFindings instance.now other.now [] }
    requires other_feasible { IsFeasible instance.now other.now.blocks }
    ensures { IfOk result (λ a. HasComparison
        (record { night = instance.now; plan = plan.now; other = other.now }) (reply_of a)) }
{
    let (was, now) = (plan.blocks.as_slice(), other.blocks.as_slice());
    let comparison = compare(alloc, instance, was, now)?;
    let cost = blocks_cost(instance, was);
    let other_cost = blocks_cost(instance, now);
    comparisons();
    Ok(Answer {
        outcome: outcome_of_comparison(&comparison),
        writes: Vec::new(alloc),
        text: comparison_text(alloc, instance, &comparison, cost, other_cost)?,
    })
}

// What another plan does otherwise, or what is wrong with the first of the two that has findings.
fn compared(
    alloc: Global,
    instance: &Instance,
    plan: &Plan,
    other: &Plan,
) -> Result<Answer, AllocError>
    requires plan { IsPlanInRange instance.now plan.now }
    requires other { IsPlanInRange instance.now other.now }
    ensures { IfOk result (λ a. IsCompared
        (record { night = instance.now; plan = plan.now; other = other.now }) (reply_of a)) }
{
    if let Some(answer) = fault_answer(alloc, instance, plan)? {
        return Ok(answer);
    }
    if let Some(answer) = fault_answer(alloc, instance, other)? {
        return Ok(answer);
    }
    comparison_answer(alloc, instance, plan, other)
}

/// The question of `compare`: what another plan does otherwise, or what is wrong with the first of the two that has findings.
#[derive(Clone, Copy, Drop)]
pub struct CompareCommand;

impl<'n, I: Inputs<Value = Instance>> Question<Then<Then<I, PlanFile<'n>>, OtherFile<'n>>>
    for CompareCommand {
    ghost answers = { λ _ x. IsCompared (record { night = x.0.0; plan = x.0.1; other = x.1 }) };

    fn answer(&self, alloc: Global, value: ((Instance, Plan), Plan)) -> Result<Answer, AllocError>
        requires plan { IsPlanInRange value.0.0 value.0.1 }
        requires other { IsPlanInRange value.0.0 value.1 }
        ensures { IfOk result (λ a. IsCompared
            (record { night = value.0.0; plan = value.0.1; other = value.1 }) (reply_of a)) }
    {
        let ((instance, plan), other) = value;
        compared(alloc, &instance, &plan, &other)
    }
}
