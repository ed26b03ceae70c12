// The answer of `audit`.
ghost use Rattle.std.specs.Prelude.{◌≡◌, IfOk};
ghost use Rattle.shunt_plan.specs.defs.Plans.{IsPlanInRange};
ghost use Rattle.shunt_judging.specs.defs.Audited.{Faults, IsAudited, audit_outcome};
ghost use Rattle.shunt_inputs.specs.defs.Replies.{reply_of};

use shunt_audit::audit;
use shunt_audit::types::Finding;
use shunt_inputs::{Answer, Inputs, Outcome, PlanFile, Question, Then};
use shunt_instance::Instance;
use shunt_plan::Plan;
use shunt_report::findings_text;
use std::alloc::{AllocError, Global};

/// The question of `audit`: what is wrong with a plan, and what it costs.
#[derive(Clone, Copy, Drop)]
pub struct AuditCommand;

impl<'n, I: Inputs<Value = Instance>> Question<Then<I, PlanFile<'n>>> for AuditCommand {
    ghost answers = { λ _ x. IsAudited (x.0, x.1) };

    fn answer(&self, alloc: Global, value: (Instance, Plan)) -> Result<Answer, AllocError>
        requires plan { IsPlanInRange value.0 value.1 }
        ensures { IfOk result (λ a. IsAudited (value.0, value.1) (reply_of a)) }
    {
        let (instance, plan) = value;
        audit_answer(alloc, &instance, &plan)
    }
}

/// How an audit ends that has these findings.
pub fn outcome_of(findings: &[Finding]) -> Outcome
    ensures { result ≡ audit_outcome findings.now }
{
    if findings.is_empty() {
        Outcome::Done
    } else {
        Outcome::Findings
    }
}

// What is wrong with a plan, and what it costs.
fn audit_answer(alloc: Global, instance: &Instance, plan: &Plan) -> Result<Answer, AllocError>
    requires { IsPlanInRange instance.now plan.now }
    ensures { IfOk result (λ a. IsAudited (instance.now, plan.now) (reply_of a)) }
{
    let found = audit(alloc, instance, plan)?;
    let findings = found.findings.as_slice();
    Ok(Answer {
        outcome: outcome_of(findings),
        writes: Vec::new(alloc),
        text: findings_text(alloc, instance, findings, found.cost)?,
    })
}

/// What is wrong with a plan that has findings, where a command wants one without. None exactly when it has none. The error is want of
/// memory.
pub fn fault_answer(
    alloc: Global,
    instance: &Instance,
    plan: &Plan,
) -> Result<Option<Answer>, AllocError>
    requires { IsPlanInRange instance.now plan.now }
    ensures { IfOk result (Faults (instance.now, plan.now)) }
{
    let found = audit(alloc, instance, plan)?;
    let findings = found.findings.as_slice();
    if findings.is_empty() {
        return Ok(None);
    }
    Ok(Some(Answer {
        outcome: Outcome::Findings,
        writes: Vec::new(alloc),
        text: findings_text(alloc, instance, findings, found.cost)?,
    }))
}
