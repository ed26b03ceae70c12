// The answer of `check`.
ghost use Rattle.std.specs.Prelude.{◌≡◌, IfOk};
ghost use Rattle.shunt_plan.specs.defs.Plans.{IsPlanInRange};
ghost use Rattle.shunt_proof.specs.defs.Certificates.{IsCertificate};
ghost use Rattle.shunt_judging.specs.defs.Checked.{IsChecked, check_outcome};
ghost use Rattle.shunt_inputs.specs.defs.Replies.{reply_of};

use shunt_checker::{Verdict, check};
use shunt_inputs::{Answer, CertificateFile, Outcome, PlanFiles, Question, Then};
use shunt_instance::Instance;
use shunt_plan::Plan;
use shunt_proof::Certificate;
use shunt_report::laws::verdicts;
use shunt_report::verdict_text;
use std::alloc::{AllocError, Global};

// How a check ends that has this verdict.
pub(crate) fn outcome_of_verdict(verdict: &Verdict) -> Outcome
    ensures { result ≡ check_outcome verdict.now }
{
    match verdict {
        Verdict::Accepted { .. } => Outcome::Done,
        Verdict::Rejected { .. } => Outcome::Findings,
    }
}

// Whether a certificate proves its bound with a plan, or the first reason why it doesn't.
fn check_answer(
    alloc: Global,
    instance: &Instance,
    plan: &Plan,
    certificate: &Certificate,
) -> Result<Answer, AllocError>
    requires plan { IsPlanInRange instance.now plan.now }
    requires certificate { IsCertificate instance.now certificate.now }
    ensures { IfOk result (λ a. IsChecked
        (record { night = instance.now; plan = plan.now; certificate = certificate.now })
        (reply_of a)) }
{
    verdicts();
    let verdict = check(alloc, instance, plan, certificate)?;
    Ok(Answer {
        outcome: outcome_of_verdict(&verdict),
        writes: Vec::new(alloc),
        text: verdict_text(alloc, instance, certificate, &verdict)?,
    })
}

/// The question of `check`: whether a certificate proves its bound with a plan, or the first reason why it doesn't.
#[derive(Clone, Copy, Drop)]
pub struct CheckCommand;

impl<'n> Question<Then<PlanFiles<'n>, CertificateFile<'n>>> for CheckCommand {
    ghost answers = { λ _ x. IsChecked
        (record { night = x.0.0; plan = x.0.1; certificate = x.1 }) };

    fn answer(
        &self,
        alloc: Global,
        value: ((Instance, Plan), Certificate),
    ) -> Result<Answer, AllocError>
        requires plan { IsPlanInRange value.0.0 value.0.1 }
        requires certificate { IsCertificate value.0.0 value.1 }
        ensures { IfOk result (λ a. IsChecked
            (record { night = value.0.0; plan = value.0.1; certificate = value.1 }) (reply_of a)) }
    {
        let ((instance, plan), certificate) = value;
        check_answer(alloc, &instance, &plan, &certificate)
    }
}
