// The answer of `check-pinned`.
ghost use Rattle.std.specs.Prelude.{◌≡◌, IfOk};
ghost use Rattle.shunt_blocks.specs.defs.Lists.{AreInRange};
ghost use Rattle.shunt_blocks.specs.defs.Pins.{AreUsable, Keeps};
ghost use Rattle.shunt_plan.specs.defs.Plans.{IsPlanInRange};
ghost use Rattle.shunt_proof.specs.defs.Certificates.{IsCertificate};
ghost use Rattle.shunt_inputs.specs.defs.Replies.{reply_of, says};
ghost use Rattle.shunt_report.specs.defs.PlanTexts.{lost_of};
ghost use Rattle.shunt_inputs.specs.declared.answers.Outcome.TheVariants as outcome;
ghost use Rattle.shunt_judging.specs.defs.Pinned.{IsPinChecked, IsPinVerdict};

use crate::check::outcome_of_verdict;
use crate::pins::pins_answer;
use shunt_blocks::Block;
use shunt_checker::check_pinned;
use shunt_inputs::{
    Answer, CertificateFile, Outcome, Pinned, PinnedFiles, PlanFile, Question, Then,
};
use shunt_instance::Instance;
use shunt_plan::{Plan, lost_pin};
use shunt_proof::Certificate;
use shunt_report::laws::verdicts;
use shunt_report::{lost_text, verdict_text};
use std::alloc::{AllocError, Global};

// The answer of `check-pinned` on a plan that doesn't keep this pin.
fn lost_answer(alloc: Global, id: u32) -> Result<Answer, AllocError>
    ensures { IfOk result (λ a. reply_of a ≡ says outcome.Findings (lost_of id)) }
{
    Ok(Answer {
        outcome: Outcome::Findings,
        writes: Vec::new(alloc),
        text: lost_text(alloc, id)?,
    })
}

// Whether a certificate proves its bound with a plan that keeps usable pins.
fn kept_answer(
    alloc: Global,
    instance: &Instance,
    pins: &[Block],
    plan: &Plan,
    certificate: &Certificate,
) -> Result<Answer, AllocError>
    requires usable { AreUsable instance.now pins.now }
    requires keeps { Keeps plan.now.blocks pins.now }
    requires plan { IsPlanInRange instance.now plan.now }
    requires certificate { IsCertificate instance.now certificate.now }
    ensures { IfOk result (λ a. IsPinVerdict (record {
      night = instance.now;
      pins = pins.now;
      plan = plan.now;
      certificate = certificate.now;
    }) (reply_of a)) }
{
    verdicts();
    let verdict = check_pinned(alloc, instance, pins, plan, certificate)?;
    Ok(Answer {
        outcome: outcome_of_verdict(&verdict),
        writes: Vec::new(alloc),
        text: verdict_text(alloc, instance, certificate, &verdict)?,
    })
}

// What is wrong with pins, or with a plan that has to keep them, or the verdict on its certificate.
fn check_pinned_answer(
    alloc: Global,
    instance: &Instance,
    pins: &[Block],
    plan: &Plan,
    certificate: &Certificate,
) -> Result<Answer, AllocError>
    requires pins { AreInRange instance.now pins.now }
    requires plan { IsPlanInRange instance.now plan.now }
    requires certificate { IsCertificate instance.now certificate.now }
    ensures { IfOk result (λ a. IsPinChecked (record {
      night = instance.now;
      pins = pins.now;
      plan = plan.now;
      certificate = certificate.now;
    }) (reply_of a)) }
{
    match pins_answer(alloc, instance, pins)? {
        Some(answer) => Ok(answer),
        None => match lost_pin(plan, pins) {
            Some(id) => lost_answer(alloc, id),
            None => kept_answer(alloc, instance, pins, plan, certificate),
        },
    }
}

/// The question of `check-pinned`: whether the pins are usable, whether the plan keeps them, and whether the certificate proves its bound
/// over all plans that do.
#[derive(Clone, Copy, Drop)]
pub struct CheckPinnedCommand;

impl<'n> Question<Then<Then<PinnedFiles<'n>, PlanFile<'n>>, CertificateFile<'n>>>
    for CheckPinnedCommand {
    ghost answers = { λ _ x. IsPinChecked
        (record { night = x.0.0.instance; pins = x.0.0.pins; plan = x.0.1; certificate = x.1 }) };

    fn answer(
        &self,
        alloc: Global,
        value: ((Pinned, Plan), Certificate),
    ) -> Result<Answer, AllocError>
        requires pins { AreInRange value.0.0.instance value.0.0.pins }
        requires plan { IsPlanInRange value.0.0.instance value.0.1 }
        requires certificate { IsCertificate value.0.0.instance value.1 }
        ensures { IfOk result (λ a. IsPinChecked (record {
          night = value.0.0.instance;
          pins = value.0.0.pins;
          plan = value.0.1;
          certificate = value.1;
        }) (reply_of a)) }
    {
        let ((pinned, plan), certificate) = value;
        let pins = pinned.pins.as_slice();
        check_pinned_answer(alloc, &pinned.instance, pins, &plan, &certificate)
    }
}
