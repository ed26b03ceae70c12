// The calls of `plan`, `audit` and `check` over files in memory.
ghost use Rattle.std.specs.Prelude.{◌≡◌, ◌≤◌, [], ◌∷◌, ◌++◌, length, Ok, IfOk, OnOk};
ghost use Rattle.shunt_store.specs.defs.Files.{Closed};
ghost use Rattle.shunt_blocks.specs.defs.Lists.{total_cost};
ghost use Rattle.shunt_instance.specs.defs.Instance.{Night};
ghost use Rattle.shunt_plan.specs.declared.records.Plan.{Plan};
ghost use Rattle.shunt_proof.specs.declared.records.Certificate.{Certificate};
ghost use Rattle.shunt_checker.specs.declared.verdict.Verdict.TheVariants as verdict;
ghost use Rattle.shunt_report.specs.defs.FindingTexts.{findings_of};
ghost use Rattle.shunt_report.specs.defs.PlanTexts.{plan_of};
ghost use Rattle.shunt_report.specs.defs.VerdictTexts.{verdict_of};
ghost use Rattle.shunt_inputs.specs.defs.Names.{AreNames};
ghost use Rattle.shunt_judging.specs.defs.Checked.{Checkable};
ghost use Rattle.shunt_trial.specs.defs.Tried.{rehearsal_of};
ghost use Rattle.shunt_trial.specs.defs.Rehearsed.{IsNightIn, with_both, AreFit, IsProvedIn};
ghost use Rattle.shunt_trial.specs.defs.Rehearsed.{IsSure};

use crate::trial_files::put_all;
use shunt_audit::laws::plan_findings;
use shunt_checker::laws::reasons;
use shunt_inputs::{Answer, CertificateFile, Halt, NightFiles, PlanFile, Then, reply};
use shunt_judging::{AuditCommand, CheckCommand};
use shunt_plan::laws::texts_of_plans;
use shunt_planning::reply_to_plan;
use shunt_proof::text_laws::texts_of_certificates;
use shunt_store::SureStore;
use std::alloc::{AllocError, Global};

// A reply over files that are accepted, in a store that never fails.
fn sure(reply: Result<Answer, Halt>) -> Result<Answer, AllocError>
    requires { IsSure reply }
    ensures { IfOk result (λ a. reply ≡ Ok a) }
{
    match reply {
        Ok(answer) => Ok(answer),
        Err(Halt::Memory) => Err(AllocError),
        Err(Halt::Fault) => unreachable!(),
        Err(Halt::Input(_)) => unreachable!(),
    }
}

// Plans the night of the store, and puts the plan and its certificate beside it.
fn plan_in(
    alloc: Global,
    store: &mut SureStore,
    station: &str,
    timetable: &str,
    nodes: u32,
    plan: &str,
    certificate: &str,
) -> Result<Vec<u8>, AllocError>
    requires closed { store.old.stage ≡ Closed }
    requires some { 1 ≤ nodes }
    requires few { nodes ≤ 5000 }
    requires names { AreNames (station.now ∷ timetable.now ∷ plan.now ∷ certificate.now ∷ []) }
    requires night { (night : Night) × IsNightIn station.now timetable.now store.old.files night }
    ensures found { IfOk result (λ text. (night : Night) → IsNightIn station.now timetable.now
        store.old.files night → (p : Plan) × (c : Certificate) × AreFit night nodes p c
        × (store.new.files ≡ with_both plan.now certificate.now night p c store.old.files)
        × (text.items ≡ plan_of p c.bound (length c.nodes))) }
    ensures closed { IfOk result (λ text. store.new.stage ≡ Closed) }
{
    let answer = sure(reply_to_plan(alloc, store, station, timetable, nodes, plan, certificate))?;
    put_all(store, &answer.writes)?;
    Ok(answer.text)
}

// Audits the plan of the store, which has no findings.
fn audit_in(
    alloc: Global,
    store: &mut SureStore,
    station: &str,
    timetable: &str,
    plan: &str,
    certificate: &str,
) -> Result<Vec<u8>, AllocError>
    requires closed { store.old.stage ≡ Closed }
    requires names { AreNames (station.now ∷ timetable.now ∷ plan.now ∷ certificate.now ∷ []) }
    requires proved { (x : Checkable)
        × IsProvedIn station.now timetable.now plan.now certificate.now store.old.files x }
    ensures told { IfOk result (λ text. (x : Checkable)
        → IsProvedIn station.now timetable.now plan.now certificate.now store.old.files x
        → text.items ≡ findings_of x.night [] (total_cost x.night x.plan.blocks)) }
    ensures files { store.new.files ≡ store.old.files }
    ensures closed { store.new.stage ≡ Closed }
{
    plan_findings();
    let inputs = Then(NightFiles(station, timetable), PlanFile(plan));
    let answer = sure(reply(alloc, store, &inputs, &AuditCommand))?;
    Ok(answer.text)
}

// Checks the certificate of the store, which is accepted.
fn check_in(
    alloc: Global,
    store: &mut SureStore,
    station: &str,
    timetable: &str,
    plan: &str,
    certificate: &str,
) -> Result<Vec<u8>, AllocError>
    requires closed { store.old.stage ≡ Closed }
    requires names { AreNames (station.now ∷ timetable.now ∷ plan.now ∷ certificate.now ∷ []) }
    requires proved { (x : Checkable)
        × IsProvedIn station.now timetable.now plan.now certificate.now store.old.files x }
    ensures told { IfOk result (λ text. (x : Checkable)
        → IsProvedIn station.now timetable.now plan.now certificate.now store.old.files x
        → text.items ≡ verdict_of x.night x.certificate (verdict.Accepted x.certificate.bound)) }
    ensures files { store.new.files ≡ store.old.files }
    ensures closed { store.new.stage ≡ Closed }
{
    reasons();
    let plan_files = Then(NightFiles(station, timetable), PlanFile(plan));
    let inputs = Then(plan_files, CertificateFile(certificate));
    let answer = sure(reply(alloc, store, &inputs, &CheckCommand))?;
    Ok(answer.text)
}

// Audits the plan of the store, and checks its certificate.
fn judge_in(
    alloc: Global,
    store: &mut SureStore,
    station: &str,
    timetable: &str,
    plan: &str,
    certificate: &str,
) -> Result<Vec<u8>, AllocError>
    requires closed { store.old.stage ≡ Closed }
    requires names { AreNames (station.now ∷ timetable.now ∷ plan.now ∷ certificate.now ∷ []) }
    requires proved { (x : Checkable)
        × IsProvedIn station.now timetable.now plan.now certificate.now store.old.files x }
    ensures told { IfOk result (λ text. (x : Checkable)
        → IsProvedIn station.now timetable.now plan.now certificate.now store.old.files x
        → text.items ≡ findings_of x.night [] (total_cost x.night x.plan.blocks)
        ++ verdict_of x.night x.certificate (verdict.Accepted x.certificate.bound)) }
    ensures files { store.new.files ≡ store.old.files }
{
    let mut text = audit_in(alloc, store, station, timetable, plan, certificate)?;
    let verdict = check_in(alloc, store, station, timetable, plan, certificate)?;
    text.extend_from_slice(&verdict)?;
    Ok(text)
}

/// Plans the night of the store, puts the plan and its certificate beside it, and audits and checks them there. What is told of both.
pub(crate) fn rehearse(
    alloc: Global,
    store: &mut SureStore,
    station: &str,
    timetable: &str,
    nodes: u32,
    plan: &str,
    certificate: &str,
) -> Result<Vec<u8>, AllocError>
    requires closed { store.old.stage ≡ Closed }
    requires some { 1 ≤ nodes }
    requires few { nodes ≤ 5000 }
    requires names { AreNames (station.now ∷ timetable.now ∷ plan.now ∷ certificate.now ∷ []) }
    requires night { (night : Night) × IsNightIn station.now timetable.now store.old.files night }
    ensures { IfOk result (λ text. (night : Night) → IsNightIn station.now timetable.now
        store.old.files night → (p : Plan) × (c : Certificate) × AreFit night nodes p c
        × (store.new.files ≡ with_both plan.now certificate.now night p c store.old.files)
        × (text.items ≡ rehearsal_of night p c)) }
{
    texts_of_plans();
    texts_of_certificates();
    let mut text = plan_in(alloc, store, station, timetable, nodes, plan, certificate)?;
    let judged = judge_in(alloc, store, station, timetable, plan, certificate)?;
    text.extend_from_slice(&judged)?;
    Ok(text)
}
