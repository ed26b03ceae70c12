// The search for a plan that keeps pins, and costs no more than one in hand, where there is one.
ghost use Rattle.std.specs.Prelude.{◌≡◌, ◌≤◌, [], ◌∷◌, ℕ, IfOk, IfSome, OnErr, IsErrOf};
ghost use Rattle.shunt_store.specs.defs.Files.{Closed, Writing};
ghost use Rattle.shunt_store.specs.defs.Causes.{HasCause};
ghost use Rattle.shunt_rows.specs.defs.Records.{text_of_row};
ghost use Rattle.shunt_blocks.specs.defs.Lists.{IsFeasible, total_cost, units_taken};
ghost use Rattle.shunt_blocks.specs.defs.Lists.{positions_taken};
ghost use Rattle.shunt_blocks.specs.defs.Pins.{AreUsable, Keeps as KeepsPins};
ghost use Rattle.shunt_matching.specs.declared.types.Shortage.{Shortage as OneShortage};
ghost use Rattle.shunt_matching.specs.defs.Nights.{IsShortageOf};
ghost use Rattle.shunt_plan.specs.defs.Plans.{IsPlanInRange};
ghost use Rattle.shunt_proof.specs.defs.CertificateRows.{head_row};
ghost use Rattle.shunt_proof.specs.defs.Recorders.{Open, Finished};
ghost use Rattle.shunt_proof.specs.defs.TextRecorders.{KeepsStream, seen, stage_of, told_of};
ghost use Rattle.shunt_report.specs.defs.PlanTexts.{plan_of};
ghost use Rattle.shunt_search.specs.defs.Conditions.{MeetsConditions};
ghost use Rattle.shunt_search.specs.defs.Finding.{IsFound as IsSearched};
ghost use Rattle.shunt_search.specs.defs.Endings.{IsShownIn};
ghost use Rattle.shunt_inputs.specs.defs.Replies.{reply_of};
ghost use Rattle.shunt_inputs.specs.defs.Writes.{LeavesOne, known};
ghost use Rattle.shunt_planning.specs.defs.Planned.{IsPlannedAt, plan_file, search_outcome};
ghost use Rattle.shunt_planning.specs.defs.Begun.{IsFound};

use shunt_blocks::Block;
use shunt_inputs::{Answer, Halt, Outcome, one_file};
use shunt_instance::Instance;
use shunt_plan::write_plan;
use shunt_proof::{TextRecorder, begin_certificate};
use shunt_report::plan_text;
use shunt_search::{Found, SolveError, Solved, find, note_found};
use shunt_store::{Store, StoreError};
use shunt_tree::Grower;
use std::alloc::{AllocError, Global};

// Hands the nodes of what was found to a recorder that writes them. The store that it borrows stays the one that it borrowed.
fn note_into<S: Store>(
    alloc: Global,
    instance: &Instance,
    pins: &[Block],
    nodes: u32,
    found: Found,
    recorder: &mut TextRecorder<'_, S>,
) -> Result<Solved, SolveError>
    requires found { IsSearched instance.now pins.now nodes found }
    requires few { nodes ≤ 5000 }
    requires stage { stage_of
        (seen recorder.old.version recorder.old.instance.now recorder.old.name.now
        (S.stage recorder.old.store.now) recorder.old.doing recorder.old.nodes recorder.old.cases)
        ≡ Open }
    requires own { instance.now ≡ recorder.old.instance.now }
    requires none { recorder.old.nodes ≡ 0 }
    requires no_cases { recorder.old.cases ≡ 0 }
    requires told { IfSome
        (told_of (seen recorder.old.version recorder.old.instance.now recorder.old.name.now
        (S.stage recorder.old.store.now) recorder.old.doing recorder.old.nodes recorder.old.cases))
        (λ told. told ≡ []) }
    ensures same_reference { recorder.new.store.ghost_name ≡ recorder.old.store.ghost_name }
    ensures meets { IfOk result (MeetsConditions instance.now pins.now nodes) }
    ensures in_range { IfOk result (λ s. IsPlanInRange instance.now s.plan) }
    ensures cheaper { IfOk result (λ s. s.cost ≤ found.walk.search.known.cost) }
    ensures version { IfOk result (λ s. s.version ≡ found.walk.version) }
    ensures shown { IfOk result
        (λ s. IsShownIn found.walk.version instance.now pins.now nodes s.plan s.bound s.nodes
        (told_of (seen recorder.new.version recorder.new.instance.now recorder.new.name.now (S.stage
        recorder.new.store.now) recorder.new.doing recorder.new.nodes recorder.new.cases))) }
    ensures finished { IfOk result
        (λ s. stage_of (seen recorder.new.version recorder.new.instance.now recorder.new.name.now
        (S.stage recorder.new.store.now) recorder.new.doing recorder.new.nodes recorder.new.cases)
        ≡ Finished s.cost s.bound) }
    ensures no_matching { (s : OneShortage) → IsErrOf result (SolveError.NoMatching s) → ⊥ }
    ensures cause { HasCause SolveError.Recorder (S.faults recorder.old.store.now)
        (S.faults recorder.new.store.now) result }
    ensures keeps { KeepsStream
        (seen recorder.old.version recorder.old.instance.now recorder.old.name.now
        (S.stage recorder.old.store.now) recorder.old.doing recorder.old.nodes recorder.old.cases)
        (seen recorder.new.version recorder.new.instance.now recorder.new.name.now
        (S.stage recorder.new.store.now) recorder.new.doing recorder.new.nodes recorder.new.cases) }
    ensures files { S.told recorder.new.store.now ≡ S.told recorder.old.store.now }
    ensures heard { S.heard recorder.new.store.now ≡ S.heard recorder.old.store.now }
    ensures stored { S.stored recorder.new.store.now ≡ S.stored recorder.old.store.now }
{
    note_found(alloc, instance, pins, nodes, found, recorder)
}

// Writes what was found on in the certificate that was begun. What was written of it is given up where that fails.
fn stream<S: Store>(
    alloc: Global,
    store: &mut S,
    instance: &Instance,
    pins: &[Block],
    nodes: u32,
    found: Found,
    certificate: &str,
) -> Result<Solved, StoreError>
    requires writing { S.stage store.old
        ≡ Writing certificate.now (text_of_row (head_row found.walk.version)) }
    requires found { IsSearched instance.now pins.now nodes found }
    requires few { nodes ≤ 5000 }
    ensures found { IfOk result
        (IsFound instance.now pins.now nodes certificate.now (S.stage store.new)) }
    ensures in_range { IfOk result (λ s. IsPlanInRange instance.now s.plan) }
    ensures cost { IfOk result (λ s. s.cost ≡ s.plan.cost) }
    ensures cheaper { IfOk result (λ s. s.cost ≤ found.walk.search.known.cost) }
    ensures closed { OnErr result (S.stage store.new ≡ Closed) }
    ensures files { S.told store.new ≡ S.told store.old }
    ensures heard { S.heard store.new ≡ S.heard store.old }
    ensures stored { S.stored store.new ≡ S.stored store.old }
    ensures cause { HasCause StoreError.Fault (S.faults store.old) (S.faults store.new) result }
{
    let version = found.version();
    let mut recorder = TextRecorder::over(alloc, instance, store, certificate, version);
    match note_into(alloc, instance, pins, nodes, found, &mut recorder) {
        Ok(solved) => Ok(solved),
        Err(SolveError::NoMatching(_)) => unreachable!(),
        Err(SolveError::Recorder) => {
            recorder.abandon();
            Err(StoreError::Fault)
        }
        Err(SolveError::Memory) => {
            recorder.abandon();
            Err(StoreError::Memory)
        }
    }
}

// Searches with at most so many nodes, which are kept in memory. Err is want of memory.
fn search_in_memory(
    alloc: Global,
    instance: &Instance,
    pins: &[Block],
    given: Option<&[Block]>,
    nodes: u32,
) -> Result<Found, AllocError>
    requires usable { AreUsable instance.now pins.now }
    requires feasible { IfSome given (λ p. IsFeasible instance.now p.now) }
    requires keeps { IfSome given (λ p. KeepsPins p.now pins.now) }
    requires some { 1 ≤ nodes }
    requires few { nodes ≤ 5000 }
    requires matching { (s : OneShortage) → IsShortageOf instance.now
        (units_taken instance.now pins.now) (positions_taken instance.now pins.now) s → ⊥ }
    ensures found { IfOk result (IsSearched instance.now pins.now nodes) }
    ensures never_worse { IfOk result
        (λ f. IfSome given.entry (λ p. f.walk.search.known.cost ≤ total_cost instance.now p.now)) }
{
    match find::<Grower>(alloc, instance, pins, given, nodes) {
        Ok(found) => Ok(found),
        Err(SolveError::NoMatching(_)) => unreachable!(),
        Err(SolveError::Recorder) => unreachable!(),
        Err(SolveError::Memory) => Err(AllocError),
    }
}

// Begins the certificate of what was found, in its version, and writes it node by node. It isn't stored yet.
fn write_found<S: Store>(
    alloc: Global,
    store: &mut S,
    instance: &Instance,
    pins: &[Block],
    nodes: u32,
    found: Found,
    certificate: &str,
) -> Result<Solved, StoreError>
    requires closed { S.stage store.old ≡ Closed }
    requires found { IsSearched instance.now pins.now nodes found }
    requires few { nodes ≤ 5000 }
    ensures found { IfOk result
        (IsFound instance.now pins.now nodes certificate.now (S.stage store.new)) }
    ensures in_range { IfOk result (λ s. IsPlanInRange instance.now s.plan) }
    ensures cost { IfOk result (λ s. s.cost ≡ s.plan.cost) }
    ensures cheaper { IfOk result (λ s. s.cost ≤ found.walk.search.known.cost) }
    ensures closed { OnErr result (S.stage store.new ≡ Closed) }
    ensures files { S.told store.new ≡ S.told store.old }
    ensures heard { S.heard store.new ≡ S.heard store.old }
    ensures stored { S.stored store.new ≡ S.stored store.old }
    ensures cause { HasCause StoreError.Fault (S.faults store.old) (S.faults store.new) result }
{
    let version = found.version();
    match begin_certificate(alloc, store, certificate, version) {
        Ok(()) => stream(alloc, store, instance, pins, nodes, found, certificate),
        Err(e) => Err(e),
    }
}

// Searches with at most so many nodes, and writes the certificate. It isn't stored yet.
fn search<S: Store>(
    alloc: Global,
    store: &mut S,
    instance: &Instance,
    pins: &[Block],
    given: Option<&[Block]>,
    nodes: u32,
    certificate: &str,
) -> Result<Solved, StoreError>
    requires closed { S.stage store.old ≡ Closed }
    requires usable { AreUsable instance.now pins.now }
    requires feasible { IfSome given (λ p. IsFeasible instance.now p.now) }
    requires keeps { IfSome given (λ p. KeepsPins p.now pins.now) }
    requires some { 1 ≤ nodes }
    requires few { nodes ≤ 5000 }
    requires matching { (s : OneShortage) → IsShortageOf instance.now
        (units_taken instance.now pins.now) (positions_taken instance.now pins.now) s → ⊥ }
    ensures found { IfOk result
        (IsFound instance.now pins.now nodes certificate.now (S.stage store.new)) }
    ensures in_range { IfOk result (λ s. IsPlanInRange instance.now s.plan) }
    ensures cost { IfOk result (λ s. s.cost ≡ s.plan.cost) }
    ensures never_worse { IfOk result
        (λ s. IfSome given.entry (λ p. s.cost ≤ total_cost instance.now p.now)) }
    ensures closed { OnErr result (S.stage store.new ≡ Closed) }
    ensures files { S.told store.new ≡ S.told store.old }
    ensures heard { S.heard store.new ≡ S.heard store.old }
    ensures stored { S.stored store.new ≡ S.stored store.old }
    ensures cause { HasCause StoreError.Fault (S.faults store.old) (S.faults store.new) result }
{
    match search_in_memory(alloc, instance, pins, given, nodes) {
        Ok(found) => write_found(alloc, store, instance, pins, nodes, found, certificate),
        Err(_) => Err(StoreError::Memory),
    }
}

// How a search ends that found this.
fn outcome_of_search(solved: &Solved) -> Outcome
    ensures { result ≡ search_outcome solved.now.cost solved.now.bound }
{
    if solved.bound == solved.cost {
        Outcome::Done
    } else {
        Outcome::Unfinished
    }
}

// What is left to be delivered behind the certificate of what was found.
fn found_answer(
    alloc: Global,
    instance: &Instance,
    solved: &Solved,
    plan: &str,
) -> Result<Answer, AllocError>
    requires { IsPlanInRange instance.now solved.now.plan }
    ensures { IfOk result
        (λ a. reply_of a ≡ record {
          outcome = search_outcome solved.now.cost solved.now.bound;
          writes = (plan.now, plan_file instance.now solved.now.plan) ∷ [];
          text = plan_of solved.now.plan solved.now.bound solved.now.nodes;
        }) }
{
    Ok(Answer {
        outcome: outcome_of_search(solved),
        writes: one_file(alloc, plan, write_plan(alloc, instance, &solved.plan)?)?,
        text: plan_text(alloc, &solved.plan, solved.bound, solved.nodes)?,
    })
}

/// What is left to be delivered of the plan that a search finds which keeps the pins, and costs no more than the one that is given. Its
/// certificate is stored when all else is at hand; where there is no answer no file is changed.
pub fn search_answer<S: Store>(
    alloc: Global,
    store: &mut S,
    instance: &Instance,
    pins: &[Block],
    given: Option<&[Block]>,
    nodes: u32,
    plan: &str,
    certificate: &str,
) -> Result<Answer, Halt>
    requires closed { S.stage store.old ≡ Closed }
    requires usable { AreUsable instance.now pins.now }
    requires feasible { IfSome given (λ p. IsFeasible instance.now p.now) }
    requires keeps { IfSome given (λ p. KeepsPins p.now pins.now) }
    requires some { 1 ≤ nodes }
    requires few { nodes ≤ 5000 }
    requires matching { (s : OneShortage) → IsShortageOf instance.now
        (units_taken instance.now pins.now) (positions_taken instance.now pins.now) s → ⊥ }
    ensures leads { LeavesOne (IsPlannedAt
        (λ cost. IfSome given.entry (λ p. cost ≤ total_cost instance.now p.now)) pins.now nodes
        plan.now certificate.now instance.now) (known (S.told store.old) (S.stored store.old))
        (known (S.told store.new) (S.stored store.new)) result }
    ensures heard { S.heard store.new ≡ S.heard store.old }
    ensures closed { S.stage store.new ≡ Closed }
    ensures cause { HasCause Halt.Fault (S.faults store.old) (S.faults store.new) result }
{
    let solved = match search(alloc, store, instance, pins, given, nodes, certificate) {
        Ok(solved) => solved,
        Err(StoreError::Fault) => return Err(Halt::Fault),
        Err(StoreError::Memory) => return Err(Halt::Memory),
    };
    match found_answer(alloc, instance, &solved, plan) {
        Ok(answer) => match store.close_file() {
            Ok(()) => Ok(answer),
            Err(StoreError::Fault) => Err(Halt::Fault),
            Err(StoreError::Memory) => Err(Halt::Memory),
        },
        Err(_) => {
            store.drop_file();
            Err(Halt::Memory)
        }
    }
}
