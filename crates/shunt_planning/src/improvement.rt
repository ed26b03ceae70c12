// The answer of `improve`.
ghost use Rattle.std.specs.Prelude.{◌≡◌, ◌≤◌, [], ◌∷◌, IfOk, Option};
ghost use Rattle.shunt_store.specs.defs.Files.{Closed, Files};
ghost use Rattle.shunt_store.specs.defs.Causes.{HasCause};
ghost use Rattle.shunt_blocks.specs.defs.Lists.{AreInRange};
ghost use Rattle.shunt_blocks.specs.defs.Pins.{AreUsable};
ghost use Rattle.shunt_plan.specs.defs.Plans.{IsPlanInRange};
ghost use Rattle.shunt_report.specs.defs.PlanTexts.{lost_of};
ghost use Rattle.shunt_inputs.specs.declared.answers.Outcome.TheVariants as outcome;
ghost use Rattle.shunt_inputs.specs.defs.Names.{AreNames};
ghost use Rattle.shunt_inputs.specs.defs.Replies.{reply_of, says};
ghost use Rattle.shunt_inputs.specs.defs.Writes.{LeavesOne, known};
ghost use Rattle.shunt_inputs.specs.defs.Views.{HearsFirst, IsView};
ghost use Rattle.shunt_planning.specs.defs.Improved.{FitFaults, IsImproved, IsImprovedBeside};
ghost use Rattle.shunt_planning.specs.defs.Begun.{IsImprovedOver};

use crate::plan_search::search_answer;
use shunt_blocks::Block;
use shunt_inputs::{Answer, Halt, Inputs, Outcome, PinnedFiles, PlanFile, Then};
use shunt_instance::Instance;
use shunt_judging::{fault_answer, pins_answer};
use shunt_plan::{Plan, lost_pin};
use shunt_report::lost_text;
use shunt_search::laws::kept_matchings;
use shunt_store::Store;
use std::alloc::{AllocError, Global};

// The answer on a plan that doesn't keep this pin.
fn lost_answer(alloc: Global, id: u32) -> Result<Answer, AllocError>
    ensures { IfOk result (λ a. reply_of a ≡ says outcome.Findings (lost_of id)) }
{
    Ok(Answer {
        outcome: Outcome::Findings,
        writes: Vec::new(alloc),
        text: lost_text(alloc, id)?,
    })
}

// What is wrong with a plan in hand that has a finding, or that doesn't keep a pin.
fn unfit_answer(
    alloc: Global,
    instance: &Instance,
    pins: &[Block],
    plan: &Plan,
) -> Result<Option<Answer>, AllocError>
    requires { IsPlanInRange instance.now plan.now }
    ensures { IfOk result (FitFaults instance.now pins.now plan.now) }
{
    match fault_answer(alloc, instance, plan)? {
        Some(answer) => Ok(Some(answer)),
        None => match lost_pin(plan, pins) {
            Some(id) => Ok(Some(lost_answer(alloc, id)?)),
            None => Ok(None),
        },
    }
}

// The answer over usable pins: no file is touched where the plan in hand is unfit.
fn improved_beside<S: Store>(
    alloc: Global,
    store: &mut S,
    instance: &Instance,
    pins: &[Block],
    in_hand: &Plan,
    nodes: u32,
    plan: &str,
    certificate: &str,
) -> Result<Answer, Halt>
    requires closed { S.stage store.old ≡ Closed }
    requires usable { AreUsable instance.now pins.now }
    requires in_range { IsPlanInRange instance.now in_hand.now }
    requires some { 1 ≤ nodes }
    requires few { nodes ≤ 5000 }
    ensures leads { LeavesOne (IsImprovedBeside pins.now in_hand.now nodes plan.now certificate.now
        instance.now) (known (S.told store.old) (S.stored store.old))
        (known (S.told store.new) (S.stored store.new)) result }
    ensures heard { S.heard store.new ≡ S.heard store.old }
    ensures closed { S.stage store.new ≡ Closed }
    ensures cause { HasCause Halt.Fault (S.faults store.old) (S.faults store.new) result }
{
    match unfit_answer(alloc, instance, pins, in_hand) {
        Ok(Some(answer)) => Ok(answer),
        Ok(None) => {
            // The call tells that a plan that keeps the pins leaves no shortage.
            kept_matchings();
            let blocks = in_hand.blocks.as_slice();
            search_answer(
                alloc,
                store,
                instance,
                pins,
                Some(blocks),
                nodes,
                plan,
                certificate,
            )
        }
        Err(_) => Err(Halt::Memory),
    }
}

// The answer over pins and a plan in hand: no file is touched where the pins aren't usable.
fn improved_answer<S: Store>(
    alloc: Global,
    store: &mut S,
    instance: &Instance,
    pins: &[Block],
    in_hand: &Plan,
    nodes: u32,
    plan: &str,
    certificate: &str,
) -> Result<Answer, Halt>
    requires closed { S.stage store.old ≡ Closed }
    requires pins { AreInRange instance.now pins.now }
    requires in_range { IsPlanInRange instance.now in_hand.now }
    requires some { 1 ≤ nodes }
    requires few { nodes ≤ 5000 }
    ensures leads { LeavesOne (IsImproved nodes plan.now certificate.now
        (record { instance = instance.now; pins = pins.now }, in_hand.now))
        (known (S.told store.old) (S.stored store.old))
        (known (S.told store.new) (S.stored store.new)) result }
    ensures heard { S.heard store.new ≡ S.heard store.old }
    ensures closed { S.stage store.new ≡ Closed }
    ensures cause { HasCause Halt.Fault (S.faults store.old) (S.faults store.new) result }
{
    match pins_answer(alloc, instance, pins) {
        Ok(Some(answer)) => Ok(answer),
        Ok(None) => improved_beside(
            alloc,
            store,
            instance,
            pins,
            in_hand,
            nodes,
            plan,
            certificate,
        ),
        Err(_) => Err(Halt::Memory),
    }
}

/// What is left to be delivered of the answer of `improve`, behind its certificate, which is stored where the pins are usable and the plan
/// in hand is feasible, states its cost and keeps them. Where there is no answer no file is changed.
pub fn reply_to_improve<S: Store>(
    alloc: Global,
    store: &mut S,
    station: &str,
    timetable: &str,
    pins: &str,
    in_hand: &str,
    nodes: u32,
    plan: &str,
    certificate: &str,
) -> Result<Answer, Halt>
    requires closed { S.stage store.old ≡ Closed }
    requires some { 1 ≤ nodes }
    requires few { nodes ≤ 5000 }
    requires names { AreNames
        (station.now ∷ timetable.now ∷ pins.now ∷ in_hand.now ∷ plan.now ∷ certificate.now ∷ []) }
    ensures leads { (view : Option Files) → IsView (S.told store.old) (S.heard store.old)
        (S.heard store.new) view → LeavesOne (IsImprovedOver view station.now timetable.now pins.now
        in_hand.now nodes plan.now certificate.now) (known (S.told store.old) (S.stored store.old))
        (known (S.told store.new) (S.stored store.new)) result }
    ensures first { HearsFirst (station.now ∷ timetable.now ∷ pins.now ∷ in_hand.now ∷ [])
        (S.heard store.old) (S.heard store.new) }
    ensures closed { S.stage store.new ≡ Closed }
    ensures cause { HasCause Halt.Fault (S.faults store.old) (S.faults store.new) result }
{
    let files = Then(PinnedFiles(station, timetable, pins), PlanFile(in_hand));
    let (pinned, own) = files.load(alloc, store)?;
    let pins = pinned.pins.as_slice();
    improved_answer(
        alloc,
        store,
        &pinned.instance,
        pins,
        &own,
        nodes,
        plan,
        certificate,
    )
}
