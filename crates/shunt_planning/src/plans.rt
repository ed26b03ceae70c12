// The answers of `plan` and of `pinned`.
ghost use Rattle.std.specs.Prelude.{◌≡◌, ◌≤◌, [], ◌∷◌, length, IfOk, Option};
ghost use Rattle.shunt_store.specs.defs.Files.{Closed, Files};
ghost use Rattle.shunt_store.specs.defs.Causes.{HasCause};
ghost use Rattle.shunt_instance.specs.defs.Instance.{unit_total, position_total};
ghost use Rattle.shunt_blocks.specs.defs.Lists.{AreInRange, units_taken, positions_taken};
ghost use Rattle.shunt_blocks.specs.defs.Pins.{AreUsable};
ghost use Rattle.shunt_matching.specs.defs.Nights.{HasItsType};
ghost use Rattle.shunt_report.specs.defs.Texts.{shortage_of};
ghost use Rattle.shunt_inputs.specs.declared.answers.Outcome.TheVariants as outcome;
ghost use Rattle.shunt_inputs.specs.defs.Names.{AreNames};
ghost use Rattle.shunt_inputs.specs.defs.Replies.{reply_of, says};
ghost use Rattle.shunt_inputs.specs.defs.Writes.{LeavesOne, known};
ghost use Rattle.shunt_inputs.specs.defs.Views.{HearsFirst, IsView};
ghost use Rattle.shunt_planning.specs.defs.Planned.{IsPinned, IsSought, IsSoughtBeside, Lacks};
ghost use Rattle.shunt_planning.specs.defs.Begun.{IsPinnedOver, IsPlannedOver};

use crate::plan_search::search_answer;
use shunt_blocks::Block;
use shunt_choices::{Covered, Path};
use shunt_inputs::{Answer, Halt, Inputs, NightFiles, Outcome, PinnedFiles};
use shunt_instance::Instance;
use shunt_judging::pins_answer;
use shunt_matching::laws::{masks_alike, one_shortage};
use shunt_matching::types::Shortage;
use shunt_matching::{shortage, shortage_rest};
use shunt_report::shortage_text;
use shunt_store::Store;
use std::alloc::{AllocError, Global};

// The answer where no matching exists.
fn shortage_answer(
    alloc: Global,
    instance: &Instance,
    shortage: &Shortage,
) -> Result<Answer, AllocError>
    requires { HasItsType instance.now shortage.now }
    ensures { IfOk result
        (λ a. reply_of a ≡ says outcome.NoMatching (shortage_of instance.now shortage.now)) }
{
    Ok(Answer {
        outcome: Outcome::NoMatching,
        writes: Vec::new(alloc),
        text: shortage_text(alloc, instance, shortage)?,
    })
}

// The answer over usable pins, where the shortage of the rest is known: no file is touched where there is one.
fn sought_answer<S: Store>(
    alloc: Global,
    store: &mut S,
    instance: &Instance,
    pins: &[Block],
    short: Option<Shortage>,
    nodes: u32,
    plan: &str,
    certificate: &str,
) -> Result<Answer, Halt>
    requires closed { S.stage store.old ≡ Closed }
    requires usable { AreUsable instance.now pins.now }
    requires lacks { Lacks instance.now (units_taken instance.now pins.now)
        (positions_taken instance.now pins.now) short }
    requires some { 1 ≤ nodes }
    requires few { nodes ≤ 5000 }
    ensures leads { LeavesOne (IsSoughtBeside pins.now nodes plan.now certificate.now instance.now)
        (known (S.told store.old) (S.stored store.old))
        (known (S.told store.new) (S.stored store.new)) result }
    ensures heard { S.heard store.new ≡ S.heard store.old }
    ensures closed { S.stage store.new ≡ Closed }
    ensures cause { HasCause Halt.Fault (S.faults store.old) (S.faults store.new) result }
{
    match short {
        Some(short) => match shortage_answer(alloc, instance, &short) {
            Ok(answer) => Ok(answer),
            Err(_) => Err(Halt::Memory),
        },
        None => {
            // The call tells that there is no shortage where a matching exists.
            one_shortage();
            search_answer(alloc, store, instance, pins, None, nodes, plan, certificate)
        }
    }
}

// The answer for a night without pins.
fn night_answer<S: Store>(
    alloc: Global,
    store: &mut S,
    instance: &Instance,
    nodes: u32,
    plan: &str,
    certificate: &str,
) -> Result<Answer, Halt>
    requires closed { S.stage store.old ≡ Closed }
    requires some { 1 ≤ nodes }
    requires few { nodes ≤ 5000 }
    ensures leads { LeavesOne (IsSought nodes plan.now certificate.now instance.now)
        (known (S.told store.old) (S.stored store.old))
        (known (S.told store.new) (S.stored store.new)) result }
    ensures heard { S.heard store.new ≡ S.heard store.old }
    ensures closed { S.stage store.new ≡ Closed }
    ensures cause { HasCause Halt.Fault (S.faults store.old) (S.faults store.new) result }
{
    // The call tells that masks of no pins leave out nothing.
    masks_alike();
    let short = lacking(instance);
    sought_answer(alloc, store, instance, &[], short, nodes, plan, certificate)
}

// Why no matching exists.
fn lacking(instance: &Instance) -> Option<Shortage>
    ensures { Lacks instance.now [] [] result }
{
    shortage(instance)
}

// Why no matching exists of what isn't covered.
fn lacking_rest(instance: &Instance, covered: &Covered) -> Option<Shortage>
    requires units { length covered.now.units ≡ unit_total instance.now }
    requires places { length covered.now.places ≡ position_total instance.now }
    ensures { Lacks instance.now covered.now.units covered.now.places result }
{
    shortage_rest(instance, covered.units(), covered.places())
}

// Why no matching exists of what usable pins leave.
fn lacking_beside(
    alloc: Global,
    instance: &Instance,
    pins: &[Block],
) -> Result<Option<Shortage>, AllocError>
    requires { AreUsable instance.now pins.now }
    ensures { IfOk result (Lacks instance.now (units_taken instance.now pins.now)
        (positions_taken instance.now pins.now)) }
{
    // The call tells that the pins in another order leave the same.
    masks_alike();
    let path = Path::start_with(alloc, instance, pins)?;
    Ok(lacking_rest(instance, path.covered()))
}

// The answer over usable pins.
fn usable_answer<S: Store>(
    alloc: Global,
    store: &mut S,
    instance: &Instance,
    pins: &[Block],
    nodes: u32,
    plan: &str,
    certificate: &str,
) -> Result<Answer, Halt>
    requires closed { S.stage store.old ≡ Closed }
    requires usable { AreUsable instance.now pins.now }
    requires some { 1 ≤ nodes }
    requires few { nodes ≤ 5000 }
    ensures leads { LeavesOne (IsSoughtBeside pins.now nodes plan.now certificate.now instance.now)
        (known (S.told store.old) (S.stored store.old))
        (known (S.told store.new) (S.stored store.new)) result }
    ensures heard { S.heard store.new ≡ S.heard store.old }
    ensures closed { S.stage store.new ≡ Closed }
    ensures cause { HasCause Halt.Fault (S.faults store.old) (S.faults store.new) result }
{
    match lacking_beside(alloc, instance, pins) {
        Ok(short) => sought_answer(
            alloc,
            store,
            instance,
            pins,
            short,
            nodes,
            plan,
            certificate,
        ),
        Err(_) => Err(Halt::Memory),
    }
}

// The answer over pins: no file is touched where they aren't usable.
fn pinned_answer<S: Store>(
    alloc: Global,
    store: &mut S,
    instance: &Instance,
    pins: &[Block],
    nodes: u32,
    plan: &str,
    certificate: &str,
) -> Result<Answer, Halt>
    requires closed { S.stage store.old ≡ Closed }
    requires in_range { AreInRange instance.now pins.now }
    requires some { 1 ≤ nodes }
    requires few { nodes ≤ 5000 }
    ensures leads { LeavesOne (IsPinned nodes plan.now certificate.now
        (record { instance = instance.now; pins = pins.now })) (known (S.told store.old)
        (S.stored store.old)) (known (S.told store.new) (S.stored store.new)) result }
    ensures heard { S.heard store.new ≡ S.heard store.old }
    ensures closed { S.stage store.new ≡ Closed }
    ensures cause { HasCause Halt.Fault (S.faults store.old) (S.faults store.new) result }
{
    match pins_answer(alloc, instance, pins) {
        Ok(Some(answer)) => Ok(answer),
        Ok(None) => usable_answer(alloc, store, instance, pins, nodes, plan, certificate),
        Err(_) => Err(Halt::Memory),
    }
}

/// What is left to be delivered of the answer of `plan`, behind its certificate, which is stored where one is found. Where there is no
/// answer no file is changed.
pub fn reply_to_plan<S: Store>(
    alloc: Global,
    store: &mut S,
    station: &str,
    timetable: &str,
    nodes: u32,
    plan: &str,
    certificate: &str,
) -> Result<Answer, Halt>
    requires closed { S.stage store.old ≡ Closed }
    requires some { 1 ≤ nodes }
    requires few { nodes ≤ 5000 }
    requires names { AreNames (station.now ∷ timetable.now ∷ plan.now ∷ certificate.now ∷ []) }
    ensures leads { (view : Option Files)
        → IsView (S.told store.old) (S.heard store.old) (S.heard store.new) view
        → LeavesOne (IsPlannedOver view station.now timetable.now nodes plan.now certificate.now)
        (known (S.told store.old) (S.stored store.old))
        (known (S.told store.new) (S.stored store.new)) result }
    ensures first { HearsFirst (station.now ∷ timetable.now ∷ []) (S.heard store.old)
        (S.heard store.new) }
    ensures closed { S.stage store.new ≡ Closed }
    ensures cause { HasCause Halt.Fault (S.faults store.old) (S.faults store.new) result }
{
    let instance = NightFiles(station, timetable).load(alloc, store)?;
    night_answer(alloc, store, &instance, nodes, plan, certificate)
}

/// What is left to be delivered of the answer of `pinned`, behind its certificate, which is stored where the pins are usable and one is
/// found. Where there is no answer no file is changed.
pub fn reply_to_pinned<S: Store>(
    alloc: Global,
    store: &mut S,
    station: &str,
    timetable: &str,
    pins: &str,
    nodes: u32,
    plan: &str,
    certificate: &str,
) -> Result<Answer, Halt>
    requires closed { S.stage store.old ≡ Closed }
    requires some { 1 ≤ nodes }
    requires few { nodes ≤ 5000 }
    requires names { AreNames
        (station.now ∷ timetable.now ∷ pins.now ∷ plan.now ∷ certificate.now ∷ []) }
    ensures leads { (view : Option Files)
        → IsView (S.told store.old) (S.heard store.old) (S.heard store.new) view → LeavesOne
        (IsPinnedOver view station.now timetable.now pins.now nodes plan.now certificate.now)
        (known (S.told store.old) (S.stored store.old))
        (known (S.told store.new) (S.stored store.new)) result }
    ensures first { HearsFirst (station.now ∷ timetable.now ∷ pins.now ∷ []) (S.heard store.old)
        (S.heard store.new) }
    ensures closed { S.stage store.new ≡ Closed }
    ensures cause { HasCause Halt.Fault (S.faults store.old) (S.faults store.new) result }
{
    let pinned = PinnedFiles(station, timetable, pins).load(alloc, store)?;
    let pins = pinned.pins.as_slice();
    pinned_answer(
        alloc,
        store,
        &pinned.instance,
        pins,
        nodes,
        plan,
        certificate,
    )
}
