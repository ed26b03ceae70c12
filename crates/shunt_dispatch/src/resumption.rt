// The answer of `resume`.
ghost use Rattle.std.specs.Prelude.{◌≡◌, ◌≤◌, [], ◌∷◌, All, get_or, length, IfOk};
ghost use Rattle.shunt_audit.specs.defs.Plans.{ArePlanFindings};
ghost use Rattle.shunt_blocks.specs.defs.Lists.{IsFeasible};
ghost use Rattle.shunt_instance.specs.defs.Instance.{night_of};
ghost use Rattle.shunt_instance.specs.defs.Wellformed.{IsStation, IsTimetable};
ghost use Rattle.shunt_plan.specs.defs.Plans.{IsPlanInRange};
ghost use Rattle.shunt_plan.specs.defs.PlanFormat.{plan_format};
ghost use Rattle.shunt_rows.specs.declared.words.FileWord.TheVariants as words;
ghost use Rattle.shunt_rows.specs.defs.Formats.{reading};
ghost use Rattle.shunt_inputs.specs.defs.Inputs.{stated_by, stated_whole};
ghost use Rattle.shunt_inputs.specs.defs.ReadFiles.{stated_over};
ghost use Rattle.shunt_resume.specs.defs.Resumed.{tally_of};
ghost use Rattle.shunt_report.specs.defs.ResumedTexts.{resumed_of};
ghost use Rattle.shunt_inputs.specs.defs.Replies.{reply_of};
ghost use Rattle.shunt_dispatch.specs.defs.Resumed.{HasRest, IsResumed};

use shunt_base::Minute;
use shunt_blocks::Block;
use shunt_inputs::{
    Answer, Halt, Inputs, Outcome, PlanFile, Question, Then, WholeNight, WholeNightFiles,
    file_text, two_files,
};
use shunt_instance::Timetable;
use shunt_judging::fault_answer;
use shunt_plan::{Plan, write_pins};
use shunt_report::resumed_text;
use shunt_resume::laws::resumed_timetables;
use shunt_resume::{gone, resumed, tally};
use shunt_store::Store;
use shunt_timetable::write_timetable;
use std::alloc::{AllocError, Global};

/// The files of a night, of which the timetable is wanted as it is, and of a plan in it, by their names.
#[derive(Clone, Copy, Drop)]
pub struct RestFiles<'n>(pub &'n str, pub &'n str, pub &'n str);

impl Inputs for RestFiles<'_> {
    type Value = (WholeNight, Plan);

    ghost inputs = { λ f. (words.Station, f.0.now) ∷ (words.Timetable, f.1.now)
        ∷ (words.Plan, f.2.now) ∷ [] };

    ghost states = { λ _ texts. stated_over 2
        (λ first. stated_whole (get_or first 0 []) (get_or first 1 []))
        (λ x. stated_by words.Plan (λ rows. reading (plan_format x.instance) rows)) texts };

    ghost formed = { λ x. (IsStation x.0.instance.station
        × IsTimetable x.0.instance.station x.0.timetable
        × (x.0.instance ≡ night_of x.0.instance.station x.0.timetable))
        × IsPlanInRange x.0.instance x.1 };

    fn load<S: Store>(&self, alloc: Global, store: &mut S) -> Result<(WholeNight, Plan), Halt> {
        Then(WholeNightFiles(self.0, self.1), PlanFile(self.2)).load(alloc, store)
    }
}

/// The question of `resume`, by the minute and by the names of the new timetable and of the pins: what a plan leaves of a night from that
/// minute on, or what is wrong with the plan.
#[derive(Clone, Copy, Drop)]
pub struct ResumeCommand<'n>(pub Minute, pub &'n str, pub &'n str);

// The line of the rest of a night: how many runs of its timetable stand and were cleared away, and how many blocks have gone.
fn rest_text(
    alloc: Global,
    minute: Minute,
    timetable: &Timetable,
    pins: &[Block],
) -> Result<Vec<u8>, AllocError>
    requires few { length timetable.now.arrive ≤ 100 }
    requires runs { All (λ t. length t.placed ≤ 8) timetable.now.arrive }
    ensures { IfOk result (λ v. v.items ≡ resumed_of minute (tally_of timetable.now).parked
        (tally_of timetable.now).cleared (length pins.now)) }
{
    let come = tally(timetable);
    resumed_text(alloc, minute, come.parked, come.cleared, pins.len() as u64)
}

// The rest of the night of a plan without findings.
fn rest_answer(
    alloc: Global,
    question: &ResumeCommand,
    night: &WholeNight,
    plan: &Plan,
) -> Result<Answer, AllocError>
    requires station { IsStation night.now.instance.station }
    requires timetable { IsTimetable night.now.instance.station night.now.timetable }
    requires night { night.now.instance ≡ night_of night.now.instance.station night.now.timetable }
    requires in_range { IsPlanInRange night.now.instance plan.now }
    requires none { ArePlanFindings night.now.instance plan.now [] }
    requires feasible { IsFeasible night.now.instance plan.now.blocks }
    ensures { IfOk result (λ a. HasRest question.now.0 question.now.1.now question.now.2.now
        (record { timetable = night.now.timetable; night = night.now.instance; plan = plan.now })
        (reply_of a)) }
{
    resumed_timetables();
    let instance = &night.instance;
    let ResumeCommand(minute, new_timetable, new_pins) = *question;
    let blocks = plan.blocks.as_slice();
    let next = resumed(alloc, instance, minute, blocks, &night.timetable)?;
    let left = gone(alloc, instance, minute, blocks)?;
    let pins = left.as_slice();
    let written = write_timetable(alloc, instance.station(), &next)?;
    let first = file_text(alloc, new_timetable, written)?;
    let second = file_text(alloc, new_pins, write_pins(alloc, instance, pins)?)?;
    Ok(Answer {
        outcome: Outcome::Done,
        writes: two_files(alloc, first, second)?,
        text: rest_text(alloc, minute, &next, pins)?,
    })
}

impl<'n> Question<RestFiles<'n>> for ResumeCommand<'_> {
    ghost answers = { λ q x. IsResumed q.0 q.1.now q.2.now
        (record { timetable = x.0.timetable; night = x.0.instance; plan = x.1 }) };

    fn answer(&self, alloc: Global, value: (WholeNight, Plan)) -> Result<Answer, AllocError>
        requires night { IsStation value.0.instance.station
            × IsTimetable value.0.instance.station value.0.timetable
            × (value.0.instance ≡ night_of value.0.instance.station value.0.timetable) }
        requires plan { IsPlanInRange value.0.instance value.1 }
        ensures { IfOk result (λ a. IsResumed self.now.0 self.now.1.now self.now.2.now
            (record { timetable = value.0.timetable; night = value.0.instance; plan = value.1 })
            (reply_of a)) }
    {
        let (night, plan) = value;
        match fault_answer(alloc, &night.instance, &plan)? {
            Some(answer) => Ok(answer),
            None => rest_answer(alloc, self, &night, &plan),
        }
    }
}
