// From the command to its answer.
ghost use Rattle.std.specs.Prelude.{◌≡◌, ◌<◌, Option};
ghost use Rattle.shunt_store.specs.defs.Files.{Closed, Files};
ghost use Rattle.shunt_store.specs.defs.Causes.{HasCause};
ghost use Rattle.shunt_inputs.specs.defs.Writes.{LeavesOne, known};
ghost use Rattle.shunt_inputs.specs.defs.Views.{HearsFirst, IsView};
ghost use Rattle.shunt.specs.defs.Calls.{call_of};
ghost use Rattle.shunt.specs.defs.Words.{inputs_of, IsUsable};
ghost use Rattle.shunt.specs.defs.Replies.{IsReplyOver};

use crate::words::Command;
use shunt_base::Minute;
use shunt_dispatch::{
    CompareCommand, DelayCommand, FollowCommand, RestFiles, ResumeCommand, SheetCommand,
};
use shunt_drawing::{DrawCommand, PageCommand};
use shunt_exchange::{ReportCommand, TrainFiles, UpgradeCommand};
use shunt_inputs::{
    Answer, CertificateFile, CrewFile, EditsFile, Halt, NightFiles, OtherFile, PinnedFiles,
    PlanFile, RosterFile, SheetFile, StationFile, Then, ZonesFile, reply,
};
use shunt_judging::{AuditCommand, CheckCommand, CheckPinnedCommand, ReplayCommand};
use shunt_planning::{MatchCommand, reply_to_improve, reply_to_pinned, reply_to_plan};
use shunt_store::Store;
use shunt_throat::{DriversCommand, RosterCommand, ZonesCommand};
use shunt_trial::reply_to_trial;
use std::alloc::Global;

// The minute with a number.
fn minute_of(number: u16) -> Minute
    requires { number < 2880 }
    ensures { result ≡ number }
{
    match Minute::new(number) {
        Some(minute) => minute,
        None => unreachable!(),
    }
}

/// What is to be delivered of the answer of a command, after its input files were read and judged: all of it, but that a certificate is
/// stored before. If there is no answer, no file is changed.
pub fn answer_to<S: Store>(
    alloc: Global,
    store: &mut S,
    command: Command<'_>,
) -> Result<Answer, Halt>
    requires closed { S.stage store.old ≡ Closed }
    requires names { IsUsable (call_of command) }
    ensures leads { (view : Option Files)
        → IsView (S.told store.old) (S.heard store.old) (S.heard store.new) view → LeavesOne
        (IsReplyOver (call_of command.entry) view) (known (S.told store.old) (S.stored store.old))
        (known (S.told store.new) (S.stored store.new)) result }
    ensures first { HearsFirst (inputs_of (call_of command.entry)) (S.heard store.old)
        (S.heard store.new) }
    ensures closed { S.stage store.new ≡ Closed }
    ensures cause { HasCause Halt.Fault (S.faults store.old) (S.faults store.new) result }
{
    match command {
        Command::Match(station, timetable) => {
            reply(alloc, store, &NightFiles(station, timetable), &MatchCommand)
        }
        Command::Follow(station, sheet) => {
            let inputs = Then(StationFile(station), SheetFile(sheet));
            reply(alloc, store, &inputs, &FollowCommand)
        }
        Command::Audit(station, timetable, plan) => {
            let inputs = Then(NightFiles(station, timetable), PlanFile(plan));
            reply(alloc, store, &inputs, &AuditCommand)
        }
        Command::Delay(station, timetable, plan) => {
            let inputs = Then(NightFiles(station, timetable), PlanFile(plan));
            reply(alloc, store, &inputs, &DelayCommand)
        }
        Command::Report(station, timetable, plan) => {
            let inputs = Then(NightFiles(station, timetable), PlanFile(plan));
            reply(alloc, store, &inputs, &ReportCommand)
        }
        Command::Check(station, timetable, plan, certificate) => {
            let inputs = Then(NightFiles(station, timetable), PlanFile(plan));
            let inputs = Then(inputs, CertificateFile(certificate));
            reply(alloc, store, &inputs, &CheckCommand)
        }
        Command::Compare(station, timetable, plan, other) => {
            let inputs = Then(NightFiles(station, timetable), PlanFile(plan));
            reply(
                alloc,
                store,
                &Then(inputs, OtherFile(other)),
                &CompareCommand,
            )
        }
        Command::Zones(station, timetable, plan, zones) => {
            let inputs = Then(NightFiles(station, timetable), PlanFile(plan));
            reply(alloc, store, &Then(inputs, ZonesFile(zones)), &ZonesCommand)
        }
        Command::Sheet(station, timetable, plan, sheet) => {
            let inputs = Then(NightFiles(station, timetable), PlanFile(plan));
            reply(alloc, store, &inputs, &SheetCommand(sheet))
        }
        Command::Draw(station, timetable, plan, picture) => {
            let inputs = Then(NightFiles(station, timetable), PlanFile(plan));
            reply(alloc, store, &inputs, &DrawCommand(picture))
        }
        Command::Page(station, timetable, plan, page) => {
            let inputs = Then(NightFiles(station, timetable), PlanFile(plan));
            reply(alloc, store, &inputs, &PageCommand(page))
        }
        Command::Upgrade(station, timetable, new_station, new_timetable) => {
            let inputs = TrainFiles(station, timetable);
            reply(
                alloc,
                store,
                &inputs,
                &UpgradeCommand(new_station, new_timetable),
            )
        }
        Command::Trial(number, units, nodes, first, second, plan, certificate) => {
            Ok(reply_to_trial(
                alloc,
                number,
                units,
                nodes,
                first,
                second,
                plan,
                certificate,
            )?)
        }
        Command::Drivers(station, timetable, plan, crew, roster) => {
            let inputs = Then(NightFiles(station, timetable), PlanFile(plan));
            reply(
                alloc,
                store,
                &Then(inputs, CrewFile(crew)),
                &DriversCommand(roster),
            )
        }
        Command::Roster(station, timetable, plan, crew, roster) => {
            let inputs = Then(NightFiles(station, timetable), PlanFile(plan));
            let inputs = Then(Then(inputs, CrewFile(crew)), RosterFile(roster));
            reply(alloc, store, &inputs, &RosterCommand)
        }
        Command::CheckPinned(station, timetable, pins, plan, certificate) => {
            let inputs = Then(PinnedFiles(station, timetable, pins), PlanFile(plan));
            let inputs = Then(inputs, CertificateFile(certificate));
            reply(alloc, store, &inputs, &CheckPinnedCommand)
        }
        Command::Replay(station, timetable, plan, edits, new_plan) => {
            let inputs = Then(NightFiles(station, timetable), PlanFile(plan));
            reply(
                alloc,
                store,
                &Then(inputs, EditsFile(edits)),
                &ReplayCommand(new_plan),
            )
        }
        Command::Resume(station, timetable, plan, minute, new_timetable, new_pins) => {
            let inputs = RestFiles(station, timetable, plan);
            reply(
                alloc,
                store,
                &inputs,
                &ResumeCommand(minute_of(minute), new_timetable, new_pins),
            )
        }
        Command::MakePlan(station, timetable, nodes, plan, certificate) => {
            reply_to_plan(alloc, store, station, timetable, nodes, plan, certificate)
        }
        Command::MakePinned(first, second, pins, nodes, plan, certificate) => {
            reply_to_pinned(alloc, store, first, second, pins, nodes, plan, certificate)
        }
        Command::Improve(first, second, pins, in_hand, nodes, plan, certificate) => {
            reply_to_improve(
                alloc,
                store,
                first,
                second,
                pins,
                in_hand,
                nodes,
                plan,
                certificate,
            )
        }
    }
}
