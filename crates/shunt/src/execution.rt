// The whole run.
ghost use Rattle.std.specs.Prelude.{◌≡◌, ◌↔◌, Option};
ghost use Rattle.shunt_store.specs.defs.Files.{Closed, Files};
ghost use Rattle.shunt_inputs.specs.defs.Views.{HearsFirst};
ghost use Rattle.shunt.specs.defs.Calls.{Call, texts, call_of};
ghost use Rattle.shunt.specs.defs.Words.{IsUsable, Spells, inputs_of};
ghost use Rattle.shunt.specs.defs.Ends.{AreKnown, Ends, seen, telling};
ghost use Rattle.shunt_inputs.specs.defs.Replies.{reply_of, refusal};

use crate::delivery::deliver;
use crate::replies::answer_to;
use crate::status::Status;
use crate::words::{Command, command_of};
use shunt_inputs::{Answer, Halt, Outcome};
use shunt_store::{Sink, Store};
use std::alloc::Global;

/// Does what the words ask for: reads and judges the input files in the order of the words, writes the files of the
/// answer, and then prints its text.
///
/// The words are those behind the program's name. They spell `match STATION TIMETABLE`, `follow STATION SHEET`,
/// `audit STATION TIMETABLE PLAN`, `delay STATION TIMETABLE PLAN`, `report STATION TIMETABLE PLAN`, `check STATION TIMETABLE PLAN CERT`,
/// `check-pinned STATION TIMETABLE PINS PLAN CERT`, `zones STATION TIMETABLE PLAN ZONES`, `sheet STATION TIMETABLE PLAN SHEET`,
/// `draw STATION TIMETABLE PLAN PICTURE`, `page STATION TIMETABLE PLAN PAGE`, `drivers STATION TIMETABLE PLAN CREW ROSTER`,
/// `roster STATION TIMETABLE PLAN CREW ROSTER`, `replay STATION TIMETABLE PLAN EDITS NEWPLAN`,
/// `resume STATION TIMETABLE PLAN MINUTE NEWTIMETABLE NEWPINS`, `plan STATION TIMETABLE NODES PLAN CERT`,
/// `pinned STATION TIMETABLE PINS NODES PLAN CERT`, `improve STATION TIMETABLE PINS PLAN NODES NEWPLAN CERT`,
/// `upgrade STATION TIMETABLE NEWSTATION NEWTIMETABLE` or `trial NUMBER UNITS NODES STATION TIMETABLE PLAN CERT`, where the files have names
/// that differ and aren't empty, MINUTE is spelled as in files, NODES is a number from 1 to 5,000, NUMBER one up to 2,147,483,647 and UNITS one up to 160, or the answer is
/// `Words` and nothing is read, written or printed.
/// The certificate of `plan`, `pinned` and `improve` is written while it is found, and stored before the other file. A file is replaced
/// whole or not at all: after `Store` and `Memory` the first of the files of the answer hold their texts, and the others what they held.
/// `Store` comes only if the store failed in this call and `Sink` only if the sink did; `Memory` may come in place
/// of any answer but `Words`. Each other status is that of the defined answer, all of which then was written and printed.
/// The defined answer is the one over the files that the store tells. A store that doesn't, as that of the real folder, tells what was read
/// of them: then it is the one over all contents that agree with what was read, name by name, and what was stored are its files. The
/// names that were read are the first of the input files, in the order of the words, each once.
pub fn run<S: Store, O: Sink>(
    alloc: Global,
    words: &Vec<String>,
    store: &mut S,
    out: &mut O,
) -> Status
    requires { S.stage store.old ≡ Closed }
    ensures words { (result ≡ Status.Words) ↔ ((c : Call) → Spells (texts words.now.items) c → ⊥) }
    ensures nothing { result ≡ Status.Words → (store.new ≡ store.old) × (out.new ≡ out.old) }
    ensures ends { (c : Call) → Spells (texts words.now.items) c → (before after : Option Files)
        → AreKnown (telling S.told S.heard S.stored store.old)
        (telling S.told S.heard S.stored store.new) before after
        → Ends c (seen before S.stored S.faults O.told O.faults store.old out.old)
        (seen after S.stored S.faults O.told O.faults store.new out.new) result }
    ensures heard { (c : Call) → Spells (texts words.now.items) c
        → HearsFirst (inputs_of c) (S.heard store.old) (S.heard store.new) }
    ensures closed { S.stage store.new ≡ Closed }
{
    match command_of(words) {
        Some(command) => carry_out(alloc, command, store, out),
        None => Status::Words,
    }
}

fn carry_out<S: Store, O: Sink>(
    alloc: Global,
    command: Command<'_>,
    store: &mut S,
    out: &mut O,
) -> Status
    requires closed { S.stage store.old ≡ Closed }
    requires names { IsUsable (call_of command) }
    ensures not_words { result ≡ Status.Words → ⊥ }
    ensures ends { (before after : Option Files)
        → AreKnown (telling S.told S.heard S.stored store.old)
        (telling S.told S.heard S.stored store.new) before after → Ends (call_of command.entry)
        (seen before S.stored S.faults O.told O.faults store.old out.old)
        (seen after S.stored S.faults O.told O.faults store.new out.new) result }
    ensures heard { HearsFirst (inputs_of (call_of command.entry)) (S.heard store.old)
        (S.heard store.new) }
    ensures closed { S.stage store.new ≡ Closed }
{
    match answer_to(alloc, store, command) {
        Ok(answer) => deliver(store, out, &answer),
        Err(Halt::Input(text)) => deliver(store, out, &refused(alloc, text)),
        Err(Halt::Fault) => Status::Store,
        Err(Halt::Memory) => Status::Memory,
    }
}

fn refused(alloc: Global, text: Vec<u8>) -> Answer
    ensures { reply_of result ≡ refusal text.items }
{
    Answer {
        outcome: Outcome::Input,
        writes: Vec::new(alloc),
        text,
    }
}
