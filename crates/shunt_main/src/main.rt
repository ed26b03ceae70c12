//! The program: the words of the command line, the files of the current folder, and the standard output.
#![tactic(auto)]

ghost use Rattle.std.specs.Prelude.{◌≡◌, ◌↔◌, Option};
ghost use Rattle.shunt_store.specs.defs.Files.{Closed, Files as KnownFiles};
ghost use Rattle.shunt.specs.defs.Calls.{Call, texts};
ghost use Rattle.shunt.specs.defs.Words.{Spells};
ghost use Rattle.shunt.specs.defs.Ends.{AreKnown, seen, telling};
ghost use Rattle.shunt_main.specs.defs.Numbers.{number_of, EndsAs};

use shunt::{Status, run};
use shunt_store::{ConsoleSink, DiskStore, Sink, Store};
use std::alloc::{AllocError, Global};
use std::env::FillError;
use std::process::ExitCode;
use std::rt::Env;

// The words behind the program's name. One that isn't text becomes an empty word, which no command has.
fn words_of<R: Env>(rt: &R, alloc: Global) -> Result<Vec<String>, AllocError> {
    let mut words = Vec::new(alloc);
    for place in 1..usize::MAX {
        match word_at(rt, alloc, place)? {
            Some(word) => words.push(word)?,
            None => break,
        }
    }
    Ok(words)
}

// The word at a place, read into a buffer that grows until the word fits.
fn word_at<R: Env>(rt: &R, alloc: Global, place: usize) -> Result<Option<String>, AllocError> {
    let mut room = 256usize;
    for _ in 0..usize::BITS {
        let mut buffer = vec![in alloc; 0u8; room]?;
        match rt.arg(place, &mut buffer) {
            Ok(length) => {
                buffer.truncate(length);
                return Ok(Some(String::from_utf8(buffer).unwrap_or(String::new(alloc))));
            }
            Err(FillError::NotPresent) => return Ok(None),
            Err(FillError::TooLong) => room = room.saturating_add(room),
        }
    }
    Err(AllocError)
}

fn to_number(status: Status) -> u8
    ensures { result ≡ number_of status }
{
    match status {
        Status::Done => 0,
        Status::Findings => 1,
        Status::Words => 2,
        Status::Input => 3,
        Status::Store => 4,
        Status::Memory => 5,
        Status::NoMatching => 6,
        Status::Unfinished => 7,
        Status::Sink => 8,
    }
}

// Does what the words ask for over the files of the current folder and the standard output, and answers the number of how that ended.
fn run_here(
    alloc: Global,
    words: &Vec<String>,
    store: &mut DiskStore<'_, HostRuntime>,
    out: &mut ConsoleSink<'_, HostRuntime>,
) -> u8
    requires { ⟦<DiskStore<'static, HostRuntime> as Store>⟧.stage store.old ≡ Closed }
    ensures words { (result ≡ number_of Status.Words)
        ↔ ((c : Call) → Spells (texts words.now.items) c → ⊥) }
    ensures ends { (c : Call) → Spells (texts words.now.items) c
        → (before after : Option KnownFiles) → let D = ⟦<DiskStore<'static, HostRuntime> as Store>⟧
        in let O = ⟦<ConsoleSink<'static, HostRuntime> as Sink>⟧ in AreKnown
        (telling D.told D.heard D.stored store.old) (telling D.told D.heard D.stored store.new)
        before after → EndsAs c (seen before D.stored D.faults O.told O.faults store.old out.old)
        (seen after D.stored D.faults O.told O.faults store.new out.new) result }
{
    to_number(run(alloc, words, store, out))
}

fn main(rt: HostRuntime) -> ExitCode {
    let number = match words_of(&rt, rt.alloc()) {
        Ok(words) => {
            let mut store = DiskStore::for_words(&rt, &words);
            let mut out = ConsoleSink::new(&rt);
            run_here(rt.alloc(), &words, &mut store, &mut out)
        }
        Err(_) => to_number(Status::Memory),
    };
    ExitCode::from(number)
}
