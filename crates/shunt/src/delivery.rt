// Writing the files of an answer, and printing its text.
ghost use Rattle.std.specs.Prelude.{◌≡◌, ◌++◌, OnOk, OnErr, map};
ghost use Rattle.shunt_store.specs.defs.Files.{Closed, BothTold};
ghost use Rattle.shunt_store.specs.defs.Causes.{HasCause};
ghost use Rattle.shunt_inputs.specs.defs.Replies.{pair_of, reply_of};
ghost use Rattle.shunt_inputs.specs.defs.Writes.{written, known, WritesSome};
ghost use Rattle.shunt.specs.defs.Ends.{Delivers, the_status, seen};

use crate::status::Status;
use shunt_inputs::{Answer, FileText, Outcome};
use shunt_store::{Sink, SinkError, Store, StoreError, print, write_all_to};

// Writes the files one after the other.
fn write_files<S: Store>(store: &mut S, writes: &[FileText]) -> Result<(), StoreError>
    requires { S.stage store.old ≡ Closed }
    ensures ok { OnOk result (BothTold (S.told store.old) (S.told store.new)
        (λ a b. b ≡ written (map pair_of writes.now) a)) }
    ensures stored { OnOk result (BothTold (S.stored store.old) (S.stored store.new)
        (λ a b. b ≡ a ++ map pair_of writes.now)) }
    ensures err { OnErr result (WritesSome (map pair_of writes.now) (known (S.told store.old)
        (S.stored store.old)) (known (S.told store.new) (S.stored store.new))) }
    ensures heard { S.heard store.new ≡ S.heard store.old }
    ensures closed { S.stage store.new ≡ Closed }
    ensures cause { HasCause StoreError.Fault (S.faults store.old) (S.faults store.new) result }
{
    'files: for write in writes {
        write_all_to(store, write.name.as_str(), &write.bytes)?;
    }
    Ok(())
}

/// Writes the files of the answer, and then prints its text.
pub fn deliver<S: Store, O: Sink>(store: &mut S, out: &mut O, answer: &Answer) -> Status
    requires { S.stage store.old ≡ Closed }
    ensures ends { Delivers (reply_of answer.now)
        (seen (S.told store.old) S.stored S.faults O.told O.faults store.old out.old)
        (seen (S.told store.new) S.stored S.faults O.told O.faults store.new out.new) result }
    ensures heard { S.heard store.new ≡ S.heard store.old }
    ensures closed { S.stage store.new ≡ Closed }
{
    match write_files(store, &answer.writes) {
        Ok(()) => {}
        Err(StoreError::Fault) => return Status::Store,
        Err(StoreError::Memory) => return Status::Memory,
    }
    match print(out, &answer.text) {
        Ok(()) => status_of(answer.outcome),
        Err(SinkError::Fault) => Status::Sink,
        Err(SinkError::Memory) => Status::Memory,
    }
}

fn status_of(outcome: Outcome) -> Status
    ensures { result ≡ the_status outcome }
{
    match outcome {
        Outcome::Done => Status::Done,
        Outcome::Findings => Status::Findings,
        Outcome::Input => Status::Input,
        Outcome::NoMatching => Status::NoMatching,
        Outcome::Unfinished => Status::Unfinished,
    }
}
