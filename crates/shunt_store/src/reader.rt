// Reading a file whole.
ghost use Rattle.std.specs.Prelude.{◌≡◌, ◌≢◌, ◌⊎◌, ◌+◌, ◌-◌, ◌^◌, ◌<◌, ◌≤◌, [], ◌∷◌, ◌++◌, length};
ghost use Rattle.std.specs.Prelude.{take, IfOk, OnOk, OnErr, IfSome, IsErrOf, Err};
ghost use Rattle.shunt_store.specs.defs.Files.{Files, Closed, Reading, IsReading, content, name_of};
ghost use Rattle.shunt_store.specs.defs.Files.{AreFirst, BothTold};
ghost use Rattle.shunt_store.specs.defs.Notes.{add_last, AddsLast, AddsBytes, AddsSome};
ghost use Rattle.shunt_store.specs.defs.Causes.{Rose, RoseBy};

use crate::errors::{ReadAllError, StoreError};
use crate::traits::Store;
use std::alloc::{AllocError, Global};

const PIECE: u64 = 4096;

// Reads the open file from its first byte to its end.
fn read_open<S: Store>(alloc: Global, store: &mut S, limit: u64) -> Result<Vec<u8>, ReadAllError>
    requires reading { IsReading (S.stage store.old) }
    requires start { S.taken store.old ≡ 0 }
    requires limit { limit < 2 ^ 64 - 1 }
    ensures short { IfOk result (λ v. length v.items ≤ limit) }
    ensures taken { IfOk result (λ v. S.taken store.new ≡ length v.items) }
    ensures bytes { IfOk result (λ v. IfSome (S.told store.old)
        (λ files. v.items ≡ content files (name_of (S.stage store.old)))) }
    ensures long { IsErrOf result ReadAllError.TooLong → S.taken store.new ≡ limit + 1 }
    ensures longer { IsErrOf result ReadAllError.TooLong → IfSome (S.told store.old)
        (λ files. limit < length (content files (name_of (S.stage store.old)))) }
    ensures long_here { IsErrOf result ReadAllError.TooLong
        → RoseBy (limit + 1) (S.handed store.old) (S.handed store.new) }
    ensures most { S.taken store.new ≤ limit + 1 }
    ensures most_here { S.handed store.new ≤ S.handed store.old + (limit + 1) }
    ensures stage { S.stage store.new ≡ S.stage store.old }
    ensures files { S.told store.new ≡ S.told store.old }
    ensures heard { IfOk result (λ v. BothTold (S.heard store.old) (S.heard store.new)
        (λ old new. new ≡ add_last v.items old)) }
    ensures long_heard { IsErrOf result ReadAllError.TooLong
        → BothTold (S.heard store.old) (S.heard store.new)
        (AddsLast (AreFirst (S.told store.old) (name_of (S.stage store.old)) (limit + 1))) }
    ensures some_heard { BothTold (S.heard store.old) (S.heard store.new)
        (AddsLast (λ _. Unit {0})) }
    ensures stored { S.stored store.new ≡ S.stored store.old }
    ensures later { S.faults store.old ≤ S.faults store.new }
    ensures fault { IsErrOf result ReadAllError.Fault
        → Rose (S.faults store.old) (S.faults store.new) }
{
    let mut bytes = Vec::new(alloc);
    let mut buffer = [0u8; 4096];
    'pieces: while bytes.len() as u64 <= limit {
        let room = (limit - bytes.len() as u64).min(PIECE - 1) + 1;
        let n = store.read(&mut buffer[..room as usize])?;
        if n == 0 {
            return Ok(bytes);
        }
        bytes.extend_from_slice(&buffer[..n])?;
    }
    Err(ReadAllError::TooLong)
}

/// Reads a file to its end, and closes it: all of its bytes, of which there are at most `limit`.
/// TooLong says that it has more, a Fault that the store failed, at the closing too. At most
/// `limit + 1` bytes are taken in this call, and no file is changed, whatever the answer.
pub fn read_all<S: Store>(
    alloc: Global,
    store: &mut S,
    name: &str,
    limit: u64,
) -> Result<Vec<u8>, ReadAllError>
    requires closed { S.stage store.old ≡ Closed }
    requires limit { limit < 2 ^ 64 - 1 }

    ensures short { IfOk result (λ v. length v.items ≤ limit) }
    ensures taken { IfOk result (λ v. S.taken store.new ≡ length v.items) }
    ensures bytes { IfOk result
        (λ v. IfSome (S.told store.old) (λ files. v.items ≡ content files name.now)) }
    ensures fits { OnOk result
        (IfSome (S.told store.old) (λ files. length (content files name.now) ≤ limit)) }

    // the file was opened, and more was taken than it may have, in this call
    ensures long_here { IsErrOf result ReadAllError.TooLong
        → RoseBy (limit + 1) (S.handed store.old) (S.handed store.new) }
    ensures long { IsErrOf result ReadAllError.TooLong → S.taken store.new ≡ limit + 1 }
    ensures longer { IsErrOf result ReadAllError.TooLong
        → IfSome (S.told store.old) (λ files. limit < length (content files name.now)) }

    ensures most_here { S.handed store.new ≤ S.handed store.old + (limit + 1) }

    // where the second holds, the file may not have been opened
    ensures most { (S.taken store.new ≤ limit + 1)
        ⊎ ((S.stage store.new ≡ Closed) × (S.taken store.new ≡ S.taken store.old)) }

    // what was read of the file in this call
    ensures heard { IfOk result (λ v. BothTold (S.heard store.old) (S.heard store.new)
        (λ old new. new ≡ old ++ (name.now, v.items) ∷ [])) }
    ensures long_heard { IsErrOf result ReadAllError.TooLong
        → BothTold (S.heard store.old) (S.heard store.new)
        (AddsBytes name.now (AreFirst (S.told store.old) name.now (limit + 1))) }
    ensures some_heard { BothTold (S.heard store.old) (S.heard store.new) (AddsSome name.now) }

    ensures closed { S.stage store.new ≡ Closed }
    ensures files { S.told store.new ≡ S.told store.old }
    ensures stored { S.stored store.new ≡ S.stored store.old }
    ensures later { S.faults store.old ≤ S.faults store.new }
    ensures fault { IsErrOf result ReadAllError.Fault
        → Rose (S.faults store.old) (S.faults store.new) }
{
    store.open_file(name)?;
    let read = read_open(alloc, store, limit);
    store.close_file()?;
    read
}
