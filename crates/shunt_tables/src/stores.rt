// Stores in memory in which a chosen call fails.
ghost use Rattle.std.specs.Prelude.{◌≡◌, ◌<◌, ◌-◌, ◌^◌, IfSome};
ghost use Rattle.shunt_store.specs.defs.Files.{Closed};

use crate::files::{field, number, word};
use shunt_rows::Row;
use shunt_store::{MemStore, ReadAllError, StoreError, read_all, write_all_to};
use std::alloc::Global;

// A store with one file, of seven bytes, that moves at most that many bytes in a call (0: any number), and in which this call fails.
fn with_station(alloc: Global, piece: u64, failing: u64) -> Option<MemStore>
    ensures { IfSome result (λ s. s.stage ≡ Closed) }
{
    let mut store = MemStore::new(alloc);
    if store.put("S", b"station").is_err() {
        return None;
    }
    if piece > 0 {
        store.set_piece(piece as usize);
    }
    if store.fail_at(failing).is_err() {
        return None;
    }
    Some(store)
}

// Whether reading a file of at most that many bytes gives what a field says.
fn reads(alloc: Global, store: &mut MemStore, name: &str, most: u64, said: &[u8]) -> bool
    requires closed { store.old.stage ≡ Closed }
    requires most { most < 2 ^ 64 - 1 }
{
    match read_all(alloc, store, name, most) {
        Ok(bytes) => bytes.as_slice() == said,
        Err(ReadAllError::Fault) => said == b"fault".as_slice(),
        Err(ReadAllError::TooLong) => said == b"too long".as_slice(),
        Err(ReadAllError::Memory) => false,
    }
}

// Whether writing a text ends as a field says.
fn writes(store: &mut MemStore, name: &str, text: &[u8], said: &[u8]) -> bool
    requires { store.old.stage ≡ Closed }
{
    match write_all_to(store, name, text) {
        Ok(()) => said == b"written".as_slice(),
        Err(StoreError::Fault) => said == b"fault".as_slice(),
        Err(StoreError::Memory) => false,
    }
}

// Whether a file has these bytes; none where it is missing.
fn holds(store: &MemStore, name: &str, bytes: &[u8]) -> bool {
    match store.file(name) {
        Some(found) => found == bytes,
        None => bytes.is_empty(),
    }
}

/// A record is a call, how many bytes a call of the store moves at most (0: any number), the number of its call that fails, a file's
/// name, the longest text that is read or the text that is written, what comes of it, and what the file holds then.
pub(crate) fn is_stored(alloc: Global, row: &Row) -> Option<bool> {
    let mut store = with_station(alloc, number(row, 2)?, number(row, 3)?)?;
    let name = word(row, 4);
    let done = match word(row, 1) {
        "read" => {
            let most = number(row, 5)?;
            if most > 1_000 {
                return None;
            }
            reads(alloc, &mut store, name, most, field(row, 6))
        }
        "write" => writes(&mut store, name, field(row, 5), field(row, 6)),
        _ => false,
    };
    Some(done && holds(&store, name, field(row, 7)))
}
