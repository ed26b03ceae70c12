// The records of a file.
ghost use Rattle.std.specs.Prelude.{◌≡◌, ◌+◌, ◌-◌, ◌^◌, ◌<◌, ◌≤◌, Some, IfOk, OnErr, length};
ghost use Rattle.std.specs.Prelude.{slice_get};
ghost use Rattle.shunt_rows.specs.defs.Records.{records_of, at};

use csv::{ByteRecord, ReaderBuilder};
use std::alloc::{AllocError, Global};
use std::marker::Model;

/// A record, seen as the list of its fields, each a list of bytes.
///
/// It keeps the record that `csv` hands out.
#[derive(Debug, Drop)]
pub struct Row {
    record: ByteRecord,
}

impl Model for Row {
    ghost use Rattle.std.specs.Prelude.{List, ℕ, ◌<◌, length};
    ghost use Rattle.csv.specs.Records.{fields_of};

    ghost Value = { List (List ℕ) };

    ghost view = { λ r. fields_of r.record };

    ghost invariant = { λ r. 0 < length (fields_of r.record) };
}

impl Row {
    /// The number of fields, at least one.
    pub fn len(&self) -> usize
        ensures value { result ≡ length self.now }
        ensures some { 0 < length self.now }
    {
        self.record.len()
    }

    /// The word of the record: its first field.
    pub fn word(&self) -> &[u8]
        ensures some { 0 < length self.now }
        ensures value { result.now ≡ at self.now 1 }
    {
        let _some = self.len();
        self.field(1)
    }

    /// The k-th field, counted from 1.
    pub fn field(&self, k: usize) -> &[u8]
        requires first { 1 ≤ k }
        requires last { k ≤ length self.now }
        ensures some { slice_get self.now (k - 1) ≡ Some result.now }
        ensures value { result.now ≡ at self.now k }
    {
        match self.record.get(k - 1) {
            Some(field) => field,
            None => unreachable!(),
        }
    }
}

/// The records of a file: those that `csv` reads without headers, of any lengths, untrimmed, as bytes.
///
/// Blank lines are no records, and one byte order mark at the start is dropped. The error is want of memory.
pub fn records(alloc: Global, bytes: &[u8]) -> Result<Vec<Row>, AllocError>
    ensures { IfOk result (λ v. v.items ≡ records_of bytes.now) }
{
    let reader = ReaderBuilder::new()
        .has_headers(false)
        .flexible(true)
        .from_reader(alloc, bytes);
    let mut rows = Vec::new(alloc);
    for row in reader.into_byte_records() {
        match row {
            Ok(record) => rows.push(Row { record })?,
            Err(_) => return Err(AllocError),
        }
    }
    Ok(rows)
}

/// The number of the record at this place in a list, counted from 1.
///
/// Want of memory is an answer only from the place 2^32 - 1 on.
pub fn record_number(place: usize) -> Result<u32, AllocError>
    ensures ok { IfOk result (λ n. n ≡ place + 1) }
    ensures err { OnErr result (2 ^ 32 ≤ place + 1) }
{
    if place < u32::MAX as usize {
        Ok(place as u32 + 1)
    } else {
        Err(AllocError)
    }
}
