// The one reader of all formats.
ghost use Rattle.std.specs.Prelude.{◌≡◌, true};
ghost use Rattle.shunt_rows.specs.defs.Checks.{answer};
ghost use Rattle.shunt_rows.specs.defs.Formats.{Format, in_state, reading};
ghost use Rattle.shunt_rows.specs.defs.Given.{Gives};

use crate::check::must;
use crate::fault::{ReadError, RowKind};
use crate::row::{Row, record_number};
use std::alloc::Global;

/// The reader of a format: what the records so far state, and what the next one adds.
///
/// It may keep fields of the records, and parts of the context that they speak of.
pub trait FormatReader<'r>: Drop {
    /// What the records speak of besides themselves, as a station; `()` where they speak of nothing else.
    type Context;
    /// What all records state together.
    type Output;

    /// The format over a context.
    ghost format: { Self.Context → Format Self Self.Output };

    /// What a context must be.
    ghost suits: { Self.Context → Type 0 };

    /// What the first record states.
    fn read_first(
        context: &'r Self::Context,
        alloc: Global,
        row: &'r Row,
    ) -> Result<Self, ReadError>
        requires { suits context.now }
        ensures { Gives (λ s. s) result (answer 1 ((format context.now).first row.now)) };

    /// What the record with number `n` adds.
    fn read_later(
        &mut self,
        context: &'r Self::Context,
        alloc: Global,
        n: u32,
        row: &'r Row,
    ) -> Result<(), ReadError>
        requires { suits context.now }
        ensures { Gives (λ _. self.new) result
            (answer n (in_state (format context.now) self.old row.now)) };

    /// Whether no record is needed any more.
    fn is_whole(&self, context: &'r Self::Context) -> bool
        ensures { result ≡ (format context.now).is_whole self.now };

    /// What all records state together.
    fn into_output(self, context: &'r Self::Context) -> Self::Output
        requires { (format context.now).is_whole self ≡ true }
        ensures { result ≡ (format context.now).value self };
}

/// What the records state, or exactly their first fault.
///
/// `Fault` is the least fault by record, then field, then kind; `Memory` is want of memory.
pub fn read<'r, R: FormatReader<'r>>(
    context: &'r R::Context,
    alloc: Global,
    rows: &'r [Row],
) -> Result<R::Output, ReadError>
    requires { R.suits context.now }
    ensures { Gives (λ v. v) result (reading (R.format context.now) rows.now) }
{
    must(!rows.is_empty(), 1, 0, RowKind::Missing)?;
    let mut reader = R::read_first(context, alloc, &rows[0])?;
    for i in 1..rows.len() {
        reader.read_later(context, alloc, record_number(i)?, &rows[i])?;
    }
    must(
        reader.is_whole(context),
        record_number(rows.len())?,
        0,
        RowKind::Missing,
    )?;
    Ok(reader.into_output(context))
}
