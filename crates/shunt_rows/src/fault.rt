// What may be wrong with a record.
ghost use Rattle.std.specs.Prelude.{◌≡◌, ◌≤◌};
ghost use Rattle.shunt_rows.specs.declared.fault.ReadError.TheVariants.{Fault, Memory};
ghost use Rattle.shunt_rows.specs.defs.Faults.{kind_number};

use std::alloc::{AllocError, AllocFailed};
use thiserror::Error;

/// What is wrong with a field.
#[derive(Clone, Copy, Debug, PartialEq, Eq)]
pub enum RowKind {
    /// It isn't one of the words that may stand there.
    Kind,
    /// At field 1: the record has the wrong number of fields.
    Fields,
    /// It isn't spelled as a name, where a name is made known.
    Name,
    /// It isn't spelled as a number.
    Number,
    /// It isn't spelled as a minute.
    Time,
    /// It names nothing that is known there.
    Unknown,
    /// It makes known, or states, a thing that stands already.
    Repeat,
    /// It is a number out of its range, or one thing too many.
    Limit,
    /// At field 0 of the record after the last one: a record is still needed.
    Missing,
    /// It is a side at which the track isn't open.
    ClosedSide,
    /// At field 1: a record after the last record of its format.
    Tail,
}

impl RowKind {
    /// Its number, from 1 to 11 in the order above.
    pub fn number(self) -> u8
        ensures { result ≡ kind_number self }
    {
        match self {
            RowKind::Kind => 1,
            RowKind::Fields => 2,
            RowKind::Name => 3,
            RowKind::Number => 4,
            RowKind::Time => 5,
            RowKind::Unknown => 6,
            RowKind::Repeat => 7,
            RowKind::Limit => 8,
            RowKind::Missing => 9,
            RowKind::ClosedSide => 10,
            RowKind::Tail => 11,
        }
    }
}

/// A fault of a file, and where it is.
#[derive(Clone, Copy, Debug, PartialEq, Eq)]
pub struct RowFault {
    /// The number of the record, from 1; blank lines are no records.
    pub row: u32,
    /// The number of the field, from 1; 0 for Missing.
    pub field: u32,
    pub kind: RowKind,
}

/// Why a reader gives no value.
#[derive(Clone, Copy, Debug, PartialEq, Eq, Error)]
pub enum ReadError {
    /// The records state none: their first fault.
    #[error("the records have a fault")]
    Fault(RowFault),
    #[error("out of memory")]
    Memory,
}

impl From<RowFault> for ReadError {
    ghost from_gives = { λ f e. e ≡ Fault f };

    fn from(fault: RowFault) -> Self {
        ReadError::Fault(fault)
    }
}

impl From<AllocError> for ReadError {
    ghost from_gives = { λ _ e. e ≡ Memory };

    fn from(_: AllocError) -> Self {
        ReadError::Memory
    }
}

impl<T: Drop> From<AllocFailed<T>> for ReadError {
    ghost from_gives = { λ _ e. e ≡ Memory };

    fn from(_: AllocFailed<T>) -> Self {
        ReadError::Memory
    }
}
