// One check of a record.
ghost use Rattle.std.specs.Prelude.{◌≡◌, Some, IsTrue, IfOk, OnOk};
ghost use Rattle.shunt_rows.specs.defs.Checks.{answer, must, found};

use crate::fault::{RowFault, RowKind};

/// The fault of this kind at a field of the record with number `n`, unless the check holds.
pub fn must(holds: bool, n: u32, field: u32, kind: RowKind) -> Result<(), RowFault>
    ensures answer { result ≡ answer n (must holds field kind) }
    ensures held { OnOk result (IsTrue holds) }
{
    if holds {
        Ok(())
    } else {
        Err(RowFault {
            row: n,
            field,
            kind,
        })
    }
}

/// The value that was found, or the fault of this kind at a field of the record with number `n`.
pub fn found<T>(value: Option<T>, n: u32, field: u32, kind: RowKind) -> Result<T, RowFault>
    ensures answer { (nothing : T) → result ≡ answer n (found nothing value field kind) }
    ensures there { IfOk result (λ x. value ≡ Some x) }
{
    match value {
        Some(value) => Ok(value),
        None => Err(RowFault {
            row: n,
            field,
            kind,
        }),
    }
}
