// Rows of gains: the greatest ones before an end with a room, from each event on, which are found together and kept.
ghost use Rattle.std.specs.Prelude.{◌≤◌, IfSome, OnOk, List};
ghost use Rattle.shunt_stacks.specs.defs.Spans.{Span};
ghost use Rattle.shunt_gains.specs.defs.Tables.{IsGain, IsRow, AreRows};

use std::alloc::AllocError;
use std::collections::BTreeMap;

/// The event before which pieces have left, and the room in dm.
#[derive(Clone, Copy, PartialEq, Eq, PartialOrd, Ord, Drop)]
pub(crate) struct RowKey {
    pub end: u16,
    pub room: u32,
}

/// For an end and a room the greatest gain from the end on, from the event before it on, and so on down to the first event.
pub(crate) type Row = Vec<Option<i64>>;

/// The rows that are known.
pub(crate) type Rows = BTreeMap<RowKey, Row>;

/// The gain over the events from x on with an end and a room, where their row is known.
pub(crate) fn found(rows: &Rows, x: u16, key: RowKey) -> Option<Option<i64>>
    requires { x ≤ key.end }
    ensures { (fixed free : List Span) → AreRows fixed free rows.now
        → IfSome result (IsGain fixed free x key.end key.room) }
{
    let row = rows.get(&key)?;
    row.get(usize::from(key.end - x)).copied()
}

/// Keeps the row of an end and a room.
pub(crate) fn remember(rows: &mut Rows, key: RowKey, row: Row) -> Result<(), AllocError>
    ensures { (fixed free : List Span) → AreRows fixed free rows.old
        → IsRow fixed free key.end key.room row.items → AreRows fixed free rows.new }
{
    rows.insert(key, row)?;
    Ok(())
}
