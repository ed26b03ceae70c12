// Gains that are known already, in rows.
ghost use Rattle.std.specs.Prelude.{◌≡◌, ◌+◌, ◌≤◌, ℕ, IfSome, IfOk, OnOk};
ghost use Rattle.std.specs.Bool.{OnTrue};
ghost use Rattle.shunt_recount.specs.declared.moments.Moments.{Moments as AMoments};
ghost use Rattle.shunt_recount.specs.defs.Moments.{IsRank, IsValue, AreGains, AreKnown, IsRowAt};
ghost use Rattle.shunt_recount.specs.defs.Moments.{events_of};

use std::alloc::{AllocError, Global};
use std::mem::replace;

/// Where a part of the events ends: before an event, which so many of the listed ones are before, with the room that is left there in dm.
#[derive(Clone, Copy, Drop)]
pub(crate) struct PartEnd {
    pub end: u32,
    pub top: usize,
    pub room: u32,
}

/// The greatest gains before an end with a room: from the end itself on, from the last listed event before it on, and so on.
#[derive(Drop)]
pub(crate) struct Row {
    pub end: u32,
    pub room: u32,
    pub gains: Vec<Option<i64>>,
}

/// The rows that were begun, and lists of their numbers. A row is looked up in one of these lists alone.
#[derive(Drop)]
pub(crate) struct Known {
    pub alloc: Global,
    pub rows: Vec<Row>,
    pub numbers: Vec<Vec<usize>>,
}

/// How many lists of numbers there are.
const LISTS: usize = 1021;

/// Which list has the number of a part's row.
fn list_for(key: PartEnd) -> usize {
    (key.end as usize + 61 * key.room as usize) % LISTS
}

/// Whether the row with a number is that of a part's end.
fn is_row(known: &Known, k: usize, key: PartEnd) -> bool
    ensures { OnTrue result (IsRowAt known.now key k) }
{
    let Some(row) = known.rows.get(k) else {
        return false;
    };
    row.end == key.end && row.room == key.room
}

/// The number of the row of a part's end, where one was begun.
fn row_number(known: &Known, key: PartEnd) -> Option<usize>
    ensures { IfSome result (IsRowAt known.now key) }
{
    let numbers = known.numbers.get(list_for(key))?;
    for k in numbers {
        if is_row(known, *k, key) {
            return Some(*k);
        }
    }
    None
}

/// The greatest gain from so many listed events before an end on, where it is known.
pub(crate) fn found(known: &Known, back: usize, key: PartEnd) -> Option<Option<i64>>
    ensures { (m : AMoments) (j : ℕ) → AreKnown m known.now → IsRank (events_of m) key.end key.top
        → back + j ≡ key.top → IfSome result (IsValue m j key.end key.room) }
{
    let k = row_number(known, key)?;
    known.rows[k].gains.get(back).copied()
}

/// Takes out what is known of the row of a part's end.
pub(crate) fn taken(known: &mut Known, key: PartEnd) -> Vec<Option<i64>>
    ensures known { (m : AMoments) → AreKnown m known.old → AreKnown m known.new }
    ensures gains { (m : AMoments) → AreKnown m known.old
        → AreGains m key.end key.room result.items }
{
    let none = Vec::new(known.alloc);
    let Some(k) = row_number(known, key) else {
        return none;
    };
    let row = Row {
        end: key.end,
        room: key.room,
        gains: none,
    };
    replace(&mut known.rows[k], row).gains
}

/// Begins a row.
fn begin(known: &mut Known, row: Row, list: usize) -> Result<(), AllocError>
    ensures { (m : AMoments) → AreKnown m known.old → AreGains m row.end row.room row.gains.items
        → AreKnown m known.new }
{
    let k = known.rows.len();
    known.rows.push(row)?;
    if let Some(numbers) = known.numbers.get_mut(list) {
        numbers.push(k)?;
    }
    Ok(())
}

/// Keeps the row of a part's end.
pub(crate) fn remember(
    known: &mut Known,
    key: PartEnd,
    gains: Vec<Option<i64>>,
) -> Result<(), AllocError>
    ensures { (m : AMoments) → AreKnown m known.old → AreGains m key.end key.room gains.items
        → AreKnown m known.new }
{
    let row = Row {
        end: key.end,
        room: key.room,
        gains,
    };
    if let Some(k) = row_number(known, key) {
        known.rows[k] = row;
        return Ok(());
    }
    begin(known, row, list_for(key))
}

impl Known {
    /// No row is begun yet.
    pub(crate) fn new(alloc: Global) -> Result<Known, AllocError>
        ensures { (m : AMoments) → IfOk result (AreKnown m) }
    {
        let mut numbers = Vec::with_capacity(alloc, LISTS)?;
        for _ in 0..LISTS {
            numbers.push(Vec::new(alloc))?;
        }
        Ok(Known {
            alloc,
            rows: Vec::new(alloc),
            numbers,
        })
    }
}
