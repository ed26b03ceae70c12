// Edits and turns, and how records state them.
ghost use Rattle.std.specs.Prelude.{◌≡◌, ◌≤◌, ◌<◌, ◌==◌, ◌||◌, IsTrue, length, IfOk};
ghost use Rattle.shunt_rows.specs.defs.Checks.{answer};
ghost use Rattle.shunt_rows.specs.defs.Formats.{in_state, reading};
ghost use Rattle.shunt_rows.specs.defs.Given.{Gives};
ghost use Rattle.shunt_plan.specs.defs.Edits.{AreTurns, edits_format, count_in, block_id_in};
ghost use Rattle.shunt_plan.specs.defs.Edits.{room_in, runs_in, add_of, drop_of, park_of};
ghost use Rattle.shunt_plan.specs.defs.Edits.{unpark_of, cut_of, join_of, undo_of, redo_of};
ghost use Rattle.shunt_plan.specs.defs.Edits.{turn_of};

use crate::block_records::{read_arr, read_dep, read_first, read_option, read_track};
use shunt_base::{ArrId, DepId};
use shunt_blocks::{Park, Shape};
use shunt_instance::Instance;
use shunt_lists::Items;
use shunt_rows::{
    FormatReader, ReadError, Row, RowFault, RowKind, fields_in, must, number_in, read, side_in,
};
use std::alloc::Global;
use std::marker::Model;

/// A change of a plan's blocks. Whether it can be made is judged where it is made.
#[derive(Clone, Copy, Debug, PartialEq, Eq, Drop)]
pub enum Edit {
    /// One more block: the units from place `p` of the arriving train on, `n` of them, become the positions from place `q`
    /// of the departing train on. It is parked, or it isn't.
    Add {
        arr: ArrId,
        p: u8,
        n: u8,
        dep: DepId,
        q: u8,
        park: Option<Park>,
    },
    /// The block with this id goes.
    Drop {
        id: u32,
    },
    /// The block with this id is parked here.
    Park {
        id: u32,
        park: Park,
    },
    /// The block with this id isn't parked any more.
    Unpark {
        id: u32,
    },
    /// The block with this id is cut behind its first `k` units.
    Cut {
        id: u32,
        k: u8,
    },
    /// Two blocks become one, the second behind the first.
    Join {
        first: u32,
        second: u32,
    },
}

/// One step of a list of edits: a change, or the last change undone, or the last one undone made again.
#[derive(Clone, Copy, Debug, PartialEq, Eq, Drop)]
pub enum Turn {
    Edit(Edit),
    Undo,
    Redo,
}

// The runs of one more block, behind that many turns.
#[tactic(auto, unfolding(crate::specs::defs::Edits::runs_in))]
fn read_runs(instance: &Instance, before: usize, row: &Row, n: u32) -> Result<Shape, RowFault>
    ensures answer { result ≡ answer n (runs_in instance.now before row.now) }
    ensures fields { IfOk result (λ _. IsTrue (length row.now == 7 || length row.now == 10)) }
{
    let len = row.len();
    must(len == 7 || len == 10, n, 1, RowKind::Fields)?;
    must(before < 10_000, n, 1, RowKind::Limit)?;
    let arr = read_arr(instance, row, n, 2)?;
    let p = number_in(row, n, 3, 0, 8)?;
    let count = number_in(row, n, 4, 0, 8)?;
    let dep = read_dep(instance, row, n, 5)?;
    let q = number_in(row, n, 6, 0, 8)?;
    Ok(Shape {
        arr,
        p: p as u8,
        n: count as u8,
        dep,
        q: q as u8,
    })
}

fn read_add(instance: &Instance, before: usize, row: &Row, n: u32) -> Result<Turn, RowFault>
    ensures { result ≡ answer n (add_of instance.now before row.now) }
{
    let runs = read_runs(instance, before, row, n)?;
    let park = read_option(instance, row, n, 7)?;
    Ok(Turn::Edit(Edit::Add {
        arr: runs.arr,
        p: runs.p,
        n: runs.n,
        dep: runs.dep,
        q: runs.q,
        park,
    }))
}

#[tactic(auto, unfolding(crate::specs::defs::Edits::drop_of))]
fn read_drop(before: usize, row: &Row, n: u32) -> Result<Turn, RowFault>
    ensures { result ≡ answer n (drop_of before row.now) }
{
    fields_in(row, n, 2, 2)?;
    must(before < 10_000, n, 1, RowKind::Limit)?;
    let id = number_in(row, n, 2, 1, 1_000_000)?;
    Ok(Turn::Edit(Edit::Drop { id: id as u32 }))
}

#[tactic(auto, unfolding(crate::specs::defs::Edits::park_of))]
fn read_park(instance: &Instance, before: usize, row: &Row, n: u32) -> Result<Turn, RowFault>
    ensures { result ≡ answer n (park_of instance.now before row.now) }
{
    fields_in(row, n, 5, 5)?;
    must(before < 10_000, n, 1, RowKind::Limit)?;
    let id = number_in(row, n, 2, 1, 1_000_000)?;
    let track = read_track(instance, row, n, 3)?;
    let side_in_at = side_in(row, n, 4)?;
    let side_out_at = side_in(row, n, 5)?;
    Ok(Turn::Edit(Edit::Park {
        id: id as u32,
        park: Park {
            track,
            side_in: side_in_at,
            side_out: side_out_at,
        },
    }))
}

#[tactic(auto, unfolding(crate::specs::defs::Edits::unpark_of))]
fn read_unpark(before: usize, row: &Row, n: u32) -> Result<Turn, RowFault>
    ensures { result ≡ answer n (unpark_of before row.now) }
{
    fields_in(row, n, 2, 2)?;
    must(before < 10_000, n, 1, RowKind::Limit)?;
    let id = number_in(row, n, 2, 1, 1_000_000)?;
    Ok(Turn::Edit(Edit::Unpark { id: id as u32 }))
}

#[tactic(auto, unfolding(crate::specs::defs::Edits::cut_of))]
fn read_cut(before: usize, row: &Row, n: u32) -> Result<Turn, RowFault>
    ensures { result ≡ answer n (cut_of before row.now) }
{
    fields_in(row, n, 3, 3)?;
    must(before < 10_000, n, 1, RowKind::Limit)?;
    let id = number_in(row, n, 2, 1, 1_000_000)?;
    let k = number_in(row, n, 3, 0, 8)?;
    Ok(Turn::Edit(Edit::Cut {
        id: id as u32,
        k: k as u8,
    }))
}

#[tactic(auto, unfolding(crate::specs::defs::Edits::join_of))]
fn read_join(before: usize, row: &Row, n: u32) -> Result<Turn, RowFault>
    ensures { result ≡ answer n (join_of before row.now) }
{
    fields_in(row, n, 3, 3)?;
    must(before < 10_000, n, 1, RowKind::Limit)?;
    let first = number_in(row, n, 2, 1, 1_000_000)?;
    let second = number_in(row, n, 3, 1, 1_000_000)?;
    Ok(Turn::Edit(Edit::Join {
        first: first as u32,
        second: second as u32,
    }))
}

#[tactic(auto, unfolding(crate::specs::defs::Edits::undo_of))]
fn read_undo(before: usize, row: &Row, n: u32) -> Result<Turn, RowFault>
    ensures { result ≡ answer n (undo_of before row.now) }
{
    fields_in(row, n, 1, 1)?;
    must(before < 10_000, n, 1, RowKind::Limit)?;
    Ok(Turn::Undo)
}

#[tactic(auto, unfolding(crate::specs::defs::Edits::redo_of))]
fn read_redo(before: usize, row: &Row, n: u32) -> Result<Turn, RowFault>
    ensures { result ≡ answer n (redo_of before row.now) }
{
    fields_in(row, n, 1, 1)?;
    must(before < 10_000, n, 1, RowKind::Limit)?;
    Ok(Turn::Redo)
}

// The turn of a record behind that many turns.
#[tactic(auto, unfolding(crate::specs::defs::Edits::turn_of))]
fn read_turn(instance: &Instance, before: usize, row: &Row, n: u32) -> Result<Turn, RowFault>
    ensures { result ≡ answer n (turn_of instance.now before row.now) }
{
    let word = row.word();
    if word == b"add".as_slice() {
        return read_add(instance, before, row, n);
    }
    if word == b"drop".as_slice() {
        return read_drop(before, row, n);
    }
    if word == b"park".as_slice() {
        return read_park(instance, before, row, n);
    }
    if word == b"unpark".as_slice() {
        return read_unpark(before, row, n);
    }
    if word == b"cut".as_slice() {
        return read_cut(before, row, n);
    }
    if word == b"join".as_slice() {
        return read_join(before, row, n);
    }
    if word == b"undo".as_slice() {
        return read_undo(before, row, n);
    }
    if word == b"redo".as_slice() {
        return read_redo(before, row, n);
    }
    Err(RowFault {
        row: n,
        field: 1,
        kind: RowKind::Kind,
    })
}

// Adds the turn of a later record.
fn read_more(instance: &Instance, turns: &mut Vec<Turn>, n: u32, row: &Row) -> Result<(), ReadError>
    ensures { Gives (λ _. turns.new.items) result
        (answer n (in_state (edits_format instance.now) turns.old.items row.now)) }
{
    let turn = read_turn(instance, turns.len(), row, n)?;
    turns.push(turn)?;
    Ok(())
}

// The turns that the records so far state.
#[derive(Debug, Drop)]
struct Turns {
    turns: Vec<Turn>,
}

impl Model for Turns {
    ghost use Rattle.std.specs.Prelude.{List};
    ghost use Rattle.shunt_plan.specs.declared.edits.Turn.{Turn};

    ghost Value = { List Turn };

    ghost view = { λ t. t.turns.items };
}

impl<'r> FormatReader<'r> for Turns {
    type Context = Instance;

    type Output = Items<Turn>;

    ghost format = { λ night. edits_format night };

    ghost suits = { λ _. Unit };

    #[tactic(auto, unfolding(crate::specs::defs::Edits::edits_first))]
    fn read_first(_: &'r Instance, alloc: Global, row: &'r Row) -> Result<Turns, ReadError> {
        read_first(row, b"edits")?;
        Ok(Turns {
            turns: Vec::new(alloc),
        })
    }

    fn read_later(
        &mut self,
        instance: &'r Instance,
        _: Global,
        n: u32,
        row: &'r Row,
    ) -> Result<(), ReadError> {
        read_more(instance, &mut self.turns, n, row)
    }

    fn is_whole(&self, _: &'r Instance) -> bool {
        true
    }

    fn into_output(self, _: &'r Instance) -> Items<Turn> {
        Items::from_vec(self.turns)
    }
}

/// The turns that the records state, in their order, or exactly their first fault.
///
/// There are at most 10,000; trains and tracks are the instance's, ids are from 1 to 1,000,000, places and numbers of units
/// at most 8. Whether a run is inside its train and an id is there isn't judged. `Fault` is the least fault by record, then
/// field, then kind; `Memory` is want of memory.
pub fn read_edits(
    alloc: Global,
    instance: &Instance,
    rows: &Vec<Row>,
) -> Result<Vec<Turn>, ReadError>
    ensures stated { Gives (λ v. v.items) result
        (reading (edits_format instance.now) rows.now.items) }
    ensures formed { IfOk result (λ v. AreTurns instance.now v.items) }
{
    Ok(read::<Turns>(instance, alloc, rows)?.into_vec())
}
