// From turns to their text.
ghost use Rattle.std.specs.Prelude.{◌≡◌, ◌≤◌, ◌<◌, ◌++◌, [], ◌∷◌, map, All, length, IfOk, OnOk};
ghost use Rattle.shunt_rows.specs.defs.Records.{text_of_row, text_of_rows};
ghost use Rattle.shunt_blocks.specs.defs.Shapes.{IsOnTrack};
ghost use Rattle.shunt_plan.specs.declared.edits.Edit.TheVariants as edits;
ghost use Rattle.shunt_plan.specs.defs.Edits.{AreRunsStated, IsEdit, IsTurn, AreTurns};
ghost use Rattle.shunt_plan.specs.defs.WrittenEdits.{park_fields, number_row, numbers_row};
ghost use Rattle.shunt_plan.specs.defs.WrittenEdits.{edit_row, turn_row, rows_of_edits};
ghost use Rattle.shunt_plan.specs.defs.WrittenEdits.{ReadsAsEdits};

use crate::edits::{Edit, Turn};
use crate::writer::{arr_name, dep_name, track_name, write_option};
use shunt_blocks::{Park, Shape};
use shunt_instance::Instance;
use shunt_rows::RowWriter;
use std::alloc::{AllocError, Global};

// Adds track and sides as fields of the open row.
fn write_park(writer: &mut RowWriter, instance: &Instance, park: Park) -> Result<(), AllocError>
    requires { park.track.0 < length instance.now.station.tracks }
    ensures { OnOk result (writer.new
        ≡ record writer.old { row = writer.old.row ++ park_fields instance.now.station park }) }
{
    writer.field(track_name(instance, park.track))?;
    writer.side(park.side_in)?;
    writer.side(park.side_out)
}

fn write_added(
    writer: &mut RowWriter,
    instance: &Instance,
    runs: Shape,
    park: Option<Park>,
) -> Result<(), AllocError>
    requires row { writer.old.row ≡ [] }
    requires runs { AreRunsStated instance.now runs }
    requires track { IsOnTrack instance.now.station park }
    ensures { OnOk result (writer.new ≡ record {
      text = writer.old.text ++ text_of_row (edit_row
          instance.now (edits.Add runs.arr runs.p runs.n runs.dep runs.q park));
      row = [];
    }) }
{
    writer.field(b"add")?;
    writer.field(arr_name(instance, runs.arr))?;
    writer.number(runs.p as u64)?;
    writer.number(runs.n as u64)?;
    writer.field(dep_name(instance, runs.dep))?;
    writer.number(runs.q as u64)?;
    write_option(writer, instance, park)?;
    writer.end_row()
}

fn write_parked(
    writer: &mut RowWriter,
    instance: &Instance,
    id: u32,
    park: Park,
) -> Result<(), AllocError>
    requires row { writer.old.row ≡ [] }
    requires track { park.track.0 < length instance.now.station.tracks }
    ensures { OnOk result (writer.new
        ≡ record {
          text = writer.old.text ++ text_of_row (edit_row instance.now (edits.Park id park));
          row = [];
        }) }
{
    writer.field(b"park")?;
    writer.number(id as u64)?;
    write_park(writer, instance, park)?;
    writer.end_row()
}

// A row of one word alone.
fn write_word(writer: &mut RowWriter, word: &[u8]) -> Result<(), AllocError>
    requires { writer.old.row ≡ [] }
    ensures { OnOk result
        (writer.new ≡ record { text = writer.old.text ++ text_of_row (word.now ∷ []); row = [] }) }
{
    writer.field(word)?;
    writer.end_row()
}

// A row of a word and a number.
fn write_one(writer: &mut RowWriter, word: &[u8], number: u64) -> Result<(), AllocError>
    requires { writer.old.row ≡ [] }
    ensures { OnOk result (writer.new
        ≡ record { text = writer.old.text ++ text_of_row (number_row word.now number); row = [] }) }
{
    writer.field(word)?;
    writer.number(number)?;
    writer.end_row()
}

// A row of a word and two numbers.
fn write_two(writer: &mut RowWriter, word: &[u8], first: u64, second: u64) -> Result<(), AllocError>
    requires { writer.old.row ≡ [] }
    ensures { OnOk result (writer.new
        ≡ record {
          text = writer.old.text ++ text_of_row (numbers_row word.now first second);
          row = [];
        }) }
{
    writer.field(word)?;
    writer.number(first)?;
    writer.number(second)?;
    writer.end_row()
}

fn write_edit(writer: &mut RowWriter, instance: &Instance, edit: Edit) -> Result<(), AllocError>
    requires row { writer.old.row ≡ [] }
    requires edit { IsEdit instance.now edit }
    ensures { OnOk result (writer.new
        ≡ record { text = writer.old.text ++ text_of_row (edit_row instance.now edit); row = [] }) }
{
    match edit {
        Edit::Add {
            arr,
            p,
            n,
            dep,
            q,
            park,
        } => write_added(writer, instance, Shape { arr, p, n, dep, q }, park),
        Edit::Drop { id } => write_one(writer, b"drop", id as u64),
        Edit::Park { id, park } => write_parked(writer, instance, id, park),
        Edit::Unpark { id } => write_one(writer, b"unpark", id as u64),
        Edit::Cut { id, k } => write_two(writer, b"cut", id as u64, k as u64),
        Edit::Join { first, second } => write_two(writer, b"join", first as u64, second as u64),
    }
}

fn write_turn(writer: &mut RowWriter, instance: &Instance, turn: Turn) -> Result<(), AllocError>
    requires row { writer.old.row ≡ [] }
    requires turn { IsTurn instance.now turn }
    ensures { OnOk result (writer.new
        ≡ record { text = writer.old.text ++ text_of_row (turn_row instance.now turn); row = [] }) }
{
    match turn {
        Turn::Edit(edit) => write_edit(writer, instance, edit),
        Turn::Undo => write_word(writer, b"undo"),
        Turn::Redo => write_word(writer, b"redo"),
    }
}

fn write_turns(
    writer: &mut RowWriter,
    instance: &Instance,
    turns: &[Turn],
) -> Result<(), AllocError>
    requires row { writer.old.row ≡ [] }
    requires turns { All (IsTurn instance.now) turns.now }
    ensures { OnOk result (writer.new
        ≡ record {
          text = writer.old.text ++ text_of_rows (map (turn_row instance.now) turns.now);
          row = [];
        }) }
{
    'turns: for turn in turns {
        write_turn(writer, instance, *turn)?;
    }
    Ok(())
}

// A writer that has written the turns.
fn written(alloc: Global, instance: &Instance, turns: &[Turn]) -> Result<RowWriter, AllocError>
    requires { All (IsTurn instance.now) turns.now }
    ensures { IfOk result
        (λ w. w ≡ record { text = text_of_rows (rows_of_edits instance.now turns.now); row = [] }) }
{
    let mut writer = RowWriter::new(alloc)?;
    write_one(&mut writer, b"edits", 1)?;
    write_turns(&mut writer, instance, turns)?;
    Ok(writer)
}

/// The text of turns: a file that reads back as the same turns, in their order.
///
/// The turns are such that a file can state them: at most 10,000, with trains and tracks of the instance, ids from 1 to
/// 1,000,000, places and numbers of units at most 8. The text has at most 700,008 bytes. The error is want of memory.
pub fn write_edits(
    alloc: Global,
    instance: &Instance,
    turns: &Vec<Turn>,
) -> Result<Vec<u8>, AllocError>
    requires { AreTurns instance.now turns.now.items }
    ensures text { IfOk result
        (λ v. v.items ≡ text_of_rows (rows_of_edits instance.now turns.now.items)) }
    ensures again { IfOk result (λ v. ReadsAsEdits instance.now turns.now.items v.items) }
    ensures short { IfOk result (λ v. length v.items ≤ 700008) }
{
    // The call tells that the night is well formed, so that its names are plain and distinct.
    instance.station();
    written(alloc, instance, turns)?.finish()
}
