// From a plan to its text.
ghost use Rattle.std.specs.Prelude.{◌≡◌, ◌≤◌, ◌<◌, ◌++◌, [], ◌∷◌, All, map, length, IfOk, OnOk};
ghost use Rattle.shunt_rows.specs.defs.Records.{text_of_row, text_of_rows};
ghost use Rattle.shunt_blocks.specs.defs.Shapes.{IsOnTrack, IsInRange};
ghost use Rattle.shunt_plan.specs.defs.Plans.{IsPlanInRange};
ghost use Rattle.shunt_plan.specs.defs.PlanRows.{arr_name, dep_name, track_name, option_fields};
ghost use Rattle.shunt_plan.specs.defs.PlanRows.{head_row, block_row, cost_row, rows_of};
ghost use Rattle.shunt_plan.specs.defs.PlanRows.{ReadsAsPlan};

use crate::records::Plan;
use shunt_base::{ArrId, DepId, TrackId};
use shunt_blocks::{Block, Park};
use shunt_instance::Instance;
use shunt_rows::RowWriter;
use std::alloc::{AllocError, Global};

// The version of the files that are written.
pub(crate) const WRITTEN_VERSION: u64 = 1;

/// The name of the arriving train with a number.
pub fn arr_name(instance: &Instance, arr: ArrId) -> &[u8]
    requires { arr.0 < length instance.now.arrive }
    ensures { result.now ≡ arr_name instance.now arr }
{
    instance.arrive(arr).name.bytes()
}

/// The name of the departing train with a number.
pub fn dep_name(instance: &Instance, dep: DepId) -> &[u8]
    requires { dep.0 < length instance.now.depart }
    ensures { result.now ≡ dep_name instance.now dep }
{
    instance.depart(dep).name.bytes()
}

/// The name of the track with a number.
pub fn track_name(instance: &Instance, track: TrackId) -> &[u8]
    requires { track.0 < length instance.now.station.tracks }
    ensures { result.now ≡ track_name instance.now.station track }
{
    instance.station().tracks.as_slice()[track.0 as usize]
        .name
        .bytes()
}

/// Adds the fields of an option to the open row: `unparked`, or `park,TRACK,IN,OUT`. The error is want of memory.
pub fn write_option(
    writer: &mut RowWriter,
    instance: &Instance,
    park: Option<Park>,
) -> Result<(), AllocError>
    requires { IsOnTrack instance.now.station park }
    ensures { OnOk result (writer.new
        ≡ record writer.old { row = writer.old.row ++ option_fields instance.now.station park }) }
{
    match park {
        None => writer.field(b"unparked"),
        Some(park) => {
            writer.field(b"park")?;
            writer.field(track_name(instance, park.track))?;
            writer.side(park.side_in)?;
            writer.side(park.side_out)
        }
    }
}

fn write_head(writer: &mut RowWriter) -> Result<(), AllocError>
    requires { writer.old.row ≡ [] }
    ensures { OnOk result
        (writer.new ≡ record { text = writer.old.text ++ text_of_row head_row; row = [] }) }
{
    writer.field(b"plan")?;
    writer.number(WRITTEN_VERSION)?;
    writer.end_row()
}

fn write_block(writer: &mut RowWriter, instance: &Instance, block: &Block) -> Result<(), AllocError>
    requires open_row { writer.old.row ≡ [] }
    requires block { IsInRange instance.now block.now }
    ensures { OnOk result (writer.new
        ≡ record {
          text = writer.old.text ++ text_of_row (block_row instance.now block.now);
          row = [];
        }) }
{
    writer.field(b"block")?;
    writer.number(block.id as u64)?;
    writer.field(arr_name(instance, block.arr))?;
    writer.number(block.p as u64)?;
    writer.number(block.n as u64)?;
    writer.field(dep_name(instance, block.dep))?;
    writer.number(block.q as u64)?;
    write_option(writer, instance, block.park)?;
    writer.end_row()
}

pub(crate) fn write_blocks(
    writer: &mut RowWriter,
    instance: &Instance,
    blocks: &[Block],
) -> Result<(), AllocError>
    requires open_row { writer.old.row ≡ [] }
    requires blocks { All (IsInRange instance.now) blocks.now }
    ensures { OnOk result (writer.new
        ≡ record {
          text = writer.old.text ++ text_of_rows (map (block_row instance.now) blocks.now);
          row = [];
        }) }
{
    for block in blocks {
        write_block(writer, instance, block)?;
    }
    Ok(())
}

fn write_cost(writer: &mut RowWriter, stated: u64) -> Result<(), AllocError>
    requires { writer.old.row ≡ [] }
    ensures { OnOk result (writer.new
        ≡ record { text = writer.old.text ++ text_of_row (cost_row stated); row = [] }) }
{
    writer.field(b"cost")?;
    writer.number(stated)?;
    writer.end_row()
}

/// The text of a plan in range: its blocks in their order, and the cost that it states.
///
/// It reads back as the same plan, and has at most 32,026 bytes. The error is want of memory.
pub fn write_plan(alloc: Global, instance: &Instance, plan: &Plan) -> Result<Vec<u8>, AllocError>
    requires { IsPlanInRange instance.now plan.now }
    ensures text { IfOk result (λ v. v.items ≡ text_of_rows (rows_of instance.now plan.now)) }
    ensures again { IfOk result (λ v. ReadsAsPlan instance.now plan.now v.items) }
    ensures short { IfOk result (λ v. length v.items ≤ 32026) }
{
    // The call tells that the night is well formed, so that its names are plain and distinct.
    instance.arrivals();
    let mut writer = RowWriter::new(alloc)?;
    write_head(&mut writer)?;
    write_blocks(&mut writer, instance, plan.blocks.as_slice())?;
    write_cost(&mut writer, plan.cost)?;
    writer.finish()
}
