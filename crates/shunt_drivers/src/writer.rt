// From duties to their text.
ghost use Rattle.std.specs.Prelude.{◌≡◌, ◌≤◌, ◌++◌, [], ◌∷◌, map, length, IfOk, OnOk};
ghost use Rattle.shunt_rows.specs.defs.Records.{text_of_row, text_of_rows};
ghost use Rattle.shunt_plan.specs.defs.Plans.{IsPlanInRange};
ghost use Rattle.shunt_zones.specs.defs.Moves.{moves_of};
ghost use Rattle.shunt_drivers.specs.defs.RosterFormat.{IsRoster};
ghost use Rattle.shunt_drivers.specs.defs.RosterRows.{head_row, duty_row, rows_of};
ghost use Rattle.shunt_drivers.specs.defs.RosterRows.{ReadsAsRoster};

use crate::records::Duty;
use shunt_instance::Instance;
use shunt_plan::Plan;
use shunt_rows::RowWriter;
use std::alloc::{AllocError, Global};

// The version of the files that are written.
const WRITTEN_VERSION: u64 = 1;

fn write_head(writer: &mut RowWriter) -> Result<(), AllocError>
    requires { writer.old.row ≡ [] }
    ensures { OnOk result
        (writer.new ≡ record { text = writer.old.text ++ text_of_row head_row; row = [] }) }
{
    writer.field(b"roster")?;
    writer.number(WRITTEN_VERSION)?;
    writer.end_row()
}

fn write_duty(writer: &mut RowWriter, duty: &Duty) -> Result<(), AllocError>
    requires { writer.old.row ≡ [] }
    ensures { OnOk result (writer.new
        ≡ record { text = writer.old.text ++ text_of_row (duty_row duty.now); row = [] }) }
{
    writer.field(b"duty")?;
    writer.number(duty.driver as u64)?;
    writer.move_word(duty.enters)?;
    writer.number(duty.id as u64)?;
    writer.end_row()
}

fn write_duties(writer: &mut RowWriter, duties: &[Duty]) -> Result<(), AllocError>
    requires { writer.old.row ≡ [] }
    ensures { OnOk result (writer.new
        ≡ record { text = writer.old.text ++ text_of_rows (map duty_row duties.now); row = [] }) }
{
    'duties: for duty in duties {
        write_duty(writer, duty)?;
    }
    Ok(())
}

/// The text of duties that a file can state over the moves of a plan in range, in their order.
///
/// It reads back over these moves as the same duties, and has at most 27,209 bytes. The error is want of memory.
pub fn write_roster(
    alloc: Global,
    instance: &Instance,
    plan: &Plan,
    duties: &Vec<Duty>,
) -> Result<Vec<u8>, AllocError>
    requires plan { IsPlanInRange instance.now plan.now }
    requires duties { IsRoster (moves_of instance.now plan.now.blocks) duties.now.items }
    ensures text { IfOk result (λ v. v.items ≡ text_of_rows (rows_of duties.now.items)) }
    ensures again { IfOk result
        (λ v. ReadsAsRoster (moves_of instance.now plan.now.blocks) duties.now.items v.items) }
    ensures short { IfOk result (λ v. length v.items ≤ 27209) }
{
    let mut writer = RowWriter::new(alloc)?;
    write_head(&mut writer)?;
    write_duties(&mut writer, duties)?;
    writer.finish()
}
