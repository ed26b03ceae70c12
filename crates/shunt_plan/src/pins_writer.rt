// From pins to their text.
ghost use Rattle.std.specs.Prelude.{◌≡◌, ◌≤◌, ◌++◌, [], length, IfOk, OnOk};
ghost use Rattle.shunt_rows.specs.defs.Records.{text_of_row, text_of_rows};
ghost use Rattle.shunt_blocks.specs.defs.Lists.{AreInRange};
ghost use Rattle.shunt_plan.specs.defs.PinsRows.{pins_head, rows_of_pins, ReadsAsPins};

use crate::writer::{WRITTEN_VERSION, write_blocks};
use shunt_blocks::Block;
use shunt_instance::Instance;
use shunt_rows::RowWriter;
use std::alloc::{AllocError, Global};

fn write_pins_head(writer: &mut RowWriter) -> Result<(), AllocError>
    requires { writer.old.row ≡ [] }
    ensures { OnOk result
        (writer.new ≡ record { text = writer.old.text ++ text_of_row pins_head; row = [] }) }
{
    writer.field(b"pins")?;
    writer.number(WRITTEN_VERSION)?;
    writer.end_row()
}

// A writer that has written the pins.
fn written(alloc: Global, instance: &Instance, pins: &[Block]) -> Result<RowWriter, AllocError>
    requires { AreInRange instance.now pins.now }
    ensures { IfOk result
        (λ w. w ≡ record { text = text_of_rows (rows_of_pins instance.now pins.now); row = [] }) }
{
    let mut writer = RowWriter::new(alloc)?;
    write_pins_head(&mut writer)?;
    write_blocks(&mut writer, instance, pins)?;
    Ok(writer)
}

/// The text of pins in range, in their order.
///
/// It reads back as the same pins, and has at most 32,007 bytes. The error is want of memory.
pub fn write_pins(alloc: Global, instance: &Instance, pins: &[Block]) -> Result<Vec<u8>, AllocError>
    requires { AreInRange instance.now pins.now }
    ensures text { IfOk result (λ v. v.items ≡ text_of_rows (rows_of_pins instance.now pins.now)) }
    ensures again { IfOk result (λ v. ReadsAsPins instance.now pins.now v.items) }
    ensures short { IfOk result (λ v. length v.items ≤ 32007) }
{
    // The call tells that the night is well formed, so that its names are plain and distinct.
    instance.station();
    written(alloc, instance, pins)?.finish()
}
