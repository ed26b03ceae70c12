// From orders to their text.
ghost use Rattle.std.specs.Prelude.{◌≡◌, ◌<◌, ◌≤◌, ◌++◌, [], ◌∷◌, All, map, length, IfOk, OnOk};
ghost use Rattle.shunt_rows.specs.defs.Records.{text_of_row, text_of_rows};
ghost use Rattle.shunt_instance.specs.defs.Wellformed.{IsStation};
ghost use Rattle.shunt_sheet.specs.defs.SheetFormat.{AreOrders};
ghost use Rattle.shunt_sheet.specs.defs.SheetRows.{head_row, order_row, rows_of};
ghost use Rattle.shunt_sheet.specs.defs.SheetRows.{ReadsAsSheet};

use crate::records::Order;
use shunt_base::minute_bytes;
use shunt_instance::Station;
use shunt_rows::RowWriter;
use std::alloc::{AllocError, Global};

// The version of the files that are written.
const WRITTEN_VERSION: u64 = 1;

fn write_head(writer: &mut RowWriter) -> Result<(), AllocError>
    requires { writer.old.row ≡ [] }
    ensures { OnOk result
        (writer.new ≡ record { text = writer.old.text ++ text_of_row head_row; row = [] }) }
{
    writer.field(b"sheet")?;
    writer.number(WRITTEN_VERSION)?;
    writer.end_row()
}

fn write_order(writer: &mut RowWriter, station: &Station, order: &Order) -> Result<(), AllocError>
    requires open_row { writer.old.row ≡ [] }
    requires track { order.now.track.0 < length station.now.tracks }
    ensures { OnOk result (writer.new
        ≡ record {
          text = writer.old.text ++ text_of_row (order_row station.now order.now);
          row = [];
        }) }
{
    writer.field(b"order")?;
    writer.field(&minute_bytes(order.minute))?;
    writer.move_word(order.enters)?;
    writer.number(order.id as u64)?;
    writer.number(order.length as u64)?;
    writer.field(
        station.tracks.as_slice()[order.track.0 as usize]
            .name
            .bytes(),
    )?;
    writer.side(order.side)?;
    writer.end_row()
}

fn write_orders(
    writer: &mut RowWriter,
    station: &Station,
    orders: &[Order],
) -> Result<(), AllocError>
    requires open_row { writer.old.row ≡ [] }
    requires tracks { All (λ o. o.track.0 < length station.now.tracks) orders.now }
    ensures { OnOk result (writer.new
        ≡ record {
          text = writer.old.text ++ text_of_rows (map (order_row station.now) orders.now);
          row = [];
        }) }
{
    'orders: for order in orders {
        write_order(writer, station, order)?;
    }
    Ok(())
}

/// The text of orders that a file can state over a well-formed station, in their order.
///
/// It reads back as the same orders, and has at most 40,808 bytes. The error is want of memory.
pub fn write_sheet(
    alloc: Global,
    station: &Station,
    orders: &Vec<Order>,
) -> Result<Vec<u8>, AllocError>
    requires station { IsStation station.now }
    requires orders { AreOrders station.now orders.now.items }
    ensures text { IfOk result
        (λ v. v.items ≡ text_of_rows (rows_of station.now orders.now.items)) }
    ensures again { IfOk result (λ v. ReadsAsSheet station.now orders.now.items v.items) }
    ensures short { IfOk result (λ v. length v.items ≤ 40808) }
{
    let mut writer = RowWriter::new(alloc)?;
    write_head(&mut writer)?;
    write_orders(&mut writer, station, orders)?;
    writer.finish()
}
