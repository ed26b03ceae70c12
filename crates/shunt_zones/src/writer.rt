// From zones to their text.
ghost use Rattle.std.specs.Prelude.{◌≡◌, ◌<◌, ◌++◌, [], All, map, length, IfOk, OnOk};
ghost use Rattle.shunt_rows.specs.defs.Records.{text_of_row, text_of_rows};
ghost use Rattle.shunt_instance.specs.defs.Wellformed.{IsStation};
ghost use Rattle.shunt_zones.specs.defs.ZonesFormat.{IsOverWay, IsZones};
ghost use Rattle.shunt_zones.specs.defs.ZonesRows.{head_row, zone_row, over_row, rows_of};
ghost use Rattle.shunt_zones.specs.defs.ZonesRows.{ReadsAsZones};

use crate::records::{Over, Zones};
use shunt_base::Name;
use shunt_instance::Station;
use shunt_rows::RowWriter;
use std::alloc::{AllocError, Global};

// The version of the files that are written.
const WRITTEN_VERSION: u64 = 1;

fn write_head(writer: &mut RowWriter) -> Result<(), AllocError>
    requires { writer.old.row ≡ [] }
    ensures { OnOk result
        (writer.new ≡ record { text = writer.old.text ++ text_of_row head_row; row = [] }) }
{
    writer.field(b"zones")?;
    writer.number(WRITTEN_VERSION)?;
    writer.end_row()
}

fn write_zone(writer: &mut RowWriter, name: &Name) -> Result<(), AllocError>
    requires { writer.old.row ≡ [] }
    ensures { OnOk result (writer.new
        ≡ record { text = writer.old.text ++ text_of_row (zone_row name.now); row = [] }) }
{
    writer.field(b"zone")?;
    writer.field(name.bytes())?;
    writer.end_row()
}

fn write_over(
    writer: &mut RowWriter,
    station: &Station,
    names: &[Name],
    over: &Over,
) -> Result<(), AllocError>
    requires open_row { writer.old.row ≡ [] }
    requires over { IsOverWay station.now (length names.now) over.now }
    ensures { OnOk result (writer.new
        ≡ record {
          text = writer.old.text ++ text_of_row (over_row station.now names.now over.now);
          row = [];
        }) }
{
    writer.field(b"over")?;
    writer.field(station.platforms.as_slice()[over.platform.0 as usize].bytes())?;
    writer.field(
        station.tracks.as_slice()[over.track.0 as usize]
            .name
            .bytes(),
    )?;
    writer.side(over.side)?;
    writer.field(names[over.zone as usize].bytes())?;
    writer.end_row()
}

fn write_names(writer: &mut RowWriter, names: &[Name]) -> Result<(), AllocError>
    requires { writer.old.row ≡ [] }
    ensures { OnOk result (writer.new
        ≡ record { text = writer.old.text ++ text_of_rows (map zone_row names.now); row = [] }) }
{
    'names: for name in names {
        write_zone(writer, name)?;
    }
    Ok(())
}

fn write_overs(
    writer: &mut RowWriter,
    station: &Station,
    names: &[Name],
    overs: &[Over],
) -> Result<(), AllocError>
    requires open_row { writer.old.row ≡ [] }
    requires overs { All (IsOverWay station.now (length names.now)) overs.now }
    ensures { OnOk result (writer.new ≡ record {
      text = writer.old.text
          ++ text_of_rows (map (over_row station.now names.now) overs.now);
      row = [];
    }) }
{
    'overs: for over in overs {
        write_over(writer, station, names, over)?;
    }
    Ok(())
}

/// The text of zones that a file can state over a well-formed station: the zones, then what they lie over, each in its own
/// order.
///
/// It reads back as the same zones. The error is want of memory.
pub fn write_zones(alloc: Global, station: &Station, zones: &Zones) -> Result<Vec<u8>, AllocError>
    requires station { IsStation station.now }
    requires zones { IsZones station.now zones.now }
    ensures text { IfOk result (λ v. v.items ≡ text_of_rows (rows_of station.now zones.now)) }
    ensures again { IfOk result (λ v. ReadsAsZones station.now zones.now v.items) }
{
    let names = zones.names.as_slice();
    let mut writer = RowWriter::new(alloc)?;
    write_head(&mut writer)?;
    write_names(&mut writer, names)?;
    write_overs(&mut writer, station, names, zones.over.as_slice())?;
    writer.finish()
}
