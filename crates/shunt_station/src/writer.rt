// From a station to its text.
ghost use Rattle.std.specs.Prelude.{◌≡◌, ◌≤◌, ◌<◌, ◌++◌, [], ◌∷◌, map, length, IfOk, OnOk};
ghost use Rattle.shunt_rows.specs.defs.Records.{text_of_row, text_of_rows};
ghost use Rattle.shunt_instance.specs.defs.Wellformed.{IsStation};
ghost use Rattle.shunt_station.specs.defs.WrittenRows.{ends_text, head_row, type_row, platform_row};
ghost use Rattle.shunt_station.specs.defs.WrittenRows.{track_row, route_row, permit_row, cost_row};
ghost use Rattle.shunt_station.specs.defs.WrittenRows.{rows_of, ReadsAsStation};

use shunt_base::Name;
use shunt_instance::{Permit, Route, Station, Track, UnitType};
use shunt_rows::RowWriter;
use std::alloc::{AllocError, Global};

// The version of the files that are written.
const WRITTEN_VERSION: u64 = 2;

fn write_head(writer: &mut RowWriter, station: &Station) -> Result<(), AllocError>
    requires { writer.old.row ≡ [] }
    ensures { OnOk result (writer.new
        ≡ record { text = writer.old.text ++ text_of_row (head_row station.now); row = [] }) }
{
    writer.field(b"station")?;
    writer.number(WRITTEN_VERSION)?;
    writer.field(station.name.bytes())?;
    writer.end_row()
}

fn write_type(writer: &mut RowWriter, kind: &UnitType) -> Result<(), AllocError>
    requires { writer.old.row ≡ [] }
    ensures { OnOk result (writer.new
        ≡ record { text = writer.old.text ++ text_of_row (type_row kind.now); row = [] }) }
{
    writer.field(b"type")?;
    writer.field(kind.name.bytes())?;
    writer.number(u64::from(kind.length))?;
    writer.number(u64::from(kind.turn))?;
    writer.end_row()
}

fn write_platform(writer: &mut RowWriter, name: &Name) -> Result<(), AllocError>
    requires { writer.old.row ≡ [] }
    ensures { OnOk result (writer.new
        ≡ record { text = writer.old.text ++ text_of_row (platform_row name.now); row = [] }) }
{
    writer.field(b"platform")?;
    writer.field(name.bytes())?;
    writer.end_row()
}

// The letters of the sides at which a track is open.
fn sides_of(track: &Track) -> &'static [u8]
    ensures { result.now ≡ ends_text track.now.side_a track.now.side_b }
{
    if track.side_a && track.side_b {
        return b"AB";
    }
    if track.side_a { b"A" } else { b"B" }
}

fn write_track(writer: &mut RowWriter, track: &Track) -> Result<(), AllocError>
    requires { writer.old.row ≡ [] }
    ensures { OnOk result (writer.new
        ≡ record { text = writer.old.text ++ text_of_row (track_row track.now); row = [] }) }
{
    writer.field(b"track")?;
    writer.field(track.name.bytes())?;
    writer.number(u64::from(track.length))?;
    writer.field(sides_of(track))?;
    writer.end_row()
}

fn write_route(writer: &mut RowWriter, station: &Station, route: &Route) -> Result<(), AllocError>
    requires open_row { writer.old.row ≡ [] }
    requires platform { route.now.platform.0 < length station.now.platforms }
    requires track { route.now.track.0 < length station.now.tracks }
    ensures { OnOk result (writer.new
        ≡ record {
          text = writer.old.text ++ text_of_row (route_row station.now route.now);
          row = [];
        }) }
{
    writer.field(b"route")?;
    writer.field(station.platforms.as_slice()[route.platform.0 as usize].bytes())?;
    writer.field(
        station.tracks.as_slice()[route.track.0 as usize]
            .name
            .bytes(),
    )?;
    writer.side(route.side)?;
    writer.number(u64::from(route.cost))?;
    writer.end_row()
}

fn write_permit(
    writer: &mut RowWriter,
    station: &Station,
    permit: &Permit,
) -> Result<(), AllocError>
    requires open_row { writer.old.row ≡ [] }
    requires track { permit.now.track.0 < length station.now.tracks }
    requires kind { permit.now.kind.0 < length station.now.types }
    ensures { OnOk result (writer.new
        ≡ record {
          text = writer.old.text ++ text_of_row (permit_row station.now permit.now);
          row = [];
        }) }
{
    writer.field(b"permit")?;
    writer.field(
        station.tracks.as_slice()[permit.track.0 as usize]
            .name
            .bytes(),
    )?;
    writer.field(
        station.types.as_slice()[permit.kind.0 as usize]
            .name
            .bytes(),
    )?;
    writer.end_row()
}

fn write_costs(writer: &mut RowWriter, station: &Station) -> Result<(), AllocError>
    requires { writer.old.row ≡ [] }
    ensures { OnOk result (writer.new
        ≡ record { text = writer.old.text ++ text_of_row (cost_row station.now); row = [] }) }
{
    writer.field(b"cost")?;
    writer.number(u64::from(station.split))?;
    writer.number(u64::from(station.couple))?;
    writer.number(u64::from(station.unparked))?;
    writer.end_row()
}

fn write_types(writer: &mut RowWriter, types: &[UnitType]) -> Result<(), AllocError>
    requires { writer.old.row ≡ [] }
    ensures { OnOk result (writer.new
        ≡ record { text = writer.old.text ++ text_of_rows (map type_row types.now); row = [] }) }
{
    'types: for kind in types {
        write_type(writer, kind)?;
    }
    Ok(())
}

fn write_platforms(writer: &mut RowWriter, platforms: &[Name]) -> Result<(), AllocError>
    requires { writer.old.row ≡ [] }
    ensures { OnOk result (writer.new
        ≡ record {
          text = writer.old.text ++ text_of_rows (map platform_row platforms.now);
          row = [];
        }) }
{
    'platforms: for name in platforms {
        write_platform(writer, name)?;
    }
    Ok(())
}

fn write_tracks(writer: &mut RowWriter, tracks: &[Track]) -> Result<(), AllocError>
    requires { writer.old.row ≡ [] }
    ensures { OnOk result (writer.new
        ≡ record { text = writer.old.text ++ text_of_rows (map track_row tracks.now); row = [] }) }
{
    'tracks: for track in tracks {
        write_track(writer, track)?;
    }
    Ok(())
}

fn write_routes(writer: &mut RowWriter, station: &Station) -> Result<(), AllocError>
    requires open_row { writer.old.row ≡ [] }
    requires station { IsStation station.now }
    ensures { OnOk result (writer.new ≡ record {
      text = writer.old.text
          ++ text_of_rows (map (route_row station.now) station.now.routes);
      row = [];
    }) }
{
    'routes: for route in station.routes.as_slice() {
        write_route(writer, station, route)?;
    }
    Ok(())
}

fn write_permits(writer: &mut RowWriter, station: &Station) -> Result<(), AllocError>
    requires open_row { writer.old.row ≡ [] }
    requires station { IsStation station.now }
    ensures { OnOk result (writer.new ≡ record {
      text = writer.old.text
          ++ text_of_rows (map (permit_row station.now) station.now.permits);
      row = [];
    }) }
{
    'permits: for permit in station.permits.as_slice() {
        write_permit(writer, station, permit)?;
    }
    Ok(())
}

/// The text of a station: a file of version 2, which reads back as the same station.
///
/// It has the station record, the types, platforms, tracks, routes and permits, each in its own order, and the cost record.
pub fn write_station(alloc: Global, station: &Station) -> Result<Vec<u8>, AllocError>
    requires { IsStation station.now }
    ensures text { IfOk result (λ v. v.items ≡ text_of_rows (rows_of station.now)) }
    ensures again { IfOk result (λ v. ReadsAsStation station.now v.items) }
    ensures short { IfOk result (λ v. length v.items ≤ 282436) }
{
    let mut writer = RowWriter::new(alloc)?;
    write_head(&mut writer, station)?;
    write_types(&mut writer, station.types.as_slice())?;
    write_platforms(&mut writer, station.platforms.as_slice())?;
    write_tracks(&mut writer, station.tracks.as_slice())?;
    write_routes(&mut writer, station)?;
    write_permits(&mut writer, station)?;
    write_costs(&mut writer, station)?;
    writer.finish()
}
