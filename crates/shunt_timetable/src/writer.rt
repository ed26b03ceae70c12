// Writing a timetable.
ghost use Rattle.std.specs.Prelude.{◌≡◌, ◌++◌, ◌<◌, ◌≤◌, [], Ok, All, IfOk, IfSome, OnOk, length};
ghost use Rattle.std.specs.Prelude.{slice_index_or, map, flat_map, not, filter, nat_lt, codes};
ghost use Rattle.std.specs.Prelude.{false};
ghost use Rattle.std.specs.List.{list_any};
ghost use Rattle.shunt_rows.specs.defs.Records.{records_of, text_of_row, text_of_rows};
ghost use Rattle.shunt_rows.specs.defs.Formats.{reading};
ghost use Rattle.shunt_instance.specs.defs.Words.{is_standing, track_names};
ghost use Rattle.shunt_instance.specs.defs.Wellformed.{IsOrigin, IsStation, IsTimetable, IsTrain};
ghost use Rattle.shunt_instance.specs.defs.Wellformed.{IsPlacedRun};
ghost use Rattle.shunt_timetable.specs.defs.TimetableFormat.{timetable_format};
ghost use Rattle.shunt_timetable.specs.defs.WrittenRows.{type_names, place_name, unit_names};
ghost use Rattle.shunt_timetable.specs.defs.WrittenRows.{standing_row, moving_row, end_fields};
ghost use Rattle.shunt_timetable.specs.defs.WrittenRows.{placed_row, placed_rows, all_to_come};
ghost use Rattle.shunt_timetable.specs.defs.WrittenRows.{first_row, rows_of};

use shunt_base::{TypeId, minute_bytes};
use shunt_instance::{Origin, PlacedRun, Station, Timetable, Track, TrackEnd, Train, UnitType};
use shunt_rows::RowWriter;
use std::alloc::{AllocError, Global};

fn type_name(types: &[UnitType], kind: TypeId) -> &[u8]
    requires { kind.0 < length types.now }
    ensures { result.now ≡ slice_index_or (map (λ t. t.name) types.now) kind.0 [] }
{
    types[kind.0 as usize].name.bytes()
}

fn track_name(tracks: &[Track], k: usize) -> &[u8]
    requires { k < length tracks.now }
    ensures { result.now ≡ slice_index_or (map (λ t. t.name) tracks.now) k [] }
{
    tracks[k].name.bytes()
}

fn place_name(station: &Station, origin: Origin) -> &[u8]
    requires { IsOrigin station.now origin }
    ensures { result.now ≡ place_name station.now origin }
{
    match origin {
        Origin::Platform(platform) => station.platforms.as_slice()[platform.0 as usize].bytes(),
        Origin::Track(track) => track_name(station.tracks.as_slice(), track.0 as usize),
    }
}

fn write_units(
    writer: &mut RowWriter,
    station: &Station,
    units: &[TypeId],
) -> Result<(), AllocError>
    requires { All (λ k. k.0 < length station.now.types) units.now }
    ensures { OnOk result (writer.new ≡ record writer.old {
      row = writer.old.row
          ++ map (λ k. slice_index_or (type_names station.now) k.0 []) units.now;
    }) }
{
    let types = station.types.as_slice();
    'units: for kind in units {
        writer.field(type_name(types, *kind))?;
    }
    Ok(())
}

fn write_standing(
    writer: &mut RowWriter,
    station: &Station,
    train: &Train,
) -> Result<(), AllocError>
    requires row { writer.old.row ≡ [] }
    requires train { IsTrain station.now train.now }
    ensures { OnOk result (writer.new
        ≡ record {
          text = writer.old.text ++ text_of_row (standing_row station.now train.now);
          row = [];
        }) }
{
    writer.field(b"stand")?;
    writer.field(train.name.bytes())?;
    writer.field(place_name(station, train.origin))?;
    write_units(writer, station, train.units.as_slice())?;
    writer.end_row()
}

fn write_moving(
    writer: &mut RowWriter,
    word: &[u8],
    station: &Station,
    train: &Train,
) -> Result<(), AllocError>
    requires row { writer.old.row ≡ [] }
    requires train { IsTrain station.now train.now }
    ensures { OnOk result (writer.new
        ≡ record {
          text = writer.old.text ++ text_of_row (moving_row station.now word.now train.now);
          row = [];
        }) }
{
    writer.field(word)?;
    writer.field(train.name.bytes())?;
    writer.field(&minute_bytes(train.minute))?;
    writer.field(place_name(station, train.origin))?;
    write_units(writer, station, train.units.as_slice())?;
    writer.end_row()
}

pub(crate) fn stands(train: &Train) -> bool
    ensures { result ≡ is_standing train.now }
{
    match train.origin {
        Origin::Platform(_) => false,
        Origin::Track(_) => true,
    }
}

fn write_all_standing(
    writer: &mut RowWriter,
    station: &Station,
    trains: &[Train],
) -> Result<(), AllocError>
    requires row { writer.old.row ≡ [] }
    requires trains { All (IsTrain station.now) trains.now }
    ensures { OnOk result (writer.new ≡ record {
      text = writer.old.text ++ text_of_rows
          (map (standing_row station.now) (filter is_standing trains.now));
      row = [];
    }) }
{
    'trains: for train in trains {
        if stands(train) {
            write_standing(writer, station, train)?;
        }
    }
    Ok(())
}

fn write_all_moving(
    writer: &mut RowWriter,
    word: &[u8],
    station: &Station,
    trains: &[Train],
) -> Result<(), AllocError>
    requires row { writer.old.row ≡ [] }
    requires trains { All (IsTrain station.now) trains.now }
    ensures { OnOk result (writer.new
        ≡ record {
          text = writer.old.text ++ text_of_rows (map (moving_row station.now word.now)
              (filter (λ r. not (is_standing r)) trains.now));
          row = [];
        }) }
{
    'moving: for train in trains {
        if !stands(train) {
            write_moving(writer, word, station, train)?;
        }
    }
    Ok(())
}

fn write_end(
    writer: &mut RowWriter,
    station: &Station,
    end: Option<TrackEnd>,
) -> Result<(), AllocError>
    requires { IfSome end (λ e. e.track.0 < length station.now.tracks) }
    ensures { OnOk result
        (writer.new ≡ record writer.old { row = writer.old.row ++ end_fields station.now end }) }
{
    let Some(end) = end else {
        return writer.field(b"unparked");
    };
    writer.field(b"park")?;
    writer.field(track_name(station.tracks.as_slice(), end.track.0 as usize))?;
    writer.side(end.side)
}

fn write_placed(
    writer: &mut RowWriter,
    station: &Station,
    train: &Train,
    run: &PlacedRun,
) -> Result<(), AllocError>
    requires row { writer.old.row ≡ [] }
    requires run { IsPlacedRun station.now train.now run.now }
    ensures { OnOk result (writer.new
        ≡ record {
          text = writer.old.text ++ text_of_row (placed_row station.now train.now run.now);
          row = [];
        }) }
{
    writer.field(b"placed")?;
    writer.field(train.name.bytes())?;
    writer.number(u64::from(run.first))?;
    writer.number(u64::from(run.count))?;
    write_end(writer, station, run.came_by)?;
    writer.end_row()
}

fn write_runs(writer: &mut RowWriter, station: &Station, train: &Train) -> Result<(), AllocError>
    requires row { writer.old.row ≡ [] }
    requires train { IsTrain station.now train.now }
    ensures { OnOk result (writer.new
        ≡ record {
          text = writer.old.text ++ text_of_rows (placed_rows station.now train.now);
          row = [];
        }) }
{
    let runs = train.placed.as_slice();
    'runs: for run in runs {
        write_placed(writer, station, train, run)?;
    }
    Ok(())
}

fn write_all_runs(
    writer: &mut RowWriter,
    station: &Station,
    trains: &[Train],
) -> Result<(), AllocError>
    requires row { writer.old.row ≡ [] }
    requires trains { All (IsTrain station.now) trains.now }
    ensures { OnOk result (writer.new
        ≡ record {
          text = writer.old.text ++ text_of_rows (flat_map (placed_rows station.now) trains.now);
          row = [];
        }) }
{
    'trains: for train in trains {
        write_runs(writer, station, train)?;
    }
    Ok(())
}

// Whether units of a train have come.
fn has_runs(train: &Train) -> bool
    ensures { result ≡ nat_lt 0 (length train.now.placed) }
{
    train.placed.len() > 0
}

// Whether one of these trains has a placed run.
fn some_have_come(trains: &[Train]) -> bool
    ensures { result ≡ list_any (λ t. nat_lt 0 (length t.placed)) trains.now }
{
    trains.iter().any(|train| has_runs(train))
}

// Whether none of these trains has a placed run.
fn all_to_come(trains: &[Train]) -> bool
    ensures { result ≡ all_to_come trains.now }
{
    !some_have_come(trains)
}

fn write_first(writer: &mut RowWriter, timetable: &Timetable) -> Result<(), AllocError>
    requires { writer.old.row ≡ [] }
    ensures { OnOk result (writer.new
        ≡ record { text = writer.old.text ++ text_of_row (first_row timetable.now); row = [] }) }
{
    let to_come = all_to_come(timetable.arrive.as_slice());
    writer.field(b"timetable")?;
    writer.field(if to_come { b"2" } else { b"3" })?;
    writer.end_row()
}

/// The text of a timetable over its station: the trains that stand, those that arrive and those that depart, each in their own
/// order, and what has come already, by train and place. It is of version 2 where nothing has, and else of version 3.
///
/// It has at most 23,172 bytes, and reads back as the same timetable. The error is want of memory.
pub fn write_timetable(
    alloc: Global,
    station: &Station,
    timetable: &Timetable,
) -> Result<Vec<u8>, AllocError>
    requires station { IsStation station.now }
    requires timetable { IsTimetable station.now timetable.now }
    ensures text { IfOk result (λ v. v.items ≡ text_of_rows (rows_of station.now timetable.now)) }
    ensures rows { IfOk result (λ v. records_of v.items ≡ rows_of station.now timetable.now) }
    ensures again { IfOk result
        (λ v. reading (timetable_format station.now) (records_of v.items) ≡ Ok timetable.now) }
    ensures short { IfOk result (λ v. length v.items ≤ 23172) }
{
    let mut writer = RowWriter::new(alloc)?;
    write_first(&mut writer, timetable)?;
    write_all_standing(&mut writer, station, timetable.arrive.as_slice())?;
    write_all_moving(&mut writer, b"arrive", station, timetable.arrive.as_slice())?;
    write_all_moving(&mut writer, b"depart", station, timetable.depart.as_slice())?;
    write_all_runs(&mut writer, station, timetable.arrive.as_slice())?;
    writer.finish()
}
