// The files of the current folder, the nights that they hold, and the fields of their records.
ghost use Rattle.std.specs.Prelude.{◌≤◌};

use shunt_base::{parse_decimal, parse_signed};
use shunt_instance::Instance;
use shunt_rows::{Row, records};
use shunt_station::read_station;
use shunt_store::{DiskStore, ReadAllError, read_all, write_all_to};
use shunt_timetable::read_timetable;
use std::alloc::Global;
use std::rt::Files;
use std::str::from_utf8;

/// The longest file that is read, in bytes.
const MOST_BYTES: u64 = 4_194_304;

/// The bytes of a file. None where it wasn't read.
pub(crate) fn bytes_of(rt: &(impl Files + AllocGlobal), name: &str) -> Option<Vec<u8>> {
    let mut store = DiskStore::new(rt);
    read_all(rt.alloc(), &mut store, name, MOST_BYTES).ok()
}

/// The records of a file. None where it wasn't read.
pub(crate) fn rows_of(rt: &(impl Files + AllocGlobal), name: &str) -> Option<Vec<Row>> {
    let bytes = bytes_of(rt, name)?;
    records(rt.alloc(), &bytes).ok()
}

/// A field of a record, counted from 1; empty where there is none.
pub(crate) fn field(row: &Row, k: usize) -> &[u8] {
    if k < 1 || k > row.len() {
        return &[];
    }
    row.field(k)
}

/// The same as text.
pub(crate) fn word(row: &Row, k: usize) -> &str {
    from_utf8(field(row, k)).unwrap_or("")
}

/// The same as a number.
pub(crate) fn number(row: &Row, k: usize) -> Option<u64> {
    parse_decimal(field(row, k))
}

/// The same as a number of either sign.
pub(crate) fn signed(row: &Row, k: usize) -> Option<i64> {
    parse_signed(field(row, k))
}

/// Two texts, one behind the other.
pub(crate) fn joined(alloc: Global, first: &[u8], second: &[u8]) -> Option<Vec<u8>> {
    let mut text = Vec::from_slice(alloc, first).ok()?;
    text.extend_from_slice(second).ok()?;
    Some(text)
}

/// The records of two texts, one behind the other.
pub(crate) fn joined_rows(alloc: Global, first: &[u8], second: &[u8]) -> Option<Vec<Row>> {
    let text = joined(alloc, first, second)?;
    records(alloc, &text).ok()
}

// The night of the records of a station and of a timetable.
fn night_of(alloc: Global, station: &Vec<Row>, timetable: &Vec<Row>) -> Option<Instance> {
    let Ok(station) = read_station(alloc, station) else {
        return None;
    };
    let Ok(timetable) = read_timetable(alloc, &station, timetable) else {
        return None;
    };
    Instance::join(alloc, station, timetable).ok()
}

// The records of a file of a night.
fn rows_in(rt: &(impl Files + AllocGlobal), night: &str, file: &str) -> Option<Vec<Row>> {
    let name = format!(in rt.alloc(); "nights/{night}/{file}").ok()?;
    rows_of(rt, name.as_str())
}

/// The night with a name: its folder holds a station file and a timetable file.
pub(crate) fn night(rt: &(impl Files + AllocGlobal), name: &str) -> Option<Instance> {
    let station = rows_in(rt, name, "S")?;
    let timetable = rows_in(rt, name, "T")?;
    night_of(rt.alloc(), &station, &timetable)
}

// Whether a file with this name can be written, and then holds this text and no more.
fn is_file_real(rt: &(impl Files + AllocGlobal), name: &str, text: &[u8]) -> Option<bool> {
    let mut store = DiskStore::new(rt);
    write_all_to(&mut store, name, text).ok()?;
    let mut store = DiskStore::new(rt);
    let bytes = read_all(rt.alloc(), &mut store, name, text.len() as u64).ok()?;
    Some(bytes.as_slice() == text)
}

// Whether a file is told to be longer than this.
fn is_longer(rt: &(impl Files + AllocGlobal), name: &str, limit: u64) -> bool
    requires { limit ≤ 4194304 }
{
    let mut store = DiskStore::new(rt);
    matches!(
        read_all(rt.alloc(), &mut store, name, limit),
        Err(ReadAllError::TooLong)
    )
}

/// Whether real files are read as they were written, and one that is too long or missing isn't read.
pub(crate) fn are_files_real(rt: &(impl Files + AllocGlobal)) -> Option<bool> {
    let written = is_file_real(rt, "written", b"timetable,1")?;
    let long = is_longer(rt, "written", 10);
    let emptied = is_file_real(rt, "written", b"")?;
    let missing = bytes_of(rt, "missing").is_none();
    Some(written && long && emptied && missing)
}
