// The first faults of files.
use crate::files::{bytes_of, field, night, number, word};
use shunt_instance::Instance;
use shunt_plan::{read_edits, read_pins, read_plan};
use shunt_proof::read_certificate;
use shunt_rows::{ReadError, Row, records};
use shunt_station::read_station;
use shunt_timetable::read_timetable;
use shunt_zones::read_zones;
use std::alloc::{AllocError, Global};
use std::rt::Files;

// The record, field and number of the kind of the first fault, or `ok` for a value.
fn place<T: Drop>(alloc: Global, read: Result<T, ReadError>) -> Option<String> {
    match read {
        Ok(_) => String::from_str(alloc, "ok").ok(),
        Err(ReadError::Fault(fault)) => {
            let kind = fault.kind.number();
            format!(in alloc; "{}.{}.{kind}", fault.row, fault.field).ok()
        }
        Err(ReadError::Memory) => None,
    }
}

// The same of the records of a file of a format.
fn place_in(alloc: Global, night: &Instance, format: &str, rows: &Vec<Row>) -> Option<String> {
    match format {
        "station" => place(alloc, read_station(alloc, rows)),
        "timetable" => place(alloc, read_timetable(alloc, night.station(), rows)),
        "plan" => place(alloc, read_plan(alloc, night, rows)),
        "pins" => place(alloc, read_pins(alloc, night, rows)),
        "edits" => place(alloc, read_edits(alloc, night, rows)),
        "certificate" => place(alloc, read_certificate(alloc, night, rows)),
        "zones" => place(alloc, read_zones(alloc, night.station(), rows)),
        _ => None,
    }
}

// Adds a line, with a number in place of each `#`.
fn push_line(
    alloc: Global,
    text: &mut Vec<u8>,
    line: &[u8],
    number: u64,
) -> Result<(), AllocError> {
    let digits = format!(in alloc; "{number}")?;
    for byte in line {
        if *byte == b'#' {
            text.extend_from_slice(digits.as_bytes())?;
        } else {
            text.push(*byte)?;
        }
    }
    text.push(b'\n')?;
    Ok(())
}

fn push_lines(
    alloc: Global,
    text: &mut Vec<u8>,
    line: &[u8],
    times: u64,
) -> Result<(), AllocError> {
    for number in 0..times {
        push_line(alloc, text, line, number.saturating_add(1))?;
    }
    Ok(())
}

// Adds the lines that the fields behind the fifth one name: how many times, and the line.
fn push_repeated(alloc: Global, text: &mut Vec<u8>, row: &Row) -> Option<()> {
    for k in 3..row.len().saturating_add(1) / 2 {
        let times = number(row, k.saturating_mul(2))?;
        let line = field(row, k.saturating_mul(2).saturating_add(1));
        push_lines(alloc, text, line, times).ok()?;
    }
    Some(())
}

// What the text of a record begins with.
fn front(rt: &(impl Files + AllocGlobal), row: &Row) -> Option<Vec<u8>> {
    let name = format!(in rt.alloc(); "fronts/{}", word(row, 3)).ok()?;
    bytes_of(rt, name.as_str())
}

// The text that a record names: a front, lines that are repeated, and the rest.
fn text_of(rt: &(impl Files + AllocGlobal), row: &Row) -> Option<Vec<u8>> {
    let mut text = front(rt, row)?;
    push_repeated(rt.alloc(), &mut text, row)?;
    text.extend_from_slice(field(row, 5)).ok()?;
    Some(text)
}

// Whether the first fault of records is where a record says.
fn is_there(alloc: Global, night: &Instance, rows: &Vec<Row>, row: &Row) -> Option<bool> {
    let found = place_in(alloc, night, word(row, 1), rows)?;
    Some(found.as_bytes() == field(row, 4))
}

// Whether a record has the first fault of its text over its night.
fn is_first_fault_in(rt: &(impl Files + AllocGlobal), night: &Instance, row: &Row) -> Option<bool> {
    let text = text_of(rt, row)?;
    let rows = records(rt.alloc(), &text).ok()?;
    is_there(rt.alloc(), night, &rows, row)
}

/// A record is a format, a night, the file that the text begins with, the place of the first fault, and the rest of the text; and
/// behind these how many times a line stands between the two, and that line, in which `#` is its number.
pub(crate) fn is_first_fault(rt: &(impl Files + AllocGlobal), row: &Row) -> Option<bool> {
    match night(rt, word(row, 2)) {
        Some(night) => is_first_fault_in(rt, &night, row),
        None => None,
    }
}
