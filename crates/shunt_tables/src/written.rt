// Files that are read and written again.
use crate::files::{field, night, word};
use shunt_instance::Instance;
use shunt_plan::{read_edits, read_plan, write_edits, write_plan};
use shunt_proof::{read_certificate, write_certificate};
use shunt_rows::{Row, records};
use shunt_station::{read_station, write_station};
use shunt_timetable::{read_timetable, write_timetable};
use shunt_zones::{read_zones, write_zones};
use std::alloc::Global;
use std::rt::Files;

fn station(alloc: Global, rows: &Vec<Row>) -> Option<Vec<u8>> {
    match read_station(alloc, rows) {
        Ok(station) => write_station(alloc, &station).ok(),
        Err(_) => None,
    }
}

fn timetable(alloc: Global, night: &Instance, rows: &Vec<Row>) -> Option<Vec<u8>> {
    match read_timetable(alloc, night.station(), rows) {
        Ok(timetable) => write_timetable(alloc, night.station(), &timetable).ok(),
        Err(_) => None,
    }
}

fn plan(alloc: Global, night: &Instance, rows: &Vec<Row>) -> Option<Vec<u8>> {
    match read_plan(alloc, night, rows) {
        Ok(plan) => write_plan(alloc, night, &plan).ok(),
        Err(_) => None,
    }
}

fn edits(alloc: Global, night: &Instance, rows: &Vec<Row>) -> Option<Vec<u8>> {
    match read_edits(alloc, night, rows) {
        Ok(turns) => write_edits(alloc, night, &turns).ok(),
        Err(_) => None,
    }
}

fn certificate(alloc: Global, night: &Instance, rows: &Vec<Row>) -> Option<Vec<u8>> {
    match read_certificate(alloc, night, rows) {
        Ok(certificate) => write_certificate(alloc, night, &certificate).ok(),
        Err(_) => None,
    }
}

fn zones(alloc: Global, night: &Instance, rows: &Vec<Row>) -> Option<Vec<u8>> {
    match read_zones(alloc, night.station(), rows) {
        Ok(zones) => write_zones(alloc, night.station(), &zones).ok(),
        Err(_) => None,
    }
}

// What is written of the records of a file of a format.
fn again(alloc: Global, night: &Instance, format: &str, rows: &Vec<Row>) -> Option<Vec<u8>> {
    match format {
        "station" => station(alloc, rows),
        "timetable" => timetable(alloc, night, rows),
        "plan" => plan(alloc, night, rows),
        "edits" => edits(alloc, night, rows),
        "certificate" => certificate(alloc, night, rows),
        "zones" => zones(alloc, night, rows),
        _ => None,
    }
}

// Whether a record has what is written of its text over its night.
fn is_written_in(alloc: Global, night: &Instance, row: &Row) -> Option<bool> {
    let rows = records(alloc, field(row, 3)).ok()?;
    let found = again(alloc, night, word(row, 1), &rows)?;
    Some(found.as_slice() == field(row, 4))
}

/// A record is a format, a night, a text, and what is written of it.
pub(crate) fn is_written(rt: &(impl Files + AllocGlobal), row: &Row) -> Option<bool> {
    match night(rt, word(row, 2)) {
        Some(night) => is_written_in(rt.alloc(), &night, row),
        None => None,
    }
}
