//! Measures of what no whole run of the program shows, by the first word: `records FILE`, `tracks`, `timelines`, `choices STATION
//! TIMETABLE WALKS`, `assign STATION TIMETABLE RUNS` and `duals STATION TIMETABLE RUNS`. Without words it prints nothing.
#![tactic(auto)]

mod assignments;
mod choices;
mod duals;
mod nights;
mod timelines;
mod tracks;

use assignments::measure_assign;
use choices::measure_choices;
use duals::measure_duals;
use shunt_rows::records;
use shunt_store::{DiskStore, read_all};
use std::rt::{Clock, Env, Files};
use std::time::CpuClock;
use std::{env, io};
use timelines::measure_timelines;
use tracks::measure_tracks;

/// The longest file that is measured, in bytes.
const MOST_BYTES: u64 = 100_000_000;

// How long `records` takes on the bytes of a file, and how many records it gives.
fn measure_records(
    rt: &(impl Files + AllocGlobal + CpuClock + Print),
    name: &str,
) -> io::Result<()> {
    let mut store = DiskStore::new(rt);
    let Ok(bytes) = read_all(rt.alloc(), &mut store, name, MOST_BYTES) else {
        return rt.println("the file was not read");
    };
    let start = rt.process_cpu_time()?;
    let Ok(rows) = records(rt.alloc(), &bytes) else {
        return rt.println("out of memory");
    };
    let end = rt.process_cpu_time()?;
    let micros = end.as_micros().saturating_sub(start.as_micros());
    let count = rows.len();
    println!(rt; "records {count} microseconds {micros}")
}

// The word at a place, empty where there is none.
fn word(words: &[String], place: usize) -> &str {
    match words.get(place) {
        Some(word) => word.as_str(),
        None => "",
    }
}

// Measures that make what they need.
fn measure_made(rt: &(impl AllocGlobal + CpuClock + Print), words: &[String]) -> io::Result<()> {
    match word(words, 0) {
        "tracks" => {
            measure_tracks(rt, 100, 320)?;
            measure_tracks(rt, 400, 80)?;
            measure_tracks(rt, 1600, 20)
        }
        "timelines" => {
            for tracks in [1, 60] {
                measure_timelines(rt, 10, tracks, 1000)?;
                measure_timelines(rt, 100, tracks, 200)?;
                measure_timelines(rt, 1000, tracks, 20)?;
                measure_timelines(rt, 10000, tracks, 4)?;
            }
            Ok(())
        }
        _ => Ok(()),
    }
}

// Measures over the files that the words name.
fn measure(rt: &(impl Files + AllocGlobal + CpuClock + Print), words: &[String]) -> io::Result<()> {
    let (first, second, third) = (word(words, 1), word(words, 2), word(words, 3));
    match word(words, 0) {
        "records" => measure_records(rt, first),
        "choices" => measure_choices(rt, first, second, third),
        "assign" => measure_assign(rt, first, second, third),
        "duals" => measure_duals(rt, first, second, third),
        _ => measure_made(rt, words),
    }
}

fn main(rt: HostRuntime) -> io::Result<()> {
    let mut words = Vec::new(rt.alloc());
    for word in env::args(&rt)?.skip(1) {
        words.push(word)?;
    }
    measure(&rt, &words)
}
