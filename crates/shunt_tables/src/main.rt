//! Tables of single calls, read from the files of the current folder. Each record of a table but its first is a call with what must
//! come of it. Prints a line for each record that differs, and last how many passed and how many failed.
#![tactic(auto)]

mod assignments;
mod duals;
mod faults;
mod files;
mod spellings;
mod stays;
mod stores;
mod timelines;
mod written;

use assignments::{is_assigned, is_shared};
use duals::is_bounded;
use faults::is_first_fault;
use files::{are_files_real, rows_of};
use shunt_rows::Row;
use spellings::{is_spelled, is_taken_apart};
use stays::is_clash;
use std::io;
use std::process::ExitCode;
use std::rt::Files;
use stores::is_stored;
use timelines::are_many_counted;
use written::is_written;

/// A kind of table, or of what is shown without one.
#[derive(Clone, Copy, Drop)]
enum Table {
    Assignments,
    Duals,
    Faults,
    Records,
    Shares,
    Spellings,
    Stays,
    Stores,
    Written,
}

impl Table {
    /// The file that holds it.
    fn name(self) -> &'static str {
        match self {
            Table::Assignments => "assignments.csv",
            Table::Duals => "duals.csv",
            Table::Faults => "faults.csv",
            Table::Records => "records.csv",
            Table::Shares => "shares.csv",
            Table::Spellings => "spellings.csv",
            Table::Stays => "stays.csv",
            Table::Stores => "stores.csv",
            Table::Written => "written.csv",
        }
    }
}

const TABLES: [Table; 9] = [
    Table::Assignments,
    Table::Duals,
    Table::Faults,
    Table::Records,
    Table::Shares,
    Table::Spellings,
    Table::Stays,
    Table::Stores,
    Table::Written,
];

/// How many records passed and failed.
#[derive(Clone, Copy, Drop)]
struct Tally {
    passed: u32,
    failed: u32,
}

impl Tally {
    fn count(&mut self, passes: bool) {
        if passes {
            self.passed = self.passed.saturating_add(1);
        } else {
            self.failed = self.failed.saturating_add(1);
        }
    }
}

// Whether what a record says comes of its call. None where it isn't a record of the table, or memory runs out.
fn answer(rt: &(impl Files + AllocGlobal), table: Table, row: &Row) -> Option<bool> {
    match table {
        Table::Assignments => is_assigned(rt, row),
        Table::Duals => is_bounded(rt, row),
        Table::Faults => is_first_fault(rt, row),
        Table::Records => is_taken_apart(rt.alloc(), row),
        Table::Shares => is_shared(rt, row),
        Table::Spellings => is_spelled(rt.alloc(), row),
        Table::Stays => is_clash(rt.alloc(), row),
        Table::Stores => is_stored(rt.alloc(), row),
        Table::Written => is_written(rt, row),
    }
}

// Counts what came of something, and prints a line where it differs.
fn note(rt: &impl Print, tally: &mut Tally, answer: Option<bool>, what: &str) -> io::Result<()> {
    let passes = answer == Some(true);
    tally.count(passes);
    if passes {
        return Ok(());
    }
    rt.println(what)
}

// Prints which record of a table differs.
fn tell(rt: &impl Print, table: Table, number: usize) -> io::Result<()> {
    let name = table.name();
    println!(rt; "{name} record {number} differs")
}

// The records of a table, without the first one.
fn check_rows(
    rt: &(impl Files + AllocGlobal + Print),
    tally: &mut Tally,
    table: Table,
    rows: &[Row],
) -> io::Result<()> {
    for k in 1..rows.len() {
        let passes = answer(rt, table, &rows[k]) == Some(true);
        tally.count(passes);
        if !passes {
            tell(rt, table, k.saturating_add(1))?;
        }
    }
    Ok(())
}

fn check_table(
    rt: &(impl Files + AllocGlobal + Print),
    tally: &mut Tally,
    table: Table,
) -> io::Result<()> {
    match rows_of(rt, table.name()) {
        Some(rows) => check_rows(rt, tally, table, &rows),
        None => note(rt, tally, None, table.name()),
    }
}

fn check_all(rt: &(impl Files + AllocGlobal + Print), tally: &mut Tally) -> io::Result<()> {
    for table in TABLES {
        check_table(rt, tally, table)?;
    }
    let real = are_files_real(rt);
    note(
        rt,
        tally,
        real,
        "a real file is not read back as it was written",
    )?;
    let many = are_many_counted(rt.alloc());
    note(
        rt,
        tally,
        many,
        "30,000 stays on sixty tracks are not counted",
    )
}

fn main(rt: HostRuntime) -> ExitCode {
    let mut tally = Tally {
        passed: 0,
        failed: 0,
    };
    if check_all(&rt, &mut tally).is_err() {
        return ExitCode::from(2);
    }
    let (passed, failed) = (tally.passed, tally.failed);
    if println!(&rt; "{passed} passed, {failed} failed").is_err() {
        return ExitCode::from(2);
    }
    ExitCode::from(u8::from(failed != 0))
}
