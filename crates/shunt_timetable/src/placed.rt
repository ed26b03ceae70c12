// Reading the units of a run that has come.
ghost use Rattle.std.specs.Prelude.{◌≡◌, ◌≤◌, not, length, unwrap_or, OnOk};
ghost use Rattle.std.specs.List.{list_any};
ghost use Rattle.shunt_base.specs.defs.Spelling.{decimal_of};
ghost use Rattle.shunt_rows.specs.declared.fault.RowKind.TheVariants as kinds;
ghost use Rattle.shunt_rows.specs.defs.Records.{at};
ghost use Rattle.shunt_rows.specs.defs.Checks.{answer, must as holding, found as finding};
ghost use Rattle.shunt_rows.specs.defs.Fields.{is_within as lies_within};
ghost use Rattle.shunt_timetable.specs.defs.TimetableFormat.{meets_units, units_in};

use shunt_base::parse_decimal;
use shunt_instance::{PlacedRun, Train};
use shunt_rows::{Row, RowFault, RowKind, found, is_within, must, number_in};

// Whether one of that many units of a train, from this place on, is one of a placed run.
fn meets_units(first: u64, count: u64, run: &PlacedRun) -> bool
    ensures { result ≡ meets_units first count run.now }
{
    let past = u64::from(run.first) + u64::from(run.count);
    0 < count && first < past && u64::from(run.first) < first.saturating_add(count)
}

// Whether one of these units is one of these runs.
fn meets_one(runs: &[PlacedRun], first: u64, count: u64) -> bool
    ensures { result ≡ list_any (meets_units first count) runs.now }
{
    runs.iter().any(|run| meets_units(first, count, run))
}

// The place at field 3.
fn read_place(row: &Row, n: u32) -> Result<u64, RowFault>
    requires { 3 ≤ length row.now }
    ensures { result ≡ answer n (finding 0 (decimal_of (at row.now 3)) 3 kinds.Number) }
{
    found(parse_decimal(row.field(3)), n, 3, RowKind::Number)
}

// How many units field 4 says, or none where it says no number.
fn said_count(row: &Row) -> u64
    requires { 4 ≤ length row.now }
    ensures { result ≡ unwrap_or (decimal_of (at row.now 4)) 0 }
{
    parse_decimal(row.field(4)).unwrap_or(0)
}

// None of the units from a place on has come before.
fn must_be_new(train: &Train, first: u64, row: &Row, n: u32) -> Result<(), RowFault>
    requires { 4 ≤ length row.now }
    ensures { result ≡ answer n (holding (not (list_any (meets_units first
        (unwrap_or (decimal_of (at row.now 4)) 0)) train.now.placed)) 3 kinds.Repeat) }
{
    let repeats = meets_one(train.placed.as_slice(), first, said_count(row));
    must(!repeats, n, 3, RowKind::Repeat)
}

// The train has a unit at the place.
fn must_be_there(train: &Train, first: u64, n: u32) -> Result<(), RowFault>
    ensures answer { result
        ≡ answer n (holding (lies_within 1 (length train.now.units) first) 3 kinds.Limit) }
    ensures there { OnOk result ((1 ≤ first) × (first ≤ length train.now.units)) }
{
    let units = train.units.len() as u64;
    must(is_within(1, units, first), n, 3, RowKind::Limit)
}

/// The units at fields 3 and 4, none of which has come yet, as a run that was cleared away.
#[tactic(auto, unfolding(crate::specs::defs::TimetableFormat::units_in))]
pub(crate) fn read_placed_units(train: &Train, row: &Row, n: u32) -> Result<PlacedRun, RowFault>
    requires fields { 4 ≤ length row.now }
    requires few { length train.now.units ≤ 8 }
    ensures { result ≡ answer n (units_in train.now row.now) }
{
    let first = read_place(row, n)?;
    must_be_new(train, first, row, n)?;
    must_be_there(train, first, n)?;
    let units = train.units.len() as u64;
    let count = number_in(row, n, 4, 1, units + 1 - first)?;
    Ok(PlacedRun {
        first: first as u8,
        count: count as u8,
        came_by: None,
    })
}
