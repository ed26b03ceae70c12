// From records to a roster.
ghost use Rattle.std.specs.Prelude.{◌≡◌, ◌≤◌, length, IfOk};
ghost use Rattle.std.specs.List.{list_any};
ghost use Rattle.shunt_rows.specs.defs.Checks.{answer};
ghost use Rattle.shunt_rows.specs.defs.Formats.{reading};
ghost use Rattle.shunt_rows.specs.defs.Given.{Gives};
ghost use Rattle.shunt_plan.specs.defs.Plans.{IsPlanInRange};
ghost use Rattle.shunt_zones.specs.defs.Moves.{moves_of};
ghost use Rattle.shunt_drivers.specs.defs.RosterFormat.{is_one, name_of, named_by, move_named};
ghost use Rattle.shunt_drivers.specs.defs.RosterFormat.{has_duty, driver_in, move_in};
ghost use Rattle.shunt_drivers.specs.defs.RosterFormat.{duty_of, duties_of, roster_format};
ghost use Rattle.shunt_drivers.specs.defs.RosterFormat.{IsRoster};

use crate::records::Duty;
use shunt_base::parse_decimal;
use shunt_instance::Instance;
use shunt_lists::Items;
use shunt_plan::{Plan, read_first};
use shunt_rows::{
    FormatReader, ReadError, Row, RowFault, RowKind, enters_of, fields_in, found, must, number_in,
    read,
};
use shunt_tracks::Event;
use shunt_zones::moves_of;
use std::alloc::Global;
use std::marker::Model;

// Whether two moves, each by its word and its id, are one.
fn is_one(enters: bool, id: u64, other_enters: bool, other_id: u64) -> bool
    ensures { result ≡ is_one (enters, id) (other_enters, other_id) }
{
    let alike = if enters { other_enters } else { !other_enters };
    alike && id == other_id
}

// The move with this word and id.
fn move_named(enters: bool, id: u64, moves: &[Event]) -> Option<Event>
    ensures { result ≡ move_named (enters, id) moves.now }
{
    for event in moves {
        if is_one(event.key.enters, event.key.id as u64, enters, id) {
            return Some(*event);
        }
    }
    None
}

/// Whether a duty is that of a move.
pub(crate) fn is_of(duty: &Duty, event: Event) -> bool
    ensures { result ≡ is_one (named_by duty.now) (name_of event) }
{
    is_one(
        duty.enters,
        duty.id as u64,
        event.key.enters,
        event.key.id as u64,
    )
}

fn has_duty(event: Event, duties: &[Duty]) -> bool
    ensures { result ≡ has_duty (name_of event) duties.now }
{
    duties.iter().any(|duty| is_of(duty, event))
}

// The driver of one more duty.
#[tactic(auto, unfolding(crate::specs::defs::RosterFormat::driver_in))]
fn read_driver(duties: &[Duty], row: &Row, n: u32) -> Result<u32, RowFault>
    ensures answer { result ≡ answer n (driver_in duties.now row.now) }
    ensures fields { IfOk result (λ _. 4 ≤ length row.now) }
{
    fields_in(row, n, 4, 4)?;
    must(duties.len() < 800, n, 1, RowKind::Limit)?;
    let driver = number_in(row, n, 2, 1, 800)?;
    Ok(driver as u32)
}

// The move at fields 3 and 4, where none of these is its duty.
#[tactic(auto, unfolding(crate::specs::defs::RosterFormat::move_in))]
fn read_move(moves: &[Event], duties: &[Duty], row: &Row, n: u32) -> Result<Event, RowFault>
    requires { 4 ≤ length row.now }
    ensures { result ≡ answer n (move_in moves.now duties.now row.now) }
{
    let enters = found(enters_of(row.field(3)), n, 3, RowKind::Kind)?;
    let id = found(parse_decimal(row.field(4)), n, 4, RowKind::Number)?;
    let event = found(move_named(enters, id, moves), n, 4, RowKind::Unknown)?;
    let repeats = has_duty(event, duties);
    must(!repeats, n, 4, RowKind::Repeat)?;
    Ok(event)
}

// The duty of a record behind these duties.
fn read_duty(moves: &[Event], duties: &[Duty], row: &Row, n: u32) -> Result<Duty, RowFault>
    ensures { result ≡ answer n (duty_of moves.now duties.now row.now) }
{
    let driver = read_driver(duties, row, n)?;
    let event = read_move(moves, duties, row, n)?;
    Ok(Duty {
        driver,
        enters: event.key.enters,
        id: event.key.id,
    })
}

// Adds the duty of a record to these duties.
fn read_more(moves: &[Event], duties: &mut Vec<Duty>, row: &Row, n: u32) -> Result<(), ReadError>
    ensures { Gives (λ _. duties.new.items) result
        (answer n (duties_of moves.now duties.old.items row.now)) }
{
    let duty = read_duty(moves, duties, row, n)?;
    duties.push(duty)?;
    Ok(())
}

// The duties that the records so far state.
#[derive(Debug, Drop)]
struct Duties {
    duties: Vec<Duty>,
}

impl Model for Duties {
    ghost use Rattle.std.specs.Prelude.{List};
    ghost use Rattle.shunt_drivers.specs.declared.records.Duty.{Duty};

    ghost Value = { List Duty };

    ghost view = { λ d. d.duties.items };
}

impl<'r> FormatReader<'r> for Duties {
    type Context = Items<Event>;

    type Output = Items<Duty>;

    ghost format = { roster_format };

    ghost suits = { λ _. Unit };

    #[tactic(auto, unfolding(crate::specs::defs::RosterFormat::roster_first))]
    fn read_first(_: &'r Items<Event>, alloc: Global, row: &'r Row) -> Result<Duties, ReadError> {
        read_first(row, b"roster")?;
        Ok(Duties {
            duties: Vec::new(alloc),
        })
    }

    #[tactic(auto, unfolding(crate::specs::defs::RosterFormat::roster_later))]
    fn read_later(
        &mut self,
        moves: &'r Items<Event>,
        _: Global,
        n: u32,
        row: &'r Row,
    ) -> Result<(), ReadError> {
        must(row.word() == b"duty".as_slice(), n, 1, RowKind::Kind)?;
        read_more(moves.as_slice(), &mut self.duties, row, n)
    }

    fn is_whole(&self, _: &'r Items<Event>) -> bool {
        true
    }

    fn into_output(self, _: &'r Items<Event>) -> Items<Duty> {
        Items::from_vec(self.duties)
    }
}

// The duties that the records state over these moves.
fn read_over(alloc: Global, moves: &Items<Event>, rows: &Vec<Row>) -> Result<Vec<Duty>, ReadError>
    ensures stated { Gives (λ v. v.items) result
        (reading (roster_format moves.now) rows.now.items) }
    ensures formed { IfOk result (λ v. IsRoster moves.now v.items) }
{
    Ok(read::<Duties>(moves, alloc, rows)?.into_vec())
}

/// The duties that the records state over the moves of a plan in range, in their order, or exactly their first fault.
///
/// Each is of one of the plan's moves, and no two are of one. `Fault` is the least fault by record, then field, then kind;
/// `Memory` is want of memory.
pub fn read_roster(
    alloc: Global,
    instance: &Instance,
    plan: &Plan,
    rows: &Vec<Row>,
) -> Result<Vec<Duty>, ReadError>
    requires { IsPlanInRange instance.now plan.now }
    ensures stated { Gives (λ v. v.items) result
        (reading (roster_format (moves_of instance.now plan.now.blocks)) rows.now.items) }
    ensures formed { IfOk result (λ v. IsRoster (moves_of instance.now plan.now.blocks) v.items) }
{
    let events = moves_of(alloc, instance, plan)?;
    let moves = Items::from_vec(events);
    read_over(alloc, &moves, rows)
}
