// From records to a crew.
ghost use Rattle.std.specs.Prelude.{◌≡◌, ◌≤◌, length, IfOk};
ghost use Rattle.std.specs.List.{list_any};
ghost use Rattle.shunt_base.specs.defs.Sides.{same_side};
ghost use Rattle.shunt_rows.specs.defs.Checks.{answer};
ghost use Rattle.shunt_rows.specs.defs.Formats.{reading};
ghost use Rattle.shunt_rows.specs.defs.Given.{Gives};
ghost use Rattle.shunt_instance.specs.defs.Wellformed.{IsStation};
ghost use Rattle.shunt_drivers.specs.defs.CrewFormat.{CrewDraft, is_over, stands, takes_in};
ghost use Rattle.shunt_drivers.specs.defs.CrewFormat.{takes_of, else_of, crew_format, IsCrew};

use crate::records::{Crew, Takes};
use shunt_base::Side;
use shunt_instance::Station;
use shunt_lists::Items;
use shunt_plan::read_first;
use shunt_rows::{
    FormatReader, ReadError, Row, RowFault, RowKind, fields_in, must, number_in, read,
};
use shunt_zones::{KnownStation, Way};
use std::alloc::Global;
use std::marker::{Model, PhantomData};

// What the records so far state.
#[derive(Drop)]
struct CrewDraft<'s> {
    takes: Vec<Takes>,
    other: Option<u16>,
    // The station outlives what is read over it.
    station: PhantomData<&'s Station>,
}

impl<'s> Model for CrewDraft<'s> {
    ghost use Rattle.shunt_drivers.specs.defs.CrewFormat.{CrewDraft};

    ghost Value = { CrewDraft };

    ghost view = { λ d. record { takes = d.takes.items; other = d.other } };
}

pub(crate) fn is_same_side(one: Side, other: Side) -> bool
    ensures { result ≡ same_side one other }
{
    match (one, other) {
        (Side::A, Side::A) | (Side::B, Side::B) => true,
        _ => false,
    }
}

fn is_over(way: Way, takes: &Takes) -> bool
    ensures { result ≡ is_over way takes.now }
{
    takes.platform.0 == way.platform.0
        && takes.track.0 == way.track.0
        && is_same_side(takes.side, way.side)
}

#[tactic(auto, unfolding(crate::specs::defs::CrewFormat::stands))]
fn stands(all: &[Takes], way: Way) -> bool
    ensures { result ≡ stands all.now way }
{
    all.iter().any(|takes| is_over(way, takes))
}

// The minutes at field 5 over a way, where none stand over it already.
#[tactic(auto, unfolding(crate::specs::defs::CrewFormat::takes_in))]
fn read_new(all: &[Takes], way: Way, row: &Row, n: u32) -> Result<Takes, RowFault>
    requires { 5 ≤ length row.now }
    ensures { result ≡ answer n (takes_in all.now way row.now) }
{
    let repeats = stands(all, way);
    must(!repeats, n, 4, RowKind::Repeat)?;
    let minutes = number_in(row, n, 5, 1, 120)?;
    Ok(Takes {
        platform: way.platform,
        track: way.track,
        side: way.side,
        minutes: minutes as u16,
    })
}

impl<'s> CrewDraft<'s> {
    fn read_takes(&mut self, station: &KnownStation, n: u32, row: &Row) -> Result<(), ReadError>
        ensures { Gives (λ _. self.new) result (answer n (takes_of station.now self.old row.now)) }
    {
        fields_in(row, n, 5, 5)?;
        let way = station.read_way(row, n)?;
        let takes = read_new(&self.takes, way, row, n)?;
        self.takes.push(takes)?;
        Ok(())
    }

    #[tactic(auto, unfolding(crate::specs::defs::CrewFormat::else_of))]
    fn read_else(&mut self, n: u32, row: &Row) -> Result<(), ReadError>
        ensures { Gives (λ _. self.new) result (answer n (else_of self.old row.now)) }
    {
        fields_in(row, n, 2, 2)?;
        must(self.other.is_none(), n, 1, RowKind::Repeat)?;
        let minutes = number_in(row, n, 2, 1, 120)?;
        self.other = Some(minutes as u16);
        Ok(())
    }
}

impl<'r, 's> FormatReader<'r> for CrewDraft<'s> {
    type Context = KnownStation<'s>;

    type Output = Crew;

    ghost format = { crew_format };

    ghost suits = { λ _. Unit };

    #[tactic(auto, unfolding(crate::specs::defs::CrewFormat::first_of))]
    fn read_first(
        _: &'r KnownStation<'s>,
        alloc: Global,
        row: &'r Row,
    ) -> Result<CrewDraft<'s>, ReadError> {
        read_first(row, b"crew")?;
        Ok(CrewDraft {
            takes: Vec::new(alloc),
            other: None,
            station: PhantomData,
        })
    }

    #[tactic(auto, unfolding(crate::specs::defs::CrewFormat::later_of))]
    fn read_later(
        &mut self,
        station: &'r KnownStation<'s>,
        _: Global,
        n: u32,
        row: &'r Row,
    ) -> Result<(), ReadError> {
        let word = row.word();
        if word == b"takes".as_slice() {
            return self.read_takes(station, n, row);
        }
        if word == b"else".as_slice() {
            return self.read_else(n, row);
        }
        must(false, n, 1, RowKind::Kind)?;
        Ok(())
    }

    fn is_whole(&self, _: &'r KnownStation<'s>) -> bool {
        self.other.is_some()
    }

    fn into_output(self, _: &'r KnownStation<'s>) -> Crew {
        Crew {
            takes: Items::from_vec(self.takes),
            other: self.other.unwrap_or(0),
        }
    }
}

/// The crew that the records state over this station, or exactly their first fault.
///
/// The station needs to be well formed. `Fault` is the least fault by record, then field, then kind; `Memory` is want of
/// memory.
pub fn read_crew(alloc: Global, station: &Station, rows: &Vec<Row>) -> Result<Crew, ReadError>
    requires { IsStation station.now }
    ensures stated { Gives (λ c. c) result (reading (crew_format station.now) rows.now.items) }
    ensures formed { IfOk result (IsCrew station.now) }
{
    let known = KnownStation::of(alloc, station)?;
    read::<CrewDraft>(&known, alloc, rows)
}
