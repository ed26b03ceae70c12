// From records to zones.
ghost use Rattle.std.specs.Prelude.{◌≡◌, ◌≤◌, false, length, IfOk};
ghost use Rattle.shunt_rows.specs.defs.Checks.{answer};
ghost use Rattle.shunt_rows.specs.defs.Formats.{reading};
ghost use Rattle.shunt_rows.specs.defs.Given.{Gives};
ghost use Rattle.shunt_instance.specs.defs.Wellformed.{IsStation};
ghost use Rattle.shunt_zones.specs.declared.records.Zones.{Zones};
ghost use Rattle.shunt_zones.specs.defs.ZonesFormat.{stands, first_of, zone_of, over_in, over_of};
ghost use Rattle.shunt_zones.specs.defs.ZonesFormat.{later_of, zones_format, IsZones};

use crate::overs::Overs;
use crate::records::{Over, Zones};
use crate::ways::{KnownStation, Way};
use shunt_base::{Name, PlainNames, is_name};
use shunt_instance::Station;
use shunt_plan::read_first;
use shunt_rows::{
    FormatReader, Numbered, ReadError, Row, RowFault, RowKind, fields_in, found, must, read,
};
use std::alloc::Global;
use std::marker::{Model, PhantomData};

// The zones that the records so far state.
#[derive(Drop)]
struct Stated<'r, 's> {
    names: Numbered<'r, PlainNames>,
    over: Overs,
    // The station outlives what is read over it.
    station: PhantomData<&'s Station>,
}

impl<'r, 's> Model for Stated<'r, 's> {
    ghost use Rattle.std.specs.Prelude.{◌≤◌, length};
    ghost use Rattle.shunt_zones.specs.declared.records.Zones.{Zones};

    ghost Value = { Zones };

    ghost view = { λ s. record { names = s.names; over = s.over } };

    ghost invariant = { λ s. length s.names ≤ 64 };
}

// The zone at field 5 over a way, where it doesn't stand already.
#[tactic(auto, unfolding(crate::specs::defs::ZonesFormat::over_in))]
fn read_new(
    names: &Numbered<'_, PlainNames>,
    all: &Overs,
    way: Way,
    row: &Row,
    n: u32,
) -> Result<Over, RowFault>
    requires few { length names.now ≤ 64 }
    requires last { 5 ≤ length row.now }
    ensures answer { result ≡ answer n (over_in names.now all.now way row.now) }
    ensures new { IfOk result (λ o. stands all.now o ≡ false) }
{
    let zone = found(names.number_of(row.field(5)), n, 5, RowKind::Unknown)?;
    let over = Over {
        platform: way.platform,
        track: way.track,
        side: way.side,
        zone: zone as u8,
    };
    let repeats = all.has(over);
    must(!repeats, n, 5, RowKind::Repeat)?;
    Ok(over)
}

impl<'r, 's> Stated<'r, 's> {
    #[tactic(auto, unfolding(crate::specs::defs::ZonesFormat::zone_of))]
    fn read_zone(&mut self, alloc: Global, n: u32, row: &'r Row) -> Result<(), ReadError>
        ensures { Gives (λ _. self.new) result (answer n (zone_of self.old row.now)) }
    {
        fields_in(row, n, 2, 2)?;
        must(self.names.len() < 64, n, 1, RowKind::Limit)?;
        let name = row.field(2);
        must(is_name(name), n, 2, RowKind::Name)?;
        let repeats = self.names.has(name);
        must(!repeats, n, 2, RowKind::Repeat)?;
        self.names.push(name, Name::new(alloc, name)?)?;
        Ok(())
    }

    fn read_over(&mut self, station: &KnownStation, n: u32, row: &Row) -> Result<(), ReadError>
        ensures { Gives (λ _. self.new) result (answer n (over_of station.now self.old row.now)) }
    {
        fields_in(row, n, 5, 5)?;
        let way = station.read_way(row, n)?;
        let over = read_new(&self.names, &self.over, way, row, n)?;
        self.over.push(over)?;
        Ok(())
    }
}

impl<'r, 's> FormatReader<'r> for Stated<'r, 's> {
    type Context = KnownStation<'s>;

    type Output = Zones;

    ghost format = { zones_format };

    ghost suits = { λ _. Unit };

    #[tactic(auto, unfolding(crate::specs::defs::ZonesFormat::first_of))]
    fn read_first(
        _: &'r KnownStation<'s>,
        alloc: Global,
        row: &'r Row,
    ) -> Result<Stated<'r, 's>, ReadError> {
        read_first(row, b"zones")?;
        Ok(Stated {
            names: Numbered::new(alloc),
            over: Overs::new(alloc),
            station: PhantomData,
        })
    }

    #[tactic(auto, unfolding(crate::specs::defs::ZonesFormat::later_of))]
    fn read_later(
        &mut self,
        station: &'r KnownStation<'s>,
        alloc: Global,
        n: u32,
        row: &'r Row,
    ) -> Result<(), ReadError> {
        let word = row.word();
        if word == b"zone".as_slice() {
            return self.read_zone(alloc, n, row);
        }
        if word == b"over".as_slice() {
            return self.read_over(station, n, row);
        }
        must(false, n, 1, RowKind::Kind)?;
        Ok(())
    }

    fn is_whole(&self, _: &'r KnownStation<'s>) -> bool {
        true
    }

    fn into_output(self, _: &'r KnownStation<'s>) -> Zones {
        Zones {
            names: self.names.into_items(),
            over: self.over.into_items(),
        }
    }
}

/// The zones that the records state over this station, or exactly their first fault.
///
/// The station needs to be well formed. `Fault` is the least fault by record, then field, then kind; `Memory` is want of
/// memory.
pub fn read_zones(alloc: Global, station: &Station, rows: &Vec<Row>) -> Result<Zones, ReadError>
    requires { IsStation station.now }
    ensures stated { Gives (λ z. z) result (reading (zones_format station.now) rows.now.items) }
    ensures formed { IfOk result (IsZones station.now) }
{
    let known = KnownStation::of(alloc, station)?;
    read::<Stated>(&known, alloc, rows)
}
