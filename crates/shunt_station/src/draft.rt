// The station that the records so far state.
ghost use Rattle.std.specs.Prelude.{◌≡◌, ◌&&◌, ◌==◌};
ghost use Rattle.std.specs.List.{list_any};
ghost use Rattle.shunt_base.specs.defs.Sides.{same_side};
ghost use Rattle.shunt_rows.specs.defs.Checks.{answer};
ghost use Rattle.shunt_rows.specs.defs.Given.{Gives};
ghost use Rattle.shunt_instance.specs.defs.Words.{is_open, is_open_at, is_permitted, joins, track_of_name};
ghost use Rattle.shunt_station.specs.defs.StatedStations.{StationDraft, OpenSides, first_of};
ghost use Rattle.shunt_station.specs.defs.StatedStations.{type_of_name, platform_of_name};
ghost use Rattle.shunt_station.specs.defs.StatedStations.{stands};
ghost use Rattle.shunt_station.specs.defs.StatedStations.{open_sides_of, type_of};
ghost use Rattle.shunt_station.specs.defs.StatedStations.{platform_of, track_of, route_of};
ghost use Rattle.shunt_station.specs.defs.StatedStations.{permit_of, cost_of, later_of};
ghost use Rattle.shunt_station.specs.defs.StatedStations.{station_format};

use shunt_base::{Name, PlainNames, PlatformId, Side, TrackId, TypeId, is_name};
use shunt_instance::{Permit, Route, Station, Track, TrackNames, TypeNames, UnitType};
use shunt_lists::Items;
use shunt_rows::{
    FormatReader, Numbered, ReadError, Row, RowKind, fields_in, found, must, number_in, side_in,
};
use std::alloc::Global;
use std::marker::Model;

/// What the records so far state.
#[derive(Drop)]
pub struct StationDraft<'r> {
    version: u64,
    name: Name,
    types: Numbered<'r, TypeNames>,
    platforms: Numbered<'r, PlainNames>,
    tracks: Numbered<'r, TrackNames>,
    routes: Vec<Route>,
    permits: Vec<Permit>,
    split: u32,
    couple: u32,
    unparked: u32,
    is_costed: bool,
}

impl<'r> Model for StationDraft<'r> {
    ghost use Rattle.std.specs.Prelude.{◌≤◌, length};
    ghost use Rattle.shunt_station.specs.defs.StatedStations.{StationDraft};

    ghost Value = { StationDraft };

    ghost view = { λ d. record {
      version = d.version;
      station = record {
        name = d.name;
        types = d.types;
        platforms = d.platforms;
        tracks = d.tracks;
        routes = d.routes.items;
        permits = d.permits.items;
        split = d.split;
        couple = d.couple;
        unparked = d.unparked;
      };
      is_costed = d.is_costed;
    } };

    ghost invariant = { λ d. (length d.types ≤ 40) × (length d.platforms ≤ 30)
        × (length d.tracks ≤ 60) };
}

// At which sides a track is open.
#[derive(Debug, Drop)]
struct Sides {
    a: bool,
    b: bool,
}

impl Model for Sides {
    ghost use Rattle.shunt_station.specs.defs.StatedStations.{OpenSides};

    ghost Value = { OpenSides };

    ghost view = { λ s. record { side_a = s.a; side_b = s.b } };
}

#[tactic(auto, unfolding(crate::specs::defs::StatedStations::open_sides_of))]
fn sides_named(text: &[u8]) -> Option<Sides>
    ensures { result ≡ open_sides_of text.now }
{
    if text == b"A".as_slice() {
        return Some(Sides { a: true, b: false });
    }
    if text == b"B".as_slice() {
        return Some(Sides { a: false, b: true });
    }
    if text == b"AB".as_slice() {
        return Some(Sides { a: true, b: true });
    }
    None
}

fn is_same_side(one: Side, other: Side) -> bool
    ensures { result ≡ same_side one other }
{
    match (one, other) {
        (Side::A, Side::A) | (Side::B, Side::B) => true,
        _ => false,
    }
}

// Whether a route joins these three.
fn joins(route: &Route, platform: PlatformId, track: TrackId, side: Side) -> bool
    ensures { result ≡ joins platform track side route.now }
{
    route.platform.0 == platform.0 && route.track.0 == track.0 && is_same_side(route.side, side)
}

fn has_route(routes: &[Route], platform: PlatformId, track: TrackId, side: Side) -> bool
    ensures { result ≡ list_any (joins platform track side) routes.now }
{
    routes
        .iter()
        .any(|route| joins(route, platform, track, side))
}

fn has_permit(permits: &[Permit], track: TrackId, kind: TypeId) -> bool
    ensures { result ≡ list_any (λ p. p.track.0 == track.0 && p.kind.0 == kind.0) permits.now }
{
    permits.iter().any(|permit| permit.track.0 == track.0 && permit.kind.0 == kind.0)
}

fn is_open(track: &Track, side: Side) -> bool
    ensures { result ≡ is_open track.now side }
{
    match side {
        Side::A => track.side_a,
        Side::B => track.side_b,
    }
}

impl<'r> StationDraft<'r> {
    #[tactic(auto, unfolding(crate::specs::defs::StatedStations::type_of))]
    fn read_type(&mut self, alloc: Global, n: u32, row: &'r Row) -> Result<(), ReadError>
        ensures { Gives (λ _. self.new) result (answer n (type_of self.old row.now)) }
    {
        fields_in(row, n, 4, 4)?;
        must(self.types.len() < 40, n, 1, RowKind::Limit)?;
        let name = row.field(2);
        must(is_name(name), n, 2, RowKind::Name)?;
        let repeats = self.types.has(name);
        must(!repeats, n, 2, RowKind::Repeat)?;
        let length = number_in(row, n, 3, 1, 5000)?;
        let turn = number_in(row, n, 4, 1, 1440)?;
        let kind = UnitType {
            name: Name::new(alloc, name)?,
            length: length as u32,
            turn: turn as u16,
        };
        self.types.push(name, kind)?;
        Ok(())
    }

    #[tactic(auto, unfolding(crate::specs::defs::StatedStations::platform_of))]
    fn read_platform(&mut self, alloc: Global, n: u32, row: &'r Row) -> Result<(), ReadError>
        ensures { Gives (λ _. self.new) result (answer n (platform_of self.old row.now)) }
    {
        fields_in(row, n, 2, 2)?;
        must(self.platforms.len() < 30, n, 1, RowKind::Limit)?;
        let name = row.field(2);
        must(is_name(name), n, 2, RowKind::Name)?;
        let repeats = self.platforms.has(name);
        must(!repeats, n, 2, RowKind::Repeat)?;
        self.platforms.push(name, Name::new(alloc, name)?)?;
        Ok(())
    }

    #[tactic(auto, unfolding(crate::specs::defs::StatedStations::track_of))]
    fn read_track(&mut self, alloc: Global, n: u32, row: &'r Row) -> Result<(), ReadError>
        ensures { Gives (λ _. self.new) result (answer n (track_of self.old row.now)) }
    {
        fields_in(row, n, 4, 4)?;
        must(self.tracks.len() < 60, n, 1, RowKind::Limit)?;
        let name = row.field(2);
        must(is_name(name), n, 2, RowKind::Name)?;
        let repeats = self.tracks.has(name);
        must(!repeats, n, 2, RowKind::Repeat)?;
        let length = number_in(row, n, 3, 1, 50_000)?;
        let sides = found(sides_named(row.field(4)), n, 4, RowKind::Kind)?;
        let track = Track {
            name: Name::new(alloc, name)?,
            length: length as u32,
            side_a: sides.a,
            side_b: sides.b,
        };
        self.tracks.push(name, track)?;
        Ok(())
    }

    // The number of the type with a name.
    #[tactic(auto, unfolding(crate::specs::defs::StatedStations::type_of_name))]
    fn type_named(&self, name: &[u8]) -> Option<TypeId>
        ensures { result ≡ type_of_name self.now.station name.now }
    {
        match self.types.number_of(name) {
            Some(k) => Some(TypeId(k as u8)),
            None => None,
        }
    }

    // The number of the platform with a name.
    #[tactic(auto, unfolding(crate::specs::defs::StatedStations::platform_of_name))]
    fn platform_named(&self, name: &[u8]) -> Option<PlatformId>
        ensures { result ≡ platform_of_name self.now.station name.now }
    {
        match self.platforms.number_of(name) {
            Some(k) => Some(PlatformId(k as u8)),
            None => None,
        }
    }

    // The number of the track with a name.
    fn track_named(&self, name: &[u8]) -> Option<TrackId>
        ensures { result ≡ track_of_name self.now.station name.now }
    {
        match self.tracks.number_of(name) {
            Some(k) => Some(TrackId(k as u8)),
            None => None,
        }
    }

    // Whether a route joins these three already.
    #[tactic(auto, unfolding(crate::specs::defs::StatedStations::stands))]
    fn stands(&self, platform: PlatformId, track: TrackId, side: Side) -> bool
        ensures { result ≡ stands self.now.station platform track side }
    {
        has_route(&self.routes, platform, track, side)
    }

    // Whether a permit names both already.
    fn is_permitted(&self, track: TrackId, kind: TypeId) -> bool
        ensures { result ≡ is_permitted self.now.station track kind }
    {
        has_permit(&self.permits, track, kind)
    }

    // Whether the track with a number is open at a side.
    fn is_open_at(&self, track: TrackId, side: Side) -> bool
        ensures { result ≡ is_open_at self.now.station track side }
    {
        match self.tracks.as_slice().get(track.0 as usize) {
            Some(track) => is_open(track, side),
            None => false,
        }
    }

    #[tactic(auto, unfolding(crate::specs::defs::StatedStations::route_of))]
    fn read_route(&mut self, n: u32, row: &Row) -> Result<(), ReadError>
        ensures { Gives (λ _. self.new) result (answer n (route_of self.old row.now)) }
    {
        fields_in(row, n, 5, 5)?;
        let platform = found(self.platform_named(row.field(2)), n, 2, RowKind::Unknown)?;
        let track = found(self.track_named(row.field(3)), n, 3, RowKind::Unknown)?;
        let side = side_in(row, n, 4)?;
        let repeats = self.stands(platform, track, side);
        must(!repeats, n, 4, RowKind::Repeat)?;
        let is_open = self.is_open_at(track, side);
        must(is_open, n, 4, RowKind::ClosedSide)?;
        let cost = number_in(row, n, 5, 0, 1_000_000)?;
        self.routes.push(Route {
            platform,
            track,
            side,
            cost: cost as u32,
        })?;
        Ok(())
    }

    #[tactic(auto, unfolding(crate::specs::defs::StatedStations::permit_of))]
    fn read_permit(&mut self, n: u32, row: &Row) -> Result<(), ReadError>
        ensures { Gives (λ _. self.new) result (answer n (permit_of self.old row.now)) }
    {
        fields_in(row, n, 3, 3)?;
        let track = found(self.track_named(row.field(2)), n, 2, RowKind::Unknown)?;
        let kind = found(self.type_named(row.field(3)), n, 3, RowKind::Unknown)?;
        let repeats = self.is_permitted(track, kind);
        must(!repeats, n, 3, RowKind::Repeat)?;
        self.permits.push(Permit { track, kind })?;
        Ok(())
    }

    #[tactic(auto, unfolding(crate::specs::defs::StatedStations::cost_of))]
    fn read_cost(&mut self, n: u32, row: &Row) -> Result<(), ReadError>
        ensures { Gives (λ _. self.new) result (answer n (cost_of self.old row.now)) }
    {
        fields_in(row, n, 4, 4)?;
        must(!self.is_costed, n, 1, RowKind::Repeat)?;
        let split = number_in(row, n, 2, 0, 1_000_000)?;
        let couple = number_in(row, n, 3, 0, 1_000_000)?;
        let unparked = number_in(row, n, 4, 0, 1_000_000)?;
        self.split = split as u32;
        self.couple = couple as u32;
        self.unparked = unparked as u32;
        self.is_costed = true;
        Ok(())
    }
}

impl<'r> FormatReader<'r> for StationDraft<'r> {
    type Context = ();

    type Output = Station;

    ghost format = { λ _. station_format };

    ghost suits = { λ _. Unit };

    #[tactic(auto, unfolding(crate::specs::defs::StatedStations::first_of))]
    fn read_first(_: &'r (), alloc: Global, row: &'r Row) -> Result<StationDraft<'r>, ReadError> {
        must(row.word() == b"station".as_slice(), 1, 1, RowKind::Kind)?;
        fields_in(row, 1, 3, 3)?;
        let version = number_in(row, 1, 2, 1, 2)?;
        let name = row.field(3);
        must(is_name(name), 1, 3, RowKind::Name)?;
        Ok(StationDraft {
            version,
            name: Name::new(alloc, name)?,
            types: Numbered::new(alloc),
            platforms: Numbered::new(alloc),
            tracks: Numbered::new(alloc),
            routes: Vec::new(alloc),
            permits: Vec::new(alloc),
            split: 0,
            couple: 0,
            unparked: 0,
            is_costed: false,
        })
    }

    #[tactic(auto, unfolding(crate::specs::defs::StatedStations::later_of))]
    fn read_later(
        &mut self,
        _: &'r (),
        alloc: Global,
        n: u32,
        row: &'r Row,
    ) -> Result<(), ReadError> {
        let word = row.word();
        if word == b"type".as_slice() {
            return self.read_type(alloc, n, row);
        }
        if word == b"platform".as_slice() {
            return self.read_platform(alloc, n, row);
        }
        if word == b"track".as_slice() {
            return self.read_track(alloc, n, row);
        }
        if word == b"route".as_slice() {
            return self.read_route(n, row);
        }
        if word == b"cost".as_slice() {
            return self.read_cost(n, row);
        }
        if self.version == 2 && word == b"permit".as_slice() {
            return self.read_permit(n, row);
        }
        must(false, n, 1, RowKind::Kind)?;
        Ok(())
    }

    fn is_whole(&self, _: &'r ()) -> bool {
        self.is_costed
    }

    fn into_output(self, _: &'r ()) -> Station {
        Station {
            name: self.name,
            types: self.types.into_items(),
            platforms: self.platforms.into_items(),
            tracks: self.tracks.into_items(),
            routes: Items::from_vec(self.routes),
            permits: Items::from_vec(self.permits),
            split: self.split,
            couple: self.couple,
            unparked: self.unparked,
        }
    }
}
