// Reading a timetable.
ghost use Rattle.std.specs.Prelude.{◌≡◌, ◌+◌, ◌-◌, ◌==◌, ◌||◌, ◌≤◌, ◌<◌, ◌++◌, ◌∷◌, [], false};
ghost use Rattle.std.specs.Prelude.{length, IsTrue, IfOk, IfSome, OnOk, OnErr};
ghost use Rattle.shunt_rows.specs.defs.Records.{at};
ghost use Rattle.shunt_rows.specs.declared.fault.RowKind.TheVariants as kinds;
ghost use Rattle.shunt_rows.specs.defs.Checks.{answer, found, must as holding};
ghost use Rattle.shunt_rows.specs.defs.Fields.{named_in};
ghost use Rattle.shunt_rows.specs.defs.Formats.{reading};
ghost use Rattle.shunt_rows.specs.defs.Given.{Gives};
ghost use Rattle.shunt_instance.specs.defs.Words.{unit_count, is_open_at, train_at};
ghost use Rattle.shunt_instance.specs.defs.Wellformed.{IsStation, IsTimetable};
ghost use Rattle.shunt_timetable.specs.defs.TimetableFormat.{Listed, first_of, has_train, kind_of};
ghost use Rattle.shunt_timetable.specs.defs.TimetableFormat.{track_in, platform_in, name_of};
ghost use Rattle.shunt_timetable.specs.defs.TimetableFormat.{units_from, empty_train, standing_of};
ghost use Rattle.shunt_timetable.specs.defs.TimetableFormat.{moving_of, stand_of, arrive_of};
ghost use Rattle.shunt_timetable.specs.defs.TimetableFormat.{depart_of, open_side_in, track_number};
ghost use Rattle.shunt_timetable.specs.defs.TimetableFormat.{parked_end, no_end, end_in};
ghost use Rattle.shunt_timetable.specs.defs.TimetableFormat.{with_placed, placed_of, later_of};
ghost use Rattle.shunt_timetable.specs.defs.TimetableFormat.{timetable_of, timetable_format};

use crate::placed::read_placed_units;
use crate::runs::with_run;
use crate::writer::stands;
use shunt_base::{Minute, Name, PlainNames, PlatformId, Side, TrackId, TypeId, is_name};
use shunt_instance::{
    Origin, PlacedRun, Station, Timetable, TrackEnd, TrackNames, Train, TypeNames,
};
use shunt_lists::Items;
use shunt_rows::{
    FormatReader, Known, Names, ReadError, Row, RowFault, RowKind, fields_in, minute_in, must,
    number_in, read, side_in,
};
use std::alloc::{AllocError, Global};
use std::marker::{Model, PhantomData};

// A station whose names are numbered, seen as the station.
#[derive(Drop)]
struct KnownStation<'r> {
    station: &'r Station,
    types: Known<'r, TypeNames>,
    platforms: Known<'r, PlainNames>,
    tracks: Known<'r, TrackNames>,
}

impl<'r> Model for KnownStation<'r> {
    ghost use Rattle.std.specs.Prelude.{◌≡◌};
    ghost use Rattle.shunt_instance.specs.declared.records.Station.{Station};

    ghost Value = { Station };

    ghost view = { λ k. k.station.now };

    ghost invariant = { λ k. (k.types ≡ k.station.now.types)
        × (k.platforms ≡ k.station.now.platforms) × (k.tracks ≡ k.station.now.tracks) };
}

impl<'r> KnownStation<'r> {
    fn of(alloc: Global, station: &'r Station) -> Result<KnownStation<'r>, AllocError>
        requires { IsStation station.now }
        ensures { IfOk result (λ k. k ≡ station.now) }
    {
        let types = Known::<TypeNames>::of(alloc, station.types.as_slice())?;
        let platforms = Known::<PlainNames>::of(alloc, station.platforms.as_slice())?;
        let tracks = Known::<TrackNames>::of(alloc, station.tracks.as_slice())?;
        Ok(KnownStation {
            station,
            types,
            platforms,
            tracks,
        })
    }
}

// The trains of one word, which are known by their names, and how many units they have.
#[derive(Drop)]
struct Trains<'r> {
    names: Names<'r>,
    trains: Vec<Train>,
    units: usize,
}

impl<'r> Model for Trains<'r> {
    ghost use Rattle.std.specs.Prelude.{◌≡◌, ◌≤◌, List, All, length};
    ghost use Rattle.shunt_instance.specs.declared.records.Train.{Train};
    ghost use Rattle.shunt_instance.specs.defs.Words.{names_of, unit_count};

    ghost Value = { List Train };

    ghost view = { λ t. t.trains.items };

    ghost invariant = { λ t. (t.names ≡ names_of t.trains.items)
        × (t.units ≡ unit_count t.trains.items) × (t.units ≤ 160)
        × All (λ u. length u.units ≤ 8) t.trains.items };
}

impl<'r> Trains<'r> {
    fn new(alloc: Global) -> Trains<'r>
        ensures { result ≡ [] }
    {
        Trains {
            names: Names::new(alloc),
            trains: Vec::new(alloc),
            units: 0,
        }
    }

    // The number of units, at most 160.
    fn units(&self) -> usize
        ensures value { result ≡ unit_count self.now }
        ensures few { unit_count self.now ≤ 160 }
    {
        self.units
    }

    // Whether a train has this name.
    fn has(&self, name: &[u8]) -> bool
        ensures { result ≡ has_train self.now name.now }
    {
        self.names.has(name)
    }

    // The number of the train with the name at field 2, else Unknown.
    fn read_number(&self, row: &Row, n: u32) -> Result<usize, RowFault>
        requires { 2 ≤ length row.now }
        ensures answer { result ≡ answer n (named_in (λ t. t.name) self.now row.now 2) }
        ensures within { IfOk result (λ k. k < length self.now) }
    {
        self.names.known_in(row, n, 2)
    }

    // The train with a number.
    fn train(&self, k: usize) -> &Train
        requires { k < length self.now }
        ensures exact { result.now ≡ train_at self.now k }
        ensures few { length result.now.units ≤ 8 }
    {
        &self.trains[k]
    }

    // Adds a run to those of the train with a number that have come.
    fn place(&mut self, alloc: Global, k: usize, run: PlacedRun) -> Result<(), AllocError>
        requires { k < length self.old }
        ensures added { OnOk result (self.new ≡ with_placed k run self.old) }
        ensures same { OnErr result (self.new ≡ self.old) }
    {
        let placed = with_run(alloc, self.trains[k].placed.as_slice(), run)?;
        self.trains[k].placed = Items::from_vec(placed);
        Ok(())
    }

    // Adds a train with a new name.
    fn push(&mut self, name: &'r [u8], train: Train) -> Result<(), AllocError>
        requires own { train.name ≡ name.now }
        requires fresh { has_train self.old name.now ≡ false }
        requires few { length train.units ≤ 8 }
        requires room { unit_count self.old + length train.units ≤ 160 }
        ensures added { OnOk result (self.new ≡ self.old ++ train ∷ []) }
        ensures same { OnErr result (self.new ≡ self.old) }
    {
        let units = train.units.len();
        self.trains.push(train)?;
        if self.names.add(name).is_err() {
            self.trains.pop();
            return Err(AllocError);
        }
        self.units += units;
        Ok(())
    }
}

// The trains that the records so far state.
#[derive(Drop)]
struct Listed<'r, 's> {
    version: u64,
    arrive: Trains<'r>,
    depart: Trains<'r>,
    // An `arrive` or `depart` record was read.
    moving: bool,
    // The station outlives what is read over it.
    over: PhantomData<&'s Station>,
}

impl<'r, 's> Model for Listed<'r, 's> {
    ghost use Rattle.shunt_timetable.specs.defs.TimetableFormat.{Listed};

    ghost Value = { Listed };

    ghost view = { λ s.
        record { version = s.version; arrive = s.arrive; depart = s.depart; moving = s.moving } };
}

// 00:00.
fn midnight() -> Minute
    ensures { result ≡ 0 }
{
    match Minute::new(0) {
        Some(minute) => minute,
        None => unreachable!(),
    }
}

// The type at field `k`, of one more unit behind that many.
fn read_unit(
    station: &KnownStation,
    before: usize,
    row: &Row,
    n: u32,
    k: u32,
) -> Result<TypeId, RowFault>
    requires station { IsStation station.now }
    requires first { 1 ≤ k }
    requires last { k ≤ length row.now }
    ensures answer { result ≡ answer n (kind_of station.now.types before row.now k) }
    ensures room { OnOk result (before < 160) }
{
    let kind = station.types.known_in(row, n, k)?;
    must(before < 160, n, k, RowKind::Limit)?;
    Ok(TypeId(kind as u8))
}

fn read_track(station: &KnownStation, row: &Row, n: u32) -> Result<Origin, RowFault>
    requires station { IsStation station.now }
    requires last { 3 ≤ length row.now }
    ensures { result ≡ answer n (track_in station.now.tracks row.now 3) }
{
    let track = station.tracks.known_in(row, n, 3)?;
    Ok(Origin::Track(TrackId(track as u8)))
}

fn read_platform(station: &KnownStation, row: &Row, n: u32) -> Result<Origin, RowFault>
    requires station { IsStation station.now }
    requires last { 4 ≤ length row.now }
    ensures { result ≡ answer n (platform_in station.now.platforms row.now 4) }
{
    let platform = station.platforms.known_in(row, n, 4)?;
    Ok(Origin::Platform(PlatformId(platform as u8)))
}

// The train with the types from field `first` on.
#[tactic(auto, unfolding(crate::specs::defs::TimetableFormat::units_from))]
fn read_units(
    alloc: Global,
    station: &KnownStation,
    before: usize,
    name: Name,
    minute: Minute,
    origin: Origin,
    row: &Row,
    n: u32,
    first: u32,
) -> Result<Train, ReadError>
    requires station { IsStation station.now }
    requires before { before ≤ 160 }
    requires first { 1 ≤ first }
    requires some { first ≤ length row.now }
    requires few { length row.now ≤ 12 }
    ensures own { IfOk result (λ t. t.name ≡ name) }
    ensures room { IfOk result (λ t. before + length t.units ≤ 160) }
    ensures few { IfOk result (λ t. length t.units + first ≤ length row.now + 1) }
    ensures stated { Gives (λ t. t) result (answer n (units_from station.now before
        (empty_train name minute origin) row.now first (length row.now - (first - 1)))) }
{
    let last = row.len() as u32;
    let mut units = Vec::new(alloc);
    for k in first..last + 1 {
        let kind = read_unit(station, before + units.len(), row, n, k)?;
        units.push(kind)?;
    }
    Ok(Train {
        name,
        minute,
        origin,
        units: Items::from_vec(units),
        placed: Items::from_vec(Vec::new(alloc)),
    })
}

// The name at field 2 of a train behind these ones.
fn read_name(alloc: Global, trains: &Trains, row: &Row, n: u32) -> Result<Name, ReadError>
    requires { 2 ≤ length row.now }
    ensures stated { Gives (λ x. x) result (answer n (name_of trains.now row.now)) }
    ensures own { IfOk result (λ x. x ≡ at row.now 2) }
    ensures fresh { OnOk result (has_train trains.now (at row.now 2) ≡ false) }
{
    must(trains.trains.len() < 100, n, 1, RowKind::Limit)?;
    let name = row.field(2);
    must(is_name(name), n, 2, RowKind::Name)?;
    let repeats = trains.has(name);
    must(!repeats, n, 2, RowKind::Repeat)?;
    Ok(Name::new(alloc, name)?)
}

#[tactic(auto, unfolding(crate::specs::defs::TimetableFormat::standing_of))]
fn read_standing(
    alloc: Global,
    station: &KnownStation,
    trains: &Trains,
    row: &Row,
    n: u32,
) -> Result<Train, ReadError>
    requires station { IsStation station.now }
    ensures stated { Gives (λ t. t) result (answer n (standing_of station.now trains.now row.now)) }
    ensures own { IfOk result (λ t. t.name ≡ at row.now 2) }
    ensures fresh { OnOk result (has_train trains.now (at row.now 2) ≡ false) }
    ensures room { IfOk result (λ t. unit_count trains.now + length t.units ≤ 160) }
    ensures few { IfOk result (λ t. length t.units ≤ 8) }
{
    fields_in(row, n, 4, 11)?;
    let name = read_name(alloc, trains, row, n)?;
    let track = read_track(station, row, n)?;
    let before = trains.units();
    read_units(alloc, station, before, name, midnight(), track, row, n, 4)
}

#[tactic(auto, unfolding(crate::specs::defs::TimetableFormat::moving_of))]
fn read_moving(
    alloc: Global,
    station: &KnownStation,
    trains: &Trains,
    row: &Row,
    n: u32,
) -> Result<Train, ReadError>
    requires station { IsStation station.now }
    ensures stated { Gives (λ t. t) result (answer n (moving_of station.now trains.now row.now)) }
    ensures own { IfOk result (λ t. t.name ≡ at row.now 2) }
    ensures fresh { OnOk result (has_train trains.now (at row.now 2) ≡ false) }
    ensures room { IfOk result (λ t. unit_count trains.now + length t.units ≤ 160) }
    ensures few { IfOk result (λ t. length t.units ≤ 8) }
{
    fields_in(row, n, 5, 12)?;
    let name = read_name(alloc, trains, row, n)?;
    let minute = minute_in(row, n, 3)?;
    let platform = read_platform(station, row, n)?;
    let before = trains.units();
    read_units(alloc, station, before, name, minute, platform, row, n, 5)
}

// The track at field 6.
#[tactic(auto, unfolding(crate::specs::defs::TimetableFormat::track_number), using(crate::proofs::Parts::track_found, crate::proofs::Parts::track_unknown))]
fn read_end_track(station: &KnownStation, row: &Row, n: u32) -> Result<TrackId, RowFault>
    requires station { IsStation station.now }
    requires fields { 6 ≤ length row.now }
    ensures answer { result ≡ answer n
        (found (record { 0 = 0 }) (track_number station.now (at row.now 6)) 6 kinds.Unknown) }
    ensures within { IfOk result (λ t. t.0 < length station.now.tracks) }
{
    let track = station.tracks.known_in(row, n, 6)?;
    Ok(TrackId(track as u8))
}

// Whether a track of the station is open at a side.
fn is_open_at(station: &Station, track: TrackId, side: Side) -> bool
    requires { track.0 < length station.now.tracks }
    ensures { result ≡ is_open_at station.now track side }
{
    let track = &station.tracks.as_slice()[track.0 as usize];
    match side {
        Side::A => track.side_a,
        Side::B => track.side_b,
    }
}

// The open side of a track at field 7.
fn read_open_side(station: &Station, track: TrackId, row: &Row, n: u32) -> Result<Side, RowFault>
    requires track { track.0 < length station.now.tracks }
    requires fields { 7 ≤ length row.now }
    ensures { result ≡ answer n (open_side_in station.now track row.now 7) }
{
    let side = side_in(row, n, 7)?;
    must(is_open_at(station, track, side), n, 7, RowKind::ClosedSide)?;
    Ok(side)
}

// `park,TRACK,SIDE` from field 5 on.
#[tactic(auto, unfolding(crate::specs::defs::TimetableFormat::parked_end))]
fn read_parked_end(
    station: &KnownStation,
    train: &Train,
    row: &Row,
    n: u32,
) -> Result<Option<TrackEnd>, RowFault>
    requires station { IsStation station.now }
    requires fields { 7 ≤ length row.now }
    ensures { result ≡ answer n (parked_end station.now train.now row.now) }
{
    let parked = row.field(5) == b"park".as_slice() && !stands(train);
    must(parked, n, 5, RowKind::Kind)?;
    let track = read_end_track(station, row, n)?;
    let side = read_open_side(station.station, track, row, n)?;
    Ok(Some(TrackEnd { track, side }))
}

// `unparked` at field 5.
#[tactic(auto, unfolding(crate::specs::defs::TimetableFormat::no_end))]
fn read_no_end(row: &Row, n: u32) -> Result<Option<TrackEnd>, RowFault>
    requires { 5 ≤ length row.now }
    ensures { result ≡ answer n (no_end row.now) }
{
    let cleared = row.field(5) == b"unparked".as_slice();
    must(cleared, n, 5, RowKind::Kind)?;
    Ok(None)
}

// The end by which a run came.
#[tactic(auto, unfolding(crate::specs::defs::TimetableFormat::end_in))]
fn read_end(
    station: &KnownStation,
    train: &Train,
    row: &Row,
    n: u32,
) -> Result<Option<TrackEnd>, RowFault>
    requires station { IsStation station.now }
    requires fields { IsTrue (length row.now == 5 || length row.now == 7) }
    ensures { result ≡ answer n (end_in station.now train.now row.now) }
{
    if row.len() == 5 {
        return read_no_end(row, n);
    }
    read_parked_end(station, train, row, n)
}

// Whether a record has five or seven fields.
fn five_or_seven(row: &Row, n: u32) -> Result<(), RowFault>
    ensures answer { result
        ≡ answer n (holding (length row.now == 5 || length row.now == 7) 1 kinds.Fields) }
    ensures held { OnOk result (IsTrue (length row.now == 5 || length row.now == 7)) }
{
    let len = row.len();
    must(len == 5 || len == 7, n, 1, RowKind::Fields)
}

impl<'r, 's> Listed<'r, 's> {
    #[tactic(auto, unfolding(crate::specs::defs::TimetableFormat::placed_of))]
    fn read_placed(
        &mut self,
        alloc: Global,
        station: &KnownStation,
        n: u32,
        row: &Row,
    ) -> Result<(), ReadError>
        requires { IsStation station.now }
        ensures { Gives (λ _. self.new) result (answer n (placed_of station.now self.old row.now)) }
    {
        five_or_seven(row, n)?;
        let k = self.arrive.read_number(row, n)?;
        let train = self.arrive.train(k);
        let units = read_placed_units(train, row, n)?;
        let came_by = read_end(station, train, row, n)?;
        self.arrive.place(alloc, k, PlacedRun { came_by, ..units })?;
        Ok(())
    }

    #[tactic(auto, unfolding(crate::specs::defs::TimetableFormat::stand_of))]
    fn read_stand(
        &mut self,
        alloc: Global,
        station: &KnownStation,
        n: u32,
        row: &'r Row,
    ) -> Result<(), ReadError>
        requires { IsStation station.now }
        ensures { Gives (λ _. self.new) result (answer n (stand_of station.now self.old row.now)) }
    {
        let train = read_standing(alloc, station, &self.arrive, row, n)?;
        self.arrive.push(row.field(2), train)?;
        Ok(())
    }

    #[tactic(auto, unfolding(crate::specs::defs::TimetableFormat::arrive_of))]
    fn read_arrive(
        &mut self,
        alloc: Global,
        station: &KnownStation,
        n: u32,
        row: &'r Row,
    ) -> Result<(), ReadError>
        requires { IsStation station.now }
        ensures { Gives (λ _. self.new) result (answer n (arrive_of station.now self.old row.now)) }
    {
        let train = read_moving(alloc, station, &self.arrive, row, n)?;
        self.arrive.push(row.field(2), train)?;
        self.moving = true;
        Ok(())
    }

    #[tactic(auto, unfolding(crate::specs::defs::TimetableFormat::depart_of))]
    fn read_depart(
        &mut self,
        alloc: Global,
        station: &KnownStation,
        n: u32,
        row: &'r Row,
    ) -> Result<(), ReadError>
        requires { IsStation station.now }
        ensures { Gives (λ _. self.new) result (answer n (depart_of station.now self.old row.now)) }
    {
        let train = read_moving(alloc, station, &self.depart, row, n)?;
        self.depart.push(row.field(2), train)?;
        self.moving = true;
        Ok(())
    }
}

impl<'r, 's> FormatReader<'r> for Listed<'r, 's> {
    type Context = KnownStation<'s>;

    type Output = Timetable;

    ghost format = { timetable_format };

    ghost suits = { IsStation };

    #[tactic(auto, unfolding(crate::specs::defs::TimetableFormat::first_of))]
    fn read_first(
        _: &'r KnownStation<'s>,
        alloc: Global,
        row: &'r Row,
    ) -> Result<Listed<'r, 's>, ReadError> {
        must(row.word() == b"timetable".as_slice(), 1, 1, RowKind::Kind)?;
        fields_in(row, 1, 2, 2)?;
        let version = number_in(row, 1, 2, 1, 3)?;
        Ok(Listed {
            version,
            arrive: Trains::new(alloc),
            depart: Trains::new(alloc),
            moving: false,
            over: PhantomData,
        })
    }

    #[tactic(auto, unfolding(crate::specs::defs::TimetableFormat::later_of))]
    fn read_later(
        &mut self,
        station: &'r KnownStation<'s>,
        alloc: Global,
        n: u32,
        row: &'r Row,
    ) -> Result<(), ReadError> {
        let word = row.word();
        if word == b"arrive".as_slice() {
            return self.read_arrive(alloc, station, n, row);
        }
        if word == b"depart".as_slice() {
            return self.read_depart(alloc, station, n, row);
        }
        let may_stand = self.version >= 2 && !self.moving;
        if may_stand && word == b"stand".as_slice() {
            return self.read_stand(alloc, station, n, row);
        }
        if self.version == 3 && word == b"placed".as_slice() {
            return self.read_placed(alloc, station, n, row);
        }
        must(false, n, 1, RowKind::Kind)?;
        Ok(())
    }

    fn is_whole(&self, _: &'r KnownStation<'s>) -> bool {
        true
    }

    fn into_output(self, _: &'r KnownStation<'s>) -> Timetable {
        let (arrive, depart) = (self.arrive, self.depart);
        Timetable {
            arrive: Items::from_vec(arrive.trains),
            depart: Items::from_vec(depart.trains),
        }
    }
}

/// The timetable that the records state over this station, which is well formed, or exactly their first fault.
///
/// The station needs to be well formed. All three versions of the file are read. `Fault` is the least fault by record, then
/// field, then kind; `Memory` is want of memory.
pub fn read_timetable(
    alloc: Global,
    station: &Station,
    rows: &Vec<Row>,
) -> Result<Timetable, ReadError>
    requires { IsStation station.now }
    ensures stated { Gives (λ t. t) result (reading (timetable_format station.now) rows.now.items) }
    ensures formed { IfOk result (IsTimetable station.now) }
{
    let known = KnownStation::of(alloc, station)?;
    read::<Listed>(&known, alloc, rows)
}
