// Stations and timetables, and the units and positions of their trains.
use shunt_base::{ArrId, DepId, Minute, Name, PlatformId, Side, TrackId, TypeId};
use shunt_lists::Items;

/// A type of train units.
#[derive(Debug, Drop)]
pub struct UnitType {
    pub name: Name,
    /// The length of a unit in dm, from 1 to 5,000.
    pub length: u32,
    /// How many minutes after its train's minute a unit is ready, from 1 to 1,440.
    pub turn: u16,
}

/// A shunt track.
#[derive(Debug, Drop)]
pub struct Track {
    pub name: Name,
    /// Its length in dm, from 1 to 50,000.
    pub length: u32,
    /// Whether units enter and leave at its A end.
    pub side_a: bool,
    /// Whether units enter and leave at its B end.
    pub side_b: bool,
}

/// A way between a platform and an end of a track, which serves in both directions.
#[derive(Clone, Copy, Debug, PartialEq, Eq, Drop)]
pub struct Route {
    pub platform: PlatformId,
    pub track: TrackId,
    pub side: Side,
    /// In cost units, from 0 to 1,000,000.
    pub cost: u32,
}

/// That units of a type may stand on a track. A track that no permit names permits every type.
#[derive(Clone, Copy, Debug, PartialEq, Eq, Drop)]
pub struct Permit {
    pub track: TrackId,
    pub kind: TypeId,
}

/// A station: what stands in it, and what shunting costs there.
#[derive(Debug, Drop)]
pub struct Station {
    pub name: Name,
    /// At most 40.
    pub types: Items<UnitType>,
    /// At most 30.
    pub platforms: Items<Name>,
    /// At most 60.
    pub tracks: Items<Track>,
    pub routes: Items<Route>,
    pub permits: Items<Permit>,
    /// What it costs to split an arriving train once, in cost units from 0 to 1,000,000.
    pub split: u32,
    /// What it costs to couple a departing train once, likewise.
    pub couple: u32,
    /// What it costs not to park a block, likewise.
    pub unparked: u32,
}

/// If a train is before the night's first minute: it comes to a platform, or it stands on a track.
///
/// A departing train leaves from its platform.
#[derive(Clone, Copy, Debug, PartialEq, Eq, Drop)]
pub enum Origin {
    Platform(PlatformId),
    Track(TrackId),
}

/// An end of a track, by which units came to it.
#[derive(Clone, Copy, Debug, PartialEq, Eq, Drop)]
pub struct TrackEnd {
    pub track: TrackId,
    pub side: Side,
}

/// Neighbouring units of an arriving train that have come already, together.
#[derive(Clone, Copy, Debug, PartialEq, Eq, Drop)]
pub struct PlacedRun {
    /// The place of its first unit in the train, from 1.
    pub first: u8,
    /// How many units it has, at least 1.
    pub count: u8,
    /// The end by which it came to the track where it stands. None where it was cleared away.
    pub came_by: Option<TrackEnd>,
}

/// An arriving or a departing train.
#[derive(Debug, Drop)]
pub struct Train {
    pub name: Name,
    /// When it arrives or leaves, and 00:00 for a train that stands on a track.
    pub minute: Minute,
    pub origin: Origin,
    /// The types of its units from its A end to its B end, 1 to 8 of them.
    pub units: Items<TypeId>,
    /// Those of its units that have come already, in the order of their places. A departing train has none.
    pub placed: Items<PlacedRun>,
}

/// The trains of a night in the order of their file. Trains that stand on a track come first in `arrive`.
#[derive(Debug, Drop)]
pub struct Timetable {
    /// At most 100 trains with at most 160 units.
    pub arrive: Items<Train>,
    /// At most 100 trains with at most 160 positions.
    pub depart: Items<Train>,
}

/// A unit of an arriving train.
#[derive(Clone, Copy, Debug, PartialEq, Eq, Drop)]
pub struct Unit {
    pub train: ArrId,
    /// Its place in the train, from 1.
    pub place: u8,
    pub kind: TypeId,
}

/// A position of a departing train, which a unit of its type fills.
#[derive(Clone, Copy, Debug, PartialEq, Eq, Drop)]
pub struct Position {
    pub train: DepId,
    /// Its place in the train, from 1.
    pub place: u8,
    pub kind: TypeId,
}
