// Zones, and what is told of moves that pass them.
use shunt_base::{Minute, Name, PlatformId, Side, TrackId};
use shunt_lists::Items;
use shunt_tracks::Event;

/// A zone lies over the way between a platform and a side of a track.
#[derive(Clone, Copy, Debug, PartialEq, Eq, Hash, Drop)]
pub struct Over {
    pub platform: PlatformId,
    pub track: TrackId,
    pub side: Side,
    /// The place of its name, from 0.
    pub zone: u8,
}

/// The zones of a station's throat.
#[derive(Debug, Drop)]
pub struct Zones {
    /// At most 64 in a file, all different.
    pub names: Items<Name>,
    /// In a file all different, each over a route of the station.
    pub over: Items<Over>,
}

/// Two moves of one minute that share a zone.
#[derive(Clone, Copy, Debug, PartialEq, Eq, Drop)]
pub struct Meet {
    /// The earlier move by its key.
    pub first: Event,
    pub second: Event,
    /// The number of the least zone that they share.
    pub zone: u8,
}

/// How many moves pass a zone.
#[derive(Clone, Copy, Debug, PartialEq, Eq, Drop)]
pub struct ZoneLoad {
    /// At most 800.
    pub moves: u32,
    /// The first minute in which most of them do; None exactly when there are none.
    pub busiest: Option<Minute>,
    /// How many do in that minute, or 0.
    pub most: u32,
}
