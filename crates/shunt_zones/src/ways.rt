// Ways between platforms and tracks, as records name them.
ghost use Rattle.std.specs.Prelude.{◌≡◌, ◌≤◌, ◌<◌, length, IfOk};
ghost use Rattle.std.specs.List.{list_any};
ghost use Rattle.shunt_rows.specs.defs.Checks.{answer};
ghost use Rattle.shunt_base.specs.defs.Sides.{same_side};
ghost use Rattle.shunt_instance.specs.defs.Words.{joins};
ghost use Rattle.shunt_instance.specs.defs.Wellformed.{IsStation};
ghost use Rattle.shunt_zones.specs.defs.ZonesFormat.{has_route, way_in};

use shunt_base::{PlainNames, PlatformId, Side, TrackId};
use shunt_instance::{Route, Station, TrackNames};
use shunt_rows::{Known, Row, RowFault, RowKind, must, side_in};
use std::alloc::{AllocError, Global};
use std::marker::Model;

/// A platform, a track and a side of it.
#[derive(Clone, Copy, Debug, PartialEq, Eq, Drop)]
pub struct Way {
    pub platform: PlatformId,
    pub track: TrackId,
    pub side: Side,
}

pub(crate) fn is_same_side(one: Side, other: Side) -> bool
    ensures { result ≡ same_side one other }
{
    match (one, other) {
        (Side::A, Side::A) | (Side::B, Side::B) => true,
        _ => false,
    }
}

// Whether a route joins these three.
fn joins(route: &Route, way: Way) -> bool
    ensures { result ≡ joins way.platform way.track way.side route.now }
{
    route.platform.0 == way.platform.0
        && route.track.0 == way.track.0
        && is_same_side(route.side, way.side)
}

#[tactic(auto, unfolding(crate::specs::defs::ZonesFormat::has_route))]
fn has_route(station: &Station, way: Way) -> bool
    ensures { result ≡ has_route station.now way }
{
    station
        .routes
        .as_slice()
        .iter()
        .any(|route| joins(route, way))
}

/// A well-formed station whose platforms and tracks are found by their names; seen as the station.
#[derive(Drop)]
pub struct KnownStation<'r> {
    station: &'r Station,
    platforms: Known<'r, PlainNames>,
    tracks: Known<'r, TrackNames>,
}

impl<'r> Model for KnownStation<'r> {
    ghost use Rattle.std.specs.Prelude.{◌≡◌};
    ghost use Rattle.shunt_instance.specs.declared.records.Station.{Station};
    ghost use Rattle.shunt_instance.specs.defs.Wellformed.{IsStation};

    ghost Value = { Station };

    ghost view = { λ k. k.station.now };

    ghost invariant = { λ k. (k.platforms ≡ k.station.now.platforms)
        × (k.tracks ≡ k.station.now.tracks) × IsStation k.station.now };
}

impl<'r> KnownStation<'r> {
    /// This station. The error is want of memory.
    pub fn of(alloc: Global, station: &'r Station) -> Result<KnownStation<'r>, AllocError>
        requires { IsStation station.now }
        ensures { IfOk result (λ k. k ≡ station.now) }
    {
        let platforms = Known::<PlainNames>::of(alloc, station.platforms.as_slice())?;
        let tracks = Known::<TrackNames>::of(alloc, station.tracks.as_slice())?;
        Ok(KnownStation {
            station,
            platforms,
            tracks,
        })
    }

    /// The way at fields 2 to 4 of record `n`: `PLATFORM,TRACK,SIDE`, between which the station has a route.
    ///
    /// A platform or a track that isn't the station's is Unknown, a side that is none is Kind at field 4, and three without a
    /// route are Unknown there.
    #[tactic(auto, unfolding(crate::specs::defs::ZonesFormat::way_in))]
    pub fn read_way(&self, row: &Row, n: u32) -> Result<Way, RowFault>
        requires { 4 ≤ length row.now }
        ensures { result ≡ answer n (way_in self.now row.now) }
    {
        let platform = self.platforms.known_in(row, n, 2)?;
        let track = self.tracks.known_in(row, n, 3)?;
        let side = side_in(row, n, 4)?;
        let way = Way {
            platform: PlatformId(platform as u8),
            track: TrackId(track as u8),
            side,
        };
        let joined = has_route(self.station, way);
        must(joined, n, 4, RowKind::Unknown)?;
        Ok(way)
    }
}
