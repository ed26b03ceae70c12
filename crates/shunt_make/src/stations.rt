// The station of a made night.
ghost use Rattle.std.specs.Prelude.{◌≡◌, ◌≤◌, [], ◌∷◌, ◌++◌, cond, IsTrue, length, IfOk, OnOk};
ghost use Rattle.std.specs.List.{range_with_len};
ghost use Rattle.shunt_base.specs.defs.Spelling.{IsName, is_name_byte};
ghost use Rattle.shunt_make.specs.defs.Draws.{next, after, drawn_for};
ghost use Rattle.shunt_make.specs.defs.Made.{numbered, unit_types, platform_names, track_of};
ghost use Rattle.shunt_make.specs.defs.Made.{open_ways, ways_from, ways_of, route_of, station_of};
ghost use Rattle.shunt_make.specs.defs.Made.{after_station};

use crate::draws::Draws;
use itoa::Buffer;
use shunt_base::{Name, PlatformId, Side, TrackId};
use shunt_instance::{Route, Station, Track, UnitType};
use shunt_lists::Items;
use std::alloc::{AllocError, Global};

/// A way from a platform to a side at which a track is open.
#[derive(Clone, Copy, Debug, Drop)]
pub struct OpenWay {
    pub platform: PlatformId,
    pub track: TrackId,
    pub side: Side,
}

/// The name of a letter and a number in decimals.
pub(crate) fn numbered_name(alloc: Global, letter: u8, number: u32) -> Result<Name, AllocError>
    requires { IsTrue (is_name_byte letter) }
    ensures { IfOk result (λ n. n ≡ numbered letter number) }
{
    let mut digits = Buffer::new();
    let mut text = Vec::new(alloc);
    text.push(letter)?;
    text.extend_from_slice(digits.format(number).as_bytes())?;
    Name::new(alloc, &text)
}

fn unit_type(alloc: Global, name: &[u8], length: u32, turn: u16) -> Result<UnitType, AllocError>
    requires { IsName name.now }
    ensures { IfOk result (λ t. t ≡ record { name = name.now; length = length; turn = turn }) }
{
    let name = Name::new(alloc, name)?;
    Ok(UnitType { name, length, turn })
}

fn made_types(alloc: Global) -> Result<Vec<UnitType>, AllocError>
    ensures { IfOk result (λ v. v.items ≡ unit_types) }
{
    let mut types = Vec::new(alloc);
    types.push(unit_type(alloc, b"K", 250, 10)?)?;
    types.push(unit_type(alloc, b"L", 500, 20)?)?;
    types.push(unit_type(alloc, b"M", 750, 30)?)?;
    Ok(types)
}

fn made_platforms(alloc: Global) -> Result<Vec<Name>, AllocError>
    ensures { IfOk result (λ v. v.items ≡ platform_names) }
{
    let mut platforms = Vec::new(alloc);
    platforms.push(numbered_name(alloc, b'P', 1)?)?;
    platforms.push(numbered_name(alloc, b'P', 2)?)?;
    Ok(platforms)
}

fn made_track(alloc: Global, draws: &mut Draws, k: u32) -> Result<Track, AllocError>
    ensures made { IfOk result (λ t. t ≡ track_of k (next draws.old.state)) }
    ensures state { draws.new.state ≡ next draws.old.state }
{
    let length = 1000 + 250 * draws.below(5);
    let name = numbered_name(alloc, b'T', k)?;
    Ok(Track {
        name,
        length,
        side_a: true,
        side_b: k % 3 == 0,
    })
}

fn made_tracks(alloc: Global, draws: &mut Draws, count: u32) -> Result<Vec<Track>, AllocError>
    ensures made { IfOk result
        (λ v. v.items ≡ drawn_for track_of draws.old.state (range_with_len 1 count)) }
    ensures state { OnOk result (draws.new.state ≡ after draws.old.state count) }
{
    let mut tracks = Vec::new(alloc);
    for i in 0..count {
        tracks.push(made_track(alloc, draws, i + 1)?)?;
    }
    Ok(tracks)
}

fn push_if(ways: &mut Vec<OpenWay>, wanted: bool, way: OpenWay) -> Result<(), AllocError>
    ensures { OnOk result (ways.new.items ≡ ways.old.items ++ cond wanted (way ∷ []) []) }
{
    if !wanted {
        return Ok(());
    }
    ways.push(way)?;
    Ok(())
}

fn push_open(
    ways: &mut Vec<OpenWay>,
    platform: PlatformId,
    id: TrackId,
    track: &Track,
) -> Result<(), AllocError>
    ensures { OnOk result (ways.new.items ≡ ways.old.items ++ open_ways platform id track.now) }
{
    let first = OpenWay {
        platform,
        track: id,
        side: Side::A,
    };
    let second = OpenWay {
        platform,
        track: id,
        side: Side::B,
    };
    push_if(ways, track.side_a, first)?;
    push_if(ways, track.side_b, second)
}

fn push_ways(
    ways: &mut Vec<OpenWay>,
    platform: PlatformId,
    tracks: &[Track],
) -> Result<(), AllocError>
    requires { length tracks.now ≤ 60 }
    ensures { OnOk result (ways.new.items ≡ ways.old.items ++ ways_from platform 0 tracks.now) }
{
    for (k, track) in tracks.iter().enumerate() {
        push_open(ways, platform, TrackId(k as u8), track)?;
    }
    Ok(())
}

fn made_ways(alloc: Global, tracks: &[Track]) -> Result<Vec<OpenWay>, AllocError>
    requires { length tracks.now ≤ 60 }
    ensures { IfOk result (λ v. v.items ≡ ways_of tracks.now) }
{
    let mut ways = Vec::new(alloc);
    push_ways(&mut ways, PlatformId(0), tracks)?;
    push_ways(&mut ways, PlatformId(1), tracks)?;
    Ok(ways)
}

fn made_route(draws: &mut Draws, way: OpenWay) -> Route
    ensures made { result ≡ route_of way (next draws.old.state) }
    ensures state { draws.new.state ≡ next draws.old.state }
{
    Route {
        platform: way.platform,
        track: way.track,
        side: way.side,
        cost: 1 + draws.below(20),
    }
}

fn made_routes(alloc: Global, draws: &mut Draws, ways: &[OpenWay]) -> Result<Vec<Route>, AllocError>
    ensures made { IfOk result (λ v. v.items ≡ drawn_for route_of draws.old.state ways.now) }
    ensures state { OnOk result (draws.new.state ≡ after draws.old.state (length ways.now)) }
{
    let mut routes = Vec::new(alloc);
    for way in ways {
        routes.push(made_route(draws, *way))?;
    }
    Ok(routes)
}

/// The station: first its tracks are drawn, then its routes.
pub(crate) fn made_station(
    alloc: Global,
    draws: &mut Draws,
    units: u32,
) -> Result<Station, AllocError>
    requires { units ≤ 160 }
    ensures made { IfOk result (λ s. s ≡ station_of draws.old.state units) }
    ensures state { OnOk result (draws.new.state ≡ after_station draws.old.state units) }
{
    let tracks = made_tracks(alloc, draws, 2 + units / 4)?;
    let ways = made_ways(alloc, &tracks)?;
    let routes = made_routes(alloc, draws, &ways)?;
    Ok(Station {
        name: Name::new(alloc, b"G")?,
        types: Items::from_vec(made_types(alloc)?),
        platforms: Items::from_vec(made_platforms(alloc)?),
        tracks: Items::from_vec(tracks),
        routes: Items::from_vec(routes),
        permits: Items::from_vec(Vec::new(alloc)),
        split: 10,
        couple: 10,
        unparked: 500,
    })
}
