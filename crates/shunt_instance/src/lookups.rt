// Tables in which routes and permits are looked up.
ghost use Rattle.std.specs.Prelude.{◌≡◌, ◌<◌, length, All, IfOk};
ghost use Rattle.shunt_instance.specs.defs.Wellformed.{IsStation};
ghost use Rattle.shunt_instance.specs.defs.Tables.{route_cell, permit_cell, AreCosts, AreNamed};
ghost use Rattle.shunt_instance.specs.defs.Tables.{ArePairs};

use crate::records::{Permit, Route};
use shunt_base::{PlatformId, Side, TrackId, TypeId};
use std::alloc::{AllocError, Global};

/// If the table of costs holds a route.
pub(crate) fn route_cell(platform: PlatformId, track: TrackId, side: Side) -> usize
    requires platform { platform.0 < 30 }
    requires track { track.0 < 60 }
    ensures exact { result ≡ route_cell platform track side }
    ensures within { result < 3600 }
{
    let way = platform.0 as usize * 60 + track.0 as usize;
    match side {
        Side::A => way * 2,
        Side::B => way * 2 + 1,
    }
}

/// The costs of these routes, by platform, track and side.
pub(crate) fn cost_table(alloc: Global, routes: &[Route]) -> Result<Vec<Option<u32>>, AllocError>
    requires { All (λ r. (r.platform.0 < 30) × (r.track.0 < 60)) routes.now }
    ensures { IfOk result (λ v. AreCosts routes.now v.items) }
{
    let mut costs = vec![in alloc; None; 3600]?;
    let mut left = routes.len();
    'routes: while left > 0 {
        left -= 1;
        let route = routes[left];
        costs[route_cell(route.platform, route.track, route.side)] = Some(route.cost);
    }
    Ok(costs)
}

/// If the table of permits holds a track and a type.
pub(crate) fn permit_cell(track: TrackId, kind: TypeId) -> usize
    requires track { track.0 < 60 }
    requires kind { kind.0 < 40 }
    ensures exact { result ≡ permit_cell track kind }
    ensures within { result < 2400 }
{
    track.0 as usize * 40 + kind.0 as usize
}

/// For each track whether a permit names it.
pub(crate) fn named_table(alloc: Global, permits: &[Permit]) -> Result<Vec<bool>, AllocError>
    requires { All (λ p. p.track.0 < 60) permits.now }
    ensures { IfOk result (λ v. AreNamed permits.now v.items) }
{
    let mut named = vec![in alloc; false; 60]?;
    let mut left = permits.len();
    'permits: while left > 0 {
        left -= 1;
        named[permits[left].track.0 as usize] = true;
    }
    Ok(named)
}

/// For each track and type whether a permit names both.
pub(crate) fn pair_table(alloc: Global, permits: &[Permit]) -> Result<Vec<bool>, AllocError>
    requires { All (λ p. (p.track.0 < 60) × (p.kind.0 < 40)) permits.now }
    ensures { IfOk result (λ v. ArePairs permits.now v.items) }
{
    let mut pairs = vec![in alloc; false; 2400]?;
    let mut left = permits.len();
    'permits: while left > 0 {
        left -= 1;
        let permit = permits[left];
        pairs[permit_cell(permit.track, permit.kind)] = true;
    }
    Ok(pairs)
}
