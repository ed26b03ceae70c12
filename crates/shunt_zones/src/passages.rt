// The zones that moves pass.
ghost use Rattle.std.specs.Prelude.{◌≡◌, ◌≤◌, ◌<◌, All, map, length, IfOk};
ghost use Rattle.std.specs.List.{list_any};
ghost use Rattle.shunt_plan.specs.defs.Plans.{IsPlanInRange};
ghost use Rattle.shunt_zones.specs.defs.Moves.{IsMoveOf};
ghost use Rattle.shunt_zones.specs.defs.Passed.{lies_on, zones_of, has_zone, passing_of};
ghost use Rattle.shunt_zones.specs.defs.Passed.{passings_of};

use crate::moves::{moves_of, train_of};
use crate::records::{Over, Zones};
use crate::ways::is_same_side;
use shunt_base::{Side, TrackId};
use shunt_instance::{Instance, Origin};
use shunt_lists::Items;
use shunt_plan::Plan;
use shunt_tracks::Event;
use std::alloc::{AllocError, Global};

/// A move, and the zones that it passes.
#[derive(Debug, Drop)]
pub(crate) struct Passing {
    pub(crate) event: Event,
    pub(crate) zones: Items<u8>,
}

fn lies_on(origin: Origin, track: TrackId, side: Side, over: &Over) -> bool
    ensures { result ≡ lies_on origin track side over.now }
{
    match origin {
        Origin::Platform(platform) => {
            over.platform.0 == platform.0
                && over.track.0 == track.0
                && is_same_side(over.side, side)
        }
        Origin::Track(_) => false,
    }
}

// The zones that a move passes.
fn zones_of(
    alloc: Global,
    instance: &Instance,
    zones: &Zones,
    event: Event,
) -> Result<Vec<u8>, AllocError>
    requires { IsMoveOf instance.now event }
    ensures { IfOk result (λ v. v.items ≡ zones_of instance.now zones.now event) }
{
    let origin = train_of(instance, event.key).origin;
    let mut own = Vec::new(alloc);
    for over in zones.over.as_slice() {
        if lies_on(origin, event.track, event.side, over) {
            own.push(over.zone)?;
        }
    }
    Ok(own)
}

/// Whether a zone is one of these.
pub(crate) fn has_zone(own: &[u8], zone: usize) -> bool
    ensures { result ≡ has_zone own.now zone }
{
    own.iter().any(|other| usize::from(*other) == zone)
}

// These moves with the zones that they pass.
fn passings_from(
    alloc: Global,
    instance: &Instance,
    zones: &Zones,
    moves: &[Event],
) -> Result<Vec<Passing>, AllocError>
    requires { All (IsMoveOf instance.now) moves.now }
    ensures { IfOk result (λ v. v.items ≡ map (passing_of instance.now zones.now) moves.now) }
{
    let mut passings = Vec::new(alloc);
    for event in moves {
        let own = zones_of(alloc, instance, zones, *event)?;
        passings.push(Passing {
            event: *event,
            zones: Items::from_vec(own),
        })?;
    }
    Ok(passings)
}

/// The moves of a plan in range with the zones that they pass, in key order.
#[tactic(auto, unfolding(crate::specs::defs::Passed::passings_of))]
pub(crate) fn passings_of(
    alloc: Global,
    instance: &Instance,
    zones: &Zones,
    plan: &Plan,
) -> Result<Vec<Passing>, AllocError>
    requires { IsPlanInRange instance.now plan.now }
    ensures exact { IfOk result
        (λ v. v.items ≡ passings_of instance.now zones.now plan.now.blocks) }
    ensures in_time { IfOk result (λ v. All (λ p. p.event.key.minute < 2880) v.items) }
    ensures few { IfOk result (λ v. length v.items ≤ 800) }
{
    let moves = moves_of(alloc, instance, plan)?;
    passings_from(alloc, instance, zones, &moves)
}
