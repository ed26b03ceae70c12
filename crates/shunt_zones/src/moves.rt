// The moves of a plan.
ghost use Rattle.std.specs.Prelude.{◌≡◌, ◌≤◌, ◌<◌, ◌*◌, ◌==◌, ◌&&◌, All, map, filter, not, length};
ghost use Rattle.std.specs.Prelude.{IfOk};
ghost use Rattle.shunt_base.specs.defs.Keys.{AreStays};
ghost use Rattle.shunt_stays.specs.defs.Events.{in_order};
ghost use Rattle.shunt_instance.specs.defs.Words.{is_standing};
ghost use Rattle.shunt_blocks.specs.defs.Shapes.{IsInRange, shape_of};
ghost use Rattle.shunt_blocks.specs.defs.Ways.{has_placed};
ghost use Rattle.shunt_blocks.specs.defs.Lists.{AreInRange, stays_of};
ghost use Rattle.shunt_plan.specs.defs.Plans.{IsPlanInRange};
ghost use Rattle.shunt_tracks.specs.defs.Answer.{event_of as told};
ghost use Rattle.shunt_tracks.specs.defs.Dues.{move_of};
ghost use Rattle.shunt_zones.specs.defs.Moves.{events_of, moves_of, trains_of, train_of};
ghost use Rattle.shunt_zones.specs.defs.Moves.{names_placed, has_been, IsMoveOf};

use shunt_base::{ArrId, DepId, EventKey};
use shunt_blocks::{Block, has_placed, laws, stays_of};
use shunt_instance::{Instance, Origin, Train};
use shunt_plan::Plan;
use shunt_tracks::{Due, Event, sorted_dues};
use std::alloc::{AllocError, Global};

fn event_of(due: &Due) -> Event
    ensures { result ≡ told (move_of due.now) }
{
    Event {
        key: due.key,
        track: due.track,
        side: due.side,
    }
}

// The entries and leaves of the stays of these blocks, in the order of their keys.
fn dues_in(alloc: Global, instance: &Instance, blocks: &[Block]) -> Result<Vec<Due>, AllocError>
    requires each { All (IsInRange instance.now) blocks.now }
    requires stays { AreStays (stays_of instance.now blocks.now) }
    ensures { IfOk result (λ v. map move_of v.items ≡ in_order (stays_of instance.now blocks.now)) }
{
    let stays = stays_of(alloc, instance, blocks)?;
    sorted_dues(alloc, &stays)
}

fn events_from(alloc: Global, dues: &[Due]) -> Result<Vec<Event>, AllocError>
    ensures { IfOk result (λ v. v.items ≡ map told (map move_of dues.now)) }
{
    let mut events = Vec::new(alloc);
    for due in dues {
        events.push(event_of(due))?;
    }
    Ok(events)
}

// The entries and leaves of blocks in range in key order.
#[tactic(auto, unfolding(crate::specs::defs::Moves::events_of))]
fn events_of(alloc: Global, instance: &Instance, blocks: &[Block]) -> Result<Vec<Event>, AllocError>
    requires { AreInRange instance.now blocks.now }
    ensures exact { IfOk result (λ v. v.items ≡ events_of instance.now blocks.now) }
    ensures of_night { IfOk result (λ v. All (IsMoveOf instance.now) v.items) }
    ensures few { IfOk result (λ v. length v.items ≤ 800) }
{
    // The calls tell that the night is well formed, and what its stays are.
    instance.station();
    laws::stays_of_blocks();
    let dues = dues_in(alloc, instance, blocks)?;
    events_from(alloc, &dues)
}

/// The train that a move's block comes from or goes to.
pub(crate) fn train_of(instance: &Instance, key: EventKey) -> &Train
    requires { key.train < length (trains_of instance.now key) }
    ensures { result.now ≡ train_of instance.now key }
{
    if key.enters {
        instance.arrive(ArrId(key.train))
    } else {
        instance.depart(DepId(key.train))
    }
}

fn stands(train: &Train) -> bool
    ensures { result ≡ is_standing train.now }
{
    match train.origin {
        Origin::Platform(_) => false,
        Origin::Track(_) => true,
    }
}

// Whether a block has an id, and a unit that has come already.
fn is_placed_as(instance: &Instance, block: &Block, id: u32) -> bool
    requires { IsInRange instance.now block.now }
    ensures { result ≡ (block.now.id == id && has_placed instance.now (shape_of block.now)) }
{
    block.id == id && has_placed(instance, block)
}

// Whether one of the blocks with an id has a unit that has come already.
fn names_placed(instance: &Instance, blocks: &[Block], id: u32) -> bool
    requires { All (IsInRange instance.now) blocks.now }
    ensures { result ≡ names_placed instance.now blocks.now id }
{
    for block in blocks {
        if is_placed_as(instance, block, id) {
            return true;
        }
    }
    false
}

// Whether it is an entry that has been: of a standing train, or of a block with a unit that has come already.
fn has_been(instance: &Instance, blocks: &[Block], key: EventKey) -> bool
    requires key { key.train < length (trains_of instance.now key) }
    requires blocks { All (IsInRange instance.now) blocks.now }
    ensures { result ≡ has_been instance.now blocks.now key }
{
    key.enters && (stands(train_of(instance, key)) || names_placed(instance, blocks, key.id))
}

// The events but the entries that have been.
fn but_past(
    alloc: Global,
    instance: &Instance,
    blocks: &[Block],
    events: &[Event],
) -> Result<Vec<Event>, AllocError>
    requires events { All (IsMoveOf instance.now) events.now }
    requires blocks { All (IsInRange instance.now) blocks.now }
    ensures { IfOk result
        (λ v. v.items ≡ filter (λ e. not (has_been instance.now blocks.now e.key)) events.now) }
{
    let mut moves = Vec::new(alloc);
    for event in events {
        if !has_been(instance, blocks, event.key) {
            moves.push(*event)?;
        }
    }
    Ok(moves)
}

/// The moves of a plan in range, in key order: its events but the entries of standing trains and of blocks with units that have come
/// already, 800 at most. The error is want of memory.
#[tactic(auto, unfolding(crate::specs::defs::Moves::moves_of))]
pub fn moves_of(alloc: Global, instance: &Instance, plan: &Plan) -> Result<Vec<Event>, AllocError>
    requires { IsPlanInRange instance.now plan.now }
    ensures exact { IfOk result (λ v. v.items ≡ moves_of instance.now plan.now.blocks) }
    ensures of_night { IfOk result (λ v. All (IsMoveOf instance.now) v.items) }
    ensures few { IfOk result (λ v. length v.items ≤ 800) }
{
    let blocks = plan.blocks.as_slice();
    let events = events_of(alloc, instance, blocks)?;
    but_past(alloc, instance, blocks, &events)
}
