// The stacks of a night's station.
ghost use Rattle.std.specs.Prelude.{◌≡◌, ◌<◌, ◌++◌, length, IfOk, OnOk};
ghost use Rattle.shunt_base.specs.defs.Sides.{same_side};
ghost use Rattle.shunt_instance.specs.defs.Words.{is_open_at};
ghost use Rattle.shunt_stacks.specs.defs.Stacks.{stacks, is_of};
ghost use Rattle.shunt_fillings.specs.defs.Pieces.{seen, all_seen, one_where, ends_of};

use shunt_base::{Side, TrackId};
use shunt_blocks::Park;
use shunt_instance::Instance;
use std::alloc::{AllocError, Global};

/// A stack: a track with one of its open sides.
#[derive(Clone, Copy, Debug, PartialEq, Eq, Drop)]
pub struct Stack {
    pub track: TrackId,
    pub side: Side,
}

/// Whether they are one side.
fn is_same(one: Side, other: Side) -> bool
    ensures { result ≡ same_side one other }
{
    match (one, other) {
        (Side::A, Side::A) => true,
        (Side::B, Side::B) => true,
        _ => false,
    }
}

/// Whether an option is parked on a stack's track, and comes and goes by its side.
pub(crate) fn is_of(stack: Stack, option: Option<Park>) -> bool
    ensures { result ≡ is_of (seen stack) option }
{
    let Some(park) = option else {
        return false;
    };
    park.track.0 == stack.track.0
        && (is_same(park.side_in, stack.side) && is_same(park.side_out, stack.side))
}

/// Whether a track is open at a side.
fn is_open(instance: &Instance, track: TrackId, side: Side) -> bool
    requires { track.0 < length instance.now.station.tracks }
    ensures { result ≡ is_open_at instance.now.station track side }
{
    let track = &instance.station().tracks.as_slice()[usize::from(track.0)];
    match side {
        Side::A => track.side_a,
        Side::B => track.side_b,
    }
}

/// Adds a track with a side where it is open there.
fn add_end(instance: &Instance, stack: Stack, stacks: &mut Vec<Stack>) -> Result<(), AllocError>
    requires { stack.track.0 < length instance.now.station.tracks }
    ensures { OnOk result (all_seen stacks.new.items ≡ all_seen stacks.old.items
        ++ one_where (is_open_at instance.now.station stack.track stack.side) (seen stack)) }
{
    if is_open(instance, stack.track, stack.side) {
        stacks.push(stack)?;
    }
    Ok(())
}

/// Adds the stacks of a track.
fn add_ends(instance: &Instance, track: TrackId, stacks: &mut Vec<Stack>) -> Result<(), AllocError>
    requires { track.0 < length instance.now.station.tracks }
    ensures { OnOk result (all_seen stacks.new.items ≡ all_seen stacks.old.items
        ++ ends_of instance.now.station track.0) }
{
    let one = Stack {
        track,
        side: Side::A,
    };
    add_end(instance, one, stacks)?;
    let other = Stack {
        track,
        side: Side::B,
    };
    add_end(instance, other, stacks)
}

/// The stacks of a night's station, in their order: by track, and side A before side B. Err is want of memory.
pub fn stacks(alloc: Global, instance: &Instance) -> Result<Vec<Stack>, AllocError>
    ensures { IfOk result (λ v. all_seen v.items ≡ stacks instance.now.station) }
{
    let mut stacks = Vec::new(alloc);
    // The call tells that there are at most 60 tracks.
    let tracks = instance.station().tracks.len();
    for t in 0..tracks {
        add_ends(instance, TrackId(t as u8), &mut stacks)?;
    }
    Ok(stacks)
}
