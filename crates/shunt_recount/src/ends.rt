// Ends of tracks, which are stacks, and what stands by them.
ghost use Rattle.std.specs.Prelude.{◌≡◌, ◌<◌, ◌++◌, ◌∷◌, [], filter, length, IfOk, OnOk};
ghost use Rattle.shunt_base.specs.defs.Sides.{same_side};
ghost use Rattle.shunt_instance.specs.defs.Words.{is_open_at};
ghost use Rattle.shunt_stacks.specs.defs.Stacks.{stacks, is_of};
ghost use Rattle.shunt_recount.specs.defs.Offers.{stack_at, stacks_at, block_on, open_ends};

use shunt_base::{Side, TrackId};
use shunt_blocks::{Block, Park, Shape};
use shunt_instance::Instance;
use std::alloc::{AllocError, Global};

/// A stack: a track with one of its sides.
#[derive(Clone, Copy, Drop)]
pub(crate) struct TrackEnd {
    pub track: TrackId,
    pub side: Side,
}

/// Whether two sides are one.
fn is_same(one: Side, other: Side) -> bool
    ensures { result ≡ same_side one other }
{
    match (one, other) {
        (Side::A, Side::A) => true,
        (Side::B, Side::B) => true,
        _ => false,
    }
}

/// Whether an option is parked on the track of an end, and comes and goes there.
pub(crate) fn stands_by(end: TrackEnd, option: Option<Park>) -> bool
    ensures { result ≡ is_of (stack_at end) option }
{
    let Some(park) = option else {
        return false;
    };
    park.track.0 == end.track.0
        && (is_same(park.side_in, end.side) && is_same(park.side_out, end.side))
}

/// A shape with an option as a block.
pub(crate) fn block_of(shape: Shape, park: Option<Park>) -> Block
    ensures { result ≡ record {
      id = 1;
      arr = shape.arr;
      p = shape.p;
      n = shape.n;
      dep = shape.dep;
      q = shape.q;
      park = park;
    } }
{
    Block {
        id: 1,
        arr: shape.arr,
        p: shape.p,
        n: shape.n,
        dep: shape.dep,
        q: shape.q,
        park,
    }
}

/// A shape as a block that comes and goes by an end of a track.
pub(crate) fn block_on(end: TrackEnd, shape: Shape) -> Block
    ensures { result ≡ block_on (stack_at end) shape }
{
    let park = Park {
        track: end.track,
        side_in: end.side,
        side_out: end.side,
    };
    block_of(shape, Some(park))
}

/// Whether a track is open at an end.
fn is_open(instance: &Instance, end: TrackEnd) -> bool
    requires { end.track.0 < length instance.now.station.tracks }
    ensures { result ≡ is_open_at instance.now.station end.track end.side }
{
    let track = &instance.station().tracks.as_slice()[usize::from(end.track.0)];
    match end.side {
        Side::A => track.side_a,
        Side::B => track.side_b,
    }
}

/// Adds an end of a track where it is open.
fn add_end(instance: &Instance, end: TrackEnd, ends: &mut Vec<TrackEnd>) -> Result<(), AllocError>
    requires { end.track.0 < length instance.now.station.tracks }
    ensures { OnOk result (stacks_at ends.new.items ≡ stacks_at ends.old.items
        ++ filter (λ k. is_open_at instance.now.station k.track k.side) (stack_at end ∷ [])) }
{
    if is_open(instance, end) {
        ends.push(end)?;
    }
    Ok(())
}

/// Adds the open ends of a track.
fn add_ends(instance: &Instance, track: TrackId, ends: &mut Vec<TrackEnd>) -> Result<(), AllocError>
    requires { track.0 < length instance.now.station.tracks }
    ensures { OnOk result (stacks_at ends.new.items ≡ stacks_at ends.old.items
        ++ open_ends instance.now.station track.0) }
{
    let first = TrackEnd {
        track,
        side: Side::A,
    };
    let second = TrackEnd {
        track,
        side: Side::B,
    };
    add_end(instance, first, ends)?;
    add_end(instance, second, ends)
}

/// The stacks of a night's station: by track, and side A before side B.
pub(crate) fn all_ends(alloc: Global, instance: &Instance) -> Result<Vec<TrackEnd>, AllocError>
    ensures { IfOk result (λ v. stacks_at v.items ≡ stacks instance.now.station) }
{
    let mut ends = Vec::new(alloc);
    // The call tells that there are at most 60 tracks.
    let tracks = instance.station().tracks.len();
    for t in 0..tracks {
        add_ends(instance, TrackId(t as u8), &mut ends)?;
    }
    Ok(ends)
}
