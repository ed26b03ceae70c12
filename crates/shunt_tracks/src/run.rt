// The run of the events over the lists of all tracks.
ghost use Rattle.std.specs.Prelude.{◌≡◌, ◌<◌, length, map, IfOk};
ghost use Rattle.std.specs.List.{All};
ghost use Rattle.shunt_base.specs.defs.Keys.{AreStays};
ghost use Rattle.shunt_stays.specs.defs.Run.{run, run_of, empty_tracks, AreOnTracks};
ghost use Rattle.shunt_tracks.specs.defs.Dues.{move_of};
ghost use Rattle.shunt_tracks.specs.defs.Blocks.{blocks_of, Fit};
ghost use Rattle.shunt_tracks.specs.defs.Answer.{answer, event_of as told};

use crate::blocks::{Did, ListedBlock, done};
use crate::dues::{Due, sorted_dues};
use shunt_base::{EventKey, Side, Stay, TrackId};
use shunt_lists::Items;
use std::alloc::{AllocError, Global};

/// A block enters a track, or leaves it.
#[derive(Clone, Copy, Debug, PartialEq, Eq)]
pub struct Event {
    /// When, which block, and whether it enters.
    pub key: EventKey,
    pub track: TrackId,
    /// The side by which it enters or leaves.
    pub side: Side,
}

/// An event that was done.
#[derive(Clone, Copy, Debug, PartialEq, Eq)]
pub struct Step {
    pub event: Event,
    /// The lengths of the blocks on its track just after it, added up, in dm.
    pub load: u64,
}

/// What came of a run.
#[derive(Debug, Drop)]
pub enum Ran {
    /// Each event was done, in this order.
    Through(Items<Step>),
    /// The first event that can't be done is this leave: its block isn't at its side.
    Blocked(Event),
    /// The first event that can't be done is this entry: it would leave this load, in dm, which is more than the track's length.
    Over { event: Event, load: u64 },
}

fn event_of(due: &Due) -> Event
    ensures { result ≡ told (move_of due.now) }
{
    Event {
        key: due.key,
        track: due.track,
        side: due.side,
    }
}

fn run_dues(
    alloc: Global,
    lengths: &[u32],
    dues: &[Due],
    tracks: &mut Vec<Vec<ListedBlock>>,
) -> Result<Ran, AllocError>
    requires sizes { length tracks.old.items ≡ length lengths.now }
    requires on { All (λ d. d.track.0 < length lengths.now) dues.now }
    requires fit { Fit (λ v. blocks_of v.items) lengths.now tracks.old.items }
    ensures { IfOk result (λ r. r ≡ answer
        (run lengths.now (map move_of dues.now) (map (λ v. blocks_of v.items) tracks.old.items))) }
{
    let mut steps = Vec::new(alloc);
    for due in dues {
        let track = usize::from(due.track.0);
        let event = event_of(due);
        match done(lengths[track], due, &mut tracks[track])? {
            Did::Moved(load) => steps.push(Step { event, load })?,
            Did::Blocked => return Ok(Ran::Blocked(event)),
            Did::Over(load) => return Ok(Ran::Over { event, load }),
        }
    }
    Ok(Ran::Through(Items::from_vec(steps)))
}

fn empty(alloc: Global, lengths: &[u32]) -> Result<Vec<Vec<ListedBlock>>, AllocError>
    ensures { IfOk result (λ v. map (λ w. blocks_of w.items) v.items ≡ empty_tracks lengths.now) }
{
    let mut tracks = Vec::new(alloc);
    for _length in lengths {
        tracks.push(Vec::new(alloc))?;
    }
    Ok(tracks)
}

/// Moves the blocks of these stays on tracks of these lengths, in dm, event by event in the order of their keys, from empty tracks on.
///
/// A track's number is its place among the lengths. An entry puts its block at a side, where the track is long enough for
/// all that then stand there. A leave needs its block at its side. The stays are well formed, no two have one id, and each
/// has a track among these. Err is want of memory.
pub fn run_lists(alloc: Global, lengths: &[u32], stays: &[Stay]) -> Result<Ran, AllocError>
    requires stays { AreStays stays.now }
    requires tracks { AreOnTracks lengths.now stays.now }
    ensures { IfOk result (λ r. r ≡ answer (run_of lengths.now stays.now)) }
{
    let dues = sorted_dues(alloc, stays)?;
    let mut tracks = empty(alloc, lengths)?;
    run_dues(alloc, lengths, &dues, &mut tracks)
}
