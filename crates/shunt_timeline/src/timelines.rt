//! The clash of stays, kept while stays come and go.
ghost use Rattle.std.specs.Prelude.{◌≡◌, ◌≢◌, ◌↔◌, ℕ, ◌+◌, ◌*◌, ◌^◌, ◌<◌, ◌≤◌, max, List, [], ◌∷◌};
ghost use Rattle.std.specs.Prelude.{Option, Some, None, length, map, take, drop, slice_index_or};
ghost use Rattle.std.specs.Prelude.{vec_len, vec_capacity, IsPermutation, IfOk, OnOk, OnErr};
ghost use Rattle.std.specs.Prelude.{IfSome, OnSome, IfNone};
ghost use Rattle.std.specs.List.{All};
ghost use Rattle.shunt_lists.specs.defs.Members.{In};
ghost use Rattle.shunt_base.specs.declared.keys.Stay.{Stay};
ghost use Rattle.shunt_base.specs.defs.Keys.{AreStays, IsWellFormed};
ghost use Rattle.shunt_stays.specs.defs.Run.{AreOnTracks, GoesThrough};
ghost use Rattle.shunt_cross.specs.defs.Clashes.{clash_of};
ghost use Rattle.shunt_timeline.specs.defs.Holdings.{Holding};
ghost use Rattle.shunt_lists.specs.defs.Members.{Ascends};
ghost use Rattle.shunt_timeline.specs.defs.Sound.{lengths_of, AreSame};
ghost use Rattle.shunt_timeline.specs.declared.track.TrackTimeline.{TrackTimeline};

use crate::track::TrackTimeline;
use shunt_base::Stay;
use shunt_cross::Clash;
use std::alloc::{AllocError, Global};
use std::marker::Model;

/// Stays on tracks, seen as their list in any order, the lengths of the tracks in dm, and how many stays more may come
/// without memory.
///
/// They keep the events of each track in key order, with what stands there just after each and how many cross at each entry. A
/// coming or a going finds its places by binary search, reads and changes the events between them, and shifts what lies behind:
/// events of its own track, and one list of all stays by id.
#[derive(Debug, Drop)]
pub struct Timelines {
    // By ascending id.
    stays: Vec<Stay>,
    tracks: Vec<TrackTimeline>,
    spare: usize,
    pairs: u32,
    over: u32,
}

/// That many slots are never there, since the stays alone would fill more than the memory that can be named.
const MOST_SLOTS: usize = 1 << 61;

impl Model for Timelines {
    ghost use Rattle.std.specs.Prelude.{vec_capacity};
    ghost use Rattle.shunt_timeline.specs.defs.Holdings.{Holding};

    ghost Value = { Holding };

    ghost use Rattle.shunt_timeline.specs.defs.Sound.{lengths_of, IsSoundTrack};

    ghost view = { λ t.
        record { stays = t.stays.items; lengths = lengths_of t.tracks.items; spare = t.spare } };

    ghost invariant = { λ t. IsSoundTrack t.stays.items t.tracks.items t.spare
        (vec_capacity t.stays) t.pairs t.over };
}

// How many stays have lower ids, by binary search.
fn place_of(stays: &[Stay], id: u32) -> usize
    requires { Ascends (λ s. s.id) stays.now }
    ensures bound { result ≤ length stays.now }
    ensures before { (s : Stay) → In s (take result stays.now) → s.id < id }
    ensures after { (s : Stay) → In s (drop result stays.now) → id ≤ s.id }
{
    stays.partition_point(|stay| stay.id < id)
}

// If the stay of an id is.
fn find(stays: &[Stay], id: u32) -> Option<usize>
    requires { Ascends (λ s. s.id) stays.now }
    ensures some { IfSome result
        (λ i. (i < length stays.now) × ((d : Stay) → (slice_index_or stays.now i d).id ≡ id)) }
    ensures none { IfNone result (All (λ s. s.id ≢ id) stays.now) }
{
    let place = place_of(stays, id);
    if place == stays.len() {
        return None;
    }
    if stays[place].id != id {
        return None;
    }
    Some(place)
}

// Tracks of these lengths, each without events.
fn empty_tracks(alloc: Global, lengths: &[u32]) -> Result<Vec<TrackTimeline>, AllocError>
    ensures lengths { IfOk result (λ tracks. lengths_of tracks.items ≡ lengths.now) }
    ensures empty { IfOk result (λ tracks. (t : ℕ) (d : TrackTimeline) → t < length tracks.items
        → (slice_index_or tracks.items t d).events.items ≡ []) }
{
    let mut tracks = Vec::new(alloc);
    for length in lengths {
        tracks.push(TrackTimeline {
            length: *length,
            events: Vec::new(alloc),
        })?;
    }
    Ok(tracks)
}

// Room for that many events on each track. Err is want of memory.
fn reserve_events(tracks: &mut Vec<TrackTimeline>, most: usize) -> Result<(), AllocError>
    ensures same { AreSame tracks.old.items tracks.new.items }
    ensures ok { OnOk result ((t : ℕ) (d : TrackTimeline) → t < length tracks.new.items
        → most ≤ vec_capacity (slice_index_or tracks.new.items t d).events) }
{
    for index in 0..tracks.len() {
        tracks[index].reserve(most)?;
    }
    Ok(())
}

impl Timelines {
    /// No stays on tracks of these lengths in dm, and no room for any. Err is want of memory.
    pub fn new(alloc: Global, lengths: &[u32]) -> Result<Timelines, AllocError>
        ensures { IfOk result (λ t. t ≡ record { stays = []; lengths = lengths.now; spare = 0 }) }
    {
        let tracks = empty_tracks(alloc, lengths)?;
        Ok(Timelines {
            stays: Vec::new(alloc),
            tracks,
            spare: 0,
            pairs: 0,
            over: 0,
        })
    }

    /// Room for at least that many stays more. Err is want of memory, and then nothing changes.
    pub fn reserve(&mut self, slots: usize) -> Result<(), AllocError>
        ensures ok { OnOk result (self.new ≡ record self.old { spare = max self.old.spare slots }) }
        ensures err { OnErr result (self.new ≡ self.old) }
    {
        if slots <= self.spare {
            return Ok(());
        }
        let count = self.stays.len();
        if slots >= MOST_SLOTS - count {
            return Err(AllocError);
        }
        self.stays.reserve(slots)?;
        reserve_events(&mut self.tracks, 2 * (count + slots))?;
        self.spare = slots;
        Ok(())
    }

    /// How these stays would clash with one more, which is as for `insert` but needs no room.
    ///
    /// It takes no memory.
    pub fn clash_with(&self, stay: &Stay) -> Clash
        requires formed { IsWellFormed stay.now }
        requires track { stay.now.track.0 < length self.now.lengths }
        requires new { All (λ s. s.id ≢ stay.now.id) self.now.stays }
        requires few { length self.now.stays < 65536 }
        ensures { result ≡ clash_of self.now.lengths (stay.now ∷ self.now.stays) }
    {
        let track = &self.tracks[usize::from(stay.track.0)];
        let share = track.share_with(stay);
        Clash {
            pairs: self.pairs + share.pairs,
            over: self.over + share.over,
        }
    }

    /// A stay comes to one of the tracks.
    ///
    /// It is well formed, with an id that none of the others has. There are fewer than 65,536 of them, and there is room for it.
    /// It takes no memory.
    pub fn insert(&mut self, stay: Stay)
        requires formed { IsWellFormed stay }
        requires track { stay.track.0 < length self.old.lengths }
        requires new { All (λ s. s.id ≢ stay.id) self.old.stays }
        requires few { length self.old.stays < 65536 }
        requires room { 0 < self.old.spare }
        ensures stays { IsPermutation (stay ∷ self.old.stays) self.new.stays }
        ensures count { length self.new.stays ≡ length self.old.stays + 1 }
        ensures lengths { self.new.lengths ≡ self.old.lengths }
        ensures spare { self.new.spare + 1 ≡ self.old.spare }
    {
        let track = &mut self.tracks[usize::from(stay.track.0)];
        let share = track.insert(&stay);
        self.pairs += share.pairs;
        self.over += share.over;
        let place = place_of(&self.stays, stay.id);
        if self.stays.insert(place, stay).is_err() {
            unreachable!();
        }
        self.spare -= 1;
    }

    /// The stay of an id goes. None exactly when there is none, and then nothing changes. It takes no memory.
    pub fn remove(&mut self, id: u32) -> Option<Stay>
        ensures some { IfSome result (λ stay. (stay.id ≡ id) × IsPermutation
            (stay ∷ self.new.stays) self.old.stays × (self.new.spare ≡ self.old.spare + 1)) }
        ensures none { result ≡ None ↔ All (λ s. s.id ≢ id) self.old.stays }
        ensures gone { All (λ s. s.id ≢ id) self.new.stays }
        ensures count { OnSome result (length self.new.stays + 1 ≡ length self.old.stays) }
        ensures unchanged { IfNone result (self.new ≡ self.old) }
        ensures lengths { self.new.lengths ≡ self.old.lengths }
    {
        let place = find(&self.stays, id)?;
        let stay = self.stays.remove(place);
        let track = &mut self.tracks[usize::from(stay.track.0)];
        let share = track.remove(&stay);
        self.pairs -= share.pairs;
        self.over -= share.over;
        self.spare += 1;
        Some(stay)
    }

    /// How these stays clash, as a fresh count would tell: at once, whatever their number.
    ///
    /// It takes no memory.
    pub fn clash(&self) -> Clash
        ensures equals { result ≡ clash_of self.now.lengths self.now.stays }
        ensures through { (result.pairs ≡ 0) × (result.over ≡ 0)
            ↔ GoesThrough self.now.lengths self.now.stays }
        ensures formed { AreStays self.now.stays }
        ensures placed { AreOnTracks self.now.lengths self.now.stays }
        ensures few { length self.now.stays ≤ 65536 }
    {
        Clash {
            pairs: self.pairs,
            over: self.over,
        }
    }
}
