//! The ids of the blocks on one track, from its A end to its B end.
ghost use Rattle.std.specs.Prelude.{◌≡◌, ◌≢◌, ◌≤◌, ◌<◌, ℕ, [], List, length, vec_capacity, IfOk};
ghost use Rattle.std.specs.Prelude.{OnOk, OnErr};
ghost use Rattle.shunt_stays.specs.defs.Run.{put};
ghost use Rattle.shunt_tracks.specs.defs.Sequences.{Ids};

use shunt_base::Side;
use std::alloc::{AllocError, Global};
use std::marker::Model;

/// The block isn't at the end by which it is to leave.
#[derive(Clone, Copy, Debug, PartialEq, Eq)]
pub struct Blocked;

/// Ids in a row, seen as their list from A to B and the room: how many there may be.
#[derive(Debug, Drop)]
pub struct Sequence {
    ids: Vec<u32>,
    room: usize,
}

impl Model for Sequence {
    ghost Value = { Ids };

    ghost view = { λ s. record { ids = s.ids.items; room = s.room } };

    ghost invariant = { λ s. s.room ≤ vec_capacity s.ids };
}

impl Sequence {
    /// No ids, with room for that many. Err is want of memory.
    pub fn new(alloc: Global, room: usize) -> Result<Sequence, AllocError>
        ensures { IfOk result (λ s. s ≡ record { ids = []; room = room }) }
    {
        let ids = Vec::with_capacity(alloc, room)?;
        Ok(Sequence { ids, room })
    }

    /// The ids from A to B.
    pub fn ids(&self) -> &[u32]
        ensures { result.now ≡ self.now.ids }
    {
        &self.ids
    }

    /// How many ids there may be.
    pub fn room(&self) -> usize
        ensures { result ≡ self.now.room }
    {
        self.room
    }

    /// Puts an id at an end, where there are fewer than there may be. It takes no memory.
    pub fn enter(&mut self, side: Side, id: u32)
        requires { length self.old.ids < self.old.room }
        ensures { self.new ≡ record self.old { ids = put side id self.old.ids } }
    {
        let done = match side {
            Side::A => self.ids.insert(0, id),
            Side::B => self.ids.push(id),
        };
        if done.is_err() {
            unreachable!();
        }
    }

    /// Takes an id from an end. It takes no memory. Err exactly when the id isn't there, and then nothing changes.
    pub fn leave(&mut self, side: Side, id: u32) -> Result<(), Blocked>
        ensures room { self.new.room ≡ self.old.room }
        ensures ok { OnOk result (self.old.ids ≡ put side id self.new.ids) }
        ensures err { OnErr result ((others : List ℕ) → self.old.ids ≢ put side id others) }
        ensures unchanged { OnErr result (self.new ≡ self.old) }
    {
        let count = self.ids.len();
        let place = match side {
            Side::A => 0,
            Side::B => count.saturating_sub(1),
        };
        if count == 0 || self.ids[place] != id {
            return Err(Blocked);
        }
        self.ids.remove(place);
        Ok(())
    }
}
