// Prices without their values.
ghost use Rattle.std.specs.Prelude.{◌<◌, length};

use crate::numbers::Number;
use shunt_base::{ArrId, Price, PriceKind, TrackId};
use shunt_instance::Instance;
use std::num::Wrapping;

/// A price without its value, with the minute of its moment and the length of its track in dm.
#[derive(Clone, Copy, Debug, PartialEq, Eq, Drop)]
pub(crate) struct Slot {
    pub kind: PriceKind,
    pub track: TrackId,
    pub train: ArrId,
    pub minute: u16,
    pub room: u32,
}

/// The length of a track in dm, and 0 where there is none.
pub(crate) fn room_of(instance: &Instance, track: TrackId) -> u32 {
    match instance.station().tracks.as_slice().get(track.0 as usize) {
        Some(track) => track.length,
        None => 0,
    }
}

/// The price of length for a track and a train.
pub(crate) fn length_slot(instance: &Instance, track: TrackId, train: ArrId) -> Slot
    requires { train.0 < length instance.now.arrive }
{
    Slot {
        kind: PriceKind::Length,
        track,
        train,
        minute: instance.arrive(train).minute.number(),
        room: room_of(instance, track),
    }
}

/// The price without its value. None where no train has its number.
pub(crate) fn slot_of(instance: &Instance, price: &Price) -> Option<Slot> {
    if price.train.0 as usize >= instance.arrivals() {
        return None;
    }
    Some(Slot {
        kind: price.kind,
        ..length_slot(instance, price.track, price.train)
    })
}

/// Whether a price is among these.
pub(crate) fn has_slot(slots: &[Slot], slot: &Slot) -> bool {
    for other in slots {
        if *other == *slot {
            return true;
        }
    }
    false
}

/// What a kind of price counts of a block of a length on a track with a room.
pub(crate) fn count_of(kind: PriceKind, room: u32, long: u32) -> u64 {
    match kind {
        PriceKind::Length => u64::from(long),
        PriceKind::Parts(parts) => {
            let times = (u64::from(parts) + 1).saturating_mul(u64::from(long));
            times
                .saturating_sub(1)
                .checked_div(u64::from(room))
                .unwrap_or(0)
        }
    }
}

impl Slot {
    /// What a block of this length counts.
    pub(crate) fn count(&self, long: u32) -> Number {
        Wrapping(i64::try_from(count_of(self.kind, self.room, long)).unwrap_or(0))
    }

    /// What the blocks that stand at its moment count together at most.
    pub(crate) fn most(&self) -> Number {
        match self.kind {
            PriceKind::Length => Wrapping(i64::from(self.room)),
            PriceKind::Parts(parts) => Wrapping(i64::from(parts)),
        }
    }

    /// Whether it is of kind length.
    pub(crate) fn is_by_length(&self) -> bool {
        match self.kind {
            PriceKind::Length => true,
            PriceKind::Parts(_) => false,
        }
    }

    /// Whether a block of a train that leaves at a minute stands on its track at its moment, if it is parked there.
    pub(crate) fn stands(&self, train: ArrId, leaves: u16) -> bool {
        train.0 <= self.train.0 && self.minute < leaves
    }
}
