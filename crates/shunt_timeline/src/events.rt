// The entries and leaves on one track in key order, each with what stands there just after it.
ghost use Rattle.std.specs.Prelude.{◌≡◌, ℕ, ◌+◌, ◌-◌, ◌≤◌, ◌<◌, ◌++◌, Bool, List, if◌then◌else◌};
ghost use Rattle.std.specs.Prelude.{length, map, count_by, slice_index_or, take, drop, vec_len};
ghost use Rattle.std.specs.Prelude.{vec_capacity, ◌∷◌};
ghost use Rattle.std.specs.List.{All};
ghost use Rattle.shunt_lists.specs.defs.Members.{In};
ghost use Rattle.shunt_base.specs.defs.Keys.{IsKey, IsWellFormed};
ghost use Rattle.shunt_stays.specs.defs.Events.{key_before};
ghost use Rattle.shunt_timeline.specs.defs.Levels.{key_of, at, is_crossed, gets_over, has_left};
ghost use Rattle.shunt_timeline.specs.defs.Levels.{has_blocked, raised, lowered, IsSmall, IsPlace};
ghost use Rattle.shunt_lists.specs.defs.Members.{Ascends};

use shunt_base::{EventKey, Stay, compare_keys};
use shunt_cross::crosses;
use std::cmp::Ordering;

/// An entry of a stay or its leave.
#[derive(Clone, Copy, Debug)]
pub struct StayEvent {
    pub stay: Stay,
    pub enters: bool,
    /// At an entry, how many stays cross this one by having come before it.
    pub crossings: u32,
    /// How many stays are on the track just after the event.
    pub standing: u32,
    /// Their lengths in dm, added up.
    pub load: u64,
}

/// What stands on a track.
#[derive(Clone, Copy, Debug)]
pub struct TrackLoad {
    pub standing: u32,
    pub load: u64,
}

/// What a stay meets among the events between its entry and its leave.
#[derive(Clone, Copy, Debug)]
pub struct Met {
    /// Entries that it crosses.
    pub crossed: u32,
    /// Entries that are over with it alone.
    pub over: u32,
    /// Leaves of those that came before it.
    pub left: u32,
    /// Those of them by the side where it came.
    pub blocked: u32,
}

fn is_before(first: EventKey, second: EventKey) -> bool
    ensures { result ≡ key_before first second }
{
    compare_keys(first, second) == Ordering::Less
}

impl StayEvent {
    pub fn key(&self) -> EventKey
        ensures { result ≡ key_of self.now }
    {
        if self.enters {
            self.stay.enter
        } else {
            self.stay.leave
        }
    }

    fn is_crossed_by(&self, stay: &Stay) -> bool
        ensures { result ≡ is_crossed stay.now self.now }
    {
        self.enters && crosses(stay, &self.stay)
    }

    fn gets_over(&self, stay: &Stay, room: u32) -> bool
        requires { IsSmall self.now }
        ensures { result ≡ gets_over stay.now room self.now }
    {
        let room = u64::from(room);
        self.enters && (self.load <= room && room < self.load + u64::from(stay.length))
    }

    fn has_left(&self, stay: &Stay) -> bool
        ensures { result ≡ has_left stay.now self.now }
    {
        !self.enters && is_before(self.stay.enter, stay.enter)
    }

    fn has_blocked(&self, stay: &Stay) -> bool
        ensures { result ≡ has_blocked stay.now self.now }
    {
        self.has_left(stay) && self.stay.side_out == stay.side_in
    }

    fn raised(&self, stay: &Stay) -> StayEvent
        requires { IsSmall self.now }
        ensures { result ≡ raised stay.now self.now }
    {
        let length = stay.length;
        StayEvent {
            stay: self.stay,
            enters: self.enters,
            crossings: self.crossings + u32::from(self.is_crossed_by(stay)),
            standing: self.standing + 1,
            load: self.load + u64::from(length),
        }
    }

    fn lowered(&self, stay: &Stay) -> StayEvent
        ensures { result ≡ lowered stay.now self.now }
    {
        StayEvent {
            stay: self.stay,
            enters: self.enters,
            crossings: self
                .crossings
                .saturating_sub(u32::from(self.is_crossed_by(stay))),
            standing: self.standing.saturating_sub(1),
            load: self.load.saturating_sub(u64::from(stay.length)),
        }
    }
}

impl Met {
    fn none() -> Met
        ensures { result ≡ record { crossed = 0; over = 0; left = 0; blocked = 0 } }
    {
        Met {
            crossed: 0,
            over: 0,
            left: 0,
            blocked: 0,
        }
    }

    // With what the stay meets at one event more.
    fn with(self, event: &StayEvent, stay: &Stay, room: u32) -> Met
        requires small { IsSmall event.now }
        requires crossed { self.crossed < 131072 }
        requires over { self.over < 131072 }
        requires left { self.left < 131072 }
        requires blocked { self.blocked < 131072 }
        ensures crossed { result.crossed ≡ self.crossed
            + (if is_crossed stay.now event.now then 1 else 0) }
        ensures over { result.over ≡ self.over
            + (if gets_over stay.now room event.now then 1 else 0) }
        ensures left { result.left ≡ self.left + (if has_left stay.now event.now then 1 else 0) }
        ensures blocked { result.blocked ≡ self.blocked
            + (if has_blocked stay.now event.now then 1 else 0) }
    {
        Met {
            crossed: self.crossed + u32::from(event.is_crossed_by(stay)),
            over: self.over + u32::from(event.gets_over(stay, room)),
            left: self.left + u32::from(event.has_left(stay)),
            blocked: self.blocked + u32::from(event.has_blocked(stay)),
        }
    }
}

/// How many events come before a key, by binary search.
pub fn place(events: &[StayEvent], key: EventKey) -> usize
    requires ascends { Ascends at events.now }
    requires formed { (e : StayEvent) → In e events.now → IsWellFormed e.stay }
    requires key { IsKey key }
    ensures { IsPlace events.now key result }
{
    events.partition_point(|event| is_before(event.key(), key))
}

/// What stands just before the event at a place.
pub fn level_before(events: &[StayEvent], place: usize) -> TrackLoad
    requires { place ≤ length events.now }
    ensures first { place ≡ 0 → (result.standing ≡ 0) × (result.load ≡ 0) }
    ensures later { (d : StayEvent) → 0 < place
        → (result.standing ≡ (slice_index_or events.now (place - 1) d).standing)
        × (result.load ≡ (slice_index_or events.now (place - 1) d).load) }
{
    if place == 0 {
        return TrackLoad {
            standing: 0,
            load: 0,
        };
    }
    let event = events[place - 1];
    TrackLoad {
        standing: event.standing,
        load: event.load,
    }
}

/// What a stay would meet at these events, all of them between its entry and its leave.
pub fn meet(events: &[StayEvent], stay: &Stay, room: u32) -> Met
    requires small { (e : StayEvent) → In e events.now → IsSmall e }
    requires few { length events.now ≤ 131072 }
    ensures crossed { result.crossed ≡ count_by (is_crossed stay.now) events.now }
    ensures over { result.over ≡ count_by (gets_over stay.now room) events.now }
    ensures left { result.left ≡ count_by (has_left stay.now) events.now }
    ensures blocked { result.blocked ≡ count_by (has_blocked stay.now) events.now }
{
    let mut met = Met::none();
    for event in events {
        met = met.with(event, stay, room);
    }
    met
}

/// Lets a stay stand at all of these events too.
pub fn raise(events: &mut [StayEvent], stay: &Stay, room: u32) -> Met
    requires small { (e : StayEvent) → In e events.old → IsSmall e }
    requires few { length events.old ≤ 131072 }
    ensures events { events.new ≡ map (raised stay.now) events.old }
    ensures crossed { result.crossed ≡ count_by (is_crossed stay.now) events.old }
    ensures over { result.over ≡ count_by (gets_over stay.now room) events.old }
    ensures left { result.left ≡ count_by (has_left stay.now) events.old }
    ensures blocked { result.blocked ≡ count_by (has_blocked stay.now) events.old }
{
    let mut met = Met::none();
    for event in events.iter_mut() {
        met = met.with(event, stay, room);
        *event = event.raised(stay);
    }
    met
}

/// Lets a stay stand at these events no more, and says what it met there.
pub fn lower(events: &mut [StayEvent], stay: &Stay, room: u32) -> Met
    requires small { (e : StayEvent) → In e events.old → IsSmall e }
    requires few { length events.old ≤ 131072 }
    ensures events { events.new ≡ map (lowered stay.now) events.old }
    ensures crossed { result.crossed ≡ count_by (is_crossed stay.now) events.new }
    ensures over { result.over ≡ count_by (gets_over stay.now room) events.new }
{
    let mut met = Met::none();
    for event in events.iter_mut() {
        *event = event.lowered(stay);
        met = met.with(event, stay, room);
    }
    met
}
