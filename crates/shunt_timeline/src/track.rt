// The events of one track, while stays come and go.
ghost use Rattle.std.specs.Prelude.{◌≡◌, ℕ, ◌+◌, ◌-◌, ◌*◌, ◌^◌, ◌≤◌, ◌<◌, ◌++◌, ◌∷◌, List, true};
ghost use Rattle.std.specs.Prelude.{false, if◌then◌else◌, length, map, count_by, slice_index};
ghost use Rattle.std.specs.Prelude.{slice_index_or, slice_range, take, drop, vec_len, vec_capacity};
ghost use Rattle.std.specs.Prelude.{OnOk};
ghost use Rattle.std.specs.List.{insert};
ghost use Rattle.shunt_lists.specs.defs.Members.{In};
ghost use Rattle.shunt_base.specs.defs.Sides.{same_side};
ghost use Rattle.shunt_base.specs.declared.keys.Stay.{Stay};
ghost use Rattle.shunt_base.specs.defs.Keys.{AreStays};
ghost use Rattle.shunt_stays.specs.defs.Crossings.{pairs_in, overs_in};
ghost use Rattle.shunt_timeline.specs.defs.Levels.{is_crossed, gets_over, has_left, has_blocked};
ghost use Rattle.shunt_timeline.specs.defs.Levels.{raised, lowered, IsSmall, IsPlace};
ghost use Rattle.shunt_timeline.specs.defs.Kept.{IsKeptTrack, IsLevel};

use crate::events::{Met, StayEvent, TrackLoad, level_before, lower, meet, place, raise};
use shunt_base::Stay;
use std::alloc::AllocError;

/// A track, and the entries and leaves of the stays on it.
#[derive(Debug, Drop)]
pub struct TrackTimeline {
    /// In dm.
    pub length: u32,
    pub events: Vec<StayEvent>,
}

// If the events of a stay that comes belong, and what stands there without it.
#[derive(Clone, Copy, Debug)]
struct Arrival {
    from: usize,
    to: usize,
    before: TrackLoad,
    others: TrackLoad,
}

// If the events of a stay that goes are.
#[derive(Clone, Copy, Debug)]
struct Departure {
    from: usize,
    to: usize,
}

/// By how much a stay raises the totals.
#[derive(Clone, Copy, Debug)]
pub struct StayShare {
    pub pairs: u32,
    pub over: u32,
}

// What a stay would meet at the events from one place to another.
fn meet_between(events: &[StayEvent], from: usize, to: usize, stay: &Stay, room: u32) -> Met
    requires order { from ≤ to }
    requires within { to ≤ length events.now }
    requires small { (e : StayEvent) → In e events.now → IsSmall e }
    requires few { length events.now ≤ 131072 }
    ensures crossed { result.crossed
        ≡ count_by (is_crossed stay.now) (slice_range events.now from to) }
    ensures over { result.over
        ≡ count_by (gets_over stay.now room) (slice_range events.now from to) }
    ensures left { result.left ≡ count_by (has_left stay.now) (slice_range events.now from to) }
    ensures blocked { result.blocked
        ≡ count_by (has_blocked stay.now) (slice_range events.now from to) }
{
    meet(&events[from..to], stay, room)
}

// A stay comes to stand at the events from one place to another.
fn raise_between(events: &mut Vec<StayEvent>, from: usize, to: usize, stay: &Stay, room: u32) -> Met
    requires order { from ≤ to }
    requires within { to ≤ vec_len events.old }
    requires small { (e : StayEvent) → In e events.old.items → IsSmall e }
    requires few { vec_len events.old ≤ 131072 }
    ensures events { events.new.items ≡ take from events.old.items ++ (map (raised stay.now)
        (slice_range events.old.items from to) ++ drop to events.old.items) }
    ensures len { vec_len events.new ≡ vec_len events.old }
    ensures capacity { vec_capacity events.new ≡ vec_capacity events.old }
    ensures crossed { result.crossed
        ≡ count_by (is_crossed stay.now) (slice_range events.old.items from to) }
    ensures over { result.over
        ≡ count_by (gets_over stay.now room) (slice_range events.old.items from to) }
    ensures left { result.left
        ≡ count_by (has_left stay.now) (slice_range events.old.items from to) }
    ensures blocked { result.blocked
        ≡ count_by (has_blocked stay.now) (slice_range events.old.items from to) }
{
    raise(&mut events[from..to], stay, room)
}

// A stay stands no more at the events from one place to another.
fn lower_between(events: &mut Vec<StayEvent>, from: usize, to: usize, stay: &Stay, room: u32) -> Met
    requires order { from ≤ to }
    requires within { to ≤ vec_len events.old }
    requires small { (e : StayEvent) → In e events.old.items → IsSmall e }
    requires few { vec_len events.old ≤ 131072 }
    ensures events { events.new.items ≡ take from events.old.items ++ (map (lowered stay.now)
        (slice_range events.old.items from to) ++ drop to events.old.items) }
    ensures len { vec_len events.new ≡ vec_len events.old }
    ensures capacity { vec_capacity events.new ≡ vec_capacity events.old }
    ensures crossed { result.crossed ≡ count_by (is_crossed stay.now)
        (map (lowered stay.now) (slice_range events.old.items from to)) }
    ensures over { result.over ≡ count_by (gets_over stay.now room)
        (map (lowered stay.now) (slice_range events.old.items from to)) }
{
    lower(&mut events[from..to], stay, room)
}

// Puts an event at a place, where there is room.
fn put(events: &mut Vec<StayEvent>, place: usize, event: StayEvent)
    requires within { place ≤ vec_len events.old }
    requires room { vec_len events.old < vec_capacity events.old }
    ensures events { events.new.items ≡ insert events.old.items place event }
    ensures len { vec_len events.new ≡ vec_len events.old + 1 }
    ensures capacity { vec_capacity events.old ≤ vec_capacity events.new }
{
    if events.insert(place, event).is_err() {
        unreachable!();
    }
}

// Puts an entry at one place and a leave at another, where there is room.
fn put_pair(events: &mut Vec<StayEvent>, from: usize, to: usize, entry: StayEvent, leave: StayEvent)
    requires order { from ≤ to }
    requires within { to ≤ vec_len events.old }
    requires room { vec_len events.old + 2 ≤ vec_capacity events.old }
    ensures events { events.new.items ≡ take from events.old.items ++ entry
        ∷ (slice_range events.old.items from to ++ leave ∷ drop to events.old.items) }
    ensures capacity { vec_capacity events.old ≤ vec_capacity events.new }
{
    put(events, to, leave);
    put(events, from, entry);
}

// Takes the entry at one place and the leave at another.
fn take_pair(events: &mut Vec<StayEvent>, from: usize, to: usize) -> StayEvent
    requires order { from < to }
    requires within { to < vec_len events.old }
    ensures entry { (d : StayEvent) → result ≡ slice_index_or events.old.items from d }
    ensures events { events.new.items ≡ take from events.old.items
        ++ (slice_range events.old.items (from + 1) to ++ drop (to + 1) events.old.items) }
    ensures capacity { vec_capacity events.new ≡ vec_capacity events.old }
{
    let _leave = events.remove(to);
    events.remove(from)
}

// The entry of a stay, on what stands before it. Of those that stand there, one that leaves first crosses it where it leaves by the
// side where the stay came; one that stays longer, where the stay leaves by the other side. So the latter need no look.
fn entry_of(stay: &Stay, before: TrackLoad, met: Met) -> StayEvent
    requires left { met.left ≤ before.standing }
    requires blocked { met.blocked ≤ 131072 }
    requires standing { before.standing ≤ 65536 }
    requires load { before.load ≤ 65536 * 2 ^ 32 }
    ensures stay { result.stay ≡ stay.now }
    ensures enters { result.enters ≡ true }
    ensures crossings { result.crossings ≡ met.blocked
        + (if same_side stay.now.side_out stay.now.side_in then 0 else before.standing - met.left) }
    ensures standing { result.standing ≡ before.standing + 1 }
    ensures load { result.load ≡ before.load + stay.now.length }
{
    let length = stay.length;
    let staying = before.standing - met.left;
    let covering = if stay.side_out == stay.side_in {
        0
    } else {
        staying
    };
    StayEvent {
        stay: *stay,
        enters: true,
        crossings: met.blocked + covering,
        standing: before.standing + 1,
        load: before.load + u64::from(length),
    }
}

// The leave of a stay, on what else stands there.
fn leave_of(stay: &Stay, others: TrackLoad) -> StayEvent
    ensures { result ≡ record {
      stay = stay.now;
      enters = false;
      crossings = 0;
      standing = others.standing;
      load = others.load;
    } }
{
    StayEvent {
        stay: *stay,
        enters: false,
        crossings: 0,
        standing: others.standing,
        load: others.load,
    }
}

// If a new stay's events belong, by binary search.
fn arrival_of(events: &[StayEvent], stay: &Stay) -> Arrival
    requires { (stays : List Stay) × AreStays (stay.now ∷ stays)
        × IsKeptTrack stays stay.now.track.0 events.now }
    ensures from { IsPlace events.now stay.now.enter result.from }
    ensures to { IsPlace events.now stay.now.leave result.to }
    ensures order { result.from ≤ result.to }
    ensures before { (stays : List Stay) → AreStays (stay.now ∷ stays)
        → IsKeptTrack stays stay.now.track.0 events.now
        → IsLevel stays stay.now.track.0 stay.now.enter result.before }
    ensures others { (stays : List Stay) → AreStays (stay.now ∷ stays)
        → IsKeptTrack stays stay.now.track.0 events.now
        → IsLevel stays stay.now.track.0 stay.now.leave result.others }
{
    let from = place(events, stay.enter);
    let to = place(events, stay.leave);
    Arrival {
        from,
        to,
        before: level_before(events, from),
        others: level_before(events, to),
    }
}

// If the events of a stay that is there are, by binary search.
fn departure_of(events: &[StayEvent], stay: &Stay) -> Departure
    requires { (stays : List Stay) × AreStays (stay.now ∷ stays)
        × IsKeptTrack (stay.now ∷ stays) stay.now.track.0 events.now }
    ensures from { IsPlace events.now stay.now.enter result.from }
    ensures to { IsPlace events.now stay.now.leave result.to }
    ensures order { result.from < result.to }
    ensures within { result.to < length events.now }
{
    Departure {
        from: place(events, stay.enter),
        to: place(events, stay.leave),
    }
}

impl TrackTimeline {
    /// Room for that many events in all. Err is want of memory.
    pub fn reserve(&mut self, most: usize) -> Result<(), AllocError>
        ensures events { self.new.events.items ≡ self.old.events.items }
        ensures length { self.new.length ≡ self.old.length }
        ensures capacity { vec_capacity self.old.events ≤ vec_capacity self.new.events }
        ensures ok { OnOk result (most ≤ vec_capacity self.new.events) }
    {
        let more = most.saturating_sub(self.events.len());
        self.events.reserve_exact(more)
    }

    /// A stay of this track comes. It takes no memory.
    pub fn insert(&mut self, stay: &Stay) -> StayShare
        requires kept { (stays : List Stay) × AreStays (stay.now ∷ stays) × (length stays < 65536)
            × IsKeptTrack stays stay.now.track.0 self.old.events.items }
        requires room { vec_len self.old.events + 2 ≤ vec_capacity self.old.events }
        ensures kept { (stays : List Stay) → AreStays (stay.now ∷ stays)
            → IsKeptTrack stays stay.now.track.0 self.old.events.items
            → IsKeptTrack (stay.now ∷ stays) stay.now.track.0 self.new.events.items }
        ensures pairs { (stays : List Stay) → AreStays (stay.now ∷ stays)
            → IsKeptTrack stays stay.now.track.0 self.old.events.items
            → pairs_in (stay.now ∷ stays) ≡ pairs_in stays + result.pairs }
        ensures over { (stays : List Stay) (lengths : List ℕ) → AreStays (stay.now ∷ stays)
            → IsKeptTrack stays stay.now.track.0 self.old.events.items
            → slice_index lengths stay.now.track.0 ≡ self.old.length
            → overs_in lengths (stay.now ∷ stays) ≡ overs_in lengths stays + result.over }
        ensures length { self.new.length ≡ self.old.length }
        ensures capacity { vec_capacity self.old.events ≤ vec_capacity self.new.events }
    {
        let room = self.length;
        let Arrival {
            from,
            to,
            before,
            others,
        } = arrival_of(&self.events, stay);
        let met = raise_between(&mut self.events, from, to, stay, room);
        let entry = entry_of(stay, before, met);
        put_pair(&mut self.events, from, to, entry, leave_of(stay, others));
        StayShare {
            pairs: entry.crossings + met.crossed,
            over: met.over + u32::from(entry.load > u64::from(room)),
        }
    }

    /// By how much a stay of this track would raise the totals if it came. It takes no memory.
    pub fn share_with(&self, stay: &Stay) -> StayShare
        requires { (stays : List Stay) × AreStays (stay.now ∷ stays) × (length stays < 65536)
            × IsKeptTrack stays stay.now.track.0 self.now.events.items }
        ensures pairs { (stays : List Stay) → AreStays (stay.now ∷ stays)
            → IsKeptTrack stays stay.now.track.0 self.now.events.items
            → pairs_in (stay.now ∷ stays) ≡ pairs_in stays + result.pairs }
        ensures over { (stays : List Stay) (lengths : List ℕ) → AreStays (stay.now ∷ stays)
            → IsKeptTrack stays stay.now.track.0 self.now.events.items
            → slice_index lengths stay.now.track.0 ≡ self.now.length
            → overs_in lengths (stay.now ∷ stays) ≡ overs_in lengths stays + result.over }
    {
        let room = self.length;
        let Arrival {
            from,
            to,
            before,
            ..
        } = arrival_of(&self.events, stay);
        let met = meet_between(&self.events, from, to, stay, room);
        let entry = entry_of(stay, before, met);
        let own = entry.crossings;
        StayShare {
            pairs: own + met.crossed,
            over: met.over + u32::from(entry.load > u64::from(room)),
        }
    }

    /// A stay of this track goes. It takes no memory.
    pub fn remove(&mut self, stay: &Stay) -> StayShare
        requires { (stays : List Stay) × AreStays (stay.now ∷ stays) × (length stays < 65536)
            × IsKeptTrack (stay.now ∷ stays) stay.now.track.0 self.old.events.items }
        ensures kept { (stays : List Stay) → AreStays (stay.now ∷ stays)
            → IsKeptTrack (stay.now ∷ stays) stay.now.track.0 self.old.events.items
            → IsKeptTrack stays stay.now.track.0 self.new.events.items }
        ensures pairs { (stays : List Stay) → AreStays (stay.now ∷ stays)
            → IsKeptTrack (stay.now ∷ stays) stay.now.track.0 self.old.events.items
            → pairs_in (stay.now ∷ stays) ≡ pairs_in stays + result.pairs }
        ensures over { (stays : List Stay) (lengths : List ℕ) → AreStays (stay.now ∷ stays)
            → IsKeptTrack (stay.now ∷ stays) stay.now.track.0 self.old.events.items
            → slice_index lengths stay.now.track.0 ≡ self.old.length
            → overs_in lengths (stay.now ∷ stays) ≡ overs_in lengths stays + result.over }
        ensures length { self.new.length ≡ self.old.length }
        ensures capacity { vec_capacity self.new.events ≡ vec_capacity self.old.events }
    {
        let room = self.length;
        let Departure { from, to } = departure_of(&self.events, stay);
        let entry = take_pair(&mut self.events, from, to);
        let met = lower_between(&mut self.events, from, to - 1, stay, room);
        StayShare {
            pairs: met.crossed + entry.crossings,
            over: u32::from(entry.load > u64::from(room)) + met.over,
        }
    }
}
