// The order of a night's events.
ghost use Rattle.std.specs.Prelude.{◌<◌};
ghost use Rattle.shunt_instance.specs.defs.Instance.{unit_total, position_total};

use crate::groups::leaving;
use shunt_instance::Instance;
use std::alloc::{AllocError, Global};

/// For each unit the number of its entry among the events of a night, for each position that of its leave, and how many events there are.
#[derive(Drop)]
pub(crate) struct Events {
    entries: Vec<u16>,
    leaves: Vec<u16>,
    pub count: u16,
}

/// The entry of a unit or the leave of a position, with the unit's number or the position's, in the order of events: at one minute leaves come
/// first, then trains by their numbers, and of a departing train the last places leave first.
#[derive(Clone, Copy)]
struct Event {
    minute: u16,
    is_entry: bool,
    train: u8,
    order: u8,
    place: usize,
}

fn entry_at(instance: &Instance, u: usize) -> Event
    requires { u < unit_total instance.now }
{
    let unit = instance.unit(u);
    Event {
        minute: instance.arrive(unit.train).minute.number(),
        is_entry: true,
        train: unit.train.0,
        order: unit.place,
        place: u,
    }
}

fn leave_at(instance: &Instance, v: usize) -> Event
    requires { v < position_total instance.now }
{
    let position = instance.position(v);
    Event {
        minute: leaving(instance, position.train),
        is_entry: false,
        train: position.train.0,
        order: u8::MAX.saturating_sub(position.place),
        place: v,
    }
}

// The events in their order.
fn ordered(alloc: Global, instance: &Instance) -> Result<Vec<Event>, AllocError> {
    let mut events = Vec::new(alloc);
    for u in 0..instance.units() {
        events.push(entry_at(instance, u))?;
    }
    for v in 0..instance.positions() {
        events.push(leave_at(instance, v))?;
    }
    events.sort_unstable_by_key(|event| {
        (event.minute, event.is_entry, event.train, event.order)
    });
    Ok(events)
}

// Writes the number of an event.
fn put_number(numbers: &mut [u16], place: usize, number: u16) {
    if let Some(old) = numbers.get_mut(place) {
        *old = number;
    }
}

impl Events {
    /// The events of a night. Err is want of memory.
    pub(crate) fn new(alloc: Global, instance: &Instance) -> Result<Events, AllocError> {
        let mut events = Events {
            entries: vec![in alloc; 0; instance.units()]?,
            leaves: vec![in alloc; 0; instance.positions()]?,
            count: 0,
        };
        for event in &ordered(alloc, instance)? {
            if event.is_entry {
                put_number(&mut events.entries, event.place, events.count);
            } else {
                put_number(&mut events.leaves, event.place, events.count);
            }
            events.count = events.count.saturating_add(1);
        }
        Ok(events)
    }

    /// The number of a unit's entry, and of events where there is no such unit.
    pub(crate) fn entry(&self, u: usize) -> u16 {
        self.entries.get(u).copied().unwrap_or(self.count)
    }

    /// The number of a position's leave, and of events where there is no such position.
    pub(crate) fn leave(&self, v: usize) -> u16 {
        self.leaves.get(v).copied().unwrap_or(self.count)
    }
}
