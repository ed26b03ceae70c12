// Numbers of a night's events, without gaps, in their order.
ghost use Rattle.std.specs.Prelude.{◌≡◌, ◌<◌, ◌≤◌, length, IfOk};
ghost use Rattle.shunt_instance.specs.defs.Instance.{unit_total, position_total};
ghost use Rattle.shunt_stacks.specs.defs.Numbers.{arrives, departs};
ghost use Rattle.shunt_gains.specs.defs.Events.{IsGoneBy, IsComeBefore, IsEntryNumber};
ghost use Rattle.shunt_gains.specs.defs.Events.{IsLeaveNumber, AreEntries, AreLeaves, AreEvents};
ghost use Rattle.shunt_gains.specs.defs.Events.{entry_of, leave_of, events_in};

use shunt_instance::Instance;
use shunt_instance::laws::{instances, rooms_of_trains, unit_numbers};
use std::alloc::{AllocError, Global};

/// The numbers of a night's events in their order, from 0 on and without gaps: one for the entry of each unit, and one for the leave of
/// each position.
#[derive(Drop)]
pub struct Events {
    entries: Vec<u16>,
    leaves: Vec<u16>,
}

/// The minute at which the train of a unit arrives.
fn arrives(instance: &Instance, u: usize) -> u16
    requires { u < unit_total instance.now }
    ensures { result ≡ arrives instance.now u }
{
    instance.arrive(instance.unit(u).train).minute.number()
}

/// The minute at which the train of a position departs.
fn departs(instance: &Instance, v: usize) -> u16
    requires { v < position_total instance.now }
    ensures { result ≡ departs instance.now v }
{
    instance.depart(instance.position(v).train).minute.number()
}

/// How many positions have left by a minute: they are the first ones.
fn gone_by(instance: &Instance, minute: u16) -> usize
    ensures exact { IsGoneBy instance.now minute result }
    ensures few { result ≤ 160 }
{
    instances();
    unit_numbers();
    rooms_of_trains();
    for v in 0..instance.positions() {
        if departs(instance, v) > minute {
            return v;
        }
    }
    instance.positions()
}

/// How many units come before a minute: they are the first ones.
fn come_before(instance: &Instance, minute: u16) -> usize
    ensures exact { IsComeBefore instance.now minute result }
    ensures few { result ≤ 160 }
{
    instances();
    unit_numbers();
    rooms_of_trains();
    for u in 0..instance.units() {
        if arrives(instance, u) >= minute {
            return u;
        }
    }
    instance.units()
}

/// The number of a unit's entry.
fn entry_number(instance: &Instance, u: usize) -> u16
    requires { u < unit_total instance.now }
    ensures { IsEntryNumber instance.now u result }
{
    // The call tells that there are at most 160 units.
    instance.units();
    (u + gone_by(instance, arrives(instance, u))) as u16
}

/// The number of a position's leave: of one train the later places leave first.
fn leave_number(instance: &Instance, v: usize) -> u16
    requires { v < position_total instance.now }
    ensures { IsLeaveNumber instance.now v result }
{
    let position = instance.position(v);
    let later = instance.depart(position.train).units.len() - usize::from(position.place);
    let first = instance.first_position(position.train);
    (come_before(instance, departs(instance, v)) + (first + later)) as u16
}

/// The numbers of all entries.
fn entries(alloc: Global, instance: &Instance) -> Result<Vec<u16>, AllocError>
    ensures { IfOk result (λ v. AreEntries instance.now v.items) }
{
    let mut numbers = Vec::with_capacity(alloc, instance.units())?;
    for u in 0..instance.units() {
        numbers.push(entry_number(instance, u))?;
    }
    Ok(numbers)
}

/// The numbers of all leaves.
fn leaves(alloc: Global, instance: &Instance) -> Result<Vec<u16>, AllocError>
    ensures { IfOk result (λ v. AreLeaves instance.now v.items) }
{
    let mut numbers = Vec::with_capacity(alloc, instance.positions())?;
    for v in 0..instance.positions() {
        numbers.push(leave_number(instance, v))?;
    }
    Ok(numbers)
}

impl Events {
    /// Numbers the events of a night. Err is want of memory.
    pub fn new(alloc: Global, instance: &Instance) -> Result<Events, AllocError>
        ensures { IfOk result (AreEvents instance.now) }
    {
        // The calls tell that the night is well formed, and what its numbers are.
        instance.units();
        instances();
        unit_numbers();
        rooms_of_trains();
        let entries = entries(alloc, instance)?;
        let leaves = leaves(alloc, instance)?;
        Ok(Events { entries, leaves })
    }

    /// How many events there are, at most 320.
    pub fn len(&self) -> u16
        requires { events_in self.now ≤ 320 }
        ensures { result ≡ events_in self.now }
    {
        (self.entries.len() + self.leaves.len()) as u16
    }

    /// The number of a unit's entry.
    pub fn entry(&self, u: usize) -> u16
        requires { u < length self.now.entries.items }
        ensures { result ≡ entry_of self.now u }
    {
        self.entries[u]
    }

    /// The number of a position's leave.
    pub fn leave(&self, v: usize) -> u16
        requires { v < length self.now.leaves.items }
        ensures { result ≡ leave_of self.now v }
    {
        self.leaves[v]
    }
}
