// The share of each pair.
ghost use Rattle.std.specs.Prelude.{◌≡◌, ◌⊎◌, ◌<◌, ◌≤◌, ◌+◌, ◌-◌, ◌*◌, ℕ, length, IfOk};
ghost use Rattle.shunt_instance.specs.defs.Instance.{IsInstance, unit_total, position_total};
ghost use Rattle.shunt_instance.specs.defs.Instance.{unit_at, position_at};
ghost use Rattle.shunt_blocks.specs.defs.Shapes.{AreRunsWithin, IsPair};
ghost use Rattle.shunt_dual.specs.defs.Shares.{AreShares, IsEntry, IsShare};
ghost use Rattle.shunt_dual.specs.defs.Around.{AreAfter, AreBefore, FromBack, FromSome, HaveAfter};
ghost use Rattle.shunt_dual.specs.defs.Around.{IsLeastPart, IsPart, shape_around};

use crate::types::Shares;
use shunt_blocks::{Shape, cheapest, is_pair};
use shunt_instance::Instance;
use std::alloc::{AllocError, Global};

/// How many places both trains have from a unit and from a position on.
fn room_after(instance: &Instance, u: usize, v: usize) -> u8
    requires unit { u < unit_total instance.now }
    requires position { v < position_total instance.now }
    ensures within { HaveAfter instance.now u v result }
    ensures most { (n : ℕ) → HaveAfter instance.now u v n → n ≤ result }
    ensures few { result ≤ 8 }
    ensures units { u + result ≤ unit_total instance.now }
    ensures positions { v + result ≤ position_total instance.now }
    ensures few_units { unit_total instance.now ≤ 160 }
    ensures few_positions { position_total instance.now ≤ 160 }
{
    // The first two calls tell bounds: there are at most 160 units and positions.
    instance.units();
    instance.positions();
    let unit = instance.unit(u);
    let position = instance.position(v);
    let units = instance.arrive(unit.train).units.len() as u8 - unit.place + 1;
    let positions = instance.depart(position.train).units.len() as u8 - position.place + 1;
    instance.first_unit(unit.train);
    instance.first_position(position.train);
    if positions < units { positions } else { units }
}

/// How many places both trains have up to a unit and up to a position.
fn room_before(instance: &Instance, u: usize, v: usize) -> u8
    requires unit { u < unit_total instance.now }
    requires position { v < position_total instance.now }
    ensures unit { result ≤ (unit_at instance.now u).place }
    ensures position { result ≤ (position_at instance.now v).place }
    ensures most { (n : ℕ) → n ≤ (unit_at instance.now u).place
        → n ≤ (position_at instance.now v).place → n ≤ result }
    ensures few { result ≤ 8 }
    ensures units { result ≤ u + 1 }
    ensures positions { result ≤ v + 1 }
{
    let unit = instance.unit(u);
    let position = instance.position(v);
    instance.arrive(unit.train);
    if position.place < unit.place {
        position.place
    } else {
        unit.place
    }
}

/// How many pairs from this one on are in both trains and matchable, one after the other.
fn reach_after(instance: &Instance, u: usize, v: usize) -> u8
    requires unit { u < unit_total instance.now }
    requires position { v < position_total instance.now }
    ensures are { AreAfter instance.now u v result }
    ensures most { (n : ℕ) → AreAfter instance.now u v n → n ≤ result }
    ensures few { result ≤ 8 }
{
    let room = room_after(instance, u, v);
    for k in 0..room {
        if !is_pair(instance, u + k as usize, v + k as usize) {
            return k;
        }
    }
    room
}

/// How many pairs from this one back are in both trains and matchable, one after the other.
fn reach_before(instance: &Instance, u: usize, v: usize) -> u8
    requires unit { u < unit_total instance.now }
    requires position { v < position_total instance.now }
    ensures are { AreBefore instance.now u v result }
    ensures most { (n : ℕ) → AreBefore instance.now u v n → n ≤ result }
    ensures few { result ≤ 8 }
{
    let room = room_before(instance, u, v);
    for k in 0..room {
        if !is_pair(instance, u - k as usize, v - k as usize) {
            return k;
        }
    }
    room
}

/// The shape of n pairs that begins that many places before a pair.
fn shape_around(instance: &Instance, u: usize, v: usize, back: u8, n: u8) -> Shape
    requires unit { u < unit_total instance.now }
    requires position { v < position_total instance.now }
    requires units { back ≤ (unit_at instance.now u).place }
    requires positions { back ≤ (position_at instance.now v).place }
    ensures { result ≡ shape_around instance.now u v back n }
{
    let unit = instance.unit(u);
    let position = instance.position(v);
    Shape {
        arr: unit.train,
        p: unit.place - back,
        n,
        dep: position.train,
        q: position.place - back,
    }
}

/// A shape's least cost in thousandths, divided by its number of units and rounded down.
fn part(instance: &Instance, shape: Shape) -> u64
    requires { AreRunsWithin instance.now shape }
    ensures { IsPart instance.now shape result }
{
    1000 * cheapest(instance, shape) / shape.n as u64
}

/// The part of the shape of n pairs that begins that many places before a pair.
fn part_around(instance: &Instance, u: usize, v: usize, back: u8, n: u8) -> u64
    requires night { IsInstance instance.now }
    requires unit { u < unit_total instance.now }
    requires position { v < position_total instance.now }
    requires before { AreBefore instance.now u v (back + 1) }
    requires after { AreAfter instance.now u v (n - back) }
    requires some { back < n }
    ensures { IsPart instance.now (shape_around instance.now u v back n) result }
{
    part(instance, shape_around(instance, u, v, back, n))
}

/// The lesser number.
fn lesser(first: u64, second: u64) -> u64
    ensures first { result ≤ first }
    ensures second { result ≤ second }
    ensures one { (result ≡ first) ⊎ (result ≡ second) }
{
    if second < first { second } else { first }
}

/// The least part of the shapes that begin that many places before a pair and end with one of that many pairs from it on.
fn least_from(instance: &Instance, u: usize, v: usize, back: u8, after: u8) -> u64
    requires night { IsInstance instance.now }
    requires unit { u < unit_total instance.now }
    requires position { v < position_total instance.now }
    requires before { AreBefore instance.now u v (back + 1) }
    requires after { AreAfter instance.now u v after }
    requires some { 1 ≤ after }
    requires few { back < 8 }
    requires few_after { after ≤ 8 }
    ensures { IsLeastPart instance.now u v (FromBack back after) result }
{
    let mut least = part_around(instance, u, v, back, back + 1);
    for k in 1..after {
        least = lesser(least, part_around(instance, u, v, back, back + k + 1));
    }
    least
}

/// The share of a pair.
fn share_of(instance: &Instance, u: usize, v: usize) -> u64
    requires night { IsInstance instance.now }
    requires unit { u < unit_total instance.now }
    requires position { v < position_total instance.now }
    requires pair { IsPair instance.now u v }
    ensures { IsShare instance.now u v result }
{
    let before = reach_before(instance, u, v);
    let after = reach_after(instance, u, v);
    let mut least = least_from(instance, u, v, 0, after);
    for back in 1..before {
        least = lesser(least, least_from(instance, u, v, back, after));
    }
    least
}

/// What the table of shares has for a unit and a position.
fn entry(instance: &Instance, u: usize, v: usize) -> Option<u64>
    requires unit { u < unit_total instance.now }
    requires position { v < position_total instance.now }
    ensures { IsEntry instance.now u v result }
{
    // The call tells that the night is well formed.
    instance.units();
    if !is_pair(instance, u, v) {
        return None;
    }
    Some(share_of(instance, u, v))
}

/// The entries of the table of shares, unit by unit.
fn entries(alloc: Global, instance: &Instance) -> Result<Vec<Option<u64>>, AllocError>
    ensures size { IfOk result
        (λ e. length e.items ≡ unit_total instance.now * position_total instance.now) }
    ensures each { IfOk result
        (λ e. AreShares instance.now (record {
          units = unit_total instance.now;
          positions = position_total instance.now;
          entries = e.items;
        })) }
{
    let positions = instance.positions();
    let cells = instance.units() * positions;
    let mut entries = Vec::with_capacity(alloc, cells)?;
    for cell in 0..cells {
        entries.push(entry(instance, cell / positions, cell % positions))?;
    }
    Ok(entries)
}

/// The share of each matchable pair: the least, over the shapes that hold it, of the shape's least cost in thousandths
/// divided by its number of units and rounded down.
pub fn shares(alloc: Global, instance: &Instance) -> Result<Shares, AllocError>
    ensures { IfOk result (AreShares instance.now) }
{
    let entries = entries(alloc, instance)?;
    Ok(Shares::new(instance.units(), instance.positions(), entries))
}
