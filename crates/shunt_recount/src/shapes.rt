// Shapes of uncovered units and positions, listed apart from the search.
ghost use Rattle.std.specs.Prelude.{◌≡◌, ◌<◌, ◌≤◌, ◌+◌, ◌↔◌, IsTrue, IfOk, OnOk, length};
ghost use Rattle.shunt_instance.specs.defs.Words.{train_at};
ghost use Rattle.shunt_instance.specs.defs.Instance.{unit_total, position_total};
ghost use Rattle.shunt_blocks.specs.defs.Shapes.{AreRunsWithin};
ghost use Rattle.shunt_choices.specs.defs.Free.{AreMasksOf};
ghost use Rattle.shunt_choices.specs.defs.Choices.{IsFreePair, IsFree, AreFreeShapes};
ghost use Rattle.shunt_recount.specs.defs.Offers.{GoesOn};
ghost use Rattle.shunt_recount.specs.defs.Offers.{BeginsAt, HasUnits, GoesWith};

use shunt_base::DepId;
use shunt_blocks::laws::places;
use shunt_blocks::{Shape, is_pair, position_from, unit_from};
use shunt_choices::Covered;
use shunt_instance::laws::rooms_of_trains;
use shunt_instance::{Instance, Unit};
use std::alloc::{AllocError, Global};

/// Whether neither is covered, and they are matchable.
fn is_free_pair(instance: &Instance, covered: &Covered, u: usize, v: usize) -> bool
    requires covered { AreMasksOf instance.now covered.now }
    requires unit { u < unit_total instance.now }
    requires position { v < position_total instance.now }
    ensures { IsTrue result ↔ IsFreePair instance.now covered.now u v }
{
    if covered.units()[u] {
        return false;
    }
    if covered.places()[v] {
        return false;
    }
    is_pair(instance, u, v)
}

/// Whether a shape's units and positions are uncovered, and matchable pair by pair.
fn is_free(instance: &Instance, covered: &Covered, shape: Shape) -> bool
    requires covered { AreMasksOf instance.now covered.now }
    requires within { AreRunsWithin instance.now shape }
    ensures { IsTrue result ↔ IsFree instance.now covered.now shape }
{
    let from = unit_from(instance, shape);
    let to = position_from(instance, shape);
    for k in 0..shape.n as usize {
        if !is_free_pair(instance, covered, from + k, to + k) {
            return false;
        }
    }
    true
}

/// Adds a shape where it is free.
fn add_shape(
    instance: &Instance,
    covered: &Covered,
    shape: Shape,
    shapes: &mut Vec<Shape>,
) -> Result<(), AllocError>
    requires covered { AreMasksOf instance.now covered.now }
    requires within { AreRunsWithin instance.now shape }
    ensures { OnOk result
        (GoesOn instance.now covered.now (λ s. s ≡ shape) shapes.old.items shapes.new.items) }
{
    if is_free(instance, covered, shape) {
        shapes.push(shape)?;
    }
    Ok(())
}

/// Adds the free shapes of that many units from a unit on that go with a departing train: from each place there.
fn add_with(
    instance: &Instance,
    covered: &Covered,
    unit: Unit,
    n: u8,
    dep: DepId,
    shapes: &mut Vec<Shape>,
) -> Result<(), AllocError>
    requires covered { AreMasksOf instance.now covered.now }
    requires arriving { unit.train.0 < length instance.now.arrive }
    requires place { 1 ≤ unit.place }
    requires some { 1 ≤ n }
    requires units { unit.place + n ≤ length (train_at instance.now.arrive unit.train.0).units + 1 }
    requires departing { dep.0 < length instance.now.depart }
    ensures { OnOk result (GoesOn instance.now covered.now
        (GoesWith unit n dep.0) shapes.old.items shapes.new.items) }
{
    let positions = instance.depart(dep).units.len();
    let starts = (positions + 1).saturating_sub(n as usize);
    for q in 1..starts + 1 {
        let shape = Shape {
            arr: unit.train,
            p: unit.place,
            n,
            dep,
            q: q as u8,
        };
        add_shape(instance, covered, shape, shapes)?;
    }
    Ok(())
}

/// The same of each departing train.
fn add_of(
    instance: &Instance,
    covered: &Covered,
    unit: Unit,
    n: u8,
    shapes: &mut Vec<Shape>,
) -> Result<(), AllocError>
    requires covered { AreMasksOf instance.now covered.now }
    requires arriving { unit.train.0 < length instance.now.arrive }
    requires place { 1 ≤ unit.place }
    requires some { 1 ≤ n }
    requires units { unit.place + n ≤ length (train_at instance.now.arrive unit.train.0).units + 1 }
    ensures { OnOk result
        (GoesOn instance.now covered.now (HasUnits unit n) shapes.old.items shapes.new.items) }
{
    for dep in 0..instance.departures() {
        add_with(instance, covered, unit, n, DepId(dep as u8), shapes)?;
    }
    Ok(())
}

/// The same of each number of units that the unit's train has from there on. A covered unit has none, and costs one test.
fn add_at(
    instance: &Instance,
    covered: &Covered,
    u: usize,
    shapes: &mut Vec<Shape>,
) -> Result<(), AllocError>
    requires covered { AreMasksOf instance.now covered.now }
    requires unit { u < unit_total instance.now }
    ensures { OnOk result (GoesOn instance.now covered.now
        (BeginsAt instance.now u) shapes.old.items shapes.new.items) }
{
    if covered.units()[u] {
        return Ok(());
    }
    // The units of a shape are those of its train from its place on.
    places();
    let unit = instance.unit(u);
    let units = instance.arrive(unit.train).units.len();
    for n in 1..units + 2 - unit.place as usize {
        add_of(instance, covered, unit, n as u8, shapes)?;
    }
    Ok(())
}

/// All shapes of uncovered units and positions.
pub(crate) fn all_shapes(
    alloc: Global,
    instance: &Instance,
    covered: &Covered,
) -> Result<Vec<Shape>, AllocError>
    requires { AreMasksOf instance.now covered.now }
    ensures { IfOk result (λ v. AreFreeShapes instance.now covered.now v.items) }
{
    // Each shape begins at one of the night's units.
    rooms_of_trains();
    let mut shapes = Vec::new(alloc);
    for u in 0..instance.units() {
        add_at(instance, covered, u, &mut shapes)?;
    }
    Ok(shapes)
}
