// The first choice of a free shape of which something holds, in the order of choices.
ghost use Rattle.std.specs.Prelude.{◌<◌, ◌≤◌, ◌+◌, IfOk, length};
ghost use Rattle.shunt_instance.specs.defs.Instance.{Night, unit_total, unit_at};
ghost use Rattle.shunt_instance.specs.defs.Words.{train_at};
ghost use Rattle.shunt_blocks.specs.defs.Shapes.{AreRunsWithin, unit_from};
ghost use Rattle.shunt_choices.specs.defs.Free.{AreMasksOf};
ghost use Rattle.shunt_choices.specs.defs.Paths.{Masks};
ghost use Rattle.shunt_choices.specs.defs.Choices.{Choice, IsFreeShape};
ghost use Rattle.shunt_checker.specs.defs.Firsts.{Finds};
ghost use Rattle.shunt_checker.specs.defs.Searches.{IsOneOfShape, IsFreeOne, IsOneAt, IsOneOf};
ghost use Rattle.shunt_checker.specs.defs.Searches.{IsOneWith, IsOneFrom, shape_from};
ghost use Rattle.shunt_checker.specs.defs.NodeFaults.{EarlierChoice};

use crate::free_shapes::is_free;
use crate::offer::Offer;
use shunt_base::DepId;
use shunt_blocks::Shape;
use shunt_blocks::laws::places;
use shunt_choices::Covered;
use shunt_instance::Instance;
use shunt_instance::laws::rooms_of_trains;
use std::alloc::{AllocError, Global};

/// What is sought among the options of free shapes.
pub(crate) trait Sought {
    /// Whether it is sought in this night where these units and positions are covered.
    ghost fits: { Self → Night → Masks → Type 0 };

    /// What holds of it.
    ghost holds: { Self → Night → Choice → Type 0 };

    /// The first option of a free shape of which it holds.
    fn first_option(
        &self,
        alloc: Global,
        instance: &Instance,
        covered: &Covered,
        shape: Shape,
    ) -> Result<Option<Offer>, AllocError>
        requires fits { fits self.now instance.now covered.now }
        requires free { IsFreeShape instance.now covered.now (unit_from instance.now shape) shape }
        ensures { IfOk result (Finds (IsOneOfShape (holds self.now instance.now) shape)
            (EarlierChoice instance.now)) };
}

/// The first one among the options of the shape of that many units from a unit on that goes with a departing train from a place on,
/// where that is free.
fn found_from<S: Sought>(
    alloc: Global,
    instance: &Instance,
    covered: &Covered,
    sought: &S,
    u: usize,
    n: u8,
    dep: u8,
    q: u8,
) -> Result<Option<Offer>, AllocError>
    requires covered { AreMasksOf instance.now covered.now }
    requires fits { S.fits sought.now instance.now covered.now }
    requires unit { u < unit_total instance.now }
    requires within { AreRunsWithin instance.now (shape_from instance.now u n dep q) }
    ensures { IfOk result (Finds (IsOneFrom instance.now covered.now
        (S.holds sought.now instance.now) u n dep q) (EarlierChoice instance.now)) }
{
    // The units of a shape are those of its train from its place on.
    places();
    let unit = instance.unit(u);
    let shape = Shape {
        arr: unit.train,
        p: unit.place,
        n,
        dep: DepId(dep),
        q,
    };
    if !is_free(instance, covered, shape) {
        return Ok(None);
    }
    sought.first_option(alloc, instance, covered, shape)
}

/// The same of each place in the departing train.
fn found_with<S: Sought>(
    alloc: Global,
    instance: &Instance,
    covered: &Covered,
    sought: &S,
    u: usize,
    n: u8,
    dep: u8,
) -> Result<Option<Offer>, AllocError>
    requires covered { AreMasksOf instance.now covered.now }
    requires fits { S.fits sought.now instance.now covered.now }
    requires unit { u < unit_total instance.now }
    requires some { 1 ≤ n }
    requires units { (unit_at instance.now u).place + n
        ≤ length (train_at instance.now.arrive (unit_at instance.now u).train.0).units + 1 }
    requires train { dep < length instance.now.depart }
    ensures { IfOk result (Finds (IsOneWith instance.now covered.now
        (S.holds sought.now instance.now) u n dep) (EarlierChoice instance.now)) }
{
    // The first call tells that the unit's train is there.
    instance.unit(u);
    let positions = instance.depart(DepId(dep)).units.len();
    let starts = (positions + 1).saturating_sub(n as usize);
    for q in 1..starts + 1 {
        if let Some(offer) = found_from(alloc, instance, covered, sought, u, n, dep, q as u8)? {
            return Ok(Some(offer));
        }
    }
    Ok(None)
}

/// The same of each departing train.
fn found_of<S: Sought>(
    alloc: Global,
    instance: &Instance,
    covered: &Covered,
    sought: &S,
    u: usize,
    n: u8,
) -> Result<Option<Offer>, AllocError>
    requires covered { AreMasksOf instance.now covered.now }
    requires fits { S.fits sought.now instance.now covered.now }
    requires unit { u < unit_total instance.now }
    requires some { 1 ≤ n }
    requires units { (unit_at instance.now u).place + n
        ≤ length (train_at instance.now.arrive (unit_at instance.now u).train.0).units + 1 }
    ensures { IfOk result (Finds (IsOneOf instance.now covered.now
        (S.holds sought.now instance.now) u n) (EarlierChoice instance.now)) }
{
    for dep in 0..instance.departures() {
        if let Some(offer) = found_with(alloc, instance, covered, sought, u, n, dep as u8)? {
            return Ok(Some(offer));
        }
    }
    Ok(None)
}

/// The same of each number of units. A covered unit has none, and costs one test.
pub(crate) fn found_at<S: Sought>(
    alloc: Global,
    instance: &Instance,
    covered: &Covered,
    sought: &S,
    u: usize,
) -> Result<Option<Offer>, AllocError>
    requires covered { AreMasksOf instance.now covered.now }
    requires fits { S.fits sought.now instance.now covered.now }
    requires unit { u < unit_total instance.now }
    ensures { IfOk result (Finds (IsOneAt instance.now covered.now
        (S.holds sought.now instance.now) u) (EarlierChoice instance.now)) }
{
    if covered.units()[u] {
        return Ok(None);
    }
    // The units of a shape are those of its train from its place on.
    places();
    let unit = instance.unit(u);
    let units = instance.arrive(unit.train).units.len();
    for n in 1..units + 2 - unit.place as usize {
        if let Some(offer) = found_of(alloc, instance, covered, sought, u, n as u8)? {
            return Ok(Some(offer));
        }
    }
    Ok(None)
}

/// The first choice of a free shape of which it holds: by its first unit, then by the number of units, the departing train and the
/// place there, then by option.
pub(crate) fn first_found<S: Sought>(
    alloc: Global,
    instance: &Instance,
    covered: &Covered,
    sought: &S,
) -> Result<Option<Offer>, AllocError>
    requires covered { AreMasksOf instance.now covered.now }
    requires fits { S.fits sought.now instance.now covered.now }
    ensures { IfOk result (Finds (IsFreeOne instance.now covered.now
        (S.holds sought.now instance.now)) (EarlierChoice instance.now)) }
{
    // Each shape of the night begins at one of its units.
    rooms_of_trains();
    for u in 0..instance.units() {
        if let Some(offer) = found_at(alloc, instance, covered, sought, u)? {
            return Ok(Some(offer));
        }
    }
    Ok(None)
}
