// The plan that a search begins with: the pins, and each other unit as an unparked block of its own; or one that is given.
ghost use Rattle.std.specs.Prelude.{◌≡◌, ◌∷◌, ◌++◌, [], ℕ, ◌<◌, ◌≤◌, List, length, cond, false};
ghost use Rattle.std.specs.Prelude.{slice_index_or, IfOk, IfSome, OnOk};
ghost use Rattle.shunt_instance.specs.defs.Instance.{Night, unit_total, position_total};
ghost use Rattle.shunt_instance.specs.defs.Matching.{place_of};
ghost use Rattle.shunt_blocks.specs.defs.Lists.{IsFeasible, total_cost};
ghost use Rattle.shunt_blocks.specs.defs.Pins.{AreUsable, Keeps, opening_cost, single, singles};
ghost use Rattle.shunt_choices.specs.defs.Paths.{masks_of};
ghost use Rattle.shunt_matching.specs.defs.Nights.{Matches, MatchesRest};
ghost use Rattle.shunt_search.specs.defs.WalkStates.{IsBest};

use crate::known::{KnownPlan, keep_plan};
use crate::wholes::{path_cost, placed_blocks};
use shunt_blocks::Block;
use shunt_blocks::laws::{feasible_lists, one_opening_cost, opening_plans};
use shunt_choices::Covered;
use shunt_instance::Instance;
use std::alloc::{AllocError, Global};

/// There are as many positions as units where there is a matching.
pub(crate) fn as_many_positions()
    ensures { (night : Night) (place : List ℕ) → Matches night place
        → position_total night ≡ unit_total night }
{}

/// A unit as an unparked block of its own, at a position.
fn single(instance: &Instance, unit: usize, position: usize) -> Block
    requires unit { unit < unit_total instance.now }
    requires position { position < position_total instance.now }
    ensures { result ≡ single instance.now unit position }
{
    // The call tells that there are at most 160 units.
    instance.units();
    let first = instance.unit(unit);
    let goal = instance.position(position);
    Block {
        id: unit as u32 + 1,
        arr: first.train,
        p: first.place,
        n: 1,
        dep: goal.train,
        q: goal.place,
        park: None,
    }
}

/// Adds a unit as a block of its own, where it isn't covered.
fn add_single(
    instance: &Instance,
    covered: &[bool],
    place: &[u16],
    unit: usize,
    blocks: &mut Vec<Block>,
) -> Result<(), AllocError>
    requires unit { unit < unit_total instance.now }
    requires covered { length covered.now ≡ unit_total instance.now }
    requires place { length place.now ≡ unit_total instance.now }
    requires given { slice_index_or covered.now unit false ≡ false
        → place_of place.now unit < position_total instance.now }
    ensures { OnOk result (blocks.new.items ≡ blocks.old.items ++ cond (slice_index_or covered.now
        unit false) [] (single instance.now unit (place_of place.now unit) ∷ [])) }
{
    if !covered[unit] {
        blocks.push(single(instance, unit, place[unit] as usize))?;
    }
    Ok(())
}

/// The pins, and the other units as unparked blocks of their own at their places. Err is want of memory.
fn with_singles(
    alloc: Global,
    instance: &Instance,
    pins: &[Block],
    covered: &Covered,
    place: &[u16],
) -> Result<Vec<Block>, AllocError>
    requires covered { covered.now ≡ masks_of instance.now pins.now }
    requires matching { MatchesRest instance.now covered.now.units covered.now.places place.now }
    ensures { IfOk result (λ v. v.items ≡ pins.now ++ singles instance.now pins.now place.now) }
{
    let mut blocks = Vec::from_slice(alloc, pins)?;
    for unit in 0..instance.units() {
        add_single(instance, covered.units(), place, unit, &mut blocks)?;
    }
    Ok(blocks)
}

/// The plan that parks nothing but pins: it is feasible, keeps them, and costs their opening cost, at most 640,000,000 cost units.
/// Err is want of memory.
fn opening_plan(
    alloc: Global,
    instance: &Instance,
    pins: &[Block],
    covered: &Covered,
    place: &[u16],
) -> Result<KnownPlan, AllocError>
    requires usable { AreUsable instance.now pins.now }
    requires covered { covered.now ≡ masks_of instance.now pins.now }
    requires matching { MatchesRest instance.now covered.now.units covered.now.places place.now }
    ensures best { IfOk result (λ k. IsBest instance.now pins.now k.blocks.items k.cost) }
    ensures opening { IfOk result (λ k. k.cost ≡ opening_cost instance.now pins.now) }
    ensures small { IfOk result (λ k. k.cost ≤ 640000000) }
{
    // The calls tell that this plan is feasible, with at most 160 blocks.
    opening_plans();
    one_opening_cost();
    feasible_lists();
    instance.units();
    let all = with_singles(alloc, instance, pins, covered, place)?;
    let blocks = placed_blocks(alloc, &all)?;
    let cost = path_cost(instance, &blocks);
    Ok(KnownPlan { blocks, cost })
}

/// The opening plan, or the one that is given, where it costs less. Err is want of memory.
pub(crate) fn first_known(
    alloc: Global,
    instance: &Instance,
    pins: &[Block],
    covered: &Covered,
    place: &[u16],
    given: Option<&[Block]>,
) -> Result<KnownPlan, AllocError>
    requires usable { AreUsable instance.now pins.now }
    requires covered { covered.now ≡ masks_of instance.now pins.now }
    requires matching { MatchesRest instance.now covered.now.units covered.now.places place.now }
    requires feasible { IfSome given (λ p. IsFeasible instance.now p.now) }
    requires keeps { IfSome given (λ p. Keeps p.now pins.now) }
    ensures best { IfOk result (λ k. IsBest instance.now pins.now k.blocks.items k.cost) }
    ensures opening { IfOk result (λ k. k.cost ≤ opening_cost instance.now pins.now) }
    ensures small { IfOk result (λ k. k.cost ≤ 640000000) }
    ensures never_worse { IfOk result
        (λ k. IfSome given.entry (λ p. k.cost ≤ total_cost instance.now p.now)) }
{
    let mut known = opening_plan(alloc, instance, pins, covered, place)?;
    match given {
        Some(plan) => {
            keep_plan(alloc, instance, pins, plan, &mut known)?;
            Ok(known)
        }
        None => Ok(known),
    }
}
