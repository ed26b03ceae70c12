// What the free shapes of a night ask of their units.
ghost use Rattle.std.specs.Prelude.{◌≡◌, ◌⊎◌, ◌<◌, ◌≤◌, ◌+◌, ◌*◌, ◌++◌, ◌↔◌, ℕ, All, IsTrue, Some};
ghost use Rattle.std.specs.Prelude.{None, IfOk, OnOk, length};
ghost use Rattle.shunt_instance.specs.defs.Instance.{unit_total, position_total};
ghost use Rattle.shunt_blocks.specs.defs.Shapes.{AreRunsWithin, IsOnTrack};
ghost use Rattle.shunt_blocks.specs.defs.Costs.{cost_with};
ghost use Rattle.shunt_blocks.specs.defs.Stays.{shape_length};
ghost use Rattle.shunt_choices.specs.defs.Free.{AreMasksOf};
ghost use Rattle.shunt_choices.specs.defs.Choices.{shapes_of};
ghost use Rattle.shunt_prices.specs.defs.Limits.{ArePrices, IsValue};
ghost use Rattle.shunt_prices.specs.defs.Cases.{HasRoom};
ghost use Rattle.shunt_dual.specs.defs.Refits.{IsAsk};
ghost use Rattle.shunt_dual.specs.defs.Asks.{AreCosts, AreCostsWith, IsDemand, IsLeastWeight};
ghost use Rattle.shunt_choices.specs.defs.Choices.{AreFreeShapes};
ghost use Rattle.shunt_dual.specs.defs.Asks.{IsAskOf, AreAsksOf, AreDemands};
ghost use Rattle.shunt_dual.specs.defs.Asks.{shapes_asked};

use crate::shape_costs::{charges, cost_with, room, run_sum, shape_length};
use crate::unit_values::Ask;
use shunt_base::Price;
use shunt_blocks::{Park, Shape, position_from, unit_from};
use shunt_choices::laws::{free_shapes, shape_options};
use shunt_choices::{Covered, options, shapes_from};
use shunt_instance::Instance;
use shunt_instance::laws::rooms_of_trains;
use std::alloc::{AllocError, Global};

/// Whether a shape of this length has room with an option.
fn has_room(instance: &Instance, shape: Shape, long: u32, park: Option<Park>) -> bool
    requires long { long ≡ shape_length instance.now shape }
    requires track { IsOnTrack instance.now.station park }
    ensures { IsTrue result ↔ HasRoom instance.now shape park }
{
    match park {
        None => true,
        Some(park) => long <= room(instance, park.track),
    }
}

/// The lesser of a cost and that of a shape parked in a way that has room.
fn cost_on(instance: &Instance, shape: Shape, long: u32, park: Park, least: u64) -> u64
    requires within { AreRunsWithin instance.now shape }
    requires long { long ≡ shape_length instance.now shape }
    requires track { park.track.0 < length instance.now.station.tracks }
    ensures least { result ≤ least }
    ensures room { HasRoom instance.now shape (Some park)
        → result ≤ cost_with instance.now shape (Some park) }
    ensures one { (result ≡ least) ⊎ (HasRoom instance.now shape (Some park)
        × (result ≡ cost_with instance.now shape (Some park))) }
{
    if !has_room(instance, shape, long, Some(park)) {
        return least;
    }
    let cost = cost_with(instance, shape, Some(park));
    if cost < least { cost } else { least }
}

/// Takes one more option into the costs by track.
fn take_in(instance: &Instance, shape: Shape, long: u32, option: Option<Park>, costs: &mut [u64])
    requires within { AreRunsWithin instance.now shape }
    requires long { long ≡ shape_length instance.now shape }
    requires track { IsOnTrack instance.now.station option }
    requires tracks { length costs.old ≡ 60 }
    ensures { AreCostsWith instance.now shape option costs.old costs.new }
{
    // The call tells that there are at most 60 tracks.
    instance.station();
    if let Some(park) = option {
        let t = park.track.0 as usize;
        costs[t] = cost_on(instance, shape, long, park, costs[t]);
    }
}

/// For each track the least cost of a shape there, or unparked where that is less.
fn costs_of(instance: &Instance, shape: Shape, long: u32, unparked: u64) -> [u64; 60]
    requires within { AreRunsWithin instance.now shape }
    requires long { long ≡ shape_length instance.now shape }
    requires unparked { unparked ≡ cost_with instance.now shape None }
    ensures { AreCosts instance.now shape result }
{
    // The call says which options these are.
    shape_options();
    let mut costs = [unparked; 60];
    let mut options = options(instance, shape);
    'options: while let Some(option) = options.next() {
        take_in(instance, shape, long, option, &mut costs);
    }
    costs
}

/// The lesser of a weight and that of a shape on a track.
fn lightened(least: u64, cost: u64, charge: u64) -> u64
    requires cost { cost ≤ 4000000 }
    requires charge { charge ≤ 23039936000000000 }
    ensures least { result ≤ least }
    ensures track { result ≤ 1000 * cost + charge }
    ensures one { (result ≡ least) ⊎ (result ≡ 1000 * cost + charge) }
{
    let weight = 1000 * cost + charge;
    if weight < least { weight } else { least }
}

/// A shape with its length and its cost unparked, and for each track its least cost there, or unparked where that is less.
#[derive(Clone, Copy)]
pub(crate) struct Demand {
    shape: Shape,
    long: u32,
    unparked: u64,
    costs: [u64; 60],
}

/// What prices need to know of a shape.
fn demand_of(instance: &Instance, shape: Shape) -> Demand
    requires { AreRunsWithin instance.now shape }
    ensures shape { result.shape ≡ shape }
    ensures demand { IsDemand instance.now result }
{
    let long = shape_length(instance, shape);
    let unparked = cost_with(instance, shape, None);
    Demand {
        shape,
        long,
        unparked,
        costs: costs_of(instance, shape, long, unparked),
    }
}

/// The least weight of the options of a shape that have room.
fn least_weight(instance: &Instance, prices: &[Price], demand: &Demand) -> u64
    requires prices { ArePrices instance.now prices.now }
    requires demand { IsDemand instance.now demand.now }
    ensures exact { IsLeastWeight instance.now prices.now demand.now.shape result }
    ensures small { result ≤ 4000000000 }
{
    let charges = charges(instance, prices, demand.shape, demand.long);
    let mut least = 1000 * demand.unparked;
    for t in 0..instance.station().tracks.len() {
        least = lightened(least, demand.costs[t], charges[t]);
    }
    least
}

/// What a shape asks of its units.
fn ask_of(instance: &Instance, beta: &[i64], prices: &[Price], demand: &Demand) -> Ask
    requires values { All IsValue beta.now }
    requires betas { length beta.now ≡ position_total instance.now }
    requires prices { ArePrices instance.now prices.now }
    requires demand { IsDemand instance.now demand.now }
    ensures exact { IsAskOf instance.now beta.now prices.now demand.now.shape result }
    ensures ask { IsAsk (unit_total instance.now) result }
{
    let shape = demand.shape;
    let first = unit_from(instance, shape);
    let taken = run_sum(beta, position_from(instance, shape), shape.n as usize);
    Ask {
        first,
        n: shape.n,
        most: least_weight(instance, prices, demand) as i64 - taken,
    }
}

/// What shapes ask of their units, one by one.
pub(crate) fn asks_of(
    alloc: Global,
    instance: &Instance,
    demands: &[Demand],
    beta: &[i64],
    prices: &[Price],
) -> Result<Vec<Ask>, AllocError>
    requires demands { All (IsDemand instance.now) demands.now }
    requires values { All IsValue beta.now }
    requires betas { length beta.now ≡ position_total instance.now }
    requires prices { ArePrices instance.now prices.now }
    ensures exact { IfOk result
        (λ asks. AreAsksOf instance.now beta.now prices.now (shapes_asked demands.now) asks.items) }
    ensures each { IfOk result (λ asks. All (IsAsk (unit_total instance.now)) asks.items) }
{
    let mut asks = Vec::with_capacity(alloc, demands.len())?;
    for demand in demands {
        asks.push(ask_of(instance, beta, prices, demand))?;
    }
    Ok(asks)
}

/// Adds the shapes of uncovered units and positions that begin at a unit.
fn add_shapes(
    instance: &Instance,
    covered: &Covered,
    u: usize,
    shapes: &mut Vec<Shape>,
) -> Result<(), AllocError>
    requires covered { AreMasksOf instance.now covered.now }
    requires unit { u < unit_total instance.now }
    ensures { OnOk result
        (shapes.new.items ≡ shapes.old.items ++ shapes_of instance.now covered.now u) }
{
    let mut found = shapes_from(instance, u, covered);
    'found: while let Some(shape) = found.next() {
        shapes.push(shape)?;
    }
    Ok(())
}

/// All shapes of uncovered units and positions. Err is want of memory.
pub fn all_shapes(
    alloc: Global,
    instance: &Instance,
    covered: &Covered,
) -> Result<Vec<Shape>, AllocError>
    requires covered { AreMasksOf instance.now covered.now }
    ensures exact { IfOk result (λ shapes. AreFreeShapes instance.now covered.now shapes.items) }
    ensures within { IfOk result (λ shapes. All (AreRunsWithin instance.now) shapes.items) }
{
    // Each shape of the night begins at one of its units, and the second law says which begin at a unit.
    rooms_of_trains();
    free_shapes();
    let mut shapes = Vec::new(alloc);
    for u in 0..instance.units() {
        add_shapes(instance, covered, u, &mut shapes)?;
    }
    Ok(shapes)
}

/// What prices need to know of these shapes.
fn demands_of(
    alloc: Global,
    instance: &Instance,
    shapes: &[Shape],
) -> Result<Vec<Demand>, AllocError>
    requires { All (AreRunsWithin instance.now) shapes.now }
    ensures shapes { IfOk result (λ demands. shapes_asked demands.items ≡ shapes.now) }
    ensures each { IfOk result (λ demands. All (IsDemand instance.now) demands.items) }
{
    let mut demands = Vec::with_capacity(alloc, shapes.len())?;
    for shape in shapes {
        demands.push(demand_of(instance, *shape))?;
    }
    Ok(demands)
}

/// What prices need to know of all shapes of uncovered units and positions.
pub(crate) fn all_demands(
    alloc: Global,
    instance: &Instance,
    covered: &Covered,
) -> Result<Vec<Demand>, AllocError>
    requires covered { AreMasksOf instance.now covered.now }
    ensures { IfOk result (λ demands. AreDemands instance.now covered.now demands.items) }
{
    let shapes = all_shapes(alloc, instance, covered)?;
    let demands = demands_of(alloc, instance, &shapes)?;
    Ok(demands)
}
