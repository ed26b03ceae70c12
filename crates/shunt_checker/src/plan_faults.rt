// What is wrong with a plan.
ghost use Rattle.std.specs.Prelude.{◌≡◌, ◌<◌, All, IfOk, Some};
ghost use Rattle.shunt_instance.specs.defs.Instance.{unit_total, position_total};
ghost use Rattle.shunt_blocks.specs.defs.Shapes.{IsWithinTrains};
ghost use Rattle.shunt_blocks.specs.defs.Lists.{times_unit, times_position};
ghost use Rattle.shunt_plan.specs.defs.Plans.{IsPlanInRange};
ghost use Rattle.shunt_checker.specs.defs.Firsts.{Finds};
ghost use Rattle.shunt_checker.specs.defs.PlanFaults.{HasBadBlock, IsPlanFault, PlanFaultBefore};
ghost use Rattle.shunt_checker.specs.defs.Stops.{Less, lesser, IsUnitFault, IsPlaceFault};
ghost use Rattle.shunt_checker.specs.defs.Stops.{stop_fault, From};

use crate::runs::run_blocks;
use crate::verdict::PlanFault;
use shunt_blocks::laws::stays_of_blocks;
use shunt_blocks::{Block, fits, has_position, has_unit};
use shunt_instance::Instance;
use shunt_plan::{Plan, plan_cost};
use shunt_tracks::Ran;
use std::alloc::{AllocError, Global};

/// The lesser of an id that may be there and one more.
fn lesser(least: Option<u32>, id: u32) -> u32
    ensures { result ≡ lesser least id }
{
    match least {
        None => id,
        Some(least) => { if least <= id { least } else { id } }
    }
}

/// The least id of a block that isn't a shape with one of its options.
fn bad_block(instance: &Instance, blocks: &[Block]) -> Option<u32>
    ensures { Finds (HasBadBlock instance.now blocks.now) Less result }
{
    let mut least = None;
    for block in blocks {
        if !fits(instance, block) {
            least = Some(lesser(least, block.id));
        }
    }
    least
}

/// How many of these blocks have a unit.
fn times_unit(instance: &Instance, blocks: &[Block], unit: usize) -> usize
    requires { All (IsWithinTrains instance.now) blocks.now }
    ensures { result ≡ times_unit instance.now blocks.now unit }
{
    let mut times = 0;
    for block in blocks {
        if has_unit(instance, block, unit) {
            times += 1;
        }
    }
    times
}

/// How many of these blocks have a position.
fn times_position(instance: &Instance, blocks: &[Block], position: usize) -> usize
    requires { All (IsWithinTrains instance.now) blocks.now }
    ensures { result ≡ times_position instance.now blocks.now position }
{
    let mut times = 0;
    for block in blocks {
        if has_position(instance, block, position) {
            times += 1;
        }
    }
    times
}

/// The least unit that isn't in exactly one block.
fn unit_fault(instance: &Instance, blocks: &[Block]) -> Option<u16>
    requires { All (IsWithinTrains instance.now) blocks.now }
    ensures { Finds (IsUnitFault instance.now blocks.now) Less result }
{
    for u in 0..instance.units() {
        if times_unit(instance, blocks, u) != 1 {
            return Some(u as u16);
        }
    }
    None
}

/// The least position that isn't in exactly one block.
fn place_fault(instance: &Instance, blocks: &[Block]) -> Option<u16>
    requires { All (IsWithinTrains instance.now) blocks.now }
    ensures { Finds (IsPlaceFault instance.now blocks.now) Less result }
{
    for v in 0..instance.positions() {
        if times_position(instance, blocks, v) != 1 {
            return Some(v as u16);
        }
    }
    None
}

/// What a run that stopped says.
fn stop_fault(ran: &Ran) -> Option<PlanFault>
    ensures { result ≡ stop_fault ran.now }
{
    match ran {
        Ran::Through(_) => None,
        Ran::Blocked(event) => Some(PlanFault::Blocked { id: event.key.id }),
        Ran::Over { event, load } => Some(PlanFault::Over {
            id: event.key.id,
            load: *load,
        }),
    }
}

/// The first fault among the first event that can't be done and the stated cost.
fn late_fault(
    alloc: Global,
    instance: &Instance,
    plan: &Plan,
) -> Result<Option<PlanFault>, AllocError>
    requires range { IsPlanInRange instance.now plan.now }
    requires from { From instance.now plan.now 4 }
    ensures { IfOk result (Finds (IsPlanFault instance.now plan.now) PlanFaultBefore) }
{
    // Blocks in range with distinct ids can stand.
    stays_of_blocks();
    let ran = run_blocks(alloc, instance, plan.blocks.as_slice())?;
    if let Some(fault) = stop_fault(&ran) {
        return Ok(Some(fault));
    }
    let real = plan_cost(instance, plan);
    if plan.cost != real {
        return Ok(Some(PlanFault::Cost {
            stated: plan.cost,
            real,
        }));
    }
    Ok(None)
}

/// What is wrong with a plan in range: its first fault. None exactly when it is feasible and states its cost.
pub(crate) fn plan_fault(
    alloc: Global,
    instance: &Instance,
    plan: &Plan,
) -> Result<Option<PlanFault>, AllocError>
    requires { IsPlanInRange instance.now plan.now }
    ensures { IfOk result (Finds (IsPlanFault instance.now plan.now) PlanFaultBefore) }
{
    let blocks = plan.blocks.as_slice();
    if let Some(id) = bad_block(instance, blocks) {
        return Ok(Some(PlanFault::BadBlock { id }));
    }
    if let Some(unit) = unit_fault(instance, blocks) {
        return Ok(Some(PlanFault::Unit { unit }));
    }
    if let Some(position) = place_fault(instance, blocks) {
        return Ok(Some(PlanFault::Place { position }));
    }
    late_fault(alloc, instance, plan)
}
