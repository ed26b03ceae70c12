// The units that another plan places otherwise.
ghost use Rattle.std.specs.Prelude.{◌≡◌, ◌↔◌, ◌<◌, ◌+◌, true, All, IsTrue, IfOk, IfSome, IfNone};
ghost use Rattle.std.specs.Prelude.{OnOk};
ghost use Rattle.shunt_lists.specs.defs.Members.{In};
ghost use Rattle.shunt_instance.specs.defs.Instance.{unit_total};
ghost use Rattle.shunt_blocks.specs.defs.Shapes.{IsWithinTrains, shape_of};
ghost use Rattle.shunt_blocks.specs.defs.Lists.{IsFeasible, has_unit, times_unit};
ghost use Rattle.shunt_compare.specs.defs.Changes.{placement_of, AreBelow, IsPlacement, IsChange};
ghost use Rattle.shunt_compare.specs.defs.Changes.{AreChanges};

use crate::records::{Change, Placement};
use shunt_blocks::{Block, has_unit, position_from, shape_of, unit_from};
use shunt_instance::Instance;
use std::alloc::{AllocError, Global};

/// The block that has a unit.
pub(crate) fn block_with(instance: &Instance, blocks: &[Block], unit: usize) -> Block
    requires within { All (IsWithinTrains instance.now) blocks.now }
    requires one { times_unit instance.now blocks.now unit ≡ 1 }
    ensures there { In result blocks.now }
    ensures has { has_unit instance.now (shape_of result) unit ≡ true }
{
    'blocks: for block in blocks {
        if has_unit(instance, block, unit) {
            return *block;
        }
    }
    unreachable!()
}

// What a block does with one of its units.
fn placement_of(instance: &Instance, block: &Block, unit: usize) -> Placement
    requires within { IsWithinTrains instance.now block.now }
    requires has { has_unit instance.now (shape_of block.now) unit ≡ true }
    ensures { result ≡ placement_of instance.now block.now unit }
{
    let shape = shape_of(block);
    let behind = unit - unit_from(instance, shape);
    Placement {
        position: (position_from(instance, shape) + behind) as u16,
        park: block.park,
    }
}

// What a feasible plan does with a unit.
fn placement(instance: &Instance, blocks: &[Block], unit: usize) -> Placement
    requires feasible { IsFeasible instance.now blocks.now }
    requires unit { unit < unit_total instance.now }
    ensures { IsPlacement instance.now blocks.now unit result }
{
    let block = block_with(instance, blocks, unit);
    placement_of(instance, &block, unit)
}

fn are_same(placement: &Placement, other: &Placement) -> bool
    ensures { IsTrue result ↔ (placement.now ≡ other.now) }
{
    placement == other
}

// What another plan does otherwise with a unit.
fn change_of(instance: &Instance, was: &[Block], now: &[Block], unit: u16) -> Option<Change>
    requires was { IsFeasible instance.now was.now }
    requires now { IsFeasible instance.now now.now }
    requires unit { unit < unit_total instance.now }
    ensures unit { IfSome result (λ c. c.unit ≡ unit) }
    ensures some { IfSome result (IsChange instance.now was.now now.now) }
    ensures none { IfNone result
        ((c : Change) → c.unit ≡ unit → IsChange instance.now was.now now.now c → ⊥) }
{
    let before = placement(instance, was, usize::from(unit));
    let after = placement(instance, now, usize::from(unit));
    if are_same(&before, &after) {
        return None;
    }
    Some(Change {
        unit,
        was: before,
        now: after,
    })
}

// Adds what another plan does otherwise with the next unit.
fn add_change(
    changes: &mut Vec<Change>,
    instance: &Instance,
    was: &[Block],
    now: &[Block],
    unit: u16,
) -> Result<(), AllocError>
    requires was { IsFeasible instance.now was.now }
    requires now { IsFeasible instance.now now.now }
    requires unit { unit < unit_total instance.now }
    requires changes { AreBelow (λ c. c.unit)
        (IsChange instance.now was.now now.now) unit changes.old.items }
    ensures { OnOk result (AreBelow (λ c. c.unit) (IsChange instance.now was.now now.now)
        (unit + 1) changes.new.items) }
{
    let Some(change) = change_of(instance, was, now, unit) else {
        return Ok(());
    };
    changes.push(change)?;
    Ok(())
}

/// The units that another plan places otherwise, by their numbers. The error is want of memory.
pub(crate) fn changes(
    alloc: Global,
    instance: &Instance,
    was: &[Block],
    now: &[Block],
) -> Result<Vec<Change>, AllocError>
    requires was { IsFeasible instance.now was.now }
    requires now { IsFeasible instance.now now.now }
    ensures { IfOk result (λ v. AreChanges instance.now was.now now.now v.items) }
{
    let mut changes = Vec::new(alloc);
    'units: for unit in 0..instance.units() as u16 {
        add_change(&mut changes, instance, was, now, unit)?;
    }
    Ok(changes)
}
