// The blocks of another plan whose units are no block of the first.
ghost use Rattle.std.specs.Prelude.{◌≡◌, ◌↔◌, ◌<◌, ◌+◌, IsTrue, IfOk, IfSome, IfNone, OnOk};
ghost use Rattle.shunt_lists.specs.defs.Members.{In};
ghost use Rattle.shunt_instance.specs.defs.Instance.{unit_total};
ghost use Rattle.shunt_blocks.specs.defs.Shapes.{begins_at};
ghost use Rattle.shunt_blocks.specs.defs.Lists.{IsFeasible};
ghost use Rattle.shunt_compare.specs.defs.Changes.{AreBelow, HaveSameUnits, IsRegrouped};
ghost use Rattle.shunt_compare.specs.defs.Changes.{AreRegrouped};

use crate::changes::block_with;
use shunt_blocks::{Block, shape_of, unit_from};
use shunt_instance::Instance;
use std::alloc::{AllocError, Global};

fn have_same_units(block: &Block, other: &Block) -> bool
    ensures { IsTrue result ↔ HaveSameUnits block.now other.now }
{
    if block.arr != other.arr {
        return false;
    }
    if block.p != other.p {
        return false;
    }
    block.n == other.n
}

// Whether one of the blocks has the units of this one.
fn is_grouped(blocks: &[Block], block: &Block) -> bool
    ensures { IsTrue result ↔ (c : Block) × In c blocks.now × HaveSameUnits block.now c }
{
    'blocks: for other in blocks {
        if have_same_units(block, other) {
            return true;
        }
    }
    false
}

// The block of the other plan that begins at a unit and whose units are no block of the first.
fn regrouped_at(instance: &Instance, was: &[Block], now: &[Block], unit: usize) -> Option<Block>
    requires now { IsFeasible instance.now now.now }
    requires unit { unit < unit_total instance.now }
    ensures begins { IfSome result (λ b. begins_at instance.now b ≡ unit) }
    ensures some { IfSome result (IsRegrouped was.now now.now) }
    ensures none { IfNone result
        ((b : Block) → begins_at instance.now b ≡ unit → IsRegrouped was.now now.now b → ⊥) }
{
    let block = block_with(instance, now, unit);
    if unit_from(instance, shape_of(&block)) != unit {
        return None;
    }
    if is_grouped(was, &block) {
        return None;
    }
    Some(block)
}

// Adds the block of the other plan that begins at the next unit, if its units are no block of the first.
fn add_regrouped(
    blocks: &mut Vec<Block>,
    instance: &Instance,
    was: &[Block],
    now: &[Block],
    unit: usize,
) -> Result<(), AllocError>
    requires now { IsFeasible instance.now now.now }
    requires unit { unit < unit_total instance.now }
    requires blocks { AreBelow (begins_at instance.now)
        (IsRegrouped was.now now.now) unit blocks.old.items }
    ensures { OnOk result (AreBelow (begins_at instance.now) (IsRegrouped was.now now.now)
        (unit + 1) blocks.new.items) }
{
    let Some(block) = regrouped_at(instance, was, now, unit) else {
        return Ok(());
    };
    blocks.push(block)?;
    Ok(())
}

/// The blocks of another plan whose units are no block of the first, by their first units. The error is want of memory.
pub(crate) fn regrouped(
    alloc: Global,
    instance: &Instance,
    was: &[Block],
    now: &[Block],
) -> Result<Vec<Block>, AllocError>
    requires now { IsFeasible instance.now now.now }
    ensures { IfOk result (λ v. AreRegrouped instance.now was.now now.now v.items) }
{
    let mut blocks = Vec::new(alloc);
    'units: for unit in 0..instance.units() {
        add_regrouped(&mut blocks, instance, was, now, unit)?;
    }
    Ok(blocks)
}
