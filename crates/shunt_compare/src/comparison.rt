// What another plan does otherwise, as a whole.
ghost use Rattle.std.specs.Prelude.{IfOk};
ghost use Rattle.shunt_blocks.specs.defs.Lists.{IsFeasible};
ghost use Rattle.shunt_compare.specs.defs.Changes.{IsComparison};

use crate::changes::changes;
use crate::records::Comparison;
use crate::regrouped::regrouped;
use shunt_blocks::Block;
use shunt_instance::Instance;
use shunt_lists::Items;
use std::alloc::{AllocError, Global};

/// What another plan does otherwise than the first one: the units whose position or option differs, and its blocks whose units are no
/// block of the first.
///
/// Both are lists of blocks that can be done. Their ids don't matter. The error is want of memory.
pub fn compare(
    alloc: Global,
    instance: &Instance,
    was: &[Block],
    now: &[Block],
) -> Result<Comparison, AllocError>
    requires was { IsFeasible instance.now was.now }
    requires now { IsFeasible instance.now now.now }
    ensures { IfOk result (IsComparison instance.now was.now now.now) }
{
    Ok(Comparison {
        changes: Items::from_vec(changes(alloc, instance, was, now)?),
        regrouped: Items::from_vec(regrouped(alloc, instance, was, now)?),
    })
}
