// Whole paths are plans: their blocks with places as ids, and what they cost.
ghost use Rattle.std.specs.Prelude.{◌≡◌, ◌≤◌, length, None, All, IfOk};
ghost use Rattle.shunt_instance.specs.defs.Instance.{Night, IsInstance, unit_total, position_total};
ghost use Rattle.shunt_blocks.specs.defs.Shapes.{IsWithinTrains};
ghost use Rattle.shunt_blocks.specs.defs.Blocks.{IsBlockButId};
ghost use Rattle.shunt_blocks.specs.defs.Lists.{Covers, RunsThrough, IsFeasible, placed};
ghost use Rattle.shunt_blocks.specs.defs.Lists.{total_cost};
ghost use Rattle.shunt_choices.specs.defs.Paths.{Trail, IsTrailOf, next_of};

use crate::polisher::block_at;
use crate::yard::at_place;
use shunt_blocks::laws::{feasible_lists, places};
use shunt_blocks::{Block, block_cost};
use shunt_instance::Instance;
use std::alloc::{AllocError, Global};

/// If there are as many positions as units, a path that covers all units covers all positions; so it is a feasible plan with its
/// places as ids.
pub(crate) fn whole_paths()
    ensures covers { (night : Night) (t : Trail) → IsTrailOf night t → next_of t.covered ≡ None
        → position_total night ≡ unit_total night → Covers night t.blocks }
    ensures feasible { (night : Night) (t : Trail) → IsInstance night → IsTrailOf night t
        → All (IsBlockButId night) t.blocks → RunsThrough night (placed t.blocks)
        → next_of t.covered ≡ None → position_total night ≡ unit_total night
        → IsFeasible night (placed t.blocks) }
{
    places();
    feasible_lists();
}

/// The blocks with their places as ids. Err is want of memory.
pub(crate) fn placed_blocks(alloc: Global, blocks: &[Block]) -> Result<Vec<Block>, AllocError>
    requires { length blocks.now ≤ 160 }
    ensures { IfOk result (λ v. v.items ≡ placed blocks.now) }
{
    let mut placed = Vec::with_capacity(alloc, blocks.len())?;
    for place in 0..blocks.len() {
        let block = block_at(blocks, place);
        placed.push(at_place(&block, place + 1))?;
    }
    Ok(placed)
}

/// What these blocks cost together, at most 640,000,000 cost units.
pub(crate) fn path_cost(instance: &Instance, blocks: &[Block]) -> u64
    requires within { All (IsWithinTrains instance.now) blocks.now }
    requires few { length blocks.now ≤ 160 }
    ensures exact { result ≡ total_cost instance.now blocks.now }
    ensures small { result ≤ 640000000 }
{
    let mut cost = 0;
    for place in 0..blocks.len() {
        let block = block_at(blocks, place);
        cost += block_cost(instance, &block);
    }
    cost
}
