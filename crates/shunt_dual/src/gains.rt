// What blocks gain in a case.
ghost use Rattle.std.specs.Prelude.{◌≡◌};
ghost use Rattle.shunt_blocks.specs.defs.Shapes.{IsWithinTrains};
ghost use Rattle.shunt_prices.specs.defs.Sums.{IsWithin};
ghost use Rattle.shunt_prices.specs.defs.Limits.{IsCase};
ghost use Rattle.shunt_stacks.specs.defs.Fillings.{gain};

use crate::bounds::weight;
use crate::feasibility::duals_over;
use shunt_base::Case;
use shunt_blocks::{Block, shape_of};
use shunt_instance::Instance;

/// The gain of a block in a case: the values of its units and positions less its weight, in thousandths of a cost unit. It takes no
/// memory.
pub fn gain(instance: &Instance, case: &Case, block: &Block) -> i64
    requires case { IsCase instance.now case.now }
    requires within { IsWithinTrains instance.now block.now }
    ensures exact { result ≡ gain instance.now case.now block.now }
    ensures small { IsWithin 23056939999999983 result }
{
    let worth = duals_over(instance, &case.duals, shape_of(block));
    worth - weight(instance, case.multiplier, &case.duals, block)
}
