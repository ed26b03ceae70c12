// What blocks cost.
ghost use Rattle.std.specs.Prelude.{◌≡◌, ◌<◌, ◌≤◌, IfSome, length};
ghost use Rattle.shunt_blocks.specs.defs.Shapes.{IsWithinTrains};
ghost use Rattle.shunt_blocks.specs.defs.Costs.{shape_cost, block_cost};

use crate::records::{Block, Shape, shape_of};
use crate::ways::{way_in, way_out};
use shunt_instance::Instance;

/// What it costs to take the units out of their train and to put them into the other.
pub(crate) fn shape_cost(instance: &Instance, shape: Shape) -> u32
    ensures exact { result ≡ shape_cost instance.now shape }
    ensures small { result ≤ 2000000 }
{
    let station = instance.station();
    let split = if shape.p == 1 { 0 } else { station.split };
    let couple = if shape.q == 1 { 0 } else { station.couple };
    split + couple
}

/// What the block costs, at most 4,000,000 cost units: `split` where it isn't first in its arriving train, `couple` where it
/// isn't first in its departing train, and its ways in and out, of which an absent one counts 0, or `unparked`.
pub fn block_cost(instance: &Instance, block: &Block) -> u64
    requires { IsWithinTrains instance.now block.now }
    ensures exact { result ≡ block_cost instance.now block.now }
    ensures small { result ≤ 4000000 }
{
    let shape = shape_cost(instance, shape_of(block));
    let option = match block.park {
        Some(_) => {
            let cost_in = way_in(instance, block).unwrap_or(0);
            let cost_out = way_out(instance, block).unwrap_or(0);
            cost_in + cost_out
        }
        None => instance.station().unparked,
    };
    (shape + option) as u64
}
