// The parts of a plan's cost.
ghost use Rattle.std.specs.Prelude.{◌≡◌, ◌≤◌, ◌<◌, ◌*◌, length, All};
ghost use Rattle.shunt_blocks.specs.defs.Shapes.{IsWithinTrains, IsInRange};
ghost use Rattle.shunt_blocks.specs.defs.Lists.{total_cost};
ghost use Rattle.shunt_page.specs.defs.Parts.{unparked_cost, block_parts, added, with_block};
ghost use Rattle.shunt_page.specs.defs.Parts.{nothing, parts_of, parts_sum};

use crate::records::Parts;
use shunt_blocks::{Block, Park, way_in, way_out};
use shunt_instance::Instance;

fn unparked_cost(instance: &Instance, park: Option<Park>) -> u64
    ensures exact { result ≡ unparked_cost instance.now park }
    ensures small { result ≤ 1000000 }
{
    match park {
        None => u64::from(instance.station().unparked),
        Some(_) => 0,
    }
}

// What a block costs, in parts.
fn block_parts(instance: &Instance, block: &Block) -> Parts
    requires { IsWithinTrains instance.now block.now }
    ensures exact { result ≡ block_parts instance.now block.now }
    ensures splits { result.splits ≤ 1000000 }
    ensures couplings { result.couplings ≤ 1000000 }
    ensures ways_in { result.ways_in ≤ 1000000 }
    ensures ways_out { result.ways_out ≤ 1000000 }
    ensures unparked { result.unparked ≤ 1000000 }
{
    let station = instance.station();
    let split = if block.p == 1 { 0 } else { station.split };
    let couple = if block.q == 1 { 0 } else { station.couple };
    Parts {
        splits: u64::from(split),
        couplings: u64::from(couple),
        ways_in: u64::from(way_in(instance, block).unwrap_or(0)),
        ways_out: u64::from(way_out(instance, block).unwrap_or(0)),
        unparked: unparked_cost(instance, block.park),
    }
}

// The parts of these blocks, added up.
pub(crate) fn parts_of(instance: &Instance, blocks: &[Block]) -> Parts
    requires few { length blocks.now ≤ 400 }
    requires each { All (IsInRange instance.now) blocks.now }
    ensures exact { result ≡ parts_of instance.now blocks.now }
    ensures together { parts_sum result ≡ total_cost instance.now blocks.now }
{
    let mut parts = Parts {
        splits: 0,
        couplings: 0,
        ways_in: 0,
        ways_out: 0,
        unparked: 0,
    };
    for block in blocks {
        let more = block_parts(instance, block);
        parts = Parts {
            splits: parts.splits + more.splits,
            couplings: parts.couplings + more.couplings,
            ways_in: parts.ways_in + more.ways_in,
            ways_out: parts.ways_out + more.ways_out,
            unparked: parts.unparked + more.unparked,
        };
    }
    parts
}
