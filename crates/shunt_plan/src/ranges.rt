// Which plans are in range, and what their blocks cost.
ghost use Rattle.std.specs.Prelude.{◌≡◌, ◌≤◌, ◌↔◌, IsTrue, All, length, map};
ghost use Rattle.shunt_lists.specs.defs.Members.{AreDistinct};
ghost use Rattle.shunt_blocks.specs.defs.Shapes.{IsInRange};
ghost use Rattle.shunt_blocks.specs.defs.Lists.{AreInRange, total_cost};
ghost use Rattle.shunt_plan.specs.defs.Plans.{IsPlanInRange};

use crate::block_records::has_id;
use crate::records::Plan;
use shunt_blocks::{Block, block_cost, in_range};
use shunt_instance::Instance;

fn are_each_in_range(instance: &Instance, blocks: &[Block]) -> bool
    ensures { IsTrue result ↔ All (IsInRange instance.now) blocks.now }
{
    for block in blocks {
        if !in_range(instance, block) {
            return false;
        }
    }
    true
}

// Whether no two blocks have one id.
fn have_own_ids(blocks: &[Block]) -> bool
    ensures { IsTrue result ↔ AreDistinct (map (λ b. b.id) blocks.now) }
{
    for i in 0..blocks.len() {
        if has_id(&blocks[..i], blocks[i].id as u64) {
            return false;
        }
    }
    true
}

fn are_in_range(instance: &Instance, blocks: &[Block]) -> bool
    ensures { IsTrue result ↔ AreInRange instance.now blocks.now }
{
    if blocks.len() > 400 {
        return false;
    }
    if !are_each_in_range(instance, blocks) {
        return false;
    }
    have_own_ids(blocks)
}

/// Whether a file can state the plan: at most 400 blocks, each in range and with an id of its own, and a stated cost of at
/// most 10^12. It takes no memory.
pub fn plan_in_range(instance: &Instance, plan: &Plan) -> bool
    ensures { IsTrue result ↔ IsPlanInRange instance.now plan.now }
{
    if plan.cost > 1_000_000_000_000 {
        return false;
    }
    are_in_range(instance, plan.blocks.as_slice())
}

/// What blocks in range cost together, at most 400 of them: at most 1,600,000,000 cost units. It takes no memory.
pub fn blocks_cost(instance: &Instance, blocks: &[Block]) -> u64
    requires few { length blocks.now ≤ 400 }
    requires each { All (IsInRange instance.now) blocks.now }
    ensures exact { result ≡ total_cost instance.now blocks.now }
    ensures small { result ≤ 1600000000 }
{
    let mut sum = 0;
    for block in blocks {
        sum += block_cost(instance, block);
    }
    sum
}

/// What the blocks of a plan in range cost together, at most 1,600,000,000 cost units, whatever it states. It takes no
/// memory.
pub fn plan_cost(instance: &Instance, plan: &Plan) -> u64
    requires { IsPlanInRange instance.now plan.now }
    ensures exact { result ≡ total_cost instance.now plan.now.blocks }
    ensures small { result ≤ 1600000000 }
{
    blocks_cost(instance, plan.blocks.as_slice())
}
