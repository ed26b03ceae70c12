// Which pins a plan keeps.
ghost use Rattle.std.specs.Prelude.{◌≡◌, ◌↔◌, IsTrue, IfSome, None};
ghost use Rattle.shunt_blocks.specs.defs.Pins.{IsKept, Keeps, without_id};
ghost use Rattle.shunt_plan.specs.defs.Plans.{IsFirstLost};

use crate::records::Plan;
use shunt_blocks::Block;

fn without_id(block: &Block) -> Block
    ensures { result ≡ without_id block.now }
{
    Block { id: 0, ..*block }
}

fn is_same(block: &Block, pin: &Block) -> bool
    ensures { IsTrue result ↔ (without_id block.now ≡ without_id pin.now) }
{
    without_id(block) == without_id(pin)
}

// Whether one of the blocks has this pin's shape and option.
fn is_kept(blocks: &[Block], pin: &Block) -> bool
    ensures { IsTrue result ↔ IsKept blocks.now pin.now }
{
    for block in blocks {
        if is_same(block, pin) {
            return true;
        }
    }
    false
}

/// The id of the first of these pins whose shape and option is that of none of the plan's blocks; None exactly when the
/// plan keeps all pins. Ids aren't compared. It takes no memory.
pub fn lost_pin(plan: &Plan, pins: &[Block]) -> Option<u32>
    ensures none { result ≡ None ↔ Keeps plan.now.blocks pins.now }
    ensures some { IfSome result (IsFirstLost plan.now.blocks pins.now) }
{
    let blocks = plan.blocks.as_slice();
    for pin in pins {
        if !is_kept(blocks, pin) {
            return Some(pin.id);
        }
    }
    None
}
