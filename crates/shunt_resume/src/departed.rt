// The blocks that have gone.
ghost use Rattle.std.specs.Prelude.{◌≡◌, All, filter, IfOk};
ghost use Rattle.shunt_blocks.specs.defs.Shapes.{IsInRange};
ghost use Rattle.shunt_blocks.specs.defs.Lists.{AreInRange};
ghost use Rattle.shunt_resume.specs.defs.Resumed.{has_gone_by, gone};

use shunt_audit::by_id;
use shunt_base::Minute;
use shunt_blocks::Block;
use shunt_instance::Instance;
use std::alloc::{AllocError, Global};

// Whether the departing train of a block has gone by a minute.
fn has_gone_by(instance: &Instance, minute: Minute, block: &Block) -> bool
    requires { IsInRange instance.now block.now }
    ensures { result ≡ has_gone_by instance.now minute block.now }
{
    instance.depart(block.dep).minute <= minute
}

// The blocks that have gone by a minute, in their order.
fn gone_of(
    alloc: Global,
    instance: &Instance,
    minute: Minute,
    blocks: &[Block],
) -> Result<Vec<Block>, AllocError>
    requires { All (IsInRange instance.now) blocks.now }
    ensures { IfOk result (λ v. v.items ≡ filter (has_gone_by instance.now minute) blocks.now) }
{
    let mut gone = Vec::new(alloc);
    'goings: for block in blocks {
        if has_gone_by(instance, minute, block) {
            gone.push(*block)?;
        }
    }
    Ok(gone)
}

/// The blocks that have gone by a minute, by ascending id. They are in range. The error is want of memory.
#[tactic(auto, unfolding(crate::specs::defs::Resumed::gone))]
pub fn gone(
    alloc: Global,
    instance: &Instance,
    minute: Minute,
    blocks: &[Block],
) -> Result<Vec<Block>, AllocError>
    requires { AreInRange instance.now blocks.now }
    ensures exact { IfOk result (λ v. v.items ≡ gone instance.now minute blocks.now) }
    ensures in_range { IfOk result (λ v. AreInRange instance.now v.items) }
{
    let gone = gone_of(alloc, instance, minute, blocks)?;
    by_id(alloc, &gone)
}
