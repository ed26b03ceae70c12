// All findings of a list of blocks.
ghost use Rattle.std.specs.Prelude.{◌≡◌, ◌↔◌, [], All, map, IfOk};
ghost use Rattle.shunt_lists.specs.defs.Members.{AreDistinct};
ghost use Rattle.shunt_instance.specs.defs.Instance.{IsInstance};
ghost use Rattle.shunt_blocks.specs.defs.Lists.{AreInRange, IsFeasible};
ghost use Rattle.shunt_audit.specs.defs.Findings.{IsOfNight, AreFindings};
ghost use Rattle.shunt_audit.specs.defs.Listed.{by_id, findings_in};

use crate::clashes::add_clashes;
use crate::covers::add_covers;
use crate::faults::add_faults;
use crate::types::Finding;
use shunt_blocks::{Block, laws, stays_of};
use shunt_instance::Instance;
use std::alloc::{AllocError, Global};

/// These blocks, of which no two have one id, by ascending id. The error is want of memory.
pub fn by_id(alloc: Global, blocks: &[Block]) -> Result<Vec<Block>, AllocError>
    requires { AreDistinct (map (λ b. b.id) blocks.now) }
    ensures { IfOk result (λ v. v.items ≡ by_id blocks.now) }
{
    let mut blocks = Vec::from_slice(alloc, blocks)?;
    blocks.sort_by_key(|block| block.id)?;
    Ok(blocks)
}

/// What is wrong with a list of blocks: exactly its findings of the kinds 1 to 10, by kind and then by the numbers that they
/// carry. There are none exactly when the blocks are a feasible plan.
///
/// The blocks may stand in any order. There are at most 400 in range, and no two have one id.
pub fn findings_of(
    alloc: Global,
    instance: &Instance,
    blocks: &[Block],
) -> Result<Vec<Finding>, AllocError>
    requires { AreInRange instance.now blocks.now }
    ensures exact { IfOk result (λ v. v.items ≡ findings_in instance.now blocks.now) }
    ensures told { IfOk result (λ v. AreFindings instance.now blocks.now v.items) }
    ensures of_night { IfOk result (λ v. All (IsOfNight instance.now) v.items) }
    ensures none { IfOk result (λ v. (v.items ≡ []) ↔ IsFeasible instance.now blocks.now) }
{
    // The first call tells that the night is well formed, the others what blocks are and how their stays stand.
    instance.station();
    laws::blocks();
    laws::stays_of_blocks();
    let mut findings = Vec::new(alloc);
    add_covers(&mut findings, instance, blocks)?;
    let sorted = by_id(alloc, blocks)?;
    add_faults(&mut findings, instance, &sorted)?;
    let stays = stays_of(alloc, instance, &sorted)?;
    add_clashes(&mut findings, instance, &stays)?;
    Ok(findings)
}
