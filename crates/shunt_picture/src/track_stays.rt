// The stays on a track.
ghost use Rattle.std.specs.Prelude.{◌≡◌, ◌≤◌, All, IsPermutation, length, IfOk};
ghost use Rattle.std.specs.List.Sorted.{IsSortedByKey};
ghost use Rattle.shunt_base.specs.defs.Keys.{key_cmp};
ghost use Rattle.shunt_blocks.specs.defs.Shapes.{IsWithinTrains, IsInRange};
ghost use Rattle.shunt_picture.specs.defs.Rows.{standing_on, standings_on};

use shunt_base::{Stay, TrackId};
use shunt_blocks::{Block, stay};
use shunt_instance::Instance;
use std::alloc::{AllocError, Global};

// A block with its stay.
#[derive(Clone, Copy, Drop)]
pub(crate) struct Standing {
    pub(crate) block: Block,
    pub(crate) stay: Stay,
}

// A block with its stay, where that is on a track.
fn standing_on(instance: &Instance, block: &Block, track: TrackId) -> Option<Standing>
    requires { IsWithinTrains instance.now block.now }
    ensures { result ≡ standing_on instance.now track block.now }
{
    let Some(stay) = stay(instance, block) else {
        return None;
    };
    if stay.track.0 == track.0 {
        return Some(Standing {
            block: *block,
            stay,
        });
    }
    None
}

// The stays on a track, in the order of the blocks.
fn standings_on(
    alloc: Global,
    instance: &Instance,
    blocks: &[Block],
    track: TrackId,
) -> Result<Vec<Standing>, AllocError>
    requires { All (IsInRange instance.now) blocks.now }
    ensures exact { IfOk result (λ v. v.items ≡ standings_on instance.now track blocks.now) }
    ensures few { IfOk result (λ v. length v.items ≤ length blocks.now) }
{
    let mut standings = Vec::new(alloc);
    for block in blocks {
        if let Some(standing) = standing_on(instance, block, track) {
            standings.push(standing)?;
        }
    }
    Ok(standings)
}

// The same by the keys of their entries.
pub(crate) fn sorted_on(
    alloc: Global,
    instance: &Instance,
    blocks: &[Block],
    track: TrackId,
) -> Result<Vec<Standing>, AllocError>
    requires each { All (IsInRange instance.now) blocks.now }
    ensures same { IfOk result
        (λ v. IsPermutation (standings_on instance.now track blocks.now) v.items) }
    ensures order { IfOk result (λ v. IsSortedByKey (λ s. s.stay.enter) key_cmp v.items) }
    ensures within { IfOk result (λ v. All (λ s. IsWithinTrains instance.now s.block) v.items) }
    ensures few { IfOk result (λ v. length v.items ≤ length blocks.now) }
{
    let mut standings = standings_on(alloc, instance, blocks, track)?;
    standings.sort_by_key(|standing| standing.stay.enter)?;
    Ok(standings)
}
