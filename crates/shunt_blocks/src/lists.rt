// The stays of blocks and the lengths of tracks, as lists.
ghost use Rattle.std.specs.Prelude.{◌≡◌, ◌≤◌, All, length, IfOk};
ghost use Rattle.shunt_blocks.specs.defs.Shapes.{IsWithinTrains};
ghost use Rattle.shunt_blocks.specs.defs.Lists.{stays_of, track_lengths};

use crate::records::Block;
use crate::stays::stay;
use shunt_base::Stay;
use shunt_instance::{Instance, Station};
use std::alloc::{AllocError, Global};

/// The stays of the blocks that have one, in their order. Err is want of memory.
pub fn stays_of(
    alloc: Global,
    instance: &Instance,
    blocks: &[Block],
) -> Result<Vec<Stay>, AllocError>
    requires { All (IsWithinTrains instance.now) blocks.now }
    ensures exact { IfOk result (λ v. v.items ≡ stays_of instance.now blocks.now) }
    ensures few { IfOk result (λ v. length v.items ≤ length blocks.now) }
{
    let mut stays = Vec::new(alloc);
    for block in blocks {
        if let Some(stay) = stay(instance, block) {
            stays.push(stay)?;
        }
    }
    Ok(stays)
}

/// The lengths of a station's tracks in dm. Err is want of memory.
pub fn lengths_of(alloc: Global, station: &Station) -> Result<Vec<u32>, AllocError>
    ensures { IfOk result (λ v. v.items ≡ track_lengths station.now) }
{
    let mut lengths = Vec::new(alloc);
    for track in station.tracks.as_slice() {
        lengths.push(track.length)?;
    }
    Ok(lengths)
}

/// The lengths of an instance's tracks in dm. Err is want of memory.
pub fn track_lengths(alloc: Global, instance: &Instance) -> Result<Vec<u32>, AllocError>
    ensures { IfOk result (λ v. v.items ≡ track_lengths instance.now.station) }
{
    lengths_of(alloc, instance.station())
}
