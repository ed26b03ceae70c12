// Runs of blocks over the lists of the tracks.
ghost use Rattle.std.specs.Prelude.{◌≡◌, ◌≤◌, ◌↔◌, All, IfOk, IsTrue, length};
ghost use Rattle.shunt_stays.specs.defs.Run.{run_of};
ghost use Rattle.shunt_blocks.specs.defs.Shapes.{IsWithinTrains};
ghost use Rattle.shunt_blocks.specs.defs.Lists.{CanStand, ShareNothing, RunsThrough, track_lengths};
ghost use Rattle.shunt_blocks.specs.defs.Lists.{stays_of, placed};
ghost use Rattle.shunt_tracks.specs.defs.Answer.{answer};
ghost use Rattle.shunt_checker.specs.defs.Stops.{is_through};

use shunt_blocks::laws::stays_of_blocks;
use shunt_blocks::{Block, stays_of, track_lengths};
use shunt_instance::Instance;
use shunt_tracks::{Ran, run_lists};
use std::alloc::{AllocError, Global};

/// What comes of the run of blocks.
pub(crate) fn run_blocks(
    alloc: Global,
    instance: &Instance,
    blocks: &[Block],
) -> Result<Ran, AllocError>
    requires { CanStand instance.now blocks.now }
    ensures { IfOk result (λ r. r
        ≡ answer (run_of (track_lengths instance.now.station) (stays_of instance.now blocks.now))) }
{
    // The first call tells that the night is well formed, the second that these are stays on its tracks.
    instance.units();
    stays_of_blocks();
    let lengths = track_lengths(alloc, instance)?;
    let stays = stays_of(alloc, instance, blocks)?;
    run_lists(alloc, &lengths, &stays)
}

/// Whether a run went through.
fn is_through(ran: &Ran) -> bool
    ensures { result ≡ is_through ran.now }
{
    match ran {
        Ran::Through(_) => true,
        Ran::Blocked(_) => false,
        Ran::Over { .. } => false,
    }
}

/// Blocks with their places as ids, from 1.
fn placed(alloc: Global, blocks: &[Block]) -> Result<Vec<Block>, AllocError>
    requires { length blocks.now ≤ 400 }
    ensures { IfOk result (λ v. v.items ≡ placed blocks.now) }
{
    let mut numbered = Vec::new(alloc);
    for k in 0..blocks.len() {
        numbered.push(Block {
            id: k as u32 + 1,
            ..blocks[k]
        })?;
    }
    Ok(numbered)
}

/// Whether the run of blocks that share nothing goes through, with their places as ids.
pub(crate) fn runs_placed(
    alloc: Global,
    instance: &Instance,
    blocks: &[Block],
) -> Result<bool, AllocError>
    requires few { length blocks.now ≤ 400 }
    requires within { All (IsWithinTrains instance.now) blocks.now }
    requires apart { ShareNothing instance.now blocks.now }
    ensures { IfOk result (λ b. IsTrue b ↔ RunsThrough instance.now (placed blocks.now)) }
{
    instance.units();
    stays_of_blocks();
    let numbered = placed(alloc, blocks)?;
    let ran = run_blocks(alloc, instance, &numbered)?;
    Ok(is_through(&ran))
}
