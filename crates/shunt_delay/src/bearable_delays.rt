//! The delays that a plan bears.
ghost use Rattle.std.specs.Prelude.{◌≡◌, ◌<◌, [], All, length, map, IfOk};
ghost use Rattle.shunt_lists.specs.defs.Members.{AreDistinct};
ghost use Rattle.shunt_instance.specs.defs.Words.{has_come};
ghost use Rattle.shunt_blocks.specs.defs.Lists.{IsFeasible, track_lengths, stays_of};
ghost use Rattle.shunt_plan.specs.defs.Plans.{IsPlanInRange};
ghost use Rattle.shunt_audit.specs.defs.Listed.{by_id};
ghost use Rattle.shunt_delay.specs.defs.Delays.{AreDelays};
ghost use Rattle.shunt_delay.specs.defs.Kept.{AreReadyBlocks, AreAll};

use crate::moved_stays::put;
use crate::records::Delay;
use crate::train::delay_of;
use shunt_base::{ArrId, Stay};
use shunt_blocks::{Block, laws, stays_of, track_lengths};
use shunt_instance::{Instance, Origin, Train};
use shunt_plan::Plan;
use shunt_timeline::Timelines;
use std::alloc::{AllocError, Global};

/// How many blocks a plan may have.
const MOST: usize = 400;

/// These blocks by ascending id.
fn by_id(alloc: Global, blocks: &[Block]) -> Result<Vec<Block>, AllocError>
    requires { AreDistinct (map (λ b. b.id) blocks.now) }
    ensures { IfOk result (λ v. v.items ≡ by_id blocks.now) }
{
    let mut blocks = Vec::from_slice(alloc, blocks)?;
    blocks.sort_by_key(|block| block.id)?;
    Ok(blocks)
}

/// Whether a train stands on a track when the night opens, or some of its units have come already.
fn has_come(train: &Train) -> bool
    ensures { result ≡ has_come train.now }
{
    match train.origin {
        Origin::Platform(_) => !train.placed.is_empty(),
        Origin::Track(_) => true,
    }
}

/// Timelines without stays, with room for 400.
fn empty_timelines(alloc: Global, instance: &Instance) -> Result<Timelines, AllocError>
    ensures { IfOk result (λ t. t
        ≡ record { stays = []; lengths = track_lengths instance.now.station; spare = 400 }) }
{
    let lengths = track_lengths(alloc, instance)?;
    let mut timelines = Timelines::new(alloc, lengths.as_slice())?;
    timelines.reserve(MOST)?;
    Ok(timelines)
}

/// Timelines that hold the stays of the blocks.
fn filled(
    alloc: Global,
    instance: &Instance,
    blocks: &[Block],
    stays: &[Stay],
) -> Result<Timelines, AllocError>
    requires ready { AreReadyBlocks instance.now blocks.now }
    requires stays { stays.now ≡ stays_of instance.now blocks.now }
    ensures { IfOk result (AreAll instance.now blocks.now) }
{
    // The calls tell that the night is well formed, and how the stays of blocks stand.
    instance.station();
    laws::places();
    laws::stays();
    laws::stays_of_blocks();
    let mut timelines = empty_timelines(alloc, instance)?;
    put(&mut timelines, stays, 0);
    Ok(timelines)
}

/// The arriving train with a number.
fn train_at(index: usize) -> ArrId
    requires { index < 256 }
    ensures { result.0 ≡ index }
{
    ArrId(index as u8)
}

/// The delays of all trains of which nothing has come yet, for blocks by ascending id.
fn delays_of_blocks(
    alloc: Global,
    instance: &Instance,
    blocks: &[Block],
) -> Result<Vec<Delay>, AllocError>
    requires { AreReadyBlocks instance.now blocks.now }
    ensures { IfOk result (λ v. AreDelays instance.now blocks.now v.items) }
{
    let stays = stays_of(alloc, instance, blocks)?;
    let mut timelines = filled(alloc, instance, blocks, &stays)?;
    let mut delays = Vec::new(alloc);
    for index in 0..instance.arrivals() {
        let train = train_at(index);
        if !has_come(instance.arrive(train)) {
            let delay = delay_of(alloc, instance, blocks, &stays, train, &mut timelines)?;
            delays.push(delay)?;
        }
    }
    Ok(delays)
}

/// How late each arriving train can be of which nothing has come yet, in the order of the trains: none that stands on a track
/// when the night opens, and none with a unit that has come already. It is the greatest number of minutes up to 120 such that
/// the plan stays feasible where the train is so late, and for each smaller number too. Beside it stands what one minute more
/// would bring: the first finding of its blocks that are too soon, of stays that cross or of loads that are too long.
///
/// The plan is in range and feasible. A late train's entries are later, and its units are ready later; all else of the night
/// and of the plan stays. The error is want of memory.
pub fn delays(alloc: Global, instance: &Instance, plan: &Plan) -> Result<Vec<Delay>, AllocError>
    requires in_range { IsPlanInRange instance.now plan.now }
    requires feasible { IsFeasible instance.now plan.now.blocks }
    ensures exact { IfOk result (λ v. AreDelays instance.now plan.now.blocks v.items) }
    ensures of_night { IfOk result
        (λ v. All (λ d. d.train.0 < length instance.now.arrive) v.items) }
{
    // The calls tell that the night is well formed, and what stays blocks have.
    instance.station();
    laws::blocks();
    laws::places();
    laws::stays();
    laws::stays_of_blocks();
    let sorted = by_id(alloc, plan.blocks.as_slice())?;
    let delays = delays_of_blocks(alloc, instance, &sorted)?;
    Ok(delays)
}
