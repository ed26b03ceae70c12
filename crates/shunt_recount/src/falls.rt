//! How far the gain of a stack falls when a block comes to a path.
ghost use Rattle.std.specs.Prelude.{◌≡◌, ◌<◌, ◌-ℤ◌, ◌++◌, ◌∷◌, [], true, false, All, length, IfOk};
ghost use Rattle.std.specs.Prelude.{IfSome, IfNone};
ghost use Rattle.shunt_lists.specs.defs.Members.{In};
ghost use Rattle.shunt_blocks.specs.defs.Shapes.{shape_of};
ghost use Rattle.shunt_blocks.specs.defs.Blocks.{IsBlockButId};
ghost use Rattle.shunt_blocks.specs.defs.Lists.{RunsThrough, placed};
ghost use Rattle.shunt_choices.specs.defs.Paths.{IsTrailOf};
ghost use Rattle.shunt_prices.specs.defs.Sums.{IsWithin};
ghost use Rattle.shunt_prices.specs.defs.Limits.{IsCase};
ghost use Rattle.shunt_prices.specs.defs.Cases.{IsFreeBlock};
ghost use Rattle.shunt_stacks.specs.defs.Stacks.{is_of, stack_of};
ghost use Rattle.shunt_stacks.specs.defs.Fillings.{IsStackGain};
ghost use Rattle.shunt_stacks.specs.defs.Bounds.{IsFall};
ghost use Rattle.shunt_recount.specs.declared.counts.StackCount.{StackCount as ACount};
ghost use Rattle.shunt_recount.specs.defs.Offers.{stack_at};
ghost use Rattle.shunt_recount.specs.defs.Recounts.{IsRecountOf, IsCountOf};

use crate::counts::{Recount, StackCount};
use crate::ends::stands_by;
use crate::events::visit_of;
use crate::gains::stack_gain;
use crate::offers::apart_from;
use crate::places::gain_beside;
use crate::prices::room_on;
use shunt_base::Case;
use shunt_blocks::laws::places;
use shunt_blocks::{Block, Park};
use shunt_choices::Path;
use shunt_instance::Instance;
use shunt_stacks::laws::{choices_by_events, gains_by_events, stacks_of_stations, sums_fit};
use std::alloc::{AllocError, Global};

/// The stack of an option, where it is of one.
fn count_for(counts: &[StackCount], option: Option<Park>) -> Option<&StackCount>
    ensures some { IfSome result
        (λ k. In k.now counts.now × (is_of (stack_at k.now.end) option ≡ true)) }
    ensures none { IfNone result
        ((k : ACount) → In k counts.now → is_of (stack_at k.end) option ≡ false) }
{
    'counts: for count in counts {
        if stands_by(count.end, option) {
            return Some(count);
        }
    }
    None
}

/// What a stack gains at a path with one block of it more, whose run goes through: by the table of the path, and anew where that doesn't tell
/// it.
fn gain_with(
    alloc: Global,
    instance: &Instance,
    path: &Path,
    case: &Case,
    count: &StackCount,
    block: &Block,
) -> Result<i64, AllocError>
    requires path { IsTrailOf instance.now path.now }
    requires each { All (IsBlockButId instance.now) path.now.blocks }
    requires case { IsCase instance.now case.now }
    requires count { IsCountOf instance.now path.now.blocks case.now count.now }
    requires track { count.now.end.track.0 < length instance.now.station.tracks }
    requires own { is_of (stack_at count.now.end) block.now.park ≡ true }
    requires free { IsFreeBlock instance.now path.now.covered (shape_of block.now) block.now.park }
    requires longer { RunsThrough instance.now (placed (path.now.blocks ++ block.now ∷ [])) }
    ensures exact { IfOk result (IsStackGain instance.now
        (path.now.blocks ++ block.now ∷ []) case.now (stack_at count.now.end)) }
    ensures small { IfOk result (IsWithin 319999999999680) }
{
    // The first call tells that the night is well formed.
    instance.units();
    places();
    gains_by_events();
    choices_by_events();
    sums_fit();
    let own = visit_of(instance, block, 0);
    let room = room_on(instance, count.end.track);
    if let Some(gain) = gain_beside(alloc, &count.table, own, room, count.gain)? {
        return Ok(gain);
    }
    let mut longer = Vec::from_slice(alloc, path.blocks())?;
    longer.push(*block)?;
    let apart = apart_from(alloc, instance, block, &count.offers)?;
    let gained = stack_gain(alloc, instance, count.end, &longer, &apart)?;
    Ok(gained.gain)
}

/// How far a gain falls.
fn lost(before: i64, after: i64) -> i64
    requires before { IsWithin 319999999999680 before }
    requires after { IsWithin 319999999999680 after }
    ensures exact { result ≡ before -ℤ after }
    ensures small { IsWithin 639999999999360 result }
{
    before - after
}

/// How far the gain of a block's stack falls when the block comes to the path, in thousandths of a cost unit: 0 where it is of no stack.
/// Err is want of memory.
pub fn fall(
    alloc: Global,
    instance: &Instance,
    path: &Path,
    case: &Case,
    recount: &Recount,
    block: &Block,
) -> Result<i64, AllocError>
    requires recount { IsRecountOf instance.now path.now.blocks case.now recount.now }
    requires path { IsTrailOf instance.now path.now }
    requires through { RunsThrough instance.now (placed path.now.blocks) }
    requires case { IsCase instance.now case.now }
    requires free { IsFreeBlock instance.now path.now.covered (shape_of block.now) block.now.park }
    requires longer { RunsThrough instance.now (placed (path.now.blocks ++ block.now ∷ [])) }
    ensures exact { IfOk result
        (IsFall instance.now path.now.blocks block.now case.now (stack_of block.now.park)) }
    ensures small { IfOk result (IsWithin 639999999999360) }
{
    // The first call tells that the night is well formed.
    instance.units();
    stacks_of_stations();
    let Some(count) = count_for(&recount.counts, block.park) else {
        return Ok(0);
    };
    let after = gain_with(alloc, instance, path, case, count, block)?;
    Ok(lost(count.gain, after))
}
