// The bounds of choices at a path, by what its stacks may gain.
ghost use Rattle.std.specs.Prelude.{◌≡◌, ◌<◌, ◌+ℤ◌, ◌-ℤ◌, ◌++◌, ◌∷◌, [], ℕ, length, false, true};
ghost use Rattle.std.specs.Prelude.{IfOk, IfSome, IfNone, slice_index_or};
ghost use Rattle.shunt_base.specs.declared.duals.Case.{Case as OneCase};
ghost use Rattle.shunt_prices.specs.defs.Sums.{IsWithin};
ghost use Rattle.shunt_prices.specs.defs.Limits.{IsCase, AreCases};
ghost use Rattle.shunt_prices.specs.defs.Bounds.{unparked_in};
ghost use Rattle.shunt_stacks.specs.defs.Stacks.{is_of};
ghost use Rattle.shunt_stacks.specs.defs.Fillings.{IsStackGain};
ghost use Rattle.shunt_stacks.specs.defs.Bounds.{IsChoiceSum, IsChoiceBound};
ghost use Rattle.shunt_fillings.specs.declared.ends.Stack.{Stack as OurStack};
ghost use Rattle.shunt_fillings.specs.defs.Pieces.{seen};
ghost use Rattle.shunt_fillings.specs.defs.Scenes.{IsScene, MayCome};
ghost use Rattle.shunt_fillings.specs.defs.Prospects.{IsProspect, IsOutlook, AreOutlooks, AreSums};

use crate::besides::gain_at;
use crate::bounds::least_bound;
use crate::candidates::apart_of;
use crate::ends::{Stack, is_of};
use crate::gains::stack_gain;
use crate::prospects::{Outlook, Prospect};
use crate::scenes::Scene;
use shunt_base::Cases;
use shunt_blocks::laws::places;
use shunt_blocks::{Block, Park, shape_of};
use shunt_dual::{gain, unparked_in};
use shunt_stacks::laws::{choices_by_events, stacks_of_stations, sums_fit};
use std::alloc::{AllocError, Global};

/// These blocks with one more.
fn longer(alloc: Global, blocks: &[Block], block: &Block) -> Result<Vec<Block>, AllocError>
    ensures { IfOk result (λ v. v.items ≡ blocks.now ++ block.now ∷ []) }
{
    let mut longer = Vec::new(alloc);
    longer.extend_from_slice(blocks)?;
    longer.push(*block)?;
    Ok(longer)
}

/// What a stack gains at a path with a block of it more: it stands with what may come next, or else is found anew by the stack's candidates
/// at the path, of which those are left that share nothing with the block.
fn gain_with(
    alloc: Global,
    scene: &Scene<'_>,
    stack: Stack,
    prospect: &Prospect,
    block: &Block,
) -> Result<i64, AllocError>
    requires scene { IsScene scene.now }
    requires track { stack.track.0 < length scene.now.instance.now.station.tracks }
    requires block { MayCome scene.now.instance.now scene.now.path.now.blocks block.now }
    requires own { is_of (seen stack) block.now.park ≡ true }
    requires prospect { (c : OneCase) × IsCase scene.now.instance.now c
        × IsProspect scene.now.instance.now scene.now.path.now.blocks c
        (seen stack) prospect.now }
    ensures exact { (c : OneCase) → IsProspect scene.now.instance.now scene.now.path.now.blocks c
        (seen stack) prospect.now → IfOk result (IsStackGain scene.now.instance.now
        (scene.now.path.now.blocks ++ block.now ∷ []) c (seen stack)) }
    ensures small { IfOk result (IsWithin 319999999999680) }
{
    // The first call tells that the night is well formed.
    scene.instance.units();
    places();
    choices_by_events();
    sums_fit();
    if let Some(gain) = gain_at(&prospect.besides, shape_of(block)) {
        return Ok(gain);
    }
    let apart = apart_of(alloc, scene.instance, block, &prospect.candidates)?;
    let path = longer(alloc, scene.path.blocks(), block)?;
    let found = stack_gain(alloc, scene.instance, scene.events, stack, &path, &apart)?;
    Ok(found.gain)
}

/// The number of the stack that an option is of.
fn stack_number(stacks: &[Stack], park: Option<Park>) -> Option<usize>
    ensures there { IfSome result (λ k. k < length stacks.now) }
    ensures of { IfSome result
        (λ k. (d : OurStack) → is_of (seen (slice_index_or stacks.now k d)) park ≡ true) }
    ensures none { IfNone result ((k : ℕ) (d : OurStack) → k < length stacks.now
        → is_of (seen (slice_index_or stacks.now k d)) park ≡ false) }
{
    for k in 0..stacks.len() {
        if is_of(stacks[k], park) {
            return Some(k);
        }
    }
    None
}

/// A sum with what a gain falls, less what a block gains.
fn with_fall(sum: i64, before: i64, after: i64, own: i64) -> i64
    requires sum { IsWithin 4100000000000000000 sum }
    requires before { IsWithin 319999999999680 before }
    requires after { IsWithin 319999999999680 after }
    requires own { IsWithin 23056939999999983 own }
    ensures { result ≡ sum +ℤ (before -ℤ after) -ℤ own }
{
    let fall = before - after;
    sum + fall - own
}

/// The sum of a choice in the case with a number: the sum with stacks at the path, with what the gain of the block's stack falls, less the
/// gain of the block.
fn choice_sum(
    alloc: Global,
    scene: &Scene<'_>,
    cases: &Cases,
    k: usize,
    outlook: &Outlook,
    block: &Block,
) -> Result<i64, AllocError>
    requires scene { IsScene scene.now }
    requires cases { AreCases scene.now.instance.now cases.now }
    requires there { k < length cases.now }
    requires outlook { IsOutlook scene.now.instance.now scene.now.path.now.blocks cases.now k
        outlook.now }
    requires block { MayCome scene.now.instance.now scene.now.path.now.blocks block.now }
    ensures exact { IfOk result
        (IsChoiceSum scene.now.instance.now scene.now.path.now.blocks block.now cases.now k) }
    ensures small { IfOk result (IsWithin 4100000000000000000) }
{
    // The first call tells that the night is well formed.
    scene.instance.units();
    stacks_of_stations();
    sums_fit();
    let own = gain(scene.instance, cases.get(k), block);
    let Some(s) = stack_number(scene.stacks, block.park) else {
        return Ok(outlook.sum - own);
    };
    let prospect = &outlook.stacks[s];
    let after = gain_with(alloc, scene, scene.stacks[s], prospect, block)?;
    Ok(with_fall(outlook.sum, prospect.gain, after, own))
}

/// The sums of a choice in all cases.
fn choice_sums(
    alloc: Global,
    scene: &Scene<'_>,
    cases: &Cases,
    outlooks: &[Outlook],
    block: &Block,
) -> Result<Vec<i64>, AllocError>
    requires scene { IsScene scene.now }
    requires cases { AreCases scene.now.instance.now cases.now }
    requires outlooks { AreOutlooks scene.now.instance.now scene.now.path.now.blocks cases.now
        (length cases.now) outlooks.now }
    requires block { MayCome scene.now.instance.now scene.now.path.now.blocks block.now }
    ensures { IfOk result (λ v. AreSums (IsChoiceSum scene.now.instance.now
        scene.now.path.now.blocks block.now cases.now) (length cases.now) v.items) }
{
    let mut sums = Vec::with_capacity(alloc, cases.len())?;
    for k in 0..cases.len() {
        let sum = choice_sum(alloc, scene, cases, k, &outlooks[k], block)?;
        sums.push(sum)?;
    }
    Ok(sums)
}

/// How many blocks are unparked with one more.
fn unparked_with(blocks: &[Block], block: &Block) -> usize
    ensures { result ≡ unparked_in (blocks.now ++ block.now ∷ []) }
{
    let before = unparked_in(blocks);
    match block.park {
        None => before + 1,
        Some(_) => before,
    }
}

/// The bound with stacks of a choice at a path, by cases and by what the stacks may gain there: the least of the bounds of its sums, over
/// the cases that are open with the block. It may be negative. Err is want of memory.
pub fn choice_bound(
    alloc: Global,
    scene: &Scene<'_>,
    cases: &Cases,
    outlooks: &[Outlook],
    block: &Block,
) -> Result<i64, AllocError>
    requires scene { IsScene scene.now }
    requires cases { AreCases scene.now.instance.now cases.now }
    requires outlooks { AreOutlooks scene.now.instance.now scene.now.path.now.blocks cases.now
        (length cases.now) outlooks.now }
    requires block { MayCome scene.now.instance.now scene.now.path.now.blocks block.now }
    ensures { IfOk result
        (IsChoiceBound scene.now.instance.now scene.now.path.now.blocks block.now cases.now) }
{
    let sums = choice_sums(alloc, scene, cases, outlooks, block)?;
    let unparked = unparked_with(scene.path.blocks(), block);
    Ok(least_bound(cases, unparked, &sums))
}
