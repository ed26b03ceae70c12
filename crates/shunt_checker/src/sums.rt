// Sums with stacks: of a path, and of a block that comes to it.
ghost use Rattle.std.specs.Prelude.{◌≡◌, ◌<◌, ◌++◌, [], ◌∷◌, IfOk, All, length};
ghost use Rattle.shunt_blocks.specs.defs.Shapes.{shape_of, IsWithinTrains};
ghost use Rattle.shunt_blocks.specs.defs.Blocks.{IsBlockButId};
ghost use Rattle.shunt_blocks.specs.defs.Lists.{RunsThrough, placed};
ghost use Rattle.shunt_choices.specs.defs.Paths.{IsTrailOf};
ghost use Rattle.shunt_prices.specs.defs.Sums.{IsWithin};
ghost use Rattle.shunt_prices.specs.defs.Limits.{AreCases, case_at};
ghost use Rattle.shunt_prices.specs.defs.Cases.{IsFreeBlock};
ghost use Rattle.shunt_stacks.specs.defs.Stacks.{stack_of};
ghost use Rattle.shunt_stacks.specs.defs.Fillings.{gain};
ghost use Rattle.shunt_stacks.specs.defs.Bounds.{IsFall, IsStackSum, IsChoiceSum};
ghost use Rattle.shunt_recount.specs.defs.Recounts.{IsRecountOf};
ghost use Rattle.shunt_checker.specs.defs.Tallies.{IsTally};

use crate::bounds::{case_sum, weight};
use crate::prices::sum_over;
use shunt_base::Cases;
use shunt_blocks::{Block, shape_of};
use shunt_choices::Path;
use shunt_instance::Instance;
use shunt_recount::{Recount, fall, recount, total};
use std::alloc::{AllocError, Global};

/// What a case comes to at a path with stacks: its sum, and what the stacks gain.
#[derive(Drop)]
pub(crate) struct StackedSum {
    pub(crate) sum: i64,
    pub(crate) counted: Recount,
}

/// What the stacks of a path gain in the case with a number.
fn recount_in(
    alloc: Global,
    instance: &Instance,
    path: &Path,
    cases: &Cases,
    k: usize,
) -> Result<Recount, AllocError>
    requires path { IsTrailOf instance.now path.now }
    requires through { RunsThrough instance.now (placed path.now.blocks) }
    requires each { All (IsBlockButId instance.now) path.now.blocks }
    requires cases { AreCases instance.now cases.now }
    requires there { k < length cases.now }
    ensures { IfOk result (IsRecountOf instance.now path.now.blocks (case_at cases.now k)) }
{
    recount(alloc, instance, path, cases.get(k))
}

/// How far the gain of a block's stack falls in the case with a number if the block comes to the path.
pub(crate) fn fall_in(
    alloc: Global,
    instance: &Instance,
    path: &Path,
    cases: &Cases,
    k: usize,
    counted: &Recount,
    block: &Block,
) -> Result<i64, AllocError>
    requires path { IsTrailOf instance.now path.now }
    requires through { RunsThrough instance.now (placed path.now.blocks) }
    requires cases { AreCases instance.now cases.now }
    requires there { k < length cases.now }
    requires counted { IsRecountOf instance.now path.now.blocks (case_at cases.now k) counted.now }
    requires free { IsFreeBlock instance.now path.now.covered (shape_of block.now) block.now.park }
    requires longer { RunsThrough instance.now (placed (path.now.blocks ++ block.now ∷ [])) }
    ensures exact { IfOk result (IsFall instance.now path.now.blocks block.now (case_at cases.now k)
        (stack_of block.now.park)) }
    ensures small { IfOk result (IsWithin 639999999999360) }
{
    fall(alloc, instance, path, cases.get(k), counted, block)
}

/// What a block gains in the case with a number.
pub(crate) fn gain_in(instance: &Instance, cases: &Cases, k: usize, block: &Block) -> i64
    requires cases { AreCases instance.now cases.now }
    requires there { k < length cases.now }
    requires within { IsWithinTrains instance.now block.now }
    ensures exact { result ≡ gain instance.now (case_at cases.now k) block.now }
    ensures small { IsWithin 23056939999999983 result }
{
    let case = cases.get(k);
    let sum = sum_over(instance, &case.duals, shape_of(block));
    sum - weight(instance, case, block)
}

/// The sum with stacks at a path of the case with a number, from what the stacks gain there.
fn stack_sum(instance: &Instance, path: &Path, cases: &Cases, k: usize, counted: &Recount) -> i64
    requires path { IsTrailOf instance.now path.now }
    requires cases { AreCases instance.now cases.now }
    requires there { k < length cases.now }
    requires counted { IsRecountOf instance.now path.now.blocks (case_at cases.now k) counted.now }
    ensures exact { IsStackSum instance.now path.now.blocks cases.now k result }
    ensures small { IsWithin 4050000000000000000 result }
{
    case_sum(instance, path, cases, k) - total(counted)
}

/// What the case with a number comes to at a path with stacks.
pub(crate) fn tally_in(
    alloc: Global,
    instance: &Instance,
    path: &Path,
    cases: &Cases,
    k: usize,
) -> Result<StackedSum, AllocError>
    requires path { IsTrailOf instance.now path.now }
    requires through { RunsThrough instance.now (placed path.now.blocks) }
    requires each { All (IsBlockButId instance.now) path.now.blocks }
    requires cases { AreCases instance.now cases.now }
    requires there { k < length cases.now }
    ensures { IfOk result (IsTally instance.now path.now.blocks cases.now k) }
{
    let counted = recount_in(alloc, instance, path, cases, k)?;
    let sum = stack_sum(instance, path, cases, k, &counted);
    Ok(StackedSum { sum, counted })
}

/// The sum with stacks at a path of the case with a number.
pub(crate) fn path_sum(
    alloc: Global,
    instance: &Instance,
    path: &Path,
    cases: &Cases,
    k: usize,
) -> Result<i64, AllocError>
    requires path { IsTrailOf instance.now path.now }
    requires through { RunsThrough instance.now (placed path.now.blocks) }
    requires each { All (IsBlockButId instance.now) path.now.blocks }
    requires cases { AreCases instance.now cases.now }
    requires there { k < length cases.now }
    ensures exact { IfOk result (IsStackSum instance.now path.now.blocks cases.now k) }
    ensures small { IfOk result (IsWithin 4100000000000000000) }
{
    let counted = recount_in(alloc, instance, path, cases, k)?;
    Ok(stack_sum(instance, path, cases, k, &counted))
}

/// The sum of a block that comes to a path, in the case with a number.
pub(crate) fn choice_sum(
    alloc: Global,
    instance: &Instance,
    path: &Path,
    cases: &Cases,
    k: usize,
    block: &Block,
) -> Result<i64, AllocError>
    requires path { IsTrailOf instance.now path.now }
    requires through { RunsThrough instance.now (placed path.now.blocks) }
    requires each { All (IsBlockButId instance.now) path.now.blocks }
    requires cases { AreCases instance.now cases.now }
    requires there { k < length cases.now }
    requires within { IsWithinTrains instance.now block.now }
    requires free { IsFreeBlock instance.now path.now.covered (shape_of block.now) block.now.park }
    requires longer { RunsThrough instance.now (placed (path.now.blocks ++ block.now ∷ [])) }
    ensures exact { IfOk result (IsChoiceSum instance.now path.now.blocks block.now cases.now k) }
    ensures small { IfOk result (IsWithin 4100000000000000000) }
{
    let counted = recount_in(alloc, instance, path, cases, k)?;
    let whole = stack_sum(instance, path, cases, k, &counted);
    let fall = fall_in(alloc, instance, path, cases, k, &counted, block)?;
    let gain = gain_in(instance, cases, k, block);
    Ok(whole + fall - gain)
}
