// The bound of a path with one block more, from the sums at the path.
ghost use Rattle.std.specs.Prelude.{◌≡◌, ◌<◌, ◌+◌, ◌-ℤ◌, nat_le, IfOk, length};
ghost use Rattle.shunt_blocks.specs.defs.Shapes.{IsWithinTrains, shape_of};
ghost use Rattle.shunt_choices.specs.defs.Paths.{IsTrailOf};
ghost use Rattle.shunt_prices.specs.defs.Sums.{IsWithin};
ghost use Rattle.shunt_prices.specs.defs.Limits.{AreDuals, AreCases, IsValue};
ghost use Rattle.shunt_prices.specs.defs.Cases.{duals_over, weight};
ghost use Rattle.shunt_prices.specs.defs.Bounds.{IsBoundOf, IsCasesBound, case_sum};
ghost use Rattle.shunt_prices.specs.defs.Bounds.{IsLeastBelow};
ghost use Rattle.shunt_dual.specs.defs.Longer.{AreSums, AreSumsAt, AtLonger, one_unparked};
ghost use Rattle.shunt_dual.specs.defs.Weighed.{case_of};

use crate::bounds::{bound_of, case_sum, unparked_in, weight};
use crate::feasibility::duals_over;
use shunt_base::{Cases, Duals};
use shunt_blocks::{Block, shape_of};
use shunt_choices::Path;
use shunt_instance::Instance;
use shunt_prices::laws::longer_paths;
use std::alloc::{AllocError, Global};

/// What cases come to at a path. From it the bound of the path with one block more takes no look at the path.
#[derive(Debug, Drop)]
pub struct PathSums {
    /// The sum of each case.
    pub sums: Vec<i64>,
    /// How many blocks of the path are unparked.
    pub unparked: usize,
}

/// What cases come to at a path. Err is want of memory.
pub fn path_sums(
    alloc: Global,
    instance: &Instance,
    path: &Path,
    cases: &Cases,
) -> Result<PathSums, AllocError>
    requires path { IsTrailOf instance.now path.now }
    requires cases { AreCases instance.now cases.now }
    ensures { IfOk result (AreSumsAt instance.now path.now.blocks cases.now) }
{
    let mut sums = Vec::new(alloc);
    'cases: for k in 0..cases.len() {
        sums.push(case_sum(instance, path, cases, k))?;
    }
    let unparked = unparked_in(path.blocks());
    Ok(PathSums { sums, unparked })
}

/// What a block weighs in a case more than its duals.
fn gain(instance: &Instance, multiplier: i64, duals: &Duals, block: &Block) -> i64
    requires multiplier { IsValue multiplier }
    requires duals { AreDuals instance.now duals.now }
    requires within { IsWithinTrains instance.now block.now }
    ensures exact { result ≡ weight instance.now (case_of multiplier duals.now) block.now
        -ℤ duals_over instance.now duals.now (shape_of block.now) }
    ensures small { IsWithin 23056939999999983 result }
{
    weight(instance, multiplier, duals, block) - duals_over(instance, duals, shape_of(block))
}

/// The bound of the case with a number at a path with a block more.
fn bound_with(instance: &Instance, cases: &Cases, sums: &PathSums, block: &Block, k: usize) -> i64
    requires cases { AreCases instance.now cases.now }
    requires sums { AreSums cases.now sums.now }
    requires within { IsWithinTrains instance.now block.now }
    requires there { k < length cases.now }
    ensures { AtLonger instance.now cases.now sums.now block.now
        (λ path. IsBoundOf (case_sum instance.now path cases.now k) result) }
{
    // The call tells that the sum grows by what the block weighs more than its duals.
    longer_paths();
    let case = cases.get(k);
    bound_of(sums.sums[k] + gain(instance, case.multiplier, &case.duals, block))
}

/// Whether there are at most that many unparked blocks with a block more.
fn are_at_most(unparked: usize, block: &Block, to: u8) -> bool
    ensures { result ≡ nat_le (unparked + one_unparked block.now) to }
{
    match block.park {
        None => unparked < to as usize,
        Some(_) => unparked <= to as usize,
    }
}

/// The lesser of a bound and that of the case with a number at a path with a block more, where that is open.
fn improved(
    instance: &Instance,
    cases: &Cases,
    sums: &PathSums,
    block: &Block,
    k: usize,
    least: i64,
) -> i64
    requires cases { AreCases instance.now cases.now }
    requires sums { AreSums cases.now sums.now }
    requires within { IsWithinTrains instance.now block.now }
    requires there { k < length cases.now }
    requires least { AtLonger instance.now cases.now sums.now block.now
        (λ path. IsLeastBelow instance.now path cases.now k least) }
    ensures { AtLonger instance.now cases.now sums.now block.now
        (λ path. IsLeastBelow instance.now path cases.now (k + 1) result) }
{
    if !are_at_most(sums.unparked, block, cases.get(k).to) {
        return least;
    }
    let bound = bound_with(instance, cases, sums, block, k);
    if bound < least { bound } else { least }
}

/// The bound of a path with one block more by cases, from what these come to at the path: the least of the bounds of those that
/// are open there. The block's units and positions are uncovered. It takes no memory.
pub fn longer_bound(instance: &Instance, cases: &Cases, sums: &PathSums, block: &Block) -> i64
    requires cases { AreCases instance.now cases.now }
    requires sums { AreSums cases.now sums.now }
    requires within { IsWithinTrains instance.now block.now }
    ensures { AtLonger instance.now cases.now sums.now block.now
        (λ path. IsCasesBound instance.now path cases.now result) }
{
    let last = cases.len() - 1;
    let mut least = bound_with(instance, cases, sums, block, last);
    for k in 0..last {
        least = improved(instance, cases, sums, block, k, least);
    }
    least
}
