// Bounds with stacks: of a path by its cases, and of a block that comes to it.
ghost use Rattle.std.specs.Prelude.{◌≡◌, ◌⊎◌, ◌<◌, ◌≤◌, ◌++◌, [], ◌∷◌, ◌↔◌, ◌≤ℤ◌, IsTrue, IfOk};
ghost use Rattle.std.specs.Prelude.{All, length};
ghost use Rattle.shunt_blocks.specs.defs.Shapes.{shape_of, IsWithinTrains};
ghost use Rattle.shunt_blocks.specs.defs.Blocks.{IsBlockButId};
ghost use Rattle.shunt_blocks.specs.defs.Lists.{RunsThrough, placed};
ghost use Rattle.shunt_choices.specs.defs.Paths.{IsTrailOf};
ghost use Rattle.shunt_prices.specs.defs.Limits.{AreCases, case_at};
ghost use Rattle.shunt_prices.specs.defs.Cases.{IsFreeBlock};
ghost use Rattle.shunt_prices.specs.defs.Bounds.{unparked_in};
ghost use Rattle.shunt_stacks.specs.defs.Bounds.{IsStackBound, IsChoiceBound};
ghost use Rattle.shunt_checker.specs.defs.Tallies.{IsInWord};

use crate::bounds::{rounded_up, unparked_in};
use crate::gains::unparked_with;
use crate::sums::{choice_sum, path_sum};
use shunt_base::Cases;
use shunt_blocks::Block;
use shunt_blocks::laws::few_blocks;
use shunt_choices::Path;
use shunt_instance::Instance;
use std::alloc::{AllocError, Global};

/// The lesser of two bounds.
fn lesser(one: i64, other: i64) -> i64
    ensures first { result ≤ℤ one }
    ensures second { result ≤ℤ other }
    ensures either { (result ≡ one) ⊎ (result ≡ other) }
{
    if one < other { one } else { other }
}

/// Whether there are two cases, and the first is open at a path with so many unparked blocks.
pub(crate) fn has_open_first(cases: &Cases, unparked: usize) -> bool
    ensures { IsTrue result ↔ ((2 ≤ length cases.now) × (unparked ≤ (case_at cases.now 0).to)) }
{
    if cases.len() < 2 {
        return false;
    }
    if unparked > cases.get(0).to as usize {
        return false;
    }
    true
}

/// How many blocks of a path are unparked, at most 160.
pub(crate) fn unparked_on(instance: &Instance, path: &Path) -> usize
    requires { IsTrailOf instance.now path.now }
    ensures exact { result ≡ unparked_in path.now.blocks }
    ensures small { result ≤ 160 }
    ensures few { length path.now.blocks ≤ 160 }
{
    // There are at most 160 units, and blocks that share nothing are no more.
    instance.units();
    few_blocks();
    unparked_in(path.blocks())
}

/// The bound with stacks of a path by cases. It may be negative.
pub(crate) fn stack_bound(
    alloc: Global,
    instance: &Instance,
    path: &Path,
    cases: &Cases,
) -> Result<i64, AllocError>
    requires path { IsTrailOf instance.now path.now }
    requires through { RunsThrough instance.now (placed path.now.blocks) }
    requires each { All (IsBlockButId instance.now) path.now.blocks }
    requires cases { AreCases instance.now cases.now }
    ensures is { IfOk result (IsStackBound instance.now path.now.blocks cases.now) }
    ensures word { IfOk result IsInWord }
{
    let last = cases.len() - 1;
    let late = path_sum(alloc, instance, path, cases, last)?;
    let bound = rounded_up(late);
    if !has_open_first(cases, unparked_on(instance, path)) {
        return Ok(bound);
    }
    let early = path_sum(alloc, instance, path, cases, 0)?;
    Ok(lesser(rounded_up(early), bound))
}

/// The bound with stacks of a block that comes to a path, by cases. It may be negative.
pub(crate) fn choice_bound(
    alloc: Global,
    instance: &Instance,
    path: &Path,
    cases: &Cases,
    block: &Block,
) -> Result<i64, AllocError>
    requires path { IsTrailOf instance.now path.now }
    requires through { RunsThrough instance.now (placed path.now.blocks) }
    requires each { All (IsBlockButId instance.now) path.now.blocks }
    requires cases { AreCases instance.now cases.now }
    requires within { IsWithinTrains instance.now block.now }
    requires free { IsFreeBlock instance.now path.now.covered (shape_of block.now) block.now.park }
    requires longer { RunsThrough instance.now (placed (path.now.blocks ++ block.now ∷ [])) }
    ensures is { IfOk result (IsChoiceBound instance.now path.now.blocks block.now cases.now) }
    ensures word { IfOk result IsInWord }
{
    let last = cases.len() - 1;
    let late = choice_sum(alloc, instance, path, cases, last, block)?;
    let bound = rounded_up(late);
    let unparked = unparked_with(unparked_on(instance, path), block.park);
    if !has_open_first(cases, unparked) {
        return Ok(bound);
    }
    let early = choice_sum(alloc, instance, path, cases, 0, block)?;
    Ok(lesser(rounded_up(early), bound))
}
