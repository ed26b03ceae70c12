// The choices at a path that are worth a node.
ghost use Rattle.std.specs.Prelude.{◌≡◌, ◌++◌, ◌+◌, ◌≤◌, [], length, map, All, Some, IfOk, OnOk};
ghost use Rattle.std.specs.Prelude.{IfSome, IfNone};
ghost use Rattle.shunt_blocks.specs.defs.Shapes.{AreRunsWithin};
ghost use Rattle.shunt_choices.specs.defs.Paths.{IsTrailOf, masks_of, next_of};
ghost use Rattle.shunt_choices.specs.defs.Choices.{choices_with, choices_at};
ghost use Rattle.shunt_prices.specs.defs.Limits.{AreCases};
ghost use Rattle.shunt_prices.specs.defs.Bounds.{IsCasesBound};
ghost use Rattle.shunt_dual.specs.defs.Longer.{AreSumsAt};
ghost use Rattle.shunt_proof.specs.declared.records.Version.TheVariants.{Prices};
ghost use Rattle.shunt_search.specs.defs.Judges.{version_of, IsJudge};
ghost use Rattle.shunt_search.specs.defs.Yards.{IsYard, IsNextBlock, IsOpen, IsClosed, IsTried};
ghost use Rattle.shunt_search.specs.defs.Yards.{AreOpen, AreChildren, more_by, choice_of};

use crate::child::Child;
use crate::judge::Judge;
use crate::sights::open_with_stacks;
use crate::yard::Yard;
use shunt_base::Cases;
use shunt_blocks::laws::few_blocks;
use shunt_blocks::{Block, Park, Shape};
use shunt_choices::laws::{choices, free_shapes};
use shunt_choices::{Path, options, shapes_from};
use shunt_dual::{PathSums, longer_bound, path_sums};
use shunt_instance::Instance;
use std::alloc::{AllocError, Global};

/// The bound of the yard's path with the next block by cases, from what these come to at the path.
fn bound_with(
    instance: &Instance,
    yard: &Yard,
    block: &Block,
    cases: &Cases,
    sums: &PathSums,
) -> i64
    requires next { IsNextBlock instance.now yard.now.path.blocks block.now }
    requires cases { AreCases instance.now cases.now }
    requires sums { AreSumsAt instance.now yard.now.path.blocks cases.now sums.now }
    ensures { IsCasesBound instance.now (more_by yard.now.path.blocks block.now) cases.now result }
{
    longer_bound(instance, cases, sums, block)
}

/// The bound of the path with the next block, where that is below a cost and the run goes through.
fn open_bound(
    instance: &Instance,
    yard: &Yard,
    block: &Block,
    cases: &Cases,
    sums: &PathSums,
    best: u64,
) -> Option<i64>
    requires yard { IsYard instance.now yard.now }
    requires next { IsNextBlock instance.now yard.now.path.blocks block.now }
    requires cases { AreCases instance.now cases.now }
    requires sums { AreSumsAt instance.now yard.now.path.blocks cases.now sums.now }
    requires best { best ≤ 1000000000000 }
    ensures some { IfSome result
        (λ bound. IsOpen Prices instance.now yard.now.path.blocks cases.now best block.now bound) }
    ensures none { IfNone result
        (IsClosed Prices instance.now yard.now.path.blocks cases.now best (choice_of block.now)) }
{
    let bound = bound_with(instance, yard, block, cases, sums);
    if bound >= best as i64 {
        return None;
    }
    if yard.goes_through(instance, block) {
        Some(bound)
    } else {
        None
    }
}

/// Adds the next block to the children, where it is open.
fn offer(
    instance: &Instance,
    yard: &Yard,
    block: &Block,
    cases: &Cases,
    sums: &PathSums,
    best: u64,
    children: &mut Vec<Child>,
) -> Result<(), AllocError>
    requires yard { IsYard instance.now yard.now }
    requires next { IsNextBlock instance.now yard.now.path.blocks block.now }
    requires cases { AreCases instance.now cases.now }
    requires sums { AreSumsAt instance.now yard.now.path.blocks cases.now sums.now }
    requires best { best ≤ 1000000000000 }
    ensures { OnOk result (IsTried Prices instance.now yard.now.path.blocks cases.now best block.now
        children.old.items children.new.items) }
{
    if let Some(bound) = open_bound(instance, yard, block, cases, sums, best) {
        children.push(Child {
            block: *block,
            bound,
        })?;
    }
    Ok(())
}

/// Of these next blocks those that are open by cases with prices. Err is want of memory.
fn open_by_prices(
    alloc: Global,
    instance: &Instance,
    yard: &Yard,
    cases: &Cases,
    best: u64,
    blocks: &[Block],
) -> Result<Vec<Child>, AllocError>
    requires yard { IsYard instance.now yard.now }
    requires next { All (IsNextBlock instance.now yard.now.path.blocks) blocks.now }
    requires cases { AreCases instance.now cases.now }
    requires best { best ≤ 1000000000000 }
    ensures { IfOk result (λ v. AreOpen Prices instance.now yard.now.path.blocks cases.now best
        (map choice_of blocks.now) v.items) }
{
    let sums = path_sums(alloc, instance, &yard.path, cases)?;
    let mut children = Vec::new(alloc);
    for block in blocks {
        offer(instance, yard, block, cases, &sums, best, &mut children)?;
    }
    Ok(children)
}

/// Of these next blocks those that are open. Err is want of memory.
fn open_ones(
    alloc: Global,
    instance: &Instance,
    judge: &Judge,
    yard: &Yard,
    cases: &Cases,
    best: u64,
    blocks: &[Block],
) -> Result<Vec<Child>, AllocError>
    requires judge { IsJudge instance.now judge.now }
    requires yard { IsYard instance.now yard.now }
    requires next { All (IsNextBlock instance.now yard.now.path.blocks) blocks.now }
    requires cases { AreCases instance.now cases.now }
    requires best { best ≤ 1000000000000 }
    ensures { IfOk result (λ v. AreOpen (version_of judge.now) instance.now yard.now.path.blocks
        cases.now best (map choice_of blocks.now) v.items) }
{
    match judge {
        Judge::Prices => open_by_prices(alloc, instance, yard, cases, best, blocks),
        Judge::Stacks(ends) => open_with_stacks(alloc, instance, ends, yard, cases, best, blocks),
    }
}

/// The block of a shape with an option, and an id.
fn block_of(shape: Shape, park: Option<Park>, id: usize) -> Block
    requires { id ≤ 161 }
    ensures { result ≡ record {
      id = id;
      arr = shape.arr;
      p = shape.p;
      n = shape.n;
      dep = shape.dep;
      q = shape.q;
      park = park;
    } }
{
    Block {
        id: id as u32,
        arr: shape.arr,
        p: shape.p,
        n: shape.n,
        dep: shape.dep,
        q: shape.q,
        park,
    }
}

/// Adds the blocks of a shape with each of its options, all with one id.
fn add_options(
    instance: &Instance,
    shape: Shape,
    id: usize,
    blocks: &mut Vec<Block>,
) -> Result<(), AllocError>
    requires within { AreRunsWithin instance.now shape }
    requires id { id ≤ 161 }
    requires ids { All (λ b. b.id ≡ id) blocks.old.items }
    ensures choices { OnOk result (map choice_of blocks.new.items ≡ map choice_of blocks.old.items
        ++ choices_with instance.now shape) }
    ensures ids { OnOk result (All (λ b. b.id ≡ id) blocks.new.items) }
{
    let mut options = options(instance, shape);
    'options: while let Some(option) = options.next() {
        blocks.push(block_of(shape, option, id))?;
    }
    Ok(())
}

/// The blocks of the choices at a path for its next unit, all with one id.
fn add_shapes(
    instance: &Instance,
    path: &Path,
    unit: usize,
    id: usize,
    blocks: &mut Vec<Block>,
) -> Result<(), AllocError>
    requires path { IsTrailOf instance.now path.now }
    requires next { next_of (masks_of instance.now path.now.blocks) ≡ Some unit }
    requires id { id ≤ 161 }
    requires none { blocks.old.items ≡ [] }
    ensures choices { OnOk result
        (map choice_of blocks.new.items ≡ choices_at instance.now path.now.blocks) }
    ensures ids { OnOk result (All (λ b. b.id ≡ id) blocks.new.items) }
{
    // The call says which shapes these are.
    free_shapes();
    instance.units();
    let mut shapes = shapes_from(instance, unit, path.covered());
    'shapes: while let Some(shape) = shapes.next() {
        add_options(instance, shape, id, blocks)?;
    }
    Ok(())
}

/// The blocks of the choices at a path, with their place in it as id. Err is want of memory.
fn next_blocks(alloc: Global, instance: &Instance, path: &Path) -> Result<Vec<Block>, AllocError>
    requires { IsTrailOf instance.now path.now }
    ensures choices { IfOk result
        (λ v. map choice_of v.items ≡ choices_at instance.now path.now.blocks) }
    ensures ids { IfOk result (λ v. All (λ b. b.id ≡ length path.now.blocks + 1) v.items) }
{
    // The calls tell that there are at most 160 blocks.
    few_blocks();
    instance.units();
    let mut blocks = Vec::new(alloc);
    let Some(unit) = path.next_unit() else {
        return Ok(blocks);
    };
    add_shapes(instance, path, unit, path.blocks().len() + 1, &mut blocks)?;
    Ok(blocks)
}

/// The children of the yard's path: of all choices at it those that give a partial plan with a bound below a cost, each with
/// that bound, the least bound last. Err is want of memory.
pub(crate) fn plan_children(
    alloc: Global,
    instance: &Instance,
    judge: &Judge,
    yard: &Yard,
    cases: &Cases,
    best: u64,
) -> Result<Vec<Child>, AllocError>
    requires judge { IsJudge instance.now judge.now }
    requires yard { IsYard instance.now yard.now }
    requires cases { AreCases instance.now cases.now }
    requires best { best ≤ 1000000000000 }
    ensures { IfOk result (λ v. AreChildren
        (version_of judge.now) instance.now yard.now.path.blocks cases.now best v.items) }
{
    // The calls tell that the choices are all and differ.
    choices();
    instance.units();
    let blocks = next_blocks(alloc, instance, &yard.path)?;
    let mut children = open_ones(alloc, instance, judge, yard, cases, best, &blocks)?;
    // The least bound comes last, where a walk goes on.
    children.sort_unstable_by_key(|child| !child.bound);
    Ok(children)
}
