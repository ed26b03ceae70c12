// The choices at a path that are worth a node, where its stacks are judged.
ghost use Rattle.std.specs.Prelude.{◌≡◌, ◌≤◌, pos, ◌≤ℤ◌, ◌<ℤ◌, map, All, IfOk, OnOk, IfSome, IfNone};
ghost use Rattle.shunt_blocks.specs.defs.Lists.{RunsThrough, placed};
ghost use Rattle.shunt_prices.specs.defs.Limits.{AreCases};
ghost use Rattle.shunt_stacks.specs.defs.Bounds.{IsStackBound};
ghost use Rattle.shunt_proof.specs.declared.records.Version.TheVariants.{Stacks};
ghost use Rattle.shunt_proof.specs.defs.Versions.{IsStepBoundIn};
ghost use Rattle.shunt_search.specs.defs.Judges.{AreEnds, IsSight};
ghost use Rattle.shunt_search.specs.defs.Yards.{IsYard, IsNextBlock, IsOpen, IsClosed, IsTried};
ghost use Rattle.shunt_search.specs.defs.Yards.{AreOpen, more_by, choice_of};

use crate::child::Child;
use crate::judge::Ends;
use crate::yard::Yard;
use shunt_base::Cases;
use shunt_blocks::laws::few_blocks;
use shunt_blocks::{Block, Shape};
use shunt_dual::all_shapes;
use shunt_fillings::{Outlook, Scene, choice_bound, outlooks, stack_bound};
use shunt_instance::Instance;
use std::alloc::{AllocError, Global};

/// What the stacks may gain at a path by cases, and the path's free shapes.
#[derive(Drop)]
pub struct Sight {
    pub shapes: Vec<Shape>,
    pub outlooks: Vec<Outlook>,
}

/// What the stacks may gain at the yard's path by cases. Err is want of memory.
fn sight_at(
    alloc: Global,
    instance: &Instance,
    ends: &Ends,
    yard: &Yard,
    cases: &Cases,
) -> Result<Sight, AllocError>
    requires yard { IsYard instance.now yard.now }
    requires ends { AreEnds instance.now ends.now }
    requires cases { AreCases instance.now cases.now }
    ensures { IfOk result (IsSight instance.now yard.now cases.now) }
{
    let shapes = all_shapes(alloc, instance, yard.path.covered())?;
    let scene = Scene {
        instance,
        events: &ends.events,
        stacks: &ends.stacks,
        path: &yard.path,
        shapes: &shapes,
    };
    let outlooks = outlooks(alloc, &scene, cases)?;
    Ok(Sight { shapes, outlooks })
}

/// The sums with stacks of all cases at the yard's path, in thousandths of a cost unit. Err is want of memory.
pub(crate) fn sums_at(
    alloc: Global,
    instance: &Instance,
    ends: &Ends,
    yard: &Yard,
    cases: &Cases,
) -> Result<Vec<i64>, AllocError>
    requires yard { IsYard instance.now yard.now }
    requires ends { AreEnds instance.now ends.now }
    requires cases { AreCases instance.now cases.now }
{
    let sight = sight_at(alloc, instance, ends, yard, cases)?;
    let mut sums = Vec::with_capacity(alloc, sight.outlooks.len())?;
    for outlook in &sight.outlooks {
        sums.push(outlook.sum)?;
    }
    Ok(sums)
}

/// The bound of the yard's path by cases with stacks. Err is want of memory.
pub(crate) fn bound_at(
    alloc: Global,
    instance: &Instance,
    ends: &Ends,
    yard: &Yard,
    cases: &Cases,
) -> Result<i64, AllocError>
    requires yard { IsYard instance.now yard.now }
    requires ends { AreEnds instance.now ends.now }
    requires cases { AreCases instance.now cases.now }
    ensures { IfOk result (IsStackBound instance.now yard.now.path.blocks cases.now) }
{
    let shapes = all_shapes(alloc, instance, yard.path.covered())?;
    let scene = Scene {
        instance,
        events: &ends.events,
        stacks: &ends.stacks,
        path: &yard.path,
        shapes: &shapes,
    };
    stack_bound(alloc, &scene, cases)
}

/// The bound of the yard's path with the next block, from what the stacks may gain there. Err is want of memory.
fn bound_with(
    alloc: Global,
    instance: &Instance,
    ends: &Ends,
    yard: &Yard,
    sight: &Sight,
    cases: &Cases,
    block: &Block,
) -> Result<i64, AllocError>
    requires yard { IsYard instance.now yard.now }
    requires ends { AreEnds instance.now ends.now }
    requires sight { IsSight instance.now yard.now cases.now sight.now }
    requires cases { AreCases instance.now cases.now }
    requires next { IsNextBlock instance.now yard.now.path.blocks block.now }
    requires through { RunsThrough instance.now (placed (more_by yard.now.path.blocks block.now)) }
    ensures { IfOk result (IsStepBoundIn Stacks instance.now yard.now.path.blocks
        (more_by yard.now.path.blocks block.now) cases.now) }
{
    // The calls tell that the block is in range.
    few_blocks();
    instance.units();
    let scene = Scene {
        instance,
        events: &ends.events,
        stacks: &ends.stacks,
        path: &yard.path,
        shapes: &sight.shapes,
    };
    choice_bound(alloc, &scene, cases, &sight.outlooks, block)
}

/// A bound that is below a cost.
fn bound_below(bound: i64, best: u64) -> Option<i64>
    requires { best ≤ 1000000000000 }
    ensures some { IfSome result (λ below. (below ≡ bound) × (below <ℤ pos best)) }
    ensures none { IfNone result (pos best ≤ℤ bound) }
{
    if bound >= best as i64 {
        None
    } else {
        Some(bound)
    }
}

/// The bound of the path with the next block, where the run goes through and that is below a cost. Err is want of memory.
fn open_bound(
    alloc: Global,
    instance: &Instance,
    ends: &Ends,
    yard: &Yard,
    sight: &Sight,
    cases: &Cases,
    block: &Block,
    best: u64,
) -> Result<Option<i64>, AllocError>
    requires yard { IsYard instance.now yard.now }
    requires ends { AreEnds instance.now ends.now }
    requires sight { IsSight instance.now yard.now cases.now sight.now }
    requires cases { AreCases instance.now cases.now }
    requires next { IsNextBlock instance.now yard.now.path.blocks block.now }
    requires best { best ≤ 1000000000000 }
    ensures some { IfOk result (λ o. IfSome o
        (λ bound. IsOpen Stacks instance.now yard.now.path.blocks cases.now best block.now bound)) }
    ensures none { IfOk result (λ o. IfNone o
        (IsClosed Stacks instance.now yard.now.path.blocks cases.now best (choice_of block.now))) }
{
    let through = yard.goes_through(instance, block);
    if !through {
        return Ok(None);
    }
    let bound = bound_with(alloc, instance, ends, yard, sight, cases, block)?;
    Ok(bound_below(bound, best))
}

/// Adds the next block to the children, where it is open.
fn offer(
    alloc: Global,
    instance: &Instance,
    ends: &Ends,
    yard: &Yard,
    sight: &Sight,
    cases: &Cases,
    block: &Block,
    best: u64,
    children: &mut Vec<Child>,
) -> Result<(), AllocError>
    requires yard { IsYard instance.now yard.now }
    requires ends { AreEnds instance.now ends.now }
    requires sight { IsSight instance.now yard.now cases.now sight.now }
    requires cases { AreCases instance.now cases.now }
    requires next { IsNextBlock instance.now yard.now.path.blocks block.now }
    requires best { best ≤ 1000000000000 }
    ensures { OnOk result (IsTried Stacks instance.now yard.now.path.blocks cases.now best block.now
        children.old.items children.new.items) }
{
    let found = open_bound(alloc, instance, ends, yard, sight, cases, block, best)?;
    if let Some(bound) = found {
        children.push(Child {
            block: *block,
            bound,
        })?;
    }
    Ok(())
}

/// Of these next blocks those that are open by cases with stacks. Err is want of memory.
pub(crate) fn open_with_stacks(
    alloc: Global,
    instance: &Instance,
    ends: &Ends,
    yard: &Yard,
    cases: &Cases,
    best: u64,
    blocks: &[Block],
) -> Result<Vec<Child>, AllocError>
    requires yard { IsYard instance.now yard.now }
    requires ends { AreEnds instance.now ends.now }
    requires next { All (IsNextBlock instance.now yard.now.path.blocks) blocks.now }
    requires cases { AreCases instance.now cases.now }
    requires best { best ≤ 1000000000000 }
    ensures { IfOk result (λ v. AreOpen Stacks instance.now yard.now.path.blocks cases.now best
        (map choice_of blocks.now) v.items) }
{
    let sight = sight_at(alloc, instance, ends, yard, cases)?;
    let mut children = Vec::new(alloc);
    for block in blocks {
        offer(
            alloc,
            instance,
            ends,
            yard,
            &sight,
            cases,
            block,
            best,
            &mut children,
        )?;
    }
    Ok(children)
}
