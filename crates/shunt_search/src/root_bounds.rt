// The cases at the root of a tree: those that are proposed, or the duals of the assignment with higher prices.
ghost use Rattle.std.specs.Prelude.{◌≡◌, ◌++◌, [], ℕ, ◌<◌, ◌≤◌, ℤ, pos, ◌≤ℤ◌, List, length, All};
ghost use Rattle.std.specs.Prelude.{IfOk, IfSome};
ghost use Rattle.shunt_base.specs.declared.duals.Duals.{Duals as SomeDuals};
ghost use Rattle.shunt_base.specs.declared.duals.Case.{Case as OneCase};
ghost use Rattle.shunt_instance.specs.defs.Instance.{Night, IsInstance};
ghost use Rattle.shunt_blocks.specs.declared.records.Block.{Block as OneBlock};
ghost use Rattle.shunt_blocks.specs.defs.Blocks.{IsBlockButId};
ghost use Rattle.shunt_blocks.specs.defs.Lists.{ShareNothing, RunsThrough, placed};
ghost use Rattle.shunt_choices.specs.defs.Paths.{IsTrailOf};
ghost use Rattle.shunt_matching.specs.defs.Nights.{Matches};
ghost use Rattle.shunt_prices.specs.defs.Limits.{AreDuals, AreApart, AreCases, plain};
ghost use Rattle.shunt_prices.specs.defs.Cases.{CasesHold, DualsHold};
ghost use Rattle.shunt_prices.specs.defs.Bounds.{IsBoundOf, IsCasesBound, case_sum, duals_sum};
ghost use Rattle.shunt_dual.specs.defs.Assignments.{IsAssignmentBound};
ghost use Rattle.shunt_proof.specs.declared.records.Version.TheVariants.{Prices};
ghost use Rattle.shunt_search.specs.defs.Roots.{AreRooted, IsRoot};

use crate::known::KnownPlan;
use shunt_base::{Case, Cases};
use shunt_blocks::Block;
use shunt_blocks::laws::{ids_do_not_matter, places};
use shunt_choices::Path;
use shunt_dual::{assign, cases_bound, cases_hold, raise_prices, shares};
use shunt_instance::Instance;
use shunt_prices::laws::{bounds, bounds_rise, longer_paths, weak_duality};
use shunt_proposals::Proposer;
use std::alloc::{AllocError, Global};

/// Cases for the root of a tree, and the floor that the bounds of its children have to keep.
#[derive(Drop)]
pub struct Root {
    pub cases: Cases,
    /// Their bound of the root in cost units, at least the assignment bound.
    pub floor: i64,
}

impl Root {
    /// Its floor.
    pub(crate) fn floor(&self) -> i64
        ensures { result ≡ self.now.floor }
    {
        self.floor
    }
}

/// Cases that hold at a path hold at each longer one whose run goes through: at none of them a sum is less than at the empty path, and
/// no bound is less than before.
pub(crate) fn carried_cases()
    ensures sum { (night : Night) (path : List OneBlock) (cases : List OneCase) (k : ℕ)
        → IsInstance night → All (IsBlockButId night) path → ShareNothing night path
        → RunsThrough night (placed path) → CasesHold night [] cases → k < length cases
        → CasesHold night path cases × (case_sum night [] cases k ≤ℤ case_sum night path cases k) }
    ensures bound { (night : Night) (front rest : List OneBlock) (cases : List OneCase)
        (low high : ℤ) → IsInstance night → 1 ≤ length cases
        → All (IsBlockButId night) (front ++ rest) → ShareNothing night (front ++ rest)
        → RunsThrough night (placed (front ++ rest)) → CasesHold night front cases
        → IsCasesBound night front cases low → IsCasesBound night (front ++ rest) cases high
        → low ≤ℤ high }
{
    places();
    ids_do_not_matter();
    longer_paths();
    bounds_rise();
    bounds();
}

/// Duals that hold at a path are cases for a root there, where their sum is at least what is rounded to the assignment bound.
fn rooted_duals()
    ensures { (night : Night) (path : List OneBlock) (d : SomeDuals) (total : ℕ) → AreDuals night d
        → AreApart d.prices → DualsHold night path d → pos total ≤ℤ duals_sum night path d
        → ((b : ℕ) → IsBoundOf (pos total) (pos b) → IsAssignmentBound night b)
        → AreRooted Prices night path (plain d) }
{
    bounds();
    weak_duality();
}

/// The duals of the assignment, as cases for a root. It needs that there is a matching. Err is want of memory.
fn assigned_cases(alloc: Global, instance: &Instance, path: &Path) -> Result<Cases, AllocError>
    requires path { IsTrailOf instance.now path.now }
    requires each { All (IsBlockButId instance.now) path.now.blocks }
    requires through { RunsThrough instance.now (placed path.now.blocks) }
    requires matching { (place : List ℕ) × Matches instance.now place }
    ensures { IfOk result (AreRooted Prices instance.now path.now.blocks) }
{
    // The calls tell that the duals hold at the path too, and that they are cases for a root.
    carried_cases();
    rooted_duals();
    instance.units();
    let table = shares(alloc, instance)?;
    let assigned = assign(alloc, instance, &table)?;
    Ok(Cases::one(Case {
        to: 160,
        multiplier: 0,
        duals: assigned.duals,
    }))
}

/// The same with higher prices.
fn raised_cases(alloc: Global, instance: &Instance, path: &Path) -> Result<Cases, AllocError>
    requires path { IsTrailOf instance.now path.now }
    requires each { All (IsBlockButId instance.now) path.now.blocks }
    requires through { RunsThrough instance.now (placed path.now.blocks) }
    requires matching { (place : List ℕ) × Matches instance.now place }
    ensures { IfOk result (AreRooted Prices instance.now path.now.blocks) }
{
    // The calls tell that the duals hold at the path too, and that they are cases for a root.
    carried_cases();
    rooted_duals();
    instance.units();
    let table = shares(alloc, instance)?;
    let assigned = assign(alloc, instance, &table)?;
    let duals = raise_prices(alloc, instance, path, &assigned.duals)?;
    Ok(Cases::one(Case {
        to: 160,
        multiplier: 0,
        duals,
    }))
}

/// Cases for a root, with their bound of its path as the floor.
fn root_of(instance: &Instance, path: &Path, cases: Cases) -> Root
    requires path { IsTrailOf instance.now path.now }
    requires cases { AreRooted Prices instance.now path.now.blocks cases }
    ensures { IsRoot Prices instance.now path.now.blocks result }
{
    Root {
        floor: cases_bound(instance, path, &cases),
        cases,
    }
}

/// What is proposed, as cases for a root, where it holds at a path and bounds it no less than the floor of others there.
fn if_better(instance: &Instance, path: &Path, known: Root, proposed: Cases) -> Option<Root>
    requires path { IsTrailOf instance.now path.now }
    requires known { IsRoot Prices instance.now path.now.blocks known }
    requires cases { AreCases instance.now proposed }
    requires apart { All (λ c. AreApart c.duals.prices) proposed }
    ensures { IfSome result (IsRoot Prices instance.now path.now.blocks) }
{
    // The call tells that a path has one bound by cases.
    bounds();
    if !cases_hold(instance, path, &proposed) {
        return None;
    }
    let more = cases_bound(instance, path, &proposed);
    if more < known.floor {
        return None;
    }
    Some(Root {
        cases: proposed,
        floor: more,
    })
}

/// How many of a plan's blocks are unparked, and 160 where there are more.
pub(crate) fn unparked_in(blocks: &[Block]) -> u8 {
    let mut unparked = 0;
    for block in blocks {
        if block.park.is_none() && unparked < 160 {
            unparked += 1;
        }
    }
    unparked
}

/// Cases for the root of a tree, with their bound as the floor: those that are proposed, parted near the number of unparked blocks of a good
/// plan, where they bound no less than the duals of the assignment; or others where these bound less. It needs that there is a matching. Err is want of memory.
pub(crate) fn root_cases<P: Proposer>(
    alloc: Global,
    instance: &Instance,
    path: &Path,
    proposal: &P,
    plan: &KnownPlan,
) -> Result<Root, AllocError>
    requires path { IsTrailOf instance.now path.now }
    requires each { All (IsBlockButId instance.now) path.now.blocks }
    requires through { RunsThrough instance.now (placed path.now.blocks) }
    requires matching { (place : List ℕ) × Matches instance.now place }
    ensures { IfOk result (IsRoot Prices instance.now path.now.blocks) }
{
    let unparked = unparked_in(&plan.blocks);
    let proposed = proposal.parted(alloc, instance, unparked, plan.cost)?;
    let known = root_of(instance, path, assigned_cases(alloc, instance, path)?);
    if let Some(better) = if_better(instance, path, known, proposed) {
        return Ok(better);
    }
    let raised = raised_cases(alloc, instance, path)?;
    Ok(root_of(instance, path, raised))
}
