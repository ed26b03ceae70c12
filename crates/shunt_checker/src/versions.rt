// Bounds in either version.
ghost use Rattle.std.specs.Prelude.{◌≡◌, ◌<◌, ◌++◌, [], ◌∷◌, List, IfOk, All, Some, length};
ghost use Rattle.shunt_blocks.specs.declared.records.Block.{Block as ABlock};
ghost use Rattle.shunt_blocks.specs.defs.Blocks.{IsBlockButId};
ghost use Rattle.shunt_blocks.specs.defs.Lists.{RunsThrough, placed};
ghost use Rattle.shunt_choices.specs.defs.Paths.{IsTrailOf, next_of};
ghost use Rattle.shunt_choices.specs.defs.Choices.{IsChoice, longer_by};
ghost use Rattle.shunt_prices.specs.defs.Limits.{AreCases};
ghost use Rattle.shunt_proof.specs.declared.records.Version.TheVariants.{Stacks};
ghost use Rattle.shunt_proof.specs.defs.Versions.{IsBoundIn, IsStepBoundIn};
ghost use Rattle.shunt_checker.specs.defs.Tallies.{IsInWord, IsOneMore};

use crate::bounds::cases_bound;
use crate::leasts::{choice_bound, stack_bound};
use crate::node_choices::{next_block, push_offer};
use crate::offer::Offer;
use shunt_base::Cases;
use shunt_blocks::laws::{few_blocks, ids_do_not_matter};
use shunt_choices::Path;
use shunt_instance::Instance;
use shunt_proof::Version;
use shunt_proof::version_laws::bounds_by_version;
use std::alloc::{AllocError, Global};

/// The bound of a path by cases.
pub(crate) fn path_bound(
    alloc: Global,
    instance: &Instance,
    version: Version,
    path: &Path,
    cases: &Cases,
) -> Result<i64, AllocError>
    requires path { IsTrailOf instance.now path.now }
    requires through { RunsThrough instance.now (placed path.now.blocks) }
    requires each { All (IsBlockButId instance.now) path.now.blocks }
    requires cases { AreCases instance.now cases.now }
    ensures is { IfOk result (IsBoundIn version instance.now path.now.blocks cases.now) }
    ensures word { IfOk result IsInWord }
{
    match version {
        Version::Prices => Ok(cases_bound(instance, path, cases)),
        Version::Stacks => stack_bound(alloc, instance, path, cases),
    }
}

/// The bound with stacks of a path's last block, by the path before it. The path is then as it was.
fn last_bound(
    alloc: Global,
    instance: &Instance,
    path: &mut Path,
    cases: &Cases,
) -> Result<i64, AllocError>
    requires path { IsTrailOf instance.now path.old }
    requires some { path.old.pins < length path.old.blocks }
    requires more { (front : List ABlock) × IsOneMore instance.now front path.old.blocks }
    requires cases { AreCases instance.now cases.now }
    ensures bound { IfOk result (λ z. (front : List ABlock) (b : ABlock) → path.old.blocks ≡ front
        ++ b ∷ [] → IsStepBoundIn Stacks instance.now front path.old.blocks cases.now z) }
    ensures word { IfOk result IsInWord }
    ensures kept { path.new.blocks ≡ path.old.blocks }
    ensures of { IsTrailOf instance.now path.new }
    ensures pins { path.new.pins ≡ path.old.pins }
{
    // A part of a run that goes through goes through.
    instance.units();
    ids_do_not_matter();
    let Some(block) = path.pop(instance) else {
        unreachable!();
    };
    let bound = choice_bound(alloc, instance, path, cases, &block);
    path.push(instance, block);
    bound
}

/// The bound of a path's last block, by the path before it. The path is then as it was.
pub(crate) fn step_bound(
    alloc: Global,
    instance: &Instance,
    version: Version,
    path: &mut Path,
    cases: &Cases,
) -> Result<i64, AllocError>
    requires path { IsTrailOf instance.now path.old }
    requires some { path.old.pins < length path.old.blocks }
    requires more { (front : List ABlock) × IsOneMore instance.now front path.old.blocks }
    requires cases { AreCases instance.now cases.now }
    ensures bound { IfOk result (λ z. (front : List ABlock) (b : ABlock) → path.old.blocks ≡ front
        ++ b ∷ [] → IsStepBoundIn version instance.now front path.old.blocks cases.now z) }
    ensures word { IfOk result IsInWord }
    ensures kept { path.new.blocks ≡ path.old.blocks }
    ensures of { IsTrailOf instance.now path.new }
    ensures pins { path.new.pins ≡ path.old.pins }
{
    match version {
        Version::Prices => Ok(cases_bound(instance, path, cases)),
        Version::Stacks => last_bound(alloc, instance, path, cases),
    }
}

/// The bound with stacks of a choice at a path.
fn offer_choice_bound(
    alloc: Global,
    instance: &Instance,
    path: &Path,
    cases: &Cases,
    u: usize,
    offer: Offer,
) -> Result<i64, AllocError>
    requires path { IsTrailOf instance.now path.now }
    requires through { RunsThrough instance.now (placed path.now.blocks) }
    requires each { All (IsBlockButId instance.now) path.now.blocks }
    requires cases { AreCases instance.now cases.now }
    requires there { IsChoice instance.now path.now.covered u offer }
    requires longer { RunsThrough instance.now (placed (longer_by path.now.blocks offer)) }
    ensures word { IfOk result IsInWord }
    ensures is { IfOk result (IsStepBoundIn Stacks instance.now path.now.blocks
        (longer_by path.now.blocks offer) cases.now) }
{
    // There are at most 160 units, and blocks that share nothing are no more.
    instance.units();
    few_blocks();
    bounds_by_version();
    let block = next_block(path, offer);
    choice_bound(alloc, instance, path, cases, &block)
}

/// The bound of a choice at a path. The path may then have its block.
pub(crate) fn offer_bound(
    alloc: Global,
    instance: &Instance,
    version: Version,
    path: &mut Path,
    cases: &Cases,
    u: usize,
    offer: Offer,
) -> Result<i64, AllocError>
    requires path { IsTrailOf instance.now path.old }
    requires through { RunsThrough instance.now (placed path.old.blocks) }
    requires each { All (IsBlockButId instance.now) path.old.blocks }
    requires cases { AreCases instance.now cases.now }
    requires next { next_of path.old.covered ≡ Some u }
    requires there { IsChoice instance.now path.old.covered u offer }
    requires longer { RunsThrough instance.now (placed (longer_by path.old.blocks offer)) }
    ensures word { IfOk result IsInWord }
    ensures is { IfOk result (IsStepBoundIn version instance.now path.old.blocks
        (longer_by path.old.blocks offer) cases.now) }
{
    match version {
        Version::Prices => {
            push_offer(instance, path, u, offer);
            Ok(cases_bound(instance, path, cases))
        }
        Version::Stacks => offer_choice_bound(alloc, instance, path, cases, u, offer),
    }
}
