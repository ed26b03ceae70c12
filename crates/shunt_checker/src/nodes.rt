// What is the first to be wrong with a node at its path.
ghost use Rattle.std.specs.Prelude.{◌≡◌, ◌≢◌, ◌<◌, ◌≤◌, ◌≤ℤ◌, ◌<ℤ◌, ◌↔◌, IsTrue, IfOk, IfSome};
ghost use Rattle.std.specs.Prelude.{IfNone, All, Some, pos, length};
ghost use Rattle.shunt_blocks.specs.defs.Shapes.{IsWithinTrains, AreRunsWithin, IsOnTrack};
ghost use Rattle.shunt_blocks.specs.defs.Blocks.{IsBlockButId};
ghost use Rattle.shunt_blocks.specs.defs.Lists.{RunsThrough, placed, total_cost};
ghost use Rattle.shunt_choices.specs.defs.Paths.{IsTrailOf, next_of};
ghost use Rattle.shunt_choices.specs.defs.Choices.{chosen};
ghost use Rattle.shunt_prices.specs.defs.Limits.{AreCases, case_at};
ghost use Rattle.shunt_prices.specs.defs.Cases.{weight_with, duals_over};
ghost use Rattle.shunt_proof.specs.declared.records.NodeKind.TheVariants as shows;
ghost use Rattle.shunt_proof.specs.declared.records.Version.TheVariants.{Prices, Stacks};
ghost use Rattle.shunt_proof.specs.defs.Nodes.{node_at, AreNodes};
ghost use Rattle.shunt_proof.specs.defs.Trees.{duals_at};
ghost use Rattle.shunt_proof.specs.defs.Versions.{HoldIn};
ghost use Rattle.shunt_checker.specs.declared.verdict.Reason.TheVariants as reason;
ghost use Rattle.shunt_checker.specs.defs.Firsts.{Finds};
ghost use Rattle.shunt_checker.specs.defs.Searches.{IsOneAt};
ghost use Rattle.shunt_checker.specs.defs.Misses.{IsMissed};
ghost use Rattle.shunt_checker.specs.defs.NodeFaults.{IsOtherKind, EarlierChoice};
ghost use Rattle.shunt_checker.specs.defs.NodeSteps.{Judges};

use crate::bounds::{case_sum, unparked_in, weight};
use crate::cases::{Break, case_in, first_break, offer_in};
use crate::missed_choices::{Branch, first_missed};
use crate::node_choices::stated_in;
use crate::offer::{Offer, block_in, shape_in};
use crate::omissions::first_omitted;
use crate::prices::sum_over;
use crate::verdict::Reason;
use crate::versions::{offer_bound, path_bound};
use shunt_base::Cases;
use shunt_blocks::laws::{few_blocks, places};
use shunt_blocks::{Block, block_cost};
use shunt_choices::Path;
use shunt_instance::Instance;
use shunt_prices::laws::bounds;
use shunt_proof::version_laws::bounds_by_version;
use shunt_proof::{Certificate, Node, NodeKind, Version};
use shunt_stacks::laws::one_gain;
use std::alloc::{AllocError, Global};

/// What the node with a number shows a bound by.
fn kind_at(nodes: &[Node], k: usize) -> NodeKind
    requires { k < length nodes.now }
    ensures { result ≡ (node_at nodes.now k).kind }
{
    nodes[k].kind
}

/// What a node of a certificate shows a bound by.
pub(crate) fn kind_of(certificate: &Certificate, k: usize) -> NodeKind
    requires { k < length certificate.now.nodes }
    ensures { result ≡ (node_at certificate.now.nodes k).kind }
{
    kind_at(certificate.nodes.as_slice(), k)
}

/// Whether a kind is that of whole paths.
pub(crate) fn is_whole(kind: NodeKind) -> bool
    ensures { IsTrue result ↔ (kind ≡ shows.Whole) }
{
    match kind {
        NodeKind::Whole => true,
        NodeKind::Leaf => false,
        NodeKind::Branch => false,
    }
}

/// Whether a node's kind isn't that of a path with this next unit.
fn is_other_kind(kind: NodeKind, next: Option<usize>) -> bool
    ensures { IsTrue result ↔ IsOtherKind kind next }
{
    match next {
        Some(_) => match kind {
            NodeKind::Whole => true,
            NodeKind::Leaf => false,
            NodeKind::Branch => false,
        },
        None => match kind {
            NodeKind::Whole => false,
            NodeKind::Leaf => true,
            NodeKind::Branch => true,
        },
    }
}

/// Whether a node's kind is that of its path.
pub(crate) fn kind_fault(
    instance: &Instance,
    certificate: &Certificate,
    k: usize,
    path: &Path,
) -> Option<Reason>
    requires there { k < length certificate.now.nodes }
    requires path { IsTrailOf instance.now path.now }
    ensures { Judges instance.now certificate.now k path.now.blocks 4 5 result }
{
    if is_other_kind(kind_of(certificate, k), path.next_unit()) {
        return Some(Reason::WrongKind);
    }
    None
}

/// What is told of a break.
fn break_reason(instance: &Instance, cases: &Cases, found: &Break) -> Reason
    requires cases { AreCases instance.now cases.now }
    requires there { found.now.case < length cases.now }
    requires within { AreRunsWithin instance.now found.now.offer.shape }
    requires track { IsOnTrack instance.now.station found.now.offer.option }
    ensures { result ≡ reason.DualBroken (chosen 0 found.now.offer) (weight_with instance.now
        (case_at cases.now found.now.case) found.now.offer.shape found.now.offer.option)
        (duals_over instance.now (case_at cases.now found.now.case).duals found.now.offer.shape) }
{
    let offer = offer_in(found);
    let case = cases.get(case_in(found));
    let block = block_in(0, offer);
    let shape = shape_in(offer);
    let cost = weight(instance, case, &block);
    let sum = sum_over(instance, &case.duals, shape);
    Reason::DualBroken { block, cost, sum }
}

/// Whether the duals of a node that isn't whole hold at its path. Cases that are known to hold there aren't tried again.
fn dual_fault(
    alloc: Global,
    instance: &Instance,
    certificate: &Certificate,
    k: usize,
    path: &Path,
    cases: &Cases,
    known: Option<&Cases>,
) -> Result<Option<Reason>, AllocError>
    requires there { k < length certificate.now.nodes }
    requires path { IsTrailOf instance.now path.now }
    requires kind { (node_at certificate.now.nodes k).kind ≢ shows.Whole }
    requires cases { AreCases instance.now cases.now }
    requires duals { cases.now ≡ duals_at certificate.now.nodes k }
    requires known { IfSome known
        (λ held. HoldIn certificate.now.version instance.now path.now.blocks held.now) }
    ensures { IfOk result (Judges instance.now certificate.now k path.now.blocks 5 6) }
{
    let version = certificate.version;
    let broken = first_break(alloc, instance, version, path.covered(), cases, known)?;
    let Some(found) = broken else {
        return Ok(None);
    };
    let reason = break_reason(instance, cases, &found);
    Ok(Some(reason))
}

/// What is told of a leaf's bound.
fn leaf_reason(bound: i64, stated: u64) -> Option<Reason>
    requires { stated ≤ 1000000000000 }
    ensures some { IfSome result
        (λ r. (bound <ℤ pos stated) × (r ≡ reason.LeafLow bound (pos stated))) }
    ensures none { IfNone result (pos stated ≤ℤ bound) }
{
    let stated = stated as i64;
    if bound < stated {
        return Some(Reason::LeafLow { bound, stated });
    }
    None
}

/// What is told of the cost of a whole path.
fn whole_reason(cost: u64, stated: u64) -> Option<Reason>
    requires cost { cost ≤ 1600000000 }
    requires stated { stated ≤ 1000000000000 }
    ensures some { IfSome result
        (λ r. (cost < stated) × (r ≡ reason.WholeLow (pos cost) (pos stated))) }
    ensures none { IfNone result (stated ≤ cost) }
{
    if cost < stated {
        return Some(Reason::WholeLow {
            cost: cost as i64,
            stated: stated as i64,
        });
    }
    None
}

/// What blocks cost together.
pub(crate) fn cost_of(instance: &Instance, blocks: &[Block]) -> u64
    requires few { length blocks.now ≤ 400 }
    requires each { All (IsWithinTrains instance.now) blocks.now }
    ensures exact { result ≡ total_cost instance.now blocks.now }
    ensures small { result ≤ 1600000000 }
{
    let mut sum = 0;
    for block in blocks {
        sum += block_cost(instance, block);
    }
    sum
}

/// What a path costs.
pub(crate) fn path_cost(instance: &Instance, path: &Path) -> u64
    requires { IsTrailOf instance.now path.now }
    ensures exact { result ≡ total_cost instance.now path.now.blocks }
    ensures small { result ≤ 1600000000 }
{
    // There are at most 160 units, and blocks that share nothing are no more.
    instance.units();
    few_blocks();
    cost_of(instance, path.blocks())
}

/// What is wrong with a whole path of a certificate, but for its kind.
pub(crate) fn whole_fault(
    instance: &Instance,
    certificate: &Certificate,
    k: usize,
    path: &Path,
) -> Option<Reason>
    requires path { IsTrailOf instance.now path.now }
    requires kind { (node_at certificate.now.nodes k).kind ≡ shows.Whole }
    requires bound { certificate.now.bound ≤ 1000000000000 }
    ensures { Judges instance.now certificate.now k path.now.blocks 5 8 result }
{
    whole_reason(path_cost(instance, path), certificate.bound)
}

/// What is wrong with a leaf whose duals hold, but for its kind.
fn leaf_fault(
    alloc: Global,
    instance: &Instance,
    certificate: &Certificate,
    k: usize,
    path: &Path,
    cases: &Cases,
) -> Result<Option<Reason>, AllocError>
    requires path { IsTrailOf instance.now path.now }
    requires through { RunsThrough instance.now (placed path.now.blocks) }
    requires each { All (IsBlockButId instance.now) path.now.blocks }
    requires kind { (node_at certificate.now.nodes k).kind ≡ shows.Leaf }
    requires cases { AreCases instance.now cases.now }
    requires duals { cases.now ≡ duals_at certificate.now.nodes k }
    requires bound { certificate.now.bound ≤ 1000000000000 }
    ensures { IfOk result (Judges instance.now certificate.now k path.now.blocks 6 8) }
{
    // A path has at most one bound.
    bounds_by_version();
    let bound = path_bound(alloc, instance, certificate.version, path, cases)?;
    Ok(leaf_reason(bound, certificate.bound))
}

/// The first choice at a branch's path, whose next unit this is, that the branch would have to list by prices and doesn't.
fn missed_by_prices(
    alloc: Global,
    instance: &Instance,
    certificate: &Certificate,
    k: usize,
    path: &Path,
    cases: &Cases,
    u: usize,
) -> Result<Option<Offer>, AllocError>
    requires there { k < length certificate.now.nodes }
    requires nodes { AreNodes instance.now certificate.now.nodes }
    requires path { IsTrailOf instance.now path.now }
    requires cases { AreCases instance.now cases.now }
    requires bound { certificate.now.bound ≤ 1000000000000 }
    requires next { next_of path.now.covered ≡ Some u }
    ensures { IfOk result
        (Finds (IsOneAt instance.now path.now.covered (IsMissed Prices instance.now path.now.blocks
        cases.now certificate.now.nodes k certificate.now.bound) u) (EarlierChoice instance.now)) }
{
    // There are at most 160 units, and blocks that share nothing are no more.
    instance.units();
    few_blocks();
    let unparked = unparked_in(path.blocks());
    let last = cases.len() - 1;
    let first_sum = case_sum(instance, path, cases, 0);
    let last_sum = case_sum(instance, path, cases, last);
    let branch = Branch {
        path,
        unparked,
        cases,
        last,
        first_sum,
        last_sum,
        nodes: certificate.nodes.as_slice(),
        node: k,
        stated: certificate.bound,
    };
    first_missed(alloc, instance, &branch, u)
}

/// The same with stacks.
fn missed_by_stacks(
    alloc: Global,
    instance: &Instance,
    certificate: &Certificate,
    k: usize,
    path: &Path,
    cases: &Cases,
    u: usize,
) -> Result<Option<Offer>, AllocError>
    requires there { k < length certificate.now.nodes }
    requires nodes { AreNodes instance.now certificate.now.nodes }
    requires path { IsTrailOf instance.now path.now }
    requires through { RunsThrough instance.now (placed path.now.blocks) }
    requires each { All (IsBlockButId instance.now) path.now.blocks }
    requires cases { AreCases instance.now cases.now }
    requires bound { certificate.now.bound ≤ 1000000000000 }
    requires next { next_of path.now.covered ≡ Some u }
    ensures { IfOk result
        (Finds (IsOneAt instance.now path.now.covered (IsMissed Stacks instance.now path.now.blocks
        cases.now certificate.now.nodes k certificate.now.bound) u) (EarlierChoice instance.now)) }
{
    let nodes = certificate.nodes.as_slice();
    first_omitted(alloc, instance, path, cases, nodes, k, certificate.bound, u)
}

/// The same in the certificate's version.
fn missed_at(
    alloc: Global,
    instance: &Instance,
    certificate: &Certificate,
    k: usize,
    path: &Path,
    cases: &Cases,
    u: usize,
) -> Result<Option<Offer>, AllocError>
    requires there { k < length certificate.now.nodes }
    requires nodes { AreNodes instance.now certificate.now.nodes }
    requires path { IsTrailOf instance.now path.now }
    requires through { RunsThrough instance.now (placed path.now.blocks) }
    requires each { All (IsBlockButId instance.now) path.now.blocks }
    requires cases { AreCases instance.now cases.now }
    requires bound { certificate.now.bound ≤ 1000000000000 }
    requires next { next_of path.now.covered ≡ Some u }
    ensures { IfOk result (Finds (IsOneAt instance.now path.now.covered
        (IsMissed certificate.now.version instance.now path.now.blocks cases.now
        certificate.now.nodes k certificate.now.bound) u) (EarlierChoice instance.now)) }
{
    match certificate.version {
        Version::Prices => missed_by_prices(alloc, instance, certificate, k, path, cases, u),
        Version::Stacks => missed_by_stacks(alloc, instance, certificate, k, path, cases, u),
    }
}

/// What is wrong with a branch whose duals hold, but for its kind. Where something is, the path may have the missing choice's block.
fn branch_fault(
    alloc: Global,
    instance: &Instance,
    certificate: &Certificate,
    k: usize,
    path: &mut Path,
    cases: &Cases,
) -> Result<Option<Reason>, AllocError>
    requires there { k < length certificate.now.nodes }
    requires nodes { AreNodes instance.now certificate.now.nodes }
    requires path { IsTrailOf instance.now path.old }
    requires through { RunsThrough instance.now (placed path.old.blocks) }
    requires each { All (IsBlockButId instance.now) path.old.blocks }
    requires kind { (node_at certificate.now.nodes k).kind ≡ shows.Branch }
    requires cases { AreCases instance.now cases.now }
    requires duals { cases.now ≡ duals_at certificate.now.nodes k }
    requires bound { certificate.now.bound ≤ 1000000000000 }
    ensures found { IfOk result (Judges instance.now certificate.now k path.old.blocks 6 8) }
    ensures kept { IfOk result (λ r. IfNone r (path.new ≡ path.old)) }
{
    // The units of a shape are those of its train from its place on, each sum has a bound, and a choice has one sum.
    places();
    bounds();
    bounds_by_version();
    one_gain();
    let Some(u) = path.next_unit() else {
        return Ok(None);
    };
    let missed = missed_at(alloc, instance, certificate, k, path, cases, u)?;
    let Some(offer) = missed else {
        return Ok(None);
    };
    let choice = stated_in(offer);
    let bound = offer_bound(alloc, instance, certificate.version, path, cases, u, offer)?;
    Ok(Some(Reason::ChildMissing { choice, bound }))
}

/// What is wrong with a leaf or a branch, but for its kind. Where something is, the path may be longer by a block.
pub(crate) fn shown_fault(
    alloc: Global,
    instance: &Instance,
    certificate: &Certificate,
    k: usize,
    path: &mut Path,
    cases: &Cases,
    known: Option<&Cases>,
) -> Result<Option<Reason>, AllocError>
    requires there { k < length certificate.now.nodes }
    requires nodes { AreNodes instance.now certificate.now.nodes }
    requires path { IsTrailOf instance.now path.old }
    requires through { RunsThrough instance.now (placed path.old.blocks) }
    requires each { All (IsBlockButId instance.now) path.old.blocks }
    requires kind { (node_at certificate.now.nodes k).kind ≢ shows.Whole }
    requires cases { AreCases instance.now cases.now }
    requires duals { cases.now ≡ duals_at certificate.now.nodes k }
    requires known { IfSome known
        (λ held. HoldIn certificate.now.version instance.now path.old.blocks held.now) }
    requires bound { certificate.now.bound ≤ 1000000000000 }
    ensures found { IfOk result (Judges instance.now certificate.now k path.old.blocks 5 8) }
    ensures kept { IfOk result (λ r. IfNone r (path.new ≡ path.old)) }
{
    let broken = dual_fault(alloc, instance, certificate, k, path, cases, known)?;
    if let Some(reason) = broken {
        return Ok(Some(reason));
    }
    match kind_of(certificate, k) {
        NodeKind::Leaf => leaf_fault(alloc, instance, certificate, k, path, cases),
        NodeKind::Branch => branch_fault(alloc, instance, certificate, k, path, cases),
        NodeKind::Whole => unreachable!(),
    }
}
