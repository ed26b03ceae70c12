// The search in memory: first a few nodes by prices, and where these leave something open all that are allowed, with stacks.
ghost use Rattle.std.specs.Prelude.{◌≡◌, ◌⊎◌, ℕ, ◌<◌, ◌≤◌, ◌≤ℤ◌, Some, length, IfOk, OnOk, IfSome};
ghost use Rattle.std.specs.Prelude.{IsErrOf};
ghost use Rattle.shunt_blocks.specs.defs.Lists.{IsFeasible, units_taken, positions_taken};
ghost use Rattle.shunt_blocks.specs.defs.Lists.{total_cost};
ghost use Rattle.shunt_blocks.specs.defs.Pins.{AreUsable, Keeps};
ghost use Rattle.shunt_matching.specs.declared.types.Shortage.{Shortage as OneShortage};
ghost use Rattle.shunt_matching.specs.defs.Nights.{IsShortageOf};
ghost use Rattle.shunt_proof.specs.declared.records.Version.TheVariants.{Prices, Stacks};
ghost use Rattle.shunt_proof.specs.defs.Certificates.{case_total};
ghost use Rattle.shunt_search.specs.defs.Judges.{version_of, IsJudge};
ghost use Rattle.shunt_search.specs.defs.SearchStates.{IsSearch, IsFresh, IsGround};
ghost use Rattle.shunt_search.specs.defs.Endings.{IsDone};
ghost use Rattle.shunt_search.specs.defs.Finding.{IsKept, IsFirst, IsFound};

use crate::attempts::walk_whole;
use crate::conclusion::{bound_left, searches_end};
use crate::judge::Guide;
use crate::known::KnownPlan;
use crate::preparation::prepare;
use crate::renewal::{prepare_by_prices, prepare_with_stacks, same_root, searches_renewed};
use crate::root_bounds::Root;
use crate::search_state::Search;
use crate::solved::SolveError;
use shunt_blocks::Block;
use shunt_instance::Instance;
use shunt_lists::Items;
use shunt_proof::{ListRecorder, Node, Recorder, Version};
use shunt_proposals::Proposer;
use std::alloc::Global;

/// So many nodes at most are by prices alone, before stacks are asked.
const FEW: u32 = 16;

/// How many nodes are by prices alone.
fn first_nodes(nodes: u32) -> u32
    ensures few { result ≤ 16 }
    ensures within { result ≤ nodes }
    ensures all { (result ≡ nodes) ⊎ (result ≡ 16) }
{
    if nodes < FEW { nodes } else { FEW }
}

/// A walk that is done, with its nodes in memory.
#[derive(Drop)]
pub struct KeptWalk {
    pub search: Search,
    pub nodes: Items<Node>,
    /// The version of a certificate that has these nodes.
    pub version: Version,
    /// The bound that it leaves, in cost units.
    pub bound: u64,
}

/// What a search found.
#[derive(Drop)]
pub struct Found {
    pub walk: KeptWalk,
    /// The bound that the first few nodes had left, in cost units.
    pub first: u64,
}

impl Found {
    /// The version of a certificate that has its nodes.
    pub fn version(&self) -> Version
        ensures { result ≡ self.now.walk.version }
    {
        self.walk.version
    }
}

/// Walks from the root, and keeps the nodes.
fn kept_nodes(
    alloc: Global,
    instance: &Instance,
    pins: &[Block],
    guide: &Guide,
    nodes: u32,
    search: &mut Search,
) -> Result<Items<Node>, SolveError>
    requires judge { IsJudge instance.now guide.now.judge }
    requires fresh { IsFresh
        (version_of guide.now.judge) instance.now pins.now guide.now.tree.stock.items search.old }
    requires some { 1 ≤ nodes }
    requires few { nodes ≤ 5000 }
    ensures search { IfOk result (λ ns. IsSearch
        (version_of guide.now.judge) instance.now pins.now guide.now.tree.stock.items (Some ns)
        (length ns) (case_total ns) search.new.waiting.items search.new) }
    ensures most { IfOk result (λ ns. length ns ≤ nodes) }
    ensures done { IfOk result (λ ns. IsDone
        (length ns) nodes search.new.waiting.items search.new.known.cost search.new.low) }
    ensures cheaper { OnOk result (search.new.known.cost ≤ search.old.known.cost) }
    ensures floor { OnOk result (search.new.floor ≡ search.old.floor) }
    ensures no_matching { (s : OneShortage) → IsErrOf result (SolveError.NoMatching s) → ⊥ }
    ensures no_fault { IsErrOf result SolveError.Recorder → ⊥ }
{
    let mut list = ListRecorder::new(alloc, guide.judge.version());
    walk_whole(alloc, instance, pins, guide, nodes, search, &mut list)?;
    list.finish(0, 0)?;
    Ok(list.certificate().nodes)
}

/// A walk from the root by a guide, with at most so many nodes.
fn keep_walk(
    alloc: Global,
    instance: &Instance,
    pins: &[Block],
    nodes: u32,
    guide: &Guide,
    search: Search,
) -> Result<KeptWalk, SolveError>
    requires judge { IsJudge instance.now guide.now.judge }
    requires fresh { IsFresh
        (version_of guide.now.judge) instance.now pins.now guide.now.tree.stock.items search }
    requires some { 1 ≤ nodes }
    requires few { nodes ≤ 5000 }
    ensures kept { IfOk result (IsKept instance.now pins.now nodes) }
    ensures version { IfOk result (λ w. w.version ≡ version_of guide.now.judge) }
    ensures search { IfOk result
        (λ w. IsSearch (version_of guide.now.judge) instance.now pins.now guide.now.tree.stock.items
        (Some w.nodes) (length w.nodes) (case_total w.nodes) w.search.waiting.items w.search) }
    ensures floor { IfOk result (λ w. w.search.floor ≡ search.floor) }
    ensures cheaper { IfOk result (λ w. w.search.known.cost ≤ search.known.cost) }
    ensures no_matching { (s : OneShortage) → IsErrOf result (SolveError.NoMatching s) → ⊥ }
    ensures no_fault { IsErrOf result SolveError.Recorder → ⊥ }
{
    // The calls tell that the bound isn't negative.
    searches_end();
    instance.units();
    let mut search = search;
    let noted = kept_nodes(alloc, instance, pins, guide, nodes, &mut search)?;
    let bound = bound_left(&search);
    Ok(KeptWalk {
        search,
        nodes: noted,
        version: guide.judge.version(),
        bound,
    })
}

/// A walk by prices with at most so many nodes, whose plan costs no more than the one that is given, if there is one, what it went by, and what its
/// root's cases came from. NoMatching comes exactly when what the pins leave has no matching, unless memory runs out first.
fn walk_by_prices<P: Proposer>(
    alloc: Global,
    instance: &Instance,
    pins: &[Block],
    given: Option<&[Block]>,
    nodes: u32,
) -> Result<(KeptWalk, Guide, P), SolveError>
    requires usable { AreUsable instance.now pins.now }
    requires feasible { IfSome given (λ p. IsFeasible instance.now p.now) }
    requires keeps { IfSome given (λ p. Keeps p.now pins.now) }
    requires some { 1 ≤ nodes }
    requires few { nodes ≤ 5000 }
    ensures kept { IfOk result (λ w. IsKept instance.now pins.now nodes w.0) }
    ensures version { IfOk result (λ w. w.0.version ≡ Prices) }
    ensures search { IfOk result
        (λ w. IsSearch Prices instance.now pins.now w.1.tree.stock.items (Some w.0.nodes)
        (length w.0.nodes) (case_total w.0.nodes) w.0.search.waiting.items w.0.search) }
    ensures never_worse { IfOk result
        (λ w. IfSome given.entry (λ p. w.0.search.known.cost ≤ total_cost instance.now p.now)) }
    ensures exact { (s : OneShortage) → IsErrOf result (SolveError.NoMatching s) → IsShortageOf
        instance.now (units_taken instance.now pins.now) (positions_taken instance.now pins.now) s }
    ensures only { (s : OneShortage) → IsShortageOf instance.now (units_taken instance.now pins.now)
        (positions_taken instance.now pins.now) s
        → IsErrOf result (SolveError.NoMatching s) ⊎ IsErrOf result SolveError.Memory }
    ensures no_fault { IsErrOf result SolveError.Recorder → ⊥ }
{
    let (search, guide, proposal) = prepare::<P>(alloc, instance, pins, given, nodes)?;
    let walk = keep_walk(alloc, instance, pins, nodes, &guide, search)?;
    Ok((walk, guide, proposal))
}

/// A walk by prices again, from the same root on, with the plan that is known. NoMatching comes never.
fn find_by_prices<P: Proposer>(
    alloc: Global,
    instance: &Instance,
    pins: &[Block],
    nodes: u32,
    proposal: &P,
    root: Root,
    known: KnownPlan,
) -> Result<KeptWalk, SolveError>
    requires ground { IsGround instance.now pins.now root known }
    requires some { 1 ≤ nodes }
    requires few { nodes ≤ 5000 }
    ensures kept { IfOk result (IsKept instance.now pins.now nodes) }
    ensures version { IfOk result (λ w. w.version ≡ Prices) }
    ensures floor { IfOk result (λ w. w.search.floor ≡ root.floor) }
    ensures cheaper { IfOk result (λ w. w.search.known.cost ≤ known.cost) }
    ensures no_matching { (s : OneShortage) → IsErrOf result (SolveError.NoMatching s) → ⊥ }
    ensures no_fault { IsErrOf result SolveError.Recorder → ⊥ }
{
    let (search, guide) = prepare_by_prices(alloc, instance, pins, nodes, proposal, root, known)?;
    let walk = keep_walk(alloc, instance, pins, nodes, &guide, search)?;
    Ok(walk)
}

/// A walk with stacks, from the root of one by prices on, with the plan that is known. NoMatching comes never.
fn find_with_stacks<P: Proposer>(
    alloc: Global,
    instance: &Instance,
    pins: &[Block],
    nodes: u32,
    proposal: &P,
    root: Root,
    known: KnownPlan,
) -> Result<KeptWalk, SolveError>
    requires ground { IsGround instance.now pins.now root known }
    requires some { 1 ≤ nodes }
    requires few { nodes ≤ 5000 }
    ensures kept { IfOk result (IsKept instance.now pins.now nodes) }
    ensures version { IfOk result (λ w. w.version ≡ Stacks) }
    ensures floor { IfOk result (λ w. root.floor ≤ℤ w.search.floor) }
    ensures cheaper { IfOk result (λ w. w.search.known.cost ≤ known.cost) }
    ensures no_matching { (s : OneShortage) → IsErrOf result (SolveError.NoMatching s) → ⊥ }
    ensures no_fault { IsErrOf result SolveError.Recorder → ⊥ }
{
    let (search, guide) = prepare_with_stacks(alloc, instance, pins, nodes, proposal, root, known)?;
    let walk = keep_walk(alloc, instance, pins, nodes, &guide, search)?;
    Ok(walk)
}

/// A walk with all nodes that are allowed, behind a first one by prices that left something open, with what that one went by, and what its
/// root's cases came from: one with stacks, or by prices where stacks bounded less than the first one. NoMatching comes never.
fn find_more<P: Proposer>(
    alloc: Global,
    instance: &Instance,
    pins: &[Block],
    nodes: u32,
    guide: &Guide,
    proposal: &P,
    first: KeptWalk,
) -> Result<Found, SolveError>
    requires search { IsSearch Prices instance.now pins.now guide.now.tree.stock.items
        (Some first.nodes) (length first.nodes)
        (case_total first.nodes) first.search.waiting.items first.search }
    requires first { IsFirst instance.now pins.now nodes first }
    requires many { 16 < nodes }
    requires few { nodes ≤ 5000 }
    ensures found { IfOk result (IsFound instance.now pins.now nodes) }
    ensures cheaper { IfOk result (λ f. f.walk.search.known.cost ≤ first.search.known.cost) }
    ensures no_matching { (s : OneShortage) → IsErrOf result (SolveError.NoMatching s) → ⊥ }
    ensures no_fault { IsErrOf result SolveError.Recorder → ⊥ }
{
    // The call tells that the root and the plans can be begun with again.
    searches_renewed();
    let least = first.bound;
    let search = first.search;
    let root = same_root(alloc, &guide.tree, &search)?;
    let other = same_root(alloc, &guide.tree, &search)?;
    let plan = search.known;
    let walk = find_with_stacks(alloc, instance, pins, nodes, proposal, root, plan)?;
    if walk.bound >= least {
        return Ok(Found { walk, first: least });
    }
    let ended = walk.search;
    let better = ended.known;
    let last = find_by_prices(alloc, instance, pins, nodes, proposal, other, better)?;
    Ok(Found {
        walk: last,
        first: least,
    })
}

/// Searches for a cheap plan that keeps pins, which costs no more than the one that is given, if there is one, and keeps the nodes of a tree
/// in memory that proves a bound on every such plan: 16 nodes at most by prices, and where these leave something open all that are allowed,
/// with stacks. Where these bound less than the first 16, it goes back to prices.
///
/// The pins are usable, the plan that is given is feasible and keeps them, and `nodes` is from 1 to 5,000. `P` is what proposes; all that it
/// proposes is judged. NoMatching comes exactly when what the pins leave has no matching, unless memory runs out first, and Recorder never.
pub fn find<P: Proposer>(
    alloc: Global,
    instance: &Instance,
    pins: &[Block],
    given: Option<&[Block]>,
    nodes: u32,
) -> Result<Found, SolveError>
    requires usable { AreUsable instance.now pins.now }
    requires feasible { IfSome given (λ p. IsFeasible instance.now p.now) }
    requires keeps { IfSome given (λ p. Keeps p.now pins.now) }
    requires some { 1 ≤ nodes }
    requires few { nodes ≤ 5000 }
    ensures found { IfOk result (IsFound instance.now pins.now nodes) }
    ensures never_worse { IfOk result
        (λ f. IfSome given.entry (λ p. f.walk.search.known.cost ≤ total_cost instance.now p.now)) }
    ensures exact { (s : OneShortage) → IsErrOf result (SolveError.NoMatching s) → IsShortageOf
        instance.now (units_taken instance.now pins.now) (positions_taken instance.now pins.now) s }
    ensures only { (s : OneShortage) → IsShortageOf instance.now (units_taken instance.now pins.now)
        (positions_taken instance.now pins.now) s
        → IsErrOf result (SolveError.NoMatching s) ⊎ IsErrOf result SolveError.Memory }
    ensures no_fault { IsErrOf result SolveError.Recorder → ⊥ }
{
    let few = first_nodes(nodes);
    let (walk, guide, proposal) = walk_by_prices::<P>(alloc, instance, pins, given, few)?;
    let first = walk.bound;
    if nodes <= FEW {
        return Ok(Found { walk, first });
    }
    if first >= walk.search.known.cost {
        return Ok(Found { walk, first });
    }
    let found = find_more(alloc, instance, pins, nodes, &guide, &proposal, walk)?;
    Ok(found)
}
