// A search that begins again, with stacks or by prices.
ghost use Rattle.std.specs.Prelude.{◌≡◌, ◌⊎◌, ℕ, ◌<◌, ◌≤◌, ◌≤ℤ◌, All, List, length, Option, IfOk};
ghost use Rattle.shunt_base.specs.declared.duals.Case.{Case as OneCase};
ghost use Rattle.shunt_instance.specs.defs.Instance.{Night, IsInstance};
ghost use Rattle.shunt_blocks.specs.declared.records.Block.{Block as OneBlock};
ghost use Rattle.shunt_prices.specs.defs.Limits.{AreApart, AreCases};
ghost use Rattle.shunt_proof.specs.declared.records.Node.{Node as OneNode};
ghost use Rattle.shunt_proof.specs.declared.records.Version.{Version as OneVersion};
ghost use Rattle.shunt_proof.specs.declared.records.Version.TheVariants.{Prices, Stacks};
ghost use Rattle.shunt_search.specs.declared.yard.Yard.{Yard as OneYard};
ghost use Rattle.shunt_search.specs.declared.known.KnownPlan.{KnownPlan as OneKnown};
ghost use Rattle.shunt_search.specs.declared.root_bounds.Root.{Root as OneRoot};
ghost use Rattle.shunt_search.specs.declared.search_state.Search.{Search as OneSearch};
ghost use Rattle.shunt_search.specs.defs.Judges.{version_of, AreEnds, IsJudge};
ghost use Rattle.shunt_search.specs.defs.Yards.{IsYard};
ghost use Rattle.shunt_search.specs.defs.Roots.{IsRoot};
ghost use Rattle.shunt_search.specs.defs.WalkStates.{cases_in, IsBest};
ghost use Rattle.shunt_search.specs.defs.SearchStates.{IsSearch, IsFresh, IsGround};

use crate::cheaper_plans::{guided_plan, rounds_with_stacks};
use crate::judge::{Ends, Guide, Judge};
use crate::known::KnownPlan;
use crate::notes::cases_in;
use crate::preparation::ready;
use crate::root_bounds::{Root, unparked_in};
use crate::search_state::Search;
use crate::sights::{bound_at, sums_at};
use crate::yard::{Yard, start};
use shunt_base::{Cases, copy_cases};
use shunt_blocks::Block;
use shunt_dual::stack_cases_hold;
use shunt_instance::Instance;
use shunt_proof::laws::{best_costs, starts};
use shunt_proof::version_laws::bounds_by_version;
use shunt_proposals::{ProposedTree, Proposer};
use std::alloc::{AllocError, Global};

/// What bounds a yard's path by prices does so with stacks.
fn roots_with_stacks()
    ensures { (night : Night) (y : OneYard) (r : OneRoot) → IsInstance night → IsYard night y
        → IsRoot Prices night y.path.blocks r → IsRoot Stacks night y.path.blocks r }
{
    shunt_stacks::laws::never_below_prices();
    bounds_by_version();
}

/// The root's cases of a search by prices, with its floor and its plan, can be begun with again; and so can its root with the plan of
/// another search.
pub(crate) fn searches_renewed()
    ensures root { (night : Night) (pins : List OneBlock) (stock : List (List OneCase))
        (told : Option (List OneNode)) (number owned : ℕ) (s : OneSearch) (r : OneRoot)
        → IsSearch Prices night pins stock told number owned s.waiting.items s
        → r.cases ≡ cases_in stock 0 → r.floor ≡ s.floor → IsGround night pins r s.known }
    ensures plan { (version : OneVersion) (night : Night) (pins : List OneBlock)
        (stock : List (List OneCase)) (told : Option (List OneNode)) (number owned : ℕ)
        (s : OneSearch) (r : OneRoot) (k : OneKnown)
        → IsSearch version night pins stock told number owned s.waiting.items s
        → IsGround night pins r k → IsGround night pins r s.known }
{
    best_costs();
    starts();
}

/// The root's cases of a search, with its floor. Err is want of memory.
pub(crate) fn same_root(
    alloc: Global,
    tree: &ProposedTree,
    search: &Search,
) -> Result<Root, AllocError>
    requires { 0 < length tree.now.stock.items }
    ensures cases { IfOk result (λ r. r.cases ≡ cases_in tree.now.stock.items 0) }
    ensures floor { IfOk result (λ r. r.floor ≡ search.now.floor) }
{
    let cases = copy_cases(alloc, cases_in(tree, 0))?;
    let floor = search.floor;
    Ok(Root { cases, floor })
}

/// These cases with their bound as the floor, where that is no less than another root's; else the other one.
fn higher_root(known: Root, cases: Cases, bound: i64) -> Root
    ensures { (result ≡ known)
        ⊎ ((result ≡ record { cases = cases; floor = bound }) × (known.floor ≤ℤ bound)) }
{
    if bound < known.floor {
        return known;
    }
    Root {
        cases,
        floor: bound,
    }
}

/// The same root for paths that are judged with stacks, or a better one: these cases, where they hold at the yard's path with stacks and
/// bound it no less. Err is want of memory.
fn better_root(
    alloc: Global,
    instance: &Instance,
    ends: &Ends,
    yard: &Yard,
    known: Root,
    proposed: Cases,
) -> Result<Root, AllocError>
    requires ends { AreEnds instance.now ends.now }
    requires yard { IsYard instance.now yard.now }
    requires known { IsRoot Prices instance.now yard.now.path.blocks known }
    requires cases { AreCases instance.now proposed }
    requires apart { All (λ c. AreApart c.duals.prices) proposed }
    ensures root { IfOk result (IsRoot Stacks instance.now yard.now.path.blocks) }
    ensures floor { IfOk result (λ r. known.floor ≤ℤ r.floor) }
{
    // The calls tell that the root is one with stacks too, and that a path has one bound by cases.
    roots_with_stacks();
    bounds_by_version();
    instance.units();
    if !stack_cases_hold(instance, &yard.path, &proposed) {
        return Ok(known);
    }
    let more = bound_at(alloc, instance, ends, yard, &proposed)?;
    Ok(higher_root(known, proposed, more))
}

/// A plan that costs no more than the known one, guided by the root's cases with stacks, unless these bound all plans by what that one
/// costs. Err is want of memory.
fn cheaper_plan<P: Proposer>(
    alloc: Global,
    instance: &Instance,
    pins: &[Block],
    ends: &Ends,
    yard: &Yard,
    root: &Root,
    known: KnownPlan,
) -> Result<KnownPlan, AllocError>
    requires ends { AreEnds instance.now ends.now }
    requires yard { IsYard instance.now yard.now }
    requires cases { AreCases instance.now root.now.cases }
    requires best { IsBest instance.now pins.now known.blocks.items known.cost }
    requires small { known.cost ≤ 1000000000000 }
    ensures best { IfOk result (λ k. IsBest instance.now pins.now k.blocks.items k.cost) }
    ensures cheaper { IfOk result (λ k. k.cost ≤ known.cost) }
{
    if root.floor >= known.cost as i64 {
        return Ok(known);
    }
    let grain = P::grain(alloc, instance)?;
    let rounds = rounds_with_stacks(instance.units() as u32);
    let sums = sums_at(alloc, instance, ends, yard, &root.cases)?;
    guided_plan(
        alloc,
        instance,
        pins,
        &root.cases,
        &sums,
        rounds,
        grain,
        &known,
    )
}

/// A search with stacks that is to begin with this root and this plan, or with better ones, and the tree of at most that many
/// nodes that it is to follow. Err is want of memory.
pub(crate) fn prepare_with_stacks<P: Proposer>(
    alloc: Global,
    instance: &Instance,
    pins: &[Block],
    nodes: u32,
    proposal: &P,
    root: Root,
    known: KnownPlan,
) -> Result<(Search, Guide), AllocError>
    requires { IsGround instance.now pins.now root known }
    ensures fresh { IfOk result
        (λ s. IsFresh (version_of s.1.judge) instance.now pins.now s.1.tree.stock.items s.0) }
    ensures version { IfOk result (λ s. version_of s.1.judge ≡ Stacks) }
    ensures judge { IfOk result (λ s. IsJudge instance.now s.1.judge) }
    ensures floor { IfOk result (λ s. root.floor ≤ℤ s.0.floor) }
    ensures cheaper { IfOk result (λ s. s.0.known.cost ≤ known.cost) }
{
    let yard = start(alloc, instance, pins)?;
    let ends = Ends::new(alloc, instance)?;
    let unparked = unparked_in(&known.blocks);
    let path = &yard.path;
    let proposed = proposal.with_stacks(alloc, instance, path, &root.cases, unparked, known.cost)?;
    let better = better_root(alloc, instance, &ends, &yard, root, proposed)?;
    let best = cheaper_plan::<P>(alloc, instance, pins, &ends, &yard, &better, known)?;
    let judge = Judge::Stacks(ends);
    let found = ready(
        alloc, instance, pins, nodes, yard, proposal, judge, better, best,
    )?;
    Ok(found)
}

/// A search by prices that is to begin with this root and this plan, and the tree of at most that many nodes that it is to follow. Err is
/// want of memory.
pub(crate) fn prepare_by_prices<P: Proposer>(
    alloc: Global,
    instance: &Instance,
    pins: &[Block],
    nodes: u32,
    proposal: &P,
    root: Root,
    known: KnownPlan,
) -> Result<(Search, Guide), AllocError>
    requires { IsGround instance.now pins.now root known }
    ensures fresh { IfOk result
        (λ s. IsFresh (version_of s.1.judge) instance.now pins.now s.1.tree.stock.items s.0) }
    ensures version { IfOk result (λ s. version_of s.1.judge ≡ Prices) }
    ensures judge { IfOk result (λ s. IsJudge instance.now s.1.judge) }
    ensures floor { IfOk result (λ s. s.0.floor ≡ root.floor) }
    ensures cheaper { IfOk result (λ s. s.0.known.cost ≤ known.cost) }
{
    let yard = start(alloc, instance, pins)?;
    let judge = Judge::Prices;
    let found = ready(
        alloc, instance, pins, nodes, yard, proposal, judge, root, known,
    )?;
    Ok(found)
}
