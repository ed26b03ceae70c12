// A search that is to begin: the pins in order, the cases of the root, a plan that is cheap by them, and a tree to follow.
ghost use Rattle.std.specs.Prelude.{◌≡◌, ◌⊎◌, ℕ, ◌≤◌, List, length, IfOk, IfSome, IsErrOf};
ghost use Rattle.shunt_instance.specs.defs.Instance.{Night, IsInstance, unit_total, position_total};
ghost use Rattle.shunt_blocks.specs.declared.records.Block.{Block as OneBlock};
ghost use Rattle.shunt_blocks.specs.defs.Lists.{IsFeasible, total_cost, units_taken};
ghost use Rattle.shunt_blocks.specs.defs.Lists.{positions_taken};
ghost use Rattle.shunt_blocks.specs.defs.Pins.{AreUsable, Keeps, opening_cost};
ghost use Rattle.shunt_choices.specs.defs.Paths.{Trail, IsTrailOf, masks_of};
ghost use Rattle.shunt_matching.specs.declared.types.Shortage.{Shortage as OneShortage};
ghost use Rattle.shunt_matching.specs.defs.Nights.{Matches, MatchesRest, IsShortageOf};
ghost use Rattle.shunt_proof.specs.declared.records.Version.TheVariants.{Prices};
ghost use Rattle.shunt_proof.specs.defs.Trees.{IsStart};
ghost use Rattle.shunt_search.specs.defs.Judges.{version_of, IsJudge};
ghost use Rattle.shunt_search.specs.defs.Roots.{IsRoot};
ghost use Rattle.shunt_search.specs.defs.Yards.{IsYard};
ghost use Rattle.shunt_search.specs.defs.WalkStates.{IsBest};
ghost use Rattle.shunt_search.specs.defs.SearchStates.{IsFresh};

use crate::cheaper_plans::{first_plan, guided_plan, last_rounds};
use crate::guide_tree::proposed_tree;
use crate::judge::{Guide, Judge};
use crate::known::KnownPlan;
use crate::notes::cases_in;
use crate::proposed_plan::take_proposed;
use crate::root_bounds::{Root, root_cases};
use crate::search_state::Search;
use crate::solved::SolveError;
use crate::start_plan::{as_many_positions, first_known};
use crate::yard::{Yard, start};
use shunt_blocks::Block;
use shunt_blocks::laws::matchings;
use shunt_choices::Path;
use shunt_dual::path_sums;
use shunt_instance::Instance;
use shunt_matching::{MatchError, Matching, first_fit_rest};
use shunt_proposals::Proposer;
use std::alloc::{AllocError, Global};

/// The path of usable pins in order covers what they do; and where what it leaves has a matching, there is one of all units, and there are
/// as many positions as units.
fn ready_starts()
    ensures covered { (night : Night) (pins : List OneBlock) (t : Trail) → IsTrailOf night t
        → IsStart night pins t.blocks → t.covered ≡ masks_of night pins }
    ensures matching { (night : Night) (pins : List OneBlock) (t : Trail) (place : List ℕ)
        → IsInstance night → AreUsable night pins → IsTrailOf night t → IsStart night pins t.blocks
        → MatchesRest night t.covered.units t.covered.places place
        → ((whole : List ℕ) × Matches night whole) × (position_total night ≡ unit_total night) }
{
    matchings();
    as_many_positions();
}

/// The matching of what a path leaves that the opening plan goes by.
fn matched(alloc: Global, instance: &Instance, path: &Path) -> Result<Matching, SolveError>
    requires { IsTrailOf instance.now path.now }
    ensures matching { IfOk result
        (λ m. MatchesRest instance.now path.now.covered.units path.now.covered.places m.place_of) }
    ensures exact { (s : OneShortage) → IsErrOf result (SolveError.NoMatching s)
        → IsShortageOf instance.now path.now.covered.units path.now.covered.places s }
    ensures only { (s : OneShortage)
        → IsShortageOf instance.now path.now.covered.units path.now.covered.places s
        → IsErrOf result (SolveError.NoMatching s) }
    ensures no_fault { IsErrOf result SolveError.Recorder → ⊥ }
{
    match first_fit_rest(
        alloc,
        instance,
        path.covered().units(),
        path.covered().places(),
    ) {
        Ok(matching) => Ok(matching),
        Err(MatchError::Short(shortage)) => Err(SolveError::NoMatching(shortage)),
        Err(MatchError::Memory) => Err(SolveError::Memory),
    }
}

/// The same of what pins leave, whose path in order this is.
fn matched_rest(
    alloc: Global,
    instance: &Instance,
    pins: &[Block],
    path: &Path,
) -> Result<Matching, SolveError>
    requires path { IsTrailOf instance.now path.now }
    requires start { IsStart instance.now pins.now path.now.blocks }
    ensures matching { IfOk result
        (λ m. MatchesRest instance.now path.now.covered.units path.now.covered.places m.place_of) }
    ensures exact { (s : OneShortage) → IsErrOf result (SolveError.NoMatching s) → IsShortageOf
        instance.now (units_taken instance.now pins.now) (positions_taken instance.now pins.now) s }
    ensures only { (s : OneShortage) → IsShortageOf instance.now (units_taken instance.now pins.now)
        (positions_taken instance.now pins.now) s → IsErrOf result (SolveError.NoMatching s) }
    ensures no_fault { IsErrOf result SolveError.Recorder → ⊥ }
{
    // The call tells that the path covers what the pins do.
    ready_starts();
    matched(alloc, instance, path)
}

/// A search that is to begin at the path of the pins with these cases as the root's and a plan that costs no more than this one, and what it
/// is to go by, with a tree of at most that many nodes. Err is want of memory.
pub(crate) fn ready<P: Proposer>(
    alloc: Global,
    instance: &Instance,
    pins: &[Block],
    nodes: u32,
    yard: Yard,
    proposal: &P,
    judge: Judge,
    root: Root,
    known: KnownPlan,
) -> Result<(Search, Guide), AllocError>
    requires usable { AreUsable instance.now pins.now }
    requires even { position_total instance.now ≡ unit_total instance.now }
    requires start { IsStart instance.now pins.now yard.path.blocks }
    requires pins { yard.path.pins ≡ length pins.now }
    requires yard { IsYard instance.now yard }
    requires judge { IsJudge instance.now judge }
    requires root { IsRoot (version_of judge) instance.now yard.path.blocks root }
    requires best { IsBest instance.now pins.now known.blocks.items known.cost }
    requires opening { known.cost ≤ opening_cost instance.now pins.now }
    requires small { known.cost ≤ 1000000000000 }
    ensures fresh { IfOk result
        (λ s. IsFresh (version_of judge) instance.now pins.now s.1.tree.stock.items s.0) }
    ensures judge { IfOk result (λ s. s.1.judge ≡ judge) }
    ensures floor { IfOk result (λ s. s.0.floor ≡ root.floor) }
    ensures cheaper { IfOk result (λ s. s.0.known.cost ≤ known.cost) }
{
    let floor = root.floor();
    let mut best = known;
    let tree = proposed_tree(
        alloc, instance, &judge, &yard.path, proposal, root.cases, best.cost, nodes,
    )?;
    take_proposed(
        alloc,
        instance,
        &judge,
        pins,
        cases_in(&tree, 0),
        &tree.plan,
        &mut best,
    )?;
    let low = best.cost as i64;
    let search = Search {
        yard,
        waiting: Vec::new(alloc),
        known: best,
        low,
        floor,
        plain: false,
        spare: 0,
        count: 0,
        owned: 0,
    };
    Ok((search, Guide { tree, judge }))
}

/// A search by prices that is to begin at the path of the pins, with a plan that costs no more than the first one that is known, the tree
/// that it is to follow, and what its root's cases came from. Err is want of memory.
fn prepared<P: Proposer>(
    alloc: Global,
    instance: &Instance,
    pins: &[Block],
    nodes: u32,
    yard: Yard,
    known: &KnownPlan,
) -> Result<(Search, Guide, P), AllocError>
    requires usable { AreUsable instance.now pins.now }
    requires even { position_total instance.now ≡ unit_total instance.now }
    requires start { IsStart instance.now pins.now yard.path.blocks }
    requires pins { yard.path.pins ≡ length pins.now }
    requires yard { IsYard instance.now yard }
    requires matching { (place : List ℕ) × Matches instance.now place }
    requires best { IsBest instance.now pins.now known.now.blocks.items known.now.cost }
    requires opening { known.now.cost ≤ opening_cost instance.now pins.now }
    requires small { known.now.cost ≤ 640000000 }
    ensures fresh { IfOk result
        (λ s. IsFresh Prices instance.now pins.now s.1.tree.stock.items s.0) }
    ensures judge { IfOk result (λ s. s.1.judge ≡ Judge.Prices) }
    ensures cheaper { IfOk result (λ s. s.0.known.cost ≤ known.now.cost) }
{
    let grain = P::grain(alloc, instance)?;
    let proposal = P::new(alloc, instance, &yard.path)?;
    let case = proposal.case(alloc, instance)?;
    let first = first_plan(alloc, instance, pins, &case, grain, known)?;
    let root = root_cases(alloc, instance, &yard.path, &proposal, &first)?;
    let sums = path_sums(alloc, instance, &yard.path, &root.cases)?;
    let rounds = last_rounds(instance.units() as u32);
    let best = guided_plan(
        alloc,
        instance,
        pins,
        &root.cases,
        &sums.sums,
        rounds,
        grain,
        &first,
    )?;
    let judge = Judge::Prices;
    let (search, guide) = ready(
        alloc, instance, pins, nodes, yard, &proposal, judge, root, best,
    )?;
    Ok((search, guide, proposal))
}

/// A search by prices that is to begin, with a plan that costs no more than the one that is given, the tree that it is to follow, which has at
/// most that many nodes, and what its root's cases came from. NoMatching comes exactly when what the pins leave has no matching, unless memory
/// runs out before.
pub(crate) fn prepare<P: Proposer>(
    alloc: Global,
    instance: &Instance,
    pins: &[Block],
    given: Option<&[Block]>,
    nodes: u32,
) -> Result<(Search, Guide, P), SolveError>
    requires usable { AreUsable instance.now pins.now }
    requires feasible { IfSome given (λ p. IsFeasible instance.now p.now) }
    requires keeps { IfSome given (λ p. Keeps p.now pins.now) }
    ensures fresh { IfOk result
        (λ s. IsFresh Prices instance.now pins.now s.1.tree.stock.items s.0) }
    ensures judge { IfOk result (λ s. s.1.judge ≡ Judge.Prices) }
    ensures never_worse { IfOk result
        (λ s. IfSome given.entry (λ p. s.0.known.cost ≤ total_cost instance.now p.now)) }
    ensures exact { (s : OneShortage) → IsErrOf result (SolveError.NoMatching s) → IsShortageOf
        instance.now (units_taken instance.now pins.now) (positions_taken instance.now pins.now) s }
    ensures only { (s : OneShortage) → IsShortageOf instance.now (units_taken instance.now pins.now)
        (positions_taken instance.now pins.now) s
        → IsErrOf result (SolveError.NoMatching s) ⊎ IsErrOf result SolveError.Memory }
    ensures no_fault { IsErrOf result SolveError.Recorder → ⊥ }
{
    // The calls tell that the pins in order are a path for a root.
    ready_starts();
    instance.units();
    let yard = start(alloc, instance, pins)?;
    let matching = matched_rest(alloc, instance, pins, &yard.path)?;
    let known = first_known(
        alloc,
        instance,
        pins,
        yard.path.covered(),
        matching.place_of.as_slice(),
        given,
    )?;
    let found = prepared::<P>(alloc, instance, pins, nodes, yard, &known)?;
    Ok(found)
}
