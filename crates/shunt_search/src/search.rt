// The walk through a tree, node by node.
ghost use Rattle.std.specs.Prelude.{◌≡◌, ◌≢◌, ◌↔◌, ◌⊎◌, ◌∷◌, ◌++◌, [], ℕ, ◌+◌, ◌<◌, ◌≤◌, pos, ◌≤ℤ◌};
ghost use Rattle.std.specs.Prelude.{◌<ℤ◌, true, false, List, Option, IfSome, IfNone, IfOk, OnOk};
ghost use Rattle.std.specs.Prelude.{IsErrOf};
ghost use Rattle.shunt_store.specs.defs.Causes.{HasCause};
ghost use Rattle.shunt_store.specs.defs.Files.{BothTold};
ghost use Rattle.shunt_base.specs.declared.duals.Case.{Case as OneCase};
ghost use Rattle.shunt_instance.specs.defs.Instance.{Night, IsInstance};
ghost use Rattle.shunt_blocks.specs.declared.records.Block.{Block as OneBlock};
ghost use Rattle.shunt_matching.specs.declared.types.Shortage.{Shortage as OneShortage};
ghost use Rattle.shunt_proof.specs.declared.records.Node.{Node as OneNode};
ghost use Rattle.shunt_proof.specs.declared.records.Version.{Version};
ghost use Rattle.shunt_proof.specs.defs.Recorders.{Open, Failed};
ghost use Rattle.shunt_search.specs.declared.walk_stack.Pending.{Pending as OnePending};
ghost use Rattle.shunt_search.specs.declared.notes.NodeNoted.{NodeNoted as OneNoted};
ghost use Rattle.shunt_search.specs.declared.notes.NodeNoted.TheVariants as noted;
ghost use Rattle.shunt_search.specs.declared.search_state.Search.{Search as OneSearch};
ghost use Rattle.shunt_search.specs.defs.Yards.{IsYard};
ghost use Rattle.shunt_search.specs.defs.Judges.{version_of, IsJudge};
ghost use Rattle.shunt_search.specs.defs.WalkStates.{node_below, cases_of, IsLesser};
ghost use Rattle.shunt_search.specs.defs.SearchStates.{IsSearch, IsReady, Arrives, Takes, Falls};
ghost use Rattle.shunt_search.specs.defs.SearchStates.{TellsOn};

use crate::child_visits::visit;
use crate::judge::Guide;
use crate::known::{keep_cheaper, kept_plans};
use crate::monotonicity::bounds_rise_in_versions;
use crate::notes::{NodeNoted, next_nodes};
use crate::search_state::Search;
use crate::solved::SolveError;
use crate::steadiness::walks_stay_steady;
use crate::walk_stack::{Pending, next_open, walks_go_on};
use shunt_blocks::Block;
use shunt_blocks::laws::few_blocks;
use shunt_choices::laws::plans_grow;
use shunt_instance::Instance;
use shunt_instance::laws::unit_numbers;
use shunt_proof::Recorder;
use shunt_proof::laws::few_nodes;
use shunt_proof::version_laws::bounds_by_version;
use std::alloc::{AllocError, Global};

/// How a search goes on: its next child can become a node, a branch whose children come in its place, or a whole path; and children that
/// are closed or passed over are no part of it.
fn searches_go_on()
    ensures ready { (version : Version) (night : Night) (pins : List OneBlock)
        (stock : List (List OneCase)) (told : Option (List OneNode)) (number owned : ℕ)
        (left : List OnePending) (t : OnePending) (s : OneSearch) → IsInstance night
        → IsSearch version night pins stock told number owned (left ++ t ∷ []) s
        → t.child.bound <ℤ pos s.known.cost → IsReady night stock told s.yard t }
    ensures branch { (version : Version) (night : Night) (pins : List OneBlock) (stock : List
        (List OneCase)) (told now : Option (List OneNode)) (number count owned cases : ℕ)
        (left : List OnePending) (t : OnePending) (s z : OneSearch) (how : OneNoted)
        → IsInstance night → IsSearch version night pins stock told number owned (left ++ t ∷ []) s
        → t.child.bound <ℤ pos s.known.cost → Arrives version night stock s z t how left
        → how ≢ noted.Whole → count ≡ number + 1 → cases ≡ owned + cases_of stock how → BothTold
        told now (λ old new. new ≡ old ++ node_below s.yard.path.pins t.child.block stock how ∷ [])
        → IsSearch version night pins stock now count cases z.waiting.items z }
    ensures whole { (version : Version) (night : Night) (pins : List OneBlock)
        (stock : List (List OneCase)) (told now : Option (List OneNode))
        (number count owned cases : ℕ) (left : List OnePending) (t : OnePending) (s z w : OneSearch)
        → IsInstance night → IsSearch version night pins stock told number owned (left ++ t ∷ []) s
        → t.child.bound <ℤ pos s.known.cost → Arrives version night stock s z t noted.Whole left
        → count ≡ number + 1 → cases ≡ owned + cases_of stock noted.Whole → BothTold told now
        (λ old new. new ≡ old ++ node_below s.yard.path.pins t.child.block stock noted.Whole ∷ [])
        → Takes night z w → IsSearch version night pins stock now count cases w.waiting.items w }
    ensures closed { (version : Version) (night : Night) (pins : List OneBlock)
        (stock : List (List OneCase)) (told : Option (List OneNode)) (number owned : ℕ)
        (waiting left : List OnePending) (s z : OneSearch)
        → IsSearch version night pins stock told number owned waiting s → Falls s z waiting left
        → IsSearch version night pins stock told number owned left z }
{
    walks_go_on();
    walks_stay_steady();
    next_nodes();
    kept_plans();
    bounds_rise_in_versions();
    bounds_by_version();
    few_nodes();
    plans_grow();
    few_blocks();
    unit_numbers();
}

/// The lesser of a bound and a cost.
fn lesser_cost(bound: i64, cost: u64) -> i64
    requires { cost ≤ 1000000000000 }
    ensures { IsLesser bound (pos cost) result }
{
    let other = cost as i64;
    if other < bound { other } else { bound }
}

/// The yard's path takes the place of the plan that is known, where it costs less. Err is want of memory.
pub(crate) fn take_whole(
    alloc: Global,
    instance: &Instance,
    search: &mut Search,
) -> Result<(), AllocError>
    requires yard { IsYard instance.now search.old.yard }
    requires best { search.old.known.cost ≤ 1000000000000 }
    ensures { OnOk result (Takes instance.now search.old search.new) }
{
    keep_cheaper(alloc, instance, &search.yard.path, &mut search.known)?;
    search.low = lesser_cost(search.low, search.known.cost);
    Ok(())
}

/// Whether it is noted as a whole path.
fn is_noted_whole(how: NodeNoted) -> bool
    ensures yes { result ≡ true → how ≡ noted.Whole }
    ensures no { result ≡ false → how ≢ noted.Whole }
{
    match how {
        NodeNoted::Whole => true,
        _ => false,
    }
}

/// A child becomes a node; where its path is whole and costs less than the plan that is known, it takes that plan's place.
fn arrive<R: Recorder>(
    alloc: Global,
    instance: &Instance,
    pins: &[Block],
    guide: &Guide,
    next: Pending,
    search: &mut Search,
    recorder: &mut R,
) -> Result<(), SolveError>
    requires judge { IsJudge instance.now guide.now.judge }
    requires search { IsSearch (version_of guide.now.judge) instance.now pins.now
        guide.now.tree.stock.items (R.told recorder.old) (R.number recorder.old)
        (R.cases recorder.old) (search.old.waiting.items ++ next ∷ []) search.old }
    requires below { next.child.bound <ℤ pos search.old.known.cost }
    requires stage { R.stage recorder.old ≡ Open }
    requires own { R.owns recorder.old instance.now }
    requires room { R.number recorder.old < 5000 }
    ensures search { OnOk result (IsSearch (version_of guide.now.judge) instance.now pins.now
        guide.now.tree.stock.items (R.told recorder.new) (R.number recorder.new)
        (R.cases recorder.new) search.new.waiting.items search.new) }
    ensures number { OnOk result (R.number recorder.new ≡ R.number recorder.old + 1) }
    ensures plain { OnOk result (search.new.plain ≡ search.old.plain) }
    ensures cheaper { OnOk result (search.new.known.cost ≤ search.old.known.cost) }
    ensures floor { OnOk result (search.new.floor ≡ search.old.floor) }
    ensures tells { OnOk result (TellsOn (R.told recorder.old) (R.told recorder.new)) }
    ensures open { OnOk result (R.stage recorder.new ≡ Open) }
    ensures sound { IsErrOf result SolveError.Memory → R.stage recorder.new ≢ Failed }
    ensures failed { IsErrOf result SolveError.Recorder → R.stage recorder.new ≡ Failed }
    ensures no_matching { (s : OneShortage) → IsErrOf result (SolveError.NoMatching s) → ⊥ }
    ensures own { (night : Night) → R.owns recorder.new night ↔ R.owns recorder.old night }
    ensures cause { HasCause SolveError.Recorder (R.faults recorder.old)
        (R.faults recorder.new) result }
    ensures keeps { R.keeps recorder.old recorder.new }
{
    // The calls tell that the child's node can be noted, and what the search is behind it.
    searches_go_on();
    instance.units();
    let how = visit(alloc, instance, guide, &next, search, recorder)?;
    let whole = is_noted_whole(how);
    if whole {
        take_whole(alloc, instance, search)?;
        return Ok(());
    }
    Ok(())
}

/// The next child whose bound is below the best cost, and which isn't passed over. Those behind it are left no more.
fn take_next(search: &mut Search) -> Option<Pending>
    requires best { search.old.known.cost ≤ 1000000000000 }
    requires within { search.old.low ≤ℤ pos search.old.known.cost }
    ensures some { IfSome result (λ t. Falls search.old search.new search.old.waiting.items
        (search.new.waiting.items ++ t ∷ [])) }
    ensures below { IfSome result (λ t. t.child.bound <ℤ pos search.new.known.cost) }
    ensures none { IfNone result (Falls search.old search.new search.old.waiting.items []) }
    ensures empty { IfNone result (search.new.waiting.items ≡ []) }
    ensures plain { search.new.plain ≡ search.old.plain }
{
    let best = search.known.cost;
    let plain = search.plain;
    let Some(next) = next_open(
        &mut search.waiting,
        &mut search.low,
        &mut search.spare,
        best,
        plain,
    ) else {
        return None;
    };
    Some(next)
}

/// Walks to the next child whose bound is below the best cost, and which isn't passed over, and says whether there was one.
fn advance<R: Recorder>(
    alloc: Global,
    instance: &Instance,
    pins: &[Block],
    guide: &Guide,
    search: &mut Search,
    recorder: &mut R,
) -> Result<bool, SolveError>
    requires judge { IsJudge instance.now guide.now.judge }
    requires search { IsSearch (version_of guide.now.judge) instance.now pins.now
        guide.now.tree.stock.items (R.told recorder.old) (R.number recorder.old)
        (R.cases recorder.old) search.old.waiting.items search.old }
    requires stage { R.stage recorder.old ≡ Open }
    requires own { R.owns recorder.old instance.now }
    requires room { R.number recorder.old < 5000 }
    ensures search { OnOk result (IsSearch (version_of guide.now.judge) instance.now pins.now
        guide.now.tree.stock.items (R.told recorder.new) (R.number recorder.new)
        (R.cases recorder.new) search.new.waiting.items search.new) }
    ensures more { IfOk result
        (λ more. more ≡ true → R.number recorder.new ≡ R.number recorder.old + 1) }
    ensures done { IfOk result (λ more. more ≡ false
        → (R.number recorder.new ≡ R.number recorder.old) × (search.new.waiting.items ≡ [])) }
    ensures plain { OnOk result (search.new.plain ≡ search.old.plain) }
    ensures cheaper { OnOk result (search.new.known.cost ≤ search.old.known.cost) }
    ensures floor { OnOk result (search.new.floor ≡ search.old.floor) }
    ensures tells { OnOk result (TellsOn (R.told recorder.old) (R.told recorder.new)) }
    ensures open { OnOk result (R.stage recorder.new ≡ Open) }
    ensures sound { IsErrOf result SolveError.Memory → R.stage recorder.new ≢ Failed }
    ensures failed { IsErrOf result SolveError.Recorder → R.stage recorder.new ≡ Failed }
    ensures no_matching { (s : OneShortage) → IsErrOf result (SolveError.NoMatching s) → ⊥ }
    ensures own { (night : Night) → R.owns recorder.new night ↔ R.owns recorder.old night }
    ensures cause { HasCause SolveError.Recorder (R.faults recorder.old)
        (R.faults recorder.new) result }
    ensures keeps { R.keeps recorder.old recorder.new }
{
    // The call tells that what is closed or passed over isn't needed.
    searches_go_on();
    let Some(next) = take_next(search) else {
        return Ok(false);
    };
    arrive(alloc, instance, pins, guide, next, search, recorder)?;
    Ok(true)
}

/// Walks on until that many nodes are noted, or no child is left whose bound is below the best cost and which isn't passed over.
pub(crate) fn walk_on<R: Recorder>(
    alloc: Global,
    instance: &Instance,
    pins: &[Block],
    guide: &Guide,
    nodes: u32,
    search: &mut Search,
    recorder: &mut R,
) -> Result<(), SolveError>
    requires judge { IsJudge instance.now guide.now.judge }
    requires search { IsSearch (version_of guide.now.judge) instance.now pins.now
        guide.now.tree.stock.items (R.told recorder.old) (R.number recorder.old)
        (R.cases recorder.old) search.old.waiting.items search.old }
    requires first { R.number recorder.old ≡ 1 }
    requires some { 1 ≤ nodes }
    requires few { nodes ≤ 5000 }
    requires stage { R.stage recorder.old ≡ Open }
    requires own { R.owns recorder.old instance.now }
    ensures search { OnOk result (IsSearch (version_of guide.now.judge) instance.now pins.now
        guide.now.tree.stock.items (R.told recorder.new) (R.number recorder.new)
        (R.cases recorder.new) search.new.waiting.items search.new) }
    ensures most { OnOk result (R.number recorder.new ≤ nodes) }
    ensures done { OnOk result ((R.number recorder.new ≡ nodes) ⊎ (search.new.waiting.items ≡ [])) }
    ensures plain { OnOk result (search.new.plain ≡ search.old.plain) }
    ensures cheaper { OnOk result (search.new.known.cost ≤ search.old.known.cost) }
    ensures floor { OnOk result (search.new.floor ≡ search.old.floor) }
    ensures tells { OnOk result (TellsOn (R.told recorder.old) (R.told recorder.new)) }
    ensures open { OnOk result (R.stage recorder.new ≡ Open) }
    ensures sound { IsErrOf result SolveError.Memory → R.stage recorder.new ≢ Failed }
    ensures failed { IsErrOf result SolveError.Recorder → R.stage recorder.new ≡ Failed }
    ensures no_matching { (s : OneShortage) → IsErrOf result (SolveError.NoMatching s) → ⊥ }
    ensures own { (night : Night) → R.owns recorder.new night ↔ R.owns recorder.old night }
    ensures cause { HasCause SolveError.Recorder (R.faults recorder.old)
        (R.faults recorder.new) result }
    ensures keeps { R.keeps recorder.old recorder.new }
{
    let mut count = 1;
    'walk: while count < nodes {
        let more = advance(alloc, instance, pins, guide, search, recorder)?;
        if !more {
            return Ok(());
        }
        count += 1;
    }
    Ok(())
}
