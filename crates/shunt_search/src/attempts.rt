// Walks from the root of a tree: one that follows a proposal, one with nodes to spare where that one has passed over too much, and a plain
// one.
ghost use Rattle.std.specs.Prelude.{◌≡◌, ◌≢◌, ◌↔◌, ◌⊎◌, [], ℕ, ◌≤◌, true, pos, ◌≤ℤ◌, List, Option};
ghost use Rattle.std.specs.Prelude.{OnOk, IfSome, IsErrOf};
ghost use Rattle.shunt_store.specs.defs.Causes.{HasCause};
ghost use Rattle.shunt_base.specs.declared.duals.Case.{Case as OneCase};
ghost use Rattle.shunt_instance.specs.defs.Instance.{Night};
ghost use Rattle.shunt_blocks.specs.declared.records.Block.{Block as OneBlock};
ghost use Rattle.shunt_blocks.specs.defs.Pins.{AreUsable};
ghost use Rattle.shunt_matching.specs.declared.types.Shortage.{Shortage as OneShortage};
ghost use Rattle.shunt_proof.specs.declared.records.Node.{Node as OneNode};
ghost use Rattle.shunt_proof.specs.declared.records.Version.{Version};
ghost use Rattle.shunt_proof.specs.defs.Recorders.{Open, Failed};
ghost use Rattle.shunt_search.specs.declared.search_state.Search.{Search as OneSearch};
ghost use Rattle.shunt_search.specs.defs.Judges.{version_of, IsJudge};
ghost use Rattle.shunt_search.specs.defs.SearchStates.{IsSearch, IsFresh, StartsAgain, TellsOn};
ghost use Rattle.shunt_search.specs.defs.Endings.{IsDone};

use crate::judge::Guide;
use crate::root_node::begin;
use crate::search::walk_on;
use crate::search_state::Search;
use crate::solved::SolveError;
use crate::yard::start;
use shunt_blocks::Block;
use shunt_instance::Instance;
use shunt_proof::Recorder;
use shunt_proof::laws::{best_costs, starts};
use std::alloc::{AllocError, Global};

/// A search that starts again is one that is to begin.
fn searches_restart()
    ensures { (version : Version) (night : Night) (pins : List OneBlock)
        (stock : List (List OneCase)) (told : Option (List OneNode)) (number owned : ℕ)
        (s z : OneSearch) → IsSearch version night pins stock told number owned s.waiting.items s
        → StartsAgain night pins s z → IsFresh version night pins stock z }
{
    best_costs();
    starts();
}

/// The search goes back to the pins, to walk plainly or with that many nodes to spare. Err is want of memory.
fn start_again(
    alloc: Global,
    instance: &Instance,
    pins: &[Block],
    plain: bool,
    spare: u32,
    search: &mut Search,
) -> Result<(), AllocError>
    requires usable { AreUsable instance.now pins.now }
    requires small { search.old.known.cost ≤ 1000000000000 }
    ensures again { OnOk result (StartsAgain instance.now pins.now search.old search.new) }
    ensures plain { OnOk result (search.new.plain ≡ plain) }
{
    search.yard = start(alloc, instance, pins)?;
    search.waiting = Vec::new(alloc);
    search.low = search.known.cost as i64;
    search.plain = plain;
    search.spare = spare;
    Ok(())
}

/// Walks from the root until that many nodes are noted, or no child is left whose bound is below the best cost and which isn't passed over.
fn attempt<R: Recorder>(
    alloc: Global,
    instance: &Instance,
    pins: &[Block],
    guide: &Guide,
    nodes: u32,
    search: &mut Search,
    recorder: &mut R,
) -> Result<(), SolveError>
    requires judge { IsJudge instance.now guide.now.judge }
    requires fresh { IsFresh
        (version_of guide.now.judge) instance.now pins.now guide.now.tree.stock.items search.old }
    requires some { 1 ≤ nodes }
    requires few { nodes ≤ 5000 }
    requires stage { R.stage recorder.old ≡ Open }
    requires own { R.owns recorder.old instance.now }
    requires none { R.number recorder.old ≡ 0 }
    requires no_cases { R.cases recorder.old ≡ 0 }
    requires told { IfSome (R.told recorder.old) (λ told. told ≡ []) }
    ensures search { OnOk result (IsSearch (version_of guide.now.judge) instance.now pins.now
        guide.now.tree.stock.items (R.told recorder.new) (R.number recorder.new)
        (R.cases recorder.new) search.new.waiting.items search.new) }
    ensures most { OnOk result (R.number recorder.new ≤ nodes) }
    ensures done { OnOk result ((R.number recorder.new ≡ nodes) ⊎ (search.new.waiting.items ≡ [])) }
    ensures plain { OnOk result (search.new.plain ≡ search.old.plain) }
    ensures cheaper { OnOk result (search.new.known.cost ≤ search.old.known.cost) }
    ensures floor { OnOk result (search.new.floor ≡ search.old.floor) }
    ensures tells { OnOk result (TellsOn (R.told recorder.old) (R.told recorder.new)) }
    ensures open { OnOk result (R.stage recorder.new ≡ Open) }
    ensures sound { IsErrOf result SolveError.Memory → R.stage recorder.new ≢ Failed }
    ensures failed { IsErrOf result SolveError.Recorder → R.stage recorder.new ≡ Failed }
    ensures no_matching { (s : OneShortage) → IsErrOf result (SolveError.NoMatching s) → ⊥ }
    ensures own { (night : Night) → R.owns recorder.new night ↔ R.owns recorder.old night }
    ensures cause { HasCause SolveError.Recorder (R.faults recorder.old)
        (R.faults recorder.new) result }
    ensures keeps { R.keeps recorder.old recorder.new }
{
    begin(alloc, instance, pins, guide, search, recorder)?;
    walk_on(alloc, instance, pins, guide, nodes, search, recorder)?;
    Ok(())
}

/// Forgets the nodes that were noted, and walks from the root again, plainly or with that many nodes to spare.
fn walk_again<R: Recorder>(
    alloc: Global,
    instance: &Instance,
    pins: &[Block],
    guide: &Guide,
    nodes: u32,
    plain: bool,
    spare: u32,
    search: &mut Search,
    recorder: &mut R,
) -> Result<(), SolveError>
    requires judge { IsJudge instance.now guide.now.judge }
    requires search { IsSearch (version_of guide.now.judge) instance.now pins.now
        guide.now.tree.stock.items (R.told recorder.old) (R.number recorder.old)
        (R.cases recorder.old) search.old.waiting.items search.old }
    requires some { 1 ≤ nodes }
    requires few { nodes ≤ 5000 }
    requires stage { R.stage recorder.old ≡ Open }
    requires own { R.owns recorder.old instance.now }
    ensures search { OnOk result (IsSearch (version_of guide.now.judge) instance.now pins.now
        guide.now.tree.stock.items (R.told recorder.new) (R.number recorder.new)
        (R.cases recorder.new) search.new.waiting.items search.new) }
    ensures most { OnOk result (R.number recorder.new ≤ nodes) }
    ensures done { OnOk result ((R.number recorder.new ≡ nodes) ⊎ (search.new.waiting.items ≡ [])) }
    ensures plain { OnOk result (search.new.plain ≡ plain) }
    ensures cheaper { OnOk result (search.new.known.cost ≤ search.old.known.cost) }
    ensures floor { OnOk result (search.new.floor ≡ search.old.floor) }
    ensures tells { OnOk result (TellsOn (R.told recorder.old) (R.told recorder.new)) }
    ensures open { OnOk result (R.stage recorder.new ≡ Open) }
    ensures sound { IsErrOf result SolveError.Memory → R.stage recorder.new ≢ Failed }
    ensures failed { IsErrOf result SolveError.Recorder → R.stage recorder.new ≡ Failed }
    ensures no_matching { (s : OneShortage) → IsErrOf result (SolveError.NoMatching s) → ⊥ }
    ensures own { (night : Night) → R.owns recorder.new night ↔ R.owns recorder.old night }
    ensures cause { HasCause SolveError.Recorder (R.faults recorder.old)
        (R.faults recorder.new) result }
    ensures keeps { R.keeps recorder.old recorder.new }
{
    // The call tells that the search is to begin.
    searches_restart();
    recorder.restart()?;
    start_again(alloc, instance, pins, plain, spare, search)?;
    attempt(alloc, instance, pins, guide, nodes, search, recorder)?;
    Ok(())
}

/// Forgets the nodes that were noted, and walks from the root plainly.
fn walk_plainly<R: Recorder>(
    alloc: Global,
    instance: &Instance,
    pins: &[Block],
    guide: &Guide,
    nodes: u32,
    search: &mut Search,
    recorder: &mut R,
) -> Result<(), SolveError>
    requires judge { IsJudge instance.now guide.now.judge }
    requires search { IsSearch (version_of guide.now.judge) instance.now pins.now
        guide.now.tree.stock.items (R.told recorder.old) (R.number recorder.old)
        (R.cases recorder.old) search.old.waiting.items search.old }
    requires some { 1 ≤ nodes }
    requires few { nodes ≤ 5000 }
    requires stage { R.stage recorder.old ≡ Open }
    requires own { R.owns recorder.old instance.now }
    ensures search { OnOk result (IsSearch (version_of guide.now.judge) instance.now pins.now
        guide.now.tree.stock.items (R.told recorder.new) (R.number recorder.new)
        (R.cases recorder.new) search.new.waiting.items search.new) }
    ensures most { OnOk result (R.number recorder.new ≤ nodes) }
    ensures done { OnOk result (IsDone (R.number recorder.new) nodes search.new.waiting.items
        search.new.known.cost search.new.low) }
    ensures cheaper { OnOk result (search.new.known.cost ≤ search.old.known.cost) }
    ensures floor { OnOk result (search.new.floor ≡ search.old.floor) }
    ensures tells { OnOk result (TellsOn (R.told recorder.old) (R.told recorder.new)) }
    ensures open { OnOk result (R.stage recorder.new ≡ Open) }
    ensures sound { IsErrOf result SolveError.Memory → R.stage recorder.new ≢ Failed }
    ensures failed { IsErrOf result SolveError.Recorder → R.stage recorder.new ≡ Failed }
    ensures no_matching { (s : OneShortage) → IsErrOf result (SolveError.NoMatching s) → ⊥ }
    ensures own { (night : Night) → R.owns recorder.new night ↔ R.owns recorder.old night }
    ensures cause { HasCause SolveError.Recorder (R.faults recorder.old)
        (R.faults recorder.new) result }
    ensures keeps { R.keeps recorder.old recorder.new }
{
    walk_again(
        alloc, instance, pins, guide, nodes, true, 0, search, recorder,
    )?;
    Ok(())
}

/// Whether a search has noted that many nodes, or its low bound is the best cost.
fn is_done(search: &Search, nodes: u32) -> bool
    requires { search.now.known.cost ≤ 1000000000000 }
    ensures { result ≡ true
        → (nodes ≤ search.now.count) ⊎ (pos search.now.known.cost ≤ℤ search.now.low) }
{
    if search.count >= nodes {
        return true;
    }
    search.low >= search.known.cost as i64
}

/// Walks from the root along the proposal. Where fewer nodes than allowed were noted then, and what was passed over leaves the bound below
/// the best cost, it walks again, and those that are left become nodes too.
fn walk_twice<R: Recorder>(
    alloc: Global,
    instance: &Instance,
    pins: &[Block],
    guide: &Guide,
    nodes: u32,
    search: &mut Search,
    recorder: &mut R,
) -> Result<(), SolveError>
    requires judge { IsJudge instance.now guide.now.judge }
    requires fresh { IsFresh
        (version_of guide.now.judge) instance.now pins.now guide.now.tree.stock.items search.old }
    requires some { 1 ≤ nodes }
    requires few { nodes ≤ 5000 }
    requires stage { R.stage recorder.old ≡ Open }
    requires own { R.owns recorder.old instance.now }
    requires none { R.number recorder.old ≡ 0 }
    requires no_cases { R.cases recorder.old ≡ 0 }
    requires told { IfSome (R.told recorder.old) (λ told. told ≡ []) }
    ensures search { OnOk result (IsSearch (version_of guide.now.judge) instance.now pins.now
        guide.now.tree.stock.items (R.told recorder.new) (R.number recorder.new)
        (R.cases recorder.new) search.new.waiting.items search.new) }
    ensures most { OnOk result (R.number recorder.new ≤ nodes) }
    ensures done { OnOk result ((R.number recorder.new ≡ nodes) ⊎ (search.new.waiting.items ≡ [])) }
    ensures cheaper { OnOk result (search.new.known.cost ≤ search.old.known.cost) }
    ensures floor { OnOk result (search.new.floor ≡ search.old.floor) }
    ensures tells { OnOk result (TellsOn (R.told recorder.old) (R.told recorder.new)) }
    ensures open { OnOk result (R.stage recorder.new ≡ Open) }
    ensures sound { IsErrOf result SolveError.Memory → R.stage recorder.new ≢ Failed }
    ensures failed { IsErrOf result SolveError.Recorder → R.stage recorder.new ≡ Failed }
    ensures no_matching { (s : OneShortage) → IsErrOf result (SolveError.NoMatching s) → ⊥ }
    ensures own { (night : Night) → R.owns recorder.new night ↔ R.owns recorder.old night }
    ensures cause { HasCause SolveError.Recorder (R.faults recorder.old)
        (R.faults recorder.new) result }
    ensures keeps { R.keeps recorder.old recorder.new }
{
    attempt(alloc, instance, pins, guide, nodes, search, recorder)?;
    let enough = is_done(search, nodes);
    if enough {
        return Ok(());
    }
    let spare = nodes.saturating_sub(search.count);
    walk_again(
        alloc, instance, pins, guide, nodes, false, spare, search, recorder,
    )?;
    Ok(())
}

/// Walks from the root along the proposal, and again with nodes to spare. Where fewer nodes than allowed were noted even so, and what was
/// passed over leaves the bound below the best cost, the nodes are forgotten, and the walk is plain.
pub(crate) fn walk_whole<R: Recorder>(
    alloc: Global,
    instance: &Instance,
    pins: &[Block],
    guide: &Guide,
    nodes: u32,
    search: &mut Search,
    recorder: &mut R,
) -> Result<(), SolveError>
    requires judge { IsJudge instance.now guide.now.judge }
    requires fresh { IsFresh
        (version_of guide.now.judge) instance.now pins.now guide.now.tree.stock.items search.old }
    requires some { 1 ≤ nodes }
    requires few { nodes ≤ 5000 }
    requires stage { R.stage recorder.old ≡ Open }
    requires own { R.owns recorder.old instance.now }
    requires none { R.number recorder.old ≡ 0 }
    requires no_cases { R.cases recorder.old ≡ 0 }
    requires told { IfSome (R.told recorder.old) (λ told. told ≡ []) }
    ensures search { OnOk result (IsSearch (version_of guide.now.judge) instance.now pins.now
        guide.now.tree.stock.items (R.told recorder.new) (R.number recorder.new)
        (R.cases recorder.new) search.new.waiting.items search.new) }
    ensures most { OnOk result (R.number recorder.new ≤ nodes) }
    ensures done { OnOk result (IsDone (R.number recorder.new) nodes search.new.waiting.items
        search.new.known.cost search.new.low) }
    ensures cheaper { OnOk result (search.new.known.cost ≤ search.old.known.cost) }
    ensures floor { OnOk result (search.new.floor ≡ search.old.floor) }
    ensures tells { OnOk result (TellsOn (R.told recorder.old) (R.told recorder.new)) }
    ensures open { OnOk result (R.stage recorder.new ≡ Open) }
    ensures sound { IsErrOf result SolveError.Memory → R.stage recorder.new ≢ Failed }
    ensures failed { IsErrOf result SolveError.Recorder → R.stage recorder.new ≡ Failed }
    ensures no_matching { (s : OneShortage) → IsErrOf result (SolveError.NoMatching s) → ⊥ }
    ensures own { (night : Night) → R.owns recorder.new night ↔ R.owns recorder.old night }
    ensures cause { HasCause SolveError.Recorder (R.faults recorder.old)
        (R.faults recorder.new) result }
    ensures keeps { R.keeps recorder.old recorder.new }
{
    walk_twice(alloc, instance, pins, guide, nodes, search, recorder)?;
    let done = is_done(search, nodes);
    if done {
        return Ok(());
    }
    walk_plainly(alloc, instance, pins, guide, nodes, search, recorder)?;
    Ok(())
}
