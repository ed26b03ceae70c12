// The root of a tree.
ghost use Rattle.std.specs.Prelude.{◌≡◌, ◌≢◌, ◌↔◌, [], ◌∷◌, ◌++◌, ℕ, ◌+◌, ◌<◌, ◌≤◌, List, Option};
ghost use Rattle.std.specs.Prelude.{None, IsSome, All, length, OnOk, IfSome, IsErrOf};
ghost use Rattle.shunt_store.specs.defs.Causes.{HasCause};
ghost use Rattle.shunt_store.specs.defs.Files.{BothTold};
ghost use Rattle.shunt_base.specs.declared.duals.Case.{Case as OneCase};
ghost use Rattle.shunt_instance.specs.defs.Instance.{Night, IsInstance};
ghost use Rattle.shunt_blocks.specs.declared.records.Block.{Block as OneBlock};
ghost use Rattle.shunt_choices.specs.defs.Paths.{masks_of, next_of};
ghost use Rattle.shunt_matching.specs.declared.types.Shortage.{Shortage as OneShortage};
ghost use Rattle.shunt_proof.specs.declared.records.Node.{Node as OneNode};
ghost use Rattle.shunt_proof.specs.declared.records.Version.{Version};
ghost use Rattle.shunt_proof.specs.defs.Nodes.{AreStatable};
ghost use Rattle.shunt_proof.specs.defs.Recorders.{Open, Failed};
ghost use Rattle.shunt_search.specs.declared.search_state.Search.{Search as OneSearch};
ghost use Rattle.shunt_search.specs.defs.Judges.{version_of, IsJudge};
ghost use Rattle.shunt_search.specs.defs.WalkStates.{cases_in, IsLifted, AddsChildren};
ghost use Rattle.shunt_search.specs.defs.SearchStates.{IsSearch, IsFresh, Begins, Takes};
ghost use Rattle.shunt_search.specs.defs.SearchStates.{whole_root, branch_root, TellsRoot, TellsOn};

use crate::child_list::add_children;
use crate::child_visits::{is_whole, root_place};
use crate::floors::floors;
use crate::judge::Guide;
use crate::known::kept_plans;
use crate::monotonicity::bounds_rise_in_versions;
use crate::notes::cases_in;
use crate::search::take_whole;
use crate::search_state::Search;
use crate::solved::SolveError;
use crate::steadiness::walks_stay_steady;
use crate::walk_stack::walks_begin;
use shunt_base::copy_cases;
use shunt_blocks::Block;
use shunt_instance::Instance;
use shunt_proof::laws::starts;
use shunt_proof::version_laws::bounds_by_version;
use shunt_proof::{Node, NodeDuals, NodeKind, Recorder};
use shunt_proposals::ProposedTree;
use std::alloc::Global;

/// How a search begins: with a root that is whole, or with a branch whose children are all still to be walked to. The first cases of the
/// stock can be the root's.
fn searches_begin()
    ensures first { (version : Version) (night : Night) (pins : List OneBlock)
        (stock : List (List OneCase)) (s : OneSearch) → IsInstance night
        → IsFresh version night pins stock s
        → IsLifted version night stock s.yard.path.blocks s.known.cost s.floor 0 }
    ensures whole { (version : Version) (night : Night) (pins : List OneBlock)
        (stock : List (List OneCase)) (told now : Option (List OneNode)) (count cases : ℕ)
        (s z w : OneSearch) → IsInstance night → IsFresh version night pins stock s
        → TellsRoot whole_root told now → count ≡ 1 → cases ≡ 0 → Begins s z cases
        → z.waiting.items ≡ [] → next_of (masks_of night s.yard.path.blocks) ≡ None
        → Takes night z w → IsSearch version night pins stock now count cases w.waiting.items w }
    ensures branch { (version : Version) (night : Night) (pins : List OneBlock)
        (stock : List (List OneCase)) (told now : Option (List OneNode)) (count cases : ℕ)
        (s z : OneSearch) (place : ℕ) → IsInstance night → IsFresh version night pins stock s
        → IsLifted version night stock s.yard.path.blocks s.known.cost s.floor place
        → TellsRoot (branch_root (cases_in stock place)) told now → count ≡ 1
        → cases ≡ length (cases_in stock place) → Begins s z cases
        → IsSome (next_of (masks_of night s.yard.path.blocks)) → AddsChildren version night stock
        s.known.cost s.yard.path.blocks 0 place [] z.waiting.items
        → IsSearch version night pins stock now count cases z.waiting.items z }
{
    walks_begin();
    walks_stay_steady();
    kept_plans();
    floors();
    bounds_by_version();
    bounds_rise_in_versions();
    starts();
}

/// Notes a root that is whole.
fn note_whole<R: Recorder>(instance: &Instance, recorder: &mut R) -> Result<(), SolveError>
    requires stage { R.stage recorder.old ≡ Open }
    requires own { R.owns recorder.old instance.now }
    requires none { R.number recorder.old ≡ 0 }
    requires no_cases { R.cases recorder.old ≡ 0 }
    requires told { IfSome (R.told recorder.old) (λ nodes. nodes ≡ []) }
    ensures told { OnOk result (BothTold (R.told recorder.old) (R.told recorder.new)
        (λ old new. new ≡ old ++ whole_root ∷ [])) }
    ensures number { OnOk result (R.number recorder.new ≡ 1) }
    ensures cases { OnOk result (R.cases recorder.new ≡ 0) }
    ensures open { OnOk result (R.stage recorder.new ≡ Open) }
    ensures sound { IsErrOf result SolveError.Memory → R.stage recorder.new ≢ Failed }
    ensures failed { IsErrOf result SolveError.Recorder → R.stage recorder.new ≡ Failed }
    ensures no_matching { (s : OneShortage) → IsErrOf result (SolveError.NoMatching s) → ⊥ }
    ensures own { (night : Night) → R.owns recorder.new night ↔ R.owns recorder.old night }
    ensures cause { HasCause SolveError.Recorder (R.faults recorder.old)
        (R.faults recorder.new) result }
    ensures keeps { R.keeps recorder.old recorder.new }
{
    let root = Node {
        depth: 0,
        choice: None,
        kind: NodeKind::Whole,
        duals: NodeDuals::Bare,
    };
    recorder.note(instance, &root)?;
    Ok(())
}

/// Notes a root that is a branch with the cases at a place of a stock.
fn note_branch<R: Recorder>(
    alloc: Global,
    instance: &Instance,
    tree: &ProposedTree,
    place: usize,
    recorder: &mut R,
) -> Result<(), SolveError>
    requires stock { All (AreStatable instance.now) tree.now.stock.items }
    requires there { place < length tree.now.stock.items }
    requires stage { R.stage recorder.old ≡ Open }
    requires own { R.owns recorder.old instance.now }
    requires none { R.number recorder.old ≡ 0 }
    requires no_cases { R.cases recorder.old ≡ 0 }
    requires told { IfSome (R.told recorder.old) (λ nodes. nodes ≡ []) }
    ensures told { OnOk result (BothTold (R.told recorder.old) (R.told recorder.new)
        (λ old new. new ≡ old ++ branch_root (cases_in tree.now.stock.items place) ∷ [])) }
    ensures number { OnOk result (R.number recorder.new ≡ 1) }
    ensures cases { OnOk result
        (R.cases recorder.new ≡ length (cases_in tree.now.stock.items place)) }
    ensures open { OnOk result (R.stage recorder.new ≡ Open) }
    ensures sound { IsErrOf result SolveError.Memory → R.stage recorder.new ≢ Failed }
    ensures failed { IsErrOf result SolveError.Recorder → R.stage recorder.new ≡ Failed }
    ensures no_matching { (s : OneShortage) → IsErrOf result (SolveError.NoMatching s) → ⊥ }
    ensures own { (night : Night) → R.owns recorder.new night ↔ R.owns recorder.old night }
    ensures cause { HasCause SolveError.Recorder (R.faults recorder.old)
        (R.faults recorder.new) result }
    ensures keeps { R.keeps recorder.old recorder.new }
{
    let cases = copy_cases(alloc, cases_in(tree, place))?;
    let root = Node {
        depth: 0,
        choice: None,
        kind: NodeKind::Branch,
        duals: NodeDuals::New(cases),
    };
    recorder.note(instance, &root)?;
    Ok(())
}

/// Notes the root, and finds its children where it isn't whole.
pub(crate) fn begin<R: Recorder>(
    alloc: Global,
    instance: &Instance,
    pins: &[Block],
    guide: &Guide,
    search: &mut Search,
    recorder: &mut R,
) -> Result<(), SolveError>
    requires judge { IsJudge instance.now guide.now.judge }
    requires fresh { IsFresh
        (version_of guide.now.judge) instance.now pins.now guide.now.tree.stock.items search.old }
    requires stage { R.stage recorder.old ≡ Open }
    requires own { R.owns recorder.old instance.now }
    requires none { R.number recorder.old ≡ 0 }
    requires no_cases { R.cases recorder.old ≡ 0 }
    requires told { IfSome (R.told recorder.old) (λ nodes. nodes ≡ []) }
    ensures search { OnOk result (IsSearch (version_of guide.now.judge) instance.now pins.now
        guide.now.tree.stock.items (R.told recorder.new) (R.number recorder.new)
        (R.cases recorder.new) search.new.waiting.items search.new) }
    ensures number { OnOk result (R.number recorder.new ≡ 1) }
    ensures tells { OnOk result (TellsOn (R.told recorder.old) (R.told recorder.new)) }
    ensures plain { OnOk result (search.new.plain ≡ search.old.plain) }
    ensures cheaper { OnOk result (search.new.known.cost ≤ search.old.known.cost) }
    ensures floor { OnOk result (search.new.floor ≡ search.old.floor) }
    ensures open { OnOk result (R.stage recorder.new ≡ Open) }
    ensures sound { IsErrOf result SolveError.Memory → R.stage recorder.new ≢ Failed }
    ensures failed { IsErrOf result SolveError.Recorder → R.stage recorder.new ≡ Failed }
    ensures no_matching { (s : OneShortage) → IsErrOf result (SolveError.NoMatching s) → ⊥ }
    ensures own { (night : Night) → R.owns recorder.new night ↔ R.owns recorder.old night }
    ensures cause { HasCause SolveError.Recorder (R.faults recorder.old)
        (R.faults recorder.new) result }
    ensures keeps { R.keeps recorder.old recorder.new }
{
    // The calls say what the search is behind its root.
    searches_begin();
    instance.units();
    search.count = 1;
    let whole = is_whole(&search.yard.path);
    if whole {
        search.owned = 0;
        note_whole(instance, recorder)?;
        take_whole(alloc, instance, search)?;
        return Ok(());
    }
    let place = root_place(alloc, instance, guide, search)?;
    search.owned = cases_in(&guide.tree, place).len() as u32;
    note_branch(alloc, instance, &guide.tree, place, recorder)?;
    add_children(
        alloc,
        instance,
        guide,
        place,
        0,
        Some(0),
        search.known.cost,
        &search.yard,
        &mut search.waiting,
    )?;
    Ok(())
}
