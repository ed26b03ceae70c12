// One step of a walk: a child becomes a node.
ghost use Rattle.std.specs.Prelude.{◌≡◌, ◌≢◌, ◌↔◌, ◌∷◌, ◌++◌, [], ◌+◌, ◌<◌, ◌≤◌, ◌≤ℤ◌, true, false};
ghost use Rattle.std.specs.Prelude.{All, None, length, IsSome, IsTrue, IfOk, OnOk, IsErrOf};
ghost use Rattle.shunt_store.specs.defs.Causes.{HasCause};
ghost use Rattle.shunt_store.specs.defs.Files.{BothTold};
ghost use Rattle.shunt_instance.specs.defs.Instance.{Night};
ghost use Rattle.shunt_choices.specs.defs.Paths.{next_of};
ghost use Rattle.shunt_matching.specs.declared.types.Shortage.{Shortage as OneShortage};
ghost use Rattle.shunt_proof.specs.defs.Nodes.{AreStatable};
ghost use Rattle.shunt_proof.specs.defs.Recorders.{Open, Failed};
ghost use Rattle.shunt_search.specs.defs.Judges.{version_of, IsJudge};
ghost use Rattle.shunt_search.specs.defs.Yards.{IsYard};
ghost use Rattle.shunt_search.specs.defs.WalkStates.{cases_in, node_below, cases_of, place_of};
ghost use Rattle.shunt_search.specs.defs.WalkStates.{IsInStock, IsLifted, IsNoted, Opens};
ghost use Rattle.shunt_search.specs.defs.SearchStates.{IsStock, IsReady, Arrives};

use crate::child::Child;
use crate::child_list::add_children;
use crate::children::plan_children;
use crate::judge::{Guide, hold};
use crate::notes::{NodeNoted, cases_in, go_to, next_nodes, note_below};
use crate::search_state::Search;
use crate::solved::SolveError;
use crate::walk_stack::Pending;
use crate::yard::Yard;
use shunt_blocks::laws::few_blocks;
use shunt_choices::Path;
use shunt_instance::Instance;
use shunt_proof::Recorder;
use shunt_proof::version_laws::bounds_by_version;
use shunt_proposals::ProposedTree;
use std::alloc::{AllocError, Global};

/// Whether a path covers all units.
pub(crate) fn is_whole(path: &Path) -> bool
    ensures yes { result ≡ true → next_of path.now.covered ≡ None }
    ensures no { result ≡ false → IsSome (next_of path.now.covered) }
{
    match path.next_unit() {
        None => true,
        Some(_) => false,
    }
}

/// Whether each of these children is bounded by this or more.
fn are_above(children: &[Child], least: i64) -> bool
    ensures { IsTrue result → All (λ c. least ≤ℤ c.bound) children.now }
{
    children.iter().all(|child| child.bound >= least)
}

/// Whether the cases at a place of a stock hold at the yard's path, and bound each of its children by this or more. Err is want of
/// memory.
fn lifts(
    alloc: Global,
    instance: &Instance,
    guide: &Guide,
    place: usize,
    least: i64,
    best: u64,
    yard: &Yard,
) -> Result<bool, AllocError>
    requires judge { IsJudge instance.now guide.now.judge }
    requires yard { IsYard instance.now yard.now }
    requires stock { All (AreStatable instance.now) guide.now.tree.stock.items }
    requires best { best ≤ 1000000000000 }
    ensures { IfOk result (λ yes. yes ≡ true → IsLifted (version_of guide.now.judge) instance.now
        guide.now.tree.stock.items yard.now.path.blocks best least place) }
{
    // The call tells that a path has one bound by cases.
    bounds_by_version();
    if place >= guide.tree.stock.len() {
        return Ok(false);
    }
    let cases = cases_in(&guide.tree, place);
    if !hold(instance, &guide.judge, &yard.path, cases) {
        return Ok(false);
    }
    let children = plan_children(alloc, instance, &guide.judge, yard, cases, best)?;
    Ok(are_above(&children, least))
}

/// The place in the stock of the cases that are proposed for a node.
fn proposed_cases(tree: &ProposedTree, hint: Option<usize>) -> Option<usize> {
    let node = tree.nodes.get(hint?)?;
    node.cases
}

/// How many cases of its own a node has.
fn count_cases(tree: &ProposedTree, how: NodeNoted) -> u32
    requires { IsInStock tree.now.stock.items how }
    ensures { result ≡ cases_of tree.now.stock.items how }
{
    match how {
        NodeNoted::Whole => 0,
        NodeNoted::Same => 0,
        NodeNoted::Own(place) => cases_in(tree, place).len() as u32,
    }
}

/// The place in the stock of a root's cases: those that are proposed for it, where they bound each child by the search's floor or more; else
/// the first. Err is want of memory.
pub(crate) fn root_place(
    alloc: Global,
    instance: &Instance,
    guide: &Guide,
    search: &Search,
) -> Result<usize, AllocError>
    requires judge { IsJudge instance.now guide.now.judge }
    requires yard { IsYard instance.now search.now.yard }
    requires stock { All (AreStatable instance.now) guide.now.tree.stock.items }
    requires best { search.now.known.cost ≤ 1000000000000 }
    requires first { IsLifted (version_of guide.now.judge) instance.now guide.now.tree.stock.items
        search.now.yard.path.blocks search.now.known.cost search.now.floor 0 }
    ensures { IfOk result
        (IsLifted (version_of guide.now.judge) instance.now guide.now.tree.stock.items
        search.now.yard.path.blocks search.now.known.cost search.now.floor) }
{
    let Some(place) = proposed_cases(&guide.tree, Some(0)) else {
        return Ok(0);
    };
    let least = search.floor;
    let best = search.known.cost;
    let better = lifts(alloc, instance, guide, place, least, best, &search.yard)?;
    if !better {
        return Ok(0);
    }
    Ok(place)
}

/// As what a search's path is noted, which is that of a child: as a branch with cases of its own where those that are proposed bound each of
/// its children by no less than its parent's bound it, and there is room for so many. Err is want of memory.
fn noted_as(
    alloc: Global,
    instance: &Instance,
    guide: &Guide,
    next: &Pending,
    search: &Search,
) -> Result<NodeNoted, AllocError>
    requires judge { IsJudge instance.now guide.now.judge }
    requires yard { IsYard instance.now search.now.yard }
    requires stock { All (AreStatable instance.now) guide.now.tree.stock.items }
    requires best { search.now.known.cost ≤ 1000000000000 }
    requires room { search.now.owned ≤ 8000 }
    ensures noted { IfOk result
        (IsNoted (version_of guide.now.judge) instance.now guide.now.tree.stock.items
        search.now.yard.path.blocks search.now.known.cost next.now.child.bound) }
    ensures there { IfOk result (IsInStock guide.now.tree.stock.items) }
    ensures room { IfOk result
        (λ how. search.now.owned + cases_of guide.now.tree.stock.items how ≤ 8000) }
{
    let whole = is_whole(&search.yard.path);
    if whole {
        return Ok(NodeNoted::Whole);
    }
    let Some(place) = proposed_cases(&guide.tree, next.hint) else {
        return Ok(NodeNoted::Same);
    };
    let least = next.child.bound;
    let best = search.known.cost;
    let better = lifts(alloc, instance, guide, place, least, best, &search.yard)?;
    if !better {
        return Ok(NodeNoted::Same);
    }
    if cases_in(&guide.tree, place).len() as u32 > 8000 - search.owned {
        return Ok(NodeNoted::Same);
    }
    Ok(NodeNoted::Own(place))
}

/// The place in the stock of a node's cases, where its parent's are at this one.
fn cases_place(how: NodeNoted, above: usize) -> Option<usize>
    ensures { result ≡ place_of how above }
{
    match how {
        NodeNoted::Whole => None,
        NodeNoted::Same => Some(above),
        NodeNoted::Own(place) => Some(place),
    }
}

/// The children of a branch that was noted come to those that are still to be walked to.
fn list_children(
    alloc: Global,
    instance: &Instance,
    guide: &Guide,
    next: &Pending,
    how: NodeNoted,
    search: &mut Search,
) -> Result<(), AllocError>
    requires judge { IsJudge instance.now guide.now.judge }
    requires yard { IsYard instance.now search.old.yard }
    requires stock { All (AreStatable instance.now) guide.now.tree.stock.items }
    requires inherits { next.now.cases < length guide.now.tree.stock.items }
    requires there { IsInStock guide.now.tree.stock.items how }
    requires best { search.old.known.cost ≤ 1000000000000 }
    ensures opens { OnOk result
        (Opens (version_of guide.now.judge) instance.now guide.now.tree.stock.items
        search.old.known.cost search.old.yard.path.blocks search.old.count
        (place_of how next.now.cases) search.old.waiting.items search.new.waiting.items) }
    ensures yard { search.new.yard ≡ search.old.yard }
    ensures known { search.new.known ≡ search.old.known }
    ensures low { search.new.low ≡ search.old.low }
    ensures floor { search.new.floor ≡ search.old.floor }
    ensures plain { search.new.plain ≡ search.old.plain }
    ensures count { search.new.count ≡ search.old.count }
    ensures owned { search.new.owned ≡ search.old.owned }
{
    let Some(place) = cases_place(how, next.cases) else {
        return Ok(());
    };
    add_children(
        alloc,
        instance,
        guide,
        place,
        search.count as usize,
        next.hint,
        search.known.cost,
        &search.yard,
        &mut search.waiting,
    )
}

/// Goes to a child and notes its node; the children of a branch come to those that are still to be walked to. Ok tells as what its path
/// was noted.
pub(crate) fn visit<R: Recorder>(
    alloc: Global,
    instance: &Instance,
    guide: &Guide,
    next: &Pending,
    search: &mut Search,
    recorder: &mut R,
) -> Result<NodeNoted, SolveError>
    requires judge { IsJudge instance.now guide.now.judge }
    requires yard { IsYard instance.now search.old.yard }
    requires stocked { IsStock instance.now guide.now.tree.stock.items }
    requires ready { IsReady instance.now guide.now.tree.stock.items
        (R.told recorder.old) search.old.yard next.now }
    requires best { search.old.known.cost ≤ 1000000000000 }
    requires stage { R.stage recorder.old ≡ Open }
    requires own { R.owns recorder.old instance.now }
    requires room { R.number recorder.old < 5000 }
    requires count { search.old.count ≡ R.number recorder.old }
    requires cases { search.old.owned ≡ R.cases recorder.old }
    requires case_room { R.cases recorder.old ≤ 8000 }
    ensures arrives { IfOk result (λ how. Arrives (version_of guide.now.judge) instance.now
        guide.now.tree.stock.items search.old search.new next.now how search.old.waiting.items) }
    ensures told { IfOk result (λ how. BothTold (R.told recorder.old) (R.told recorder.new)
        (λ old new. new ≡ old ++ node_below search.old.yard.path.pins next.now.child.block
        guide.now.tree.stock.items how ∷ [])) }
    ensures number { OnOk result (R.number recorder.new ≡ R.number recorder.old + 1) }
    ensures cases { IfOk result (λ how. R.cases recorder.new ≡ R.cases recorder.old
        + cases_of guide.now.tree.stock.items how) }
    ensures open { OnOk result (R.stage recorder.new ≡ Open) }
    ensures sound { IsErrOf result SolveError.Memory → R.stage recorder.new ≢ Failed }
    ensures failed { IsErrOf result SolveError.Recorder → R.stage recorder.new ≡ Failed }
    ensures no_matching { (s : OneShortage) → IsErrOf result (SolveError.NoMatching s) → ⊥ }
    ensures own { (night : Night) → R.owns recorder.new night ↔ R.owns recorder.old night }
    ensures cause { HasCause SolveError.Recorder (R.faults recorder.old)
        (R.faults recorder.new) result }
    ensures keeps { R.keeps recorder.old recorder.new }
{
    // The calls tell that the node fits, and that there are at most 160 blocks.
    next_nodes();
    few_blocks();
    instance.units();
    let pins = search.yard.path.pins();
    go_to(instance, &mut search.yard, &next.child);
    let how = noted_as(alloc, instance, guide, next, search)?;
    let own = count_cases(&guide.tree, how);
    note_below(
        alloc,
        instance,
        pins,
        &next.child.block,
        &guide.tree,
        how,
        recorder,
    )?;
    list_children(alloc, instance, guide, next, how, search)?;
    search.count += 1;
    search.owned += own;
    Ok(how)
}
