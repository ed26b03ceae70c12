// One step of a walk: the yard goes to a child, and its node is noted.
ghost use Rattle.std.specs.Prelude.{◌≡◌, ◌≢◌, ◌↔◌, ◌∷◌, ◌++◌, [], ◌+◌, ◌<◌, ◌≤◌, All, List, take};
ghost use Rattle.std.specs.Prelude.{length, IfOk, OnOk, IfSome, IsErrOf};
ghost use Rattle.shunt_store.specs.defs.Causes.{HasCause};
ghost use Rattle.shunt_store.specs.defs.Files.{BothTold};
ghost use Rattle.shunt_base.specs.declared.duals.Case.{Case as OneCase};
ghost use Rattle.shunt_instance.specs.defs.Instance.{Night, IsInstance};
ghost use Rattle.shunt_blocks.specs.declared.records.Block.{Block as OneBlock};
ghost use Rattle.shunt_blocks.specs.defs.Lists.{RunsThrough, placed};
ghost use Rattle.shunt_matching.specs.declared.types.Shortage.{Shortage as OneShortage};
ghost use Rattle.shunt_proof.specs.defs.Nodes.{AreStatable, FitsNode, CanFollow};
ghost use Rattle.shunt_proof.specs.defs.Recorders.{Open, Failed};
ghost use Rattle.shunt_search.specs.declared.child.Child.{Child as OneChild};
ghost use Rattle.shunt_search.specs.declared.notes.NodeNoted.{NodeNoted as OneNoted};
ghost use Rattle.shunt_search.specs.defs.Yards.{IsYard, IsNextBlock};
ghost use Rattle.shunt_search.specs.defs.WalkStates.{kept, goal_of, cases_in, IsNodeOf, stated};
ghost use Rattle.shunt_search.specs.defs.WalkStates.{node_below, IsInStock, cases_of};

use crate::child::Child;
use crate::solved::SolveError;
use crate::yard::Yard;
use shunt_base::{Cases, copy_cases};
use shunt_blocks::Block;
use shunt_blocks::laws::places;
use shunt_instance::Instance;
use shunt_instance::laws::instances;
use shunt_proof::{Choice, Node, NodeDuals, NodeKind, Recorder};
use shunt_proposals::ProposedTree;
use std::alloc::{AllocError, Global};

/// As what a path is noted.
#[derive(Clone, Copy)]
pub enum NodeNoted {
    /// A whole path.
    Whole,
    /// A branch with its parent's cases.
    Same,
    /// A branch with cases of its own, which are at this place of the stock.
    Own(usize),
}

/// The node of a child is one that a file can state.
pub(crate) fn next_nodes()
    ensures { (night : Night) (stock : List (List OneCase)) (start path : List OneBlock)
        (t : OneChild) (how : OneNoted) → IsInstance night → All (AreStatable night) stock
        → IsInStock stock how → IsNextBlock night (take (kept t) path) t.block
        → length start < t.block.id → t.block.id ≤ length start + 160
        → IsNodeOf night start path t (node_below (length start) t.block stock how) }
{
    instances();
    places();
}

/// The cases at a place of a tree's stock.
pub(crate) fn cases_in(tree: &ProposedTree, place: usize) -> &Cases
    requires { place < length tree.now.stock.items }
    ensures { result.now ≡ cases_in tree.now.stock.items place }
{
    &tree.stock[place]
}

/// What a node states of a block.
fn stated(block: &Block) -> Choice
    ensures { result ≡ stated block.now }
{
    Choice {
        n: block.n,
        dep: block.dep,
        q: block.q,
        park: block.park,
    }
}

/// The node of a next block, that many pins before the first node's, as it is noted. Err is want of memory.
fn node_below(
    alloc: Global,
    pins: usize,
    block: &Block,
    tree: &ProposedTree,
    how: NodeNoted,
) -> Result<Node, AllocError>
    requires deep { pins < block.now.id }
    requires few { block.now.id ≤ pins + 160 }
    requires there { IsInStock tree.now.stock.items how }
    ensures { IfOk result (λ n. n ≡ node_below pins block.now tree.now.stock.items how) }
{
    let depth = (block.id as usize - pins) as u8;
    let choice = Some(stated(block));
    match how {
        NodeNoted::Whole => Ok(Node {
            depth,
            choice,
            kind: NodeKind::Whole,
            duals: NodeDuals::Bare,
        }),
        NodeNoted::Same => Ok(Node {
            depth,
            choice,
            kind: NodeKind::Branch,
            duals: NodeDuals::Same,
        }),
        NodeNoted::Own(place) => {
            let cases = copy_cases(alloc, cases_in(tree, place))?;
            Ok(Node {
                depth,
                choice,
                kind: NodeKind::Branch,
                duals: NodeDuals::New(cases),
            })
        }
    }
}

/// The yard's path becomes that of a child.
pub(crate) fn go_to(instance: &Instance, yard: &mut Yard, next: &Child)
    requires yard { IsYard instance.now yard.old }
    requires pins { yard.old.path.pins ≤ kept next.now }
    requires there { kept next.now ≤ length yard.old.path.blocks }
    requires next { IsNextBlock instance.now
        (take (kept next.now) yard.old.path.blocks) next.now.block }
    requires through { RunsThrough instance.now (placed (goal_of yard.old.path.blocks next.now)) }
    ensures path { yard.new.path.blocks ≡ goal_of yard.old.path.blocks next.now }
    ensures pins { yard.new.path.pins ≡ yard.old.path.pins }
    ensures yard { IsYard instance.now yard.new }
{
    yard.back_to(instance, next.block.id as usize - 1);
    yard.push(instance, next.block);
}

/// Notes the node of a next block, that many pins before the first node's.
pub(crate) fn note_below<R: Recorder>(
    alloc: Global,
    instance: &Instance,
    pins: usize,
    block: &Block,
    tree: &ProposedTree,
    how: NodeNoted,
    recorder: &mut R,
) -> Result<(), SolveError>
    requires deep { pins < block.now.id }
    requires few { block.now.id ≤ pins + 160 }
    requires there { IsInStock tree.now.stock.items how }
    requires stage { R.stage recorder.old ≡ Open }
    requires own { R.owns recorder.old instance.now }
    requires room { R.number recorder.old < 5000 }
    requires case_room { R.cases recorder.old + cases_of tree.now.stock.items how ≤ 8000 }
    requires fits { FitsNode instance.now (node_below pins block.now tree.now.stock.items how) }
    requires place { IfSome (R.told recorder.old)
        (λ nodes. CanFollow nodes (node_below pins block.now tree.now.stock.items how)) }
    ensures told { OnOk result (BothTold (R.told recorder.old) (R.told recorder.new)
        (λ old new. new ≡ old ++ node_below pins block.now tree.now.stock.items how ∷ [])) }
    ensures number { OnOk result (R.number recorder.new ≡ R.number recorder.old + 1) }
    ensures cases { OnOk result
        (R.cases recorder.new ≡ R.cases recorder.old + cases_of tree.now.stock.items how) }
    ensures open { OnOk result (R.stage recorder.new ≡ Open) }
    ensures sound { IsErrOf result SolveError.Memory → R.stage recorder.new ≢ Failed }
    ensures failed { IsErrOf result SolveError.Recorder → R.stage recorder.new ≡ Failed }
    ensures no_matching { (s : OneShortage) → IsErrOf result (SolveError.NoMatching s) → ⊥ }
    ensures own { (night : Night) → R.owns recorder.new night ↔ R.owns recorder.old night }
    ensures cause { HasCause SolveError.Recorder (R.faults recorder.old)
        (R.faults recorder.new) result }
    ensures keeps { R.keeps recorder.old recorder.new }
{
    let node = node_below(alloc, pins, block, tree, how)?;
    recorder.note(instance, &node)?;
    Ok(())
}
