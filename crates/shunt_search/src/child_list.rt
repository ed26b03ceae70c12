// The children of a node come to those that are still to be walked to.
ghost use Rattle.std.specs.Prelude.{◌≡◌, ◌<◌, ◌≤◌, length, All, OnOk};
ghost use Rattle.shunt_proof.specs.defs.Nodes.{AreStatable};
ghost use Rattle.shunt_search.specs.defs.Judges.{version_of, IsJudge};
ghost use Rattle.shunt_search.specs.defs.Yards.{IsYard};
ghost use Rattle.shunt_search.specs.defs.WalkStates.{AddsChildren, Adds};

use crate::child::Child;
use crate::children::plan_children;
use crate::judge::Guide;
use crate::notes::cases_in;
use crate::walk_stack::Pending;
use crate::yard::Yard;
use shunt_blocks::Block;
use shunt_instance::Instance;
use shunt_proposals::ProposedTree;
use std::alloc::{AllocError, Global};

/// Whether two blocks are one choice.
pub(crate) fn is_same_choice(a: &Block, b: &Block) -> bool {
    let same_run = a.arr == b.arr && a.p == b.p && a.n == b.n;
    same_run && a.dep == b.dep && a.q == b.q && a.park == b.park
}

/// Whether the node at a place of a proposal is longer by this block than its parent.
fn is_proposed(tree: &ProposedTree, place: usize, block: &Block) -> bool {
    let Some(node) = tree.nodes.get(place) else {
        return false;
    };
    match &node.block {
        Some(other) => is_same_choice(other, block),
        None => false,
    }
}

/// The place of the node that a proposal lists below another one for a block.
fn listed(tree: &ProposedTree, hint: Option<usize>, block: &Block) -> Option<usize> {
    let node = tree.nodes.get(hint?)?;
    for place in &node.children {
        if is_proposed(tree, *place, block) {
            return Some(*place);
        }
    }
    None
}

/// A child of a node, as it waits.
fn pending(
    tree: &ProposedTree,
    hint: Option<usize>,
    child: &Child,
    parent: usize,
    cases: usize,
) -> Pending
    ensures child { result.child ≡ child.now }
    ensures parent { result.parent ≡ parent }
    ensures cases { result.cases ≡ cases }
{
    Pending {
        child: *child,
        parent,
        cases,
        hint: listed(tree, hint, &child.block),
    }
}

/// These children of a node come to those that are still to be walked to.
fn wait_for(
    tree: &ProposedTree,
    hint: Option<usize>,
    children: &[Child],
    parent: usize,
    cases: usize,
    waiting: &mut Vec<Pending>,
) -> Result<(), AllocError>
    ensures { OnOk result (Adds children.now parent cases waiting.old.items waiting.new.items) }
{
    for child in children {
        waiting.push(pending(tree, hint, child, parent, cases))?;
    }
    Ok(())
}

/// The children of the yard's path come to those that are still to be walked to, as those of the node with this number, whose cases are
/// at this place of the stock.
pub(crate) fn add_children(
    alloc: Global,
    instance: &Instance,
    guide: &Guide,
    cases: usize,
    parent: usize,
    hint: Option<usize>,
    best: u64,
    yard: &Yard,
    waiting: &mut Vec<Pending>,
) -> Result<(), AllocError>
    requires judge { IsJudge instance.now guide.now.judge }
    requires yard { IsYard instance.now yard.now }
    requires stock { All (AreStatable instance.now) guide.now.tree.stock.items }
    requires cases { cases < length guide.now.tree.stock.items }
    requires best { best ≤ 1000000000000 }
    ensures { OnOk result
        (AddsChildren (version_of guide.now.judge) instance.now guide.now.tree.stock.items best
        yard.now.path.blocks parent cases waiting.old.items waiting.new.items) }
{
    let own = cases_in(&guide.tree, cases);
    let children = plan_children(alloc, instance, &guide.judge, yard, own, best)?;
    wait_for(&guide.tree, hint, &children, parent, cases, waiting)
}
