// What the children of a node say.
ghost use Rattle.std.specs.Prelude.{◌≡◌, ◌<◌, ◌≤◌, ◌+◌, ◌↔◌, IsTrue, List, length};
ghost use Rattle.shunt_blocks.specs.declared.records.Block.{Block as ABlock};
ghost use Rattle.shunt_proof.specs.defs.Nodes.{AreNodes};
ghost use Rattle.shunt_proof.specs.defs.Trees.{depth_at, IsChildOf, path_at, choice_from};
ghost use Rattle.shunt_proof.specs.defs.Proves.{IsListed};
ghost use Rattle.shunt_checker.specs.defs.NodeFaults.{HasTwin};
ghost use Rattle.shunt_checker.specs.defs.Children.{HasChild, StatesAt};

use shunt_instance::Instance;
use shunt_proof::laws::children;
use shunt_proof::{Choice, Node};

/// How many nodes stand above the node with a number.
pub(crate) fn depth_of(nodes: &[Node], k: usize) -> u16
    requires { k < length nodes.now }
    ensures exact { result ≡ depth_at nodes.now k }
    ensures small { result ≤ 255 }
{
    nodes[k].depth as u16
}

/// Whether the node with a number has a depth and states a choice.
fn states_at(nodes: &[Node], depth: u16, choice: Choice, j: usize) -> bool
    requires { j < length nodes.now }
    ensures { IsTrue result ↔ StatesAt nodes.now depth choice j }
{
    if depth_of(nodes, j) != depth {
        return false;
    }
    nodes[j].choice == Some(choice)
}

/// Whether an earlier child of a node's parent has this choice.
pub(crate) fn has_twin(
    instance: &Instance,
    nodes: &[Node],
    parent: usize,
    k: usize,
    choice: Choice,
) -> bool
    requires nodes { AreNodes instance.now nodes.now }
    requires child { IsChildOf nodes.now parent k }
    ensures { IsTrue result ↔ HasTwin nodes.now k choice }
{
    // The nodes one deeper than the parent are its children, up to the next that is no deeper than it.
    children();
    let depth = depth_of(nodes, k);
    for j in parent..k {
        if states_at(nodes, depth, choice, j) {
            return true;
        }
    }
    false
}

/// Whether a child of a node has this choice: a look ahead, up to the next node that is no deeper than it.
pub(crate) fn has_child(instance: &Instance, nodes: &[Node], k: usize, choice: Choice) -> bool
    requires nodes { AreNodes instance.now nodes.now }
    requires there { k < length nodes.now }
    ensures { IsTrue result ↔ HasChild nodes.now k choice }
{
    children();
    let depth = depth_of(nodes, k);
    for j in k + 1..nodes.len() {
        if depth_of(nodes, j) <= depth {
            return false;
        }
        if states_at(nodes, depth + 1, choice, j) {
            return true;
        }
    }
    false
}

/// Whether a node lists a choice at its path.
pub(crate) fn lists(instance: &Instance, nodes: &[Node], k: usize, choice: Choice) -> bool
    requires nodes { AreNodes instance.now nodes.now }
    requires there { k < length nodes.now }
    ensures { (start : List ABlock) → IsTrue result ↔ IsListed instance.now start nodes.now k
        (choice_from instance.now (path_at instance.now start nodes.now k) choice) }
{
    has_child(instance, nodes, k, choice)
}
