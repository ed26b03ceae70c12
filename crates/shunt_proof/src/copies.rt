// Copies of nodes.
ghost use Rattle.std.specs.Prelude.{◌≡◌, ◌≤◌, length, IfOk};

use crate::records::{Node, NodeDuals};
use shunt_base::copy_cases;
use std::alloc::{AllocError, Global};

fn copy_own(alloc: Global, duals: &NodeDuals) -> Result<NodeDuals, AllocError>
    ensures { IfOk result (λ d. d ≡ duals.now) }
{
    match duals {
        NodeDuals::Same => Ok(NodeDuals::Same),
        NodeDuals::New(cases) => Ok(NodeDuals::New(copy_cases(alloc, cases)?)),
        NodeDuals::Bare => Ok(NodeDuals::Bare),
    }
}

/// The same node again. The error is want of memory.
pub(crate) fn copy_node(alloc: Global, node: &Node) -> Result<Node, AllocError>
    ensures { IfOk result (λ n. n ≡ node.now) }
{
    let duals = copy_own(alloc, &node.duals)?;
    Ok(Node {
        depth: node.depth,
        choice: node.choice,
        kind: node.kind,
        duals,
    })
}
