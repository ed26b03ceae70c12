// Trees that are proposed.
ghost use Rattle.std.specs.Prelude.{◌≡◌, ◌∷◌, [], IfOk};

use shunt_base::Cases;
use shunt_blocks::Block;
use std::alloc::{AllocError, Global};

/// A node that is proposed.
#[derive(Drop)]
pub struct Proposed {
    /// The block that its path is longer by than its parent's, whose id says nothing; None for the root.
    pub block: Option<Block>,
    /// The place in the stock of cases of its own; None where it has its parent's.
    pub cases: Option<usize>,
    /// The places of its children among the nodes.
    pub children: Vec<usize>,
}

/// A tree that is proposed: its nodes, the root first, and a stock of cases, the root's first. Some nodes may be no other's children.
#[derive(Drop)]
pub struct ProposedTree {
    pub stock: Vec<Cases>,
    pub nodes: Vec<Proposed>,
    /// The blocks of a cheaper plan than the one that is known, whose ids say nothing; none where none was found.
    pub plan: Vec<Block>,
}

impl ProposedTree {
    /// A root with these cases and no children. Err is want of memory.
    pub fn root_alone(alloc: Global, cases: Cases) -> Result<ProposedTree, AllocError>
        ensures { IfOk result (λ t. t.stock.items ≡ cases ∷ []) }
    {
        let mut stock = Vec::new(alloc);
        stock.push(cases)?;
        let mut nodes = Vec::new(alloc);
        nodes.push(Proposed {
            block: None,
            cases: Some(0),
            children: Vec::new(alloc),
        })?;
        Ok(ProposedTree {
            stock,
            nodes,
            plan: Vec::new(alloc),
        })
    }
}
