// A recorder in memory.
ghost use Rattle.std.specs.Prelude.{◌≡◌, ◌++◌, ◌∷◌, [], ◌+◌, ◌<◌, ◌≤◌, ℕ, Some, length, OnOk};
ghost use Rattle.std.specs.Prelude.{OnErr};
ghost use Rattle.shunt_proof.specs.defs.Certificates.{own_cases};
ghost use Rattle.shunt_proof.specs.defs.Recorders.{Open, Stalled, Finished};

use crate::copies::copy_node;
use crate::recorder::{RecordError, Recorder};
use crate::records::{Certificate, Node, NodeDuals, Version};
use shunt_instance::Instance;
use shunt_lists::Items;
use std::alloc::{AllocError, Global};
use std::marker::Model;

// What it can do.
#[derive(Clone, Copy, Debug, PartialEq, Eq, Drop)]
pub enum ListState {
    Open,
    Stalled,
    Finished(u64, u64),
}

/// Keeps nodes in memory, as copies, in their order. It never faults, and every instance is its own.
#[derive(Debug, Drop)]
pub struct ListRecorder {
    alloc: Global,
    version: Version,
    nodes: Vec<Node>,
    cases: u32,
    doing: ListState,
}

impl Model for ListRecorder {
    ghost use Rattle.shunt_proof.specs.defs.ListRecorders.{Listed, stage_of};

    ghost Value = { Listed };

    ghost view = { λ r. record {
      version = r.version;
      nodes = r.nodes.items;
      cases = r.cases;
      stage = stage_of r.doing;
    } };
}

// How many cases of its own a node has: 0, 1 or 2.
pub(crate) fn own_cases(duals: &NodeDuals) -> u32
    ensures { result ≡ own_cases duals.now }
{
    match duals {
        NodeDuals::New(cases) => cases.len() as u32,
        _ => 0,
    }
}

impl ListRecorder {
    /// An open recorder of a certificate of this version, without nodes. It takes no memory.
    pub fn new(alloc: Global, version: Version) -> ListRecorder
        ensures { result ≡ record { version = version; nodes = []; cases = 0; stage = Open } }
    {
        ListRecorder {
            alloc,
            version,
            nodes: Vec::new(alloc),
            cases: 0,
            doing: ListState::Open,
        }
    }

    // Notes a copy of a node.
    fn add(&mut self, node: &Node) -> Result<(), AllocError>
        requires { self.old.cases + own_cases node.now.duals ≤ 8000 }
        ensures { OnOk result (self.new ≡ record self.old {
          nodes = self.old.nodes ++ node.now ∷ [];
          cases = self.old.cases + own_cases node.now.duals;
        }) }
    {
        self.nodes.push(copy_node(self.alloc, node)?)?;
        self.cases += own_cases(&node.duals);
        Ok(())
    }

    /// The certificate of a finished recorder: its nodes, and the cost and the bound that it was finished with.
    pub fn certificate(self) -> Certificate
        requires { (cost : ℕ) × (bound : ℕ) × (self.stage ≡ Finished cost bound) }
        ensures version { result.version ≡ self.version }
        ensures nodes { result.nodes ≡ self.nodes }
        ensures stated { self.stage ≡ Finished result.cost result.bound }
    {
        let (cost, bound) = match self.doing {
            ListState::Finished(cost, bound) => (cost, bound),
            _ => unreachable!(),
        };
        Certificate {
            version: self.version,
            nodes: Items::from_vec(self.nodes),
            cost,
            bound,
        }
    }
}

impl Recorder for ListRecorder {
    ghost owns = { λ r night. Unit };

    ghost told = { λ r. Some r.nodes };

    ghost number = { λ r. length r.nodes };

    ghost cases = { λ r. r.cases };

    ghost stage = { λ r. r.stage };

    ghost faults = { λ r. 0 };

    ghost keeps = { λ a b. Unit };

    ghost keeps_same = { λ a. tt };

    ghost keeps_on = { λ a b c h k. tt };

    fn note(&mut self, _: &Instance, node: &Node) -> Result<(), RecordError> {
        if self.add(node).is_err() {
            self.doing = ListState::Stalled;
            return Err(RecordError::Memory);
        }
        Ok(())
    }

    fn restart(&mut self) -> Result<(), RecordError> {
        self.nodes = Vec::new(self.alloc);
        self.cases = 0;
        Ok(())
    }

    fn finish(&mut self, cost: u64, bound: u64) -> Result<(), RecordError> {
        self.doing = ListState::Finished(cost, bound);
        Ok(())
    }
}
