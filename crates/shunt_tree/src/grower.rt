// What proposes cases by ascents, and trees that grow from them.

use crate::proposal::{propose, propose_with_stacks};
use shunt_ascent::{Proposal, grain};
use shunt_base::{Case, Cases};
use shunt_choices::Path;
use shunt_instance::Instance;
use shunt_proposals::{ProposedTree, Proposer};
use std::alloc::{AllocError, Global};

/// A case that came from an ascent at a path, from which cases ascend on and trees grow.
#[derive(Drop)]
pub struct Grower {
    proposal: Proposal,
}

impl Proposer for Grower {
    fn grain(alloc: Global, instance: &Instance) -> Result<u32, AllocError> {
        grain(alloc, instance)
    }

    fn new(alloc: Global, instance: &Instance, path: &Path) -> Result<Self, AllocError> {
        let proposal = Proposal::new(alloc, instance, path)?;
        Ok(Grower { proposal })
    }

    fn case(&self, alloc: Global, instance: &Instance) -> Result<Case, AllocError> {
        self.proposal.case(alloc, instance)
    }

    fn parted(
        &self,
        alloc: Global,
        instance: &Instance,
        unparked: u8,
        cost: u64,
    ) -> Result<Cases, AllocError> {
        self.proposal.parted(alloc, instance, unparked, cost)
    }

    fn with_stacks(
        &self,
        alloc: Global,
        instance: &Instance,
        path: &Path,
        cases: &Cases,
        unparked: u8,
        cost: u64,
    ) -> Result<Cases, AllocError> {
        self.proposal
            .with_stacks(alloc, instance, path, cases, unparked, cost)
    }

    fn propose(
        &self,
        alloc: Global,
        instance: &Instance,
        start: &Path,
        cases: &Cases,
        cost: u64,
        nodes: u32,
    ) -> Result<ProposedTree, AllocError> {
        propose(alloc, instance, start, &self.proposal, cases, cost, nodes)
    }

    fn propose_with_stacks(
        alloc: Global,
        instance: &Instance,
        start: &Path,
        cases: &Cases,
        cost: u64,
        nodes: u32,
    ) -> Result<ProposedTree, AllocError> {
        propose_with_stacks(alloc, instance, start, cases, cost, nodes)
    }
}
