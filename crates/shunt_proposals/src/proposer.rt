// What proposes.
ghost use Rattle.std.specs.Prelude.{◌≤◌, All, IfOk};
ghost use Rattle.shunt_choices.specs.defs.Paths.{IsTrailOf};
ghost use Rattle.shunt_prices.specs.defs.Limits.{AreApart, IsCase, AreCases};

use crate::tree::ProposedTree;
use shunt_base::{Case, Cases};
use shunt_choices::Path;
use shunt_instance::Instance;
use std::alloc::{AllocError, Global};

/// One case that is to bound much at a path, from which two can be made, cases with stacks, and trees. Cases are within the limits of a
/// certificate; nothing is said of whether they hold, nor of what they bound.
pub trait Proposer: Drop {
    /// What the steps, levels and temperatures of a search count in, in cost units, so that they fit nights of any costs. Err is want of
    /// memory.
    fn grain(alloc: Global, instance: &Instance) -> Result<u32, AllocError>
        ensures least { IfOk result (λ g. 1 ≤ g) }
        ensures most { IfOk result (λ g. g ≤ 100000) };

    /// A proposal for a path. Err is want of memory.
    fn new(alloc: Global, instance: &Instance, path: &Path) -> Result<Self, AllocError>
        requires { IsTrailOf instance.now path.now };

    /// The case, which speaks of all numbers of unparked blocks. Err is want of memory.
    fn case(&self, alloc: Global, instance: &Instance) -> Result<Case, AllocError>
        ensures case { IfOk result (IsCase instance.now) }
        ensures apart { IfOk result (λ c. AreApart c.duals.prices) };

    /// The case alone, or two that are parted near a number of unparked blocks where these are to bound more: that of a good plan, whose
    /// cost in cost units no bound has to exceed. Err is want of memory.
    fn parted(
        &self,
        alloc: Global,
        instance: &Instance,
        unparked: u8,
        cost: u64,
    ) -> Result<Cases, AllocError>
        ensures cases { IfOk result (AreCases instance.now) }
        ensures apart { IfOk result (All (λ c. AreApart c.duals.prices)) };

    /// Cases with stacks at the proposal's path, from cases there without: one, or two that are parted near a number of unparked blocks where
    /// these are to bound more: that of a good plan, whose cost in cost units no bound has to exceed. Err is want of memory.
    fn with_stacks(
        &self,
        alloc: Global,
        instance: &Instance,
        path: &Path,
        cases: &Cases,
        unparked: u8,
        cost: u64,
    ) -> Result<Cases, AllocError>
        requires { IsTrailOf instance.now path.now }
        ensures cases { IfOk result (AreCases instance.now) }
        ensures apart { IfOk result (All (λ c. AreApart c.duals.prices)) };

    /// A tree of partial plans from a path on, of that many nodes at most: from the cases at its root, which came from this proposal, and
    /// what the best plan that is known costs in cost units. Node 0 is to be the root, and the first of the stock those cases. Nothing is
    /// said of what the tree is worth. Err is want of memory.
    fn propose(
        &self,
        alloc: Global,
        instance: &Instance,
        start: &Path,
        cases: &Cases,
        cost: u64,
        nodes: u32,
    ) -> Result<ProposedTree, AllocError>
        requires { IsTrailOf instance.now start.now }
        ensures cases { IfOk result (λ t. All (AreCases instance.now) t.stock.items) }
        ensures apart { IfOk result (λ t. All (All (λ c. AreApart c.duals.prices)) t.stock.items) };

    /// The same with stacks: the cases at the root are cases with stacks, as are those at nodes. The prices at nodes are those of the root's
    /// cases, so no proposal is asked for. Err is want of memory.
    fn propose_with_stacks(
        alloc: Global,
        instance: &Instance,
        start: &Path,
        cases: &Cases,
        cost: u64,
        nodes: u32,
    ) -> Result<ProposedTree, AllocError>
        requires { IsTrailOf instance.now start.now }
        ensures cases { IfOk result (λ t. All (AreCases instance.now) t.stock.items) }
        ensures apart { IfOk result (λ t. All (All (λ c. AreApart c.duals.prices)) t.stock.items) };
}
