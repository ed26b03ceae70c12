// The tree that a walk is to follow.
ghost use Rattle.std.specs.Prelude.{◌≡◌, All, IfOk};
ghost use Rattle.shunt_instance.specs.defs.Instance.{Night};
ghost use Rattle.shunt_choices.specs.defs.Paths.{IsTrailOf};
ghost use Rattle.shunt_prices.specs.defs.Limits.{AreApart, AreCases};
ghost use Rattle.shunt_proof.specs.defs.Nodes.{AreStatable};
ghost use Rattle.shunt_search.specs.defs.WalkStates.{cases_in};
ghost use Rattle.shunt_search.specs.defs.SearchStates.{IsStock};

use crate::judge::Judge;
use shunt_base::Cases;
use shunt_choices::Path;
use shunt_instance::Instance;
use shunt_proposals::{ProposedTree, Proposer};
use std::alloc::{AllocError, Global};

/// The tree, with these cases as the first of its stock.
fn with_root(mut tree: ProposedTree, cases: Cases) -> Result<ProposedTree, AllocError>
    ensures stock { (night : Night) → All (AreStatable night) tree.stock.items
        → AreStatable night cases → IfOk result (λ t. IsStock night t.stock.items) }
    ensures root { IfOk result (λ t. cases_in t.stock.items 0 ≡ cases) }
{
    let none = tree.stock.is_empty();
    if none {
        tree.stock.push(cases)?;
        return Ok(tree);
    }
    tree.stock[0] = cases;
    Ok(tree)
}

/// A tree that is proposed for a path, as paths are judged. Err is want of memory.
fn proposed<P: Proposer>(
    alloc: Global,
    instance: &Instance,
    judge: &Judge,
    path: &Path,
    proposal: &P,
    cases: &Cases,
    cost: u64,
    nodes: u32,
) -> Result<ProposedTree, AllocError>
    requires { IsTrailOf instance.now path.now }
    ensures cases { IfOk result (λ t. All (AreCases instance.now) t.stock.items) }
    ensures apart { IfOk result (λ t. All (All (λ c. AreApart c.duals.prices)) t.stock.items) }
{
    match judge {
        Judge::Prices => proposal.propose(alloc, instance, path, cases, cost, nodes),
        Judge::Stacks(_) => P::propose_with_stacks(alloc, instance, path, cases, cost, nodes),
    }
}

/// A tree of at most that many nodes that is proposed for a path, as paths are judged, the first of whose stock are these cases, which came from a proposal. A
/// plan is known that costs this many cost units. Err is want of memory.
pub(crate) fn proposed_tree<P: Proposer>(
    alloc: Global,
    instance: &Instance,
    judge: &Judge,
    path: &Path,
    proposal: &P,
    cases: Cases,
    cost: u64,
    nodes: u32,
) -> Result<ProposedTree, AllocError>
    requires path { IsTrailOf instance.now path.now }
    requires statable { AreStatable instance.now cases }
    ensures stock { IfOk result (λ t. IsStock instance.now t.stock.items) }
    ensures root { IfOk result (λ t. cases_in t.stock.items 0 ≡ cases) }
{
    let tree = proposed(alloc, instance, judge, path, proposal, &cases, cost, nodes)?;
    let own = with_root(tree, cases)?;
    Ok(own)
}
