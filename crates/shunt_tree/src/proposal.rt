// A tree that was grown, as it is proposed.
ghost use Rattle.std.specs.Prelude.{All, IfOk, OnOk};
ghost use Rattle.shunt_choices.specs.defs.Paths.{IsTrailOf};
ghost use Rattle.shunt_prices.specs.defs.Limits.{AreApart, AreCases};

use crate::grounds::Ground;
use crate::growth::Tree;
use crate::nodes::{TreeNode, cases_at};
use shunt_ascent::{Proposal, Raised, Site, StackSite};
use shunt_base::Cases;
use shunt_choices::Path;
use shunt_instance::Instance;
use shunt_proposals::{Proposed, ProposedTree};
use std::alloc::{AllocError, Global};

// The first of two cases at a root, with its sum.
fn first_case(
    alloc: Global,
    ground: &mut Ground,
    cases: &Cases,
) -> Result<Option<Raised>, AllocError> {
    if cases.len() < 2 {
        return Ok(None);
    }
    let first = ground.taken_over(alloc, cases.get(0), 0)?;
    Ok(Some(first))
}

// The last case at a root, with its sum.
fn last_case(alloc: Global, ground: &mut Ground, cases: &Cases) -> Result<Raised, AllocError> {
    if cases.len() < 2 {
        return ground.taken_over(alloc, cases.get(0), 0);
    }
    let from = cases.get(0).to.saturating_add(1);
    ground.taken_over(alloc, cases.get(1), from)
}

// The cases of a root.
fn root_cases(
    alloc: Global,
    instance: &Instance,
    ground: &Ground,
    first: &Option<Raised>,
    last: &Raised,
) -> Result<Cases, AllocError>
    ensures cases { IfOk result (AreCases instance.now) }
    ensures apart { IfOk result (All (λ c. AreApart c.duals.prices)) }
{
    match first {
        Some(first) => ground.stated(alloc, instance, Some(&first.case), &last.case),
        None => ground.stated(alloc, instance, None, &last.case),
    }
}

// Adds cases to a stock.
fn add_cases(instance: &Instance, cases: Cases, stock: &mut Vec<Cases>) -> Result<(), AllocError>
    requires cases { AreCases instance.now cases }
    requires apart { All (λ c. AreApart c.duals.prices) cases }
    requires all_cases { All (AreCases instance.now) stock.old.items }
    requires all_apart { All (All (λ c. AreApart c.duals.prices)) stock.old.items }
    ensures cases { OnOk result (All (AreCases instance.now) stock.new.items) }
    ensures apart { OnOk result (All (All (λ c. AreApart c.duals.prices)) stock.new.items) }
{
    stock.push(cases)?;
    Ok(())
}

// Adds the cases at a node to a stock. Answers their place.
fn add_own(
    alloc: Global,
    instance: &Instance,
    tree: &Tree,
    place: usize,
    stock: &mut Vec<Cases>,
) -> Result<Option<usize>, AllocError>
    requires all_cases { All (AreCases instance.now) stock.old.items }
    requires all_apart { All (All (λ c. AreApart c.duals.prices)) stock.old.items }
    ensures cases { OnOk result (All (AreCases instance.now) stock.new.items) }
    ensures apart { OnOk result (All (All (λ c. AreApart c.duals.prices)) stock.new.items) }
{
    let Some(own) = cases_at(&tree.nodes, place) else {
        return Ok(None);
    };
    let cases = tree.ground().stated(alloc, instance, own.first, own.last)?;
    let at = stock.len();
    add_cases(instance, cases, stock)?;
    Ok(Some(at))
}

// Whether a node's own cases are needed for a bound of the tree, or those that it would have from above do.
fn needs_own(tree: &Tree, node: &TreeNode, bound: i64) -> bool {
    if !node.is_lifted || node.bound >= tree.cost {
        return false;
    }
    node.block.is_none() || !node.children.is_empty() || node.inherited < bound
}

// The place of a node's cases in a stock, to which they are added where they are its own.
fn cases_of(
    alloc: Global,
    instance: &Instance,
    tree: &Tree,
    bound: i64,
    place: usize,
    node: &TreeNode,
    stock: &mut Vec<Cases>,
) -> Result<Option<usize>, AllocError>
    requires all_cases { All (AreCases instance.now) stock.old.items }
    requires all_apart { All (All (λ c. AreApart c.duals.prices)) stock.old.items }
    ensures cases { OnOk result (All (AreCases instance.now) stock.new.items) }
    ensures apart { OnOk result (All (All (λ c. AreApart c.duals.prices)) stock.new.items) }
{
    if needs_own(tree, node, bound) {
        return add_own(alloc, instance, tree, place, stock);
    }
    Ok(if node.block.is_none() { Some(0) } else { None })
}

// For each node whether it is on the way to the plan that was found.
fn ways_to_best(alloc: Global, tree: &Tree) -> Result<Vec<bool>, AllocError> {
    let mut marks = vec![in alloc; false; tree.nodes.len()]?;
    let Some(best) = tree.best else {
        return Ok(marks);
    };
    let mut at = best;
    for _ in 0..tree.nodes.len() {
        if let Some(mark) = marks.get_mut(at) {
            *mark = true;
        }
        if let Some(node) = tree.nodes.get(at) {
            at = node.above;
        }
    }
    Ok(marks)
}

// Whether a node bounds less than the best plan costs, or is marked.
fn is_worth(tree: &Tree, marks: &[bool], place: usize) -> bool {
    match tree.nodes.get(place) {
        Some(node) => node.bound < tree.cost || marks.get(place).copied().unwrap_or(false),
        None => false,
    }
}

// The children of a node that are worth it.
fn children_of(
    alloc: Global,
    tree: &Tree,
    marks: &[bool],
    node: &TreeNode,
) -> Result<Vec<usize>, AllocError> {
    let mut children = Vec::new(alloc);
    for child in &node.children {
        if is_worth(tree, marks, *child) {
            children.push(*child)?;
        }
    }
    Ok(children)
}

// A tree that was grown to a bound, as it is proposed.
fn proposed(
    alloc: Global,
    instance: &Instance,
    tree: &Tree,
    bound: i64,
    root: Cases,
) -> Result<ProposedTree, AllocError>
    requires cases { AreCases instance.now root }
    requires apart { All (λ c. AreApart c.duals.prices) root }
    ensures cases { IfOk result (λ t. All (AreCases instance.now) t.stock.items) }
    ensures apart { IfOk result (λ t. All (All (λ c. AreApart c.duals.prices)) t.stock.items) }
{
    let mut stock = Vec::new(alloc);
    add_cases(instance, root, &mut stock)?;
    let marks = ways_to_best(alloc, tree)?;
    let mut nodes = Vec::with_capacity(alloc, tree.nodes.len())?;
    for (place, node) in tree.nodes.iter().enumerate() {
        let cases = cases_of(alloc, instance, tree, bound, place, node, &mut stock)?;
        nodes.push(Proposed {
            block: node.block,
            cases,
            children: children_of(alloc, tree, &marks, node)?,
        })?;
    }
    Ok(ProposedTree {
        stock,
        nodes,
        plan: tree.plan(alloc)?,
    })
}

// A tree that grows on a ground to that many nodes at most, from the cases at its root, where the best plan that is known costs so much.
fn grown(
    alloc: Global,
    instance: &Instance,
    start: &Path,
    mut ground: Ground,
    cases: &Cases,
    cost: u64,
    nodes: u32,
) -> Result<ProposedTree, AllocError>
    ensures cases { IfOk result (λ t. All (AreCases instance.now) t.stock.items) }
    ensures apart { IfOk result (λ t. All (All (λ c. AreApart c.duals.prices)) t.stock.items) }
{
    let first = first_case(alloc, &mut ground, cases)?;
    let last = last_case(alloc, &mut ground, cases)?;
    let root = root_cases(alloc, instance, &ground, &first, &last)?;
    let cost = i64::try_from(cost).unwrap_or(i64::MAX);
    let mut tree = Tree::new(alloc, instance, ground, start.blocks(), first, last, cost)?;
    let bound = tree.grow(alloc, instance, nodes as usize)?;
    proposed(alloc, instance, &tree, bound, root)
}

/// A tree of partial plans from a path on, best first, of that many nodes at most: from the cases at its root, the proposal that these came
/// from, and what the best plan that is known costs in cost units. Node 0 is the root, and the first of the stock are those cases. Nothing
/// is said of what the tree is worth. Err is want of memory.
pub(crate) fn propose(
    alloc: Global,
    instance: &Instance,
    start: &Path,
    proposal: &Proposal,
    cases: &Cases,
    cost: u64,
    nodes: u32,
) -> Result<ProposedTree, AllocError>
    requires { IsTrailOf instance.now start.now }
    ensures cases { IfOk result (λ t. All (AreCases instance.now) t.stock.items) }
    ensures apart { IfOk result (λ t. All (All (λ c. AreApart c.duals.prices)) t.stock.items) }
{
    let site = Site::new(alloc, instance, start, proposal, cases)?;
    grown(
        alloc,
        instance,
        start,
        Ground::Prices(site),
        cases,
        cost,
        nodes,
    )
}

/// The same with stacks: the cases at the root are cases with stacks, as are those at nodes, and a node's bound is that of its block with
/// stacks. The prices at nodes are those of the root's cases, so no proposal is asked for. Err is want of memory.
pub(crate) fn propose_with_stacks(
    alloc: Global,
    instance: &Instance,
    start: &Path,
    cases: &Cases,
    cost: u64,
    nodes: u32,
) -> Result<ProposedTree, AllocError>
    requires { IsTrailOf instance.now start.now }
    ensures cases { IfOk result (λ t. All (AreCases instance.now) t.stock.items) }
    ensures apart { IfOk result (λ t. All (All (λ c. AreApart c.duals.prices)) t.stock.items) }
{
    let site = StackSite::new(alloc, instance, start, cases)?;
    grown(
        alloc,
        instance,
        start,
        Ground::Stacks(site),
        cases,
        cost,
        nodes,
    )
}
