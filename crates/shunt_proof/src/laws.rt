//! What follows from the definitions of this crate.
ghost use Rattle.std.specs.Prelude.{◌≡◌, ◌≢◌, ◌↔◌, ◌⊎◌, ℕ, suc, ◌+◌, ◌-◌, ◌<◌, ◌≤◌, ℤ, pos, ◌≤ℤ◌};
ghost use Rattle.std.specs.Prelude.{◌<ℤ◌, List, [], ◌∷◌, ◌++◌, map, take, length, Some};
ghost use Rattle.std.specs.Prelude.{IsPermutation};
ghost use Rattle.shunt_base.specs.declared.duals.Case.{Case};
ghost use Rattle.shunt_instance.specs.defs.Instance.{Night, IsInstance};
ghost use Rattle.shunt_blocks.specs.declared.records.Block.{Block};
ghost use Rattle.shunt_blocks.specs.defs.Lists.{ShareNothing, RunsThrough, IsFeasible, placed};
ghost use Rattle.shunt_blocks.specs.defs.Lists.{total_cost};
ghost use Rattle.shunt_blocks.specs.defs.Pins.{AreUsable, Keeps, without_id, opening_cost};
ghost use Rattle.shunt_choices.specs.defs.Paths.{IsPartialPlan};
ghost use Rattle.shunt_choices.specs.defs.Choices.{Choice as PathChoice, IsChoiceAt, longer_by};
ghost use Rattle.shunt_choices.specs.defs.Choices.{partial_plans};
ghost use Rattle.shunt_prices.specs.defs.Limits.{AreCases};
ghost use Rattle.shunt_prices.specs.defs.Bounds.{IsCasesBound};
ghost use Rattle.shunt_proof.specs.declared.records.Choice.{Choice};
ghost use Rattle.shunt_proof.specs.declared.records.NodeKind.TheVariants.{Branch, Whole};
ghost use Rattle.shunt_proof.specs.declared.records.Node.{Node};
ghost use Rattle.shunt_proof.specs.declared.records.Certificate.{Certificate};
ghost use Rattle.shunt_proof.specs.defs.Nodes.{node_at, FitsChoice, FitsNode, AreNodes, CanFollow};
ghost use Rattle.shunt_proof.specs.defs.Trees.{IsStart, depth_at, nearest, parent, IsChildOf};
ghost use Rattle.shunt_proof.specs.defs.Trees.{choice_from, longer_with, path_at, cases_or};
ghost use Rattle.shunt_proof.specs.defs.Trees.{duals_at, best_with, best_before};
ghost use Rattle.shunt_proof.specs.defs.Proves.{Reaches, IsListed, IsPlaced, Proves, IsRight};
ghost use Rattle.shunt_proof.specs.defs.Proves.{AreRight};
ghost use Rattle.shunt_proof.specs.defs.Accepted.{IsLeanAt, IsAccepted};

use crate::version_laws::{bounds_by_version, proved_by_version, trees_by_version};
use shunt_blocks::laws::few_blocks;
use shunt_choices::laws::{choices, plans_counted, plans_grow};

/// Depths rise by one at most, and only below a branch. So for each lesser depth there is a branch of it before a node, and each
/// node but the root has a parent, whose path its own begins with and whose cases it has where it has none of its own.
pub fn parents()
    ensures root { (night : Night) (nodes : List Node) (k : ℕ) → AreNodes night nodes
        → k < length nodes → depth_at nodes k ≡ 0 → k ≡ 0 }
    ensures above { (night : Night) (nodes : List Node) (k depth : ℕ) → AreNodes night nodes
        → k < length nodes → depth < depth_at nodes k
        → (nearest nodes depth k < k) × (depth_at nodes (nearest nodes depth k) ≡ depth)
        × ((node_at nodes (nearest nodes depth k)).kind ≡ Branch) }
    ensures parent { (night : Night) (nodes : List Node) (k : ℕ) → AreNodes night nodes → 1 ≤ k
        → k < length nodes
        → (parent nodes k < k) × (depth_at nodes k ≡ depth_at nodes (parent nodes k) + 1)
        × ((node_at nodes (parent nodes k)).kind ≡ Branch) }
    ensures chain { (night : Night) (nodes : List Node) (k depth : ℕ) → AreNodes night nodes
        → k < length nodes → depth + 1 < depth_at nodes k
        → nearest nodes depth (nearest nodes (depth + 1) k) ≡ nearest nodes depth k }
    ensures choice { (night : Night) (nodes : List Node) (k : ℕ) → AreNodes night nodes → 1 ≤ k → k
        < length nodes → (c : Choice) × ((node_at nodes k).choice ≡ Some c) × FitsChoice night c }
    ensures root_path { (night : Night) (start : List Block) (nodes : List Node)
        → AreNodes night nodes → 1 ≤ length nodes → path_at night start nodes 0 ≡ start }
    ensures path { (night : Night) (start : List Block) (nodes : List Node) (k : ℕ)
        → AreNodes night nodes → 1 ≤ k → k < length nodes → path_at night start nodes k
        ≡ longer_with night (path_at night start nodes (parent nodes k)) (node_at nodes k).choice }
    ensures size { (night : Night) (start : List Block) (nodes : List Node) (k : ℕ)
        → AreNodes night nodes → k < length nodes
        → length (path_at night start nodes k) ≡ length start + depth_at nodes k }
    ensures front { (night : Night) (start : List Block) (nodes : List Node) (k depth : ℕ)
        → AreNodes night nodes → k < length nodes → depth ≤ depth_at nodes k
        → path_at night start nodes (nearest nodes depth (suc k))
        ≡ take (length start + depth) (path_at night start nodes k) }
    ensures root_duals { (night : Night) (nodes : List Node) → AreNodes night nodes
        → 1 ≤ length nodes → duals_at nodes 0 ≡ cases_or (node_at nodes 0).duals [] }
    ensures duals { (night : Night) (nodes : List Node) (k : ℕ) → AreNodes night nodes → 1 ≤ k
        → k < length nodes
        → duals_at nodes k ≡ cases_or (node_at nodes k).duals (duals_at nodes (parent nodes k)) }
    ensures cases { (night : Night) (nodes : List Node) (k : ℕ) → AreNodes night nodes
        → k < length nodes → (node_at nodes k).kind ≢ Whole → AreCases night (duals_at nodes k) }
{}

/// The children of a node are exactly the nodes one deeper up to the next node that is no deeper than it.
pub fn children()
    ensures are { (night : Night) (nodes : List Node) (k j : ℕ) → AreNodes night nodes → k < j
        → j < length nodes → depth_at nodes j ≡ depth_at nodes k + 1
        → ((i : ℕ) → k < i → i < j → depth_at nodes k < depth_at nodes i) → IsChildOf nodes k j }
    ensures later { (night : Night) (nodes : List Node) (k j : ℕ) → AreNodes night nodes
        → IsChildOf nodes k j → k < j }
    ensures between { (night : Night) (nodes : List Node) (k j i : ℕ) → AreNodes night nodes
        → IsChildOf nodes k j → k < i → i < j → depth_at nodes k < depth_at nodes i }
{}

/// What is said of a node stays as it is where more nodes come after it. A node goes on to list what it listed, and stays locally
/// right.
pub fn fronts()
    ensures nodes { (night : Night) (nodes more : List Node) → AreNodes night (nodes ++ more)
        → AreNodes night nodes }
    ensures node { (nodes more : List Node) (k : ℕ) → k < length nodes
        → node_at (nodes ++ more) k ≡ node_at nodes k }
    ensures nearest { (nodes more : List Node) (depth k : ℕ) → k ≤ length nodes
        → nearest (nodes ++ more) depth k ≡ nearest nodes depth k }
    ensures parent { (nodes more : List Node) (k : ℕ) → k < length nodes
        → parent (nodes ++ more) k ≡ parent nodes k }
    ensures path { (night : Night) (start : List Block) (nodes more : List Node) (k : ℕ)
        → k < length nodes → path_at night start (nodes ++ more) k ≡ path_at night start nodes k }
    ensures duals { (nodes more : List Node) (k : ℕ) → k < length nodes
        → duals_at (nodes ++ more) k ≡ duals_at nodes k }
    ensures best { (night : Night) (start : List Block) (nodes more : List Node) (k : ℕ)
        → k ≤ length nodes
        → best_before night start (nodes ++ more) k ≡ best_before night start nodes k }
    ensures placed { (night : Night) (start : List Block) (nodes more : List Node) (k : ℕ)
        → k < length nodes → IsPlaced night start nodes k ↔ IsPlaced night start (nodes ++ more) k }
    ensures lean { (night : Night) (start : List Block) (nodes more : List Node) (k : ℕ)
        → k < length nodes → IsLeanAt night start nodes k ↔ IsLeanAt night start (nodes ++ more) k }
    ensures listed { (night : Night) (start : List Block) (nodes more : List Node) (k : ℕ)
        (c : PathChoice) → k < length nodes → IsListed night start nodes k c
        → IsListed night start (nodes ++ more) k c }
    ensures right { (night : Night) (start : List Block) (nodes more : List Node) (k : ℕ) (L : ℤ)
        → k < length nodes → IsRight night start nodes k L
        → IsRight night start (nodes ++ more) k L }
{}

/// Nodes with one more are nodes exactly when they are so without it, and it fits and can follow them. Its parent is the last node
/// whose depth is one less, and the parent's path is a front of the path of the node before it. It is placed where its choice is one
/// there and gives a partial plan, and no node before it has its path.
pub fn one_more()
    ensures exactly { (night : Night) (nodes : List Node) (n : Node) → AreNodes night
        (nodes ++ n ∷ []) ↔ (AreNodes night nodes × FitsNode night n × CanFollow nodes n) }
    ensures node { (nodes : List Node) (n : Node) → node_at (nodes ++ n ∷ []) (length nodes) ≡ n }
    ensures parent { (nodes : List Node) (n : Node)
        → parent (nodes ++ n ∷ []) (length nodes) ≡ nearest nodes (n.depth - 1) (length nodes) }
    ensures before { (night : Night) (nodes : List Node) (n : Node)
        → AreNodes night (nodes ++ n ∷ []) → 1 ≤ length nodes
        → nearest nodes (n.depth - 1) (length nodes) < length nodes }
    ensures path { (night : Night) (start : List Block) (nodes : List Node) (n : Node)
        → AreNodes night (nodes ++ n ∷ []) → 1 ≤ length nodes
        → path_at night start (nodes ++ n ∷ []) (length nodes) ≡ longer_with night (take
        (length start + (n.depth - 1)) (path_at night start nodes (length nodes - 1))) n.choice }
    ensures duals { (night : Night) (nodes : List Node) (n : Node) → AreNodes night
        (nodes ++ n ∷ []) → 1 ≤ length nodes → duals_at (nodes ++ n ∷ []) (length nodes)
        ≡ cases_or n.duals (duals_at nodes (nearest nodes (n.depth - 1) (length nodes))) }
    ensures best { (night : Night) (start : List Block) (nodes : List Node) (n : Node)
        → best_before night start (nodes ++ n ∷ []) (suc (length nodes))
        ≡ best_with n.kind (total_cost night (path_at night start (nodes ++ n ∷ []) (length nodes)))
        (best_before night start nodes (length nodes)) }
    ensures placed { (night : Night) (start : List Block) (nodes : List Node) (n : Node)
        (c : Choice) (path : List Block) → AreNodes night (nodes ++ n ∷ []) → 1 ≤ length nodes
        → n.choice ≡ Some c
        → path ≡ take (length start + (n.depth - 1)) (path_at night start nodes (length nodes - 1))
        → IsChoiceAt night path (choice_from night path c)
        → RunsThrough night (placed (longer_by path (choice_from night path c))) → ((j : ℕ) → j
        < length nodes → path_at night start nodes j ≢ longer_by path (choice_from night path c))
        → IsPlaced night start (nodes ++ n ∷ []) (length nodes) }
    ensures lean { (night : Night) (start : List Block) (nodes : List Node) (n : Node) (bound : ℤ)
        → AreNodes night (nodes ++ n ∷ []) → 1 ≤ length nodes
        → IsCasesBound night (path_at night start (nodes ++ n ∷ []) (length nodes))
        (duals_at nodes (nearest nodes (n.depth - 1) (length nodes))) bound
        → bound <ℤ pos (best_before night start nodes (length nodes))
        → IsLeanAt night start (nodes ++ n ∷ []) (length nodes) }
{}

/// The best cost before a node is the opening cost or that of a whole path before it, and no more than either.
pub fn best_costs()
    ensures falls { (night : Night) (start : List Block) (nodes : List Node) (k m : ℕ)
        → best_before night start nodes (k + m) ≤ best_before night start nodes k }
    ensures opening { (night : Night) (start : List Block) (nodes : List Node) (k : ℕ)
        → best_before night start nodes k ≤ opening_cost night start }
    ensures whole { (night : Night) (start : List Block) (nodes : List Node) (j k : ℕ) → j < k
        → (node_at nodes j).kind ≡ Whole
        → best_before night start nodes k ≤ total_cost night (path_at night start nodes j) }
    ensures is { (night : Night) (start : List Block) (nodes : List Node) (k : ℕ)
        → (best_before night start nodes k ≡ opening_cost night start)
        ⊎ ((j : ℕ) × (j < k) × ((node_at nodes j).kind ≡ Whole)
        × (best_before night start nodes k ≡ total_cost night (path_at night start nodes j))) }
{}

/// The root proves L exactly when each node is locally right for L; and a node that is locally right for L is so for what is less. The
/// bound of a path by cases decides what it reaches.
pub fn trees()
    ensures exactly { (night : Night) (start : List Block) (nodes : List Node) (L : ℤ)
        → AreNodes night nodes → 1 ≤ length nodes → Proves night start nodes L 0
        ↔ AreRight night start nodes L }
    ensures falls { (night : Night) (start : List Block) (nodes : List Node) (k : ℕ) (L M : ℤ)
        → M ≤ℤ L → IsRight night start nodes k L → IsRight night start nodes k M }
    ensures reaches { (night : Night) (path : List Block) (cases : List Case) (bound L : ℤ)
        → IsCasesBound night path cases bound → Reaches night path cases L ↔ (L ≤ℤ bound) }
{
    trees_by_version();
    bounds_by_version();
}

/// There is one list of the pins in the order of their first units. It has the opening cost of the pins, a plan that keeps the pins
/// keeps it, and it is a partial plan where the pins are usable.
pub fn starts()
    ensures one { (night : Night) (pins start other : List Block) → IsStart night pins start
        → IsStart night pins other → start ≡ other }
    ensures opening { (night : Night) (pins others : List Block) → IsPermutation pins others
        → opening_cost night others ≡ opening_cost night pins }
    ensures keeps { (plan pins others : List Block) → IsPermutation pins others → Keeps plan pins
        → Keeps plan others }
    ensures partial { (night : Night) (pins start : List Block) → IsInstance night
        → AreUsable night pins → IsStart night pins start → IsPartialPlan night pins start }
{
    plans_grow();
}

/// A proved bound is a bound: where a node proves L at a path that shares nothing, each feasible plan that keeps the path costs at
/// least L. So where a certificate is accepted with some plan, each feasible plan that keeps the pins costs at least its bound.
pub fn proved_bounds()
    ensures node { (night : Night) (start : List Block) (nodes : List Node) (L : ℤ) (k : ℕ)
        (plan : List Block) → IsInstance night → AreNodes night nodes → k < length nodes
        → ShareNothing night (path_at night start nodes k) → Proves night start nodes L k
        → IsFeasible night plan → Keeps plan (path_at night start nodes k)
        → L ≤ℤ pos (total_cost night plan) }
    ensures accepted { (night : Night) (pins own : List Block) (stated : ℕ) (c : Certificate)
        (plan : List Block) → IsInstance night → AreNodes night c.nodes → ShareNothing night pins
        → IsAccepted night pins own stated c → IsFeasible night plan → Keeps plan pins
        → c.bound ≤ total_cost night plan }
{
    proved_by_version();
}

/// If each node is placed, no two nodes have one path, whatever the ids; so a node lists a choice where some node has the path with
/// it. A node is placed where its choice is one at its parent's path and gives a partial plan, and no earlier node has its path.
pub fn known_by_paths()
    ensures one { (night : Night) (start : List Block) (nodes : List Node) (j k : ℕ)
        → IsInstance night → AreNodes night nodes
        → ((i : ℕ) → 1 ≤ i → i < length nodes → IsPlaced night start nodes i) → j < length nodes
        → k < length nodes → map without_id (path_at night start nodes j)
        ≡ map without_id (path_at night start nodes k) → j ≡ k }
    ensures listed { (night : Night) (start : List Block) (nodes : List Node) (k j : ℕ)
        (c : PathChoice) → IsInstance night → AreNodes night nodes
        → ((i : ℕ) → 1 ≤ i → i < length nodes → IsPlaced night start nodes i) → k < length nodes
        → j < length nodes → path_at night start nodes j ≡ longer_by (path_at night start nodes k) c
        → IsListed night start nodes k c }
    ensures placed { (night : Night) (start : List Block) (nodes : List Node) (k : ℕ) (c : Choice)
        → AreNodes night nodes → 1 ≤ k → k < length nodes → (node_at nodes k).choice ≡ Some c
        → IsChoiceAt night (path_at night start nodes (parent nodes k))
        (choice_from night (path_at night start nodes (parent nodes k)) c)
        → RunsThrough night (placed (path_at night start nodes k))
        → ((j : ℕ) → j < k → path_at night start nodes j ≢ path_at night start nodes k)
        → IsPlaced night start nodes k }
{
    few_blocks();
    choices();
    plans_grow();
}

/// If each node is placed, each path is a partial plan, and they differ. So there are at most as many nodes as partial plans; and so
/// it is with the nodes of a certificate that is accepted.
pub fn few_nodes()
    ensures partial { (night : Night) (pins start : List Block) (nodes : List Node) (k : ℕ)
        → IsInstance night → AreNodes night nodes → AreUsable night pins → IsStart night pins start
        → ((i : ℕ) → 1 ≤ i → i < length nodes → IsPlaced night start nodes i) → k < length nodes
        → IsPartialPlan night pins (path_at night start nodes k) }
    ensures few { (night : Night) (pins start : List Block) (nodes : List Node) → IsInstance night
        → AreNodes night nodes → AreUsable night pins → IsStart night pins start
        → ((i : ℕ) → 1 ≤ i → i < length nodes → IsPlaced night start nodes i)
        → length nodes ≤ partial_plans night pins }
    ensures accepted { (night : Night) (pins own : List Block) (stated : ℕ) (c : Certificate)
        → IsInstance night → AreNodes night c.nodes → AreUsable night pins
        → IsAccepted night pins own stated c → length c.nodes ≤ partial_plans night pins }
{
    few_blocks();
    choices();
    plans_grow();
    plans_counted();
    proved_by_version();
}
