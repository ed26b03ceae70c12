//! What follows from the definitions of either version, and from one version to the other.
ghost use Rattle.std.specs.Prelude.{◌≡◌, ◌↔◌, ℕ, ◌+◌, ◌-◌, ◌<◌, ◌≤◌, ℤ, pos, ◌≤ℤ◌, ◌<ℤ◌, All, List};
ghost use Rattle.std.specs.Prelude.{[], ◌∷◌, ◌++◌, take, length};
ghost use Rattle.shunt_base.specs.declared.duals.Case.{Case};
ghost use Rattle.shunt_instance.specs.defs.Instance.{Night, IsInstance};
ghost use Rattle.shunt_blocks.specs.declared.records.Block.{Block};
ghost use Rattle.shunt_blocks.specs.defs.Shapes.{shape_of, IsWithinTrains};
ghost use Rattle.shunt_blocks.specs.defs.Lists.{ShareNothing, RunsThrough, IsFeasible, placed};
ghost use Rattle.shunt_blocks.specs.defs.Lists.{total_cost};
ghost use Rattle.shunt_blocks.specs.defs.Pins.{AreUsable, Keeps};
ghost use Rattle.shunt_choices.specs.defs.Paths.{masks_of};
ghost use Rattle.shunt_choices.specs.defs.Choices.{partial_plans};
ghost use Rattle.shunt_prices.specs.defs.Cases.{IsFreeBlock};
ghost use Rattle.shunt_stacks.specs.defs.Bounds.{IsChoiceBound};
ghost use Rattle.shunt_proof.specs.declared.records.Node.{Node};
ghost use Rattle.shunt_proof.specs.declared.records.Version.{Version};
ghost use Rattle.shunt_proof.specs.declared.records.Version.TheVariants.{Prices, Stacks};
ghost use Rattle.shunt_proof.specs.declared.records.Certificate.{Certificate};
ghost use Rattle.shunt_proof.specs.defs.Nodes.{AreNodes};
ghost use Rattle.shunt_proof.specs.defs.Trees.{IsStart, nearest, parent, path_at, duals_at};
ghost use Rattle.shunt_proof.specs.defs.Trees.{best_before};
ghost use Rattle.shunt_proof.specs.defs.Versions.{IsBoundIn, IsStepBoundIn, ReachesIn};
ghost use Rattle.shunt_proof.specs.defs.Versions.{StepReachesIn};
ghost use Rattle.shunt_proof.specs.defs.Proves.{ProvesIn, IsRightIn, AreRightIn};
ghost use Rattle.shunt_proof.specs.defs.Accepted.{IsLeanIn, AreLeanIn, IsAcceptedIn};

use shunt_blocks::laws::{few_blocks, places};
use shunt_choices::laws::{choices, held_choices, plans_counted, plans_grow};
use shunt_prices::laws::{bounds, longer_paths, weights};
use shunt_stacks::laws::{gains_there, one_gain};

/// A path has at most one bound by cases, and so has one with a block more than another: with stacks it is that of the block as a
/// choice. Where the run of the path goes through and there are cases, it has one. The bound decides what is reached.
pub fn bounds_by_version()
    ensures choice { (night : Night) (path : List Block) (b : Block) (cases : List Case) (bound : ℤ)
        → IsStepBoundIn Stacks night path (path ++ b ∷ []) cases bound
        ↔ IsChoiceBound night path b cases bound }
    ensures one { (version : Version) (night : Night) (path : List Block) (cases : List Case)
        (x y : ℤ) → IsBoundIn version night path cases x → IsBoundIn version night path cases y
        → x ≡ y }
    ensures one_step { (version : Version) (night : Night) (path longer : List Block)
        (cases : List Case) (x y : ℤ) → IsStepBoundIn version night path longer cases x
        → IsStepBoundIn version night path longer cases y → x ≡ y }
    ensures some { (version : Version) (night : Night) (path : List Block) (cases : List Case)
        → IsInstance night → All (IsWithinTrains night) path → ShareNothing night path
        → RunsThrough night (placed path) → 1 ≤ length cases
        → (bound : ℤ) × IsBoundIn version night path cases bound }
    ensures some_step { (version : Version) (night : Night) (path : List Block) (b : Block)
        (cases : List Case) → IsInstance night → All (IsWithinTrains night) path
        → ShareNothing night path → IsFreeBlock night (masks_of night path) (shape_of b) b.park
        → RunsThrough night (placed (path ++ b ∷ [])) → 1 ≤ length cases
        → (bound : ℤ) × IsStepBoundIn version night path (path ++ b ∷ []) cases bound }
    ensures reaches { (version : Version) (night : Night) (path : List Block) (cases : List Case)
        (bound L : ℤ) → IsBoundIn version night path cases bound
        → ReachesIn version night path cases L ↔ (L ≤ℤ bound) }
    ensures step_reaches { (version : Version) (night : Night) (path longer : List Block)
        (cases : List Case) (bound L : ℤ) → IsStepBoundIn version night path longer cases bound
        → StepReachesIn version night path longer cases L ↔ (L ≤ℤ bound) }
{
    bounds();
    one_gain();
    gains_there();
}

/// The root proves L exactly when each node is locally right for L. A node that is locally right for L is so for what is less, and where
/// more nodes come after it; and it is lean there exactly where it was. The last node is lean where its bound by its parent's duals is
/// below the best cost before it.
pub fn trees_by_version()
    ensures exactly { (version : Version) (night : Night) (start : List Block) (nodes : List Node)
        (L : ℤ) → AreNodes night nodes → 1 ≤ length nodes → ProvesIn version night start nodes L 0
        ↔ AreRightIn version night start nodes L }
    ensures falls { (version : Version) (night : Night) (start : List Block) (nodes : List Node)
        (k : ℕ) (L M : ℤ) → M ≤ℤ L → IsRightIn version night start nodes k L
        → IsRightIn version night start nodes k M }
    ensures stays { (version : Version) (night : Night) (start : List Block)
        (nodes more : List Node) (k : ℕ) (L : ℤ) → k < length nodes
        → IsRightIn version night start nodes k L
        → IsRightIn version night start (nodes ++ more) k L }
    ensures lean { (version : Version) (night : Night) (start : List Block) (nodes more : List Node)
        (k : ℕ) → k < length nodes → IsLeanIn version night start nodes k
        ↔ IsLeanIn version night start (nodes ++ more) k }
    ensures last_lean { (version : Version) (night : Night) (start : List Block) (nodes : List Node)
        (n : Node) (bound : ℤ) → AreNodes night (nodes ++ n ∷ []) → 1 ≤ length nodes
        → IsStepBoundIn version night
        (take (length start + (n.depth - 1)) (path_at night start nodes (length nodes - 1)))
        (path_at night start (nodes ++ n ∷ []) (length nodes))
        (duals_at nodes (nearest nodes (n.depth - 1) (length nodes))) bound
        → bound <ℤ pos (best_before night start nodes (length nodes))
        → IsLeanIn version night start (nodes ++ n ∷ []) (length nodes) }
{}

/// A proved bound is a bound: where a node proves L at a path that shares nothing, each feasible plan that keeps the path costs at
/// least L. So where a certificate is accepted with some plan, each feasible plan that keeps the pins costs at least its bound; and it
/// has at most as many nodes as there are partial plans.
pub fn proved_by_version()
    ensures node { (version : Version) (night : Night) (start : List Block) (nodes : List Node)
        (L : ℤ) (k : ℕ) (plan : List Block) → IsInstance night → AreNodes night nodes
        → k < length nodes → ShareNothing night (path_at night start nodes k)
        → ProvesIn version night start nodes L k → IsFeasible night plan
        → Keeps plan (path_at night start nodes k) → L ≤ℤ pos (total_cost night plan) }
    ensures accepted { (version : Version) (night : Night) (pins own : List Block) (stated : ℕ)
        (c : Certificate) (plan : List Block) → IsInstance night → AreNodes night c.nodes
        → ShareNothing night pins → IsAcceptedIn version night pins own stated c
        → IsFeasible night plan → Keeps plan pins → c.bound ≤ total_cost night plan }
    ensures few { (version : Version) (night : Night) (pins own : List Block) (stated : ℕ)
        (c : Certificate) → IsInstance night → AreNodes night c.nodes → AreUsable night pins
        → IsAcceptedIn version night pins own stated c → length c.nodes ≤ partial_plans night pins }
{
    places();
    few_blocks();
    choices();
    held_choices();
    plans_grow();
    plans_counted();
    longer_paths();
    shunt_prices::laws::weak_duality();
    weights();
    shunt_stacks::laws::weak_duality();
}

/// Stacks never prove less than prices: what is right and lean with prices is right and lean with stacks, so a certificate that is
/// accepted with prices is accepted with stacks.
pub fn never_below_prices()
    ensures right { (night : Night) (pins start : List Block) (nodes : List Node) (L : ℤ)
        → IsInstance night → AreNodes night nodes → AreUsable night pins → IsStart night pins start
        → AreRightIn Prices night start nodes L → AreRightIn Stacks night start nodes L }
    ensures lean { (night : Night) (pins start : List Block) (nodes : List Node) (L : ℤ)
        → IsInstance night → AreNodes night nodes → AreUsable night pins → IsStart night pins start
        → AreRightIn Prices night start nodes L → AreLeanIn Prices night start nodes
        → AreLeanIn Stacks night start nodes }
    ensures accepted { (night : Night) (pins own : List Block) (stated : ℕ) (c : Certificate)
        → IsInstance night → AreNodes night c.nodes → AreUsable night pins
        → IsAcceptedIn Prices night pins own stated c
        → IsAcceptedIn Stacks night pins own stated c }
{
    few_blocks();
    choices();
    plans_grow();
    plans_counted();
    shunt_stacks::laws::never_below_prices();
}
