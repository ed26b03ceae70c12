// A walk of which no node more gives a lower bound.
ghost use Rattle.std.specs.Prelude.{◌≡◌, ◌⊎◌, ◌∷◌, ◌++◌, [], ◌<◌, ◌≤◌, ℕ, ℤ, pos, ◌≤ℤ◌, ◌<ℤ◌, List};
ghost use Rattle.std.specs.Prelude.{take, length, IsSome};
ghost use Rattle.shunt_lists.specs.defs.Members.{In};
ghost use Rattle.shunt_base.specs.declared.duals.Case.{Case as OneCase};
ghost use Rattle.shunt_instance.specs.defs.Instance.{Night, IsInstance};
ghost use Rattle.shunt_blocks.specs.declared.records.Block.{Block as OneBlock};
ghost use Rattle.shunt_choices.specs.defs.Paths.{masks_of, next_of};
ghost use Rattle.shunt_proof.specs.declared.records.NodeKind.TheVariants.{Branch, Whole};
ghost use Rattle.shunt_proof.specs.declared.records.Node.{Node as OneNode};
ghost use Rattle.shunt_proof.specs.declared.records.Version.{Version};
ghost use Rattle.shunt_proof.specs.defs.Trees.{cases_or};
ghost use Rattle.shunt_proof.specs.defs.Versions.{HoldIn};
ghost use Rattle.shunt_proof.specs.defs.Proves.{AreRightIn};
ghost use Rattle.shunt_search.specs.declared.walk_stack.Pending.{Pending as OnePending};
ghost use Rattle.shunt_search.specs.defs.WalkStates.{goal_of, cases_in, IsNodeOf, IsWalk, Passes};
ghost use Rattle.shunt_search.specs.defs.WalkStates.{AddsChildren, OpensAbove};
ghost use Rattle.shunt_search.specs.defs.Steady.{KeepBounds, IsSteady};

use shunt_blocks::laws::few_blocks;
use shunt_choices::laws::{choices, plans_grow};
use shunt_proof::laws::best_costs;
use shunt_proof::version_laws::bounds_by_version;

/// A walk is steady where it begins, and stays so where its last child becomes a branch whose cases bound each of its children by no less than
/// its own bound, or a whole path, or is closed or passed over. What the nodes of a steady walk prove is at most what is left; and what the
/// first of them prove, all prove.
pub(crate) fn walks_stay_steady()
    ensures root { (version : Version) (night : Night) (start : List OneBlock) (n : OneNode)
        (path : List OneBlock) (waiting : List OnePending) (best : ℕ) (low : ℤ) → low ≡ pos best
        → IsSteady version night start (n ∷ []) path waiting best low }
    ensures branch { (version : Version) (night : Night) (start : List OneBlock)
        (stock : List (List OneCase)) (floor : ℤ) (nodes : List OneNode) (path : List OneBlock)
        (left waiting : List OnePending) (t : OnePending) (best : ℕ) (low : ℤ) (n : OneNode)
        (place : ℕ) → IsInstance night
        → IsWalk version night start stock floor nodes path (left ++ t ∷ []) best low
        → IsSteady version night start nodes path (left ++ t ∷ []) best low
        → IsNodeOf night start path t.child n → t.child.bound <ℤ pos best → n.kind ≡ Branch
        → cases_or n.duals (cases_in stock t.cases) ≡ cases_in stock place → place < length stock
        → AddsChildren version night stock best (goal_of path t.child)
        (length nodes) place left waiting
        → OpensAbove version night (goal_of path t.child) (cases_in stock place) best t.child.bound
        → HoldIn version night (goal_of path t.child) (cases_in stock place)
        → IsSome (next_of (masks_of night (goal_of path t.child)))
        → IsSteady version night start (nodes ++ n ∷ []) (goal_of path t.child) waiting best low }
    ensures whole { (version : Version) (night : Night) (start : List OneBlock)
        (stock : List (List OneCase)) (floor : ℤ) (nodes : List OneNode) (path : List OneBlock)
        (left : List OnePending) (t : OnePending) (best now : ℕ) (low lower : ℤ) (n : OneNode)
        → IsInstance night
        → IsWalk version night start stock floor nodes path (left ++ t ∷ []) best low
        → IsSteady version night start nodes path (left ++ t ∷ []) best low
        → IsNodeOf night start path t.child n → t.child.bound <ℤ pos best → n.kind ≡ Whole
        → now ≤ best → lower ≤ℤ pos now → (lower ≡ low) ⊎ (lower ≡ pos now)
        → IsSteady version night start (nodes ++ n ∷ []) (goal_of path t.child) left now lower }
    ensures closed { (version : Version) (night : Night) (start : List OneBlock)
        (stock : List (List OneCase)) (floor : ℤ) (nodes : List OneNode) (path : List OneBlock)
        (waiting left : List OnePending) (best : ℕ) (low now : ℤ)
        → IsWalk version night start stock floor nodes path waiting best low
        → IsSteady version night start nodes path waiting best low → Passes waiting left low now
        → IsSteady version night start nodes path left best now }
    ensures left { (version : Version) (night : Night) (start : List OneBlock)
        (stock : List (List OneCase)) (floor : ℤ) (nodes : List OneNode) (path : List OneBlock)
        (waiting : List OnePending) (best : ℕ) (low bound : ℤ)
        → IsWalk version night start stock floor nodes path waiting best low
        → IsSteady version night start nodes path waiting best low
        → AreRightIn version night start nodes bound → bound ≤ℤ pos best
        → (bound ≤ℤ low) × ((t : OnePending) → In t waiting → bound ≤ℤ t.child.bound) }
    ensures fronts { (version : Version) (night : Night) (start : List OneBlock)
        (stock : List (List OneCase)) (floor : ℤ) (nodes : List OneNode) (path : List OneBlock)
        (waiting : List OnePending) (best m : ℕ) (low least bound : ℤ) → IsInstance night
        → IsWalk version night start stock floor nodes path waiting best low
        → IsSteady version night start nodes path waiting best low
        → AreRightIn version night start nodes least → bound ≤ℤ pos best → 1 ≤ m
        → AreRightIn version night start (take m nodes) bound
        → AreRightIn version night start nodes bound }
    ensures costs { (version : Version) (night : Night) (start : List OneBlock)
        (nodes : List OneNode) (best now : ℕ) → now ≤ best
        → KeepBounds version night start nodes best → KeepBounds version night start nodes now }
{
    few_blocks();
    choices();
    plans_grow();
    bounds_by_version();
    best_costs();
}
