// The walk through a tree: the children that are still to be walked to are a stack, the next one at its end.
ghost use Rattle.std.specs.Prelude.{◌≡◌, ◌⊎◌, ◌∷◌, ◌++◌, [], ◌<◌, ◌≤◌, ℕ, ℤ, pos, ◌≤ℤ◌, ◌<ℤ◌, true};
ghost use Rattle.std.specs.Prelude.{List, take, length, Some, None, IsSome, IfSome, IfNone};
ghost use Rattle.shunt_lists.specs.defs.Members.{In};
ghost use Rattle.shunt_base.specs.declared.duals.Case.{Case as OneCase};
ghost use Rattle.shunt_instance.specs.defs.Instance.{Night, IsInstance};
ghost use Rattle.shunt_blocks.specs.declared.records.Block.{Block as OneBlock};
ghost use Rattle.shunt_blocks.specs.defs.Lists.{total_cost};
ghost use Rattle.shunt_blocks.specs.defs.Pins.{opening_cost};
ghost use Rattle.shunt_choices.specs.defs.Paths.{masks_of, next_of};
ghost use Rattle.shunt_proof.specs.declared.records.NodeKind.TheVariants.{Branch, Whole};
ghost use Rattle.shunt_proof.specs.declared.records.Node.{Node as OneNode};
ghost use Rattle.shunt_proof.specs.declared.records.Version.{Version};
ghost use Rattle.shunt_proof.specs.defs.Nodes.{FitsNode, CanFollow};
ghost use Rattle.shunt_proof.specs.defs.Trees.{cases_or};
ghost use Rattle.shunt_proof.specs.defs.Versions.{HoldIn, IsStepBoundIn};
ghost use Rattle.shunt_proof.specs.defs.Proves.{AreRightIn};
ghost use Rattle.shunt_search.specs.declared.walk_stack.Pending.{Pending as OnePending};
ghost use Rattle.shunt_search.specs.defs.Yards.{IsNextBlock};
ghost use Rattle.shunt_search.specs.defs.WalkStates.{kept, goal_of, cases_in, IsNodeOf, IsWalk};
ghost use Rattle.shunt_search.specs.defs.WalkStates.{Passes, AddsChildren, OpensAbove, IsLesser};

use crate::child::Child;
use crate::monotonicity::bounds_rise_in_versions;
use shunt_blocks::laws::few_blocks;
use shunt_choices::laws::{choices, plans_grow};

/// A child that is still to be walked to.
#[derive(Clone, Copy)]
pub struct Pending {
    pub child: Child,
    /// Its parent's number among the nodes that were noted, from 0.
    pub parent: usize,
    /// The place of its parent's cases in the stock.
    pub cases: usize,
    /// The proposed node that it is, where a proposal lists it.
    pub hint: Option<usize>,
}

/// How a walk begins: with the root, whose children are all still to be walked to, or which is whole.
pub(crate) fn walks_begin()
    ensures branch { (version : Version) (night : Night) (start : List OneBlock)
        (stock : List (List OneCase)) (floor : ℤ) (n : OneNode) (best : ℕ) (low : ℤ) (place : ℕ)
        (waiting : List OnePending) → FitsNode night n → n.depth ≡ 0 → n.kind ≡ Branch
        → cases_or n.duals [] ≡ cases_in stock place → place < length stock
        → best ≤ opening_cost night start → low ≤ℤ pos best
        → AddsChildren version night stock best start 0 place [] waiting
        → OpensAbove version night start (cases_in stock place) best floor
        → HoldIn version night start (cases_in stock place)
        → IsSome (next_of (masks_of night start))
        → IsWalk version night start stock floor (n ∷ []) start waiting best low }
    ensures whole { (version : Version) (night : Night) (start : List OneBlock)
        (stock : List (List OneCase)) (floor : ℤ) (n : OneNode) (best : ℕ) (low : ℤ)
        → FitsNode night n → n.depth ≡ 0 → n.kind ≡ Whole → best ≤ opening_cost night start
        → best ≤ total_cost night start → low ≤ℤ pos best → next_of (masks_of night start) ≡ None
        → IsWalk version night start stock floor (n ∷ []) start [] best low }
{}

/// How a walk goes on: the last child becomes a node, a branch whose children come in its place, or a whole path; or it is closed or passed
/// over. Its node can follow the others, its parent's cases are in the stock and hold at its path, and its bound is by them. If what is
/// left isn't walked to, each node is locally right for what neither the low bound nor a bound that is left is below.
pub(crate) fn walks_go_on()
    ensures branch { (version : Version) (night : Night) (start : List OneBlock)
        (stock : List (List OneCase)) (floor : ℤ) (nodes : List OneNode) (path : List OneBlock)
        (left waiting : List OnePending) (t : OnePending) (best : ℕ) (low : ℤ) (n : OneNode)
        (place : ℕ) → IsInstance night
        → IsWalk version night start stock floor nodes path (left ++ t ∷ []) best low
        → IsNodeOf night start path t.child n → t.child.bound <ℤ pos best → n.kind ≡ Branch
        → cases_or n.duals (cases_in stock t.cases) ≡ cases_in stock place → place < length stock
        → AddsChildren version night stock best (goal_of path t.child) (length nodes) place left
        waiting → OpensAbove version night (goal_of path t.child) (cases_in stock place) best floor
        → HoldIn version night (goal_of path t.child) (cases_in stock place)
        → IsSome (next_of (masks_of night (goal_of path t.child))) → IsWalk version night start
        stock floor (nodes ++ n ∷ []) (goal_of path t.child) waiting best low }
    ensures whole { (version : Version) (night : Night) (start : List OneBlock)
        (stock : List (List OneCase)) (floor : ℤ) (nodes : List OneNode) (path : List OneBlock)
        (left : List OnePending) (t : OnePending) (best now : ℕ) (low lower : ℤ) (n : OneNode)
        → IsInstance night → IsWalk version night start stock floor nodes path
        (left ++ t ∷ []) best low → IsNodeOf night start path t.child n → t.child.bound <ℤ pos best
        → n.kind ≡ Whole → now ≤ best → now ≤ total_cost night (goal_of path t.child) → lower ≤ℤ low
        → lower ≤ℤ pos now → next_of (masks_of night (goal_of path t.child)) ≡ None → IsWalk version
        night start stock floor (nodes ++ n ∷ []) (goal_of path t.child) left now lower }
    ensures follows { (version : Version) (night : Night) (start : List OneBlock)
        (stock : List (List OneCase)) (floor : ℤ) (nodes : List OneNode) (path : List OneBlock)
        (left : List OnePending) (t : OnePending) (best : ℕ) (low : ℤ) (n : OneNode)
        → IsInstance night
        → IsWalk version night start stock floor nodes path (left ++ t ∷ []) best low
        → IsNodeOf night start path t.child n → t.child.bound <ℤ pos best → CanFollow nodes n }
    ensures next { (version : Version) (night : Night) (start : List OneBlock)
        (stock : List (List OneCase)) (floor : ℤ) (nodes : List OneNode) (path : List OneBlock)
        (left : List OnePending) (t : OnePending) (best : ℕ) (low : ℤ)
        → IsWalk version night start stock floor nodes path (left ++ t ∷ []) best low
        → (length start ≤ kept t.child) × (kept t.child ≤ length path)
        × IsNextBlock night (take (kept t.child) path) t.child.block }
    ensures hold { (version : Version) (night : Night) (start : List OneBlock)
        (stock : List (List OneCase)) (floor : ℤ) (nodes : List OneNode) (path : List OneBlock)
        (left : List OnePending) (t : OnePending) (best : ℕ) (low : ℤ)
        → IsWalk version night start stock floor nodes path (left ++ t ∷ []) best low
        → (t.cases < length stock) × HoldIn version night (goal_of path t.child)
        (cases_in stock t.cases) × IsStepBoundIn version night (take (kept t.child) path)
        (goal_of path t.child) (cases_in stock t.cases) t.child.bound }
    ensures closed { (version : Version) (night : Night) (start : List OneBlock)
        (stock : List (List OneCase)) (floor : ℤ) (nodes : List OneNode) (path : List OneBlock)
        (waiting left : List OnePending) (best : ℕ) (low now : ℤ)
        → IsWalk version night start stock floor nodes path waiting best low
        → Passes waiting left low now
        → IsWalk version night start stock floor nodes path left best now }
    ensures right { (version : Version) (night : Night) (start : List OneBlock)
        (stock : List (List OneCase)) (floor : ℤ) (nodes : List OneNode) (path : List OneBlock)
        (waiting : List OnePending) (best : ℕ) (low bound : ℤ)
        → IsWalk version night start stock floor nodes path waiting best low → bound ≤ℤ low
        → ((t : OnePending) → In t waiting → bound ≤ℤ t.child.bound)
        → AreRightIn version night start nodes bound }
{
    few_blocks();
    choices();
    plans_grow();
    bounds_rise_in_versions();
}

/// The lesser of a bound and that of a child.
fn lesser(bound: i64, child: &Pending) -> i64
    ensures { IsLesser bound child.now.child.bound result }
{
    let other = child.child.bound;
    if other < bound { other } else { bound }
}

/// A bound falls to that of a child, where this is less.
fn fall(bound: &mut i64, child: &Pending)
    ensures { IsLesser bound.old child.now.child.bound bound.new }
{
    let other = child.child.bound;
    if other >= *bound {
        return;
    }
    *bound = other;
}

/// Whether a child is walked to: where the walk is plain, a proposal lists it, or there is a node to spare, which it then takes.
fn is_taken(child: &Pending, plain: bool, spare: &mut u32) -> bool
    ensures { plain ≡ true → result ≡ true }
{
    if plain {
        return true;
    }
    if child.hint.is_some() {
        return true;
    }
    if *spare == 0 {
        return false;
    }
    *spare -= 1;
    true
}

/// The next child whose bound is below the best cost, and which is walked to. Those behind it are closed or passed over, and the low bound
/// falls to the bounds of these.
pub(crate) fn next_open(
    waiting: &mut Vec<Pending>,
    low: &mut i64,
    spare: &mut u32,
    best: u64,
    plain: bool,
) -> Option<Pending>
    requires best { best ≤ 1000000000000 }
    requires within { low.old ≤ℤ pos best }
    ensures some { IfSome result
        (λ t. Passes waiting.old.items (waiting.new.items ++ t ∷ []) low.old low.new) }
    ensures below { IfSome result (λ t. t.child.bound <ℤ pos best) }
    ensures none { IfNone result (Passes waiting.old.items [] low.old low.new) }
    ensures empty { IfNone result (waiting.new.items ≡ []) }
    ensures same { plain ≡ true → low.new ≡ low.old }
{
    'passed: while let Some(next) = waiting.pop() {
        if next.child.bound < best as i64 {
            let taken = is_taken(&next, plain, spare);
            if taken {
                return Some(next);
            }
            fall(low, &next);
        }
    }
    None
}

/// The least of the low bound and the bounds of the children that are left.
pub(crate) fn give_up(waiting: &[Pending], low: i64) -> i64
    ensures within { result ≤ℤ low }
    ensures left { (t : OnePending) → In t waiting.now → result ≤ℤ t.child.bound }
    ensures least { (result ≡ low)
        ⊎ ((t : OnePending) × In t waiting.now × (result ≡ t.child.bound)) }
{
    let mut bound = low;
    for t in waiting {
        bound = lesser(bound, t);
    }
    bound
}
