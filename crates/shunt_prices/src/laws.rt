//! What follows from the definitions of this crate.
ghost use Rattle.std.specs.Prelude.{Option, true, false, slice_index_or, pos, ◌+◌, ◌*◌, ◌*ℤ◌, ◌≡◌};
ghost use Rattle.std.specs.Prelude.{◌<◌, ◌≤◌, ℕ, ℤ, ◌+ℤ◌, ◌-ℤ◌, ◌≤ℤ◌, All, List, [], ◌∷◌, ◌++◌};
ghost use Rattle.std.specs.Prelude.{length, sum_by};
ghost use Rattle.shunt_lists.specs.defs.Members.{In};
ghost use Rattle.shunt_base.specs.declared.duals.Price.{Price};
ghost use Rattle.shunt_base.specs.declared.duals.Duals.{Duals};
ghost use Rattle.shunt_base.specs.declared.duals.Case.{Case};
ghost use Rattle.shunt_instance.specs.defs.Instance.{Night, IsInstance, unit_total};
ghost use Rattle.shunt_blocks.specs.declared.records.Shape.{Shape};
ghost use Rattle.shunt_blocks.specs.declared.records.Block.{Block};
ghost use Rattle.shunt_blocks.specs.declared.records.Park.{Park};
ghost use Rattle.shunt_blocks.specs.defs.Shapes.{shape_of, AreRunsWithin, IsWithinTrains};
ghost use Rattle.shunt_blocks.specs.defs.Blocks.{IsBlockButId};
ghost use Rattle.shunt_blocks.specs.defs.Lists.{CanStand, ShareNothing, RunsThrough, placed};
ghost use Rattle.shunt_blocks.specs.defs.Lists.{IsFeasible, total_cost};
ghost use Rattle.shunt_blocks.specs.defs.Pins.{Keeps};
ghost use Rattle.shunt_blocks.specs.defs.Costs.{cost_with};
ghost use Rattle.shunt_choices.specs.defs.Paths.{Masks, masks_of};
ghost use Rattle.shunt_prices.specs.defs.Sums.{sum_z, IsWithin};
ghost use Rattle.shunt_prices.specs.defs.Prices.{track_length, count, counted_with, counted, most};
ghost use Rattle.shunt_prices.specs.defs.Prices.{price_part_with, price_part, paid_at_most};
ghost use Rattle.shunt_prices.specs.defs.Limits.{IsPrice, ArePrices, IsValue, AreDuals, IsCase};
ghost use Rattle.shunt_prices.specs.defs.Limits.{AreCases, AreApart, from_of, plain};
ghost use Rattle.shunt_prices.specs.defs.Cases.{IsFreeBlock, HasRoom, CasesHold, DualsHold};
ghost use Rattle.shunt_prices.specs.defs.Cases.{alpha_at, weight_with, weight, duals_over};
ghost use Rattle.shunt_prices.specs.defs.Bounds.{duals_sum, uncovered_alphas, uncovered_betas};
ghost use Rattle.shunt_prices.specs.defs.Bounds.{most_surcharge, sum_at, case_sum, unparked_in};
ghost use Rattle.shunt_prices.specs.defs.Bounds.{IsOpenAt, IsBoundOf, IsCasesBound, IsDualsBound};
ghost use Rattle.shunt_prices.specs.defs.Steps.{length_price, raised, with_alpha, IsPriceStep};

use shunt_blocks::laws::{
    feasible_lists, few_blocks, ids_do_not_matter, places, shapes, stays_of_blocks,
};
use shunt_choices::laws::held_choices;
use shunt_instance::laws::{instances, unit_numbers};
use shunt_stays::laws::standing_together;

/// Of blocks whose run goes through, what a price counts of those that stand at its moment adds up to at most its most:
/// where the run takes their own ids, and where the blocks share nothing and it takes their places as ids. So their price parts
/// add up to at most what the prices take at most.
pub fn capacity()
    ensures own_ids { (night : Night) (blocks : List Block) (price : Price) → IsInstance night
        → CanStand night blocks → All (IsBlockButId night) blocks → RunsThrough night blocks
        → IsPrice night price → sum_by (counted night price) blocks ≤ most night price }
    ensures placed { (night : Night) (blocks : List Block) (price : Price) → IsInstance night → All
        (IsBlockButId night) blocks → ShareNothing night blocks → RunsThrough night (placed blocks)
        → IsPrice night price → sum_by (counted night price) blocks ≤ most night price }
    ensures parts { (night : Night) (blocks : List Block) (prices : List Price) → IsInstance night
        → All (IsBlockButId night) blocks → ShareNothing night blocks
        → RunsThrough night (placed blocks) → ArePrices night prices
        → sum_by (price_part night prices) blocks ≤ paid_at_most night prices }
{
    instances();
    standing_together();
    stays_of_blocks();
    shapes();
}

/// A block of a run that goes through is no longer than its track.
pub fn room()
    ensures own_ids { (night : Night) (blocks : List Block) (b : Block) → IsInstance night
        → CanStand night blocks → RunsThrough night blocks → In b blocks → IsBlockButId night b
        → HasRoom night (shape_of b) b.park }
    ensures placed { (night : Night) (blocks : List Block) (b : Block) → IsInstance night
        → All (IsWithinTrains night) blocks → ShareNothing night blocks → RunsThrough night
        (placed blocks) → In b blocks → IsBlockButId night b → HasRoom night (shape_of b) b.park }
{
    instances();
    standing_together();
    stays_of_blocks();
    shapes();
}

/// If a path gets one more block, of uncovered units and positions, cases that hold at it still hold, and what is open was
/// open before. The sum of a case grows by what the block weighs more than its duals.
pub fn longer_paths()
    ensures hold { (night : Night) (path : List Block) (b : Block) (cases : List Case)
        → CasesHold night path cases → CasesHold night (path ++ b ∷ []) cases }
    ensures opens { (cases : List Case) (path : List Block) (b : Block) (k : ℕ)
        → IsOpenAt cases (path ++ b ∷ []) k → IsOpenAt cases path k }
    ensures sum { (night : Night) (path : List Block) (b : Block) (from : ℕ) (c : Case)
        → IsFreeBlock night (masks_of night path) (shape_of b) b.park
        → sum_at night (path ++ b ∷ []) from c ≡ sum_at night path from c
        +ℤ (weight night c b -ℤ duals_over night c.duals (shape_of b)) }
{
    places();
}

/// If cases hold at a path that shares nothing, and its run with one more block of uncovered units and positions goes
/// through, no sum of a case falls, and so the bound doesn't.
pub fn bounds_rise()
    ensures sum { (night : Night) (path : List Block) (b : Block) (cases : List Case) (k : ℕ)
        → IsInstance night → All (IsWithinTrains night) path → ShareNothing night path
        → IsFreeBlock night (masks_of night path) (shape_of b) b.park
        → RunsThrough night (placed (path ++ b ∷ [])) → CasesHold night path cases → k
        < length cases → case_sum night path cases k ≤ℤ case_sum night (path ++ b ∷ []) cases k }
    ensures bound { (night : Night) (path : List Block) (b : Block) (cases : List Case)
        (before after : ℤ) → IsInstance night → All (IsWithinTrains night) path
        → ShareNothing night path → IsFreeBlock night (masks_of night path) (shape_of b) b.park
        → RunsThrough night (placed (path ++ b ∷ [])) → CasesHold night path cases
        → IsCasesBound night path cases before → IsCasesBound night (path ++ b ∷ []) cases after
        → before ≤ℤ after }
{
    instances();
    standing_together();
    stays_of_blocks();
    shapes();
    places();
}

/// Weak duality: where cases hold at a path that shares nothing, each feasible plan that keeps the path costs at least its bound,
/// and so it is with plain duals, which are one case.
pub fn weak_duality()
    ensures cases { (night : Night) (plan path : List Block) (cases : List Case) (bound : ℤ)
        → IsInstance night → IsFeasible night plan → ShareNothing night path → Keeps plan path
        → AreCases night cases → CasesHold night path cases → IsCasesBound night path cases bound
        → bound ≤ℤ pos (total_cost night plan) }
    ensures duals { (night : Night) (plan path : List Block) (d : Duals) (bound : ℤ)
        → IsInstance night → IsFeasible night plan → ShareNothing night path → Keeps plan path
        → AreDuals night d → DualsHold night path d → IsDualsBound night path d bound
        → bound ≤ℤ pos (total_cost night plan) }
    ensures one_case { (night : Night) (d : Duals) → AreDuals night d → AreCases night (plain d) }
{
    instances();
    unit_numbers();
    standing_together();
    stays_of_blocks();
    shapes();
    places();
    few_blocks();
    feasible_lists();
    ids_do_not_matter();
    held_choices();
}

/// The weights of blocks add up to 1000 times their cost, their price parts, and the multiplier for each that is unparked.
pub fn weights()
    ensures { (night : Night) (c : Case) (path : List Block) → sum_z (weight night c) path
        ≡ pos (1000 * total_cost night path + sum_by (price_part night c.duals.prices) path)
        +ℤ (c.multiplier *ℤ pos (unparked_in path)) }
{}

/// If the price of kind length for a track and a train rises by 1, the price part of a shape grows by what that price counts of
/// it, what the prices take at most grows by the track's length, and duals that hold still hold; the sum of the duals grows by what
/// that price counts of the path, less that length. Another value of an uncovered unit takes the place of the old one in the sum. A
/// price step from duals within the limits gives duals within them that hold.
pub fn price_steps()
    ensures part { (night : Night) (track train : ℕ) (prices : List Price) (s : Shape)
        (park : Option Park)
        → price_part_with night (raised track train prices) s park ≡ price_part_with night prices s
        park + counted_with night (length_price track train) s park }
    ensures paid { (night : Night) (track train : ℕ) (prices : List Price) → paid_at_most night
        (raised track train prices) ≡ paid_at_most night prices + track_length night track }
    ensures raised { (night : Night) (path : List Block) (track train : ℕ) (d : Duals)
        → DualsHold night path d
        → DualsHold night path (record d { prices = raised track train d.prices }) }
    ensures apart { (track train : ℕ) (prices : List Price) → AreApart prices
        → AreApart (raised track train prices) }
    ensures sum { (night : Night) (path : List Block) (track train : ℕ) (d : Duals)
        → duals_sum night path (record d { prices = raised track train d.prices })
        ≡ duals_sum night path d +ℤ pos (sum_by (counted night (length_price track train)) path)
        -ℤ pos (track_length night track) }
    ensures alpha { (night : Night) (path : List Block) (d : Duals) (u : ℕ) (z : ℤ)
        → u < unit_total night → length d.alpha ≡ unit_total night
        → slice_index_or (masks_of night path).units u true ≡ false
        → duals_sum night path (with_alpha u z d) ≡ duals_sum night path d +ℤ z -ℤ alpha_at d u }
    ensures step { (night : Night) (path : List Block) (old new : Duals) → AreDuals night old
        → IsPriceStep night path old new → AreDuals night new × DualsHold night path new }
{}

/// Each sum has one bound, and a greater sum has no lesser bound. If there are cases, a path has one bound by them.
pub fn bounds()
    ensures there { (sum : ℤ) → (bound : ℤ) × IsBoundOf sum bound }
    ensures one { (sum bound other : ℤ) → IsBoundOf sum bound → IsBoundOf sum other
        → bound ≡ other }
    ensures rise { (sum more bound other : ℤ) → sum ≤ℤ more → IsBoundOf sum bound
        → IsBoundOf more other → bound ≤ℤ other }
    ensures of_cases { (night : Night) (path : List Block) (cases : List Case) → 1 ≤ length cases
        → (bound : ℤ) × IsCasesBound night path cases bound }
    ensures one_of_cases { (night : Night) (path : List Block) (cases : List Case) (bound other : ℤ)
        → IsCasesBound night path cases bound → IsCasesBound night path cases other
        → bound ≡ other }
{}

/// Counts, weights and sums are small, those of blocks that are longer than their track too: the sum of a case at a path fits a
/// signed number of 64 bits, and so does each part of it.
pub fn sums_fit()
    ensures count { (night : Night) (price : Price) (s : Shape) → IsInstance night
        → IsPrice night price → AreRunsWithin night s → count night price s ≤ 359999 }
    ensures most { (night : Night) (price : Price) → IsInstance night → IsPrice night price
        → most night price ≤ 50000 }
    ensures part { (night : Night) (prices : List Price) (s : Shape) (park : Option Park)
        → IsInstance night → ArePrices night prices → AreRunsWithin night s
        → price_part_with night prices s park ≤ 23039936000000000 }
    ensures paid { (night : Night) (prices : List Price) → IsInstance night → ArePrices night prices
        → paid_at_most night prices ≤ 3200000000000000 }
    ensures cost { (night : Night) (s : Shape) (park : Option Park) → IsInstance night
        → cost_with night s park ≤ 4000000 }
    ensures weight { (night : Night) (c : Case) (s : Shape) (park : Option Park) → IsInstance night
        → IsCase night c → AreRunsWithin night s
        → IsWithin 23040939999999999 (weight_with night c s park) }
    ensures over { (night : Night) (d : Duals) (s : Shape) → IsInstance night → AreDuals night d
        → AreRunsWithin night s → IsWithin 15999999999984 (duals_over night d s) }
    ensures alphas { (night : Night) (covered : Masks) (d : Duals) → IsInstance night
        → AreDuals night d → IsWithin 159999999999840 (uncovered_alphas night covered d) }
    ensures betas { (night : Night) (covered : Masks) (d : Duals) → IsInstance night
        → AreDuals night d → IsWithin 159999999999840 (uncovered_betas night covered d) }
    ensures from { (night : Night) (cases : List Case) (k : ℕ) → AreCases night cases
        → k < length cases → from_of cases k ≤ 160 }
    ensures surcharge { (multiplier : ℤ) (from to : ℕ) → IsValue multiplier → from ≤ 160 → to ≤ 160
        → IsWithin 159999999999840 (most_surcharge multiplier from to) }
    ensures sum { (night : Night) (path : List Block) (from : ℕ) (c : Case) → IsInstance night
        → IsCase night c → All (IsWithinTrains night) path → length path ≤ 160 → from ≤ 160
        → IsWithin 4000000000000000000 (sum_at night path from c) }
{
    instances();
}
