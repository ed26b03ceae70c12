//! What follows from the definitions of this crate.
ghost use Rattle.std.specs.Prelude.{Option, IfSome, true, None, Some, pos, ◌≡◌, ◌↔◌, ◌⊎◌, ◌<◌, ◌≤◌};
ghost use Rattle.std.specs.Prelude.{◌+◌, ℕ, ℤ, ◌+ℤ◌, ◌≤ℤ◌, IsTrue, Bool, All, filter, List, []};
ghost use Rattle.std.specs.Prelude.{◌∷◌, ◌++◌, length};
ghost use Rattle.std.specs.Option.{IsSomeAnd};
ghost use Rattle.shunt_lists.specs.defs.Members.{In};
ghost use Rattle.shunt_base.specs.declared.ids.PlatformId.{PlatformId};
ghost use Rattle.shunt_base.specs.declared.ids.Side.{Side};
ghost use Rattle.shunt_base.specs.declared.keys.Stay.{Stay};
ghost use Rattle.shunt_base.specs.defs.Keys.{IsBefore};
ghost use Rattle.shunt_base.specs.declared.duals.Case.{Case};
ghost use Rattle.shunt_stays.specs.defs.Crossings.{Crosses, NoneCross, NoneOver};
ghost use Rattle.shunt_instance.specs.declared.records.Station.{Station};
ghost use Rattle.shunt_instance.specs.declared.records.Origin.TheVariants as origin;
ghost use Rattle.shunt_instance.specs.defs.Words.{is_open_at, train_at};
ghost use Rattle.shunt_instance.specs.defs.Wellformed.{IsStation};
ghost use Rattle.shunt_instance.specs.defs.Instance.{Night, IsInstance};
ghost use Rattle.shunt_blocks.specs.declared.records.Shape.{Shape};
ghost use Rattle.shunt_blocks.specs.declared.records.Block.{Block};
ghost use Rattle.shunt_blocks.specs.declared.records.Park.{Park};
ghost use Rattle.shunt_blocks.specs.defs.Shapes.{shape_of, begins_at, AreRunsWithin};
ghost use Rattle.shunt_blocks.specs.defs.Shapes.{IsWithinTrains};
ghost use Rattle.shunt_blocks.specs.defs.Blocks.{IsOption, IsBlockButId};
ghost use Rattle.shunt_blocks.specs.defs.Lists.{ShareNothing, RunsThrough, placed, IsFeasible};
ghost use Rattle.shunt_blocks.specs.defs.Lists.{total_cost, track_lengths, stays_of};
ghost use Rattle.shunt_blocks.specs.defs.Pins.{Keeps};
ghost use Rattle.shunt_choices.specs.defs.Paths.{masks_of, next_of};
ghost use Rattle.shunt_prices.specs.defs.Sums.{sum_z, IsWithin};
ghost use Rattle.shunt_prices.specs.defs.Prices.{track_length};
ghost use Rattle.shunt_prices.specs.defs.Limits.{IsCase, AreCases, case_at};
ghost use Rattle.shunt_prices.specs.defs.Cases.{IsFreeBlock, HoldsInCase, CasesHold};
ghost use Rattle.shunt_prices.specs.defs.Bounds.{case_sum, IsCasesBound};
ghost use Rattle.shunt_stacks.specs.defs.Stacks.{Stack, stacks, is_of, blocks_of, stack_of};
ghost use Rattle.shunt_stacks.specs.defs.Fillings.{gain, gain_of, IsFilling, IsStackGain};
ghost use Rattle.shunt_stacks.specs.defs.Cases.{StackCasesHold};
ghost use Rattle.shunt_stacks.specs.defs.Spans.{IsBy, Span, IsNest, AreOwn, AgreeWithin, IsOutside};
ghost use Rattle.shunt_stacks.specs.defs.Spans.{gain_of_spans, best, best_step, best_with};
ghost use Rattle.shunt_stacks.specs.defs.Numbers.{IsNumbering, entry_number, leave_number, span_of};
ghost use Rattle.shunt_stacks.specs.defs.Numbers.{fixed_spans, free_spans, AreFreeOf, apart_of};
ghost use Rattle.shunt_stacks.specs.defs.Choices.{BeginsAt, IsAround};
ghost use Rattle.shunt_stacks.specs.defs.Bounds.{AreStackGains, IsStackSum, IsChoiceSum};
ghost use Rattle.shunt_stacks.specs.defs.Bounds.{IsStackBound, IsChoiceBound};

use shunt_blocks::laws::{
    feasible_lists, few_blocks, ids_do_not_matter, places, shapes, stays, stays_of_blocks,
};
use shunt_choices::laws::{choices, held_choices};
use shunt_instance::laws::{instances, rooms_of_trains, unit_numbers};
use shunt_prices::laws::{bounds, longer_paths, room};
use shunt_stays::laws::clash_law;

/// An option is of a stack exactly where that is its stack. A station has a stack for each open side of its tracks, 120 at most,
/// and those of its blocks that come and go by one side are of one of them. On a track that is open at one side alone they are all that
/// come from a platform.
pub fn stacks_of_stations()
    ensures own { (stack : Stack) (park : Option Park) → is_of stack park ≡ true
        ↔ stack_of park ≡ Some stack }
    ensures there { (night : Night) (s : Shape) (park : Option Park) (stack : Stack)
        → IsInstance night → IsOption night s park → stack_of park ≡ Some stack
        → In stack (stacks night.station) }
    ensures open_at { (s : Station) (stack : Stack) → In stack (stacks s)
        ↔ (stack.track.0 < length s.tracks) × IsTrue (is_open_at s stack.track stack.side) }
    ensures few { (s : Station) → IsStation s → length (stacks s) ≤ 120 }
    ensures one_side { (night : Night) (s : Shape) (k : Park) (p : PlatformId) (side : Side)
        → IsInstance night → IsOption night s (Some k)
        → (train_at night.arrive s.arr.0).origin ≡ origin.Platform p
        → ((other : Side) → IsTrue (is_open_at night.station k.track other) → other ≡ side)
        → is_of (record { track = k.track; side = side }) (Some k) ≡ true }
{
    instances();
}

/// A filling is what stands with the path's blocks of the stack: the run of both goes through exactly where no two of them cross and
/// none of their entries leaves more than the track's length. Nothing is a filling; so are, of blocks that share nothing and whose run
/// goes through, those of the stack that come behind the path, and those of a filling that pass a test. What is a filling at a longer
/// path is one at the shorter; where the block that comes to the path is of the stack, exactly what is one with the block.
pub fn fillings()
    ensures clash { (night : Night) (path filling : List Block) (stack : Stack) → IsInstance night
        → All (IsWithinTrains night) path → ShareNothing night path
        → All (λ b. IsFreeBlock night (masks_of night path) (shape_of b) b.park) filling
        → ShareNothing night filling
        → let stays = stays_of night (placed (blocks_of stack path ++ filling)) in
        RunsThrough night (placed (blocks_of stack path ++ filling))
        ↔ NoneCross stays × NoneOver (track_lengths night.station) stays }
    ensures none { (night : Night) (path : List Block) (stack : Stack) → IsInstance night
        → All (IsWithinTrains night) path → ShareNothing night path
        → RunsThrough night (placed path) → IsFilling night path stack [] }
    ensures behind { (night : Night) (path rest : List Block) (stack : Stack) → IsInstance night
        → All (IsWithinTrains night) path → All (IsBlockButId night) rest
        → ShareNothing night (path ++ rest) → RunsThrough night (placed (path ++ rest))
        → IsFilling night path stack (blocks_of stack rest) }
    ensures shorter { (night : Night) (path filling : List Block) (b : Block) (stack : Stack)
        → IsInstance night → All (IsWithinTrains night) path → ShareNothing night path
        → IsFreeBlock night (masks_of night path) (shape_of b) b.park
        → IsFilling night (path ++ b ∷ []) stack filling → IsFilling night path stack filling }
    ensures with_block { (night : Night) (path filling : List Block) (b : Block) (stack : Stack)
        → IsInstance night → All (IsWithinTrains night) path → ShareNothing night path
        → IsFreeBlock night (masks_of night path) (shape_of b) b.park → is_of stack b.park ≡ true
        → IsFilling night (path ++ b ∷ []) stack filling
        ↔ IsFilling night path stack (b ∷ filling) }
    ensures some { (night : Night) (path filling : List Block) (stack : Stack) (test : Block → Bool)
        → IsInstance night → All (IsWithinTrains night) path → ShareNothing night path
        → IsFilling night path stack filling → IsFilling night path stack (filter test filling) }
{
    instances();
    places();
    stays_of_blocks();
    ids_do_not_matter();
    clash_law();
}

/// Weak duality with stacks: where cases with stacks hold at a path that shares nothing, each feasible plan that keeps the path costs
/// at least its bound with stacks; and one that keeps one block more, at least the bound of that choice.
pub fn weak_duality()
    ensures path { (night : Night) (plan path : List Block) (cases : List Case) (bound : ℤ)
        → IsInstance night → IsFeasible night plan → ShareNothing night path → Keeps plan path
        → AreCases night cases → StackCasesHold night path cases
        → IsStackBound night path cases bound → bound ≤ℤ pos (total_cost night plan) }
    ensures choice { (night : Night) (plan path : List Block) (b : Block) (cases : List Case)
        (bound : ℤ) → IsInstance night → IsFeasible night plan → ShareNothing night (path ++ b ∷ [])
        → Keeps plan (path ++ b ∷ []) → AreCases night cases → StackCasesHold night path cases
        → IsChoiceBound night path b cases bound → bound ≤ℤ pos (total_cost night plan) }
{
    instances();
    places();
    few_blocks();
    ids_do_not_matter();
    feasible_lists();
    held_choices();
    room();
    longer_paths();
    bounds();
    shunt_prices::laws::weak_duality();
}

/// Never below prices: where cases hold, they hold with stacks, no stack gains anything, and sums and bounds with stacks are those
/// without; the bound of a choice is that of the longer path.
pub fn never_below_prices()
    ensures hold { (night : Night) (path : List Block) (cases : List Case)
        → CasesHold night path cases → StackCasesHold night path cases }
    ensures gain { (night : Night) (path : List Block) (c : Case) (stack : Stack) → IsInstance night
        → All (IsWithinTrains night) path → ShareNothing night path
        → RunsThrough night (placed path) → HoldsInCase night (masks_of night path) c
        → IsStackGain night path c stack (pos 0) }
    ensures sum { (night : Night) (path : List Block) (cases : List Case) (k : ℕ) → IsInstance night
        → All (IsWithinTrains night) path → ShareNothing night path
        → RunsThrough night (placed path) → CasesHold night path cases → k < length cases
        → IsStackSum night path cases k (case_sum night path cases k) }
    ensures bound { (night : Night) (path : List Block) (cases : List Case) (bound : ℤ)
        → IsInstance night → All (IsWithinTrains night) path → ShareNothing night path
        → RunsThrough night (placed path) → CasesHold night path cases
        → IsCasesBound night path cases bound → IsStackBound night path cases bound }
    ensures choice { (night : Night) (path : List Block) (b : Block) (cases : List Case) (bound : ℤ)
        → IsInstance night → All (IsWithinTrains night) path → ShareNothing night path
        → IsFreeBlock night (masks_of night path) (shape_of b) b.park
        → RunsThrough night (placed (path ++ b ∷ [])) → CasesHold night path cases
        → IsCasesBound night (path ++ b ∷ []) cases bound → IsChoiceBound night path b cases bound }
{
    instances();
    places();
    ids_do_not_matter();
    room();
    longer_paths();
    bounds();
}

/// If a path gets one more block, of uncovered units and positions, cases with stacks that hold at it still hold, and no gain of a
/// stack rises; that of the block's own stack falls by the block's gain at least. Where the longer path's run goes through, the bound
/// of the choice is at least the path's, that of the longer path at least the choice's, and so it is at least the path's.
pub fn bounds_rise()
    ensures hold { (night : Night) (path : List Block) (b : Block) (cases : List Case)
        → StackCasesHold night path cases → StackCasesHold night (path ++ b ∷ []) cases }
    ensures falls { (night : Night) (path : List Block) (b : Block) (c : Case) (stack : Stack)
        (before after : ℤ) → IsInstance night → All (IsWithinTrains night) path
        → ShareNothing night path → IsFreeBlock night (masks_of night path) (shape_of b) b.park
        → IsStackGain night path c stack before → IsStackGain night (path ++ b ∷ []) c stack after
        → after ≤ℤ before }
    ensures own { (night : Night) (path : List Block) (b : Block) (c : Case) (stack : Stack)
        (before after : ℤ) → IsInstance night → All (IsWithinTrains night) path
        → ShareNothing night path → IsFreeBlock night (masks_of night path) (shape_of b) b.park
        → is_of stack b.park ≡ true → IsStackGain night path c stack before
        → IsStackGain night (path ++ b ∷ []) c stack after → (gain night c b +ℤ after) ≤ℤ before }
    ensures choice { (night : Night) (path : List Block) (b : Block) (cases : List Case)
        (before after : ℤ) → IsInstance night → All (IsWithinTrains night) path
        → ShareNothing night path → IsFreeBlock night (masks_of night path) (shape_of b) b.park
        → RunsThrough night (placed (path ++ b ∷ [])) → StackCasesHold night path cases
        → IsStackBound night path cases before → IsChoiceBound night path b cases after
        → before ≤ℤ after }
    ensures longer { (night : Night) (path : List Block) (b : Block) (cases : List Case)
        (before after : ℤ) → IsInstance night → All (IsWithinTrains night) path
        → ShareNothing night path → IsFreeBlock night (masks_of night path) (shape_of b) b.park
        → IsChoiceBound night path b cases before → IsStackBound night (path ++ b ∷ []) cases after
        → before ≤ℤ after }
    ensures path { (night : Night) (path : List Block) (b : Block) (cases : List Case)
        (before after : ℤ) → IsInstance night → All (IsWithinTrains night) path
        → ShareNothing night path → IsFreeBlock night (masks_of night path) (shape_of b) b.park
        → RunsThrough night (placed (path ++ b ∷ [])) → StackCasesHold night path cases
        → IsStackBound night path cases before → IsStackBound night (path ++ b ∷ []) cases after
        → before ≤ℤ after }
{
    instances();
    places();
    few_blocks();
    choices();
    ids_do_not_matter();
    room();
    longer_paths();
    bounds();
}

/// A stack has at most one gain at a path in a case, and it is at least 0 where the path's run goes through. So a path has at most one
/// sum with stacks in a case, and one bound, and a choice has one bound.
pub fn one_gain()
    ensures gain { (night : Night) (path : List Block) (c : Case) (stack : Stack) (x y : ℤ)
        → IsStackGain night path c stack x → IsStackGain night path c stack y → x ≡ y }
    ensures least { (night : Night) (path : List Block) (c : Case) (stack : Stack) (x : ℤ)
        → IsInstance night → All (IsWithinTrains night) path → ShareNothing night path
        → RunsThrough night (placed path) → IsStackGain night path c stack x → pos 0 ≤ℤ x }
    ensures sum { (night : Night) (path : List Block) (cases : List Case) (k : ℕ) (x y : ℤ)
        → IsStackSum night path cases k x → IsStackSum night path cases k y → x ≡ y }
    ensures choice_sum { (night : Night) (path : List Block) (b : Block) (cases : List Case) (k : ℕ)
        (x y : ℤ) → IsChoiceSum night path b cases k x → IsChoiceSum night path b cases k y
        → x ≡ y }
    ensures bound { (night : Night) (path : List Block) (cases : List Case) (x y : ℤ)
        → IsStackBound night path cases x → IsStackBound night path cases y → x ≡ y }
    ensures choice { (night : Night) (path : List Block) (b : Block) (cases : List Case) (x y : ℤ)
        → IsChoiceBound night path b cases x → IsChoiceBound night path b cases y → x ≡ y }
{
    instances();
    places();
    ids_do_not_matter();
}

/// Gains are small: a filling has each unit once, so it gains at most 319,999,999,999,680, and the gains of all stacks at a path whose
/// run goes through add up to at most 120 times that. The gain of a block, a sum with stacks and that of a choice fit a signed number of
/// 64 bits.
pub fn sums_fit()
    ensures filling { (night : Night) (path filling : List Block) (c : Case) (stack : Stack)
        → IsInstance night → IsCase night c → IsFilling night path stack filling
        → gain_of night c filling ≤ℤ pos 319999999999680 }
    ensures gain { (night : Night) (path : List Block) (c : Case) (stack : Stack) (x : ℤ)
        → IsInstance night → All (IsWithinTrains night) path → ShareNothing night path
        → RunsThrough night (placed path) → IsCase night c → IsStackGain night path c stack x
        → IsWithin 319999999999680 x }
    ensures gains { (night : Night) (path : List Block) (c : Case) (gains : List ℤ)
        → IsInstance night → All (IsWithinTrains night) path → ShareNothing night path
        → RunsThrough night (placed path) → IsCase night c → AreStackGains night path c gains
        → IsWithin 38399999999961600 (sum_z (λ z. z) gains) }
    ensures sum { (night : Night) (path : List Block) (cases : List Case) (k : ℕ) (x : ℤ)
        → IsInstance night → All (IsWithinTrains night) path → ShareNothing night path
        → RunsThrough night (placed path) → AreCases night cases → k < length cases
        → IsStackSum night path cases k x → IsWithin 4038399999999961600 x }
    ensures block { (night : Night) (c : Case) (b : Block) → IsInstance night → IsCase night c
        → AreRunsWithin night (shape_of b) → IsWithin 23056939999999983 (gain night c b) }
    ensures choice { (night : Night) (path : List Block) (b : Block) (cases : List Case) (k : ℕ)
        (x : ℤ) → IsInstance night → All (IsWithinTrains night) path → ShareNothing night path
        → IsFreeBlock night (masks_of night path) (shape_of b) b.park
        → RunsThrough night (placed (path ++ b ∷ [])) → AreCases night cases → k < length cases
        → IsChoiceSum night path b cases k x → IsWithin 4100000000000000000 x }
{
    instances();
    unit_numbers();
    places();
    few_blocks();
    ids_do_not_matter();
    shunt_prices::laws::sums_fit();
}

/// At a path whose run goes through each stack has a gain in each case. So the path has a sum with stacks in each case and, where there
/// are cases, a bound; and so has each choice whose run goes through with it.
pub fn gains_there()
    ensures gain { (night : Night) (path : List Block) (c : Case) (stack : Stack) → IsInstance night
        → All (IsWithinTrains night) path → ShareNothing night path
        → RunsThrough night (placed path) → (x : ℤ) × IsStackGain night path c stack x }
    ensures sum { (night : Night) (path : List Block) (cases : List Case) (k : ℕ) → IsInstance night
        → All (IsWithinTrains night) path → ShareNothing night path
        → RunsThrough night (placed path) → (x : ℤ) × IsStackSum night path cases k x }
    ensures bound { (night : Night) (path : List Block) (cases : List Case) → IsInstance night → All
        (IsWithinTrains night) path → ShareNothing night path → RunsThrough night (placed path)
        → 1 ≤ length cases → (bound : ℤ) × IsStackBound night path cases bound }
    ensures choice { (night : Night) (path : List Block) (b : Block) (cases : List Case)
        → IsInstance night → All (IsWithinTrains night) path → ShareNothing night path
        → IsFreeBlock night (masks_of night path) (shape_of b) b.park
        → RunsThrough night (placed (path ++ b ∷ [])) → 1 ≤ length cases
        → (bound : ℤ) × IsChoiceBound night path b cases bound }
{
    instances();
    places();
    few_blocks();
    ids_do_not_matter();
    choices();
}

/// Two stays by one side of one track cross exactly where the second comes while the first stands, and the first leaves first. So those
/// that don't are nested or apart in the order of events.
pub fn nested_stays()
    ensures crosses { (side : Side) (b c : Stay) → b.track.0 ≡ c.track.0 → IsBy side b → IsBy side c
        → Crosses b c
        ↔ IsBefore b.enter c.enter × IsBefore c.enter b.leave × IsBefore b.leave c.leave }
{}

/// Of spans whose events are their own, the greatest gain by recursion over the events is the greatest over all nests: no nest gains
/// more, and where there is one, some nest gains that. So it doesn't see how many events may be looked at, where they are enough, and
/// each value is the step from others of the same number: where a fixed span comes, with that one, and where none comes, from the next
/// event on. It sees no more of the spans than those among its events.
pub fn nests()
    ensures most { (fixed free spans : List Span) (n x y room : ℕ) → AreOwn fixed free → y ≤ x + n
        → IsNest fixed free x y room spans
        → IsSomeAnd (best n fixed free x y room) (λ g. gain_of_spans spans ≤ℤ g) }
    ensures reached { (fixed free : List Span) (n x y room : ℕ) → AreOwn fixed free → y ≤ x + n
        → IfSome (best n fixed free x y room)
        (λ g. (spans : List Span) × IsNest fixed free x y room spans × (gain_of_spans spans ≡ g)) }
    ensures any_number { (fixed free : List Span) (n m x y room : ℕ) → AreOwn fixed free → y ≤ x + n
        → y ≤ x + m → best n fixed free x y room ≡ best m fixed free x y room }
    ensures steps { (fixed free : List Span) (n x y room : ℕ) → AreOwn fixed free → y ≤ x + n →
        best n fixed free x y room ≡ best_step (best n fixed free) fixed free x y room }
    ensures at_fixed { (fixed free : List Span) (n x y room : ℕ) (f : Span) → AreOwn fixed free
        → In f fixed → f.from ≡ x → x < y → y ≤ x + n
        → best n fixed free x y room ≡ best_with (best n fixed free) y room f }
    ensures at_none { (fixed free : List Span) (n x y room : ℕ) → AreOwn fixed free
        → ((s : Span) → In s fixed ⊎ In s free → s.from ≡ x → ⊥) → x < y → y ≤ x + n
        → best n fixed free x y room ≡ best n fixed free (x + 1) y room }
    ensures agree { (fixed free others more : List Span) (n x y room : ℕ) → AreOwn fixed free
        → AreOwn others more → y ≤ x + n → AgreeWithin fixed free others more x y
        → best n fixed free x y room ≡ best n others more x y room }
{}

/// The gain of a stack is the greatest gain of spans, by recursion over the night's events, whatever numbers these have that rise in their
/// order: with the spans of the path's blocks of the stack fixed, and those of its free blocks free, in the length of the track; free
/// blocks that gain nothing, or are longer than the track, may be left out. Each night has such numbers, and each stack such a list.
pub fn gains_by_events()
    ensures gain { (night : Night) (path blocks : List Block) (c : Case) (stack : Stack)
        (events : ℕ) (entry leave : ℕ → ℕ) (most : ℤ) → IsInstance night
        → All (IsBlockButId night) path → ShareNothing night path
        → IsNumbering night events entry leave → AreFreeOf night path c stack blocks
        → best events (fixed_spans night entry leave (blocks_of stack path))
        (free_spans night entry leave c blocks) 0 events (track_length night stack.track.0)
        ≡ Some most ↔ IsStackGain night path c stack most }
    ensures own { (night : Night) (path blocks : List Block) (c : Case) (stack : Stack) (events : ℕ)
        (entry leave : ℕ → ℕ) → IsInstance night → All (IsBlockButId night) path
        → ShareNothing night path → IsNumbering night events entry leave
        → AreFreeOf night path c stack blocks
        → AreOwn (fixed_spans night entry leave (blocks_of stack path))
        (free_spans night entry leave c blocks) }
    ensures numbers { (night : Night) → IsInstance night
        → IsNumbering night 5760000 (entry_number night) (leave_number night) }
    ensures blocks { (night : Night) (path : List Block) (c : Case) (stack : Stack)
        → IsInstance night → (blocks : List Block) × AreFreeOf night path c stack blocks }
{
    instances();
    unit_numbers();
    rooms_of_trains();
    places();
    shapes();
    stays();
    stays_of_blocks();
    few_blocks();
    choices();
    ids_do_not_matter();
    room();
    clash_law();
}

/// If a path gets one more block of a stack, the stack's free blocks there are those that share nothing with it. Among events none of
/// which are the new block's, the fixed and free spans are those of the path; so are the values of the recursion there, and the value at
/// the block's own first event comes from the path's. No free block comes before a path's next unit, so the events around its entry are
/// the same for each choice of the stack there: what the stack gains then is one value for all of them, and one for each.
pub fn choices_by_events()
    ensures blocks { (night : Night) (path blocks : List Block) (b : Block) (c : Case)
        (stack : Stack) → IsInstance night → IsFreeBlock night (masks_of night path)
        (shape_of b) b.park → AreFreeOf night path c stack blocks
        → AreFreeOf night (path ++ b ∷ []) c stack (apart_of night b blocks) }
    ensures agree { (night : Night) (path blocks : List Block) (b : Block) (c : Case)
        (stack : Stack) (events : ℕ) (entry leave : ℕ → ℕ) (x y : ℕ) → IsInstance night
        → IsNumbering night events entry leave → AreFreeOf night path c stack blocks
        → IsFreeBlock night (masks_of night path) (shape_of b) b.park → is_of stack b.park ≡ true
        → IsOutside x y (span_of night entry leave (λ z. pos 0) b)
        → AgreeWithin (fixed_spans night entry leave (blocks_of stack path)) (free_spans night entry
        leave c blocks) (fixed_spans night entry leave (blocks_of stack (path ++ b ∷ [])))
        (free_spans night entry leave c (apart_of night b blocks)) x y }
    ensures value { (night : Night) (path blocks : List Block) (b : Block) (c : Case)
        (stack : Stack) (events : ℕ) (entry leave : ℕ → ℕ) (n y room : ℕ) → IsInstance night
        → All (IsBlockButId night) path → ShareNothing night path
        → IsNumbering night events entry leave → AreFreeOf night path c stack blocks
        → IsFreeBlock night (masks_of night path) (shape_of b) b.park → is_of stack b.park ≡ true
        → let own = span_of night entry leave (λ z. pos 0) b in own.past ≤ y → y ≤ own.from + n
        → best n (fixed_spans night entry leave (blocks_of stack (path ++ b ∷ [])))
        (free_spans night entry leave c (apart_of night b blocks)) own.from y room
        ≡ best_with (best n (fixed_spans night entry leave (blocks_of stack path))
        (free_spans night entry leave c blocks)) y room own }
    ensures first { (night : Night) (path : List Block) (b : Block) (u : ℕ) → IsInstance night
        → next_of (masks_of night path) ≡ Some u
        → IsFreeBlock night (masks_of night path) (shape_of b) b.park → u ≤ begins_at night b }
    ensures around { (night : Night) (path blocks : List Block) (b : Block) (c : Case)
        (stack : Stack) (events : ℕ) (entry leave : ℕ → ℕ) (u : ℕ) → IsInstance night → All
        (IsBlockButId night) path → ShareNothing night path → IsNumbering night events entry leave
        → AreFreeOf night path c stack blocks → next_of (masks_of night path) ≡ Some u
        → BeginsAt night path stack u b → IsAround night events entry leave c stack path blocks u }
{
    instances();
    rooms_of_trains();
    places();
    shapes();
    stays();
    stays_of_blocks();
    ids_do_not_matter();
    room();
    clash_law();
}
