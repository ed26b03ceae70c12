//! What follows from the definitions of this crate.
ghost use Rattle.std.specs.Prelude.{◌≡◌, ◌⊎◌, ◌+◌, ◌<◌, ◌↔◌, ℕ, if◌then◌else◌, All, AllPairs, map};
ghost use Rattle.std.specs.Prelude.{sum_by, Some, Option, List, IsPermutation};
ghost use Rattle.shunt_lists.specs.defs.Members.{In, AreDistinct};
ghost use Rattle.shunt_instance.specs.defs.Instance.{Night, IsInstance, unit_total};
ghost use Rattle.shunt_blocks.specs.declared.records.Shape.{Shape};
ghost use Rattle.shunt_blocks.specs.declared.records.Block.{Block};
ghost use Rattle.shunt_blocks.specs.declared.records.Park.{Park};
ghost use Rattle.shunt_blocks.specs.defs.Shapes.{IsWithinTrains};
ghost use Rattle.shunt_blocks.specs.defs.Blocks.{IsOption};
ghost use Rattle.shunt_blocks.specs.defs.Lists.{ShareNothing, RunsThrough, IsFeasible, placed};
ghost use Rattle.shunt_blocks.specs.defs.Pins.{AreUsable, Keeps, without_id};
ghost use Rattle.shunt_choices.specs.defs.Choices.{IsFreeShape, ShapeBefore, OptionBefore, Choice};
ghost use Rattle.shunt_choices.specs.defs.Choices.{IsChoice, ChoiceBefore, shapes_of, options_of};
ghost use Rattle.shunt_choices.specs.defs.Choices.{choices_of, choices_at, IsChoiceAt, longer_by};
ghost use Rattle.shunt_choices.specs.defs.Choices.{runs_placed, partial_plans};
ghost use Rattle.shunt_choices.specs.defs.Paths.{Masks, masks_of, next_of, AreInOrder};
ghost use Rattle.shunt_choices.specs.defs.Paths.{IsPartialPlan};

use shunt_blocks::laws;

/// The shapes that `shapes_from` gives are those of uncovered units and positions that begin at the unit, in the order of
/// choices.
pub fn free_shapes()
    ensures members { (night : Night) (covered : Masks) (u : ℕ) (s : Shape) → IsInstance night
        → u < unit_total night → In s (shapes_of night covered u) ↔ IsFreeShape night covered u s }
    ensures rise { (night : Night) (covered : Masks) (u : ℕ) → IsInstance night
        → AllPairs ShapeBefore (shapes_of night covered u) }
{
    laws::places();
}

/// What `options` gives are the options of the shape, in the order of choices.
pub fn shape_options()
    ensures members { (night : Night) (s : Shape) (o : Option Park) → In o (options_of night s)
        ↔ IsOption night s o }
    ensures rise { (night : Night) (s : Shape) → AllPairs OptionBefore (options_of night s) }
{}

/// The shapes that begin at a unit, each with its options, are the choices there, in their order and each once.
pub fn choices()
    ensures members { (night : Night) (covered : Masks) (u : ℕ) (c : Choice) → IsInstance night
        → u < unit_total night → In c (choices_of night covered u) ↔ IsChoice night covered u c }
    ensures rise { (night : Night) (covered : Masks) (u : ℕ) → IsInstance night
        → AllPairs ChoiceBefore (choices_of night covered u) }
    ensures once { (night : Night) (covered : Masks) (u : ℕ) → IsInstance night
        → AreDistinct (choices_of night covered u) }
    ensures at_path { (night : Night) (blocks : List Block) (c : Choice) → IsInstance night
        → In c (choices_at night blocks) ↔ IsChoiceAt night blocks c }
{
    laws::places();
}

/// Usable pins in the order of their first units are a partial plan. A choice at a partial plan gives one exactly when its run
/// goes through. Each partial plan other than the pins comes so, but for ids, and from one choice at one shorter partial plan alone.
pub fn plans_grow()
    ensures pins { (night : Night) (pins start : List Block) → IsInstance night
        → AreUsable night pins → IsPermutation pins start → AreInOrder night start
        → IsPartialPlan night pins start }
    ensures grows { (night : Night) (pins blocks : List Block) (c : Choice)
        → IsPartialPlan night pins blocks → IsChoiceAt night blocks c → IsPartialPlan night pins
        (longer_by blocks c) ↔ RunsThrough night (placed (longer_by blocks c)) }
    ensures comes { (night : Night) (pins blocks : List Block) → IsInstance night
        → IsPartialPlan night pins blocks → IsPermutation pins blocks
        ⊎ ((front : List Block) × (c : Choice) × IsPartialPlan night pins front
        × IsChoiceAt night front c × (map without_id blocks ≡ map without_id (longer_by front c))) }
    ensures once { (front other : List Block) (c d : Choice)
        → map without_id (longer_by front c) ≡ map without_id (longer_by other d)
        → (map without_id front ≡ map without_id other) × (c ≡ d) }
{
    laws::places();
    laws::few_blocks();
    laws::ids_do_not_matter();
    laws::feasible_lists();
}

/// A list of blocks that share nothing has one more partial plan that begins with it than the choices at it give whose run goes
/// through, and the order of the list is nothing to that.
pub fn plans_counted()
    ensures sum { (night : Night) (blocks : List Block) → IsInstance night
        → All (IsWithinTrains night) blocks → ShareNothing night blocks
        → partial_plans night blocks ≡ 1 + sum_by (λ c. if runs_placed night (longer_by blocks c)
        then partial_plans night (longer_by blocks c) else 0) (choices_at night blocks) }
    ensures any_order { (night : Night) (blocks others : List Block) → IsInstance night
        → All (IsWithinTrains night) blocks → ShareNothing night blocks
        → IsPermutation blocks others → partial_plans night blocks ≡ partial_plans night others }
{
    laws::places();
    laws::few_blocks();
    laws::ids_do_not_matter();
    laws::feasible_lists();
}

/// A feasible plan that keeps blocks which share nothing holds, at their next unit, the block of a choice there: it keeps the
/// longer list too, whose run goes through.
pub fn held_choices()
    ensures { (night : Night) (plan path : List Block) (u : ℕ) → IsInstance night
        → IsFeasible night plan → ShareNothing night path → Keeps plan path
        → next_of (masks_of night path) ≡ Some u → (c : Choice) × IsChoiceAt night path c
        × Keeps plan (longer_by path c) × RunsThrough night (placed (longer_by path c)) }
{
    laws::places();
    laws::few_blocks();
    laws::ids_do_not_matter();
    laws::feasible_lists();
}
