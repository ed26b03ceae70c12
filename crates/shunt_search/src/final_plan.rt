// The plan that a search gives: in the order of first units, numbered, and polished.
ghost use Rattle.std.specs.Prelude.{◌≡◌, ◌≤◌, List, map, IfOk, IsPermutation};
ghost use Rattle.shunt_instance.specs.defs.Instance.{Night, IsInstance};
ghost use Rattle.shunt_blocks.specs.declared.records.Block.{Block as OneBlock};
ghost use Rattle.shunt_blocks.specs.defs.Lists.{IsFeasible, placed, total_cost};
ghost use Rattle.shunt_blocks.specs.defs.Pins.{Keeps};
ghost use Rattle.shunt_choices.specs.defs.Paths.{AreInOrder};
ghost use Rattle.shunt_plan.specs.defs.Plans.{IsPlanInRange};
ghost use Rattle.shunt_search.specs.defs.Polish.{unparked};
ghost use Rattle.shunt_search.specs.defs.Conditions.{AreNumbered, IsPlanFor, IsTidy};

use crate::polisher::{planned, polish_around};
use crate::wholes::placed_blocks;
use shunt_blocks::Block;
use shunt_blocks::laws::{feasible_lists, ids_do_not_matter, opening_plans};
use shunt_choices::Path;
use shunt_instance::Instance;
use shunt_plan::Plan;
use std::alloc::{AllocError, Global};

/// Feasible blocks in another order, with their places as ids, are feasible at the same cost and keep what they kept; in the order of
/// first units they are numbered, and stay so where options alone change.
fn numbered_plans()
    ensures feasible { (night : Night) (blocks sorted : List OneBlock) → IsInstance night
        → IsFeasible night blocks → IsPermutation blocks sorted → IsFeasible night (placed sorted) }
    ensures keeps { (blocks sorted pins : List OneBlock) → IsPermutation blocks sorted
        → Keeps blocks pins → Keeps (placed sorted) pins }
    ensures cost { (night : Night) (blocks sorted : List OneBlock) → IsPermutation blocks sorted
        → total_cost night (placed sorted) ≡ total_cost night blocks }
    ensures numbered { (night : Night) (sorted : List OneBlock) → AreInOrder night sorted
        → AreNumbered night (placed sorted) }
    ensures still { (night : Night) (blocks others : List OneBlock) → AreNumbered night blocks
        → map unparked others ≡ map unparked blocks → AreNumbered night others }
{
    feasible_lists();
    ids_do_not_matter();
    opening_plans();
}

/// A polished plan of the blocks that costs no more, numbered in the order of first units. Err is want of memory.
pub(crate) fn tidy_plan(
    alloc: Global,
    instance: &Instance,
    pins: &[Block],
    blocks: &[Block],
) -> Result<Plan, AllocError>
    requires feasible { IsFeasible instance.now blocks.now }
    requires keeps { Keeps blocks.now pins.now }
    ensures plan { IfOk result (IsPlanFor instance.now pins.now) }
    ensures tidy { IfOk result (IsTidy instance.now pins.now) }
    ensures in_range { IfOk result (IsPlanInRange instance.now) }
    ensures cheaper { IfOk result
        (λ p. total_cost instance.now p.blocks ≤ total_cost instance.now blocks.now) }
{
    // The calls say what holds of the blocks in order, and that there are at most 160.
    numbered_plans();
    feasible_lists();
    instance.units();
    let sorted = Path::start_with(alloc, instance, blocks)?;
    let mut numbered = placed_blocks(alloc, sorted.blocks())?;
    polish_around(alloc, instance, pins, &mut numbered)?;
    Ok(planned(instance, numbered))
}
