// The best plan that is known.
ghost use Rattle.std.specs.Prelude.{◌≡◌, ◌≤◌, List, None, OnOk};
ghost use Rattle.shunt_instance.specs.defs.Instance.{Night, IsInstance, unit_total, position_total};
ghost use Rattle.shunt_blocks.specs.declared.records.Block.{Block as OneBlock};
ghost use Rattle.shunt_blocks.specs.defs.Lists.{IsFeasible, total_cost};
ghost use Rattle.shunt_blocks.specs.defs.Pins.{Keeps};
ghost use Rattle.shunt_choices.specs.defs.Paths.{Trail, IsTrailOf, IsPartialPlan, next_of};
ghost use Rattle.shunt_search.specs.declared.known.KnownPlan.{KnownPlan as KnownPlan};
ghost use Rattle.shunt_search.specs.defs.WalkStates.{KeepsCheaper, IsBest};

use crate::wholes::{path_cost, placed_blocks, whole_paths};
use shunt_blocks::Block;
use shunt_blocks::laws::{feasible_lists, few_blocks, opening_plans};
use shunt_choices::Path;
use shunt_instance::Instance;
use shunt_proof::laws::starts;
use std::alloc::{AllocError, Global};

/// The blocks of a plan, and what they cost in cost units.
#[derive(Drop)]
pub struct KnownPlan {
    pub blocks: Vec<Block>,
    pub cost: u64,
}

/// If a whole partial plan is the path, the plan that is known goes on to be feasible, to keep the pins and to cost what it says.
pub(crate) fn kept_plans()
    ensures { (night : Night) (pins : List OneBlock) (t : Trail) (old new : KnownPlan)
        → IsInstance night → IsTrailOf night t → IsPartialPlan night pins t.blocks
        → next_of t.covered ≡ None → position_total night ≡ unit_total night
        → IsBest night pins old.blocks.items old.cost → KeepsCheaper night t.blocks old new
        → IsBest night pins new.blocks.items new.cost }
{
    whole_paths();
    opening_plans();
    feasible_lists();
    starts();
}

/// A path takes the place of the plan, with its places as ids, where it costs less. Err is want of memory.
pub(crate) fn keep_cheaper(
    alloc: Global,
    instance: &Instance,
    path: &Path,
    known: &mut KnownPlan,
) -> Result<(), AllocError>
    requires { IsTrailOf instance.now path.now }
    ensures { OnOk result (KeepsCheaper instance.now path.now.blocks known.old known.new) }
{
    // The calls tell that there are at most 160 blocks.
    few_blocks();
    instance.units();
    let cost = path_cost(instance, path.blocks());
    if cost < known.cost {
        known.blocks = placed_blocks(alloc, path.blocks())?;
        known.cost = cost;
    }
    Ok(())
}

/// A plan that keeps the pins takes the place of the one that is known, where it costs less. Err is want of memory.
pub(crate) fn keep_plan(
    alloc: Global,
    instance: &Instance,
    pins: &[Block],
    plan: &[Block],
    known: &mut KnownPlan,
) -> Result<(), AllocError>
    requires best { IsBest instance.now pins.now known.old.blocks.items known.old.cost }
    requires feasible { IsFeasible instance.now plan.now }
    requires keeps { Keeps plan.now pins.now }
    ensures best { OnOk result
        (IsBest instance.now pins.now known.new.blocks.items known.new.cost) }
    ensures cheaper { OnOk result (known.new.cost ≤ known.old.cost) }
    ensures plan_too { OnOk result (known.new.cost ≤ total_cost instance.now plan.now) }
{
    // The calls tell that the plan has at most 160 blocks, all in range.
    feasible_lists();
    instance.units();
    let cost = path_cost(instance, plan);
    if cost >= known.cost {
        return Ok(());
    }
    known.blocks = Vec::from_slice(alloc, plan)?;
    known.cost = cost;
    Ok(())
}
