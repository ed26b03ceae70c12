// A plan that is proposed: it is followed from the pins on, block by block.
ghost use Rattle.std.specs.Prelude.{◌≡◌, ◌≤◌, ℕ, true, List, IfOk, OnOk, IfSome};
ghost use Rattle.shunt_lists.specs.defs.Members.{In};
ghost use Rattle.shunt_base.specs.declared.duals.Case.{Case as OneCase};
ghost use Rattle.shunt_instance.specs.defs.Instance.{Night, unit_total, position_total};
ghost use Rattle.shunt_blocks.specs.declared.records.Block.{Block as OneBlock};
ghost use Rattle.shunt_blocks.specs.defs.Pins.{AreUsable};
ghost use Rattle.shunt_choices.specs.defs.Paths.{IsPartialPlan};
ghost use Rattle.shunt_prices.specs.defs.Limits.{AreCases};
ghost use Rattle.shunt_proof.specs.declared.records.Version.{Version};
ghost use Rattle.shunt_search.specs.declared.child.Child.{Child as OneChild};
ghost use Rattle.shunt_search.specs.defs.Judges.{IsJudge};
ghost use Rattle.shunt_search.specs.defs.Yards.{IsYard, IsOpen, more_by};
ghost use Rattle.shunt_search.specs.defs.WalkStates.{IsBest};

use crate::child::Child;
use crate::child_list::is_same_choice;
use crate::child_visits::is_whole;
use crate::children::plan_children;
use crate::judge::Judge;
use crate::known::{KnownPlan, keep_cheaper, kept_plans};
use crate::yard::{Yard, start};
use shunt_base::Cases;
use shunt_blocks::Block;
use shunt_choices::laws::plans_grow;
use shunt_instance::Instance;
use shunt_proof::laws::starts;
use std::alloc::{AllocError, Global};

/// A partial plan is one with the block of an open child too.
fn open_plans()
    ensures { (version : Version) (night : Night) (pins path : List OneBlock) (cases : List OneCase)
        (best : ℕ) (c : OneChild) → IsPartialPlan night pins path
        → IsOpen version night path cases best c.block c.bound
        → IsPartialPlan night pins (more_by path c.block) }
{
    plans_grow();
}

/// Whether a plan has the choice of a block.
fn has_choice(plan: &[Block], block: &Block) -> bool {
    for other in plan {
        if is_same_choice(other, block) {
            return true;
        }
    }
    false
}

/// The first of these children whose choice a plan has.
fn child_in(children: &[Child], plan: &[Block]) -> Option<Child>
    ensures { IfSome result (λ c. In c children.now) }
{
    for child in children {
        if has_choice(plan, &child.block) {
            return Some(*child);
        }
    }
    None
}

/// The path gets the next block of a plan, where that gives a partial plan whose bound is below a cost. Ok says whether it did.
fn follow(
    alloc: Global,
    instance: &Instance,
    judge: &Judge,
    cases: &Cases,
    best: u64,
    plan: &[Block],
    yard: &mut Yard,
) -> Result<bool, AllocError>
    requires judge { IsJudge instance.now judge.now }
    requires yard { IsYard instance.now yard.old }
    requires cases { AreCases instance.now cases.now }
    requires best { best ≤ 1000000000000 }
    ensures yard { OnOk result (IsYard instance.now yard.new) }
    ensures partial { (pins : List OneBlock) → IsPartialPlan instance.now pins yard.old.path.blocks
        → OnOk result (IsPartialPlan instance.now pins yard.new.path.blocks) }
{
    open_plans();
    let children = plan_children(alloc, instance, judge, yard, cases, best)?;
    let Some(child) = child_in(&children, plan) else {
        return Ok(false);
    };
    yard.push(instance, child.block);
    Ok(true)
}

/// The pins in order and the blocks of a plan behind them, as far as they give partial plans whose bounds are below a cost. Err is want of
/// memory.
fn followed(
    alloc: Global,
    instance: &Instance,
    judge: &Judge,
    pins: &[Block],
    cases: &Cases,
    best: u64,
    plan: &[Block],
) -> Result<Yard, AllocError>
    requires judge { IsJudge instance.now judge.now }
    requires usable { AreUsable instance.now pins.now }
    requires cases { AreCases instance.now cases.now }
    requires best { best ≤ 1000000000000 }
    ensures yard { IfOk result (IsYard instance.now) }
    ensures partial { IfOk result (λ y. IsPartialPlan instance.now pins.now y.path.blocks) }
{
    // The call tells that the pins in order are a partial plan.
    starts();
    instance.units();
    let mut yard = start(alloc, instance, pins)?;
    'steps: for _ in 0..instance.units() {
        let more = follow(alloc, instance, judge, cases, best, plan, &mut yard)?;
        if !more {
            return Ok(yard);
        }
    }
    Ok(yard)
}

/// A plan that is proposed takes the place of the one that is known, where it is whole, keeps the pins and costs less. Err is want of
/// memory.
pub(crate) fn take_proposed(
    alloc: Global,
    instance: &Instance,
    judge: &Judge,
    pins: &[Block],
    cases: &Cases,
    plan: &[Block],
    known: &mut KnownPlan,
) -> Result<(), AllocError>
    requires judge { IsJudge instance.now judge.now }
    requires usable { AreUsable instance.now pins.now }
    requires even { position_total instance.now ≡ unit_total instance.now }
    requires cases { AreCases instance.now cases.now }
    requires best { IsBest instance.now pins.now known.old.blocks.items known.old.cost }
    requires small { known.old.cost ≤ 1000000000000 }
    ensures best { OnOk result
        (IsBest instance.now pins.now known.new.blocks.items known.new.cost) }
    ensures cheaper { OnOk result (known.new.cost ≤ known.old.cost) }
{
    // The call tells that a whole partial plan is a plan.
    kept_plans();
    instance.units();
    if plan.is_empty() {
        return Ok(());
    }
    let yard = followed(alloc, instance, judge, pins, cases, known.cost, plan)?;
    let whole = is_whole(&yard.path);
    if whole {
        keep_cheaper(alloc, instance, &yard.path, known)?;
        return Ok(());
    }
    Ok(())
}
