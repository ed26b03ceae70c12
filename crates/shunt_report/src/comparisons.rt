// The text of what another plan does otherwise.
ghost use Rattle.std.specs.Prelude.{◌≡◌, ◌++◌, All, OnOk, IfOk};
ghost use Rattle.std.specs.List.{flat_map};
ghost use Rattle.shunt_blocks.specs.defs.Shapes.{IsWithinTrains};
ghost use Rattle.shunt_report.specs.defs.ComparisonTexts.{IsPlacementOfNight, IsChangeOfNight};
ghost use Rattle.shunt_report.specs.defs.ComparisonTexts.{IsComparisonOfNight, placement_words};
ghost use Rattle.shunt_report.specs.defs.ComparisonTexts.{change_line, regrouped_line};
ghost use Rattle.shunt_report.specs.defs.ComparisonTexts.{comparison_of};

use crate::found::{push_position, push_unit};
use crate::verdicts::push_option;
use shunt_blocks::Block;
use shunt_compare::{Change, Comparison, Placement};
use shunt_instance::Instance;
use shunt_plan::arr_name;
use shunt_text::Text;
use std::alloc::{AllocError, Global};

fn push_placement(
    text: &mut Text,
    instance: &Instance,
    placement: Placement,
) -> Result<(), AllocError>
    requires { IsPlacementOfNight instance.now placement }
    ensures { OnOk result (text.new ≡ text.old ++ placement_words instance.now placement) }
{
    push_position(text, instance, placement.position)?;
    text.push(b" ")?;
    push_option(text, instance, placement.park)
}

fn push_change(text: &mut Text, instance: &Instance, change: Change) -> Result<(), AllocError>
    requires { IsChangeOfNight instance.now change }
    ensures { OnOk result (text.new ≡ text.old ++ change_line instance.now change) }
{
    text.push(b"unit ")?;
    push_unit(text, instance, change.unit)?;
    text.push(b" was ")?;
    push_placement(text, instance, change.was)?;
    text.push(b" now ")?;
    push_placement(text, instance, change.now)?;
    text.push(b"\n")
}

fn push_regrouped(text: &mut Text, instance: &Instance, block: Block) -> Result<(), AllocError>
    requires { IsWithinTrains instance.now block }
    ensures { OnOk result (text.new ≡ text.old ++ regrouped_line instance.now block) }
{
    text.push(b"block ")?;
    text.push(arr_name(instance, block.arr))?;
    text.push(b" ")?;
    text.push_number(u64::from(block.p))?;
    text.push(b" ")?;
    text.push_number(u64::from(block.n))?;
    text.push(b"\n")
}

fn push_changes(text: &mut Text, instance: &Instance, changes: &[Change]) -> Result<(), AllocError>
    requires { All (IsChangeOfNight instance.now) changes.now }
    ensures { OnOk result (text.new ≡ text.old ++ flat_map (change_line instance.now) changes.now) }
{
    for change in changes {
        push_change(text, instance, *change)?;
    }
    Ok(())
}

fn push_all_regrouped(
    text: &mut Text,
    instance: &Instance,
    blocks: &[Block],
) -> Result<(), AllocError>
    requires { All (IsWithinTrains instance.now) blocks.now }
    ensures { OnOk result
        (text.new ≡ text.old ++ flat_map (regrouped_line instance.now) blocks.now) }
{
    for block in blocks {
        push_regrouped(text, instance, *block)?;
    }
    Ok(())
}

/// What another plan does otherwise: for each unit that it places otherwise a line `unit ARR PLACE was DEP PLACE OPTION now DEP PLACE OPTION`,
/// where OPTION is `unparked` or `park TRACK IN OUT`; for each of its blocks whose units are no block of the first plan a line
/// `block ARR P N`; and last `changed U blocks B cost C other D` with their numbers and the costs of both plans.
///
/// Trains and tracks are told by name, places count from 1. Units, positions and tracks are the instance's. The error is want of memory.
#[tactic(auto, unfolding(crate::specs::defs::ComparisonTexts::comparison_of))]
pub fn comparison_text(
    alloc: Global,
    instance: &Instance,
    comparison: &Comparison,
    cost: u64,
    other: u64,
) -> Result<Vec<u8>, AllocError>
    requires { IsComparisonOfNight instance.now comparison.now }
    ensures { IfOk result (λ v. v.items ≡ comparison_of instance.now comparison.now cost other) }
{
    let mut text = Text::new(alloc);
    let changes = comparison.changes.as_slice();
    let regrouped = comparison.regrouped.as_slice();
    push_changes(&mut text, instance, changes)?;
    push_all_regrouped(&mut text, instance, regrouped)?;
    text.push(b"changed ")?;
    text.push_number(changes.len() as u64)?;
    text.push(b" blocks ")?;
    text.push_number(regrouped.len() as u64)?;
    text.push(b" cost ")?;
    text.push_number(cost)?;
    text.push(b" other ")?;
    text.push_number(other)?;
    text.push(b"\n")?;
    Ok(text.into_bytes())
}
