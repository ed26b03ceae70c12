// The texts of a plan that was found, and of a pin that a plan doesn't keep.
ghost use Rattle.std.specs.Prelude.{◌≡◌, ◌++◌, OnOk, IfOk};
ghost use Rattle.shunt_report.specs.defs.PlanTexts.{parked_in, unparked_in, splits_in, couples_in};
ghost use Rattle.shunt_report.specs.defs.PlanTexts.{cost_line, blocks_line, plan_of, lost_of};

use crate::verdicts::end_word;
use shunt_blocks::Block;
use shunt_plan::Plan;
use shunt_text::Text;
use std::alloc::{AllocError, Global};

fn parked_in(blocks: &[Block]) -> usize
    ensures { result ≡ parked_in blocks.now }
{
    blocks.iter().filter(|b| b.park.is_some()).count()
}

pub(crate) fn unparked_in(blocks: &[Block]) -> usize
    ensures { result ≡ unparked_in blocks.now }
{
    blocks.iter().filter(|b| b.park.is_none()).count()
}

// How many blocks don't begin their arriving train.
pub(crate) fn splits_in(blocks: &[Block]) -> usize
    ensures { result ≡ splits_in blocks.now }
{
    blocks.iter().filter(|b| b.p != 1).count()
}

// How many blocks don't begin their departing train.
pub(crate) fn couples_in(blocks: &[Block]) -> usize
    ensures { result ≡ couples_in blocks.now }
{
    blocks.iter().filter(|b| b.q != 1).count()
}

fn push_cost(text: &mut Text, cost: u64, bound: u64, nodes: u32) -> Result<(), AllocError>
    ensures { OnOk result (text.new ≡ text.old ++ cost_line cost bound nodes) }
{
    text.push(end_word(cost, bound))?;
    text.push(b" cost ")?;
    text.push_number(cost)?;
    text.push(b" bound ")?;
    text.push_number(bound)?;
    text.push(b" nodes ")?;
    text.push_number(u64::from(nodes))?;
    text.push(b"\n")
}

fn push_blocks(text: &mut Text, blocks: &[Block]) -> Result<(), AllocError>
    ensures { OnOk result (text.new ≡ text.old ++ blocks_line blocks.now) }
{
    text.push(b"blocks ")?;
    text.push_number(blocks.len() as u64)?;
    text.push(b" parked ")?;
    text.push_number(parked_in(blocks) as u64)?;
    text.push(b" unparked ")?;
    text.push_number(unparked_in(blocks) as u64)?;
    text.push(b" splits ")?;
    text.push_number(splits_in(blocks) as u64)?;
    text.push(b" couples ")?;
    text.push_number(couples_in(blocks) as u64)?;
    text.push(b"\n")
}

/// The lines of a plan that was found: `optimal cost C bound B nodes N`, with `unfinished` in place of `optimal` where the bound isn't
/// the cost, and `blocks N parked P unparked U splits S couples C`.
///
/// The cost is the one that the plan states; both are in cost units. The splits are the blocks that don't begin their arriving train,
/// the couples those that don't begin their departing train. The error is want of memory.
#[tactic(auto, unfolding(crate::specs::defs::PlanTexts::plan_of))]
pub fn plan_text(alloc: Global, plan: &Plan, bound: u64, nodes: u32) -> Result<Vec<u8>, AllocError>
    ensures { IfOk result (λ v. v.items ≡ plan_of plan.now bound nodes) }
{
    let mut text = Text::new(alloc);
    push_cost(&mut text, plan.cost, bound, nodes)?;
    push_blocks(&mut text, plan.blocks.as_slice())?;
    Ok(text.into_bytes())
}

/// The line of the first pin that a plan doesn't keep: `pin ID lost`. The error is want of memory.
#[tactic(auto, unfolding(crate::specs::defs::PlanTexts::lost_of))]
pub fn lost_text(alloc: Global, id: u32) -> Result<Vec<u8>, AllocError>
    ensures { IfOk result (λ v. v.items ≡ lost_of id) }
{
    let mut text = Text::new(alloc);
    text.push(b"pin ")?;
    text.push_number(u64::from(id))?;
    text.push(b" lost\n")?;
    Ok(text.into_bytes())
}
