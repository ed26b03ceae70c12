// The text of a verdict on a certificate.
ghost use Rattle.std.specs.Prelude.{◌≡◌, ◌<◌, ◌++◌, length, OnOk, IfOk};
ghost use Rattle.shunt_rows.specs.defs.Written.{side_text};
ghost use Rattle.shunt_blocks.specs.defs.Shapes.{IsOnTrack};
ghost use Rattle.shunt_report.specs.defs.VerdictTexts.{IsChoiceOfNight, IsBlockOfNight};
ghost use Rattle.shunt_report.specs.defs.VerdictTexts.{IsPlanFaultOfNight, IsReasonOfNight};
ghost use Rattle.shunt_report.specs.defs.VerdictTexts.{IsVerdictOfNight, option_words};
ghost use Rattle.shunt_report.specs.defs.VerdictTexts.{choice_words, choice_in, block_words};
ghost use Rattle.shunt_report.specs.defs.VerdictTexts.{word_number, plan_fault_words};
ghost use Rattle.shunt_report.specs.defs.VerdictTexts.{reason_number, reason_words, end_word};
ghost use Rattle.shunt_report.specs.defs.VerdictTexts.{verdict_of};

use crate::found::{push_position, push_two, push_unit};
use shunt_base::Side;
use shunt_blocks::{Block, Park};
use shunt_checker::{PlanFault, Reason, Verdict};
use shunt_instance::Instance;
use shunt_plan::{arr_name, dep_name, track_name};
use shunt_proof::{Certificate, Choice};
use shunt_text::Text;
use std::alloc::{AllocError, Global};

fn side_word(side: Side) -> &'static [u8]
    ensures { result.now ≡ side_text side }
{
    match side {
        Side::A => b"A",
        Side::B => b"B",
    }
}

pub(crate) fn push_option(
    text: &mut Text,
    instance: &Instance,
    park: Option<Park>,
) -> Result<(), AllocError>
    requires { IsOnTrack instance.now.station park }
    ensures { OnOk result (text.new ≡ text.old ++ option_words instance.now park) }
{
    match park {
        None => text.push(b"unparked"),
        Some(park) => {
            text.push(b"park ")?;
            text.push(track_name(instance, park.track))?;
            text.push(b" ")?;
            text.push(side_word(park.side_in))?;
            text.push(b" ")?;
            text.push(side_word(park.side_out))
        }
    }
}

fn push_choice(text: &mut Text, instance: &Instance, choice: Choice) -> Result<(), AllocError>
    requires { IsChoiceOfNight instance.now choice }
    ensures { OnOk result (text.new ≡ text.old ++ choice_words instance.now choice) }
{
    text.push_number(u64::from(choice.n))?;
    text.push(b" ")?;
    text.push(dep_name(instance, choice.dep))?;
    text.push(b" ")?;
    text.push_number(u64::from(choice.q))?;
    text.push(b" ")?;
    push_option(text, instance, choice.park)
}

// A block without its arriving train.
fn choice_in(block: Block) -> Choice
    ensures { result ≡ choice_in block }
{
    Choice {
        n: block.n,
        dep: block.dep,
        q: block.q,
        park: block.park,
    }
}

fn push_block(text: &mut Text, instance: &Instance, block: Block) -> Result<(), AllocError>
    requires { IsBlockOfNight instance.now block }
    ensures { OnOk result (text.new ≡ text.old ++ block_words instance.now block) }
{
    text.push(arr_name(instance, block.arr))?;
    text.push(b" ")?;
    text.push_number(u64::from(block.p))?;
    text.push(b" ")?;
    push_choice(text, instance, choice_in(block))
}

fn push_word(text: &mut Text, word: &[u8], number: i64) -> Result<(), AllocError>
    ensures { OnOk result (text.new ≡ text.old ++ word_number word.now number) }
{
    text.push(b" ")?;
    text.push(word)?;
    text.push(b" ")?;
    text.push_signed(number)
}

fn push_plan_fault(text: &mut Text, instance: &Instance, fault: PlanFault) -> Result<(), AllocError>
    requires { IsPlanFaultOfNight instance.now fault }
    ensures { OnOk result (text.new ≡ text.old ++ plan_fault_words instance.now fault) }
{
    match fault {
        PlanFault::BadBlock { id } => {
            text.push(b" block ")?;
            text.push_number(u64::from(id))
        }
        PlanFault::Unit { unit } => {
            text.push(b" unit ")?;
            push_unit(text, instance, unit)
        }
        PlanFault::Place { position } => {
            text.push(b" place ")?;
            push_position(text, instance, position)
        }
        PlanFault::Blocked { id } => {
            text.push(b" blocked ")?;
            text.push_number(u64::from(id))
        }
        PlanFault::Over { id, load } => {
            text.push(b" over ")?;
            push_two(text, u64::from(id), load)
        }
        PlanFault::Cost { stated, real } => {
            text.push(b" cost ")?;
            push_two(text, stated, real)
        }
    }
}

fn number_of(reason: Reason) -> u64
    ensures { result ≡ reason_number reason }
{
    match reason {
        Reason::PlanFinding(_) => 1,
        Reason::DualBroken { .. } => 2,
        Reason::LeafLow { .. } => 3,
        Reason::WholeLow { .. } => 4,
        Reason::ChildMissing { .. } => 5,
        Reason::ChildNotThere { .. } => 6,
        Reason::ChildTwice { .. } => 7,
        Reason::CostStated { .. } => 8,
        Reason::WrongKind => 9,
        Reason::ChildNotLean { .. } => 10,
    }
}

// What a reason carries.
fn push_reason(text: &mut Text, instance: &Instance, reason: Reason) -> Result<(), AllocError>
    requires { IsReasonOfNight instance.now reason }
    ensures { OnOk result (text.new ≡ text.old ++ reason_words instance.now reason) }
{
    match reason {
        Reason::PlanFinding(fault) => push_plan_fault(text, instance, fault),
        Reason::DualBroken { block, cost, sum } => {
            text.push(b" block ")?;
            push_block(text, instance, block)?;
            push_word(text, b"cost", cost)?;
            push_word(text, b"duals", sum)
        }
        Reason::LeafLow { bound, stated } => {
            push_word(text, b"bound", bound)?;
            push_word(text, b"stated", stated)
        }
        Reason::WholeLow { cost, stated } => {
            push_word(text, b"cost", cost)?;
            push_word(text, b"stated", stated)
        }
        Reason::ChildMissing { choice, bound } => {
            text.push(b" child ")?;
            push_choice(text, instance, choice)?;
            push_word(text, b"bound", bound)
        }
        Reason::ChildNotThere { choice } | Reason::ChildTwice { choice } => {
            text.push(b" child ")?;
            push_choice(text, instance, choice)
        }
        Reason::CostStated { stated, cost } => {
            push_word(text, b"stated", stated)?;
            push_word(text, b"cost", cost)
        }
        Reason::WrongKind => Ok(()),
        Reason::ChildNotLean { bound, best } => {
            push_word(text, b"bound", bound)?;
            push_word(text, b"best", best)
        }
    }
}

pub(crate) fn end_word(cost: u64, bound: u64) -> &'static [u8]
    ensures { result.now ≡ end_word cost bound }
{
    if bound == cost {
        b"optimal"
    } else {
        b"unfinished"
    }
}

/// The line of a verdict: `accepted cost C bound B nodes N` and `optimal` where the bound is the cost, else `unfinished`; or
/// `rejected record R reason K` and what the reason carries.
///
/// The record is 0 for the plan, else that of a node or the last one, from 1. Trains and tracks are told by name, units and positions
/// by train and place, blocks of the plan by id. The bound of an accepted certificate is that of the verdict. Costs and bounds are in
/// cost units, those of broken duals in thousandths of one. What the verdict tells is of the instance, as is that of every verdict on a
/// certificate (`laws::verdicts`).
#[tactic(auto, unfolding(crate::specs::defs::VerdictTexts::verdict_of))]
pub fn verdict_text(
    alloc: Global,
    instance: &Instance,
    certificate: &Certificate,
    verdict: &Verdict,
) -> Result<Vec<u8>, AllocError>
    requires { IsVerdictOfNight instance.now verdict.now }
    ensures { IfOk result (λ v. v.items ≡ verdict_of instance.now certificate.now verdict.now) }
{
    let mut text = Text::new(alloc);
    match *verdict {
        Verdict::Accepted { bound } => {
            text.push(b"accepted cost ")?;
            text.push_number(certificate.cost)?;
            text.push(b" bound ")?;
            text.push_number(bound)?;
            text.push(b" nodes ")?;
            text.push_number(certificate.nodes.as_slice().len() as u64)?;
            text.push(b" ")?;
            text.push(end_word(certificate.cost, bound))?;
        }
        Verdict::Rejected { row, reason } => {
            text.push(b"rejected record ")?;
            text.push_number(u64::from(row))?;
            text.push(b" reason ")?;
            text.push_number(number_of(reason))?;
            push_reason(&mut text, instance, reason)?;
        }
    }
    text.push(b"\n")?;
    Ok(text.into_bytes())
}
