// The texts of sharings and rosters.
ghost use Rattle.std.specs.Prelude.{◌≡◌, ◌≤◌, ◌==◌, ◌++◌, length, OnOk, IfOk, option_map};
ghost use Rattle.std.specs.List.{list_any};
ghost use Rattle.shunt_report.specs.defs.DriversTexts.{busy_words, sharing_of, newly};
ghost use Rattle.shunt_report.specs.defs.DriversTexts.{different_drivers, fault_words, roster_of};

use crate::moves::push_move;
use shunt_base::Minute;
use shunt_drivers::{Duty, RosterFault, Sharing};
use shunt_text::Text;
use std::alloc::{AllocError, Global};

// When as many moves run as there are drivers.
fn push_busy(text: &mut Text, busy: Option<Minute>) -> Result<(), AllocError>
    ensures { OnOk result (text.new ≡ text.old ++ busy_words busy) }
{
    match busy {
        None => Ok(()),
        Some(minute) => {
            text.push(b" busy ")?;
            text.push_minute(minute)
        }
    }
}

/// The line of moves that are shared: `drivers N busy HH:MM moves M`, with the number of drivers, the first minute at which that many
/// moves run, and the number of duties; `drivers 0 moves 0` where there are no moves. The error is want of memory.
#[tactic(auto, unfolding(crate::specs::defs::DriversTexts::sharing_of))]
pub fn sharing_text(alloc: Global, sharing: &Sharing) -> Result<Vec<u8>, AllocError>
    ensures { IfOk result
        (λ v. v.items ≡ sharing_of sharing.now.duties.items sharing.now.drivers sharing.now.busy) }
{
    let mut text = Text::new(alloc);
    text.push(b"drivers ")?;
    text.push_number(u64::from(sharing.drivers))?;
    push_busy(&mut text, sharing.busy)?;
    text.push(b" moves ")?;
    text.push_number(sharing.duties.len() as u64)?;
    text.push(b"\n")?;
    Ok(text.into_bytes())
}

fn has_driver(duties: &[Duty], driver: u32) -> bool
    ensures { result ≡ list_any (λ d. d.driver == driver) duties.now }
{
    duties.iter().any(|duty| duty.driver == driver)
}

// 1 where none of these later duties is of a driver, else 0.
fn newly(later: &[Duty], driver: u32) -> usize
    ensures exact { result ≡ newly later.now driver }
    ensures small { result ≤ 1 }
{
    if has_driver(later, driver) { 0 } else { 1 }
}

// How many different drivers have these duties.
fn different_drivers(duties: &[Duty]) -> usize
    ensures { result ≡ different_drivers duties.now }
{
    let mut different = 0;
    for i in 0..duties.len() {
        different += newly(&duties[i + 1..], duties[i].driver);
    }
    different
}

fn push_fault(text: &mut Text, fault: &RosterFault) -> Result<(), AllocError>
    ensures { OnOk result (text.new ≡ text.old ++ fault_words fault.now) }
{
    match *fault {
        RosterFault::Absent { enters, id } => {
            text.push(b"absent ")?;
            push_move(text, enters, id)
        }
        RosterFault::Overlap { first, second } => {
            text.push(b"overlap ")?;
            text.push_number(u64::from(first.driver))?;
            text.push(b" ")?;
            push_move(text, first.enters, first.id)?;
            text.push(b" ")?;
            push_move(text, second.enters, second.id)
        }
    }
}

/// The line of a roster with these duties: `roster absent MOVE ID` or `roster overlap DRIVER MOVE ID MOVE ID` with its fault, where
/// MOVE is `enter` or `leave`; `roster ok drivers N` where it has none, with the number of different drivers. The error is want of
/// memory.
#[tactic(auto, unfolding(crate::specs::defs::DriversTexts::roster_of))]
pub fn roster_text(
    alloc: Global,
    duties: &Vec<Duty>,
    fault: Option<&RosterFault>,
) -> Result<Vec<u8>, AllocError>
    ensures { IfOk result
        (λ v. v.items ≡ roster_of duties.now.items (option_map (λ f. f.now) fault.entry)) }
{
    let mut text = Text::new(alloc);
    match fault {
        Some(fault) => {
            text.push(b"roster ")?;
            push_fault(&mut text, fault)?;
        }
        None => {
            text.push(b"roster ok drivers ")?;
            text.push_number(different_drivers(duties) as u64)?;
        }
    }
    text.push(b"\n")?;
    Ok(text.into_bytes())
}
