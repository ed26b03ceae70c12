// The first line of a trial.
ghost use Rattle.std.specs.Prelude.{◌≡◌, ◌++◌, length, decimal, IfOk, OnOk};
ghost use Rattle.shunt_trial.specs.defs.Tried.{trial_line};

use itoa::Buffer;
use shunt_instance::{Station, Timetable};
use std::alloc::{AllocError, Global};

// Appends a word, and a number in plain decimals.
fn push_count(text: &mut Vec<u8>, word: &[u8], number: u64) -> Result<(), AllocError>
    ensures { OnOk result (text.new.items ≡ text.old.items ++ (word.now ++ decimal number)) }
{
    let mut digits = Buffer::new();
    text.extend_from_slice(word)?;
    text.extend_from_slice(digits.format(number).as_bytes())?;
    Ok(())
}

/// The line of a night that was made: `trial NUMBER units U arrive A depart D tracks T`.
#[tactic(auto, unfolding(crate::specs::defs::Tried::trial_line))]
pub(crate) fn trial_text(
    alloc: Global,
    number: u32,
    units: u32,
    station: &Station,
    timetable: &Timetable,
) -> Result<Vec<u8>, AllocError>
    ensures { IfOk result (λ v. v.items ≡ trial_line number units (length timetable.now.arrive)
        (length timetable.now.depart) (length station.now.tracks)) }
{
    let mut text = Vec::new(alloc);
    push_count(&mut text, b"trial ", u64::from(number))?;
    push_count(&mut text, b" units ", u64::from(units))?;
    push_count(&mut text, b" arrive ", timetable.arrive.len() as u64)?;
    push_count(&mut text, b" depart ", timetable.depart.len() as u64)?;
    push_count(&mut text, b" tracks ", station.tracks.len() as u64)?;
    text.push(b'\n')?;
    Ok(text)
}
