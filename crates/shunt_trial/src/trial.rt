// The answer of `trial`.
ghost use Rattle.std.specs.Prelude.{◌≡◌, ◌≢◌, ◌≤◌, [], ◌∷◌, IfOk};
ghost use Rattle.shunt_store.specs.defs.Files.{Closed};
ghost use Rattle.shunt_inputs.specs.defs.Names.{AreNames};
ghost use Rattle.shunt_inputs.specs.defs.Replies.{reply_of};
ghost use Rattle.shunt_make.specs.defs.Made.{station_of};
ghost use Rattle.shunt_trial.specs.defs.Tried.{made_line, made_night, made_timetable, IsTried};
ghost use Rattle.shunt_trial.specs.defs.Rehearsed.{IsNightIn, night_files};

use crate::first_line::trial_text;
use crate::rehearsal::rehearse;
use crate::trial_files::{files_of, store_of};
use shunt_inputs::{Answer, Outcome};
use shunt_make::laws::made_nights;
use shunt_make::make;
use shunt_rows::laws::plain_rows_are_read_back;
use shunt_station::laws::texts_of_stations;
use shunt_store::SureStore;
use shunt_timetable::laws::text_of_a_timetable_is_short;
use std::alloc::{AllocError, Global};

// A store with the files of the night that is made of a number, and what is told of that night.
fn made_store(
    alloc: Global,
    number: u32,
    units: u32,
    station: &str,
    timetable: &str,
) -> Result<(SureStore, Vec<u8>), AllocError>
    requires number { number ≤ 2147483647 }
    requires units { units ≤ 160 }
    requires apart { station.now ≢ timetable.now }
    ensures files { IfOk result (λ m. m.0.files ≡ night_files station.now timetable.now
        (station_of number units) (made_timetable number units)) }
    ensures night { IfOk result
        (λ m. IsNightIn station.now timetable.now m.0.files (made_night number units)) }
    ensures closed { IfOk result (λ m. m.0.stage ≡ Closed) }
    ensures line { IfOk result (λ m. m.1.items ≡ made_line number units) }
{
    made_nights();
    texts_of_stations();
    text_of_a_timetable_is_short();
    plain_rows_are_read_back();
    let (made_station, made_timetable) = make(alloc, number, units)?;
    let line = trial_text(alloc, number, units, &made_station, &made_timetable)?;
    let store = store_of(alloc, station, timetable, &made_station, &made_timetable)?;
    Ok((store, line))
}

/// The answer of `trial`: makes the night of a number with that many units, writes its files in memory, plans it there with at most that many
/// nodes, audits and checks what was found, and writes all four files, in the order of the words.
///
/// The number is at most 2,147,483,647, the units are at most 160, the nodes from 1 to 5,000. Whether the plan is optimal or the nodes were spent
/// first, it ends well. The error is want of memory.
pub fn reply_to_trial(
    alloc: Global,
    number: u32,
    units: u32,
    nodes: u32,
    station: &str,
    timetable: &str,
    plan: &str,
    certificate: &str,
) -> Result<Answer, AllocError>
    requires number { number ≤ 2147483647 }
    requires units { units ≤ 160 }
    requires some { 1 ≤ nodes }
    requires few { nodes ≤ 5000 }
    requires names { AreNames (station.now ∷ timetable.now ∷ plan.now ∷ certificate.now ∷ []) }
    ensures { IfOk result (λ a. IsTried number units nodes station.now timetable.now plan.now
        certificate.now (reply_of a)) }
{
    let (mut store, mut text) = made_store(alloc, number, units, station, timetable)?;
    let told = rehearse(
        alloc,
        &mut store,
        station,
        timetable,
        nodes,
        plan,
        certificate,
    )?;
    text.extend_from_slice(&told)?;
    Ok(Answer {
        outcome: Outcome::Done,
        writes: files_of(alloc, &store, station, timetable, plan, certificate)?,
        text,
    })
}
