// A whole night.
ghost use Rattle.std.specs.Prelude.{◌≡◌, ◌<◌, ◌≤◌, [], length, IfOk};
ghost use Rattle.shunt_instance.specs.defs.Words.{unit_count};
ghost use Rattle.shunt_instance.specs.defs.Instance.{night_of};
ghost use Rattle.shunt_instance.specs.defs.Wellformed.{IsStation, IsTimetable};
ghost use Rattle.shunt_matching.specs.defs.Nights.{HasMatching};
ghost use Rattle.shunt_make.specs.defs.Made.{track_count, station_of, after_station, train_count};
ghost use Rattle.shunt_make.specs.defs.Made.{timetable_of};

use crate::draws::Draws;
use crate::stations::made_station;
use crate::trains::made_timetable;
use shunt_instance::{Station, Timetable};
use std::alloc::{AllocError, Global};

/// The night of a number below 2^31 and of that many units, at most 160: its station and its timetable, as docs/RULES.md says.
///
/// The same number and the same count of units give the same night each time. The error is want of memory.
pub fn make(alloc: Global, number: u32, units: u32) -> Result<(Station, Timetable), AllocError>
    requires number { number < 2147483648 }
    requires units { units ≤ 160 }
    ensures station { IfOk result (λ m. m.0 ≡ station_of number units) }
    ensures timetable { IfOk result (λ m. m.1 ≡ timetable_of (after_station number units) units) }
    ensures formed { IfOk result (λ m. IsStation m.0 × IsTimetable m.0 m.1) }
    ensures matching { IfOk result (λ m. HasMatching (night_of m.0 m.1) [] []) }
    ensures tracks { IfOk result (λ m. length m.0.tracks ≡ track_count units) }
    ensures arriving { IfOk result
        (λ m. (length m.1.arrive ≡ train_count units) × (unit_count m.1.arrive ≡ units)) }
    ensures departing { IfOk result
        (λ m. (length m.1.depart ≡ train_count units) × (unit_count m.1.depart ≡ units)) }
{
    let mut draws = Draws { state: number };
    let station = made_station(alloc, &mut draws, units)?;
    let timetable = made_timetable(alloc, &mut draws, units)?;
    Ok((station, timetable))
}
