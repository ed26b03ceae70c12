//! What follows from the definitions of this crate.
ghost use Rattle.std.specs.Prelude.{◌≡◌, ◌≤◌, List, ℕ, Ok, length};
ghost use Rattle.shunt_rows.specs.defs.FirstFault.{Tells};
ghost use Rattle.shunt_rows.specs.defs.Formats.{reading};
ghost use Rattle.shunt_rows.specs.defs.Records.{text_of_rows};
ghost use Rattle.shunt_instance.specs.declared.records.Station.{Station};
ghost use Rattle.shunt_instance.specs.defs.Instance.{Night};
ghost use Rattle.shunt_plan.specs.declared.records.Plan.{Plan};
ghost use Rattle.shunt_tracks.specs.declared.run.Event.{Event};
ghost use Rattle.shunt_zones.specs.defs.Moves.{moves_of};
ghost use Rattle.shunt_drivers.specs.declared.records.Crew.{Crew};
ghost use Rattle.shunt_drivers.specs.declared.records.Duty.{Duty};
ghost use Rattle.shunt_drivers.specs.defs.CrewFormat.{crew_format, IsCrew};
ghost use Rattle.shunt_drivers.specs.defs.RosterFormat.{roster_format, AreDuties, IsRoster};
ghost use Rattle.shunt_drivers.specs.defs.RosterRows.{rows_of, ReadsAsRoster};
ghost use Rattle.shunt_drivers.specs.defs.RosterFaults.{InWords};

/// Over each station, records state a crew or have a first fault, and never both, and reading them says which.
pub fn crew_or_first_fault()
    ensures { (station : Station) (rows : List (List (List ℕ))) → Tells (crew_format station) rows }
{}

/// Over any moves, records state duties or have a first fault, and never both, and reading them says which.
pub fn roster_or_first_fault()
    ensures { (moves : List Event) (rows : List (List (List ℕ)))
        → Tells (roster_format moves) rows }
{}

/// The crew that records state has minutes from 1 to 120 for some ways of the station, each once, and for every other move. The
/// duties that records state are at most 800, with drivers from 1 to 800; each is of one of the moves, and no two are of one.
pub fn stated_values_are_formed()
    ensures crew { (station : Station) (rows : List (List (List ℕ))) (c : Crew)
        → reading (crew_format station) rows ≡ Ok c → IsCrew station c }
    ensures roster { (moves : List Event) (rows : List (List (List ℕ))) (duties : List Duty)
        → reading (roster_format moves) rows ≡ Ok duties → IsRoster moves duties }
{}

/// The records of duties that a file can state state them, and their text reads back as them and has at most 27,209 bytes.
pub fn texts_of_rosters()
    ensures rows { (moves : List Event) (duties : List Duty) → IsRoster moves duties
        → reading (roster_format moves) (rows_of duties) ≡ Ok duties }
    ensures again { (moves : List Event) (duties : List Duty) → IsRoster moves duties
        → ReadsAsRoster moves duties (text_of_rows (rows_of duties)) }
    ensures short { (moves : List Event) (duties : List Duty) → IsRoster moves duties
        → length (text_of_rows (rows_of duties)) ≤ 27209 }
{}

/// With a crew that a file can state, duties of a plan's moves, none of them twice, have no fault exactly when they are a sharing;
/// the fault is Absent exactly with the first move without a duty, and Overlap exactly with the first pair of one driver that runs
/// at one minute, where every move has a duty.
pub fn roster_fault_in_words()
    ensures { (night : Night) (crew : Crew) (plan : Plan) (duties : List Duty)
        → IsCrew night.station crew → AreDuties (moves_of night plan.blocks) duties
        → InWords night crew plan duties }
{}
