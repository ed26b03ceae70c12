//! What follows from the definitions of this crate.
ghost use Rattle.std.specs.Prelude.{◌≡◌, ◌≤◌, List, ℕ, Ok, length};
ghost use Rattle.shunt_rows.specs.defs.Formats.{reading};
ghost use Rattle.shunt_rows.specs.defs.Records.{text_of_rows};
ghost use Rattle.shunt_instance.specs.declared.records.Timetable.{Timetable};
ghost use Rattle.shunt_instance.specs.defs.Wellformed.{IsStation, IsTimetable};
ghost use Rattle.shunt_timetable.specs.defs.WrittenRows.{rows_of};
ghost use Rattle.shunt_rows.specs.defs.FirstFault.{Tells};
ghost use Rattle.shunt_instance.specs.declared.records.Station.{Station};
ghost use Rattle.shunt_timetable.specs.defs.TimetableFormat.{timetable_format};

/// Over each station, records state a timetable or have a first fault, and never both.
pub fn timetable_or_first_fault()
    ensures { (station : Station) (rows : List (List (List ℕ)))
        → Tells (timetable_format station) rows }
{}

/// The timetable that records state over a station is well formed.
pub fn stated_timetables_are_well_formed()
    ensures { (station : Station) (rows : List (List (List ℕ))) (t : Timetable)
        → reading (timetable_format station) rows ≡ Ok t → IsTimetable station t }
{}

/// The rows of a timetable state it.
pub fn rows_of_a_timetable_state_it()
    ensures { (station : Station) (timetable : Timetable) → IsStation station
        → IsTimetable station timetable
        → reading (timetable_format station) (rows_of station timetable) ≡ Ok timetable }
{}

/// The text of a timetable's rows has at most 23,172 bytes.
pub fn text_of_a_timetable_is_short()
    ensures { (station : Station) (timetable : Timetable) → IsStation station
        → IsTimetable station timetable
        → length (text_of_rows (rows_of station timetable)) ≤ 23172 }
{}
