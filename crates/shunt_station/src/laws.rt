//! What follows from the definitions of this crate.
ghost use Rattle.std.specs.Prelude.{◌≡◌, ◌≤◌, List, ℕ, Ok, length};
ghost use Rattle.shunt_rows.specs.defs.FirstFault.{Tells};
ghost use Rattle.shunt_rows.specs.defs.Formats.{reading};
ghost use Rattle.shunt_rows.specs.defs.Records.{text_of_rows};
ghost use Rattle.shunt_instance.specs.declared.records.Station.{Station};
ghost use Rattle.shunt_instance.specs.defs.Wellformed.{IsStation};
ghost use Rattle.shunt_station.specs.defs.StatedStations.{station_format};
ghost use Rattle.shunt_station.specs.defs.WrittenRows.{rows_of, ReadsAsStation};

/// Records state a station or have a first fault, and never both, and reading them says which.
pub fn station_or_first_fault()
    ensures { (rows : List (List (List ℕ))) → Tells station_format rows }
{}

/// The station that records state is well formed.
pub fn stated_stations_are_well_formed()
    ensures { (rows : List (List (List ℕ))) (s : Station) → reading station_format rows ≡ Ok s
        → IsStation s }
{}

/// The records of a well-formed station state that station.
pub fn records_of_a_station_state_it()
    ensures { (s : Station) → IsStation s → reading station_format (rows_of s) ≡ Ok s }
{}

/// The text of a well-formed station reads back as that station, and has at most 282,436 bytes.
pub fn texts_of_stations()
    ensures again { (s : Station) → IsStation s → ReadsAsStation s (text_of_rows (rows_of s)) }
    ensures short { (s : Station) → IsStation s → length (text_of_rows (rows_of s)) ≤ 282436 }
{}
