// From records to a station.
ghost use Rattle.std.specs.Prelude.{IfOk};
ghost use Rattle.shunt_rows.specs.defs.Formats.{reading};
ghost use Rattle.shunt_rows.specs.defs.Given.{Gives};
ghost use Rattle.shunt_instance.specs.defs.Wellformed.{IsStation};
ghost use Rattle.shunt_station.specs.defs.StatedStations.{station_format};

use crate::draft::StationDraft;
use shunt_instance::Station;
use shunt_rows::{ReadError, Row, read};
use std::alloc::Global;

/// The station that the records state, which is well formed, or exactly their first fault.
///
/// Both versions of the file are read. `Fault` is the least fault by record, then field, then kind; `Memory` is want of
/// memory.
pub fn read_station(alloc: Global, rows: &Vec<Row>) -> Result<Station, ReadError>
    ensures stated { Gives (λ s. s) result (reading station_format rows.now.items) }
    ensures formed { IfOk result IsStation }
{
    read::<StationDraft>(&(), alloc, rows)
}
