// Reading the files that are measured.
ghost use Rattle.std.specs.Prelude.{◌<◌, IfSome};

use shunt_base::parse_decimal;
use shunt_instance::Instance;
use shunt_rows::{Row, records};
use shunt_station::read_station;
use shunt_store::{DiskStore, read_all};
use shunt_timetable::read_timetable;
use std::rt::Files;

/// The longest file that is measured, in bytes.
const MOST_BYTES: u64 = 4_194_304;

/// What wasn't read, or isn't accepted.
#[derive(Clone, Copy, Debug, Drop)]
pub(crate) enum Refused {
    Station,
    Timetable,
    Memory,
}

impl Refused {
    /// The line that says so.
    pub(crate) fn line(self) -> &'static str {
        match self {
            Refused::Station => "the station was refused",
            Refused::Timetable => "the timetable was refused",
            Refused::Memory => "out of memory",
        }
    }
}

// The records of a file. None where it wasn't read.
fn rows_of(rt: &(impl Files + AllocGlobal), name: &str) -> Option<Vec<Row>> {
    let mut store = DiskStore::new(rt);
    let bytes = read_all(rt.alloc(), &mut store, name, MOST_BYTES).ok()?;
    records(rt.alloc(), &bytes).ok()
}

/// The night of a station file and a timetable file.
pub(crate) fn read_night(
    rt: &(impl Files + AllocGlobal),
    station: &str,
    timetable: &str,
) -> Result<Instance, Refused> {
    let rows = rows_of(rt, station).ok_or(Refused::Station)?;
    let Ok(station) = read_station(rt.alloc(), &rows) else {
        return Err(Refused::Station);
    };
    let rows = rows_of(rt, timetable).ok_or(Refused::Timetable)?;
    let Ok(timetable) = read_timetable(rt.alloc(), &station, &rows) else {
        return Err(Refused::Timetable);
    };
    Instance::join(rt.alloc(), station, timetable).or(Err(Refused::Memory))
}

/// How many times a word says, at least once.
pub(crate) fn times(word: &str) -> Option<u64>
    ensures { IfSome result (λ n. 0 < n) }
{
    let count = parse_decimal(word.as_bytes())?;
    if count == 0 {
        return None;
    }
    Some(count)
}
