// The station file, and the files over a station alone.
ghost use Rattle.std.specs.Prelude.{◌≡◌, [], ◌∷◌, get_or};
ghost use Rattle.shunt_instance.specs.defs.Wellformed.{IsStation, IsTimetable};
ghost use Rattle.shunt_rows.specs.declared.words.FileWord.TheVariants as words;
ghost use Rattle.shunt_rows.specs.defs.Formats.{reading};
ghost use Rattle.shunt_sheet.specs.defs.SheetFormat.{sheet_format, AreOrders};
ghost use Rattle.shunt_station.specs.defs.StatedStations.{station_format};
ghost use Rattle.shunt_timetable.specs.defs.TimetableFormat.{timetable_format};
ghost use Rattle.shunt_inputs.specs.defs.Inputs.{stated_station};

use crate::file_loader::Halt;
use crate::input_loader::load_input;
use crate::inputs::{InputFile, Inputs, NoFiles};
use shunt_instance::{Station, Timetable};
use shunt_lists::Items;
use shunt_rows::{FileWord, ReadError, Row};
use shunt_sheet::{Order, read_sheet};
use shunt_station::read_station;
use shunt_store::Store;
use shunt_timetable::read_timetable;
use std::alloc::Global;

/// A station file, by its name.
#[derive(Clone, Copy, Drop)]
pub struct StationFile<'n>(pub &'n str);

impl<'n> InputFile<NoFiles> for StationFile<'n> {
    type Value = Station;

    ghost word = { words.Station };

    ghost name = { λ f. f.0.now };

    ghost states = { λ _ rows. reading station_format rows };

    ghost formed = { λ _ s. IsStation s };

    fn word(&self) -> FileWord {
        FileWord::Station
    }

    fn name(&self) -> &str {
        self.0
    }

    fn read(&self, alloc: Global, _over: &(), rows: &Vec<Row>) -> Result<Station, ReadError> {
        read_station(alloc, rows)
    }
}

impl Inputs for StationFile<'_> {
    type Value = Station;

    ghost inputs = { λ f. (words.Station, f.0.now) ∷ [] };

    ghost states = { λ _ texts. stated_station (get_or texts 0 []) };

    ghost formed = { λ s. IsStation s };

    fn load<S: Store>(&self, alloc: Global, store: &mut S) -> Result<Station, Halt> {
        load_input::<S, NoFiles, _>(alloc, store, &(), self)
    }
}

/// A timetable file over a station.
#[derive(Clone, Copy, Drop)]
pub struct TimetableFile<'n>(pub &'n str);

impl<'n> InputFile<StationFile<'n>> for TimetableFile<'n> {
    type Value = Timetable;

    ghost word = { words.Timetable };

    ghost name = { λ f. f.0.now };

    ghost states = { λ s rows. reading (timetable_format s) rows };

    ghost formed = { λ s t. IsTimetable s t };

    fn word(&self) -> FileWord {
        FileWord::Timetable
    }

    fn name(&self) -> &str {
        self.0
    }

    fn read(&self, alloc: Global, over: &Station, rows: &Vec<Row>) -> Result<Timetable, ReadError> {
        read_timetable(alloc, over, rows)
    }
}

/// A sheet file over a station.
#[derive(Clone, Copy, Drop)]
pub struct SheetFile<'n>(pub &'n str);

impl<'n> InputFile<StationFile<'n>> for SheetFile<'n> {
    type Value = Items<Order>;

    ghost word = { words.Sheet };

    ghost name = { λ f. f.0.now };

    ghost states = { λ s rows. reading (sheet_format s) rows };

    ghost formed = { λ s orders. AreOrders s orders };

    fn word(&self) -> FileWord {
        FileWord::Sheet
    }

    fn name(&self) -> &str {
        self.0
    }

    fn read(
        &self,
        alloc: Global,
        over: &Station,
        rows: &Vec<Row>,
    ) -> Result<Items<Order>, ReadError> {
        Ok(Items::from_vec(read_sheet(alloc, over, rows)?))
    }
}
