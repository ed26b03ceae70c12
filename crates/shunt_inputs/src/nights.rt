// The files of a night, and those that commands read behind them.
ghost use Rattle.std.specs.Prelude.{◌≡◌, [], ◌∷◌, get_or, IfOk};
ghost use Rattle.shunt_drivers.specs.defs.RosterFormat.{roster_format, IsRoster};
ghost use Rattle.shunt_instance.specs.defs.Instance.{night_of};
ghost use Rattle.shunt_instance.specs.defs.Wellformed.{IsStation, IsTimetable};
ghost use Rattle.shunt_rows.specs.declared.words.FileWord.TheVariants as words;
ghost use Rattle.shunt_rows.specs.defs.Formats.{reading};
ghost use Rattle.shunt_zones.specs.defs.Moves.{moves_of};
ghost use Rattle.shunt_inputs.specs.defs.Inputs.{stated_night, stated_whole, whole_of};

use crate::chains::Then;
use crate::file_loader::Halt;
use crate::files::{CrewFile, PlanFile};
use crate::inputs::{HasNight, InputFile, Inputs};
use crate::stations::{StationFile, TimetableFile};
use shunt_drivers::{Crew, Duty, read_roster};
use shunt_instance::{Instance, Station, Timetable};
use shunt_lists::Items;
use shunt_plan::Plan;
use shunt_rows::{FileWord, ReadError, Row};
use shunt_store::Store;
use shunt_timetable::copy_timetable;
use std::alloc::{AllocError, Global};

/// The station file and the timetable file of a night.
#[derive(Clone, Copy, Drop)]
pub struct NightFiles<'n>(pub &'n str, pub &'n str);

impl Inputs for NightFiles<'_> {
    type Value = Instance;

    ghost inputs = { λ f. (words.Station, f.0.now) ∷ (words.Timetable, f.1.now) ∷ [] };

    ghost states = { λ _ texts. stated_night (get_or texts 0 []) (get_or texts 1 []) };

    ghost formed = { λ _. Unit {0} };

    fn load<S: Store>(&self, alloc: Global, store: &mut S) -> Result<Instance, Halt> {
        let files = Then(StationFile(self.0), TimetableFile(self.1));
        let (station, timetable) = files.load(alloc, store)?;
        Ok(Instance::join(alloc, station, timetable)?)
    }
}

/// A night, and its timetable in the order of its file.
#[derive(Drop)]
pub struct WholeNight {
    pub timetable: Timetable,
    pub instance: Instance,
}

impl HasNight for WholeNight {
    ghost night = { λ x. x.instance };

    fn night(&self) -> &Instance {
        &self.instance
    }
}

/// The station file and the timetable file of a night, of which the timetable is wanted as it is.
#[derive(Clone, Copy, Drop)]
pub struct WholeNightFiles<'n>(pub &'n str, pub &'n str);

impl Inputs for WholeNightFiles<'_> {
    type Value = WholeNight;

    ghost inputs = { λ f. (words.Station, f.0.now) ∷ (words.Timetable, f.1.now) ∷ [] };

    ghost states = { λ _ texts. stated_whole (get_or texts 0 []) (get_or texts 1 []) };

    ghost formed = { λ x. IsStation x.instance.station × IsTimetable x.instance.station x.timetable
        × (x.instance ≡ night_of x.instance.station x.timetable) };

    fn load<S: Store>(&self, alloc: Global, store: &mut S) -> Result<WholeNight, Halt> {
        let files = Then(StationFile(self.0), TimetableFile(self.1));
        let (station, timetable) = files.load(alloc, store)?;
        Ok(whole_night(alloc, station, timetable)?)
    }
}

// The night of a station and a timetable, with the timetable.
fn whole_night(
    alloc: Global,
    station: Station,
    timetable: Timetable,
) -> Result<WholeNight, AllocError>
    requires station { IsStation station }
    requires timetable { IsTimetable station timetable }
    ensures { IfOk result (λ x. x ≡ whole_of station timetable) }
{
    let copy = copy_timetable(alloc, &timetable)?;
    Ok(WholeNight {
        timetable: copy,
        instance: Instance::join(alloc, station, timetable)?,
    })
}

/// The files of a night and of a plan in it.
pub type PlanFiles<'n> = Then<NightFiles<'n>, PlanFile<'n>>;

/// Those, and the file of a crew.
pub type CrewFiles<'n> = Then<PlanFiles<'n>, CrewFile<'n>>;

/// A roster file over the moves of a plan, behind its crew file.
#[derive(Clone, Copy, Drop)]
pub struct RosterFile<'n>(pub &'n str);

impl<'n> InputFile<CrewFiles<'n>> for RosterFile<'n> {
    type Value = Items<Duty>;

    ghost word = { words.Roster };

    ghost name = { λ f. f.0.now };

    ghost states = { λ x rows. reading (roster_format (moves_of x.0.0 x.0.1.blocks)) rows };

    ghost formed = { λ x duties. IsRoster (moves_of x.0.0 x.0.1.blocks) duties };

    fn word(&self) -> FileWord {
        FileWord::Roster
    }

    fn name(&self) -> &str {
        self.0
    }

    fn read(
        &self,
        alloc: Global,
        over: &((Instance, Plan), Crew),
        rows: &Vec<Row>,
    ) -> Result<Items<Duty>, ReadError> {
        Ok(Items::from_vec(read_roster(alloc, &over.0.0, &over.0.1, rows)?))
    }
}
