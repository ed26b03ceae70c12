// The answer of `upgrade`.
ghost use Rattle.std.specs.Prelude.{[], ◌∷◌, get_or, IfOk};
ghost use Rattle.shunt_instance.specs.defs.Wellformed.{IsStation, IsTimetable};
ghost use Rattle.shunt_rows.specs.declared.words.FileWord.TheVariants as words;
ghost use Rattle.shunt_rows.specs.defs.Formats.{reading};
ghost use Rattle.shunt_timetable.specs.defs.TimetableFormat.{timetable_format};
ghost use Rattle.shunt_inputs.specs.defs.Inputs.{stated_by, stated_station};
ghost use Rattle.shunt_inputs.specs.defs.ReadFiles.{stated_over};
ghost use Rattle.shunt_inputs.specs.defs.Replies.{reply_of};
ghost use Rattle.shunt_exchange.specs.defs.Upgraded.{IsUpgraded};

use shunt_inputs::{
    Answer, Halt, Inputs, Outcome, Question, StationFile, Then, TimetableFile, file_text, two_files,
};
use shunt_instance::{Station, Timetable};
use shunt_station::write_station;
use shunt_store::Store;
use shunt_timetable::write_timetable;
use std::alloc::{AllocError, Global};

/// A station file, and a timetable file over it, by their names.
#[derive(Clone, Copy, Drop)]
pub struct TrainFiles<'n>(pub &'n str, pub &'n str);

impl Inputs for TrainFiles<'_> {
    type Value = (Station, Timetable);

    ghost inputs = { λ f. (words.Station, f.0.now) ∷ (words.Timetable, f.1.now) ∷ [] };

    ghost states = { λ _ texts. stated_over 1 (λ first. stated_station (get_or first 0 []))
        (λ s. stated_by words.Timetable (λ rows. reading (timetable_format s) rows)) texts };

    ghost formed = { λ x. IsStation x.0 × IsTimetable x.0 x.1 };

    fn load<S: Store>(&self, alloc: Global, store: &mut S) -> Result<(Station, Timetable), Halt> {
        Then(StationFile(self.0), TimetableFile(self.1)).load(alloc, store)
    }
}

/// The question of `upgrade`, by the names of the new files: a station and its timetable, written in the newest version that each asks for.
#[derive(Clone, Copy, Drop)]
pub struct UpgradeCommand<'n>(pub &'n str, pub &'n str);

impl<'n> Question<TrainFiles<'n>> for UpgradeCommand<'_> {
    ghost answers = { λ q x. IsUpgraded q.0.now q.1.now
        (record { station = x.0; timetable = x.1 }) };

    fn answer(&self, alloc: Global, value: (Station, Timetable)) -> Result<Answer, AllocError>
        requires station { IsStation value.0 }
        requires timetable { IsTimetable value.0 value.1 }
        ensures { IfOk result (λ a. IsUpgraded self.now.0.now self.now.1.now
            (record { station = value.0; timetable = value.1 }) (reply_of a)) }
    {
        let (station, timetable) = value;
        let first = file_text(alloc, self.0, write_station(alloc, &station)?)?;
        let second = file_text(alloc, self.1, write_timetable(alloc, &station, &timetable)?)?;
        Ok(Answer {
            outcome: Outcome::Done,
            writes: two_files(alloc, first, second)?,
            text: Vec::new(alloc),
        })
    }
}
