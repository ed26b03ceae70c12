//! A station joined with a timetable: one night, with its units and positions numbered.
#![tactic(auto)]

mod joined;
pub mod laws;
mod lookups;
mod namings;
mod records;
mod train_numbers;

pub use joined::Instance;
pub use namings::{TrackNames, TypeNames};
pub use records::{
    Origin, Permit, PlacedRun, Position, Route, Station, Timetable, Track, TrackEnd, Train, Unit,
    UnitType,
};
