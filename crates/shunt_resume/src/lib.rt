//! What a plan leaves of a night from a minute on.
#![tactic(auto)]

mod departed;
pub mod laws;
mod next_timetable;
mod records;
mod runs;

pub use departed::gone;
pub use next_timetable::{resumed, tally};
pub use records::Tally;
