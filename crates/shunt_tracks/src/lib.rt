//! Blocks on the lists of their tracks, moved event by event.
#![tactic(auto)]

mod blocks;
mod dues;
mod run;
pub mod sequence;

pub use dues::{Due, sorted_dues};
pub use run::{Event, Ran, Step, run_lists};
pub use sequence::Sequence;
