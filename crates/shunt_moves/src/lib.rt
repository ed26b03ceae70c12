//! The workbench: a plan's blocks that are changed by hand, with undo and redo, and what is wrong with them at each moment.
#![tactic(auto)]

mod bench;
mod cover;
mod edit_effects;
mod exchange;
mod faults;
pub mod laws;
mod moves;
mod present;
mod types;

pub use bench::Workbench;
pub use types::{MoveError, Nothing, Tally};
