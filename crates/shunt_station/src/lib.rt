//! The station file: what its records state, or their first fault, and how a station is written.
#![tactic(auto)]

mod draft;
pub mod laws;
mod reader;
mod writer;

pub use reader::read_station;
pub use writer::write_station;
