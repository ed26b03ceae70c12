//! The timetable of a night over a station: how its file is read, and written, and how what has come is put into it.
#![tactic(auto)]

mod copies;
pub mod laws;
mod placed;
mod reader;
mod runs;
mod writer;

pub use copies::{copy_timetable, copy_train, copy_trains};
pub use reader::read_timetable;
pub use runs::add_run;
pub use writer::write_timetable;
