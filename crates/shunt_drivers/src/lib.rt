//! The drivers of a plan's moves: how long moves take them, moves shared among as few as can be, rosters and their faults.
#![tactic(auto)]

mod crew;
mod drivers;
mod faults;
pub mod laws;
mod records;
mod roster;
mod shares;
mod spans;
mod writer;

pub use crew::read_crew;
pub use drivers::share_moves;
pub use faults::roster_fault;
pub use records::{Crew, Duty, RosterFault, Sharing, Takes};
pub use roster::read_roster;
pub use shares::{MoveShare, MoveShares, MoveSpan, share_spans};
pub use writer::write_roster;
