//! The files of a plan, of pins and of edits in a night: what their records state, or their first fault, and how they are
//! written.
#![tactic(auto)]

mod block_records;
mod edits;
mod edits_writer;
mod kept;
pub mod laws;
mod pins;
mod pins_writer;
mod plan;
mod ranges;
mod records;
mod writer;

pub use block_records::{read_arr, read_dep, read_first, read_option, read_track};
pub use edits::{Edit, Turn, read_edits};
pub use edits_writer::write_edits;
pub use kept::lost_pin;
pub use pins::read_pins;
pub use pins_writer::write_pins;
pub use plan::read_plan;
pub use ranges::{blocks_cost, plan_cost, plan_in_range};
pub use records::Plan;
pub use writer::{arr_name, dep_name, track_name, write_option, write_plan};
