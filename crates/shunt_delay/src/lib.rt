//! How late each arriving train of a plan can be, and what stops it from being later.
#![tactic(auto)]

mod bearable_delays;
mod first;
mod late;
pub mod laws;
mod moved_stays;
mod records;
mod train;

pub use bearable_delays::delays;
pub use records::{Delay, Stop};
