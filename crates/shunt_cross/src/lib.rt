//! Crossings and loads of stays, counted without moving any lists.
#![tactic(auto)]

mod clash;
mod crossings;
pub mod laws;
mod loads;

pub use clash::{Clash, clashes};
pub use crossings::crosses;
pub use loads::load_after;
