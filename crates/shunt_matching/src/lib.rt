//! When units can be matched to positions, and the matching in the order of their numbers.
#![tactic(auto)]

mod entries;
mod first_shortage;
pub mod laws;
mod night;
mod pairs;
mod ranks;
mod shortages;
pub mod types;

pub use pairs::{MatchError, Matching, first_fit, first_fit_rest};
pub use shortages::{shortage, shortage_rest};
