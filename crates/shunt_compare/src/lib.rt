//! What another plan of a night does otherwise.
#![tactic(auto)]

mod changes;
mod comparison;
pub mod laws;
mod records;
mod regrouped;

pub use comparison::compare;
pub use records::{Change, Comparison, Placement};
