//! What proposes by ascents: cases for a path, and trees of partial plans, best first, with cases of their own at nodes. What they bound is
//! another's to judge.
#![tactic(auto)]

mod grounds;
mod grower;
mod growth;
mod levels;
mod lifts;
mod nodes;
mod occupancy;
mod open_choices;
mod proposal;

pub use grower::Grower;
