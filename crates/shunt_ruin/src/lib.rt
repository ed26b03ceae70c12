//! Cheaper plans from a plan: blocks are taken away by chance, others are put in their place, and what is found is judged.
#![tactic(auto)]

mod courses;
mod covers;
mod draws;
mod judge;
mod recreation;
mod rounds;
mod search;
mod tables;
mod yard;

pub use courses::{COOL, Course, Fall, HOT, MILD, WARM};
pub use rounds::ruin_and_recreate;
