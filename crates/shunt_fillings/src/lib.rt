//! What stacks gain at a path in a case: their candidates, their tables, the sums with stacks, and the bounds of paths and of choices.
#![tactic(auto)]

mod besides;
mod bounds;
mod candidates;
mod choices;
mod ends;
mod gains;
mod pieces;
mod prospects;
mod scenes;
mod sums;

pub use besides::Beside;
pub use bounds::least_bound;
pub use candidates::Candidate;
pub use choices::choice_bound;
pub use ends::{Stack, stacks};
pub use prospects::{Outlook, Prospect, outlooks};
pub use scenes::Scene;
pub use sums::{stack_bound, stack_sum};
