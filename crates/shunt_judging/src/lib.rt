//! The commands that judge a plan: `audit`, `check`, and `replay` with a planner's edits.
#![tactic(auto)]

mod audit;
mod check;
mod pinned_check;
mod pins;
mod replay;
mod turns;

pub use audit::{AuditCommand, fault_answer, outcome_of};
pub use check::CheckCommand;
pub use pinned_check::CheckPinnedCommand;
pub use pins::pins_answer;
pub use replay::ReplayCommand;
