//! The commands that plan a night: `match`, `plan`, `pinned` and `improve`.
#![tactic(auto)]

mod improvement;
mod matches;
mod plan_search;
mod plans;

pub use improvement::reply_to_improve;
pub use matches::MatchCommand;
pub use plans::{reply_to_pinned, reply_to_plan};
