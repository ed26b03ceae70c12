//! What is wrong with blocks and with plans.
#![tactic(auto)]

mod auditor;
mod clashes;
mod covers;
mod faults;
mod findings;
pub mod laws;
mod notes;
pub mod types;

pub use auditor::audit;
pub use findings::{by_id, findings_of};
