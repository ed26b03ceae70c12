//! What a search asks for that is proposed: cases for a path, and trees of partial plans from it on. What they bound is another's to judge.
#![tactic(auto)]

mod proposer;
mod tree;

pub use proposer::Proposer;
pub use tree::{Proposed, ProposedTree};
