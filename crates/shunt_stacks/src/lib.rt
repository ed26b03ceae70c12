//! Stacks: what one end of a track can gain at most, bounds that take this into account, and what follows from their definitions.
#![tactic(auto)]

pub mod laws;
