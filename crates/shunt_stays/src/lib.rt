//! The run of stays over the lists of the tracks, crossings and loads, and what follows from their definitions.
#![tactic(auto)]

pub mod laws;
