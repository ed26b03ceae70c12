//! Prices of track room, cases of duals with their bounds, price steps, and what follows from their definitions.
#![tactic(auto)]

pub mod laws;
