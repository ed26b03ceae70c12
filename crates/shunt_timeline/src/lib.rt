//! Crossings and loads of stays, kept while stays come and go.
#![tactic(auto)]

mod events;
mod timelines;
mod track;

pub use timelines::Timelines;
