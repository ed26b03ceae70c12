//! The greatest gain of a stack: a table that finds it for parts of the events and rooms, each once.
#![tactic(auto)]

mod numbers;
mod pieces;
mod places;
mod rows;
mod table;
mod values;

pub use numbers::Events;
pub use pieces::Piece;
pub use table::Table;
