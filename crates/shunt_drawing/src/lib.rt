//! The commands that show a plan: `draw` and `page`.
#![tactic(auto)]

mod page;
mod picture;

pub use page::PageCommand;
pub use picture::DrawCommand;
