//! The commands for the night dispatcher: `delay`, `sheet`, `follow`, `compare` and `resume`.
#![tactic(auto)]

mod comparison;
mod delay;
mod followed_orders;
mod resumption;
mod sheet;

pub use comparison::CompareCommand;
pub use delay::DelayCommand;
pub use followed_orders::FollowCommand;
pub use resumption::{RestFiles, ResumeCommand};
pub use sheet::SheetCommand;
