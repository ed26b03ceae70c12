//! Choices: the shapes and options that can come next, and the paths that grow by them.
#![tactic(auto)]

mod choices;
mod covered;
mod free;
pub mod laws;
mod paths;
pub mod types;

pub use choices::{Shapes, options, shapes_from};
pub use covered::Covered;
pub use paths::Path;
