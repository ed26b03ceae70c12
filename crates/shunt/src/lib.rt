//! The program's one call: from the words of the command line to files and output.
#![tactic(auto)]

mod delivery;
mod execution;
pub mod laws;
mod replies;
pub mod resume_laws;
pub mod search_laws;
mod status;
mod words;

pub use execution::run;
pub use status::Status;
