//! The command `trial`: a night that is made of a number, planned, checked and audited over files in memory.
#![tactic(auto)]

mod first_line;
mod rehearsal;
mod trial;
mod trial_files;

pub use trial::reply_to_trial;
