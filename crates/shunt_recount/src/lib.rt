//! What stacks gain at a path in a case, computed apart from the search: for the separate checker of certificates.
#![tactic(auto)]

mod candidates;
mod counts;
mod ends;
mod events;
mod falls;
mod gains;
mod known;
mod moments;
mod offers;
mod places;
mod prices;
mod recounts;
mod shapes;
mod tables;
mod values;
mod visits;

pub use counts::Recount;
pub use falls::fall;
pub use recounts::{recount, total};
