//! Sheets of shunting orders: their file, the orders of a plan, and whether orders can be followed.
#![tactic(auto)]

mod follower;
pub mod laws;
mod orders;
mod reader;
mod records;
mod tracks;
mod writer;

pub use follower::follow;
pub use orders::orders_of;
pub use reader::read_sheet;
pub use records::{Followed, Order};
pub use writer::write_sheet;
