//! Numbers as the values and prices of a case, within the limits that a certificate has for them.
#![tactic(auto)]

mod prices;
mod values;

pub use prices::{add_price, is_price};
pub use values::value_within;
