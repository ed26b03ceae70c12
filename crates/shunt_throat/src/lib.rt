//! The commands on the throat and its drivers: `zones`, `drivers` and `roster`.
#![tactic(auto)]

mod drivers;
mod meetings;
mod roster;

pub use drivers::DriversCommand;
pub use meetings::ZonesCommand;
pub use roster::RosterCommand;
