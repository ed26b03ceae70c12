//! The zones of the throat: their file, which moves of a plan meet in one of them, and how many pass each.
#![tactic(auto)]

pub mod laws;
mod meetings;
mod moves;
mod overs;
mod passages;
mod reader;
mod records;
mod ways;
mod writer;
mod zone_loads;

pub use meetings::meets;
pub use moves::moves_of;
pub use reader::read_zones;
pub use records::{Meet, Over, ZoneLoad, Zones};
pub use ways::{KnownStation, Way};
pub use writer::write_zones;
pub use zone_loads::loads;
