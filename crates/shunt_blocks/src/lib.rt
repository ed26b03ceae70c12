//! Blocks: units that stay together from an arriving train to a departing one, with their ways and costs.
#![tactic(auto)]

mod costs;
mod firsts;
pub mod laws;
mod least;
mod lists;
mod ranges;
mod records;
mod stays;
mod ways;

pub use costs::block_cost;
pub use firsts::{position_from, unit_from};
pub use least::cheapest;
pub use lists::{lengths_of, stays_of, track_lengths};
pub use ranges::{are_runs_within, fits, has_position, has_unit, in_range, is_pair, type_fault};
pub use records::{Block, Park, Shape, shape_of};
pub use stays::{block_length, is_too_soon, stay};
pub use ways::{has_placed, is_option, train_way_in, way_in, way_out};
