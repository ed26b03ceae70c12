//! Shares of the cheapest blocks for units and positions, the assignment of least sum, and whether duals and cases hold at a
//! path and what they bound there.
#![tactic(auto)]

mod assignment;
mod bounds;
mod case_offers;
mod feasibility;
mod gains;
pub mod laws;
mod longer;
mod pair_shares;
mod price_raises;
mod shape_costs;
mod shape_demands;
mod steps;
mod table;
mod tree;
pub mod types;
mod unit_values;
mod ways;

pub use assignment::{Assigned, assign};
pub use bounds::{bound, bound_of, case_sum, cases_bound, unparked_in};
pub use case_offers::{Offer, offers};
pub use feasibility::{cases_hold, duals_hold, stack_cases_hold};
pub use gains::gain;
pub use longer::{PathSums, longer_bound, path_sums};
pub use pair_shares::shares;
pub use price_raises::raise_prices;
pub use shape_demands::all_shapes;
