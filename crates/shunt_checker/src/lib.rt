//! The separate checker: whether a certificate proves its bound, with loops of its own.
#![tactic(auto)]

mod bounds;
mod cases;
mod checker;
mod children;
mod descent;
mod first_choices;
mod free_shapes;
mod gains;
mod known;
pub mod laws;
mod leasts;
mod light_shapes;
mod missed_choices;
mod node_choices;
mod nodes;
mod offer;
mod omissions;
mod opening_costs;
mod plan_faults;
mod prices;
mod rows;
mod runs;
mod sums;
mod verdict;
mod versions;
mod walk;
mod ways;

pub use checker::{check, check_pinned};
pub use verdict::{PlanFault, Reason, Verdict};
