//! The search for a plan: how blocks are parked at the least cost, what a search has to answer, and the choices that are worth a
//! node of its tree.
#![tactic(auto)]

mod attempts;
mod cheaper_plans;
mod child;
mod child_list;
mod child_visits;
mod children;
mod conclusion;
mod final_plan;
mod floors;
mod guide_tree;
mod judge;
mod known;
pub mod laws;
mod memory_search;
mod monotonicity;
mod notes;
mod polisher;
mod preparation;
mod proposed_plan;
mod renewal;
mod replay;
mod root_bounds;
mod root_node;
mod search;
mod search_state;
mod sights;
mod solved;
mod solver;
mod start_plan;
mod steadiness;
mod walk_stack;
mod wholes;
mod yard;

pub use memory_search::{Found, find};
pub use polisher::polish;
pub use solved::{SolveError, Solved};
pub use solver::note_found;
