//! Every text that the program prints but the line for an input file that isn't accepted.
#![tactic(auto)]

mod comparisons;
mod delays;
mod drivers;
mod found;
mod json;
pub mod laws;
mod matched;
mod moves;
mod plans;
mod resumed;
mod sheets;
mod turns;
mod verdicts;
mod zones;

pub use comparisons::comparison_text;
pub use delays::delays_text;
pub use drivers::{roster_text, sharing_text};
pub use found::findings_text;
pub use json::json_text;
pub use matched::{pairs_text, shortage_text};
pub use plans::{lost_text, plan_text};
pub use resumed::resumed_text;
pub use sheets::{followed_text, sheet_text};
pub use turns::{TurnOutcome, turn_text};
pub use verdicts::verdict_text;
pub use zones::zones_text;
