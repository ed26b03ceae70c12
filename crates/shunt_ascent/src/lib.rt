//! Proposals of cases for a path: values of positions, prices and multipliers that bound much, with values of units that let them hold.
//! Whether they hold is another's to judge.
#![tactic(auto)]

mod additions;
mod ascent;
mod case_pairs;
mod certificate_cases;
mod changes;
mod climbs;
mod drafts;
mod entries;
mod events;
mod fillings;
mod gains;
mod groups;
mod lifts;
mod masks;
mod metric;
mod numbers;
mod places;
mod points;
mod proposal;
mod rests;
mod rooms;
mod roots;
mod scales;
mod scenes;
mod sites;
mod slopes;
mod slots;
mod stack_sites;
mod stacks;
mod stated;
mod tables;
mod totals;
mod valuation;
mod ways;
mod whole_numbers;

pub use entries::Choice;
pub use points::Fixed;
pub use proposal::Proposal;
pub use scales::grain;
pub use sites::{Raise, Raised, Site};
pub use stack_sites::{Reached, StackSite};
