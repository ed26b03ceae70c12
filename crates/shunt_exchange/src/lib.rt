//! The commands for other programs and other versions: `report` and `upgrade`.
#![tactic(auto)]

mod report;
mod upgrade;

pub use report::ReportCommand;
pub use upgrade::{TrainFiles, UpgradeCommand};
