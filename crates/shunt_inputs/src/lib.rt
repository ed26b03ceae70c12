//! The input files of the commands: reading and judging them one after the other, and what a command then answers.
#![tactic(auto)]

mod answers;
mod chains;
mod file_loader;
mod files;
mod input_loader;
mod inputs;
mod nights;
mod pins;
mod questions;
mod stations;

pub use answers::{Answer, FileText, Outcome, file_text, one_file, two_files};
pub use chains::Then;
pub use file_loader::Halt;
pub use files::{CertificateFile, CrewFile, EditsFile, OtherFile, PinsFile, PlanFile, ZonesFile};
pub use inputs::{HasNight, InputFile, Inputs, NoFiles};
pub use nights::{CrewFiles, NightFiles, PlanFiles, RosterFile, WholeNight, WholeNightFiles};
pub use pins::{Pinned, PinnedFiles};
pub use questions::{Question, reply};
pub use stations::{SheetFile, StationFile, TimetableFile};
