//! Certificates: trees of partial plans with duals that show a bound on every plan of a night, their file, and what keeps
//! their nodes while they are found.
#![tactic(auto)]

mod copies;
mod draft;
mod heads;
pub mod laws;
mod list_recorder;
mod recorder;
mod records;
pub mod text_laws;
mod text_recorder;
mod values;
pub mod version_laws;
mod versions;
mod writer;

pub use draft::read_certificate;
pub use list_recorder::ListRecorder;
pub use recorder::{RecordError, Recorder};
pub use records::{Certificate, Choice, Node, NodeDuals, NodeKind, Version};
pub use text_recorder::{TextRecorder, begin_certificate};
pub use writer::write_certificate;
