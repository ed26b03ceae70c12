//! The records of a file, how records are written, and what a first fault is.
#![tactic(auto)]

mod check;
mod fault;
mod fields;
pub mod laws;
mod names;
mod numbered;
mod reader;
mod row;
mod words;
mod writer;

pub use check::{found, must};
pub use fault::{ReadError, RowFault, RowKind};
pub use fields::{enters_of, fields_in, is_within, minute_in, number_in, side_in};
pub use names::Names;
pub use numbered::{Known, Numbered};
pub use reader::{FormatReader, read};
pub use row::{Row, record_number, records};
pub use words::{FileWord, input_text};
pub use writer::RowWriter;
