//! A text that is put together piece by piece. Every text that the program prints is made so, and those of its pictures and pages.
#![tactic(auto)]

mod text;

pub use text::Text;
