//! The picture of a night: its plan as a value of lanes, bars and marks, and the text of that value as SVG.
#![tactic(auto)]

mod bars;
mod lanes;
pub mod laws;
mod levels;
mod marks;
mod picture_texts;
mod plan_picture;
mod records;
mod rows;
mod strips;
mod svg;
mod told;
mod track_stays;
mod train_texts;
mod words;

pub use picture_texts::picture_text;
pub use plan_picture::picture;
pub use records::{Bar, Lane, LegendType, LoadLevel, Loose, Picture, Told, TrainMark};
