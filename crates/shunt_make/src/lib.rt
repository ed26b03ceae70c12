//! Nights that are made of a number: a station and a timetable, the same ones each time, whose units have a matching.
#![tactic(auto)]

mod draws;
pub mod laws;
mod night;
mod stations;
mod trains;

pub use night::make;
