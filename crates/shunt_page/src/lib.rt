//! The page of a night for whoever drives its plan or signs it: a plan as a value of rows with its picture, and the text of that value as
//! HTML.
#![tactic(auto)]

mod cells;
mod departs;
mod findings;
mod occupancy;
mod orders;
mod page_texts;
mod parts;
mod plan_page;
mod records;
mod row_texts;
mod told;

pub use page_texts::page_text;
pub use plan_page::page;
pub use records::{
    DepartRow, Filling, FindingLine, LooseRow, OrderRow, Page, Parts, Seat, TrainTold, UnitTold,
};
