// Cells of tables.
ghost use Rattle.std.specs.Prelude.{◌≡◌, ◌++◌, OnOk};
ghost use Rattle.shunt_page.specs.defs.Cells.{cell, number_cell, time_cell, link_open, link_end};
ghost use Rattle.shunt_page.specs.defs.Cells.{link_cell, unit_text, comma, unit_item, units_text};
ghost use Rattle.shunt_page.specs.defs.Cells.{units_cell, side_letter, beside_none, beside_some};
ghost use Rattle.shunt_page.specs.defs.Cells.{beside_words, beside_cell};

use crate::records::UnitTold;
use shunt_base::{Minute, Side, minute_bytes};
use shunt_text::Text;
use std::alloc::AllocError;

#[tactic(auto, unfolding(crate::specs::defs::Cells::cell))]
pub(crate) fn push_cell(text: &mut Text, words: &[u8]) -> Result<(), AllocError>
    ensures { OnOk result (text.new ≡ text.old ++ cell words.now) }
{
    text.push(b"<td>")?;
    text.push(words)?;
    text.push(b"</td>")
}

#[tactic(auto, unfolding(crate::specs::defs::Cells::number_cell))]
pub(crate) fn push_number_cell(text: &mut Text, number: u64) -> Result<(), AllocError>
    ensures { OnOk result (text.new ≡ text.old ++ number_cell number) }
{
    text.push(b"<td class='n'>")?;
    text.push_number(number)?;
    text.push(b"</td>")
}

#[tactic(auto, unfolding(crate::specs::defs::Cells::time_cell))]
pub(crate) fn push_time_cell(text: &mut Text, minute: Minute) -> Result<(), AllocError>
    ensures { OnOk result (text.new ≡ text.old ++ time_cell minute) }
{
    text.push(b"<td>")?;
    text.push(&minute_bytes(minute))?;
    text.push(b"</td>")
}

#[tactic(auto, unfolding(crate::specs::defs::Cells::link_open))]
pub(crate) fn open_link(text: &mut Text, id: u32) -> Result<(), AllocError>
    ensures { OnOk result (text.new ≡ text.old ++ link_open id) }
{
    text.push(b"<a href='#b")?;
    text.push_number(u64::from(id))?;
    text.push(b"'>")
}

#[tactic(auto, unfolding(crate::specs::defs::Cells::link_end))]
fn end_link(text: &mut Text, id: u32) -> Result<(), AllocError>
    ensures { OnOk result (text.new ≡ text.old ++ link_end id) }
{
    text.push_number(u64::from(id))?;
    text.push(b"</a></td>")
}

// A block's number, which leads to its bar or its mark in the picture.
#[tactic(auto, unfolding(crate::specs::defs::Cells::link_cell))]
pub(crate) fn push_link_cell(text: &mut Text, id: u32) -> Result<(), AllocError>
    ensures { OnOk result (text.new ≡ text.old ++ link_cell id) }
{
    text.push(b"<td>")?;
    open_link(text, id)?;
    end_link(text, id)
}

// A unit by its train, its place there and its type.
#[tactic(auto, unfolding(crate::specs::defs::Cells::unit_text))]
pub(crate) fn push_unit(text: &mut Text, unit: &UnitTold) -> Result<(), AllocError>
    ensures { OnOk result (text.new ≡ text.old ++ unit_text unit.now) }
{
    text.push(unit.train.bytes())?;
    text.push(b" ")?;
    text.push_number(u64::from(unit.place))?;
    text.push(b" ")?;
    text.push(unit.kind.bytes())
}

// What stands before the one with a number.
pub(crate) fn comma(k: usize) -> &'static [u8]
    ensures { result.now ≡ comma k }
{
    if k == 0 { b"" } else { b", " }
}

#[tactic(auto, unfolding(crate::specs::defs::Cells::unit_item))]
fn push_unit_item(text: &mut Text, k: usize, unit: &UnitTold) -> Result<(), AllocError>
    ensures { OnOk result (text.new ≡ text.old ++ unit_item k unit.now) }
{
    text.push(comma(k))?;
    push_unit(text, unit)
}

fn push_units(text: &mut Text, units: &[UnitTold]) -> Result<(), AllocError>
    ensures { OnOk result (text.new ≡ text.old ++ units_text units.now) }
{
    for i in 0..units.len() {
        push_unit_item(text, i, &units[i])?;
    }
    Ok(())
}

#[tactic(auto, unfolding(crate::specs::defs::Cells::units_cell))]
pub(crate) fn push_units_cell(text: &mut Text, units: &[UnitTold]) -> Result<(), AllocError>
    ensures { OnOk result (text.new ≡ text.old ++ units_cell units.now) }
{
    text.push(b"<td>")?;
    push_units(text, units)?;
    text.push(b"</td>")
}

pub(crate) fn side_letter(side: Side) -> &'static [u8]
    ensures { result.now ≡ side_letter side }
{
    match side {
        Side::A => b"A",
        Side::B => b"B",
    }
}

fn beside_none(enters: bool) -> &'static [u8]
    ensures { result.now ≡ beside_none enters }
{
    if enters { b"alone" } else { b"free" }
}

fn beside_some(enters: bool) -> &'static [u8]
    ensures { result.now ≡ beside_some enters }
{
    if enters { b"in front of " } else { b"behind " }
}

fn push_beside(text: &mut Text, enters: bool, id: Option<u32>) -> Result<(), AllocError>
    ensures { OnOk result (text.new ≡ text.old ++ beside_words enters id) }
{
    match id {
        None => text.push(beside_none(enters)),
        Some(id) => {
            text.push(beside_some(enters))?;
            text.push_number(u64::from(id))
        }
    }
}

// Before whom a block stands that has come, or who stands in the way of one that goes.
#[tactic(auto, unfolding(crate::specs::defs::Cells::beside_cell))]
pub(crate) fn push_beside_cell(
    text: &mut Text,
    enters: bool,
    id: Option<u32>,
) -> Result<(), AllocError>
    ensures { OnOk result (text.new ≡ text.old ++ beside_cell enters id) }
{
    text.push(b"<td>")?;
    push_beside(text, enters, id)?;
    text.push(b"</td>")
}
