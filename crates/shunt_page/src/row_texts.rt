// Rows of tables.
ghost use Rattle.std.specs.Prelude.{◌≡◌, ◌++◌, OnOk};
ghost use Rattle.shunt_page.specs.defs.RowTexts.{fact_row, finding_item, order_class, order_train};
ghost use Rattle.shunt_page.specs.defs.RowTexts.{order_open, order_word, order_end, order_what};
ghost use Rattle.shunt_page.specs.defs.RowTexts.{order_where, order_text, already_text};
ghost use Rattle.shunt_page.specs.defs.RowTexts.{already_row, order_row, already_rows, order_rows};
ghost use Rattle.shunt_page.specs.defs.RowTexts.{parked_words, parked_cell, loose_with, loose_open};
ghost use Rattle.shunt_page.specs.defs.RowTexts.{train_cells, loose_row, loose_rows, from_words};
ghost use Rattle.shunt_page.specs.defs.RowTexts.{block_end, block_link, filling_item};
ghost use Rattle.shunt_page.specs.defs.RowTexts.{fillings_text, seat_words, seat_item, seat_items};
ghost use Rattle.shunt_page.specs.defs.RowTexts.{depart_open, name_cell, seats_cell, depart_row};
ghost use Rattle.shunt_page.specs.defs.RowTexts.{depart_rows};

use crate::cells::{
    comma, open_link, push_beside_cell, push_cell, push_link_cell, push_number_cell,
    push_time_cell, push_unit, push_units_cell, side_letter,
};
use crate::records::{DepartRow, Filling, FindingLine, LooseRow, OrderRow, Seat, TrainTold};
use shunt_base::Name;
use shunt_text::Text;
use std::alloc::AllocError;

// A number with what it counts.
#[tactic(auto, unfolding(crate::specs::defs::RowTexts::fact_row))]
pub(crate) fn push_fact(text: &mut Text, words: &[u8], number: u64) -> Result<(), AllocError>
    ensures { OnOk result (text.new ≡ text.old ++ fact_row words.now number) }
{
    text.push(b"<tr><th scope='row'>")?;
    text.push(words)?;
    text.push(b"</th><td class='n'>")?;
    text.push_number(number)?;
    text.push(b"</td></tr>\n")
}

#[tactic(auto, unfolding(crate::specs::defs::RowTexts::finding_item))]
pub(crate) fn push_finding(text: &mut Text, finding: &FindingLine) -> Result<(), AllocError>
    ensures { OnOk result (text.new ≡ text.old ++ finding_item finding.now) }
{
    text.push(b"<li>")?;
    text.push(finding.words.as_slice())?;
    text.push(b"</li>\n")
}

fn order_class(enters: bool) -> &'static [u8]
    ensures { result.now ≡ order_class enters }
{
    if enters {
        b"<tr class='in' data-block='"
    } else {
        b"<tr class='out' data-block='"
    }
}

fn order_train(enters: bool) -> &'static [u8]
    ensures { result.now ≡ order_train enters }
{
    if enters {
        b"' data-arrive='"
    } else {
        b"' data-depart='"
    }
}

// What an order begins with: its block, and its train.
#[tactic(auto, unfolding(crate::specs::defs::RowTexts::order_open))]
fn open_order(text: &mut Text, row: &OrderRow) -> Result<(), AllocError>
    ensures { OnOk result (text.new ≡ text.old ++ order_open row.now) }
{
    text.push(order_class(row.order.enters))?;
    text.push_number(u64::from(row.order.id))?;
    text.push(order_train(row.order.enters))?;
    text.push(row.train.name.bytes())?;
    text.push(b"'>")
}

fn order_word(enters: bool) -> &'static [u8]
    ensures { result.now ≡ order_word enters }
{
    if enters { b"comes" } else { b"goes" }
}

// Before whom the block stands, and what then stands on the track, of which length.
#[tactic(auto, unfolding(crate::specs::defs::RowTexts::order_end))]
fn end_order(text: &mut Text, row: &OrderRow) -> Result<(), AllocError>
    ensures { OnOk result (text.new ≡ text.old ++ order_end row.now) }
{
    push_beside_cell(text, row.order.enters, row.beside)?;
    push_number_cell(text, row.load)?;
    push_number_cell(text, u64::from(row.length))?;
    text.push(b"</tr>\n")
}

// When which block comes or goes, and its units.
#[tactic(auto, unfolding(crate::specs::defs::RowTexts::order_what))]
fn push_order_what(text: &mut Text, row: &OrderRow) -> Result<(), AllocError>
    ensures { OnOk result (text.new ≡ text.old ++ order_what row.now) }
{
    push_time_cell(text, row.order.minute)?;
    push_cell(text, order_word(row.order.enters))?;
    push_link_cell(text, row.order.id)?;
    push_units_cell(text, row.units.as_slice())
}

// With which train, and by which side of which track.
#[tactic(auto, unfolding(crate::specs::defs::RowTexts::order_where))]
fn push_order_where(text: &mut Text, row: &OrderRow) -> Result<(), AllocError>
    ensures { OnOk result (text.new ≡ text.old ++ order_where row.now) }
{
    push_cell(text, row.train.name.bytes())?;
    push_cell(text, row.train.place.bytes())?;
    push_cell(text, row.track.bytes())?;
    push_cell(text, side_letter(row.order.side))
}

#[tactic(auto, unfolding(crate::specs::defs::RowTexts::order_text))]
fn push_order(text: &mut Text, row: &OrderRow) -> Result<(), AllocError>
    ensures { OnOk result (text.new ≡ text.old ++ order_text row.now) }
{
    open_order(text, row)?;
    push_order_what(text, row)?;
    push_order_where(text, row)?;
    end_order(text, row)
}

// A block that stands already.
#[tactic(auto, unfolding(crate::specs::defs::RowTexts::already_text))]
fn push_already(text: &mut Text, row: &OrderRow) -> Result<(), AllocError>
    ensures { OnOk result (text.new ≡ text.old ++ already_text row.now) }
{
    open_order(text, row)?;
    push_link_cell(text, row.order.id)?;
    push_units_cell(text, row.units.as_slice())?;
    push_cell(text, row.train.name.bytes())?;
    push_cell(text, row.track.bytes())?;
    end_order(text, row)
}

fn push_already_row(text: &mut Text, row: &OrderRow) -> Result<(), AllocError>
    ensures { OnOk result (text.new ≡ text.old ++ already_row row.now) }
{
    if row.already {
        return push_already(text, row);
    }
    Ok(())
}

fn push_order_row(text: &mut Text, row: &OrderRow) -> Result<(), AllocError>
    ensures { OnOk result (text.new ≡ text.old ++ order_row row.now) }
{
    if row.already {
        return Ok(());
    }
    push_order(text, row)
}

// The blocks that stand already.
pub(crate) fn push_already_rows(text: &mut Text, rows: &[OrderRow]) -> Result<(), AllocError>
    ensures { OnOk result (text.new ≡ text.old ++ already_rows rows.now) }
{
    for row in rows {
        push_already_row(text, row)?;
    }
    Ok(())
}

// All other orders.
pub(crate) fn push_order_rows(text: &mut Text, rows: &[OrderRow]) -> Result<(), AllocError>
    ensures { OnOk result (text.new ≡ text.old ++ order_rows rows.now) }
{
    for row in rows {
        push_order_row(text, row)?;
    }
    Ok(())
}

fn push_parked(text: &mut Text, track: &Option<Name>) -> Result<(), AllocError>
    ensures { OnOk result (text.new ≡ text.old ++ parked_words track.now) }
{
    match track {
        None => text.push(b"unparked"),
        Some(name) => {
            text.push(b"too soon on ")?;
            text.push(name.bytes())
        }
    }
}

#[tactic(auto, unfolding(crate::specs::defs::RowTexts::parked_cell))]
fn push_parked_cell(text: &mut Text, track: &Option<Name>) -> Result<(), AllocError>
    ensures { OnOk result (text.new ≡ text.old ++ parked_cell track.now) }
{
    text.push(b"<td>")?;
    push_parked(text, track)?;
    text.push(b"</td>")
}

#[tactic(auto, unfolding(crate::specs::defs::RowTexts::loose_with))]
fn open_loose_with(text: &mut Text, id: u32, arr: &Name, dep: &Name) -> Result<(), AllocError>
    ensures { OnOk result (text.new ≡ text.old ++ loose_with id arr.now dep.now) }
{
    text.push(b"<tr data-block='")?;
    text.push_number(u64::from(id))?;
    text.push(b"' data-arrive='")?;
    text.push(arr.bytes())?;
    text.push(b"' data-depart='")?;
    text.push(dep.bytes())?;
    text.push(b"'>")
}

#[tactic(auto, unfolding(crate::specs::defs::RowTexts::loose_open))]
fn open_loose(text: &mut Text, loose: &LooseRow) -> Result<(), AllocError>
    ensures { OnOk result (text.new ≡ text.old ++ loose_open loose.now) }
{
    open_loose_with(text, loose.id, &loose.arr.name, &loose.dep.name)
}

// A train with its minute and its platform.
#[tactic(auto, unfolding(crate::specs::defs::RowTexts::train_cells))]
fn push_train_cells(text: &mut Text, train: &TrainTold) -> Result<(), AllocError>
    ensures { OnOk result (text.new ≡ text.old ++ train_cells train.now) }
{
    push_cell(text, train.name.bytes())?;
    push_time_cell(text, train.minute)?;
    push_cell(text, train.place.bytes())
}

// A block that isn't on a track.
#[tactic(auto, unfolding(crate::specs::defs::RowTexts::loose_row))]
fn push_loose_row(text: &mut Text, loose: &LooseRow) -> Result<(), AllocError>
    ensures { OnOk result (text.new ≡ text.old ++ loose_row loose.now) }
{
    open_loose(text, loose)?;
    push_link_cell(text, loose.id)?;
    push_units_cell(text, loose.units.as_slice())?;
    push_train_cells(text, &loose.arr)?;
    push_train_cells(text, &loose.dep)?;
    push_parked_cell(text, &loose.track)?;
    text.push(b"</tr>\n")
}

pub(crate) fn push_loose_rows(text: &mut Text, looses: &[LooseRow]) -> Result<(), AllocError>
    ensures { OnOk result (text.new ≡ text.old ++ loose_rows looses.now) }
{
    for row in looses {
        push_loose_row(text, row)?;
    }
    Ok(())
}

fn push_from(text: &mut Text, track: &Option<Name>) -> Result<(), AllocError>
    ensures { OnOk result (text.new ≡ text.old ++ from_words track.now) }
{
    match track {
        None => Ok(()),
        Some(name) => {
            text.push(b" from ")?;
            text.push(name.bytes())
        }
    }
}

#[tactic(auto, unfolding(crate::specs::defs::RowTexts::block_end))]
fn end_block(text: &mut Text, id: u32) -> Result<(), AllocError>
    ensures { OnOk result (text.new ≡ text.old ++ block_end id) }
{
    text.push(b"block ")?;
    text.push_number(u64::from(id))?;
    text.push(b"</a>")
}

#[tactic(auto, unfolding(crate::specs::defs::RowTexts::block_link))]
fn push_block_link(text: &mut Text, id: u32) -> Result<(), AllocError>
    ensures { OnOk result (text.new ≡ text.old ++ block_link id) }
{
    text.push(b", ")?;
    open_link(text, id)?;
    end_block(text, id)
}

// What fills a position.
#[tactic(auto, unfolding(crate::specs::defs::RowTexts::filling_item))]
fn push_filling(text: &mut Text, k: usize, filling: &Filling) -> Result<(), AllocError>
    ensures { OnOk result (text.new ≡ text.old ++ filling_item k filling.now) }
{
    text.push(comma(k))?;
    push_unit(text, &filling.unit)?;
    push_block_link(text, filling.id)?;
    push_from(text, &filling.track)
}

fn push_fillings(text: &mut Text, fillings: &[Filling]) -> Result<(), AllocError>
    ensures { OnOk result (text.new ≡ text.old ++ fillings_text fillings.now) }
{
    for i in 0..fillings.len() {
        push_filling(text, i, &fillings[i])?;
    }
    Ok(())
}

fn push_seat_words(text: &mut Text, fillings: &[Filling]) -> Result<(), AllocError>
    ensures { OnOk result (text.new ≡ text.old ++ seat_words fillings.now) }
{
    if fillings.is_empty() {
        return text.push(b"nobody");
    }
    push_fillings(text, fillings)
}

#[tactic(auto, unfolding(crate::specs::defs::RowTexts::seat_item))]
fn push_seat(text: &mut Text, seat: &Seat) -> Result<(), AllocError>
    ensures { OnOk result (text.new ≡ text.old ++ seat_item seat.now) }
{
    text.push(b"<li>")?;
    push_seat_words(text, seat.fillings.as_slice())?;
    text.push(b"</li>")
}

fn push_seats(text: &mut Text, seats: &[Seat]) -> Result<(), AllocError>
    ensures { OnOk result (text.new ≡ text.old ++ seat_items seats.now) }
{
    for row in seats {
        push_seat(text, row)?;
    }
    Ok(())
}

#[tactic(auto, unfolding(crate::specs::defs::RowTexts::depart_open))]
fn open_depart(text: &mut Text, name: &Name) -> Result<(), AllocError>
    ensures { OnOk result (text.new ≡ text.old ++ depart_open name.now) }
{
    text.push(b"<tr data-depart='")?;
    text.push(name.bytes())?;
    text.push(b"'>")
}

#[tactic(auto, unfolding(crate::specs::defs::RowTexts::name_cell))]
fn push_name_cell(text: &mut Text, name: &Name) -> Result<(), AllocError>
    ensures { OnOk result (text.new ≡ text.old ++ name_cell name.now) }
{
    text.push(b"<th scope='row'>")?;
    text.push(name.bytes())?;
    text.push(b"</th>")
}

#[tactic(auto, unfolding(crate::specs::defs::RowTexts::seats_cell))]
fn push_seats_cell(text: &mut Text, seats: &[Seat]) -> Result<(), AllocError>
    ensures { OnOk result (text.new ≡ text.old ++ seats_cell seats.now) }
{
    text.push(b"<td><ol>")?;
    push_seats(text, seats)?;
    text.push(b"</ol></td></tr>\n")
}

// A departing train with its units in the order of positions.
#[tactic(auto, unfolding(crate::specs::defs::RowTexts::depart_row))]
fn push_depart_row(text: &mut Text, depart: &DepartRow) -> Result<(), AllocError>
    ensures { OnOk result (text.new ≡ text.old ++ depart_row depart.now) }
{
    open_depart(text, &depart.train.name)?;
    push_time_cell(text, depart.train.minute)?;
    push_name_cell(text, &depart.train.name)?;
    push_cell(text, depart.train.place.bytes())?;
    push_seats_cell(text, depart.seats.as_slice())
}

pub(crate) fn push_depart_rows(text: &mut Text, departs: &[DepartRow]) -> Result<(), AllocError>
    ensures { OnOk result (text.new ≡ text.old ++ depart_rows departs.now) }
{
    for row in departs {
        push_depart_row(text, row)?;
    }
    Ok(())
}
