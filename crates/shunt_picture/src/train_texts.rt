// How trains are drawn above the lanes.
ghost use Rattle.std.specs.Prelude.{◌≡◌, ◌<◌, ◌+◌, ◌*◌, ◌++◌, slice_index_or, OnOk};
ghost use Rattle.shunt_picture.specs.defs.PictureTexts.{tick_text, group_word, train_group};
ghost use Rattle.shunt_picture.specs.defs.PictureTexts.{when_word, train_when, seat_line};
ghost use Rattle.shunt_picture.specs.defs.PictureTexts.{seat_lines, number_text, numbers_text};
ghost use Rattle.shunt_picture.specs.defs.PictureTexts.{wrong_line, train_wrong, train_title};
ghost use Rattle.shunt_picture.specs.defs.PictureTexts.{train_in, train_text, trains_text};

use crate::records::{LegendType, TrainMark};
use crate::svg::{Area, push_stroke, push_words, wide};
use crate::words::{push_kind_name, push_time, x_of};
use shunt_base::{Name, TypeId};
use shunt_text::Text;
use std::alloc::AllocError;

// The stroke at its minute.
#[tactic(auto, unfolding(crate::specs::defs::PictureTexts::tick_text))]
fn push_tick(text: &mut Text, x: u64, y: u64) -> Result<(), AllocError>
    requires { y < 4299967296 }
    ensures { OnOk result (text.new ≡ text.old ++ tick_text x y) }
{
    push_stroke(
        text,
        b"tick",
        Area {
            x,
            y: y + 2,
            width: 0,
            height: 10,
        },
    )
}

fn group_word(arrives: bool) -> &'static [u8]
    ensures { result.now ≡ group_word arrives }
{
    if arrives {
        b"<g data-arrive='"
    } else {
        b"<g data-depart='"
    }
}

// The group of a train, arriving or departing.
#[tactic(auto, unfolding(crate::specs::defs::PictureTexts::train_group))]
fn push_train_group(text: &mut Text, arrives: bool, name: &Name) -> Result<(), AllocError>
    ensures { OnOk result (text.new ≡ text.old ++ train_group arrives name.now) }
{
    text.push(group_word(arrives))?;
    text.push(name.bytes())?;
    text.push(b"'><title>")
}

fn when_word(arrives: bool, stands: bool) -> &'static [u8]
    ensures { result.now ≡ when_word arrives stands }
{
    if stands {
        return b"stands already ";
    }
    if arrives { b"arrives " } else { b"departs " }
}

// When it comes or goes, or where it stands already.
#[tactic(auto, unfolding(crate::specs::defs::PictureTexts::train_when))]
fn push_train_when(text: &mut Text, arrives: bool, train: &TrainMark) -> Result<(), AllocError>
    ensures { OnOk result (text.new ≡ text.old ++ train_when arrives train.now) }
{
    text.push(when_word(arrives, train.stands))?;
    text.push(train.name.bytes())?;
    text.push(b" ")?;
    push_time(text, train.minute.number())?;
    text.push(b" ")?;
    text.push(train.place.bytes())
}

// A unit or position with its type.
#[tactic(auto, unfolding(crate::specs::defs::PictureTexts::seat_line))]
fn push_seat_line(
    text: &mut Text,
    kinds: &[LegendType],
    k: u64,
    kind: TypeId,
) -> Result<(), AllocError>
    requires { k < 18446744073709551000 }
    ensures { OnOk result (text.new ≡ text.old ++ seat_line kinds.now k kind) }
{
    text.push(b"\n")?;
    text.push_number(k + 1)?;
    text.push(b" ")?;
    push_kind_name(text, kinds, kind)
}

fn push_seat_lines(
    text: &mut Text,
    kinds: &[LegendType],
    seats: &[TypeId],
) -> Result<(), AllocError>
    ensures { OnOk result (text.new ≡ text.old ++ seat_lines kinds.now seats.now) }
{
    for i in 0..seats.len() {
        push_seat_line(text, kinds, i as u64, seats[i])?;
    }
    Ok(())
}

fn push_number(text: &mut Text, place: u8) -> Result<(), AllocError>
    ensures { OnOk result (text.new ≡ text.old ++ number_text place) }
{
    text.push(b" ")?;
    text.push_number(u64::from(place))
}

fn push_numbers(text: &mut Text, places: &[u8]) -> Result<(), AllocError>
    ensures { OnOk result (text.new ≡ text.old ++ numbers_text places.now) }
{
    for place in places {
        push_number(text, *place)?;
    }
    Ok(())
}

// Places that are in no block, or in two.
#[tactic(auto, unfolding(crate::specs::defs::PictureTexts::wrong_line))]
fn push_wrong_line(text: &mut Text, words: &[u8], places: &[u8]) -> Result<(), AllocError>
    ensures { OnOk result (text.new ≡ text.old ++ wrong_line words.now places.now) }
{
    if places.is_empty() {
        return Ok(());
    }
    text.push(words)?;
    push_numbers(text, places)
}

// What of a train is wrong.
#[tactic(auto, unfolding(crate::specs::defs::PictureTexts::train_wrong))]
fn push_train_wrong(text: &mut Text, bare: &[u8], twice: &[u8]) -> Result<(), AllocError>
    ensures { OnOk result (text.new ≡ text.old ++ train_wrong bare.now twice.now) }
{
    push_wrong_line(text, b"\nin no block", bare)?;
    push_wrong_line(text, b"\nin two blocks", twice)?;
    text.push(b"</title>\n")
}

// What is shown while one points at a train.
#[tactic(auto, unfolding(crate::specs::defs::PictureTexts::train_title))]
fn push_train_title(
    text: &mut Text,
    kinds: &[LegendType],
    arrives: bool,
    train: &TrainMark,
) -> Result<(), AllocError>
    ensures { OnOk result (text.new ≡ text.old ++ train_title kinds.now arrives train.now) }
{
    push_train_group(text, arrives, &train.name)?;
    push_train_when(text, arrives, train)?;
    push_seat_lines(text, kinds, train.kinds.as_slice())?;
    push_train_wrong(text, train.bare.as_slice(), train.twice.as_slice())
}

// A train at a place.
#[tactic(auto, unfolding(crate::specs::defs::PictureTexts::train_in))]
fn push_train_in(
    text: &mut Text,
    kinds: &[LegendType],
    x: u64,
    y: u64,
    arrives: bool,
    train: &TrainMark,
) -> Result<(), AllocError>
    requires x { x < 1000000 }
    requires y { y < 4299967296 }
    ensures { OnOk result (text.new ≡ text.old ++ train_in kinds.now x y arrives train.now) }
{
    let words = train.words.as_slice();
    let marks = train.marks.as_slice();
    push_train_title(text, kinds, arrives, train)?;
    push_tick(text, x, y)?;
    push_words(text, b"label", 7, x + 3, y + 11, words)?;
    push_words(text, b"mark", 7, x + 3 + wide(7, words), y + 11, marks)?;
    text.push(b"</g>\n")
}

// A train at its minute.
#[tactic(auto, unfolding(crate::specs::defs::PictureTexts::train_text))]
fn push_train(
    text: &mut Text,
    kinds: &[LegendType],
    from: u16,
    y: u64,
    arrives: bool,
    train: &TrainMark,
) -> Result<(), AllocError>
    requires { y < 4299967296 }
    ensures { OnOk result (text.new ≡ text.old ++ train_text kinds.now from y arrives train.now) }
{
    let x = x_of(from, train.minute.number());
    push_train_in(text, kinds, x, y, arrives, train)
}

// The row with a number, or 0 where there is none.
fn row_at(rows: &[u16], entry: usize) -> u16
    ensures { result ≡ slice_index_or rows.now entry 0 }
{
    if entry < rows.len() { rows[entry] } else { 0 }
}

// The train with a number in its row.
fn push_in_row(
    text: &mut Text,
    kinds: &[LegendType],
    from: u16,
    top: u32,
    arrives: bool,
    rows: &[u16],
    entry: usize,
    train: &TrainMark,
) -> Result<(), AllocError>
    ensures { OnOk result (text.new ≡ text.old ++ train_text kinds.now from
        (top + 12 * slice_index_or rows.now entry 0) arrives train.now) }
{
    let y = u64::from(top) + 12 * u64::from(row_at(rows, entry));
    push_train(text, kinds, from, y, arrives, train)
}

// Trains one after the other in their rows.
pub(crate) fn push_trains(
    text: &mut Text,
    kinds: &[LegendType],
    from: u16,
    top: u32,
    arrives: bool,
    rows: &[u16],
    trains: &[TrainMark],
) -> Result<(), AllocError>
    ensures { OnOk result
        (text.new ≡ text.old ++ trains_text kinds.now from top arrives rows.now trains.now) }
{
    for i in 0..trains.len() {
        push_in_row(text, kinds, from, top, arrives, rows, i, &trains[i])?;
    }
    Ok(())
}
