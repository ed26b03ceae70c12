// How bars are drawn.
ghost use Rattle.std.specs.Prelude.{◌≡◌, ◌<◌, ◌++◌, OnOk};
ghost use Rattle.shunt_picture.specs.defs.BarTexts.{area_of, bar_class, corner_in, corner_out};
ghost use Rattle.shunt_picture.specs.defs.BarTexts.{room_of, words_in, bar_words, stay_words};
ghost use Rattle.shunt_picture.specs.defs.BarTexts.{title_of, shape_of, bar_in, bar_text};

use crate::records::{Bar, Lane, LegendType, Told};
use crate::svg::{Area, push_corner, push_rectangle, push_words, wide};
use crate::words::{
    colour, faults_words, fitting, id_of, label_of, push_group, push_time, push_told, side_word,
    x_of,
};
use shunt_base::{Name, Side, Stay};
use shunt_text::Text;
use std::alloc::{AllocError, Global};

// Where a bar is drawn: from its entry, or where the hours begin, to its leave, 14 pixels high, in rows of 16.
fn area_of(from: u16, lane: &Lane, bar: &Bar) -> Area
    ensures exact { result ≡ area_of from lane.now bar.now }
    ensures x { result.x < 1000000 }
    ensures y { result.y < 8000000000 }
    ensures width { result.width < 1000000 }
{
    let x = x_of(from, bar.stay.enter.minute);
    Area {
        x,
        y: u64::from(lane.top) + 16 * u64::from(bar.row.saturating_sub(lane.first)),
        width: x_of(from, bar.stay.leave.minute).saturating_sub(x),
        height: 14,
    }
}

fn bar_class(faults: &[u8]) -> &'static [u8]
    ensures { result.now ≡ bar_class faults.now }
{
    if faults.is_empty() {
        b"bar k"
    } else {
        b"bad k"
    }
}

// The mark at the corner by which a block comes: up for the A end, down for the B end.
#[tactic(auto, unfolding(crate::specs::defs::BarTexts::corner_in))]
fn push_corner_in(text: &mut Text, area: Area, side: Side) -> Result<(), AllocError>
    requires { area.y < 8000000000 }
    ensures { OnOk result (text.new ≡ text.old ++ corner_in area side) }
{
    match side {
        Side::A => push_corner(text, area.x, area.y, b"h7l-7 7z"),
        Side::B => push_corner(text, area.x, area.y + 14, b"h7l-7 -7z"),
    }
}

// The same where it goes.
#[tactic(auto, unfolding(crate::specs::defs::BarTexts::corner_out))]
fn push_corner_out(text: &mut Text, area: Area, side: Side) -> Result<(), AllocError>
    requires x { area.x < 1000000 }
    requires y { area.y < 8000000000 }
    requires width { area.width < 1000000 }
    ensures { OnOk result (text.new ≡ text.old ++ corner_out area side) }
{
    match side {
        Side::A => push_corner(text, area.x + area.width, area.y, b"h-7l7 7z"),
        Side::B => push_corner(text, area.x + area.width, area.y + 14, b"h-7l7 -7z"),
    }
}

// For how many bytes there is room in a bar, beside its marks.
fn room_of(width: u64, marks: &[u8]) -> u64
    ensures { result ≡ room_of width marks.now }
{
    width.saturating_sub(16 + wide(7, marks)) / 7
}

// Its marks, and its label or its id where there is room.
#[tactic(auto, unfolding(crate::specs::defs::BarTexts::words_in))]
fn push_words_in(
    text: &mut Text,
    alloc: Global,
    area: Area,
    told: &Told,
    marks: &[u8],
) -> Result<(), AllocError>
    requires x { area.x < 1000000 }
    requires y { area.y < 8000000000 }
    ensures { OnOk result (text.new ≡ text.old ++ words_in area told.now marks.now) }
{
    let long = label_of(alloc, told)?;
    let short = id_of(alloc, told)?;
    let label = fitting(&long, &short, room_of(area.width, marks));
    push_words(text, b"on mark", 7, area.x + 9, area.y + 11, marks)?;
    push_words(
        text,
        b"on",
        7,
        area.x + 9 + wide(7, marks),
        area.y + 11,
        label,
    )
}

// The numbers of its findings are its marks.
#[tactic(auto, unfolding(crate::specs::defs::BarTexts::bar_words))]
fn push_bar_words(text: &mut Text, alloc: Global, area: Area, told: &Told) -> Result<(), AllocError>
    requires x { area.x < 1000000 }
    requires y { area.y < 8000000000 }
    ensures { OnOk result (text.new ≡ text.old ++ bar_words area told.now) }
{
    let marks = faults_words(alloc, told.faults.as_slice())?;
    push_words_in(text, alloc, area, told, &marks)
}

// When a block stands on a track, and by which sides it comes and goes.
#[tactic(auto, unfolding(crate::specs::defs::BarTexts::stay_words))]
fn push_stay(text: &mut Text, track: &Name, stay: &Stay) -> Result<(), AllocError>
    ensures { OnOk result (text.new ≡ text.old ++ stay_words track.now stay.now) }
{
    text.push(b"\n")?;
    text.push(track.bytes())?;
    text.push(b" by ")?;
    text.push(side_word(stay.side_in))?;
    text.push(b" from ")?;
    push_time(text, stay.enter.minute)?;
    text.push(b" to ")?;
    push_time(text, stay.leave.minute)?;
    text.push(b" by ")?;
    text.push(side_word(stay.side_out))?;
    text.push(b"</title>\n")
}

// What is shown while one points at a bar.
#[tactic(auto, unfolding(crate::specs::defs::BarTexts::title_of))]
fn push_title(
    text: &mut Text,
    kinds: &[LegendType],
    track: &Name,
    told: &Told,
    stay: &Stay,
) -> Result<(), AllocError>
    ensures { OnOk result (text.new ≡ text.old ++ title_of kinds.now track.now told.now stay.now) }
{
    push_group(text, told)?;
    push_told(text, kinds, told)?;
    push_stay(text, track, stay)
}

// Its rectangle.
#[tactic(auto, unfolding(crate::specs::defs::BarTexts::shape_of))]
fn push_shape(text: &mut Text, area: Area, told: &Told) -> Result<(), AllocError>
    ensures { OnOk result (text.new ≡ text.old ++ shape_of area told.now) }
{
    let class = bar_class(told.faults.as_slice());
    push_rectangle(text, class, colour(told.kinds.as_slice()), area)
}

// A bar at a place.
#[tactic(auto, unfolding(crate::specs::defs::BarTexts::bar_in))]
fn push_bar_in(
    text: &mut Text,
    alloc: Global,
    kinds: &[LegendType],
    track: &Name,
    area: Area,
    bar: &Bar,
) -> Result<(), AllocError>
    requires x { area.x < 1000000 }
    requires y { area.y < 8000000000 }
    requires width { area.width < 1000000 }
    ensures { OnOk result (text.new ≡ text.old ++ bar_in kinds.now track.now area bar.now) }
{
    push_title(text, kinds, track, &bar.told, &bar.stay)?;
    push_shape(text, area, &bar.told)?;
    push_corner_in(text, area, bar.stay.side_in)?;
    push_corner_out(text, area, bar.stay.side_out)?;
    push_bar_words(text, alloc, area, &bar.told)?;
    text.push(b"</g>\n")
}

#[tactic(auto, unfolding(crate::specs::defs::BarTexts::bar_text))]
pub(crate) fn push_bar(
    text: &mut Text,
    alloc: Global,
    from: u16,
    kinds: &[LegendType],
    lane: &Lane,
    bar: &Bar,
) -> Result<(), AllocError>
    ensures { OnOk result (text.new ≡ text.old ++ bar_text from kinds.now lane.now bar.now) }
{
    let area = area_of(from, lane, bar);
    push_bar_in(text, alloc, kinds, &lane.head.name, area, bar)
}
