// How a picture is drawn.
ghost use Rattle.std.specs.Prelude.{◌≡◌, ◌<◌, ◌≤◌, ◌+◌, ◌*◌, ◌++◌, slice_index_or, OnOk, IfOk};
ghost use Rattle.std.specs.List.{flat_map};
ghost use Rattle.shunt_picture.specs.defs.LaneTexts.{lane_text};
ghost use Rattle.shunt_picture.specs.defs.PictureTexts.{right_of, words_style, bars_style};
ghost use Rattle.shunt_picture.specs.defs.PictureTexts.{dark_style, style, svg_name, seen_text};
ghost use Rattle.shunt_picture.specs.defs.PictureTexts.{size_text, view_text, svg_opened};
ghost use Rattle.shunt_picture.specs.defs.PictureTexts.{paper_text, page_text, start_of};
ghost use Rattle.shunt_picture.specs.defs.PictureTexts.{title_words, bars_note, marks_note};
ghost use Rattle.shunt_picture.specs.defs.PictureTexts.{title_text, top_part, start_text, entry_x};
ghost use Rattle.shunt_picture.specs.defs.PictureTexts.{entry_y, swatch_text, kind_in, kind_text};
ghost use Rattle.shunt_picture.specs.defs.PictureTexts.{kinds_text, rule_text, hour_words, hour_in};
ghost use Rattle.shunt_picture.specs.defs.PictureTexts.{hour_text, hours_text, loose_times};
ghost use Rattle.shunt_picture.specs.defs.PictureTexts.{loose_where, loose_title, loose_mark};
ghost use Rattle.shunt_picture.specs.defs.PictureTexts.{loose_in, loose_text, looses_text};
ghost use Rattle.shunt_picture.specs.defs.PictureTexts.{arrive_name, depart_name, loose_name};
ghost use Rattle.shunt_picture.specs.defs.PictureTexts.{names_text, trains_part, head_part};
ghost use Rattle.shunt_picture.specs.defs.PictureTexts.{body_part, svg_of};

use crate::records::{Lane, LegendType, Loose, Picture};
use crate::strips::push_lane;
use crate::svg::{Area, push_attribute, push_rectangle, push_stroke, push_words, wide};
use crate::told::push_track;
use crate::train_texts::push_trains;
use crate::words::{colour, letter, push_group, push_time, push_told};
use shunt_base::{Name, TypeId};
use shunt_text::Text;
use std::alloc::{AllocError, Global};

// Where the hours end, in pixels.
pub(crate) fn right_of(from: u16, to: u16) -> u64
    ensures exact { result ≡ right_of from to }
    ensures small { result < 10000000 }
{
    150 + 120 * u64::from(to.saturating_sub(from))
}

// How words and lines look.
#[tactic(auto, unfolding(crate::specs::defs::PictureTexts::words_style))]
fn push_words_style(text: &mut Text) -> Result<(), AllocError>
    ensures { OnOk result (text.new ≡ text.old ++ words_style) }
{
    text.push(
        b"<style>.night{max-width:100%;height:auto;background:#fff}.night text{font:11px monospace;fill:#222;white-space:pre}.night .title{font-size:14px;font-weight:bold}.night .name{font-weight:bold}.night .small,.night .hour{font-size:10px;fill:#555}\n",
    )?;
    text.push(
        b".night .end{font-weight:bold;fill:#06c}.night .mark{font-weight:bold;fill:#c00}.night path{fill:none}.night .tick{stroke:#888}.night .rule{stroke:#ddd}.night .full{stroke:#06c;stroke-dasharray:4 3}.night .load{fill:#bcd;stroke:#678}.night .side{fill:#06c}\n",
    )
}

// How bars look.
#[tactic(auto, unfolding(crate::specs::defs::PictureTexts::bars_style))]
fn push_bars_style(text: &mut Text) -> Result<(), AllocError>
    ensures { OnOk result (text.new ≡ text.old ++ bars_style) }
{
    text.push(
        b".night .page0{fill:#fff}.night .lane0{fill-opacity:.04}.night .lane1{fill-opacity:0}.night .bar{stroke:#555}.night .bad{stroke:#c00;stroke-width:2.5}.night .on.mark{stroke:#fff;stroke-width:3;paint-order:stroke}\n",
    )?;
    text.push(
        b".night .k0{fill:#a6cee3}.night .k1{fill:#b2df8a}.night .k2{fill:#fdbf6f}.night .k3{fill:#cab2d6}.night .k4{fill:#ffff99}.night .k5{fill:#8dd3c7}.night .k6{fill:#d9d9d9}.night .k7{fill:#fccde5}.night .k8{fill:#e5c494}.night .k9{fill:#ccebc5}.night .k10{fill:#b3cde3}.night .k11{fill:#ffed6f}\n",
    )
}

// How it looks on dark screens, and on paper.
#[tactic(auto, unfolding(crate::specs::defs::PictureTexts::dark_style))]
fn push_dark_style(text: &mut Text) -> Result<(), AllocError>
    ensures { OnOk result (text.new ≡ text.old ++ dark_style) }
{
    text.push(
        b"@media screen and (prefers-color-scheme:dark){.night,.night .page0{background:#15181c;fill:#15181c}.night text{fill:#ddd}.night .small,.night .hour{fill:#aaa}.night text.on{fill:#222}.night .end{fill:#7ab8ff}.night .mark{fill:#ff8a80}.night .on.mark{fill:#c00}.night .rule{stroke:#3a3f45}.night .lane0{fill:#fff;fill-opacity:.06}.night .load{fill:#3b4a5a;stroke:#8fa3b8}.night .full{stroke:#7ab8ff}}\n",
    )?;
    text.push(b"@page{margin:10mm}@media print{.night{max-height:100vh}}</style>\n")
}

#[tactic(auto, unfolding(crate::specs::defs::PictureTexts::style))]
fn push_style(text: &mut Text) -> Result<(), AllocError>
    ensures { OnOk result (text.new ≡ text.old ++ style) }
{
    push_words_style(text)?;
    push_bars_style(text)?;
    push_dark_style(text)
}

// What each text begins with.
#[tactic(auto, unfolding(crate::specs::defs::PictureTexts::svg_name))]
fn push_svg_name(text: &mut Text) -> Result<(), AllocError>
    ensures { OnOk result (text.new ≡ text.old ++ svg_name) }
{
    text.push(
        b"<svg xmlns='http://www.w3.org/2000/svg' xml:space='preserve' class='night' role='img'",
    )
}

#[tactic(auto, unfolding(crate::specs::defs::PictureTexts::seen_text))]
fn push_seen(text: &mut Text, width: u64, height: u64) -> Result<(), AllocError>
    ensures { OnOk result (text.new ≡ text.old ++ seen_text width height) }
{
    text.push(b" viewBox='0 0 ")?;
    text.push_number(width)?;
    text.push(b" ")?;
    text.push_number(height)?;
    text.push(b"'")
}

#[tactic(auto, unfolding(crate::specs::defs::PictureTexts::size_text))]
fn push_size(text: &mut Text, width: u64, height: u64) -> Result<(), AllocError>
    ensures { OnOk result (text.new ≡ text.old ++ size_text width height) }
{
    push_attribute(text, b"width", width)?;
    push_attribute(text, b"height", height)
}

// How much of it is seen, and how large.
#[tactic(auto, unfolding(crate::specs::defs::PictureTexts::view_text))]
fn push_view(text: &mut Text, width: u64, height: u64) -> Result<(), AllocError>
    ensures { OnOk result (text.new ≡ text.old ++ view_text width height) }
{
    push_seen(text, width, height)?;
    push_size(text, width, height)
}

// The beginning of a text that is so wide and so high, and is told in these words.
#[tactic(auto, unfolding(crate::specs::defs::PictureTexts::svg_opened))]
fn open_svg(text: &mut Text, width: u64, height: u64, words: &[u8]) -> Result<(), AllocError>
    ensures { OnOk result (text.new ≡ text.old ++ svg_opened width height words.now) }
{
    push_svg_name(text)?;
    push_view(text, width, height)?;
    text.push(b" aria-label='")?;
    text.push(words)?;
    text.push(b"'>\n")
}

// How the paper lies.
#[tactic(auto, unfolding(crate::specs::defs::PictureTexts::paper_text))]
fn push_paper(text: &mut Text, width: u64, height: u64) -> Result<(), AllocError>
    ensures { OnOk result (text.new ≡ text.old ++ paper_text width height) }
{
    if height <= width {
        text.push(b"<style>@page{size:landscape}</style>\n")
    } else {
        text.push(b"<style>@page{size:portrait}</style>\n")
    }
}

// Its ground.
#[tactic(auto, unfolding(crate::specs::defs::PictureTexts::page_text))]
fn push_page(text: &mut Text, width: u64, height: u64) -> Result<(), AllocError>
    ensures { OnOk result (text.new ≡ text.old ++ page_text width height) }
{
    push_rectangle(
        text,
        b"page",
        0,
        Area {
            x: 0,
            y: 0,
            width,
            height,
        },
    )
}

#[tactic(auto, unfolding(crate::specs::defs::PictureTexts::start_of))]
fn push_start_of(text: &mut Text, width: u64, height: u64, words: &[u8]) -> Result<(), AllocError>
    ensures { OnOk result (text.new ≡ text.old ++ start_of width height words.now) }
{
    open_svg(text, width, height, words)?;
    push_style(text)?;
    push_paper(text, width, height)?;
    push_page(text, width, height)
}

// What is told of the plan as a whole.
#[tactic(auto, unfolding(crate::specs::defs::PictureTexts::title_words))]
pub(crate) fn title_words(
    alloc: Global,
    station: &Name,
    findings: u64,
    cost: u64,
    stated: u64,
) -> Result<Vec<u8>, AllocError>
    ensures { IfOk result (λ v. v.items ≡ title_words station.now findings cost stated) }
{
    let mut text = Text::new(alloc);
    text.push(station.bytes())?;
    text.push(b" findings ")?;
    text.push_number(findings)?;
    text.push(b" cost ")?;
    text.push_number(cost)?;
    text.push(b" stated ")?;
    text.push_number(stated)?;
    Ok(text.into_bytes())
}

// How bars are to be read.
#[tactic(auto, unfolding(crate::specs::defs::PictureTexts::bars_note))]
pub(crate) fn bars_note() -> &'static [u8]
    ensures { result.now ≡ bars_note }
{
    b"bar: a block on its track; blue corners: the end by which it comes and goes, A up and B down"
}

// How marks are to be read.
#[tactic(auto, unfolding(crate::specs::defs::PictureTexts::marks_note))]
pub(crate) fn marks_note() -> &'static [u8]
    ensures { result.now ≡ marks_note }
{
    b"below the bars: the load of the track, and dashed its length; red: numbers of findings"
}

// The title, and the notes below it.
#[tactic(auto, unfolding(crate::specs::defs::PictureTexts::title_text))]
fn push_title(text: &mut Text, words: &[u8]) -> Result<(), AllocError>
    ensures { OnOk result (text.new ≡ text.old ++ title_text words.now) }
{
    push_words(text, b"title", 9, 6, 18, words)?;
    push_words(text, b"small", 6, 6, 34, bars_note())?;
    push_words(text, b"small", 6, 6, 46, marks_note())
}

// What stands at the top.
#[tactic(auto, unfolding(crate::specs::defs::PictureTexts::top_part))]
fn push_top(text: &mut Text, width: u64, height: u64, words: &[u8]) -> Result<(), AllocError>
    ensures { OnOk result (text.new ≡ text.old ++ top_part width height words.now) }
{
    push_start_of(text, width, height, words)?;
    push_title(text, words)
}

#[tactic(auto, unfolding(crate::specs::defs::PictureTexts::start_text))]
fn push_start(text: &mut Text, alloc: Global, picture: &Picture) -> Result<(), AllocError>
    ensures { OnOk result (text.new ≡ text.old ++ start_text picture.now) }
{
    let words = title_words(
        alloc,
        &picture.station,
        picture.findings,
        picture.cost,
        picture.stated,
    )?;
    push_top(text, picture.width, u64::from(picture.height), &words)
}

// Where an entry of a list stands, by its number from 0.
fn entry_x(room: u32, columns: u32, entry: u64) -> u64
    ensures exact { result ≡ entry_x room columns entry }
    ensures small { result < 18446744073709000000 }
{
    6 + u64::from(room) * (entry % u64::from(columns).max(1))
}

fn entry_y(columns: u32, top: u64, entry: u64) -> u64
    requires { top < 4294967320 }
    ensures exact { result ≡ entry_y columns top entry }
    ensures low { 12 ≤ result }
    ensures small { result < 4300000000 }
{
    top + 16 * (entry.min(4096) / u64::from(columns).max(1)) + 12
}

// The colour of a type with its letter.
#[tactic(auto, unfolding(crate::specs::defs::PictureTexts::swatch_text))]
fn push_swatch(text: &mut Text, x: u64, y: u64, number: TypeId) -> Result<(), AllocError>
    requires x { x < 18446744073709000000 }
    requires y { 12 ≤ y }
    ensures { OnOk result (text.new ≡ text.old ++ swatch_text x y number) }
{
    push_rectangle(
        text,
        b"bar k",
        colour(&[number]),
        Area {
            x,
            y: y - 11,
            width: 18,
            height: 13,
        },
    )?;
    push_words(text, b"on", 7, x + 5, y, &[letter(number)])
}

// A type at a place: its colour with its letter, its name and its length.
#[tactic(auto, unfolding(crate::specs::defs::PictureTexts::kind_in))]
fn push_kind_in(
    text: &mut Text,
    x: u64,
    y: u64,
    number: TypeId,
    kind: &LegendType,
) -> Result<(), AllocError>
    requires x { x < 18446744073709000000 }
    requires y { 12 ≤ y }
    ensures { OnOk result (text.new ≡ text.old ++ kind_in x y number kind.now) }
{
    push_swatch(text, x, y, number)?;
    push_words(text, b"label", 7, x + 24, y, kind.words.as_slice())
}

#[tactic(auto, unfolding(crate::specs::defs::PictureTexts::kind_text))]
fn push_kind(
    text: &mut Text,
    room: u32,
    columns: u32,
    entry: u64,
    kind: &LegendType,
) -> Result<(), AllocError>
    ensures { OnOk result (text.new ≡ text.old ++ kind_text room columns entry kind.now) }
{
    let x = entry_x(room, columns, entry);
    let y = entry_y(columns, 52, entry);
    push_kind_in(text, x, y, TypeId((entry % 256) as u8), kind)
}

fn push_kinds(
    text: &mut Text,
    room: u32,
    columns: u32,
    kinds: &[LegendType],
) -> Result<(), AllocError>
    ensures { OnOk result (text.new ≡ text.old ++ kinds_text room columns kinds.now) }
{
    for i in 0..kinds.len() {
        push_kind(text, room, columns, i as u64, &kinds[i])?;
    }
    Ok(())
}

// A line through all lanes.
#[tactic(auto, unfolding(crate::specs::defs::PictureTexts::rule_text))]
fn push_rule(text: &mut Text, picture: &Picture, x: u64) -> Result<(), AllocError>
    ensures { OnOk result (text.new ≡ text.old ++ rule_text picture.now x) }
{
    push_stroke(
        text,
        b"rule",
        Area {
            x,
            y: u64::from(picture.lanes_top),
            width: 0,
            height: u64::from(picture.loose_top.saturating_sub(picture.lanes_top)),
        },
    )
}

#[tactic(auto, unfolding(crate::specs::defs::PictureTexts::hour_words))]
fn hour_words(alloc: Global, hour: u16) -> Result<Vec<u8>, AllocError>
    ensures { IfOk result (λ v. v.items ≡ hour_words hour) }
{
    let mut text = Text::new(alloc);
    text.push_number(u64::from(hour))?;
    text.push(b":00")?;
    Ok(text.into_bytes())
}

// An hour at its place: the line, and its number above the lanes.
#[tactic(auto, unfolding(crate::specs::defs::PictureTexts::hour_in))]
fn push_hour_in(
    text: &mut Text,
    alloc: Global,
    picture: &Picture,
    x: u64,
    hour: u16,
) -> Result<(), AllocError>
    ensures { OnOk result (text.new ≡ text.old ++ hour_in picture.now x hour) }
{
    let words = hour_words(alloc, hour)?;
    let y = u64::from(picture.lanes_top).saturating_sub(4);
    push_rule(text, picture, x)?;
    push_words(text, b"hour", 6, x, y, &words)
}

#[tactic(auto, unfolding(crate::specs::defs::PictureTexts::hour_text))]
fn push_hour(text: &mut Text, alloc: Global, picture: &Picture, hour: u16) -> Result<(), AllocError>
    ensures { OnOk result (text.new ≡ text.old ++ hour_text picture.now hour) }
{
    let x = 150 + 120 * u64::from(hour.saturating_sub(picture.from));
    push_hour_in(text, alloc, picture, x, hour)
}

fn push_hours(text: &mut Text, alloc: Global, picture: &Picture) -> Result<(), AllocError>
    ensures { OnOk result (text.new ≡ text.old ++ hours_text picture.now) }
{
    for hour in picture.from..picture.to {
        push_hour(text, alloc, picture, hour)?;
    }
    Ok(())
}

#[tactic(auto, unfolding(crate::specs::defs::PictureTexts::loose_times))]
fn push_loose_times(text: &mut Text, enter: u16, leave: u16) -> Result<(), AllocError>
    ensures { OnOk result (text.new ≡ text.old ++ loose_times enter leave) }
{
    text.push(b" ")?;
    push_time(text, enter)?;
    text.push(b" ")?;
    push_time(text, leave)?;
    text.push(b"</title>\n")
}

// Where a loose block is parked, and when its trains come and go.
#[tactic(auto, unfolding(crate::specs::defs::PictureTexts::loose_where))]
fn push_loose_where(
    text: &mut Text,
    track: &Option<Name>,
    enter: u16,
    leave: u16,
) -> Result<(), AllocError>
    ensures { OnOk result (text.new ≡ text.old ++ loose_where track.now enter leave) }
{
    text.push(b"\nnot on a track")?;
    push_track(text, track)?;
    push_loose_times(text, enter, leave)
}

// What is shown while one points at a loose block.
#[tactic(auto, unfolding(crate::specs::defs::PictureTexts::loose_title))]
fn push_loose_title(text: &mut Text, kinds: &[LegendType], loose: &Loose) -> Result<(), AllocError>
    ensures { OnOk result (text.new ≡ text.old ++ loose_title kinds.now loose.now) }
{
    push_group(text, &loose.told)?;
    push_told(text, kinds, &loose.told)?;
    let enter = loose.enter.number();
    push_loose_where(text, &loose.track, enter, loose.leave.number())
}

// Its colour.
#[tactic(auto, unfolding(crate::specs::defs::PictureTexts::loose_mark))]
fn push_loose_mark(text: &mut Text, x: u64, y: u64, kinds: &[TypeId]) -> Result<(), AllocError>
    requires { 12 ≤ y }
    ensures { OnOk result (text.new ≡ text.old ++ loose_mark x y kinds.now) }
{
    push_rectangle(
        text,
        b"bar k",
        colour(kinds),
        Area {
            x,
            y: y - 10,
            width: 10,
            height: 11,
        },
    )
}

// A loose block at a place.
#[tactic(auto, unfolding(crate::specs::defs::PictureTexts::loose_in))]
fn push_loose_in(
    text: &mut Text,
    kinds: &[LegendType],
    x: u64,
    y: u64,
    loose: &Loose,
) -> Result<(), AllocError>
    requires x { x < 18446744073709000000 }
    requires y { 12 ≤ y }
    ensures { OnOk result (text.new ≡ text.old ++ loose_in kinds.now x y loose.now) }
{
    let marks = loose.marks.as_slice();
    let words = loose.words.as_slice();
    push_loose_title(text, kinds, loose)?;
    push_loose_mark(text, x, y, loose.told.kinds.as_slice())?;
    push_words(text, b"mark", 7, x + 15, y, marks)?;
    push_words(text, b"label", 7, x + 15 + wide(7, marks), y, words)?;
    text.push(b"</g>\n")
}

#[tactic(auto, unfolding(crate::specs::defs::PictureTexts::loose_text))]
fn push_loose(
    text: &mut Text,
    kinds: &[LegendType],
    room: u32,
    columns: u32,
    top: u64,
    entry: u64,
    loose: &Loose,
) -> Result<(), AllocError>
    requires { top < 4294967320 }
    ensures { OnOk result
        (text.new ≡ text.old ++ loose_text kinds.now room columns top entry loose.now) }
{
    let x = entry_x(room, columns, entry);
    let y = entry_y(columns, top, entry);
    push_loose_in(text, kinds, x, y, loose)
}

fn push_looses(
    text: &mut Text,
    kinds: &[LegendType],
    room: u32,
    columns: u32,
    top: u64,
    looses: &[Loose],
) -> Result<(), AllocError>
    requires { top < 4294967320 }
    ensures { OnOk result
        (text.new ≡ text.old ++ looses_text kinds.now room columns top looses.now) }
{
    for i in 0..looses.len() {
        push_loose(text, kinds, room, columns, top, i as u64, &looses[i])?;
    }
    Ok(())
}

fn push_lanes(
    text: &mut Text,
    alloc: Global,
    from: u16,
    right: u64,
    kinds: &[LegendType],
    lanes: &[Lane],
) -> Result<(), AllocError>
    ensures { OnOk result
        (text.new ≡ text.old ++ flat_map (lane_text from right kinds.now) lanes.now) }
{
    for lane in lanes {
        push_lane(text, alloc, from, right, kinds, lane)?;
    }
    Ok(())
}

#[tactic(auto, unfolding(crate::specs::defs::PictureTexts::arrive_name))]
fn push_arrive_name(text: &mut Text, top: u32) -> Result<(), AllocError>
    ensures { OnOk result (text.new ≡ text.old ++ arrive_name top) }
{
    push_words(text, b"name", 7, 6, u64::from(top) + 11, b"arriving trains")
}

#[tactic(auto, unfolding(crate::specs::defs::PictureTexts::depart_name))]
fn push_depart_name(text: &mut Text, top: u32) -> Result<(), AllocError>
    ensures { OnOk result (text.new ≡ text.old ++ depart_name top) }
{
    push_words(
        text,
        b"name",
        7,
        6,
        u64::from(top) + 11,
        b"departing trains",
    )
}

#[tactic(auto, unfolding(crate::specs::defs::PictureTexts::loose_name))]
fn push_loose_name(text: &mut Text, top: u32) -> Result<(), AllocError>
    ensures { OnOk result (text.new ≡ text.old ++ loose_name top) }
{
    push_words(text, b"name", 7, 6, u64::from(top) + 18, b"unparked blocks")
}

// The names of the lines above the lanes and of the list below them.
#[tactic(auto, unfolding(crate::specs::defs::PictureTexts::names_text))]
fn push_names(text: &mut Text, picture: &Picture) -> Result<(), AllocError>
    ensures { OnOk result (text.new ≡ text.old ++ names_text picture.now) }
{
    push_arrive_name(text, picture.arrive_top)?;
    push_depart_name(text, picture.depart_top)?;
    push_loose_name(text, picture.loose_top)
}

#[tactic(auto, unfolding(crate::specs::defs::PictureTexts::head_part))]
fn push_head(text: &mut Text, alloc: Global, picture: &Picture) -> Result<(), AllocError>
    ensures { OnOk result (text.new ≡ text.old ++ head_part picture.now) }
{
    let kinds = picture.kinds.as_slice();
    push_start(text, alloc, picture)?;
    push_kinds(text, picture.kind_room, picture.kind_columns, kinds)?;
    push_names(text, picture)?;
    push_trains_part(text, picture)?;
    push_hours(text, alloc, picture)
}

// The lines of trains.
#[tactic(auto, unfolding(crate::specs::defs::PictureTexts::trains_part))]
fn push_trains_part(text: &mut Text, picture: &Picture) -> Result<(), AllocError>
    ensures { OnOk result (text.new ≡ text.old ++ trains_part picture.now) }
{
    let kinds = picture.kinds.as_slice();
    let from = picture.from;
    let rows = picture.arrive_rows.as_slice();
    let trains = picture.arrive.as_slice();
    push_trains(text, kinds, from, picture.arrive_top, true, rows, trains)?;
    let rows = picture.depart_rows.as_slice();
    let trains = picture.depart.as_slice();
    push_trains(text, kinds, from, picture.depart_top, false, rows, trains)
}

#[tactic(auto, unfolding(crate::specs::defs::PictureTexts::body_part))]
fn push_body(text: &mut Text, alloc: Global, picture: &Picture) -> Result<(), AllocError>
    ensures { OnOk result (text.new ≡ text.old ++ body_part picture.now) }
{
    let lanes = picture.lanes.as_slice();
    let kinds = picture.kinds.as_slice();
    let right = right_of(picture.from, picture.to);
    push_lanes(text, alloc, picture.from, right, kinds, lanes)?;
    let top = u64::from(picture.loose_top) + 24;
    let columns = picture.loose_columns;
    let loose = picture.loose.as_slice();
    push_looses(text, kinds, picture.loose_room, columns, top, loose)?;
    text.push(b"</svg>\n")
}

/// The picture as SVG.
///
/// Places are in pixels: two for each minute, 16 for each row of a lane, 7 for each byte of most words. The text is a function of the
/// picture alone. The error is want of memory.
#[tactic(auto, unfolding(crate::specs::defs::PictureTexts::svg_of))]
pub fn picture_text(alloc: Global, picture: &Picture) -> Result<Vec<u8>, AllocError>
    ensures { IfOk result (λ v. v.items ≡ svg_of picture.now) }
{
    let mut text = Text::new(alloc);
    push_head(&mut text, alloc, picture)?;
    push_body(&mut text, alloc, picture)?;
    Ok(text.into_bytes())
}
