// How lanes are drawn.
ghost use Rattle.std.specs.Prelude.{◌≡◌, ◌++◌, OnOk, IfOk};
ghost use Rattle.std.specs.List.{flat_map};
ghost use Rattle.shunt_picture.specs.defs.BarTexts.{bar_text};
ghost use Rattle.shunt_picture.specs.defs.LaneTexts.{rows_high, level_height, level_text, base_of};
ghost use Rattle.shunt_picture.specs.defs.LaneTexts.{length_words, head_text, end_text, ends_text};
ghost use Rattle.shunt_picture.specs.defs.LaneTexts.{full_text, levels_text, load_end, load_over};
ghost use Rattle.shunt_picture.specs.defs.LaneTexts.{load_text, ground_text, lane_text};

use crate::bars::push_bar;
use crate::records::{Bar, Lane, LegendType, LoadLevel};
use crate::svg::{Area, push_rectangle, push_stroke, push_words};
use crate::words::x_of;
use shunt_text::Text;
use std::alloc::{AllocError, Global};

// How high the rows of a lane are together, in pixels.
fn rows_high(lane: &Lane) -> u64
    ensures { result ≡ rows_high lane.now }
{
    16 * (u64::from(lane.last.saturating_sub(lane.first)) + 1)
}

// Where the line of a lane's load is at 0.
fn base_of(lane: &Lane) -> u64
    ensures { result ≡ base_of lane.now }
{
    u64::from(lane.top) + rows_high(lane) + 30
}

// How high a load is drawn: 14 pixels for the track's length, twice as much at most.
fn level_height(length: u32, load: u64) -> u64
    ensures { result ≡ level_height length load }
{
    let length = u64::from(length);
    load.min(2 * length) * 14 / length.max(1)
}

fn push_level(text: &mut Text, from: u16, lane: &Lane, level: LoadLevel) -> Result<(), AllocError>
    ensures { OnOk result (text.new ≡ text.old ++ level_text from lane.now level) }
{
    let height = level_height(lane.head.length, level.load);
    text.push(b"H")?;
    text.push_number(x_of(from, level.minute))?;
    text.push(b"V")?;
    text.push_number(base_of(lane).saturating_sub(height))
}

fn push_levels(
    text: &mut Text,
    from: u16,
    lane: &Lane,
    levels: &[LoadLevel],
) -> Result<(), AllocError>
    ensures { OnOk result (text.new ≡ text.old ++ flat_map (level_text from lane.now) levels.now) }
{
    for level in levels {
        push_level(text, from, lane, *level)?;
    }
    Ok(())
}

// The track's length as a line, over the line where its load is 0.
#[tactic(auto, unfolding(crate::specs::defs::LaneTexts::full_text))]
fn push_full(text: &mut Text, right: u64, base: u64) -> Result<(), AllocError>
    ensures { OnOk result (text.new ≡ text.old ++ full_text right base) }
{
    let area = Area {
        x: 150,
        y: base.saturating_sub(14),
        width: right.saturating_sub(150),
        height: 0,
    };
    push_stroke(text, b"full", area)
}

// The load at each minute at which it changes.
#[tactic(auto, unfolding(crate::specs::defs::LaneTexts::levels_text))]
fn push_steps(text: &mut Text, from: u16, lane: &Lane) -> Result<(), AllocError>
    ensures { OnOk result (text.new ≡ text.old ++ levels_text from lane.now) }
{
    push_levels(text, from, lane, lane.levels.as_slice())
}

// Back to that line where the hours end.
#[tactic(auto, unfolding(crate::specs::defs::LaneTexts::load_end))]
fn push_load_end(text: &mut Text, right: u64, base: u64) -> Result<(), AllocError>
    ensures { OnOk result (text.new ≡ text.old ++ load_end right base) }
{
    text.push(b"H")?;
    text.push_number(right)?;
    text.push(b"V")?;
    text.push_number(base)?;
    text.push(b"z'/>\n")
}

// The load over that line.
#[tactic(auto, unfolding(crate::specs::defs::LaneTexts::load_over))]
fn push_over(
    text: &mut Text,
    from: u16,
    right: u64,
    base: u64,
    lane: &Lane,
) -> Result<(), AllocError>
    ensures { OnOk result (text.new ≡ text.old ++ load_over from right base lane.now) }
{
    text.push(b"<path class='load' d='M150 ")?;
    text.push_number(base)?;
    push_steps(text, from, lane)?;
    push_load_end(text, right, base)
}

#[tactic(auto, unfolding(crate::specs::defs::LaneTexts::load_text))]
fn push_load(text: &mut Text, from: u16, right: u64, lane: &Lane) -> Result<(), AllocError>
    ensures { OnOk result (text.new ≡ text.old ++ load_text from right lane.now) }
{
    let base = base_of(lane);
    push_over(text, from, right, base, lane)?;
    push_full(text, right, base)
}

// The letter of an end at which the track is open.
#[tactic(auto, unfolding(crate::specs::defs::LaneTexts::end_text))]
fn push_end(text: &mut Text, is_open: bool, y: u64, word: &[u8]) -> Result<(), AllocError>
    ensures { OnOk result (text.new ≡ text.old ++ end_text is_open y word.now) }
{
    if is_open {
        push_words(text, b"end", 7, 138, y, word)?;
    }
    Ok(())
}

// Its open ends.
#[tactic(auto, unfolding(crate::specs::defs::LaneTexts::ends_text))]
fn push_ends(text: &mut Text, lane: &Lane) -> Result<(), AllocError>
    ensures { OnOk result (text.new ≡ text.old ++ ends_text lane.now) }
{
    let top = u64::from(lane.top);
    push_end(text, lane.head.side_a, top + 9, b"A")?;
    push_end(text, lane.head.side_b, top + rows_high(lane) + 3, b"B")
}

#[tactic(auto, unfolding(crate::specs::defs::LaneTexts::length_words))]
fn length_words(alloc: Global, length: u32) -> Result<Vec<u8>, AllocError>
    ensures { IfOk result (λ v. v.items ≡ length_words length) }
{
    let mut text = Text::new(alloc);
    text.push_number(u64::from(length))?;
    text.push(b" dm")?;
    Ok(text.into_bytes())
}

// Its name, its length, and its open ends.
#[tactic(auto, unfolding(crate::specs::defs::LaneTexts::head_text))]
fn push_head(text: &mut Text, alloc: Global, lane: &Lane) -> Result<(), AllocError>
    ensures { OnOk result (text.new ≡ text.old ++ head_text lane.now) }
{
    let top = u64::from(lane.top);
    let length = length_words(alloc, lane.head.length)?;
    push_words(text, b"name", 7, 6, top + 12, lane.head.name.bytes())?;
    push_words(text, b"small", 6, 6, top + 26, &length)?;
    push_ends(text, lane)
}

fn push_bars(
    text: &mut Text,
    alloc: Global,
    from: u16,
    kinds: &[LegendType],
    lane: &Lane,
    bars: &[Bar],
) -> Result<(), AllocError>
    ensures { OnOk result
        (text.new ≡ text.old ++ flat_map (bar_text from kinds.now lane.now) bars.now) }
{
    for bar in bars {
        push_bar(text, alloc, from, kinds, lane, bar)?;
    }
    Ok(())
}

#[tactic(auto, unfolding(crate::specs::defs::LaneTexts::ground_text))]
fn push_ground(text: &mut Text, right: u64, lane: &Lane) -> Result<(), AllocError>
    ensures { OnOk result (text.new ≡ text.old ++ ground_text right lane.now) }
{
    push_rectangle(
        text,
        b"lane",
        u64::from(lane.track.0) % 2,
        Area {
            x: 0,
            y: u64::from(lane.top),
            width: right,
            height: rows_high(lane) + 32,
        },
    )
}

#[tactic(auto, unfolding(crate::specs::defs::LaneTexts::lane_text))]
pub(crate) fn push_lane(
    text: &mut Text,
    alloc: Global,
    from: u16,
    right: u64,
    kinds: &[LegendType],
    lane: &Lane,
) -> Result<(), AllocError>
    ensures { OnOk result (text.new ≡ text.old ++ lane_text from right kinds.now lane.now) }
{
    push_ground(text, right, lane)?;
    push_load(text, from, right, lane)?;
    push_head(text, alloc, lane)?;
    push_bars(text, alloc, from, kinds, lane, lane.bars.as_slice())
}
