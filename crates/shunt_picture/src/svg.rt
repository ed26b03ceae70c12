// Pieces of SVG.
ghost use Rattle.std.specs.Prelude.{◌≡◌, ◌≤◌, ◌++◌, OnOk};
ghost use Rattle.shunt_picture.specs.defs.Svg.{attribute, rectangle, stroke, wide, opened, element};
ghost use Rattle.shunt_picture.specs.defs.Svg.{words_at, corner};

use shunt_text::Text;
use std::alloc::AllocError;

// A place with its size, in pixels from the upper left corner.
#[derive(Clone, Copy, Drop)]
pub(crate) struct Area {
    pub(crate) x: u64,
    pub(crate) y: u64,
    pub(crate) width: u64,
    pub(crate) height: u64,
}

#[tactic(auto, unfolding(crate::specs::defs::Svg::attribute))]
pub(crate) fn push_attribute(text: &mut Text, name: &[u8], value: u64) -> Result<(), AllocError>
    ensures { OnOk result (text.new ≡ text.old ++ attribute name.now value) }
{
    text.push(b" ")?;
    text.push(name)?;
    text.push(b"='")?;
    text.push_number(value)?;
    text.push(b"'")
}

// A rectangle of a class with a number.
#[tactic(auto, unfolding(crate::specs::defs::Svg::rectangle))]
pub(crate) fn push_rectangle(
    text: &mut Text,
    class: &[u8],
    number: u64,
    area: Area,
) -> Result<(), AllocError>
    ensures { OnOk result (text.new ≡ text.old ++ rectangle class.now number area) }
{
    text.push(b"<rect class='")?;
    text.push(class)?;
    text.push_number(number)?;
    text.push(b"'")?;
    push_attribute(text, b"x", area.x)?;
    push_attribute(text, b"y", area.y)?;
    push_attribute(text, b"width", area.width)?;
    push_attribute(text, b"height", area.height)?;
    text.push(b"/>\n")
}

// A line to the right and then down.
#[tactic(auto, unfolding(crate::specs::defs::Svg::stroke))]
pub(crate) fn push_stroke(text: &mut Text, class: &[u8], area: Area) -> Result<(), AllocError>
    ensures { OnOk result (text.new ≡ text.old ++ stroke class.now area) }
{
    text.push(b"<path class='")?;
    text.push(class)?;
    text.push(b"' d='M")?;
    text.push_number(area.x)?;
    text.push(b" ")?;
    text.push_number(area.y)?;
    text.push(b"h")?;
    text.push_number(area.width)?;
    text.push(b"v")?;
    text.push_number(area.height)?;
    text.push(b"'/>\n")
}

// How wide words are drawn, with that many pixels for a byte.
pub(crate) fn wide(unit: u64, words: &[u8]) -> u64
    requires { unit ≤ 9 }
    ensures exact { result ≡ wide unit words.now }
    ensures small { result ≤ 1800 }
{
    unit * words.len().min(200) as u64
}

// The beginning of words of a class at a place, that are so wide.
#[tactic(auto, unfolding(crate::specs::defs::Svg::opened))]
fn open_words(text: &mut Text, class: &[u8], x: u64, y: u64, width: u64) -> Result<(), AllocError>
    ensures { OnOk result (text.new ≡ text.old ++ opened class.now x y width) }
{
    text.push(b"<text class='")?;
    text.push(class)?;
    text.push(b"'")?;
    push_attribute(text, b"x", x)?;
    push_attribute(text, b"y", y)?;
    push_attribute(text, b"textLength", width)?;
    text.push(b">")
}

#[tactic(auto, unfolding(crate::specs::defs::Svg::element))]
fn push_element(
    text: &mut Text,
    class: &[u8],
    unit: u64,
    x: u64,
    y: u64,
    words: &[u8],
) -> Result<(), AllocError>
    requires { unit ≤ 9 }
    ensures { OnOk result (text.new ≡ text.old ++ element class.now unit x y words.now) }
{
    open_words(text, class, x, y, wide(unit, words))?;
    text.push(words)?;
    text.push(b"</text>\n")
}

// Words of a class at a place, so wide; nothing where there are none.
#[tactic(auto, unfolding(crate::specs::defs::Svg::words_at))]
pub(crate) fn push_words(
    text: &mut Text,
    class: &[u8],
    unit: u64,
    x: u64,
    y: u64,
    words: &[u8],
) -> Result<(), AllocError>
    requires { unit ≤ 9 }
    ensures { OnOk result (text.new ≡ text.old ++ words_at class.now unit x y words.now) }
{
    if words.is_empty() {
        return Ok(());
    }
    push_element(text, class, unit, x, y, words)
}

// A small triangle at the corner of a bar; `turn` is the way from there and back.
#[tactic(auto, unfolding(crate::specs::defs::Svg::corner))]
pub(crate) fn push_corner(text: &mut Text, x: u64, y: u64, turn: &[u8]) -> Result<(), AllocError>
    ensures { OnOk result (text.new ≡ text.old ++ corner x y turn.now) }
{
    text.push(b"<path class='side' d='M")?;
    text.push_number(x)?;
    text.push(b" ")?;
    text.push_number(y)?;
    text.push(turn)?;
    text.push(b"'/>\n")
}
