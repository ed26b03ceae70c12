// The words at bars and trains, and where minutes stand.
ghost use Rattle.std.specs.Prelude.{◌≡◌, ◌<◌, ◌+◌, ◌++◌, [], ◌∷◌, decimal, OnOk, IfOk};
ghost use Rattle.std.specs.List.{flat_map};
ghost use Rattle.shunt_picture.specs.defs.Words.{x_of, colour, letter, time_text, kind_letters};
ghost use Rattle.shunt_picture.specs.defs.Words.{label_of, fault_text, faults_words, fault_word};
ghost use Rattle.shunt_picture.specs.defs.Words.{fault_line, fault_lines, side_word, kind_words};
ghost use Rattle.shunt_picture.specs.defs.Words.{kind_name, unit_line, unit_lines, each_from};
ghost use Rattle.shunt_picture.specs.defs.Words.{group_id, group_block, group_trains, group_text};
ghost use Rattle.shunt_picture.specs.defs.Words.{told_words, fitting};

use crate::records::{LegendType, Told};
use shunt_base::{Name, Side, TypeId};
use shunt_text::Text;
use std::alloc::{AllocError, Global};

// Where a minute stands in a picture that begins at an hour, in pixels: two for each minute.
pub(crate) fn x_of(from: u16, minute: u16) -> u64
    ensures exact { result ≡ x_of from minute }
    ensures small { result < 200000 }
{
    150 + 2 * u64::from(minute).saturating_sub(60 * u64::from(from))
}

// The number of the colour of the first of these types.
pub(crate) fn colour(kinds: &[TypeId]) -> u64
    ensures { result ≡ colour kinds.now }
{
    match kinds {
        [] => 0,
        [first, ..] => u64::from(first.0) % 12,
    }
}

// The letter of a type: C to Z, then c to z.
pub(crate) fn letter(kind: TypeId) -> u8
    ensures { result ≡ letter kind }
{
    if kind.0 < 24 {
        67 + kind.0
    } else {
        99 + kind.0 % 24
    }
}

pub(crate) fn push_letter(text: &mut Text, kind: TypeId) -> Result<(), AllocError>
    ensures { OnOk result (text.new ≡ text.old ++ letter kind ∷ []) }
{
    text.push(&[letter(kind)])
}

pub(crate) fn push_letters(text: &mut Text, kinds: &[TypeId]) -> Result<(), AllocError>
    ensures { OnOk result (text.new ≡ text.old ++ kind_letters kinds.now) }
{
    for kind in kinds {
        push_letter(text, *kind)?;
    }
    Ok(())
}

// A minute as hours, a colon and two digits.
#[tactic(auto, unfolding(crate::specs::defs::Words::time_text))]
pub(crate) fn push_time(text: &mut Text, minute: u16) -> Result<(), AllocError>
    ensures { OnOk result (text.new ≡ text.old ++ time_text minute) }
{
    let minute = u64::from(minute);
    text.push_number(minute / 60)?;
    text.push(b":")?;
    text.push_number(minute % 60 / 10)?;
    text.push_number(minute % 60 % 10)
}

// A block's id, its types and its trains.
#[tactic(auto, unfolding(crate::specs::defs::Words::label_of))]
pub(crate) fn push_label(text: &mut Text, told: &Told) -> Result<(), AllocError>
    ensures { OnOk result (text.new ≡ text.old ++ label_of told.now) }
{
    text.push_number(u64::from(told.id))?;
    text.push(b" ")?;
    push_letters(text, told.kinds.as_slice())?;
    text.push(b" ")?;
    text.push(told.arr.bytes())?;
    text.push(b" ")?;
    text.push(told.dep.bytes())
}

pub(crate) fn label_of(alloc: Global, told: &Told) -> Result<Vec<u8>, AllocError>
    ensures { IfOk result (λ v. v.items ≡ label_of told.now) }
{
    let mut text = Text::new(alloc);
    push_label(&mut text, told)?;
    Ok(text.into_bytes())
}

pub(crate) fn id_of(alloc: Global, told: &Told) -> Result<Vec<u8>, AllocError>
    ensures { IfOk result (λ v. v.items ≡ decimal told.now.id) }
{
    let mut text = Text::new(alloc);
    text.push_number(u64::from(told.id))?;
    Ok(text.into_bytes())
}

fn push_fault(text: &mut Text, fault: u8) -> Result<(), AllocError>
    ensures { OnOk result (text.new ≡ text.old ++ fault_text fault) }
{
    text.push_number(u64::from(fault))?;
    text.push(b" ")
}

// The numbers of findings, as a mark.
pub(crate) fn faults_words(alloc: Global, faults: &[u8]) -> Result<Vec<u8>, AllocError>
    ensures { IfOk result (λ v. v.items ≡ faults_words faults.now) }
{
    let mut text = Text::new(alloc);
    push_numbers(&mut text, faults)?;
    Ok(text.into_bytes())
}

fn push_numbers(text: &mut Text, faults: &[u8]) -> Result<(), AllocError>
    ensures { OnOk result (text.new ≡ text.old ++ flat_map fault_text faults.now) }
{
    for fault in faults {
        push_fault(text, *fault)?;
    }
    Ok(())
}

// What a finding of a kind says.
fn fault_word(fault: u8) -> &'static [u8]
    ensures { result.now ≡ fault_word fault }
{
    if fault == 5 {
        return b"wrong type";
    }
    if fault == 6 {
        return b"too soon";
    }
    if fault == 7 {
        return b"no route in";
    }
    if fault == 8 {
        return b"no route out";
    }
    if fault == 9 {
        return b"crossing";
    }
    b"too long"
}

#[tactic(auto, unfolding(crate::specs::defs::Words::fault_line))]
fn push_fault_line(text: &mut Text, fault: u8) -> Result<(), AllocError>
    ensures { OnOk result (text.new ≡ text.old ++ fault_line fault) }
{
    text.push(b"\nfinding ")?;
    text.push_number(u64::from(fault))?;
    text.push(b" ")?;
    text.push(fault_word(fault))
}

// Each finding in a line of its own.
fn push_fault_lines(text: &mut Text, faults: &[u8]) -> Result<(), AllocError>
    ensures { OnOk result (text.new ≡ text.old ++ fault_lines faults.now) }
{
    for fault in faults {
        push_fault_line(text, *fault)?;
    }
    Ok(())
}

pub(crate) fn side_word(side: Side) -> &'static [u8]
    ensures { result.now ≡ side_word side }
{
    match side {
        Side::A => b"A",
        Side::B => b"B",
    }
}

// A type's name and its length.
#[tactic(auto, unfolding(crate::specs::defs::Words::kind_words))]
pub(crate) fn kind_words(alloc: Global, name: &Name, length: u32) -> Result<Vec<u8>, AllocError>
    ensures { IfOk result (λ v. v.items ≡ kind_words name.now length) }
{
    let mut text = Text::new(alloc);
    text.push(name.bytes())?;
    text.push(b" ")?;
    text.push_number(u64::from(length))?;
    text.push(b" dm")?;
    Ok(text.into_bytes())
}

// The name of a type in the legend.
pub(crate) fn push_kind_name(
    text: &mut Text,
    kinds: &[LegendType],
    kind: TypeId,
) -> Result<(), AllocError>
    ensures { OnOk result (text.new ≡ text.old ++ kind_name kinds.now kind) }
{
    let number = usize::from(kind.0);
    if number < kinds.len() {
        text.push(kinds[number].name.bytes())?;
    }
    Ok(())
}

// A unit with its type, and the position to which it goes.
#[tactic(auto, unfolding(crate::specs::defs::Words::unit_line))]
fn push_unit_line(
    text: &mut Text,
    kinds: &[LegendType],
    told: &Told,
    k: u64,
    kind: TypeId,
) -> Result<(), AllocError>
    requires { k < 18446744073709551000 }
    ensures { OnOk result (text.new ≡ text.old ++ unit_line kinds.now told.now k kind) }
{
    text.push(b"\n")?;
    text.push(told.arr.bytes())?;
    text.push(b" ")?;
    text.push_number(u64::from(told.p) + k)?;
    text.push(b" ")?;
    push_kind_name(text, kinds, kind)?;
    text.push(b" to ")?;
    text.push(told.dep.bytes())?;
    text.push(b" ")?;
    text.push_number(u64::from(told.q) + k)
}

// These units of a block.
fn push_unit_lines(
    text: &mut Text,
    kinds: &[LegendType],
    told: &Told,
    units: &[TypeId],
) -> Result<(), AllocError>
    ensures { OnOk result
        (text.new ≡ text.old ++ each_from (unit_line kinds.now told.now) 0 units.now) }
{
    for i in 0..units.len() {
        push_unit_line(text, kinds, told, i as u64, units[i])?;
    }
    Ok(())
}

#[tactic(auto, unfolding(crate::specs::defs::Words::group_id))]
fn push_group_id(text: &mut Text, id: u32) -> Result<(), AllocError>
    ensures { OnOk result (text.new ≡ text.old ++ group_id id) }
{
    text.push(b"<g id='b")?;
    text.push_number(u64::from(id))
}

#[tactic(auto, unfolding(crate::specs::defs::Words::group_block))]
fn push_group_block(text: &mut Text, id: u32) -> Result<(), AllocError>
    ensures { OnOk result (text.new ≡ text.old ++ group_block id) }
{
    text.push(b"' data-block='")?;
    text.push_number(u64::from(id))
}

#[tactic(auto, unfolding(crate::specs::defs::Words::group_trains))]
fn push_group_trains(text: &mut Text, arr: &[u8], dep: &[u8]) -> Result<(), AllocError>
    ensures { OnOk result (text.new ≡ text.old ++ group_trains arr.now dep.now) }
{
    text.push(b"' data-arrive='")?;
    text.push(arr)?;
    text.push(b"' data-depart='")?;
    text.push(dep)?;
    text.push(b"'><title>")
}

// The group of a block, by its id and its trains.
#[tactic(auto, unfolding(crate::specs::defs::Words::group_text))]
pub(crate) fn push_group(text: &mut Text, told: &Told) -> Result<(), AllocError>
    ensures { OnOk result (text.new ≡ text.old ++ group_text told.now) }
{
    push_group_id(text, told.id)?;
    push_group_block(text, told.id)?;
    push_group_trains(text, told.arr.bytes(), told.dep.bytes())
}

// A block's length and cost, its units and its findings.
#[tactic(auto, unfolding(crate::specs::defs::Words::told_words))]
pub(crate) fn push_told(
    text: &mut Text,
    kinds: &[LegendType],
    told: &Told,
) -> Result<(), AllocError>
    ensures { OnOk result (text.new ≡ text.old ++ told_words kinds.now told.now) }
{
    text.push(b"block ")?;
    text.push_number(u64::from(told.id))?;
    text.push(b", ")?;
    text.push_number(u64::from(told.length))?;
    text.push(b" dm, cost ")?;
    text.push_number(told.cost)?;
    push_unit_lines(text, kinds, told, told.kinds.as_slice())?;
    push_fault_lines(text, told.faults.as_slice())
}

// The long words where there is room for that many bytes, else the short ones, else none.
#[tactic(auto, unfolding(crate::specs::defs::Words::fitting))]
pub(crate) fn fitting<'w>(long: &'w [u8], short: &'w [u8], room: u64) -> &'w [u8]
    ensures { result.now ≡ fitting long.now short.now room }
{
    if long.len() as u64 <= room {
        return long;
    }
    if short.len() as u64 <= room {
        return short;
    }
    b""
}
