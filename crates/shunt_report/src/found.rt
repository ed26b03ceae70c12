// The text of findings.
ghost use Rattle.std.specs.Prelude.{◌≡◌, ◌<◌, ◌++◌, All, OnOk, IfOk};
ghost use Rattle.shunt_instance.specs.defs.Instance.{unit_total, position_total};
ghost use Rattle.shunt_audit.specs.defs.Findings.{IsOfNight};
ghost use Rattle.shunt_report.specs.defs.FindingTexts.{unit_place, position_place, two_numbers};
ghost use Rattle.shunt_report.specs.defs.FindingTexts.{finding_word, finding_values, finding_line};
ghost use Rattle.shunt_report.specs.defs.FindingTexts.{findings_of};

use crate::matched::push_train;
use shunt_audit::types::Finding;
use shunt_instance::Instance;
use shunt_text::Text;
use std::alloc::{AllocError, Global};

pub(crate) fn push_unit(text: &mut Text, instance: &Instance, u: u16) -> Result<(), AllocError>
    requires { u < unit_total instance.now }
    ensures { OnOk result (text.new ≡ text.old ++ unit_place instance.now u) }
{
    let unit = instance.unit(usize::from(u));
    push_train(text, instance.arrive(unit.train), unit.place)
}

pub(crate) fn push_position(text: &mut Text, instance: &Instance, v: u16) -> Result<(), AllocError>
    requires { v < position_total instance.now }
    ensures { OnOk result (text.new ≡ text.old ++ position_place instance.now v) }
{
    let position = instance.position(usize::from(v));
    push_train(text, instance.depart(position.train), position.place)
}

pub(crate) fn push_two(text: &mut Text, first: u64, second: u64) -> Result<(), AllocError>
    ensures { OnOk result (text.new ≡ text.old ++ two_numbers first second) }
{
    text.push_number(first)?;
    text.push(b" ")?;
    text.push_number(second)
}

// The number of a finding's kind, and its word.
fn word_of(finding: Finding) -> &'static [u8]
    ensures { result.now ≡ finding_word finding }
{
    match finding {
        Finding::UnitBare(_) => b"1 unit-bare",
        Finding::UnitTwice(_) => b"2 unit-twice",
        Finding::PlaceBare(_) => b"3 place-bare",
        Finding::PlaceTwice(_) => b"4 place-twice",
        Finding::WrongType(_) => b"5 wrong-type",
        Finding::TooSoon(_) => b"6 too-soon",
        Finding::NoRouteIn(_) => b"7 no-route-in",
        Finding::NoRouteOut(_) => b"8 no-route-out",
        Finding::Crossing(_, _) => b"9 crossing",
        Finding::TooLong(_, _) => b"10 too-long",
        Finding::StatedCost(_, _) => b"11 stated-cost",
    }
}

// What a finding carries.
fn push_values(text: &mut Text, instance: &Instance, finding: Finding) -> Result<(), AllocError>
    requires { IsOfNight instance.now finding }
    ensures { OnOk result (text.new ≡ text.old ++ finding_values instance.now finding) }
{
    match finding {
        Finding::UnitBare(u) | Finding::UnitTwice(u) => push_unit(text, instance, u),
        Finding::PlaceBare(v) | Finding::PlaceTwice(v) => push_position(text, instance, v),
        Finding::WrongType(id)
        | Finding::TooSoon(id)
        | Finding::NoRouteIn(id)
        | Finding::NoRouteOut(id) => text.push_number(u64::from(id)),
        Finding::Crossing(first, second) => push_two(text, u64::from(first), u64::from(second)),
        Finding::TooLong(id, load) => push_two(text, u64::from(id), load),
        Finding::StatedCost(stated, real) => push_two(text, stated, real),
    }
}

fn push_finding(text: &mut Text, instance: &Instance, finding: Finding) -> Result<(), AllocError>
    requires { IsOfNight instance.now finding }
    ensures { OnOk result (text.new ≡ text.old ++ finding_line instance.now finding) }
{
    text.push(b"finding ")?;
    text.push(word_of(finding))?;
    text.push(b" ")?;
    push_values(text, instance, finding)?;
    text.push(b"\n")
}

/// A line `finding NUMBER WORD ..` for each finding in its order, and then `findings NUMBER cost COST`.
///
/// Units and positions are told by train and place, blocks by id, loads in dm and costs in cost units. The units and
/// positions that the findings name are the instance's.
#[tactic(auto, unfolding(crate::specs::defs::FindingTexts::findings_of))]
pub fn findings_text(
    alloc: Global,
    instance: &Instance,
    findings: &[Finding],
    cost: u64,
) -> Result<Vec<u8>, AllocError>
    requires { All (IsOfNight instance.now) findings.now }
    ensures { IfOk result (λ v. v.items ≡ findings_of instance.now findings.now cost) }
{
    let mut text = Text::new(alloc);
    for finding in findings {
        push_finding(&mut text, instance, *finding)?;
    }
    text.push(b"findings ")?;
    text.push_number(findings.len() as u64)?;
    text.push(b" cost ")?;
    text.push_number(cost)?;
    text.push(b"\n")?;
    Ok(text.into_bytes())
}
