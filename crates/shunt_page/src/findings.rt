// Findings in words.
ghost use Rattle.std.specs.Prelude.{◌≡◌, ◌<◌, ◌++◌, map, All, OnOk, IfOk};
ghost use Rattle.shunt_instance.specs.defs.Instance.{unit_total, position_total};
ghost use Rattle.shunt_audit.specs.defs.Findings.{IsOfNight};
ghost use Rattle.shunt_page.specs.defs.Findings.{unit_words, position_words, block_words};
ghost use Rattle.shunt_page.specs.defs.Findings.{two_words, load_words, cost_words, finding_of};
ghost use Rattle.shunt_page.specs.defs.Findings.{finding_says, finding_words, finding_line};

use crate::records::FindingLine;
use shunt_audit::types::Finding;
use shunt_instance::Instance;
use shunt_lists::Items;
use shunt_text::Text;
use std::alloc::{AllocError, Global};

fn push_unit(text: &mut Text, instance: &Instance, u: u16) -> Result<(), AllocError>
    requires { u < unit_total instance.now }
    ensures { OnOk result (text.new ≡ text.old ++ unit_words instance.now u) }
{
    let unit = instance.unit(usize::from(u));
    text.push(b"unit ")?;
    text.push(instance.arrive(unit.train).name.bytes())?;
    text.push(b" ")?;
    text.push_number(u64::from(unit.place))
}

fn push_position(text: &mut Text, instance: &Instance, v: u16) -> Result<(), AllocError>
    requires { v < position_total instance.now }
    ensures { OnOk result (text.new ≡ text.old ++ position_words instance.now v) }
{
    let position = instance.position(usize::from(v));
    text.push(b"position ")?;
    text.push(instance.depart(position.train).name.bytes())?;
    text.push(b" ")?;
    text.push_number(u64::from(position.place))
}

fn push_block(text: &mut Text, id: u32) -> Result<(), AllocError>
    ensures { OnOk result (text.new ≡ text.old ++ block_words id) }
{
    text.push(b"block ")?;
    text.push_number(u64::from(id))
}

fn push_two(text: &mut Text, first: u32, second: u32) -> Result<(), AllocError>
    ensures { OnOk result (text.new ≡ text.old ++ two_words first second) }
{
    push_block(text, first)?;
    text.push(b" and ")?;
    push_block(text, second)
}

fn push_load(text: &mut Text, id: u32, load: u64) -> Result<(), AllocError>
    ensures { OnOk result (text.new ≡ text.old ++ load_words id load) }
{
    push_block(text, id)?;
    text.push(b" with ")?;
    text.push_number(load)?;
    text.push(b" dm")
}

fn push_costs(text: &mut Text, stated: u64, real: u64) -> Result<(), AllocError>
    ensures { OnOk result (text.new ≡ text.old ++ cost_words stated real) }
{
    text.push(b"cost ")?;
    text.push_number(real)?;
    text.push(b", stated ")?;
    text.push_number(stated)
}

// What a finding is of.
fn push_of(text: &mut Text, instance: &Instance, finding: Finding) -> Result<(), AllocError>
    requires { IsOfNight instance.now finding }
    ensures { OnOk result (text.new ≡ text.old ++ finding_of instance.now finding) }
{
    match finding {
        Finding::UnitBare(u) | Finding::UnitTwice(u) => push_unit(text, instance, u),
        Finding::PlaceBare(v) | Finding::PlaceTwice(v) => push_position(text, instance, v),
        Finding::WrongType(id)
        | Finding::TooSoon(id)
        | Finding::NoRouteIn(id)
        | Finding::NoRouteOut(id) => push_block(text, id),
        Finding::Crossing(first, second) => push_two(text, first, second),
        Finding::TooLong(id, load) => push_load(text, id, load),
        Finding::StatedCost(stated, real) => push_costs(text, stated, real),
    }
}

// What it says.
fn says(finding: Finding) -> &'static [u8]
    ensures { result.now ≡ finding_says finding }
{
    match finding {
        Finding::UnitBare(_) => b": the unit is in no block",
        Finding::UnitTwice(_) => b": the unit is in two or more blocks",
        Finding::PlaceBare(_) => b": no unit fills it",
        Finding::PlaceTwice(_) => b": two or more units fill it",
        Finding::WrongType(_) => {
            b": a unit differs in type from its position, or its track permits another type"
        }
        Finding::TooSoon(_) => b": its train leaves before a unit is ready",
        Finding::NoRouteIn(_) => b": there is no way in",
        Finding::NoRouteOut(_) => b": there is no way out",
        Finding::Crossing(_, _) => b" cross: one stands in the way of the other",
        Finding::TooLong(_, _) => b" on its track just after its entry: the track is shorter",
        Finding::StatedCost(_, _) => b": the plan states another cost than its blocks have",
    }
}

fn line_of(alloc: Global, instance: &Instance, finding: Finding) -> Result<FindingLine, AllocError>
    requires { IsOfNight instance.now finding }
    ensures { IfOk result (λ l. l ≡ finding_line instance.now finding) }
{
    let mut text = Text::new(alloc);
    push_of(&mut text, instance, finding)?;
    text.push(says(finding))?;
    Ok(FindingLine {
        words: Items::from_vec(text.into_bytes()),
    })
}

// The findings in their order.
pub(crate) fn lines_of(
    alloc: Global,
    instance: &Instance,
    findings: &[Finding],
) -> Result<Vec<FindingLine>, AllocError>
    requires { All (IsOfNight instance.now) findings.now }
    ensures { IfOk result (λ v. v.items ≡ map (finding_line instance.now) findings.now) }
{
    let mut lines = Vec::new(alloc);
    for finding in findings {
        let line = line_of(alloc, instance, *finding)?;
        lines.push(line)?;
    }
    Ok(lines)
}
