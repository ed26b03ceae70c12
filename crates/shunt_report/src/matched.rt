// Texts on matchings.
ghost use Rattle.std.specs.Prelude.{◌≡◌, ◌<◌, ◌++◌, OnOk, IfOk, length};
ghost use Rattle.shunt_instance.specs.defs.Instance.{unit_at, position_at, unit_total};
ghost use Rattle.shunt_instance.specs.defs.Instance.{position_total};
ghost use Rattle.shunt_instance.specs.defs.Matching.{place_of};
ghost use Rattle.shunt_matching.specs.defs.Nights.{HasItsType};
ghost use Rattle.shunt_report.specs.defs.Texts.{ArePlaces, train_place, pair_line, pair_lines};
ghost use Rattle.shunt_report.specs.defs.Texts.{pairs_of, shortage_of, type_name};

use shunt_base::TypeId;
use shunt_instance::{Instance, Position, Train, Unit};
use shunt_matching::Matching;
use shunt_matching::types::Shortage;
use shunt_text::Text;
use std::alloc::{AllocError, Global};

pub(crate) fn push_train(text: &mut Text, train: &Train, place: u8) -> Result<(), AllocError>
    ensures { OnOk result (text.new ≡ text.old ++ train_place train.now place) }
{
    text.push(train.name.bytes())?;
    text.push(b" ")?;
    text.push_number(u64::from(place))
}

fn push_pair(
    text: &mut Text,
    instance: &Instance,
    unit: Unit,
    position: Position,
) -> Result<(), AllocError>
    requires unit { unit.train.0 < length instance.now.arrive }
    requires position { position.train.0 < length instance.now.depart }
    ensures { OnOk result (text.new ≡ text.old ++ pair_line instance.now unit position) }
{
    text.push(b"pair ")?;
    push_train(text, instance.arrive(unit.train), unit.place)?;
    text.push(b" ")?;
    push_train(text, instance.depart(position.train), position.place)?;
    text.push(b"\n")
}

/// A line `pair ARR PLACE DEP PLACE` for each unit in unit order, and then `matched NUMBER`.
///
/// The matching gives each unit of the instance one of its positions.
#[tactic(auto, unfolding(crate::specs::defs::Texts::pairs_of))]
pub fn pairs_text(
    alloc: Global,
    instance: &Instance,
    matching: &Matching,
) -> Result<Vec<u8>, AllocError>
    requires { ArePlaces instance.now matching.now.place_of }
    ensures { IfOk result (λ v. v.items ≡ pairs_of instance.now matching.now.place_of) }
{
    let places = matching.place_of.as_slice();
    let mut text = Text::new(alloc);
    for u in 0..instance.units() {
        let position = instance.position(usize::from(places[u]));
        push_pair(&mut text, instance, instance.unit(u), position)?;
    }
    text.push(b"matched ")?;
    text.push_number(instance.units() as u64)?;
    text.push(b"\n")?;
    Ok(text.into_bytes())
}

fn push_type(text: &mut Text, instance: &Instance, kind: TypeId) -> Result<(), AllocError>
    requires { kind.0 < length instance.now.station.types }
    ensures { OnOk result (text.new ≡ text.old ++ type_name instance.now kind) }
{
    let types = instance.station().types.as_slice();
    text.push(types[usize::from(kind.0)].name.bytes())
}

/// Why no matching exists: `no matching type NAME arrive A depart D`, or `no matching type NAME by HH:MM need N have H`.
///
/// The shortage names a type of the instance.
#[tactic(auto, unfolding(crate::specs::defs::Texts::shortage_of))]
pub fn shortage_text(
    alloc: Global,
    instance: &Instance,
    shortage: &Shortage,
) -> Result<Vec<u8>, AllocError>
    requires { HasItsType instance.now shortage.now }
    ensures { IfOk result (λ v. v.items ≡ shortage_of instance.now shortage.now) }
{
    let mut text = Text::new(alloc);
    text.push(b"no matching type ")?;
    match *shortage {
        Shortage::Balance {
            kind,
            arrive,
            depart,
        } => {
            push_type(&mut text, instance, kind)?;
            text.push(b" arrive ")?;
            text.push_number(u64::from(arrive))?;
            text.push(b" depart ")?;
            text.push_number(u64::from(depart))?;
        }
        Shortage::ByMinute {
            kind,
            minute,
            need,
            have,
        } => {
            push_type(&mut text, instance, kind)?;
            text.push(b" by ")?;
            text.push_minute(minute)?;
            text.push(b" need ")?;
            text.push_number(u64::from(need))?;
            text.push(b" have ")?;
            text.push_number(u64::from(have))?;
        }
    }
    text.push(b"\n")?;
    Ok(text.into_bytes())
}
