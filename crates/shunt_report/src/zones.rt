// The text of what passes zones.
ghost use Rattle.std.specs.Prelude.{◌≡◌, ◌<◌, ◌++◌, All, length, OnOk, IfOk};
ghost use Rattle.std.specs.List.{flat_map};
ghost use Rattle.shunt_report.specs.defs.ZonesTexts.{IsMeetOf, meet_line, busiest_words, zone_line};
ghost use Rattle.shunt_report.specs.defs.ZonesTexts.{zone_lines, zones_of};

use crate::moves::push_move;
use shunt_base::{Minute, Name};
use shunt_text::Text;
use shunt_zones::{Meet, ZoneLoad, Zones};
use std::alloc::{AllocError, Global};

pub(crate) fn minute_of(number: u16) -> Minute
    requires { number < 2880 }
    ensures { result ≡ number }
{
    match Minute::new(number) {
        Some(minute) => minute,
        None => unreachable!(),
    }
}

fn push_meet(text: &mut Text, zones: &Zones, meet: &Meet) -> Result<(), AllocError>
    requires { IsMeetOf zones.now meet.now }
    ensures { OnOk result (text.new ≡ text.old ++ meet_line zones.now meet.now) }
{
    let names = zones.names.as_slice();
    text.push(b"meet ")?;
    text.push_minute(minute_of(meet.first.key.minute))?;
    text.push(b" ")?;
    push_move(text, meet.first.key.enters, meet.first.key.id)?;
    text.push(b" ")?;
    push_move(text, meet.second.key.enters, meet.second.key.id)?;
    text.push(b" ")?;
    text.push(names[usize::from(meet.zone)].bytes())?;
    text.push(b"\n")
}

fn push_meets(text: &mut Text, zones: &Zones, meets: &[Meet]) -> Result<(), AllocError>
    requires { All (IsMeetOf zones.now) meets.now }
    ensures { OnOk result (text.new ≡ text.old ++ flat_map (meet_line zones.now) meets.now) }
{
    for meet in meets {
        push_meet(text, zones, meet)?;
    }
    Ok(())
}

// When most moves pass, and how many do then.
fn push_busiest(text: &mut Text, busiest: Option<Minute>, most: u64) -> Result<(), AllocError>
    ensures { OnOk result (text.new ≡ text.old ++ busiest_words busiest most) }
{
    match busiest {
        None => Ok(()),
        Some(minute) => {
            text.push(b" busiest ")?;
            text.push_minute(minute)?;
            text.push(b" ")?;
            text.push_number(most)
        }
    }
}

fn push_zone(text: &mut Text, name: &Name, load: ZoneLoad) -> Result<(), AllocError>
    ensures { OnOk result (text.new ≡ text.old ++ zone_line name.now load) }
{
    text.push(b"zone ")?;
    text.push(name.bytes())?;
    text.push(b" moves ")?;
    text.push_number(u64::from(load.moves))?;
    push_busiest(text, load.busiest, u64::from(load.most))?;
    text.push(b"\n")
}

fn push_zones(text: &mut Text, names: &[Name], loads: &[ZoneLoad]) -> Result<(), AllocError>
    requires { length loads.now ≡ length names.now }
    ensures { OnOk result (text.new ≡ text.old ++ zone_lines names.now loads.now) }
{
    for i in 0..names.len() {
        push_zone(text, &names[i], loads[i])?;
    }
    Ok(())
}

/// What passes the zones: a line `meet HH:MM MOVE ID MOVE ID ZONE` for each meet in its order, with `enter` or `leave` and the block's
/// id of both moves; then for each zone in its order `zone NAME moves M busiest HH:MM K`, or `zone NAME moves 0` where none passes;
/// and last `meets NUMBER`.
///
/// The zones of the meets are among the names, their minutes are of two days, and there is one load for each zone. The error is want
/// of memory.
#[tactic(auto, unfolding(crate::specs::defs::ZonesTexts::zones_of))]
pub fn zones_text(
    alloc: Global,
    zones: &Zones,
    meets: &Vec<Meet>,
    loads: &Vec<ZoneLoad>,
) -> Result<Vec<u8>, AllocError>
    requires meets { All (IsMeetOf zones.now) meets.now.items }
    requires loads { length loads.now.items ≡ length zones.now.names }
    ensures { IfOk result (λ v. v.items ≡ zones_of zones.now meets.now.items loads.now.items) }
{
    let mut text = Text::new(alloc);
    push_meets(&mut text, zones, meets)?;
    push_zones(&mut text, zones.names.as_slice(), loads)?;
    text.push(b"meets ")?;
    text.push_number(meets.len() as u64)?;
    text.push(b"\n")?;
    Ok(text.into_bytes())
}
