// How much stands on a track.
ghost use Rattle.std.specs.Prelude.{◌≡◌, ◌≤◌, ◌-◌, ◌++◌, ◌∷◌, [], length, IfOk, OnOk};
ghost use Rattle.std.specs.Prelude.{if◌then◌else◌};
ghost use Rattle.shunt_picture.specs.defs.Levels.{load_of, load_at, comes_or_goes, is_event};
ghost use Rattle.shunt_picture.specs.defs.Levels.{is_shown, level_at, levels_of};

use crate::records::LoadLevel;
use shunt_base::Stay;
use std::alloc::{AllocError, Global};

// The length of a stay where it stands after a minute, else 0.
fn load_of(stay: &Stay, minute: u16) -> u64
    ensures exact { result ≡ load_of minute stay.now }
    ensures small { result ≤ 4294967295 }
{
    if stay.enter.minute <= minute && minute < stay.leave.minute {
        u64::from(stay.length)
    } else {
        0
    }
}

// The lengths of the stays that stand after a minute, added up.
fn load_at(stays: &[Stay], minute: u16) -> u64
    requires { length stays.now ≤ 400 }
    ensures { result ≡ load_at stays.now minute }
{
    let mut load = 0;
    for stay in stays {
        load += load_of(stay, minute);
    }
    load
}

fn comes_or_goes(stay: &Stay, minute: u16) -> bool
    ensures { result ≡ comes_or_goes minute stay.now }
{
    stay.enter.minute == minute || stay.leave.minute == minute
}

// Whether one of these enters or leaves in a minute.
fn is_event(stays: &[Stay], minute: u16) -> bool
    ensures { result ≡ is_event stays.now minute }
{
    stays.iter().any(|stay| comes_or_goes(stay, minute))
}

// Whether the load is told at a minute: it is the first one, or one of these enters or leaves in it.
fn is_shown(stays: &[Stay], first: u16, minute: u16) -> bool
    ensures { result ≡ is_shown stays.now first minute }
{
    minute == first || is_event(stays, minute)
}

// Adds the load at a minute where it is told.
fn note_level(
    levels: &mut Vec<LoadLevel>,
    stays: &[Stay],
    first: u16,
    minute: u16,
) -> Result<(), AllocError>
    requires { length stays.now ≤ 400 }
    ensures { OnOk result (levels.new.items ≡ levels.old.items
        ++ (if is_shown stays.now first minute then level_at stays.now minute ∷ [] else [])) }
{
    if is_shown(stays, first, minute) {
        let load = load_at(stays, minute);
        levels.push(LoadLevel { minute, load })?;
    }
    Ok(())
}

// The load at the first minute from one to another, and at each at which one of these enters or leaves.
pub(crate) fn levels_of(
    alloc: Global,
    stays: &[Stay],
    from: u16,
    to: u16,
) -> Result<Vec<LoadLevel>, AllocError>
    requires { length stays.now ≤ 400 }
    ensures { IfOk result (λ v. v.items ≡ levels_of stays.now from (to - from)) }
{
    let mut levels = Vec::new(alloc);
    for minute in from..to {
        note_level(&mut levels, stays, from, minute)?;
    }
    Ok(levels)
}
