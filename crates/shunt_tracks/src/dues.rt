// The entries and leaves of stays, in the order of their keys.
ghost use Rattle.std.specs.Prelude.{◌≡◌, IfOk, map};
ghost use Rattle.std.specs.List.{flat_map};
ghost use Rattle.shunt_base.specs.defs.Keys.{AreStays};
ghost use Rattle.shunt_stays.specs.defs.Events.{in_order};
ghost use Rattle.shunt_tracks.specs.defs.Dues.{dues_of, entry_due, leave_due, move_of};

use shunt_base::{EventKey, Side, Stay, TrackId};
use std::alloc::{AllocError, Global};

/// An entry or a leave, with its track, its side and the length of its block in dm. They are sorted by their keys, as the key stands first.
#[derive(Clone, Copy, Debug, PartialEq, Eq, PartialOrd, Ord)]
pub struct Due {
    pub key: EventKey,
    pub track: TrackId,
    pub side: Side,
    pub length: u32,
}

fn entry_of(stay: &Stay) -> Due
    ensures { result ≡ entry_due stay.now }
{
    Due {
        key: stay.enter,
        track: stay.track,
        side: stay.side_in,
        length: stay.length,
    }
}

fn leave_of(stay: &Stay) -> Due
    ensures { result ≡ leave_due stay.now }
{
    Due {
        key: stay.leave,
        track: stay.track,
        side: stay.side_out,
        length: stay.length,
    }
}

fn all_dues(alloc: Global, stays: &[Stay]) -> Result<Vec<Due>, AllocError>
    ensures { IfOk result (λ v. v.items ≡ flat_map dues_of stays.now) }
{
    let mut all = Vec::new(alloc);
    for stay in stays {
        all.push(entry_of(stay))?;
        all.push(leave_of(stay))?;
    }
    Ok(all)
}

/// The entries and leaves of stays, in the order of their keys. Err is want of memory.
pub fn sorted_dues(alloc: Global, stays: &[Stay]) -> Result<Vec<Due>, AllocError>
    requires { AreStays stays.now }
    ensures { IfOk result (λ v. map move_of v.items ≡ in_order stays.now) }
{
    let mut all = all_dues(alloc, stays)?;
    all.sort_unstable();
    Ok(all)
}
