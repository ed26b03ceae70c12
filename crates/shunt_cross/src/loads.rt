// The lengths of the stays that stand on a track at a moment.
ghost use Rattle.std.specs.Prelude.{◌≡◌, ◌≤◌, ◌<◌, length, slice_index, nat_lt, if◌then◌else◌};
ghost use Rattle.shunt_base.specs.defs.Keys.{AreStays};
ghost use Rattle.shunt_stays.specs.defs.Crossings.{stands_at, load_after as load};

use crate::crossings::{is_before, is_by};
use shunt_base::{EventKey, Stay, TrackId};

fn stands(stay: &Stay, track: TrackId, moment: EventKey) -> bool
    ensures { result ≡ stands_at track.0 moment stay.now }
{
    stay.track == track && (is_by(stay.enter, moment) && is_before(moment, stay.leave))
}

fn length_at(stay: &Stay, track: TrackId, moment: EventKey) -> u64
    ensures { result ≡ (if stands_at track.0 moment stay.now then stay.now.length else 0) }
{
    if stands(stay, track, moment) {
        return u64::from(stay.length);
    }
    0
}

/// The lengths of the stays on this one's track just after its entry, added up, in dm.
///
/// There are at most 65,536 stays, which are well formed, and no two have one id. It takes no memory.
pub fn load_after(stays: &[Stay], stay: &Stay) -> u64
    requires stays { AreStays stays.now }
    requires few { length stays.now ≤ 65536 }
    ensures { result ≡ load stays.now stay.now }
{
    let mut total = 0;
    for other in stays {
        total += length_at(other, stay.track, stay.enter);
    }
    total
}

// Whether the load just after this stay's entry is above its track's length.
pub(crate) fn is_over(lengths: &[u32], stays: &[Stay], stay: &Stay) -> bool
    requires stays { AreStays stays.now }
    requires few { length stays.now ≤ 65536 }
    requires track { stay.now.track.0 < length lengths.now }
    ensures { result ≡ nat_lt (slice_index lengths.now stay.now.track.0) (load stays.now stay.now) }
{
    load_after(stays, stay) > u64::from(lengths[usize::from(stay.track.0)])
}
