// Whether two stays are in each other's way.
ghost use Rattle.std.specs.Prelude.{◌≡◌, ◌≤◌, length, count_by};
ghost use Rattle.std.specs.Ordering.{is_le};
ghost use Rattle.shunt_base.specs.defs.Keys.{key_cmp};
ghost use Rattle.shunt_stays.specs.defs.Events.{key_before};
ghost use Rattle.shunt_stays.specs.defs.Crossings.{crosses as crossing, in_the_way as blocked};

use shunt_base::{EventKey, Stay, compare_keys};
use std::cmp::Ordering;

pub(crate) fn is_before(first: EventKey, second: EventKey) -> bool
    ensures { result ≡ key_before first second }
{
    compare_keys(first, second) == Ordering::Less
}

pub(crate) fn is_by(first: EventKey, second: EventKey) -> bool
    ensures { result ≡ is_le (key_cmp first second) }
{
    compare_keys(first, second) != Ordering::Greater
}

// The one of these two that leaves first has the other in its way; `later` entered last.
fn in_the_way(earlier: &Stay, later: &Stay) -> bool
    ensures { result ≡ blocked earlier.now later.now }
{
    (is_before(later.leave, earlier.leave) && later.side_out != later.side_in)
        || (is_before(earlier.leave, later.leave) && earlier.side_out == later.side_in)
}

/// Whether `later` enters a track after `earlier` and while that one stands there, and the one that leaves first has the
/// other in its way. It takes no memory.
pub fn crosses(earlier: &Stay, later: &Stay) -> bool
    ensures { result ≡ crossing earlier.now later.now }
{
    earlier.track == later.track
        && (is_before(earlier.enter, later.enter)
            && (is_before(later.enter, earlier.leave) && in_the_way(earlier, later)))
}

// How many cross this stay by entering after it.
pub(crate) fn crossed_by(stays: &[Stay], earlier: &Stay) -> u32
    requires { length stays.now ≤ 65536 }
    ensures { result ≡ count_by (crossing earlier.now) stays.now }
{
    let mut count = 0;
    for later in stays {
        if crosses(earlier, later) {
            count += 1;
        }
    }
    count
}
