// When events are done, and how long a block stands on a track.
ghost use Rattle.std.specs.Prelude.{◌≡◌};
ghost use Rattle.shunt_base.specs.defs.Keys.{key_cmp};

use crate::ids::{Side, TrackId};
use std::cmp::Ordering;

/// When an event is done. Keys are compared field by field.
#[derive(Clone, Copy, Debug, PartialEq, Eq, PartialOrd, Ord, Hash)]
pub struct EventKey {
    /// The minute of the event. It has no bound but its type's.
    pub minute: u16,
    /// Whether the block enters, so that leaves come before entries of the same minute.
    pub enters: bool,
    /// The number of the arriving train for an entry, of the departing train for a leave.
    pub train: u8,
    /// The block's place in its arriving train for an entry; for a leave 9 less its place in its departing train.
    pub place: u8,
    /// The block's id.
    pub id: u32,
}

/// How long a block stands on a track, and by which sides it comes and goes.
#[derive(Clone, Copy, Debug, PartialEq, Eq, PartialOrd, Ord, Hash)]
pub struct Stay {
    /// The block's id.
    pub id: u32,
    pub track: TrackId,
    pub side_in: Side,
    pub side_out: Side,
    pub enter: EventKey,
    pub leave: EventKey,
    /// The block's length in dm.
    pub length: u32,
}

/// Which of two events comes first.
pub fn compare_keys(first: EventKey, second: EventKey) -> Ordering
    ensures { result ≡ key_cmp first second }
{
    first.cmp(&second)
}
