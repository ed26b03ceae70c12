// Orders, and what following them comes to.
use shunt_base::{Minute, Side, TrackId};

/// A block is to enter a track, or to leave it.
#[derive(Clone, Copy, Debug, PartialEq, Eq, Drop)]
pub struct Order {
    pub minute: Minute,
    /// Whether the block enters; else it leaves.
    pub enters: bool,
    /// The block's id, in a file from 1 to 1,000,000.
    pub id: u32,
    /// The block's length in dm, in a file from 1 to 40,000.
    pub length: u32,
    pub track: TrackId,
    /// The side by which it enters or leaves.
    pub side: Side,
}

/// What following orders comes to. Orders are counted from 1.
#[derive(Clone, Copy, Debug, PartialEq, Eq, Drop)]
pub enum Followed {
    /// Each order can be done, and that many blocks are left on tracks.
    Through { left: u32 },
    /// The first order that can't be done is this leave: its block isn't at its side.
    Blocked { order: u32 },
    /// The first order that can't be done is this entry: it would leave this load, in dm, which is more than the track's length.
    Over { order: u32, load: u64 },
}
