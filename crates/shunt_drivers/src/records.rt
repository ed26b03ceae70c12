// Crews, duties, and what is told of them.
use shunt_base::{Minute, PlatformId, Side, TrackId};
use shunt_lists::Items;

/// How long a driver is with a move between a platform and a side of a track.
#[derive(Clone, Copy, Debug, PartialEq, Eq, Drop)]
pub struct Takes {
    pub platform: PlatformId,
    pub track: TrackId,
    pub side: Side,
    /// In a file from 1 to 120.
    pub minutes: u16,
}

/// How long drivers are with moves.
#[derive(Debug, Drop)]
pub struct Crew {
    /// In a file each over a route of the station, and no two over one.
    pub takes: Items<Takes>,
    /// The minutes for every other move, in a file from 1 to 120.
    pub other: u16,
}

/// A move with its driver.
#[derive(Clone, Copy, Debug, PartialEq, Eq, Drop)]
pub struct Duty {
    /// In a file from 1 to 800.
    pub driver: u32,
    /// Whether the move is an entry; else it is a leave.
    pub enters: bool,
    /// The id of the move's block.
    pub id: u32,
}

/// The moves of a plan, shared among drivers.
#[derive(Debug, Drop)]
pub struct Sharing {
    /// One of each move, in key order.
    pub duties: Vec<Duty>,
    /// At most 800, numbered from 1.
    pub drivers: u32,
    /// The first minute at which as many moves run as there are drivers; None exactly when there is no move.
    pub busy: Option<Minute>,
}

/// Why duties are no sharing of a plan's moves.
#[derive(Clone, Copy, Debug, PartialEq, Eq, Drop)]
pub enum RosterFault {
    /// The first move without a duty.
    Absent { enters: bool, id: u32 },
    /// Every move has a duty, and the first two of one driver that run at one minute are these.
    Overlap { first: Duty, second: Duty },
}
