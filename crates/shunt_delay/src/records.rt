// Delays, and what stops trains from being later.
use shunt_base::ArrId;

/// Why a train can't be one minute later. Blocks are told by their ids.
#[derive(Clone, Copy, Debug, PartialEq, Eq, Drop)]
pub enum Stop {
    /// No delay above 120 minutes is tried.
    Limit,
    /// The block's departing train would leave before one of its units is ready.
    TooSoon { id: u32 },
    /// Two blocks on one track would cross; the first of them would enter first.
    Crossing { first: u32, second: u32 },
    /// Just after the block's entry the lengths on its track would add up to this load, in dm, which is above the track's length.
    TooLong { id: u32, load: u64 },
}

/// How late a train can be.
#[derive(Clone, Copy, Debug, PartialEq, Eq, Drop)]
pub struct Delay {
    pub train: ArrId,
    /// From 0 to 120.
    pub minutes: u16,
    pub stop: Stop,
}
