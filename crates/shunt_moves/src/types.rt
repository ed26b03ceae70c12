// What a workbench tells.
ghost use Rattle.std.specs.Prelude.{◌≡◌, ◌^◌, ◌<◌};
ghost use Rattle.shunt_moves.specs.defs.Tallies.{sum_of};

use thiserror::Error;

/// How many findings of each kind the present blocks have, and what they cost.
#[derive(Clone, Copy, Debug, PartialEq, Eq)]
pub struct Tally {
    /// Units that are in no block.
    pub bare_units: u32,
    /// Units that are in two or more blocks.
    pub twice_units: u32,
    /// Positions that are in no block.
    pub bare_places: u32,
    /// Positions that are in two or more blocks.
    pub twice_places: u32,
    /// Blocks with a wrong type.
    pub wrong_type: u32,
    /// Blocks whose departing train leaves before one of their units is ready.
    pub too_soon: u32,
    /// Parked blocks without a way in.
    pub no_route_in: u32,
    /// Parked blocks without a way out.
    pub no_route_out: u32,
    /// Pairs of blocks that cross.
    pub crossing: u32,
    /// Entries after which more stands on a track than the track is long.
    pub too_long: u32,
    /// In cost units.
    pub cost: u64,
}

impl Tally {
    /// The ten counts added up, which are below 2^32 together. It takes no memory.
    pub fn total(&self) -> u32
        requires { sum_of self.now < 2 ^ 32 }
        ensures { result ≡ sum_of self.now }
    {
        self.bare_units
            + self.twice_units
            + self.bare_places
            + self.twice_places
            + self.wrong_type
            + self.too_soon
            + self.no_route_in
            + self.no_route_out
            + self.crossing
            + self.too_long
    }
}

/// There is no state to go to.
#[derive(Clone, Copy, Debug, PartialEq, Eq)]
pub struct Nothing;

/// Why an edit was refused: the first of these that holds.
#[derive(Clone, Copy, Debug, PartialEq, Eq, Error)]
pub enum MoveError {
    /// An id that the edit names isn't there.
    #[error("no block has this id")]
    NoBlock,
    /// A cut behind no pair, or behind the last one or a later one.
    #[error("the cut leaves nothing on one of its sides")]
    BadCount,
    /// A join of two blocks of which the second doesn't continue the first in both trains.
    #[error("the second block doesn't continue the first")]
    NotAdjacent,
    /// An added or parked block whose trains, runs or track aren't the night's.
    #[error("a train, a run or a track is out of range")]
    BadRange,
    /// A further block where there are 400.
    #[error("there are 400 blocks already")]
    Full,
    /// A further block where the next id would be 1,000,001.
    #[error("no id is left")]
    IdsSpent,
    /// Memory ran out.
    #[error("out of memory")]
    Memory,
}
