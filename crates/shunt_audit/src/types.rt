//! What an audit finds.
use shunt_lists::Items;

/// What is wrong with blocks or with a plan, numbered from 1 to 11 in this order.
///
/// Units and positions are told by their numbers, blocks by their ids, loads in dm and costs in cost units.
#[derive(Clone, Copy, Debug, PartialEq, Eq, Drop)]
pub enum Finding {
    /// The unit is in no block.
    UnitBare(u16),
    /// The unit is in two or more blocks.
    UnitTwice(u16),
    /// The position is in no block.
    PlaceBare(u16),
    /// The position is in two or more blocks.
    PlaceTwice(u16),
    /// A pair of the block has two types, or its track doesn't permit the type of one of its units.
    WrongType(u32),
    /// The block's departing train leaves before one of its units is ready.
    TooSoon(u32),
    /// The block is parked and has no way in.
    NoRouteIn(u32),
    /// The block is parked and has no way out.
    NoRouteOut(u32),
    /// Two blocks on one track cross; the first of them entered first.
    Crossing(u32, u32),
    /// Just after the block's entry the lengths on its track add up to this load, which is above the track's length.
    TooLong(u32, u64),
    /// The cost that the plan states, and its real cost, which differ.
    StatedCost(u64, u64),
}

/// The findings of a plan in their order, and its real cost.
#[derive(Debug, Drop)]
pub struct Audit {
    /// By kind, and then by the numbers that they carry.
    pub findings: Items<Finding>,
    /// In cost units.
    pub cost: u64,
}
