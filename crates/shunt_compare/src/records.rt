// Where units go, and what another plan does otherwise.
use shunt_blocks::{Block, Park};
use shunt_lists::Items;

/// What a plan does with a unit: the number of the position that it gets, from 0, and where its block is parked, if it is.
#[derive(Clone, Copy, Debug, PartialEq, Eq, Drop)]
pub struct Placement {
    pub position: u16,
    pub park: Option<Park>,
}

/// A unit, by its number from 0, that another plan places otherwise.
#[derive(Clone, Copy, Debug, PartialEq, Eq, Drop)]
pub struct Change {
    pub unit: u16,
    pub was: Placement,
    pub now: Placement,
}

/// What another plan does otherwise: the units that it places otherwise, by their numbers, and those of its blocks whose units are no
/// block of the first plan, by their first units.
#[derive(Debug, Drop)]
pub struct Comparison {
    pub changes: Items<Change>,
    pub regrouped: Items<Block>,
}
