// What is known while a tree is searched.

use crate::known::KnownPlan;
use crate::walk_stack::Pending;
use crate::yard::Yard;

/// If a search stands: at the path of the last node, with the children that are still to be walked to, and the best plan that is
/// known.
#[derive(Drop)]
pub struct Search {
    pub yard: Yard,
    pub waiting: Vec<Pending>,
    pub known: KnownPlan,
    /// The least of what the plan costs and the bounds of the children that were passed over.
    pub low: i64,
    /// The bound of the pins by the first cases of the stock: by no others of its own the root bounds a child less.
    pub floor: i64,
    /// Whether no child is passed over.
    pub plain: bool,
    /// How many children that aren't listed become nodes before one is passed over.
    pub spare: u32,
    /// How many nodes were noted, and how many cases of their own they have.
    pub count: u32,
    pub owned: u32,
}
