// Scenes: a path with what its stacks are judged by.

use crate::ends::Stack;
use shunt_blocks::Shape;
use shunt_choices::Path;
use shunt_gains::Events;
use shunt_instance::Instance;

/// A path of a night whose run goes through, with what its stacks are judged by.
#[derive(Clone, Copy, Drop)]
pub struct Scene<'a> {
    pub instance: &'a Instance,
    /// The numbers of the night's events.
    pub events: &'a Events,
    /// The stacks of the night's station, in their order.
    pub stacks: &'a [Stack],
    pub path: &'a Path,
    /// All shapes of units and positions that the path leaves uncovered.
    pub shapes: &'a [Shape],
}
