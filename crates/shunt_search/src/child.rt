// A choice at a path, as a child of its node.

use shunt_blocks::Block;

/// A block that may come next, and the bound of the path with it.
#[derive(Clone, Copy)]
pub struct Child {
    pub block: Block,
    pub bound: i64,
}
