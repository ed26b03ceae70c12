// Plans.
use shunt_blocks::Block;
use shunt_lists::Items;

/// Blocks, and the cost that is stated of them.
#[derive(Debug, Drop)]
pub struct Plan {
    /// At most 400 in a file, with distinct ids, in any order.
    pub blocks: Items<Block>,
    /// In cost units, from 0 to 10^12 in a file. Whether it is the blocks' cost is no matter of the file.
    pub cost: u64,
}
