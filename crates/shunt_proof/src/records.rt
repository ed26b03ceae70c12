// Nodes and certificates.
use shunt_base::{Cases, DepId};
use shunt_blocks::Park;
use shunt_lists::Items;

/// What a node adds to its parent's path: a block that begins at the path's next unit, which isn't said again.
#[derive(Clone, Copy, Debug, PartialEq, Eq, Drop)]
pub struct Choice {
    /// How many units it has, from 1 to 8 in a file.
    pub n: u8,
    pub dep: DepId,
    /// The place of its first position in the departing train, from 1 to 8 in a file.
    pub q: u8,
    pub park: Option<Park>,
}

/// What a node shows a bound by.
#[derive(Clone, Copy, Debug, PartialEq, Eq, Drop)]
pub enum NodeKind {
    /// By its children, and by its duals for the choices that it doesn't list.
    Branch,
    /// By its duals alone.
    Leaf,
    /// By the cost of its path, which covers all units.
    Whole,
}

/// The duals of a node.
#[derive(Debug, Drop)]
pub enum NodeDuals {
    /// Those of its parent.
    Same,
    /// Its own.
    New(Cases),
    /// None, as a whole path needs none.
    Bare,
}

/// A path of a certificate, told by what it adds to its parent's.
#[derive(Debug, Drop)]
pub struct Node {
    /// How many nodes stand above it, from 0 to 160 in a file.
    pub depth: u8,
    /// None for the root alone, whose path is the pins.
    pub choice: Option<Choice>,
    pub kind: NodeKind,
    pub duals: NodeDuals,
}

/// What the cases of nodes are asked for, and what they bound.
#[derive(Clone, Copy, Debug, PartialEq, Eq, Drop)]
pub enum Version {
    /// Version 1: all options, and prices alone.
    Prices,
    /// Version 2: nothing of options that come and go by one side, and less what such blocks gain at most.
    Stacks,
}

/// A tree of nodes in pre-order, the cost of a plan, and the bound that the tree shows.
#[derive(Debug, Drop)]
pub struct Certificate {
    pub version: Version,
    /// From 1 to 5,000 in a file.
    pub nodes: Items<Node>,
    /// In cost units, from 0 to 10^12 in a file.
    pub cost: u64,
    /// In cost units, from 0 to 10^12 in a file.
    pub bound: u64,
}
