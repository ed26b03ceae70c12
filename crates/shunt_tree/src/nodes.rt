// The nodes of a tree while it grows.
use shunt_ascent::Fixed;
use shunt_blocks::Block;
use std::alloc::{AllocError, Global};

/// What the cases come to at a path, in thousandths of a cost unit. If there is one case the first sum is the greatest number.
#[derive(Clone, Copy, Drop)]
pub(crate) struct Sums {
    pub first: i64,
    pub last: i64,
}

/// A block that may come next and isn't listed, with the bound and the sums of the longer path.
#[derive(Clone, Copy)]
pub(crate) struct Open {
    pub block: Block,
    pub bound: i64,
    pub sums: Sums,
    /// Its number among those that go through.
    pub place: usize,
}

/// Cases at a node: one, or two of which the first speaks of fewer unparked blocks.
#[derive(Clone, Copy)]
pub(crate) struct CasePair<'a> {
    pub first: Option<&'a Fixed>,
    pub last: &'a Fixed,
}

/// Which case of a node: the first of two, or the one that is the only one or the last.
#[derive(Clone, Copy)]
pub(crate) enum Which {
    First,
    Last,
}

/// What cases come to at a path; choices of a range there that bound little, the least last, with the least bound of all, which is at most the
/// cost, and that of those that weren't kept, which is the greatest number where there are none.
#[derive(Drop)]
pub(crate) struct Opened {
    pub sums: Sums,
    pub choices: Vec<Open>,
    pub least: i64,
    pub beyond: i64,
}

/// A partial plan, or a whole one.
#[derive(Drop)]
pub(crate) struct TreeNode {
    pub above: usize,
    pub depth: usize,
    /// How many units are uncovered, and what its blocks cost.
    pub units_left: usize,
    pub paid: i64,
    pub block: Option<Block>,
    pub bound: i64,
    /// Cases of its own, which were lifted but for the root's first ones; it has those of the nearest nodes above beside.
    pub first: Option<Fixed>,
    pub last: Option<Fixed>,
    pub is_lifted: bool,
    pub sums: Sums,
    /// The least bound of the blocks that may come next and aren't listed.
    pub key: i64,
    /// The least bound of its choices by the inherited cases.
    pub inherited: i64,
    /// Whether its next choices are found; those that aren't listed, the least bound last; and the least bound of those that were found and not
    /// kept, which is the greatest number where there are none.
    pub is_open: bool,
    pub choices: Vec<Open>,
    pub beyond: i64,
    pub children: Vec<usize>,
    /// The last bound of the level at which its cases were tried to lift.
    pub tried: i64,
    /// Its part of the work that is left at the level.
    pub share: u64,
}

/// A bound in whole cost units.
pub(crate) fn up(sum: i64) -> i64 {
    let whole = sum / 1000;
    if sum % 1000 > 0 {
        whole.saturating_add(1)
    } else {
        whole
    }
}

impl Sums {
    /// The least bound by these sums, where the first case is open or isn't.
    pub(crate) fn bound(&self, first_is_open: bool) -> i64 {
        let last = up(self.last);
        if first_is_open {
            last.min(up(self.first))
        } else {
            last
        }
    }
}

impl TreeNode {
    /// A root, where cases come to some sums.
    pub(crate) fn root(alloc: Global, units_left: usize, paid: i64, sums: Sums) -> TreeNode {
        TreeNode {
            above: 0,
            depth: 0,
            units_left,
            paid,
            block: None,
            bound: i64::MIN,
            first: None,
            last: None,
            is_lifted: false,
            sums,
            key: sums.bound(true),
            inherited: i64::MIN,
            is_open: false,
            choices: Vec::new(alloc),
            beyond: i64::MIN,
            children: Vec::new(alloc),
            tried: i64::MIN,
            share: 0,
        }
    }

    /// The node of a choice at this one, which is at a place, with a share of the work. The block costs so much.
    pub(crate) fn below(
        &self,
        alloc: Global,
        place: usize,
        open: &Open,
        cost: i64,
        share: u64,
    ) -> TreeNode {
        TreeNode {
            above: place,
            depth: self.depth.saturating_add(1),
            units_left: self.units_left.saturating_sub(open.block.n as usize),
            paid: self.paid.saturating_add(cost),
            block: Some(open.block),
            bound: open.bound,
            first: None,
            last: None,
            is_lifted: false,
            sums: open.sums,
            key: open.bound,
            inherited: open.bound,
            is_open: false,
            choices: Vec::new(alloc),
            beyond: i64::MIN,
            children: Vec::new(alloc),
            tried: i64::MIN,
            share,
        }
    }

    // A case of its own.
    fn own(&self, which: Which) -> Option<&Fixed> {
        match which {
            Which::First => self.first.as_ref(),
            Which::Last => self.last.as_ref(),
        }
    }

    /// Its next choices are found. The first ones, which no case of its own bounds yet, say what the inherited cases bound.
    pub(crate) fn open(&mut self, opened: Opened) {
        self.key = self.key.max(opened.least);
        if self.children.is_empty() {
            self.inherited = self.key;
        }
        self.sums = opened.sums;
        self.choices = opened.choices;
        self.beyond = opened.beyond;
        self.is_open = true;
    }

    /// Choices that weren't listed are left. If there are none, those beyond have to be found.
    pub(crate) fn leave(&mut self, choices: Vec<Open>) {
        if let Some(open) = choices.last() {
            self.key = open.bound;
        } else {
            self.key = self.beyond;
            self.is_open = false;
        }
        self.choices = choices;
    }
}

// A case at a node, its own or that of the nearest node above that has one.
pub(crate) fn case_at(nodes: &[TreeNode], place: usize, which: Which) -> Option<&Fixed> {
    let mut at = place;
    for _ in 0..nodes.len() {
        let node = nodes.get(at)?;
        if let Some(case) = node.own(which) {
            return Some(case);
        }
        if node.block.is_none() {
            return None;
        }
        at = node.above;
    }
    None
}

/// The cases at a node. Each is its own or that of the nearest node above that has one.
pub(crate) fn cases_at(nodes: &[TreeNode], place: usize) -> Option<CasePair<'_>> {
    Some(CasePair {
        first: case_at(nodes, place, Which::First),
        last: case_at(nodes, place, Which::Last)?,
    })
}

/// The blocks of a node's path, behind those of the root's.
pub(crate) fn path_to(
    alloc: Global,
    start: &[Block],
    nodes: &[TreeNode],
    place: usize,
) -> Result<Vec<Block>, AllocError> {
    let back = way_up(alloc, nodes, place)?;
    let mut blocks = Vec::from_slice(alloc, start)?;
    for block in back.iter().rev() {
        blocks.push(*block)?;
    }
    Ok(blocks)
}

// The blocks of a node and of those above, from it on.
fn way_up(alloc: Global, nodes: &[TreeNode], place: usize) -> Result<Vec<Block>, AllocError> {
    let mut blocks = Vec::new(alloc);
    let mut at = place;
    for _ in 0..nodes.len() {
        let Some(node) = nodes.get(at) else {
            return Ok(blocks);
        };
        let Some(block) = node.block else {
            return Ok(blocks);
        };
        blocks.push(block)?;
        at = node.above;
    }
    Ok(blocks)
}
