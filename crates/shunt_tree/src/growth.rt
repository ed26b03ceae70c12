// A tree of partial plans, best first: the node whose bound is least grows next.
use crate::grounds::Ground;
use crate::levels::{NodeLevel, share_of};
use crate::lifts::{Aim, Lifted, lift};
use crate::nodes::{CasePair, Open, Opened, Sums, TreeNode, Which, case_at, path_to};
use crate::open_choices::{Range, choices_at, count_up_to, open_by};
use shunt_ascent::{Choice, Fixed, Raised, grain};
use shunt_blocks::{Block, block_cost, in_range};
use shunt_instance::Instance;
use std::alloc::{AllocError, Global};
use std::cmp::Reverse;
use std::collections::BinaryHeap;
use std::mem;

/// A node that waits. The greatest comes first: the one with the least key, of these the deepest, and of these the oldest.
#[derive(Clone, Copy, PartialEq, Eq, PartialOrd, Ord, Drop)]
struct Waiting {
    key: Reverse<i64>,
    depth: usize,
    place: Reverse<usize>,
}

/// How many nodes get cases of their own at most where there is one case, so that there are no more than 8,000 with the root's.
const OWNERS: usize = 7_996;

/// A tree while it grows.
#[derive(Drop)]
pub(crate) struct Tree {
    start: Vec<Block>,
    ground: Ground,
    pub nodes: Vec<TreeNode>,
    queue: BinaryHeap<Waiting>,
    /// What the best plan that is known costs.
    pub cost: i64,
    /// The whole node that is that plan, where the tree found it.
    pub best: Option<usize>,
    // How many nodes bound less than that.
    lean: usize,
    level: NodeLevel,
    // How many bounds a level has, in cost units.
    grain: i64,
    // How many nodes have cases of their own, and may have.
    owners: usize,
    most_owners: usize,
}

// What a block costs, and nothing where it isn't in range.
fn cost_of(instance: &Instance, block: &Block) -> i64 {
    if !in_range(instance, block) {
        return 0;
    }
    i64::try_from(block_cost(instance, block)).unwrap_or(0)
}

fn cost_of_all(instance: &Instance, blocks: &[Block]) -> i64 {
    let mut cost = 0i64;
    for block in blocks {
        cost = cost.saturating_add(cost_of(instance, block));
    }
    cost
}

// How many of these bound less than a cost.
fn count_below(nodes: &[TreeNode], cost: i64) -> usize {
    let mut count = 0usize;
    for node in nodes {
        if node.bound < cost {
            count = count.saturating_add(1);
        }
    }
    count
}

// How many of those that wait have no greater key.
fn waiting_at(queue: &BinaryHeap<Waiting>, key: i64) -> u64 {
    let mut count = 0u64;
    for waiting in queue {
        if waiting.key.0 <= key {
            count = count.saturating_add(1);
        }
    }
    count
}

impl Tree {
    /// A tree that is its root, whose blocks are these. Err is want of memory.
    pub(crate) fn new(
        alloc: Global,
        instance: &Instance,
        ground: Ground,
        start: &[Block],
        first: Option<Raised>,
        last: Raised,
        cost: i64,
    ) -> Result<Tree, AllocError> {
        let most_owners = if first.is_some() { OWNERS / 2 } else { OWNERS };
        let sums = Sums {
            first: match &first {
                Some(first) => first.sum,
                None => i64::MAX,
            },
            last: last.sum,
        };
        let paid = cost_of_all(instance, start);
        let mut root = TreeNode::root(alloc, ground.units_left(), paid, sums);
        put_case(&mut root.first, first);
        root.last = Some(last.case);
        let mut tree = Tree {
            start: Vec::from_slice(alloc, start)?,
            ground,
            nodes: Vec::new(alloc),
            queue: BinaryHeap::new(alloc),
            cost,
            best: None,
            lean: 1,
            level: NodeLevel::up_to(i64::MIN),
            grain: i64::from(grain(alloc, instance)?),
            owners: 0,
            most_owners,
        };
        tree.nodes.push(root)?;
        tree.put_back(alloc, 0)?;
        Ok(tree)
    }

    // A node that bounds less than the best plan costs waits; another's choices aren't needed any more.
    fn put_back(&mut self, alloc: Global, place: usize) -> Result<(), AllocError> {
        let Some(node) = self.nodes.get_mut(place) else {
            return Ok(());
        };
        if node.key < self.cost {
            self.queue.push(Waiting {
                key: Reverse(node.key),
                depth: node.depth,
                place: Reverse(place),
            })?;
        } else {
            node.choices = Vec::new(alloc);
        }
        Ok(())
    }

    // The choices at a node that go through, once the ground is there.
    fn choices(
        &mut self,
        alloc: Global,
        instance: &Instance,
        place: usize,
    ) -> Result<Vec<Choice>, AllocError> {
        let blocks = path_to(alloc, &self.start, &self.nodes, place)?;
        choices_at(alloc, instance, &mut self.ground, &blocks)
    }

    // Finds the next choices of a node by the cases that it has.
    fn open(&mut self, alloc: Global, instance: &Instance, place: usize) -> Result<(), AllocError> {
        let found = self.choices(alloc, instance, place)?;
        let Some(last) = case_at(&self.nodes, place, Which::Last) else {
            return Ok(());
        };
        let Some(node) = self.nodes.get(place) else {
            return Ok(());
        };
        let cases = CasePair {
            first: case_at(&self.nodes, place, Which::First),
            last,
        };
        let range = Range {
            from: node.beyond,
            cost: self.cost,
            grain: self.grain,
        };
        let opened = open_by(alloc, &mut self.ground, &found, &cases, node.sums, range)?;
        if let Some(node) = self.nodes.get_mut(place) {
            node.open(opened);
        }
        Ok(())
    }

    // Cases of a node that are to bound all its choices above its key, and what they open, where the least bound rises.
    fn lifted(
        &mut self,
        alloc: Global,
        instance: &Instance,
        place: usize,
        key: i64,
    ) -> Result<Option<(Lifted, Opened)>, AllocError> {
        let found = self.choices(alloc, instance, place)?;
        let Some(last) = case_at(&self.nodes, place, Which::Last) else {
            return Ok(None);
        };
        let Some(node) = self.nodes.get(place) else {
            return Ok(None);
        };
        let cases = CasePair {
            first: case_at(&self.nodes, place, Which::First),
            last,
        };
        let aim = Aim {
            key,
            cost: self.cost,
            depth: node.depth,
            grain: self.grain,
        };
        let range = Range {
            from: i64::MIN,
            cost: self.cost,
            grain: self.grain,
        };
        let lifted = lift(alloc, &mut self.ground, &found, &cases, node.sums, &aim)?;
        let sums = lifted.sums(node.sums);
        let opened = open_by(
            alloc,
            &mut self.ground,
            &found,
            &lifted.over(&cases),
            sums,
            range,
        )?;
        if opened.least > node.key {
            return Ok(Some((lifted, opened)));
        }
        Ok(None)
    }

    // Whether a node may have cases of its own.
    fn may_own(&self, place: usize) -> bool {
        match self.nodes.get(place) {
            Some(node) => node.is_lifted || self.owners < self.most_owners,
            None => false,
        }
    }

    // Looks for cases of a node that bound all its choices above its key, and takes them where its least bound rises.
    fn lift(
        &mut self,
        alloc: Global,
        instance: &Instance,
        place: usize,
        key: i64,
    ) -> Result<(), AllocError> {
        let last = self.last_of(key);
        if let Some(node) = self.nodes.get_mut(place) {
            node.tried = last;
        }
        if !self.may_own(place) {
            return Ok(());
        }
        let Some((lifted, opened)) = self.lifted(alloc, instance, place, key)? else {
            return Ok(());
        };
        if let Some(node) = self.nodes.get_mut(place) {
            if !node.is_lifted {
                self.owners = self.owners.saturating_add(1);
            }
            take_over(node, lifted, opened);
        }
        Ok(())
    }

    // A new node waits, or is a whole plan.
    fn arrive(&mut self, alloc: Global, child: usize) -> Result<(), AllocError> {
        let Some(node) = self.nodes.get(child) else {
            return Ok(());
        };
        if node.units_left > 0 {
            return self.put_back(alloc, child);
        }
        self.level.finish(node.share);
        if node.paid < self.cost {
            self.cost = node.paid;
            self.best = Some(child);
            self.lean = count_below(&self.nodes, self.cost);
        }
        Ok(())
    }

    // Lists a choice of a node.
    fn add_child(
        &mut self,
        alloc: Global,
        instance: &Instance,
        place: usize,
        open: &Open,
        share: u64,
    ) -> Result<(), AllocError> {
        let child = self.nodes.len();
        let cost = cost_of(instance, &open.block);
        let Some(node) = self.nodes.get_mut(place) else {
            return Ok(());
        };
        node.children.push(child)?;
        let below = node.below(alloc, place, open, cost, share);
        self.nodes.push(below)?;
        self.level.take_node();
        if open.bound < self.cost {
            self.lean = self.lean.saturating_add(1);
        }
        self.arrive(alloc, child)
    }

    // Lists those of a node's choices that bound no more than its key, while there are nodes left.
    fn list_some(
        &mut self,
        alloc: Global,
        instance: &Instance,
        place: usize,
        key: i64,
        choices: &mut Vec<Open>,
        most: usize,
    ) -> Result<(), AllocError> {
        let count = count_up_to(choices, key);
        let share = match self.nodes.get(place) {
            Some(node) => node.share / (count.max(1) as u64),
            None => 0,
        };
        for _ in 0..count {
            if self.lean >= most {
                return Ok(());
            }
            if let Some(open) = choices.pop() {
                self.add_child(alloc, instance, place, &open, share)?;
            }
        }
        Ok(())
    }

    fn list(
        &mut self,
        alloc: Global,
        instance: &Instance,
        place: usize,
        key: i64,
        most: usize,
    ) -> Result<(), AllocError> {
        let Some(node) = self.nodes.get_mut(place) else {
            return Ok(());
        };
        let mut choices = mem::replace(&mut node.choices, Vec::new(alloc));
        self.list_some(alloc, instance, place, key, &mut choices, most)?;
        if let Some(node) = self.nodes.get_mut(place) {
            node.leave(choices);
        }
        Ok(())
    }

    // The last of the bounds of a level that begins with one.
    fn last_of(&self, key: i64) -> i64 {
        key.saturating_add(self.grain.saturating_sub(1))
    }

    // Begins a new level with a node: those that wait at its bounds share its work.
    fn begin_level(&mut self, key: i64, place: usize) {
        let last = self.last_of(key);
        self.level = NodeLevel::up_to(last);
        let share = share_of(waiting_at(&self.queue, last).saturating_add(1));
        for waiting in &self.queue {
            if waiting.key.0 <= last {
                give(&mut self.nodes, waiting.place.0, share);
            }
        }
        give(&mut self.nodes, place, share);
    }

    // A node with a key of the level is opened, lifted, or its choices are listed.
    fn step(
        &mut self,
        alloc: Global,
        instance: &Instance,
        place: usize,
        key: i64,
        most: usize,
    ) -> Result<(), AllocError> {
        let Some(node) = self.nodes.get(place) else {
            return Ok(());
        };
        if !node.is_open {
            self.open(alloc, instance, place)?;
        } else if node.children.is_empty() && node.tried < key && !self.level.given_up {
            self.lift(alloc, instance, place, key)?;
        } else {
            return self.list(alloc, instance, place, key, most);
        }
        self.count_done(place, key);
        Ok(())
    }

    // Counts a node's share as done, where its key is greater than it was.
    fn count_done(&mut self, place: usize, key: i64) {
        if let Some(node) = self.nodes.get(place) {
            if node.key > key {
                self.level.finish(node.share);
            }
        }
    }

    fn is_open(&self, place: usize) -> bool {
        match self.nodes.get(place) {
            Some(node) => node.is_open,
            None => true,
        }
    }

    /// Grows to that many nodes that bound less than the best plan costs, or until nothing is below the best plan. Answers the bound; Err is want of memory.
    pub(crate) fn grow(
        &mut self,
        alloc: Global,
        instance: &Instance,
        most: usize,
    ) -> Result<i64, AllocError> {
        for _ in 0..u64::MAX {
            let Some(next) = self.queue.pop() else {
                return Ok(self.cost);
            };
            let key = next.key.0;
            let place = next.place.0;
            if key >= self.cost || self.lean >= most && self.is_open(place) {
                return Ok(key.min(self.cost));
            }
            if key > self.level.last {
                self.begin_level(key, place);
            }
            self.level.judge(most.saturating_sub(self.lean));
            self.step(alloc, instance, place, key, most)?;
            self.put_back(alloc, place)?;
        }
        Ok(self.cost)
    }

    /// The ground on which it grows.
    pub(crate) fn ground(&self) -> &Ground {
        &self.ground
    }

    /// The cheaper plan that was found, and nothing where none was. Err is want of memory.
    pub(crate) fn plan(&self, alloc: Global) -> Result<Vec<Block>, AllocError> {
        match self.best {
            Some(best) => path_to(alloc, &self.start, &self.nodes, best),
            None => Ok(Vec::new(alloc)),
        }
    }
}

// Gives a node its share of the work.
fn give(nodes: &mut [TreeNode], place: usize, share: u64) {
    if let Some(node) = nodes.get_mut(place) {
        node.share = share;
    }
}

// Puts a case that was lifted in another's place, where one was.
fn put_case(old: &mut Option<Fixed>, raised: Option<Raised>) {
    if let Some(raised) = raised {
        *old = Some(raised.case);
    }
}

// Gives a node cases of its own.
fn take_over(node: &mut TreeNode, lifted: Lifted, opened: Opened) {
    let Lifted { first, last } = lifted;
    let Opened {
        sums,
        choices,
        least,
        beyond,
    } = opened;
    put_case(&mut node.first, first);
    put_case(&mut node.last, last);
    node.is_lifted = true;
    node.sums = sums;
    node.key = least;
    node.choices = choices;
    node.beyond = beyond;
}
