// The work at a level of a tree: at a bound, or at some that follow each other.

/// All work at a level, which the nodes that wait there share.
const WHOLE_WORK: u64 = 1 << 40;

/// How many nodes a level takes at least before it is given up.
const PATIENCE: u64 = 300;

/// The work at a level, of whose bounds this is the last: how many nodes it took, what share of it is done, and whether its nodes aren't lifted
/// any more.
#[derive(Clone, Copy, Drop)]
pub(crate) struct NodeLevel {
    pub last: i64,
    nodes: u64,
    done: u64,
    pub given_up: bool,
}

/// What each of that many nodes gets of all work at a level.
pub(crate) fn share_of(nodes: u64) -> u64 {
    WHOLE_WORK / nodes.max(1)
}

impl NodeLevel {
    /// The work at a level up to a bound, of which nothing is done.
    pub(crate) fn up_to(last: i64) -> NodeLevel {
        NodeLevel {
            last,
            nodes: 0,
            done: 0,
            given_up: false,
        }
    }

    /// One node more was taken.
    pub(crate) fn take_node(&mut self) {
        self.nodes = self.nodes.saturating_add(1);
    }

    /// A share is done.
    pub(crate) fn finish(&mut self, share: u64) {
        self.done = self.done.saturating_add(share);
    }

    /// Gives the level up where by the share that is done it takes more nodes in all than it took and three times those that are left.
    /// The share tells little at first, and more the fewer are left.
    pub(crate) fn judge(&mut self, left: usize) {
        let work = self.nodes.saturating_mul(WHOLE_WORK);
        let nodes = self.nodes.saturating_add((left as u64).saturating_mul(3));
        if self.nodes >= PATIENCE && work > self.done.saturating_mul(nodes) {
            self.given_up = true;
        }
    }
}
