// What the checker answers.
use shunt_blocks::Block;
use shunt_proof::Choice;

/// What is wrong with a plan.
#[derive(Clone, Copy, Debug, PartialEq, Eq, Drop)]
pub enum PlanFault {
    /// The block with this id isn't a shape with one of its options.
    BadBlock { id: u32 },
    /// The unit with this number isn't in exactly one block.
    Unit { unit: u16 },
    /// The position with this number isn't in exactly one block.
    Place { position: u16 },
    /// The block with this id isn't at its side when it leaves.
    Blocked { id: u32 },
    /// The entry of the block with this id would leave this load, in dm, which is more than its track's length.
    Over { id: u32, load: u64 },
    /// The plan states another cost than its own, both in cost units.
    Cost { stated: u64, real: u64 },
}

/// Why a certificate isn't accepted with a plan. Bounds and costs are in cost units, but for those of broken duals.
#[derive(Clone, Copy, Debug, PartialEq, Eq, Drop)]
pub enum Reason {
    /// The plan isn't feasible, or states another cost.
    PlanFinding(PlanFault),
    /// The duals don't hold: this block, with id 0, weighs less in a case than its duals, both in thousandths of a cost unit.
    DualBroken { block: Block, cost: i64, sum: i64 },
    /// The bound of a leaf is below the certificate's.
    LeafLow { bound: i64, stated: i64 },
    /// A whole path costs less than the certificate's bound.
    WholeLow { cost: i64, stated: i64 },
    /// A branch doesn't list this choice, which gives a partial plan with a bound below the certificate's.
    ChildMissing { choice: Choice, bound: i64 },
    /// The choice isn't one at the parent's path, or gives no partial plan.
    ChildNotThere { choice: Choice },
    /// An earlier child of the same parent has this choice.
    ChildTwice { choice: Choice },
    /// The certificate's cost isn't the plan's.
    CostStated { stated: i64, cost: i64 },
    /// A whole path where a unit is uncovered, or another node where none is.
    WrongKind,
    /// The bound of the path by its parent's duals isn't below the least cost that is known before it.
    ChildNotLean { bound: i64, best: i64 },
}

/// What the checker says of a certificate.
#[derive(Clone, Copy, Debug, PartialEq, Eq, Drop)]
pub enum Verdict {
    /// It proves this bound, in cost units.
    Accepted { bound: u64 },
    /// The first reason why it isn't accepted, and its row: 0 for the plan, else the number of the node's record or of the last
    /// record in the certificate's text, from 1.
    Rejected { row: u32, reason: Reason },
}
