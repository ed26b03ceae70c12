// Cases of a node that are to bound all its choices above its key.
use crate::grounds::Ground;
use crate::nodes::{CasePair, Sums, up};
use crate::open_choices::unparked_with;
use shunt_ascent::{Choice, Fixed, Raise, Raised};
use std::alloc::{AllocError, Global};

/// How far above a node's key its cases are lifted, in grains.
const ABOVE: i64 = 4;

/// Cases of a node after they were tried to lift; None where one wasn't.
#[derive(Drop)]
pub(crate) struct Lifted {
    pub first: Option<Raised>,
    pub last: Option<Raised>,
}

/// What cases are lifted to.
#[derive(Clone, Copy)]
pub(crate) struct Aim {
    /// The key of the node.
    pub key: i64,
    /// What the best plan that is known costs.
    pub cost: i64,
    pub depth: usize,
    /// What the constants of a search count in, in cost units.
    pub grain: i64,
}

impl Aim {
    // The greatest bound that cases are lifted to.
    fn highest(&self) -> i64 {
        self.key.saturating_add(ABOVE.saturating_mul(self.grain))
    }

    fn raise(&self, two: bool) -> Raise {
        let bound = self.highest().min(self.cost.saturating_sub(1));
        Raise {
            goal: bound.saturating_mul(1000).saturating_add(1),
            most: if self.depth < 2 { 240 } else { 60 },
            multiplier: two,
        }
    }

    // Whether a sum is so low that its case is lifted.
    fn reaches(&self, sum: i64) -> bool {
        up(sum) <= self.highest()
    }
}

// A case that is lifted for some choices, where there are any and its sum is low.
fn lift_case(
    alloc: Global,
    ground: &mut Ground,
    choices: &[Choice],
    case: &Fixed,
    sum: i64,
    aim: &Aim,
    two: bool,
) -> Result<Option<Raised>, AllocError> {
    if choices.is_empty() || !aim.reaches(sum) {
        return Ok(None);
    }
    let raised = ground.raised(alloc, case, choices, aim.raise(two))?;
    Ok(Some(raised))
}

// The choices with which no more blocks are unparked than a case speaks of.
fn choices_within(
    alloc: Global,
    ground: &Ground,
    choices: &[Choice],
    to: u8,
) -> Result<Vec<Choice>, AllocError> {
    let mut some = Vec::new(alloc);
    for choice in choices {
        if unparked_with(ground, choice) <= i64::from(to) {
            some.push(*choice)?;
        }
    }
    Ok(some)
}

// The first case, lifted where there is one.
fn lift_first(
    alloc: Global,
    ground: &mut Ground,
    choices: &[Choice],
    cases: &CasePair<'_>,
    sum: i64,
    aim: &Aim,
) -> Result<Option<Raised>, AllocError> {
    let Some(first) = cases.first else {
        return Ok(None);
    };
    let some = choices_within(alloc, ground, choices, first.to())?;
    lift_case(alloc, ground, &some, first, sum, aim, true)
}

/// Cases at a path, from others that come to some sums there. Err is want of memory.
pub(crate) fn lift(
    alloc: Global,
    ground: &mut Ground,
    choices: &[Choice],
    cases: &CasePair<'_>,
    sums: Sums,
    aim: &Aim,
) -> Result<Lifted, AllocError> {
    let two = cases.first.is_some();
    let first = lift_first(alloc, ground, choices, cases, sums.first, aim)?;
    let last = lift_case(alloc, ground, choices, cases.last, sums.last, aim, two)?;
    Ok(Lifted { first, last })
}

// The sum of a case that was lifted, or of the one that it would take the place of.
fn sum_or(raised: &Option<Raised>, sum: i64) -> i64 {
    match raised {
        Some(raised) => raised.sum,
        None => sum,
    }
}

impl Lifted {
    /// What the cases come to, where those that weren't lifted come to these sums.
    pub(crate) fn sums(&self, sums: Sums) -> Sums {
        Sums {
            first: sum_or(&self.first, sums.first),
            last: sum_or(&self.last, sums.last),
        }
    }

    /// These in place of others.
    pub(crate) fn over<'a>(&'a self, cases: &CasePair<'a>) -> CasePair<'a> {
        CasePair {
            first: match &self.first {
                Some(raised) => Some(&raised.case),
                None => cases.first,
            },
            last: match &self.last {
                Some(raised) => &raised.case,
                None => cases.last,
            },
        }
    }
}
