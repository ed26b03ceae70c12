// The choices at a node with their bounds.
use crate::grounds::Ground;
use crate::nodes::{CasePair, Open, Opened, Sums};
use crate::occupancy::Standing;
use shunt_ascent::{Choice, Reached};
use shunt_blocks::Block;
use shunt_instance::Instance;
use std::alloc::{AllocError, Global};
use std::cmp::Reverse;

/// How far above the least bound choices are kept, in grains: the others would fill the memory, and few of them are ever listed.
const KEPT: i64 = 2;

/// What choices at a path have to bound: no less than those that aren't listed yet, and less than a plan costs.
#[derive(Clone, Copy)]
pub(crate) struct Range {
    pub from: i64,
    pub cost: i64,
    /// What the constants of a search count in, in cost units.
    pub grain: i64,
}

/// The choices at a path that go through, once the ground is there. Err is want of memory.
pub(crate) fn choices_at(
    alloc: Global,
    instance: &Instance,
    ground: &mut Ground,
    blocks: &[Block],
) -> Result<Vec<Choice>, AllocError> {
    ground.go_to(alloc, instance, blocks)?;
    let standing = Standing::of(alloc, instance, blocks)?;
    let all = ground.choices(alloc, instance)?;
    let mut found = Vec::new(alloc);
    for choice in &all {
        if standing.goes_through(instance, &choice.block) {
            found.push(*choice)?;
        }
    }
    Ok(found)
}

/// How many blocks are unparked at the path with a choice.
pub(crate) fn unparked_with(ground: &Ground, choice: &Choice) -> i64 {
    let more = if choice.block.park.is_none() { 1 } else { 0 };
    ground.unparked().saturating_add(more)
}

// What the first case comes to; the greatest number where there is one case.
fn first_sums(
    alloc: Global,
    ground: &mut Ground,
    found: &[Choice],
    cases: &CasePair<'_>,
    sums: Sums,
) -> Result<Reached, AllocError> {
    match cases.first {
        Some(first) => ground.sums(alloc, first, sums.first, found),
        None => Ok(Reached {
            sum: i64::MAX,
            longer: Vec::new(alloc),
        }),
    }
}

// What a case comes to with the choice of a number.
fn sum_with(reached: &Reached, number: usize) -> i64 {
    reached.longer.get(number).copied().unwrap_or(i64::MAX)
}

// Whether a case speaks of that many unparked blocks.
fn is_open(cases: &CasePair<'_>, unparked: i64) -> bool {
    match cases.first {
        Some(first) => unparked <= i64::from(first.to()),
        None => false,
    }
}

/// How many of these have no greater bound.
pub(crate) fn count_up_to(choices: &[Open], bound: i64) -> usize {
    let mut count = 0usize;
    for open in choices {
        if open.bound <= bound {
            count = count.saturating_add(1);
        }
    }
    count
}

/// Of choices that go through those that bound little by some cases, of a range. Err is want of memory.
pub(crate) fn open_by(
    alloc: Global,
    ground: &mut Ground,
    found: &[Choice],
    cases: &CasePair<'_>,
    sums: Sums,
    range: Range,
) -> Result<Opened, AllocError> {
    let firsts = first_sums(alloc, ground, found, cases, sums)?;
    let lasts = ground.sums(alloc, cases.last, sums.last, found)?;
    let mut opened = Opened {
        sums: Sums {
            first: firsts.sum,
            last: lasts.sum,
        },
        choices: Vec::new(alloc),
        least: range.cost,
        beyond: i64::MAX,
    };
    for (place, choice) in found.iter().enumerate() {
        let sums = Sums {
            first: sum_with(&firsts, place),
            last: sum_with(&lasts, place),
        };
        let bound = sums.bound(is_open(cases, unparked_with(ground, choice)));
        opened.offer(
            Open {
                block: choice.block,
                bound,
                sums,
                place,
            },
            range,
        )?;
    }
    opened.keep(alloc, range.grain)?;
    Ok(opened)
}

impl Opened {
    fn offer(&mut self, open: Open, range: Range) -> Result<(), AllocError> {
        if range.from <= open.bound && open.bound < range.cost {
            self.least = self.least.min(open.bound);
            self.choices.push(open)?;
        }
        Ok(())
    }

    // Keeps those that bound little, in their order.
    fn keep(&mut self, alloc: Global, grain: i64) -> Result<(), AllocError> {
        let most = self.least.saturating_add(KEPT.saturating_mul(grain));
        let mut kept = Vec::with_capacity(alloc, count_up_to(&self.choices, most))?;
        for open in &self.choices {
            if open.bound <= most {
                kept.push(*open)?;
            } else {
                self.beyond = self.beyond.min(open.bound);
            }
        }
        kept.sort_unstable_by_key(|open| (Reverse(open.bound), open.place));
        self.choices = kept;
        Ok(())
    }
}
