// Two cases by the number of unparked blocks, where they bound more than one.
use crate::ascent::{Ascent, ascend};
use crate::drafts::FIRST;
use crate::numbers::{Number, ONE};
use crate::points::{Point, Span};
use crate::scenes::Scene;
use crate::valuation::Work;
use crate::whole_numbers::{Found, settle};
use std::alloc::{AllocError, Global};
use std::num::Wrapping;

/// By how much two cases have to bound more than one, in thousandths of a grain.
const CLOSE: Number = Wrapping(500 * ONE);

/// One case, or two of which the first speaks of fewer unparked blocks.
#[derive(Drop)]
pub(crate) struct Parted {
    pub first: Option<Found>,
    pub last: Found,
}

/// An ascent of the values of positions alone, for a scene with that many units.
pub(crate) fn values_alone(units: usize) -> Ascent {
    Ascent {
        lengths: false,
        multiplier: false,
        step: 300,
        most: units.saturating_mul(2).saturating_add(60),
        goal: Wrapping(i64::MAX),
    }
}

/// The sum from which on a case bounds as much as a plan costs.
pub(crate) fn goal_for(cost: u64) -> Number {
    let cost = Wrapping(i64::try_from(cost).unwrap_or(0));
    (Wrapping(1000) * (cost - Wrapping(1)) + Wrapping(1)) * Wrapping(ONE)
}

// A case of some numbers of unparked blocks, from the one that speaks of all, with a multiplier to begin with.
fn part(
    alloc: Global,
    scene: &Scene,
    span: Span,
    one: &Point,
    multiplier: Number,
    goal: Number,
    work: &mut Work,
) -> Result<Found, AllocError> {
    let mut start = one.copied(alloc)?;
    start.multiplier = multiplier;
    let ascent = Ascent {
        multiplier: true,
        goal,
        ..FIRST
    };
    let (point, _) = ascend(alloc, scene, span, ascent, &start, work)?;
    let ascent = Ascent {
        multiplier: true,
        goal,
        ..values_alone(scene.stands.len())
    };
    settle(alloc, scene, span, ascent, point, work)
}

// The cases below a number of unparked blocks and from it on.
fn two(
    alloc: Global,
    scene: &Scene,
    one: &Point,
    many: u8,
    goal: Number,
    work: &mut Work,
) -> Result<(Found, Found), AllocError> {
    let multiplier = scene.most_of_unparked();
    let few = Span::below(many);
    let first = part(alloc, scene, few, one, multiplier, goal, work)?;
    let rest = Span::at_least(many);
    let last = part(alloc, scene, rest, one, -multiplier, goal, work)?;
    Ok((first, last))
}

// The number at which to part next, where one of the cases bounds too little to be worth it.
fn next_number(many: u8, first: Number, last: Number, little: Number) -> u8 {
    if first <= little {
        many.saturating_sub(1)
    } else if last <= little {
        many.saturating_add(1)
    } else {
        many
    }
}

/// The cases of a scene, parted near the number of a plan's unparked blocks, from the one case that speaks of all. Sums at the goal are
/// enough. Err is want of memory.
pub(crate) fn part_cases(
    alloc: Global,
    scene: &Scene,
    one: Found,
    unparked: u8,
    goal: Number,
    work: &mut Work,
) -> Result<Parted, AllocError> {
    let point = one.point.copied(alloc)?;
    let alone = one.sum;
    let little = alone + CLOSE * Wrapping(scene.grain);
    let mut least = little;
    let mut many = unparked.max(1);
    let mut best = Parted {
        first: None,
        last: one,
    };
    let mut seen = vec![in alloc; false; 161]?;
    'numbers: for _ in 0..161 {
        if alone >= goal || many < 1 || seen.get(many as usize).copied().unwrap_or(true) {
            return Ok(best);
        }
        mark(&mut seen, many);
        let (first, last) = two(alloc, scene, &point, many, goal, work)?;
        many = next_number(many, first.sum, last.sum, little);
        if first.sum.min(last.sum) > least {
            least = first.sum.min(last.sum);
            best = Parted {
                first: Some(first),
                last,
            };
        }
    }
    Ok(best)
}

fn mark(seen: &mut [bool], many: u8) {
    if let Some(old) = seen.get_mut(many as usize) {
        *old = true;
    }
}
