// Better numbers of a case with stacks by an ascent, in which the values of units change too.
use crate::changes::{Changes, farthest, free_positions, free_units, longest, slots_of, step_of};
use crate::climbs::{Pace, Valued, highest};
use crate::fillings::Next;
use crate::gains::Gains;
use crate::numbers::Number;
use crate::places::Place;
use crate::points::{Fixed, Span, Values};
use crate::whole_numbers::{are_lengths_whole, round, round_lengths, rounded};
use std::alloc::{AllocError, Global};
use std::num::Wrapping;

// By how many thousandths of a grain a value has to rise for its ascent to go on as at first. The end of one is long and brings next to nothing.
const LITTLE: i64 = 100;

/// A case with stacks at a place, whose numbers let it hold, and its sum.
#[derive(Drop)]
pub(crate) struct Held {
    pub case: Fixed,
    pub sum: Number,
}

/// Where an ascent goes: what it raises, which numbers change, how far it goes at first, which counts in grains, and when it ends.
#[derive(Clone, Copy)]
pub(crate) struct Lift<'n> {
    /// The blocks that may come next, of whose sums the least is raised; the sum at the place is where there are none.
    pub nexts: &'n [Next],
    /// Whether the prices of length change too, which are coarse once they are whole.
    pub lengths: bool,
    pub multiplier: bool,
    pub step: i64,
    /// How many evaluations it takes at most, and about how much work.
    pub most: usize,
    pub work: u64,
    pub goal: Number,
}

/// What is raised of a case with stacks as a value of the numbers that change.
#[derive(Drop)]
struct Stacked<'s> {
    place: &'s Place,
    span: Span,
    nexts: &'s [Next],
    changes: Changes,
    values: Values,
    gains: &'s mut Gains,
}

impl<'s> Valued for Stacked<'s> {
    fn value(&mut self, numbers: &[Number], slope: &mut [Number]) -> Result<Number, AllocError> {
        let place = self.place;
        write(place, &self.changes, numbers, &mut self.values);
        let value = self
            .gains
            .evaluate(place, self.span, &self.values, self.nexts)?;
        self.changes
            .read_slopes(&place.scene, &self.gains.slopes, numbers, slope);
        Ok(value)
    }

    fn spend(&mut self, more: u64) -> u64 {
        self.gains.spend(more)
    }
}

// Writes numbers over those of a case.
fn write(place: &Place, changes: &Changes, numbers: &[Number], values: &mut Values) {
    let Values { alpha, point } = values;
    changes.write(&place.scene, numbers, alpha, point);
}

// The numbers that an ascent changes.
fn changes_of(alloc: Global, place: &Place, lift: &Lift<'_>) -> Result<Changes, AllocError> {
    let scene = &place.scene;
    Ok(Changes {
        units: free_units(alloc, scene)?,
        positions: free_positions(alloc, scene)?,
        slots: slots_of(alloc, scene, lift.lengths)?,
        multiplier: lift.multiplier,
    })
}

// How many evaluations an ascent takes at most: with prices of length that are whole it only has to make up for that.
fn most_of(lift: &Lift<'_>, size: usize) -> usize {
    if lift.lengths {
        return lift.most;
    }
    size.saturating_mul(2).saturating_add(100).min(lift.most)
}

fn pace_of(place: &Place, lift: &Lift<'_>, size: usize) -> Pace {
    Pace {
        step: step_of(&place.scene, lift.step),
        longest: longest(&place.scene),
        farthest: farthest(&place.scene),
        most: most_of(lift, size),
        work: lift.work,
        goal: lift.goal,
        patience: (size / 2).saturating_add(60),
        little: Wrapping(step_of(&place.scene, LITTLE)),
    }
}

/// A case with these numbers, which are made whole, and values of units that are lowered so that it holds. Err is want of memory.
pub(crate) fn hold(
    place: &Place,
    span: Span,
    values: Values,
    gains: &mut Gains,
) -> Result<Held, AllocError> {
    let mut values = values;
    for alpha in &mut values.alpha {
        *alpha = rounded(*alpha);
    }
    round(&mut values.point);
    gains.sum(place, span, &values, &[])?;
    gains.lower(&place.scene, &mut values.alpha);
    let sum = gains.sum(place, span, &values, &[])?;
    Ok(Held {
        case: Fixed { span, values },
        sum,
    })
}

// What is raised of a case.
fn value_of(
    place: &Place,
    nexts: &[Next],
    held: &Held,
    gains: &mut Gains,
) -> Result<Number, AllocError> {
    if nexts.is_empty() {
        return Ok(held.sum);
    }
    gains.evaluate(place, held.case.span, &held.case.values, nexts)
}

// The best numbers that an ascent from some finds.
fn raised(
    alloc: Global,
    place: &Place,
    span: Span,
    lift: Lift<'_>,
    start: Values,
    gains: &mut Gains,
) -> Result<Values, AllocError> {
    let changes = changes_of(alloc, place, &lift)?;
    let numbers = changes.numbers(alloc, &place.scene, &start.alpha, &start.point)?;
    let pace = pace_of(place, &lift, numbers.len());
    let mut stacked = Stacked {
        place,
        span,
        nexts: lift.nexts,
        changes,
        values: start,
        gains,
    };
    let peak = highest(alloc, &mut stacked, numbers, pace)?;
    let Stacked {
        changes,
        values,
        ..
    } = stacked;
    let mut best = values;
    write(place, &changes, &peak.numbers, &mut best);
    Ok(best)
}

// Numbers near some whose prices of length are whole, and whose other numbers have ascended since to make up for that.
fn settled(
    alloc: Global,
    place: &Place,
    span: Span,
    lift: Lift<'_>,
    values: Values,
    gains: &mut Gains,
) -> Result<Values, AllocError> {
    if are_lengths_whole(&place.scene, &values.point) {
        return Ok(values);
    }
    let mut near = values;
    round_lengths(&place.scene, &mut near.point);
    let rest = Lift {
        lengths: false,
        step: lift.step / 4,
        most: lift.most / 2,
        work: lift.work / 2,
        ..lift
    };
    raised(alloc, place, span, rest, near, gains)
}

/// The best case that an ascent from one finds, which is that one where none is better. Err is want of memory.
pub(crate) fn lifted(
    alloc: Global,
    place: &Place,
    lift: Lift<'_>,
    start: Held,
    gains: &mut Gains,
) -> Result<Held, AllocError> {
    let before = value_of(place, lift.nexts, &start, gains)?;
    if before >= lift.goal {
        return Ok(start);
    }
    let span = start.case.span;
    let values = start.case.values.copied(alloc)?;
    let high = raised(alloc, place, span, lift, values, gains)?;
    let best = settled(alloc, place, span, lift, high, gains)?;
    let found = hold(place, span, best, gains)?;
    if value_of(place, lift.nexts, &found, gains)? > before {
        return Ok(found);
    }
    Ok(start)
}
