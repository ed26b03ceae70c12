// Cases with stacks at the root of a tree.
ghost use Rattle.std.specs.Prelude.{All, IfOk};
ghost use Rattle.shunt_choices.specs.defs.Paths.{IsTrailOf};
ghost use Rattle.shunt_prices.specs.defs.Limits.{AreApart, AreCases};

use crate::additions::{dearest, moved, slots_beside};
use crate::certificate_cases::cases_with;
use crate::gains::Gains;
use crate::lifts::{Held, Lift, hold, lifted};
use crate::numbers::{NOTHING, Number, ONE};
use crate::places::Place;
use crate::points::{EVERY, Fixed, Span, Values};
use crate::slots::Slot;
use crate::stated::values_of;
use shunt_base::{Case, Cases};
use shunt_choices::Path;
use shunt_instance::Instance;
use std::alloc::{AllocError, Global};
use std::num::Wrapping;

/// How often a case is evaluated in one ascent at a root.
const LONG: usize = 3_000;

/// About how much work one ascent at a root takes at most, in steps of tables, and all those with the same prices.
const WORK: u64 = 2_000_000_000;

const WORK_IN_ALL: u64 = 3_000_000_000;

/// How far the first ascent of a case goes at first, and how far the others, in which prices of length stay whole, in grains.
const STEPS: [i64; 3] = [4_000, 1_000, 1_000];

/// How much more an ascent has to bring so that another one follows, and two cases than one, in thousandths of a grain.
const LITTLE: i64 = 100;

const CLOSE: i64 = 500;

/// At how many numbers of unparked blocks a case is parted at most.
const TRIES: usize = 4;

/// What is known: how many of the best plan's blocks are unparked, the sum from which on a case bounds as much as it costs, and whether there is
/// one case without stacks.
#[derive(Clone, Copy)]
pub(crate) struct Known {
    pub unparked: u8,
    pub goal: Number,
    pub was_one: bool,
}

/// One case with stacks, or two of which the first speaks of fewer unparked blocks.
#[derive(Drop)]
struct Halves {
    first: Option<Held>,
    last: Held,
}

impl Halves {
    fn one(case: Held) -> Halves {
        Halves {
            first: None,
            last: case,
        }
    }
}

// A number of thousandths of a grain.
fn grains(place: &Place, thousandths: i64) -> Number {
    Wrapping(thousandths) * Wrapping(ONE) * Wrapping(place.scene.grain)
}

// A case that is to bound much, from another at a place.
fn raised(
    alloc: Global,
    place: &Place,
    start: Held,
    goal: Number,
    multiplier: bool,
    gains: &mut Gains,
) -> Result<Held, AllocError> {
    let mut best = start;
    let mut lengths = true;
    'ascents: for step in STEPS {
        let least = best.sum + grains(place, LITTLE);
        let lift = Lift {
            nexts: &[],
            lengths,
            multiplier,
            step,
            most: LONG,
            work: WORK_IN_ALL.saturating_sub(gains.spend(0)).min(WORK),
            goal,
        };
        best = lifted(alloc, place, lift, best, gains)?;
        if best.sum >= goal || best.sum < least {
            return Ok(best);
        }
        lengths = false;
    }
    Ok(best)
}

// A case of some numbers of unparked blocks, from the values of one that speaks of all, with a multiplier to begin with.
fn part(
    alloc: Global,
    place: &Place,
    span: Span,
    one: &Values,
    multiplier: Number,
    goal: Number,
    gains: &mut Gains,
) -> Result<Held, AllocError> {
    let mut values = one.copied(alloc)?;
    values.point.multiplier = multiplier;
    let start = hold(place, span, values, gains)?;
    raised(alloc, place, start, goal, true, gains)
}

// Two cases near the number of a plan's unparked blocks, where they bound more than one.
fn parted(
    alloc: Global,
    place: &Place,
    one: Held,
    known: Known,
    gains: &mut Gains,
) -> Result<Halves, AllocError> {
    let values = one.case.values.copied(alloc)?;
    let multiplier = place.scene.most_of_unparked();
    let little = one.sum + grains(place, CLOSE);
    let mut least = little;
    let mut many = known.unparked.max(1);
    let mut seen = Vec::with_capacity(alloc, TRIES)?;
    let mut best = Halves::one(one);
    if best.last.sum >= known.goal {
        return Ok(best);
    }
    'numbers: for _ in 0..TRIES {
        if many < 1 || many > EVERY.to || seen.contains(&many) {
            return Ok(best);
        }
        seen.push(many)?;
        let few = Span::below(many);
        let first = part(alloc, place, few, &values, multiplier, known.goal, gains)?;
        if first.sum <= little {
            many = many.saturating_sub(1);
            continue 'numbers;
        }
        let rest = Span::at_least(many);
        let last = part(alloc, place, rest, &values, -multiplier, known.goal, gains)?;
        if last.sum <= little {
            many = many.saturating_add(1);
        }
        if first.sum.min(last.sum) > least {
            least = first.sum.min(last.sum);
            best = Halves {
                first: Some(first),
                last,
            };
        }
    }
    Ok(best)
}

// Cases that are to bound more at a place, whose prices are those of its scene: one is parted, two are raised.
fn raised_all(
    alloc: Global,
    place: &Place,
    halves: Halves,
    known: Known,
) -> Result<Halves, AllocError> {
    let mut gains = Gains::new(alloc, place)?;
    let two = halves.first.is_some();
    let last = again(alloc, place, halves.last, known.goal, two, &mut gains)?;
    match halves.first {
        Some(first) => Ok(Halves {
            first: Some(again(alloc, place, first, known.goal, two, &mut gains)?),
            last,
        }),
        None => parted(alloc, place, last, known, &mut gains),
    }
}

// A case that is to bound more than another did, perhaps at another place.
fn again(
    alloc: Global,
    place: &Place,
    case: Held,
    goal: Number,
    multiplier: bool,
    gains: &mut Gains,
) -> Result<Held, AllocError> {
    let Fixed { span, values } = case.case;
    let start = hold(place, span, values, gains)?;
    raised(alloc, place, start, goal, multiplier, gains)
}

// A case without stacks as one with stacks, whose sum isn't known.
fn case_at(alloc: Global, case: &Case, from: u8, slots: &[Slot]) -> Result<Held, AllocError> {
    Ok(Held {
        case: Fixed {
            span: Span { from, to: case.to },
            values: values_of(alloc, case, slots)?,
        },
        sum: NOTHING,
    })
}

// Cases without stacks as cases with stacks.
fn halves_of(alloc: Global, cases: &Cases, slots: &[Slot]) -> Result<Halves, AllocError> {
    if cases.len() < 2 {
        let one = case_at(alloc, cases.get(0), 0, slots)?;
        return Ok(Halves::one(one));
    }
    let first = case_at(alloc, cases.get(0), 0, slots)?;
    let from = first.case.to().saturating_add(1);
    Ok(Halves {
        first: Some(first),
        last: case_at(alloc, cases.get(1), from, slots)?,
    })
}

// The same case for other prices, whose sum isn't known.
fn repriced(alloc: Global, held: Held, from: &[Slot], to: &[Slot]) -> Result<Held, AllocError> {
    let Held { case, sum } = held;
    let Fixed { span, values } = case;
    Ok(Held {
        case: Fixed {
            span,
            values: moved(alloc, values, from, to)?,
        },
        sum,
    })
}

fn all_repriced(
    alloc: Global,
    halves: Halves,
    from: &[Slot],
    to: &[Slot],
) -> Result<Halves, AllocError> {
    let last = repriced(alloc, halves.last, from, to)?;
    let first = match halves.first {
        Some(first) => Some(repriced(alloc, first, from, to)?),
        None => None,
    };
    Ok(Halves { first, last })
}

// Cases with the 64 prices that are worth most in these, which the place has then.
fn narrowed(
    alloc: Global,
    instance: &Instance,
    path: &Path,
    place: &mut Place,
    wide: Halves,
    known: Known,
) -> Result<Halves, AllocError> {
    let slots = dearest(alloc, place, wide.first.as_ref(), &wide.last)?;
    let are_fewer = slots.len() < place.scene.slots.len();
    let halves = all_repriced(alloc, wide, &place.scene.slots, &slots)?;
    place.scene.price(alloc, instance, path.blocks(), slots)?;
    if are_fewer || known.was_one {
        return raised_all(alloc, place, halves, known);
    }
    Ok(halves)
}

/// Cases with stacks at a path, from cases without and the prices that are known. Err is want of memory.
pub(crate) fn cases_with_stacks(
    alloc: Global,
    instance: &Instance,
    path: &Path,
    slots: &[Slot],
    cases: &Cases,
    known: Known,
) -> Result<Cases, AllocError>
    requires { IsTrailOf instance.now path.now }
    ensures cases { IfOk result (AreCases instance.now) }
    ensures apart { IfOk result (All (λ c. AreApart c.duals.prices)) }
{
    let mut place = Place::new(alloc, instance, path)?;
    let slots = slots_beside(alloc, instance, &place, slots)?;
    let halves = halves_of(alloc, cases, &slots)?;
    place.scene.price(alloc, instance, path.blocks(), slots)?;
    let wide = raised_all(alloc, &place, halves, known)?;
    let halves = narrowed(alloc, instance, path, &mut place, wide, known)?;
    state(alloc, instance, &place, &halves)
}

// These as cases of a certificate.
fn state(
    alloc: Global,
    instance: &Instance,
    place: &Place,
    halves: &Halves,
) -> Result<Cases, AllocError>
    ensures cases { IfOk result (AreCases instance.now) }
    ensures apart { IfOk result (All (λ c. AreApart c.duals.prices)) }
{
    let first = match &halves.first {
        Some(first) => Some(&first.case),
        None => None,
    };
    cases_with(alloc, instance, &place.scene, first, &halves.last.case)
}
