// Cheaper plans than the one that parks nothing but pins.
ghost use Rattle.std.specs.Prelude.{◌≤◌, length, IfOk};
ghost use Rattle.shunt_search.specs.defs.WalkStates.{IsBest};

use crate::known::KnownPlan;
use crate::polisher::polish_around;
use crate::wholes::path_cost;
use shunt_base::{Case, Cases};
use shunt_blocks::Block;
use shunt_blocks::laws::feasible_lists;
use shunt_instance::Instance;
use shunt_ruin::{COOL, Course, Fall, HOT, MILD, WARM, ruin_and_recreate};
use std::alloc::{AllocError, Global};

/// Above that many units a search begins cool, and chance adds less to weights.
const MANY: u32 = 100;

/// How often blocks are ruined before the cases of the root are parted, in a night of that many units.
fn first_rounds(units: u32) -> u32 {
    if units > 12 { 60_000 } else { 5_000 * units }
}

/// How the temperature falls then.
fn first_falls(units: u32) -> [Fall; 1] {
    if units > MANY { [COOL] } else { [HOT] }
}

/// How often they are ruined in each fall of the temperature once those are known: seldom where there are many units, since a round then
/// takes longer.
pub(crate) fn last_rounds(units: u32) -> u32
    ensures { result ≤ 150000 }
{
    if units > MANY {
        75_000
    } else if units > 30 {
        150_000
    } else {
        5_000 * units
    }
}

/// How often in each fall once cases with stacks are known: up to that many units twice as often, since these cases say who stands in whose
/// way.
pub(crate) fn rounds_with_stacks(units: u32) -> u32 {
    if units > MANY {
        last_rounds(units)
    } else {
        2 * last_rounds(units)
    }
}

/// How it falls then.
fn last_falls(units: u32) -> [Fall; 2] {
    if units > MANY {
        [COOL, COOL]
    } else {
        [WARM, MILD]
    }
}

/// A search of that many rounds in each fall, that counts in grains and fits how many units a night has.
fn course<'a>(instance: &Instance, falls: &'a [Fall], rounds: u32, grain: u32) -> Course<'a> {
    Course {
        falls,
        rounds,
        grain,
        is_loud: instance.units() <= MANY as usize,
    }
}

/// The place of the least of some numbers.
fn place_of_least(numbers: &[i64]) -> usize {
    let mut found = 0;
    let mut least = i64::MAX;
    for (place, number) in numbers.iter().enumerate() {
        if *number < least {
            least = *number;
            found = place;
        }
    }
    found
}

/// The case of the least of these sums.
fn lowest<'a>(cases: &'a Cases, sums: &[i64]) -> &'a Case
    requires { 1 ≤ length cases.now }
{
    let place = place_of_least(sums);
    cases.get(place.min(cases.len() - 1))
}

/// A plan that costs no more than one that is known, by rounds of ruin and recreation that a case guides. Err is want of memory.
fn cheapened(
    alloc: Global,
    instance: &Instance,
    pins: &[Block],
    case: &Case,
    known: &KnownPlan,
    course: &Course<'_>,
) -> Result<KnownPlan, AllocError>
    requires { IsBest instance.now pins.now known.now.blocks.items known.now.cost }
    ensures best { IfOk result (λ k. IsBest instance.now pins.now k.blocks.items k.cost) }
    ensures cheaper { IfOk result (λ k. k.cost ≤ known.now.cost) }
{
    // The calls tell that feasible blocks are few and in range.
    feasible_lists();
    instance.units();
    let mut blocks = ruin_and_recreate(alloc, instance, pins, case, &known.blocks, course)?;
    polish_around(alloc, instance, pins, &mut blocks)?;
    let cost = path_cost(instance, &blocks);
    Ok(KnownPlan { blocks, cost })
}

/// A plan that costs no more than one that is known, by a search that counts in grains and is guided by a case that is proposed for the
/// root. Err is want of memory.
pub(crate) fn first_plan(
    alloc: Global,
    instance: &Instance,
    pins: &[Block],
    case: &Case,
    grain: u32,
    known: &KnownPlan,
) -> Result<KnownPlan, AllocError>
    requires { IsBest instance.now pins.now known.now.blocks.items known.now.cost }
    ensures best { IfOk result (λ k. IsBest instance.now pins.now k.blocks.items k.cost) }
    ensures cheaper { IfOk result (λ k. k.cost ≤ known.now.cost) }
{
    let units = instance.units() as u32;
    let falls = first_falls(units);
    let course = course(instance, &falls, first_rounds(units), grain);
    cheapened(alloc, instance, pins, case, known, &course)
}

/// The same in that many rounds of each of the last falls, guided by the one of the root's cases of which the sum is the least.
pub(crate) fn guided_plan(
    alloc: Global,
    instance: &Instance,
    pins: &[Block],
    cases: &Cases,
    sums: &[i64],
    rounds: u32,
    grain: u32,
    known: &KnownPlan,
) -> Result<KnownPlan, AllocError>
    requires cases { 1 ≤ length cases.now }
    requires best { IsBest instance.now pins.now known.now.blocks.items known.now.cost }
    ensures best { IfOk result (λ k. IsBest instance.now pins.now k.blocks.items k.cost) }
    ensures cheaper { IfOk result (λ k. k.cost ≤ known.now.cost) }
{
    let falls = last_falls(instance.units() as u32);
    let course = course(instance, &falls, rounds, grain);
    cheapened(alloc, instance, pins, lowest(cases, sums), known, &course)
}
