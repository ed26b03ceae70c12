// Many rounds of ruin and recreation, from a plan to a cheaper one.
ghost use Rattle.std.specs.Prelude.{◌≡◌, ◌≤◌, IfOk, length};
ghost use Rattle.shunt_blocks.specs.defs.Lists.{IsFeasible, total_cost};
ghost use Rattle.shunt_blocks.specs.defs.Pins.{Keeps};
ghost use Rattle.shunt_ruin.specs.defs.Candidates.{AreNumbered};

use crate::courses::{Course, Fall};
use crate::covers::{PlacedShape, no_blocks};
use crate::draws::Cooling;
use crate::judge::is_better;
use crate::search::RuinSearch;
use crate::tables::Tables;
use shunt_base::Case;
use shunt_blocks::{Block, has_unit, in_range, position_from, shape_of, unit_from};
use shunt_instance::Instance;
use std::alloc::{AllocError, Global};

/// The cheapest plan that was found, by first units, and its cost in thousandths of a cost unit.
#[derive(Debug, Drop)]
struct Best {
    blocks: Vec<Option<PlacedShape>>,
    cost: i64,
}

impl Best {
    /// Takes over a block.
    fn set(&mut self, place: usize, block: Option<PlacedShape>) {
        if place < self.blocks.len() {
            self.blocks[place] = block;
        }
    }

    /// Takes over a plan, where it is cheaper.
    fn take_over(&mut self, search: &RuinSearch) {
        if search.covers.cost >= self.cost {
            return;
        }
        self.cost = search.covers.cost;
        for place in 0..self.blocks.len() {
            self.set(place, search.covers.block(place));
        }
    }
}

/// How far a search has come.
#[derive(Clone, Copy, Debug, Drop)]
struct Stage {
    /// How much warmer a plan may become, in thousandths of a cost unit, 1,024 to one.
    temperature: i64,
    /// How much the prices count, 1,024 to one.
    prices: i64,
}

impl Stage {
    /// Where a fall of the temperature begins.
    fn first(fall: &Fall, grain: i64) -> Stage {
        Stage {
            temperature: fall.first.wrapping_mul(1024).wrapping_mul(grain),
            prices: 512,
        }
    }

    /// One stage later.
    fn cool(&mut self, fall: &Fall) {
        self.temperature = self.temperature.wrapping_mul(fall.factor) / 1000000;
        self.prices = self.prices.saturating_sub(2);
    }
}

/// The place of a block among all shapes, with its option.
fn placed_as(instance: &Instance, tables: &Tables, block: &Block) -> Option<PlacedShape> {
    if !in_range(instance, block) {
        return None;
    }
    let shape = shape_of(block);
    let unit = unit_from(instance, shape);
    let position = position_from(instance, shape);
    let row = tables
        .rows_at(unit, position)
        .get(usize::from(block.n - 1))?;
    let Some(park) = block.park else {
        return Some(PlacedShape {
            row: *row,
            spot: None,
        });
    };
    let spot = tables.spots_of(row).iter().find(|spot| spot.park == park)?;
    Some(PlacedShape {
        row: *row,
        spot: Some(*spot),
    })
}

/// For each unit whether its block is a pin. Err is want of memory.
fn pinned_units(
    alloc: Global,
    instance: &Instance,
    pins: &[Block],
) -> Result<Vec<bool>, AllocError> {
    let mut pinned = Vec::with_capacity(alloc, instance.units())?;
    for unit in 0..instance.units() {
        pinned.push(has_pin(instance, pins, unit))?;
    }
    Ok(pinned)
}

/// Whether a pin has a unit.
fn has_pin(instance: &Instance, pins: &[Block], unit: usize) -> bool {
    for pin in pins {
        if in_range(instance, pin) && has_unit(instance, pin, unit) {
            return true;
        }
    }
    false
}

/// A search that has a plan; whether it has each of its blocks. Err is want of memory.
fn put_all(
    instance: &Instance,
    tables: &Tables,
    search: &mut RuinSearch,
    plan: &[Block],
) -> Result<bool, AllocError> {
    for block in plan {
        let Some(placed) = placed_as(instance, tables, block) else {
            return Ok(false);
        };
        search.covers.put(tables, placed)?;
    }
    Ok(true)
}

/// Many tries to cover all that isn't pinned anew, of which the cheapest stays. Err is want of memory.
fn begin(alloc: Global, tables: &Tables, search: &mut RuinSearch) -> Result<(), AllocError> {
    for _try in 0..24 {
        let before = search.covers.cost;
        search.ruin_all(tables)?;
        let whole = search.recreate(alloc, tables, 0, i64::MAX)?;
        if !whole || search.covers.cost >= before {
            search.undo(tables)?;
        }
        search.keep();
    }
    Ok(())
}

/// One round, which is undone where the plan isn't whole, or dearer by more than chance allows. Err is want of memory.
fn go_round(
    alloc: Global,
    tables: &Tables,
    cooling: &Cooling,
    stage: &Stage,
    search: &mut RuinSearch,
) -> Result<(), AllocError> {
    let before = search.covers.held(stage.prices);
    search.ruin_some(tables)?;
    let rise = cooling.rise(stage.temperature / 1024, &mut search.draws);
    let most = before.saturating_add(rise);
    let whole = search.recreate(alloc, tables, stage.prices, most)?;
    if !whole || search.covers.held(stage.prices) > most {
        search.undo(tables)?;
    }
    search.keep();
    Ok(())
}

/// That many rounds, ever cooler. Err is want of memory.
fn go_rounds(
    alloc: Global,
    tables: &Tables,
    cooling: &Cooling,
    fall: &Fall,
    rounds: u32,
    search: &mut RuinSearch,
    best: &mut Best,
) -> Result<(), AllocError> {
    let every = (rounds / 256).max(1);
    let mut stage = Stage::first(fall, search.grain);
    for round in 0..rounds {
        if round % every == 0 {
            stage.cool(fall);
        }
        go_round(alloc, tables, cooling, &stage, search)?;
        best.take_over(search);
    }
    Ok(())
}

/// A search that has the blocks of the best plan instead of its own, but for those that are pinned. Err is want of memory.
fn return_to(best: &Best, tables: &Tables, search: &mut RuinSearch) -> Result<(), AllocError> {
    search.ruin_all(tables)?;
    for block in &best.blocks {
        if let Some(placed) = block {
            search.put_anew(tables, *placed)?;
        }
    }
    search.keep();
    Ok(())
}

/// All rounds of a course, of which each fall of the temperature begins with the best plan. Err is want of memory.
fn go_course(
    alloc: Global,
    tables: &Tables,
    course: &Course<'_>,
    search: &mut RuinSearch,
    best: &mut Best,
) -> Result<(), AllocError> {
    let cooling = Cooling::new(alloc)?;
    for fall in course.falls {
        return_to(best, tables, search)?;
        go_rounds(alloc, tables, &cooling, fall, course.rounds, search, best)?;
    }
    Ok(())
}

/// The blocks, numbered. Err is want of memory.
fn numbered(alloc: Global, blocks: &[Option<PlacedShape>]) -> Result<Vec<Block>, AllocError>
    ensures { IfOk result (λ v. AreNumbered v.items) }
{
    let mut listed = Vec::new(alloc);
    for block in blocks {
        if let Some(placed) = block {
            if listed.len() < 160 {
                listed.push(placed.block(listed.len() as u32 + 1))?;
            }
        }
    }
    Ok(listed)
}

/// The cheapest plan that that many rounds find; it may be none. Err is want of memory.
fn propose(
    alloc: Global,
    instance: &Instance,
    pins: &[Block],
    case: &Case,
    plan: &[Block],
    course: &Course<'_>,
) -> Result<Vec<Block>, AllocError>
    ensures { IfOk result (λ v. AreNumbered v.items) }
{
    let tables = Tables::new(alloc, instance, case)?;
    let pinned = pinned_units(alloc, instance, pins)?;
    let mut search = RuinSearch::new(alloc, &tables, pinned, course)?;
    let mut best = Best {
        blocks: no_blocks(alloc, instance.units())?,
        cost: i64::MAX,
    };
    if put_all(instance, &tables, &mut search, plan)? {
        begin(alloc, &tables, &mut search)?;
        best.take_over(&search);
        go_course(alloc, &tables, course, &mut search, &mut best)?;
    }
    numbered(alloc, &best.blocks)
}

/// A plan that keeps the pins and costs no more than one that does: blocks of it are taken away by chance and others are put in their
/// place, again and again as a course says, guided by what a case makes of them.
///
/// Any case will do; a better one leads to a cheaper plan. The ids of a plan that is found are its blocks' places, in the order of first
/// units. Err is want of memory.
pub fn ruin_and_recreate(
    alloc: Global,
    instance: &Instance,
    pins: &[Block],
    case: &Case,
    plan: &[Block],
    course: &Course<'_>,
) -> Result<Vec<Block>, AllocError>
    requires feasible { IsFeasible instance.now plan.now }
    requires keeps { Keeps plan.now pins.now }
    ensures feasible { IfOk result (λ v. IsFeasible instance.now v.items) }
    ensures keeps { IfOk result (λ v. Keeps v.items pins.now) }
    ensures cheaper { IfOk result
        (λ v. total_cost instance.now v.items ≤ total_cost instance.now plan.now) }
{
    let found = propose(alloc, instance, pins, case, plan, course)?;
    if is_better(alloc, instance, pins, plan, &found)? {
        return Ok(found);
    }
    Vec::from_slice(alloc, plan)
}
