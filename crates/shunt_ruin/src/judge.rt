// Whether a list of blocks is a plan that keeps the pins and costs less than another.
ghost use Rattle.std.specs.Prelude.{◌≡◌, ◌↔◌, ◌<◌, ◌≤◌, ◌*◌, ℕ, All, length, IsTrue, IfOk};
ghost use Rattle.std.specs.List.{sum_by};
ghost use Rattle.shunt_instance.specs.defs.Instance.{unit_total, position_total};
ghost use Rattle.shunt_blocks.specs.defs.Shapes.{IsInRange};
ghost use Rattle.shunt_blocks.specs.defs.Blocks.{IsBlock};
ghost use Rattle.shunt_blocks.specs.defs.Lists.{AreInRange, IsFeasible, RunsThrough, Covers};
ghost use Rattle.shunt_blocks.specs.defs.Lists.{times_unit, times_position, total_cost};
ghost use Rattle.shunt_blocks.specs.defs.Pins.{IsKept, Keeps, without_id};
ghost use Rattle.shunt_ruin.specs.defs.Candidates.{AreNumbered};

use shunt_blocks::{
    Block, block_cost, fits, has_position, has_unit, laws, stays_of, track_lengths,
};
use shunt_cross::clashes;
use shunt_instance::Instance;
use std::alloc::{AllocError, Global};

/// Whether each is a shape with one of its options and an id.
fn are_blocks(instance: &Instance, blocks: &[Block]) -> bool
    ensures { IsTrue result → All (IsBlock instance.now) blocks.now }
{
    for block in blocks {
        if !fits(instance, block) {
            return false;
        }
    }
    true
}

/// How many of these blocks have a unit.
fn times_unit(instance: &Instance, blocks: &[Block], unit: usize) -> usize
    requires { All (IsInRange instance.now) blocks.now }
    ensures { result ≡ times_unit instance.now blocks.now unit }
{
    let mut times = 0;
    for block in blocks {
        if has_unit(instance, block, unit) {
            times += 1;
        }
    }
    times
}

/// How many of these blocks have a position.
fn times_position(instance: &Instance, blocks: &[Block], position: usize) -> usize
    requires { All (IsInRange instance.now) blocks.now }
    ensures { result ≡ times_position instance.now blocks.now position }
{
    let mut times = 0;
    for block in blocks {
        if has_position(instance, block, position) {
            times += 1;
        }
    }
    times
}

/// Whether each unit is in exactly one of these blocks.
fn cover_units(instance: &Instance, blocks: &[Block]) -> bool
    requires { All (IsInRange instance.now) blocks.now }
    ensures { IsTrue result → (u : ℕ) → u < unit_total instance.now
        → times_unit instance.now blocks.now u ≡ 1 }
{
    for unit in 0..instance.units() {
        if times_unit(instance, blocks, unit) != 1 {
            return false;
        }
    }
    true
}

/// Whether each position is in exactly one of these blocks.
fn cover_positions(instance: &Instance, blocks: &[Block]) -> bool
    requires { All (IsInRange instance.now) blocks.now }
    ensures { IsTrue result → (v : ℕ) → v < position_total instance.now
        → times_position instance.now blocks.now v ≡ 1 }
{
    for position in 0..instance.positions() {
        if times_position(instance, blocks, position) != 1 {
            return false;
        }
    }
    true
}

/// Whether the run of these blocks goes through.
fn go_through(alloc: Global, instance: &Instance, blocks: &[Block]) -> Result<bool, AllocError>
    requires in_range { AreInRange instance.now blocks.now }
    requires few { length blocks.now ≤ 160 }
    ensures { IfOk result (λ b. IsTrue b → RunsThrough instance.now blocks.now) }
{
    // The calls say how the stays of blocks stand.
    laws::stays_of_blocks();
    instance.units();
    let lengths = track_lengths(alloc, instance)?;
    let stays = stays_of(alloc, instance, blocks)?;
    let clash = clashes(&lengths, &stays);
    if clash.pairs != 0 {
        return Ok(false);
    }
    Ok(clash.over == 0)
}

/// Whether these blocks are a feasible plan. Err is want of memory.
fn are_feasible(alloc: Global, instance: &Instance, blocks: &[Block]) -> Result<bool, AllocError>
    requires { AreNumbered blocks.now }
    ensures { IfOk result (λ b. IsTrue b → IsFeasible instance.now blocks.now) }
{
    if !are_blocks(instance, blocks) {
        return Ok(false);
    }
    if !cover_units(instance, blocks) {
        return Ok(false);
    }
    if !cover_positions(instance, blocks) {
        return Ok(false);
    }
    go_through(alloc, instance, blocks)
}

/// Whether two blocks differ in nothing but their ids.
fn same_but_id(pin: &Block, block: &Block) -> bool
    ensures { IsTrue result ↔ (without_id block.now ≡ without_id pin.now) }
{
    Block { id: 0, ..*pin } == Block { id: 0, ..*block }
}

/// Whether one of the blocks has a pin's shape and option.
fn keep(blocks: &[Block], pin: &Block) -> bool
    ensures { IsTrue result → IsKept blocks.now pin.now }
{
    for block in blocks {
        if same_but_id(pin, block) {
            return true;
        }
    }
    false
}

/// Whether the blocks keep each of the pins.
fn keep_all(blocks: &[Block], pins: &[Block]) -> bool
    ensures { IsTrue result → Keeps blocks.now pins.now }
{
    for pin in pins {
        if !keep(blocks, pin) {
            return false;
        }
    }
    true
}

/// What these blocks cost together, in cost units.
fn cost(instance: &Instance, blocks: &[Block]) -> u64
    requires in_range { All (IsInRange instance.now) blocks.now }
    requires few { length blocks.now ≤ 160 }
    ensures { result ≡ total_cost instance.now blocks.now }
{
    let mut cost = 0;
    for block in blocks {
        cost += block_cost(instance, block);
    }
    cost
}

/// Whether these blocks are a feasible plan that keeps the pins and costs less than another. Err is want of memory.
pub(crate) fn is_better(
    alloc: Global,
    instance: &Instance,
    pins: &[Block],
    plan: &[Block],
    blocks: &[Block],
) -> Result<bool, AllocError>
    requires numbered { AreNumbered blocks.now }
    requires feasible { IsFeasible instance.now plan.now }
    ensures feasible { IfOk result (λ b. IsTrue b → IsFeasible instance.now blocks.now) }
    ensures keeps { IfOk result (λ b. IsTrue b → Keeps blocks.now pins.now) }
    ensures cheaper { IfOk result
        (λ b. IsTrue b → total_cost instance.now blocks.now < total_cost instance.now plan.now) }
{
    // The call tells that feasible blocks are few and in range.
    laws::feasible_lists();
    instance.units();
    if !are_feasible(alloc, instance, blocks)? {
        return Ok(false);
    }
    if !keep_all(blocks, pins) {
        return Ok(false);
    }
    Ok(cost(instance, blocks) < cost(instance, plan))
}
