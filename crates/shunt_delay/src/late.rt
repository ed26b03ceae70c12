// Blocks and stays of a night in which one train is late.
ghost use Rattle.std.specs.Prelude.{◌≡◌, ℕ, ◌<◌, ◌≤◌, false, All, IfOk, filter};
ghost use Rattle.shunt_blocks.specs.defs.Shapes.{IsInRange, IsWithinTrains, shape_of};
ghost use Rattle.shunt_blocks.specs.defs.Stays.{is_too_soon, stay_of};
ghost use Rattle.shunt_blocks.specs.defs.Lists.{stays_of};
ghost use Rattle.shunt_delay.specs.defs.Late.{late};
ghost use Rattle.shunt_delay.specs.defs.Kept.{late_by, is_too_soon_by, later, of_train};

use shunt_base::{ArrId, EventKey, Stay};
use shunt_blocks::{Block, laws, shape_of, stay, unit_from};
use shunt_instance::Instance;
use std::alloc::{AllocError, Global};

/// By how many minutes a block is late, where a train is.
fn late_by(block: &Block, train: ArrId, minutes: u16) -> u16
    ensures { result ≡ late_by train.0 minutes block.now }
{
    if block.arr.0 == train.0 {
        return minutes;
    }
    0
}

/// Whether the block's departing train leaves before one of its units is ready, that many minutes late.
pub(crate) fn is_too_soon_by(instance: &Instance, block: &Block, minutes: u16) -> bool
    requires within { IsWithinTrains instance.now block.now }
    requires few { minutes ≤ 120 }
    ensures { result ≡ is_too_soon_by instance.now minutes (shape_of block.now) }
{
    let shape = shape_of(block);
    let from = unit_from(instance, shape);
    let leave = instance.depart(shape.dep).minute.number();
    let mut all = true;
    for k in 0..shape.n as usize {
        all = all && instance.ready(from + k) + minutes <= leave;
    }
    !all
}

/// Whether a block that is in time is too soon in the night in which a train is late.
pub(crate) fn becomes_too_soon(
    instance: &Instance,
    block: &Block,
    train: ArrId,
    minutes: u16,
) -> bool
    requires within { IsWithinTrains instance.now block.now }
    requires few { minutes ≤ 120 }
    requires in_time { is_too_soon instance.now (shape_of block.now) ≡ false }
    ensures { result ≡ is_too_soon (late train.0 minutes instance.now) (shape_of block.now) }
{
    // It says which units a shape has.
    laws::places();
    if block.arr.0 == train.0 {
        return is_too_soon_by(instance, block, minutes);
    }
    false
}

/// How late a train may be, in minutes up to 120, so that a block that is in time isn't too soon.
pub(crate) fn minutes_in_time(instance: &Instance, block: &Block, train: ArrId) -> u16
    requires within { IsWithinTrains instance.now block.now }
    requires in_time { is_too_soon instance.now (shape_of block.now) ≡ false }
    ensures few { result ≤ 120 }
    ensures in_time { (d : ℕ) → d ≤ result
        → is_too_soon (late train.0 d instance.now) (shape_of block.now) ≡ false }
{
    // It says which units a shape has.
    laws::places();
    if block.arr.0 != train.0 {
        return LIMIT;
    }
    let shape = shape_of(block);
    let from = unit_from(instance, shape);
    let leave = instance.depart(shape.dep).minute.number();
    let mut minutes = LIMIT;
    for k in 0..shape.n as usize {
        minutes = minutes.min(leave.saturating_sub(instance.ready(from + k)));
    }
    minutes
}

/// The stay with that many minutes more before it begins.
pub(crate) fn later(stay: &Stay, minutes: u16) -> Stay
    requires begins { stay.now.enter.minute < 2880 }
    requires few { minutes ≤ 120 }
    ensures { result ≡ later minutes stay.now }
{
    let enter = EventKey {
        minute: stay.enter.minute + minutes,
        ..stay.enter
    };
    Stay { enter, ..*stay }
}

/// The block's stay in the night in which a train is late.
fn late_stay(instance: &Instance, block: &Block, train: ArrId, minutes: u16) -> Option<Stay>
    requires within { IsWithinTrains instance.now block.now }
    requires few { minutes ≤ 120 }
    ensures { result ≡ stay_of (late train.0 minutes instance.now) block.now }
{
    // The first call says which units a shape has, the other that minutes are small.
    laws::places();
    instance.arrive(block.arr);
    let own = late_by(block, train, minutes);
    if is_too_soon_by(instance, block, own) {
        return None;
    }
    match stay(instance, block) {
        Some(stay) => Some(later(&stay, own)),
        None => None,
    }
}

/// The stays of the blocks in the night in which a train is late.
pub(crate) fn late_stays(
    alloc: Global,
    instance: &Instance,
    blocks: &[Block],
    train: ArrId,
    minutes: u16,
) -> Result<Vec<Stay>, AllocError>
    requires each { All (IsInRange instance.now) blocks.now }
    requires few { minutes ≤ 120 }
    ensures { IfOk result (λ v. v.items ≡ stays_of (late train.0 minutes instance.now) blocks.now) }
{
    let mut stays = Vec::new(alloc);
    for block in blocks {
        if let Some(stay) = late_stay(instance, block, train, minutes) {
            stays.push(stay)?;
        }
    }
    Ok(stays)
}

/// No greater delay is tried, in minutes.
pub(crate) const LIMIT: u16 = 120;

/// The stays of a train.
pub(crate) fn stays_of_train(
    alloc: Global,
    stays: &[Stay],
    train: ArrId,
) -> Result<Vec<Stay>, AllocError>
    ensures { IfOk result (λ v. v.items ≡ filter (of_train train.0) stays.now) }
{
    let mut own = Vec::new(alloc);
    for stay in stays {
        if stay.enter.train == train.0 {
            own.push(*stay)?;
        }
    }
    Ok(own)
}
