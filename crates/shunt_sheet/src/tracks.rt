// The blocks that stand on one track, from A to B.
ghost use Rattle.std.specs.Prelude.{◌≡◌, ◌≤◌, ◌<◌, ◌^◌, ◌+◌, true, false, IfOk, OnOk, Some, None};
ghost use Rattle.std.specs.Bool.{OnTrue, OnFalse};
ghost use Rattle.shunt_stays.specs.defs.Run.{put as placed, without, load as total};
ghost use Rattle.shunt_sheet.specs.defs.FollowedOrders.{move_of};
ghost use Rattle.shunt_sheet.specs.defs.Tracks.{blocks_of, Does};

use crate::records::Order;
use shunt_base::Side;
use std::alloc::AllocError;

#[derive(Clone, Copy, Debug, PartialEq, Eq)]
pub(crate) struct Parked {
    pub(crate) id: u32,
    pub(crate) length: u32,
}

// What came of an order; a number is the load that it would leave.
#[derive(Clone, Copy, Debug, PartialEq, Eq)]
pub(crate) enum Did {
    Moved,
    Blocked,
    Over(u64),
}

fn put(side: Side, block: Parked, blocks: &mut Vec<Parked>) -> Result<(), AllocError>
    ensures { OnOk result (blocks.new.items ≡ placed side block blocks.old.items) }
{
    match side {
        Side::A => blocks.insert(0, block)?,
        Side::B => blocks.push(block)?,
    }
    Ok(())
}

fn take_first(id: u32, blocks: &mut Vec<Parked>) -> bool
    ensures out { OnTrue result
        (without Side.A id (blocks_of blocks.old.items) ≡ Some (blocks_of blocks.new.items)) }
    ensures blocked { OnFalse result (without Side.A id (blocks_of blocks.old.items) ≡ None) }
{
    if blocks.is_empty() || blocks[0].id != id {
        return false;
    }
    blocks.remove(0);
    true
}

fn take_last(id: u32, blocks: &mut Vec<Parked>) -> bool
    ensures out { OnTrue result
        (without Side.B id (blocks_of blocks.old.items) ≡ Some (blocks_of blocks.new.items)) }
    ensures blocked { OnFalse result (without Side.B id (blocks_of blocks.old.items) ≡ None) }
{
    let count = blocks.len();
    if count == 0 {
        return false;
    }
    if blocks[count - 1].id != id {
        return false;
    }
    blocks.truncate(count - 1);
    true
}

fn take(side: Side, id: u32, blocks: &mut Vec<Parked>) -> bool
    ensures out { OnTrue result
        (without side id (blocks_of blocks.old.items) ≡ Some (blocks_of blocks.new.items)) }
    ensures blocked { OnFalse result (without side id (blocks_of blocks.old.items) ≡ None) }
{
    match side {
        Side::A => take_first(id, blocks),
        Side::B => take_last(id, blocks),
    }
}

fn load(blocks: &[Parked]) -> u64
    requires { total (blocks_of blocks.now) < 2 ^ 64 }
    ensures { result ≡ total (blocks_of blocks.now) }
{
    blocks.iter().map(|block| u64::from(block.length)).sum()
}

fn load_with(length: u32, blocks: &[Parked]) -> u64
    requires { total (blocks_of blocks.now) < 2 ^ 32 }
    ensures { result ≡ length + total (blocks_of blocks.now) }
{
    u64::from(length) + load(blocks)
}

fn enter(room: u32, order: &Order, blocks: &mut Vec<Parked>) -> Result<Did, AllocError>
    requires enters { order.now.enters ≡ true }
    requires fit { total (blocks_of blocks.old.items) ≤ room }
    ensures { IfOk result (λ d. Does d (move_of order.now) room (blocks_of blocks.old.items)
        (blocks_of blocks.new.items)) }
{
    let load = load_with(order.length, blocks);
    if load > u64::from(room) {
        return Ok(Did::Over(load));
    }
    let block = Parked {
        id: order.id,
        length: order.length,
    };
    put(order.side, block, blocks)?;
    Ok(Did::Moved)
}

fn leave(room: u32, order: &Order, blocks: &mut Vec<Parked>) -> Did
    requires { order.now.enters ≡ false }
    ensures { Does result (move_of order.now) room (blocks_of blocks.old.items)
        (blocks_of blocks.new.items) }
{
    if !take(order.side, order.id, blocks) {
        return Did::Blocked;
    }
    Did::Moved
}

pub(crate) fn done(room: u32, order: &Order, blocks: &mut Vec<Parked>) -> Result<Did, AllocError>
    requires { total (blocks_of blocks.old.items) ≤ room }
    ensures { IfOk result (λ d. Does d (move_of order.now) room (blocks_of blocks.old.items)
        (blocks_of blocks.new.items)) }
{
    if order.enters {
        return enter(room, order, blocks);
    }
    Ok(leave(room, order, blocks))
}
