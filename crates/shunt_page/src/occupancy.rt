// The blocks that stand on tracks while orders are followed.
ghost use Rattle.std.specs.Prelude.{◌≡◌, ◌≤◌, ◌<◌, ◌+◌, ◌++◌, length, IfOk, IfSome, OnOk};
ghost use Rattle.shunt_page.specs.defs.Occupancy.{stood_by, put as placed, without, after};
ghost use Rattle.shunt_page.specs.defs.Occupancy.{length_on, load_on, first_on, later_on, last_on};
ghost use Rattle.shunt_page.specs.defs.Occupancy.{place_of, met, in_way, beside};

use shunt_base::{Side, TrackId};
use shunt_sheet::Order;
use std::alloc::{AllocError, Global};

// A block that stands on a track.
#[derive(Clone, Copy, Debug, Drop)]
pub(crate) struct Stood {
    pub(crate) id: u32,
    pub(crate) track: TrackId,
    pub(crate) length: u32,
}

fn stood_by(order: &Order) -> Stood
    ensures { result ≡ stood_by order.now }
{
    Stood {
        id: order.id,
        track: order.track,
        length: order.length,
    }
}

fn put(side: Side, block: Stood, stood: &mut Vec<Stood>) -> Result<(), AllocError>
    ensures exact { OnOk result (stood.new.items ≡ placed side block stood.old.items) }
    ensures few { OnOk result (length stood.new.items ≤ length stood.old.items + 1) }
{
    match side {
        Side::A => stood.insert(0, block)?,
        Side::B => stood.push(block)?,
    }
    Ok(())
}

// Those that aren't the block with an id.
fn without(alloc: Global, id: u32, stood: &[Stood]) -> Result<Vec<Stood>, AllocError>
    ensures exact { IfOk result (λ v. v.items ≡ without id stood.now) }
    ensures few { IfOk result (λ v. length v.items ≤ length stood.now) }
{
    let mut others = Vec::new(alloc);
    for block in stood {
        if block.id != id {
            others.push(*block)?;
        }
    }
    Ok(others)
}

// The same with one more at a side.
fn with(alloc: Global, side: Side, block: Stood, stood: &[Stood]) -> Result<Vec<Stood>, AllocError>
    ensures exact { IfOk result (λ v. v.items ≡ placed side block stood.now) }
    ensures few { IfOk result (λ v. length v.items ≤ length stood.now + 1) }
{
    let mut more = Vec::from_slice(alloc, stood)?;
    put(side, block, &mut more)?;
    Ok(more)
}

// What stands after an order.
pub(crate) fn after(alloc: Global, stood: &[Stood], order: &Order) -> Result<Vec<Stood>, AllocError>
    ensures exact { IfOk result (λ v. v.items ≡ after stood.now order.now) }
    ensures few { IfOk result (λ v. length v.items ≤ length stood.now + 1) }
{
    if order.enters {
        return with(alloc, order.side, stood_by(order), stood);
    }
    without(alloc, order.id, stood)
}

fn length_on(track: TrackId, block: &Stood) -> u64
    ensures exact { result ≡ length_on track.0 block.now }
    ensures small { result < 4294967296 }
{
    if block.track.0 == track.0 {
        u64::from(block.length)
    } else {
        0
    }
}

// What stands on a track, in dm.
pub(crate) fn load_on(track: TrackId, stood: &[Stood]) -> u64
    requires { length stood.now ≤ 65536 }
    ensures { result ≡ load_on track.0 stood.now }
{
    let mut load = 0;
    for block in stood {
        load += length_on(track, block);
    }
    load
}

fn first_on(track: TrackId, stood: &[Stood]) -> Option<u32>
    ensures { result ≡ first_on track.0 stood.now }
{
    let found = stood.iter().find(|block| block.track.0 == track.0)?;
    Some(found.id)
}

fn later_on(track: TrackId, last: Option<u32>, block: &Stood) -> Option<u32>
    ensures { result ≡ later_on track.0 last block.now }
{
    if block.track.0 == track.0 {
        Some(block.id)
    } else {
        last
    }
}

fn last_on(track: TrackId, stood: &[Stood]) -> Option<u32>
    ensures { result ≡ last_on track.0 stood.now }
{
    let mut last = None;
    for block in stood {
        last = later_on(track, last, block);
    }
    last
}

// The place of the block with an id.
fn place_of(id: u32, stood: &[Stood]) -> Option<usize>
    ensures exact { result ≡ place_of id stood.now }
    ensures within { IfSome result (λ k. k < length stood.now) }
{
    stood.iter().position(|block| block.id == id)
}

// The block in front of which one stands that enters by a side.
fn met(side: Side, track: TrackId, stood: &[Stood]) -> Option<u32>
    ensures { result ≡ met side track.0 stood.now }
{
    match side {
        Side::A => first_on(track, stood),
        Side::B => last_on(track, stood),
    }
}

// The block that stands in the way of one that leaves by a side.
fn in_way(side: Side, track: TrackId, id: u32, stood: &[Stood]) -> Option<u32>
    ensures { result ≡ in_way side track.0 id stood.now }
{
    let place = place_of(id, stood)?;
    match side {
        Side::A => last_on(track, &stood[..place]),
        Side::B => first_on(track, &stood[place + 1..]),
    }
}

pub(crate) fn beside(stood: &[Stood], order: &Order) -> Option<u32>
    ensures { result ≡ beside stood.now order.now }
{
    if order.enters {
        met(order.side, order.track, stood)
    } else {
        in_way(order.side, order.track, order.id, stood)
    }
}
