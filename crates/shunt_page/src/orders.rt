// The orders of a plan with all that whoever drives wants to know.
ghost use Rattle.std.specs.Prelude.{◌≡◌, ◌==◌, ◌<◌, ◌≤◌, ◌++◌, [], length, find, map, option_map};
ghost use Rattle.std.specs.Prelude.{All, IfOk, OnOk};
ghost use Rattle.shunt_instance.specs.defs.Words.{is_standing};
ghost use Rattle.shunt_blocks.specs.defs.Shapes.{IsWithinTrains, IsInRange};
ghost use Rattle.shunt_plan.specs.defs.Plans.{IsPlanInRange};
ghost use Rattle.shunt_page.specs.defs.Orders.{train_of, stands_already, row_of, row_at, rows_from};
ghost use Rattle.shunt_page.specs.defs.Orders.{rows_of};
ghost use Rattle.shunt_page.specs.defs.Occupancy.{after};
ghost use Rattle.shunt_sheet.specs.defs.Orders.{orders_in};
ghost use Rattle.shunt_sheet.specs.defs.SheetFormat.{AreOrders};

use crate::occupancy::{Stood, after, beside, load_on};
use crate::records::{OrderRow, TrainTold};
use crate::told::{arrive_told, depart_told, units_told};
use shunt_base::copy_name;
use shunt_blocks::{Block, has_placed};
use shunt_instance::{Instance, Origin, Train};
use shunt_lists::Items;
use shunt_plan::Plan;
use shunt_sheet::{Order, orders_of};
use std::alloc::{AllocError, Global};

// The train with which a block comes or goes.
fn train_of(
    alloc: Global,
    instance: &Instance,
    order: &Order,
    block: &Block,
) -> Result<TrainTold, AllocError>
    requires { IsWithinTrains instance.now block.now }
    ensures { IfOk result (λ t. t ≡ train_of instance.now order.now block.now) }
{
    if order.enters {
        arrive_told(alloc, instance, block)
    } else {
        depart_told(alloc, instance, block)
    }
}

// Whether a train stands on a track when the night begins.
fn stands(train: &Train) -> bool
    ensures { result ≡ is_standing train.now }
{
    match train.origin {
        Origin::Platform(_) => false,
        Origin::Track(_) => true,
    }
}

// Whether a block stands already: its train does, or one of its units has come.
fn stands_already(instance: &Instance, block: &Block) -> bool
    requires { IsWithinTrains instance.now block.now }
    ensures { result ≡ stands_already instance.now block.now }
{
    stands(instance.arrive(block.arr)) || has_placed(instance, block)
}

// An order of a block, where so much stood before it and stands after it.
fn row_of(
    alloc: Global,
    instance: &Instance,
    stood: &[Stood],
    later: &[Stood],
    order: &Order,
    block: &Block,
) -> Result<OrderRow, AllocError>
    requires block { IsWithinTrains instance.now block.now }
    requires track { order.now.track.0 < length instance.now.station.tracks }
    requires later { later.now ≡ after stood.now order.now }
    requires few { length later.now ≤ 65536 }
    ensures { IfOk result (λ r. r ≡ row_of instance.now stood.now order.now block.now) }
{
    let units = units_told(alloc, instance, block)?;
    let train = train_of(alloc, instance, order, block)?;
    let track = &instance.station().tracks.as_slice()[usize::from(order.track.0)];
    let name = copy_name(alloc, &track.name)?;
    Ok(OrderRow {
        order: *order,
        units: Items::from_vec(units),
        train,
        already: order.enters && stands_already(instance, block),
        track: name,
        beside: beside(stood, order),
        load: load_on(order.track, later),
        length: track.length,
    })
}

// The block with an id.
fn block_with(blocks: &[Block], id: u32) -> Option<&Block>
    ensures { option_map (λ b. b.now) result ≡ find (λ b. b.id == id) blocks.now }
{
    blocks.iter().find(|block| block.id == id)
}

// Adds an order of the block that has its id.
fn note_row(
    rows: &mut Vec<OrderRow>,
    alloc: Global,
    instance: &Instance,
    blocks: &[Block],
    stood: &[Stood],
    later: &[Stood],
    order: &Order,
) -> Result<(), AllocError>
    requires each { All (IsInRange instance.now) blocks.now }
    requires track { order.now.track.0 < length instance.now.station.tracks }
    requires later { later.now ≡ after stood.now order.now }
    requires few { length later.now ≤ 65536 }
    ensures { OnOk result
        (rows.new.items ≡ rows.old.items ++ row_at instance.now blocks.now stood.now order.now) }
{
    let Some(block) = block_with(blocks, order.id) else {
        return Ok(());
    };
    let row = row_of(alloc, instance, stood, later, order, block)?;
    rows.push(row)?;
    Ok(())
}

// These orders one after the other, from empty tracks on.
fn rows_from(
    alloc: Global,
    instance: &Instance,
    blocks: &[Block],
    orders: &[Order],
) -> Result<Vec<OrderRow>, AllocError>
    requires each { All (IsInRange instance.now) blocks.now }
    requires orders { AreOrders instance.now.station orders.now }
    ensures { IfOk result (λ v. v.items ≡ rows_from instance.now blocks.now [] orders.now) }
{
    let mut rows = Vec::new(alloc);
    let mut stood: Vec<Stood> = Vec::new(alloc);
    for order in orders {
        let later = after(alloc, &stood, order)?;
        note_row(&mut rows, alloc, instance, blocks, &stood, &later, order)?;
        stood = later;
    }
    Ok(rows)
}

// The orders of a plan, in key order.
#[tactic(auto, using(crate::proofs::Ordered::rows_are))]
pub(crate) fn rows_of(
    alloc: Global,
    instance: &Instance,
    plan: &Plan,
) -> Result<Vec<OrderRow>, AllocError>
    requires { IsPlanInRange instance.now plan.now }
    ensures exact { IfOk result (λ v. v.items ≡ rows_of instance.now plan.now.blocks) }
    ensures orders { IfOk result
        (λ v. map (λ r. r.order) v.items ≡ orders_in instance.now plan.now.blocks) }
{
    let orders = orders_of(alloc, instance, plan)?;
    rows_from(alloc, instance, plan.blocks.as_slice(), &orders)
}
