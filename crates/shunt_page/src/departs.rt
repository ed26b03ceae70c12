// The departing trains with what fills their positions.
ghost use Rattle.std.specs.Prelude.{◌≡◌, ◌<◌, ◌≤◌, ◌+◌, ◌++◌, ◌∷◌, [], map, length, All, IfOk};
ghost use Rattle.std.specs.Prelude.{OnOk};
ghost use Rattle.std.specs.List.{range_with_len};
ghost use Rattle.shunt_instance.specs.defs.Words.{train_at};
ghost use Rattle.shunt_instance.specs.defs.Instance.{position_total};
ghost use Rattle.shunt_blocks.specs.defs.Shapes.{IsWithinTrains, IsInRange, shape_of};
ghost use Rattle.shunt_blocks.specs.defs.Shapes.{position_from};
ghost use Rattle.shunt_page.specs.defs.Departs.{filling_of, filling_at, seat_of, depart_of};
ghost use Rattle.shunt_page.specs.defs.Departs.{departs_of};

use crate::records::{DepartRow, Filling, Seat};
use crate::told::{parked_on, train_told, unit_told};
use shunt_base::DepId;
use shunt_blocks::{Block, position_from, shape_of, unit_from};
use shunt_instance::Instance;
use shunt_lists::Items;
use std::alloc::{AllocError, Global};

// The unit of a block at a place of it, from 0.
fn filling_of(
    alloc: Global,
    instance: &Instance,
    block: &Block,
    place: usize,
) -> Result<Filling, AllocError>
    requires block { IsWithinTrains instance.now block.now }
    requires place { place < block.now.n }
    ensures { IfOk result (λ f. f ≡ filling_of instance.now block.now place) }
{
    let from = unit_from(instance, shape_of(block));
    let unit = unit_told(alloc, instance, from + place)?;
    let track = parked_on(alloc, instance, block.park)?;
    Ok(Filling {
        unit,
        id: block.id,
        track,
    })
}

// Adds a block's unit at the position with a number, where the block has it.
fn note_filling(
    fillings: &mut Vec<Filling>,
    alloc: Global,
    instance: &Instance,
    block: &Block,
    position: usize,
) -> Result<(), AllocError>
    requires { IsWithinTrains instance.now block.now }
    ensures { OnOk result
        (fillings.new.items ≡ fillings.old.items ++ filling_at instance.now position block.now) }
{
    let from = position_from(instance, shape_of(block));
    if from <= position && position < from + usize::from(block.n) {
        let filling = filling_of(alloc, instance, block, position - from)?;
        fillings.push(filling)?;
    }
    Ok(())
}

// What fills the position with a number.
fn seat_of(
    alloc: Global,
    instance: &Instance,
    blocks: &[Block],
    position: usize,
) -> Result<Seat, AllocError>
    requires { All (IsInRange instance.now) blocks.now }
    ensures { IfOk result (λ s. s ≡ seat_of instance.now blocks.now position) }
{
    let mut fillings = Vec::new(alloc);
    for block in blocks {
        note_filling(&mut fillings, alloc, instance, block, position)?;
    }
    Ok(Seat {
        fillings: Items::from_vec(fillings),
    })
}

// So many positions from the one with a number on.
fn seats_of(
    alloc: Global,
    instance: &Instance,
    blocks: &[Block],
    first: usize,
    count: usize,
) -> Result<Vec<Seat>, AllocError>
    requires blocks { All (IsInRange instance.now) blocks.now }
    requires first { first ≤ 160 }
    requires count { count ≤ 8 }
    ensures { IfOk result (λ v. v.items
        ≡ map (λ k. seat_of instance.now blocks.now (first + k)) (range_with_len 0 count)) }
{
    let mut seats = Vec::new(alloc);
    for k in 0..count {
        let seat = seat_of(alloc, instance, blocks, first + k)?;
        seats.push(seat)?;
    }
    Ok(seats)
}

// The departing train with a number, with its positions in their order.
fn depart_of(
    alloc: Global,
    instance: &Instance,
    blocks: &[Block],
    d: u8,
) -> Result<DepartRow, AllocError>
    requires blocks { All (IsInRange instance.now) blocks.now }
    requires train { d < length instance.now.depart }
    ensures { IfOk result (λ r. r ≡ depart_of instance.now blocks.now d) }
{
    let train = instance.depart(DepId(d));
    let told = train_told(alloc, instance, train)?;
    let first = instance.first_position(DepId(d));
    let seats = seats_of(alloc, instance, blocks, first, train.units.len())?;
    Ok(DepartRow {
        train: told,
        seats: Items::from_vec(seats),
    })
}

pub(crate) fn departs_of(
    alloc: Global,
    instance: &Instance,
    blocks: &[Block],
) -> Result<Vec<DepartRow>, AllocError>
    requires { All (IsInRange instance.now) blocks.now }
    ensures { IfOk result (λ v. v.items ≡ departs_of instance.now blocks.now) }
{
    let mut rows = Vec::new(alloc);
    for d in 0..instance.departures() as u8 {
        let row = depart_of(alloc, instance, blocks, d)?;
        rows.push(row)?;
    }
    Ok(rows)
}
