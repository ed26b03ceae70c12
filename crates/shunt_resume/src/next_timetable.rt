// The timetable from a minute on.
ghost use Rattle.std.specs.Prelude.{◌≡◌, ◌≤◌, All, length, map, IfOk, OnOk};
ghost use Rattle.shunt_blocks.specs.defs.Shapes.{IsInRange};
ghost use Rattle.shunt_resume.specs.defs.Resumed.{runs_for, train_runs, with_runs, resumed_train};
ghost use Rattle.shunt_resume.specs.defs.Resumed.{resumed, parked_in, cleared_in, tally_of};

use crate::records::Tally;
use crate::runs::add_new;
use shunt_base::Minute;
use shunt_blocks::Block;
use shunt_instance::{Instance, PlacedRun, Timetable, Train};
use shunt_lists::Items;
use shunt_timetable::{copy_train, copy_trains};
use std::alloc::{AllocError, Global};

// Adds what has come of a block by a minute, where its train has a name.
fn add_for(
    placed: &mut Vec<PlacedRun>,
    instance: &Instance,
    minute: Minute,
    name: &[u8],
    block: &Block,
) -> Result<(), AllocError>
    requires { IsInRange instance.now block.now }
    ensures { OnOk result (placed.new.items
        ≡ with_runs (runs_for instance.now minute name.now block.now) placed.old.items) }
{
    if instance.arrive(block.arr).name.bytes() != name {
        return Ok(());
    }
    add_new(placed, instance, minute, block)
}

// Adds what has come of the train with a name by a minute.
fn add_all(
    placed: &mut Vec<PlacedRun>,
    instance: &Instance,
    minute: Minute,
    name: &[u8],
    blocks: &[Block],
) -> Result<(), AllocError>
    requires { All (IsInRange instance.now) blocks.now }
    ensures { OnOk result (placed.new.items
        ≡ with_runs (train_runs instance.now minute blocks.now name.now) placed.old.items) }
{
    'added: for block in blocks {
        add_for(placed, instance, minute, name, block)?;
    }
    Ok(())
}

// A train with what has come of it by a minute.
fn resumed_train(
    alloc: Global,
    instance: &Instance,
    minute: Minute,
    blocks: &[Block],
    train: &Train,
) -> Result<Train, AllocError>
    requires { All (IsInRange instance.now) blocks.now }
    ensures { IfOk result (λ t. t ≡ resumed_train instance.now minute blocks.now train.now) }
{
    let mut placed = Vec::from_slice(alloc, train.placed.as_slice())?;
    add_all(&mut placed, instance, minute, train.name.bytes(), blocks)?;
    let copy = copy_train(alloc, train)?;
    Ok(Train {
        placed: Items::from_vec(placed),
        ..copy
    })
}

// These trains with what has come of them by a minute.
fn resumed_trains(
    alloc: Global,
    instance: &Instance,
    minute: Minute,
    blocks: &[Block],
    trains: &[Train],
) -> Result<Vec<Train>, AllocError>
    requires { All (IsInRange instance.now) blocks.now }
    ensures { IfOk result
        (λ v. v.items ≡ map (resumed_train instance.now minute blocks.now) trains.now) }
{
    let mut resumed = Vec::new(alloc);
    'trains: for train in trains {
        let train = resumed_train(alloc, instance, minute, blocks, train)?;
        resumed.push(train)?;
    }
    Ok(resumed)
}

/// A timetable of a night with what has come by a minute, as the blocks of a plan in range have it, and with what had come
/// before.
///
/// Each parked block of a train that has come by the minute and doesn't stand is a run by its track and side in, unless one
/// of its units had come before. Each unit of an unparked block of a train that has come is a run that was cleared away,
/// unless it had come before. The error is want of memory.
pub fn resumed(
    alloc: Global,
    instance: &Instance,
    minute: Minute,
    blocks: &[Block],
    timetable: &Timetable,
) -> Result<Timetable, AllocError>
    requires { All (IsInRange instance.now) blocks.now }
    ensures { IfOk result (λ t. t ≡ resumed instance.now minute blocks.now timetable.now) }
{
    let trains = timetable.arrive.as_slice();
    let arrive = resumed_trains(alloc, instance, minute, blocks, trains)?;
    let depart = copy_trains(alloc, timetable.depart.as_slice())?;
    Ok(Timetable {
        arrive: Items::from_vec(arrive),
        depart: Items::from_vec(depart),
    })
}

// How many of these runs stand on a track.
fn parked_in(runs: &[PlacedRun]) -> u64
    requires { length runs.now ≤ 8 }
    ensures exact { result ≡ parked_in runs.now }
    ensures few { result ≤ 8 }
{
    let mut parked = 0;
    'runs: for run in runs {
        parked += u64::from(run.came_by.is_some());
    }
    parked
}

// How many of these runs were cleared away.
fn cleared_in(runs: &[PlacedRun]) -> u64
    requires { length runs.now ≤ 8 }
    ensures exact { result ≡ cleared_in runs.now }
    ensures few { result ≤ 8 }
{
    let mut cleared = 0;
    'runs: for run in runs {
        cleared += u64::from(run.came_by.is_none());
    }
    cleared
}

/// How many runs of a timetable stand on a track, and how many were cleared away. It has at most 100 trains with at most 8
/// runs each.
pub fn tally(timetable: &Timetable) -> Tally
    requires few { length timetable.now.arrive ≤ 100 }
    requires runs { All (λ t. length t.placed ≤ 8) timetable.now.arrive }
    ensures { result ≡ tally_of timetable.now }
{
    let mut tally = Tally {
        parked: 0,
        cleared: 0,
    };
    'trains: for train in timetable.arrive.as_slice() {
        let runs = train.placed.as_slice();
        tally.parked += parked_in(runs);
        tally.cleared += cleared_in(runs);
    }
    tally
}
