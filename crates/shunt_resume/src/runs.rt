// What has come of a block.
ghost use Rattle.std.specs.Prelude.{◌≡◌, ◌+◌, ◌<◌, ◌≤◌, OnOk, if◌then◌else◌};
ghost use Rattle.shunt_instance.specs.defs.Words.{is_standing};
ghost use Rattle.shunt_timetable.specs.defs.TimetableFormat.{with_run};
ghost use Rattle.shunt_blocks.specs.defs.Shapes.{IsWithinTrains};
ghost use Rattle.shunt_blocks.specs.defs.Ways.{has_placed};
ghost use Rattle.shunt_resume.specs.defs.Resumed.{has_come_by, unit_at_place, cleared};
ghost use Rattle.shunt_resume.specs.defs.Resumed.{cleared_runs, run_of, parked_runs, option_runs};
ghost use Rattle.shunt_resume.specs.defs.Resumed.{new_runs, with_runs};

use shunt_base::Minute;
use shunt_blocks::{Block, Park, has_placed};
use shunt_instance::{Instance, Origin, PlacedRun, TrackEnd, Train};
use shunt_timetable::add_run;
use std::alloc::AllocError;

// Whether a train stands on a track when the night begins.
fn stands(train: &Train) -> bool
    ensures { result ≡ is_standing train.now }
{
    match train.origin {
        Origin::Platform(_) => false,
        Origin::Track(_) => true,
    }
}

// Whether the arriving train of a block has come by a minute.
fn has_come_by(instance: &Instance, minute: Minute, block: &Block) -> bool
    requires { IsWithinTrains instance.now block.now }
    ensures { result ≡ has_come_by instance.now minute block.now }
{
    instance.arrive(block.arr).minute <= minute
}

// Whether the unit at a place of a block's train has come before.
fn is_placed(instance: &Instance, block: &Block, place: u8) -> bool
    requires block { IsWithinTrains instance.now block.now }
    requires from { block.now.p ≤ place }
    requires to { place < block.now.p + block.now.n }
    ensures { result ≡ has_placed instance.now (unit_at_place block.now place) }
{
    let unit = Block {
        p: place,
        n: 1,
        park: None,
        ..*block
    };
    has_placed(instance, &unit)
}

// The run of a unit alone that was cleared away.
fn cleared(place: u8) -> PlacedRun
    ensures { result ≡ cleared place }
{
    PlacedRun {
        first: place,
        count: 1,
        came_by: None,
    }
}

// Adds the unit at a place of a block that hasn't come to a track, unless it has come before.
fn add_unit(
    placed: &mut Vec<PlacedRun>,
    instance: &Instance,
    block: &Block,
    place: u8,
) -> Result<(), AllocError>
    requires block { IsWithinTrains instance.now block.now }
    requires from { block.now.p ≤ place }
    requires to { place < block.now.p + block.now.n }
    ensures { OnOk result (placed.new.items
        ≡ (if has_placed instance.now (unit_at_place block.now place) then placed.old.items
        else with_run (cleared place) placed.old.items)) }
{
    if is_placed(instance, block, place) {
        return Ok(());
    }
    add_run(placed, cleared(place))
}

// The place behind the last unit of a block.
fn past(instance: &Instance, block: &Block) -> u8
    requires { IsWithinTrains instance.now block.now }
    ensures { result ≡ block.now.p + block.now.n }
{
    // The call tells that a train has at most 8 units.
    instance.arrive(block.arr);
    block.p + block.n
}

// Adds the units of a block that hasn't come to a track, but those that have come before.
fn add_cleared(
    placed: &mut Vec<PlacedRun>,
    instance: &Instance,
    block: &Block,
) -> Result<(), AllocError>
    requires { IsWithinTrains instance.now block.now }
    ensures { OnOk result
        (placed.new.items ≡ with_runs (cleared_runs instance.now block.now) placed.old.items) }
{
    'places: for place in block.p..past(instance, block) {
        add_unit(placed, instance, block, place)?;
    }
    Ok(())
}

// The run of a block that came to a track.
fn run_of(block: &Block, park: Park) -> PlacedRun
    ensures { result ≡ run_of block.now park }
{
    PlacedRun {
        first: block.p,
        count: block.n,
        came_by: Some(TrackEnd {
            track: park.track,
            side: park.side_in,
        }),
    }
}

// Adds a block that came to a track, unless it stood there before.
fn add_parked(
    placed: &mut Vec<PlacedRun>,
    instance: &Instance,
    block: &Block,
    park: Park,
) -> Result<(), AllocError>
    requires { IsWithinTrains instance.now block.now }
    ensures { OnOk result
        (placed.new.items ≡ with_runs (parked_runs instance.now block.now park) placed.old.items) }
{
    if stands(instance.arrive(block.arr)) || has_placed(instance, block) {
        return Ok(());
    }
    add_run(placed, run_of(block, park))
}

// Adds what comes of a block by its option.
fn add_option(
    placed: &mut Vec<PlacedRun>,
    instance: &Instance,
    block: &Block,
) -> Result<(), AllocError>
    requires { IsWithinTrains instance.now block.now }
    ensures { OnOk result (placed.new.items
        ≡ with_runs (option_runs instance.now block.now block.now.park) placed.old.items) }
{
    match block.park {
        None => add_cleared(placed, instance, block),
        Some(park) => add_parked(placed, instance, block, park),
    }
}

/// Adds what has come of a block by a minute, and had not come before.
#[tactic(auto, unfolding(crate::specs::defs::Resumed::new_runs))]
pub(crate) fn add_new(
    placed: &mut Vec<PlacedRun>,
    instance: &Instance,
    minute: Minute,
    block: &Block,
) -> Result<(), AllocError>
    requires { IsWithinTrains instance.now block.now }
    ensures { OnOk result
        (placed.new.items ≡ with_runs (new_runs instance.now minute block.now) placed.old.items) }
{
    if !has_come_by(instance, minute, block) {
        return Ok(());
    }
    add_option(placed, instance, block)
}
