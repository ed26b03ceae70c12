// What a stack gains at a path, by its candidates there.
ghost use Rattle.std.specs.Prelude.{◌<◌, All, length, IfOk};
ghost use Rattle.shunt_base.specs.declared.duals.Case.{Case as OneCase};
ghost use Rattle.shunt_blocks.specs.defs.Blocks.{IsBlockButId};
ghost use Rattle.shunt_blocks.specs.defs.Lists.{ShareNothing, RunsThrough, placed};
ghost use Rattle.shunt_prices.specs.defs.Sums.{IsWithin};
ghost use Rattle.shunt_stacks.specs.defs.Fillings.{IsStackGain};
ghost use Rattle.shunt_gains.specs.defs.Events.{AreEvents, events_in};
ghost use Rattle.shunt_gains.specs.defs.Tables.{IsTableOf};
ghost use Rattle.shunt_fillings.specs.defs.Pieces.{seen, AreCandidates, AreOfSomeCase};
ghost use Rattle.shunt_fillings.specs.defs.Pieces.{fixed_of_stack, spans_with};

use crate::candidates::{Candidate, track_length};
use crate::ends::Stack;
use crate::pieces::{fixed_pieces, free_pieces};
use shunt_blocks::Block;
use shunt_gains::{Events, Table};
use shunt_instance::Instance;
use shunt_stacks::laws::{gains_by_events, gains_there, sums_fit};
use std::alloc::{AllocError, Global};

/// What a stack gains at a path, with its table there.
#[derive(Drop)]
pub(crate) struct StackGain {
    pub table: Table,
    pub gain: i64,
}

/// The table of a stack at a path, by its candidates there.
fn stack_table(
    alloc: Global,
    instance: &Instance,
    events: &Events,
    stack: Stack,
    path: &[Block],
    candidates: &[Candidate],
) -> Result<Table, AllocError>
    requires events { AreEvents instance.now events.now }
    requires each { All (IsBlockButId instance.now) path.now }
    requires apart { ShareNothing instance.now path.now }
    requires candidates { AreOfSomeCase instance.now path.now (seen stack) candidates.now }
    ensures { IfOk result
        (IsTableOf (fixed_of_stack instance.now events.now path.now (seen stack))
        (spans_with instance.now events.now candidates.now) (events_in events.now)) }
{
    // The first call tells that the night is well formed.
    instance.units();
    gains_by_events();
    let fixed = fixed_pieces(alloc, instance, events, stack, path)?;
    let free = free_pieces(alloc, instance, events, candidates)?;
    Table::new(alloc, fixed, free, events.len())
}

/// What a stack gains, by its candidates, at a path whose run goes through, in thousandths of a cost unit, with the table that tells it.
pub(crate) fn stack_gain(
    alloc: Global,
    instance: &Instance,
    events: &Events,
    stack: Stack,
    path: &[Block],
    candidates: &[Candidate],
) -> Result<StackGain, AllocError>
    requires events { AreEvents instance.now events.now }
    requires track { stack.track.0 < length instance.now.station.tracks }
    requires each { All (IsBlockButId instance.now) path.now }
    requires apart { ShareNothing instance.now path.now }
    requires through { RunsThrough instance.now (placed path.now) }
    requires candidates { AreOfSomeCase instance.now path.now (seen stack) candidates.now }
    ensures exact { (c : OneCase)
        → AreCandidates instance.now path.now c (seen stack) candidates.now
        → IfOk result (λ r. IsStackGain instance.now path.now c (seen stack) r.gain) }
    ensures small { IfOk result (λ r. IsWithin 319999999999680 r.gain) }
    ensures table { IfOk result (λ r.
        IsTableOf (fixed_of_stack instance.now events.now path.now (seen stack))
        (spans_with instance.now events.now candidates.now) (events_in events.now) r.table) }
{
    // The first call tells that the night is well formed.
    instance.units();
    gains_by_events();
    gains_there();
    sums_fit();
    let mut table = stack_table(alloc, instance, events, stack, path, candidates)?;
    let room = track_length(instance, stack.track);
    let Some(gain) = table.best(0, events.len(), room)? else {
        unreachable!();
    };
    Ok(StackGain { table, gain })
}
