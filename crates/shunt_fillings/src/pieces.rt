// What the blocks of a stack take of the events.
ghost use Rattle.std.specs.Prelude.{◌≡◌, All, IfOk};
ghost use Rattle.shunt_blocks.specs.defs.Shapes.{IsWithinTrains};
ghost use Rattle.shunt_prices.specs.defs.Sums.{IsWithin};
ghost use Rattle.shunt_stacks.specs.defs.Numbers.{span_of};
ghost use Rattle.shunt_gains.specs.defs.Events.{AreEvents, entry_of, leave_of};
ghost use Rattle.shunt_gains.specs.defs.Tables.{spans_of, span_of as piece_span};
ghost use Rattle.shunt_fillings.specs.defs.Pieces.{seen, fixed_of_stack, spans_with};

use crate::candidates::Candidate;
use crate::ends::{Stack, is_of};
use shunt_blocks::{Block, block_length, position_from, shape_of, unit_from};
use shunt_gains::{Events, Piece};
use shunt_instance::Instance;
use std::alloc::{AllocError, Global};

/// What a block takes of the events, with a gain.
pub(crate) fn piece_of(instance: &Instance, events: &Events, block: &Block, gain: i64) -> Piece
    requires events { AreEvents instance.now events.now }
    requires within { IsWithinTrains instance.now block.now }
    ensures { piece_span result
        ≡ span_of instance.now (entry_of events.now) (leave_of events.now) (λ b. gain) block.now }
{
    let shape = shape_of(block);
    let last = usize::from(block.n) - 1;
    let u = unit_from(instance, shape);
    let v = position_from(instance, shape);
    Piece {
        from: events.entry(u),
        inside: events.entry(u + last) + 1,
        until: events.leave(v + last),
        past: events.leave(v) + 1,
        length: block_length(instance, block),
        gain,
    }
}

/// The pieces of candidates.
pub(crate) fn free_pieces(
    alloc: Global,
    instance: &Instance,
    events: &Events,
    candidates: &[Candidate],
) -> Result<Vec<Piece>, AllocError>
    requires events { AreEvents instance.now events.now }
    requires within { All (λ k. IsWithinTrains instance.now k.block) candidates.now }
    requires small { All (λ k. IsWithin 1000000000000000 k.gain) candidates.now }
    ensures { IfOk result
        (λ v. spans_of v.items ≡ spans_with instance.now events.now candidates.now) }
{
    let mut pieces = Vec::with_capacity(alloc, candidates.len())?;
    'candidates: for candidate in candidates {
        pieces.push(piece_of(instance, events, &candidate.block, candidate.gain))?;
    }
    Ok(pieces)
}

/// The pieces of a path's blocks of a stack.
pub(crate) fn fixed_pieces(
    alloc: Global,
    instance: &Instance,
    events: &Events,
    stack: Stack,
    path: &[Block],
) -> Result<Vec<Piece>, AllocError>
    requires events { AreEvents instance.now events.now }
    requires within { All (IsWithinTrains instance.now) path.now }
    ensures { IfOk result
        (λ v. spans_of v.items ≡ fixed_of_stack instance.now events.now path.now (seen stack)) }
{
    let mut pieces = Vec::new(alloc);
    'blocks: for block in path {
        if is_of(stack, block.park) {
            pieces.push(piece_of(instance, events, block, 0))?;
        }
    }
    Ok(pieces)
}
