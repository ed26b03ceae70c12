// Pieces: what blocks of a stack take of the events, listed by the event at which they come.
ghost use Rattle.std.specs.Prelude.{◌≡◌, ◌<◌, ◌≤◌, length, IfOk};
ghost use Rattle.shunt_stacks.specs.defs.Spans.{AreOwn, coming_at};
ghost use Rattle.shunt_gains.specs.defs.Tables.{spans_of, spans_at, AreByEvent, AreSmall};
ghost use Rattle.shunt_gains.specs.defs.Tables.{ArePieces, fixed_in, free_in, events_in};

use std::alloc::{AllocError, Global};

/// What a block of a stack takes of the events in their order: its entries are those from `from` on and before `inside`, its leaves those
/// from `until` on and before `past`. The length is in dm, the gain in thousandths of a cost unit.
#[derive(Clone, Copy, Drop)]
pub struct Piece {
    pub from: u16,
    pub inside: u16,
    pub until: u16,
    pub past: u16,
    pub length: u32,
    pub gain: i64,
}

/// The fixed and the free pieces of a stack, as they were given and by event.
#[derive(Drop)]
pub(crate) struct Pieces {
    pub alloc: Global,
    pub fixed: Vec<Piece>,
    pub free: Vec<Piece>,
    pub fixed_at: Vec<Vec<Piece>>,
    pub free_at: Vec<Vec<Piece>>,
}

/// Those of these pieces that come at an event.
fn coming_at(alloc: Global, pieces: &[Piece], x: u16) -> Result<Vec<Piece>, AllocError>
    ensures { IfOk result (λ v. spans_of v.items ≡ coming_at x (spans_of pieces.now)) }
{
    let mut coming = Vec::new(alloc);
    'pieces: for piece in pieces {
        if piece.from == x {
            coming.push(*piece)?;
        }
    }
    Ok(coming)
}

/// These pieces by the event at which they come.
fn by_event(alloc: Global, pieces: &[Piece], events: u16) -> Result<Vec<Vec<Piece>>, AllocError>
    ensures { IfOk result (λ v. AreByEvent (spans_of pieces.now) events v.items) }
{
    let mut lists = Vec::new(alloc);
    'events: for x in 0..events {
        lists.push(coming_at(alloc, pieces, x)?)?;
    }
    Ok(lists)
}

/// The pieces of a list by event that come at an event.
pub(crate) fn list_at(lists: &[Vec<Piece>], x: u16) -> &[Piece]
    requires { x < length lists.now }
    ensures { spans_of result.now ≡ spans_at lists.now x }
{
    &lists[usize::from(x)]
}

impl Pieces {
    /// Lists pieces by event.
    pub(crate) fn new(
        alloc: Global,
        fixed: Vec<Piece>,
        free: Vec<Piece>,
        events: u16,
    ) -> Result<Pieces, AllocError>
        requires few { events ≤ 4000 }
        requires own { AreOwn (spans_of fixed.items) (spans_of free.items) }
        requires small { AreSmall (spans_of fixed.items) (spans_of free.items) }
        ensures pieces { IfOk result ArePieces }
        ensures fixed_same { IfOk result (λ p. fixed_in p ≡ spans_of fixed.items) }
        ensures free_same { IfOk result (λ p. free_in p ≡ spans_of free.items) }
        ensures events_same { IfOk result (λ p. events_in p ≡ events) }
    {
        let fixed_at = by_event(alloc, &fixed, events)?;
        let free_at = by_event(alloc, &free, events)?;
        Ok(Pieces {
            alloc,
            fixed,
            free,
            fixed_at,
            free_at,
        })
    }
}
