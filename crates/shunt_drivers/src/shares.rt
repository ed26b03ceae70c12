// Moves are shared in key order, each by the first driver who is free.
ghost use Rattle.std.specs.Prelude.{◌≡◌, ◌≤◌, ◌<◌, All, AllPairs, Some, cond, length, map};
ghost use Rattle.std.specs.Prelude.{slice_index, IfOk, IfNone, IfSome};
ghost use Rattle.shunt_drivers.specs.defs.SharedMoves.{AddsShare, IsLeast};

use std::alloc::{AllocError, Global};

/// A move runs from a minute on, up to another that isn't counted.
#[derive(Clone, Copy, Debug, PartialEq, Eq, Drop)]
pub struct MoveSpan {
    pub start: u16,
    pub end: u16,
}

/// A move with its driver, counted from 0.
#[derive(Clone, Copy, Debug, PartialEq, Eq, Drop)]
pub struct MoveShare {
    pub span: MoveSpan,
    pub driver: usize,
}

/// Moves with their drivers.
#[derive(Debug, Drop)]
pub struct MoveShares {
    /// The moves in the order in which they were given.
    pub shares: Vec<MoveShare>,
    /// How many drivers there are, each with a move.
    pub drivers: usize,
    /// The first minute at which as many moves run as there are drivers; None where there are no moves.
    pub busy: Option<u16>,
}

// The first driver who is free at a minute, by the minutes from which on each is.
fn first_free(free: &[u16], minute: u16) -> Option<usize>
    ensures none { IfNone result (All (λ f. minute < f) free.now) }
    ensures some { IfSome result (λ k. (k < length free.now) × (slice_index free.now k ≤ minute)) }
{
    free.iter().position(|from| *from <= minute)
}

// Shares one more move: the first driver who is free takes it, else a new one. Answers whether there is a new one.
fn add_share(
    shares: &mut Vec<MoveShare>,
    free: &mut Vec<u16>,
    span: MoveSpan,
) -> Result<bool, AllocError>
    ensures { IfOk result
        (AddsShare shares.old.items shares.new.items free.old.items free.new.items span) }
{
    match first_free(free, span.start) {
        Some(driver) => {
            free[driver] = span.end;
            shares.push(MoveShare { span, driver })?;
            Ok(false)
        }
        None => {
            let driver = free.len();
            free.push(span.end)?;
            shares.push(MoveShare { span, driver })?;
            Ok(true)
        }
    }
}

fn busy_after(busy: Option<u16>, new: bool, start: u16) -> Option<u16>
    ensures { result ≡ cond new (Some start) busy }
{
    if new { Some(start) } else { busy }
}

/// Shares these moves among as few drivers as can be. They stand by their starts, and each runs for a minute at least.
///
/// The error is want of memory.
pub fn share_spans(alloc: Global, spans: &[MoveSpan]) -> Result<MoveShares, AllocError>
    requires rise { AllPairs (λ a b. a.start ≤ b.start) spans.now }
    requires run { All (λ s. s.start < s.end) spans.now }
    ensures { IfOk result (λ s. IsLeast spans.now s.shares.items s.drivers s.busy) }
{
    let mut shares = Vec::new(alloc);
    let mut free = Vec::new(alloc);
    let mut busy = None;
    for span in spans {
        let new = add_share(&mut shares, &mut free, *span)?;
        busy = busy_after(busy, new, span.start);
    }
    Ok(MoveShares {
        shares,
        drivers: free.len(),
        busy,
    })
}
