// The table of a stack's gains.
ghost use Rattle.std.specs.Prelude.{◌≡◌, ◌<◌, ◌≤◌, pos, IfOk, IfSome, Some, List};
ghost use Rattle.shunt_prices.specs.defs.Sums.{IsWithin};
ghost use Rattle.shunt_stacks.specs.defs.Spans.{Span, AreOwn, best};
ghost use Rattle.shunt_gains.specs.defs.Tables.{span_of, spans_of, AreSmall, IsTable, IsTableOf};
ghost use Rattle.shunt_gains.specs.defs.Tables.{IsGain, fixed_of, free_of, events_of};
ghost use Rattle.shunt_gains.specs.defs.Places.{IsBeside};

use crate::pieces::{Piece, Pieces};
use crate::places::gain_beside;
use crate::rows::{RowKey, Rows};
use crate::values::value;
use std::alloc::{AllocError, Global};
use std::collections::BTreeMap;

/// The fixed and free pieces of a stack, with the rows of gains that are known already.
#[derive(Drop)]
pub struct Table {
    pieces: Pieces,
    rows: Rows,
}

impl Table {
    /// A table of fixed and free pieces, for so many events.
    ///
    /// There are at most 4000 events, the pieces' events are their own, and none gains or loses more than 10^15 thousandths of a cost unit. Err is want of
    /// memory.
    pub fn new(
        alloc: Global,
        fixed: Vec<Piece>,
        free: Vec<Piece>,
        events: u16,
    ) -> Result<Table, AllocError>
        requires few { events ≤ 4000 }
        requires own { AreOwn (spans_of fixed.items) (spans_of free.items) }
        requires small { AreSmall (spans_of fixed.items) (spans_of free.items) }
        ensures { IfOk result (IsTableOf (spans_of fixed.items) (spans_of free.items) events) }
    {
        let pieces = Pieces::new(alloc, fixed, free, events)?;
        Ok(Table {
            pieces,
            rows: BTreeMap::new(alloc),
        })
    }

    /// The greatest gain over the events from x on and before y with a room in dm. None where the fixed pieces don't go.
    ///
    /// Gains with one end and one room are found together, once. Err is want of memory.
    pub fn best(&mut self, x: u16, y: u16, room: u32) -> Result<Option<i64>, AllocError>
        requires table { IsTable self.old }
        requires end { y ≤ events_of self.old }
        ensures table { IsTableOf (fixed_of self.old) (free_of self.old)
            (events_of self.old) self.new }
        ensures best { IfOk result (IsGain (fixed_of self.old) (free_of self.old) x y room) }
    {
        value(&self.pieces, &mut self.rows, x, RowKey { end: y, room })
    }

    /// The greatest gain over all events with a room in dm and with one fixed piece more, which gains nothing, by the gains without it.
    /// None where these don't tell it: where the piece doesn't go, or a free one comes before it.
    ///
    /// The piece's first event and its leaves are among the table's, which are 320 at most. Err is want of memory.
    pub fn beside(&mut self, own: Piece, room: u32) -> Result<Option<i64>, AllocError>
        requires table { IsTable self.old }
        requires few { events_of self.old ≤ 320 }
        requires bare { own.gain ≡ pos 0 }
        requires comes { own.from < events_of self.old }
        requires until { own.until ≤ events_of self.old }
        ensures table { IsTableOf (fixed_of self.old) (free_of self.old)
            (events_of self.old) self.new }
        ensures beside { (others more : List Span)
            → IsBeside (fixed_of self.old) (free_of self.old) others more (span_of own)
            → IfOk result (λ g. IfSome g (λ z. best (events_of self.old) others more 0
            (events_of self.old) room ≡ Some z)) }
        ensures small { IfOk result (λ g. IfSome g (IsWithin 1280000000000000000)) }
    {
        gain_beside(&self.pieces, &mut self.rows, own, room)
    }
}
