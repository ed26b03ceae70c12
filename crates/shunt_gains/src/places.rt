// The place at which a piece more would stand among the fixed ones, and what is gained with it.
ghost use Rattle.std.specs.Prelude.{◌≡◌, ◌<◌, ◌≤◌, ℕ, pos, IfOk, IfSome, Some, List};
ghost use Rattle.shunt_prices.specs.defs.Sums.{IsWithin};
ghost use Rattle.shunt_stacks.specs.defs.Spans.{Span, best};
ghost use Rattle.shunt_gains.specs.defs.Tables.{span_of, ArePieces, AreRows};
ghost use Rattle.shunt_gains.specs.defs.Tables.{fixed_in, free_in, events_in};
ghost use Rattle.shunt_gains.specs.defs.Places.{IsPast, IsPlaceAt, Surround, IsBeside, IsInPlace};

use crate::pieces::{Piece, Pieces, list_at};
use crate::rows::{RowKey, Rows};
use crate::values::value;
use shunt_stacks::laws::nests;
use std::alloc::AllocError;

/// The events from x on and before an end, with the room that is left there in dm.
#[derive(Clone, Copy, Drop)]
pub struct Place {
    pub x: u16,
    pub end: u16,
    pub room: u32,
}

/// Where one comes by a fixed piece at the start of a place: behind it where it has left by an event, and inside it where it stands there.
/// None where it doesn't go, or the event is one of its own.
fn past_piece(place: Place, piece: Piece, at: u16) -> Option<Place>
    ensures { IfSome result (IsPast at place (span_of piece)) }
{
    if piece.past > place.end || piece.length > place.room {
        return None;
    }
    if piece.past <= at {
        return Some(Place {
            x: piece.past,
            end: place.end,
            room: place.room,
        });
    }
    if piece.inside > at || piece.until <= at {
        return None;
    }
    Some(Place {
        x: piece.inside,
        end: piece.until,
        room: place.room - piece.length,
    })
}

/// The next place on the way to an event. None where a fixed piece doesn't go, or a free one comes before the event.
fn next_place(pieces: &Pieces, place: Place, at: u16) -> Option<Place>
    requires pieces { ArePieces pieces.now }
    requires place { IsPlaceAt (events_in pieces.now) at place }
    requires before { place.x < at }
    ensures later { IfSome result (λ q. place.x < q.x) }
    ensures there { IfSome result (IsPlaceAt (events_in pieces.now) at) }
    ensures leads { (room : ℕ) → Surround (fixed_in pieces.now)
        (free_in pieces.now) (events_in pieces.now) room at place
        → IfSome result (Surround (fixed_in pieces.now)
        (free_in pieces.now) (events_in pieces.now) room at) }
{
    nests();
    if let Some(piece) = list_at(&pieces.fixed_at, place.x).first() {
        return past_piece(place, *piece, at);
    }
    if !list_at(&pieces.free_at, place.x).is_empty() {
        return None;
    }
    Some(Place {
        x: place.x + 1,
        end: place.end,
        room: place.room,
    })
}

/// The place that an event begins, up to where the fixed pieces stand that stand there. None where one doesn't go, or a free one comes
/// before the event.
fn place_at(pieces: &Pieces, at: u16, room: u32) -> Option<Place>
    requires pieces { ArePieces pieces.now }
    requires within { at < events_in pieces.now }
    ensures there { IfSome result (IsPlaceAt (events_in pieces.now) at) }
    ensures begins { IfSome result (λ p. p.x ≡ at) }
    ensures surround { IfSome result (Surround (fixed_in pieces.now)
        (free_in pieces.now) (events_in pieces.now) room at) }
{
    let mut place = Place {
        x: 0,
        end: pieces.fixed_at.len() as u16,
        room,
    };
    'places: while place.x < at {
        place = next_place(pieces, place, at)?;
    }
    Some(place)
}

/// What is gained with a piece more that gains nothing, by what is gained over all events, at its place without it, inside it and behind it.
fn in_place(
    whole: Option<i64>,
    without: Option<i64>,
    inside: Option<i64>,
    behind: Option<i64>,
) -> Option<i64>
    requires whole { IfSome whole (IsWithin 320000000000000000) }
    requires without { IfSome without (IsWithin 320000000000000000) }
    requires inside { IfSome inside (IsWithin 320000000000000000) }
    requires behind { IfSome behind (IsWithin 320000000000000000) }
    ensures exact { IfSome result (IsInPlace whole without inside behind) }
    ensures small { IfSome result (IsWithin 1280000000000000000) }
{
    let whole = whole?;
    let without = without?;
    let inside = inside?;
    let behind = behind?;
    Some(whole - without + (inside + behind))
}

/// The greatest gain with one fixed piece more, which gains nothing, by the gains without it. None where they don't tell it: where it
/// doesn't go, or a free piece comes before it.
pub(crate) fn gain_beside(
    pieces: &Pieces,
    rows: &mut Rows,
    own: Piece,
    room: u32,
) -> Result<Option<i64>, AllocError>
    requires pieces { ArePieces pieces.now }
    requires rows { AreRows (fixed_in pieces.now) (free_in pieces.now) rows.old }
    requires few { events_in pieces.now ≤ 320 }
    requires bare { own.gain ≡ pos 0 }
    requires comes { own.from < events_in pieces.now }
    requires until { own.until ≤ events_in pieces.now }
    ensures rows { AreRows (fixed_in pieces.now) (free_in pieces.now) rows.new }
    ensures beside { (others more : List Span)
        → IsBeside (fixed_in pieces.now) (free_in pieces.now) others more (span_of own)
        → IfOk result (λ g. IfSome g (λ z. best (events_in pieces.now) others more 0
        (events_in pieces.now) room ≡ Some z)) }
    ensures small { IfOk result (λ g. IfSome g (IsWithin 1280000000000000000)) }
{
    nests();
    let Some(place) = place_at(pieces, own.from, room) else {
        return Ok(None);
    };
    if own.past > place.end || own.length > place.room {
        return Ok(None);
    }
    let all = RowKey {
        end: pieces.fixed_at.len() as u16,
        room,
    };
    let there = RowKey {
        end: place.end,
        room: place.room,
    };
    let within = RowKey {
        end: own.until,
        room: place.room - own.length,
    };
    let whole = value(pieces, rows, 0, all)?;
    let without = value(pieces, rows, own.from, there)?;
    let inside = value(pieces, rows, own.inside, within)?;
    let behind = value(pieces, rows, own.past, there)?;
    Ok(in_place(whole, without, inside, behind))
}
