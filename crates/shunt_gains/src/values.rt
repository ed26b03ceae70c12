// The greatest gain by recursion over the events, row by row.
ghost use Rattle.std.specs.Prelude.{◌≡◌, ◌⊎◌, ℕ, ◌+◌, ◌<◌, ◌≤◌, map, length, IfOk, IfSome, Some};
ghost use Rattle.shunt_lists.specs.defs.Members.{In};
ghost use Rattle.shunt_prices.specs.defs.Sums.{IsWithin};
ghost use Rattle.shunt_stacks.specs.defs.Spans.{Span, greater, plus, greatest_of, best, best_with};
ghost use Rattle.shunt_gains.specs.defs.Tables.{span_of, spans_of, spans_at, ArePieces, IsGain};
ghost use Rattle.shunt_gains.specs.defs.Tables.{AreGainsBefore, IsRow, AreRows, fixed_in, free_in};
ghost use Rattle.shunt_gains.specs.defs.Tables.{events_in};

use crate::pieces::{Piece, Pieces, list_at};
use crate::rows::{Row, RowKey, Rows, found, remember};
use shunt_stacks::laws::nests;
use std::alloc::AllocError;

/// The greater of two gains, where there are such.
fn greater(one: Option<i64>, other: Option<i64>) -> Option<i64>
    ensures { result ≡ greater one other }
{
    match (one, other) {
        (None, other) => other,
        (Some(x), None) => Some(x),
        (Some(x), Some(y)) => Some(x.max(y)),
    }
}

/// A gain with that inside and that behind, where there are both.
fn plus(gain: i64, inside: Option<i64>, behind: Option<i64>) -> Option<i64>
    requires gain { IsWithin 1000000000000000 gain }
    requires inside { IfSome inside (IsWithin 4000000000000000000) }
    requires behind { IfSome behind (IsWithin 4000000000000000000) }
    ensures { result ≡ plus (Some gain) (plus inside behind) }
{
    let inside = inside?;
    let behind = behind?;
    Some(gain + (inside + behind))
}

/// The greatest gain with a piece, where it is gone before the end and no longer than the room. The row has the gains from the events
/// behind the piece's first one on.
#[cycle(values)]
fn with_piece(
    pieces: &Pieces,
    rows: &mut Rows,
    row: &[Option<i64>],
    piece: Piece,
    key: RowKey,
) -> Result<Option<i64>, AllocError>
    requires pieces { ArePieces pieces.now }
    requires rows { AreRows (fixed_in pieces.now) (free_in pieces.now) rows.old }
    requires end { key.end ≤ events_in pieces.now }
    requires piece { In (span_of piece) (fixed_in pieces.now)
        ⊎ In (span_of piece) (free_in pieces.now) }
    requires row { AreGainsBefore (fixed_in pieces.now)
        (free_in pieces.now) key.end key.room row.now }
    requires long { key.end ≤ piece.from + length row.now }
    ensures rows { AreRows (fixed_in pieces.now) (free_in pieces.now) rows.new }
    ensures is { IfOk result (λ g. (n : ℕ) → key.end ≤ piece.from + n → g ≡ best_with
        (best n (fixed_in pieces.now) (free_in pieces.now)) key.end key.room (span_of piece)) }
{
    if piece.past > key.end || piece.length > key.room {
        return Ok(None);
    }
    let behind = row[usize::from(key.end - piece.past)];
    let within = RowKey {
        end: piece.until,
        room: key.room - piece.length,
    };
    let inside = value(pieces, rows, piece.inside, within)?;
    Ok(plus(piece.gain, inside, behind))
}

/// The greatest of a gain and those with the pieces that come at an event.
#[cycle(values)]
fn greatest(
    pieces: &Pieces,
    rows: &mut Rows,
    row: &[Option<i64>],
    without: Option<i64>,
    lists: &[Vec<Piece>],
    x: u16,
    key: RowKey,
) -> Result<Option<i64>, AllocError>
    requires pieces { ArePieces pieces.now }
    requires rows { AreRows (fixed_in pieces.now) (free_in pieces.now) rows.old }
    requires end { key.end ≤ events_in pieces.now }
    requires listed { x < length lists.now }
    requires ours { (s : Span) → In s (spans_at lists.now x)
        → (In s (fixed_in pieces.now) ⊎ In s (free_in pieces.now)) × (s.from ≡ x) }
    requires row { AreGainsBefore (fixed_in pieces.now)
        (free_in pieces.now) key.end key.room row.now }
    requires long { key.end ≤ x + length row.now }
    ensures rows { AreRows (fixed_in pieces.now) (free_in pieces.now) rows.new }
    ensures is { IfOk result (λ g. (n : ℕ) → key.end ≤ x + n → g ≡ greater without (greatest_of
        (map (best_with (best n (fixed_in pieces.now) (free_in pieces.now)) key.end key.room)
        (spans_at lists.now x)))) }
{
    let mut gain = without;
    'pieces: for piece in list_at(lists, x) {
        gain = greater(gain, with_piece(pieces, rows, row, *piece, key)?);
    }
    Ok(gain)
}

/// The greatest gain from an event on, by the row of those from the events behind it on.
#[cycle(values)]
fn step(
    pieces: &Pieces,
    rows: &mut Rows,
    row: &[Option<i64>],
    x: u16,
    key: RowKey,
) -> Result<Option<i64>, AllocError>
    requires pieces { ArePieces pieces.now }
    requires rows { AreRows (fixed_in pieces.now) (free_in pieces.now) rows.old }
    requires start { x < key.end }
    requires end { key.end ≤ events_in pieces.now }
    requires row { AreGainsBefore (fixed_in pieces.now)
        (free_in pieces.now) key.end key.room row.now }
    requires long { key.end ≤ x + length row.now }
    ensures rows { AreRows (fixed_in pieces.now) (free_in pieces.now) rows.new }
    ensures is { IfOk result
        (IsGain (fixed_in pieces.now) (free_in pieces.now) x key.end key.room) }
{
    nests();
    if !list_at(&pieces.fixed_at, x).is_empty() {
        return greatest(pieces, rows, row, None, &pieces.fixed_at, x, key);
    }
    let without = row[usize::from(key.end - x - 1)];
    greatest(pieces, rows, row, without, &pieces.free_at, x, key)
}

/// The row of an end and a room.
#[cycle(values)]
fn filled(pieces: &Pieces, rows: &mut Rows, key: RowKey) -> Result<Row, AllocError>
    requires pieces { ArePieces pieces.now }
    requires rows { AreRows (fixed_in pieces.now) (free_in pieces.now) rows.old }
    requires end { key.end ≤ events_in pieces.now }
    ensures rows { AreRows (fixed_in pieces.now) (free_in pieces.now) rows.new }
    ensures is { IfOk result
        (λ v. IsRow (fixed_in pieces.now) (free_in pieces.now) key.end key.room v.items) }
{
    let mut row = Vec::with_capacity(pieces.alloc, usize::from(key.end) + 1)?;
    row.push(Some(0))?;
    'events: for back in 0..key.end {
        let gain = step(pieces, rows, &row, key.end - 1 - back, key)?;
        row.push(gain)?;
    }
    Ok(row)
}

/// The greatest gain over the events from x on with an end and a room, whose row is found once.
#[cycle(values)]
pub(crate) fn value(
    pieces: &Pieces,
    rows: &mut Rows,
    x: u16,
    key: RowKey,
) -> Result<Option<i64>, AllocError>
    requires pieces { ArePieces pieces.now }
    requires rows { AreRows (fixed_in pieces.now) (free_in pieces.now) rows.old }
    requires end { key.end ≤ events_in pieces.now }
    ensures rows { AreRows (fixed_in pieces.now) (free_in pieces.now) rows.new }
    ensures is { IfOk result
        (IsGain (fixed_in pieces.now) (free_in pieces.now) x key.end key.room) }
{
    if key.end <= x {
        return Ok(Some(0));
    }
    if let Some(gain) = found(rows, x, key) {
        return Ok(gain);
    }
    let row = filled(pieces, rows, key)?;
    let gain = row[usize::from(key.end - x)];
    remember(rows, key, row)?;
    Ok(gain)
}
