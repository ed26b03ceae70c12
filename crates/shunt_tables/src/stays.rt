// Stays on tracks: the clashes among them, and how the run of the track lists goes.
ghost use Rattle.std.specs.Prelude.{◌≡◌, ◌<◌, ◌≤◌, length, IfOk, IfSome};
ghost use Rattle.std.specs.List.{All};
ghost use Rattle.shunt_base.specs.defs.Keys.{AreStays, IsWellFormed};
ghost use Rattle.shunt_stays.specs.defs.Run.{AreOnTracks};

use crate::files::{field, number};
use shunt_base::{EventKey, Side, Stay, TrackId, parse_minute};
use shunt_cross::clashes;
use shunt_rows::{Row, records};
use shunt_tracks::{Ran, Step, run_lists};
use std::alloc::{AllocError, Global};

/// The minutes of a stay, and its place in both its trains: as a leave it counts from the other end.
#[derive(Clone, Copy, Drop)]
struct Times {
    from: u16,
    to: u16,
    place: u8,
}

/// A stay that enters and leaves at these minutes.
pub(crate) fn stay(
    id: u32,
    track: u8,
    length: u32,
    sides: (Side, Side),
    minutes: (u16, u16),
    place: u8,
) -> Stay
    requires minutes { minutes.0 < minutes.1 }
    requires place { place ≤ 9 }
    ensures formed { IsWellFormed result }
    ensures id { result.id ≡ id }
    ensures track { result.track.0 ≡ track }
{
    Stay {
        id,
        track: TrackId(track),
        side_in: sides.0,
        side_out: sides.1,
        enter: EventKey {
            minute: minutes.0,
            enters: true,
            train: 0,
            place,
            id,
        },
        leave: EventKey {
            minute: minutes.1,
            enters: false,
            train: 0,
            place: 9 - place,
            id,
        },
        length,
    }
}

fn side(text: &[u8]) -> Side {
    if text == b"B".as_slice() {
        Side::B
    } else {
        Side::A
    }
}

fn minute(text: &[u8]) -> Option<u16> {
    let minute = parse_minute(text)?;
    Some(minute.number())
}

// When a record's stay enters and leaves, and its place. None where it doesn't leave later.
fn span(row: &Row) -> Option<Times>
    ensures minutes { IfSome result (λ s. s.from < s.to) }
    ensures place { IfSome result (λ s. s.place ≤ 9) }
{
    let from = minute(field(row, 5))?;
    let to = minute(field(row, 6))?;
    let place = number(row, 7)?;
    if from >= to || place > 9 {
        return None;
    }
    Some(Times {
        from,
        to,
        place: place as u8,
    })
}

// The track of a record's stay, one of that many.
fn track(row: &Row, tracks: usize) -> Option<u8>
    ensures { IfSome result (λ t. t < tracks) }
{
    let track = number(row, 1)?;
    if track >= tracks as u64 || track >= 256 {
        return None;
    }
    Some(track as u8)
}

// The stay of a record: a track, a length in dm, the sides by which it enters and leaves, the times, and a place.
fn stay_of(row: &Row, id: u32, tracks: usize) -> Option<Stay>
    ensures formed { IfSome result IsWellFormed }
    ensures id { IfSome result (λ s. s.id ≡ id) }
    ensures track { IfSome result (λ s. s.track.0 < tracks) }
{
    let track = track(row, tracks)?;
    let span = span(row)?;
    let length = u32::try_from(number(row, 2)?).ok()?;
    let sides = (side(field(row, 3)), side(field(row, 4)));
    Some(stay(id, track, length, sides, (span.from, span.to), span.place))
}

// Whether each record is a stay on one of that many tracks.
fn are_stays(rows: &[Row], tracks: usize) -> bool {
    for row in rows {
        if stay_of(row, 0, tracks).is_none() {
            return false;
        }
    }
    true
}

// The stay of a record, with a number. One of a minute on the first track where the record has none, which is looked at before.
fn stay_at(row: &Row, number: u16, tracks: usize) -> Stay
    requires { 0 < tracks }
    ensures formed { IsWellFormed result }
    ensures id { result.id ≡ number }
    ensures track { result.track.0 < tracks }
{
    match stay_of(row, u32::from(number), tracks) {
        Some(found) => found,
        None => stay(u32::from(number), 0, 1, (Side::A, Side::A), (0, 1), 0),
    }
}

// The stays of that many records, numbered from 0.
fn stays(alloc: Global, rows: &[Row], count: u16, tracks: usize) -> Result<Vec<Stay>, AllocError>
    requires count { count ≤ length rows.now }
    requires tracks { 0 < tracks }
    ensures formed { IfOk result (λ v. AreStays v.items) }
    ensures tracks { IfOk result (λ v. All (λ s. s.track.0 < tracks) v.items) }
    ensures count { IfOk result (λ v. length v.items ≡ count) }
{
    let mut all = Vec::new(alloc);
    for number in 0..count {
        all.push(stay_at(&rows[usize::from(number)], number, tracks))?;
    }
    Ok(all)
}

// The lengths of tracks, from the fields of a record.
fn lengths(alloc: Global, row: &Row) -> Option<Vec<u32>> {
    let mut lengths = Vec::new(alloc);
    for k in 0..row.len() {
        let length = u32::try_from(number(row, k.saturating_add(1))?).ok()?;
        lengths.push(length).ok()?;
    }
    Some(lengths)
}

// Adds a step: the number of its block, and the load that it leaves.
fn push_step(alloc: Global, text: &mut Vec<u8>, step: &Step) -> Result<(), AllocError> {
    let (id, load) = (step.event.key.id, step.load);
    let words = format!(in alloc; " {id} {load}")?;
    text.extend_from_slice(words.as_bytes())
}

fn through(alloc: Global, steps: &[Step]) -> Result<Vec<u8>, AllocError> {
    let mut text = Vec::from_slice(alloc, b"through")?;
    for step in steps {
        push_step(alloc, &mut text, step)?;
    }
    Ok(text)
}

// The first event that can't be done, by its block, with the minute at which it should leave, or the load that it would leave.
fn stopped(alloc: Global, word: &str, number: u64, id: u32) -> Result<Vec<u8>, AllocError> {
    let text = format!(in alloc; "{word} {id} {number}")?;
    Vec::from_slice(alloc, text.as_bytes())
}

fn told(alloc: Global, ran: &Ran) -> Result<Vec<u8>, AllocError> {
    match ran {
        Ran::Through(steps) => through(alloc, steps.as_slice()),
        Ran::Blocked(event) => stopped(alloc, "blocked", u64::from(event.key.minute), event.key.id),
        Ran::Over { event, load } => stopped(alloc, "over", *load, event.key.id),
    }
}

// Whether the run of the lists goes as a text says.
fn runs(alloc: Global, lengths: &[u32], stays: &[Stay], text: &[u8]) -> Option<bool>
    requires stays { AreStays stays.now }
    requires tracks { AreOnTracks lengths.now stays.now }
{
    let Ok(ran) = run_lists(alloc, lengths, stays) else {
        return None;
    };
    let told = told(alloc, &ran).ok()?;
    Some(told.as_slice() == text)
}

// Whether there are that many crossings and overs.
fn clash(lengths: &[u32], stays: &[Stay], pairs: u64, over: u64) -> bool
    requires stays { AreStays stays.now }
    requires tracks { AreOnTracks lengths.now stays.now }
    requires few { length stays.now ≤ 65536 }
{
    let found = clashes(lengths, stays);
    u64::from(found.pairs) == pairs && u64::from(found.over) == over
}

// Whether the stays of records clash, and run, as a record of the table says.
fn are_judged(alloc: Global, lengths: &[u32], rows: &[Row], row: &Row) -> Option<bool> {
    if rows.len() > 1_000 || lengths.is_empty() || !are_stays(rows, lengths.len()) {
        return None;
    }
    let Ok(stays) = stays(alloc, rows, rows.len() as u16, lengths.len()) else {
        return None;
    };
    let clash = clash(lengths, &stays, number(row, 2)?, number(row, 3)?);
    Some(clash && runs(alloc, lengths, &stays, field(row, 4))?)
}

/// A record is the lengths of tracks in dm, how many pairs cross, how many entries are over, how the run goes, and the stays.
pub(crate) fn is_clash(alloc: Global, row: &Row) -> Option<bool> {
    let tracks = records(alloc, field(row, 1)).ok()?;
    let lengths = lengths(alloc, tracks.first()?)?;
    let rows = records(alloc, field(row, 5)).ok()?;
    are_judged(alloc, &lengths, &rows, row)
}
