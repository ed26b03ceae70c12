// The lanes of the tracks.
ghost use Rattle.std.specs.Prelude.{◌≡◌, ◌≤◌, ◌<◌, ◌+◌, min, max, All, map, length, IfOk};
ghost use Rattle.std.specs.Prelude.{slice_get, Some};
ghost use Rattle.shunt_blocks.specs.defs.Shapes.{IsWithinTrains};
ghost use Rattle.shunt_blocks.specs.defs.Lists.{AreInRange};
ghost use Rattle.shunt_picture.specs.defs.Rows.{IsRowAmong};
ghost use Rattle.shunt_picture.specs.defs.Lanes.{bar_of, first_of, last_of, IsLaneOf};

use crate::levels::levels_of;
use crate::records::{Bar, Lane};
use crate::rows::{StaySeat, seats_of};
use crate::told::told_of;
use crate::track_stays::{Standing, sorted_on};
use shunt_audit::types::Finding;
use shunt_base::{Stay, TrackId, copy_name};
use shunt_blocks::Block;
use shunt_instance::{Instance, Track};
use shunt_lists::Items;
use std::alloc::{AllocError, Global};

fn bar_of(
    alloc: Global,
    instance: &Instance,
    findings: &[Finding],
    seat: &StaySeat,
) -> Result<Bar, AllocError>
    requires { IsWithinTrains instance.now seat.now.standing.block }
    ensures { IfOk result (λ b. b ≡ bar_of instance.now findings.now seat.now) }
{
    let told = told_of(alloc, instance, findings, &seat.standing.block)?;
    Ok(Bar {
        block: seat.standing.block,
        stay: seat.standing.stay,
        row: seat.row,
        told,
    })
}

fn bars_of(
    alloc: Global,
    instance: &Instance,
    findings: &[Finding],
    seats: &[StaySeat],
) -> Result<Vec<Bar>, AllocError>
    requires { All (λ s. IsWithinTrains instance.now s.standing.block) seats.now }
    ensures { IfOk result (λ v. v.items ≡ map (bar_of instance.now findings.now) seats.now) }
{
    let mut bars = Vec::new(alloc);
    for seat in seats {
        let bar = bar_of(alloc, instance, findings, seat)?;
        bars.push(bar)?;
    }
    Ok(bars)
}

fn stays_in(alloc: Global, standings: &[Standing]) -> Result<Vec<Stay>, AllocError>
    ensures { IfOk result (λ v. v.items ≡ map (λ s. s.stay) standings.now) }
{
    let mut stays = Vec::new(alloc);
    for standing in standings {
        stays.push(standing.stay)?;
    }
    Ok(stays)
}

// The upper one of a row and that of a seat.
fn upper(row: u16, seat: &StaySeat) -> u16
    ensures { result ≡ min row seat.now.row }
{
    row.min(seat.row)
}

// The lower one of them.
fn lower(row: u16, seat: &StaySeat) -> u16
    ensures { result ≡ max row seat.now.row }
{
    row.max(seat.row)
}

// The uppermost row of these, or 900.
fn first_row(seats: &[StaySeat]) -> u16
    ensures exact { result ≡ first_of (map (λ s. s.row) seats.now) }
    ensures least { All (λ s. result ≤ s.row) seats.now }
{
    let mut first = 900;
    for seat in seats {
        first = upper(first, seat);
    }
    first
}

// The lowest row, or 0.
fn last_row(seats: &[StaySeat]) -> u16
    requires { All (λ s. IsRowAmong (length seats.now) s.row) seats.now }
    ensures exact { result ≡ last_of (map (λ s. s.row) seats.now) }
    ensures greatest { All (λ s. s.row ≤ result) seats.now }
    ensures small { result < 400 + length seats.now }
{
    let mut last = 0;
    for seat in seats {
        last = lower(last, seat);
    }
    last
}

fn head_of(alloc: Global, instance: &Instance, track: TrackId) -> Result<Track, AllocError>
    requires { track.0 < length instance.now.station.tracks }
    ensures { IfOk result (λ t. slice_get instance.now.station.tracks track.0 ≡ Some t) }
{
    let track = &instance.station().tracks.as_slice()[usize::from(track.0)];
    Ok(Track {
        name: copy_name(alloc, &track.name)?,
        length: track.length,
        side_a: track.side_a,
        side_b: track.side_b,
    })
}

// The lane of a track, in a picture from one minute to another.
pub(crate) fn lane_of(
    alloc: Global,
    instance: &Instance,
    findings: &[Finding],
    blocks: &[Block],
    track: TrackId,
    from: u16,
    to: u16,
    top: u32,
) -> Result<Lane, AllocError>
    requires track { track.0 < length instance.now.station.tracks }
    requires blocks { AreInRange instance.now blocks.now }
    ensures lane { IfOk result (λ l. IsLaneOf instance.now findings.now blocks.now from to l) }
    ensures track { IfOk result (λ l. l.track ≡ track) }
    ensures top { IfOk result (λ l. l.top ≡ top) }
    ensures low { IfOk result (λ l. l.last < 800) }
{
    let standings = sorted_on(alloc, instance, blocks, track)?;
    let seats = seats_of(alloc, &standings, from, findings.is_empty())?;
    let stays = stays_in(alloc, &standings)?;
    let head = head_of(alloc, instance, track)?;
    let bars = bars_of(alloc, instance, findings, &seats)?;
    let levels = levels_of(alloc, &stays, from, to)?;
    Ok(Lane {
        track,
        head,
        first: first_row(&seats),
        last: last_row(&seats),
        bars: Items::from_vec(bars),
        levels: Items::from_vec(levels),
        top,
    })
}
