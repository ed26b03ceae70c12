// The rows of a lane.
ghost use Rattle.std.specs.Prelude.{◌≡◌, ◌≢◌, ◌≤◌, ◌<◌, ◌+◌, max, false, IsTrue, All, AllPairs};
ghost use Rattle.std.specs.Prelude.{map, length, IfOk};
ghost use Rattle.shunt_picture.specs.defs.Rows.{AreRowsApart, HaveRoom, ShowsOrder, IsBeyond};
ghost use Rattle.shunt_picture.specs.defs.Rows.{IsRowAmong};

use crate::track_stays::Standing;
use shunt_base::Side;
use std::alloc::{AllocError, Global};

// A stay with its row, of which it takes the room until a minute.
#[derive(Clone, Copy, Drop)]
pub(crate) struct StaySeat {
    pub(crate) standing: Standing,
    pub(crate) row: u16,
    pub(crate) until: u32,
}

// The least row of those that stand after a minute, or 900.
fn lowest(seats: &[StaySeat], minute: u32) -> u16
    requires { All (λ s. IsRowAmong (length seats.now) s.row) seats.now }
    ensures least { All (λ s. minute < s.until → result ≤ s.row) seats.now }
    ensures from { 401 ≤ result + length seats.now }
    ensures to { result ≤ 900 }
    ensures some { result < 900 → result < 400 + length seats.now }
{
    let mut lowest = 900;
    for seat in seats {
        if seat.until > minute {
            lowest = seat.row.min(lowest);
        }
    }
    lowest
}

// The greatest row of those that stand after a minute, or 0.
fn highest(seats: &[StaySeat], minute: u32) -> u16
    requires { All (λ s. IsRowAmong (length seats.now) s.row) seats.now }
    ensures greatest { All (λ s. minute < s.until → s.row ≤ result) seats.now }
    ensures from { 0 < result → 401 ≤ result + length seats.now }
    ensures to { result < 400 + length seats.now }
{
    let mut highest = 0;
    for seat in seats {
        if seat.until > minute {
            highest = seat.row.max(highest);
        }
    }
    highest
}

// A row before those that stand.
fn row_before(seats: &[StaySeat], minute: u32) -> u16
    requires among { All (λ s. IsRowAmong (length seats.now) s.row) seats.now }
    requires few { length seats.now < 400 }
    ensures before { All (λ s. minute < s.until → result < s.row) seats.now }
    ensures among { IsRowAmong (length seats.now + 1) result }
{
    let lowest = lowest(seats, minute);
    if lowest == 900 { 400 } else { lowest - 1 }
}

// A row behind those that stand.
fn row_behind(seats: &[StaySeat], minute: u32) -> u16
    requires among { All (λ s. IsRowAmong (length seats.now) s.row) seats.now }
    requires few { length seats.now < 400 }
    ensures behind { All (λ s. minute < s.until → s.row < result) seats.now }
    ensures among { IsRowAmong (length seats.now + 1) result }
{
    let highest = highest(seats, minute);
    if highest == 0 { 400 } else { highest + 1 }
}

// Whether nobody stands in a row after a minute.
fn is_free(seats: &[StaySeat], row: u16, minute: u32) -> bool
    ensures { IsTrue result → All (λ s. minute < s.until → s.row ≢ row) seats.now }
{
    for seat in seats {
        if seat.until > minute && seat.row == row {
            return false;
        }
    }
    true
}

// The first row in which nobody stands.
fn free_row(seats: &[StaySeat], minute: u32) -> u16
    requires among { All (λ s. IsRowAmong (length seats.now) s.row) seats.now }
    requires few { length seats.now < 400 }
    ensures free { All (λ s. minute < s.until → s.row ≢ result) seats.now }
    ensures among { IsRowAmong (length seats.now + 1) result }
{
    let last = 400 + seats.len() as u16;
    for row in 400..last {
        if is_free(seats, row, minute) {
            return row;
        }
    }
    last
}

// The row by the side at which one enters.
fn row_by_side(seats: &[StaySeat], minute: u32, side: Side) -> u16
    requires among { All (λ s. IsRowAmong (length seats.now) s.row) seats.now }
    requires few { length seats.now < 400 }
    ensures beyond { All (λ s. minute < s.until → IsBeyond side result s.row) seats.now }
    ensures free { All (λ s. minute < s.until → s.row ≢ result) seats.now }
    ensures among { IsRowAmong (length seats.now + 1) result }
{
    match side {
        Side::A => row_before(seats, minute),
        Side::B => row_behind(seats, minute),
    }
}

// The next seat in a picture that begins at a minute. If the picture shows the order, it keeps its row until its leave; else for 70
// minutes at least, so that there is room for marks.
fn seat_of(seats: &[StaySeat], standing: Standing, from: u16, is_ordered: bool) -> StaySeat
    requires among { All (λ s. IsRowAmong (length seats.now) s.row) seats.now }
    requires few { length seats.now < 400 }
    ensures of { result.standing ≡ standing }
    ensures until { standing.stay.leave.minute ≤ result.until }
    ensures enter { standing.stay.enter.minute ≤ result.until }
    ensures room { is_ordered ≡ false → max standing.stay.enter.minute from + 70 ≤ result.until }
    ensures free { All (λ s. standing.stay.enter.minute < s.until → s.row ≢ result.row) seats.now }
    ensures order { IsTrue is_ordered → All (λ s. standing.stay.enter.minute < s.until
        → IsBeyond standing.stay.side_in result.row s.row) seats.now }
    ensures among { IsRowAmong (length seats.now + 1) result.row }
{
    let enter = u32::from(standing.stay.enter.minute);
    let leave = u32::from(standing.stay.leave.minute);
    if is_ordered {
        return StaySeat {
            standing,
            row: row_by_side(seats, enter, standing.stay.side_in),
            until: leave.max(enter),
        };
    }
    StaySeat {
        standing,
        row: free_row(seats, enter),
        until: leave.max(enter.max(u32::from(from)) + 70),
    }
}

// The seats of the stays on a track, one after the other.
pub(crate) fn seats_of(
    alloc: Global,
    standings: &[Standing],
    from: u16,
    is_ordered: bool,
) -> Result<Vec<StaySeat>, AllocError>
    requires { length standings.now ≤ 400 }
    ensures same { IfOk result (λ v. map (λ s. s.standing) v.items ≡ standings.now) }
    ensures few { IfOk result (λ v. length v.items ≤ 400) }
    ensures apart { IfOk result (λ v. AllPairs AreRowsApart v.items) }
    ensures room { IfOk result (λ v. AllPairs (HaveRoom from is_ordered) v.items) }
    ensures order { IfOk result (λ v. IsTrue is_ordered → AllPairs ShowsOrder v.items) }
    ensures among { IfOk result (λ v. All (λ s. IsRowAmong (length v.items) s.row) v.items) }
{
    let mut seats = Vec::new(alloc);
    for standing in standings {
        let seat = seat_of(&seats, *standing, from, is_ordered);
        seats.push(seat)?;
    }
    Ok(seats)
}
