// The greatest sum of what blocks of one stack bring: a table over those events alone at which such blocks come or go.
use crate::numbers::{NOTHING, Number, at, put_at};
use crate::rooms::Rooms;
use std::alloc::{AllocError, Global};
use std::num::Wrapping;

/// A block that brings something: the numbers of its first entry and its last leave, how many units it has, the place of its length, what it
/// brings, its first unit, and its place among the shapes there.
#[derive(Clone, Copy)]
pub(crate) struct Piece {
    pub enters: u16,
    pub leaves: u16,
    pub n: u16,
    pub long: usize,
    pub gain: Number,
    pub u: usize,
    pub place: usize,
}

/// The pieces of a stack in the order of their entries and leaves, with the rooms of its track.
#[derive(Clone, Copy)]
pub(crate) struct Offer<'t> {
    pub pieces: &'t [Piece],
    pub rooms: &'t Rooms,
}

/// A part of the order of events: from one on and before another, with the place of the room that is left there.
#[derive(Clone, Copy)]
pub(crate) struct Part {
    pub from: u16,
    pub to: u16,
    pub room: usize,
}

/// Where the table has a part: from one of its entries on and before one of its ends.
#[derive(Clone, Copy)]
struct Stretch {
    from: usize,
    to: usize,
    room: usize,
}

/// Where a piece, what is inside it and what comes behind it stand in the table.
#[derive(Clone, Copy)]
struct Spot {
    leaves: usize,
    inside_from: usize,
    inside_to: usize,
    behind: usize,
}

/// What isn't known yet, and what brings less than nothing as it is too long.
const UNKNOWN: Number = Wrapping(i64::MIN);

const TOO_LONG: Number = Wrapping(i64::MIN / 2);

/// More than the entries of a night and the blocks that can be chosen of it, twice each.
const STEPS: usize = 1_000;

/// A table of one stack, kept so that no memory is asked for again. A row is for the pieces that go before some end, and for some room. It has
/// the greatest sum from each entry on, from the last one down to where it was asked for. What a piece brings with all that is inside it goes by
/// the room alone, so each row finds it at hand.
#[derive(Drop)]
pub(crate) struct Table {
    // The numbers of entries, and for each the place of its first piece, and how many pieces there are behind the last.
    entries: Vec<u16>,
    firsts: Vec<usize>,
    // The numbers of leaves.
    ends: Vec<u16>,
    spots: Vec<Spot>,
    rooms: usize,
    // For each end and room the first entry from which on the row is known, and its sums.
    known: Vec<usize>,
    sums: Vec<Number>,
    // For each piece and room what it brings with all that is inside it.
    wholes: Vec<Number>,
    left: Vec<Stretch>,
    /// How many pieces were looked at so far, each at an entry of a row.
    pub steps: u64,
}

// How many of these are before a number.
fn count_before(numbers: &[u16], number: u16) -> usize {
    numbers.partition_point(|other| *other < number)
}

impl Table {
    /// An empty one.
    pub(crate) fn new(alloc: Global) -> Table {
        Table {
            entries: Vec::new(alloc),
            firsts: Vec::new(alloc),
            ends: Vec::new(alloc),
            spots: Vec::new(alloc),
            rooms: 0,
            known: Vec::new(alloc),
            sums: Vec::new(alloc),
            wholes: Vec::new(alloc),
            left: Vec::new(alloc),
            steps: 0,
        }
    }

    fn find_entries(&mut self, pieces: &[Piece]) -> Result<(), AllocError> {
        self.entries.clear();
        self.firsts.clear();
        let mut last = None;
        for (place, piece) in pieces.iter().enumerate() {
            if last != Some(piece.enters) {
                last = Some(piece.enters);
                self.entries.push(piece.enters)?;
                self.firsts.push(place)?;
            }
        }
        self.firsts.push(pieces.len())?;
        Ok(())
    }

    fn find_ends(&mut self, pieces: &[Piece]) -> Result<(), AllocError> {
        self.ends.clear();
        for piece in pieces {
            self.ends.push(piece.leaves)?;
        }
        self.ends.sort_unstable();
        self.ends.dedup();
        Ok(())
    }

    fn spot_of(&self, piece: &Piece) -> Spot {
        let first_leave = first_leave(piece.leaves, piece.n);
        Spot {
            leaves: count_before(&self.ends, piece.leaves),
            inside_from: count_before(&self.entries, piece.enters.saturating_add(piece.n)),
            inside_to: count_before(&self.ends, first_leave),
            behind: count_before(&self.entries, piece.leaves.saturating_add(1)),
        }
    }

    fn find_spots(&mut self, pieces: &[Piece]) -> Result<(), AllocError> {
        self.spots.clear();
        for piece in pieces {
            let spot = self.spot_of(piece);
            self.spots.push(spot)?;
        }
        Ok(())
    }

    /// Prepares it for these pieces. Err is want of memory.
    pub(crate) fn prepare(&mut self, offer: Offer<'_>) -> Result<(), AllocError> {
        self.find_entries(offer.pieces)?;
        self.find_ends(offer.pieces)?;
        self.find_spots(offer.pieces)?;
        self.rooms = offer.rooms.len();
        let rows = self.ends.len().saturating_add(1).saturating_mul(self.rooms);
        let wide = self.entries.len();
        self.known.clear();
        self.known.resize(rows, wide)?;
        let cells = rows.saturating_mul(wide);
        if self.sums.len() < cells {
            self.sums.resize(cells, NOTHING)?;
        }
        self.wholes.clear();
        self.wholes
            .resize(offer.pieces.len().saturating_mul(self.rooms), UNKNOWN)?;
        Ok(())
    }

    fn row_of(&self, stretch: Stretch) -> usize {
        stretch
            .to
            .saturating_mul(self.rooms)
            .saturating_add(stretch.room)
    }

    // The sum of a row from an entry on, and nothing behind the last one.
    fn sum_at(&self, row: usize, entry: usize) -> Number {
        let wide = self.entries.len();
        if entry >= wide {
            return NOTHING;
        }
        at(&self.sums, row.saturating_mul(wide).saturating_add(entry))
    }

    fn put_sum(&mut self, row: usize, entry: usize, sum: Number) {
        let place = row.saturating_mul(self.entries.len()).saturating_add(entry);
        put_at(&mut self.sums, place, sum);
        if let Some(known) = self.known.get_mut(row) {
            *known = entry;
        }
    }

    // Whether no piece comes and goes there.
    fn is_empty(&self, stretch: Stretch) -> bool {
        let Some(last) = stretch.to.checked_sub(1) else {
            return true;
        };
        match (self.entries.get(stretch.from), self.ends.get(last)) {
            (Some(entry), Some(end)) => *end < *entry,
            _ => true,
        }
    }

    // The greatest sum of pieces from an entry on and before an end, with some room.
    #[cycle(sums)]
    fn best(&mut self, offer: Offer<'_>, stretch: Stretch) -> Number {
        if self.is_empty(stretch) {
            return NOTHING;
        }
        let row = self.row_of(stretch);
        let known = self.known.get(row).copied().unwrap_or(0);
        'entries: for entry in (stretch.from..known).rev() {
            let sum = self.step(
                offer,
                Stretch {
                    from: entry,
                    ..stretch
                },
                row,
            );
            self.put_sum(row, entry, sum);
        }
        self.sum_at(row, stretch.from)
    }

    // The greatest sum from an entry on, where the row is known behind it.
    #[cycle(sums)]
    fn step(&mut self, offer: Offer<'_>, stretch: Stretch, row: usize) -> Number {
        let mut best = self.sum_at(row, stretch.from.saturating_add(1));
        let (first, behind) = self.pieces_at(stretch.from);
        'pieces: for k in first..behind {
            let Some(spot) = self.spots.get(k).copied() else {
                return best;
            };
            if spot.leaves >= stretch.to {
                return best;
            }
            self.steps = self.steps.saturating_add(1);
            let with = self.whole(offer, stretch, k, spot) + self.sum_at(row, spot.behind);
            best = best.max(with);
        }
        best
    }

    // What a piece brings with all that is inside it, which is found once.
    #[cycle(sums)]
    fn whole(&mut self, offer: Offer<'_>, stretch: Stretch, k: usize, spot: Spot) -> Number {
        let place = k.saturating_mul(self.rooms).saturating_add(stretch.room);
        let known = at(&self.wholes, place);
        if known != UNKNOWN {
            return known;
        }
        let found = self.with_inside(offer, stretch, k, spot);
        put_at(&mut self.wholes, place, found);
        found
    }

    // The same, found anew. What is inside it ends before it does.
    #[cycle(sums)]
    fn with_inside(&mut self, offer: Offer<'_>, stretch: Stretch, k: usize, spot: Spot) -> Number {
        let Some(piece) = offer.pieces.get(k) else {
            return TOO_LONG;
        };
        let Some(room) = offer.rooms.less(stretch.room, piece.long) else {
            return TOO_LONG;
        };
        if stretch.to < 1 {
            return piece.gain;
        }
        let inside = Stretch {
            from: spot.inside_from,
            to: spot.inside_to.min(stretch.to - 1),
            room,
        };
        piece.gain + self.best(offer, inside)
    }

    // The first of the pieces that come at an entry, and the one behind the last.
    fn pieces_at(&self, entry: usize) -> (usize, usize) {
        let first = self.firsts.get(entry).copied().unwrap_or(0);
        let behind = self
            .firsts
            .get(entry.saturating_add(1))
            .copied()
            .unwrap_or(0);
        (first, behind)
    }

    fn stretch_of(&self, part: Part) -> Stretch {
        Stretch {
            from: count_before(&self.entries, part.from),
            to: count_before(&self.ends, part.to),
            room: part.room,
        }
    }

    /// The greatest sum in a part of the order of events.
    pub(crate) fn greatest(&mut self, offer: Offer<'_>, part: Part) -> Number {
        let stretch = self.stretch_of(part);
        self.best(offer, stretch)
    }

    // The piece at an entry with which its row comes to the greatest sum.
    fn pick(&mut self, offer: Offer<'_>, stretch: Stretch, best: Number) -> Option<usize> {
        let row = self.row_of(stretch);
        let (first, behind) = self.pieces_at(stretch.from);
        for k in first..behind {
            let spot = self.spots.get(k).copied()?;
            if spot.leaves >= stretch.to {
                return None;
            }
            if self.whole(offer, stretch, k, spot) + self.sum_at(row, spot.behind) == best {
                return Some(k);
            }
        }
        None
    }

    // Chooses a piece, and leaves what is inside it and what comes behind it.
    fn split(
        &mut self,
        offer: Offer<'_>,
        stretch: Stretch,
        k: usize,
        chosen: &mut Vec<Piece>,
    ) -> Result<(), AllocError> {
        let (Some(spot), Some(piece)) = (self.spots.get(k).copied(), offer.pieces.get(k)) else {
            return Ok(());
        };
        chosen.push(*piece)?;
        if let Some(room) = offer.rooms.less(stretch.room, piece.long) {
            self.left.push(Stretch {
                from: spot.inside_from,
                to: spot.inside_to,
                room,
            })?;
        }
        self.left.push(Stretch {
            from: spot.behind,
            ..stretch
        })?;
        Ok(())
    }

    // Chooses a piece at the entry of a stretch, or leaves the stretch from the next entry on.
    fn choose_at(
        &mut self,
        offer: Offer<'_>,
        stretch: Stretch,
        chosen: &mut Vec<Piece>,
    ) -> Result<(), AllocError> {
        let best = self.best(offer, stretch);
        if best <= NOTHING {
            return Ok(());
        }
        let next = Stretch {
            from: stretch.from.saturating_add(1),
            ..stretch
        };
        if self.best(offer, next) == best {
            self.left.push(next)?;
            return Ok(());
        }
        if let Some(k) = self.pick(offer, stretch, best) {
            self.split(offer, stretch, k, chosen)?;
        }
        Ok(())
    }

    /// Adds the pieces that come to the greatest sum in a part. Err is want of memory.
    pub(crate) fn choose(
        &mut self,
        offer: Offer<'_>,
        part: Part,
        chosen: &mut Vec<Piece>,
    ) -> Result<(), AllocError> {
        self.left.clear();
        let whole = self.stretch_of(part);
        self.left.push(whole)?;
        for _ in 0..STEPS {
            let Some(stretch) = self.left.pop() else {
                return Ok(());
            };
            self.choose_at(offer, stretch, chosen)?;
        }
        Ok(())
    }
}

/// The number of the first leave of a block, by that of its last one and its number of units.
pub(crate) fn first_leave(leaves: u16, n: u16) -> u16 {
    leaves.saturating_add(1).saturating_sub(n)
}
