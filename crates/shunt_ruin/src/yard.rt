// The blocks that stand on each track, and whether one more goes through.

use crate::tables::{ShapeRow, Spot};
use shunt_base::Side;
use std::alloc::{AllocError, Global};

/// A parked block, by its first unit: when it enters and leaves, and by which sides.
#[derive(Clone, Copy, Debug, Drop)]
pub(crate) struct Standing {
    pub(crate) unit: u16,
    arrives: u16,
    departs: u16,
    leaves: u16,
    long: u32,
    side_in: Side,
    side_out: Side,
}

impl Standing {
    /// A shape that is parked somewhere.
    pub(crate) fn new(row: &ShapeRow, spot: &Spot) -> Standing {
        Standing {
            unit: row.unit,
            arrives: row.arrives,
            departs: row.departs,
            leaves: row.leaves,
            long: row.long,
            side_in: spot.park.side_in,
            side_out: spot.park.side_out,
        }
    }

    /// Whether it crosses another that entered before.
    fn crosses(&self, earlier: &Standing) -> bool {
        if self.arrives >= earlier.departs {
            return false;
        }
        if self.leaves < earlier.leaves {
            self.side_out != self.side_in
        } else {
            earlier.side_out == self.side_in
        }
    }

    /// Whether one of both crosses the other.
    fn clashes(&self, other: &Standing) -> bool {
        if other.unit < self.unit {
            self.crosses(other)
        } else {
            other.crosses(self)
        }
    }

    /// Whether it stands there when another has entered.
    fn stands_when(&self, other: &Standing) -> bool {
        self.unit <= other.unit && self.departs > other.arrives
    }
}

/// What stands on a track when one has entered, without one more.
fn load_at(others: &[Standing], entered: &Standing) -> u64 {
    let mut load: u64 = 0;
    for other in others {
        if other.stands_when(entered) {
            load = load.wrapping_add(u64::from(other.long));
        }
    }
    load
}

/// What all of them are long.
fn long_in_all(others: &[Standing]) -> u64 {
    let mut long: u64 = 0;
    for other in others {
        long = long.wrapping_add(u64::from(other.long));
    }
    long
}

/// Whether a track has room for one more with others.
fn has_room(others: &[Standing], standing: &Standing, room: u64) -> bool {
    let own = u64::from(standing.long);
    if own.wrapping_add(long_in_all(others)) <= room {
        return true;
    }
    if own.wrapping_add(load_at(others, standing)) > room {
        return false;
    }
    for other in others {
        if standing.stands_when(other) && own.wrapping_add(load_at(others, other)) > room {
            return false;
        }
    }
    true
}

/// Whether one clashes with none of the others.
fn is_free(others: &[Standing], standing: &Standing) -> bool {
    for other in others {
        if standing.clashes(other) {
            return false;
        }
    }
    true
}

/// For each track what stands there.
#[derive(Debug, Drop)]
pub(crate) struct RuinYard {
    tracks: Vec<Vec<Standing>>,
}

impl RuinYard {
    /// That many tracks, on which nothing stands. Err is want of memory.
    pub(crate) fn new(alloc: Global, many: usize) -> Result<RuinYard, AllocError> {
        let mut tracks = Vec::new(alloc);
        for _track in 0..many {
            tracks.push(Vec::new(alloc))?;
        }
        Ok(RuinYard { tracks })
    }

    /// How many tracks there are.
    pub(crate) fn len(&self) -> usize {
        self.tracks.len()
    }

    /// What stands on a track.
    pub(crate) fn on(&self, track: usize) -> &[Standing] {
        match self.tracks.get(track) {
            Some(standings) => standings,
            None => &[],
        }
    }

    /// One comes to a track. Err is want of memory.
    pub(crate) fn come(&mut self, track: usize, standing: Standing) -> Result<(), AllocError> {
        if track < self.tracks.len() {
            self.tracks[track].push(standing)?;
        }
        Ok(())
    }

    /// The one of a first unit goes from a track.
    pub(crate) fn go(&mut self, track: usize, unit: u16) {
        let Some(place) = self
            .on(track)
            .iter()
            .position(|standing| standing.unit == unit)
        else {
            return;
        };
        if track < self.tracks.len() && place < self.tracks[track].len() {
            self.tracks[track].swap_remove(place);
        }
    }

    /// Whether one more goes through on a track of this length in dm.
    pub(crate) fn goes_through(&self, track: usize, room: u32, standing: &Standing) -> bool {
        let others = self.on(track);
        is_free(others, standing) && has_room(others, standing, u64::from(room))
    }

    /// Whether one clashes with the one at a place on a track.
    pub(crate) fn clashes_at(&self, track: usize, place: usize, standing: &Standing) -> bool {
        match self.on(track).get(place) {
            Some(other) => standing.clashes(other),
            None => false,
        }
    }

    /// The first unit of the one at a place on a track.
    pub(crate) fn unit_at(&self, track: usize, place: usize) -> Option<u16> {
        Some(self.on(track).get(place)?.unit)
    }
}
