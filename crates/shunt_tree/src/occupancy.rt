// The blocks of a path that stand on tracks, and whether the run goes through with one more.
use shunt_base::{EventKey, Stay, compare_keys};
use shunt_blocks::{Block, in_range, stay};
use shunt_cross::crosses;
use shunt_instance::Instance;
use std::alloc::{AllocError, Global};
use std::cmp::Ordering;

/// For each track what stands there, and its length in dm.
#[derive(Drop)]
pub(crate) struct Standing {
    stays: Vec<Vec<Stay>>,
    rooms: Vec<u32>,
}

// The stay of a block, if it is parked.
fn stay_of(instance: &Instance, block: &Block) -> Option<Stay> {
    if !in_range(instance, block) {
        return None;
    }
    stay(instance, block)
}

// Whether a stay stands at a moment.
fn is_there(stay: &Stay, moment: EventKey) -> bool {
    if compare_keys(moment, stay.leave) != Ordering::Less {
        return false;
    }
    compare_keys(stay.enter, moment) != Ordering::Greater
}

// What is there at a moment, added up.
fn load_at(stays: &[Stay], moment: EventKey) -> u64 {
    let mut load = 0u64;
    for stay in stays {
        if is_there(stay, moment) {
            load = load.saturating_add(u64::from(stay.length));
        }
    }
    load
}

// All lengths, added up.
fn length_of(stays: &[Stay]) -> u64 {
    let mut length = 0u64;
    for stay in stays {
        length = length.saturating_add(u64::from(stay.length));
    }
    length
}

// Whether a track has room for one more among others.
fn has_room(stays: &[Stay], stay: &Stay, room: u64) -> bool {
    let own = u64::from(stay.length);
    if length_of(stays).saturating_add(own) <= room {
        return true;
    }
    if load_at(stays, stay.enter).saturating_add(own) > room {
        return false;
    }
    for other in stays {
        if is_there(stay, other.enter) && load_at(stays, other.enter).saturating_add(own) > room {
            return false;
        }
    }
    true
}

// Whether one more is in no other's way.
fn is_free(stays: &[Stay], stay: &Stay) -> bool {
    for other in stays {
        if crosses(other, stay) {
            return false;
        }
        if crosses(stay, other) {
            return false;
        }
    }
    true
}

impl Standing {
    // Tracks on which nothing stands.
    fn new(alloc: Global, instance: &Instance) -> Result<Standing, AllocError> {
        let mut stays = Vec::new(alloc);
        let mut rooms = Vec::new(alloc);
        for track in instance.station().tracks.as_slice() {
            stays.push(Vec::new(alloc))?;
            rooms.push(track.length)?;
        }
        Ok(Standing { stays, rooms })
    }

    fn add(&mut self, stay: Stay) -> Result<(), AllocError> {
        if let Some(stays) = self.stays.get_mut(stay.track.0 as usize) {
            stays.push(stay)?;
        }
        Ok(())
    }

    /// What stands of these blocks. Err is want of memory.
    pub(crate) fn of(
        alloc: Global,
        instance: &Instance,
        blocks: &[Block],
    ) -> Result<Standing, AllocError> {
        let mut standing = Standing::new(alloc, instance)?;
        for block in blocks {
            if let Some(stay) = stay_of(instance, block) {
                standing.add(stay)?;
            }
        }
        Ok(standing)
    }

    // Whether the run goes through with one more stay.
    fn takes(&self, stay: &Stay) -> bool {
        let track = stay.track.0 as usize;
        let Some(stays) = self.stays.get(track) else {
            return false;
        };
        let room = self.rooms.get(track).copied().unwrap_or(0);
        is_free(stays, stay) && has_room(stays, stay, u64::from(room))
    }

    /// Whether the run goes through with one more block, whose id counts for nothing.
    pub(crate) fn goes_through(&self, instance: &Instance, block: &Block) -> bool {
        match stay_of(instance, block) {
            Some(stay) => self.takes(&stay),
            None => block.park.is_none(),
        }
    }
}
