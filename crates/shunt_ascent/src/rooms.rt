// The rooms that blocks can leave of a track.
use std::alloc::{AllocError, Global};

/// How many rooms of a track are told apart at most.
const MOST: usize = 512;

/// The rooms in dm that blocks of some lengths can leave of a track, from 0 on, with what each length leaves of each.
#[derive(Drop)]
pub(crate) struct Rooms {
    /// The length of the track in dm.
    pub whole: u32,
    sizes: Vec<u32>,
    left: Vec<Option<usize>>,
    lengths: usize,
}

// Marks the sums of one and each length.
fn mark_longer(marks: &mut [bool], sum: usize, lengths: &[u32]) {
    for long in lengths {
        if let Some(mark) = marks.get_mut(sum.saturating_add(*long as usize)) {
            *mark = true;
        }
    }
}

// For each number up to the length of a track whether it is a sum of lengths.
fn sum_marks(alloc: Global, whole: u32, lengths: &[u32]) -> Result<Vec<bool>, AllocError> {
    let size = (whole as usize).saturating_add(1);
    let mut marks = vec![in alloc; false; size]?;
    if let Some(mark) = marks.first_mut() {
        *mark = true;
    }
    for sum in 0..size {
        if marks.get(sum).copied().unwrap_or(false) {
            mark_longer(&mut marks, sum, lengths);
        }
    }
    Ok(marks)
}

// The places of these marks, or where there are too many of them some in equal steps.
fn marked(alloc: Global, marks: &[bool]) -> Result<Vec<u32>, AllocError> {
    let count = marks.iter().filter(|mark| **mark).count();
    let mut places = Vec::new(alloc);
    let mut until_next = 0usize;
    for (place, mark) in marks.iter().enumerate() {
        if *mark && until_next == 0 {
            places.push(u32::try_from(place).unwrap_or(u32::MAX))?;
            until_next = count / MOST;
        } else if *mark {
            until_next = until_next.saturating_sub(1);
        }
    }
    Ok(places)
}

// The place of the greatest of these rooms that is no more than one.
fn place_among(sizes: &[u32], room: u32) -> usize {
    sizes
        .partition_point(|size| *size <= room)
        .saturating_sub(1)
}

// The place of what a length leaves of a room.
fn left_of(sizes: &[u32], room: u32, long: u32) -> Option<usize> {
    let left = room.checked_sub(long)?;
    Some(place_among(sizes, left))
}

impl Rooms {
    /// The rooms of a track of a length in dm. Err is want of memory.
    pub(crate) fn new(alloc: Global, whole: u32, lengths: &[u32]) -> Result<Rooms, AllocError> {
        let marks = sum_marks(alloc, whole, lengths)?;
        let sizes = marked(alloc, &marks)?;
        let mut left = Vec::new(alloc);
        for room in &sizes {
            for long in lengths {
                left.push(left_of(&sizes, *room, *long))?;
            }
        }
        Ok(Rooms {
            whole,
            sizes,
            left,
            lengths: lengths.len(),
        })
    }

    /// How many there are.
    pub(crate) fn len(&self) -> usize {
        self.sizes.len()
    }

    /// What a length leaves of a room, by their places. None where it is longer.
    pub(crate) fn less(&self, room: usize, long: usize) -> Option<usize> {
        let place = room.saturating_mul(self.lengths).saturating_add(long);
        self.left.get(place).copied().unwrap_or(None)
    }

    /// The place of the greatest one that is no more than a room in dm.
    pub(crate) fn place_of(&self, room: u32) -> usize {
        place_among(&self.sizes, room)
    }
}
