// The matrix in which an ascent measures lengths.
use crate::numbers::{NOTHING, Number, fill, put};
use std::alloc::{AllocError, Global};
use std::num::Wrapping;

/// Entries of the matrix, and directions, are that many to one.
const FINE: i64 = 1 << 24;

/// The largest entry of the matrix.
const LARGEST: i64 = 1 << 34;

/// The matrix in which an ascent measures lengths, with the vectors that it is used with.
#[derive(Drop)]
pub(crate) struct Metric {
    rows: Vec<Vec<Number>>,
    // The slopes as the matrix sees them, and as it saw them before.
    gathered: Vec<Number>,
    before: Vec<Number>,
    // Vectors of length 1, at 2^20 to one.
    along: Vec<Number>,
    across: Vec<Number>,
    /// If the next step goes, 2^24 to one.
    pub direction: Vec<Number>,
}

// The product with a vector at 2^20 to one.
fn dot(row: &[Number], vector: &[Number]) -> Number {
    let mut sum = NOTHING;
    for (value, other) in row.iter().zip(vector) {
        sum += (*value * *other) >> 8;
    }
    sum >> 12
}

fn add_times(into: &mut [Number], row: &[Number], factor: Number) {
    for (sum, value) in into.iter_mut().zip(row) {
        *sum += *value * factor;
    }
}

// The whole root of a number that isn't negative.
fn root(number: i64) -> i64 {
    let mut root = NOTHING;
    for bit in 0..31usize {
        let more = root + (Wrapping(1 << 30) >> bit);
        if (more * more).0 <= number {
            root = more;
        }
    }
    root.0
}

// How far to shift numbers to the right so that the largest has at most 26 bits.
fn room_for_squares(vector: &[Number]) -> usize {
    let mut largest = 0u64;
    for value in vector {
        largest |= value.0.unsigned_abs();
    }
    (64 - largest.leading_zeros()).saturating_sub(26) as usize
}

// The vector of length 1, at 2^20 to one, in the same direction; whether there is one.
fn make_unit(vector: &[Number], into: &mut [Number]) -> bool {
    let shift = room_for_squares(vector);
    let mut square = NOTHING;
    for value in vector {
        square += (*value >> shift) * (*value >> shift);
    }
    let length = root(square.0);
    if length < 1 {
        return false;
    }
    for (part, value) in into.iter_mut().zip(vector) {
        *part = Wrapping(((*value >> shift) << 20).0 / length);
    }
    true
}

// The product of two lists, of which the second is 2^20 to one.
fn product(vector: &[Number], unit: &[Number]) -> i128 {
    let mut sum = 0i128;
    for (value, part) in vector.iter().zip(unit) {
        sum = sum.wrapping_add(i128::from(value.0).wrapping_mul(i128::from(part.0)));
    }
    sum >> 20
}

// Two thirds of a number times another, of which the second is 2^20 to one.
fn two_thirds(along: i128, part: Number) -> Number {
    let times = along.wrapping_mul(i128::from(part.0)).wrapping_mul(2) / 3;
    Wrapping(i64::try_from(times >> 20).unwrap_or(0))
}

// Takes two thirds of what a row has along a vector of length 1 out of it.
fn shrink(row: &mut [Number], across: &[Number]) {
    let less = Wrapping((dot(row, across) * Wrapping(2)).0 / 3);
    for (value, part) in row.iter_mut().zip(across) {
        *value -= (less * *part + Wrapping(1 << 19)) >> 20;
    }
}

fn doubled(number: Number) -> Number {
    Wrapping((number * Wrapping(2)).0.clamp(-LARGEST, LARGEST))
}

impl Metric {
    /// The matrix that leaves all lengths as they are. Err is want of memory.
    pub(crate) fn new(alloc: Global, size: usize) -> Result<Metric, AllocError> {
        let mut rows = Vec::with_capacity(alloc, size)?;
        for k in 0..size {
            let mut row = vec![in alloc; NOTHING; size]?;
            row[k] = Wrapping(FINE);
            rows.push(row)?;
        }
        Ok(Metric {
            rows,
            gathered: vec![in alloc; NOTHING; size]?,
            before: vec![in alloc; NOTHING; size]?,
            along: vec![in alloc; NOTHING; size]?,
            across: vec![in alloc; NOTHING; size]?,
            direction: vec![in alloc; NOTHING; size]?,
        })
    }

    fn gather(&mut self, slope: &[Number]) {
        fill(&mut self.gathered, NOTHING);
        for (row, slope) in self.rows.iter().zip(slope) {
            if *slope != NOTHING {
                add_times(&mut self.gathered, row, *slope);
            }
        }
    }

    fn turn(&mut self) {
        for (to, row) in self.direction.iter_mut().zip(&self.rows) {
            *to = dot(row, &self.along);
        }
    }

    /// The first direction, from the first slopes; whether there is one.
    pub(crate) fn begin(&mut self, slope: &[Number]) -> bool {
        self.gather(slope);
        put(&mut self.before, &self.gathered);
        let found = make_unit(&self.gathered, &mut self.along);
        self.turn();
        found
    }

    // The change of the slopes as the matrix sees them; whether there is one.
    fn find_change(&mut self) -> bool {
        for (old, new) in self.before.iter_mut().zip(&self.gathered) {
            *old = *new - *old;
        }
        make_unit(&self.before, &mut self.across)
    }

    // What the matrix will see of the slopes once it is shrunk.
    fn find_rest(&mut self) {
        let along = product(&self.gathered, &self.across);
        put(&mut self.before, &self.gathered);
        for (value, part) in self.before.iter_mut().zip(&self.across) {
            *value -= two_thirds(along, *part);
        }
    }

    /// Shrinks the matrix along the change of the slopes to a third, and turns to the new slopes; whether there is a direction.
    pub(crate) fn dilate(&mut self, slope: &[Number]) -> bool {
        self.gather(slope);
        if self.find_change() {
            self.find_rest();
            for row in &mut self.rows {
                shrink(row, &self.across);
            }
        } else {
            put(&mut self.before, &self.gathered);
        }
        let found = make_unit(&self.before, &mut self.along);
        self.turn();
        found
    }

    /// Doubles all lengths.
    pub(crate) fn double(&mut self) {
        for row in &mut self.rows {
            for value in row.iter_mut() {
                *value = doubled(*value);
            }
        }
        for value in &mut self.before {
            *value *= 2;
        }
    }

    /// Whether slopes rise along the direction.
    pub(crate) fn moves_on(&self, slope: &[Number]) -> bool {
        let mut sum = NOTHING;
        for (slope, to) in slope.iter().zip(&self.direction) {
            sum += *slope * (*to >> 8);
        }
        sum > NOTHING
    }
}
