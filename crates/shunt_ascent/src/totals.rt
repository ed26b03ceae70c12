// Sums of numbers that follow each other.
use crate::numbers::{NOTHING, Number, at};
use std::alloc::{AllocError, Global};

/// For each place of a list the sum of the numbers before it.
#[derive(Drop)]
pub(crate) struct Totals {
    before: Vec<Number>,
}

impl Totals {
    /// Those of that many numbers. Err is want of memory.
    pub(crate) fn new(alloc: Global, size: usize) -> Result<Totals, AllocError> {
        Ok(Totals {
            before: vec![in alloc; NOTHING; size.saturating_add(1)]?,
        })
    }

    /// Adds these numbers up.
    pub(crate) fn read(&mut self, numbers: &[Number]) {
        let mut sum = NOTHING;
        for (before, number) in self.before.iter_mut().skip(1).zip(numbers) {
            sum += *number;
            *before = sum;
        }
    }

    /// The sum of that many numbers from one on.
    pub(crate) fn sum(&self, from: usize, n: usize) -> Number {
        at(&self.before, from.saturating_add(n)) - at(&self.before, from)
    }
}
