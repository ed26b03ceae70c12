// The numbers of a case while they are searched for.
use crate::numbers::{NOTHING, Number};
use std::alloc::{AllocError, Global};
use std::num::Wrapping;

/// Values of positions, values of prices and a multiplier, that many to one.
#[derive(Drop)]
pub(crate) struct Point {
    pub beta: Vec<Number>,
    pub prices: Vec<Number>,
    pub multiplier: Number,
}

/// Values of units beside those of a point, as cases with stacks have them.
#[derive(Drop)]
pub(crate) struct Values {
    pub alpha: Vec<Number>,
    pub point: Point,
}

/// The numbers of unparked blocks that a case speaks of.
#[derive(Clone, Copy, Debug, Drop)]
pub(crate) struct Span {
    pub from: u8,
    pub to: u8,
}

/// A case with whole numbers: what it speaks of, and its numbers.
#[derive(Drop)]
pub struct Fixed {
    pub(crate) span: Span,
    pub(crate) values: Values,
}

/// All numbers of unparked blocks.
pub(crate) const EVERY: Span = Span { from: 0, to: 160 };

impl Span {
    /// The numbers below one.
    pub(crate) fn below(many: u8) -> Span {
        Span {
            from: 0,
            to: many.saturating_sub(1),
        }
    }

    /// One number and those above.
    pub(crate) fn at_least(many: u8) -> Span {
        Span {
            from: many,
            ..EVERY
        }
    }

    /// The number of unparked blocks for which a multiplier takes most.
    pub(crate) fn dearest(&self, multiplier: Number) -> Number {
        let many = if multiplier >= NOTHING {
            self.to
        } else {
            self.from
        };
        Wrapping(i64::from(many))
    }
}

impl Point {
    /// The same point.
    pub(crate) fn copied(&self, alloc: Global) -> Result<Point, AllocError> {
        Ok(Point {
            beta: Vec::from_slice(alloc, &self.beta)?,
            prices: Vec::from_slice(alloc, &self.prices)?,
            multiplier: self.multiplier,
        })
    }
}

impl Values {
    /// The same values.
    pub(crate) fn copied(&self, alloc: Global) -> Result<Values, AllocError> {
        Ok(Values {
            alpha: Vec::from_slice(alloc, &self.alpha)?,
            point: self.point.copied(alloc)?,
        })
    }
}

impl Fixed {
    /// The greatest number of unparked blocks that it speaks of.
    pub fn to(&self) -> u8 {
        self.span.to
    }
}
