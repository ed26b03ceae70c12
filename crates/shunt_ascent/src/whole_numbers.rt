// Whole numbers of a case.
use crate::ascent::{Ascent, ascend};
use crate::numbers::{Number, ONE, whole};
use crate::points::{Point, Span};
use crate::scenes::Scene;
use crate::valuation::Work;
use std::alloc::{AllocError, Global};
use std::num::Wrapping;

/// A case of a scene while it is searched for: what it speaks of, its numbers and its sum.
#[derive(Drop)]
pub(crate) struct Found {
    pub span: Span,
    pub point: Point,
    pub sum: Number,
}

impl Found {
    /// The same case.
    pub(crate) fn copied(&self, alloc: Global) -> Result<Found, AllocError> {
        Ok(Found {
            span: self.span,
            point: self.point.copied(alloc)?,
            sum: self.sum,
        })
    }
}

/// The same number, made whole.
pub(crate) fn rounded(number: Number) -> Number {
    whole(number) * Wrapping(ONE)
}

/// Whether the prices of length are whole.
pub(crate) fn are_lengths_whole(scene: &Scene, point: &Point) -> bool {
    for (price, slot) in point.prices.iter().zip(&scene.slots) {
        if slot.is_by_length() && rounded(*price) != *price {
            return false;
        }
    }
    true
}

/// Makes the prices of length whole, which are coarse.
pub(crate) fn round_lengths(scene: &Scene, point: &mut Point) {
    for (price, slot) in point.prices.iter_mut().zip(&scene.slots) {
        if slot.is_by_length() {
            *price = rounded(*price);
        }
    }
}

/// A case near a point whose prices of length are whole, and whose other numbers have ascended since. Err is want of memory.
pub(crate) fn settle(
    alloc: Global,
    scene: &Scene,
    span: Span,
    ascent: Ascent,
    point: Point,
    work: &mut Work,
) -> Result<Found, AllocError> {
    let mut near = point;
    round_lengths(scene, &mut near);
    let (point, sum) = ascend(alloc, scene, span, ascent, &near, work)?;
    Ok(Found { span, point, sum })
}

/// Makes all numbers whole.
pub(crate) fn round(point: &mut Point) {
    for beta in &mut point.beta {
        *beta = rounded(*beta);
    }
    for price in &mut point.prices {
        *price = rounded(*price);
    }
    point.multiplier = rounded(point.multiplier);
}
