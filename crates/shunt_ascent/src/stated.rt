// The numbers of cases that a certificate states, as an ascent has them.
use crate::numbers::{NOTHING, Number, ONE};
use crate::points::{Point, Values};
use crate::slots::Slot;
use shunt_base::{Case, Price};
use std::alloc::{AllocError, Global};
use std::num::Wrapping;

/// A whole number as an ascent has it.
pub(crate) fn scaled(value: i64) -> Number {
    Wrapping(value) * Wrapping(ONE)
}

// The value of a price in a case, and nothing where it has none.
fn value_of(prices: &[Price], slot: &Slot) -> Number {
    for price in prices {
        if price.kind == slot.kind && price.track == slot.track && price.train == slot.train {
            return scaled(i64::try_from(price.value).unwrap_or(0));
        }
    }
    NOTHING
}

fn all_scaled(alloc: Global, values: &[i64]) -> Result<Vec<Number>, AllocError> {
    let mut numbers = Vec::with_capacity(alloc, values.len())?;
    for value in values {
        numbers.push(scaled(*value))?;
    }
    Ok(numbers)
}

/// The point of a case, with a value for each of some prices. Err is want of memory.
pub(crate) fn point_of(alloc: Global, case: &Case, slots: &[Slot]) -> Result<Point, AllocError> {
    let mut prices = Vec::with_capacity(alloc, slots.len())?;
    for slot in slots {
        prices.push(value_of(case.duals.prices.as_slice(), slot))?;
    }
    Ok(Point {
        beta: all_scaled(alloc, case.duals.beta.as_slice())?,
        prices,
        multiplier: scaled(case.multiplier),
    })
}

/// The same with its values of units. Err is want of memory.
pub(crate) fn values_of(alloc: Global, case: &Case, slots: &[Slot]) -> Result<Values, AllocError> {
    Ok(Values {
        alpha: all_scaled(alloc, case.duals.alpha.as_slice())?,
        point: point_of(alloc, case, slots)?,
    })
}
