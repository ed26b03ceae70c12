// Numbers whose sums and products wrap, so that a search that goes astray ends as well.
use std::num::Wrapping;

/// A number of an ascent.
pub(crate) type Number = Wrapping<i64>;

/// Nothing.
pub(crate) const NOTHING: Number = Wrapping(0);

/// Numbers are searched for that many to one.
pub(crate) const ONE: i64 = 1024;

/// What a number of cost units is in an ascent: thousandths, that many to one.
pub(crate) fn in_thousandths(cost: u32) -> Number {
    Wrapping(1000 * ONE) * Wrapping(i64::from(cost))
}

/// The number at a place, and nothing where there is none.
pub(crate) fn at(numbers: &[Number], place: usize) -> Number {
    numbers.get(place).copied().unwrap_or(NOTHING)
}

/// Writes the numbers of one list over those of another.
pub(crate) fn put(into: &mut [Number], from: &[Number]) {
    for (old, new) in into.iter_mut().zip(from) {
        *old = *new;
    }
}

/// Makes all numbers the same.
pub(crate) fn fill(into: &mut [Number], number: Number) {
    for old in into.iter_mut() {
        *old = number;
    }
}

/// Writes a number over the one at a place, where there is one.
pub(crate) fn put_at(into: &mut [Number], place: usize, number: Number) {
    if let Some(old) = into.get_mut(place) {
        *old = number;
    }
}

/// Adds to the number at a place, where there is one.
pub(crate) fn add_at(into: &mut [Number], place: usize, more: Number) {
    if let Some(number) = into.get_mut(place) {
        *number += more;
    }
}

/// The nearest whole number, that many to one.
pub(crate) fn whole(number: Number) -> Number {
    (number + Wrapping(ONE / 2)) >> 10
}
