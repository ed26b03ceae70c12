// Ways to park, from the lightest on, and the lightest of them where prices take something.
use crate::groups::{Count, NO_WAY};
use crate::numbers::{NOTHING, Number, add_at, at, put_at};
use std::alloc::{AllocError, Global};

/// What blocks weigh but for their ends, by a track or a stack with some number.
#[derive(Clone, Copy)]
pub(crate) struct Way {
    pub place: usize,
    pub weight: Number,
}

/// The least that a shape weighs but for its ends, and on which track, if on one.
#[derive(Clone, Copy, Drop)]
pub(crate) struct Lightest {
    pub weight: Number,
    pub track: Option<usize>,
}

/// What isn't known weighs nothing.
pub(crate) const UNKNOWN: Lightest = Lightest {
    weight: NOTHING,
    track: None,
};

/// Puts ways in order, from the lightest on.
pub(crate) fn sort(ways: &mut [Way]) {
    ways.sort_unstable_by_key(|way| (way.weight, way.place));
}

/// Those ways of a list by track that are there, from the lightest on. Err is want of memory.
pub(crate) fn ways_there(alloc: Global, weights: &[Number]) -> Result<Vec<Way>, AllocError> {
    let mut ways = Vec::new(alloc);
    for (place, weight) in weights.iter().enumerate() {
        if *weight < NO_WAY {
            ways.push(Way {
                place,
                weight: *weight,
            })?;
        }
    }
    sort(&mut ways);
    Ok(ways)
}

/// Writes what prices take of the shapes that count so much for them over what they took before, by track. Nothing is taken on other tracks.
pub(crate) fn take(counts: &[Count], prices: &[Number], taken: &mut [Number]) {
    for count in counts {
        put_at(taken, count.track, NOTHING);
    }
    for count in counts {
        add_at(taken, count.track, at(prices, count.slot) * count.count);
    }
}

// Whether a way to a track is lighter than the lightest option so far, or as light as one to a later track.
fn is_lighter(weight: Number, track: usize, least: Lightest) -> bool {
    weight < least.weight
        || weight == least.weight && least.track.is_some_and(|other| track < other)
}

/// The lightest option: one of these ways to tracks, which come from the lightest on, where prices take so much, or being unparked. Prices
/// take nothing less than nothing.
pub(crate) fn lightest_option(ways: &[Way], taken: &[Number], unparked: Number) -> Lightest {
    let mut least = Lightest {
        weight: unparked,
        track: None,
    };
    for way in ways {
        if way.weight > least.weight {
            return least;
        }
        let weight = way.weight + at(taken, way.place);
        if is_lighter(weight, way.place, least) {
            least = Lightest {
                weight,
                track: Some(way.place),
            };
        }
    }
    least
}

/// The lightest of these ways by stacks, which come from the lightest on, where prices take so much by track.
pub(crate) fn lightest_by_stack(ways: &[Way], taken: &[Number]) -> Number {
    let mut least = NO_WAY;
    for way in ways {
        if way.weight >= least {
            return least;
        }
        least = least.min(way.weight + at(taken, way.place / 2));
    }
    least
}
