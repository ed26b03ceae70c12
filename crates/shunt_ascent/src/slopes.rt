// By how much a sum changes with each number of its case.
use crate::numbers::{NOTHING, Number, add_at, fill, put};
use crate::points::Span;
use crate::scenes::{Row, Scene};
use std::alloc::{AllocError, Global};
use std::num::Wrapping;

/// By how much a sum changes with each number of its case, of which values of units are some only beside stacks.
#[derive(Drop)]
pub(crate) struct Slopes {
    pub alpha: Vec<Number>,
    pub beta: Vec<Number>,
    pub prices: Vec<Number>,
    pub multiplier: Number,
}

// Takes 1 from that many numbers from one on.
fn lower(slopes: &mut [Number], from: usize, n: usize) {
    for slope in slopes.iter_mut().skip(from).take(n) {
        *slope -= 1;
    }
}

impl Slopes {
    /// Room for those of a scene. Err is want of memory.
    pub(crate) fn new(alloc: Global, scene: &Scene) -> Result<Slopes, AllocError> {
        Ok(Slopes {
            alpha: vec![in alloc; NOTHING; scene.stands.len()]?,
            beta: vec![in alloc; NOTHING; scene.free.len()]?,
            prices: vec![in alloc; NOTHING; scene.slots.len()]?,
            multiplier: NOTHING,
        })
    }

    /// Makes them those where no shape is chosen yet.
    pub(crate) fn begin(&mut self, scene: &Scene, span: Span, multiplier: Number) {
        fill(&mut self.alpha, Wrapping(1));
        fill(&mut self.beta, Wrapping(1));
        put(&mut self.prices, &scene.counts);
        self.multiplier = scene.left - span.dearest(multiplier);
    }

    /// Counts a chosen shape at a unit with its track, if it has one.
    pub(crate) fn choose(&mut self, scene: &Scene, u: usize, row: &Row, option: Option<usize>) {
        lower(&mut self.alpha, u, row.n);
        lower(&mut self.beta, row.v, row.n);
        let Some(track) = option else {
            self.multiplier += 1;
            return;
        };
        let Some(group) = scene.groups.get(row.group) else {
            return;
        };
        for count in &group.counts {
            if count.track == track {
                add_at(&mut self.prices, count.slot, count.count);
            }
        }
    }
}
