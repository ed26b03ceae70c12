// Better numbers of a case by an ascent.
use crate::changes::{Changes, farthest, free_positions, longest, slots_of, step_of};
use crate::climbs::{Pace, Valued, highest};
use crate::numbers::{NOTHING, Number};
use crate::points::{Point, Span};
use crate::scenes::Scene;
use crate::valuation::Work;
use std::alloc::{AllocError, Global};

/// Where an ascent goes: which numbers it changes, how far it goes at first, which counts in grains, and when it ends.
#[derive(Clone, Copy, Drop)]
pub(crate) struct Ascent {
    /// Whether the prices of length change too, which are coarse once they are whole.
    pub lengths: bool,
    pub multiplier: bool,
    pub step: i64,
    /// How many evaluations it takes at most.
    pub most: usize,
    pub goal: Number,
}

/// The sum of a case at a path as a value of the numbers that change.
#[derive(Drop)]
struct Priced<'s> {
    scene: &'s Scene,
    span: Span,
    changes: Changes,
    point: Point,
    work: &'s mut Work,
}

impl<'s> Valued for Priced<'s> {
    fn value(&mut self, numbers: &[Number], slope: &mut [Number]) -> Result<Number, AllocError> {
        let scene = self.scene;
        self.changes.write(scene, numbers, &mut [], &mut self.point);
        let sum = self.work.evaluate(scene, self.span, &self.point);
        self.changes
            .read_slopes(scene, &self.work.slopes, numbers, slope);
        Ok(sum)
    }

    // Without stacks the number of evaluations alone is limited.
    fn spend(&mut self, more: u64) -> u64 {
        0
    }
}

fn pace_of(scene: &Scene, ascent: &Ascent, size: usize) -> Pace {
    Pace {
        step: step_of(scene, ascent.step),
        longest: longest(scene),
        farthest: farthest(scene),
        most: ascent.most,
        work: u64::MAX,
        goal: ascent.goal,
        patience: size.saturating_add(60),
        little: NOTHING,
    }
}

/// The best point that an ascent from a point finds, and the sum there; the point itself where none is better. Err is want of memory.
pub(crate) fn ascend(
    alloc: Global,
    scene: &Scene,
    span: Span,
    ascent: Ascent,
    start: &Point,
    work: &mut Work,
) -> Result<(Point, Number), AllocError> {
    let changes = Changes {
        units: Vec::new(alloc),
        positions: free_positions(alloc, scene)?,
        slots: slots_of(alloc, scene, ascent.lengths)?,
        multiplier: ascent.multiplier,
    };
    let numbers = changes.numbers(alloc, scene, &[], start)?;
    let pace = pace_of(scene, &ascent, numbers.len());
    let mut priced = Priced {
        scene,
        span,
        changes,
        point: start.copied(alloc)?,
        work,
    };
    let peak = highest(alloc, &mut priced, numbers, pace)?;
    let Priced { changes, point, .. } = priced;
    let mut best = point;
    changes.write(scene, &peak.numbers, &mut [], &mut best);
    Ok((best, peak.value))
}
