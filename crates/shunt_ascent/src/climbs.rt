// Better numbers by Shor's r-algorithm, in whole numbers.
use crate::metric::Metric;
use crate::numbers::{NOTHING, Number, put};
use std::alloc::{AllocError, Global};
use std::num::Wrapping;

/// A value that goes by numbers.
pub(crate) trait Valued {
    /// The value at some numbers, with its slopes, 512 to one, written over others. Err is want of memory.
    fn value(&mut self, numbers: &[Number], slope: &mut [Number]) -> Result<Number, AllocError>;

    /// How much work there was so far, with some more beside that of the values: about as many steps of tables as it takes as long as.
    fn spend(&mut self, more: u64) -> u64;
}

/// How an ascent goes: how far its first step goes, and how far any; how far from 0 its numbers go; and when it ends.
#[derive(Clone, Copy, Drop)]
pub(crate) struct Pace {
    pub step: i64,
    pub longest: i64,
    pub farthest: Number,
    /// How many evaluations it takes at most, and about how much work.
    pub most: usize,
    pub work: u64,
    pub goal: Number,
    /// How many walks may follow one another without a value that counts, at which it ends.
    pub patience: usize,
    /// By how much more than that a value has to exceed the last one that counted, to count.
    pub little: Number,
}

/// The best numbers that were found, with their value.
#[derive(Drop)]
pub(crate) struct Peak {
    pub numbers: Vec<Number>,
    pub value: Number,
}

// How far a number goes in a step, within a distance from 0.
fn moved(number: Number, step: i64, to: Number, farthest: Number) -> Number {
    let by = i128::from(step).wrapping_mul(i128::from(to.0)) >> 24;
    let more = number + Wrapping(i64::try_from(by).unwrap_or(0));
    more.min(farthest).max(-farthest)
}

/// An ascent under way.
#[derive(Drop)]
struct Climb {
    pace: Pace,
    numbers: Vec<Number>,
    slope: Vec<Number>,
    metric: Metric,
    // How far a step goes.
    step: i64,
    best: Peak,
    // The last value that counted, and how many walks there were since.
    mark: Number,
    idle: usize,
    // How many evaluations there were, how much work there is when it ends, and whether it came to that.
    spent: usize,
    last: u64,
    is_out: bool,
}

impl Climb {
    fn is_over(&self) -> bool {
        self.best.value >= self.pace.goal || self.spent >= self.pace.most || self.is_out
    }

    // Keeps the numbers where their value is the best.
    fn keep(&mut self, value: Number) {
        if value <= self.best.value {
            return;
        }
        if value > self.mark + self.pace.little {
            self.mark = value;
            self.idle = 0;
        }
        self.best.value = value;
        put(&mut self.best.numbers, &self.numbers);
    }

    // One step in the direction of the metric, and the value and the slopes there.
    fn step_on<V: Valued>(&mut self, valued: &mut V) -> Result<(), AllocError> {
        for (number, to) in self.numbers.iter_mut().zip(&self.metric.direction) {
            *number = moved(*number, self.step, *to, self.pace.farthest);
        }
        let value = valued.value(&self.numbers, &mut self.slope)?;
        self.spent = self.spent.saturating_add(1);
        self.is_out = valued.spend(0) >= self.last;
        self.keep(value);
        Ok(())
    }

    // Steps while the value rises along the direction, longer ones from the third on.
    fn walk<V: Valued>(&mut self, valued: &mut V) -> Result<(), AllocError> {
        self.idle = self.idle.saturating_add(1);
        'steps: for steps in 0..self.pace.most {
            self.step_on(valued)?;
            if self.is_over() {
                return Ok(());
            }
            if !self.metric.moves_on(&self.slope) {
                if steps == 0 {
                    self.step = (self.step / 20).saturating_mul(19).saturating_add(1);
                }
                return Ok(());
            }
            if steps >= 2 {
                self.step = (self.step / 5).saturating_mul(6).min(self.pace.longest);
            }
        }
        Ok(())
    }

    // Walks and dilates by turns; each dilation leaves less room, so that the metric is doubled now and then.
    fn climb<V: Valued>(&mut self, valued: &mut V) -> Result<(), AllocError> {
        let size = self.numbers.len();
        let mut dilations = 0usize;
        'dilations: for _ in 0..self.pace.most {
            if self.is_over() || self.idle >= self.pace.patience {
                return Ok(());
            }
            self.walk(valued)?;
            if self.is_over() || !self.metric.dilate(&self.slope) {
                return Ok(());
            }
            let dilated = size.saturating_mul(size) as u64;
            valued.spend(dilated);
            dilations = dilations.saturating_add(100);
            if dilations >= size.saturating_mul(63) {
                dilations = 0;
                self.step = (self.step / 2).saturating_add(1);
                self.metric.double();
            }
        }
        Ok(())
    }
}

/// The best numbers that an ascent from some finds, which are those where none are better. Err is want of memory.
pub(crate) fn highest<V: Valued>(
    alloc: Global,
    valued: &mut V,
    start: Vec<Number>,
    pace: Pace,
) -> Result<Peak, AllocError> {
    let mut slope = vec![in alloc; NOTHING; start.len()]?;
    let value = valued.value(&start, &mut slope)?;
    let last = valued.spend(0).saturating_add(pace.work);
    let mut climb = Climb {
        pace,
        best: Peak {
            numbers: Vec::from_slice(alloc, &start)?,
            value,
        },
        metric: Metric::new(alloc, start.len())?,
        numbers: start,
        slope,
        step: pace.step,
        mark: value,
        idle: 0,
        spent: 1,
        last,
        is_out: false,
    };
    if !climb.is_over() && climb.metric.begin(&climb.slope) {
        climb.climb(valued)?;
    }
    Ok(climb.best)
}
