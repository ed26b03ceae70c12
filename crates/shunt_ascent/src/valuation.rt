// What a case comes to at a path, with the slopes of its numbers.
use crate::numbers::{NOTHING, Number, ONE, at};
use crate::points::{Point, Span};
use crate::rests::{Pick, Rests};
use crate::scenes::{Entry, Row, Scene, Stand};
use crate::slopes::Slopes;
use crate::totals::Totals;
use crate::ways::{Lightest, UNKNOWN, lightest_option, take};
use std::alloc::{AllocError, Global};
use std::num::Wrapping;

/// What covering a unit weighs where no shape begins at it.
const NO_SHAPE: Number = Wrapping(2_000_000_000 * ONE);

/// What the shapes of a group weigh but for their ends: what prices take of them on each track, and the lightest option.
#[derive(Drop)]
struct Weights {
    taken: Vec<Number>,
    lightest: Lightest,
}

/// The block that may come next with which a path comes to least, and what its train comes to from its unit on.
#[derive(Clone, Copy)]
struct Nearest {
    entry: Entry,
    weight: Number,
}

/// What an evaluation finds, kept so that no memory is asked for again.
#[derive(Drop)]
pub(crate) struct Work {
    weights: Vec<Weights>,
    // The values of positions, added up.
    betas: Totals,
    rests: Rests,
    pub slopes: Slopes,
}

// Room for the weights of a scene's groups.
fn weights_of(alloc: Global, scene: &Scene) -> Result<Vec<Weights>, AllocError> {
    let mut weights = Vec::with_capacity(alloc, scene.groups.len())?;
    for _group in &scene.groups {
        weights.push(Weights {
            taken: vec![in alloc; NOTHING; scene.tracks]?,
            lightest: UNKNOWN,
        })?;
    }
    Ok(weights)
}

impl Work {
    /// Room for what is found of a scene. Err is want of memory.
    pub(crate) fn new(alloc: Global, scene: &Scene) -> Result<Work, AllocError> {
        Ok(Work {
            weights: weights_of(alloc, scene)?,
            betas: Totals::new(alloc, scene.free.len())?,
            rests: Rests::new(alloc, scene.stands.len())?,
            slopes: Slopes::new(alloc, scene)?,
        })
    }

    fn weigh(&mut self, scene: &Scene, point: &Point) {
        let unparked = scene.unparked + point.multiplier;
        for (weights, group) in self.weights.iter_mut().zip(&scene.groups) {
            take(&group.counts, &point.prices, &mut weights.taken);
            weights.lightest = lightest_option(
                scene.ways_by_weight(group),
                &weights.taken,
                unparked,
            );
        }
    }

    fn lightest_at(&self, group: usize) -> Lightest {
        match self.weights.get(group) {
            Some(weights) => weights.lightest,
            None => UNKNOWN,
        }
    }

    // What the prices take of a shape of a group on a track.
    fn part(&self, group: usize, track: usize) -> Number {
        match self.weights.get(group) {
            Some(weights) => at(&weights.taken, track),
            None => NOTHING,
        }
    }

    fn betas(&self, row: &Row) -> Number {
        self.betas.sum(row.v, row.n)
    }

    /// What a block that may come next weighs, less the values of its positions.
    pub(crate) fn reduced(&self, point: &Point, entry: &Entry) -> Number {
        let option = match entry.track {
            Some(track) => self.part(entry.row.group, track),
            None => point.multiplier,
        };
        entry.cost + option - self.betas(&entry.row)
    }

    // The least that covering a unit's train from there on comes to, and by which shape.
    fn cover_from(&self, u: usize, stand: &Stand) -> (Number, Option<Pick>) {
        let mut least = NO_SHAPE + self.rests.behind(u.saturating_add(1));
        let mut pick = None;
        for row in &stand.rows {
            let Lightest { weight, track } = self.lightest_at(row.group);
            let behind = self.rests.behind(u.saturating_add(row.n));
            let sum = row.ends + weight - self.betas(row) + behind;
            if sum < least {
                least = sum;
                pick = Some(Pick { row: *row, track });
            }
        }
        (least, pick)
    }

    // The least that covering each train from each unit on comes to.
    fn cover(&mut self, scene: &Scene) {
        for (u, stand) in scene.stands.iter().enumerate().rev() {
            if stand.covered {
                self.rests.keep(u, stand, NOTHING, None);
            } else {
                let (least, pick) = self.cover_from(u, stand);
                self.rests.keep(u, stand, least, pick);
            }
        }
    }

    // The block that may come next with which the path comes to least.
    fn nearest(&self, scene: &Scene, point: &Point) -> Option<Nearest> {
        let mut found: Option<Nearest> = None;
        for entry in &scene.entries {
            let behind = self.rests.behind(entry.u.saturating_add(entry.row.n));
            let weight = self.reduced(point, entry) + behind;
            if found.is_none_or(|least| weight < least.weight) {
                found = Some(Nearest {
                    entry: *entry,
                    weight,
                });
            }
        }
        found
    }

    // What a train comes to from its first uncovered unit on, where the next block may begin.
    fn train(&self, u: usize, next: Option<Nearest>) -> Number {
        if let Some(next) = next {
            if next.entry.u == u {
                return next.weight;
            }
        }
        self.rests.at(u)
    }

    // What the trains come to.
    fn trains(&self, scene: &Scene, next: Option<Nearest>) -> Number {
        let mut sum = NOTHING;
        for u in 0..scene.stands.len() {
            if scene.begins(u) {
                sum += self.train(u, next);
            }
        }
        sum
    }

    /// Finds what shapes weigh by a point.
    pub(crate) fn weigh_all(&mut self, scene: &Scene, point: &Point) {
        self.weigh(scene, point);
        self.betas.read(&point.beta);
    }

    /// The sum of a case at a path, and where blocks may come next the least of its sums at the longer paths; its slopes are kept.
    pub(crate) fn evaluate(&mut self, scene: &Scene, span: Span, point: &Point) -> Number {
        self.weigh_all(scene, point);
        self.cover(scene);
        self.slopes.begin(scene, span, point.multiplier);
        let next = self.nearest(scene, point);
        let entry = next.map(|nearest| nearest.entry);
        self.rests.choose_all(scene, entry, &mut self.slopes);
        scene.stated(span, point) + self.trains(scene, next)
    }

    /// For each unit by how much covering its train from there on comes to more than from the unit behind it on, and nothing where it is
    /// covered. Err is want of memory.
    pub(crate) fn growths(&self, alloc: Global, scene: &Scene) -> Result<Vec<Number>, AllocError> {
        let mut growths = Vec::with_capacity(alloc, scene.stands.len())?;
        for (u, stand) in scene.stands.iter().enumerate() {
            let growth = self.rests.growth(u);
            growths.push(if stand.covered { NOTHING } else { growth })?;
        }
        Ok(growths)
    }
}
