// What a case with stacks comes to at a path, with the slopes of its numbers, the values of units among them.
use crate::fillings::{Fillings, Next};
use crate::groups::{Group, NO_WAY};
use crate::numbers::{NOTHING, Number, add_at, at};
use crate::places::Place;
use crate::points::{Point, Span, Values};
use crate::rests::{Pick, Rests};
use crate::scenes::{Entry, Row, Scene, Stand};
use crate::slopes::Slopes;
use crate::stacks::{Space, Ways};
use crate::tables::Piece;
use crate::totals::Totals;
use crate::ways::{Lightest, UNKNOWN, Way, lightest_by_stack, lightest_option, take};
use std::alloc::{AllocError, Global};

/// What the shapes of a group weigh but for their ends: what prices take of them on each track, the lightest option that goes by no stack, and
/// the lightest way by one.
#[derive(Drop)]
struct Weights {
    taken: Vec<Number>,
    held: Lightest,
    stacked: Number,
}

/// What an evaluation finds, kept so that no memory is asked for again.
#[derive(Drop)]
pub(crate) struct Gains {
    weights: Vec<Weights>,
    alphas: Totals,
    betas: Totals,
    // By how much the values of trains are above what has to hold, as less than nothing.
    falls: Rests,
    fillings: Fillings,
    /// What the sum grows by with each of the blocks that may come next.
    pub steps: Vec<Number>,
    pub slopes: Slopes,
    // How many shapes, prices and ways were looked at, and what else took as long.
    spent: u64,
}

/// The block that may come next with which the sum grows least, and by how much.
#[derive(Clone, Copy)]
struct Nearest {
    next: Next,
    step: Number,
}

// Finds what the shapes of a group weigh.
fn weigh_group(group: &Group, ways: &Ways, point: &Point, unparked: Number, weights: &mut Weights) {
    take(&group.counts, &point.prices, &mut weights.taken);
    weights.held = lightest_option(&ways.across, &weights.taken, unparked);
    weights.stacked = lightest_by_stack(&ways.same, &weights.taken);
}

fn weights_of(alloc: Global, scene: &Scene) -> Result<Vec<Weights>, AllocError> {
    let mut weights = Vec::with_capacity(alloc, scene.groups.len())?;
    for _group in &scene.groups {
        weights.push(Weights {
            taken: vec![in alloc; NOTHING; scene.tracks]?,
            held: UNKNOWN,
            stacked: NO_WAY,
        })?;
    }
    Ok(weights)
}

// Whether a piece goes in the part of a stack in which it comes, is short enough, and crosses no block of the path.
fn fits(place: &Place, stack: usize, space: &Space, piece: &Piece) -> bool {
    let Some(part) = space.part_at(piece.enters) else {
        return false;
    };
    let Some(rooms) = place.stacks.rooms_of(stack) else {
        return false;
    };
    if rooms.less(part.room, piece.long).is_none() {
        return false;
    }
    piece.leaves < part.to && !space.is_crossed(piece.enters, piece.leaves)
}

// Adds a shape that is worth so much to the pieces of the stacks of some ways, where it brings something.
fn add_piece(
    place: &Place,
    weights: &Weights,
    ways: &[Way],
    worth: Number,
    piece: Piece,
    fillings: &mut Fillings,
) -> Result<(), AllocError> {
    for way in ways {
        let gain = worth - way.weight - at(&weights.taken, way.place / 2);
        let Some(space) = place.spaces.get(way.place) else {
            return Ok(());
        };
        if gain > NOTHING && fits(place, way.place, space, &piece) {
            fillings.add(way.place, Piece { gain, ..piece })?;
        }
    }
    Ok(())
}

impl Gains {
    /// Room for what is found of a place. Err is want of memory.
    pub(crate) fn new(alloc: Global, place: &Place) -> Result<Gains, AllocError> {
        let scene = &place.scene;
        let units = scene.stands.len();
        Ok(Gains {
            weights: weights_of(alloc, scene)?,
            alphas: Totals::new(alloc, units)?,
            betas: Totals::new(alloc, scene.free.len())?,
            falls: Rests::new(alloc, units)?,
            fillings: Fillings::new(alloc, &place.stacks)?,
            steps: Vec::new(alloc),
            slopes: Slopes::new(alloc, scene)?,
            spent: 0,
        })
    }

    fn weigh(&mut self, place: &Place, point: &Point) {
        let unparked = place.scene.unparked + point.multiplier;
        let mut work = 0u64;
        for (number, weights) in self.weights.iter_mut().enumerate() {
            if let (Some(group), Some(ways)) = (
                place.scene.groups.get(number),
                place.stacks.ways_of(&place.scene, number),
            ) {
                weigh_group(group, ways, point, unparked, weights);
                work = work.saturating_add(group.counts.len() as u64);
            }
        }
        self.spent = self.spent.saturating_add(work);
    }

    // What the values of a shape's units and positions are beyond its ends.
    fn worth(&self, u: usize, row: &Row) -> Number {
        self.alphas.sum(u, row.n) + self.betas.sum(row.v, row.n) - row.ends
    }

    fn held_at(&self, group: usize) -> Lightest {
        match self.weights.get(group) {
            Some(weights) => weights.held,
            None => UNKNOWN,
        }
    }

    // By how much the values of a train are above what has to hold from a unit on, as less than nothing, and by which shape.
    fn fall_from(&self, u: usize, stand: &Stand) -> (Number, Option<Pick>) {
        let mut least = self.falls.behind(u.saturating_add(1));
        let mut pick = None;
        for row in &stand.rows {
            let Lightest { weight, track } = self.held_at(row.group);
            let behind = self.falls.behind(u.saturating_add(row.n));
            let fall = weight - self.worth(u, row) + behind;
            if fall < least {
                least = fall;
                pick = Some(Pick { row: *row, track });
            }
        }
        (least, pick)
    }

    // By how much the values of each train are above what has to hold, from each unit on.
    fn find_falls(&mut self, scene: &Scene) {
        for (u, stand) in scene.stands.iter().enumerate().rev() {
            if stand.covered {
                self.falls.keep(u, stand, NOTHING, None);
            } else {
                let (least, pick) = self.fall_from(u, stand);
                self.falls.keep(u, stand, least, pick);
            }
        }
    }

    // Offers a shape to the stacks where it brings something.
    fn offer(
        &mut self,
        place: &Place,
        u: usize,
        number: usize,
        row: &Row,
    ) -> Result<(), AllocError> {
        let worth = self.worth(u, row);
        self.spent = self.spent.saturating_add(1);
        let (Some(weights), Some(ways)) = (
            self.weights.get(row.group),
            place.stacks.ways_of(&place.scene, row.group),
        ) else {
            return Ok(());
        };
        if worth <= weights.stacked {
            return Ok(());
        }
        let piece = Piece {
            enters: place.stacks.events.entry(u),
            leaves: place.stacks.events.leave(row.v),
            n: u16::from(row.shape.n),
            long: ways.long,
            gain: NOTHING,
            u,
            place: number,
        };
        let lighter = ways.lighter_than(worth);
        self.spent = self.spent.saturating_add(lighter.len() as u64);
        add_piece(place, weights, lighter, worth, piece, &mut self.fillings)
    }

    // Offers the shapes that begin at a unit.
    fn offer_all(&mut self, place: &Place, u: usize, stand: &Stand) -> Result<(), AllocError> {
        for (number, row) in stand.rows.iter().enumerate() {
            self.offer(place, u, number, row)?;
        }
        Ok(())
    }

    // Finds for each stack the blocks that bring something.
    fn gather(&mut self, place: &Place) -> Result<(), AllocError> {
        self.fillings.clear();
        for (u, stand) in place.scene.stands.iter().enumerate() {
            self.offer_all(place, u, stand)?;
        }
        Ok(())
    }

    // What prices take of the shapes of a group on a track.
    fn taken_on(&self, group: usize, track: usize) -> Number {
        match self.weights.get(group) {
            Some(weights) => at(&weights.taken, track),
            None => NOTHING,
        }
    }

    // What the sum grows by with a block that comes next, but for what its stack brings less beside it.
    fn step(&self, point: &Point, entry: &Entry) -> Number {
        let row = &entry.row;
        let taken = match entry.track {
            Some(track) => self.taken_on(row.group, track),
            None => point.multiplier,
        };
        let values = self.alphas.sum(entry.u, row.n) + self.betas.sum(row.v, row.n);
        let behind = self.falls.behind(entry.u.saturating_add(row.n));
        entry.cost + taken - values + behind - self.falls.at(entry.u)
    }

    fn find_steps(&mut self, point: &Point, nexts: &[Next]) -> Result<(), AllocError> {
        self.steps.clear();
        for next in nexts {
            let step = self.step(point, &next.entry);
            self.steps.push(step)?;
        }
        Ok(())
    }

    // What the values of units come to with what they have to fall by.
    fn trains(&self, scene: &Scene, alpha: &[Number]) -> Number {
        let mut sum = NOTHING;
        for (u, stand) in scene.stands.iter().enumerate() {
            if !stand.covered {
                sum += at(alpha, u);
            }
            if scene.begins(u) {
                sum += self.falls.at(u);
            }
        }
        sum
    }

    /// The sum of a case at a path; what it grows by with each of the blocks that may come next is kept. Err is want of memory.
    pub(crate) fn sum(
        &mut self,
        place: &Place,
        span: Span,
        values: &Values,
        nexts: &[Next],
    ) -> Result<Number, AllocError> {
        let point = &values.point;
        self.weigh(place, point);
        self.alphas.read(&values.alpha);
        self.betas.read(&point.beta);
        self.find_falls(&place.scene);
        self.gather(place)?;
        self.find_steps(point, nexts)?;
        let gains = self.fillings.fill(place, nexts, &mut self.steps)?;
        Ok(place.scene.stated(span, point) + self.trains(&place.scene, &values.alpha) - gains)
    }

    // The block that may come next with which the sum grows least, if there are any.
    fn nearest(&self, nexts: &[Next]) -> Option<Nearest> {
        let mut found: Option<Nearest> = None;
        for (next, step) in nexts.iter().zip(&self.steps) {
            if found.is_none_or(|least| *step < least.step) {
                found = Some(Nearest {
                    next: *next,
                    step: *step,
                });
            }
        }
        found
    }

    /// The sum of a case at a path, and where blocks may come next the least of its sums at the longer paths; its slopes are kept. Err is want
    /// of memory.
    pub(crate) fn evaluate(
        &mut self,
        place: &Place,
        span: Span,
        values: &Values,
        nexts: &[Next],
    ) -> Result<Number, AllocError> {
        let sum = self.sum(place, span, values, nexts)?;
        let nearest = self.nearest(nexts);
        let next = nearest.map(|nearest| nearest.next);
        let entry = next.map(|next| next.entry);
        let scene = &place.scene;
        self.slopes.begin(scene, span, values.point.multiplier);
        self.falls.choose_all(scene, entry, &mut self.slopes);
        self.fillings.choose(place, next, &mut self.slopes)?;
        Ok(match nearest {
            Some(nearest) => sum + nearest.step,
            None => sum,
        })
    }

    /// How much work there was so far, with some more: as many steps of tables as it takes as long as.
    pub(crate) fn spend(&mut self, more: u64) -> u64 {
        self.spent = self.spent.saturating_add(more);
        self.spent.saturating_add(self.fillings.steps())
    }

    /// Lowers values of units so that all that has to hold does, by what the last evaluation found.
    pub(crate) fn lower(&self, scene: &Scene, alpha: &mut [Number]) {
        for (u, stand) in scene.stands.iter().enumerate() {
            if !stand.covered {
                add_at(alpha, u, self.falls.growth(u));
            }
        }
    }
}
