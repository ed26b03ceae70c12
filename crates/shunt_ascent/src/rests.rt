// What covering trains comes to from each of their units on, and by which shapes.
use crate::numbers::{NOTHING, Number, at, put_at};
use crate::scenes::{Entry, Row, Scene, Stand};
use crate::slopes::Slopes;
use std::alloc::{AllocError, Global};

/// How many units a train has at most.
const LONGEST: usize = 8;

/// A shape that is chosen, with its track if it has one.
#[derive(Clone, Copy)]
pub(crate) struct Pick {
    pub row: Row,
    pub track: Option<usize>,
}

/// For each unit the least that covering its train from there on comes to, and the shape at it, if it is covered by one that begins there.
#[derive(Drop)]
pub(crate) struct Rests {
    all: Vec<Number>,
    // The same where the unit before it is of its train, and nothing elsewhere.
    behind: Vec<Number>,
    picks: Vec<Option<Pick>>,
}

impl Rests {
    /// Those of that many units. Err is want of memory.
    pub(crate) fn new(alloc: Global, units: usize) -> Result<Rests, AllocError> {
        Ok(Rests {
            all: vec![in alloc; NOTHING; units]?,
            behind: vec![in alloc; NOTHING; units.saturating_add(1)]?,
            picks: vec![in alloc; None; units]?,
        })
    }

    /// What covering a unit's train from there on comes to.
    pub(crate) fn at(&self, u: usize) -> Number {
        at(&self.all, u)
    }

    /// What covering a train comes to behind its units before one, and nothing where that one is of another train.
    pub(crate) fn behind(&self, u: usize) -> Number {
        at(&self.behind, u)
    }

    /// By how much covering a unit's train from there on comes to more than from the unit behind it on.
    pub(crate) fn growth(&self, u: usize) -> Number {
        self.at(u) - self.behind(u.saturating_add(1))
    }

    /// Keeps what covering a unit's train from there on comes to, and by which shape.
    pub(crate) fn keep(&mut self, u: usize, stand: &Stand, rest: Number, pick: Option<Pick>) {
        put_at(&mut self.all, u, rest);
        put_at(
            &mut self.behind,
            u,
            if stand.follows { rest } else { NOTHING },
        );
        if let Some(old) = self.picks.get_mut(u) {
            *old = pick;
        }
    }

    // The shape that is chosen at a unit, if any is.
    fn pick_at(&self, u: usize) -> Option<Pick> {
        self.picks.get(u).copied().unwrap_or(None)
    }

    // Counts the shapes that are chosen for a train from a unit on.
    fn choose_from(&self, scene: &Scene, first: usize, slopes: &mut Slopes) {
        let mut u = first;
        'units: for _ in 0..LONGEST {
            match self.pick_at(u) {
                Some(pick) => {
                    slopes.choose(scene, u, &pick.row, pick.track);
                    u = u.saturating_add(pick.row.n);
                }
                None => u = u.saturating_add(1),
            }
            if !scene.continues(u) {
                return;
            }
        }
    }
    // Counts a block that comes next, and the shapes that are chosen for its train behind it.
    fn choose_next(&self, scene: &Scene, next: &Entry, slopes: &mut Slopes) {
        slopes.choose(scene, next.u, &next.row, next.track);
        let behind = next.u.saturating_add(next.row.n);
        if scene.continues(behind) {
            self.choose_from(scene, behind, slopes);
        }
    }

    // Counts the shapes that are chosen for a train from its first uncovered unit on, where the block that comes next may begin.
    fn choose_train(&self, scene: &Scene, u: usize, next: Option<Entry>, slopes: &mut Slopes) {
        if let Some(next) = next {
            if next.u == u {
                self.choose_next(scene, &next, slopes);
                return;
            }
        }
        self.choose_from(scene, u, slopes);
    }

    /// Counts the shapes that are chosen for trains, and the block that comes next if there is one.
    pub(crate) fn choose_all(&self, scene: &Scene, next: Option<Entry>, slopes: &mut Slopes) {
        for u in 0..scene.stands.len() {
            if scene.begins(u) {
                self.choose_train(scene, u, next, slopes);
            }
        }
    }
}
