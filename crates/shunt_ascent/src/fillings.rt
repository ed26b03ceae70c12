// What stacks bring at a path, and the blocks that come to it.
use crate::numbers::{NOTHING, Number};
use crate::places::Place;
use crate::rooms::Rooms;
use crate::scenes::{Entry, Scene};
use crate::slopes::Slopes;
use crate::stacks::Stacks;
use crate::tables::{Offer, Part, Piece, Table, first_leave};
use std::alloc::{AllocError, Global};

/// A block that may come next, with its stack if it goes by one.
#[derive(Clone, Copy)]
pub(crate) struct Next {
    pub entry: Entry,
    pub stack: Option<usize>,
}

/// The blocks of a stack that bring something, those of them that are chosen in its first part, and those in the parts behind it.
#[derive(Drop)]
struct Filling {
    pieces: Vec<Piece>,
    first: Vec<Piece>,
    later: Vec<Piece>,
}

/// What stacks bring at a path, kept so that no memory is asked for again.
#[derive(Drop)]
pub(crate) struct Fillings {
    all: Vec<Filling>,
    table: Table,
}

/// What a block that comes next leaves of the first part of its stack.
#[derive(Clone, Copy)]
struct Left {
    inside: Part,
    behind: Part,
}

fn left_by(place: &Place, rooms: &Rooms, first: Part, next: &Next) -> Option<Left> {
    let row = next.entry.row;
    let long = place.stacks.ways_of(&place.scene, row.group)?.long;
    let room = rooms.less(first.room, long)?;
    let enters = place.stacks.events.entry(next.entry.u);
    let leaves = place.stacks.events.leave(row.v);
    let n = u16::from(row.shape.n);
    Some(Left {
        inside: Part {
            from: enters.saturating_add(n),
            to: first_leave(leaves, n),
            room,
        },
        behind: Part {
            from: leaves.saturating_add(1),
            ..first
        },
    })
}

// What the first part of a stack brings beside a block that comes next.
fn gain_beside(
    table: &mut Table,
    offer: Offer<'_>,
    place: &Place,
    first: Part,
    next: &Next,
) -> Number {
    match left_by(place, offer.rooms, first, next) {
        Some(left) => table.greatest(offer, left.inside) + table.greatest(offer, left.behind),
        None => NOTHING,
    }
}

// Adds to the steps of those blocks that go by a stack what its first part brings less beside them.
fn add_losses(
    table: &mut Table,
    offer: Offer<'_>,
    place: &Place,
    stack: usize,
    first: Part,
    nexts: &[Next],
    steps: &mut [Number],
) {
    let gain = table.greatest(offer, first);
    if gain <= NOTHING {
        return;
    }
    for (next, step) in nexts.iter().zip(steps.iter_mut()) {
        if next.stack == Some(stack) {
            *step += gain - gain_beside(table, offer, place, first, next);
        }
    }
}

// The greatest sum in the parts of a stack, whose blocks are added to those that are chosen in the first part or later.
fn fill_parts(
    table: &mut Table,
    offer: Offer<'_>,
    parts: &[Part],
    first: &mut Vec<Piece>,
    later: &mut Vec<Piece>,
) -> Result<Number, AllocError> {
    let mut sum = NOTHING;
    for (number, part) in parts.iter().enumerate() {
        sum += table.greatest(offer, *part);
        if number == 0 {
            table.choose(offer, *part, first)?;
        } else {
            table.choose(offer, *part, later)?;
        }
    }
    Ok(sum)
}

// Counts a chosen block on a track.
fn count(scene: &Scene, track: usize, piece: &Piece, slopes: &mut Slopes) {
    let Some(stand) = scene.stands.get(piece.u) else {
        return;
    };
    if let Some(row) = stand.rows.get(piece.place) {
        slopes.choose(scene, piece.u, row, Some(track));
    }
}

fn count_all(scene: &Scene, track: usize, chosen: &[Piece], slopes: &mut Slopes) {
    for piece in chosen {
        count(scene, track, piece, slopes);
    }
}

impl Filling {
    fn offer<'a>(&'a self, rooms: &'a Rooms) -> Offer<'a> {
        Offer {
            pieces: &self.pieces,
            rooms,
        }
    }

    // Brings the blocks into their order, of which none are chosen yet.
    fn begin(&mut self) {
        self.first.clear();
        self.later.clear();
        self.pieces
            .sort_unstable_by_key(|piece| (piece.enters, piece.leaves, piece.n));
    }

    // What the parts of the stack bring together, whose chosen blocks are kept.
    fn fill(
        &mut self,
        table: &mut Table,
        rooms: &Rooms,
        parts: &[Part],
    ) -> Result<Number, AllocError> {
        let offer = Offer {
            pieces: &self.pieces,
            rooms,
        };
        table.prepare(offer)?;
        fill_parts(table, offer, parts, &mut self.first, &mut self.later)
    }

    // Chooses blocks anew in what is left of the first part.
    fn choose_in(
        &mut self,
        table: &mut Table,
        rooms: &Rooms,
        left: Left,
    ) -> Result<(), AllocError> {
        let offer = Offer {
            pieces: &self.pieces,
            rooms,
        };
        table.prepare(offer)?;
        table.choose(offer, left.inside, &mut self.first)?;
        table.choose(offer, left.behind, &mut self.first)
    }
}

impl Fillings {
    /// Room for what stacks bring. Err is want of memory.
    pub(crate) fn new(alloc: Global, stacks: &Stacks) -> Result<Fillings, AllocError> {
        let mut all = Vec::with_capacity(alloc, stacks.len())?;
        for _stack in 0..stacks.len() {
            all.push(Filling {
                pieces: Vec::new(alloc),
                first: Vec::new(alloc),
                later: Vec::new(alloc),
            })?;
        }
        Ok(Fillings {
            all,
            table: Table::new(alloc),
        })
    }

    /// How many steps the tables of stacks took so far.
    pub(crate) fn steps(&self) -> u64 {
        self.table.steps
    }

    /// Forgets all blocks.
    pub(crate) fn clear(&mut self) {
        for filling in &mut self.all {
            filling.pieces.clear();
        }
    }

    /// Adds a block that brings something to those of a stack. Err is want of memory.
    pub(crate) fn add(&mut self, stack: usize, piece: Piece) -> Result<(), AllocError> {
        if let Some(filling) = self.all.get_mut(stack) {
            filling.pieces.push(piece)?;
        }
        Ok(())
    }

    /// What all stacks bring together, whose chosen blocks are kept. To what the sum grows by with each block that may come next, what its
    /// stack brings less beside it is added. Err is want of memory.
    pub(crate) fn fill(
        &mut self,
        place: &Place,
        nexts: &[Next],
        steps: &mut [Number],
    ) -> Result<Number, AllocError> {
        let mut sum = NOTHING;
        for stack in 0..self.all.len() {
            sum += self.fill_one(place, stack, nexts, steps)?;
        }
        Ok(sum)
    }

    // What a stack brings.
    fn fill_one(
        &mut self,
        place: &Place,
        stack: usize,
        nexts: &[Next],
        steps: &mut [Number],
    ) -> Result<Number, AllocError> {
        let (Some(filling), Some(space), Some(rooms)) = (
            self.all.get_mut(stack),
            place.spaces.get(stack),
            place.stacks.rooms_of(stack),
        ) else {
            return Ok(NOTHING);
        };
        filling.begin();
        if filling.pieces.is_empty() {
            return Ok(NOTHING);
        }
        let sum = filling.fill(&mut self.table, rooms, &space.parts)?;
        if let Some(part) = space.parts.first() {
            let offer = filling.offer(rooms);
            add_losses(&mut self.table, offer, place, stack, *part, nexts, steps);
        }
        Ok(sum)
    }

    // Chooses blocks of a stack anew beside one that comes next, in the first part.
    fn choose_beside(
        &mut self,
        place: &Place,
        stack: usize,
        next: &Next,
    ) -> Result<(), AllocError> {
        let (Some(filling), Some(space), Some(rooms)) = (
            self.all.get_mut(stack),
            place.spaces.get(stack),
            place.stacks.rooms_of(stack),
        ) else {
            return Ok(());
        };
        filling.first.clear();
        let Some(part) = space.parts.first() else {
            return Ok(());
        };
        match left_by(place, rooms, *part, next) {
            Some(left) => filling.choose_in(&mut self.table, rooms, left),
            None => Ok(()),
        }
    }

    /// Counts the chosen blocks, which stand beside one that comes next if there is one. Err is want of memory.
    pub(crate) fn choose(
        &mut self,
        place: &Place,
        next: Option<Next>,
        slopes: &mut Slopes,
    ) -> Result<(), AllocError> {
        if let Some(next) = next {
            if let Some(stack) = next.stack {
                self.choose_beside(place, stack, &next)?;
            }
        }
        for (stack, filling) in self.all.iter().enumerate() {
            count_all(&place.scene, stack / 2, &filling.first, slopes);
            count_all(&place.scene, stack / 2, &filling.later, slopes);
        }
        Ok(())
    }
}
