// A plan under change: which blocks it has, what they cover, where they stand, and what they cost.
ghost use Rattle.std.specs.Prelude.{◌≡◌};

use crate::tables::{ShapeRow, Spot, Tables, block_with};
use crate::yard::{RuinYard, Standing};
use shunt_blocks::{Block, Park};
use std::alloc::{AllocError, Global};

/// Stands for no block.
pub(crate) const NO_BLOCK: u16 = 65535;

/// A shape, and where it is parked, if it is.
#[derive(Clone, Copy, Debug, Drop)]
pub(crate) struct PlacedShape {
    pub(crate) row: ShapeRow,
    pub(crate) spot: Option<Spot>,
}

impl PlacedShape {
    /// What it costs, in thousandths of a cost unit.
    fn cost(&self, tables: &Tables) -> i64 {
        match self.spot {
            Some(spot) => self.row.ends.wrapping_add(spot.cost),
            None => self.row.ends.wrapping_add(tables.unparked),
        }
    }

    /// What the prices take of it.
    fn part(&self) -> i64 {
        match self.spot {
            Some(spot) => spot.weight.wrapping_sub(spot.cost),
            None => 0,
        }
    }

    /// What it weighs above its duals.
    pub(crate) fn above(&self, tables: &Tables) -> i64 {
        match self.spot {
            Some(spot) => self.row.reduced.wrapping_add(spot.weight),
            None => self.row.reduced.wrapping_add(tables.unparked_weight),
        }
    }

    /// Its option.
    fn park(&self) -> Option<Park> {
        Some(self.spot?.park)
    }

    /// It as a block.
    pub(crate) fn block(&self, id: u32) -> Block
        ensures { result.id ≡ id }
    {
        block_with(self.row.shape, self.park(), id)
    }
}

/// Sets a number, where the place is there.
fn set(numbers: &mut [u16], place: usize, number: u16) {
    if place < numbers.len() {
        numbers[place] = number;
    }
}

/// Sets that many numbers from a place on.
fn set_all(numbers: &mut [u16], from: u16, many: u8, number: u16) {
    for k in 0..usize::from(many) {
        set(numbers, usize::from(from) + k, number);
    }
}

/// Which block has a unit, or a position.
pub(crate) fn block_of(numbers: &[u16], place: usize) -> u16 {
    numbers.get(place).copied().unwrap_or(NO_BLOCK)
}

/// A number of copies of one.
fn copies(alloc: Global, number: u16, many: usize) -> Result<Vec<u16>, AllocError> {
    let mut numbers = Vec::with_capacity(alloc, many)?;
    for _copy in 0..many {
        numbers.push(number)?;
    }
    Ok(numbers)
}

/// Numbers from 0 on.
fn count_up(alloc: Global, many: usize) -> Result<Vec<u16>, AllocError> {
    let mut numbers = Vec::with_capacity(alloc, many)?;
    for number in 0..many {
        numbers.push(u16::try_from(number).unwrap_or(NO_BLOCK))?;
    }
    Ok(numbers)
}

/// That many places without a block.
pub(crate) fn no_blocks(
    alloc: Global,
    many: usize,
) -> Result<Vec<Option<PlacedShape>>, AllocError> {
    let mut blocks = Vec::with_capacity(alloc, many)?;
    for _unit in 0..many {
        blocks.push(None)?;
    }
    Ok(blocks)
}

/// Blocks by their first units, with what they cover and cost.
#[derive(Debug, Drop)]
pub(crate) struct Covers {
    pub(crate) blocks: Vec<Option<PlacedShape>>,
    /// For each unit and each position the first unit of its block.
    pub(crate) units: Vec<u16>,
    pub(crate) positions: Vec<u16>,
    /// The positions that no block has.
    pub(crate) free: Vec<u16>,
    pub(crate) yard: RuinYard,
    /// What the blocks cost, in thousandths of a cost unit.
    pub(crate) cost: i64,
    /// What the prices take of them.
    pub(crate) part: i64,
    /// What blocks of the units that no block has cost at least.
    bare: i64,
}

impl Covers {
    /// No blocks. Err is want of memory.
    pub(crate) fn new(alloc: Global, tables: &Tables) -> Result<Covers, AllocError> {
        Ok(Covers {
            blocks: no_blocks(alloc, tables.units)?,
            units: copies(alloc, NO_BLOCK, tables.units)?,
            positions: copies(alloc, NO_BLOCK, tables.positions)?,
            free: count_up(alloc, tables.positions)?,
            yard: RuinYard::new(alloc, tables.rooms.len())?,
            cost: 0,
            part: 0,
            bare: tables.all_shares(),
        })
    }

    /// What the blocks are held for where the prices count that much, 1,024 to one.
    pub(crate) fn held(&self, prices: i64) -> i64 {
        self.cost
            .wrapping_add(prices.wrapping_mul(self.part) / 1024)
    }

    /// What a whole plan with these blocks is held for at least.
    pub(crate) fn held_at_least(&self, prices: i64) -> i64 {
        self.held(prices).wrapping_add(self.bare)
    }

    /// The block whose first unit this is.
    pub(crate) fn block(&self, unit: usize) -> Option<PlacedShape> {
        self.blocks.get(unit).copied()?
    }

    /// There is this block with a first unit, or none.
    fn set_block(&mut self, unit: usize, block: Option<PlacedShape>) {
        if unit < self.blocks.len() {
            self.blocks[unit] = block;
        }
    }

    /// A position isn't free any more.
    fn cover(&mut self, position: u16) {
        let Some(place) = self.free.iter().position(|free| *free == position) else {
            return;
        };
        if place < self.free.len() {
            self.free.swap_remove(place);
        }
    }

    /// Its positions aren't free any more.
    fn cover_all(&mut self, row: &ShapeRow) {
        for k in 0..u16::from(row.shape.n) {
            self.cover(row.position.wrapping_add(k));
        }
    }

    /// Its positions are free again. Err is want of memory.
    fn free_all(&mut self, row: &ShapeRow) -> Result<(), AllocError> {
        for k in 0..u16::from(row.shape.n) {
            self.free.push(row.position.wrapping_add(k))?;
        }
        Ok(())
    }

    /// A block comes. Err is want of memory.
    pub(crate) fn put(&mut self, tables: &Tables, placed: PlacedShape) -> Result<(), AllocError> {
        let row = placed.row;
        let place = usize::from(row.unit);
        if place >= self.blocks.len() {
            return Ok(());
        }
        set_all(&mut self.units, row.unit, row.shape.n, row.unit);
        set_all(&mut self.positions, row.position, row.shape.n, row.unit);
        self.cover_all(&row);
        if let Some(spot) = placed.spot {
            let standing = Standing::new(&row, &spot);
            self.yard.come(usize::from(spot.park.track.0), standing)?;
        }
        self.set_block(place, Some(placed));
        self.cost = self.cost.wrapping_add(placed.cost(tables));
        self.part = self.part.wrapping_add(placed.part());
        self.bare = self.bare.wrapping_sub(tables.share(place, row.shape.n));
        Ok(())
    }

    /// The block of a first unit goes, where there is one. Err is want of memory.
    pub(crate) fn take(
        &mut self,
        tables: &Tables,
        unit: u16,
    ) -> Result<Option<PlacedShape>, AllocError> {
        let place = usize::from(unit);
        let Some(placed) = self.block(place) else {
            return Ok(None);
        };
        let row = placed.row;
        set_all(&mut self.units, row.unit, row.shape.n, NO_BLOCK);
        set_all(&mut self.positions, row.position, row.shape.n, NO_BLOCK);
        self.free_all(&row)?;
        if let Some(spot) = placed.spot {
            self.yard.go(usize::from(spot.park.track.0), row.unit);
        }
        self.set_block(place, None);
        self.cost = self.cost.wrapping_sub(placed.cost(tables));
        self.part = self.part.wrapping_sub(placed.part());
        self.bare = self.bare.wrapping_add(tables.share(place, row.shape.n));
        Ok(Some(placed))
    }
}
