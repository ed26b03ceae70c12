// Blocks are ruined and made anew, and what was done is undone where it isn't worth it.

use crate::courses::Course;
use crate::covers::{Covers, PlacedShape, block_of};
use crate::draws::Chance;
use crate::tables::{ShapeRow, Spot, Tables};
use crate::yard::Standing;
use std::alloc::{AllocError, Global};

/// Of that many blocks by chance the one is ruined that weighs most above its duals.
const DRAWN: usize = 4;

/// A plan under change, with what has gone and come since it was last kept.
#[derive(Debug, Drop)]
pub(crate) struct RuinSearch {
    pub(crate) covers: Covers,
    pub(crate) draws: Chance,
    /// For each unit whether its block is a pin.
    pinned: Vec<bool>,
    /// What noises count in, and whether they are whole or halved.
    pub(crate) grain: i64,
    pub(crate) is_loud: bool,
    pub(crate) gone: Vec<PlacedShape>,
    pub(crate) come: Vec<u16>,
}

/// Which blocks are looked for.
#[derive(Clone, Copy, Debug, PartialEq, Eq, Drop)]
enum Wanted {
    Any,
    Unparked,
    /// Those that split their arriving train or couple in their departing one.
    Split,
}

impl Wanted {
    fn is(self, placed: &PlacedShape) -> bool {
        match self {
            Wanted::Any => true,
            Wanted::Unparked => placed.spot.is_none(),
            Wanted::Split => placed.row.shape.p > 1 || placed.row.shape.q > 1,
        }
    }
}

impl RuinSearch {
    /// No blocks, of which those of pinned units stay. Err is want of memory.
    pub(crate) fn new(
        alloc: Global,
        tables: &Tables,
        pinned: Vec<bool>,
        course: &Course<'_>,
    ) -> Result<RuinSearch, AllocError> {
        Ok(RuinSearch {
            covers: Covers::new(alloc, tables)?,
            draws: Chance::new(),
            pinned,
            grain: i64::from(course.grain),
            is_loud: course.is_loud,
            gone: Vec::new(alloc),
            come: Vec::new(alloc),
        })
    }

    /// The block of a first unit is ruined, where there is one that is no pin. Err is want of memory.
    fn ruin(&mut self, tables: &Tables, unit: u16) -> Result<(), AllocError> {
        if self.pinned.get(usize::from(unit)).copied().unwrap_or(true) {
            return Ok(());
        }
        if let Some(placed) = self.covers.take(tables, unit)? {
            self.gone.push(placed)?;
        }
        Ok(())
    }

    /// All blocks are ruined. Err is want of memory.
    pub(crate) fn ruin_all(&mut self, tables: &Tables) -> Result<(), AllocError> {
        for unit in 0u16..160 {
            self.ruin(tables, unit)?;
        }
        Ok(())
    }

    /// The block at a place on a track is ruined. Err is want of memory.
    fn ruin_at(&mut self, tables: &Tables, track: usize, place: usize) -> Result<(), AllocError> {
        match self.covers.yard.unit_at(track, place) {
            Some(unit) => self.ruin(tables, unit),
            None => Ok(()),
        }
    }

    /// The blocks on a track are ruined, the last one first. Err is want of memory.
    fn ruin_track(&mut self, tables: &Tables, track: usize) -> Result<(), AllocError> {
        let mut left = self.covers.yard.on(track).len();
        'left: while left > 0 {
            left -= 1;
            self.ruin_at(tables, track, left)?;
        }
        Ok(())
    }

    /// The blocks on a track that clash with one are ruined; whether there are some. Err is want of memory.
    fn ruin_clashing(
        &mut self,
        tables: &Tables,
        track: usize,
        standing: &Standing,
    ) -> Result<bool, AllocError> {
        let mut some = false;
        let mut left = self.covers.yard.on(track).len();
        'left: while left > 0 {
            left -= 1;
            if self.covers.yard.clashes_at(track, left, standing) {
                some = true;
                self.ruin_at(tables, track, left)?;
            }
        }
        Ok(some)
    }

    /// The blocks of a shape's units and positions are ruined. Err is want of memory.
    fn ruin_shape(&mut self, tables: &Tables, row: &ShapeRow) -> Result<(), AllocError> {
        for k in 0..usize::from(row.shape.n) {
            let of_unit = block_of(&self.covers.units, usize::from(row.unit) + k);
            self.ruin(tables, of_unit)?;
            let of_position = block_of(&self.covers.positions, usize::from(row.position) + k);
            self.ruin(tables, of_position)?;
        }
        Ok(())
    }

    /// A unit by chance, or 0.
    fn some_unit(&mut self) -> usize {
        let many = self.covers.units.len();
        if many == 0 {
            return 0;
        }
        self.draws.below(many)
    }

    /// The first block that is wanted from a unit by chance on.
    fn some_block(&mut self, wanted: Wanted) -> Option<PlacedShape> {
        let from = self.some_unit();
        let many = self.covers.units.len();
        for k in 0..many {
            let at = from.wrapping_add(k);
            let unit = if at < many { at } else { at.wrapping_sub(many) };
            if let Some(placed) = self.covers.block(unit) {
                if wanted.is(&placed) {
                    return Some(placed);
                }
            }
        }
        None
    }

    /// What a unit's block weighs above its duals, and the least number where it has none.
    fn above(&self, tables: &Tables, unit: usize) -> i64 {
        let first = block_of(&self.covers.units, unit);
        match self.covers.block(usize::from(first)) {
            Some(placed) => placed.above(tables),
            None => i64::MIN,
        }
    }

    /// Of some units by chance the one whose block weighs most above its duals.
    fn dear_unit(&mut self, tables: &Tables) -> usize {
        let mut dearest = self.some_unit();
        for _more in 1..DRAWN {
            let unit = self.some_unit();
            if self.above(tables, unit) > self.above(tables, dearest) {
                dearest = unit;
            }
        }
        dearest
    }

    /// Of some blocks by chance that split or couple the one that weighs most above its duals.
    fn dear_split(&mut self, tables: &Tables) -> Option<PlacedShape> {
        let mut dearest = self.some_block(Wanted::Split)?;
        for _more in 1..DRAWN {
            let other = self.some_block(Wanted::Split)?;
            if other.above(tables) > dearest.above(tables) {
                dearest = other;
            }
        }
        Some(dearest)
    }

    /// One or two tracks by chance are ruined. Err is want of memory.
    fn ruin_tracks(&mut self, tables: &Tables) -> Result<(), AllocError> {
        let many = self.covers.yard.len();
        if many == 0 {
            return Ok(());
        }
        for _track in 0..1 + self.draws.below(2) {
            let track = self.draws.below(many);
            self.ruin_track(tables, track)?;
        }
        Ok(())
    }

    /// Whether the positions of a shape are now of several blocks.
    fn is_parted(&self, row: &ShapeRow) -> bool {
        let first = block_of(&self.covers.positions, usize::from(row.position));
        for k in 1..usize::from(row.shape.n) {
            if block_of(&self.covers.positions, usize::from(row.position) + k) != first {
                return true;
            }
        }
        false
    }

    /// By chance one of the shapes with a block's first unit that have more units and positions of several blocks.
    fn longer(&mut self, tables: &Tables, block: &ShapeRow) -> Option<ShapeRow> {
        let unit = usize::from(block.unit);
        let first = unit.saturating_sub(usize::from(block.shape.p.saturating_sub(1)));
        let mut many: usize = 0;
        let mut found = None;
        for row in tables.rows_between(first, unit + 1) {
            let reaches = usize::from(row.unit) + usize::from(row.shape.n) > unit;
            if row.shape.n > block.shape.n && reaches && self.is_parted(row) {
                many = many.saturating_add(1);
                if self.draws.below(many) == 0 {
                    found = Some(*row);
                }
            }
        }
        found
    }

    /// The track of one of the last blocks that have gone, by chance, where it had one.
    fn some_track(&mut self, before: usize) -> Option<usize> {
        let many = self.gone.len().checked_sub(before)?;
        if many == 0 {
            return None;
        }
        let place = before.wrapping_add(self.draws.below(many));
        let spot = self.gone.get(place)?.spot?;
        Some(usize::from(spot.park.track.0))
    }

    /// A longer shape through a block that splits or couples is ruined, and one or two of the tracks of the blocks there. Err is want of
    /// memory.
    fn ruin_split(&mut self, tables: &Tables) -> Result<(), AllocError> {
        let Some(split) = self.dear_split(tables) else {
            return Ok(());
        };
        let Some(row) = self.longer(tables, &split.row) else {
            return Ok(());
        };
        let before = self.gone.len();
        self.ruin_shape(tables, &row)?;
        for _track in 0..1 + self.draws.below(2) {
            if let Some(track) = self.some_track(before) {
                self.ruin_track(tables, track)?;
            }
        }
        Ok(())
    }

    /// An unparked block, or any.
    fn some_in_need(&mut self) -> Option<PlacedShape> {
        if self.draws.below(4) > 0 {
            if let Some(placed) = self.some_block(Wanted::Unparked) {
                return Some(placed);
            }
        }
        self.some_block(Wanted::Any)
    }

    /// A way to park a shape, by chance.
    fn some_spot(&mut self, tables: &Tables, row: &ShapeRow) -> Option<Spot> {
        let spots = tables.spots_of(row);
        if spots.is_empty() {
            return None;
        }
        spots.get(self.draws.below(spots.len())).copied()
    }

    /// A block is ruined with what stands in its way on some track. Err is want of memory.
    fn ruin_way(&mut self, tables: &Tables) -> Result<(), AllocError> {
        let Some(placed) = self.some_in_need() else {
            return Ok(());
        };
        let row = placed.row;
        self.ruin(tables, row.unit)?;
        let Some(spot) = self.some_spot(tables, &row) else {
            return Ok(());
        };
        let track = usize::from(spot.park.track.0);
        let room = tables.room(track);
        let standing = Standing::new(&row, &spot);
        if self.covers.yard.goes_through(track, room, &standing) {
            return Ok(());
        }
        if !self.ruin_clashing(tables, track, &standing)? {
            self.ruin_track(tables, track)?;
        }
        Ok(())
    }

    /// The blocks of a unit's train are ruined. Err is want of memory.
    fn ruin_train(&mut self, tables: &Tables, unit: usize) -> Result<(), AllocError> {
        let (from, to) = tables.train_of(unit);
        for other in from..to {
            let block = block_of(&self.covers.units, other);
            self.ruin(tables, block)?;
        }
        Ok(())
    }

    /// The blocks of a shape by chance are ruined. Err is want of memory.
    fn ruin_some_shape(&mut self, tables: &Tables) -> Result<(), AllocError> {
        let many = tables.len();
        if many == 0 {
            return Ok(());
        }
        let place = self.draws.far_below(many);
        match tables.row(place) {
            Some(row) => self.ruin_shape(tables, &row),
            None => Ok(()),
        }
    }

    /// Something small is ruined. Err is want of memory.
    fn ruin_one(&mut self, tables: &Tables) -> Result<(), AllocError> {
        let unit = self.dear_unit(tables);
        match self.draws.below(4) {
            0 => match self.some_block(Wanted::Unparked) {
                Some(placed) => self.ruin(tables, placed.row.unit),
                None => Ok(()),
            },
            1 => {
                let block = block_of(&self.covers.units, unit);
                self.ruin(tables, block)
            }
            2 => self.ruin_train(tables, unit),
            _ => self.ruin_some_shape(tables),
        }
    }

    /// Some blocks are ruined. Err is want of memory.
    pub(crate) fn ruin_some(&mut self, tables: &Tables) -> Result<(), AllocError> {
        let kind = self.draws.below(24);
        if kind < 6 {
            self.ruin_tracks(tables)?;
        } else if kind >= 20 {
            self.ruin_way(tables)?;
        } else if kind >= 10 {
            self.ruin_split(tables)?;
        }
        for _more in 0..1 + self.draws.below(4) {
            self.ruin_one(tables)?;
        }
        Ok(())
    }

    /// A block comes, where its first unit has none. Err is want of memory.
    pub(crate) fn put_anew(
        &mut self,
        tables: &Tables,
        placed: PlacedShape,
    ) -> Result<(), AllocError> {
        if self.covers.block(usize::from(placed.row.unit)).is_some() {
            return Ok(());
        }
        self.covers.put(tables, placed)
    }

    /// What has gone and come is kept.
    pub(crate) fn keep(&mut self) {
        self.gone.clear();
        self.come.clear();
    }

    /// What has come goes. Err is want of memory.
    fn undo_come(&mut self, tables: &Tables) -> Result<(), AllocError> {
        for place in 0..self.come.len() {
            let unit = block_of(&self.come, place);
            self.covers.take(tables, unit)?;
        }
        self.come.clear();
        Ok(())
    }

    /// What has come goes, and what has gone comes again. Err is want of memory.
    pub(crate) fn undo(&mut self, tables: &Tables) -> Result<(), AllocError> {
        self.undo_come(tables)?;
        for place in 0..self.gone.len() {
            if let Some(placed) = self.gone.get(place).copied() {
                self.covers.put(tables, placed)?;
            }
        }
        self.gone.clear();
        Ok(())
    }
}
