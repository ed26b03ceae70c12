// Units that no block has are covered again.

use crate::covers::{Covers, NO_BLOCK, PlacedShape, block_of};
use crate::draws::Chance;
use crate::search::RuinSearch;
use crate::tables::{ShapeRow, Tables};
use crate::yard::Standing;
use std::alloc::{AllocError, Global};

/// The lightest choice that was found, its weight, and how much chance may add to a weight.
#[derive(Clone, Copy, Debug, Drop)]
struct Lightest {
    weight: i64,
    choice: Option<PlacedShape>,
    noise: i64,
}

/// How much chance may add to weights in one round, by a draw.
const NOISES: [i64; 6] = [1, 4_000, 16_000, 60_000, 130_000, 260_000];

impl Lightest {
    /// Another choice takes its place.
    fn be(&mut self, weight: i64, choice: PlacedShape) {
        self.weight = weight;
        self.choice = Some(choice);
    }
}

impl Covers {
    /// Whether no block has a unit and a position of a shape, counted from its first.
    fn is_bare(&self, row: &ShapeRow, k: u8) -> bool {
        block_of(&self.units, usize::from(row.unit) + usize::from(k)) == NO_BLOCK
            && block_of(&self.positions, usize::from(row.position) + usize::from(k)) == NO_BLOCK
    }

    /// Tries the ways to park a shape, the lightest first, until none can be the lightest choice.
    fn try_spots(
        &self,
        tables: &Tables,
        row: &ShapeRow,
        draws: &mut Chance,
        lightest: &mut Lightest,
    ) {
        for spot in tables.spots_of(row) {
            let least = row.reduced.wrapping_add(spot.weight);
            if least >= lightest.weight {
                return;
            }
            let weight = least.wrapping_add(draws.noise(lightest.noise));
            let track = usize::from(spot.park.track.0);
            if weight < lightest.weight
                && self
                    .yard
                    .goes_through(track, tables.room(track), &Standing::new(row, spot))
            {
                lightest.be(
                    weight,
                    PlacedShape {
                        row: *row,
                        spot: Some(*spot),
                    },
                );
            }
        }
    }

    /// Tries a shape with its options.
    fn try_row(
        &self,
        tables: &Tables,
        row: &ShapeRow,
        draws: &mut Chance,
        lightest: &mut Lightest,
    ) {
        let least = row.reduced.wrapping_add(tables.unparked_weight);
        let weight = least.wrapping_add(draws.noise(lightest.noise));
        if weight < lightest.weight {
            lightest.be(
                weight,
                PlacedShape {
                    row: *row,
                    spot: None,
                },
            );
        }
        self.try_spots(tables, row, draws, lightest);
    }

    /// Tries the shapes that begin at a unit and a position, as far as no block has what they do.
    fn try_rows(
        &self,
        tables: &Tables,
        unit: usize,
        position: usize,
        draws: &mut Chance,
        lightest: &mut Lightest,
    ) {
        for row in tables.rows_at(unit, position) {
            if !self.is_bare(row, row.shape.n.saturating_sub(1)) {
                return;
            }
            self.try_row(tables, row, draws, lightest);
        }
    }

    /// The choice at a unit that is lightest with some noise.
    fn lightest_at(
        &self,
        tables: &Tables,
        unit: usize,
        draws: &mut Chance,
        noise: i64,
    ) -> Option<PlacedShape> {
        let mut lightest = Lightest {
            weight: i64::MAX,
            choice: None,
            noise,
        };
        for position in &self.free {
            self.try_rows(tables, unit, usize::from(*position), draws, &mut lightest);
        }
        lightest.choice
    }
}

/// How what has gone is covered anew.
#[derive(Clone, Copy, Debug, Drop)]
struct Attempt {
    /// How much chance may add to weights.
    noise: i64,
    /// How much the prices count, 1,024 to one.
    prices: i64,
    /// What a plan may be held for at most.
    most: i64,
}

impl RuinSearch {
    /// A unit that no block has is covered; whether it can be, and the plan may still be held for no more than the most. Err is want of
    /// memory.
    fn cover(
        &mut self,
        tables: &Tables,
        unit: usize,
        attempt: &Attempt,
    ) -> Result<bool, AllocError> {
        if block_of(&self.covers.units, unit) != NO_BLOCK {
            return Ok(true);
        }
        let Some(placed) = self
            .covers
            .lightest_at(tables, unit, &mut self.draws, attempt.noise)
        else {
            return Ok(false);
        };
        self.covers.put(tables, placed)?;
        self.come.push(placed.row.unit)?;
        Ok(self.covers.held_at_least(attempt.prices) <= attempt.most)
    }

    /// The units of a train that no block has are covered; whether they can be, likewise. Err is want of memory.
    fn cover_train(
        &mut self,
        tables: &Tables,
        unit: usize,
        attempt: &Attempt,
    ) -> Result<bool, AllocError> {
        let (from, to) = tables.train_of(unit);
        for other in from..to {
            if !self.cover(tables, other, attempt)? {
                return Ok(false);
            }
        }
        Ok(true)
    }

    /// The first units of the trains of the blocks that have gone. Err is want of memory.
    fn trains_gone(&self, alloc: Global, tables: &Tables) -> Result<Vec<usize>, AllocError> {
        let mut trains = Vec::new(alloc);
        for placed in &self.gone {
            let train = tables.train_of(usize::from(placed.row.unit));
            if !trains.contains(&train.0) {
                trains.push(train.0)?;
            }
        }
        Ok(trains)
    }

    /// Brings trains into an order by chance.
    fn shuffle(&mut self, trains: &mut [usize]) {
        for place in 1..trains.len() {
            let other = self.draws.below(place + 1);
            trains.swap(place, other);
        }
    }

    /// How much chance may add to weights.
    fn some_noise(&mut self) -> i64 {
        let noise = NOISES[self.draws.below(6)];
        let heard = if self.is_loud { noise } else { noise / 2 };
        heard.wrapping_mul(self.grain)
    }

    /// What has gone is covered anew, train by train; whether it can be by a plan that is held for no more than the most, where the prices
    /// count that much, 1,024 to one. Err is want of memory.
    pub(crate) fn recreate(
        &mut self,
        alloc: Global,
        tables: &Tables,
        prices: i64,
        most: i64,
    ) -> Result<bool, AllocError> {
        let attempt = Attempt {
            noise: self.some_noise(),
            prices,
            most,
        };
        let mut trains = self.trains_gone(alloc, tables)?;
        self.shuffle(&mut trains);
        for train in trains {
            if !self.cover_train(tables, train, &attempt)? {
                return Ok(false);
            }
        }
        Ok(true)
    }
}
