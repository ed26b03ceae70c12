// Dual values, prices of track room, and cases by the number of unparked blocks.
ghost use Rattle.std.specs.Prelude.{◌≡◌, [], ◌∷◌, ◌<◌, ◌≤◌, Some, length, slice_get};

use crate::ids::{ArrId, TrackId};
use shunt_lists::Items;
use std::marker::Model;

/// What a price counts of a block that stands on its track.
#[derive(Clone, Copy, Debug, PartialEq, Eq, PartialOrd, Ord, Hash)]
pub enum PriceKind {
    /// Its length in dm.
    Length,
    /// For R parts, from 1 to 8: (R + 1) times its length less 1, divided by the track's length and rounded down.
    Parts(u8),
}

/// A price of standing on a track at the moment just after an arriving train's last entry.
#[derive(Clone, Copy, Debug, PartialEq, Eq, PartialOrd, Ord, Hash)]
pub struct Price {
    pub kind: PriceKind,
    pub track: TrackId,
    pub train: ArrId,
    /// Thousandths of a cost unit for each dm or part that is counted.
    pub value: u64,
}

/// A value for each unit and each position, in thousandths of a cost unit, and prices.
#[derive(Debug, Drop)]
pub struct Duals {
    /// One value for each unit.
    pub alpha: Items<i64>,
    /// One value for each position.
    pub beta: Items<i64>,
    pub prices: Items<Price>,
}

/// Duals for the plans whose number of unparked blocks is at most a limit, and above that of the case before.
#[derive(Debug, Drop)]
pub struct Case {
    /// The greatest number of unparked blocks, from 0 to 160.
    pub to: u8,
    /// What each unparked block weighs more than it costs, in thousandths of a cost unit.
    pub multiplier: i64,
    pub duals: Duals,
}

/// One case or two, seen as their list.
#[derive(Debug, Drop)]
pub struct Cases {
    first: Case,
    second: Option<Case>,
}

impl Model for Cases {
    ghost use Rattle.std.specs.Prelude.{List};
    ghost use Rattle.shunt_base.specs.declared.duals.Case.{Case};
    ghost use Rattle.shunt_base.specs.defs.Listed.{listed};

    ghost Value = { List Case };

    ghost view = { λ c. listed c.first c.second };
}

impl Cases {
    /// One case. It takes no memory.
    pub fn one(case: Case) -> Cases
        ensures { result ≡ case ∷ [] }
    {
        Cases {
            first: case,
            second: None,
        }
    }

    /// Two cases in this order. It takes no memory.
    pub fn two(first: Case, second: Case) -> Cases
        ensures { result ≡ first ∷ second ∷ [] }
    {
        Cases {
            first,
            second: Some(second),
        }
    }

    /// How many there are: 1 or 2.
    pub fn len(&self) -> usize
        ensures value { result ≡ length self.now }
        ensures some { 1 ≤ result }
        ensures few { result ≤ 2 }
    {
        match self.second {
            None => 1,
            Some(_) => 2,
        }
    }

    /// The case at a place, from 0.
    pub fn get(&self, place: usize) -> &Case
        requires { place < length self.now }
        ensures { slice_get self.now place ≡ Some result.now }
    {
        match &self.second {
            Some(second) if place == 1 => second,
            _ => &self.first,
        }
    }
}
