//! The table of shares.
ghost use Rattle.std.specs.Prelude.{◌≡◌, ◌<◌, ◌≤◌, ◌*◌, length};
ghost use Rattle.shunt_dual.specs.defs.Shares.{share_at};

use std::marker::Model;

/// For each unit and each position of a night their share where they are matchable, in thousandths of a cost unit.
///
/// Contracts see the numbers of units and of positions, and the entries unit by unit.
#[derive(Debug, Drop)]
pub struct Shares {
    units: usize,
    positions: usize,
    entries: Vec<Option<u64>>,
}

impl Model for Shares {
    ghost use Rattle.std.specs.Prelude.{◌≡◌, ◌≤◌, ◌*◌, length};
    ghost use Rattle.shunt_dual.specs.defs.Shares.{Table};

    ghost Value = { Table };

    ghost view = { λ s.
        record { units = s.units; positions = s.positions; entries = s.entries.items } };

    ghost invariant = { λ s. (s.units ≤ 160) × (s.positions ≤ 160)
        × (length s.entries.items ≡ s.units * s.positions) };
}

impl Shares {
    // These entries.
    pub(crate) fn new(units: usize, positions: usize, entries: Vec<Option<u64>>) -> Shares
        requires units { units ≤ 160 }
        requires positions { positions ≤ 160 }
        requires size { length entries.items ≡ units * positions }
        ensures { result
            ≡ record { units = units; positions = positions; entries = entries.items } }
    {
        Shares {
            units,
            positions,
            entries,
        }
    }

    // All entries, unit by unit.
    pub(crate) fn entries(&self) -> &[Option<u64>]
        ensures { result.now ≡ self.now.entries }
    {
        &self.entries
    }

    /// The share of a unit and a position of the table. None where they aren't matchable. It takes no memory.
    pub fn share(&self, u: usize, v: usize) -> Option<u64>
        requires unit { u < self.now.units }
        requires position { v < self.now.positions }
        ensures { result ≡ share_at self.now u v }
    {
        self.entries[u * self.positions + v]
    }
}
