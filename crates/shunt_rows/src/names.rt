// Names that are numbered in the order in which they are made known.
ghost use Rattle.std.specs.Prelude.{◌≡◌, ◌++◌, ◌∷◌, [], ◌≤◌, ◌<◌, false, IfOk, IfSome, OnOk, OnErr};
ghost use Rattle.std.specs.Prelude.{bytes_eq, position, length};
ghost use Rattle.std.specs.List.{list_any};
ghost use Rattle.shunt_rows.specs.defs.Checks.{answer};
ghost use Rattle.shunt_rows.specs.defs.Fields.{known_in};

use crate::fault::{RowFault, RowKind};
use crate::row::Row;
use indexmap::IndexSet;
use std::alloc::{AllocError, Global};
use std::marker::Model;

/// Names, each numbered by its place from 0; seen as the list of them.
///
/// It borrows their bytes, and a look-up takes the same time among many as among few.
#[derive(Drop)]
pub struct Names<'r> {
    names: IndexSet<&'r [u8]>,
}

impl<'r> Model for Names<'r> {
    ghost use Rattle.std.specs.Prelude.{List, ℕ, map};

    ghost Value = { List (List ℕ) };

    ghost view = { λ n. map (λ k. k.now) n.names.keys };
}

impl<'r> Names<'r> {
    /// No names. It takes no memory.
    pub fn new(alloc: Global) -> Names<'r>
        ensures { result ≡ [] }
    {
        Names {
            names: IndexSet::new(alloc),
        }
    }

    /// Whether this is one of the names.
    pub fn has(&self, name: &[u8]) -> bool
        ensures { result ≡ list_any (λ n. bytes_eq n name.now) self.now }
    {
        self.names.contains(name)
    }

    /// The number of a name.
    pub fn number_of(&self, name: &[u8]) -> Option<usize>
        ensures value { result ≡ position (λ n. bytes_eq n name.now) self.now }
        ensures within { IfSome result (λ i. i < length self.now) }
    {
        self.names.get_index_of(name)
    }

    /// Makes a new name known.
    pub fn add(&mut self, name: &'r [u8]) -> Result<(), AllocError>
        requires { list_any (λ n. bytes_eq n name.now) self.old ≡ false }
        ensures added { OnOk result (self.new ≡ self.old ++ name.now ∷ []) }
        ensures same { OnErr result (self.new ≡ self.old) }
    {
        self.names.insert(name)?;
        Ok(())
    }

    /// The number of the name at field `k` of record `n`: else Unknown.
    pub fn known_in(&self, row: &Row, n: u32, k: u32) -> Result<usize, RowFault>
        requires first { 1 ≤ k }
        requires last { k ≤ length row.now }
        ensures answer { result ≡ answer n (known_in row.now k self.now) }
        ensures within { IfOk result (λ i. i < length self.now) }
    {
        let number = self.number_of(row.field(k as usize));
        match number {
            Some(number) => Ok(number),
            None => Err(RowFault {
                row: n,
                field: k,
                kind: RowKind::Unknown,
            }),
        }
    }
}
