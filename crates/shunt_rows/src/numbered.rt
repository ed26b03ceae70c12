// Things that are numbered by their names.
ghost use Rattle.std.specs.Prelude.{◌≡◌, ◌≢◌, ◌++◌, ◌∷◌, ◌≤◌, ◌<◌, AllPairs, map, []};
ghost use Rattle.std.specs.Prelude.{false, IfOk, IfSome, OnOk, OnErr, bytes_eq, position, length};
ghost use Rattle.std.specs.List.{list_any};
ghost use Rattle.shunt_rows.specs.defs.Checks.{answer};
ghost use Rattle.shunt_rows.specs.defs.Fields.{named_in};

use crate::fault::RowFault;
use crate::names::Names;
use crate::row::Row;
use shunt_base::Naming;
use shunt_lists::Items;
use std::alloc::{AllocError, Global};
use std::marker::Model;

/// Things, each numbered by its place from 0 and found by its name; seen as the list of them.
#[derive(Drop)]
pub struct Numbered<'r, N: Naming> {
    names: Names<'r>,
    things: Vec<N::Thing>,
}

impl<'r, N: Naming> Model for Numbered<'r, N> {
    ghost use Rattle.std.specs.Prelude.{◌≡◌, List, map};

    ghost Value = { List N.Thing };

    ghost view = { λ n. n.things.items };

    ghost invariant = { λ n. n.names ≡ map N.name n.things.items };
}

impl<'r, N: Naming> Numbered<'r, N> {
    /// Nothing. It takes no memory.
    pub fn new(alloc: Global) -> Numbered<'r, N>
        ensures { result ≡ [] }
    {
        Numbered {
            names: Names::new(alloc),
            things: Vec::new(alloc),
        }
    }

    /// The number of things.
    pub fn len(&self) -> usize
        ensures { result ≡ length self.now }
    {
        self.things.len()
    }

    /// Whether a thing has this name.
    pub fn has(&self, name: &[u8]) -> bool
        ensures { result ≡ list_any (λ t. bytes_eq (N.name t) name.now) self.now }
    {
        self.names.has(name)
    }

    /// The number of the thing with a name.
    pub fn number_of(&self, name: &[u8]) -> Option<usize>
        ensures value { result ≡ position (λ t. bytes_eq (N.name t) name.now) self.now }
        ensures within { IfSome result (λ i. i < length self.now) }
    {
        self.names.number_of(name)
    }

    /// Adds a thing with a new name.
    pub fn push(&mut self, name: &'r [u8], thing: N::Thing) -> Result<(), AllocError>
        requires own { N.name thing ≡ name.now }
        requires fresh { list_any (λ t. bytes_eq (N.name t) name.now) self.old ≡ false }
        ensures added { OnOk result (self.new ≡ self.old ++ thing ∷ []) }
        ensures same { OnErr result (self.new ≡ self.old) }
    {
        self.things.push(thing)?;
        if self.names.add(name).is_err() {
            self.things.pop();
            return Err(AllocError);
        }
        Ok(())
    }

    /// The things, in their order.
    pub fn as_slice(&self) -> &[N::Thing]
        ensures { result.now ≡ self.now }
    {
        &self.things
    }

    /// The things, in their order. It takes no memory.
    pub fn into_items(self) -> Items<N::Thing>
        ensures { result ≡ self.entry }
    {
        Items::from_vec(self.things)
    }
}

// The names of things, in their order.
fn names_of<'r, N: Naming>(alloc: Global, things: &'r [N::Thing]) -> Result<Names<'r>, AllocError>
    requires { AllPairs (λ x y. x ≢ y) (map N.name things.now) }
    ensures { IfOk result (λ names. names ≡ map N.name things.now) }
{
    let mut names = Names::new(alloc);
    'things: for thing in things {
        names.add(N::name_of(thing))?;
    }
    Ok(names)
}

/// Things that are known already, each numbered by its place from 0 and found by its name; seen as the list of them.
#[derive(Drop)]
pub struct Known<'r, N: Naming> {
    names: Names<'r>,
    things: &'r [N::Thing],
}

impl<'r, N: Naming> Model for Known<'r, N> {
    ghost use Rattle.std.specs.Prelude.{◌≡◌, List, map};

    ghost Value = { List N.Thing };

    ghost view = { λ k. k.things.now };

    ghost invariant = { λ k. k.names ≡ map N.name k.things.now };
}

impl<'r, N: Naming> Known<'r, N> {
    /// These things, whose names are distinct.
    pub fn of(alloc: Global, things: &'r [N::Thing]) -> Result<Known<'r, N>, AllocError>
        requires { AllPairs (λ x y. x ≢ y) (map N.name things.now) }
        ensures { IfOk result (λ k. k ≡ things.now) }
    {
        let names = names_of::<N>(alloc, things)?;
        Ok(Known { names, things })
    }

    /// The number of the thing with a name at field `k` of record `n`: else Unknown.
    pub fn known_in(&self, row: &Row, n: u32, k: u32) -> Result<usize, RowFault>
        requires first { 1 ≤ k }
        requires last { k ≤ length row.now }
        ensures answer { result ≡ answer n (named_in N.name self.now row.now k) }
        ensures within { IfOk result (λ i. i < length self.now) }
    {
        self.names.known_in(row, n, k)
    }
}
