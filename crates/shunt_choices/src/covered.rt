// Which units and positions are covered.
ghost use Rattle.std.specs.Prelude.{◌≡◌, ◌+◌, ◌≤◌, [], false, length, replicate, All, IfOk};
ghost use Rattle.shunt_instance.specs.defs.Instance.{unit_total, position_total};
ghost use Rattle.shunt_blocks.specs.defs.Shapes.{AreRunsWithin, IsInRange, unit_from};
ghost use Rattle.shunt_blocks.specs.defs.Shapes.{position_from};
ghost use Rattle.shunt_choices.specs.defs.Paths.{Masks, masks_of};
ghost use Rattle.shunt_choices.specs.defs.EntryRuns.{filled};

use shunt_blocks::{Block, Shape, laws, position_from, shape_of, unit_from};
use shunt_instance::Instance;
use std::alloc::{AllocError, Global};
use std::marker::Model;

/// For each unit and each position of an instance, by their numbers, whether a path's blocks have it.
#[derive(Debug, Drop)]
pub struct Covered {
    units: Vec<bool>,
    places: Vec<bool>,
}

impl Model for Covered {
    ghost Value = { Masks };

    ghost view = { λ c. record { units = c.units.items; places = c.places.items } };
}

// Sets the entries of a run.
fn fill(mask: &mut [bool], from: usize, n: usize, covered: bool)
    requires { from + n ≤ length mask.old }
    ensures { mask.new ≡ filled mask.old from n covered }
{
    for k in 0..n {
        mask[from + k] = covered;
    }
}

// That many entries that aren't covered.
fn uncovered(alloc: Global, n: usize) -> Result<Vec<bool>, AllocError>
    ensures { IfOk result (λ v. v.items ≡ replicate n false) }
{
    vec![in alloc; false; n]
}

impl Covered {
    /// For each unit whether it is covered.
    pub fn units(&self) -> &[bool]
        ensures { result.now ≡ self.now.units }
    {
        &self.units
    }

    /// For each position whether it is covered.
    pub fn places(&self) -> &[bool]
        ensures { result.now ≡ self.now.places }
    {
        &self.places
    }

    /// These marks, for each unit and for each position whether it is covered. It takes no memory.
    pub fn new(units: Vec<bool>, places: Vec<bool>) -> Covered
        ensures { result ≡ record { units = units.items; places = places.items } }
    {
        Covered { units, places }
    }

    // Nothing is covered.
    pub(crate) fn nothing(alloc: Global, instance: &Instance) -> Result<Covered, AllocError>
        ensures { IfOk result (λ c. c ≡ masks_of instance.now []) }
    {
        let units = uncovered(alloc, instance.units())?;
        let places = uncovered(alloc, instance.positions())?;
        Ok(Covered::new(units, places))
    }

    // What these blocks cover.
    pub(crate) fn of(
        alloc: Global,
        instance: &Instance,
        blocks: &[Block],
    ) -> Result<Covered, AllocError>
        requires { All (IsInRange instance.now) blocks.now }
        ensures { IfOk result (λ c. c ≡ masks_of instance.now blocks.now) }
    {
        laws::places();
        let mut covered = Covered::nothing(alloc, instance)?;
        for k in 0..blocks.len() {
            covered.set(instance, shape_of(&blocks[k]), true);
        }
        Ok(covered)
    }

    // Sets the entries of a shape's units and positions.
    pub(crate) fn set(&mut self, instance: &Instance, shape: Shape, covered: bool)
        requires within { AreRunsWithin instance.now shape }
        requires units { length self.old.units ≡ unit_total instance.now }
        requires places { length self.old.places ≡ position_total instance.now }
        ensures units { self.new.units
            ≡ filled self.old.units (unit_from instance.now shape) shape.n covered }
        ensures places { self.new.places
            ≡ filled self.old.places (position_from instance.now shape) shape.n covered }
    {
        let n = shape.n as usize;
        fill(&mut self.units, unit_from(instance, shape), n, covered);
        fill(&mut self.places, position_from(instance, shape), n, covered);
    }
}
