// The choices for a unit: its shapes and their options, in the order of choices.
ghost use Rattle.std.specs.Prelude.{◌≡◌, ◌<◌, ◌+◌, length};
ghost use Rattle.std.specs.Iterator.{at_most};
ghost use Rattle.std.specs.Map.Iter.{TakesFirst};
ghost use Rattle.shunt_instance.specs.defs.Instance.{unit_total, position_total};
ghost use Rattle.shunt_blocks.specs.declared.records.Shape.{Shape as AShape};
ghost use Rattle.shunt_choices.specs.defs.Free.{AreMasksOf};
ghost use Rattle.shunt_blocks.specs.defs.Shapes.{AreRunsWithin};
ghost use Rattle.shunt_choices.specs.defs.Choices.{shape_at, shapes_of, options_of};

use crate::covered::Covered;
use crate::free::{greatest, reaches};
use crate::types::Options;
use shunt_blocks::Shape;
use shunt_instance::Instance;
use std::iter::FusedIterator;
use std::marker::Model;

/// The shapes that begin at a unit among uncovered units and positions, in the order of choices: by the number of units, then
/// by departing train, then by place there. Contracts see the list of those that are left. It takes no memory.
#[derive(Drop)]
pub struct Shapes<'a> {
    instance: &'a Instance,
    u: usize,
    // For each position how many pairs from it on can make a shape.
    reach: [u8; 160],
    most: u8,
    // The next one to look at: this many units, from this position on.
    n: u8,
    v: usize,
}

impl<'a> Model for Shapes<'a> {
    ghost use Rattle.std.specs.Prelude.{◌<◌, ◌≤◌, List};
    ghost use Rattle.shunt_blocks.specs.declared.records.Shape.{Shape as OneShape};
    ghost use Rattle.shunt_instance.specs.defs.Instance.{unit_total, position_total};
    ghost use Rattle.shunt_choices.specs.defs.Cursors.{shapes_left};

    ghost Value = { List OneShape };

    ghost view = { λ a. shapes_left a.instance.now a.u a.reach a.most a.n a.v };

    ghost invariant = { λ a. (a.u < unit_total a.instance.now)
        × (a.v ≤ position_total a.instance.now) };
}

/// A shape by the numbers of its first unit and its first position.
fn shape_at(instance: &Instance, u: usize, n: u8, v: usize) -> Shape
    requires unit { u < unit_total instance.now }
    requires position { v < position_total instance.now }
    ensures { result ≡ shape_at instance.now u n v }
{
    let unit = instance.unit(u);
    let position = instance.position(v);
    Shape {
        arr: unit.train,
        p: unit.place,
        n,
        dep: position.train,
        q: position.place,
    }
}

impl<'a> Iterator for Shapes<'a> {
    type Item = Shape;

    ghost next_gives = { TakesFirst (λ s. s) };

    ghost remaining = { λ s. at_most (length s) };

    fn next(&mut self) -> Option<Shape> {
        let total = self.instance.positions();
        'cells: while self.v < total || self.n < self.most {
            if self.v >= total {
                self.n += 1;
                self.v = 0;
            } else {
                let v = self.v;
                self.v += 1;
                if self.n <= self.reach[v] {
                    return Some(shape_at(self.instance, self.u, self.n, v));
                }
            }
        }
        None
    }
}

impl<'a> FusedIterator for Shapes<'a> {}

/// The shapes that begin at a unit among uncovered units and positions, in the order of choices: by the number of units, then
/// by departing train, then by place there. There are none where the unit is covered. It takes no memory.
pub fn shapes_from<'a>(instance: &'a Instance, u: usize, covered: &Covered) -> Shapes<'a>
    requires covered { AreMasksOf instance.now covered.now }
    requires unit { u < unit_total instance.now }
    ensures { result ≡ shapes_of instance.now covered.now u }
{
    let reach = reaches(instance, covered, u);
    let most = greatest(&reach);
    Shapes {
        instance,
        u,
        reach,
        most,
        n: 1,
        v: 0,
    }
}

/// The options of a shape, in the order of choices: unparked, then by track, side in and side out, with A before B. It needs
/// no matchable pairs, and takes no memory.
pub fn options<'a>(instance: &'a Instance, shape: Shape) -> Options<'a>
    requires { AreRunsWithin instance.now shape }
    ensures { result ≡ options_of instance.now shape }
{
    Options::new(instance, shape)
}
