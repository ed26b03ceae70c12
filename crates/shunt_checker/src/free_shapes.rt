// Which shapes are free.
ghost use Rattle.std.specs.Prelude.{◌<◌, ◌+◌, ◌↔◌, IsTrue};
ghost use Rattle.shunt_instance.specs.defs.Instance.{unit_total, position_total};
ghost use Rattle.shunt_blocks.specs.defs.Shapes.{AreRunsWithin, unit_from};
ghost use Rattle.shunt_choices.specs.defs.Free.{AreMasksOf};
ghost use Rattle.shunt_choices.specs.defs.Choices.{IsFreeShape};
ghost use Rattle.shunt_choices.specs.defs.Choices.{IsFreePair};

use shunt_blocks::{Shape, is_pair, position_from, unit_from};
use shunt_choices::Covered;
use shunt_instance::Instance;

/// Whether neither is covered, and they are matchable.
fn is_free_pair(instance: &Instance, covered: &Covered, u: usize, v: usize) -> bool
    requires covered { AreMasksOf instance.now covered.now }
    requires unit { u < unit_total instance.now }
    requires position { v < position_total instance.now }
    ensures { IsTrue result ↔ IsFreePair instance.now covered.now u v }
{
    if covered.units()[u] {
        return false;
    }
    if covered.places()[v] {
        return false;
    }
    is_pair(instance, u, v)
}

/// Whether a shape's units and positions are uncovered, and matchable pair by pair.
pub(crate) fn is_free(instance: &Instance, covered: &Covered, shape: Shape) -> bool
    requires covered { AreMasksOf instance.now covered.now }
    requires within { AreRunsWithin instance.now shape }
    ensures { IsTrue result
        ↔ IsFreeShape instance.now covered.now (unit_from instance.now shape) shape }
{
    let from = unit_from(instance, shape);
    let to = position_from(instance, shape);
    for k in 0..shape.n as usize {
        if !is_free_pair(instance, covered, from + k, to + k) {
            return false;
        }
    }
    true
}
