// The first units and positions of shapes.
ghost use Rattle.std.specs.Prelude.{◌≡◌, ◌≤◌, ◌+◌};
ghost use Rattle.shunt_instance.specs.defs.Instance.{unit_total, position_total};
ghost use Rattle.shunt_blocks.specs.defs.Shapes.{AreRunsWithin, unit_from, position_from};

use crate::records::Shape;
use shunt_instance::Instance;

/// The number of the first unit.
pub fn unit_from(instance: &Instance, shape: Shape) -> usize
    requires { AreRunsWithin instance.now shape }
    ensures exact { result ≡ unit_from instance.now shape }
    ensures within { result + shape.n ≤ unit_total instance.now }
    ensures small { result + shape.n ≤ 160 }
    ensures few { shape.n ≤ 8 }
{
    // Both calls tell bounds: there are at most 160 units, and 8 in a train.
    instance.units();
    instance.arrive(shape.arr);
    instance.first_unit(shape.arr) + (shape.p - 1) as usize
}

/// The number of the first position.
pub fn position_from(instance: &Instance, shape: Shape) -> usize
    requires { AreRunsWithin instance.now shape }
    ensures exact { result ≡ position_from instance.now shape }
    ensures within { result + shape.n ≤ position_total instance.now }
    ensures small { result + shape.n ≤ 160 }
{
    // There are at most 160 positions, which bounds the sum.
    instance.positions();
    instance.first_position(shape.dep) + (shape.q - 1) as usize
}
