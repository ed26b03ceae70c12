// Shapes, options and blocks.
ghost use Rattle.std.specs.Prelude.{◌≡◌};
ghost use Rattle.shunt_blocks.specs.defs.Shapes.{shape_of};

use shunt_base::{ArrId, DepId, Side, TrackId};

/// A track on which a block stands, and the sides by which it comes and goes.
#[derive(Clone, Copy, Debug, PartialEq, Eq, Drop)]
pub struct Park {
    pub track: TrackId,
    pub side_in: Side,
    pub side_out: Side,
}

/// Neighbouring units of an arriving train that become neighbouring positions of a departing one, in the same order.
#[derive(Clone, Copy, Debug, PartialEq, Eq, Drop)]
pub struct Shape {
    pub arr: ArrId,
    /// The place of its first unit in the arriving train, from 1.
    pub p: u8,
    /// How many units it has.
    pub n: u8,
    pub dep: DepId,
    /// The place of its first position in the departing train, from 1.
    pub q: u8,
}

/// A shape with an id, which is parked on a track or isn't parked.
#[derive(Clone, Copy, Debug, PartialEq, Eq, Drop)]
pub struct Block {
    /// From 1 to 1,000,000 where the block is in range.
    pub id: u32,
    pub arr: ArrId,
    /// The place of its first unit in the arriving train, from 1.
    pub p: u8,
    /// How many units it has.
    pub n: u8,
    pub dep: DepId,
    /// The place of its first position in the departing train, from 1.
    pub q: u8,
    pub park: Option<Park>,
}

/// The block's shape.
pub fn shape_of(block: &Block) -> Shape
    ensures { result ≡ shape_of block.now }
{
    Shape {
        arr: block.arr,
        p: block.p,
        n: block.n,
        dep: block.dep,
        q: block.q,
    }
}
