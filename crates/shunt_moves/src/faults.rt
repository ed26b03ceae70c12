// What is wrong with the present blocks one by one, and what they cost.
ghost use Rattle.std.specs.Prelude.{◌≡◌, ◌≤◌};
ghost use Rattle.shunt_blocks.specs.defs.Shapes.{IsWithinTrains};
ghost use Rattle.shunt_blocks.specs.defs.Costs.{block_cost};
ghost use Rattle.shunt_audit.specs.defs.Listed.{lacks_way_in, lacks_way_out};
ghost use Rattle.shunt_moves.specs.defs.Kept.{own_faults, plus, less, IsSmall};

use shunt_blocks::{Block, block_cost, is_too_soon, type_fault, way_in, way_out};
use shunt_instance::Instance;

/// How many blocks have each fault, and the cost of all.
#[derive(Clone, Copy, Debug, PartialEq, Eq)]
pub struct Faults {
    pub wrong_type: u32,
    pub too_soon: u32,
    pub no_route_in: u32,
    pub no_route_out: u32,
    pub cost: u64,
}

fn lacks_way_in(instance: &Instance, block: &Block) -> bool
    requires { IsWithinTrains instance.now block.now }
    ensures { result ≡ lacks_way_in instance.now block.now }
{
    block.park.is_some() && way_in(instance, block).is_none()
}

fn lacks_way_out(instance: &Instance, block: &Block) -> bool
    requires { IsWithinTrains instance.now block.now }
    ensures { result ≡ lacks_way_out instance.now block.now }
{
    block.park.is_some() && way_out(instance, block).is_none()
}

impl Faults {
    pub fn none() -> Faults
        ensures { result
            ≡ record { wrong_type = 0; too_soon = 0; no_route_in = 0; no_route_out = 0; cost = 0 } }
    {
        Faults {
            wrong_type: 0,
            too_soon: 0,
            no_route_in: 0,
            no_route_out: 0,
            cost: 0,
        }
    }

    /// Those of one block.
    fn of(instance: &Instance, block: &Block) -> Faults
        requires { IsWithinTrains instance.now block.now }
        ensures exact { result ≡ own_faults instance.now block.now }
        ensures cost { result.cost ≤ 4000000 }
    {
        Faults {
            wrong_type: u32::from(type_fault(instance, block)),
            too_soon: u32::from(is_too_soon(instance, block)),
            no_route_in: u32::from(lacks_way_in(instance, block)),
            no_route_out: u32::from(lacks_way_out(instance, block)),
            cost: block_cost(instance, block),
        }
    }

    /// With those of one block more.
    pub fn with(self, instance: &Instance, block: &Block) -> Faults
        requires within { IsWithinTrains instance.now block.now }
        requires small { IsSmall self }
        ensures exact { result ≡ plus self (own_faults instance.now block.now) }
        ensures cost { block_cost instance.now block.now ≤ 4000000 }
    {
        let own = Faults::of(instance, block);
        Faults {
            wrong_type: self.wrong_type + own.wrong_type,
            too_soon: self.too_soon + own.too_soon,
            no_route_in: self.no_route_in + own.no_route_in,
            no_route_out: self.no_route_out + own.no_route_out,
            cost: self.cost + own.cost,
        }
    }

    /// Without those of one block.
    pub fn without(self, instance: &Instance, block: &Block) -> Faults
        requires { IsWithinTrains instance.now block.now }
        ensures { result ≡ less self (own_faults instance.now block.now) }
    {
        let own = Faults::of(instance, block);
        Faults {
            wrong_type: self.wrong_type.saturating_sub(own.wrong_type),
            too_soon: self.too_soon.saturating_sub(own.too_soon),
            no_route_in: self.no_route_in.saturating_sub(own.no_route_in),
            no_route_out: self.no_route_out.saturating_sub(own.no_route_out),
            cost: self.cost.saturating_sub(own.cost),
        }
    }
}
