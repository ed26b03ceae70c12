// What the constants of a search count in.
ghost use Rattle.std.specs.Prelude.{◌≤◌, IfOk};

use shunt_instance::Instance;
use std::alloc::{AllocError, Global};

/// The greatest grain.
const COARSEST: u32 = 100_000;

// Adds a cost that isn't 0.
fn add_cost(cost: u32, costs: &mut Vec<u32>) -> Result<(), AllocError> {
    if cost > 0 {
        costs.push(cost)?;
    }
    Ok(())
}

// The costs of ways, splits and couplings that aren't 0.
fn costs_of(alloc: Global, instance: &Instance) -> Result<Vec<u32>, AllocError> {
    let station = instance.station();
    let mut costs = Vec::new(alloc);
    for route in station.routes.as_slice() {
        add_cost(route.cost, &mut costs)?;
    }
    add_cost(station.split, &mut costs)?;
    add_cost(station.couple, &mut costs)?;
    Ok(costs)
}

/// What the steps, levels and temperatures of a search count in, in cost units, so that they fit nights of any costs: a tenth of the middle
/// one of the costs of ways, splits and couplings that aren't 0. Err is want of memory.
pub fn grain(alloc: Global, instance: &Instance) -> Result<u32, AllocError>
    ensures least { IfOk result (λ g. 1 ≤ g) }
    ensures most { IfOk result (λ g. g ≤ 100000) }
{
    let mut costs = costs_of(alloc, instance)?;
    costs.sort_unstable();
    let middle = costs.get(costs.len() / 2).copied().unwrap_or(0);
    Ok((middle / 10).clamp(1, COARSEST))
}
