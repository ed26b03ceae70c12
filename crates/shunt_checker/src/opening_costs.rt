// What pins cost with each other unit as an unparked block of its own.
ghost use Rattle.std.specs.Prelude.{◌≡◌, ◌<◌, ◌≤◌, ◌==◌, cond};
ghost use Rattle.shunt_lists.specs.defs.Below.{sum_below};
ghost use Rattle.shunt_instance.specs.defs.Instance.{unit_total, position_total};
ghost use Rattle.shunt_blocks.specs.defs.Lists.{times_unit, times_position};
ghost use Rattle.shunt_blocks.specs.defs.Pins.{unit_price, position_price, opening_cost};
ghost use Rattle.shunt_choices.specs.defs.Paths.{IsTrailOf};

use crate::nodes::path_cost;
use shunt_choices::Path;
use shunt_instance::Instance;

/// What a unit costs unparked alone but for its position, where it isn't covered.
fn unit_price(instance: &Instance, covered: bool, u: usize) -> u64
    requires { u < unit_total instance.now }
    ensures exact { result ≡ cond covered 0 (unit_price instance.now u) }
    ensures small { result ≤ 2000000 }
{
    if covered {
        return 0;
    }
    let station = instance.station();
    if instance.unit(u).place == 1 {
        return station.unparked as u64;
    }
    (station.unparked + station.split) as u64
}

/// What a position costs so, where it isn't covered.
fn position_price(instance: &Instance, covered: bool, v: usize) -> u64
    requires { v < position_total instance.now }
    ensures exact { result ≡ cond covered 0 (position_price instance.now v) }
    ensures small { result ≤ 1000000 }
{
    if covered {
        return 0;
    }
    if instance.position(v).place == 1 {
        return 0;
    }
    instance.station().couple as u64
}

/// What the units that aren't covered cost so.
fn units_price(instance: &Instance, path: &Path) -> u64
    requires { IsTrailOf instance.now path.now }
    ensures exact { result ≡ sum_below (unit_total instance.now)
        (λ u. cond (times_unit instance.now path.now.blocks u == 0) (unit_price instance.now u) 0) }
    ensures small { result ≤ 320000000 }
{
    let covered = path.covered().units();
    let mut sum = 0;
    for u in 0..instance.units() {
        sum += unit_price(instance, covered[u], u);
    }
    sum
}

/// What the positions that aren't covered cost so.
fn positions_price(instance: &Instance, path: &Path) -> u64
    requires { IsTrailOf instance.now path.now }
    ensures exact { result ≡ sum_below (position_total instance.now) (λ v. cond
        (times_position instance.now path.now.blocks v == 0) (position_price instance.now v) 0) }
    ensures small { result ≤ 160000000 }
{
    let covered = path.covered().places();
    let mut sum = 0;
    for v in 0..instance.positions() {
        sum += position_price(instance, covered[v], v);
    }
    sum
}

/// The opening cost of a path's blocks.
pub(crate) fn opening_cost(instance: &Instance, path: &Path) -> u64
    requires { IsTrailOf instance.now path.now }
    ensures exact { result ≡ opening_cost instance.now path.now.blocks }
    ensures small { result ≤ 4000000000 }
{
    path_cost(instance, path) + (units_price(instance, path) + positions_price(instance, path))
}
