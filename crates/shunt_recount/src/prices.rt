// What shapes are worth in a case, and what blocks weigh there that are parked.
ghost use Rattle.std.specs.Prelude.{◌≡◌, ◌<◌, ◌≤◌, ◌*◌, ◌+◌, ◌-ℤ◌, All, IsSome, pos, length};
ghost use Rattle.std.specs.Prelude.{slice_index_or};
ghost use Rattle.shunt_blocks.specs.defs.Shapes.{AreRunsWithin, IsWithinTrains, shape_of};
ghost use Rattle.shunt_blocks.specs.defs.Costs.{block_cost};
ghost use Rattle.shunt_blocks.specs.defs.Stays.{block_length};
ghost use Rattle.shunt_prices.specs.defs.Sums.{sum_z_below, IsWithin};
ghost use Rattle.shunt_prices.specs.defs.Prices.{track_length, count_of, counted, stands_at};
ghost use Rattle.shunt_prices.specs.defs.Prices.{price_part};
ghost use Rattle.shunt_prices.specs.defs.Limits.{IsKind, IsPrice, ArePrices, AreDuals, IsCase};
ghost use Rattle.shunt_prices.specs.defs.Limits.{IsValue};
ghost use Rattle.shunt_prices.specs.defs.Cases.{duals_over};
ghost use Rattle.shunt_stacks.specs.defs.Fillings.{gain};

use shunt_base::{Case, Duals, Price, PriceKind, TrackId};
use shunt_blocks::{Block, Shape, block_cost, position_from, unit_from};
use shunt_instance::Instance;

/// The length of a track in dm.
pub(crate) fn room_on(instance: &Instance, track: TrackId) -> u32
    requires { track.0 < length instance.now.station.tracks }
    ensures exact { result ≡ track_length instance.now track.0 }
    ensures some { 1 ≤ result }
    ensures small { result ≤ 50000 }
{
    instance.station().tracks.as_slice()[usize::from(track.0)].length
}

/// So many of these values from one place on, added up.
fn run_sum(values: &[i64], from: usize, n: usize) -> i64
    requires values { All IsValue values.now }
    requires within { from + n ≤ length values.now }
    requires few { n ≤ 8 }
    ensures exact { result ≡ sum_z_below n (λ k. slice_index_or values.now (from + k) (pos 0)) }
    ensures small { IsWithin 7999999999992 result }
{
    let mut total = 0;
    for k in 0..n {
        total += values[from + k];
    }
    total
}

/// What a shape is worth: the values of its units and positions, added up.
pub(crate) fn worth(instance: &Instance, duals: &Duals, shape: Shape) -> i64
    requires duals { AreDuals instance.now duals.now }
    requires within { AreRunsWithin instance.now shape }
    ensures exact { result ≡ duals_over instance.now duals.now shape }
    ensures small { IsWithin 15999999999984 result }
{
    let n = shape.n as usize;
    let units = run_sum(duals.alpha.as_slice(), unit_from(instance, shape), n);
    let positions = run_sum(duals.beta.as_slice(), position_from(instance, shape), n);
    units + positions
}

/// What a kind of price counts of a block of this length on a track with this room.
fn count_of(kind: PriceKind, room: u32, length: u32) -> u64
    requires kind { IsKind kind }
    requires some { 1 ≤ room }
    requires short { length ≤ 40000 }
    ensures exact { result ≡ count_of kind room length }
    ensures small { result ≤ 359999 }
{
    match kind {
        PriceKind::Length => length as u64,
        PriceKind::Parts(r) => ((r as u64 + 1) * length as u64).saturating_sub(1) / room as u64,
    }
}

/// Whether a block stands on a price's track just after the last entry of its train.
fn stands(instance: &Instance, price: Price, block: &Block) -> bool
    requires train { price.train.0 < length instance.now.arrive }
    requires within { IsWithinTrains instance.now block.now }
    ensures { result ≡ stands_at instance.now price block.now }
{
    let Some(park) = block.park else {
        return false;
    };
    if park.track.0 != price.track.0 {
        return false;
    }
    let moment = instance.arrive(price.train).minute.number();
    block.arr.0 <= price.train.0 && moment < instance.depart(block.dep).minute.number()
}

/// What a price takes of a block of this length.
fn taken(instance: &Instance, price: Price, block: &Block, length: u32) -> u64
    requires price { IsPrice instance.now price }
    requires within { IsWithinTrains instance.now block.now }
    requires long { length ≡ block_length instance.now block.now }
    requires short { length ≤ 40000 }
    ensures exact { result ≡ price.value * counted instance.now price block.now }
    ensures small { result ≤ 359999000000000 }
{
    if !stands(instance, price, block) {
        return 0;
    }
    price.value * count_of(price.kind, room_on(instance, price.track), length)
}

/// What prices take of a block of this length.
fn price_part(instance: &Instance, prices: &[Price], block: &Block, length: u32) -> u64
    requires prices { ArePrices instance.now prices.now }
    requires within { IsWithinTrains instance.now block.now }
    requires long { length ≡ block_length instance.now block.now }
    requires short { length ≤ 40000 }
    ensures exact { result ≡ price_part instance.now prices.now block.now }
    ensures small { result ≤ 23039936000000000 }
{
    let mut total = 0;
    for price in prices {
        total += taken(instance, *price, block, length);
    }
    total
}

/// What a block of this worth has left when it has paid what it costs, in thousandths of a cost unit: what it gains at most, since prices take
/// nothing less than nothing.
pub(crate) fn left_of(instance: &Instance, block: &Block, worth: i64) -> i64
    requires within { IsWithinTrains instance.now block.now }
    requires little { IsWithin 15999999999984 worth }
    ensures exact { result ≡ worth -ℤ pos (1000 * block_cost instance.now block.now) }
    ensures small { IsWithin 16003999999984 result }
{
    worth - 1000 * block_cost(instance, block) as i64
}

/// What a parked block of this length gains in a case, which has so much left when it has paid what it costs: what prices leave of that, in
/// thousandths of a cost unit.
pub(crate) fn gain(instance: &Instance, case: &Case, block: &Block, length: u32, left: i64) -> i64
    requires case { IsCase instance.now case.now }
    requires within { IsWithinTrains instance.now block.now }
    requires parked { IsSome block.now.park }
    requires long { length ≡ block_length instance.now block.now }
    requires short { length ≤ 40000 }
    requires left { left ≡ duals_over instance.now case.now.duals (shape_of block.now)
        -ℤ pos (1000 * block_cost instance.now block.now) }
    requires little { IsWithin 16003999999984 left }
    ensures exact { result ≡ gain instance.now case.now block.now }
    ensures small { IsWithin 23056939999999983 result }
{
    let part = price_part(instance, case.duals.prices.as_slice(), block, length);
    left - part as i64
}
