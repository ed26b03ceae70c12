// What shapes cost with their options, what prices take of them, and what their duals come to.
ghost use Rattle.std.specs.Prelude.{◌≡◌, ◌<◌, ◌≤◌, ◌*◌, ◌+◌, ℕ, All, Some, pos, length};
ghost use Rattle.std.specs.Prelude.{if◌then◌else◌, slice_index_or};
ghost use Rattle.shunt_blocks.specs.declared.records.Park.{Park as APark};
ghost use Rattle.shunt_blocks.specs.defs.Shapes.{AreRunsWithin, IsOnTrack};
ghost use Rattle.shunt_blocks.specs.defs.Costs.{cost_with};
ghost use Rattle.shunt_blocks.specs.defs.Stays.{shape_length};
ghost use Rattle.shunt_prices.specs.defs.Sums.{sum_z_below, IsWithin};
ghost use Rattle.shunt_prices.specs.defs.Prices.{track_length, count_of, count, is_there};
ghost use Rattle.shunt_prices.specs.defs.Prices.{price_part_with};
ghost use Rattle.shunt_prices.specs.defs.Limits.{IsKind, IsPrice, ArePrices, AreDuals, IsValue};
ghost use Rattle.shunt_prices.specs.defs.Cases.{duals_over};

use shunt_base::{Duals, Price, PriceKind, TrackId};
use shunt_blocks::{Block, Park, Shape, block_cost, block_length, position_from, unit_from};
use shunt_instance::Instance;

/// The length of a track.
pub(crate) fn room_on(instance: &Instance, track: TrackId) -> u32
    requires { track.0 < length instance.now.station.tracks }
    ensures exact { result ≡ track_length instance.now track.0 }
    ensures some { 1 ≤ result }
    ensures small { result ≤ 50000 }
{
    instance.station().tracks.as_slice()[track.0 as usize].length
}

/// A shape with an option as a block.
pub(crate) fn as_block(shape: Shape, park: Option<Park>) -> Block
    ensures { result ≡ record {
      id = 0;
      arr = shape.arr;
      p = shape.p;
      n = shape.n;
      dep = shape.dep;
      q = shape.q;
      park = park;
    } }
{
    Block {
        id: 0,
        arr: shape.arr,
        p: shape.p,
        n: shape.n,
        dep: shape.dep,
        q: shape.q,
        park,
    }
}

/// What a shape costs with an option.
pub(crate) fn cost_with(instance: &Instance, shape: Shape, park: Option<Park>) -> u64
    requires within { AreRunsWithin instance.now shape }
    requires track { IsOnTrack instance.now.station park }
    ensures exact { result ≡ cost_with instance.now shape park }
    ensures small { result ≤ 4000000 }
{
    block_cost(instance, &as_block(shape, park))
}

/// The lengths of a shape's units, added up.
pub(crate) fn length_of(instance: &Instance, shape: Shape) -> u32
    requires { AreRunsWithin instance.now shape }
    ensures exact { result ≡ shape_length instance.now shape }
    ensures small { result ≤ 40000 }
{
    block_length(instance, &as_block(shape, None))
}

/// What a kind of price counts of a block of this length on a track with this room.
fn count_of(kind: PriceKind, room: u32, long: u32) -> u64
    requires kind { IsKind kind }
    requires some { 1 ≤ room }
    requires long { long ≤ 40000 }
    ensures exact { result ≡ count_of kind room long }
    ensures small { result ≤ 359999 }
{
    match kind {
        PriceKind::Length => long as u64,
        PriceKind::Parts(r) => ((r as u64 + 1) * long as u64).saturating_sub(1) / room as u64,
    }
}

/// Whether a shape is there at a price's moment, just after its train's last entry.
fn is_there(instance: &Instance, price: Price, shape: Shape) -> bool
    requires train { price.train.0 < length instance.now.arrive }
    requires within { AreRunsWithin instance.now shape }
    ensures { result ≡ is_there instance.now price shape }
{
    if shape.arr.0 > price.train.0 {
        return false;
    }
    let leaves = instance.depart(shape.dep).minute.number();
    instance.arrive(price.train).minute.number() < leaves
}

/// What a price takes of a shape on its track: nothing where the shape isn't there at its moment.
fn taken_by(instance: &Instance, price: Price, shape: Shape, long: u32) -> u64
    requires price { IsPrice instance.now price }
    requires within { AreRunsWithin instance.now shape }
    requires long { long ≡ shape_length instance.now shape }
    requires small { long ≤ 40000 }
    ensures exact { result ≡ price.value
        * (if is_there instance.now price shape then count instance.now price shape else 0) }
    ensures small { result ≤ 359999000000000 }
{
    if !is_there(instance, price, shape) {
        return 0;
    }
    price.value * count_of(price.kind, room_on(instance, price.track), long)
}

/// Zeros.
fn zeros() -> [u64; 60]
    ensures { (t : ℕ) → slice_index_or result t 0 ≡ 0 }
{
    [0; 60]
}

/// What the prices on each track take of a shape that stands there.
pub(crate) fn taken_on_tracks(
    instance: &Instance,
    prices: &[Price],
    shape: Shape,
    long: u32,
) -> [u64; 60]
    requires prices { ArePrices instance.now prices.now }
    requires within { AreRunsWithin instance.now shape }
    requires long { long ≡ shape_length instance.now shape }
    requires small { long ≤ 40000 }
    ensures exact { (k : APark) → k.track.0 < 60 → slice_index_or result k.track.0 0
        ≡ price_part_with instance.now prices.now shape (Some k) }
    ensures small { (t : ℕ) → slice_index_or result t 0 ≤ 23039936000000000 }
{
    // The call tells that there are at most 60 tracks.
    instance.station();
    let mut taken = zeros();
    for price in prices {
        taken[price.track.0 as usize] += taken_by(instance, *price, shape, long);
    }
    taken
}

/// These values from one place on, added up.
fn run_sum(values: &[i64], from: usize, n: usize) -> i64
    requires values { All IsValue values.now }
    requires within { from + n ≤ length values.now }
    requires few { n ≤ 8 }
    ensures exact { result ≡ sum_z_below n (λ k. slice_index_or values.now (from + k) (pos 0)) }
    ensures small { IsWithin 7999999999992 result }
{
    let mut total = 0;
    for k in 0..n {
        total += values[from + k];
    }
    total
}

/// The values of a shape's units and positions, added up.
pub(crate) fn sum_over(instance: &Instance, duals: &Duals, shape: Shape) -> i64
    requires duals { AreDuals instance.now duals.now }
    requires within { AreRunsWithin instance.now shape }
    ensures exact { result ≡ duals_over instance.now duals.now shape }
    ensures small { IsWithin 15999999999984 result }
{
    let n = shape.n as usize;
    let u = unit_from(instance, shape);
    let v = position_from(instance, shape);
    run_sum(duals.alpha.as_slice(), u, n) + run_sum(duals.beta.as_slice(), v, n)
}
