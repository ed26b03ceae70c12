// Duals with higher prices and a higher sum.
ghost use Rattle.std.specs.Prelude.{◌≡◌, ◌<◌, ◌≤◌, ◌+◌, ◌*◌, ◌-ℤ◌, ◌+ℤ◌, ◌≤ℤ◌, ◌<ℤ◌, ◌↔◌, ℕ, []};
ghost use Rattle.std.specs.Prelude.{◌∷◌, All, IsTrue, IfOk, pos, sum_by, length};
ghost use Rattle.shunt_base.specs.declared.duals.Duals.{Duals as SomeDuals};
ghost use Rattle.shunt_instance.specs.defs.Instance.{unit_total, position_total};
ghost use Rattle.shunt_blocks.specs.defs.Shapes.{IsWithinTrains};
ghost use Rattle.shunt_choices.specs.defs.Paths.{IsTrailOf};
ghost use Rattle.shunt_prices.specs.defs.Sums.{IsWithin};
ghost use Rattle.shunt_prices.specs.defs.Prices.{price_part};
ghost use Rattle.shunt_prices.specs.defs.Limits.{IsPrice, ArePrices, AreApart, AreDuals};
ghost use Rattle.shunt_prices.specs.defs.Cases.{DualsHold};
ghost use Rattle.shunt_prices.specs.defs.Bounds.{duals_sum};
ghost use Rattle.shunt_prices.specs.defs.Steps.{is_length_price, IsPriceStep};
ghost use Rattle.shunt_dual.specs.defs.Asks.{AreDemands};
ghost use Rattle.shunt_dual.specs.defs.Raises.{lifted, price_at, raised_by, parts_of, AreHeld};
ghost use Rattle.shunt_dual.specs.defs.Raises.{AreGood, AreRefit, IsRaise, IsTriedRaise, AreHigher};
ghost use Rattle.shunt_dual.specs.defs.Raises.{AreImproved, AreSwept};

use crate::shape_costs::{charges, room};
use crate::shape_demands::{Demand, all_demands, asks_of};
use crate::unit_values::{NewValues, copied, refit_values};
use shunt_base::{ArrId, Duals, Price, PriceKind, TrackId, copy_duals};
use shunt_blocks::laws::few_blocks;
use shunt_blocks::{Block, block_length, shape_of};
use shunt_choices::Path;
use shunt_instance::Instance;
use shunt_lists::Items;
use shunt_prices::laws::price_steps;
use std::alloc::{AllocError, Global};

// The greatest value of a price.
const MOST: u64 = 1_000_000_000;

/// Duals with a higher price, and by how much their sum is higher.
#[derive(Drop)]
struct RaisedStep {
    duals: Duals,
    gain: i64,
}

/// Whether it is the price of kind length for a track and a train.
fn is_length_price(price: Price, track: TrackId, train: ArrId) -> bool
    ensures { result ≡ is_length_price track.0 train.0 price }
{
    match price.kind {
        PriceKind::Length => price.track.0 == track.0 && price.train.0 == train.0,
        PriceKind::Parts(_) => false,
    }
}

/// A price of kind length for a track and a train.
fn price_at(value: u64, track: TrackId, train: ArrId) -> Price
    ensures { result ≡ price_at value track.0 train.0 }
{
    Price {
        kind: PriceKind::Length,
        track,
        train,
        value,
    }
}

/// A price that rises by a number.
fn lifted(price: Price, by: u64) -> Price
    requires value { price.value ≤ 1000000000 }
    requires by { by ≤ 1000000000 }
    ensures { result ≡ lifted by price }
{
    Price {
        kind: price.kind,
        track: price.track,
        train: price.train,
        value: price.value + by,
    }
}

/// The prices, of which the one of kind length for a track and a train rises by a number.
fn raised_by(
    alloc: Global,
    prices: &[Price],
    track: TrackId,
    train: ArrId,
    by: u64,
) -> Result<Vec<Price>, AllocError>
    requires values { All (λ price. price.value ≤ 1000000000) prices.now }
    requires by { by ≤ 1000000000 }
    ensures { IfOk result (λ all. all.items ≡ raised_by by track.0 train.0 prices.now) }
{
    let mut all = Vec::new(alloc);
    let mut found = false;
    for price in prices {
        if !found && is_length_price(*price, track, train) {
            found = true;
            all.push(lifted(*price, by))?;
        } else {
            all.push(*price)?;
        }
    }
    if !found {
        all.push(price_at(by, track, train))?;
    }
    Ok(all)
}

/// Whether there are at most 64 prices, of values within their limits.
fn are_small(prices: &[Price]) -> bool
    ensures { IsTrue result
        ↔ ((length prices.now ≤ 64) × All (λ price. price.value ≤ 1000000000) prices.now) }
{
    if prices.len() > 64 {
        return false;
    }
    for price in prices {
        if price.value > MOST {
            return false;
        }
    }
    true
}

/// What a price takes of a block.
fn charged(instance: &Instance, price: Price, block: &Block) -> u64
    requires price { IsPrice instance.now price }
    requires within { IsWithinTrains instance.now block.now }
    ensures exact { result ≡ price_part instance.now (price ∷ []) block.now }
    ensures small { result ≤ 23039936000000000 }
{
    // The call tells that there are at most 60 tracks.
    instance.station();
    let Some(park) = block.park else {
        return 0;
    };
    let long = block_length(instance, block);
    charges(instance, &[price], shape_of(block), long)[park.track.0 as usize]
}

/// What a price takes of blocks, added up.
fn charged_in_all(instance: &Instance, price: Price, blocks: &[Block]) -> u64
    requires price { IsPrice instance.now price }
    requires within { All (IsWithinTrains instance.now) blocks.now }
    requires few { length blocks.now ≤ 160 }
    ensures exact { result ≡ sum_by (price_part instance.now (price ∷ [])) blocks.now }
    ensures small { result ≤ 3686389760000000000 }
{
    let mut total = 0;
    for block in blocks {
        total += charged(instance, price, block);
    }
    total
}

/// By how much a sum is higher: the units' values, and what a price takes of the path's blocks, less what it takes at most.
fn gain_of(risen: i64, charged: u64, paid: u64) -> i64
    requires risen { IsWithin 319999999999680 risen }
    requires charged { charged ≤ 3686389760000000000 }
    requires paid { paid ≤ 50000000000000 }
    ensures exact { result ≡ risen +ℤ pos charged -ℤ pos paid }
    ensures small { IsWithin 4000000000000000000 result }
{
    risen + charged as i64 - paid as i64
}

/// The greatest values of the uncovered units with which duals still hold, one after the other.
fn refitted(
    alloc: Global,
    instance: &Instance,
    path: &Path,
    demands: &[Demand],
    alpha: &[i64],
    beta: &[i64],
    prices: &[Price],
) -> Result<NewValues, AllocError>
    requires path { IsTrailOf instance.now path.now }
    requires demands { AreDemands instance.now path.now.covered demands.now }
    requires held { AreHeld instance.now path.now.blocks
        (record { alpha = alpha.now; beta = beta.now; prices = prices.now }) }
    ensures { IfOk result (λ r. AreRefit instance.now path.now.blocks
        (record { alpha = alpha.now; beta = beta.now; prices = prices.now })
        (record { alpha = r.alpha; beta = beta.now; prices = prices.now }) r.risen) }
{
    // The first call tells that there are at most 160 units, the second what their new values do to the sum.
    instance.units();
    price_steps();
    let asks = asks_of(alloc, instance, demands, beta, prices)?;
    let values = refit_values(alloc, alpha, &asks, path.covered().units())?;
    Ok(values)
}

/// Duals whose price of kind length for a track and a train is higher by a number, and whose uncovered units then have got
/// their greatest values, one after the other. None where the prices would leave their limits.
fn tried(
    alloc: Global,
    instance: &Instance,
    path: &Path,
    demands: &[Demand],
    old: &Duals,
    track: TrackId,
    train: ArrId,
    by: u64,
) -> Result<Option<RaisedStep>, AllocError>
    requires path { IsTrailOf instance.now path.now }
    requires demands { AreDemands instance.now path.now.covered demands.now }
    requires good { AreGood instance.now path.now.blocks old.now }
    requires track { track.0 < length instance.now.station.tracks }
    requires train { train.0 < length instance.now.arrive }
    requires some { 1 ≤ by }
    requires small { by ≤ 1000000000 }
    ensures { IfOk result (IsTriedRaise instance.now path.now.blocks by track.0 train.0 old.now) }
{
    // The first two calls tell that there are at most 160 blocks, the third what a higher price does to duals and their sum.
    instance.units();
    few_blocks();
    price_steps();
    let prices = raised_by(alloc, old.prices.as_slice(), track, train, by)?;
    if !are_small(&prices) {
        return Ok(None);
    }
    let beta = copied(alloc, old.beta.as_slice())?;
    let values = refitted(
        alloc,
        instance,
        path,
        demands,
        old.alpha.as_slice(),
        &beta,
        &prices,
    )?;
    let price = price_at(by, track, train);
    let charged = charged_in_all(instance, price, path.blocks());
    let paid = by * room(instance, track) as u64;
    Ok(Some(RaisedStep {
        duals: Duals {
            alpha: values.alpha,
            beta: Items::from_vec(beta),
            prices: Items::from_vec(prices),
        },
        gain: gain_of(values.risen, charged, paid),
    }))
}

/// Whether the last of that many units of a price raises the sum.
fn is_worth(
    alloc: Global,
    instance: &Instance,
    path: &Path,
    demands: &[Demand],
    old: &Duals,
    track: TrackId,
    train: ArrId,
    by: u64,
) -> Result<bool, AllocError>
    requires path { IsTrailOf instance.now path.now }
    requires demands { AreDemands instance.now path.now.covered demands.now }
    requires good { AreGood instance.now path.now.blocks old.now }
    requires track { track.0 < length instance.now.station.tracks }
    requires train { train.0 < length instance.now.arrive }
    requires some { 2 ≤ by }
    requires small { by ≤ 1000000000 }
{
    let Some(all) = tried(alloc, instance, path, demands, old, track, train, by)? else {
        return Ok(false);
    };
    let Some(fewer) = tried(alloc, instance, path, demands, old, track, train, by - 1)? else {
        return Ok(false);
    };
    Ok(all.gain > fewer.gain)
}

/// A number of units of a price, found by doubling, of which the last one raises the sum, if the first one does.
fn doubled(
    alloc: Global,
    instance: &Instance,
    path: &Path,
    demands: &[Demand],
    old: &Duals,
    track: TrackId,
    train: ArrId,
) -> Result<u64, AllocError>
    requires path { IsTrailOf instance.now path.now }
    requires demands { AreDemands instance.now path.now.covered demands.now }
    requires good { AreGood instance.now path.now.blocks old.now }
    requires track { track.0 < length instance.now.station.tracks }
    requires train { train.0 < length instance.now.arrive }
    ensures some { IfOk result (λ by. 1 ≤ by) }
    ensures small { IfOk result (λ by. by ≤ 500000000) }
{
    let mut by = 1;
    'doublings: for _ in 0..29 {
        if by > 250_000_000 {
            return Ok(by);
        }
        if !is_worth(alloc, instance, path, demands, old, track, train, 2 * by)? {
            return Ok(by);
        }
        by *= 2;
    }
    Ok(by)
}

/// The number of units of a price, found by doubling and then by halving, of which the last one raises the sum, if the first
/// one does.
fn last_worth(
    alloc: Global,
    instance: &Instance,
    path: &Path,
    demands: &[Demand],
    old: &Duals,
    track: TrackId,
    train: ArrId,
) -> Result<u64, AllocError>
    requires path { IsTrailOf instance.now path.now }
    requires demands { AreDemands instance.now path.now.covered demands.now }
    requires good { AreGood instance.now path.now.blocks old.now }
    requires track { track.0 < length instance.now.station.tracks }
    requires train { train.0 < length instance.now.arrive }
    ensures some { IfOk result (λ by. 1 ≤ by) }
    ensures small { IfOk result (λ by. by ≤ 1000000000) }
{
    let mut by = doubled(alloc, instance, path, demands, old, track, train)?;
    let mut step = by / 2;
    'halvings: for _ in 0..29 {
        if step == 0 {
            return Ok(by);
        }
        if is_worth(alloc, instance, path, demands, old, track, train, by + step)? {
            by += step;
        }
        step /= 2;
    }
    Ok(by)
}

/// The better of a step that raises the sum and a longer one.
fn lengthened(
    alloc: Global,
    instance: &Instance,
    path: &Path,
    demands: &[Demand],
    old: &Duals,
    track: TrackId,
    train: ArrId,
    step: RaisedStep,
) -> Result<Duals, AllocError>
    requires path { IsTrailOf instance.now path.now }
    requires demands { AreDemands instance.now path.now.covered demands.now }
    requires good { AreGood instance.now path.now.blocks old.now }
    requires track { track.0 < length instance.now.station.tracks }
    requires train { train.0 < length instance.now.arrive }
    requires step { IsRaise instance.now path.now.blocks 1 track.0 train.0 old.now step.duals
        step.gain }
    requires gain { pos 0 <ℤ step.gain }
    ensures { IfOk result (AreHigher instance.now path.now.blocks old.now) }
{
    let by = last_worth(alloc, instance, path, demands, old, track, train)?;
    match tried(alloc, instance, path, demands, old, track, train, by)? {
        Some(longer) if longer.gain > step.gain => Ok(longer.duals),
        _ => Ok(step.duals),
    }
}

/// Duals with a higher price for a track and a train and with a higher sum, or the given ones where no price step there has a
/// higher sum.
fn improved(
    alloc: Global,
    instance: &Instance,
    path: &Path,
    demands: &[Demand],
    old: Duals,
    track: TrackId,
    train: ArrId,
) -> Result<Duals, AllocError>
    requires path { IsTrailOf instance.now path.now }
    requires demands { AreDemands instance.now path.now.covered demands.now }
    requires good { AreGood instance.now path.now.blocks old }
    requires track { track.0 < length instance.now.station.tracks }
    requires train { train.0 < length instance.now.arrive }
    ensures { IfOk result (AreImproved instance.now path.now.blocks track.0 train.0 old) }
{
    let Some(step) = tried(alloc, instance, path, demands, &old, track, train, 1)? else {
        return Ok(old);
    };
    if step.gain > 0 {
        return lengthened(alloc, instance, path, demands, &old, track, train, step);
    }
    Ok(old)
}

/// Duals with higher prices of kind length. If some price step from the given ones has a higher sum at the path, theirs is
/// higher too; it is never lower. A price step is made for one track and one arriving train: the price of kind length there
/// rises by 1, and each uncovered unit, in ascending order, gets the greatest value with which the duals still hold.
///
/// The given duals hold at the path, and no two of their prices agree in kind, track and train; so it is with the new ones.
/// The values of positions and the prices of parts are as they were.
pub fn raise_prices(
    alloc: Global,
    instance: &Instance,
    path: &Path,
    duals: &Duals,
) -> Result<Duals, AllocError>
    requires path { IsTrailOf instance.now path.now }
    requires duals { AreDuals instance.now duals.now }
    requires hold { DualsHold instance.now path.now.blocks duals.now }
    requires apart { AreApart duals.now.prices }
    ensures duals { IfOk result (AreDuals instance.now) }
    ensures hold { IfOk result (DualsHold instance.now path.now.blocks) }
    ensures apart { IfOk result (λ d. AreApart d.prices) }
    ensures beta { IfOk result (λ d. d.beta ≡ duals.now.beta) }
    ensures parts { IfOk result (λ d. parts_of d.prices ≡ parts_of duals.now.prices) }
    ensures sum { IfOk result (λ d. duals_sum instance.now path.now.blocks duals.now
        ≤ℤ duals_sum instance.now path.now.blocks d) }
    ensures higher { IfOk result (λ d. (step : SomeDuals)
        → IsPriceStep instance.now path.now.blocks duals.now step → duals_sum instance.now
        path.now.blocks duals.now <ℤ duals_sum instance.now path.now.blocks step → duals_sum
        instance.now path.now.blocks duals.now <ℤ duals_sum instance.now path.now.blocks d) }
{
    let arrivals = instance.arrivals();
    let pairs = instance.station().tracks.len() * arrivals;
    let demands = all_demands(alloc, instance, path.covered())?;
    let mut best = copy_duals(alloc, duals)?;
    for pair in 0..pairs {
        let track = TrackId((pair / arrivals) as u8);
        let train = ArrId((pair % arrivals) as u8);
        best = improved(alloc, instance, path, &demands, best, track, train)?;
    }
    Ok(best)
}
