// Prices within their limits.
ghost use Rattle.std.specs.Prelude.{◌≡◌, ◌≢◌, ◌↔◌, ◌++◌, [], ◌∷◌, All, OnOk, IsTrue, false, true};
ghost use Rattle.shunt_prices.specs.defs.Limits.{IsKind, IsPrice, ArePrices, AreApart};
ghost use Rattle.shunt_prices.specs.defs.Limits.{place_of_price};
ghost use Rattle.shunt_limits.specs.defs.Taken.{IsTaken};

use shunt_base::{Price, PriceKind};
use shunt_instance::Instance;
use std::alloc::AllocError;

const DEAREST: u64 = 1_000_000_000;

// Whether a kind has from 1 to 8 parts.
fn is_kind(kind: PriceKind) -> bool
    ensures { IsTrue result ↔ IsKind kind }
{
    match kind {
        PriceKind::Length => true,
        PriceKind::Parts(parts) => parts >= 1 && parts <= 8,
    }
}

/// Whether a certificate may state a price: a kind of at most 8 parts, a track and an arriving train of the night, and at most 1,000,000,000
/// thousandths of a cost unit.
pub fn is_price(instance: &Instance, price: &Price) -> bool
    ensures { IsTrue result ↔ IsPrice instance.now price.now }
{
    let track = price.track.0 as usize;
    let train = price.train.0 as usize;
    is_kind(price.kind)
        && track < instance.station().tracks.len()
        && train < instance.arrivals()
        && price.value <= DEAREST
}

// Whether two prices are for the same kind, track and train.
fn are_alike(one: &Price, other: &Price) -> bool
    ensures { IsTrue result ↔ (place_of_price one.now ≡ place_of_price other.now) }
{
    one.kind == other.kind && one.track == other.track && one.train == other.train
}

// Whether a price for the same kind, track and train is among these.
fn is_among(prices: &[Price], price: &Price) -> bool
    ensures none { result ≡ false
        → All (λ other. place_of_price other ≢ place_of_price price.now) prices.now }
    ensures some { result ≡ true
        → All (λ other. place_of_price other ≢ place_of_price price.now) prices.now → ⊥ }
{
    for other in prices {
        if are_alike(other, price) {
            return true;
        }
    }
    false
}

/// Adds a price to those of a case. It is left out where a certificate may not state it, where there are 64 already, or where one of them is for
/// the same kind, track and train. Err is want of memory.
#[tactic(auto, using(crate::proofs::Apart::apart_more))]
pub fn add_price(
    instance: &Instance,
    price: Price,
    prices: &mut Vec<Price>,
) -> Result<(), AllocError>
    requires prices { ArePrices instance.now prices.old.items }
    requires apart { AreApart prices.old.items }
    ensures prices { OnOk result (ArePrices instance.now prices.new.items) }
    ensures apart { OnOk result (AreApart prices.new.items) }
    ensures taken { OnOk result (IsTaken instance.now prices.old.items price
        → prices.new.items ≡ prices.old.items ++ price ∷ []) }
    ensures left_out { OnOk result ((IsTaken instance.now prices.old.items price → ⊥)
        → prices.new.items ≡ prices.old.items) }
{
    if !is_price(instance, &price) {
        return Ok(());
    }
    if prices.len() >= 64 {
        return Ok(());
    }
    if is_among(prices, &price) {
        return Ok(());
    }
    prices.push(price)?;
    Ok(())
}
