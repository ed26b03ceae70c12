// Cases as a certificate states them.
ghost use Rattle.std.specs.Prelude.{◌≡◌, ◌≤◌, ◌<◌, [], ◌∷◌, All, IfOk, OnOk, length};
ghost use Rattle.shunt_instance.specs.defs.Instance.{unit_total, position_total};
ghost use Rattle.shunt_prices.specs.defs.Limits.{ArePrices, AreApart, IsValue, IsCase, AreCases};

use crate::case_pairs::Parted;
use crate::numbers::{Number, at, whole};
use crate::points::{Fixed, Values};
use crate::scenes::Scene;
use crate::slots::Slot;
use crate::valuation::Work;
use crate::whole_numbers::{Found, round};
use shunt_base::{Case, Cases, Duals, Price};
use shunt_instance::Instance;
use shunt_limits::{add_price, value_within};
use shunt_lists::Items;
use std::alloc::{AllocError, Global};

// A number as a whole one within the limits of values.
fn value_of(number: Number) -> i64
    ensures { IsValue result }
{
    value_within(whole(number).0)
}

// The price of a slot, which may be beyond the limits.
fn price_of(slot: &Slot, number: Number) -> Price {
    Price {
        kind: slot.kind,
        track: slot.track,
        train: slot.train,
        value: u64::try_from(whole(number).0).unwrap_or(0),
    }
}

// Adds the price of a slot where it costs anything.
fn add_slot(
    instance: &Instance,
    slot: &Slot,
    number: Number,
    prices: &mut Vec<Price>,
) -> Result<(), AllocError>
    requires prices { ArePrices instance.now prices.old.items }
    requires apart { AreApart prices.old.items }
    ensures prices { OnOk result (ArePrices instance.now prices.new.items) }
    ensures apart { OnOk result (AreApart prices.new.items) }
{
    let price = price_of(slot, number);
    if price.value < 1 {
        return Ok(());
    }
    add_price(instance, price, prices)
}

// The prices that cost anything.
fn prices_of(
    alloc: Global,
    instance: &Instance,
    slots: &[Slot],
    values: &[Number],
) -> Result<Vec<Price>, AllocError>
    ensures prices { IfOk result (λ v. ArePrices instance.now v.items) }
    ensures apart { IfOk result (λ v. AreApart v.items) }
{
    let mut prices = Vec::new(alloc);
    for (place, slot) in slots.iter().enumerate() {
        add_slot(instance, slot, at(values, place), &mut prices)?;
    }
    Ok(prices)
}

// The values of positions.
fn betas_of(alloc: Global, instance: &Instance, beta: &[Number]) -> Result<Vec<i64>, AllocError>
    ensures size { IfOk result (λ v. length v.items ≡ position_total instance.now) }
    ensures each { IfOk result (λ v. All IsValue v.items) }
{
    let mut values = Vec::new(alloc);
    for v in 0..instance.positions() {
        values.push(value_of(at(beta, v)))?;
    }
    Ok(values)
}

// The values of units.
fn alphas_of(alloc: Global, instance: &Instance, alpha: &[Number]) -> Result<Vec<i64>, AllocError>
    ensures size { IfOk result (λ v. length v.items ≡ unit_total instance.now) }
    ensures each { IfOk result (λ v. All IsValue v.items) }
{
    let mut values = Vec::new(alloc);
    for u in 0..instance.units() {
        values.push(value_of(at(alpha, u)))?;
    }
    Ok(values)
}

// The case of whole numbers.
fn case_of(
    alloc: Global,
    instance: &Instance,
    scene: &Scene,
    values: &Values,
    to: u8,
) -> Result<Case, AllocError>
    requires { to ≤ 160 }
    ensures case { IfOk result (IsCase instance.now) }
    ensures apart { IfOk result (λ c. AreApart c.duals.prices) }
    ensures to { IfOk result (λ c. c.to ≡ to) }
{
    let point = &values.point;
    let alpha = alphas_of(alloc, instance, &values.alpha)?;
    let beta = betas_of(alloc, instance, &point.beta)?;
    let prices = prices_of(alloc, instance, &scene.slots, &point.prices)?;
    Ok(Case {
        to,
        multiplier: value_of(point.multiplier),
        duals: Duals {
            alpha: Items::from_vec(alpha),
            beta: Items::from_vec(beta),
            prices: Items::from_vec(prices),
        },
    })
}

// What was found with whole numbers, and values of units that let it hold.
fn made_whole(
    alloc: Global,
    scene: &Scene,
    found: &Found,
    work: &mut Work,
) -> Result<Fixed, AllocError> {
    let mut point = found.point.copied(alloc)?;
    round(&mut point);
    work.evaluate(scene, found.span, &point);
    let alpha = work.growths(alloc, scene)?;
    Ok(Fixed {
        span: found.span,
        values: Values { alpha, point },
    })
}

/// What was found as a case that speaks of all numbers of unparked blocks. Err is want of memory.
pub(crate) fn case_for(
    alloc: Global,
    instance: &Instance,
    scene: &Scene,
    found: &Found,
    work: &mut Work,
) -> Result<Case, AllocError>
    ensures case { IfOk result (IsCase instance.now) }
    ensures apart { IfOk result (λ c. AreApart c.duals.prices) }
{
    let case = made_whole(alloc, scene, found, work)?;
    case_of(alloc, instance, scene, &case.values, 160)
}

// These as cases.
fn two_cases(first: Case, last: Case) -> Cases
    requires rise { first.to < last.to }
    ensures { result ≡ first ∷ last ∷ [] }
{
    Cases::two(first, last)
}

/// A case, or two of which the first speaks of fewer unparked blocks, as a certificate states them. Err is want of memory.
pub(crate) fn cases_with(
    alloc: Global,
    instance: &Instance,
    scene: &Scene,
    first: Option<&Fixed>,
    last: &Fixed,
) -> Result<Cases, AllocError>
    ensures cases { IfOk result (AreCases instance.now) }
    ensures apart { IfOk result (All (λ c. AreApart c.duals.prices)) }
{
    let last = case_of(alloc, instance, scene, &last.values, 160)?;
    match first {
        Some(first) => {
            let to = first.to().min(159);
            let first = case_of(alloc, instance, scene, &first.values, to)?;
            Ok(two_cases(first, last))
        }
        None => Ok(Cases::one(last)),
    }
}

/// Cases as a certificate states them. Err is want of memory.
pub(crate) fn cases_of(
    alloc: Global,
    instance: &Instance,
    scene: &Scene,
    parted: &Parted,
    work: &mut Work,
) -> Result<Cases, AllocError>
    ensures cases { IfOk result (AreCases instance.now) }
    ensures apart { IfOk result (All (λ c. AreApart c.duals.prices)) }
{
    let last = made_whole(alloc, scene, &parted.last, work)?;
    let first = match &parted.first {
        Some(first) => Some(made_whole(alloc, scene, first, work)?),
        None => None,
    };
    cases_with(alloc, instance, scene, first.as_ref(), &last)
}
