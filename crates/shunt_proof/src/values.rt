// Records of cases: their limits, values and prices.
ghost use Rattle.std.specs.Prelude.{◌≡◌, ◌≤◌, ◌<◌, ◌+◌, length, IfOk};
ghost use Rattle.shunt_base.specs.declared.duals.PriceKind.TheVariants as counts;
ghost use Rattle.shunt_rows.specs.defs.Checks.{answer};
ghost use Rattle.shunt_rows.specs.defs.Given.{Gives};
ghost use Rattle.shunt_proof.specs.defs.CertificateFormat.{is_value, value_in, values_in};
ghost use Rattle.shunt_proof.specs.defs.CertificateFormat.{first_limits_in, second_limits_in};
ghost use Rattle.shunt_proof.specs.defs.CertificateFormat.{alpha_in, lone_alpha_in, beta_in};
ghost use Rattle.shunt_proof.specs.defs.CertificateFormat.{is_price, has_price, price_in, part_in};

use shunt_base::{ArrId, Price, PriceKind, TrackId, parse_decimal, parse_signed};
use shunt_instance::Instance;
use shunt_plan::{read_arr, read_track};
use shunt_rows::{ReadError, Row, RowFault, RowKind, fields_in, found, is_within, must, number_in};
use std::alloc::Global;

/// What the record `case` says.
#[derive(Clone, Copy, Debug, PartialEq, Eq, Drop)]
pub struct Limits {
    /// The greatest number of unparked blocks, from 0 to 160.
    pub to: u8,
    /// In thousandths of a cost unit, within plus or minus 999,999,999,999.
    pub multiplier: i64,
}

#[tactic(auto, unfolding(crate::specs::defs::CertificateFormat::is_value))]
fn is_value(number: i64) -> bool
    ensures { result ≡ is_value number }
{
    if number < -999_999_999_999 {
        return false;
    }
    number <= 999_999_999_999
}

// The value at field `k`.
fn read_value(row: &Row, n: u32, k: u32) -> Result<i64, RowFault>
    requires first { 1 ≤ k }
    requires last { k ≤ length row.now }
    ensures { result ≡ answer n (value_in row.now k) }
{
    let number = found(parse_signed(row.field(k as usize)), n, k, RowKind::Number)?;
    must(is_value(number), n, k, RowKind::Limit)?;
    Ok(number)
}

// The values from field 2 on.
fn read_values(alloc: Global, row: &Row, n: u32, count: usize) -> Result<Vec<i64>, ReadError>
    requires few { count ≤ 160 }
    requires fields { count + 1 ≤ length row.now }
    ensures { Gives (λ v. v.items) result (answer n (values_in row.now 2 count)) }
{
    let mut values = Vec::new(alloc);
    'fields: for k in 0..count {
        let value = read_value(row, n, k as u32 + 2)?;
        values.push(value)?;
    }
    Ok(values)
}

/// The limits of a node's first case, behind that many cases of the file.
#[tactic(auto, unfolding(crate::specs::defs::CertificateFormat::first_limits_in))]
pub fn read_first_limits(cases: u32, row: &Row, n: u32) -> Result<Limits, RowFault>
    ensures answer { result ≡ answer n (first_limits_in cases row.now) }
    ensures room { IfOk result (λ _. cases < 8000) }
{
    fields_in(row, n, 3, 3)?;
    must(cases < 8_000, n, 1, RowKind::Limit)?;
    let to = number_in(row, n, 2, 0, 160)?;
    let multiplier = read_value(row, n, 3)?;
    // That case begins with `alpha`.
    let is_lone = to == 160 && multiplier == 0;
    must(!is_lone, n, 3, RowKind::Limit)?;
    Ok(Limits {
        to: to as u8,
        multiplier,
    })
}

/// The limits of a node's second case, behind that many cases of the file.
#[tactic(auto, unfolding(crate::specs::defs::CertificateFormat::second_limits_in))]
pub fn read_second_limits(cases: u32, row: &Row, n: u32) -> Result<Limits, RowFault>
    ensures answer { result ≡ answer n (second_limits_in cases row.now) }
    ensures room { IfOk result (λ _. cases < 8000) }
{
    fields_in(row, n, 3, 3)?;
    must(cases < 8_000, n, 1, RowKind::Limit)?;
    let to = number_in(row, n, 2, 160, 160)?;
    let multiplier = read_value(row, n, 3)?;
    Ok(Limits {
        to: to as u8,
        multiplier,
    })
}

/// A value for each unit.
#[tactic(auto, unfolding(crate::specs::defs::CertificateFormat::alpha_in))]
pub fn read_alpha(
    instance: &Instance,
    alloc: Global,
    row: &Row,
    n: u32,
) -> Result<Vec<i64>, ReadError>
    ensures { Gives (λ v. v.items) result (answer n (alpha_in instance.now row.now)) }
{
    let units = instance.units();
    fields_in(row, n, units + 1, units + 1)?;
    read_values(alloc, row, n, units)
}

/// The same at the start of a case behind that many of the file.
#[tactic(auto, unfolding(crate::specs::defs::CertificateFormat::lone_alpha_in))]
pub fn read_lone_alpha(
    instance: &Instance,
    alloc: Global,
    cases: u32,
    row: &Row,
    n: u32,
) -> Result<Vec<i64>, ReadError>
    ensures answer { Gives (λ v. v.items) result
        (answer n (lone_alpha_in instance.now cases row.now)) }
    ensures room { IfOk result (λ _. cases < 8000) }
{
    let units = instance.units();
    fields_in(row, n, units + 1, units + 1)?;
    must(cases < 8_000, n, 1, RowKind::Limit)?;
    read_values(alloc, row, n, units)
}

/// A value for each position.
#[tactic(auto, unfolding(crate::specs::defs::CertificateFormat::beta_in))]
pub fn read_beta(
    instance: &Instance,
    alloc: Global,
    row: &Row,
    n: u32,
) -> Result<Vec<i64>, ReadError>
    ensures { Gives (λ v. v.items) result (answer n (beta_in instance.now row.now)) }
{
    let positions = instance.positions();
    fields_in(row, n, positions + 1, positions + 1)?;
    read_values(alloc, row, n, positions)
}

// Whether a price is of kind length for this track and train.
fn is_length_price(price: Price, track: TrackId, train: ArrId) -> bool
    ensures { result ≡ is_price counts.Length track train price }
{
    if let PriceKind::Parts(_) = price.kind {
        return false;
    }
    price.track.0 == track.0 && price.train.0 == train.0
}

// Whether a price is of kind parts for this number, track and train.
fn is_part_price(price: Price, parts: u64, track: TrackId, train: ArrId) -> bool
    ensures { result ≡ is_price (counts.Parts parts) track train price }
{
    match price.kind {
        PriceKind::Length => false,
        PriceKind::Parts(r) => {
            r as u64 == parts && price.track.0 == track.0 && price.train.0 == train.0
        }
    }
}

#[tactic(auto, unfolding(crate::specs::defs::CertificateFormat::has_price))]
fn has_length_price(prices: &[Price], track: TrackId, train: ArrId) -> bool
    ensures { result ≡ has_price prices.now counts.Length track train }
{
    prices
        .iter()
        .any(|price| is_length_price(*price, track, train))
}

#[tactic(auto, unfolding(crate::specs::defs::CertificateFormat::has_price))]
fn has_part_price(prices: &[Price], parts: u64, track: TrackId, train: ArrId) -> bool
    ensures { result ≡ has_price prices.now (counts.Parts parts) track train }
{
    prices
        .iter()
        .any(|price| is_part_price(*price, parts, track, train))
}

/// One more price of kind length behind these.
#[tactic(auto, unfolding(crate::specs::defs::CertificateFormat::price_in))]
pub fn read_price(
    instance: &Instance,
    prices: &[Price],
    row: &Row,
    n: u32,
) -> Result<Price, RowFault>
    ensures { result ≡ answer n (price_in instance.now prices.now row.now) }
{
    fields_in(row, n, 4, 4)?;
    must(prices.len() < 64, n, 1, RowKind::Limit)?;
    let track = read_track(instance, row, n, 2)?;
    let train = read_arr(instance, row, n, 3)?;
    let repeats = has_length_price(prices, track, train);
    must(!repeats, n, 3, RowKind::Repeat)?;
    let value = number_in(row, n, 4, 0, 1_000_000_000)?;
    Ok(Price {
        kind: PriceKind::Length,
        track,
        train,
        value,
    })
}

/// One more price of kind parts behind these.
#[tactic(auto, unfolding(crate::specs::defs::CertificateFormat::part_in))]
pub fn read_part(
    instance: &Instance,
    prices: &[Price],
    row: &Row,
    n: u32,
) -> Result<Price, RowFault>
    ensures { result ≡ answer n (part_in instance.now prices.now row.now) }
{
    fields_in(row, n, 5, 5)?;
    must(prices.len() < 64, n, 1, RowKind::Limit)?;
    let track = read_track(instance, row, n, 2)?;
    let train = read_arr(instance, row, n, 3)?;
    let parts = found(parse_decimal(row.field(4)), n, 4, RowKind::Number)?;
    let repeats = has_part_price(prices, parts, track, train);
    must(!repeats, n, 4, RowKind::Repeat)?;
    must(is_within(1, 8, parts), n, 4, RowKind::Limit)?;
    let value = number_in(row, n, 5, 0, 1_000_000_000)?;
    Ok(Price {
        kind: PriceKind::Parts(parts as u8),
        track,
        train,
        value,
    })
}
