// Fields that are numbers, minutes, sides and words of moves.
ghost use Rattle.std.specs.Prelude.{◌≡◌, ◌↔◌, ◌≤◌, IsTrue, IfOk, OnOk, length};
ghost use Rattle.shunt_rows.specs.defs.Checks.{answer};
ghost use Rattle.shunt_rows.specs.defs.Fields.{is_within, fields_in, number_in, minute_in, side_in};
ghost use Rattle.shunt_rows.specs.defs.Fields.{enters_of, side_of};

use crate::check::{found, must};
use crate::fault::{RowFault, RowKind};
use crate::row::Row;
use shunt_base::{Minute, Side, parse_decimal, parse_minute};

/// Whether a number lies from `least` to `most`.
#[tactic(auto, unfolding(crate::specs::defs::Fields::is_within))]
pub fn is_within(least: u64, most: u64, number: u64) -> bool
    ensures test { result ≡ is_within least most number }
    ensures fact { IsTrue result ↔ ((least ≤ number) × (number ≤ most)) }
{
    least <= number && number <= most
}

/// Whether record `n` has from `least` to `most` fields, else Fields at field 1.
#[tactic(auto, unfolding(crate::specs::defs::Fields::is_within))]
pub fn fields_in(row: &Row, n: u32, least: usize, most: usize) -> Result<(), RowFault>
    ensures answer { result ≡ answer n (fields_in row.now least most) }
    ensures within { OnOk result ((least ≤ length row.now) × (length row.now ≤ most)) }
{
    let len = row.len();
    must(least <= len && len <= most, n, 1, RowKind::Fields)
}

/// The number at field `k` of record `n`, from `least` to `most`: else Number, or Limit.
pub fn number_in(row: &Row, n: u32, k: u32, least: u64, most: u64) -> Result<u64, RowFault>
    requires first { 1 ≤ k }
    requires last { k ≤ length row.now }
    ensures answer { result ≡ answer n (number_in row.now k least most) }
    ensures within { IfOk result (λ x. (least ≤ x) × (x ≤ most)) }
{
    let number = found(parse_decimal(row.field(k as usize)), n, k, RowKind::Number)?;
    must(is_within(least, most, number), n, k, RowKind::Limit)?;
    Ok(number)
}

/// The minute at field `k` of record `n`: else Time.
pub fn minute_in(row: &Row, n: u32, k: u32) -> Result<Minute, RowFault>
    requires first { 1 ≤ k }
    requires last { k ≤ length row.now }
    ensures { result ≡ answer n (minute_in row.now k) }
{
    found(parse_minute(row.field(k as usize)), n, k, RowKind::Time)
}

// The side that these bytes name.
#[tactic(auto, unfolding(crate::specs::defs::Fields::side_of))]
fn side_named(bytes: &[u8]) -> Option<Side>
    ensures { result ≡ side_of bytes.now }
{
    if bytes == b"A".as_slice() {
        return Some(Side::A);
    }
    if bytes == b"B".as_slice() {
        return Some(Side::B);
    }
    None
}

/// The side at field `k` of record `n`, `A` or `B`: else Kind.
pub fn side_in(row: &Row, n: u32, k: u32) -> Result<Side, RowFault>
    requires first { 1 ≤ k }
    requires last { k ≤ length row.now }
    ensures { result ≡ answer n (side_in row.now k) }
{
    found(side_named(row.field(k as usize)), n, k, RowKind::Kind)
}

/// Whether these bytes say that something enters, if they say `enter` or `leave`.
#[tactic(auto, unfolding(crate::specs::defs::Fields::enters_of))]
pub fn enters_of(bytes: &[u8]) -> Option<bool>
    ensures { result ≡ enters_of bytes.now }
{
    if bytes == b"enter".as_slice() {
        return Some(true);
    }
    if bytes == b"leave".as_slice() {
        return Some(false);
    }
    None
}
