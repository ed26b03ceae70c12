// Shares of nights, and their assignments of least sum.
ghost use Rattle.std.specs.Prelude.{◌≡◌};
ghost use Rattle.shunt_dual.specs.defs.Shares.{AreShares};

use crate::files::{night, number, word};
use shunt_dual::types::Shares;
use shunt_dual::{Assigned, assign, shares};
use shunt_instance::Instance;
use shunt_matching::shortage;
use shunt_rows::Row;
use std::alloc::Global;
use std::rt::Files;

// The assignment of a night. None where it has no matching, or memory runs out.
fn assigned(alloc: Global, night: &Instance) -> Option<Assigned> {
    let None = shortage(night) else {
        return None;
    };
    let Ok(shares) = shares(alloc, night) else {
        return None;
    };
    assign(alloc, night, &shares).ok()
}

// Whether the fields behind the second one are these numbers.
fn are_listed(row: &Row, places: &[u16]) -> bool {
    if row.len() != places.len().saturating_add(2) {
        return false;
    }
    for k in 0..places.len() {
        if number(row, k.saturating_add(3)) != Some(u64::from(places[k])) {
            return false;
        }
    }
    true
}

// Whether a record has the assignment of its night.
fn is_assigned_in(alloc: Global, night: &Instance, row: &Row) -> Option<bool> {
    let found = assigned(alloc, night)?;
    let total = number(row, 2) == u64::try_from(found.total).ok();
    Some(total && are_listed(row, found.matching.place_of.as_slice()))
}

/// A record is a night, the total of its assignment in thousandths of a cost unit, and the position of each unit.
pub(crate) fn is_assigned(rt: &(impl Files + AllocGlobal), row: &Row) -> Option<bool> {
    match night(rt, word(row, 1)) {
        Some(night) => is_assigned_in(rt.alloc(), &night, row),
        None => None,
    }
}

// The share of a unit and a position, 0 where there is none.
fn share(shares: &Shares, night: &Instance, u: usize, v: usize) -> u64
    requires { AreShares night.now shares.now }
{
    if u >= night.units() {
        return 0;
    }
    if v >= night.positions() {
        return 0;
    }
    shares.share(u, v).unwrap_or(0)
}

// Whether the fields behind the second one are the unit's shares with the first positions, 0 where there is none.
fn are_shares(row: &Row, shares: &Shares, night: &Instance, u: usize) -> bool
    requires { AreShares night.now shares.now }
{
    for v in 0..row.len().saturating_sub(2) {
        if number(row, v.saturating_add(3)) != Some(share(shares, night, u, v)) {
            return false;
        }
    }
    true
}

// Whether a record has shares of its night.
fn is_shared_in(alloc: Global, night: &Instance, row: &Row) -> Option<bool> {
    let u = number(row, 2)?;
    match shares(alloc, night) {
        Ok(shares) => Some(are_shares(row, &shares, night, u as usize)),
        Err(_) => None,
    }
}

/// A record is a night, one of its units, counted from 0, and its shares with the first positions in thousandths of a cost unit.
pub(crate) fn is_shared(rt: &(impl Files + AllocGlobal), row: &Row) -> Option<bool> {
    match night(rt, word(row, 1)) {
        Some(night) => is_shared_in(rt.alloc(), &night, row),
        None => None,
    }
}
