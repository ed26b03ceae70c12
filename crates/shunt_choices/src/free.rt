// How far runs of uncovered units and positions go.
ghost use Rattle.std.specs.Prelude.{◌≡◌, ◌<◌, ◌≤◌, ◌&&◌, ◌+◌, ℕ, nat_le, length, slice_index_or};
ghost use Rattle.shunt_instance.specs.defs.Instance.{unit_total, position_total};
ghost use Rattle.shunt_choices.specs.defs.Free.{AreMasksOf, is_bare, is_free_pair, is_free_run};
ghost use Rattle.shunt_choices.specs.defs.Free.{has_units, has_positions};

use crate::covered::Covered;
use shunt_blocks::is_pair;
use shunt_instance::Instance;

/// Whether neither is covered.
fn is_bare(covered: &Covered, u: usize, v: usize) -> bool
    requires unit { u < length covered.now.units }
    requires position { v < length covered.now.places }
    ensures { result ≡ is_bare covered.now u v }
{
    !covered.units()[u] && !covered.places()[v]
}

/// Whether they are matchable and uncovered.
#[tactic(auto, unfolding(crate::specs::defs::Free::is_free_pair))]
fn is_free_pair(instance: &Instance, covered: &Covered, u: usize, v: usize) -> bool
    requires covered { AreMasksOf instance.now covered.now }
    requires unit { u < unit_total instance.now }
    requires position { v < position_total instance.now }
    ensures { result ≡ is_free_pair instance.now covered.now u v }
{
    is_pair(instance, u, v) && is_bare(covered, u, v)
}

/// How many units there are from a unit to the end of its train, and how many positions from a position on: the lesser.
fn room(instance: &Instance, u: usize, v: usize) -> u8
    requires unit { u < unit_total instance.now }
    requires position { v < position_total instance.now }
    ensures units { u + result ≤ unit_total instance.now }
    ensures positions { v + result ≤ position_total instance.now }
    ensures few { result ≤ 8 }
    ensures few_units { u + result ≤ 160 }
    ensures few_positions { v + result ≤ 160 }
    ensures exact { (n : ℕ)
        → nat_le n result ≡ (has_units instance.now u n && has_positions instance.now v n) }
{
    // The first two calls tell bounds: there are at most 160 units and positions.
    instance.units();
    instance.positions();
    let unit = instance.unit(u);
    let position = instance.position(v);
    let units = instance.arrive(unit.train).units.len() as u8 - unit.place + 1;
    let positions = instance.depart(position.train).units.len() as u8 - position.place + 1;
    instance.first_unit(unit.train);
    instance.first_position(position.train);
    if positions < units { positions } else { units }
}

/// How many pairs from a unit and a position on are matchable, uncovered and in both trains.
fn run_at(instance: &Instance, covered: &Covered, u: usize, v: usize) -> u8
    requires covered { AreMasksOf instance.now covered.now }
    requires unit { u < unit_total instance.now }
    requires position { v < position_total instance.now }
    ensures exact { (n : ℕ) → nat_le n result ≡ is_free_run instance.now covered.now u n v }
    ensures few { result ≤ 8 }
{
    let room = room(instance, u, v);
    for k in 0..room {
        if !is_free_pair(instance, covered, u + k as usize, v + k as usize) {
            return k;
        }
    }
    room
}

/// The same number. A position whose first pair doesn't fit, as most don't, costs one test.
fn reach_at(instance: &Instance, covered: &Covered, u: usize, v: usize) -> u8
    requires covered { AreMasksOf instance.now covered.now }
    requires unit { u < unit_total instance.now }
    requires position { v < position_total instance.now }
    ensures exact { (n : ℕ) → 1 ≤ n → nat_le n result ≡ is_free_run instance.now covered.now u n v }
    ensures few { result ≤ 8 }
{
    if is_free_pair(instance, covered, u, v) {
        run_at(instance, covered, u, v)
    } else {
        0
    }
}

/// Zeros.
fn zeros() -> [u8; 160]
    ensures { (v : ℕ) → slice_index_or result v 0 ≡ 0 }
{
    [0; 160]
}

/// This number for each position.
pub(crate) fn reaches(instance: &Instance, covered: &Covered, u: usize) -> [u8; 160]
    requires covered { AreMasksOf instance.now covered.now }
    requires unit { u < unit_total instance.now }
    ensures exact { (n v : ℕ) → 1 ≤ n → v < position_total instance.now
        → nat_le n (slice_index_or result v 0) ≡ is_free_run instance.now covered.now u n v }
    ensures few { (v : ℕ) → slice_index_or result v 0 ≤ 8 }
{
    let mut reach = zeros();
    for v in 0..instance.positions() {
        reach[v] = reach_at(instance, covered, u, v);
    }
    reach
}

/// The greatest of these numbers, and 0 where there are none.
pub(crate) fn greatest(numbers: &[u8]) -> u8
    ensures bound { (k : ℕ) → slice_index_or numbers.now k 0 ≤ result }
    ensures least { (most : ℕ) → ((k : ℕ) → slice_index_or numbers.now k 0 ≤ most) → result ≤ most }
{
    let mut most = 0;
    for n in numbers {
        if *n > most {
            most = *n;
        }
    }
    most
}
