// The matching in the order of numbers.
ghost use Rattle.std.specs.Prelude.{◌≡◌, ◌<◌, ◌≤◌, length, slice_index_or, IfOk};
ghost use Rattle.shunt_matching.specs.defs.Counts.{numbers_of_kind, first_fit_at, first_fit_of};

use crate::entries::{Entries, count_first, has_kind, is_left_out};
use std::alloc::{AllocError, Global};

/// The position that a unit which is left out has.
const NOWHERE: u16 = 65535;

/// The position of the rest of this type with that many of its type before it.
fn place_of_rank<V: Entries>(vs: &V, vm: &[bool], kind: u8, rank: u32) -> u16
    ensures { result ≡ slice_index_or (numbers_of_kind (V.entries vs.now) vm.now kind) rank 65535 }
{
    let mut earlier = 0;
    for v in 0..vs.len() {
        if has_kind(vs, vm, kind, v) {
            if earlier == rank {
                return v as u16;
            }
            earlier += 1;
        }
    }
    NOWHERE
}

/// The position that goes with this unit.
fn place_of_unit<U: Entries, V: Entries>(us: &U, vs: &V, um: &[bool], vm: &[bool], u: usize) -> u16
    requires within { u < length (U.entries us.now) }
    requires few { u ≤ 160 }
    ensures { result ≡ first_fit_at (U.entries us.now) (V.entries vs.now) um.now vm.now u }
{
    if is_left_out(um, u) {
        return NOWHERE;
    }
    let kind = us.kind(u);
    place_of_rank(vs, vm, kind, count_first(us, um, kind, u))
}

/// The position that goes with each unit: the k-th of its type with the k-th of its type.
pub(crate) fn fitted<U: Entries, V: Entries>(
    alloc: Global,
    us: &U,
    vs: &V,
    um: &[bool],
    vm: &[bool],
) -> Result<Vec<u16>, AllocError>
    ensures { IfOk result (λ place.
        place.items ≡ first_fit_of (U.entries us.now) (V.entries vs.now) um.now vm.now) }
{
    let mut place = Vec::with_capacity(alloc, us.len())?;
    for u in 0..us.len() {
        place.push(place_of_unit(us, vs, um, vm, u))?;
    }
    Ok(place)
}
