// The entries of an instance.
ghost use Rattle.std.specs.Prelude.{◌≡◌, ◌<◌, ◌≤◌, List, ℕ, length, Some, IfNone, IfSome};
ghost use Rattle.shunt_instance.specs.defs.Matching.{entry_at, unit_entries, position_entries};
ghost use Rattle.shunt_matching.specs.declared.types.Shortage.{Shortage};
ghost use Rattle.shunt_matching.specs.defs.Counts.{IsBalanced};
ghost use Rattle.shunt_matching.specs.defs.Nights.{HasItsType, MatchesRest, HasMatching};
ghost use Rattle.shunt_matching.specs.defs.Nights.{HasNoMatching, IsShortageOf};
ghost use Rattle.shunt_matching.specs.defs.Nights.{first_fit_of_rest};

use crate::entries::{Entries, count_by};
use crate::first_shortage::{first_late, first_uneven};
use crate::types::Shortage;
use shunt_base::TypeId;
use shunt_instance::Instance;

/// The units of an instance.
#[derive(Clone, Copy)]
pub(crate) struct Units<'a> {
    pub instance: &'a Instance,
}

impl Entries for Units<'_> {
    ghost entries = { λ s. unit_entries s.instance.now };

    fn len(&self) -> usize {
        self.instance.units()
    }

    fn kind(&self, i: usize) -> u8 {
        self.instance.unit(i).kind.0
    }

    fn minute(&self, i: usize) -> u16 {
        self.instance.ready(i)
    }
}

/// The positions of an instance.
#[derive(Clone, Copy)]
pub(crate) struct Positions<'a> {
    pub instance: &'a Instance,
}

impl Entries for Positions<'_> {
    ghost entries = { λ s. position_entries s.instance.now };

    fn len(&self) -> usize {
        self.instance.positions()
    }

    fn kind(&self, i: usize) -> u8 {
        self.instance.position(i).kind.0
    }

    fn minute(&self, i: usize) -> u16 {
        self.instance.leaves(i).number()
    }
}

/// The first shortage of the rest, by its counts.
fn judged(instance: &Instance, um: &[bool], vm: &[bool]) -> Option<Shortage>
    ensures none { IfNone result
        (IsBalanced (unit_entries instance.now) (position_entries instance.now) um.now vm.now) }
    ensures some { IfSome result (IsShortageOf instance.now um.now vm.now) }
    ensures known { IfSome result (HasItsType instance.now) }
{
    let us = Units { instance };
    let vs = Positions { instance };
    let kinds = instance.station().types.len() as u8;
    if let Some(uneven) = first_uneven(&us, &vs, um, vm, kinds) {
        return Some(Shortage::Balance {
            kind: TypeId(uneven.kind),
            arrive: uneven.arrive,
            depart: uneven.depart,
        });
    }
    let Some(late) = first_late(&us, &vs, um, vm, kinds) else {
        return None;
    };
    let minute = instance.leaves(late.position);
    Some(Shortage::ByMinute {
        kind: TypeId(late.kind),
        minute,
        need: count_by(&vs, vm, late.kind, minute.number()),
        have: count_by(&us, um, late.kind, minute.number()),
    })
}

/// The first shortage of the rest. None exactly when it has a matching, and then the k-th go together.
pub(crate) fn first_shortage(instance: &Instance, um: &[bool], vm: &[bool]) -> Option<Shortage>
    ensures none { IfNone result (HasMatching instance.now um.now vm.now) }
    ensures first_fit { let place = first_fit_of_rest instance.now um.now vm.now in
        IfNone result (MatchesRest instance.now um.now vm.now place) }
    ensures some { IfSome result (λ _. HasNoMatching instance.now um.now vm.now) }
    ensures exact { IfSome result (IsShortageOf instance.now um.now vm.now) }
    ensures known { IfSome result (HasItsType instance.now) }
    ensures only { (s : Shortage) → IsShortageOf instance.now um.now vm.now s → result ≡ Some s }
{
    let _station = instance.station();
    judged(instance, um, vm)
}
