ghost use Rattle.std.specs.Prelude.{◌≡◌, List, ℕ, [], length, Some, IfNone, IfSome};
ghost use Rattle.shunt_instance.specs.defs.Instance.{unit_total, position_total};
ghost use Rattle.shunt_matching.specs.declared.types.Shortage.{Shortage};
ghost use Rattle.shunt_matching.specs.defs.Nights.{HasItsType, Matches, HasMatching, HasNoMatching};
ghost use Rattle.shunt_matching.specs.defs.Nights.{IsShortageOf};

use crate::night::first_shortage;
use crate::types::Shortage;
use shunt_instance::Instance;

/// Why no matching of the rest exists, which is the units and positions whose entries are false. It takes no memory.
///
/// It is None exactly when one exists, and else the first shortage: a type whose units and positions differ in number,
/// or else a type and its least minute by which more positions leave than units are ready.
pub fn shortage_rest(instance: &Instance, units: &[bool], places: &[bool]) -> Option<Shortage>
    requires units { length units.now ≡ unit_total instance.now }
    requires places { length places.now ≡ position_total instance.now }
    ensures none { IfNone result (HasMatching instance.now units.now places.now) }
    ensures some { IfSome result (λ _. HasNoMatching instance.now units.now places.now) }
    ensures exact { IfSome result (IsShortageOf instance.now units.now places.now) }
    ensures known { IfSome result (HasItsType instance.now) }
    ensures only { (s : Shortage) → IsShortageOf instance.now units.now places.now s
        → result ≡ Some s }
{
    first_shortage(instance, units, places)
}

/// Why no matching exists: `shortage_rest` with nothing left out.
pub fn shortage(instance: &Instance) -> Option<Shortage>
    ensures none { IfNone result ((place : List ℕ) × Matches instance.now place) }
    ensures some { IfSome result (λ _. (place : List ℕ) → Matches instance.now place → ⊥) }
    ensures exact { IfSome result (IsShortageOf instance.now [] []) }
    ensures known { IfSome result (HasItsType instance.now) }
    ensures only { (s : Shortage) → IsShortageOf instance.now [] [] s → result ≡ Some s }
{
    first_shortage(instance, &[], &[])
}
