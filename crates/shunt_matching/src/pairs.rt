ghost use Rattle.std.specs.Prelude.{◌≡◌, List, ℕ, [], length, Err, IfOk, IfErr, IsErrOf};
ghost use Rattle.shunt_instance.specs.defs.Instance.{unit_total, position_total};
ghost use Rattle.shunt_matching.specs.declared.types.Shortage.{Shortage};
ghost use Rattle.shunt_matching.specs.declared.pairs.MatchError.TheVariants.{Memory};
ghost use Rattle.shunt_matching.specs.defs.Nights.{HasItsType, Matches, MatchesRest, HasMatching};
ghost use Rattle.shunt_matching.specs.defs.Nights.{HasNoMatching, IsShortageOf};
ghost use Rattle.shunt_matching.specs.defs.Nights.{ForShort, first_fit_of_rest};

use crate::night::{Positions, Units, first_shortage};
use crate::ranks::fitted;
use crate::types::Shortage;
use shunt_instance::Instance;
use shunt_lists::Items;
use std::alloc::{AllocError, Global};
use thiserror::Error;

/// A position for each unit.
#[derive(Debug, Drop)]
pub struct Matching {
    /// The number of the position of each unit, in the order of units, and 65,535 for a unit that was left out.
    pub place_of: Items<u16>,
}

/// Why there is no matching.
#[derive(Clone, Copy, Debug, PartialEq, Eq, Error)]
pub enum MatchError {
    /// None exists.
    #[error("there are not enough units")]
    Short(Shortage),
    /// Memory ran out.
    #[error("out of memory")]
    Memory,
}

impl From<AllocError> for MatchError {
    ghost from_gives = { λ _ e. e ≡ Memory };

    fn from(_error: AllocError) -> MatchError {
        MatchError::Memory
    }
}

fn pairing(
    alloc: Global,
    instance: &Instance,
    um: &[bool],
    vm: &[bool],
) -> Result<Matching, MatchError>
    ensures ok { IfOk result (λ m. m.place_of ≡ first_fit_of_rest instance.now um.now vm.now) }
    ensures matching { IfOk result (λ m. MatchesRest instance.now um.now vm.now m.place_of) }
    ensures short { IfErr result (λ e. ForShort e (λ _. HasNoMatching instance.now um.now vm.now)) }
    ensures exact { IfErr result (λ e. ForShort e (IsShortageOf instance.now um.now vm.now)) }
    ensures known { IfErr result (λ e. ForShort e (HasItsType instance.now)) }
    ensures only { (s : Shortage) → IsShortageOf instance.now um.now vm.now s
        → result ≡ Err (MatchError.Short s) }
    ensures memory { IsErrOf result MatchError.Memory → HasMatching instance.now um.now vm.now }
{
    if let Some(shortage) = first_shortage(instance, um, vm) {
        return Err(MatchError::Short(shortage));
    }
    let place = fitted(alloc, &Units { instance }, &Positions { instance }, um, vm)?;
    Ok(Matching {
        place_of: Items::from_vec(place),
    })
}

/// The matching of the rest that pairs the k-th unit of each type in it with the k-th position of that type in it. The
/// rest is the units and positions whose entries are false.
///
/// Short comes exactly when `shortage_rest` gives that shortage, before any memory is taken.
pub fn first_fit_rest(
    alloc: Global,
    instance: &Instance,
    units: &[bool],
    places: &[bool],
) -> Result<Matching, MatchError>
    requires units { length units.now ≡ unit_total instance.now }
    requires places { length places.now ≡ position_total instance.now }
    ensures ok { IfOk result
        (λ m. m.place_of ≡ first_fit_of_rest instance.now units.now places.now) }
    ensures matching { IfOk result (λ m. MatchesRest instance.now units.now places.now m.place_of) }
    ensures short { IfErr result
        (λ e. ForShort e (λ _. HasNoMatching instance.now units.now places.now)) }
    ensures exact { IfErr result
        (λ e. ForShort e (IsShortageOf instance.now units.now places.now)) }
    ensures known { IfErr result (λ e. ForShort e (HasItsType instance.now)) }
    ensures only { (s : Shortage) → IsShortageOf instance.now units.now places.now s
        → result ≡ Err (MatchError.Short s) }
    ensures memory { IsErrOf result MatchError.Memory
        → HasMatching instance.now units.now places.now }
{
    pairing(alloc, instance, units, places)
}

/// The matching that pairs the k-th unit of each type with the k-th position of that type: `first_fit_rest` with nothing
/// left out.
///
/// Short comes exactly when `shortage` gives that shortage, before any memory is taken.
pub fn first_fit(alloc: Global, instance: &Instance) -> Result<Matching, MatchError>
    ensures ok { IfOk result (λ m. m.place_of ≡ first_fit_of_rest instance.now [] []) }
    ensures matching { IfOk result (λ m. Matches instance.now m.place_of) }
    ensures short { IfErr result
        (λ e. ForShort e (λ _. (place : List ℕ) → Matches instance.now place → ⊥)) }
    ensures exact { IfErr result (λ e. ForShort e (IsShortageOf instance.now [] [])) }
    ensures known { IfErr result (λ e. ForShort e (HasItsType instance.now)) }
    ensures only { (s : Shortage) → IsShortageOf instance.now [] [] s
        → result ≡ Err (MatchError.Short s) }
    ensures memory { IsErrOf result MatchError.Memory
        → (place : List ℕ) × Matches instance.now place }
{
    pairing(alloc, instance, &[], &[])
}
