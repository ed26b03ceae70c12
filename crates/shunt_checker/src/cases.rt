// In which case and where the duals of a node are the first to break.
ghost use Rattle.std.specs.Prelude.{◌≡◌, ◌<◌, IfOk, IfSome, All, length};
ghost use Rattle.shunt_choices.specs.defs.Free.{AreMasksOf};
ghost use Rattle.shunt_prices.specs.defs.Limits.{AreCases};
ghost use Rattle.shunt_checker.specs.defs.Asked.{HoldsBy};
ghost use Rattle.shunt_checker.specs.defs.Firsts.{Finds};
ghost use Rattle.shunt_checker.specs.defs.Breaks.{IsBreak, IsBreakIn, BreakBefore, numbered};

use crate::known::is_known;
use crate::light_shapes::first_light;
use crate::offer::Offer;
use shunt_base::Cases;
use shunt_choices::Covered;
use shunt_instance::Instance;
use shunt_proof::Version;
use std::alloc::{AllocError, Global};

/// A shape with an option that weighs less in the case with a number than its duals.
#[derive(Clone, Copy, Debug, PartialEq, Eq, Drop)]
pub(crate) struct Break {
    pub(crate) case: usize,
    pub(crate) offer: Offer,
}

/// The case of one.
pub(crate) fn case_in(found: &Break) -> usize
    ensures { result ≡ found.now.case }
{
    found.case
}

/// The shape of one, with its option.
pub(crate) fn offer_in(found: &Break) -> Offer
    ensures { result ≡ found.now.offer }
{
    found.offer
}

/// A choice that breaks in the case with a number, where there is one.
fn numbered(case: usize, found: Option<Offer>) -> Option<Break>
    ensures { result ≡ numbered case found }
{
    match found {
        Some(offer) => Some(Break { case, offer }),
        None => None,
    }
}

/// The first of the case with a number, which has none where it is among those that are known to hold.
fn break_in(
    alloc: Global,
    instance: &Instance,
    version: Version,
    covered: &Covered,
    cases: &Cases,
    k: usize,
    known: Option<&Cases>,
) -> Result<Option<Break>, AllocError>
    requires covered { AreMasksOf instance.now covered.now }
    requires cases { AreCases instance.now cases.now }
    requires there { k < length cases.now }
    requires known { IfSome known
        (λ held. All (HoldsBy version instance.now covered.now) held.now) }
    ensures { IfOk result (Finds (IsBreakIn version instance.now covered.now cases.now k)
        (BreakBefore instance.now)) }
{
    let case = cases.get(k);
    if is_known(known, case) {
        return Ok(None);
    }
    let found = first_light(alloc, instance, version, covered, case)?;
    Ok(numbered(k, found))
}

/// The first over all cases, in their order. Those that are known to hold aren't tried again.
pub(crate) fn first_break(
    alloc: Global,
    instance: &Instance,
    version: Version,
    covered: &Covered,
    cases: &Cases,
    known: Option<&Cases>,
) -> Result<Option<Break>, AllocError>
    requires covered { AreMasksOf instance.now covered.now }
    requires cases { AreCases instance.now cases.now }
    requires known { IfSome known
        (λ held. All (HoldsBy version instance.now covered.now) held.now) }
    ensures { IfOk result
        (Finds (IsBreak version instance.now covered.now cases.now) (BreakBefore instance.now)) }
{
    for k in 0..cases.len() {
        if let Some(found) = break_in(alloc, instance, version, covered, cases, k, known)? {
            return Ok(Some(found));
        }
    }
    Ok(None)
}
