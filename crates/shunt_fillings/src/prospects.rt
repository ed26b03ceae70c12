// Prospects: what stacks may gain yet at a path in a case, and with all of them the sum with stacks there.
ghost use Rattle.std.specs.Prelude.{◌≡◌, ◌<◌, ◌≤◌, All, length, IfOk};
ghost use Rattle.std.specs.List.{AllZip};
ghost use Rattle.shunt_base.specs.declared.duals.Case.{Case as OneCase};
ghost use Rattle.shunt_prices.specs.defs.Sums.{sum_z, IsWithin};
ghost use Rattle.shunt_prices.specs.defs.Limits.{IsCase, AreCases};
ghost use Rattle.shunt_dual.specs.defs.Offers.{AreOffers};
ghost use Rattle.shunt_stacks.specs.defs.Stacks.{stacks as stacks_of};
ghost use Rattle.shunt_fillings.specs.defs.Pieces.{seen};
ghost use Rattle.shunt_fillings.specs.defs.Scenes.{IsScene};
ghost use Rattle.shunt_fillings.specs.defs.Prospects.{IsProspect, IsOutlook, AreOutlooks};

use crate::besides::{Beside, besides};
use crate::candidates::{Candidate, candidates};
use crate::ends::Stack;
use crate::gains::stack_gain;
use crate::scenes::Scene;
use shunt_base::{Case, Cases};
use shunt_dual::{Offer, case_sum, offers};
use shunt_stacks::laws::stacks_of_stations;
use std::alloc::{AllocError, Global};

/// The free blocks of a stack at a path that gain something in a case, what the stack gains there at most, in thousandths of a cost unit,
/// and what beside shapes that may come next.
#[derive(Drop)]
pub struct Prospect {
    pub candidates: Vec<Candidate>,
    pub gain: i64,
    pub besides: Vec<Beside>,
}

/// What the stacks of a station may gain at a path in a case, in their order, and the sum with stacks there, in thousandths of a cost unit.
#[derive(Drop)]
pub struct Outlook {
    pub stacks: Vec<Prospect>,
    pub sum: i64,
}

/// What a stack may gain at a path, by what the free shapes there offer in a case.
fn prospect_of(
    alloc: Global,
    scene: &Scene<'_>,
    offers: &[Offer],
    stack: Stack,
) -> Result<Prospect, AllocError>
    requires scene { IsScene scene.now }
    requires track { stack.track.0 < length scene.now.instance.now.station.tracks }
    requires offers { (c : OneCase) × IsCase scene.now.instance.now c
        × AreOffers scene.now.instance.now c.duals scene.now.shapes.now offers.now }
    ensures { (c : OneCase) → IsCase scene.now.instance.now c
        → AreOffers scene.now.instance.now c.duals scene.now.shapes.now offers.now
        → IfOk result (IsProspect scene.now.instance.now scene.now.path.now.blocks c (seen stack)) }
{
    // The call tells that there are at most 60 tracks.
    scene.instance.station();
    let candidates = candidates(alloc, scene.instance, stack, offers)?;
    let path = scene.path.blocks();
    let mut found = stack_gain(
        alloc,
        scene.instance,
        scene.events,
        stack,
        path,
        &candidates,
    )?;
    let besides = besides(alloc, scene, stack, &mut found.table)?;
    Ok(Prospect {
        candidates,
        gain: found.gain,
        besides,
    })
}

/// What the stacks of the station may gain at a path in a case. What a shape offers is found once for all of them.
fn prospects_in(alloc: Global, scene: &Scene<'_>, case: &Case) -> Result<Vec<Prospect>, AllocError>
    requires scene { IsScene scene.now }
    requires case { IsCase scene.now.instance.now case.now }
    ensures { IfOk result (λ v. AllZip (IsProspect scene.now.instance.now scene.now.path.now.blocks
        case.now) (stacks_of scene.now.instance.now.station) v.items) }
{
    stacks_of_stations();
    let offers = offers(alloc, scene.instance, &case.duals, scene.shapes)?;
    let mut prospects = Vec::with_capacity(alloc, scene.stacks.len())?;
    'stacks: for stack in scene.stacks {
        prospects.push(prospect_of(alloc, scene, &offers, *stack)?)?;
    }
    Ok(prospects)
}

/// What stacks gain at most, added up.
fn added_up(prospects: &[Prospect]) -> i64
    requires few { length prospects.now ≤ 120 }
    requires gains { All (λ p. IsWithin 319999999999680 p.gain) prospects.now }
    ensures exact { result ≡ sum_z (λ p. p.gain) prospects.now }
    ensures small { IsWithin 38399999999961600 result }
{
    let mut total = 0;
    'prospects: for prospect in prospects {
        total += prospect.gain;
    }
    total
}

/// What the stacks of the station may gain at a path in the case with a number, and the sum with stacks: the sum there, less what all
/// stacks gain.
pub(crate) fn outlook_of(
    alloc: Global,
    scene: &Scene<'_>,
    cases: &Cases,
    k: usize,
) -> Result<Outlook, AllocError>
    requires scene { IsScene scene.now }
    requires cases { AreCases scene.now.instance.now cases.now }
    requires there { k < length cases.now }
    ensures { IfOk result (IsOutlook scene.now.instance.now scene.now.path.now.blocks cases.now k) }
{
    // The calls tell that there are at most 120 stacks.
    scene.instance.station();
    stacks_of_stations();
    let stacks = prospects_in(alloc, scene, cases.get(k))?;
    let sum = case_sum(scene.instance, scene.path, cases, k) - added_up(&stacks);
    Ok(Outlook { stacks, sum })
}

/// What the stacks of the station may gain at a path in each case. The bounds of all choices at the path are found by it. Err is want of
/// memory.
pub fn outlooks(alloc: Global, scene: &Scene<'_>, cases: &Cases) -> Result<Vec<Outlook>, AllocError>
    requires scene { IsScene scene.now }
    requires cases { AreCases scene.now.instance.now cases.now }
    ensures { IfOk result (λ v. AreOutlooks scene.now.instance.now scene.now.path.now.blocks
        cases.now (length cases.now) v.items) }
{
    let mut all = Vec::with_capacity(alloc, cases.len())?;
    for k in 0..cases.len() {
        all.push(outlook_of(alloc, scene, cases, k)?)?;
    }
    Ok(all)
}
