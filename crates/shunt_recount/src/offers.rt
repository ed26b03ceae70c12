// Free blocks of a stack that gain something in a case.
ghost use Rattle.std.specs.Prelude.{◌≡◌, ◌<◌, ◌++◌, ◌∷◌, [], List, length, filter, not, All, IfOk};
ghost use Rattle.std.specs.Prelude.{OnOk};
ghost use Rattle.shunt_blocks.specs.defs.Shapes.{IsWithinTrains};
ghost use Rattle.shunt_prices.specs.defs.Limits.{IsCase};
ghost use Rattle.shunt_stacks.specs.defs.Numbers.{shares, meet};
ghost use Rattle.shunt_recount.specs.declared.candidates.Candidate.{Candidate as ACandidate};
ghost use Rattle.shunt_recount.specs.defs.Offers.{stack_at, IsCandidate, IsOfferFor, AreOffersFor};

use crate::candidates::Candidate;
use crate::ends::{TrackEnd, block_on};
use crate::prices::{gain, left_of, room_on};
use shunt_base::Case;
use shunt_blocks::{Block, is_option, position_from, shape_of, unit_from};
use shunt_instance::Instance;
use std::alloc::{AllocError, Global};

/// A block with what it gains in a case, in thousandths of a cost unit.
#[derive(Clone, Copy, Drop)]
pub(crate) struct Offer {
    pub block: Block,
    pub gain: i64,
}

/// A candidate as a block of a stack, where it may be parked there, isn't too long, and gains something.
fn offer_for(instance: &Instance, case: &Case, end: TrackEnd, candidate: Candidate) -> Option<Offer>
    requires case { IsCase instance.now case.now }
    requires track { end.track.0 < length instance.now.station.tracks }
    requires candidate { IsCandidate instance.now case.now candidate }
    ensures { IsOfferFor instance.now case.now (stack_at end) candidate.shape result }
{
    if candidate.length > room_on(instance, end.track) {
        return None;
    }
    let block = block_on(end, candidate.shape);
    // Most blocks cost more than they are worth, which is found out soonest.
    let left = left_of(instance, &block, candidate.worth);
    if left <= 0 {
        return None;
    }
    if !is_option(instance, candidate.shape, block.park) {
        return None;
    }
    let gain = gain(instance, case, &block, candidate.length, left);
    if gain <= 0 {
        return None;
    }
    Some(Offer { block, gain })
}

/// Adds the offer of a candidate for a stack, where there is one.
fn add_offer(
    instance: &Instance,
    case: &Case,
    end: TrackEnd,
    candidate: Candidate,
    offers: &mut Vec<Offer>,
) -> Result<(), AllocError>
    requires case { IsCase instance.now case.now }
    requires track { end.track.0 < length instance.now.station.tracks }
    requires candidate { IsCandidate instance.now case.now candidate }
    ensures { (candidates : List ACandidate) → AreOffersFor instance.now case.now
        (stack_at end) candidates offers.old.items → OnOk result (AreOffersFor instance.now case.now
        (stack_at end) (candidates ++ candidate ∷ []) offers.new.items) }
{
    if let Some(offer) = offer_for(instance, case, end, candidate) {
        offers.push(offer)?;
    }
    Ok(())
}

/// The offers of candidates for a stack.
pub(crate) fn offers_for(
    alloc: Global,
    instance: &Instance,
    case: &Case,
    end: TrackEnd,
    candidates: &[Candidate],
) -> Result<Vec<Offer>, AllocError>
    requires case { IsCase instance.now case.now }
    requires track { end.track.0 < length instance.now.station.tracks }
    requires candidates { All (IsCandidate instance.now case.now) candidates.now }
    ensures { IfOk result
        (λ v. AreOffersFor instance.now case.now (stack_at end) candidates.now v.items) }
{
    let mut offers = Vec::new(alloc);
    'candidates: for candidate in candidates {
        add_offer(instance, case, end, *candidate, &mut offers)?;
    }
    Ok(offers)
}

/// Whether two runs of numbers have one in common.
fn meet(a: usize, n: usize, b: usize, m: usize) -> bool
    requires first { a < 1000000 }
    requires count { n < 1000000 }
    requires other { b < 1000000 }
    requires other_count { m < 1000000 }
    ensures { result ≡ meet a n b m }
{
    a < b + m && b < a + n
}

/// Whether two blocks share a unit or a position.
fn shares(instance: &Instance, one: &Block, other: &Block) -> bool
    requires one { IsWithinTrains instance.now one.now }
    requires other { IsWithinTrains instance.now other.now }
    ensures { result ≡ shares instance.now one.now other.now }
{
    // The calls tell that there are at most 160 units and positions.
    instance.units();
    instance.positions();
    let first = shape_of(one);
    let second = shape_of(other);
    let n = usize::from(one.n);
    let m = usize::from(other.n);
    let units = meet(
        unit_from(instance, first),
        n,
        unit_from(instance, second),
        m,
    );
    units
        || meet(
            position_from(instance, first),
            n,
            position_from(instance, second),
            m,
        )
}

/// Those of these offers that share nothing with a block.
pub(crate) fn apart_from(
    alloc: Global,
    instance: &Instance,
    block: &Block,
    offers: &[Offer],
) -> Result<Vec<Offer>, AllocError>
    requires block { IsWithinTrains instance.now block.now }
    requires offers { All (λ o. IsWithinTrains instance.now o.block) offers.now }
    ensures { IfOk result
        (λ v. v.items ≡ filter (λ o. not (shares instance.now block.now o.block)) offers.now) }
{
    let mut apart = Vec::new(alloc);
    'offers: for offer in offers {
        if !shares(instance, block, &offer.block) {
            apart.push(*offer)?;
        }
    }
    Ok(apart)
}
