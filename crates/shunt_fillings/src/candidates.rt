// Candidates: the free blocks of a stack that gain something in a case.
ghost use Rattle.std.specs.Prelude.{◌≡◌, ◌<◌, ◌≤◌, ◌++◌, ◌∷◌, [], List, All, length, filter, not};
ghost use Rattle.std.specs.Prelude.{IsTrue, ◌↔◌, IfOk, OnOk};
ghost use Rattle.shunt_blocks.specs.defs.Shapes.{AreRunsWithin, IsWithinTrains, shape_of};
ghost use Rattle.shunt_blocks.specs.defs.Blocks.{IsOption};
ghost use Rattle.shunt_prices.specs.defs.Prices.{track_length};
ghost use Rattle.shunt_stacks.specs.defs.Numbers.{meet, shares};
ghost use Rattle.shunt_dual.specs.defs.Offers.{IsSmallOffer};
ghost use Rattle.shunt_fillings.specs.declared.candidates.Candidate.{Candidate as OneCandidate};
ghost use Rattle.shunt_fillings.specs.defs.Pieces.{seen, park_on, block_on, AreTaken};

use crate::ends::Stack;
use shunt_base::TrackId;
use shunt_blocks::{Block, Park, Shape, is_option, position_from, shape_of, unit_from};
use shunt_dual::Offer;
use shunt_instance::Instance;
use std::alloc::{AllocError, Global};

/// A free block of a stack with what it gains in a case, in thousandths of a cost unit.
#[derive(Clone, Copy, Drop)]
pub struct Candidate {
    pub block: Block,
    pub gain: i64,
}

/// The way to park on a stack.
pub(crate) fn park_on(stack: Stack) -> Park
    ensures { result ≡ park_on (seen stack) }
{
    Park {
        track: stack.track,
        side_in: stack.side,
        side_out: stack.side,
    }
}

/// A shape as a block of a stack.
pub(crate) fn block_on(stack: Stack, shape: Shape) -> Block
    ensures { result ≡ block_on (seen stack) shape }
{
    Block {
        id: 1,
        arr: shape.arr,
        p: shape.p,
        n: shape.n,
        dep: shape.dep,
        q: shape.q,
        park: Some(park_on(stack)),
    }
}

/// The length of a track in dm.
pub(crate) fn track_length(instance: &Instance, track: TrackId) -> u32
    requires { track.0 < length instance.now.station.tracks }
    ensures { result ≡ track_length instance.now track.0 }
{
    instance.station().tracks.as_slice()[usize::from(track.0)].length
}

/// Whether an offered shape may stand on a stack, and isn't too long for it.
fn can_stand(instance: &Instance, stack: Stack, offer: &Offer) -> bool
    requires offer { IsSmallOffer instance.now offer.now }
    requires track { stack.track.0 < length instance.now.station.tracks }
    ensures { IsTrue result
        ↔ IsOption instance.now offer.now.shape (block_on (seen stack) offer.now.shape).park
        × (offer.now.long ≤ track_length instance.now stack.track.0) }
{
    if offer.length() > track_length(instance, stack.track) {
        return false;
    }
    is_option(instance, offer.shape(), Some(park_on(stack)))
}

/// Adds what is offered as a block of a stack, where that may stand there and gains something.
fn add_candidate(
    instance: &Instance,
    stack: Stack,
    offer: &Offer,
    candidates: &mut Vec<Candidate>,
) -> Result<(), AllocError>
    requires offer { IsSmallOffer instance.now offer.now }
    requires track { stack.track.0 < length instance.now.station.tracks }
    ensures { OnOk result ((added : List OneCandidate) × AreTaken instance.now (seen stack)
        (offer.now ∷ []) added × (candidates.new.items ≡ candidates.old.items ++ added)) }
{
    // Most shapes gain nothing on a stack, which is found out soonest.
    let gain = offer.gain(instance, park_on(stack));
    if gain <= 0 {
        return Ok(());
    }
    if !can_stand(instance, stack, offer) {
        return Ok(());
    }
    let block = block_on(stack, offer.shape());
    candidates.push(Candidate { block, gain })?;
    Ok(())
}

/// What these offer as blocks of a stack, of those that may stand there and gain something.
pub(crate) fn candidates(
    alloc: Global,
    instance: &Instance,
    stack: Stack,
    offers: &[Offer],
) -> Result<Vec<Candidate>, AllocError>
    requires offers { All (IsSmallOffer instance.now) offers.now }
    requires track { stack.track.0 < length instance.now.station.tracks }
    ensures { IfOk result (λ v. AreTaken instance.now (seen stack) offers.now v.items) }
{
    let mut candidates = Vec::new(alloc);
    'offers: for offer in offers {
        add_candidate(instance, stack, offer, &mut candidates)?;
    }
    Ok(candidates)
}

/// Whether two runs have a number in common.
fn meet(a: usize, n: u8, b: usize, m: u8) -> bool
    requires first { a ≤ 1000 }
    requires second { b ≤ 1000 }
    ensures { result ≡ meet a n b m }
{
    a < b + usize::from(m) && b < a + usize::from(n)
}

/// Whether two blocks share a unit or a position.
fn shares(instance: &Instance, one: &Block, other: &Block) -> bool
    requires one { IsWithinTrains instance.now one.now }
    requires other { IsWithinTrains instance.now other.now }
    ensures { result ≡ shares instance.now one.now other.now }
{
    let (first, second) = (shape_of(one), shape_of(other));
    let u = unit_from(instance, first);
    let w = unit_from(instance, second);
    if meet(u, one.n, w, other.n) {
        return true;
    }
    let v = position_from(instance, first);
    let x = position_from(instance, second);
    meet(v, one.n, x, other.n)
}

/// Those of these candidates that share nothing with a block.
pub(crate) fn apart_of(
    alloc: Global,
    instance: &Instance,
    block: &Block,
    candidates: &[Candidate],
) -> Result<Vec<Candidate>, AllocError>
    requires block { IsWithinTrains instance.now block.now }
    requires each { All (λ k. IsWithinTrains instance.now k.block) candidates.now }
    ensures { IfOk result
        (λ v. v.items ≡ filter (λ k. not (shares instance.now block.now k.block)) candidates.now) }
{
    let mut apart = Vec::new(alloc);
    'candidates: for candidate in candidates {
        if !shares(instance, block, &candidate.block) {
            apart.push(*candidate)?;
        }
    }
    Ok(apart)
}
