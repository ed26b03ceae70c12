// What blocks take of the night's events, whose numbers rise in their order with gaps between them.
ghost use Rattle.std.specs.Prelude.{◌≡◌, ◌<◌, All, IfOk};
ghost use Rattle.shunt_instance.specs.defs.Instance.{unit_total, position_total};
ghost use Rattle.shunt_blocks.specs.defs.Shapes.{IsWithinTrains};
ghost use Rattle.shunt_prices.specs.defs.Sums.{IsWithin};
ghost use Rattle.shunt_stacks.specs.defs.Stacks.{blocks_of};
ghost use Rattle.shunt_stacks.specs.defs.Numbers.{entry_number, leave_number, span_of, fixed_spans};
ghost use Rattle.shunt_recount.specs.defs.Visits.{spans_of, span_of as visit_span};
ghost use Rattle.shunt_recount.specs.defs.Offers.{stack_at, offer_spans};

use crate::ends::{TrackEnd, stands_by};
use crate::offers::Offer;
use crate::visits::Visit;
use shunt_blocks::{Block, block_length, position_from, shape_of, unit_from};
use shunt_instance::Instance;
use std::alloc::{AllocError, Global};

/// Each event has a lower number than this.
pub(crate) const EVENTS: u32 = 5760000;

/// The number of a unit's entry: by minute, behind the leaves of that minute, and then by unit.
fn entry_number(instance: &Instance, u: usize) -> u32
    requires { u < unit_total instance.now }
    ensures exact { result ≡ entry_number instance.now u }
    ensures small { result < 5760000 }
{
    // The call tells that there are at most 160 units.
    instance.units();
    let minute = instance.arrive(instance.unit(u).train).minute.number();
    (2 * u32::from(minute) + 1) * 1000 + u as u32
}

/// The number of a position's leave: by minute, then by train, and of one train the later places first.
fn leave_number(instance: &Instance, v: usize) -> u32
    requires { v < position_total instance.now }
    ensures exact { result ≡ leave_number instance.now v }
    ensures small { result < 5770000 }
{
    let position = instance.position(v);
    let minute = instance.depart(position.train).minute.number();
    let places = 8 - u32::from(position.place);
    2 * u32::from(minute) * 1000 + (8 * u32::from(position.train.0) + places)
}

/// What a block takes of the events, with a gain.
pub(crate) fn visit_of(instance: &Instance, block: &Block, gain: i64) -> Visit
    requires { IsWithinTrains instance.now block.now }
    ensures { visit_span result ≡ span_of instance.now (entry_number instance.now)
        (leave_number instance.now) (λ b. gain) block.now }
{
    let shape = shape_of(block);
    let last = usize::from(block.n) - 1;
    let u = unit_from(instance, shape);
    let v = position_from(instance, shape);
    Visit {
        comes: entry_number(instance, u),
        inside: entry_number(instance, u + last) + 1,
        until: leave_number(instance, v + last),
        gone: leave_number(instance, v) + 1,
        length: block_length(instance, block),
        gain,
    }
}

/// The visits of those blocks that stand by an end, which gain nothing more.
pub(crate) fn fixed_visits(
    alloc: Global,
    instance: &Instance,
    end: TrackEnd,
    blocks: &[Block],
) -> Result<Vec<Visit>, AllocError>
    requires { All (IsWithinTrains instance.now) blocks.now }
    ensures { IfOk result (λ v. spans_of v.items ≡ fixed_spans instance.now (entry_number
        instance.now) (leave_number instance.now) (blocks_of (stack_at end) blocks.now)) }
{
    let mut visits = Vec::new(alloc);
    'blocks: for block in blocks {
        if stands_by(end, block.park) {
            visits.push(visit_of(instance, block, 0))?;
        }
    }
    Ok(visits)
}

/// The visits of offers, with their gains.
pub(crate) fn free_visits(
    alloc: Global,
    instance: &Instance,
    offers: &[Offer],
) -> Result<Vec<Visit>, AllocError>
    requires within { All (λ o. IsWithinTrains instance.now o.block) offers.now }
    requires small { All (λ o. IsWithin 16000000000000 o.gain) offers.now }
    ensures { IfOk result (λ v. spans_of v.items ≡ offer_spans instance.now offers.now) }
{
    let mut visits = Vec::with_capacity(alloc, offers.len())?;
    'offers: for offer in offers {
        visits.push(visit_of(instance, &offer.block, offer.gain))?;
    }
    Ok(visits)
}
