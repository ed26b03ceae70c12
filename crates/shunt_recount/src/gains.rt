// What a stack gains, by its offers.
ghost use Rattle.std.specs.Prelude.{◌≡◌, ◌<◌, All, length, IfOk};
ghost use Rattle.shunt_base.specs.declared.duals.Case.{Case as ACase};
ghost use Rattle.shunt_blocks.specs.defs.Blocks.{IsBlockButId};
ghost use Rattle.shunt_blocks.specs.defs.Lists.{ShareNothing, RunsThrough, placed};
ghost use Rattle.shunt_prices.specs.defs.Sums.{IsWithin};
ghost use Rattle.shunt_prices.specs.defs.Limits.{IsCase};
ghost use Rattle.shunt_stacks.specs.defs.Fillings.{IsStackGain};
ghost use Rattle.shunt_recount.specs.defs.Offers.{stack_at, AreOffersOf};
ghost use Rattle.shunt_recount.specs.defs.Recounts.{IsStackTable};

use crate::ends::TrackEnd;
use crate::events::{EVENTS, fixed_visits, free_visits};
use crate::offers::Offer;
use crate::prices::room_on;
use crate::tables::{Table, greatest_gain};
use shunt_blocks::Block;
use shunt_blocks::laws::places;
use shunt_instance::Instance;
use shunt_instance::laws::unit_numbers;
use shunt_stacks::laws::{gains_by_events, gains_there, sums_fit};
use std::alloc::{AllocError, Global};

/// What a stack gains, in thousandths of a cost unit, with the table of its visits.
#[derive(Drop)]
pub(crate) struct StackGain {
    pub gain: i64,
    pub table: Table,
}

/// What a stack gains at blocks whose run goes through, by its offers there.
pub(crate) fn stack_gain(
    alloc: Global,
    instance: &Instance,
    end: TrackEnd,
    blocks: &[Block],
    offers: &[Offer],
) -> Result<StackGain, AllocError>
    requires track { end.track.0 < length instance.now.station.tracks }
    requires each { All (IsBlockButId instance.now) blocks.now }
    requires apart { ShareNothing instance.now blocks.now }
    requires through { RunsThrough instance.now (placed blocks.now) }
    requires offers { (c : ACase) × IsCase instance.now c
        × AreOffersOf instance.now blocks.now c (stack_at end) offers.now }
    ensures exact { (c : ACase) → AreOffersOf instance.now blocks.now c (stack_at end) offers.now
        → IfOk result (λ g. IsStackGain instance.now blocks.now c (stack_at end) g.gain) }
    ensures small { IfOk result (λ g. IsWithin 319999999999680 g.gain) }
    ensures table { IfOk result (λ g. IsStackTable instance.now blocks.now (stack_at end)
        offers.now g.table g.gain) }
{
    // The first call tells that the night is well formed.
    instance.units();
    unit_numbers();
    places();
    gains_by_events();
    gains_there();
    sums_fit();
    let fixed = fixed_visits(alloc, instance, end, blocks)?;
    let free = free_visits(alloc, instance, offers)?;
    let room = room_on(instance, end.track);
    let greatest = greatest_gain(alloc, fixed, free, EVENTS, room)?;
    let Some(gain) = greatest.gain else {
        unreachable!();
    };
    Ok(StackGain {
        gain,
        table: greatest.table,
    })
}
