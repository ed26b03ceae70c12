// How late one train can be.
ghost use Rattle.std.specs.Prelude.{◌≡◌, ℕ, ◌≤◌, IfOk};
ghost use Rattle.shunt_blocks.specs.defs.Lists.{stays_of};
ghost use Rattle.shunt_delay.specs.defs.Late.{late};
ghost use Rattle.shunt_delay.specs.defs.Delays.{IsDelay};
ghost use Rattle.shunt_delay.specs.defs.Kept.{AreInTime, AreReadyBlocks, AreOthers, AreAll, Hold};
ghost use Rattle.shunt_delay.specs.defs.Kept.{Stops};

use crate::first::first_stop;
use crate::late::{LIMIT, minutes_in_time, stays_of_train};
use crate::moved_stays::{goes_through, put, take};
use crate::records::{Delay, Stop};
use shunt_base::{ArrId, Stay};
use shunt_blocks::{Block, laws};
use shunt_instance::Instance;
use shunt_timeline::Timelines;
use std::alloc::{AllocError, Global};

/// How late a train may be, in minutes up to 120, so that none of its blocks is too soon.
fn train_in_time(instance: &Instance, blocks: &[Block], train: ArrId) -> u16
    requires { AreReadyBlocks instance.now blocks.now }
    ensures few { result ≤ 120 }
    ensures in_time { (d : ℕ) → d ≤ result → AreInTime (late train.0 d instance.now) blocks.now }
{
    let mut minutes = LIMIT;
    for block in blocks {
        minutes = minutes.min(minutes_in_time(instance, block, train));
    }
    minutes
}

/// What stops a train from being so late that no block is too soon; nothing exactly when the plan stays feasible.
///
/// The timelines hold the stays of all other trains.
fn stop_at(
    alloc: Global,
    instance: &Instance,
    blocks: &[Block],
    train: ArrId,
    own: &[Stay],
    timelines: &mut Timelines,
    minutes: u16,
) -> Result<Option<Stop>, AllocError>
    requires ready { AreReadyBlocks instance.now blocks.now }
    requires few { minutes ≤ 120 }
    requires in_time { AreInTime (late train.0 minutes instance.now) blocks.now }
    requires others { AreOthers instance.now blocks.now train.0 own.now timelines.old }
    ensures stops { IfOk result (λ o. Stops (late train.0 minutes instance.now) blocks.now o) }
    ensures same { Hold timelines.old timelines.new }
{
    // The calls tell that the night is well formed, and how the stays of blocks stand.
    instance.station();
    laws::places();
    laws::stays();
    laws::stays_of_blocks();
    timelines.clash();
    if goes_through(timelines, own, minutes) {
        return Ok(None);
    }
    first_stop(alloc, instance, blocks, train, minutes)
}

/// The greatest delay of a train, and what stops it there.
fn greatest(
    alloc: Global,
    instance: &Instance,
    blocks: &[Block],
    train: ArrId,
    own: &[Stay],
    timelines: &mut Timelines,
) -> Result<Delay, AllocError>
    requires ready { AreReadyBlocks instance.now blocks.now }
    requires others { AreOthers instance.now blocks.now train.0 own.now timelines.old }
    ensures delay { IfOk result (λ d. (d.train ≡ train) × IsDelay instance.now blocks.now d) }
    ensures same { Hold timelines.old timelines.new }
{
    let in_time = train_in_time(instance, blocks, train);
    for minutes in 1..LIMIT + 1 {
        let found = if minutes <= in_time {
            stop_at(alloc, instance, blocks, train, own, timelines, minutes)?
        } else {
            first_stop(alloc, instance, blocks, train, minutes)?
        };
        if let Some(stop) = found {
            return Ok(Delay {
                train,
                minutes: minutes - 1,
                stop,
            });
        }
    }
    Ok(Delay {
        train,
        minutes: LIMIT,
        stop: Stop::Limit,
    })
}

/// The delay of a train, on timelines that hold all stays.
pub(crate) fn delay_of(
    alloc: Global,
    instance: &Instance,
    blocks: &[Block],
    stays: &[Stay],
    train: ArrId,
    timelines: &mut Timelines,
) -> Result<Delay, AllocError>
    requires ready { AreReadyBlocks instance.now blocks.now }
    requires stays { stays.now ≡ stays_of instance.now blocks.now }
    requires all { AreAll instance.now blocks.now timelines.old }
    ensures delay { IfOk result (λ d. (d.train ≡ train) × IsDelay instance.now blocks.now d) }
    ensures all { AreAll instance.now blocks.now timelines.new }
{
    // The calls tell that the night is well formed, and how the stays of blocks stand.
    instance.station();
    laws::places();
    laws::stays();
    laws::stays_of_blocks();
    let list = stays_of_train(alloc, stays, train)?;
    let own = list.as_slice();
    take(timelines, own);
    let delay = greatest(alloc, instance, blocks, train, own, timelines);
    timelines.clash();
    put(timelines, own, 0);
    delay
}
