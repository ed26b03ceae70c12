// The first finding that a late train brings.
ghost use Rattle.std.specs.Prelude.{◌≡◌, ◌≤◌, ◌<◌, Some, IsTrue, length, filter, slice_index, IfOk};
ghost use Rattle.shunt_lists.specs.defs.Members.{In};
ghost use Rattle.shunt_base.specs.defs.Keys.{AreStays};
ghost use Rattle.shunt_stays.specs.defs.Run.{AreOnTracks};
ghost use Rattle.shunt_blocks.specs.defs.Lists.{track_lengths};
ghost use Rattle.shunt_audit.specs.defs.Listed.{too_soons, crossings_of, crossings, too_longs};
ghost use Rattle.shunt_delay.specs.defs.Late.{late};
ghost use Rattle.shunt_delay.specs.defs.Delays.{is_of_delay, delay_findings, first, told};
ghost use Rattle.shunt_delay.specs.defs.Kept.{Stops, AreReadyBlocks, of_train, AreOthersApart};
ghost use Rattle.shunt_delay.specs.defs.Kept.{too_longs_of};

use crate::late::{becomes_too_soon, late_stays, stays_of_train};
use crate::records::Stop;
use shunt_audit::types::Finding;
use shunt_base::{ArrId, Stay};
use shunt_blocks::{Block, laws};
use shunt_cross::{crosses, load_after};
use shunt_instance::Instance;
use std::alloc::{AllocError, Global};

/// The first block that is too soon where a train is late.
fn first_too_soon(
    instance: &Instance,
    blocks: &[Block],
    train: ArrId,
    minutes: u16,
) -> Option<Finding>
    requires ready { AreReadyBlocks instance.now blocks.now }
    requires few { minutes ≤ 120 }
    ensures { result ≡ first (too_soons (late train.0 minutes instance.now) blocks.now) }
{
    for block in blocks {
        if becomes_too_soon(instance, block, train, minutes) {
            return Some(Finding::TooSoon(block.id));
        }
    }
    None
}

/// The first stay that crosses this one by entering after it.
fn first_crossing_of(stays: &[Stay], earlier: &Stay) -> Option<Finding>
    ensures { result ≡ first (crossings_of stays.now earlier.now) }
{
    for later in stays {
        if crosses(earlier, later) {
            return Some(Finding::Crossing(earlier.id, later.id));
        }
    }
    None
}

/// The same where no two of the others cross: a stay of another train is met by those of the late train alone.
fn first_crossing_at(stays: &[Stay], own: &[Stay], train: ArrId, earlier: &Stay) -> Option<Finding>
    requires own { own.now ≡ filter (of_train train.0) stays.now }
    requires apart { AreOthersApart train.0 stays.now }
    requires there { In earlier.now stays.now }
    ensures { result ≡ first (crossings_of stays.now earlier.now) }
{
    if earlier.enter.train == train.0 {
        return first_crossing_of(stays, earlier);
    }
    first_crossing_of(own, earlier)
}

/// The first pair that crosses, where no two stays of other trains than the late one do.
fn first_crossing(stays: &[Stay], own: &[Stay], train: ArrId) -> Option<Finding>
    requires own { own.now ≡ filter (of_train train.0) stays.now }
    requires apart { AreOthersApart train.0 stays.now }
    ensures { result ≡ first (crossings stays.now) }
{
    for earlier in stays {
        let found = first_crossing_at(stays, own, train, earlier);
        if found.is_some() {
            return found;
        }
    }
    None
}

/// The length of a stay's track in dm.
fn track_length(instance: &Instance, stay: &Stay) -> u64
    requires { stay.now.track.0 < length (track_lengths instance.now.station) }
    ensures { result ≡ slice_index (track_lengths instance.now.station) stay.now.track.0 }
{
    u64::from(instance.station().tracks.as_slice()[usize::from(stay.track.0)].length)
}

/// The first entry that leaves more than its track's length, where only these may.
fn first_too_long(instance: &Instance, stays: &[Stay], own: &[Stay]) -> Option<Finding>
    requires stays { AreStays stays.now }
    requires few { length stays.now ≤ 65536 }
    requires tracks { AreOnTracks (track_lengths instance.now.station) own.now }
    requires alone { too_longs_of (track_lengths instance.now.station) stays.now own.now
        ≡ too_longs (track_lengths instance.now.station) stays.now }
    ensures { result ≡ first (too_longs (track_lengths instance.now.station) stays.now) }
{
    for stay in own {
        let load = load_after(stays, stay);
        if load > track_length(instance, stay) {
            return Some(Finding::TooLong(stay.id, load));
        }
    }
    None
}

/// The first finding that a late train brings.
fn first_finding(
    alloc: Global,
    instance: &Instance,
    blocks: &[Block],
    train: ArrId,
    minutes: u16,
) -> Result<Option<Finding>, AllocError>
    requires ready { AreReadyBlocks instance.now blocks.now }
    requires few { minutes ≤ 120 }
    ensures { IfOk result
        (λ o. o ≡ first (delay_findings (late train.0 minutes instance.now) blocks.now)) }
{
    // The calls tell that the night is well formed, and which units and stays blocks have.
    instance.station();
    laws::places();
    laws::stays();
    laws::stays_of_blocks();
    let soon = first_too_soon(instance, blocks, train, minutes);
    if soon.is_some() {
        return Ok(soon);
    }
    let late = late_stays(alloc, instance, blocks, train, minutes)?;
    let stays = late.as_slice();
    let list = stays_of_train(alloc, stays, train)?;
    let own = list.as_slice();
    let crossing = first_crossing(stays, own, train);
    if crossing.is_some() {
        return Ok(crossing);
    }
    Ok(first_too_long(instance, stays, own))
}

/// The stop that tells a finding.
fn stop_of(finding: Finding) -> Stop
    requires { IsTrue (is_of_delay finding) }
    ensures { told result ≡ Some finding }
{
    match finding {
        Finding::TooSoon(id) => Stop::TooSoon { id },
        Finding::Crossing(first, second) => Stop::Crossing { first, second },
        Finding::TooLong(id, load) => Stop::TooLong { id, load },
        _ => unreachable!(),
    }
}

/// What stops a train from being so late: nothing exactly when the plan stays feasible.
pub(crate) fn first_stop(
    alloc: Global,
    instance: &Instance,
    blocks: &[Block],
    train: ArrId,
    minutes: u16,
) -> Result<Option<Stop>, AllocError>
    requires ready { AreReadyBlocks instance.now blocks.now }
    requires few { minutes ≤ 120 }
    ensures { IfOk result (λ o. Stops (late train.0 minutes instance.now) blocks.now o) }
{
    // The calls tell that the night is well formed, and which units and stays blocks have.
    instance.station();
    laws::places();
    laws::stays();
    laws::stays_of_blocks();
    match first_finding(alloc, instance, blocks, train, minutes)? {
        Some(finding) => Ok(Some(stop_of(finding))),
        None => Ok(None),
    }
}
