// Stays that cross, and entries after which too much stands on a track.
ghost use Rattle.std.specs.Prelude.{◌≡◌, ◌≤◌, ◌<◌, ◌++◌, length, slice_index, OnOk};
ghost use Rattle.shunt_base.specs.defs.Keys.{AreStays};
ghost use Rattle.shunt_stays.specs.defs.Run.{AreOnTracks};
ghost use Rattle.shunt_blocks.specs.defs.Lists.{track_lengths};
ghost use Rattle.shunt_audit.specs.defs.Listed.{crossings_of, crossings, too_long_at, too_longs};
ghost use Rattle.shunt_audit.specs.defs.Listed.{clash_findings};

use crate::notes::note;
use crate::types::Finding;
use shunt_base::Stay;
use shunt_cross::{crosses, load_after};
use shunt_instance::Instance;
use std::alloc::AllocError;

/// Adds the stays that cross this one by entering after it.
fn add_crossings_of(
    findings: &mut Vec<Finding>,
    stays: &[Stay],
    earlier: &Stay,
) -> Result<(), AllocError>
    ensures { OnOk result
        (findings.new.items ≡ findings.old.items ++ crossings_of stays.now earlier.now) }
{
    for later in stays {
        let is_crossed = crosses(earlier, later);
        note(
            findings,
            is_crossed,
            Finding::Crossing(earlier.id, later.id),
        )?;
    }
    Ok(())
}

fn add_crossings(findings: &mut Vec<Finding>, stays: &[Stay]) -> Result<(), AllocError>
    ensures { OnOk result (findings.new.items ≡ findings.old.items ++ crossings stays.now) }
{
    for earlier in stays {
        add_crossings_of(findings, stays, earlier)?;
    }
    Ok(())
}

/// The length of a stay's track in dm.
fn track_length(instance: &Instance, stay: &Stay) -> u64
    requires { stay.now.track.0 < length (track_lengths instance.now.station) }
    ensures { result ≡ slice_index (track_lengths instance.now.station) stay.now.track.0 }
{
    u64::from(instance.station().tracks.as_slice()[usize::from(stay.track.0)].length)
}

/// Adds the load just after a stay's entry, where it is above its track's length.
fn add_too_long_at(
    findings: &mut Vec<Finding>,
    instance: &Instance,
    stay: &Stay,
    load: u64,
) -> Result<(), AllocError>
    requires { stay.now.track.0 < length (track_lengths instance.now.station) }
    ensures { OnOk result (findings.new.items ≡ findings.old.items
        ++ too_long_at (track_lengths instance.now.station) stay.now load) }
{
    let is_over = load > track_length(instance, stay);
    note(findings, is_over, Finding::TooLong(stay.id, load))
}

fn add_too_longs(
    findings: &mut Vec<Finding>,
    instance: &Instance,
    stays: &[Stay],
) -> Result<(), AllocError>
    requires stays { AreStays stays.now }
    requires tracks { AreOnTracks (track_lengths instance.now.station) stays.now }
    requires few { length stays.now ≤ 65536 }
    ensures { OnOk result (findings.new.items ≡ findings.old.items
        ++ too_longs (track_lengths instance.now.station) stays.now) }
{
    for stay in stays {
        add_too_long_at(findings, instance, stay, load_after(stays, stay))?;
    }
    Ok(())
}

/// Adds the stays that cross, and the entries that leave more than their track's length.
pub(crate) fn add_clashes(
    findings: &mut Vec<Finding>,
    instance: &Instance,
    stays: &[Stay],
) -> Result<(), AllocError>
    requires stays { AreStays stays.now }
    requires tracks { AreOnTracks (track_lengths instance.now.station) stays.now }
    requires few { length stays.now ≤ 65536 }
    ensures { OnOk result (findings.new.items ≡ findings.old.items
        ++ clash_findings (track_lengths instance.now.station) stays.now) }
{
    add_crossings(findings, stays)?;
    add_too_longs(findings, instance, stays)
}
