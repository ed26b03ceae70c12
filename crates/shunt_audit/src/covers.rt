// Units and positions that no block has, and those that two have.
ghost use Rattle.std.specs.Prelude.{◌≡◌, ◌<◌, ◌≤◌, ◌++◌, ℕ, All, length, OnOk};
ghost use Rattle.shunt_instance.specs.defs.Instance.{unit_total, position_total};
ghost use Rattle.shunt_blocks.specs.defs.Shapes.{IsInRange, shape_of};
ghost use Rattle.shunt_blocks.specs.defs.Lists.{has_unit, has_position, times_unit, times_position};
ghost use Rattle.shunt_audit.specs.defs.Listed.{bare_units, twice_units, bare_places, twice_places};
ghost use Rattle.shunt_audit.specs.defs.Listed.{cover_findings};

use crate::notes::note;
use crate::types::Finding;
use shunt_blocks::{Block, has_position, has_unit};
use shunt_instance::Instance;
use std::alloc::AllocError;

/// How many of these blocks have a unit.
fn times_unit(instance: &Instance, blocks: &[Block], unit: usize) -> usize
    requires { All (IsInRange instance.now) blocks.now }
    ensures { result ≡ times_unit instance.now blocks.now unit }
{
    let mut times = 0;
    for block in blocks {
        if has_unit(instance, block, unit) {
            times += 1;
        }
    }
    times
}

/// How many of these blocks have a position.
fn times_position(instance: &Instance, blocks: &[Block], position: usize) -> usize
    requires { All (IsInRange instance.now) blocks.now }
    ensures { result ≡ times_position instance.now blocks.now position }
{
    let mut times = 0;
    for block in blocks {
        if has_position(instance, block, position) {
            times += 1;
        }
    }
    times
}

fn add_bare_units(
    findings: &mut Vec<Finding>,
    instance: &Instance,
    blocks: &[Block],
) -> Result<(), AllocError>
    requires { All (IsInRange instance.now) blocks.now }
    ensures { OnOk result
        (findings.new.items ≡ findings.old.items ++ bare_units instance.now blocks.now) }
{
    for unit in 0..instance.units() {
        let is_bare = times_unit(instance, blocks, unit) == 0;
        note(findings, is_bare, Finding::UnitBare(unit as u16))?;
    }
    Ok(())
}

fn add_twice_units(
    findings: &mut Vec<Finding>,
    instance: &Instance,
    blocks: &[Block],
) -> Result<(), AllocError>
    requires { All (IsInRange instance.now) blocks.now }
    ensures { OnOk result
        (findings.new.items ≡ findings.old.items ++ twice_units instance.now blocks.now) }
{
    for unit in 0..instance.units() {
        let is_twice = times_unit(instance, blocks, unit) >= 2;
        note(findings, is_twice, Finding::UnitTwice(unit as u16))?;
    }
    Ok(())
}

fn add_bare_places(
    findings: &mut Vec<Finding>,
    instance: &Instance,
    blocks: &[Block],
) -> Result<(), AllocError>
    requires { All (IsInRange instance.now) blocks.now }
    ensures { OnOk result
        (findings.new.items ≡ findings.old.items ++ bare_places instance.now blocks.now) }
{
    for position in 0..instance.positions() {
        let is_bare = times_position(instance, blocks, position) == 0;
        note(findings, is_bare, Finding::PlaceBare(position as u16))?;
    }
    Ok(())
}

fn add_twice_places(
    findings: &mut Vec<Finding>,
    instance: &Instance,
    blocks: &[Block],
) -> Result<(), AllocError>
    requires { All (IsInRange instance.now) blocks.now }
    ensures { OnOk result
        (findings.new.items ≡ findings.old.items ++ twice_places instance.now blocks.now) }
{
    for position in 0..instance.positions() {
        let is_twice = times_position(instance, blocks, position) >= 2;
        note(findings, is_twice, Finding::PlaceTwice(position as u16))?;
    }
    Ok(())
}

/// Adds the units and positions that are in no block or in two.
pub(crate) fn add_covers(
    findings: &mut Vec<Finding>,
    instance: &Instance,
    blocks: &[Block],
) -> Result<(), AllocError>
    requires { All (IsInRange instance.now) blocks.now }
    ensures { OnOk result
        (findings.new.items ≡ findings.old.items ++ cover_findings instance.now blocks.now) }
{
    add_bare_units(findings, instance, blocks)?;
    add_twice_units(findings, instance, blocks)?;
    add_bare_places(findings, instance, blocks)?;
    add_twice_places(findings, instance, blocks)
}
