// What is wrong with blocks one by one.
ghost use Rattle.std.specs.Prelude.{◌≡◌, ◌++◌, All, OnOk};
ghost use Rattle.shunt_blocks.specs.defs.Shapes.{IsInRange, shape_of};
ghost use Rattle.shunt_blocks.specs.defs.Stays.{is_too_soon as too_soon};
ghost use Rattle.shunt_audit.specs.defs.Listed.{lacks_way_in, lacks_way_out, wrong_types};
ghost use Rattle.shunt_audit.specs.defs.Listed.{too_soons, no_ways_in, no_ways_out, block_findings};

use crate::notes::note;
use crate::types::Finding;
use shunt_blocks::{Block, is_too_soon, type_fault, way_in, way_out};
use shunt_instance::Instance;
use std::alloc::AllocError;

fn lacks_way_in(instance: &Instance, block: &Block) -> bool
    requires { IsInRange instance.now block.now }
    ensures { result ≡ lacks_way_in instance.now block.now }
{
    block.park.is_some() && way_in(instance, block).is_none()
}

fn lacks_way_out(instance: &Instance, block: &Block) -> bool
    requires { IsInRange instance.now block.now }
    ensures { result ≡ lacks_way_out instance.now block.now }
{
    block.park.is_some() && way_out(instance, block).is_none()
}

fn add_wrong_types(
    findings: &mut Vec<Finding>,
    instance: &Instance,
    blocks: &[Block],
) -> Result<(), AllocError>
    requires { All (IsInRange instance.now) blocks.now }
    ensures { OnOk result
        (findings.new.items ≡ findings.old.items ++ wrong_types instance.now blocks.now) }
{
    for block in blocks {
        let is_wrong = type_fault(instance, block);
        note(findings, is_wrong, Finding::WrongType(block.id))?;
    }
    Ok(())
}

fn add_too_soons(
    findings: &mut Vec<Finding>,
    instance: &Instance,
    blocks: &[Block],
) -> Result<(), AllocError>
    requires { All (IsInRange instance.now) blocks.now }
    ensures { OnOk result
        (findings.new.items ≡ findings.old.items ++ too_soons instance.now blocks.now) }
{
    for block in blocks {
        let is_soon = is_too_soon(instance, block);
        note(findings, is_soon, Finding::TooSoon(block.id))?;
    }
    Ok(())
}

fn add_no_ways_in(
    findings: &mut Vec<Finding>,
    instance: &Instance,
    blocks: &[Block],
) -> Result<(), AllocError>
    requires { All (IsInRange instance.now) blocks.now }
    ensures { OnOk result
        (findings.new.items ≡ findings.old.items ++ no_ways_in instance.now blocks.now) }
{
    for block in blocks {
        let is_missing = lacks_way_in(instance, block);
        note(findings, is_missing, Finding::NoRouteIn(block.id))?;
    }
    Ok(())
}

fn add_no_ways_out(
    findings: &mut Vec<Finding>,
    instance: &Instance,
    blocks: &[Block],
) -> Result<(), AllocError>
    requires { All (IsInRange instance.now) blocks.now }
    ensures { OnOk result
        (findings.new.items ≡ findings.old.items ++ no_ways_out instance.now blocks.now) }
{
    for block in blocks {
        let is_missing = lacks_way_out(instance, block);
        note(findings, is_missing, Finding::NoRouteOut(block.id))?;
    }
    Ok(())
}

/// Adds what is wrong with each of these blocks by itself.
pub(crate) fn add_faults(
    findings: &mut Vec<Finding>,
    instance: &Instance,
    blocks: &[Block],
) -> Result<(), AllocError>
    requires { All (IsInRange instance.now) blocks.now }
    ensures { OnOk result
        (findings.new.items ≡ findings.old.items ++ block_findings instance.now blocks.now) }
{
    add_wrong_types(findings, instance, blocks)?;
    add_too_soons(findings, instance, blocks)?;
    add_no_ways_in(findings, instance, blocks)?;
    add_no_ways_out(findings, instance, blocks)
}
