// How a finding is added.
ghost use Rattle.std.specs.Prelude.{◌≡◌, ◌++◌, OnOk};
ghost use Rattle.shunt_audit.specs.defs.Listed.{noted};

use crate::types::Finding;
use std::alloc::AllocError;

/// Adds the finding where the test says so.
pub(crate) fn note(
    findings: &mut Vec<Finding>,
    holds: bool,
    finding: Finding,
) -> Result<(), AllocError>
    ensures { OnOk result (findings.new.items ≡ findings.old.items ++ noted holds finding) }
{
    if holds {
        findings.push(finding)?;
    }
    Ok(())
}
