// What is told of pins that aren't usable.
ghost use Rattle.std.specs.Prelude.{◌≡◌, All, filter, not, IfOk};
ghost use Rattle.shunt_blocks.specs.defs.Lists.{AreInRange};
ghost use Rattle.shunt_audit.specs.defs.Findings.{IsOfNight};
ghost use Rattle.shunt_audit.specs.defs.Pins.{is_bare, pin_findings};
ghost use Rattle.shunt_judging.specs.defs.Pins.{PinFaults};

use shunt_audit::findings_of;
use shunt_audit::laws::pins as usable_pins;
use shunt_audit::types::Finding;
use shunt_blocks::Block;
use shunt_inputs::{Answer, Outcome};
use shunt_instance::Instance;
use shunt_plan::blocks_cost;
use shunt_report::findings_text;
use std::alloc::{AllocError, Global};

// Whether it is a unit or a position that no block has.
fn is_bare(finding: &Finding) -> bool
    ensures { result ≡ is_bare finding.now }
{
    matches!(finding, Finding::UnitBare(_) | Finding::PlaceBare(_))
}

// Leaves all others.
fn drop_bare(findings: &mut Vec<Finding>)
    ensures { findings.new.items ≡ filter (λ f. not (is_bare f)) findings.old.items }
{
    findings.retain(|finding| !is_bare(finding));
}

// The findings of pins, which needn't have all units and positions.
fn findings_of_pins(
    alloc: Global,
    instance: &Instance,
    pins: &[Block],
) -> Result<Vec<Finding>, AllocError>
    requires { AreInRange instance.now pins.now }
    ensures exact { IfOk result (λ v. v.items ≡ pin_findings instance.now pins.now) }
    ensures of_night { IfOk result (λ v. All (IsOfNight instance.now) v.items) }
{
    let mut findings = findings_of(alloc, instance, pins)?;
    drop_bare(&mut findings);
    Ok(findings)
}

/// What is wrong with pins that aren't usable, and what they cost; None exactly when they are usable.
///
/// The pins are in range. The error is want of memory.
pub fn pins_answer(
    alloc: Global,
    instance: &Instance,
    pins: &[Block],
) -> Result<Option<Answer>, AllocError>
    requires { AreInRange instance.now pins.now }
    ensures { IfOk result (PinFaults instance.now pins.now) }
{
    // The calls tell that the night is well formed, and which pins are usable.
    instance.station();
    usable_pins();
    let findings = findings_of_pins(alloc, instance, pins)?;
    if findings.is_empty() {
        return Ok(None);
    }
    let cost = blocks_cost(instance, pins);
    Ok(Some(Answer {
        outcome: Outcome::Findings,
        writes: Vec::new(alloc),
        text: findings_text(alloc, instance, &findings, cost)?,
    }))
}
