// The answer of `zones`.
ghost use Rattle.std.specs.Prelude.{◌≡◌, IfOk};
ghost use Rattle.shunt_plan.specs.defs.Plans.{IsPlanInRange};
ghost use Rattle.shunt_zones.specs.defs.ZonesFormat.{IsZones};
ghost use Rattle.shunt_throat.specs.defs.Passed.{IsPassed, meets_outcome};
ghost use Rattle.shunt_inputs.specs.defs.Replies.{reply_of};

use shunt_inputs::{Answer, Outcome, PlanFiles, Question, Then, ZonesFile};
use shunt_instance::Instance;
use shunt_plan::Plan;
use shunt_report::laws::meets as meets_are_told;
use shunt_report::zones_text;
use shunt_zones::{Meet, Zones, loads, meets};
use std::alloc::{AllocError, Global};

// How the moves of a plan end that meet so.
fn outcome_of_meets(meets: &[Meet]) -> Outcome
    ensures { result ≡ meets_outcome meets.now }
{
    if meets.is_empty() {
        Outcome::Done
    } else {
        Outcome::Findings
    }
}

// Which moves of a plan meet in a zone, and how many pass each.
fn zones_answer(
    alloc: Global,
    instance: &Instance,
    plan: &Plan,
    zones: &Zones,
) -> Result<Answer, AllocError>
    requires plan { IsPlanInRange instance.now plan.now }
    requires zones { IsZones instance.now.station zones.now }
    ensures { IfOk result (λ a. IsPassed
        (record { night = instance.now; plan = plan.now; zones = zones.now }) (reply_of a)) }
{
    // The calls tell that the night is well formed, and that its meets can be told.
    instance.station();
    meets_are_told();
    let met = meets(alloc, instance, zones, plan)?;
    let passed = loads(alloc, instance, zones, plan)?;
    Ok(Answer {
        outcome: outcome_of_meets(&met),
        writes: Vec::new(alloc),
        text: zones_text(alloc, zones, &met, &passed)?,
    })
}

/// The question of `zones`: which moves of a plan meet in a zone of the throat, and how many pass each.
#[derive(Clone, Copy, Drop)]
pub struct ZonesCommand;

impl<'n> Question<Then<PlanFiles<'n>, ZonesFile<'n>>> for ZonesCommand {
    ghost answers = { λ _ x. IsPassed (record { night = x.0.0; plan = x.0.1; zones = x.1 }) };

    fn answer(&self, alloc: Global, value: ((Instance, Plan), Zones)) -> Result<Answer, AllocError>
        requires plan { IsPlanInRange value.0.0 value.0.1 }
        requires zones { IsZones value.0.0.station value.1 }
        ensures { IfOk result (λ a. IsPassed
            (record { night = value.0.0; plan = value.0.1; zones = value.1 }) (reply_of a)) }
    {
        let ((instance, plan), zones) = value;
        zones_answer(alloc, &instance, &plan, &zones)
    }
}
