// All findings of a plan.
ghost use Rattle.std.specs.Prelude.{◌≡◌, ◌↔◌, [], All, IfOk};
ghost use Rattle.shunt_blocks.specs.defs.Lists.{IsFeasible, total_cost};
ghost use Rattle.shunt_plan.specs.defs.Plans.{IsPlanInRange};
ghost use Rattle.shunt_audit.specs.defs.Findings.{IsOfNight};
ghost use Rattle.shunt_audit.specs.defs.Plans.{ArePlanFindings, plan_findings};

use crate::findings::findings_of;
use crate::notes::note;
use crate::types::{Audit, Finding};
use shunt_instance::Instance;
use shunt_lists::Items;
use shunt_plan::{Plan, plan_cost};
use std::alloc::{AllocError, Global};

/// What is wrong with a plan in range, and what it really costs: exactly the findings of its blocks, and then `StatedCost`
/// where it states another cost. There are none exactly when the plan is feasible and states its cost.
#[tactic(auto, unfolding(crate::specs::defs::Plans::plan_findings))]
pub fn audit(alloc: Global, instance: &Instance, plan: &Plan) -> Result<Audit, AllocError>
    requires { IsPlanInRange instance.now plan.now }
    ensures findings { IfOk result (λ a. a.findings ≡ plan_findings instance.now plan.now) }
    ensures told { IfOk result (λ a. ArePlanFindings instance.now plan.now a.findings) }
    ensures of_night { IfOk result (λ a. All (IsOfNight instance.now) a.findings) }
    ensures cost { IfOk result (λ a. a.cost ≡ total_cost instance.now plan.now.blocks) }
    ensures none { IfOk result (λ a. (a.findings ≡ []) ↔ IsFeasible instance.now plan.now.blocks
        × (plan.now.cost ≡ total_cost instance.now plan.now.blocks)) }
{
    let cost = plan_cost(instance, plan);
    let mut findings = findings_of(alloc, instance, plan.blocks.as_slice())?;
    let is_misstated = plan.cost != cost;
    note(
        &mut findings,
        is_misstated,
        Finding::StatedCost(plan.cost, cost),
    )?;
    Ok(Audit {
        findings: Items::from_vec(findings),
        cost,
    })
}
