// The verdict on a certificate.
ghost use Rattle.std.specs.Prelude.{◌≡◌, ◌≢◌, ◌≤◌, ◌↔◌, ℕ, pos, IfOk, IfSome, IfNone, List, []};
ghost use Rattle.shunt_blocks.specs.declared.records.Block.{Block as ABlock};
ghost use Rattle.shunt_blocks.specs.defs.Lists.{IsFeasible, total_cost};
ghost use Rattle.shunt_blocks.specs.defs.Pins.{AreUsable, Keeps};
ghost use Rattle.shunt_plan.specs.defs.Plans.{IsPlanInRange};
ghost use Rattle.shunt_proof.specs.defs.Certificates.{IsCertificate};
ghost use Rattle.shunt_proof.specs.defs.Accepted.{IsAccepted};
ghost use Rattle.shunt_checker.specs.declared.verdict.Reason.TheVariants as reason;
ghost use Rattle.shunt_checker.specs.declared.verdict.Verdict.TheVariants as verdict;
ghost use Rattle.shunt_checker.specs.defs.Verdicts.{IsVerdict, Accepts};

use crate::laws::reasons;
use crate::plan_faults::plan_fault;
use crate::rows::row_of;
use crate::verdict::{Reason, Verdict};
use crate::walk::first_fault;
use shunt_blocks::Block;
use shunt_choices::Path;
use shunt_instance::Instance;
use shunt_plan::{Plan, plan_cost};
use shunt_proof::Certificate;
use shunt_proof::laws::starts;
use std::alloc::{AllocError, Global};

/// Whether a certificate proves its bound with a plan that keeps the pins. Accepted exactly when it does, with that bound: then each
/// feasible plan that keeps the pins costs at least the bound. Else rejected with the first reason: the plan is looked at first, then
/// each node in its turn, then the last record. The only error is want of memory.
pub fn check_pinned(
    alloc: Global,
    instance: &Instance,
    pins: &[Block],
    plan: &Plan,
    certificate: &Certificate,
) -> Result<Verdict, AllocError>
    requires pins { AreUsable instance.now pins.now }
    requires keeps { Keeps plan.now.blocks pins.now }
    requires plan { IsPlanInRange instance.now plan.now }
    requires certificate { IsCertificate instance.now certificate.now }
    ensures verdict { IfOk result (IsVerdict instance.now pins.now plan.now certificate.now) }
    ensures accepted { IfOk result (λ v. Accepts v
        ↔ IsAccepted instance.now pins.now plan.now.blocks plan.now.cost certificate.now) }
    ensures bound { IfOk result (λ v. (bound : ℕ) (other : List ABlock) → v ≡ verdict.Accepted bound
        → IsFeasible instance.now other → Keeps other pins.now
        → bound ≤ total_cost instance.now other) }
{
    // The night is well formed.
    instance.units();
    reasons();
    judged(alloc, instance, pins, plan, certificate)
}

/// Whether a certificate proves its bound with a plan: `check_pinned` with no pins. If it is accepted, each feasible plan costs at
/// least the bound that the verdict names. The only error is want of memory.
pub fn check(
    alloc: Global,
    instance: &Instance,
    plan: &Plan,
    certificate: &Certificate,
) -> Result<Verdict, AllocError>
    requires plan { IsPlanInRange instance.now plan.now }
    requires certificate { IsCertificate instance.now certificate.now }
    ensures verdict { IfOk result (IsVerdict instance.now [] plan.now certificate.now) }
    ensures accepted { IfOk result (λ v. Accepts v
        ↔ IsAccepted instance.now [] plan.now.blocks plan.now.cost certificate.now) }
    ensures bound { IfOk result (λ v. (bound : ℕ) (other : List ABlock) → v ≡ verdict.Accepted bound
        → IsFeasible instance.now other → bound ≤ total_cost instance.now other) }
{
    check_pinned(alloc, instance, &[], plan, certificate)
}

/// What is told of the certificate's cost where it isn't the plan's.
fn cost_reason(stated: u64, cost: u64) -> Option<Reason>
    requires stated { stated ≤ 1000000000000 }
    requires cost { cost ≤ 1600000000 }
    ensures some { IfSome result
        (λ r. (stated ≢ cost) × (r ≡ reason.CostStated (pos stated) (pos cost))) }
    ensures none { IfNone result (stated ≡ cost) }
{
    if stated == cost {
        return None;
    }
    Some(Reason::CostStated {
        stated: stated as i64,
        cost: cost as i64,
    })
}

/// The verdict, of which the laws tell the rest.
fn judged(
    alloc: Global,
    instance: &Instance,
    pins: &[Block],
    plan: &Plan,
    certificate: &Certificate,
) -> Result<Verdict, AllocError>
    requires pins { AreUsable instance.now pins.now }
    requires plan { IsPlanInRange instance.now plan.now }
    requires certificate { IsCertificate instance.now certificate.now }
    ensures { IfOk result (IsVerdict instance.now pins.now plan.now certificate.now) }
{
    // The night is well formed, and usable pins are a partial plan.
    instance.units();
    starts();
    let path = Path::start_with(alloc, instance, pins)?;
    let finding = plan_fault(alloc, instance, plan)?;
    if let Some(fault) = finding {
        return Ok(Verdict::Rejected {
            row: 0,
            reason: Reason::PlanFinding(fault),
        });
    }
    let found = first_fault(alloc, instance, certificate, path)?;
    let nodes = certificate.nodes.as_slice();
    if let Some(fault) = found {
        let row = row_of(instance, nodes, fault.node);
        return Ok(Verdict::Rejected {
            row,
            reason: fault.reason,
        });
    }
    let wrong = cost_reason(certificate.cost, plan_cost(instance, plan));
    if let Some(reason) = wrong {
        let end = row_of(instance, nodes, nodes.len());
        return Ok(Verdict::Rejected { row: end, reason });
    }
    Ok(Verdict::Accepted {
        bound: certificate.bound,
    })
}
