//! What follows from the definitions of this crate.
ghost use Rattle.std.specs.Prelude.{◌≡◌, ◌↔◌, ℕ, ◌≤◌, List};
ghost use Rattle.shunt_instance.specs.defs.Instance.{Night, IsInstance};
ghost use Rattle.shunt_blocks.specs.declared.records.Block.{Block};
ghost use Rattle.shunt_blocks.specs.defs.Lists.{IsFeasible, total_cost};
ghost use Rattle.shunt_blocks.specs.defs.Pins.{AreUsable, Keeps};
ghost use Rattle.shunt_plan.specs.declared.records.Plan.{Plan};
ghost use Rattle.shunt_plan.specs.defs.Plans.{IsPlanInRange};
ghost use Rattle.shunt_proof.specs.declared.records.Version.TheVariants.{Stacks};
ghost use Rattle.shunt_proof.specs.declared.records.Certificate.{Certificate};
ghost use Rattle.shunt_proof.specs.defs.Certificates.{IsCertificate};
ghost use Rattle.shunt_proof.specs.defs.Trees.{IsStart};
ghost use Rattle.shunt_proof.specs.defs.Accepted.{IsAccepted};
ghost use Rattle.shunt_checker.specs.declared.verdict.Verdict.{Verdict};
ghost use Rattle.shunt_checker.specs.declared.verdict.Verdict.TheVariants as verdict;
ghost use Rattle.shunt_checker.specs.defs.Verdicts.{IsSoundVerdict, IsVerdict, Accepts};

use shunt_blocks::laws::places;
use shunt_prices::laws::bounds;
use shunt_proof::laws::{few_nodes, parents, starts};
use shunt_proof::version_laws::{bounds_by_version, proved_by_version, trees_by_version};

/// Nothing is wrong with a plan and a certificate exactly when the certificate is accepted with the plan, in its own version; with
/// stacks the pins are to be usable. So the verdict is that it is accepted exactly when it is; and there is one verdict. If it is accepted, each feasible plan that keeps the pins costs at
/// least the bound that the verdict names.
pub fn reasons()
    ensures none { (night : Night) (pins start : List Block) (plan : Plan) (c : Certificate)
        → IsInstance night → IsPlanInRange night plan → Keeps plan.blocks pins
        → IsCertificate night c → (c.version ≡ Stacks → AreUsable night pins)
        → IsStart night pins start → IsSoundVerdict night start plan c
        ↔ IsAccepted night pins plan.blocks plan.cost c }
    ensures verdict { (night : Night) (pins : List Block) (plan : Plan) (c : Certificate)
        (v : Verdict) → IsInstance night → IsPlanInRange night plan → Keeps plan.blocks pins
        → IsCertificate night c → (c.version ≡ Stacks → AreUsable night pins)
        → IsVerdict night pins plan c v → Accepts v
        ↔ IsAccepted night pins plan.blocks plan.cost c }
    ensures one { (night : Night) (pins : List Block) (plan : Plan) (c : Certificate)
        (v other : Verdict) → IsVerdict night pins plan c v → IsVerdict night pins plan c other
        → v ≡ other }
    ensures bound { (night : Night) (pins : List Block) (plan : Plan) (c : Certificate) (bound : ℕ)
        (other : List Block) → IsInstance night → IsPlanInRange night plan → Keeps plan.blocks pins
        → IsCertificate night c → AreUsable night pins
        → IsVerdict night pins plan c (verdict.Accepted bound) → IsFeasible night other
        → Keeps other pins → bound ≤ total_cost night other }
{
    places();
    bounds();
    parents();
    bounds_by_version();
    trees_by_version();
    starts();
    few_nodes();
    proved_by_version();
}
