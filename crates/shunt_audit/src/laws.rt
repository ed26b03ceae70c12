//! What follows from the definitions of this crate.
ghost use Rattle.std.specs.Prelude.{◌≡◌, ◌↔◌, List, [], IsPermutation};
ghost use Rattle.shunt_lists.specs.defs.Members.{In};
ghost use Rattle.shunt_instance.specs.defs.Instance.{Night, IsInstance};
ghost use Rattle.shunt_blocks.specs.declared.records.Block.{Block};
ghost use Rattle.shunt_blocks.specs.defs.Lists.{AreInRange, IsFeasible, total_cost};
ghost use Rattle.shunt_blocks.specs.defs.Pins.{AreUsable};
ghost use Rattle.shunt_blocks.specs.defs.v1.{IsPlain};
ghost use Rattle.shunt_plan.specs.declared.records.Plan.{Plan};
ghost use Rattle.shunt_audit.specs.declared.types.Finding.{Finding};
ghost use Rattle.shunt_audit.specs.defs.Findings.{IsFinding, AreSorted};
ghost use Rattle.shunt_audit.specs.defs.v1.{IsFinding as IsFirstFinding};
ghost use Rattle.shunt_audit.specs.defs.Listed.{findings_in};
ghost use Rattle.shunt_audit.specs.defs.Pins.{pin_findings};
ghost use Rattle.shunt_audit.specs.defs.Plans.{IsPlanFinding, plan_findings};

use shunt_blocks::laws;

/// The list of findings has exactly them, by kind and then by number, and it is the only such list. It doesn't see in which
/// order the blocks stand.
pub fn findings()
    ensures exactly { (night : Night) (blocks : List Block) (f : Finding)
        → In f (findings_in night blocks) ↔ IsFinding night blocks f }
    ensures in_order { (night : Night) (blocks : List Block) → AreInRange night blocks
        → AreSorted (findings_in night blocks) }
    ensures one { (night : Night) (blocks : List Block) (findings : List Finding)
        → AreInRange night blocks → AreSorted findings
        → ((f : Finding) → In f findings ↔ IsFinding night blocks f)
        → findings ≡ findings_in night blocks }
    ensures any_order { (night : Night) (blocks others : List Block) → AreInRange night blocks
        → IsPermutation blocks others → findings_in night others ≡ findings_in night blocks }
{}

/// There is no finding exactly when the blocks are a feasible plan.
pub fn feasible()
    ensures none { (night : Night) (blocks : List Block) → IsInstance night
        → AreInRange night blocks → (findings_in night blocks ≡ []) ↔ IsFeasible night blocks }
{
    laws::blocks();
    laws::stays_of_blocks();
}

/// The same of a plan, which has no finding exactly when it is feasible and states its cost.
pub fn plan_findings()
    ensures exactly { (night : Night) (plan : Plan) (f : Finding) → In f (plan_findings night plan)
        ↔ IsPlanFinding night plan f }
    ensures in_order { (night : Night) (plan : Plan) → AreInRange night plan.blocks
        → AreSorted (plan_findings night plan) }
    ensures one { (night : Night) (plan : Plan) (findings : List Finding)
        → AreInRange night plan.blocks → AreSorted findings
        → ((f : Finding) → In f findings ↔ IsPlanFinding night plan f)
        → findings ≡ plan_findings night plan }
    ensures none { (night : Night) (plan : Plan) → IsInstance night → AreInRange night plan.blocks
        → (plan_findings night plan ≡ [])
        ↔ IsFeasible night plan.blocks × (plan.cost ≡ total_cost night plan.blocks) }
{
    laws::blocks();
    laws::stays_of_blocks();
}

/// Pins are usable exactly when they have no finding but of units and positions that are in none of them.
pub fn pins()
    ensures usable { (night : Night) (pins : List Block) → IsInstance night → AreInRange night pins
        → (pin_findings night pins ≡ []) ↔ AreUsable night pins }
{
    laws::blocks();
    laws::stays_of_blocks();
    laws::places();
}

/// Over a night without standing trains and permits, the findings of blocks in range are exactly those by version 1 of the
/// files.
pub fn upgrade()
    ensures finding { (night : Night) (blocks : List Block) (f : Finding) → IsPlain night
        → AreInRange night blocks → IsFirstFinding night blocks f ↔ IsFinding night blocks f }
    ensures exactly { (night : Night) (blocks : List Block) (f : Finding) → IsPlain night
        → AreInRange night blocks → In f (findings_in night blocks)
        ↔ IsFirstFinding night blocks f }
{
    laws::upgrade();
}
