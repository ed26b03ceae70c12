// The costs of plans are at least what a bound at the root of a walk is.
ghost use Rattle.std.specs.Prelude.{ℤ, pos, ◌≤ℤ◌, List};
ghost use Rattle.shunt_base.specs.declared.duals.Case.{Case as OneCase};
ghost use Rattle.shunt_instance.specs.defs.Instance.{Night, IsInstance};
ghost use Rattle.shunt_blocks.specs.declared.records.Block.{Block as OneBlock};
ghost use Rattle.shunt_blocks.specs.defs.Lists.{IsFeasible, total_cost};
ghost use Rattle.shunt_blocks.specs.defs.Pins.{AreUsable, Keeps};
ghost use Rattle.shunt_prices.specs.defs.Limits.{AreCases};
ghost use Rattle.shunt_proof.specs.declared.records.Version.{Version};
ghost use Rattle.shunt_proof.specs.defs.Trees.{IsStart};
ghost use Rattle.shunt_proof.specs.defs.Versions.{HoldIn, ReachesIn};

use crate::monotonicity::bounds_rise_in_versions;
use shunt_proof::laws::starts;

/// If cases bound the pins' path by this or more, so much is what a plan costs that keeps the pins.
pub(crate) fn floors()
    ensures { (version : Version) (night : Night) (pins start : List OneBlock)
        (cases : List OneCase) (floor : ℤ) (plan : List OneBlock) → IsInstance night
        → AreUsable night pins → IsStart night pins start → AreCases night cases
        → HoldIn version night start cases → ReachesIn version night start cases floor
        → IsFeasible night plan → Keeps plan pins → floor ≤ℤ pos (total_cost night plan) }
{
    starts();
    bounds_rise_in_versions();
}
