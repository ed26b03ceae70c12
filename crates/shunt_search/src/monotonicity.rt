// Bounds of either version rise along a path, and are bounds on plans.
ghost use Rattle.std.specs.Prelude.{◌∷◌, ◌++◌, [], ℤ, pos, ◌≤ℤ◌, All, List};
ghost use Rattle.shunt_base.specs.declared.duals.Case.{Case as OneCase};
ghost use Rattle.shunt_instance.specs.defs.Instance.{Night, IsInstance};
ghost use Rattle.shunt_blocks.specs.declared.records.Block.{Block as OneBlock};
ghost use Rattle.shunt_blocks.specs.defs.Shapes.{shape_of, IsWithinTrains};
ghost use Rattle.shunt_blocks.specs.defs.Lists.{ShareNothing, RunsThrough, IsFeasible, placed};
ghost use Rattle.shunt_blocks.specs.defs.Lists.{total_cost};
ghost use Rattle.shunt_blocks.specs.defs.Pins.{Keeps};
ghost use Rattle.shunt_choices.specs.defs.Paths.{masks_of};
ghost use Rattle.shunt_prices.specs.defs.Limits.{AreCases};
ghost use Rattle.shunt_prices.specs.defs.Cases.{IsFreeBlock};
ghost use Rattle.shunt_proof.specs.declared.records.Version.{Version};
ghost use Rattle.shunt_proof.specs.defs.Versions.{HoldIn, IsBoundIn, IsStepBoundIn};

use shunt_prices::laws::{bounds, longer_paths};
use shunt_proof::version_laws::bounds_by_version;

/// Cases that hold at a path hold with a block more. Its bound by them is at least the path's, and that of the longer path at least its
/// own. Each feasible plan that keeps the path costs at least the path's bound.
pub(crate) fn bounds_rise_in_versions()
    ensures hold { (version : Version) (night : Night) (path : List OneBlock) (b : OneBlock)
        (cases : List OneCase) → HoldIn version night path cases
        → HoldIn version night (path ++ b ∷ []) cases }
    ensures step { (version : Version) (night : Night) (path : List OneBlock) (b : OneBlock)
        (cases : List OneCase) (before after : ℤ) → IsInstance night
        → All (IsWithinTrains night) path → ShareNothing night path → IsFreeBlock night
        (masks_of night path) (shape_of b) b.park → RunsThrough night (placed (path ++ b ∷ []))
        → HoldIn version night path cases → IsBoundIn version night path cases before
        → IsStepBoundIn version night path (path ++ b ∷ []) cases after → before ≤ℤ after }
    ensures longer { (version : Version) (night : Night) (path : List OneBlock) (b : OneBlock)
        (cases : List OneCase) (before after : ℤ) → IsInstance night
        → All (IsWithinTrains night) path → ShareNothing night path
        → IsFreeBlock night (masks_of night path) (shape_of b) b.park
        → IsStepBoundIn version night path (path ++ b ∷ []) cases before
        → IsBoundIn version night (path ++ b ∷ []) cases after → before ≤ℤ after }
    ensures plans { (version : Version) (night : Night) (plan path : List OneBlock)
        (cases : List OneCase) (bound : ℤ) → IsInstance night → IsFeasible night plan
        → ShareNothing night path → Keeps plan path → AreCases night cases
        → HoldIn version night path cases → IsBoundIn version night path cases bound
        → bound ≤ℤ pos (total_cost night plan) }
{
    longer_paths();
    bounds();
    shunt_prices::laws::bounds_rise();
    shunt_prices::laws::weak_duality();
    shunt_stacks::laws::bounds_rise();
    shunt_stacks::laws::weak_duality();
    bounds_by_version();
}
