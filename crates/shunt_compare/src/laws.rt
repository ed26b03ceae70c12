//! What follows from the definitions of this crate.
ghost use Rattle.std.specs.Prelude.{◌≡◌, ◌↔◌, [], List};
ghost use Rattle.shunt_instance.specs.defs.Instance.{Night, IsInstance};
ghost use Rattle.shunt_blocks.specs.declared.records.Block.{Block};
ghost use Rattle.shunt_blocks.specs.defs.Lists.{IsFeasible};
ghost use Rattle.shunt_blocks.specs.defs.Pins.{Keeps};
ghost use Rattle.shunt_compare.specs.declared.records.Comparison.{Comparison};
ghost use Rattle.shunt_compare.specs.defs.Changes.{IsComparison};

use shunt_blocks::laws::places;

/// Another feasible plan does nothing otherwise exactly when each of the two keeps the other's blocks, whatever their ids.
pub fn same_plans()
    ensures { (night : Night) (was now : List Block) (c : Comparison) → IsInstance night
        → IsFeasible night was → IsFeasible night now → IsComparison night was now c
        → ((c.changes ≡ []) × (c.regrouped ≡ [])) ↔ (Keeps was now × Keeps now was) }
{
    places();
}
