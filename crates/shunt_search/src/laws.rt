//! What follows from the definitions of this crate.
ghost use Rattle.std.specs.Prelude.{◌≡◌, ℕ, ◌<◌, List, length};
ghost use Rattle.shunt_instance.specs.defs.Instance.{Night, IsInstance};
ghost use Rattle.shunt_blocks.specs.declared.records.Block.{Block};
ghost use Rattle.shunt_blocks.specs.defs.Lists.{IsFeasible, units_taken, positions_taken};
ghost use Rattle.shunt_blocks.specs.defs.Pins.{AreUsable, Keeps};
ghost use Rattle.shunt_choices.specs.defs.Choices.{partial_plans};
ghost use Rattle.shunt_matching.specs.declared.types.Shortage.{Shortage};
ghost use Rattle.shunt_matching.specs.defs.Nights.{HasMatching, IsShortageOf};
ghost use Rattle.shunt_proof.specs.declared.records.Certificate.{Certificate};
ghost use Rattle.shunt_proof.specs.defs.Nodes.{AreNodes};
ghost use Rattle.shunt_proof.specs.defs.Accepted.{IsAccepted};

use shunt_blocks::laws::places;
use shunt_matching::laws::one_shortage;
use shunt_proof::laws::{few_nodes, proved_bounds};

/// If an accepted certificate has all nodes that were allowed unless its bound is its cost, the bound is the cost wherever
/// more nodes were allowed than there are partial plans.
pub fn all_plans()
    ensures { (night : Night) (pins own : List Block) (stated most : ℕ) (c : Certificate)
        → IsInstance night → AreNodes night c.nodes → AreUsable night pins
        → IsAccepted night pins own stated c → (c.bound < c.cost → length c.nodes ≡ most)
        → partial_plans night pins < most → c.bound ≡ c.cost }
{
    few_nodes();
    proved_bounds();
}

/// If a feasible plan keeps pins, what they leave has a matching, and so no shortage.
pub fn kept_matchings()
    ensures some { (night : Night) (pins blocks : List Block) → IsFeasible night blocks
        → Keeps blocks pins
        → HasMatching night (units_taken night pins) (positions_taken night pins) }
    ensures no_shortage { (night : Night) (pins blocks : List Block) (s : Shortage)
        → IsFeasible night blocks → Keeps blocks pins
        → IsShortageOf night (units_taken night pins) (positions_taken night pins) s → ⊥ }
{
    places();
    one_shortage();
}
