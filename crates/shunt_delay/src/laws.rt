//! What follows from the definitions of this crate.
ghost use Rattle.std.specs.Prelude.{◌≡◌, ◌⊎◌, ◌↔◌, ℕ, ◌≤◌, false, IsTrue, List, [], option_map};
ghost use Rattle.std.specs.Prelude.{Some};
ghost use Rattle.shunt_lists.specs.defs.Members.{In};
ghost use Rattle.shunt_instance.specs.defs.Instance.{Night, IsInstance};
ghost use Rattle.shunt_blocks.specs.declared.records.Block.{Block};
ghost use Rattle.shunt_blocks.specs.defs.Shapes.{AreRunsWithin, shape_of};
ghost use Rattle.shunt_blocks.specs.defs.Stays.{is_too_soon, stay_of};
ghost use Rattle.shunt_blocks.specs.defs.Lists.{AreInRange};
ghost use Rattle.shunt_audit.specs.declared.types.Finding.{Finding};
ghost use Rattle.shunt_audit.specs.defs.Findings.{IsFinding, FindingBefore};
ghost use Rattle.shunt_delay.specs.declared.records.Delay.{Delay};
ghost use Rattle.shunt_delay.specs.declared.records.Stop.TheVariants.{Limit};
ghost use Rattle.shunt_delay.specs.defs.Late.{late};
ghost use Rattle.shunt_delay.specs.defs.Delays.{StaysFeasible, is_of_delay, delay_findings, first};
ghost use Rattle.shunt_delay.specs.defs.Delays.{IsDelay, AreDelays};
ghost use Rattle.shunt_delay.specs.defs.Kept.{late_by, is_too_soon_by, later};

use shunt_blocks::laws;

/// What a late train changes of blocks. One of its own is too soon where its departing train leaves before one of its units is
/// ready and that many minutes more, and else its stay begins that many minutes later, all else of it unchanged. A block of another
/// train stays as it is. If no train is late, the night is the same.
pub fn late_blocks()
    ensures soon { (i d : ℕ) (night : Night) (b : Block) → AreRunsWithin night (shape_of b)
        → is_too_soon (late i d night) (shape_of b)
        ≡ is_too_soon_by night (late_by i d b) (shape_of b) }
    ensures stay { (i d : ℕ) (night : Night) (b : Block) → AreRunsWithin night (shape_of b)
        → is_too_soon (late i d night) (shape_of b) ≡ false
        → stay_of (late i d night) b ≡ option_map (later (late_by i d b)) (stay_of night b) }
    ensures never { (i : ℕ) (night : Night) → late i 0 night ≡ night }
{
    laws::places();
}

/// The findings that a late train brings are those of the three kinds, and there are none exactly when the blocks stay
/// feasible. The first of them comes before all others.
pub fn findings_of_late_trains()
    ensures exactly { (night : Night) (blocks : List Block) (f : Finding) →
        In f (delay_findings night blocks) ↔ IsFinding night blocks f × IsTrue (is_of_delay f) }
    ensures least { (night : Night) (blocks : List Block) (f g : Finding) → AreInRange night blocks
        → first (delay_findings night blocks) ≡ Some f → In g (delay_findings night blocks)
        → (g ≡ f) ⊎ FindingBefore f g }
    ensures none { (i d : ℕ) (night : Night) (blocks : List Block) → IsInstance night
        → AreInRange night blocks → d ≤ 120 → (delay_findings (late i d night) blocks ≡ [])
        ↔ StaysFeasible (late i d night) blocks }
{
    laws::places();
    laws::stays();
    laws::stays_of_blocks();
}

/// The delays of a plan are one list. A train is stopped by the limit exactly when its delay is 120 minutes.
pub fn delays_are_one()
    ensures one { (night : Night) (blocks : List Block) (delays others : List Delay) →
        AreDelays night blocks delays → AreDelays night blocks others → delays ≡ others }
    ensures limit { (night : Night) (blocks : List Block) (delay : Delay) → IsInstance night
        → AreInRange night blocks → IsDelay night blocks delay → (delay.stop ≡ Limit)
        ↔ (delay.minutes ≡ 120) }
{
    laws::places();
    laws::stays();
    laws::stays_of_blocks();
}
