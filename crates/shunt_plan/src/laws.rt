//! What follows from the definitions of this crate.
ghost use Rattle.std.specs.Prelude.{◌≡◌, ◌≤◌, List, ℕ, Ok, length};
ghost use Rattle.shunt_rows.specs.defs.FirstFault.{Tells};
ghost use Rattle.shunt_instance.specs.defs.Instance.{Night, IsInstance};
ghost use Rattle.shunt_rows.specs.defs.Formats.{reading};
ghost use Rattle.shunt_blocks.specs.declared.records.Block.{Block};
ghost use Rattle.shunt_blocks.specs.defs.Lists.{AreInRange};
ghost use Rattle.shunt_plan.specs.declared.records.Plan.{Plan};
ghost use Rattle.shunt_plan.specs.defs.Plans.{IsPlanInRange};
ghost use Rattle.shunt_plan.specs.defs.PlanFormat.{plan_format};
ghost use Rattle.shunt_rows.specs.defs.Records.{text_of_rows};
ghost use Rattle.shunt_plan.specs.defs.PlanRows.{rows_of, ReadsAsPlan};
ghost use Rattle.shunt_plan.specs.defs.PinsFormat.{pins_format};
ghost use Rattle.shunt_plan.specs.defs.PinsRows.{rows_of_pins, ReadsAsPins};
ghost use Rattle.shunt_plan.specs.declared.edits.Turn.{Turn};
ghost use Rattle.shunt_plan.specs.defs.Edits.{AreTurns, edits_format};
ghost use Rattle.shunt_plan.specs.defs.WrittenEdits.{rows_of_edits, ReadsAsEdits};

/// In each night, records state a plan or have a first fault, and never both, and reading them says which.
pub fn plan_or_first_fault()
    ensures { (night : Night) (rows : List (List (List ℕ))) → Tells (plan_format night) rows }
{}

/// In each night, records state pins or have a first fault, and never both, and reading them says which.
pub fn pins_or_first_fault()
    ensures { (night : Night) (rows : List (List (List ℕ))) → Tells (pins_format night) rows }
{}

/// The plan that records state is in range, and so are pins.
pub fn stated_values_are_in_range()
    ensures plan { (night : Night) (rows : List (List (List ℕ))) (p : Plan)
        → reading (plan_format night) rows ≡ Ok p → IsPlanInRange night p }
    ensures pins { (night : Night) (rows : List (List (List ℕ))) (pins : List Block)
        → reading (pins_format night) rows ≡ Ok pins → AreInRange night pins }
{}

/// The records of a plan in range state that plan, and its text reads back as it and has at most 32,026 bytes.
pub fn texts_of_plans()
    ensures rows { (night : Night) (p : Plan) → IsInstance night → IsPlanInRange night p
        → reading (plan_format night) (rows_of night p) ≡ Ok p }
    ensures again { (night : Night) (p : Plan) → IsInstance night → IsPlanInRange night p
        → ReadsAsPlan night p (text_of_rows (rows_of night p)) }
    ensures short { (night : Night) (p : Plan) → IsInstance night → IsPlanInRange night p
        → length (text_of_rows (rows_of night p)) ≤ 32026 }
{}

/// The records of pins in range state them, and their text reads back as them and has at most 32,007 bytes.
#[tactic(auto, using(crate::proofs::PinsBack::pins_back, crate::proofs::PinsBack::pins_text_back, crate::proofs::PinsBack::pins_short))]
pub fn texts_of_pins()
    ensures rows { (night : Night) (pins : List Block) → IsInstance night → AreInRange night pins
        → reading (pins_format night) (rows_of_pins night pins) ≡ Ok pins }
    ensures again { (night : Night) (pins : List Block) → IsInstance night → AreInRange night pins
        → ReadsAsPins night pins (text_of_rows (rows_of_pins night pins)) }
    ensures short { (night : Night) (pins : List Block) → IsInstance night → AreInRange night pins
        → length (text_of_rows (rows_of_pins night pins)) ≤ 32007 }
{}

/// In each night, records state turns or have a first fault, and never both, and reading them says which.
pub fn edits_or_first_fault()
    ensures { (night : Night) (rows : List (List (List ℕ))) → Tells (edits_format night) rows }
{}

/// The turns that records state have trains and tracks of the night and numbers in range, and are at most 10,000.
pub fn stated_turns_are_in_range()
    ensures { (night : Night) (rows : List (List (List ℕ))) (turns : List Turn)
        → reading (edits_format night) rows ≡ Ok turns → AreTurns night turns }
{}

/// The records of such turns state them, and their text reads back as them and has at most 700,008 bytes.
#[tactic(auto, using(crate::proofs::RoundTrip::edits_again, crate::proofs::RoundTrip::edits_text_back, crate::proofs::Lengths::edits_short))]
pub fn texts_of_turns()
    ensures rows { (night : Night) (turns : List Turn) → IsInstance night → AreTurns night turns
        → reading (edits_format night) (rows_of_edits night turns) ≡ Ok turns }
    ensures again { (night : Night) (turns : List Turn) → IsInstance night → AreTurns night turns
        → ReadsAsEdits night turns (text_of_rows (rows_of_edits night turns)) }
    ensures short { (night : Night) (turns : List Turn) → IsInstance night → AreTurns night turns
        → length (text_of_rows (rows_of_edits night turns)) ≤ 700008 }
{}
