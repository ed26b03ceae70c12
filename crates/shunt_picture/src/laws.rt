//! What follows from the definitions of this crate.
ghost use Rattle.std.specs.Prelude.{◌≢◌, ℕ, All, List};
ghost use Rattle.shunt_base.specs.defs.Spelling.{IsName};
ghost use Rattle.shunt_instance.specs.defs.Instance.{Night, IsInstance};
ghost use Rattle.shunt_picture.specs.defs.Pictures.{IsWithinHours};

/// A name can't break out of the text: none of its bytes is `<`, `>`, `&`, `"` or `'`.
pub fn names_are_safe()
    ensures { (name : List ℕ) → IsName name
        → All (λ b. (b ≢ 60) × (b ≢ 62) × (b ≢ 38) × (b ≢ 34) × (b ≢ 39)) name }
{}

/// No minute of a train lies outside the hours of the picture, so nothing is cut off at its sides.
pub fn hours_hold_all()
    ensures arrive { (night : Night) → IsInstance night → All (IsWithinHours night) night.arrive }
    ensures depart { (night : Night) → IsInstance night → All (IsWithinHours night) night.depart }
{}
