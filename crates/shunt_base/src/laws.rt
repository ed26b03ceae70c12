//! What follows from the definitions of this crate.
ghost use Rattle.std.specs.Prelude.{◌≡◌, ◌↔◌, ◌<◌, ◌^◌, ℕ, Some, IsTrue, List};
ghost use Rattle.std.specs.Ordering.{nat_cmp};
ghost use Rattle.std.specs.Fmt.{decimal};
ghost use Rattle.std.specs.Str.Parse.{digits_value};
ghost use Rattle.shunt_base.specs.declared.keys.EventKey.{EventKey};
ghost use Rattle.shunt_base.specs.defs.Keys.{key_cmp, IsBefore, IsKey, rank};
ghost use Rattle.shunt_base.specs.declared.ids.Side.{Side};
ghost use Rattle.shunt_base.specs.defs.Sides.{same_side};
ghost use Rattle.shunt_base.specs.defs.Spelling.{IsName, is_name_text, IsDecimal, minute_text};
ghost use Rattle.shunt_base.specs.defs.Spelling.{minute_of};

/// The order of event keys is total and tells all keys apart: it is that of one number, which differs where keys do.
pub fn key_order()
    ensures by_rank { (k l : EventKey) → IsKey k → IsKey l
        → key_cmp k l ≡ nat_cmp (rank k) (rank l) }
    ensures before { (k l : EventKey) → IsKey k → IsKey l → IsBefore k l ↔ (rank k < rank l) }
    ensures exact { (k l : EventKey) → IsKey k → IsKey l → rank k ≡ rank l → k ≡ l }
{}

/// What is printed of a number of at most 18 digits spells it, and the text of a minute of two days spells that minute.
pub fn spellings_are_read_back()
    ensures decimal { (n : ℕ) → n < 10 ^ 18 → IsDecimal (decimal n) }
    ensures value { (n : ℕ) → n < 10 ^ 18 → digits_value 10 (decimal n) ≡ n }
    ensures minute { (m : ℕ) → m < 2880 → minute_of (minute_text m) ≡ Some m }
{}

/// The tests of names and of sides say what they say.
pub fn tests_tell()
    ensures name { (bytes : List ℕ) → IsTrue (is_name_text bytes) ↔ IsName bytes }
    ensures side { (x y : Side) → IsTrue (same_side x y) ↔ (x ≡ y) }
{}
