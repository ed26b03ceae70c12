//! What follows from the definitions of this crate.
ghost use Rattle.std.specs.Prelude.{◌≡◌, ◌↔◌, ◌<◌, ◌^◌, List, [], ℕ, ℤ, Some, Ok, true, length};
ghost use Rattle.std.specs.Prelude.{map};
ghost use Rattle.std.specs.Fmt.{decimal, signed_decimal};
ghost use Rattle.shunt_base.specs.declared.ids.Side.{Side};
ghost use Rattle.shunt_base.specs.defs.Spelling.{IsName, IsSigned, is_name_text, decimal_of};
ghost use Rattle.shunt_base.specs.defs.Spelling.{signed_of, minute_of, minute_text};
ghost use Rattle.shunt_rows.specs.defs.Fields.{side_of};
ghost use Rattle.shunt_rows.specs.defs.Written.{side_text};
ghost use Rattle.shunt_rows.specs.defs.Checks.{Judged, Says, answer};
ghost use Rattle.shunt_rows.specs.defs.Formats.{Format, GoesOn, IsReadByEach, reads};
ghost use Rattle.shunt_rows.specs.defs.FirstFault.{IsInOrder, Tells};
ghost use Rattle.shunt_rows.specs.defs.Records.{ArePlain, IsPlainField, IsPlainRow, records_of};
ghost use Rattle.shunt_rows.specs.defs.Records.{text_of_row, text_of_rows, width};

/// Plain rows are read back from their text.
#[tactic(auto, using(crate::proofs::Again::again))]
pub fn plain_rows_are_read_back()
    ensures { (rows : List (List (List ℕ))) → ArePlain rows
        → records_of (text_of_rows rows) ≡ rows }
{}

/// Names, numbers of at most 18 digits with or without a sign, minutes and sides are plain fields, and a side's letter is
/// read back.
pub fn spelled_fields_are_plain()
    ensures name { (name : List ℕ) → IsName name → IsPlainField name }
    ensures number { (x : ℕ) → x < 10 ^ 18 → IsPlainField (decimal x) }
    ensures signed { (z : ℤ) → IsSigned z → IsPlainField (signed_decimal z) }
    ensures minute { (m : ℕ) → m < 2880 → IsPlainField (minute_text m) }
    ensures side { (s : Side) → IsPlainField (side_text s) }
    ensures side_again { (s : Side) → side_of (side_text s) ≡ Some s }
{}

/// Names, numbers of at most 18 digits with or without a sign, and minutes are read back from how they are spelled.
pub fn spelled_fields_are_read_back()
    ensures name { (name : List ℕ) → IsName name → is_name_text name ≡ true }
    ensures number { (x : ℕ) → x < 10 ^ 18 → decimal_of (decimal x) ≡ Some x }
    ensures signed { (z : ℤ) → IsSigned z → signed_of (signed_decimal z) ≡ Some z }
    ensures minute { (m : ℕ) → m < 2880 → minute_of (minute_text m) ≡ Some m }
{}

/// The text of a plain row has one byte for each byte of its fields, and one more for each field.
#[tactic(auto, using(crate::proofs::Widths::row_width))]
pub fn plain_rows_have_their_width()
    ensures { (row : List (List ℕ)) → IsPlainRow row → length (text_of_row row) ≡ width row }
{}

/// In every format whose tables are in order, a list of records states a value or has a first fault, and never both,
/// and reading it record by record says which.
pub fn value_or_first_fault<S, V>()
    ensures { (f : Format S V) → IsInOrder f → (rows : List (List (List ℕ))) → Tells f rows }
{}

/// Reading goes on from the state that the records before leave, so that each front of a list of records has a state.
pub fn reading_goes_on<S, V>()
    ensures { (f : Format S V) (s : S) (n : ℕ) (rows more : List (List (List ℕ)))
        → GoesOn f s n rows more }
{}

/// The answer to a record is a value exactly when all its checks hold and the record says that value.
pub fn values_are_said<A>()
    ensures { (n : ℕ) (m : Judged A) (x : A) → (answer n m ≡ Ok x) ↔ Says m x }
{}

/// If each thing of a list is read from its own record, behind those before it, all of them are read from theirs.
pub fn lists_are_read<X, S, V>()
    ensures { (f : Format S V) (row : X → List (List ℕ)) (state : List X → S) (all : List X) (n : ℕ)
        → IsReadByEach f row state all → reads f (state []) n (map row all) ≡ Ok (state all) }
{}
