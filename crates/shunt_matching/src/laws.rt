//! What follows from the definitions of this crate.
ghost use Rattle.std.specs.Prelude.{◌≡◌, List, ℕ, Bool, length};
ghost use Rattle.shunt_instance.specs.defs.Matching.{Entry, IsMatchingOfRest, RisesByKind};
ghost use Rattle.shunt_matching.specs.declared.types.Shortage.{Shortage};
ghost use Rattle.shunt_matching.specs.defs.Counts.{IsBalanced, AreAlikeBelow, first_fit_of};
ghost use Rattle.shunt_matching.specs.defs.Shortages.{IsFirstShortage};

/// A matching of the rest exists only if the counts allow it. There, where the minutes rise within each type, the
/// k-th units of each type go with its k-th positions.
pub fn matching_by_counts()
    ensures only { (us vs : List Entry) (um vm : List Bool) (place : List ℕ) →
        IsMatchingOfRest us vs um vm place → IsBalanced us vs um vm }
    ensures first_fit { (us vs : List Entry) (um vm : List Bool) →
        RisesByKind us → RisesByKind vs → IsBalanced us vs um vm →
        IsMatchingOfRest us vs um vm (first_fit_of us vs um vm) }
{}

/// There is no first shortage where a matching of the rest exists, and never more than one.
pub fn one_shortage()
    ensures never { (us vs : List Entry) (um vm : List Bool) (s : Shortage)
        → IsFirstShortage us vs um vm s → (place : List ℕ) → IsMatchingOfRest us vs um vm place
        → ⊥ }
    ensures one { (us vs : List Entry) (um vm : List Bool) (s t : Shortage) →
        IsFirstShortage us vs um vm s → IsFirstShortage us vs um vm t → s ≡ t }
{}

/// Masks that leave out the same entries have the same matchings and the same first shortage.
pub fn masks_alike()
    ensures matchings { (us vs : List Entry) (um vm un vn : List Bool) (place : List ℕ) →
        AreAlikeBelow (length us) um un → AreAlikeBelow (length vs) vm vn →
        IsMatchingOfRest us vs um vm place → IsMatchingOfRest us vs un vn place }
    ensures shortages { (us vs : List Entry) (um vm un vn : List Bool) (s : Shortage) →
        AreAlikeBelow (length us) um un → AreAlikeBelow (length vs) vm vn →
        IsFirstShortage us vs um vm s → IsFirstShortage us vs un vn s }
{}
