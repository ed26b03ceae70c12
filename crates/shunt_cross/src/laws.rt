//! What follows from the contracts of this crate and of the run.
ghost use Rattle.std.specs.Prelude.{◌≡◌, ◌↔◌, ℕ, List};
ghost use Rattle.shunt_base.specs.declared.keys.Stay.{Stay};
ghost use Rattle.shunt_base.specs.defs.Keys.{AreStays};
ghost use Rattle.shunt_stays.specs.defs.Run.{AreOnTracks, run_of};
ghost use Rattle.shunt_tracks.specs.defs.Answer.{answer};
ghost use Rattle.shunt_tracks.specs.declared.run.Ran.{Ran};
ghost use Rattle.shunt_cross.specs.declared.clash.Clash.{Clash};
ghost use Rattle.shunt_cross.specs.defs.Clashes.{clash_of, no_clash, IsThrough};

/// `clashes` is 0 and 0 exactly when `run_lists` answers `Through`.
pub fn clash_law_in_code()
    ensures { (lengths : List ℕ) (stays : List Stay) (clash : Clash) (ran : Ran) → AreStays stays
        → AreOnTracks lengths stays → clash ≡ clash_of lengths stays
        → ran ≡ answer (run_of lengths stays) → (clash ≡ no_clash) ↔ IsThrough ran }
{}
