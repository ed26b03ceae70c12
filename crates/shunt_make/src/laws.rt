//! What is true of every made night.
ghost use Rattle.std.specs.Prelude.{◌≡◌, ℕ, ◌≤◌, false, [], length, All};
ghost use Rattle.shunt_instance.specs.defs.Words.{is_standing, unit_count};
ghost use Rattle.shunt_instance.specs.defs.Instance.{night_of};
ghost use Rattle.shunt_instance.specs.defs.Wellformed.{IsStation, IsTimetable};
ghost use Rattle.shunt_matching.specs.defs.Nights.{HasMatching};
ghost use Rattle.shunt_make.specs.defs.Made.{track_count, station_of, train_count, timetable_of};

/// A made station is well formed, and so is a made timetable over it, whatever states they are drawn from; and their night has a
/// matching.
pub fn made_nights()
    ensures station { (x units : ℕ) → units ≤ 160 → IsStation (station_of x units) }
    ensures timetable { (x y units : ℕ) → units ≤ 160
        → IsTimetable (station_of x units) (timetable_of y units) }
    ensures matching { (x y units : ℕ) → units ≤ 160
        → HasMatching (night_of (station_of x units) (timetable_of y units)) [] [] }
{}

/// How many tracks, trains, units and positions there are; no train stands on a track, and there are no permits.
pub fn made_sizes()
    ensures tracks { (x units : ℕ) → length (station_of x units).tracks ≡ track_count units }
    ensures permits { (x units : ℕ) → (station_of x units).permits ≡ [] }
    ensures arriving { (y units : ℕ) → (length (timetable_of y units).arrive ≡ train_count units)
        × (unit_count (timetable_of y units).arrive ≡ units) }
    ensures departing { (y units : ℕ) → (length (timetable_of y units).depart ≡ train_count units)
        × (unit_count (timetable_of y units).depart ≡ units) }
    ensures moving { (y units : ℕ) → units ≤ 160
        → All (λ t. is_standing t ≡ false) (timetable_of y units).arrive }
{}
