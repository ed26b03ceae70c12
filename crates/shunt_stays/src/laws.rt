//! What follows from the definitions of this crate.
ghost use Rattle.std.specs.Prelude.{◌≡◌, ◌≢◌, ◌↔◌, ◌≤◌, ◌<◌, ◌+◌, ℕ, Bool, true, List, Option};
ghost use Rattle.std.specs.Prelude.{Some, None, Ok, Err, IsOk, IfOk, length, map, filter};
ghost use Rattle.std.specs.Prelude.{slice_index, IsPermutation};
ghost use Rattle.std.specs.List.{AllZip};
ghost use Rattle.std.specs.List.Sorted.{IsSorted};
ghost use Rattle.shunt_lists.specs.defs.Members.{In};
ghost use Rattle.shunt_base.specs.declared.ids.Side.{Side};
ghost use Rattle.shunt_base.specs.declared.keys.EventKey.{EventKey};
ghost use Rattle.shunt_base.specs.declared.keys.Stay.{Stay};
ghost use Rattle.shunt_base.specs.defs.Keys.{AreStays, IsWellFormed, IsKey, key_cmp};
ghost use Rattle.shunt_stays.specs.defs.Events.{Move, moves_of, in_order, SameButId};
ghost use Rattle.shunt_stays.specs.defs.Events.{AllDifferBeforeId};
ghost use Rattle.shunt_stays.specs.defs.Run.{Standing, put, without, load, moved, run, run_of};
ghost use Rattle.shunt_stays.specs.defs.Run.{empty_tracks, GoesThrough, AreOnTracks, blocks_on};
ghost use Rattle.shunt_stays.specs.defs.Run.{entries_in, leaves_in, seen};
ghost use Rattle.shunt_stays.specs.defs.Crossings.{Crosses, crosses, load_at, NoneCross, NoneOver};
ghost use Rattle.shunt_stays.specs.defs.Crossings.{pairs_in, overs_in};

/// The events in key order are those of the set of stays, whatever the order of the list.
/// Whoever sorts the stays' moves by their keys has them.
pub fn sorted_events()
    ensures set { (stays others : List Stay) → AreStays stays → AreStays others →
        ((s : Stay) → In s stays ↔ In s others) → in_order stays ≡ in_order others }
    ensures permuted { (stays others : List Stay) → AreStays stays → IsPermutation stays others →
        in_order stays ≡ in_order others }
    ensures sorted { (stays : List Stay) (moves : List Move) → AreStays stays →
        IsPermutation (moves_of stays) moves → IsSorted (λ m n. key_cmp m.key n.key) moves →
        moves ≡ in_order stays }
    ensures stays { (stays others : List Stay) → AreStays stays → IsPermutation stays others
        → AreStays others }
{}

/// A block is taken away at a side exactly when it stands there.
pub fn leaving()
    ensures others { (side : Side) (id : ℕ) (blocks others : List Standing) → without side id blocks
        ≡ Some others ↔ ((b : Standing) × (b.id ≡ id) × (blocks ≡ put side b others)) }
    ensures none { (side : Side) (id : ℕ) (blocks : List Standing) → without side id blocks ≡ None
        ↔ ((b : Standing) (others : List Standing) → b.id ≡ id → blocks ≢ put side b others) }
{}

/// A move keeps the load of its track within the track's length.
pub fn loads_fit()
    ensures { (room : ℕ) (m : Move) (blocks after : List Standing) → load blocks ≤ room →
        moved room m blocks ≡ Ok after → load after ≤ room }
{}

/// How many blocks a run leaves: as many as entered and didn't leave, and none where each stay leaves.
pub fn left_over()
    ensures count { (lengths : List ℕ) (moves : List Move) (tracks : List (List Standing))
        → ((m : Move) → In m moves → m.track.0 < length tracks) → IfOk (run lengths moves tracks)
        (λ t. blocks_on t.tracks + leaves_in moves ≡ blocks_on tracks + entries_in moves) }
    ensures none { (lengths : List ℕ) (stays : List Stay) → AreStays stays
        → AreOnTracks lengths stays
        → IfOk (run_of lengths stays) (λ t. t.tracks ≡ empty_tracks lengths) }
{}

/// The minutes, trains and places of the moves' keys are nothing to a run in the order of a list.
pub fn seen_moves()
    ensures { (lengths : List ℕ) (moves others : List Move) (tracks : List (List Standing))
        → map seen moves ≡ map seen others → IsOk (run lengths moves tracks)
        → IsOk (run lengths others tracks) }
{}

/// If the run of a list of stays goes through, so does the run of each part of it.
pub fn part_of_a_run()
    ensures part { (lengths : List ℕ) (stays part : List Stay) → AreStays stays
        → AreOnTracks lengths stays → AreStays part → ((s : Stay) → In s part → In s stays)
        → GoesThrough lengths stays → GoesThrough lengths part }
    ensures tested { (lengths : List ℕ) (stays : List Stay) (test : Stay → Bool) → AreStays stays
        → AreOnTracks lengths stays → GoesThrough lengths stays
        → GoesThrough lengths (filter test stays) }
    ensures stays { (stays : List Stay) (test : Stay → Bool) → AreStays stays
        → AreStays (filter test stays) }
{}

/// Where keys differ before the id, the run doesn't depend on ids.
///
/// It goes through for each list of stays of which each is one of a list that runs through, but for its id.
pub fn renaming()
    ensures part { (lengths : List ℕ) (stays part : List Stay) → AreStays stays
        → AreOnTracks lengths stays → AreStays part → AllDifferBeforeId part
        → ((s : Stay) → In s part → (t : Stay) × In t stays × SameButId s t)
        → GoesThrough lengths stays → GoesThrough lengths part }
    ensures all { (lengths : List ℕ) (stays others : List Stay) → AreStays stays
        → AreOnTracks lengths stays → AreStays others → AllDifferBeforeId stays
        → AllZip SameButId stays others → GoesThrough lengths stays ↔ GoesThrough lengths others }
{}

/// If the run goes through, the stays that stand on a track at any moment fit it.
pub fn standing_together()
    ensures { (lengths : List ℕ) (stays : List Stay) (track : ℕ) (moment : EventKey) →
        AreStays stays → AreOnTracks lengths stays → IsKey moment → GoesThrough lengths stays →
        load_at stays track moment ≤ slice_index lengths track }
{}

/// A crossing has a first and a second to enter, and its test is exact.
pub fn crossing()
    ensures test { (b c : Stay) → crosses b c ≡ true ↔ Crosses b c }
    ensures never_both { (b c : Stay) → IsWellFormed b → IsWellFormed c → Crosses b c → Crosses c b
        → ⊥ }
    ensures never_itself { (b : Stay) → IsWellFormed b → Crosses b b → ⊥ }
{}

/// The run of stays goes through exactly when no two of them cross and no entry leaves more than its track's length.
pub fn clash_law()
    ensures law { (lengths : List ℕ) (stays : List Stay) → AreStays stays
        → AreOnTracks lengths stays → GoesThrough lengths stays
        ↔ NoneCross stays × NoneOver lengths stays }
    ensures counts { (lengths : List ℕ) (stays : List Stay) → AreStays stays
        → AreOnTracks lengths stays → GoesThrough lengths stays
        ↔ (pairs_in stays ≡ 0) × (overs_in lengths stays ≡ 0) }
{}

/// The counts are 0 exactly when nothing is counted, and see no order of the stays.
pub fn counting()
    ensures pairs { (stays : List Stay) → pairs_in stays ≡ 0 ↔ NoneCross stays }
    ensures overs { (lengths : List ℕ) (stays : List Stay) → overs_in lengths stays ≡ 0
        ↔ NoneOver lengths stays }
    ensures pairs_permuted { (stays others : List Stay) → IsPermutation stays others
        → pairs_in others ≡ pairs_in stays }
    ensures overs_permuted { (lengths : List ℕ) (stays others : List Stay)
        → IsPermutation stays others → overs_in lengths others ≡ overs_in lengths stays }
    ensures load_permuted { (stays others : List Stay) (track : ℕ) (moment : EventKey)
        → IsPermutation stays others → load_at others track moment ≡ load_at stays track moment }
{}
