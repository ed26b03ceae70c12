//! What follows from the definitions of this crate.
ghost use Rattle.std.specs.Prelude.{◌≡◌, ◌+◌, ◌<◌, ◌≤◌, ◌↔◌, length, ◌^◌, ℕ, Bool, true, false};
ghost use Rattle.std.specs.Prelude.{IsTrue, IsSome, Some, None, IfSome, All, AllPairs, Option};
ghost use Rattle.std.specs.Prelude.{List, ◌++◌, map};
ghost use Rattle.shunt_lists.specs.defs.Below.{all_below};
ghost use Rattle.shunt_lists.specs.defs.Members.{In, AreDistinct};
ghost use Rattle.shunt_base.specs.declared.keys.Stay.{Stay};
ghost use Rattle.shunt_base.specs.defs.Keys.{IsWellFormed, AreStays};
ghost use Rattle.shunt_stays.specs.defs.Events.{AllDifferBeforeId};
ghost use Rattle.shunt_stays.specs.defs.Run.{AreOnTracks};
ghost use Rattle.shunt_instance.specs.defs.Words.{train_at, kind_at};
ghost use Rattle.shunt_instance.specs.defs.Instance.{Night, IsInstance, make_unit, make_position};
ghost use Rattle.shunt_instance.specs.defs.Instance.{unit_at, position_at, unit_total};
ghost use Rattle.shunt_instance.specs.defs.Instance.{position_total};
ghost use Rattle.shunt_instance.specs.defs.Matching.{IsMatching, IsMatchingOfRest, unit_entries};
ghost use Rattle.shunt_instance.specs.defs.Matching.{position_entries};
ghost use Rattle.shunt_blocks.specs.declared.records.Shape.{Shape};
ghost use Rattle.shunt_blocks.specs.declared.records.Block.{Block};
ghost use Rattle.shunt_blocks.specs.declared.records.Park.{Park};
ghost use Rattle.shunt_blocks.specs.defs.Shapes.{AreRunsWithin, IsWithinTrains, IsInRange, IsShape};
ghost use Rattle.shunt_blocks.specs.defs.Shapes.{IsPair, IsOnTrack, HasUnit, HasPosition, is_pair};
ghost use Rattle.shunt_blocks.specs.defs.Shapes.{begins_at, unit_from, position_from};
ghost use Rattle.shunt_blocks.specs.defs.Ways.{way_in, way_out};
ghost use Rattle.shunt_blocks.specs.defs.Blocks.{IsBlock, IsBlockButId, IsOption, is_option};
ghost use Rattle.shunt_blocks.specs.defs.Blocks.{have_one_type, type_fault};
ghost use Rattle.shunt_blocks.specs.defs.Costs.{block_cost};
ghost use Rattle.shunt_blocks.specs.defs.v1.{HasTwoTypes, LacksRouteIn, LacksRouteOut, IsPlain};
ghost use Rattle.shunt_blocks.specs.defs.v1.{IsBlock as IsFirstBlock};
ghost use Rattle.shunt_blocks.specs.defs.v1.{IsFeasible as IsFirstFeasible};
ghost use Rattle.shunt_blocks.specs.defs.v1.{block_cost as first_block_cost};
ghost use Rattle.shunt_blocks.specs.defs.v1.{total_cost as first_total_cost};
ghost use Rattle.shunt_blocks.specs.defs.Stays.{is_too_soon, stay_of, IsSoundBlock};
ghost use Rattle.shunt_blocks.specs.defs.Lists.{has_unit, has_position, times_unit, Covers};
ghost use Rattle.shunt_blocks.specs.defs.Lists.{IsFeasible, ShareNothing, AreInRange, CanStand};
ghost use Rattle.shunt_blocks.specs.defs.Lists.{track_lengths, stays_of, RunsThrough, total_cost};
ghost use Rattle.shunt_blocks.specs.defs.Lists.{placed, units_taken, positions_taken};
ghost use Rattle.shunt_blocks.specs.defs.Pins.{AreUsable, Keeps, without_id, IsSingle};
ghost use Rattle.shunt_blocks.specs.defs.Pins.{opening_cost, singles};

/// All numbers below one pass a test exactly when each does.
pub fn all_numbers()
    ensures { (n : ℕ) (test : ℕ → Bool) → IsTrue (all_below n test)
        ↔ ((k : ℕ) → k < n → IsTrue (test k)) }
{}

/// Stays of blocks are well formed: they enter before they leave.
pub fn stays()
    ensures formed { (night : Night) (b : Block) → IsInstance night → IsWithinTrains night b
        → b.id < 2 ^ 32 → IfSome (stay_of night b) IsWellFormed }
{}

/// The units of a shape are those of its arriving train from its place on, its positions those of its departing train, and
/// all are numbered in the night.
pub fn places()
    ensures unit { (night : Night) (s : Shape) (k : ℕ) → AreRunsWithin night s → k < s.n
        → unit_at night (unit_from night s + k)
        ≡ make_unit s.arr.0 (s.p + k) (kind_at (train_at night.arrive s.arr.0) (s.p + k)) }
    ensures position { (night : Night) (s : Shape) (k : ℕ) → AreRunsWithin night s → k < s.n
        → position_at night (position_from night s + k)
        ≡ make_position s.dep.0 (s.q + k) (kind_at (train_at night.depart s.dep.0) (s.q + k)) }
    ensures unit_in { (night : Night) (s : Shape) (u : ℕ) → AreRunsWithin night s
        → HasUnit night s u → u < unit_total night }
    ensures position_in { (night : Night) (s : Shape) (v : ℕ) → AreRunsWithin night s
        → HasPosition night s v → v < position_total night }
{}

/// The units and positions of a shape have one type pair by pair, and its departing train doesn't leave before one of its
/// units is ready; and these two make matchable pairs.
pub fn shapes()
    ensures one_type { (night : Night) (s : Shape) → IsShape night s
        → have_one_type night s ≡ true }
    ensures in_time { (night : Night) (s : Shape) → IsShape night s → is_too_soon night s ≡ false }
    ensures made { (night : Night) (s : Shape) → AreRunsWithin night s
        → have_one_type night s ≡ true → is_too_soon night s ≡ false → IsShape night s }
{}

/// A block is what is in range, has no wrong type, isn't too soon, and has both ways where it is parked.
pub fn blocks()
    ensures { (night : Night) (b : Block) → IsBlock night b ↔ IsSoundBlock night b }
{}

/// The stays of blocks that can stand are stays with distinct ids on tracks of the night. If the blocks share nothing,
/// the keys of these stays differ before the ids. Blocks in range with distinct ids can stand, and so can blocks that
/// share nothing, with their places as ids, whatever their own ids.
pub fn stays_of_blocks()
    ensures stays { (night : Night) (blocks : List Block) → IsInstance night → CanStand night blocks
        → AreStays (stays_of night blocks) }
    ensures tracks { (night : Night) (blocks : List Block) → CanStand night blocks
        → AreOnTracks (track_lengths night.station) (stays_of night blocks) }
    ensures differ { (night : Night) (blocks : List Block) → IsInstance night
        → CanStand night blocks → ShareNothing night blocks
        → AllDifferBeforeId (stays_of night blocks) }
    ensures in_range { (night : Night) (blocks : List Block) → AreInRange night blocks
        → CanStand night blocks }
    ensures placed { (night : Night) (blocks : List Block) → IsInstance night → All
        (IsWithinTrains night) blocks → ShareNothing night blocks → CanStand night (placed blocks) }
    ensures from { (night : Night) (blocks : List Block) (s : Stay) → In s (stays_of night blocks)
        → (b : Block) × In b blocks × (stay_of night b ≡ Some s) }
    ensures to { (night : Night) (blocks : List Block) (b : Block) (s : Stay) → In b blocks
        → stay_of night b ≡ Some s → In s (stays_of night blocks) }
{}

/// Of blocks that share no unit and no position, the run doesn't depend on the ids; and where it goes through, so does that of
/// each part of them, in any order and with any ids.
pub fn ids_do_not_matter()
    ensures part { (night : Night) (blocks others : List Block) → IsInstance night
        → CanStand night blocks → CanStand night others → ShareNothing night others
        → ((c : Block) → In c others → (b : Block) × In b blocks × (without_id b ≡ without_id c))
        → RunsThrough night blocks → RunsThrough night others }
    ensures same { (night : Night) (blocks others : List Block) → IsInstance night
        → CanStand night blocks → CanStand night others → ShareNothing night blocks
        → map without_id blocks ≡ map without_id others → RunsThrough night blocks
        ↔ RunsThrough night others }
    ensures placed_part { (night : Night) (blocks others : List Block) → IsInstance night
        → All (IsWithinTrains night) blocks → ShareNothing night blocks
        → All (IsWithinTrains night) others → ShareNothing night others
        → ((c : Block) → In c others → (b : Block) × In b blocks × (without_id b ≡ without_id c))
        → RunsThrough night (placed blocks) → RunsThrough night (placed others) }
    ensures placed { (night : Night) (blocks : List Block) → IsInstance night
        → AreInRange night blocks → ShareNothing night blocks → RunsThrough night blocks
        ↔ RunsThrough night (placed blocks) }
{}

/// Blocks that share nothing are at most as many as there are units, and fewer where a unit is in none of them. Their first
/// units differ.
pub fn few_blocks()
    ensures most { (night : Night) (blocks : List Block) → All (IsWithinTrains night) blocks
        → ShareNothing night blocks → length blocks ≤ unit_total night }
    ensures fewer { (night : Night) (blocks : List Block) (u : ℕ)
        → All (IsWithinTrains night) blocks → ShareNothing night blocks → u < unit_total night
        → times_unit night blocks u ≡ 0 → length blocks < unit_total night }
    ensures firsts { (night : Night) (blocks : List Block) → All (IsWithinTrains night) blocks
        → ShareNothing night blocks → AreDistinct (map (begins_at night) blocks) }
{}

/// Feasible lists are in range, with at most 160 blocks that share nothing. Numbered by their places they are feasible at the
/// same cost, and so are blocks that cover the night, whatever their ids, where their run goes through.
pub fn feasible_lists()
    ensures few { (night : Night) (blocks : List Block) → IsInstance night → IsFeasible night blocks
        → length blocks ≤ 160 }
    ensures in_range { (night : Night) (blocks : List Block) → IsInstance night
        → IsFeasible night blocks → AreInRange night blocks }
    ensures apart { (night : Night) (blocks : List Block) → IsFeasible night blocks
        → ShareNothing night blocks }
    ensures placed { (night : Night) (blocks : List Block) → IsInstance night
        → IsFeasible night blocks → IsFeasible night (placed blocks) }
    ensures cost { (night : Night) (blocks : List Block)
        → total_cost night (placed blocks) ≡ total_cost night blocks }
    ensures any_ids { (night : Night) (blocks : List Block) → IsInstance night
        → CanStand night blocks → All (IsBlockButId night) blocks → Covers night blocks
        → RunsThrough night blocks → IsFeasible night (placed blocks) }
    ensures no_ids { (night : Night) (blocks : List Block) → IsInstance night
        → All (IsBlockButId night) blocks → Covers night blocks → RunsThrough night (placed blocks)
        → IsFeasible night (placed blocks) }
{}

/// The opening cost is what the pins cost with the other units as unparked blocks of their own, by every matching of the
/// rest; and with any unparked one-unit blocks that with the pins cover the night.
pub fn one_opening_cost()
    ensures matched { (night : Night) (pins : List Block) (place : List ℕ)
        → IsMatchingOfRest (unit_entries night) (position_entries night) (units_taken night pins)
        (positions_taken night pins) place
        → total_cost night (pins ++ singles night pins place) ≡ opening_cost night pins }
    ensures any { (night : Night) (pins others : List Block) → All (IsWithinTrains night) others
        → All IsSingle others → Covers night (pins ++ others)
        → total_cost night (pins ++ others) ≡ opening_cost night pins }
{}

/// Usable pins and the other units as unparked blocks of their own, by a matching of the rest, are a feasible plan with their
/// places as ids, and it keeps the pins.
pub fn opening_plans()
    ensures feasible { (night : Night) (pins : List Block) (place : List ℕ) → IsInstance night
        → AreUsable night pins → IsMatchingOfRest (unit_entries night) (position_entries night)
        (units_taken night pins) (positions_taken night pins) place
        → IsFeasible night (placed (pins ++ singles night pins place)) }
    ensures keeps { (pins others : List Block) → Keeps (placed (pins ++ others)) pins }
{}

/// If there is a feasible list, there is a matching of all units; and so where usable pins leave a rest that has one.
pub fn matchings()
    ensures of_plan { (night : Night) (blocks : List Block) → IsFeasible night blocks →
        (place : List ℕ) × IsMatching (unit_entries night) (position_entries night) place }
    ensures of_rest { (night : Night) (pins : List Block) (place : List ℕ) → IsInstance night
        → AreUsable night pins → IsMatchingOfRest (unit_entries night) (position_entries night)
        (units_taken night pins) (positions_taken night pins) place
        → (whole : List ℕ) × IsMatching (unit_entries night) (position_entries night) whole }
{}

/// The tests of units, positions and pairs hold exactly when their facts do.
pub fn tests()
    ensures unit { (night : Night) (s : Shape) (u : ℕ) → IsTrue (has_unit night s u)
        ↔ HasUnit night s u }
    ensures position { (night : Night) (s : Shape) (v : ℕ) → IsTrue (has_position night s v)
        ↔ HasPosition night s v }
    ensures pair { (night : Night) (u v : ℕ) → IsTrue (is_pair night u v) ↔ IsPair night u v }
    ensures option { (night : Night) (s : Shape) (o : Option Park) → IsOnTrack night.station o
        → IsTrue (is_option night s o) ↔ IsOption night s o }
{}

/// Over a night without standing trains and permits, a block is one exactly by version 1 of the files, and so is a list of
/// blocks feasible; what blocks cost is what they cost by version 1, and wrong types and absent ways are those of version 1.
pub fn upgrade()
    ensures block { (night : Night) (b : Block) → IsPlain night → IsFirstBlock night b
        ↔ IsBlock night b }
    ensures feasible { (night : Night) (blocks : List Block) → IsPlain night
        → IsFirstFeasible night blocks ↔ IsFeasible night blocks }
    ensures cost { (night : Night) (b : Block) → IsPlain night → IsWithinTrains night b
        → first_block_cost night b ≡ block_cost night b }
    ensures total { (night : Night) (blocks : List Block) → IsPlain night → All
        (IsWithinTrains night) blocks → first_total_cost night blocks ≡ total_cost night blocks }
    ensures types { (night : Night) (b : Block) → IsPlain night → IsWithinTrains night b
        → IsTrue (type_fault night b) ↔ HasTwoTypes night b }
    ensures route_in { (night : Night) (b : Block) → IsPlain night → IsWithinTrains night b
        → (IsSome b.park × (way_in night b ≡ None)) ↔ LacksRouteIn night b }
    ensures route_out { (night : Night) (b : Block) → (IsSome b.park × (way_out night b ≡ None))
        ↔ LacksRouteOut night b }
{}
