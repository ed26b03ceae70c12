//! What follows from the definitions of this crate.
ghost use Rattle.std.specs.Prelude.{◌≡◌, ◌+◌, ◌-◌, ◌<◌, ◌≤◌, ℕ, List, IsTrue, Some, IfSome, length};
ghost use Rattle.std.specs.Prelude.{take, map, position, slice_get, slice_index_or, bytes_eq};
ghost use Rattle.std.specs.List.Sorted.{IsPermutation, IsNonDecreasingBy, IsStableByKey};
ghost use Rattle.std.specs.Ordering.{nat_cmp};
ghost use Rattle.shunt_base.specs.declared.ids.PlatformId.{PlatformId};
ghost use Rattle.shunt_base.specs.declared.ids.TrackId.{TrackId};
ghost use Rattle.shunt_base.specs.declared.ids.Side.{Side};
ghost use Rattle.shunt_instance.specs.declared.records.Station.{Station};
ghost use Rattle.shunt_instance.specs.declared.records.Timetable.{Timetable};
ghost use Rattle.shunt_instance.specs.declared.records.Train.{Train};
ghost use Rattle.shunt_instance.specs.declared.records.Route.{Route};
ghost use Rattle.shunt_lists.specs.defs.Members.{AreDistinct};
ghost use Rattle.shunt_instance.specs.defs.Words.{train_at, kind_at, unit_count, route_cost};
ghost use Rattle.shunt_instance.specs.defs.Words.{is_open_at};
ghost use Rattle.shunt_instance.specs.defs.Wellformed.{IsStation, IsTimetable};
ghost use Rattle.shunt_instance.specs.defs.Instance.{sort_by_minute, Night, night_of};
ghost use Rattle.shunt_instance.specs.defs.Instance.{IsOrderedNight, IsInstance, make_unit};
ghost use Rattle.shunt_instance.specs.defs.Instance.{make_position, unit_total, position_total};
ghost use Rattle.shunt_instance.specs.defs.Instance.{unit_at, position_at, ready, leaves};
ghost use Rattle.shunt_instance.specs.defs.Instance.{first_unit, first_position, IsUnitAt};
ghost use Rattle.shunt_instance.specs.defs.Instance.{IsPositionAt};
ghost use Rattle.shunt_instance.specs.defs.Matching.{entry_at, unit_entries, position_entries};
ghost use Rattle.shunt_instance.specs.defs.Matching.{RisesByKind};

/// A well-formed station and timetable make an instance, and every instance is made so. An instance is a night whose
/// station and trains are well formed and whose trains are in their order.
pub fn instances()
    ensures opened { (night : Night) → IsInstance night → IsOrderedNight night }
    ensures closed { (night : Night) → IsOrderedNight night → IsInstance night }
    ensures made { (s : Station) (t : Timetable) → IsStation s → IsTimetable s t
        → IsInstance (night_of s t) }
    ensures again { (night : Night) → IsInstance night
        → night ≡ night_of night.station (record { arrive = night.arrive; depart = night.depart }) }
{}

/// The sort by minute moves trains alone, and any stable sort of the trains by minute gives the same list.
pub fn sorting()
    ensures moves { (trains : List Train) → IsPermutation trains (sort_by_minute trains) }
    ensures rises { (trains : List Train)
        → IsNonDecreasingBy (λ t. t.minute) (sort_by_minute trains) }
    ensures one { (old new : List Train) → IsNonDecreasingBy (λ t. t.minute) new
        → IsStableByKey (λ t. t.minute) nat_cmp old new → new ≡ sort_by_minute old }
{}

/// Each number has its train and place, and each place of a train its number.
pub fn unit_numbers()
    ensures unit { (night : Night) (u : ℕ) → IsInstance night → u < unit_total night
        → IsUnitAt night u (unit_at night u) }
    ensures unit_there { (night : Night) (a place : ℕ) → a < length night.arrive → 1 ≤ place → place
        ≤ length (train_at night.arrive a).units → unit_at night (first_unit night a + (place - 1))
        ≡ make_unit a place (kind_at (train_at night.arrive a) place) }
    ensures units_few { (night : Night) → IsInstance night → unit_total night ≤ 160 }
    ensures position { (night : Night) (v : ℕ) → IsInstance night → v < position_total night
        → IsPositionAt night v (position_at night v) }
    ensures position_there { (night : Night) (d place : ℕ) → d < length night.depart → 1 ≤ place
        → place ≤ length (train_at night.depart d).units
        → position_at night (first_position night d + (place - 1))
        ≡ make_position d place (kind_at (train_at night.depart d) place) }
    ensures positions_few { (night : Night) → IsInstance night → position_total night ≤ 160 }
{}

/// The units of each train are numbered behind those of the trains before it, and within the night; and so are positions.
pub fn rooms_of_trains()
    ensures unit { (night : Night) (a : ℕ) → a < length night.arrive
        → first_unit night a + length (train_at night.arrive a).units ≤ unit_total night }
    ensures position { (night : Night) (d : ℕ) → d < length night.depart
        → first_position night d + length (train_at night.depart d).units ≤ position_total night }
    ensures behind { (trains : List Train) (i j : ℕ) → i < j → i < length trains → unit_count
        (take i trains) + length (train_at trains i).units ≤ unit_count (take j trains) }
{}

/// Where names are distinct, each is found at its own place.
pub fn names_are_found<X>()
    ensures { (name_of : X → List ℕ) (xs : List X) (name : List ℕ) (k : ℕ) (d : X)
        → AreDistinct (map name_of xs) → slice_get (map name_of xs) k ≡ Some name
        → position (λ x. bytes_eq (name_of x) name) xs ≡ Some k }
{}

/// The entries of a night are its units and positions, and along those of each type the minutes never fall.
pub fn entries()
    ensures unit { (night : Night) (u : ℕ) → u < unit_total night → entry_at (unit_entries night) u
        ≡ record { kind = (unit_at night u).kind.0; minute = ready night u } }
    ensures units { (night : Night) → length (unit_entries night) ≡ unit_total night }
    ensures units_rise { (night : Night) → IsInstance night → RisesByKind (unit_entries night) }
    ensures position { (night : Night) (v : ℕ) → v < position_total night
        → entry_at (position_entries night) v
        ≡ record { kind = (position_at night v).kind.0; minute = leaves night v } }
    ensures positions { (night : Night) → length (position_entries night) ≡ position_total night }
    ensures positions_rise { (night : Night) → IsInstance night
        → RisesByKind (position_entries night) }
{}

/// Each route of a station is found with its own cost, and what is found is small and leads to an open side.
pub fn routes()
    ensures found { (s : Station) (k : ℕ) (d : Route) → IsStation s → k < length s.routes → let
        r = slice_index_or s.routes k d in route_cost s r.platform r.track r.side ≡ Some r.cost }
    ensures cost { (s : Station) (p : PlatformId) (t : TrackId) (side : Side) → IsStation s
        → IfSome (route_cost s p t side) (λ c. c ≤ 1000000) }
    ensures open_at { (s : Station) (p : PlatformId) (t : TrackId) (side : Side) → IsStation s
        → IfSome (route_cost s p t side) (λ c. IsTrue (is_open_at s t side)) }
{}
