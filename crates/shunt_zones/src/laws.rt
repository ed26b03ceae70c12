//! What follows from the definitions of this crate.
ghost use Rattle.std.specs.Prelude.{◌≡◌, ◌≤◌, ◌↔◌, AllPairs, List, ℕ, Ok};
ghost use Rattle.shunt_lists.specs.defs.Members.{In};
ghost use Rattle.shunt_rows.specs.defs.FirstFault.{Tells};
ghost use Rattle.shunt_rows.specs.defs.Formats.{reading};
ghost use Rattle.shunt_rows.specs.defs.Records.{text_of_rows};
ghost use Rattle.shunt_instance.specs.declared.records.Station.{Station};
ghost use Rattle.shunt_instance.specs.defs.Instance.{Night};
ghost use Rattle.shunt_instance.specs.defs.Wellformed.{IsStation};
ghost use Rattle.shunt_blocks.specs.declared.records.Block.{Block};
ghost use Rattle.shunt_plan.specs.declared.records.Plan.{Plan};
ghost use Rattle.shunt_zones.specs.declared.records.Meet.{Meet};
ghost use Rattle.shunt_zones.specs.declared.records.Zones.{Zones};
ghost use Rattle.shunt_zones.specs.defs.Meetings.{Before, MeetIn, meets_in};
ghost use Rattle.shunt_zones.specs.defs.Moves.{moves_of};
ghost use Rattle.shunt_zones.specs.defs.ZonesFormat.{zones_format, IsZones};
ghost use Rattle.shunt_zones.specs.defs.ZonesRows.{rows_of, ReadsAsZones};

/// Over each station, records state zones or have a first fault, and never both, and reading them says which.
pub fn zones_or_first_fault()
    ensures { (station : Station) (rows : List (List (List ℕ)))
        → Tells (zones_format station) rows }
{}

/// The zones that records state have distinct names, and each lies over ways of the station, once over each.
pub fn stated_zones_are_formed()
    ensures { (station : Station) (rows : List (List (List ℕ))) (z : Zones)
        → reading (zones_format station) rows ≡ Ok z → IsZones station z }
{}

/// The records of such zones state them, and their text reads back as them.
pub fn texts_of_zones()
    ensures rows { (station : Station) (z : Zones) → IsStation station → IsZones station z
        → reading (zones_format station) (rows_of station z) ≡ Ok z }
    ensures again { (station : Station) (z : Zones) → IsStation station → IsZones station z
        → ReadsAsZones station z (text_of_rows (rows_of station z)) }
{}

/// The minutes of moves in key order rise.
pub fn moves_rise()
    ensures { (night : Night) (blocks : List Block)
        → AllPairs (λ e f. e.key.minute ≤ f.key.minute) (moves_of night blocks) }
{}

/// Two moves of a plan are among its meets exactly when the first stands before the second in key order, both have one minute,
/// they aren't both entries of one arriving train or both leaves of one departing train, and the zone is the least that both pass.
pub fn meets_in_words()
    ensures { (night : Night) (zones : Zones) (plan : Plan) (m : Meet)
        → In m (meets_in night zones plan) ↔ (Before m.first m.second (moves_of night plan.blocks)
        × MeetIn night zones m.first m.second m.zone) }
{}
