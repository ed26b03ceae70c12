//! What follows from the definitions of this crate: of the night of a station and a timetable, and of the night that goes on
//! from a minute.
ghost use Rattle.std.specs.Prelude.{◌≡◌, ◌≤◌, ℕ, All, List, length, IsTrue, Some};
ghost use Rattle.shunt_lists.specs.defs.Members.{In};
ghost use Rattle.shunt_instance.specs.declared.records.Station.{Station};
ghost use Rattle.shunt_instance.specs.declared.records.Timetable.{Timetable};
ghost use Rattle.shunt_instance.specs.defs.Instance.{Night, night_of};
ghost use Rattle.shunt_instance.specs.defs.Wellformed.{IsStation, IsTimetable};
ghost use Rattle.shunt_blocks.specs.declared.records.Block.{Block};
ghost use Rattle.shunt_blocks.specs.declared.records.Park.{Park};
ghost use Rattle.shunt_blocks.specs.defs.Shapes.{shape_of};
ghost use Rattle.shunt_blocks.specs.defs.Ways.{has_placed};
ghost use Rattle.shunt_blocks.specs.defs.Lists.{IsFeasible, total_cost};
ghost use Rattle.shunt_blocks.specs.defs.Pins.{AreUsable, Keeps};
ghost use Rattle.shunt_resume.specs.defs.Resumed.{resumed, next_night, gone, IsPlacedAsItIs};
ghost use Rattle.shunt_resume.specs.defs.Resumed.{has_gone_by, LeaveAsItCame};

use shunt_blocks::laws::{feasible_lists, ids_do_not_matter, stays_of_blocks};
use shunt_instance::laws::routes;

/// What has come of the blocks of a feasible plan by a minute makes a well-formed timetable, with at most 8 runs of each
/// train.
pub fn resumed_timetables()
    ensures formed { (s : Station) (t : Timetable) (m : ℕ) (blocks : List Block) → IsStation s
        → IsTimetable s t → IsFeasible (night_of s t) blocks
        → IsTimetable s (resumed (night_of s t) m blocks t) }
    ensures few { (s : Station) (t : Timetable) → IsTimetable s t
        → All (λ r. length r.placed ≤ 8) t.arrive }
{
    routes();
    feasible_lists();
}

/// A feasible plan is feasible from the minute on, at the same cost; it keeps the blocks that have gone, and they are usable
/// pins.
pub fn plans_go_on()
    ensures feasible { (s : Station) (t : Timetable) (m : ℕ) (blocks : List Block) → IsStation s
        → IsTimetable s t → IsFeasible (night_of s t) blocks
        → IsFeasible (next_night s t m blocks) blocks }
    ensures cost { (s : Station) (t : Timetable) (m : ℕ) (blocks : List Block) → IsStation s
        → IsTimetable s t → IsFeasible (night_of s t) blocks
        → total_cost (next_night s t m blocks) blocks ≡ total_cost (night_of s t) blocks }
    ensures keeps { (s : Station) (t : Timetable) (m : ℕ) (blocks : List Block)
        → Keeps blocks (gone (night_of s t) m blocks) }
    ensures usable { (s : Station) (t : Timetable) (m : ℕ) (blocks : List Block) → IsStation s
        → IsTimetable s t → IsFeasible (night_of s t) blocks
        → AreUsable (next_night s t m blocks) (gone (night_of s t) m blocks) }
{
    routes();
    feasible_lists();
    ids_do_not_matter();
    stays_of_blocks();
}

/// Each feasible plan from the minute on is one of the whole night, at the same cost, so that each bound of the whole night
/// is one from the minute on.
pub fn next_plans_are_plans()
    ensures feasible { (s : Station) (t : Timetable) (m : ℕ) (blocks others : List Block)
        → IsStation s → IsTimetable s t → IsFeasible (night_of s t) blocks
        → IsFeasible (next_night s t m blocks) others → IsFeasible (night_of s t) others }
    ensures cost { (s : Station) (t : Timetable) (m : ℕ) (blocks others : List Block) → IsStation s
        → IsTimetable s t → IsFeasible (night_of s t) blocks
        → IsFeasible (next_night s t m blocks) others
        → total_cost (next_night s t m blocks) others ≡ total_cost (night_of s t) others }
{
    routes();
    feasible_lists();
}

/// In a feasible plan each parked block with a unit that has come is what came, on its track by its side.
pub fn what_has_come_stays()
    ensures { (night : Night) (blocks : List Block) (b : Block) (k : Park) → IsFeasible night blocks
        → In b blocks → b.park ≡ Some k → IsTrue (has_placed night (shape_of b))
        → IsPlacedAsItIs night b k }
{}

/// The feasible plans from the minute on are exactly those of the whole night that leave what has come as the plan has it.
pub fn next_plans_leave_what_has_come()
    ensures leave { (s : Station) (t : Timetable) (m : ℕ) (blocks others : List Block)
        → IsStation s → IsTimetable s t → IsFeasible (night_of s t) blocks
        → IsFeasible (next_night s t m blocks) others
        → LeaveAsItCame (night_of s t) m blocks others }
    ensures all { (s : Station) (t : Timetable) (m : ℕ) (blocks others : List Block)
        → IsStation s → IsTimetable s t → IsFeasible (night_of s t) blocks
        → IsFeasible (night_of s t) others → LeaveAsItCame (night_of s t) m blocks others
        → IsFeasible (next_night s t m blocks) others }
{
    routes();
    feasible_lists();
}

/// Exactly the blocks whose departing trains leave by the minute have gone.
pub fn gone_blocks()
    ensures there { (night : Night) (m : ℕ) (blocks : List Block) (b : Block)
        → In b (gone night m blocks) → In b blocks × IsTrue (has_gone_by night m b) }
    ensures all { (night : Night) (m : ℕ) (blocks : List Block) (b : Block)
        → In b blocks → IsTrue (has_gone_by night m b) → In b (gone night m blocks) }
{}
