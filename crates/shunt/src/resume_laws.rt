//! What follows from the contract of `run` on `resume`: when each status comes, and what the rest of a night then is.
ghost use Rattle.std.specs.Prelude.{◌≡◌, ◌⊎◌, List, ℕ, Some, Ok};
ghost use Rattle.shunt_store.specs.defs.Files.{Files};
ghost use Rattle.shunt_store.specs.defs.Causes.{Rose};
ghost use Rattle.shunt_instance.specs.defs.Instance.{Night};
ghost use Rattle.shunt_plan.specs.declared.records.Plan.{Plan};
ghost use Rattle.shunt.specs.declared.status.Status.{Status};
ghost use Rattle.shunt_dispatch.specs.defs.Resumed.{GoesOn};
ghost use Rattle.shunt.specs.defs.Calls.{Resume};
ghost use Rattle.shunt.specs.defs.Words.{IsUsable};
ghost use Rattle.shunt_inputs.specs.declared.pins.Pinned.{Pinned};
ghost use Rattle.shunt_inputs.specs.defs.Inputs.{Agrees, pinned_in, plans_in};
ghost use Rattle.shunt_judging.specs.defs.Audited.{IsClean};
ghost use Rattle.shunt.specs.defs.Ends.{Ends, Seen, Yields};

use shunt_audit::laws;
use shunt_plan::laws::texts_of_pins;
use shunt_resume::laws::{
    gone_blocks, next_plans_are_plans, next_plans_leave_what_has_come, plans_go_on,
    resumed_timetables, what_has_come_stays,
};
use shunt_timetable::laws::{rows_of_a_timetable_state_it, text_of_a_timetable_is_short};

/// `resume` ends with `Done` exactly when the files are accepted and the plan is feasible and states its cost, and with
/// `Findings` exactly when they are accepted and it isn't so, unless the store, memory or the sink came first. It never ends
/// with `NoMatching` or `Unfinished`.
pub fn resume_done_exactly()
    ensures done { (s t p : List ℕ) (m : ℕ) (n i : List ℕ) (old new : Seen) (status : Status)
        (files : Files) (x : Night × Plan) → old.files ≡ Some files → plans_in s t p files ≡ Ok x
        → IsClean x → Ends (Resume s t p m n i) old new status
        → (status ≡ Status.Done) ⊎ Yields status }
    ensures done_only { (s t p : List ℕ) (m : ℕ) (n i : List ℕ) (old new : Seen)
        → Ends (Resume s t p m n i) old new Status.Done → (files : Files) × Agrees old.files files
        × ((x : Night × Plan) × (plans_in s t p files ≡ Ok x) × IsClean x) }
    ensures findings { (s t p : List ℕ) (m : ℕ) (n i : List ℕ) (old new : Seen) (status : Status)
        (files : Files) (x : Night × Plan) → old.files ≡ Some files → plans_in s t p files ≡ Ok x
        → (IsClean x → ⊥) → Ends (Resume s t p m n i) old new status
        → (status ≡ Status.Findings) ⊎ Yields status }
    ensures findings_only { (s t p : List ℕ) (m : ℕ) (n i : List ℕ) (old new : Seen) → Ends
        (Resume s t p m n i) old new Status.Findings → (files : Files) × Agrees old.files files
        × ((x : Night × Plan) × (plans_in s t p files ≡ Ok x) × (IsClean x → ⊥)) }
    ensures no_matching { (s t p : List ℕ) (m : ℕ) (n i : List ℕ) (old new : Seen)
        → Ends (Resume s t p m n i) old new Status.NoMatching → ⊥ }
    ensures no_unfinished { (s t p : List ℕ) (m : ℕ) (n i : List ℕ) (old new : Seen)
        → Ends (Resume s t p m n i) old new Status.Unfinished → ⊥ }
{
    laws::plan_findings();
}

/// If the files are accepted and neither the store nor the sink fails, `resume` ends with `Done`, `Findings` or `Memory`.
pub fn resume_completes()
    ensures { (s t p : List ℕ) (m : ℕ) (n i : List ℕ) (old new : Seen) (status : Status)
        (files : Files) (x : Night × Plan) → old.files ≡ Some files → plans_in s t p files ≡ Ok x
        → (Rose old.store_faults new.store_faults → ⊥) → (Rose old.sink_faults new.sink_faults → ⊥)
        → Ends (Resume s t p m n i) old new status
        → (status ≡ Status.Done) ⊎ ((status ≡ Status.Findings) ⊎ (status ≡ Status.Memory)) }
{}

/// Where `resume` ends with `Done`, the station file with the new timetable and the new pins states the rest of the night: the plan is feasible
/// in it, costs the same and keeps the pins, which are exactly its blocks that have gone; the feasible plans of the rest are exactly those of the
/// whole night that leave what has come as the plan has it, at the same cost; and what has come stays on its track.
pub fn resumed_nights_go_on()
    ensures { (s t p : List ℕ) (m : ℕ) (n i : List ℕ) (old new : Seen) (files after : Files)
        → IsUsable (Resume s t p m n i) → old.files ≡ Some files → new.files ≡ Some after
        → Ends (Resume s t p m n i) old new Status.Done
        → (x : Night × Plan) × (plans_in s t p files ≡ Ok x)
        × ((y : Pinned) × (pinned_in s n i after ≡ Ok y) × GoesOn m x y) }
{
    laws::plan_findings();
    resumed_timetables();
    plans_go_on();
    next_plans_are_plans();
    next_plans_leave_what_has_come();
    gone_blocks();
    what_has_come_stays();
    texts_of_pins();
    rows_of_a_timetable_state_it();
    text_of_a_timetable_is_short();
}
