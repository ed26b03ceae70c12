// Laws of the commands that search: `plan`, `pinned` and `improve`.
ghost use Rattle.std.specs.Prelude.{◌≡◌, ◌⊎◌, List, [], ◌<◌, ◌≤◌, ℕ, Some, Ok};
ghost use Rattle.shunt_store.specs.defs.Files.{Files, content};
ghost use Rattle.shunt_store.specs.defs.Causes.{Rose};
ghost use Rattle.shunt_instance.specs.defs.Instance.{Night};
ghost use Rattle.shunt_matching.specs.defs.Nights.{HasMatching, HasNoMatching, Matches};
ghost use Rattle.shunt_blocks.specs.defs.Lists.{total_cost, units_taken, positions_taken};
ghost use Rattle.shunt_blocks.specs.defs.Pins.{AreUsable};
ghost use Rattle.shunt_plan.specs.declared.records.Plan.{Plan};
ghost use Rattle.shunt_inputs.specs.declared.answers.Outcome.{Outcome};
ghost use Rattle.shunt.specs.declared.status.Status.{Status};
ghost use Rattle.shunt_planning.specs.defs.Planned.{planned};
ghost use Rattle.shunt_planning.specs.defs.Found.{AreStated, IsBounded, IsCheapest, AreDifferent};
ghost use Rattle.shunt_planning.specs.defs.Improved.{IsInHand, in_hand_in};
ghost use Rattle.shunt_choices.specs.defs.Choices.{partial_plans};
ghost use Rattle.shunt_proof.specs.declared.records.Certificate.{Certificate};
ghost use Rattle.shunt.specs.defs.Calls.{Check, CheckPinned, MakePlan, MakePinned, Improve};
ghost use Rattle.shunt.specs.defs.Words.{IsUsable};
ghost use Rattle.shunt_inputs.specs.declared.pins.Pinned.{Pinned};
ghost use Rattle.shunt_inputs.specs.defs.Inputs.{Agrees, stated_night, pinned_in};
ghost use Rattle.shunt.specs.defs.Ends.{Ends, Seen, IsWhole, Yields};

use shunt_audit::laws;
use shunt_checker::laws::reasons;
use shunt_plan::laws::texts_of_plans;
use shunt_proof::laws::{few_nodes, known_by_paths, proved_bounds};
use shunt_proof::text_laws::texts_of_certificates;
use shunt_proof::version_laws::trees_by_version;
use shunt_search::laws::kept_matchings;

/// `plan` ends with `NoMatching` exactly when both input files are accepted and no list is a matching, unless the store, memory or
/// the sink came first. It never ends with `Findings`.
pub fn plan_no_matching_exactly()
    ensures there { (s t : List ℕ) (m : ℕ) (p k : List ℕ) (old new : Seen) (status : Status)
        (files : Files) (night : Night) → old.files ≡ Some files → stated_night (content files s)
        (content files t) ≡ Ok night → ((place : List ℕ) → Matches night place → ⊥)
        → Ends (MakePlan s t m p k) old new status → (status ≡ Status.NoMatching) ⊎ Yields status }
    ensures only { (s t : List ℕ) (m : ℕ) (p k : List ℕ) (old new : Seen) → Ends
        (MakePlan s t m p k) old new Status.NoMatching → (files : Files) × Agrees old.files files
        × ((night : Night) × (stated_night (content files s) (content files t) ≡ Ok night)
        × ((place : List ℕ) → Matches night place → ⊥)) }
    ensures no_findings { (s t : List ℕ) (m : ℕ) (p k : List ℕ) (old new : Seen)
        → Ends (MakePlan s t m p k) old new Status.Findings → ⊥ }
{}

/// Where `plan` ends with `Done`, the plan file holds the text of a feasible plan that states its cost, no feasible plan of the night
/// costs less, and that cost was printed as optimal, and as the bound.
pub fn plan_is_cheapest()
    ensures { (s t : List ℕ) (m : ℕ) (p k : List ℕ) (old new : Seen)
        → Ends (MakePlan s t m p k) old new Status.Done → (files : Files) × Agrees old.files files
        × ((night : Night) × (stated_night (content files s) (content files t) ≡ Ok night)
        × ((plan : Plan) × (c : Certificate) × AreStated night [] plan c × IsCheapest night [] plan
        × (c.bound ≡ plan.cost) × IsWhole (planned Outcome.Done p k night plan c) old new)) }
{
    proved_bounds();
}

/// Where `plan` ends with `Unfinished`, the certificate file holds the text of exactly as many nodes as were allowed, whose paths are
/// different partial plans; the plan file holds that of a feasible plan that states its cost; and every feasible plan of the night costs
/// at least the bound that was printed, which is below the plan's cost.
pub fn plan_is_unfinished()
    ensures { (s t : List ℕ) (m : ℕ) (p k : List ℕ) (old new : Seen) → Ends
        (MakePlan s t m p k) old new Status.Unfinished → (files : Files) × Agrees old.files files
        × ((night : Night) × (stated_night (content files s) (content files t) ≡ Ok night)
        × ((plan : Plan) × (c : Certificate) × AreStated night [] plan c
        × IsBounded night [] plan c.bound × (c.bound < plan.cost) × AreDifferent night [] c.nodes m
        × IsWhole (planned Outcome.Unfinished p k night plan c) old new)) }
{
    few_nodes();
    known_by_paths();
    proved_bounds();
    trees_by_version();
}

/// If both input files are accepted, a matching exists, and more nodes are allowed than there are partial plans, `plan` ends with
/// `Done`, unless the store, memory or the sink came first. If neither the store nor the sink fails, it ends with `Done`,
/// `NoMatching`, `Unfinished` or `Memory`.
pub fn plan_completes()
    ensures done { (s t : List ℕ) (m : ℕ) (p k : List ℕ) (old new : Seen) (status : Status)
        (files : Files) (night : Night) → old.files ≡ Some files
        → stated_night (content files s) (content files t) ≡ Ok night
        → ((place : List ℕ) × Matches night place) → partial_plans night [] < m
        → Ends (MakePlan s t m p k) old new status → (status ≡ Status.Done) ⊎ Yields status }
    ensures ends { (s t : List ℕ) (m : ℕ) (p k : List ℕ) (old new : Seen) (status : Status)
        (files : Files) (night : Night) → old.files ≡ Some files → stated_night (content files s)
        (content files t) ≡ Ok night → (Rose old.store_faults new.store_faults → ⊥)
        → (Rose old.sink_faults new.sink_faults → ⊥) → Ends (MakePlan s t m p k) old new status
        → (status ≡ Status.Done) ⊎ ((status ≡ Status.NoMatching)
        ⊎ ((status ≡ Status.Unfinished) ⊎ (status ≡ Status.Memory))) }
{}

/// `pinned` ends with `Findings` exactly when its input files are accepted and the pins aren't usable, unless the store, memory or the
/// sink came first.
pub fn pinned_findings_exactly()
    ensures there { (s t i : List ℕ) (m : ℕ) (p k : List ℕ) (old new : Seen) (status : Status)
        (files : Files) (x : Pinned) → old.files ≡ Some files → pinned_in s t i files ≡ Ok x
        → (AreUsable x.instance x.pins → ⊥) → Ends (MakePinned s t i m p k) old new status
        → (status ≡ Status.Findings) ⊎ Yields status }
    ensures only { (s t i : List ℕ) (m : ℕ) (p k : List ℕ) (old new : Seen) → Ends
        (MakePinned s t i m p k) old new Status.Findings → (files : Files) × Agrees old.files files
        × ((x : Pinned) × (pinned_in s t i files ≡ Ok x) × (AreUsable x.instance x.pins → ⊥)) }
{
    laws::pins();
}

/// `pinned` ends with `NoMatching` exactly when its input files are accepted, the pins are usable, and no list is a matching of the units
/// and positions that they leave, unless the store, memory or the sink came first.
pub fn pinned_no_matching_exactly()
    ensures there { (s t i : List ℕ) (m : ℕ) (p k : List ℕ) (old new : Seen) (status : Status)
        (files : Files) (x : Pinned) → old.files ≡ Some files → pinned_in s t i files ≡ Ok x
        → AreUsable x.instance x.pins → HasNoMatching x.instance (units_taken x.instance x.pins)
        (positions_taken x.instance x.pins) → Ends (MakePinned s t i m p k) old new status
        → (status ≡ Status.NoMatching) ⊎ Yields status }
    ensures only { (s t i : List ℕ) (m : ℕ) (p k : List ℕ) (old new : Seen)
        → Ends (MakePinned s t i m p k) old new Status.NoMatching
        → (files : Files) × Agrees old.files files × ((x : Pinned) × (pinned_in s t i files ≡ Ok x)
        × AreUsable x.instance x.pins × HasNoMatching x.instance (units_taken x.instance x.pins)
        (positions_taken x.instance x.pins)) }
{
    laws::pins();
}

/// Where `pinned` ends with `Done`, the plan file holds the text of a feasible plan that keeps the pins and states its cost, no feasible
/// plan of the night that keeps them costs less, and that cost was printed as optimal, and as the bound.
pub fn pinned_is_cheapest()
    ensures { (s t i : List ℕ) (m : ℕ) (p k : List ℕ) (old new : Seen)
        → Ends (MakePinned s t i m p k) old new Status.Done → (files : Files)
        × Agrees old.files files × ((x : Pinned) × (pinned_in s t i files ≡ Ok x) × ((plan : Plan)
        × (c : Certificate) × AreStated x.instance x.pins plan c × IsCheapest x.instance x.pins plan
        × (c.bound ≡ plan.cost) × IsWhole (planned Outcome.Done p k x.instance plan c) old new)) }
{
    laws::pins();
    proved_bounds();
}

/// Where `pinned` ends with `Unfinished`, the certificate file holds the text of exactly as many nodes as were allowed, whose paths are
/// different partial plans over the pins; the plan file holds that of a feasible plan that keeps the pins and states its cost; and every
/// feasible plan of the night that keeps them costs at least the bound that was printed, which is below the plan's cost.
pub fn pinned_is_unfinished()
    ensures { (s t i : List ℕ) (m : ℕ) (p k : List ℕ) (old new : Seen)
        → Ends (MakePinned s t i m p k) old new Status.Unfinished
        → (files : Files) × Agrees old.files files × ((x : Pinned) × (pinned_in s t i files ≡ Ok x)
        × ((plan : Plan) × (c : Certificate) × AreStated x.instance x.pins plan c
        × IsBounded x.instance x.pins plan c.bound × (c.bound < plan.cost) × AreDifferent x.instance
        x.pins c.nodes m × IsWhole (planned Outcome.Unfinished p k x.instance plan c) old new)) }
{
    laws::pins();
    few_nodes();
    known_by_paths();
    proved_bounds();
    trees_by_version();
}

/// If the input files are accepted, the pins are usable, a matching of what they leave exists, and more nodes are allowed than there are
/// partial plans over them, `pinned` ends with `Done`, unless the store, memory or the sink came first. If neither the store nor the
/// sink fails, it ends with `Findings`, `Done`, `NoMatching`, `Unfinished` or `Memory`.
pub fn pinned_completes()
    ensures done { (s t i : List ℕ) (m : ℕ) (p k : List ℕ) (old new : Seen) (status : Status)
        (files : Files) (x : Pinned) → old.files ≡ Some files → pinned_in s t i files ≡ Ok x
        → AreUsable x.instance x.pins → HasMatching x.instance (units_taken x.instance x.pins)
        (positions_taken x.instance x.pins) → partial_plans x.instance x.pins < m
        → Ends (MakePinned s t i m p k) old new status → (status ≡ Status.Done) ⊎ Yields status }
    ensures ends { (s t i : List ℕ) (m : ℕ) (p k : List ℕ) (old new : Seen) (status : Status)
        (files : Files) (x : Pinned) → old.files ≡ Some files → pinned_in s t i files ≡ Ok x
        → (Rose old.store_faults new.store_faults → ⊥) → (Rose old.sink_faults new.sink_faults → ⊥)
        → Ends (MakePinned s t i m p k) old new status
        → (status ≡ Status.Findings) ⊎ ((status ≡ Status.Done) ⊎ ((status ≡ Status.NoMatching)
        ⊎ ((status ≡ Status.Unfinished) ⊎ (status ≡ Status.Memory)))) }
{
    laws::pins();
}

/// `improve` ends with `Findings` exactly when its input files are accepted, and the pins aren't usable, or the plan in hand isn't feasible,
/// doesn't state its cost or doesn't keep a pin, unless the store, memory or the sink came first.
pub fn improve_findings_exactly()
    ensures there { (s t i h : List ℕ) (m : ℕ) (p k : List ℕ) (old new : Seen) (status : Status)
        (files : Files) (x : Pinned × Plan) → old.files ≡ Some files
        → in_hand_in s t i h files ≡ Ok x → (IsInHand x → ⊥)
        → Ends (Improve s t i h m p k) old new status → (status ≡ Status.Findings) ⊎ Yields status }
    ensures only { (s t i h : List ℕ) (m : ℕ) (p k : List ℕ) (old new : Seen) → Ends
        (Improve s t i h m p k) old new Status.Findings → (files : Files) × Agrees old.files files
        × ((x : Pinned × Plan) × (in_hand_in s t i h files ≡ Ok x) × (IsInHand x → ⊥)) }
{
    laws::pins();
    laws::plan_findings();
    kept_matchings();
}

/// Where `improve` ends with `Done`, the new plan file holds the text of a feasible plan that keeps the pins and states its cost, no feasible
/// plan of the night that keeps them costs less, and that cost was printed as optimal, and as the bound.
pub fn improve_is_cheapest()
    ensures { (s t i h : List ℕ) (m : ℕ) (p k : List ℕ) (old new : Seen)
        → Ends (Improve s t i h m p k) old new Status.Done
        → (files : Files) × Agrees old.files files × ((x : Pinned × Plan)
        × (in_hand_in s t i h files ≡ Ok x) × ((plan : Plan) × (c : Certificate)
        × AreStated x.0.instance x.0.pins plan c × IsCheapest x.0.instance x.0.pins plan
        × (c.bound ≡ plan.cost) × IsWhole (planned Outcome.Done p k x.0.instance plan c) old new)) }
{
    laws::pins();
    laws::plan_findings();
    kept_matchings();
    proved_bounds();
}

/// Where `improve` ends with `Unfinished`, the certificate file holds the text of exactly as many nodes as were allowed, whose paths are
/// different partial plans over the pins; the new plan file holds that of a feasible plan that keeps the pins and states its cost; and every
/// feasible plan of the night that keeps them costs at least the bound that was printed, which is below the plan's cost.
pub fn improve_is_unfinished()
    ensures { (s t i h : List ℕ) (m : ℕ) (p k : List ℕ) (old new : Seen) → Ends
        (Improve s t i h m p k) old new Status.Unfinished → (files : Files) × Agrees old.files files
        × ((x : Pinned × Plan) × (in_hand_in s t i h files ≡ Ok x) × ((plan : Plan)
        × (c : Certificate) × AreStated x.0.instance x.0.pins plan c × IsBounded x.0.instance
        x.0.pins plan c.bound × (c.bound < plan.cost) × AreDifferent x.0.instance x.0.pins c.nodes m
        × IsWhole (planned Outcome.Unfinished p k x.0.instance plan c) old new)) }
{
    laws::pins();
    laws::plan_findings();
    kept_matchings();
    few_nodes();
    known_by_paths();
    proved_bounds();
    trees_by_version();
}

/// Where `improve` ends with `Done` or `Unfinished`, the pins are usable, the plan in hand is feasible, states its cost and keeps them, and
/// the new plan file holds the text of a plan that costs no more.
pub fn improve_is_never_worse()
    ensures done { (s t i h : List ℕ) (m : ℕ) (p k : List ℕ) (old new : Seen)
        → Ends (Improve s t i h m p k) old new Status.Done → (files : Files)
        × Agrees old.files files × ((x : Pinned × Plan) × (in_hand_in s t i h files ≡ Ok x)
        × IsInHand x × ((plan : Plan) × (c : Certificate) × AreStated x.0.instance x.0.pins plan c
        × (total_cost x.0.instance plan.blocks ≤ total_cost x.0.instance x.1.blocks)
        × IsWhole (planned Outcome.Done p k x.0.instance plan c) old new)) }
    ensures unfinished { (s t i h : List ℕ) (m : ℕ) (p k : List ℕ) (old new : Seen)
        → Ends (Improve s t i h m p k) old new Status.Unfinished → (files : Files)
        × Agrees old.files files × ((x : Pinned × Plan) × (in_hand_in s t i h files ≡ Ok x)
        × IsInHand x × ((plan : Plan) × (c : Certificate) × AreStated x.0.instance x.0.pins plan c
        × (total_cost x.0.instance plan.blocks ≤ total_cost x.0.instance x.1.blocks)
        × IsWhole (planned Outcome.Unfinished p k x.0.instance plan c) old new)) }
{
    laws::pins();
    laws::plan_findings();
    kept_matchings();
}

/// If the input files are accepted, the pins are usable, the plan in hand is feasible, states its cost and keeps them, and more nodes are
/// allowed than there are partial plans over them, `improve` ends with `Done`, unless the store, memory or the sink came first. If neither
/// the store nor the sink fails, it ends with `Findings`, `Done`, `Unfinished` or `Memory`, and never with `NoMatching`.
pub fn improve_completes()
    ensures done { (s t i h : List ℕ) (m : ℕ) (p k : List ℕ) (old new : Seen) (status : Status)
        (files : Files) (x : Pinned × Plan) → old.files ≡ Some files
        → in_hand_in s t i h files ≡ Ok x → IsInHand x → partial_plans x.0.instance x.0.pins < m
        → Ends (Improve s t i h m p k) old new status → (status ≡ Status.Done) ⊎ Yields status }
    ensures ends { (s t i h : List ℕ) (m : ℕ) (p k : List ℕ) (old new : Seen) (status : Status)
        (files : Files) (x : Pinned × Plan) → old.files ≡ Some files
        → in_hand_in s t i h files ≡ Ok x → (Rose old.store_faults new.store_faults → ⊥)
        → (Rose old.sink_faults new.sink_faults → ⊥) → Ends (Improve s t i h m p k) old new status
        → (status ≡ Status.Findings)
        ⊎ ((status ≡ Status.Done) ⊎ ((status ≡ Status.Unfinished) ⊎ (status ≡ Status.Memory))) }
    ensures no_matching { (s t i h : List ℕ) (m : ℕ) (p k : List ℕ) (old new : Seen)
        → Ends (Improve s t i h m p k) old new Status.NoMatching → ⊥ }
{
    laws::pins();
    laws::plan_findings();
    kept_matchings();
}

/// `check` of the files that `plan` left, whether with `Done` or with `Unfinished`, accepts them, unless the store, memory or the sink
/// came first.
pub fn own_plans_are_accepted()
    ensures { (s t : List ℕ) (m : ℕ) (p k : List ℕ) (old mid before new : Seen)
        (first status : Status) (files : Files) → IsUsable (MakePlan s t m p k)
        → Ends (MakePlan s t m p k) old mid first → (first ≡ Status.Done)
        ⊎ (first ≡ Status.Unfinished) → mid.files ≡ Some files → before.files ≡ Some files
        → Ends (Check s t p k) before new status → (status ≡ Status.Done) ⊎ Yields status }
{
    reasons();
    texts_of_plans();
    texts_of_certificates();
}

/// `check-pinned` of the files that `pinned` left, whether with `Done` or with `Unfinished`, over the same pins, accepts them, unless the
/// store, memory or the sink came first.
pub fn own_pinned_plans_are_accepted()
    ensures { (s t i : List ℕ) (m : ℕ) (p k : List ℕ) (old mid before new : Seen)
        (first status : Status) (files : Files) → IsUsable (MakePinned s t i m p k)
        → Ends (MakePinned s t i m p k) old mid first → (first ≡ Status.Done)
        ⊎ (first ≡ Status.Unfinished) → mid.files ≡ Some files → before.files ≡ Some files
        → Ends (CheckPinned s t i p k) before new status → (status ≡ Status.Done) ⊎ Yields status }
{
    laws::pins();
    reasons();
    texts_of_plans();
    texts_of_certificates();
}

/// `check-pinned` of the new plan and the certificate that `improve` left, whether with `Done` or with `Unfinished`, over the same pins,
/// accepts them, unless the store, memory or the sink came first.
pub fn own_improved_plans_are_accepted()
    ensures { (s t i h : List ℕ) (m : ℕ) (p k : List ℕ) (old mid before new : Seen)
        (first status : Status) (files : Files) → IsUsable (Improve s t i h m p k)
        → Ends (Improve s t i h m p k) old mid first → (first ≡ Status.Done)
        ⊎ (first ≡ Status.Unfinished) → mid.files ≡ Some files → before.files ≡ Some files
        → Ends (CheckPinned s t i p k) before new status → (status ≡ Status.Done) ⊎ Yields status }
{
    laws::pins();
    laws::plan_findings();
    kept_matchings();
    reasons();
    texts_of_plans();
    texts_of_certificates();
}
