//! What follows from the contract of `run` on when each status comes and what then stands: of every command, and then of each.
//! The files of a `Seen` are those that can be known, as the definition `AreKnown` has it: they are told by the store; or before a run they are
//! any that hold what was read in it, and after it these with what was stored. So each law holds of the real folder too, over what was read.
ghost use Rattle.std.specs.Prelude.{◌≡◌, ◌⊎◌, List, [], ◌++◌, ℕ, Some, Ok, ◌∷◌, ◌+◌, length};
ghost use Rattle.std.specs.FinMap as map;
ghost use Rattle.shunt_lists.specs.defs.Members.{In};
ghost use Rattle.shunt_store.specs.defs.Files.{Files, BothTold, content};
ghost use Rattle.shunt_store.specs.defs.Causes.{Rose};
ghost use Rattle.shunt_instance.specs.defs.Instance.{Night};
ghost use Rattle.shunt_matching.specs.defs.Nights.{Matches};
ghost use Rattle.shunt_plan.specs.declared.records.Plan.{Plan};
ghost use Rattle.shunt_checker.specs.declared.verdict.Verdict.TheVariants as verdict;
ghost use Rattle.shunt_report.specs.defs.VerdictTexts.{verdict_of};
ghost use Rattle.shunt_report.specs.defs.SheetTexts.{followed_of};
ghost use Rattle.shunt_sheet.specs.defs.Orders.{orders_in};
ghost use Rattle.shunt_sheet.specs.declared.records.Followed.TheVariants as answers;
ghost use Rattle.shunt_moves.specs.defs.States.{IsState};
ghost use Rattle.shunt_inputs.specs.declared.answers.Outcome.{Outcome};
ghost use Rattle.shunt.specs.declared.status.Status.{Status};
ghost use Rattle.shunt_planning.specs.defs.Found.{IsBounded};
ghost use Rattle.shunt_proof.specs.declared.records.Certificate.{Certificate};
ghost use Rattle.shunt_exchange.specs.defs.Upgraded.{Upgradable, upgrade_in};
ghost use Rattle.shunt_trial.specs.defs.Tried.{made_night, tried};
ghost use Rattle.shunt_dispatch.specs.defs.Compared.{Comparable, comparison_in, AreAlike};
ghost use Rattle.shunt_dispatch.specs.defs.Followed.{Followable, following_in, GoesThrough};
ghost use Rattle.shunt.specs.defs.Calls.{Call, Match, Follow, Audit, Delay, Report, Check, Compare};
ghost use Rattle.shunt.specs.defs.Calls.{Zones, Sheet, Draw, Page, Upgrade, Trial, Drivers, Roster};
ghost use Rattle.shunt.specs.defs.Calls.{CheckPinned, Replay};
ghost use Rattle.shunt.specs.defs.Words.{IsUsable, outputs_of};
ghost use Rattle.shunt_inputs.specs.defs.Inputs.{Agrees, stated_night, plans_in};
ghost use Rattle.shunt_judging.specs.defs.Checked.{Checkable, check_in, IsProved, BoundsAll};
ghost use Rattle.shunt_judging.specs.defs.Pinned.{PinChecked, pin_check_in, IsPinProved};
ghost use Rattle.shunt_judging.specs.defs.Pinned.{BoundsKept};
ghost use Rattle.shunt_throat.specs.defs.Passed.{Passable, passing_in, NoneMeet};
ghost use Rattle.shunt_throat.specs.defs.Shared.{Sharable, sharing_in};
ghost use Rattle.shunt_throat.specs.defs.Rostered.{Rosterable, rostering_in, SharesAll};
ghost use Rattle.shunt_plan.specs.declared.edits.Turn.{Turn};
ghost use Rattle.shunt_judging.specs.defs.Replayed.{Replayable, stated_turns, turns_in, last_of};
ghost use Rattle.shunt_judging.specs.defs.Replayed.{after_turns, bench_of, lines_from};
ghost use Rattle.shunt_judging.specs.defs.Replayed.{replay_lines, IsTurnLine, EndsFeasible};
ghost use Rattle.shunt.specs.defs.Replies.{refused, IsReply, IsReplyOver};
ghost use Rattle.shunt_inputs.specs.defs.Replies.{Reply, refusal, says};
ghost use Rattle.shunt_judging.specs.defs.Audited.{IsClean};
ghost use Rattle.shunt_inputs.specs.defs.Writes.{Stays, WritesSome};
ghost use Rattle.shunt.specs.defs.Ends.{Ends, Seen, known_of, CutInText, IsWhole, Yields};
ghost use Rattle.shunt.specs.defs.Ends.{the_status};

use shunt_audit::laws;
use shunt_audit::laws::findings;
use shunt_checker::laws::reasons;
use shunt_compare::laws::same_plans;
use shunt_drivers::laws::{roster_fault_in_words, stated_values_are_formed, texts_of_rosters};
use shunt_make::laws::made_nights;
use shunt_proof::laws::proved_bounds;
use shunt_sheet::laws::{sheets_of_plans, texts_of_sheets};

/// `Store` comes only if the store failed in the call, and `Sink` only if the sink did, so neither over a store or a
/// sink whose count of faults is 0. `Words` never comes of words that spell a command.
pub fn failures_have_causes()
    ensures store { (c : Call) (old new : Seen) → Ends c old new Status.Store
        → Rose old.store_faults new.store_faults }
    ensures sink { (c : Call) (old new : Seen) → Ends c old new Status.Sink
        → Rose old.sink_faults new.sink_faults }
    ensures words { (c : Call) (old new : Seen) → Ends c old new Status.Words → ⊥ }
    ensures sure_store { (c : Call) (old new : Seen) → new.store_faults ≡ 0
        → Ends c old new Status.Store → ⊥ }
    ensures sure_sink { (c : Call) (old new : Seen) → new.sink_faults ≡ 0
        → Ends c old new Status.Sink → ⊥ }
{}

/// A command ends with `Input` exactly when an input file isn't accepted, unless the store, memory or the sink came first.
/// Then no file was written, and the line for the first file that isn't accepted was printed.
pub fn input_exactly()
    ensures there { (c : Call) (old new : Seen) (status : Status) (files : Files) (text : List ℕ)
        → old.files ≡ Some files → refused c files ≡ Some text → Ends c old new status
        → ((status ≡ Status.Input) × IsWhole (refusal text) old new) ⊎ Yields status }
    ensures only { (c : Call) (old new : Seen) → Ends c old new Status.Input
        → (files : Files) × Agrees old.files files
        × ((text : List ℕ) × (refused c files ≡ Some text) × IsWhole (refusal text) old new) }
{}

/// A command ends with the status of its defined reply, all of which then was written and printed, unless the store, memory
/// or the sink came first; where neither the store nor the sink fails, only memory can.
pub fn statuses_are_of_replies()
    ensures there { (c : Call) (o : Outcome) (old new : Seen) (status : Status) (files : Files)
        → old.files ≡ Some files → ((r : Reply) → IsReply c files r → r.outcome ≡ o)
        → Ends c old new status → (status ≡ the_status o) ⊎ Yields status }
    ensures only { (c : Call) (o : Outcome) (old new : Seen) → Ends c old new (the_status o)
        → (r : Reply) × IsReplyOver c old.files r × (r.outcome ≡ o) × IsWhole r old new }
    ensures completes { (c : Call) (old new : Seen) (status : Status)
        → (Rose old.store_faults new.store_faults → ⊥) → (Rose old.sink_faults new.sink_faults → ⊥)
        → Ends c old new status → (status ≡ Status.Memory)
        ⊎ ((r : Reply) × IsReplyOver c old.files r × (status ≡ the_status r.outcome)) }
{}

/// No file but those that the command writes is changed, whatever the status. After `Store` nothing was printed. After
/// `Memory` nothing was, or the files of a defined reply were written and a front of its text was printed, as after `Sink`.
/// After `Store` and `Memory` no file was changed, or the first of the files that a defined reply writes, in their order, hold their whole
/// texts and all others what they held: so it is of the certificate of `plan`, `pinned` and `improve` too, and then of their plan. A store that
/// doesn't tell its files tells that exactly these were stored.
pub fn what_stands_after()
    ensures others { (c : Call) (old new : Seen) (status : Status) (name : List ℕ)
        → (In name (outputs_of c) → ⊥) → Ends c old new status
        → BothTold old.files new.files (λ a b. map.get b name ≡ map.get a name) }
    ensures store { (c : Call) (old new : Seen) → Ends c old new Status.Store
        → new.output ≡ old.output }
    ensures some { (c : Call) (old new : Seen) (status : Status)
        → (status ≡ Status.Store) ⊎ (status ≡ Status.Memory) → Ends c old new status
        → Stays (known_of old) (known_of new) ⊎ ((r : Reply) × IsReplyOver c old.files r
        × WritesSome r.writes (known_of old) (known_of new)) }
    ensures memory { (c : Call) (old new : Seen) → Ends c old new Status.Memory
        → (new.output ≡ old.output)
        ⊎ ((r : Reply) × IsReplyOver c old.files r × CutInText r old new) }
    ensures sink { (c : Call) (old new : Seen) → Ends c old new Status.Sink
        → (r : Reply) × IsReplyOver c old.files r × CutInText r old new }
{}

/// `match` ends with `NoMatching` exactly when both files are accepted and no list is a matching, unless the store,
/// memory or the sink came first.
pub fn match_no_matching_exactly()
    ensures there { (s t : List ℕ) (old new : Seen) (status : Status) (files : Files)
        (night : Night) → old.files ≡ Some files → stated_night (content files s) (content files t)
        ≡ Ok night → ((place : List ℕ) → Matches night place → ⊥) → Ends (Match s t) old new status
        → (status ≡ Status.NoMatching) ⊎ Yields status }
    ensures only { (s t : List ℕ) (old new : Seen) → Ends (Match s t) old new Status.NoMatching
        → (files : Files) × Agrees old.files files
        × ((night : Night) × (stated_night (content files s) (content files t) ≡ Ok night)
        × ((place : List ℕ) → Matches night place → ⊥)) }
{}

/// `match` ends with `Done` exactly when both files are accepted and a matching exists, unless the store, memory or the
/// sink came first; it never ends with `Findings` or `Unfinished`.
pub fn match_done_exactly()
    ensures there { (s t : List ℕ) (old new : Seen) (status : Status) (files : Files)
        (night : Night) → old.files ≡ Some files → stated_night (content files s) (content files t)
        ≡ Ok night → ((place : List ℕ) × Matches night place) → Ends (Match s t) old new status
        → (status ≡ Status.Done) ⊎ Yields status }
    ensures only { (s t : List ℕ) (old new : Seen) → Ends (Match s t) old new Status.Done
        → (files : Files) × Agrees old.files files
        × ((night : Night) × (stated_night (content files s) (content files t) ≡ Ok night)
        × ((place : List ℕ) × Matches night place)) }
    ensures no_findings { (s t : List ℕ) (old new : Seen) → Ends (Match s t) old new Status.Findings
        → ⊥ }
    ensures no_unfinished { (s t : List ℕ) (old new : Seen)
        → Ends (Match s t) old new Status.Unfinished → ⊥ }
{}

/// If both files are accepted and neither the store nor the sink fails, `match` ends with `Done`, `NoMatching` or
/// `Memory`.
pub fn match_completes()
    ensures { (s t : List ℕ) (old new : Seen) (status : Status) (files : Files) (night : Night)
        → old.files ≡ Some files → stated_night (content files s) (content files t) ≡ Ok night
        → (Rose old.store_faults new.store_faults → ⊥) → (Rose old.sink_faults new.sink_faults → ⊥)
        → Ends (Match s t) old new status
        → (status ≡ Status.Done) ⊎ ((status ≡ Status.NoMatching) ⊎ (status ≡ Status.Memory)) }
{}

/// `audit` ends with `Done` exactly when the files are accepted and the plan is feasible and states its cost, and with
/// `Findings` exactly when they are accepted and it isn't so, unless the store, memory or the sink came first. It never ends
/// with `NoMatching` or `Unfinished`.
pub fn audit_done_exactly()
    ensures done { (s t p : List ℕ) (old new : Seen) (status : Status) (files : Files)
        (x : Night × Plan) → old.files ≡ Some files → plans_in s t p files ≡ Ok x → IsClean x
        → Ends (Audit s t p) old new status → (status ≡ Status.Done) ⊎ Yields status }
    ensures done_only { (s t p : List ℕ) (old new : Seen) → Ends (Audit s t p) old new Status.Done
        → (files : Files) × Agrees old.files files
        × ((x : Night × Plan) × (plans_in s t p files ≡ Ok x) × IsClean x) }
    ensures findings { (s t p : List ℕ) (old new : Seen) (status : Status) (files : Files)
        (x : Night × Plan) → old.files ≡ Some files → plans_in s t p files ≡ Ok x → (IsClean x → ⊥)
        → Ends (Audit s t p) old new status → (status ≡ Status.Findings) ⊎ Yields status }
    ensures findings_only { (s t p : List ℕ) (old new : Seen)
        → Ends (Audit s t p) old new Status.Findings → (files : Files) × Agrees old.files files
        × ((x : Night × Plan) × (plans_in s t p files ≡ Ok x) × (IsClean x → ⊥)) }
    ensures no_matching { (s t p : List ℕ) (old new : Seen)
        → Ends (Audit s t p) old new Status.NoMatching → ⊥ }
    ensures no_unfinished { (s t p : List ℕ) (old new : Seen)
        → Ends (Audit s t p) old new Status.Unfinished → ⊥ }
{
    laws::plan_findings();
}

/// If the files are accepted and neither the store nor the sink fails, `audit` ends with `Done`, `Findings` or `Memory`.
pub fn audit_completes()
    ensures { (s t p : List ℕ) (old new : Seen) (status : Status) (files : Files) (x : Night × Plan)
        → old.files ≡ Some files → plans_in s t p files ≡ Ok x
        → (Rose old.store_faults new.store_faults → ⊥) → (Rose old.sink_faults new.sink_faults → ⊥)
        → Ends (Audit s t p) old new status
        → (status ≡ Status.Done) ⊎ ((status ≡ Status.Findings) ⊎ (status ≡ Status.Memory)) }
{}

/// `delay` ends with `Done` exactly when the files are accepted and the plan is feasible and states its cost, and with
/// `Findings` exactly when they are accepted and it isn't so, unless the store, memory or the sink came first. It never ends
/// with `NoMatching` or `Unfinished`.
pub fn delay_done_exactly()
    ensures done { (s t p : List ℕ) (old new : Seen) (status : Status) (files : Files)
        (x : Night × Plan) → old.files ≡ Some files → plans_in s t p files ≡ Ok x → IsClean x
        → Ends (Delay s t p) old new status → (status ≡ Status.Done) ⊎ Yields status }
    ensures done_only { (s t p : List ℕ) (old new : Seen) → Ends (Delay s t p) old new Status.Done
        → (files : Files) × Agrees old.files files
        × ((x : Night × Plan) × (plans_in s t p files ≡ Ok x) × IsClean x) }
    ensures findings { (s t p : List ℕ) (old new : Seen) (status : Status) (files : Files)
        (x : Night × Plan) → old.files ≡ Some files → plans_in s t p files ≡ Ok x → (IsClean x → ⊥)
        → Ends (Delay s t p) old new status → (status ≡ Status.Findings) ⊎ Yields status }
    ensures findings_only { (s t p : List ℕ) (old new : Seen)
        → Ends (Delay s t p) old new Status.Findings → (files : Files) × Agrees old.files files
        × ((x : Night × Plan) × (plans_in s t p files ≡ Ok x) × (IsClean x → ⊥)) }
    ensures no_matching { (s t p : List ℕ) (old new : Seen)
        → Ends (Delay s t p) old new Status.NoMatching → ⊥ }
    ensures no_unfinished { (s t p : List ℕ) (old new : Seen)
        → Ends (Delay s t p) old new Status.Unfinished → ⊥ }
{
    laws::plan_findings();
}

/// If the files are accepted and neither the store nor the sink fails, `delay` ends with `Done`, `Findings` or `Memory`.
pub fn delay_completes()
    ensures { (s t p : List ℕ) (old new : Seen) (status : Status) (files : Files) (x : Night × Plan)
        → old.files ≡ Some files → plans_in s t p files ≡ Ok x
        → (Rose old.store_faults new.store_faults → ⊥) → (Rose old.sink_faults new.sink_faults → ⊥)
        → Ends (Delay s t p) old new status
        → (status ≡ Status.Done) ⊎ ((status ≡ Status.Findings) ⊎ (status ≡ Status.Memory)) }
{}

/// `report` ends with `Done` exactly when the files are accepted and the plan is feasible and states its cost, and with
/// `Findings` exactly when they are accepted and it isn't so, unless the store, memory or the sink came first. It never ends
/// with `NoMatching` or `Unfinished`.
pub fn report_done_exactly()
    ensures done { (s t p : List ℕ) (old new : Seen) (status : Status) (files : Files)
        (x : Night × Plan) → old.files ≡ Some files → plans_in s t p files ≡ Ok x → IsClean x
        → Ends (Report s t p) old new status → (status ≡ Status.Done) ⊎ Yields status }
    ensures done_only { (s t p : List ℕ) (old new : Seen) → Ends (Report s t p) old new Status.Done
        → (files : Files) × Agrees old.files files
        × ((x : Night × Plan) × (plans_in s t p files ≡ Ok x) × IsClean x) }
    ensures findings { (s t p : List ℕ) (old new : Seen) (status : Status) (files : Files)
        (x : Night × Plan) → old.files ≡ Some files → plans_in s t p files ≡ Ok x → (IsClean x → ⊥)
        → Ends (Report s t p) old new status → (status ≡ Status.Findings) ⊎ Yields status }
    ensures findings_only { (s t p : List ℕ) (old new : Seen)
        → Ends (Report s t p) old new Status.Findings → (files : Files) × Agrees old.files files
        × ((x : Night × Plan) × (plans_in s t p files ≡ Ok x) × (IsClean x → ⊥)) }
    ensures no_matching { (s t p : List ℕ) (old new : Seen)
        → Ends (Report s t p) old new Status.NoMatching → ⊥ }
    ensures no_unfinished { (s t p : List ℕ) (old new : Seen)
        → Ends (Report s t p) old new Status.Unfinished → ⊥ }
{
    laws::plan_findings();
}

/// If the files are accepted and neither the store nor the sink fails, `report` ends with `Done`, `Findings` or `Memory`.
pub fn report_completes()
    ensures { (s t p : List ℕ) (old new : Seen) (status : Status) (files : Files) (x : Night × Plan)
        → old.files ≡ Some files → plans_in s t p files ≡ Ok x
        → (Rose old.store_faults new.store_faults → ⊥) → (Rose old.sink_faults new.sink_faults → ⊥)
        → Ends (Report s t p) old new status
        → (status ≡ Status.Done) ⊎ ((status ≡ Status.Findings) ⊎ (status ≡ Status.Memory)) }
{}

/// `upgrade` ends with `Done` exactly when the files are accepted, unless the store, memory or the sink came first. It never ends
/// with `Findings`, `NoMatching` or `Unfinished`.
pub fn upgrade_done_exactly()
    ensures done { (s t n m : List ℕ) (old new : Seen) (status : Status) (files : Files)
        (x : Upgradable) → old.files ≡ Some files → upgrade_in s t files ≡ Ok x
        → Ends (Upgrade s t n m) old new status → (status ≡ Status.Done) ⊎ Yields status }
    ensures done_only { (s t n m : List ℕ) (old new : Seen)
        → Ends (Upgrade s t n m) old new Status.Done → (files : Files) × Agrees old.files files
        × ((x : Upgradable) × (upgrade_in s t files ≡ Ok x)) }
    ensures no_findings { (s t n m : List ℕ) (old new : Seen)
        → Ends (Upgrade s t n m) old new Status.Findings → ⊥ }
    ensures no_matching { (s t n m : List ℕ) (old new : Seen)
        → Ends (Upgrade s t n m) old new Status.NoMatching → ⊥ }
    ensures no_unfinished { (s t n m : List ℕ) (old new : Seen)
        → Ends (Upgrade s t n m) old new Status.Unfinished → ⊥ }
{}

/// If the files are accepted and neither the store nor the sink fails, `upgrade` ends with `Done` or `Memory`.
pub fn upgrade_completes()
    ensures { (s t n m : List ℕ) (old new : Seen) (status : Status) (files : Files) (x : Upgradable)
        → old.files ≡ Some files → upgrade_in s t files ≡ Ok x
        → (Rose old.store_faults new.store_faults → ⊥) → (Rose old.sink_faults new.sink_faults → ⊥)
        → Ends (Upgrade s t n m) old new status
        → (status ≡ Status.Done) ⊎ (status ≡ Status.Memory) }
{}

/// `trial` ends with `Done`, unless the store, memory or the sink came first, also where its plan isn't optimal. It never ends with
/// `Findings`, `Input`, `NoMatching` or `Unfinished`.
pub fn trial_done_exactly()
    ensures done { (n u m : ℕ) (s t p k : List ℕ) (old new : Seen) (status : Status)
        → Ends (Trial n u m s t p k) old new status → (status ≡ Status.Done) ⊎ Yields status }
    ensures no_findings { (n u m : ℕ) (s t p k : List ℕ) (old new : Seen)
        → Ends (Trial n u m s t p k) old new Status.Findings → ⊥ }
    ensures no_input { (n u m : ℕ) (s t p k : List ℕ) (old new : Seen)
        → Ends (Trial n u m s t p k) old new Status.Input → ⊥ }
    ensures no_matching { (n u m : ℕ) (s t p k : List ℕ) (old new : Seen)
        → Ends (Trial n u m s t p k) old new Status.NoMatching → ⊥ }
    ensures no_unfinished { (n u m : ℕ) (s t p k : List ℕ) (old new : Seen)
        → Ends (Trial n u m s t p k) old new Status.Unfinished → ⊥ }
{}

/// If neither the store nor the sink fails, `trial` ends with `Done` or `Memory`.
pub fn trial_completes()
    ensures { (n u m : ℕ) (s t p k : List ℕ) (old new : Seen) (status : Status)
        → (Rose old.store_faults new.store_faults → ⊥) → (Rose old.sink_faults new.sink_faults → ⊥)
        → Ends (Trial n u m s t p k) old new status
        → (status ≡ Status.Done) ⊎ (status ≡ Status.Memory) }
{}

/// Where `trial` ends with `Done`, its files hold the texts of the night that is made of the number, of a feasible plan of it that states
/// its cost, and of a certificate; every feasible plan of that night costs at least the certificate's bound; and both were printed. So
/// where the bound is the cost, no feasible plan is cheaper.
pub fn trial_bounds_every_plan()
    ensures { (n u m : ℕ) (s t p k : List ℕ) (old new : Seen) → IsUsable (Trial n u m s t p k)
        → Ends (Trial n u m s t p k) old new Status.Done → (plan : Plan) × (c : Certificate)
        × IsBounded (made_night n u) [] plan c.bound × IsWhole (tried n u s t p k plan c) old new }
{
    made_nights();
    proved_bounds();
}

/// `check` ends with `Done` exactly when the files are accepted and the certificate is accepted with the plan, and with `Findings`
/// exactly when they are accepted and it isn't so, unless the store, memory or the sink came first. It never ends with `NoMatching`
/// or `Unfinished`.
pub fn check_done_exactly()
    ensures done { (s t p k : List ℕ) (old new : Seen) (status : Status) (files : Files)
        (x : Checkable) → old.files ≡ Some files → check_in s t p k files ≡ Ok x → IsProved x
        → Ends (Check s t p k) old new status → (status ≡ Status.Done) ⊎ Yields status }
    ensures done_only { (s t p k : List ℕ) (old new : Seen)
        → Ends (Check s t p k) old new Status.Done → (files : Files) × Agrees old.files files
        × ((x : Checkable) × (check_in s t p k files ≡ Ok x) × IsProved x) }
    ensures findings { (s t p k : List ℕ) (old new : Seen) (status : Status) (files : Files)
        (x : Checkable) → old.files ≡ Some files → check_in s t p k files ≡ Ok x → (IsProved x → ⊥)
        → Ends (Check s t p k) old new status → (status ≡ Status.Findings) ⊎ Yields status }
    ensures findings_only { (s t p k : List ℕ) (old new : Seen)
        → Ends (Check s t p k) old new Status.Findings → (files : Files) × Agrees old.files files
        × ((x : Checkable) × (check_in s t p k files ≡ Ok x) × (IsProved x → ⊥)) }
    ensures no_matching { (s t p k : List ℕ) (old new : Seen)
        → Ends (Check s t p k) old new Status.NoMatching → ⊥ }
    ensures no_unfinished { (s t p k : List ℕ) (old new : Seen)
        → Ends (Check s t p k) old new Status.Unfinished → ⊥ }
{
    reasons();
}

/// Where `check` ends with `Done`, the plan is feasible and states its cost, every feasible plan of the night costs at least the bound
/// that the certificate states, and the line that was printed tells that bound. So where the bound is the cost, no feasible plan is
/// cheaper.
pub fn check_bounds_every_plan()
    ensures { (s t p k : List ℕ) (old new : Seen) → Ends (Check s t p k) old new Status.Done
        → (files : Files) × Agrees old.files files × ((x : Checkable)
        × (check_in s t p k files ≡ Ok x) × BoundsAll x × IsWhole (says Outcome.Done
        (verdict_of x.night x.certificate (verdict.Accepted x.certificate.bound))) old new) }
{
    reasons();
}

/// If the files are accepted and neither the store nor the sink fails, `check` ends with `Done`, `Findings` or `Memory`.
pub fn check_completes()
    ensures { (s t p k : List ℕ) (old new : Seen) (status : Status) (files : Files) (x : Checkable)
        → old.files ≡ Some files → check_in s t p k files ≡ Ok x
        → (Rose old.store_faults new.store_faults → ⊥) → (Rose old.sink_faults new.sink_faults → ⊥)
        → Ends (Check s t p k) old new status
        → (status ≡ Status.Done) ⊎ ((status ≡ Status.Findings) ⊎ (status ≡ Status.Memory)) }
{}

/// `check-pinned` ends with `Done` exactly when the files are accepted, the pins are usable and the certificate is accepted with the plan,
/// which keeps them, and with `Findings` exactly when the files are accepted and it isn't so, unless the store, memory or the sink came
/// first. It never ends with `NoMatching` or `Unfinished`.
pub fn check_pinned_done_exactly()
    ensures done { (s t i p k : List ℕ) (old new : Seen) (status : Status) (files : Files)
        (x : PinChecked) → old.files ≡ Some files → pin_check_in s t i p k files ≡ Ok x
        → IsPinProved x → Ends (CheckPinned s t i p k) old new status
        → (status ≡ Status.Done) ⊎ Yields status }
    ensures done_only { (s t i p k : List ℕ) (old new : Seen) → Ends
        (CheckPinned s t i p k) old new Status.Done → (files : Files) × Agrees old.files files
        × ((x : PinChecked) × (pin_check_in s t i p k files ≡ Ok x) × IsPinProved x) }
    ensures findings { (s t i p k : List ℕ) (old new : Seen) (status : Status) (files : Files)
        (x : PinChecked) → old.files ≡ Some files → pin_check_in s t i p k files ≡ Ok x
        → (IsPinProved x → ⊥) → Ends (CheckPinned s t i p k) old new status
        → (status ≡ Status.Findings) ⊎ Yields status }
    ensures findings_only { (s t i p k : List ℕ) (old new : Seen) → Ends
        (CheckPinned s t i p k) old new Status.Findings → (files : Files) × Agrees old.files files
        × ((x : PinChecked) × (pin_check_in s t i p k files ≡ Ok x) × (IsPinProved x → ⊥)) }
    ensures no_matching { (s t i p k : List ℕ) (old new : Seen)
        → Ends (CheckPinned s t i p k) old new Status.NoMatching → ⊥ }
    ensures no_unfinished { (s t i p k : List ℕ) (old new : Seen)
        → Ends (CheckPinned s t i p k) old new Status.Unfinished → ⊥ }
{
    laws::pins();
    reasons();
}

/// Where `check-pinned` ends with `Done`, the pins are usable, the plan is feasible, keeps them and states its cost, every feasible plan of
/// the night that keeps them costs at least the bound of the certificate, which has the plan's cost, and that bound was printed as accepted.
pub fn check_pinned_bounds_every_plan()
    ensures { (s t i p k : List ℕ) (old new : Seen)
        → Ends (CheckPinned s t i p k) old new Status.Done
        → (files : Files) × Agrees old.files files × ((x : PinChecked)
        × (pin_check_in s t i p k files ≡ Ok x) × BoundsKept x × IsWhole (says Outcome.Done
        (verdict_of x.night x.certificate (verdict.Accepted x.certificate.bound))) old new) }
{
    reasons();
}

/// If the files are accepted and neither the store nor the sink fails, `check-pinned` ends with `Done`, `Findings` or `Memory`.
pub fn check_pinned_completes()
    ensures { (s t i p k : List ℕ) (old new : Seen) (status : Status) (files : Files)
        (x : PinChecked) → old.files ≡ Some files → pin_check_in s t i p k files ≡ Ok x
        → (Rose old.store_faults new.store_faults → ⊥) → (Rose old.sink_faults new.sink_faults → ⊥)
        → Ends (CheckPinned s t i p k) old new status
        → (status ≡ Status.Done) ⊎ ((status ≡ Status.Findings) ⊎ (status ≡ Status.Memory)) }
{}

/// `compare` ends with `Done` exactly when the files are accepted, both plans are feasible and state their costs, and each keeps the
/// other's blocks, whatever their ids; and with `Findings` exactly when they are accepted and it isn't so, unless the store, memory or
/// the sink came first. It never ends with `NoMatching` or `Unfinished`.
pub fn compare_done_exactly()
    ensures done { (s t p o : List ℕ) (old new : Seen) (status : Status) (files : Files)
        (x : Comparable) → old.files ≡ Some files → comparison_in s t p o files ≡ Ok x → AreAlike x
        → Ends (Compare s t p o) old new status → (status ≡ Status.Done) ⊎ Yields status }
    ensures done_only { (s t p o : List ℕ) (old new : Seen)
        → Ends (Compare s t p o) old new Status.Done → (files : Files) × Agrees old.files files
        × ((x : Comparable) × (comparison_in s t p o files ≡ Ok x) × AreAlike x) }
    ensures findings { (s t p o : List ℕ) (old new : Seen) (status : Status) (files : Files)
        (x : Comparable) → old.files ≡ Some files → comparison_in s t p o files ≡ Ok x
        → (AreAlike x → ⊥) → Ends (Compare s t p o) old new status
        → (status ≡ Status.Findings) ⊎ Yields status }
    ensures findings_only { (s t p o : List ℕ) (old new : Seen)
        → Ends (Compare s t p o) old new Status.Findings → (files : Files) × Agrees old.files files
        × ((x : Comparable) × (comparison_in s t p o files ≡ Ok x) × (AreAlike x → ⊥)) }
    ensures no_matching { (s t p o : List ℕ) (old new : Seen)
        → Ends (Compare s t p o) old new Status.NoMatching → ⊥ }
    ensures no_unfinished { (s t p o : List ℕ) (old new : Seen)
        → Ends (Compare s t p o) old new Status.Unfinished → ⊥ }
{
    laws::plan_findings();
    same_plans();
}

/// If the files are accepted and neither the store nor the sink fails, `compare` ends with `Done`, `Findings` or `Memory`.
pub fn compare_completes()
    ensures { (s t p o : List ℕ) (old new : Seen) (status : Status) (files : Files) (x : Comparable)
        → old.files ≡ Some files → comparison_in s t p o files ≡ Ok x
        → (Rose old.store_faults new.store_faults → ⊥) → (Rose old.sink_faults new.sink_faults → ⊥)
        → Ends (Compare s t p o) old new status
        → (status ≡ Status.Done) ⊎ ((status ≡ Status.Findings) ⊎ (status ≡ Status.Memory)) }
{
    laws::plan_findings();
    same_plans();
}

/// `zones` ends with `Done` exactly when the files are accepted and no two moves of the plan meet in a zone, and with `Findings` exactly
/// where they are accepted and two do, unless the store, memory or the sink came first. It never ends with `NoMatching` or `Unfinished`.
pub fn zones_done_exactly()
    ensures done { (s t p z : List ℕ) (old new : Seen) (status : Status) (files : Files)
        (x : Passable) → old.files ≡ Some files → passing_in s t p z files ≡ Ok x → NoneMeet x
        → Ends (Zones s t p z) old new status → (status ≡ Status.Done) ⊎ Yields status }
    ensures done_only { (s t p z : List ℕ) (old new : Seen)
        → Ends (Zones s t p z) old new Status.Done → (files : Files) × Agrees old.files files
        × ((x : Passable) × (passing_in s t p z files ≡ Ok x) × NoneMeet x) }
    ensures findings { (s t p z : List ℕ) (old new : Seen) (status : Status) (files : Files)
        (x : Passable) → old.files ≡ Some files → passing_in s t p z files ≡ Ok x → (NoneMeet x → ⊥)
        → Ends (Zones s t p z) old new status → (status ≡ Status.Findings) ⊎ Yields status }
    ensures findings_only { (s t p z : List ℕ) (old new : Seen)
        → Ends (Zones s t p z) old new Status.Findings → (files : Files) × Agrees old.files files
        × ((x : Passable) × (passing_in s t p z files ≡ Ok x) × (NoneMeet x → ⊥)) }
    ensures no_matching { (s t p z : List ℕ) (old new : Seen)
        → Ends (Zones s t p z) old new Status.NoMatching → ⊥ }
    ensures no_unfinished { (s t p z : List ℕ) (old new : Seen)
        → Ends (Zones s t p z) old new Status.Unfinished → ⊥ }
{}

/// If the files are accepted and neither the store nor the sink fails, `zones` ends with `Done`, `Findings` or `Memory`.
pub fn zones_completes()
    ensures { (s t p z : List ℕ) (old new : Seen) (status : Status) (files : Files) (x : Passable)
        → old.files ≡ Some files → passing_in s t p z files ≡ Ok x
        → (Rose old.store_faults new.store_faults → ⊥) → (Rose old.sink_faults new.sink_faults → ⊥)
        → Ends (Zones s t p z) old new status
        → (status ≡ Status.Done) ⊎ ((status ≡ Status.Findings) ⊎ (status ≡ Status.Memory)) }
{}

/// `sheet` ends with `Done` exactly when the files are accepted and the plan is feasible and states its cost, and with
/// `Findings` exactly when they are accepted and it isn't so, unless the store, memory or the sink came first. It never ends
/// with `NoMatching` or `Unfinished`.
pub fn sheet_done_exactly()
    ensures done { (s t p n : List ℕ) (old new : Seen) (status : Status) (files : Files)
        (x : Night × Plan) → old.files ≡ Some files → plans_in s t p files ≡ Ok x → IsClean x
        → Ends (Sheet s t p n) old new status → (status ≡ Status.Done) ⊎ Yields status }
    ensures done_only { (s t p n : List ℕ) (old new : Seen)
        → Ends (Sheet s t p n) old new Status.Done → (files : Files) × Agrees old.files files
        × ((x : Night × Plan) × (plans_in s t p files ≡ Ok x) × IsClean x) }
    ensures findings { (s t p n : List ℕ) (old new : Seen) (status : Status) (files : Files)
        (x : Night × Plan) → old.files ≡ Some files → plans_in s t p files ≡ Ok x → (IsClean x → ⊥)
        → Ends (Sheet s t p n) old new status → (status ≡ Status.Findings) ⊎ Yields status }
    ensures findings_only { (s t p n : List ℕ) (old new : Seen)
        → Ends (Sheet s t p n) old new Status.Findings → (files : Files) × Agrees old.files files
        × ((x : Night × Plan) × (plans_in s t p files ≡ Ok x) × (IsClean x → ⊥)) }
    ensures no_matching { (s t p n : List ℕ) (old new : Seen)
        → Ends (Sheet s t p n) old new Status.NoMatching → ⊥ }
    ensures no_unfinished { (s t p n : List ℕ) (old new : Seen)
        → Ends (Sheet s t p n) old new Status.Unfinished → ⊥ }
{
    laws::plan_findings();
}

/// If the files are accepted and neither the store nor the sink fails, `sheet` ends with `Done`, `Findings` or `Memory`.
pub fn sheet_completes()
    ensures { (s t p n : List ℕ) (old new : Seen) (status : Status) (files : Files)
        (x : Night × Plan) → old.files ≡ Some files → plans_in s t p files ≡ Ok x
        → (Rose old.store_faults new.store_faults → ⊥) → (Rose old.sink_faults new.sink_faults → ⊥)
        → Ends (Sheet s t p n) old new status
        → (status ≡ Status.Done) ⊎ ((status ≡ Status.Findings) ⊎ (status ≡ Status.Memory)) }
{}

/// `draw` ends with `Done` exactly when the files are accepted and the plan is feasible and states its cost, and with
/// `Findings` exactly when they are accepted and it isn't so, unless the store, memory or the sink came first. It never ends
/// with `NoMatching` or `Unfinished`.
pub fn draw_done_exactly()
    ensures done { (s t p n : List ℕ) (old new : Seen) (status : Status) (files : Files)
        (x : Night × Plan) → old.files ≡ Some files → plans_in s t p files ≡ Ok x → IsClean x
        → Ends (Draw s t p n) old new status → (status ≡ Status.Done) ⊎ Yields status }
    ensures done_only { (s t p n : List ℕ) (old new : Seen)
        → Ends (Draw s t p n) old new Status.Done → (files : Files) × Agrees old.files files
        × ((x : Night × Plan) × (plans_in s t p files ≡ Ok x) × IsClean x) }
    ensures findings { (s t p n : List ℕ) (old new : Seen) (status : Status) (files : Files)
        (x : Night × Plan) → old.files ≡ Some files → plans_in s t p files ≡ Ok x → (IsClean x → ⊥)
        → Ends (Draw s t p n) old new status → (status ≡ Status.Findings) ⊎ Yields status }
    ensures findings_only { (s t p n : List ℕ) (old new : Seen)
        → Ends (Draw s t p n) old new Status.Findings → (files : Files) × Agrees old.files files
        × ((x : Night × Plan) × (plans_in s t p files ≡ Ok x) × (IsClean x → ⊥)) }
    ensures no_matching { (s t p n : List ℕ) (old new : Seen)
        → Ends (Draw s t p n) old new Status.NoMatching → ⊥ }
    ensures no_unfinished { (s t p n : List ℕ) (old new : Seen)
        → Ends (Draw s t p n) old new Status.Unfinished → ⊥ }
{
    laws::plan_findings();
}

/// If the files are accepted and neither the store nor the sink fails, `draw` ends with `Done`, `Findings` or `Memory`.
pub fn draw_completes()
    ensures { (s t p n : List ℕ) (old new : Seen) (status : Status) (files : Files)
        (x : Night × Plan) → old.files ≡ Some files → plans_in s t p files ≡ Ok x
        → (Rose old.store_faults new.store_faults → ⊥) → (Rose old.sink_faults new.sink_faults → ⊥)
        → Ends (Draw s t p n) old new status
        → (status ≡ Status.Done) ⊎ ((status ≡ Status.Findings) ⊎ (status ≡ Status.Memory)) }
{}

/// `page` ends with `Done` exactly when the files are accepted and the plan is feasible and states its cost, and with
/// `Findings` exactly when they are accepted and it isn't so, unless the store, memory or the sink came first. It never ends
/// with `NoMatching` or `Unfinished`.
pub fn page_done_exactly()
    ensures done { (s t p n : List ℕ) (old new : Seen) (status : Status) (files : Files)
        (x : Night × Plan) → old.files ≡ Some files → plans_in s t p files ≡ Ok x → IsClean x
        → Ends (Page s t p n) old new status → (status ≡ Status.Done) ⊎ Yields status }
    ensures done_only { (s t p n : List ℕ) (old new : Seen)
        → Ends (Page s t p n) old new Status.Done → (files : Files) × Agrees old.files files
        × ((x : Night × Plan) × (plans_in s t p files ≡ Ok x) × IsClean x) }
    ensures findings { (s t p n : List ℕ) (old new : Seen) (status : Status) (files : Files)
        (x : Night × Plan) → old.files ≡ Some files → plans_in s t p files ≡ Ok x → (IsClean x → ⊥)
        → Ends (Page s t p n) old new status → (status ≡ Status.Findings) ⊎ Yields status }
    ensures findings_only { (s t p n : List ℕ) (old new : Seen)
        → Ends (Page s t p n) old new Status.Findings → (files : Files) × Agrees old.files files
        × ((x : Night × Plan) × (plans_in s t p files ≡ Ok x) × (IsClean x → ⊥)) }
    ensures no_matching { (s t p n : List ℕ) (old new : Seen)
        → Ends (Page s t p n) old new Status.NoMatching → ⊥ }
    ensures no_unfinished { (s t p n : List ℕ) (old new : Seen)
        → Ends (Page s t p n) old new Status.Unfinished → ⊥ }
{
    laws::plan_findings();
}

/// If the files are accepted and neither the store nor the sink fails, `page` ends with `Done`, `Findings` or `Memory`.
pub fn page_completes()
    ensures { (s t p n : List ℕ) (old new : Seen) (status : Status) (files : Files)
        (x : Night × Plan) → old.files ≡ Some files → plans_in s t p files ≡ Ok x
        → (Rose old.store_faults new.store_faults → ⊥) → (Rose old.sink_faults new.sink_faults → ⊥)
        → Ends (Page s t p n) old new status
        → (status ≡ Status.Done) ⊎ ((status ≡ Status.Findings) ⊎ (status ≡ Status.Memory)) }
{}

/// `follow` ends with `Done` exactly when the files are accepted and all orders can be followed, and with `Findings` exactly when they
/// are accepted and one can't, unless the store, memory or the sink came first. It never ends with `NoMatching` or `Unfinished`.
pub fn follow_done_exactly()
    ensures done { (s n : List ℕ) (old new : Seen) (status : Status) (files : Files)
        (x : Followable) → old.files ≡ Some files → following_in s n files ≡ Ok x → GoesThrough x
        → Ends (Follow s n) old new status → (status ≡ Status.Done) ⊎ Yields status }
    ensures done_only { (s n : List ℕ) (old new : Seen) → Ends (Follow s n) old new Status.Done
        → (files : Files) × Agrees old.files files
        × ((x : Followable) × (following_in s n files ≡ Ok x) × GoesThrough x) }
    ensures findings { (s n : List ℕ) (old new : Seen) (status : Status) (files : Files)
        (x : Followable) → old.files ≡ Some files → following_in s n files ≡ Ok x
        → (GoesThrough x → ⊥) → Ends (Follow s n) old new status
        → (status ≡ Status.Findings) ⊎ Yields status }
    ensures findings_only { (s n : List ℕ) (old new : Seen)
        → Ends (Follow s n) old new Status.Findings → (files : Files) × Agrees old.files files
        × ((x : Followable) × (following_in s n files ≡ Ok x) × (GoesThrough x → ⊥)) }
    ensures no_matching { (s n : List ℕ) (old new : Seen)
        → Ends (Follow s n) old new Status.NoMatching → ⊥ }
    ensures no_unfinished { (s n : List ℕ) (old new : Seen)
        → Ends (Follow s n) old new Status.Unfinished → ⊥ }
{}

/// If the files are accepted and neither the store nor the sink fails, `follow` ends with `Done`, `Findings` or `Memory`.
pub fn follow_completes()
    ensures { (s n : List ℕ) (old new : Seen) (status : Status) (files : Files) (x : Followable)
        → old.files ≡ Some files → following_in s n files ≡ Ok x
        → (Rose old.store_faults new.store_faults → ⊥) → (Rose old.sink_faults new.sink_faults → ⊥)
        → Ends (Follow s n) old new status
        → (status ≡ Status.Done) ⊎ ((status ≡ Status.Findings) ⊎ (status ≡ Status.Memory)) }
{}

/// On the files that `sheet` left with `Done`, `follow` of the sheet ends with `Done`, follows the orders of the plan, and prints that no
/// block is left, unless the store, memory or the sink comes first.
pub fn written_sheets_go_through()
    ensures { (s t p n : List ℕ) (a b old new : Seen) (status : Status) (files after : Files)
        → IsUsable (Sheet s t p n) → a.files ≡ Some files → b.files ≡ Some after → old.files
        ≡ Some after → Ends (Sheet s t p n) a b Status.Done → Ends (Follow s n) old new status
        → ((status ≡ Status.Done) × ((x : Night × Plan) × (plans_in s t p files ≡ Ok x) × IsWhole
        (says Outcome.Done (followed_of (orders_in x.0 x.1.blocks) (answers.Through 0))) old new))
        ⊎ Yields status }
{
    laws::plan_findings();
    sheets_of_plans();
    texts_of_sheets();
}

/// `drivers` ends with `Done` exactly when the files are accepted, unless the store, memory or the sink came first. It never ends
/// with `Findings`, `NoMatching` or `Unfinished`.
pub fn drivers_done_exactly()
    ensures done { (s t p c d : List ℕ) (old new : Seen) (status : Status) (files : Files)
        (x : Sharable) → old.files ≡ Some files → sharing_in s t p c files ≡ Ok x
        → Ends (Drivers s t p c d) old new status → (status ≡ Status.Done) ⊎ Yields status }
    ensures done_only { (s t p c d : List ℕ) (old new : Seen)
        → Ends (Drivers s t p c d) old new Status.Done → (files : Files) × Agrees old.files files
        × ((x : Sharable) × (sharing_in s t p c files ≡ Ok x)) }
    ensures no_findings { (s t p c d : List ℕ) (old new : Seen)
        → Ends (Drivers s t p c d) old new Status.Findings → ⊥ }
    ensures no_matching { (s t p c d : List ℕ) (old new : Seen)
        → Ends (Drivers s t p c d) old new Status.NoMatching → ⊥ }
    ensures no_unfinished { (s t p c d : List ℕ) (old new : Seen)
        → Ends (Drivers s t p c d) old new Status.Unfinished → ⊥ }
{}

/// If the files are accepted and neither the store nor the sink fails, `drivers` ends with `Done` or `Memory`.
pub fn drivers_completes()
    ensures { (s t p c d : List ℕ) (old new : Seen) (status : Status) (files : Files) (x : Sharable)
        → old.files ≡ Some files → sharing_in s t p c files ≡ Ok x
        → (Rose old.store_faults new.store_faults → ⊥) → (Rose old.sink_faults new.sink_faults → ⊥)
        → Ends (Drivers s t p c d) old new status
        → (status ≡ Status.Done) ⊎ (status ≡ Status.Memory) }
{}

/// `roster` ends with `Done` exactly when the files are accepted and the duties are a sharing of the plan's moves, and with `Findings`
/// exactly when they are accepted and it isn't so, unless the store, memory or the sink came first. It never ends with `NoMatching` or
/// `Unfinished`.
pub fn roster_done_exactly()
    ensures done { (s t p c d : List ℕ) (old new : Seen) (status : Status) (files : Files)
        (x : Rosterable) → old.files ≡ Some files → rostering_in s t p c d files ≡ Ok x
        → SharesAll x → Ends (Roster s t p c d) old new status
        → (status ≡ Status.Done) ⊎ Yields status }
    ensures done_only { (s t p c d : List ℕ) (old new : Seen)
        → Ends (Roster s t p c d) old new Status.Done → (files : Files) × Agrees old.files files
        × ((x : Rosterable) × (rostering_in s t p c d files ≡ Ok x) × SharesAll x) }
    ensures findings { (s t p c d : List ℕ) (old new : Seen) (status : Status) (files : Files)
        (x : Rosterable) → old.files ≡ Some files → rostering_in s t p c d files ≡ Ok x
        → (SharesAll x → ⊥) → Ends (Roster s t p c d) old new status
        → (status ≡ Status.Findings) ⊎ Yields status }
    ensures findings_only { (s t p c d : List ℕ) (old new : Seen)
        → Ends (Roster s t p c d) old new Status.Findings → (files : Files) × Agrees old.files files
        × ((x : Rosterable) × (rostering_in s t p c d files ≡ Ok x) × (SharesAll x → ⊥)) }
    ensures no_matching { (s t p c d : List ℕ) (old new : Seen)
        → Ends (Roster s t p c d) old new Status.NoMatching → ⊥ }
    ensures no_unfinished { (s t p c d : List ℕ) (old new : Seen)
        → Ends (Roster s t p c d) old new Status.Unfinished → ⊥ }
{
    stated_values_are_formed();
    roster_fault_in_words();
}

/// If the files are accepted and neither the store nor the sink fails, `roster` ends with `Done`, `Findings` or `Memory`.
pub fn roster_completes()
    ensures { (s t p c d : List ℕ) (old new : Seen) (status : Status) (files : Files)
        (x : Rosterable) → old.files ≡ Some files → rostering_in s t p c d files ≡ Ok x
        → (Rose old.store_faults new.store_faults → ⊥) → (Rose old.sink_faults new.sink_faults → ⊥)
        → Ends (Roster s t p c d) old new status
        → (status ≡ Status.Done) ⊎ ((status ≡ Status.Findings) ⊎ (status ≡ Status.Memory)) }
{}

/// On the files that `drivers` left with `Done`, `roster` with the same words ends with `Done`, unless the store, memory or the sink
/// comes first.
pub fn roster_accepts_what_drivers_wrote()
    ensures { (s t p c d : List ℕ) (a b old new : Seen) (status : Status) (files after : Files)
        → IsUsable (Drivers s t p c d) → a.files ≡ Some files → b.files ≡ Some after
        → old.files ≡ Some after → Ends (Drivers s t p c d) a b Status.Done
        → Ends (Roster s t p c d) old new status → (status ≡ Status.Done) ⊎ Yields status }
{
    stated_values_are_formed();
    roster_fault_in_words();
    texts_of_rosters();
}

/// `replay` ends with `Done` exactly when the files are accepted and the blocks that the turns leave are a feasible plan, and
/// with `Findings` exactly when they are accepted and it isn't so, whatever cost the plan states and whichever turns were
/// refused, unless the store, memory or the sink came first. It never ends with `NoMatching` or `Unfinished`.
pub fn replay_done_exactly()
    ensures done { (s t p e n : List ℕ) (old new : Seen) (status : Status) (files : Files)
        (x : Replayable) → old.files ≡ Some files → turns_in s t p e files ≡ Ok x → EndsFeasible x
        → Ends (Replay s t p e n) old new status → (status ≡ Status.Done) ⊎ Yields status }
    ensures done_only { (s t p e n : List ℕ) (old new : Seen)
        → Ends (Replay s t p e n) old new Status.Done → (files : Files) × Agrees old.files files
        × ((x : Replayable) × (turns_in s t p e files ≡ Ok x) × EndsFeasible x) }
    ensures findings { (s t p e n : List ℕ) (old new : Seen) (status : Status) (files : Files)
        (x : Replayable) → old.files ≡ Some files → turns_in s t p e files ≡ Ok x
        → (EndsFeasible x → ⊥) → Ends (Replay s t p e n) old new status
        → (status ≡ Status.Findings) ⊎ Yields status }
    ensures findings_only { (s t p e n : List ℕ) (old new : Seen)
        → Ends (Replay s t p e n) old new Status.Findings → (files : Files) × Agrees old.files files
        × ((x : Replayable) × (turns_in s t p e files ≡ Ok x) × (EndsFeasible x → ⊥)) }
    ensures no_matching { (s t p e n : List ℕ) (old new : Seen)
        → Ends (Replay s t p e n) old new Status.NoMatching → ⊥ }
    ensures no_unfinished { (s t p e n : List ℕ) (old new : Seen)
        → Ends (Replay s t p e n) old new Status.Unfinished → ⊥ }
{
    laws::feasible();
}

/// If the files are accepted and neither the store nor the sink fails, `replay` ends with `Done`, `Findings` or `Memory`.
pub fn replay_completes()
    ensures { (s t p e n : List ℕ) (old new : Seen) (status : Status) (files : Files)
        (x : Replayable) → old.files ≡ Some files → turns_in s t p e files ≡ Ok x
        → (Rose old.store_faults new.store_faults → ⊥) → (Rose old.sink_faults new.sink_faults → ⊥)
        → Ends (Replay s t p e n) old new status
        → (status ≡ Status.Done) ⊎ ((status ≡ Status.Findings) ⊎ (status ≡ Status.Memory)) }
{}

/// The blocks that the turns of accepted files leave are at most 400, in range, and by ascending id: so are those of the new plan.
pub fn replay_leaves_a_state()
    ensures { (s t p e : List ℕ) (x : Replayable) → stated_turns s t p e ≡ Ok x
        → IsState x.night (last_of x) }
{}

/// Behind the lines of the turns before it, each turn of accepted files has the line of the state that it leaves: how many findings the
/// blocks of that state have, which are exactly those of a fresh audit, and what these blocks cost.
pub fn replay_prints_each_state()
    ensures { (s t p e : List ℕ) (x : Replayable) (before : List Turn) (turn : Turn)
        (after : List Turn) → stated_turns s t p e ≡ Ok x → x.turns ≡ before ++ turn ∷ after
        → (line rest : List ℕ) × IsTurnLine (length before + 1) (after_turns (bench_of x) before)
        turn line × (replay_lines x ≡ lines_from 1 (bench_of x) before ++ (line ++ rest)) }
{
    findings();
}
