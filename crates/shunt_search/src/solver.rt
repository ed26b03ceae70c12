// A search that was kept in memory, noted by a recorder.
ghost use Rattle.std.specs.Prelude.{◌≡◌, ◌≢◌, ◌↔◌, [], ◌≤◌, pos, List, IfOk, OnOk, IfSome};
ghost use Rattle.std.specs.Prelude.{IsErrOf};
ghost use Rattle.shunt_store.specs.defs.Causes.{HasCause};
ghost use Rattle.shunt_store.specs.defs.Files.{BothTold};
ghost use Rattle.shunt_base.specs.declared.duals.Case.{Case as OneCase};
ghost use Rattle.shunt_instance.specs.defs.Instance.{Night};
ghost use Rattle.shunt_blocks.specs.defs.Lists.{total_cost};
ghost use Rattle.shunt_blocks.specs.defs.Pins.{opening_cost};
ghost use Rattle.shunt_plan.specs.defs.Plans.{IsPlanInRange};
ghost use Rattle.shunt_matching.specs.declared.types.Shortage.{Shortage as OneShortage};
ghost use Rattle.shunt_proof.specs.defs.Certificates.{IsCertificate};
ghost use Rattle.shunt_proof.specs.defs.Recorders.{Open, Finished, Failed};
ghost use Rattle.shunt_search.specs.defs.Conditions.{MeetConditions, MeetsConditions};
ghost use Rattle.shunt_search.specs.defs.Conditions.{IsBoundForPlans};
ghost use Rattle.shunt_search.specs.defs.SearchStates.{IsSearch};
ghost use Rattle.shunt_search.specs.defs.Finding.{IsFound};
ghost use Rattle.shunt_search.specs.defs.Endings.{IsLeft, IsDone, IsShownIn, certificate_in};

use crate::conclusion::{bound_left, searches_end, searches_kept};
use crate::final_plan::tidy_plan;
use crate::memory_search::Found;
use crate::replay::note_all;
use crate::search_state::Search;
use crate::solved::{SolveError, Solved};
use shunt_blocks::Block;
use shunt_instance::Instance;
use shunt_proof::{Recorder, Version};
use std::alloc::Global;

/// The tidy plan of a search that has ended, and its bound, with both of which the recorder is finished.
fn conclude<R: Recorder>(
    alloc: Global,
    instance: &Instance,
    pins: &[Block],
    nodes: u32,
    version: Version,
    search: Search,
    recorder: &mut R,
) -> Result<Solved, SolveError>
    requires search { (stock : List (List OneCase))
        × IsSearch version instance.now pins.now stock (R.told recorder.old) (R.number recorder.old)
        (R.cases recorder.old) search.waiting.items search }
    requires most { R.number recorder.old ≤ nodes }
    requires few { nodes ≤ 5000 }
    requires done { IsDone
        (R.number recorder.old) nodes search.waiting.items search.known.cost search.low }
    requires stage { R.stage recorder.old ≡ Open }
    ensures meets { IfOk result (MeetsConditions instance.now pins.now nodes) }
    ensures in_range { IfOk result (λ s. IsPlanInRange instance.now s.plan) }
    ensures opening { IfOk result
        (λ s. total_cost instance.now s.plan.blocks ≤ opening_cost instance.now pins.now) }
    ensures cheaper { IfOk result (λ s. s.cost ≤ search.known.cost) }
    ensures bound { IfOk result (λ s. IsBoundForPlans instance.now pins.now s.bound) }
    ensures within { IfOk result (λ s. s.bound ≤ s.cost) }
    ensures left { IfOk result (λ s. IsLeft search.waiting.items search.low (pos s.bound)) }
    ensures certificate { IfOk result (λ s. IfSome (R.told recorder.old) (λ told. IsCertificate
        instance.now (certificate_in version s.plan s.bound told) × MeetConditions instance.now
        pins.now nodes s.plan (certificate_in version s.plan s.bound told))) }
    ensures shown { IfOk result (λ s. IsShownIn version instance.now pins.now nodes s.plan s.bound
        s.nodes (R.told recorder.new)) }
    ensures told { OnOk result (R.told recorder.new ≡ R.told recorder.old) }
    ensures finished { IfOk result (λ s. R.stage recorder.new ≡ Finished s.cost s.bound) }
    ensures version { IfOk result (λ s. s.version ≡ version) }
    ensures number { IfOk result (λ s. s.nodes ≡ R.number recorder.new) }
    ensures no_matching { (s : OneShortage) → IsErrOf result (SolveError.NoMatching s) → ⊥ }
    ensures sound { IsErrOf result SolveError.Memory → R.stage recorder.new ≢ Failed }
    ensures failed { IsErrOf result SolveError.Recorder → R.stage recorder.new ≡ Failed }
    ensures own { (night : Night) → R.owns recorder.new night ↔ R.owns recorder.old night }
    ensures cause { HasCause SolveError.Recorder (R.faults recorder.old)
        (R.faults recorder.new) result }
    ensures keeps { R.keeps recorder.old recorder.new }
{
    // The call tells that the bound isn't negative, and what the nodes and the plan meet.
    searches_end();
    instance.units();
    let nodes = search.count;
    let bound = bound_left(&search);
    let plan = tidy_plan(alloc, instance, pins, &search.known.blocks)?;
    let cost = plan.cost;
    recorder.finish(cost, bound)?;
    Ok(Solved {
        plan,
        cost,
        bound,
        nodes,
        version,
    })
}

/// Notes the nodes of what a search found, and finishes the recorder with the tidy plan and the bound, in cost units.
///
/// It was found for these pins and so many nodes, and the recorder is open, has no nodes, and can note nodes of this night. The version and the bound
/// are those that were found, the plan costs no more than what was found, and as many nodes are noted as were found. NoMatching comes never,
/// and Recorder only if the recorder failed and counted it. After Memory the recorder hasn't failed.
pub fn note_found<R: Recorder>(
    alloc: Global,
    instance: &Instance,
    pins: &[Block],
    nodes: u32,
    found: Found,
    recorder: &mut R,
) -> Result<Solved, SolveError>
    requires found { IsFound instance.now pins.now nodes found }
    requires few { nodes ≤ 5000 }
    requires stage { R.stage recorder.old ≡ Open }
    requires own { R.owns recorder.old instance.now }
    requires none { R.number recorder.old ≡ 0 }
    requires no_cases { R.cases recorder.old ≡ 0 }
    requires told { IfSome (R.told recorder.old) (λ told. told ≡ []) }
    ensures meets { IfOk result (MeetsConditions instance.now pins.now nodes) }
    ensures in_range { IfOk result (λ s. IsPlanInRange instance.now s.plan) }
    ensures opening { IfOk result
        (λ s. total_cost instance.now s.plan.blocks ≤ opening_cost instance.now pins.now) }
    ensures cheaper { IfOk result (λ s. s.cost ≤ found.walk.search.known.cost) }
    ensures bound { IfOk result (λ s. IsBoundForPlans instance.now pins.now s.bound) }
    ensures within { IfOk result (λ s. s.bound ≤ s.cost) }
    ensures same_bound { IfOk result (λ s. s.bound ≡ found.walk.bound) }
    ensures certificate { IfOk result (λ s. BothTold (R.told recorder.old) (R.told recorder.new)
        (λ old told. IsCertificate instance.now
        (certificate_in found.walk.version s.plan s.bound told) × MeetConditions instance.now
        pins.now nodes s.plan (certificate_in found.walk.version s.plan s.bound told))) }
    ensures shown { IfOk result (λ s. IsShownIn found.walk.version instance.now pins.now nodes
        s.plan s.bound s.nodes (R.told recorder.new)) }
    ensures finished { IfOk result (λ s. R.stage recorder.new ≡ Finished s.cost s.bound) }
    ensures version { IfOk result (λ s. s.version ≡ found.walk.version) }
    ensures number { IfOk result (λ s. s.nodes ≡ R.number recorder.new) }
    ensures no_matching { (s : OneShortage) → IsErrOf result (SolveError.NoMatching s) → ⊥ }
    ensures sound { IsErrOf result SolveError.Memory → R.stage recorder.new ≢ Failed }
    ensures failed { IsErrOf result SolveError.Recorder → R.stage recorder.new ≡ Failed }
    ensures own { (night : Night) → R.owns recorder.new night ↔ R.owns recorder.old night }
    ensures cause { HasCause SolveError.Recorder (R.faults recorder.old)
        (R.faults recorder.new) result }
    ensures keeps { R.keeps recorder.old recorder.new }
{
    // The call tells that the search has come to these nodes, whoever keeps them.
    searches_kept();
    let walk = found.walk;
    let version = walk.version;
    let search = walk.search;
    note_all(instance, walk.nodes.as_slice(), recorder)?;
    conclude(alloc, instance, pins, nodes, version, search, recorder)
}
