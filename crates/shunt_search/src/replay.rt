// Nodes that were kept are noted again.
ghost use Rattle.std.specs.Prelude.{◌≡◌, ◌≢◌, ◌↔◌, [], ◌≤◌, length, OnOk, IfSome, IsErrOf};
ghost use Rattle.shunt_store.specs.defs.Causes.{HasCause};
ghost use Rattle.shunt_store.specs.defs.Files.{BothTold};
ghost use Rattle.shunt_instance.specs.defs.Instance.{Night};
ghost use Rattle.shunt_matching.specs.declared.types.Shortage.{Shortage as OneShortage};
ghost use Rattle.shunt_proof.specs.defs.Nodes.{AreNodes};
ghost use Rattle.shunt_proof.specs.defs.Certificates.{case_total};
ghost use Rattle.shunt_proof.specs.defs.Recorders.{Open, Failed};

use crate::solved::SolveError;
use shunt_instance::Instance;
use shunt_proof::laws::{fronts, one_more};
use shunt_proof::{Node, Recorder};

/// Notes these nodes.
pub(crate) fn note_all<R: Recorder>(
    instance: &Instance,
    nodes: &[Node],
    recorder: &mut R,
) -> Result<(), SolveError>
    requires nodes { AreNodes instance.now nodes.now }
    requires few { length nodes.now ≤ 5000 }
    requires few_cases { case_total nodes.now ≤ 8000 }
    requires stage { R.stage recorder.old ≡ Open }
    requires own { R.owns recorder.old instance.now }
    requires none { R.number recorder.old ≡ 0 }
    requires no_cases { R.cases recorder.old ≡ 0 }
    requires told { IfSome (R.told recorder.old) (λ told. told ≡ []) }
    ensures told { OnOk result
        (BothTold (R.told recorder.old) (R.told recorder.new) (λ old new. new ≡ nodes.now)) }
    ensures number { OnOk result (R.number recorder.new ≡ length nodes.now) }
    ensures cases { OnOk result (R.cases recorder.new ≡ case_total nodes.now) }
    ensures open { OnOk result (R.stage recorder.new ≡ Open) }
    ensures sound { IsErrOf result SolveError.Memory → R.stage recorder.new ≢ Failed }
    ensures failed { IsErrOf result SolveError.Recorder → R.stage recorder.new ≡ Failed }
    ensures no_matching { (s : OneShortage) → IsErrOf result (SolveError.NoMatching s) → ⊥ }
    ensures own { (night : Night) → R.owns recorder.new night ↔ R.owns recorder.old night }
    ensures cause { HasCause SolveError.Recorder (R.faults recorder.old)
        (R.faults recorder.new) result }
    ensures keeps { R.keeps recorder.old recorder.new }
{
    // The calls tell that each node can follow those before it.
    one_more();
    fronts();
    for node in nodes {
        recorder.note(instance, node)?;
    }
    Ok(())
}
