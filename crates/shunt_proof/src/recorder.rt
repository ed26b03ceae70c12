// What keeps the nodes of a certificate while they are found.
ghost use Rattle.std.specs.Prelude.{◌≡◌, ◌↔◌, ◌++◌, ◌∷◌, [], ℕ, ◌+◌, ◌<◌, ◌≤◌, List, Option, OnOk};
ghost use Rattle.std.specs.Prelude.{OnErr, IfSome, IsErrOf};
ghost use Rattle.shunt_store.specs.defs.Causes.{HasCause};
ghost use Rattle.shunt_store.specs.defs.Files.{BothTold};
ghost use Rattle.shunt_instance.specs.defs.Instance.{Night};
ghost use Rattle.shunt_proof.specs.declared.records.Node.{Node};
ghost use Rattle.shunt_proof.specs.declared.recorder.RecordError.TheVariants as errors;
ghost use Rattle.shunt_proof.specs.defs.Nodes.{FitsNode, CanFollow};
ghost use Rattle.shunt_proof.specs.defs.Certificates.{own_cases};
ghost use Rattle.shunt_proof.specs.defs.Recorders.{Stage, Open, Finished, stage_behind};

use crate::records::Node;
use shunt_instance::Instance;
use std::alloc::{AllocError, AllocFailed};

/// Why a call of a recorder was refused.
#[derive(Clone, Copy, Debug, PartialEq, Eq)]
pub enum RecordError {
    /// What it writes to failed, and counted it. The recorder has failed.
    Fault,
    /// Memory ran out. The recorder is stalled.
    Memory,
}

impl From<AllocError> for RecordError {
    ghost from_gives = { λ _ e. e ≡ errors.Memory };

    fn from(_: AllocError) -> Self {
        RecordError::Memory
    }
}

impl<T: Drop> From<AllocFailed<T>> for RecordError {
    ghost from_gives = { λ _ e. e ≡ errors.Memory };

    fn from(_: AllocFailed<T>) -> Self {
        RecordError::Memory
    }
}

/// Keeps the nodes of a certificate, one after the other, while they are found.
///
/// A call that is refused leaves it stalled, for want of memory, or failed. A Fault comes only if the count of faults rose
/// in that call.
pub trait Recorder {
    /// Whether nodes of this night can be noted.
    ghost owns: { Self → Night → Type 0 };

    /// The nodes that were noted, where the recorder tells them.
    ghost told: { Self → Option (List Node) };

    /// How many nodes and how many cases were noted.
    ghost number: { Self → ℕ };

    ghost cases: { Self → ℕ };

    /// What it can do.
    ghost stage: { Self → Stage };

    /// How often what it writes to failed.
    ghost faults: { Self → ℕ };

    /// What the second has of the first where only calls lie between them: what it borrows, above all.
    ghost keeps: { Self → Self → Type 0 };

    ghost keeps_same: { (a : Self) → keeps a a };

    ghost keeps_on: { (a b c : Self) → keeps a b → keeps b c → keeps a c };

    /// Notes one more node, which a file can state behind those that were noted.
    fn note(&mut self, instance: &Instance, node: &Node) -> Result<(), RecordError>
        requires stage { stage self.old ≡ Open }
        requires own { owns self.old instance.now }
        requires room { number self.old < 5000 }
        requires case_room { cases self.old + own_cases node.now.duals ≤ 8000 }
        requires node { FitsNode instance.now node.now }
        requires place { IfSome (told self.old) (λ nodes. CanFollow nodes node.now) }
        ensures told { OnOk result
            (BothTold (told self.old) (told self.new) (λ old new. new ≡ old ++ node.now ∷ [])) }
        ensures number { OnOk result (number self.new ≡ number self.old + 1) }
        ensures cases { OnOk result (cases self.new ≡ cases self.old + own_cases node.now.duals) }
        ensures stage { stage self.new ≡ stage_behind Open result }
        ensures own { (night : Night) → owns self.new night ↔ owns self.old night }
        ensures cause { HasCause RecordError.Fault (faults self.old) (faults self.new) result }
        ensures keeps { keeps self.old self.new };

    /// Forgets the nodes that were noted.
    fn restart(&mut self) -> Result<(), RecordError>
        requires stage { stage self.old ≡ Open }
        ensures told { OnOk result
            (BothTold (told self.old) (told self.new) (λ old new. new ≡ [])) }
        ensures number { OnOk result (number self.new ≡ 0) }
        ensures cases { OnOk result (cases self.new ≡ 0) }
        ensures stage { stage self.new ≡ stage_behind Open result }
        ensures own { (night : Night) → owns self.new night ↔ owns self.old night }
        ensures cause { HasCause RecordError.Fault (faults self.old) (faults self.new) result }
        ensures keeps { keeps self.old self.new };

    /// Ends the certificate with a cost and a bound, in cost units.
    fn finish(&mut self, cost: u64, bound: u64) -> Result<(), RecordError>
        requires stage { stage self.old ≡ Open }
        requires some { 0 < number self.old }
        requires cost { cost ≤ 1000000000000 }
        requires bound { bound ≤ 1000000000000 }
        ensures told { OnOk result (told self.new ≡ told self.old) }
        ensures number { OnOk result (number self.new ≡ number self.old) }
        ensures cases { OnOk result (cases self.new ≡ cases self.old) }
        ensures stage { stage self.new ≡ stage_behind (Finished cost bound) result }
        ensures own { (night : Night) → owns self.new night ↔ owns self.old night }
        ensures cause { HasCause RecordError.Fault (faults self.old) (faults self.new) result }
        ensures keeps { keeps self.old self.new };
}
