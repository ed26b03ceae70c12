// A recorder over a store.
ghost use Rattle.std.specs.Prelude.{◌≡◌, ◌++◌, ◌∷◌, [], ◌+◌, ◌<◌, ◌≤◌, Some, IfOk, OnOk, OnErr};
ghost use Rattle.shunt_store.specs.defs.Causes.{HasCause};
ghost use Rattle.shunt_store.specs.defs.Files.{Closed, Writing, IsWriting, name_of, text_of};
ghost use Rattle.shunt_rows.specs.defs.Records.{text_of_row, text_of_rows};
ghost use Rattle.shunt_proof.specs.defs.Nodes.{FitsNode};
ghost use Rattle.shunt_proof.specs.defs.CertificateRows.{head_row, end_row, node_rows};
ghost use Rattle.shunt_proof.specs.defs.Numbers.{CanBeRead};
ghost use Rattle.shunt_proof.specs.defs.Recorders.{Open};
ghost use Rattle.shunt_proof.specs.defs.TextRecorders.{Rests, seen, told_of, stage_of};

use crate::list_recorder::own_cases;
use crate::recorder::{RecordError, Recorder};
use crate::records::{Node, Version};
use crate::writer::{write_end, write_first, write_node};
use shunt_instance::Instance;
use shunt_rows::RowWriter;
use shunt_store::{Store, StoreError, append_all};
use std::alloc::{AllocError, Global};

// What it can do. Where it was refused, what was written is given up.
#[derive(Clone, Copy, Debug, PartialEq, Eq, Drop)]
pub enum TextState {
    Open,
    Stalled,
    Finished(u64, u64),
    Failed,
}

// The text of the first record.
fn first_text(alloc: Global, version: Version) -> Result<Vec<u8>, AllocError>
    ensures { IfOk result (λ v. v.items ≡ text_of_row (head_row version)) }
{
    let mut writer = RowWriter::new(alloc)?;
    write_first(&mut writer, version)?;
    writer.finish()
}

// The text of a node.
fn node_text(alloc: Global, instance: &Instance, node: &Node) -> Result<Vec<u8>, AllocError>
    requires { FitsNode instance.now node.now }
    ensures { IfOk result (λ v. v.items ≡ text_of_rows (node_rows instance.now node.now)) }
{
    let mut writer = RowWriter::new(alloc)?;
    write_node(&mut writer, alloc, instance, node)?;
    writer.finish()
}

// The text of the last record.
fn last_text(alloc: Global, cost: u64, bound: u64, nodes: u64) -> Result<Vec<u8>, AllocError>
    ensures { IfOk result (λ v. v.items ≡ text_of_row (end_row cost bound nodes)) }
{
    let mut writer = RowWriter::new(alloc)?;
    write_end(&mut writer, cost, bound, nodes)?;
    writer.finish()
}

// Appends the bytes to what is written, or gives it up.
fn append<S: Store>(store: &mut S, bytes: &[u8]) -> Result<(), StoreError>
    requires { IsWriting (S.stage store.old) }
    ensures ok { OnOk result (S.stage store.new
        ≡ Writing (name_of (S.stage store.old)) (text_of (S.stage store.old) ++ bytes.now)) }
    ensures err { OnErr result (S.stage store.new ≡ Closed) }
    ensures files { S.told store.new ≡ S.told store.old }
    ensures heard { S.heard store.new ≡ S.heard store.old }
    ensures stored { S.stored store.new ≡ S.stored store.old }
    ensures cause { HasCause StoreError.Fault (S.faults store.old) (S.faults store.new) result }
{
    match append_all(store, bytes) {
        Ok(()) => Ok(()),
        Err(e) => {
            store.drop_file();
            Err(e)
        }
    }
}

// Appends the text of a node to what is written, or gives it up.
fn append_node<S: Store>(
    alloc: Global,
    store: &mut S,
    instance: &Instance,
    node: &Node,
) -> Result<(), StoreError>
    requires writing { IsWriting (S.stage store.old) }
    requires node { FitsNode instance.now node.now }
    ensures ok { OnOk result (S.stage store.new ≡ Writing (name_of (S.stage store.old))
        (text_of (S.stage store.old) ++ text_of_rows (node_rows instance.now node.now))) }
    ensures err { OnErr result (S.stage store.new ≡ Closed) }
    ensures files { S.told store.new ≡ S.told store.old }
    ensures heard { S.heard store.new ≡ S.heard store.old }
    ensures stored { S.stored store.new ≡ S.stored store.old }
    ensures cause { HasCause StoreError.Fault (S.faults store.old) (S.faults store.new) result }
{
    match node_text(alloc, instance, node) {
        Ok(text) => append(store, text.as_slice()),
        Err(_) => {
            store.drop_file();
            Err(StoreError::Memory)
        }
    }
}

// Appends the text of the last record to what is written, or gives it up.
fn append_last<S: Store>(
    alloc: Global,
    store: &mut S,
    cost: u64,
    bound: u64,
    nodes: u64,
) -> Result<(), StoreError>
    requires { IsWriting (S.stage store.old) }
    ensures ok { OnOk result (S.stage store.new ≡ Writing (name_of (S.stage store.old))
        (text_of (S.stage store.old) ++ text_of_row (end_row cost bound nodes))) }
    ensures err { OnErr result (S.stage store.new ≡ Closed) }
    ensures files { S.told store.new ≡ S.told store.old }
    ensures heard { S.heard store.new ≡ S.heard store.old }
    ensures stored { S.stored store.new ≡ S.stored store.old }
    ensures cause { HasCause StoreError.Fault (S.faults store.old) (S.faults store.new) result }
{
    match last_text(alloc, cost, bound, nodes) {
        Ok(text) => append(store, text.as_slice()),
        Err(_) => {
            store.drop_file();
            Err(StoreError::Memory)
        }
    }
}

/// Begins the file that a recorder is to write, with its first record, which tells the version. It is then being written. No file is changed.
pub fn begin_certificate<S: Store>(
    alloc: Global,
    store: &mut S,
    name: &str,
    version: Version,
) -> Result<(), StoreError>
    requires { S.stage store.old ≡ Closed }
    ensures ok { OnOk result
        (S.stage store.new ≡ Writing name.now (text_of_row (head_row version))) }
    ensures err { OnErr result (S.stage store.new ≡ Closed) }
    ensures files { S.told store.new ≡ S.told store.old }
    ensures heard { S.heard store.new ≡ S.heard store.old }
    ensures stored { S.stored store.new ≡ S.stored store.old }
    ensures cause { HasCause StoreError.Fault (S.faults store.old) (S.faults store.new) result }
{
    let text = first_text(alloc, version)?;
    store.create_file(name)?;
    append(store, text.as_slice())
}

// Gives up what was written, and begins it again.
fn begin_again<S: Store>(
    alloc: Global,
    store: &mut S,
    name: &str,
    version: Version,
) -> Result<(), StoreError>
    requires { IsWriting (S.stage store.old) }
    ensures ok { OnOk result
        (S.stage store.new ≡ Writing name.now (text_of_row (head_row version))) }
    ensures err { OnErr result (S.stage store.new ≡ Closed) }
    ensures files { S.told store.new ≡ S.told store.old }
    ensures heard { S.heard store.new ≡ S.heard store.old }
    ensures stored { S.stored store.new ≡ S.stored store.old }
    ensures cause { HasCause StoreError.Fault (S.faults store.old) (S.faults store.new) result }
{
    store.drop_file();
    begin_certificate(alloc, store, name, version)
}

/// Writes nodes with a store that it borrows, one at a time: it owns none of them. Only the instance that it was made with is its own.
///
/// While it is open or finished its store writes its file, and what was written is the first record, the text of the nodes that were
/// noted, and, where it is finished, the last record: it tells these nodes. A call that is refused gives up what was written. No call
/// changes any file: who began the file closes it, and then it holds what was written.
#[derive(Drop)]
pub struct TextRecorder<'s, S: Store> {
    store: &'s mut S,
    alloc: Global,
    instance: &'s Instance,
    name: &'s str,
    version: Version,
    doing: TextState,
    nodes: u32,
    cases: u32,
}

impl<'s, S: Store> TextRecorder<'s, S> {
    /// An open recorder, without nodes, of the file with this name and version that [`begin_certificate`] began. It takes no memory.
    pub fn over(
        alloc: Global,
        instance: &'s Instance,
        store: &'s mut S,
        name: &'s str,
        version: Version,
    ) -> TextRecorder<'s, S>
        requires writing { S.stage store.old ≡ Writing name.now (text_of_row (head_row version)) }
        requires version { CanBeRead version }
        ensures same_reference { result.store.ghost_name ≡ store.entry.ghost_name }
        ensures own { result.instance.now ≡ instance.now }
        ensures name { result.name.now ≡ name.now }
        ensures version { result.version ≡ version }
        ensures files { S.told result.store.now ≡ S.told store.old }
        ensures heard { S.heard result.store.now ≡ S.heard store.old }
        ensures stored { S.stored result.store.now ≡ S.stored store.old }
        ensures faults { S.faults result.store.now ≡ S.faults store.old }
        ensures number { result.nodes ≡ 0 }
        ensures cases { result.cases ≡ 0 }
        ensures open { stage_of (seen result.version result.instance.now result.name.now
            (S.stage result.store.now) result.doing result.nodes result.cases) ≡ Open }
        ensures told { told_of (seen result.version result.instance.now result.name.now
            (S.stage result.store.now) result.doing result.nodes result.cases) ≡ Some [] }
        ensures rests { Rests result.doing (S.stage result.store.now) }
    {
        // The call tells that the night is well formed, so that what is written can be read.
        instance.station();
        TextRecorder {
            store,
            alloc,
            instance,
            name,
            version,
            doing: TextState::Open,
            nodes: 0,
            cases: 0,
        }
    }

    /// Gives up what was written. A recorder that was refused has done so. It takes no memory, and no file is changed.
    pub fn abandon(self)
        requires { Rests self.doing (S.stage self.store.now) }
        ensures closed { S.stage self.exit.0.now ≡ Closed }
        ensures files { S.told self.exit.0.now ≡ S.told self.entry.store.now }
        ensures heard { S.heard self.exit.0.now ≡ S.heard self.entry.store.now }
        ensures stored { S.stored self.exit.0.now ≡ S.stored self.entry.store.now }
        ensures faults { S.faults self.exit.0.now ≡ S.faults self.entry.store.now }
    {
        let TextRecorder {
            store,
            alloc: _,
            instance: _,
            name: _,
            version: _,
            doing,
            nodes: _,
            cases: _,
        } = self;
        match doing {
            TextState::Open => store.drop_file(),
            TextState::Stalled => {}
            TextState::Finished(_, _) => store.drop_file(),
            TextState::Failed => {}
        }
    }
}

impl<'s, S: Store> Recorder for TextRecorder<'s, S> {
    ghost use Rattle.std.specs.Prelude.{◌≡◌};
    ghost use Rattle.std.proofs.Common.{refl, ◌∙◌};
    ghost use Rattle.shunt_proof.specs.defs.TextRecorders.{KeepsStream, keeps_same, keeps_on, seen};
    ghost use Rattle.shunt_proof.specs.defs.TextRecorders.{told_of, stage_of};

    ghost owns = { λ r night. night ≡ r.instance.now };

    ghost told = { λ r. told_of
        (seen r.version r.instance.now r.name.now (S.stage r.store.now) r.doing r.nodes r.cases) };

    ghost number = { λ r. r.nodes };

    ghost cases = { λ r. r.cases };

    ghost stage = { λ r. stage_of
        (seen r.version r.instance.now r.name.now (S.stage r.store.now) r.doing r.nodes r.cases) };

    ghost faults = { λ r. S.faults r.store.now };

    ghost keeps = { λ a b. (a.store.ghost_name ≡ b.store.ghost_name) × (KeepsStream
        (seen a.version a.instance.now a.name.now (S.stage a.store.now) a.doing a.nodes a.cases)
        (seen b.version b.instance.now b.name.now (S.stage b.store.now) b.doing b.nodes b.cases)
        × ((S.told b.store.now ≡ S.told a.store.now) × ((S.heard b.store.now ≡ S.heard a.store.now)
        × (S.stored b.store.now ≡ S.stored a.store.now)))) };

    ghost keeps_same = { λ a. (refl, (keeps_same _, (refl, (refl, refl)))) };

    ghost keeps_on = { λ a b c h k. (
      h.0 ∙ k.0,
      (
        keeps_on _ _ _ h.1.0 k.1.0,
        (k.1.1.0 ∙ h.1.1.0, (k.1.1.1.0 ∙ h.1.1.1.0, k.1.1.1.1 ∙ h.1.1.1.1)),
      ),
    ) };

    fn note(&mut self, _: &Instance, node: &Node) -> Result<(), RecordError> {
        // The call tells that the night is well formed, so that what is written can be read.
        self.instance.station();
        match append_node(self.alloc, self.store, self.instance, node) {
            Ok(()) => {
                self.nodes += 1;
                self.cases += own_cases(&node.duals);
                Ok(())
            }
            Err(StoreError::Memory) => {
                self.doing = TextState::Stalled;
                Err(RecordError::Memory)
            }
            Err(StoreError::Fault) => {
                self.doing = TextState::Failed;
                Err(RecordError::Fault)
            }
        }
    }

    fn restart(&mut self) -> Result<(), RecordError> {
        self.instance.station();
        match begin_again(self.alloc, self.store, self.name, self.version) {
            Ok(()) => {
                self.nodes = 0;
                self.cases = 0;
                Ok(())
            }
            Err(StoreError::Memory) => {
                self.doing = TextState::Stalled;
                Err(RecordError::Memory)
            }
            Err(StoreError::Fault) => {
                self.doing = TextState::Failed;
                Err(RecordError::Fault)
            }
        }
    }

    fn finish(&mut self, cost: u64, bound: u64) -> Result<(), RecordError> {
        self.instance.station();
        match append_last(self.alloc, self.store, cost, bound, self.nodes as u64) {
            Ok(()) => {
                self.doing = TextState::Finished(cost, bound);
                Ok(())
            }
            Err(StoreError::Memory) => {
                self.doing = TextState::Stalled;
                Err(RecordError::Memory)
            }
            Err(StoreError::Fault) => {
                self.doing = TextState::Failed;
                Err(RecordError::Fault)
            }
        }
    }
}
