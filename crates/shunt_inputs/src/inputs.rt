// Input files, one by one and one after the other.
ghost use Rattle.std.specs.Prelude.{◌≡◌, ℕ, List, [], Result, Ok, Option, IfOk};
ghost use Rattle.shunt_store.specs.defs.Files.{Closed, Files};
ghost use Rattle.shunt_store.specs.defs.Causes.{HasCause};
ghost use Rattle.shunt_instance.specs.defs.Instance.{Night};
ghost use Rattle.shunt_rows.specs.declared.words.FileWord.{FileWord};
ghost use Rattle.shunt_rows.specs.declared.fault.RowFault.{RowFault};
ghost use Rattle.shunt_rows.specs.defs.Given.{Gives};
ghost use Rattle.shunt_inputs.specs.defs.Halts.{Loads};
ghost use Rattle.shunt_inputs.specs.defs.ReadFiles.{HearsFor, HoldingTexts, Input, names_in};
ghost use Rattle.shunt_inputs.specs.defs.Views.{IsView};

use crate::file_loader::Halt;
use shunt_instance::Instance;
use shunt_rows::{FileWord, ReadError, Row};
use shunt_store::Store;
use std::alloc::Global;

/// Input files that are read and judged one after the other, and what they state together.
pub trait Inputs {
    type Value: Drop;

    /// Which files they are, in the order in which they are read.
    ghost inputs: { Self → List Input };

    /// What their texts state together, or the line for the first of them that isn't accepted.
    ghost states: { Self → List (List ℕ) → Result Self.Value (List ℕ) };

    /// What is read is well formed.
    ghost formed: { Self.Value → Type 0 };

    /// Reads them in their order, up to the first that isn't accepted.
    fn load<S: Store>(&self, alloc: Global, store: &mut S) -> Result<Self::Value, Halt>
        requires { S.stage store.old ≡ Closed }
        ensures told { (view : Option Files)
            → IsView (S.told store.old) (S.heard store.old) (S.heard store.new) view → HoldingTexts
            view (names_in (inputs self.now)) (λ texts. Loads result (states self.now texts)) }
        ensures heard { HearsFor (inputs self.now) (S.heard store.old) (S.heard store.new) result }
        ensures formed { IfOk result formed }
        ensures files { S.told store.new ≡ S.told store.old }
        ensures stored { S.stored store.new ≡ S.stored store.old }
        ensures closed { S.stage store.new ≡ Closed }
        ensures cause { HasCause Halt.Fault (S.faults store.old) (S.faults store.new) result };
}

/// An input file by its name, over what was read before it.
pub trait InputFile<I: Inputs> {
    type Value: Drop;

    /// Which of the files it is.
    ghost word: { FileWord };

    ghost name: { Self → List ℕ };

    /// What records state in its format, or their first fault.
    ghost states: { I.Value → List (List (List ℕ)) → Result Self.Value RowFault };

    /// What is read is well formed.
    ghost formed: { I.Value → Self.Value → Type 0 };

    fn word(&self) -> FileWord
        ensures { result ≡ word };

    fn name(&self) -> &str
        ensures { result.now ≡ name self.now };

    /// Reads the value of the records.
    fn read(
        &self,
        alloc: Global,
        over: &I::Value,
        rows: &Vec<Row>,
    ) -> Result<Self::Value, ReadError>
        requires { I.formed over.now }
        ensures stated { Gives (λ x. x) result (states over.now rows.now.items) }
        ensures formed { IfOk result (formed over.now) };
}

/// What was read of a night, and perhaps more.
pub trait HasNight {
    ghost night: { Self → Night };

    fn night(&self) -> &Instance
        ensures { result.now ≡ night self.now };
}

impl HasNight for Instance {
    ghost night = { λ n. n };

    fn night(&self) -> &Instance {
        self
    }
}

impl<X: HasNight, Y> HasNight for (X, Y) {
    ghost night = { λ x. X.night x.0 };

    fn night(&self) -> &Instance {
        self.0.night()
    }
}

/// No input file.
#[derive(Clone, Copy, Drop)]
pub struct NoFiles;

impl Inputs for NoFiles {
    type Value = ();

    ghost inputs = { λ _. [] };

    ghost states = { λ _ _. Ok tt };

    ghost formed = { λ _. Unit {0} };

    fn load<S: Store>(&self, _alloc: Global, _store: &mut S) -> Result<(), Halt> {
        Ok(())
    }
}
