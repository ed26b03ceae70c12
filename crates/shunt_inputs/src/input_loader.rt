// Reading an input file and judging it.
ghost use Rattle.std.specs.Prelude.{◌≡◌, ◌≤◌, length, IfOk, IsErrOf, [], ◌∷◌, Option};
ghost use Rattle.shunt_store.specs.defs.Files.{Closed, Files};
ghost use Rattle.shunt_store.specs.defs.Causes.{HasCause};
ghost use Rattle.shunt_inputs.specs.defs.Halts.{Loads};
ghost use Rattle.shunt_inputs.specs.defs.Inputs.{Holding, most_bytes_of, stated_by};
ghost use Rattle.shunt_inputs.specs.defs.ReadFiles.{HearsFor, IfRefused, TellsOf};
ghost use Rattle.shunt_inputs.specs.defs.Views.{IsView};

use crate::file_loader::{Halt, load, refuse};
use crate::inputs::{InputFile, Inputs};
use shunt_rows::{ReadError, records};
use shunt_store::Store;
use std::alloc::Global;

// What the bytes of an input file state.
fn judge<I: Inputs, F: InputFile<I>>(
    alloc: Global,
    over: &I::Value,
    file: &F,
    bytes: &[u8],
) -> Result<F::Value, Halt>
    requires formed { I.formed over.now }
    requires short { length bytes.now ≤ most_bytes_of F.word }
    ensures stated { Loads result (stated_by F.word (F.states over.now) bytes.now) }
    ensures formed { IfOk result (F.formed over.now) }
    ensures no_fault { IsErrOf result Halt.Fault → ⊥ }
    ensures line { IfRefused result (TellsOf F.word) }
{
    let rows = records(alloc, bytes)?;
    match file.read(alloc, over, &rows) {
        Ok(value) => Ok(value),
        Err(ReadError::Fault(fault)) => Err(refuse(alloc, file.word(), Some(&fault))),
        Err(ReadError::Memory) => Err(Halt::Memory),
    }
}

/// Reads an input file whole, and judges it over what was read before it.
pub(crate) fn load_input<S: Store, I: Inputs, F: InputFile<I>>(
    alloc: Global,
    store: &mut S,
    over: &I::Value,
    file: &F,
) -> Result<F::Value, Halt>
    requires closed { S.stage store.old ≡ Closed }
    requires formed { I.formed over.now }
    ensures told { (view : Option Files)
        → IsView (S.told store.old) (S.heard store.old) (S.heard store.new) view → Holding view
        (F.name file.now) (λ bytes. Loads result (stated_by F.word (F.states over.now) bytes)) }
    ensures heard { HearsFor ((F.word, F.name file.now) ∷ []) (S.heard store.old)
        (S.heard store.new) result }
    ensures formed { IfOk result (F.formed over.now) }
    ensures files { S.told store.new ≡ S.told store.old }
    ensures stored { S.stored store.new ≡ S.stored store.old }
    ensures closed { S.stage store.new ≡ Closed }
    ensures cause { HasCause Halt.Fault (S.faults store.old) (S.faults store.new) result }
{
    let bytes = load(alloc, store, file.name(), file.word())?;
    judge(alloc, over, file, &bytes)
}
