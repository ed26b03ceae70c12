// Reading an input file whole.
ghost use Rattle.std.specs.Prelude.{◌≡◌, ◌^◌, ◌<◌, ◌≤◌, ◌-◌, length, IfOk, IsErrOf, option_map, []};
ghost use Rattle.std.specs.Prelude.{◌∷◌, Option};
ghost use Rattle.shunt_store.specs.defs.Files.{Closed, Files};
ghost use Rattle.shunt_store.specs.defs.Causes.{HasCause};
ghost use Rattle.shunt_rows.specs.defs.InputTexts.{input_of};
ghost use Rattle.shunt_inputs.specs.declared.file_loader.Halt.TheVariants as halt;
ghost use Rattle.shunt_inputs.specs.defs.Halts.{IfInput, LoadsBytes};
ghost use Rattle.shunt_inputs.specs.defs.Inputs.{Holding, most_bytes_of};
ghost use Rattle.shunt_inputs.specs.defs.ReadFiles.{HearsFor};
ghost use Rattle.shunt_inputs.specs.defs.Views.{IsView};

use shunt_rows::{FileWord, RowFault, input_text};
use shunt_store::{ReadAllError, Store, read_all};
use std::alloc::{AllocError, Global};

/// Why a command has no answer, or the text of the input that isn't accepted.
#[derive(Debug, Drop)]
pub enum Halt {
    Fault,
    Memory,
    Input(Vec<u8>),
}

impl From<AllocError> for Halt {
    ghost from_gives = { λ _ e. e ≡ halt.Memory };

    fn from(_: AllocError) -> Self {
        Halt::Memory
    }
}

// How many bytes may stand in an input file.
fn most_bytes(file: FileWord) -> u64
    ensures value { result ≡ most_bytes_of file }
    ensures below { result < 2 ^ 64 - 1 }
{
    match file {
        FileWord::Certificate => 67_108_864,
        FileWord::Station
        | FileWord::Timetable
        | FileWord::Plan
        | FileWord::Other
        | FileWord::Edits
        | FileWord::Pins
        | FileWord::Zones
        | FileWord::Crew
        | FileWord::Roster
        | FileWord::Sheet => 4_194_304,
    }
}

/// The halt at an input file that isn't accepted, with its first fault, or none where it is too long.
pub(crate) fn refuse(alloc: Global, file: FileWord, fault: Option<&RowFault>) -> Halt
    ensures fault { result ≡ Halt.Fault → ⊥ }
    ensures text { IfInput result
        (λ text. text ≡ input_of file (option_map (λ f. f.now) fault.entry)) }
{
    match input_text(alloc, file, fault) {
        Ok(text) => Halt::Input(text),
        Err(_) => Halt::Memory,
    }
}

/// Reads a file whole.
pub(crate) fn load<S: Store>(
    alloc: Global,
    store: &mut S,
    name: &str,
    file: FileWord,
) -> Result<Vec<u8>, Halt>
    requires { S.stage store.old ≡ Closed }
    ensures told { (view : Option Files) → IsView (S.told store.old) (S.heard store.old)
        (S.heard store.new) view → Holding view name.now (λ bytes. LoadsBytes file bytes result) }
    ensures heard { HearsFor ((file, name.now) ∷ []) (S.heard store.old)
        (S.heard store.new) result }
    ensures short { IfOk result (λ bytes. length bytes.items ≤ most_bytes_of file) }
    ensures files { S.told store.new ≡ S.told store.old }
    ensures stored { S.stored store.new ≡ S.stored store.old }
    ensures closed { S.stage store.new ≡ Closed }
    ensures cause { HasCause Halt.Fault (S.faults store.old) (S.faults store.new) result }
{
    match read_all(alloc, store, name, most_bytes(file)) {
        Ok(bytes) => Ok(bytes),
        Err(ReadAllError::TooLong) => Err(refuse(alloc, file, None)),
        Err(ReadAllError::Fault) => Err(Halt::Fault),
        Err(ReadAllError::Memory) => Err(Halt::Memory),
    }
}
