// Writing a text whole, to a sink and to a file.
ghost use Rattle.std.specs.Prelude.{◌≡◌, ◌≤◌, ◌∷◌, ◌++◌, [], IsOk, OnOk, OnErr};
ghost use Rattle.std.specs.FinMap as map;
ghost use Rattle.shunt_store.specs.defs.Files.{Closed, Writing, IsWriting, name_of, text_of};
ghost use Rattle.shunt_store.specs.defs.Files.{BothTold, AddsFront, AppendsFront};
ghost use Rattle.shunt_store.specs.defs.Causes.{HasCause};

use crate::errors::{SinkError, StoreError};
use crate::traits::{Sink, Store};

/// Prints all of the bytes. After a refusal a front of them was printed. If there are none
/// the sink isn't called.
pub fn print<O: Sink>(out: &mut O, bytes: &[u8]) -> Result<(), SinkError>
    ensures ok { OnOk result
        (BothTold (O.told out.old) (O.told out.new) (λ old new. new ≡ old ++ bytes.now)) }
    ensures err { OnErr result (BothTold (O.told out.old) (O.told out.new) (AddsFront bytes.now)) }
    ensures cause { HasCause SinkError.Fault (O.faults out.old) (O.faults out.new) result }
    ensures nothing { bytes.now ≡ [] → IsOk result × (out.new ≡ out.old) }
{
    let mut at = 0;
    'parts: while at < bytes.len() {
        at += out.write(&bytes[at..])?;
    }
    Ok(())
}

/// Appends the bytes to what is written. After a refusal a front of them may have been appended. No file is changed.
pub fn append_all<S: Store>(store: &mut S, bytes: &[u8]) -> Result<(), StoreError>
    requires { IsWriting (S.stage store.old) }
    ensures ok { OnOk result (S.stage store.new
        ≡ Writing (name_of (S.stage store.old)) (text_of (S.stage store.old) ++ bytes.now)) }
    ensures err { OnErr result (AppendsFront bytes.now (S.stage store.old) (S.stage store.new)) }
    ensures writing { IsWriting (S.stage store.new) }
    ensures files { S.told store.new ≡ S.told store.old }
    ensures heard { S.heard store.new ≡ S.heard store.old }
    ensures stored { S.stored store.new ≡ S.stored store.old }
    ensures taken { S.taken store.new ≡ S.taken store.old }
    ensures cause { HasCause StoreError.Fault (S.faults store.old) (S.faults store.new) result }
{
    let mut at = 0;
    'pieces: while at < bytes.len() {
        at += store.write(&bytes[at..])?;
    }
    Ok(())
}

/// Makes the file hold exactly these bytes. After a refusal it is as it was, or absent as before. Every
/// other file is as it was, whatever the answer, and no file is left open.
pub fn write_all_to<S: Store>(store: &mut S, name: &str, bytes: &[u8]) -> Result<(), StoreError>
    requires { S.stage store.old ≡ Closed }
    ensures ok { OnOk result (BothTold (S.told store.old) (S.told store.new)
        (λ old new. new ≡ map.insert old name.now bytes.now)) }
    ensures err { OnErr result (S.told store.new ≡ S.told store.old) }
    ensures stored { OnOk result (BothTold (S.stored store.old) (S.stored store.new)
        (λ old new. new ≡ old ++ (name.now, bytes.now) ∷ [])) }
    ensures none_stored { OnErr result (S.stored store.new ≡ S.stored store.old) }
    ensures heard { S.heard store.new ≡ S.heard store.old }
    ensures closed { S.stage store.new ≡ Closed }
    ensures taken { S.taken store.new ≡ S.taken store.old }
    ensures cause { HasCause StoreError.Fault (S.faults store.old) (S.faults store.new) result }
{
    store.create_file(name)?;
    match append_all(store, bytes) {
        Ok(()) => store.close_file(),
        Err(e) => {
            store.drop_file();
            Err(e)
        }
    }
}
