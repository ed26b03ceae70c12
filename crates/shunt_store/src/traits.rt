// The outside as the program sees it: files by name, and output.
ghost use Rattle.std.specs.Prelude.{◌≡◌, ◌≢◌, ◌⊎◌, ℕ, ◌+◌, ◌<◌, ◌≤◌, ◌∷◌, ◌++◌, [], List, Option};
ghost use Rattle.std.specs.Prelude.{length, take, IfOk, OnOk, OnErr, IfSome, IsErrOf};
ghost use Rattle.shunt_store.specs.defs.Files.{Files, Stage, Closed, Reading, Writing, IsReading};
ghost use Rattle.shunt_store.specs.defs.Files.{IsWriting, name_of, text_of, content, files_after};
ghost use Rattle.shunt_store.specs.defs.Files.{HandsOut, BothTold, AddsFront};
ghost use Rattle.shunt_store.specs.defs.Notes.{Entries, add_last, stored_after};
ghost use Rattle.shunt_store.specs.defs.Causes.{counted_on, Counts, HasCause};

use crate::errors::{SinkError, StoreError};

/// Files by name, of which at most one is open, to be read from its first byte to its end or
/// to be written anew. While a file is written no file is changed: its closing makes it hold what was
/// written, and after a refusal every file holds what it held. A Fault comes only where the count of
/// faults rose in that call.
///
/// What a store tells, it always will, and what it doesn't tell, it never does.
pub trait Store {
    /// The files, where the store tells them.
    ghost told: { Self → Option Files };

    /// What was read in this run, where the store tells it: for each opening the name, and the bytes that were handed out.
    ghost heard: { Self → Option Entries };

    /// What files were made to hold in this run, where the store tells it: for each closing the name, and the bytes.
    ghost stored: { Self → Option Entries };

    /// What the store is doing: nothing, reading a name, or writing a name, of which some bytes were written so far.
    ghost stage: { Self → Stage };

    /// How many bytes were handed out since a file was last opened.
    ghost taken: { Self → ℕ };

    /// How many bytes were handed out in all, as far as a count goes.
    ghost handed: { Self → ℕ };

    /// How often the store failed.
    ghost faults: { Self → ℕ };

    /// Opens a file to be read from its first byte. No file is changed.
    fn open_file(&mut self, name: &str) -> Result<(), StoreError>
        requires { stage self.old ≡ Closed }
        ensures ok { OnOk result ((stage self.new ≡ Reading name.now) × (taken self.new ≡ 0)) }
        ensures err { OnErr result (stage self.new ≡ Closed) }
        ensures handed { handed self.new ≡ handed self.old }
        ensures none_taken { OnErr result
            ((taken self.new ≡ taken self.old) ⊎ (taken self.new ≡ 0)) }
        ensures files { told self.new ≡ told self.old }
        ensures heard { OnOk result (BothTold (heard self.old) (heard self.new)
            (λ old new. new ≡ old ++ (name.now, []) ∷ [])) }
        ensures none_heard { OnErr result (heard self.new ≡ heard self.old) }
        ensures stored { stored self.new ≡ stored self.old }
        ensures counts { Counts StoreError.Fault (faults self.old) (faults self.new) result }
        ensures cause { HasCause StoreError.Fault (faults self.old) (faults self.new) result };

    /// Hands out the next bytes of the file, as many as it answers, at the front of the buffer:
    /// 0 for a buffer with room only at the file's end. No file is changed.
    fn read(&mut self, buf: &mut [u8]) -> Result<usize, StoreError>
        requires { IsReading (stage self.old) }
        ensures bound { IfOk result (λ n. n ≤ length buf.new) }
        ensures bytes { IfOk result (λ n. IfSome (told self.old) (λ files. HandsOut
            (content files (name_of (stage self.old))) (taken self.old) n buf.new)) }
        ensures taken { IfOk result (λ n. taken self.new ≡ taken self.old + n) }
        ensures err { OnErr result (taken self.new ≡ taken self.old) }
        ensures handed { IfOk result (λ n. handed self.new ≡ counted_on (handed self.old) n) }
        ensures none_handed { OnErr result (handed self.new ≡ handed self.old) }
        ensures no_memory { IsErrOf result StoreError.Memory → ⊥ }
        ensures stage { stage self.new ≡ stage self.old }
        ensures files { told self.new ≡ told self.old }
        ensures heard { IfOk result (λ n. BothTold (heard self.old) (heard self.new)
            (λ old new. new ≡ add_last (take n buf.new) old)) }
        ensures none_heard { OnErr result (heard self.new ≡ heard self.old) }
        ensures stored { stored self.new ≡ stored self.old }
        ensures counts { Counts StoreError.Fault (faults self.old) (faults self.new) result }
        ensures cause { HasCause StoreError.Fault (faults self.old) (faults self.new) result };

    /// The named file is to be written anew from then on. No file is changed.
    fn create_file(&mut self, name: &str) -> Result<(), StoreError>
        requires { stage self.old ≡ Closed }
        ensures ok { OnOk result (stage self.new ≡ Writing name.now []) }
        ensures err { OnErr result (stage self.new ≡ Closed) }
        ensures files { told self.new ≡ told self.old }
        ensures taken { taken self.new ≡ taken self.old }
        ensures handed { handed self.new ≡ handed self.old }
        ensures heard { heard self.new ≡ heard self.old }
        ensures stored { stored self.new ≡ stored self.old }
        ensures counts { Counts StoreError.Fault (faults self.old) (faults self.new) result }
        ensures cause { HasCause StoreError.Fault (faults self.old) (faults self.new) result };

    /// Appends the front of the piece to what is written, as many bytes as it answers: at least one, if
    /// there are any. After a refusal what was written is as it was, and may be written on. No file is changed.
    fn write(&mut self, piece: &[u8]) -> Result<usize, StoreError>
        requires { IsWriting (stage self.old) }
        ensures bound { IfOk result (λ n. n ≤ length piece.now) }
        ensures some { IfOk result (λ n. 0 < length piece.now → 0 < n) }
        ensures bytes { IfOk result (λ n. stage self.new
            ≡ Writing (name_of (stage self.old)) (text_of (stage self.old) ++ take n piece.now)) }
        ensures err { OnErr result (stage self.new ≡ stage self.old) }
        ensures files { told self.new ≡ told self.old }
        ensures taken { taken self.new ≡ taken self.old }
        ensures handed { handed self.new ≡ handed self.old }
        ensures heard { heard self.new ≡ heard self.old }
        ensures stored { stored self.new ≡ stored self.old }
        ensures counts { Counts StoreError.Fault (faults self.old) (faults self.new) result }
        ensures cause { HasCause StoreError.Fault (faults self.old) (faults self.new) result };

    /// Closes the file, whatever the answer. One that was written then holds exactly what was written, and
    /// no other is changed. After a refusal no file is changed.
    fn close_file(&mut self) -> Result<(), StoreError>
        requires { stage self.old ≢ Closed }
        ensures closed { stage self.new ≡ Closed }
        ensures ok { OnOk result (BothTold (told self.old) (told self.new)
            (λ old new. new ≡ files_after (stage self.old) old)) }
        ensures err { OnErr result (told self.new ≡ told self.old) }
        ensures taken { taken self.new ≡ taken self.old }
        ensures handed { handed self.new ≡ handed self.old }
        ensures heard { heard self.new ≡ heard self.old }
        ensures stored { OnOk result (BothTold (stored self.old) (stored self.new)
            (λ old new. new ≡ stored_after (stage self.old) old)) }
        ensures none_stored { OnErr result (stored self.new ≡ stored self.old) }
        ensures counts { Counts StoreError.Fault (faults self.old) (faults self.new) result }
        ensures cause { HasCause StoreError.Fault (faults self.old) (faults self.new) result };

    /// Gives up what was written. No file is changed.
    fn drop_file(&mut self)
        requires { IsWriting (stage self.old) }
        ensures closed { stage self.new ≡ Closed }
        ensures files { told self.new ≡ told self.old }
        ensures taken { taken self.new ≡ taken self.old }
        ensures handed { handed self.new ≡ handed self.old }
        ensures heard { heard self.new ≡ heard self.old }
        ensures stored { stored self.new ≡ stored self.old }
        ensures faults { faults self.new ≡ faults self.old };
}

/// Where output goes. A Fault adds one to the count of faults, which stays at its last value, and nothing else changes it.
pub trait Sink {
    /// The bytes written so far, where the sink tells them. What doesn't tell them never does,
    /// and what does always will.
    ghost told: { Self → Option (List ℕ) };

    /// How often the sink failed.
    ghost faults: { Self → ℕ };

    /// Appends the front of the piece, as many bytes as it answers: at least one, if there are any.
    fn write(&mut self, piece: &[u8]) -> Result<usize, SinkError>
        ensures bound { IfOk result (λ n. n ≤ length piece.now) }
        ensures some { IfOk result (λ n. 0 < length piece.now → 0 < n) }
        ensures bytes { IfOk result (λ n. BothTold (told self.old) (told self.new)
            (λ old new. new ≡ old ++ take n piece.now)) }
        ensures err { OnErr result
            (BothTold (told self.old) (told self.new) (AddsFront piece.now)) }
        ensures counts { Counts SinkError.Fault (faults self.old) (faults self.new) result }
        ensures cause { HasCause SinkError.Fault (faults self.old) (faults self.new) result };
}
