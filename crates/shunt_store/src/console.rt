// A sink over the standard output.
ghost use Rattle.std.specs.Prelude.{◌≡◌, ◌<◌, ◌≤◌, ◌++◌, [], Some, IfOk, OnErr, IsErrOf, length};
ghost use Rattle.std.specs.Prelude.{take};
ghost use Rattle.shunt_store.specs.defs.Files.{AddsFront};
ghost use Rattle.shunt_store.specs.defs.Causes.{Counts, HasCause};

use crate::errors::SinkError;
use crate::fault_count::one_fault_more;
use crate::noted::Noted;
use crate::traits::Sink;
use std::io;
use std::io::Write;

/// The standard output. It tells the bytes that it took.
#[derive(Drop)]
pub struct ConsoleSink<'r, R: Print> {
    rt: &'r R,
    noted: Noted,
    faults: u64,
}

impl<'r, R: Print> ConsoleSink<'r, R> {
    /// Nothing was written, and there are no faults so far.
    pub fn new(rt: &'r R) -> ConsoleSink<'r, R>
        ensures told { result.noted.bytes ≡ [] }
        ensures faults { result.faults ≡ 0 }
    {
        ConsoleSink {
            rt,
            noted: Noted::new(),
            faults: 0,
        }
    }
}

impl<R: Print> Sink for ConsoleSink<'_, R> {
    ghost told = { λ s. Some s.noted.bytes };

    ghost faults = { λ s. s.faults };

    /// A Fault also where the output takes nothing of the piece.
    fn write(&mut self, piece: &[u8]) -> Result<usize, SinkError>
        ensures bound { IfOk result (λ n. n ≤ length piece.now) }
        ensures some { IfOk result (λ n. 0 < length piece.now → 0 < n) }
        ensures bytes { IfOk result
            (λ n. self.new.noted.bytes ≡ self.old.noted.bytes ++ take n piece.now) }
        ensures err { OnErr result (self.new.noted.bytes ≡ self.old.noted.bytes) }
        ensures front { OnErr result
            (AddsFront piece.now self.old.noted.bytes self.new.noted.bytes) }
        ensures no_memory { IsErrOf result SinkError.Memory → ⊥ }
        ensures counts { Counts SinkError.Fault self.old.faults self.new.faults result }
        ensures cause { HasCause SinkError.Fault self.old.faults self.new.faults result }
    {
        let mut writer = io::writer(self.rt);
        if let Ok(n) = writer.write(piece) {
            if n > 0 || piece.is_empty() {
                self.noted.note(&piece[..n]);
                return Ok(n);
            }
        }
        self.faults = one_fault_more(self.faults);
        Err(SinkError::Fault)
    }
}
