// A sink in memory, in which chosen calls fail.
ghost use Rattle.std.specs.Prelude.{◌≡◌, ◌<◌, ◌≤◌, ◌↔◌, [], ◌∷◌, ◌++◌, length, take, IsTrue, IfOk};
ghost use Rattle.std.specs.Prelude.{IfErr, OnOk, OnErr, IsErrOf, Some, if◌then◌else◌};
ghost use Rattle.std.specs.Bool.{OnTrue};
ghost use Rattle.shunt_store.specs.defs.Causes.{one_more, IsOneMore, Rose, Counts, HasCause};
ghost use Rattle.shunt_store.specs.defs.Shown.{IsToFail, called, refused};

use crate::errors::SinkError;
use crate::fault_count::one_fault_more;
use crate::traits::Sink;
use std::alloc::{AllocError, Global};
use std::marker::Model;

/// Output in memory, with the numbers of the calls that are to fail. The calls of the trait's
/// method are counted from 1, the refused ones too, and never past 2^64 - 1.
#[derive(Debug, Drop)]
pub struct MemSink {
    bytes: Vec<u8>,
    failing: Vec<u64>,
    calls: u64,
    faults: u64,
}

impl Model for MemSink {
    ghost use Rattle.shunt_store.specs.defs.Shown.{Shown, coded_shown};

    ghost Value = { Shown };

    ghost coded = { coded_shown };

    ghost use Rattle.shunt_store.specs.defs.Sinks.{shown};

    ghost view = { shown };
}

impl MemSink {
    /// Nothing written, and no calls that are to fail.
    pub fn new(alloc: Global) -> MemSink
        ensures { result ≡ record { bytes = []; failing = []; calls = 0; faults = 0 } }
    {
        MemSink {
            bytes: Vec::new(alloc),
            failing: Vec::new(alloc),
            calls: 0,
            faults: 0,
        }
    }

    /// The call of this number is to fail, counted from 1 over the trait's method.
    pub fn fail_at(&mut self, call: u64) -> Result<(), AllocError>
        ensures ok { OnOk result
            (self.new ≡ record self.old { failing = self.old.failing ++ call ∷ [] }) }
        ensures err { OnErr result (self.new ≡ self.old) }
    {
        self.failing.push(call)?;
        Ok(())
    }

    /// What was written.
    pub fn bytes(&self) -> &[u8]
        ensures { result.now ≡ self.now.bytes }
    {
        &self.bytes
    }

    fn append(&mut self, piece: &[u8]) -> Result<(), AllocError>
        ensures ok { OnOk result
            (self.new ≡ record self.old { bytes = self.old.bytes ++ piece.now }) }
        ensures err { OnErr result (self.new ≡ self.old) }
    {
        self.bytes.extend_from_slice(piece)?;
        Ok(())
    }

    // Counts a call, and says whether it is to fail.
    fn call_fails(&mut self) -> bool
        ensures later { self.old.faults ≤ self.new.faults }
        ensures rose { OnTrue result (Rose self.old.faults self.new.faults) }
        ensures counted { OnTrue result (IsOneMore self.old.faults self.new.faults) }
        ensures fails { IsTrue result ↔ IsToFail self.old }
        ensures new { self.new ≡ record self.old {
          calls = one_more self.old.calls;
          faults = if result then one_more self.old.faults else self.old.faults;
        } }
    {
        self.calls = self.calls.saturating_add(1);
        let fails = self.failing.contains(&self.calls);
        if fails {
            self.faults = one_fault_more(self.faults);
        }
        fails
    }
}

impl Sink for MemSink {
    ghost told = { λ s. Some s.bytes };

    ghost faults = { λ s. s.faults };

    /// Takes the whole piece.
    fn write(&mut self, piece: &[u8]) -> Result<usize, SinkError>
        ensures whole { IfOk result (λ n. n ≡ length piece.now) }
        ensures ok { OnOk result
            (self.new ≡ record (called self.old) { bytes = self.old.bytes ++ piece.now }) }
        ensures err { IfErr result (λ e. self.new ≡ refused e self.old) }
        ensures exact { IsErrOf result SinkError.Fault ↔ IsToFail self.old }
        ensures counts { Counts SinkError.Fault self.old.faults self.new.faults result }
        ensures cause { HasCause SinkError.Fault self.old.faults self.new.faults result }
    {
        if self.call_fails() {
            return Err(SinkError::Fault);
        }
        match self.append(piece) {
            Ok(()) => Ok(piece.len()),
            Err(_) => Err(SinkError::Memory),
        }
    }
}
