// A store and a sink in memory that never fault.
ghost use Rattle.std.specs.Prelude.{◌≡◌, ◌≢◌, ◌+◌, ◌<◌, ◌≤◌, [], ◌∷◌, ◌++◌, length, take, IfOk};
ghost use Rattle.std.specs.Prelude.{IsOk, OnOk, OnErr, IsErrOf, Some, option_map};
ghost use Rattle.std.specs.FinMap as map;
ghost use Rattle.shunt_store.specs.defs.Causes.{counted_on};
ghost use Rattle.shunt_store.specs.defs.Notes.{add_last, stored_after};
ghost use Rattle.shunt_store.specs.defs.Files.{Closed, Reading, Writing, IsReading, IsWriting};
ghost use Rattle.shunt_store.specs.defs.Files.{name_of, text_of, content, files_after, HandsOut};

use crate::errors::{SinkError, StoreError};
use crate::memory_calls::hand_out;
use crate::noted::NotedFiles;
use crate::table::{File, bytes_at, put};
use crate::traits::{Sink, Store};
use std::alloc::{AllocError, Global};
use std::marker::Model;
use std::mem;

// What is read, by its name, or what is written, by its name and its bytes so far.
#[derive(Drop)]
pub enum SureState {
    Closed,
    Reading(Vec<u8>),
    Writing(Vec<u8>, Vec<u8>),
}

/// Files in memory. It never faults: only memory can run out. A name that is absent reads as no bytes.
#[derive(Drop)]
pub struct SureStore {
    alloc: Global,
    files: Vec<File>,
    heard: NotedFiles,
    stored: NotedFiles,
    doing: SureState,
    taken: usize,
    handed: u64,
}

impl Model for SureStore {
    ghost use Rattle.shunt_store.specs.defs.Sure.{Sure, coded_sure};

    ghost Value = { Sure };

    ghost coded = { coded_sure };

    ghost use Rattle.shunt_store.specs.defs.Kept.{kept, IsSoundSure};

    ghost view = { kept };

    ghost invariant = { IsSoundSure };
}

impl SureStore {
    /// No files.
    pub fn new(alloc: Global) -> SureStore
        ensures { result ≡ record {
          files = map.empty;
          heard = [];
          stored = [];
          stage = Closed;
          taken = 0;
          handed = 0;
        } }
    {
        SureStore {
            alloc,
            files: Vec::new(alloc),
            heard: NotedFiles::new(),
            stored: NotedFiles::new(),
            doing: SureState::Closed,
            taken: 0,
            handed: 0,
        }
    }

    /// The file then holds exactly these bytes, whether it was there or not. Nothing may be open.
    pub fn put(&mut self, name: &str, bytes: &[u8]) -> Result<(), AllocError>
        requires { self.old.stage ≡ Closed }
        ensures ok { OnOk result
            (self.new ≡ record self.old { files = map.insert self.old.files name.now bytes.now }) }
        ensures err { OnErr result (self.new ≡ self.old) }
    {
        let SureState::Closed = self.doing else {
            unreachable!();
        };
        put(self.alloc, &mut self.files, name.as_bytes(), bytes)?;
        Ok(())
    }

    /// What the file holds. None exactly when there is none of the name.
    pub fn file(&self, name: &str) -> Option<&[u8]>
        ensures { option_map (λ b. b.now) result ≡ map.get self.now.files name.now }
    {
        bytes_at(&self.files, name.as_bytes())
    }
}

impl Store for SureStore {
    ghost told = { λ s. Some s.files };

    ghost heard = { λ s. Some s.heard };

    ghost stored = { λ s. Some s.stored };

    ghost stage = { λ s. s.stage };

    ghost taken = { λ s. s.taken };

    ghost handed = { λ s. s.handed };

    ghost faults = { λ s. 0 };

    fn open_file(&mut self, name: &str) -> Result<(), StoreError>
        requires { self.old.stage ≡ Closed }
        ensures ok { OnOk result (self.new ≡ record self.old {
          stage = Reading name.now;
          taken = 0;
          heard = self.old.heard ++ (name.now, []) ∷ [];
        }) }
        ensures handed { self.new.handed ≡ self.old.handed }
        ensures err { OnErr result (self.new ≡ self.old) }
        ensures never { IsErrOf result StoreError.Fault → ⊥ }
        ensures files { self.new.files ≡ self.old.files }
    {
        self.doing = SureState::Reading(Vec::from_slice(self.alloc, name.as_bytes())?);
        self.heard.begin(name.as_bytes());
        self.taken = 0;
        Ok(())
    }

    fn read(&mut self, buf: &mut [u8]) -> Result<usize, StoreError>
        requires { IsReading self.old.stage }
        ensures bytes { IfOk result (λ n. HandsOut
            (content self.old.files (name_of self.old.stage)) self.old.taken n buf.new) }
        ensures bound { IfOk result (λ n. n ≤ length buf.new) }
        ensures ok { IfOk result (λ n. self.new
            ≡ record self.old {
              taken = self.old.taken + n;
              handed = counted_on self.old.handed n;
              heard = add_last (take n buf.new) self.old.heard;
            }) }
        ensures always { IsOk result }
        ensures stage { self.new.stage ≡ self.old.stage }
        ensures files { self.new.files ≡ self.old.files }
    {
        let SureState::Reading(name) = &self.doing else {
            unreachable!();
        };
        let bytes = bytes_at(&self.files, name).unwrap_or(&[]);
        let n = hand_out(bytes, self.taken, None, buf);
        self.heard.add(&buf[..n]);
        self.taken += n;
        self.handed = self.handed.saturating_add(n as u64);
        Ok(n)
    }

    fn create_file(&mut self, name: &str) -> Result<(), StoreError>
        requires { self.old.stage ≡ Closed }
        ensures ok { OnOk result (self.new ≡ record self.old { stage = Writing name.now [] }) }
        ensures err { OnErr result (self.new ≡ self.old) }
        ensures never { IsErrOf result StoreError.Fault → ⊥ }
        ensures files { self.new.files ≡ self.old.files }
        ensures taken { self.new.taken ≡ self.old.taken }
        ensures handed { self.new.handed ≡ self.old.handed }
    {
        let name = Vec::from_slice(self.alloc, name.as_bytes())?;
        self.doing = SureState::Writing(name, Vec::new(self.alloc));
        Ok(())
    }

    fn write(&mut self, piece: &[u8]) -> Result<usize, StoreError>
        requires { IsWriting self.old.stage }
        ensures whole { IfOk result (λ n. n ≡ length piece.now) }
        ensures ok { OnOk result (self.new ≡ record self.old {
          stage = Writing (name_of self.old.stage) (text_of self.old.stage ++ piece.now);
        }) }
        ensures err { OnErr result (self.new ≡ self.old) }
        ensures never { IsErrOf result StoreError.Fault → ⊥ }
        ensures files { self.new.files ≡ self.old.files }
        ensures taken { self.new.taken ≡ self.old.taken }
        ensures handed { self.new.handed ≡ self.old.handed }
    {
        let SureState::Writing(_, text) = &mut self.doing else {
            unreachable!();
        };
        text.extend_from_slice(piece)?;
        Ok(piece.len())
    }

    fn close_file(&mut self) -> Result<(), StoreError>
        requires { self.old.stage ≢ Closed }
        ensures ok { OnOk result
            (self.new ≡ record self.old {
              files = files_after self.old.stage self.old.files;
              stage = Closed;
              stored = stored_after self.old.stage self.old.stored;
            }) }
        ensures err { OnErr result (self.new ≡ record self.old { stage = Closed }) }
        ensures never { IsErrOf result StoreError.Fault → ⊥ }
        ensures closed { self.new.stage ≡ Closed }
        ensures taken { self.new.taken ≡ self.old.taken }
        ensures handed { self.new.handed ≡ self.old.handed }
    {
        if let SureState::Writing(name, text) = mem::replace(&mut self.doing, SureState::Closed) {
            put(self.alloc, &mut self.files, &name, &text)?;
            self.stored.keep_bytes(&name, &text);
        }
        Ok(())
    }

    fn drop_file(&mut self)
        requires { IsWriting self.old.stage }
        ensures { self.new ≡ record self.old { stage = Closed } }
    {
        self.doing = SureState::Closed;
    }
}

/// Output in memory. It never faults: only memory can run out.
#[derive(Debug, Drop)]
pub struct SureSink {
    bytes: Vec<u8>,
}

impl Model for SureSink {
    ghost use Rattle.std.specs.Prelude.{ℕ, List};

    ghost Value = { List ℕ };

    ghost view = { λ s. s.bytes.items };
}

impl SureSink {
    /// Nothing written.
    pub fn new(alloc: Global) -> SureSink
        ensures { result ≡ [] }
    {
        SureSink {
            bytes: Vec::new(alloc),
        }
    }

    /// What was written.
    pub fn bytes(&self) -> &[u8]
        ensures { result.now ≡ self.now }
    {
        &self.bytes
    }
}

impl Sink for SureSink {
    ghost told = { λ s. Some s };

    ghost faults = { λ s. 0 };

    /// Takes the whole piece.
    fn write(&mut self, piece: &[u8]) -> Result<usize, SinkError>
        ensures whole { IfOk result (λ n. n ≡ length piece.now) }
        ensures ok { OnOk result (self.new ≡ self.old ++ piece.now) }
        ensures err { OnErr result (self.new ≡ self.old) }
        ensures never { IsErrOf result SinkError.Fault → ⊥ }
    {
        match self.bytes.extend_from_slice(piece) {
            Ok(()) => Ok(piece.len()),
            Err(_) => Err(SinkError::Memory),
        }
    }
}
