// A store in memory, in which chosen calls fail.
ghost use Rattle.std.specs.Prelude.{◌≡◌, ◌≢◌, ◌⊎◌, ◌+◌, ◌-◌, ◌<◌, ◌≤◌, ◌↔◌, [], ◌∷◌, ◌++◌, min};
ghost use Rattle.std.specs.Prelude.{length, take, IsTrue, IfOk, IfErr, OnOk, OnErr, IsErrOf, Some};
ghost use Rattle.std.specs.Prelude.{None, option_map, Contains, if◌then◌else◌};
ghost use Rattle.std.specs.Bool.{OnTrue};
ghost use Rattle.std.specs.FinMap as map;
ghost use Rattle.shunt_store.specs.defs.Causes.{one_more, counted_on, IsOneMore, Rose, Counts};
ghost use Rattle.shunt_store.specs.defs.Causes.{HasCause};
ghost use Rattle.shunt_store.specs.defs.Files.{Closed, Reading, Writing, IsReading, IsWriting};
ghost use Rattle.shunt_store.specs.defs.Files.{name_of, text_of, content, files_after, HandsOut};
ghost use Rattle.shunt_store.specs.defs.Held.{Held, IsToFail, called, refused};
ghost use Rattle.shunt_store.specs.defs.Notes.{add_last, stored_after};
ghost use Rattle.shunt_store.specs.defs.Pieces.{bounded};

use crate::errors::StoreError;
use crate::fault_count::one_fault_more;
use crate::memory_calls::{hand_out, in_one_call};
use crate::noted::NotedFiles;
use crate::table::{File, bytes_at, bytes_of, place_of, put};
use crate::traits::Store;
use std::alloc::{AllocError, Global};
use std::marker::Model;
use std::mem;

// What is read, by its place in the list, or what is written, by its name and its bytes so far.
#[derive(Drop)]
pub enum MemoryState {
    Closed,
    Reading(usize),
    Writing(Vec<u8>, Vec<u8>),
}

/// Files in memory, with the numbers of the calls that are to fail. The calls of the trait's
/// methods are counted from 1, the refused ones too, and never past 2^64 - 1.
#[derive(Drop)]
pub struct MemStore {
    alloc: Global,
    files: Vec<File>,
    heard: NotedFiles,
    stored: NotedFiles,
    failing: Vec<u64>,
    calls: u64,
    faults: u64,
    doing: MemoryState,
    taken: usize,
    handed: u64,
    piece: Option<usize>,
}

impl Model for MemStore {
    ghost use Rattle.shunt_store.specs.defs.Held.{Held, coded_held};

    ghost Value = { Held };

    ghost coded = { coded_held };

    ghost use Rattle.shunt_store.specs.defs.Memory.{held, IsSoundMemory};

    ghost view = { held };

    ghost invariant = { IsSoundMemory };
}

impl MemStore {
    /// No files, no calls that are to fail, and no bound on what a call moves.
    pub fn new(alloc: Global) -> MemStore
        ensures { result ≡ record {
          files = map.empty;
          heard = [];
          stored = [];
          failing = [];
          calls = 0;
          faults = 0;
          stage = Closed;
          taken = 0;
          handed = 0;
          piece = None;
        } }
    {
        MemStore {
            alloc,
            files: Vec::new(alloc),
            heard: NotedFiles::new(),
            stored: NotedFiles::new(),
            failing: Vec::new(alloc),
            calls: 0,
            faults: 0,
            doing: MemoryState::Closed,
            taken: 0,
            handed: 0,
            piece: None,
        }
    }

    /// The file then holds exactly these bytes, whether it was there or not. Nothing may be open.
    pub fn put(&mut self, name: &str, bytes: &[u8]) -> Result<(), AllocError>
        requires { self.old.stage ≡ Closed }
        ensures ok { OnOk result
            (self.new ≡ record self.old { files = map.insert self.old.files name.now bytes.now }) }
        ensures err { OnErr result (self.new ≡ self.old) }
    {
        let MemoryState::Closed = self.doing else {
            unreachable!();
        };
        put(self.alloc, &mut self.files, name.as_bytes(), bytes)?;
        Ok(())
    }

    /// The call of this number is to fail, counted from 1 over the trait's methods.
    pub fn fail_at(&mut self, call: u64) -> Result<(), AllocError>
        ensures ok { OnOk result
            (self.new ≡ record self.old { failing = self.old.failing ++ call ∷ [] }) }
        ensures err { OnErr result (self.new ≡ self.old) }
    {
        self.failing.push(call)?;
        Ok(())
    }

    /// From then on a read gives, and a write takes, at most that many bytes.
    pub fn set_piece(&mut self, most: usize)
        requires { 1 ≤ most }
        ensures { self.new ≡ record self.old { piece = Some most } }
    {
        self.piece = Some(most);
    }

    /// What the file holds. None exactly when there is none of the name.
    pub fn file(&self, name: &str) -> Option<&[u8]>
        ensures { option_map (λ b. b.now) result ≡ map.get self.now.files name.now }
    {
        bytes_at(&self.files, name.as_bytes())
    }

    // Counts a call, and says whether it is to fail.
    fn call_fails(&mut self) -> bool
        ensures later { self.old.faults ≤ self.new.faults }
        ensures rose { OnTrue result (Rose self.old.faults self.new.faults) }
        ensures counted { OnTrue result (IsOneMore self.old.faults self.new.faults) }
        ensures fails { IsTrue result ↔ IsToFail self.old }
        ensures new { self.new ≡ record self.old {
          calls = one_more self.old.calls;
          faults = if result then one_more self.old.faults else self.old.faults;
        } }
    {
        self.calls = self.calls.saturating_add(1);
        let fails = self.failing.contains(&self.calls);
        if fails {
            self.faults = one_fault_more(self.faults);
        }
        fails
    }
}

impl Store for MemStore {
    ghost told = { λ s. Some s.files };

    ghost heard = { λ s. Some s.heard };

    ghost stored = { λ s. Some s.stored };

    ghost stage = { λ s. s.stage };

    ghost taken = { λ s. s.taken };

    ghost handed = { λ s. s.handed };

    ghost faults = { λ s. s.faults };

    /// A Fault also where there is no file of the name.
    fn open_file(&mut self, name: &str) -> Result<(), StoreError>
        requires { self.old.stage ≡ Closed }
        ensures ok { OnOk result (self.new ≡ record (called self.old) {
          stage = Reading name.now;
          taken = 0;
          heard = self.old.heard ++ (name.now, []) ∷ [];
        }) }
        ensures err { IfErr result (λ e. self.new ≡ refused e self.old) }
        ensures handed { self.new.handed ≡ self.old.handed }
        ensures exact { IsErrOf result StoreError.Fault
            ↔ (IsToFail self.old ⊎ (map.get self.old.files name.now ≡ None)) }
        ensures no_memory { IsErrOf result StoreError.Memory → ⊥ }
        ensures files { self.new.files ≡ self.old.files }
        ensures counts { Counts StoreError.Fault self.old.faults self.new.faults result }
        ensures cause { HasCause StoreError.Fault self.old.faults self.new.faults result }
    {
        if self.call_fails() {
            return Err(StoreError::Fault);
        }
        let Some(place) = place_of(&self.files, name.as_bytes()) else {
            self.faults = one_fault_more(self.faults);
            return Err(StoreError::Fault);
        };
        self.doing = MemoryState::Reading(place);
        self.heard.begin(name.as_bytes());
        self.taken = 0;
        Ok(())
    }

    fn read(&mut self, buf: &mut [u8]) -> Result<usize, StoreError>
        requires { IsReading self.old.stage }
        ensures bytes { IfOk result (λ n. HandsOut
            (content self.old.files (name_of self.old.stage)) self.old.taken n buf.new) }
        ensures amount { IfOk result (λ n. n ≡ bounded self.old.piece (min (length
            (content self.old.files (name_of self.old.stage)) - self.old.taken) (length buf.new))) }
        ensures bound { IfOk result (λ n. n ≤ length buf.new) }
        ensures ok { IfOk result (λ n. self.new ≡ record
            (called self.old) {
              taken = self.old.taken + n;
              handed = counted_on self.old.handed n;
              heard = add_last (take n buf.new) self.old.heard;
            }) }
        ensures err { IfErr result (λ e. self.new ≡ refused e self.old) }
        ensures exact { IsErrOf result StoreError.Fault ↔ IsToFail self.old }
        ensures no_memory { IsErrOf result StoreError.Memory → ⊥ }
        ensures stage { self.new.stage ≡ self.old.stage }
        ensures files { self.new.files ≡ self.old.files }
        ensures counts { Counts StoreError.Fault self.old.faults self.new.faults result }
        ensures cause { HasCause StoreError.Fault self.old.faults self.new.faults result }
    {
        if self.call_fails() {
            return Err(StoreError::Fault);
        }
        let MemoryState::Reading(place) = self.doing else {
            unreachable!();
        };
        let n = hand_out(bytes_of(&self.files, place), self.taken, self.piece, buf);
        self.heard.add(&buf[..n]);
        self.taken += n;
        self.handed = self.handed.saturating_add(n as u64);
        Ok(n)
    }

    fn create_file(&mut self, name: &str) -> Result<(), StoreError>
        requires { self.old.stage ≡ Closed }
        ensures ok { OnOk result
            (self.new ≡ record (called self.old) { stage = Writing name.now [] }) }
        ensures err { IfErr result (λ e. self.new ≡ refused e self.old) }
        ensures exact { IsErrOf result StoreError.Fault ↔ IsToFail self.old }
        ensures files { self.new.files ≡ self.old.files }
        ensures taken { self.new.taken ≡ self.old.taken }
        ensures handed { self.new.handed ≡ self.old.handed }
        ensures counts { Counts StoreError.Fault self.old.faults self.new.faults result }
        ensures cause { HasCause StoreError.Fault self.old.faults self.new.faults result }
    {
        if self.call_fails() {
            return Err(StoreError::Fault);
        }
        let name = Vec::from_slice(self.alloc, name.as_bytes())?;
        self.doing = MemoryState::Writing(name, Vec::new(self.alloc));
        Ok(())
    }

    fn write(&mut self, piece: &[u8]) -> Result<usize, StoreError>
        requires { IsWriting self.old.stage }
        ensures amount { IfOk result (λ n. n ≡ bounded self.old.piece (length piece.now)) }
        ensures bound { IfOk result (λ n. n ≤ length piece.now) }
        ensures some { IfOk result (λ n. 0 < length piece.now → 0 < n) }
        ensures ok { IfOk result (λ n. self.new ≡ record (called self.old) {
          stage = Writing (name_of self.old.stage) (text_of self.old.stage ++ take n piece.now);
        }) }
        ensures err { IfErr result (λ e. self.new ≡ refused e self.old) }
        ensures exact { IsErrOf result StoreError.Fault ↔ IsToFail self.old }
        ensures files { self.new.files ≡ self.old.files }
        ensures taken { self.new.taken ≡ self.old.taken }
        ensures handed { self.new.handed ≡ self.old.handed }
        ensures counts { Counts StoreError.Fault self.old.faults self.new.faults result }
        ensures cause { HasCause StoreError.Fault self.old.faults self.new.faults result }
    {
        if self.call_fails() {
            return Err(StoreError::Fault);
        }
        let n = in_one_call(self.piece, piece.len());
        let MemoryState::Writing(_, text) = &mut self.doing else {
            unreachable!();
        };
        text.extend_from_slice(&piece[..n])?;
        Ok(n)
    }

    fn close_file(&mut self) -> Result<(), StoreError>
        requires { self.old.stage ≢ Closed }
        ensures ok { OnOk result (self.new
            ≡ record (called self.old) {
              files = files_after self.old.stage self.old.files;
              stage = Closed;
              stored = stored_after self.old.stage self.old.stored;
            }) }
        ensures err { IfErr result
            (λ e. self.new ≡ record (refused e self.old) { stage = Closed }) }
        ensures exact { IsErrOf result StoreError.Fault ↔ IsToFail self.old }
        ensures closed { self.new.stage ≡ Closed }
        ensures taken { self.new.taken ≡ self.old.taken }
        ensures handed { self.new.handed ≡ self.old.handed }
        ensures counts { Counts StoreError.Fault self.old.faults self.new.faults result }
        ensures cause { HasCause StoreError.Fault self.old.faults self.new.faults result }
    {
        let doing = mem::replace(&mut self.doing, MemoryState::Closed);
        if self.call_fails() {
            return Err(StoreError::Fault);
        }
        if let MemoryState::Writing(name, text) = doing {
            put(self.alloc, &mut self.files, &name, &text)?;
            self.stored.keep_bytes(&name, &text);
        }
        Ok(())
    }

    /// It counts no call.
    fn drop_file(&mut self)
        requires { IsWriting self.old.stage }
        ensures { self.new ≡ record self.old { stage = Closed } }
    {
        self.doing = MemoryState::Closed;
    }
}
