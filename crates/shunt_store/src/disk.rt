// A store over the files of the current folder.
ghost use Rattle.std.specs.Prelude.{◌≡◌, ◌<◌, ◌≤◌, ◌++◌, None, Some, [], All, IfOk, OnOk, OnErr};
ghost use Rattle.std.specs.Prelude.{IsErrOf, length, take, string_bytes};
ghost use Rattle.shunt_store.specs.defs.Causes.{Counts, HasCause};
ghost use Rattle.shunt_store.specs.defs.Files.{Closed, Writing, IsWriting, name_of, text_of};
ghost use Rattle.shunt_store.specs.defs.Parts.{part_endings, EndsWith};
ghost use Rattle.shunt_store.specs.defs.Disk.{stage_of_file, HasEndings};

use crate::drafts::{FileDraft, begin, discard, settle, write_on};
use crate::errors::StoreError;
use crate::fault_count::one_fault_more;
use crate::noted::NotedFiles;
use crate::parts::free_endings;
use crate::traits::Store;
use std::alloc::Allocator;
use std::io::Read;
use std::rt::Files as FileSystem;
use std::{fs, mem};

#[derive(Drop)]
pub enum DiskState<F, A: Allocator> {
    Closed,
    Reading(F, Vec<u8, A>),
    Writing(Vec<u8, A>, FileDraft<F, A>),
}

/// The files of the current folder. It doesn't tell what they hold, but what was read of them, and
/// what they were made to hold.
///
/// A file is written beside the one that it is to replace, under its name with `.part` behind it, once or more often; what
/// a run that was killed left there is overwritten. A device, a pipe, a folder, and any name under /dev
/// or /proc is written in place. A link is followed.
#[derive(Drop)]
pub struct DiskStore<'r, R: FileSystem + Alloc> {
    rt: &'r R,
    // How many endings stand behind the name of a file that is written beside another.
    endings: usize,
    doing: DiskState<R::File, R::A>,
    heard: NotedFiles,
    stored: NotedFiles,
    taken: u64,
    handed: u64,
    faults: u64,
}

impl<'r, R: FileSystem + Alloc> DiskStore<'r, R> {
    /// Nothing is open, nothing was moved, and there are no faults so far.
    pub fn new(rt: &'r R) -> DiskStore<'r, R>
        ensures stage { stage_of_file result.doing ≡ Closed }
        ensures heard { result.heard.entries ≡ [] }
        ensures stored { result.stored.entries ≡ [] }
        ensures taken { result.taken ≡ 0 }
        ensures handed { result.handed ≡ 0 }
        ensures faults { result.faults ≡ 0 }
    {
        DiskStore {
            rt,
            endings: 1,
            doing: DiskState::Closed,
            heard: NotedFiles::new(),
            stored: NotedFiles::new(),
            taken: 0,
            handed: 0,
            faults: 0,
        }
    }

    /// The same for a command with these words: no file that is written beside another has the name of one.
    pub fn for_words(rt: &'r R, words: &[String]) -> DiskStore<'r, R>
        ensures stage { stage_of_file result.doing ≡ Closed }
        ensures heard { result.heard.entries ≡ [] }
        ensures stored { result.stored.entries ≡ [] }
        ensures taken { result.taken ≡ 0 }
        ensures handed { result.handed ≡ 0 }
        ensures faults { result.faults ≡ 0 }
        ensures parts { All
            (λ word. EndsWith (string_bytes word) (part_endings result.endings) → ⊥) words.now }
    {
        DiskStore {
            endings: free_endings(words),
            ..DiskStore::new(rt)
        }
    }
}

impl<R: FileSystem + Alloc> Store for DiskStore<'_, R> {
    ghost told = { λ s. None };

    ghost heard = { λ s. Some s.heard.entries };

    ghost stored = { λ s. Some s.stored.entries };

    ghost stage = { λ s. stage_of_file s.doing };

    ghost taken = { λ s. s.taken };

    ghost handed = { λ s. s.handed };

    ghost faults = { λ s. s.faults };

    fn open_file(&mut self, name: &str) -> Result<(), StoreError> {
        let owned = Vec::from_slice(self.rt.alloc(), name.as_bytes())?;
        match fs::open(self.rt, name) {
            Ok(file) => {
                self.heard.begin(name.as_bytes());
                self.doing = DiskState::Reading(file, owned);
                self.taken = 0;
                Ok(())
            }
            Err(_) => {
                self.faults = one_fault_more(self.faults);
                Err(StoreError::Fault)
            }
        }
    }

    /// A Fault also where the count of the bytes taken could pass 2^64 - 1.
    fn read(&mut self, buf: &mut [u8]) -> Result<usize, StoreError> {
        let DiskState::Reading(file, _) = &mut self.doing else {
            unreachable!();
        };
        let room = u64::MAX - self.taken;
        if buf.len() as u64 <= room {
            if let Ok(n) = file.read(buf) {
                self.heard.add(&buf[..n]);
                self.taken += n as u64;
                self.handed = self.handed.saturating_add(n as u64);
                return Ok(n);
            }
        }
        self.faults = one_fault_more(self.faults);
        Err(StoreError::Fault)
    }

    fn create_file(&mut self, name: &str) -> Result<(), StoreError>
        requires { stage_of_file self.old.doing ≡ Closed }
        ensures ok { OnOk result (stage_of_file self.new.doing ≡ Writing name.now []) }
        ensures part { OnOk result (HasEndings self.old.endings self.new.doing) }
        ensures err { OnErr result (stage_of_file self.new.doing ≡ Closed) }
        ensures endings { self.new.endings ≡ self.old.endings }
        ensures heard { self.new.heard.entries ≡ self.old.heard.entries }
        ensures stored { self.new.stored.entries ≡ self.old.stored.entries }
        ensures taken { self.new.taken ≡ self.old.taken }
        ensures handed { self.new.handed ≡ self.old.handed }
        ensures counts { Counts StoreError.Fault self.old.faults self.new.faults result }
        ensures cause { HasCause StoreError.Fault self.old.faults self.new.faults result }
    {
        let owned = Vec::from_slice(self.rt.alloc(), name.as_bytes())?;
        match begin(self.rt, name, self.endings)? {
            Some(draft) => {
                self.doing = DiskState::Writing(owned, draft);
                Ok(())
            }
            None => {
                self.faults = one_fault_more(self.faults);
                Err(StoreError::Fault)
            }
        }
    }

    /// A Fault also where the file takes nothing of the piece.
    fn write(&mut self, piece: &[u8]) -> Result<usize, StoreError>
        requires { IsWriting (stage_of_file self.old.doing) }
        ensures bound { IfOk result (λ n. n ≤ length piece.now) }
        ensures some { IfOk result (λ n. 0 < length piece.now → 0 < n) }
        ensures bytes { IfOk result
            (λ n. stage_of_file self.new.doing ≡ Writing (name_of (stage_of_file self.old.doing))
            (text_of (stage_of_file self.old.doing) ++ take n piece.now)) }
        ensures err { OnErr result (stage_of_file self.new.doing ≡ stage_of_file self.old.doing) }
        ensures no_memory { IsErrOf result StoreError.Memory → ⊥ }
        ensures heard { self.new.heard.entries ≡ self.old.heard.entries }
        ensures stored { self.new.stored.entries ≡ self.old.stored.entries }
        ensures taken { self.new.taken ≡ self.old.taken }
        ensures handed { self.new.handed ≡ self.old.handed }
        ensures counts { Counts StoreError.Fault self.old.faults self.new.faults result }
        ensures cause { HasCause StoreError.Fault self.old.faults self.new.faults result }
    {
        let DiskState::Writing(_, draft) = &mut self.doing else {
            unreachable!();
        };
        if let Some(n) = write_on(draft, piece) {
            return Ok(n);
        }
        self.faults = one_fault_more(self.faults);
        Err(StoreError::Fault)
    }

    fn close_file(&mut self) -> Result<(), StoreError> {
        if let DiskState::Writing(name, draft) = mem::replace(&mut self.doing, DiskState::Closed) {
            if !settle(self.rt, &draft) {
                self.faults = one_fault_more(self.faults);
                return Err(StoreError::Fault);
            }
            self.stored.keep(&name, &draft.text);
        }
        Ok(())
    }

    fn drop_file(&mut self) {
        if let DiskState::Writing(_, draft) = mem::replace(&mut self.doing, DiskState::Closed) {
            discard(self.rt, &draft);
        }
    }
}
