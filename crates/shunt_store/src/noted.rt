// What was moved, as only clauses read it. It takes no memory, and its methods do nothing when they run.
ghost use Rattle.std.specs.Prelude.{◌≡◌, ℕ, List, [], ◌∷◌, ◌++◌};
ghost use Rattle.std.specs.Borrow.{ftrue};
ghost use Rattle.shunt_store.specs.defs.Notes.{Entries, add_last};

use std::marker::{Model, PhantomData};

/// Bytes, in the order in which they were moved.
#[derive(Drop)]
pub struct Noted {
    marker: PhantomData<u8>,
    pub ghost bytes: { List ℕ },
}

impl Model for Noted {
    ghost also_owns = { λ _. ftrue };
}

impl Noted {
    pub(crate) fn new() -> Noted
        ensures { result.bytes ≡ [] }
    {
        Noted {
            marker: PhantomData,
        }
    }

    pub(crate) fn note(&mut self, _bytes: &[u8])
        ensures { self.new.bytes ≡ self.old.bytes ++ _bytes.now }
    {}
}

/// Names with their bytes, in the order in which they were moved.
#[derive(Drop)]
pub struct NotedFiles {
    marker: PhantomData<u8>,
    pub ghost entries: { List (List ℕ × List ℕ) },
}

impl Model for NotedFiles {
    ghost also_owns = { λ _. ftrue };
}

impl NotedFiles {
    pub(crate) fn new() -> NotedFiles
        ensures { result.entries ≡ [] }
    {
        NotedFiles {
            marker: PhantomData,
        }
    }

    // A name of which no bytes were moved yet.
    pub(crate) fn begin(&mut self, _name: &[u8])
        ensures { self.new.entries ≡ self.old.entries ++ (_name.now, []) ∷ [] }
    {}

    // Bytes of the last name.
    pub(crate) fn add(&mut self, _bytes: &[u8])
        ensures { self.new.entries ≡ add_last _bytes.now self.old.entries }
    {}

    // A name with all of its bytes.
    pub(crate) fn keep(&mut self, _name: &[u8], _bytes: &Noted)
        ensures { self.new.entries ≡ self.old.entries ++ (_name.now, _bytes.now.bytes) ∷ [] }
    {}

    // The same of bytes that are at hand.
    #[tactic(auto, using(crate::proofs::NotedPieces::add_begun))]
    pub(crate) fn keep_bytes(&mut self, name: &[u8], bytes: &[u8])
        ensures { self.new.entries ≡ self.old.entries ++ (name.now, bytes.now) ∷ [] }
    {
        self.begin(name);
        self.add(bytes);
    }
}
