ghost use Rattle.std.specs.Prelude.{◌≡◌, ◌↔◌, List, ℕ, IsTrue, IfOk, All};
ghost use Rattle.std.specs.Str.{bytes_eq};
ghost use Rattle.std.specs.Hash as fed;
ghost use Rattle.std.specs.Cmp.Rules.{comparing, hashing};
ghost use Rattle.std.proofs.Common.{rules};
ghost use Rattle.std.specs.List.{list_all};
ghost use Rattle.shunt_base.specs.defs.Spelling.{is_name_byte, IsName, is_name_text};

use std::alloc::{AllocError, Global};
use std::hash::{Hash, Hasher};
use std::marker::Model;

/// A name: 1 to 16 letters, digits, `_`, `-` and `.`.
#[derive(Debug, Drop)]
pub struct Name {
    bytes: Vec<u8>,
}

impl Model for Name {
    ghost use Rattle.std.specs.Prelude.{List, ℕ};
    ghost use Rattle.shunt_base.specs.defs.Spelling.{IsName};

    ghost Value = { List ℕ };

    ghost view = { λ n. n.bytes.items };

    ghost invariant = { λ n. IsName n.bytes.items };
}

fn is_byte_of_name(b: u8) -> bool
    ensures { result ≡ is_name_byte b }
{
    b.is_ascii_alphanumeric() || b == b'_' || b == b'-' || b == b'.'
}

fn are_bytes_of_name(bytes: &[u8]) -> bool
    ensures fact { IsTrue result ↔ All (λ b. IsTrue (is_name_byte b)) bytes.now }
    ensures test { result ≡ list_all is_name_byte bytes.now }
{
    bytes.iter().all(|b| is_byte_of_name(*b))
}

/// Whether these bytes are a name.
pub fn is_name(bytes: &[u8]) -> bool
    ensures fact { IsTrue result ↔ IsName bytes.now }
    ensures test { result ≡ is_name_text bytes.now }
{
    if bytes.is_empty() || bytes.len() > 16 {
        return false;
    }
    are_bytes_of_name(bytes)
}

impl Name {
    /// The name that these bytes are.
    pub fn new(alloc: Global, bytes: &[u8]) -> Result<Name, AllocError>
        requires { IsName bytes.now }
        ensures { IfOk result (λ n. n ≡ bytes.now) }
    {
        Ok(Name {
            bytes: Vec::from_slice(alloc, bytes)?,
        })
    }

    /// Its bytes.
    pub fn bytes(&self) -> &[u8]
        ensures value { result.now ≡ self.now }
        ensures name { IsName self.now }
    {
        &self.bytes
    }
}

impl PartialEq for Name {
    ghost eq = { λ a b. bytes_eq a b };

    ghost laws = { Prim.search (comparing, rules) };

    fn eq(&self, other: &Name) -> bool {
        self.bytes() == other.bytes()
    }
}

impl Eq for Name {
    ghost laws = { Prim.search (comparing, rules) };
}

impl Hash for Name {
    ghost hash_input = { λ a. fed.slice fed.u8 a };

    ghost respects_eq = { Prim.search (hashing, rules) };

    fn hash<H: Hasher>(&self, state: &mut H) {
        self.bytes().hash(state);
    }
}

/// How things of a kind are named.
pub trait Naming {
    /// A thing that has a name.
    type Thing: Drop;

    /// Its name.
    ghost name: { Self.Thing → List ℕ };

    /// The bytes of its name.
    fn name_of(thing: &Self::Thing) -> &[u8]
        ensures { result.now ≡ name thing.now };
}

/// Names that stand for themselves, as those of platforms.
pub struct PlainNames;

impl Naming for PlainNames {
    type Thing = Name;

    ghost name = { λ n. n };

    fn name_of(name: &Name) -> &[u8] {
        name.bytes()
    }
}
