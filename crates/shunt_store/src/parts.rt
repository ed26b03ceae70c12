// What stands behind the name of a file that is written beside another, so that no word of a command is its name.
ghost use Rattle.std.specs.Prelude.{◌≡◌, ℕ, ◌≤◌, ◌++◌, All, IfOk, length, string_bytes};
ghost use Rattle.shunt_store.specs.defs.Parts.{part_endings, EndsWith};

use std::alloc::{AllocError, Allocator};

/// What stands behind the name of a part's target, once or more often.
const ENDING: &str = ".part";

/// The name of a part: that of its target, with so many endings.
pub fn part_of<A: Allocator>(alloc: A, target: &str, many: usize) -> Result<String<A>, AllocError>
    ensures { IfOk result (λ part. string_bytes part ≡ target.now ++ part_endings many) }
{
    let mut part = String::from_str(alloc, target)?;
    for _done in 0..many {
        part.push_str(ENDING)?;
    }
    Ok(part)
}

// How many endings a name has.
fn endings_of(name: &[u8]) -> usize
    ensures within { result ≤ length name.now }
    ensures all { (n : ℕ) → EndsWith name.now (part_endings n) → n ≤ result }
{
    let mut rest = name;
    let mut many = 0;
    'endings: while let Some(front) = rest.strip_suffix(ENDING.as_bytes()) {
        rest = front;
        many += 1;
    }
    many
}

/// So many endings that none of these names has them.
pub fn free_endings(names: &[String]) -> usize
    ensures some { 1 ≤ result }
    ensures free { All (λ name. EndsWith (string_bytes name) (part_endings result) → ⊥) names.now }
{
    let mut free = 1;
    for name in names {
        free = free.max(endings_of(name.as_bytes()) + 1);
    }
    free
}
