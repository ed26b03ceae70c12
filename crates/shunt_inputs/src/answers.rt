// What a command answers.
ghost use Rattle.std.specs.Prelude.{◌≡◌, [], ◌∷◌, map, IfOk};
ghost use Rattle.shunt_inputs.specs.defs.Replies.{pair_of};

use std::alloc::{AllocError, Global};

/// How a command ended that was carried out.
#[derive(Clone, Copy, Debug, PartialEq, Eq)]
pub enum Outcome {
    Done,
    Findings,
    Input,
    NoMatching,
    Unfinished,
}

/// A file by its name, and what it is to hold.
#[derive(Debug, Drop)]
pub struct FileText {
    pub name: String,
    pub bytes: Vec<u8>,
}

/// What a command answers: the files that it writes, in their order, and the text that it prints.
#[derive(Debug, Drop)]
pub struct Answer {
    pub outcome: Outcome,
    pub writes: Vec<FileText>,
    pub text: Vec<u8>,
}

/// A file of this name that is to hold this. The error is want of memory.
pub fn file_text(alloc: Global, name: &str, bytes: Vec<u8>) -> Result<FileText, AllocError>
    ensures { IfOk result (λ f. pair_of f ≡ (name.now, bytes.items)) }
{
    let name = String::from_str(alloc, name)?;
    Ok(FileText { name, bytes })
}

/// The writes of two files, in their order. The error is want of memory.
pub fn two_files(
    alloc: Global,
    first: FileText,
    second: FileText,
) -> Result<Vec<FileText>, AllocError>
    ensures { IfOk result
        (λ writes. map pair_of writes.items ≡ pair_of first ∷ pair_of second ∷ []) }
{
    let mut writes = Vec::new(alloc);
    writes.push(first)?;
    writes.push(second)?;
    Ok(writes)
}

/// The writes of one file. The error is want of memory.
pub fn one_file(alloc: Global, name: &str, bytes: Vec<u8>) -> Result<Vec<FileText>, AllocError>
    ensures { IfOk result (λ writes. map pair_of writes.items ≡ (name.now, bytes.items) ∷ []) }
{
    let name = String::from_str(alloc, name)?;
    let mut writes = Vec::new(alloc);
    writes.push(FileText { name, bytes })?;
    Ok(writes)
}
