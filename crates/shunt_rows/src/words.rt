// Words for input files, and the line for one that isn't accepted.
ghost use Rattle.std.specs.Prelude.{◌≡◌, IfOk, option_map};
ghost use Rattle.shunt_rows.specs.defs.InputTexts.{file_word, input_of};

use crate::fault::RowFault;
use shunt_text::Text;
use std::alloc::{AllocError, Global};

/// An input file of a command.
#[derive(Clone, Copy, Debug, PartialEq, Eq)]
pub enum FileWord {
    Station,
    Timetable,
    Plan,
    Other,
    Edits,
    Certificate,
    Pins,
    Zones,
    Crew,
    Roster,
    Sheet,
}

fn word_of(file: FileWord) -> &'static [u8]
    ensures { result.now ≡ file_word file }
{
    match file {
        FileWord::Station => b"station",
        FileWord::Timetable => b"timetable",
        FileWord::Plan => b"plan",
        FileWord::Other => b"other",
        FileWord::Edits => b"edits",
        FileWord::Certificate => b"certificate",
        FileWord::Pins => b"pins",
        FileWord::Zones => b"zones",
        FileWord::Crew => b"crew",
        FileWord::Roster => b"roster",
        FileWord::Sheet => b"sheet",
    }
}

/// The line for an input file that isn't accepted: `input FILE record R field F kind K` with its first fault, or
/// `input FILE too long` where there is none to tell, since the file is longer than it may be.
#[tactic(auto, unfolding(crate::specs::defs::InputTexts::input_of))]
pub fn input_text(
    alloc: Global,
    file: FileWord,
    fault: Option<&RowFault>,
) -> Result<Vec<u8>, AllocError>
    ensures { IfOk result (λ v. v.items ≡ input_of file (option_map (λ f. f.now) fault.entry)) }
{
    let mut text = Text::new(alloc);
    text.push(b"input ")?;
    text.push(word_of(file))?;
    match fault {
        Some(fault) => {
            text.push(b" record ")?;
            text.push_number(u64::from(fault.row))?;
            text.push(b" field ")?;
            text.push_number(u64::from(fault.field))?;
            text.push(b" kind ")?;
            text.push_number(u64::from(fault.kind.number()))?;
            text.push(b"\n")?;
        }
        None => text.push(b" too long\n")?,
    }
    Ok(text.into_bytes())
}
