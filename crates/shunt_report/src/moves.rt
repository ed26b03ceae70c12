// Words for entries and leaves.
ghost use Rattle.std.specs.Prelude.{◌≡◌, ◌++◌, OnOk};
ghost use Rattle.shunt_rows.specs.defs.Written.{move_word};
ghost use Rattle.shunt_report.specs.defs.MoveTexts.{move_words};

use shunt_text::Text;
use std::alloc::AllocError;

pub(crate) fn word_of(enters: bool) -> &'static [u8]
    ensures { result.now ≡ move_word enters }
{
    if enters { b"enter" } else { b"leave" }
}

pub(crate) fn push_move(text: &mut Text, enters: bool, id: u32) -> Result<(), AllocError>
    ensures { OnOk result (text.new ≡ text.old ++ move_words enters id) }
{
    text.push(word_of(enters))?;
    text.push(b" ")?;
    text.push_number(u64::from(id))
}
