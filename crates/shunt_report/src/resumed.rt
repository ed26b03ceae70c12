// The text of a night that goes on.
ghost use Rattle.std.specs.Prelude.{◌≡◌, IfOk};
ghost use Rattle.shunt_report.specs.defs.ResumedTexts.{resumed_of};

use shunt_base::Minute;
use shunt_text::Text;
use std::alloc::{AllocError, Global};

/// The line of a night that goes on from a minute: `resumed HH:MM placed A cleared B gone C`, with how many runs of the new timetable stand
/// on a track, how many were cleared away, and how many blocks have gone. The error is want of memory.
#[tactic(auto, unfolding(crate::specs::defs::ResumedTexts::resumed_of))]
pub fn resumed_text(
    alloc: Global,
    minute: Minute,
    placed: u64,
    cleared: u64,
    gone: u64,
) -> Result<Vec<u8>, AllocError>
    ensures { IfOk result (λ v. v.items ≡ resumed_of minute placed cleared gone) }
{
    let mut text = Text::new(alloc);
    text.push(b"resumed ")?;
    text.push_minute(minute)?;
    text.push(b" placed ")?;
    text.push_number(placed)?;
    text.push(b" cleared ")?;
    text.push_number(cleared)?;
    text.push(b" gone ")?;
    text.push_number(gone)?;
    text.push(b"\n")?;
    Ok(text.into_bytes())
}
