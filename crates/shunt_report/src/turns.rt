// The line of a turn of edits.
ghost use Rattle.std.specs.Prelude.{◌≡◌, IfOk};
ghost use Rattle.shunt_report.specs.defs.TurnTexts.{outcome_word, turn_line};

use shunt_text::Text;
use std::alloc::{AllocError, Global};

/// How a turn of edits ended.
#[derive(Clone, Copy, Debug, PartialEq, Eq)]
pub enum TurnOutcome {
    /// It was done.
    Ok,
    /// An id that the edit names isn't there.
    NoBlock,
    /// A cut behind no pair, or behind the last one or a later one.
    BadCount,
    /// A join of two blocks of which the second doesn't continue the first in both trains.
    NotAdjacent,
    /// An added or parked block whose trains, runs or track aren't the night's.
    BadRange,
    /// A further block where there are 400.
    Full,
    /// A further block where the next id would be 1,000,001.
    IdsSpent,
    /// There was nothing to undo, or to redo.
    Nothing,
}

fn word_of(outcome: TurnOutcome) -> &'static [u8]
    ensures { result.now ≡ outcome_word outcome }
{
    match outcome {
        TurnOutcome::Ok => b"ok",
        TurnOutcome::NoBlock => b"no-block",
        TurnOutcome::BadCount => b"bad-count",
        TurnOutcome::NotAdjacent => b"not-adjacent",
        TurnOutcome::BadRange => b"bad-range",
        TurnOutcome::Full => b"full",
        TurnOutcome::IdsSpent => b"ids-spent",
        TurnOutcome::Nothing => b"nothing",
    }
}

/// The line of a turn: `NUMBER OUTCOME findings F cost C`, with its number from 1 on, how it ended, and how many findings the
/// blocks then have and what they cost, in cost units.
#[tactic(auto, unfolding(crate::specs::defs::TurnTexts::turn_line))]
pub fn turn_text(
    alloc: Global,
    number: u32,
    outcome: TurnOutcome,
    total: u32,
    cost: u64,
) -> Result<Vec<u8>, AllocError>
    ensures { IfOk result (λ v. v.items ≡ turn_line number outcome total cost) }
{
    let mut text = Text::new(alloc);
    text.push_number(u64::from(number))?;
    text.push(b" ")?;
    text.push(word_of(outcome))?;
    text.push(b" findings ")?;
    text.push_number(u64::from(total))?;
    text.push(b" cost ")?;
    text.push_number(cost)?;
    text.push(b"\n")?;
    Ok(text.into_bytes())
}
