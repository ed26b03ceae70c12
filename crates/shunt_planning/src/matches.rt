// The answer of `match`.
ghost use Rattle.std.specs.Prelude.{IfOk};
ghost use Rattle.shunt_planning.specs.defs.Matched.{IsMatched};
ghost use Rattle.shunt_inputs.specs.defs.Replies.{reply_of};

use shunt_inputs::{Answer, Inputs, Outcome, Question};
use shunt_instance::Instance;
use shunt_matching::{MatchError, first_fit};
use shunt_report::{pairs_text, shortage_text};
use std::alloc::{AllocError, Global};

// Which unit becomes which position, or why none can.
fn match_answer(alloc: Global, instance: &Instance) -> Result<Answer, AllocError>
    ensures { IfOk result (λ a. IsMatched instance.now (reply_of a)) }
{
    match first_fit(alloc, instance) {
        Ok(matching) => Ok(Answer {
            outcome: Outcome::Done,
            writes: Vec::new(alloc),
            text: pairs_text(alloc, instance, &matching)?,
        }),
        Err(MatchError::Short(shortage)) => Ok(Answer {
            outcome: Outcome::NoMatching,
            writes: Vec::new(alloc),
            text: shortage_text(alloc, instance, &shortage)?,
        }),
        Err(MatchError::Memory) => Err(AllocError),
    }
}

/// The question of `match`: which unit becomes which position, or why none can.
#[derive(Clone, Copy, Drop)]
pub struct MatchCommand;

impl<I: Inputs<Value = Instance>> Question<I> for MatchCommand {
    ghost answers = { λ _ night. IsMatched night };

    fn answer(&self, alloc: Global, value: Instance) -> Result<Answer, AllocError>
        ensures { IfOk result (λ a. IsMatched value (reply_of a)) }
    {
        match_answer(alloc, &value)
    }
}
