// What a command asks of what its input files state together.
ghost use Rattle.std.specs.Prelude.{◌≡◌, IfOk, Option};
ghost use Rattle.shunt_store.specs.defs.Files.{Closed, Files};
ghost use Rattle.shunt_store.specs.defs.Causes.{HasCause};
ghost use Rattle.shunt_inputs.specs.defs.Names.{AreNames};
ghost use Rattle.shunt_inputs.specs.defs.ReadFiles.{HearsFor, IsAnswerOver, names_in};
ghost use Rattle.shunt_inputs.specs.defs.Replies.{Reply, reply_of};
ghost use Rattle.shunt_inputs.specs.defs.Views.{HearsFirst, IsView};
ghost use Rattle.shunt_inputs.specs.defs.Writes.{LeavesOne, known};

use crate::answers::Answer;
use crate::file_loader::Halt;
use crate::inputs::Inputs;
use shunt_store::Store;
use std::alloc::{AllocError, Global};

/// What a command asks of what its input files state together.
pub trait Question<I: Inputs> {
    /// Which replies answer it.
    ghost answers: { Self → I.Value → Reply → Type 0 };

    /// The answer. The error is want of memory.
    fn answer(&self, alloc: Global, value: I::Value) -> Result<Answer, AllocError>
        requires { I.formed value }
        ensures { IfOk result (λ a. answers self.now value (reply_of a)) };
}

/// The answer of a command: reads and judges its input files in their order, and answers its question on what they state, or refuses the
/// first of them that isn't accepted. It changes no file.
pub fn reply<S: Store, I: Inputs, Q: Question<I>>(
    alloc: Global,
    store: &mut S,
    inputs: &I,
    question: &Q,
) -> Result<Answer, Halt>
    requires closed { S.stage store.old ≡ Closed }
    requires names { AreNames (names_in (I.inputs inputs.now)) }
    ensures leads { (view : Option Files)
        → IsView (S.told store.old) (S.heard store.old) (S.heard store.new) view
        → LeavesOne (IsAnswerOver view (names_in (I.inputs inputs.now)) (I.states inputs.now)
        (Q.answers question.now)) (known (S.told store.old) (S.stored store.old))
        (known (S.told store.new) (S.stored store.new)) result }
    ensures heard { HearsFor (I.inputs inputs.now) (S.heard store.old) (S.heard store.new) result }
    ensures first { HearsFirst (names_in (I.inputs inputs.now)) (S.heard store.old)
        (S.heard store.new) }
    ensures closed { S.stage store.new ≡ Closed }
    ensures cause { HasCause Halt.Fault (S.faults store.old) (S.faults store.new) result }
{
    let value = inputs.load(alloc, store)?;
    Ok(question.answer(alloc, value)?)
}
