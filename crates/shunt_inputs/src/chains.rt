// Input files that are read one after the other.
ghost use Rattle.std.specs.Prelude.{[], ◌∷◌, ◌++◌, length};
ghost use Rattle.shunt_inputs.specs.defs.Inputs.{stated_by};
ghost use Rattle.shunt_inputs.specs.defs.ReadFiles.{names_in, stated_over};

use crate::file_loader::Halt;
use crate::input_loader::load_input;
use crate::inputs::{InputFile, Inputs};
use shunt_store::Store;
use std::alloc::Global;

/// Input files, and then one more over what they state.
#[derive(Clone, Copy, Drop)]
pub struct Then<I, F>(pub I, pub F);

impl<I: Inputs, F: InputFile<I>> Inputs for Then<I, F> {
    type Value = (I::Value, F::Value);

    ghost inputs = { λ x. I.inputs x.0 ++ (F.word, F.name x.1) ∷ [] };

    ghost states = { λ x texts. stated_over (length (names_in (I.inputs x.0))) (I.states x.0)
        (λ v. stated_by F.word (F.states v)) texts };

    ghost formed = { λ v. I.formed v.0 × F.formed v.0 v.1 };

    fn load<S: Store>(&self, alloc: Global, store: &mut S) -> Result<(I::Value, F::Value), Halt> {
        let first = self.0.load(alloc, store)?;
        let next = load_input(alloc, store, &first, &self.1)?;
        Ok((first, next))
    }
}
