// The pins of a night.
ghost use Rattle.std.specs.Prelude.{get_or, [], ◌∷◌};
ghost use Rattle.shunt_blocks.specs.defs.Lists.{AreInRange};
ghost use Rattle.shunt_rows.specs.declared.words.FileWord.TheVariants as words;
ghost use Rattle.shunt_inputs.specs.defs.Inputs.{stated_pinned};

use crate::chains::Then;
use crate::file_loader::Halt;
use crate::files::PinsFile;
use crate::inputs::{HasNight, Inputs};
use crate::nights::NightFiles;
use shunt_blocks::Block;
use shunt_instance::Instance;
use shunt_lists::Items;
use shunt_store::Store;
use std::alloc::Global;

/// A night and pins in it.
#[derive(Drop)]
pub struct Pinned {
    pub instance: Instance,
    pub pins: Items<Block>,
}

impl HasNight for Pinned {
    ghost night = { λ x. x.instance };

    fn night(&self) -> &Instance {
        &self.instance
    }
}

/// The station file and the timetable file of a night, and the file of pins in it.
#[derive(Clone, Copy, Drop)]
pub struct PinnedFiles<'n>(pub &'n str, pub &'n str, pub &'n str);

impl Inputs for PinnedFiles<'_> {
    type Value = Pinned;

    ghost inputs = { λ f. (words.Station, f.0.now) ∷ (words.Timetable, f.1.now)
        ∷ (words.Pins, f.2.now) ∷ [] };

    ghost states = { λ _ texts. stated_pinned (get_or texts 0 []) (get_or texts 1 [])
        (get_or texts 2 []) };

    ghost formed = { λ x. AreInRange x.instance x.pins };

    fn load<S: Store>(&self, alloc: Global, store: &mut S) -> Result<Pinned, Halt> {
        let files = Then(NightFiles(self.0, self.1), PinsFile(self.2));
        let (instance, pins) = files.load(alloc, store)?;
        Ok(Pinned { instance, pins })
    }
}
