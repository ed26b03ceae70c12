// Paths as stacks see them.
ghost use Rattle.shunt_choices.specs.defs.Paths.{IsTrailOf};

use crate::scenes::Scene;
use crate::stacks::{Space, Stacks};
use shunt_choices::Path;
use shunt_instance::Instance;
use std::alloc::{AllocError, Global};

/// A path as stacks see it: what it leaves free of trains, and of each stack.
#[derive(Drop)]
pub(crate) struct Place {
    pub scene: Scene,
    pub stacks: Stacks,
    pub spaces: Vec<Space>,
}

impl Place {
    /// The place of a path, without prices. Err is want of memory.
    pub(crate) fn new(alloc: Global, instance: &Instance, path: &Path) -> Result<Place, AllocError>
        requires { IsTrailOf instance.now path.now }
    {
        let scene = Scene::new(alloc, instance, path)?;
        let stacks = Stacks::new(alloc, instance, &scene)?;
        let spaces = stacks.spaces(alloc, instance, &scene, path.blocks())?;
        Ok(Place {
            scene,
            stacks,
            spaces,
        })
    }
}
