// By what paths are judged: by prices, or with stacks too.
ghost use Rattle.std.specs.Prelude.{◌≡◌, ◌↔◌, IsTrue, IfOk};
ghost use Rattle.shunt_choices.specs.defs.Paths.{IsTrailOf};
ghost use Rattle.shunt_prices.specs.defs.Limits.{AreCases};
ghost use Rattle.shunt_proof.specs.defs.Versions.{HoldIn};
ghost use Rattle.shunt_search.specs.defs.Judges.{version_of, AreEnds};

use shunt_base::Cases;
use shunt_choices::Path;
use shunt_dual::{cases_hold, stack_cases_hold};
use shunt_fillings::{Stack, stacks};
use shunt_gains::Events;
use shunt_instance::Instance;
use shunt_proof::Version;
use shunt_proposals::ProposedTree;
use std::alloc::{AllocError, Global};

/// The numbers of a night's events, and the stacks of its station.
#[derive(Drop)]
pub struct Ends {
    pub events: Events,
    pub stacks: Vec<Stack>,
}

/// By what the cases of paths are judged.
#[derive(Drop)]
pub enum Judge {
    Prices,
    Stacks(Ends),
}

/// What a walk goes by.
#[derive(Drop)]
pub struct Guide {
    /// The tree that is proposed, with the cases of its stock.
    pub tree: ProposedTree,
    pub judge: Judge,
}

impl Judge {
    /// The version of certificates whose paths are judged so.
    pub(crate) fn version(&self) -> Version
        ensures { result ≡ version_of self.now }
    {
        match self {
            Judge::Prices => Version::Prices,
            Judge::Stacks(_) => Version::Stacks,
        }
    }
}

impl Ends {
    /// Those of a night. Err is want of memory.
    pub(crate) fn new(alloc: Global, instance: &Instance) -> Result<Ends, AllocError>
        ensures { IfOk result (AreEnds instance.now) }
    {
        let events = Events::new(alloc, instance)?;
        let stacks = stacks(alloc, instance)?;
        Ok(Ends { events, stacks })
    }
}

/// Whether cases hold at a path.
pub(crate) fn hold(instance: &Instance, judge: &Judge, path: &Path, cases: &Cases) -> bool
    requires path { IsTrailOf instance.now path.now }
    requires cases { AreCases instance.now cases.now }
    ensures { IsTrue result ↔ HoldIn (version_of judge.now) instance.now path.now.blocks cases.now }
{
    match judge {
        Judge::Prices => cases_hold(instance, path, cases),
        Judge::Stacks(_) => stack_cases_hold(instance, path, cases),
    }
}
