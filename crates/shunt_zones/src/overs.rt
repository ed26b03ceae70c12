// What zones lie over, as their records come.
ghost use Rattle.std.specs.Prelude.{◌≡◌, ◌++◌, ◌∷◌, [], false, OnOk, OnErr};
ghost use Rattle.shunt_zones.specs.defs.ZonesFormat.{stands};

use crate::records::Over;
use indexmap::IndexSet;
use shunt_lists::Items;
use std::alloc::{AllocError, Global};
use std::marker::Model;

/// What zones lie over, all different, in the order in which it came; seen as the list. A look-up takes the same time among many as
/// among few.
#[derive(Drop)]
pub(crate) struct Overs {
    list: Vec<Over>,
    known: IndexSet<Over>,
}

impl Model for Overs {
    ghost use Rattle.std.specs.Prelude.{◌≡◌, List};
    ghost use Rattle.shunt_zones.specs.declared.records.Over.{Over};

    ghost Value = { List Over };

    ghost view = { λ o. o.list.items };

    ghost invariant = { λ o. o.known.keys ≡ o.list.items };
}

impl Overs {
    /// Nothing. It takes no memory.
    pub(crate) fn new(alloc: Global) -> Overs
        ensures { result ≡ [] }
    {
        Overs {
            list: Vec::new(alloc),
            known: IndexSet::new(alloc),
        }
    }

    /// Whether this zone lies over this way.
    #[tactic(auto, unfolding(crate::specs::defs::ZonesFormat::stands))]
    pub(crate) fn has(&self, over: Over) -> bool
        ensures { result ≡ stands self.now over }
    {
        self.known.contains(&over)
    }

    /// Lets a zone lie over a way that it doesn't lie over yet.
    #[tactic(auto, unfolding(crate::specs::defs::ZonesFormat::stands))]
    pub(crate) fn push(&mut self, over: Over) -> Result<(), AllocError>
        requires { stands self.old over ≡ false }
        ensures added { OnOk result (self.new ≡ self.old ++ over ∷ []) }
        ensures same { OnErr result (self.new ≡ self.old) }
    {
        self.list.push(over)?;
        if self.known.insert(over).is_err() {
            self.list.pop();
            return Err(AllocError);
        }
        Ok(())
    }

    /// All of it, in its order. It takes no memory.
    pub(crate) fn into_items(self) -> Items<Over>
        ensures { result ≡ self }
    {
        Items::from_vec(self.list)
    }
}
