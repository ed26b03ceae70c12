// The visits of a stack, and what is gained by them.
ghost use Rattle.std.specs.Prelude.{◌≡◌, ◌<◌, IfOk};
ghost use Rattle.shunt_stacks.specs.defs.Spans.{AreOwn};
ghost use Rattle.shunt_recount.specs.defs.Visits.{spans_of, AreSmall, IsBest};
ghost use Rattle.shunt_recount.specs.defs.Moments.{fixed_of, free_of};
ghost use Rattle.shunt_recount.specs.defs.Places.{IsTableOf};

use crate::known::{Known, PartEnd};
use crate::moments::Moments;
use crate::values::value;
use crate::visits::{Visit, Visits};
use shunt_stacks::laws::nests;
use std::alloc::{AllocError, Global};

/// The visits of a stack, with the gains that are known already.
#[derive(Drop)]
pub(crate) struct Table {
    pub moments: Moments,
    pub known: Known,
}

/// The greatest gain of visits, with their table.
#[derive(Drop)]
pub(crate) struct Greatest {
    pub gain: Option<i64>,
    pub table: Table,
}

/// The greatest gain of fixed and free visits before an end, with this room in dm. None where the fixed visits don't go.
pub(crate) fn greatest_gain(
    alloc: Global,
    fixed: Vec<Visit>,
    free: Vec<Visit>,
    end: u32,
    room: u32,
) -> Result<Greatest, AllocError>
    requires own { AreOwn (spans_of fixed.items) (spans_of free.items) }
    requires small { AreSmall (spans_of fixed.items) (spans_of free.items) }
    requires end { end < 4000000000 }
    ensures is { IfOk result
        (λ g. IsBest (spans_of fixed.items) (spans_of free.items) 0 end room g.gain) }
    ensures table { IfOk result
        (λ g. IsTableOf (spans_of fixed.items) (spans_of free.items) end g.table) }
    ensures whole { IfOk result (λ g. IsBest (fixed_of g.table.moments)
        (free_of g.table.moments) 0 end room g.gain) }
{
    nests();
    let visits = Visits::new(fixed, free);
    let moments = Moments::new(alloc, visits, end)?;
    let mut known = Known::new(alloc)?;
    let whole = PartEnd {
        end,
        top: moments.events.len(),
        room,
    };
    let gain = value(&moments, &mut known, 0, whole)?;
    Ok(Greatest {
        gain,
        table: Table { moments, known },
    })
}
