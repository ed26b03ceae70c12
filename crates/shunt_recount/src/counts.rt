// What one stack gains at a path in a case, with its offers there.
ghost use Rattle.std.specs.Prelude.{◌≡◌, ◌<◌, All, List, length, IfOk};
ghost use Rattle.shunt_blocks.specs.declared.records.Shape.{Shape as AShape};
ghost use Rattle.shunt_blocks.specs.defs.Blocks.{IsBlockButId};
ghost use Rattle.shunt_blocks.specs.defs.Lists.{RunsThrough, placed};
ghost use Rattle.shunt_choices.specs.defs.Paths.{IsTrailOf};
ghost use Rattle.shunt_prices.specs.defs.Limits.{IsCase};
ghost use Rattle.shunt_choices.specs.defs.Choices.{AreFreeShapes};
ghost use Rattle.shunt_recount.specs.defs.Offers.{AreCandidatesOf};
ghost use Rattle.shunt_recount.specs.defs.Recounts.{IsCountOf};

use crate::candidates::Candidate;
use crate::ends::TrackEnd;
use crate::gains::stack_gain;
use crate::offers::{Offer, offers_for};
use crate::tables::Table;
use shunt_base::Case;
use shunt_choices::Path;
use shunt_instance::Instance;
use std::alloc::{AllocError, Global};

/// A stack with its offers at a path in a case, and what it gains there, with the table of its visits.
#[derive(Drop)]
pub(crate) struct StackCount {
    pub end: TrackEnd,
    pub offers: Vec<Offer>,
    pub gain: i64,
    pub table: Table,
}

/// What the stacks of a night's station gain at a path in a case, with the free blocks there that gain something.
#[derive(Drop)]
pub struct Recount {
    pub(crate) counts: Vec<StackCount>,
    pub(crate) total: i64,
}

/// What a stack gains at a path whose run goes through, by the candidates there.
pub(crate) fn count_of(
    alloc: Global,
    instance: &Instance,
    path: &Path,
    case: &Case,
    end: TrackEnd,
    candidates: &[Candidate],
) -> Result<StackCount, AllocError>
    requires path { IsTrailOf instance.now path.now }
    requires each { All (IsBlockButId instance.now) path.now.blocks }
    requires through { RunsThrough instance.now (placed path.now.blocks) }
    requires case { IsCase instance.now case.now }
    requires track { end.track.0 < length instance.now.station.tracks }
    requires candidates { (shapes : List AShape) × AreFreeShapes instance.now path.now.covered
        shapes × AreCandidatesOf instance.now case.now shapes candidates.now }
    ensures is { IfOk result (IsCountOf instance.now path.now.blocks case.now) }
    ensures end { IfOk result (λ k. k.end ≡ end) }
{
    let offers = offers_for(alloc, instance, case, end, candidates)?;
    let gained = stack_gain(alloc, instance, end, path.blocks(), &offers)?;
    Ok(StackCount {
        end,
        offers,
        gain: gained.gain,
        table: gained.table,
    })
}
