//! What all stacks gain at a path in a case.
ghost use Rattle.std.specs.Prelude.{◌≡◌, ◌≤◌, ℤ, All, List, length, IfOk};
ghost use Rattle.shunt_base.specs.declared.duals.Case.{Case as ACase};
ghost use Rattle.shunt_instance.specs.defs.Instance.{Night};
ghost use Rattle.shunt_blocks.specs.declared.records.Block.{Block as ABlock};
ghost use Rattle.shunt_blocks.specs.declared.records.Shape.{Shape as AShape};
ghost use Rattle.shunt_blocks.specs.defs.Blocks.{IsBlockButId};
ghost use Rattle.shunt_blocks.specs.defs.Lists.{RunsThrough, placed};
ghost use Rattle.shunt_choices.specs.defs.Paths.{IsTrailOf};
ghost use Rattle.shunt_prices.specs.defs.Sums.{sum_z, IsWithin};
ghost use Rattle.shunt_prices.specs.defs.Limits.{IsCase};
ghost use Rattle.shunt_stacks.specs.defs.Stacks.{stacks};
ghost use Rattle.shunt_stacks.specs.defs.Bounds.{AreStackGains};
ghost use Rattle.shunt_choices.specs.defs.Choices.{AreFreeShapes};
ghost use Rattle.shunt_recount.specs.defs.Offers.{stacks_at, AreCandidatesOf};
ghost use Rattle.shunt_recount.specs.defs.Recounts.{IsRecountOf, AreCountsOf};

use crate::candidates::{Candidate, all_candidates};
use crate::counts::{Recount, StackCount, count_of};
use crate::ends::{TrackEnd, all_ends};
use shunt_base::Case;
use shunt_choices::Path;
use shunt_instance::Instance;
use shunt_stacks::laws::stacks_of_stations;
use std::alloc::{AllocError, Global};

/// The gains of these stacks, added up.
fn added_up(counts: &[StackCount]) -> i64
    requires few { length counts.now ≤ 120 }
    requires small { All (λ k. IsWithin 319999999999680 k.gain) counts.now }
    ensures exact { result ≡ sum_z (λ k. k.gain) counts.now }
    ensures small { IsWithin 38399999999961600 result }
{
    let mut total = 0;
    for k in 0..counts.len() {
        total += counts[k].gain;
    }
    total
}

/// What each of these stacks gains at a path whose run goes through, by the candidates there.
fn counts_of(
    alloc: Global,
    instance: &Instance,
    path: &Path,
    case: &Case,
    ends: &[TrackEnd],
    candidates: &[Candidate],
) -> Result<Vec<StackCount>, AllocError>
    requires path { IsTrailOf instance.now path.now }
    requires each { All (IsBlockButId instance.now) path.now.blocks }
    requires through { RunsThrough instance.now (placed path.now.blocks) }
    requires case { IsCase instance.now case.now }
    requires ends { stacks_at ends.now ≡ stacks instance.now.station }
    requires candidates { (shapes : List AShape) × AreFreeShapes instance.now path.now.covered
        shapes × AreCandidatesOf instance.now case.now shapes candidates.now }
    ensures { IfOk result (λ v. AreCountsOf instance.now path.now.blocks case.now v.items) }
{
    stacks_of_stations();
    let mut counts = Vec::with_capacity(alloc, ends.len())?;
    'ends: for end in ends {
        counts.push(count_of(alloc, instance, path, case, *end, candidates)?)?;
    }
    Ok(counts)
}

/// What each stack gains at a path whose run goes through.
fn all_counts(
    alloc: Global,
    instance: &Instance,
    path: &Path,
    case: &Case,
) -> Result<Vec<StackCount>, AllocError>
    requires path { IsTrailOf instance.now path.now }
    requires each { All (IsBlockButId instance.now) path.now.blocks }
    requires through { RunsThrough instance.now (placed path.now.blocks) }
    requires case { IsCase instance.now case.now }
    ensures { IfOk result (λ v. AreCountsOf instance.now path.now.blocks case.now v.items) }
{
    let candidates = all_candidates(alloc, instance, path.covered(), case)?;
    let ends = all_ends(alloc, instance)?;
    counts_of(alloc, instance, path, case, &ends, &candidates)
}

/// Looks at all stacks at a path whose run goes through, in a case. Err is want of memory.
pub fn recount(
    alloc: Global,
    instance: &Instance,
    path: &Path,
    case: &Case,
) -> Result<Recount, AllocError>
    requires path { IsTrailOf instance.now path.now }
    requires each { All (IsBlockButId instance.now) path.now.blocks }
    requires through { RunsThrough instance.now (placed path.now.blocks) }
    requires case { IsCase instance.now case.now }
    ensures { IfOk result (IsRecountOf instance.now path.now.blocks case.now) }
{
    // The calls tell that there are at most 120 stacks.
    instance.station();
    stacks_of_stations();
    let counts = all_counts(alloc, instance, path, case)?;
    let total = added_up(&counts);
    Ok(Recount { counts, total })
}

/// What all stacks gain together, in thousandths of a cost unit.
pub fn total(recount: &Recount) -> i64
    ensures exact { (night : Night) (path : List ABlock) (c : ACase)
        → IsRecountOf night path c recount.now
        → (gains : List ℤ) × AreStackGains night path c gains × (result ≡ sum_z (λ z. z) gains) }
    ensures small { (night : Night) (path : List ABlock) (c : ACase)
        → IsRecountOf night path c recount.now → IsWithin 38399999999961600 result }
{
    recount.total
}
