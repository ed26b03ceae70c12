// Free shapes that are worth something in a case.
ghost use Rattle.std.specs.Prelude.{◌≡◌, ◌++◌, ◌∷◌, [], All, List, IfOk, OnOk};
ghost use Rattle.shunt_blocks.specs.declared.records.Shape.{Shape as AShape};
ghost use Rattle.shunt_blocks.specs.defs.Shapes.{AreRunsWithin};
ghost use Rattle.shunt_choices.specs.defs.Free.{AreMasksOf};
ghost use Rattle.shunt_prices.specs.defs.Limits.{IsCase};
ghost use Rattle.shunt_choices.specs.defs.Choices.{AreFreeShapes};
ghost use Rattle.shunt_recount.specs.defs.Offers.{IsCandidate, AreCandidatesOf};

use crate::ends::block_of;
use crate::prices::worth;
use crate::shapes::all_shapes;
use shunt_base::Case;
use shunt_blocks::{Shape, block_length};
use shunt_choices::Covered;
use shunt_instance::Instance;
use std::alloc::{AllocError, Global};

/// A shape with the length of its units in dm, and what it is worth in a case, in thousandths of a cost unit.
#[derive(Clone, Copy, Drop)]
pub(crate) struct Candidate {
    pub shape: Shape,
    pub length: u32,
    pub worth: i64,
}

/// A shape with its length, and what it is worth in a case.
fn candidate_of(instance: &Instance, case: &Case, shape: Shape) -> Candidate
    requires case { IsCase instance.now case.now }
    requires within { AreRunsWithin instance.now shape }
    ensures is { IsCandidate instance.now case.now result }
    ensures shape { result.shape ≡ shape }
{
    Candidate {
        shape,
        length: block_length(instance, &block_of(shape, None)),
        worth: worth(instance, &case.duals, shape),
    }
}

/// Adds a shape that is worth something in a case.
fn add_worthy(
    instance: &Instance,
    case: &Case,
    shape: Shape,
    candidates: &mut Vec<Candidate>,
) -> Result<(), AllocError>
    requires case { IsCase instance.now case.now }
    requires within { AreRunsWithin instance.now shape }
    ensures { (shapes : List AShape)
        → AreCandidatesOf instance.now case.now shapes candidates.old.items → OnOk result
        (AreCandidatesOf instance.now case.now (shapes ++ shape ∷ []) candidates.new.items) }
{
    let candidate = candidate_of(instance, case, shape);
    if candidate.worth > 0 {
        candidates.push(candidate)?;
    }
    Ok(())
}

/// Those of these shapes that are worth something in a case. The others gain nothing wherever they are parked.
fn worthy(
    alloc: Global,
    instance: &Instance,
    case: &Case,
    shapes: &[Shape],
) -> Result<Vec<Candidate>, AllocError>
    requires case { IsCase instance.now case.now }
    requires within { All (AreRunsWithin instance.now) shapes.now }
    ensures { IfOk result (λ v. AreCandidatesOf instance.now case.now shapes.now v.items) }
{
    let mut candidates = Vec::new(alloc);
    'shapes: for shape in shapes {
        add_worthy(instance, case, *shape, &mut candidates)?;
    }
    Ok(candidates)
}

/// The free shapes that are worth something in a case.
pub(crate) fn all_candidates(
    alloc: Global,
    instance: &Instance,
    covered: &Covered,
    case: &Case,
) -> Result<Vec<Candidate>, AllocError>
    requires covered { AreMasksOf instance.now covered.now }
    requires case { IsCase instance.now case.now }
    ensures { IfOk result (λ v. (shapes : List AShape) × AreFreeShapes instance.now covered.now
        shapes × AreCandidatesOf instance.now case.now shapes v.items) }
{
    let shapes = all_shapes(alloc, instance, covered)?;
    worthy(alloc, instance, case, &shapes)
}
