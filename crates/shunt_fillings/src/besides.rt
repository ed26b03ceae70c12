// What a stack gains at a path beside each shape that may come next as a block of it.
ghost use Rattle.std.specs.Prelude.{◌≡◌, ◌<◌, All, List, length, IfOk, IfSome, OnOk};
ghost use Rattle.shunt_lists.specs.defs.Members.{In};
ghost use Rattle.shunt_base.specs.declared.duals.Case.{Case as OneCase};
ghost use Rattle.shunt_blocks.specs.defs.Shapes.{AreRunsWithin};
ghost use Rattle.shunt_prices.specs.defs.Sums.{IsWithin};
ghost use Rattle.shunt_fillings.specs.declared.besides.Beside.{Beside as OneBeside};
ghost use Rattle.shunt_fillings.specs.declared.candidates.Candidate.{Candidate as OneCandidate};
ghost use Rattle.shunt_fillings.specs.defs.Pieces.{seen, AreCandidates};
ghost use Rattle.shunt_fillings.specs.defs.Scenes.{IsScene};
ghost use Rattle.shunt_fillings.specs.defs.Besides.{IsTableAt, IsGainBeside, AreBesides};

use crate::candidates::{block_on, park_on, track_length};
use crate::ends::Stack;
use crate::pieces::piece_of;
use crate::scenes::Scene;
use shunt_blocks::laws::places;
use shunt_blocks::{Shape, is_option, unit_from};
use shunt_gains::Table;
use shunt_stacks::laws::{choices_by_events, gains_by_events};
use std::alloc::{AllocError, Global};

/// A shape with what a stack gains at a path beside it, where it comes there as a block of the stack, in thousandths of a cost unit.
#[derive(Clone, Copy, Drop)]
pub struct Beside {
    pub shape: Shape,
    pub gain: i64,
}

/// What a stack gains beside a shape as a block of it, by the stack's table at the path. None where the table doesn't tell it.
fn gain_beside(
    scene: &Scene<'_>,
    stack: Stack,
    table: &mut Table,
    shape: Shape,
) -> Result<Option<i64>, AllocError>
    requires scene { IsScene scene.now }
    requires track { stack.track.0 < length scene.now.instance.now.station.tracks }
    requires shape { AreRunsWithin scene.now.instance.now shape }
    requires table { (ks : List OneCandidate) × IsTableAt scene.now (seen stack) ks table.old }
    ensures table { (ks : List OneCandidate) → IsTableAt scene.now (seen stack) ks table.old
        → IsTableAt scene.now (seen stack) ks table.new }
    ensures beside { (c : OneCase) (ks : List OneCandidate) → AreCandidates scene.now.instance.now
        scene.now.path.now.blocks c (seen stack) ks
        → IsTableAt scene.now (seen stack) ks table.old
        → IfOk result (λ g. IfSome g (IsGainBeside scene.now.instance.now
        scene.now.path.now.blocks c (seen stack) shape)) }
    ensures small { IfOk result (λ g. IfSome g (IsWithin 1280000000000000000)) }
{
    // The first call tells that the night is well formed.
    scene.instance.units();
    places();
    gains_by_events();
    choices_by_events();
    let block = block_on(stack, shape);
    let own = piece_of(scene.instance, scene.events, &block, 0);
    let room = track_length(scene.instance, stack.track);
    table.beside(own, room)
}

/// Adds a shape with what a stack gains beside it, where it begins at the next unit, may stand there, and the table tells it.
fn add_beside(
    scene: &Scene<'_>,
    stack: Stack,
    table: &mut Table,
    next: usize,
    shape: Shape,
    besides: &mut Vec<Beside>,
) -> Result<(), AllocError>
    requires scene { IsScene scene.now }
    requires track { stack.track.0 < length scene.now.instance.now.station.tracks }
    requires shape { AreRunsWithin scene.now.instance.now shape }
    requires table { (ks : List OneCandidate) × IsTableAt scene.now (seen stack) ks table.old }
    ensures table { (ks : List OneCandidate) → IsTableAt scene.now (seen stack) ks table.old
        → IsTableAt scene.now (seen stack) ks table.new }
    ensures besides { (c : OneCase) (ks : List OneCandidate) → AreCandidates scene.now.instance.now
        scene.now.path.now.blocks c (seen stack) ks
        → IsTableAt scene.now (seen stack) ks table.old
        → AreBesides scene.now.instance.now scene.now.path.now.blocks c (seen stack)
        besides.old.items → OnOk result (AreBesides scene.now.instance.now
        scene.now.path.now.blocks c (seen stack) besides.new.items) }
{
    if unit_from(scene.instance, shape) != next {
        return Ok(());
    }
    if !is_option(scene.instance, shape, Some(park_on(stack))) {
        return Ok(());
    }
    if let Some(gain) = gain_beside(scene, stack, table, shape)? {
        besides.push(Beside { shape, gain })?;
    }
    Ok(())
}

/// What a stack gains beside each shape that begins at the path's next unit, by the stack's table there.
pub(crate) fn besides(
    alloc: Global,
    scene: &Scene<'_>,
    stack: Stack,
    table: &mut Table,
) -> Result<Vec<Beside>, AllocError>
    requires scene { IsScene scene.now }
    requires track { stack.track.0 < length scene.now.instance.now.station.tracks }
    requires table { (ks : List OneCandidate) × IsTableAt scene.now (seen stack) ks table.old }
    ensures { (c : OneCase) (ks : List OneCandidate) → AreCandidates scene.now.instance.now
        scene.now.path.now.blocks c (seen stack) ks
        → IsTableAt scene.now (seen stack) ks table.old
        → IfOk result (λ v. AreBesides scene.now.instance.now scene.now.path.now.blocks c
        (seen stack) v.items) }
{
    let mut besides = Vec::new(alloc);
    let Some(next) = scene.path.next_unit() else {
        return Ok(besides);
    };
    'shapes: for shape in scene.shapes {
        add_beside(scene, stack, table, next, *shape, &mut besides)?;
    }
    Ok(besides)
}

/// What is gained beside a shape, where it is one of these.
pub(crate) fn gain_at(besides: &[Beside], shape: Shape) -> Option<i64>
    requires small { All (λ k. IsWithin 1280000000000000000 k.gain) besides.now }
    ensures { IfSome result
        (λ z. (k : OneBeside) × In k besides.now × (k.shape ≡ shape) × (k.gain ≡ z)) }
{
    'besides: for beside in besides {
        if beside.shape == shape {
            return Some(beside.gain);
        }
    }
    None
}
