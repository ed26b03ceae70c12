// Paths: lists of blocks that begin with pins and grow block by block.
ghost use Rattle.std.specs.Prelude.{◌≡◌, ◌≤◌, ◌<◌, [], ◌∷◌, ◌++◌, ℕ, true, false, length};
ghost use Rattle.std.specs.Prelude.{vec_capacity, slice_index_or, All, Some, IfOk, IfSome, IfNone};
ghost use Rattle.std.specs.Prelude.{IsPermutation};
ghost use Rattle.shunt_instance.specs.defs.Instance.{unit_total};
ghost use Rattle.shunt_blocks.specs.defs.Shapes.{shape_of, IsInRange, HasUnit, HasPosition};
ghost use Rattle.shunt_blocks.specs.defs.Shapes.{begins_at};
ghost use Rattle.shunt_blocks.specs.defs.Lists.{ShareNothing};
ghost use Rattle.shunt_choices.specs.defs.Paths.{Trail, IsTrailOf, masks_of, next_of, AreInOrder};

use crate::covered::Covered;
use shunt_blocks::{Block, laws, shape_of};
use shunt_instance::Instance;
use std::alloc::{AllocError, Global};
use std::marker::Model;

/// Blocks one after the other that share no unit and no position, beginning with pins.
///
/// Contracts see the blocks, which units and positions they cover, and the number of pins. It has room for a block for each
/// unit from its start on, so that only the two starts take memory.
#[derive(Debug, Drop)]
pub struct Path {
    blocks: Vec<Block>,
    covered: Covered,
    pins: usize,
}

impl Model for Path {
    ghost use Rattle.std.specs.Prelude.{◌≤◌, length, vec_capacity};
    ghost use Rattle.shunt_choices.specs.defs.Paths.{Trail};

    ghost Value = { Trail };

    ghost view = { λ p. record { blocks = p.blocks.items; covered = p.covered; pins = p.pins } };

    ghost invariant = { λ p. length p.covered.units ≤ vec_capacity p.blocks };
}

// These blocks in the order of their first units, with room for a block for each unit.
fn in_order(alloc: Global, instance: &Instance, pins: &[Block]) -> Result<Vec<Block>, AllocError>
    requires in_range { All (IsInRange instance.now) pins.now }
    requires apart { ShareNothing instance.now pins.now }
    ensures same { IfOk result (λ v. IsPermutation pins.now v.items) }
    ensures order { IfOk result (λ v. AreInOrder instance.now v.items) }
    ensures in_range { IfOk result (λ v. All (IsInRange instance.now) v.items) }
    ensures apart { IfOk result (λ v. ShareNothing instance.now v.items) }
    ensures room { IfOk result (λ v. unit_total instance.now ≤ vec_capacity v) }
{
    laws::few_blocks();
    let mut blocks = Vec::with_capacity(alloc, instance.units())?;
    blocks.extend_from_slice(pins)?;
    blocks.sort_unstable_by_key(|b| (b.arr.0, b.p));
    Ok(blocks)
}

impl Path {
    /// The path without blocks and without pins.
    pub fn start(alloc: Global, instance: &Instance) -> Result<Path, AllocError>
        ensures empty { IfOk result
            (λ p. p ≡ record { blocks = []; covered = masks_of instance.now []; pins = 0 }) }
        ensures of { IfOk result (IsTrailOf instance.now) }
    {
        let blocks = Vec::with_capacity(alloc, instance.units())?;
        let covered = Covered::nothing(alloc, instance)?;
        Ok(Path {
            blocks,
            covered,
            pins: 0,
        })
    }

    /// The path that begins with these pins, which are in range and share no unit and no position, in the order of their first
    /// units.
    pub fn start_with(
        alloc: Global,
        instance: &Instance,
        pins: &[Block],
    ) -> Result<Path, AllocError>
        requires in_range { All (IsInRange instance.now) pins.now }
        requires apart { ShareNothing instance.now pins.now }
        ensures pins { IfOk result (λ p. p.pins ≡ length pins.now) }
        ensures same { IfOk result (λ p. IsPermutation pins.now p.blocks) }
        ensures order { IfOk result (λ p. AreInOrder instance.now p.blocks) }
        ensures of { IfOk result (IsTrailOf instance.now) }
    {
        let blocks = in_order(alloc, instance, pins)?;
        let covered = Covered::of(alloc, instance, &blocks)?;
        Ok(Path {
            blocks,
            covered,
            pins: pins.len(),
        })
    }

    /// The blocks in their order.
    pub fn blocks(&self) -> &[Block]
        ensures { result.now ≡ self.now.blocks }
    {
        &self.blocks
    }

    /// Which units and positions the blocks have.
    pub fn covered(&self) -> &Covered
        ensures { result.now ≡ self.now.covered }
    {
        &self.covered
    }

    /// How many pins the path began with.
    pub fn pins(&self) -> usize
        ensures { result ≡ self.now.pins }
    {
        self.pins
    }

    /// The least uncovered unit. None exactly when all units are covered.
    pub fn next_unit(&self) -> Option<usize>
        ensures { result ≡ next_of self.now.covered }
    {
        self.covered.units().iter().position(|c| !c)
    }

    /// Adds a block in range that begins at the next unit, and whose units and positions are uncovered.
    pub fn push(&mut self, instance: &Instance, block: Block)
        requires of { IsTrailOf instance.now self.old }
        requires in_range { IsInRange instance.now block }
        requires next { next_of self.old.covered ≡ Some (begins_at instance.now block) }
        requires units { (u : ℕ) → HasUnit instance.now (shape_of block) u
            → slice_index_or self.old.covered.units u true ≡ false }
        requires positions { (v : ℕ) → HasPosition instance.now (shape_of block) v
            → slice_index_or self.old.covered.places v true ≡ false }
        ensures new { self.new ≡ record self.old {
          blocks = self.old.blocks ++ block ∷ [];
          covered = masks_of instance.now (self.old.blocks ++ block ∷ []);
        } }
        ensures of { IsTrailOf instance.now self.new }
    {
        laws::places();
        laws::few_blocks();
        self.covered.set(instance, shape_of(&block), true);
        if self.blocks.push(block).is_err() {
            unreachable!();
        }
    }

    /// Takes the last block away. None exactly when the path holds no more blocks than the pins that it began with.
    pub fn pop(&mut self, instance: &Instance) -> Option<Block>
        requires of { IsTrailOf instance.now self.old }
        ensures some { IfSome result (λ b. (self.old.pins < length self.old.blocks)
            × (self.old.blocks ≡ self.new.blocks ++ b ∷ [])) }
        ensures none { IfNone result
            ((length self.old.blocks ≤ self.old.pins) × (self.new ≡ self.old)) }
        ensures of { IsTrailOf instance.now self.new }
        ensures pins { self.new.pins ≡ self.old.pins }
    {
        if self.blocks.len() <= self.pins {
            return None;
        }
        laws::places();
        let block = self.blocks.pop()?;
        self.covered.set(instance, shape_of(&block), false);
        Some(block)
    }
}
