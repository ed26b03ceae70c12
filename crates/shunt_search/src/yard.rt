// A path that grows and shrinks, and whether its run goes through with a block more.
ghost use Rattle.std.specs.Prelude.{◌≡◌, ◌↔◌, ◌+◌, ◌<◌, ◌≤◌, [], ◌∷◌, take, length, All, IsTrue};
ghost use Rattle.std.specs.Prelude.{IfOk};
ghost use Rattle.shunt_instance.specs.defs.Instance.{unit_total};
ghost use Rattle.shunt_blocks.specs.defs.Shapes.{IsWithinTrains};
ghost use Rattle.shunt_blocks.specs.defs.Lists.{RunsThrough, placed, track_lengths};
ghost use Rattle.shunt_blocks.specs.defs.Pins.{AreUsable};
ghost use Rattle.shunt_choices.specs.defs.Paths.{masks_of};
ghost use Rattle.shunt_proof.specs.defs.Trees.{IsStart};
ghost use Rattle.shunt_search.specs.defs.Polish.{Stand};
ghost use Rattle.shunt_search.specs.defs.Yards.{IsYard, IsNextBlock, more_by};

use crate::polisher::{block_at, goes_through, settle};
use shunt_blocks::{Block, laws, track_lengths};
use shunt_choices::Path;
use shunt_instance::Instance;
use shunt_proof::laws::starts;
use shunt_stays::laws::part_of_a_run;
use shunt_timeline::Timelines;
use std::alloc::{AllocError, Global};

/// A path, and timelines that have the stay of each of its blocks, with the block's place as id.
#[derive(Drop)]
pub struct Yard {
    pub path: Path,
    pub timelines: Timelines,
}

/// The block with its place in a list as id.
pub(crate) fn at_place(block: &Block, place: usize) -> Block
    requires { place ≤ 160 }
    ensures { result ≡ record block.now { id = place } }
{
    Block {
        id: place as u32,
        ..*block
    }
}

/// The stays of these blocks come, with their places as ids.
fn stand_placed(instance: &Instance, timelines: &mut Timelines, blocks: &[Block])
    requires within { All (IsWithinTrains instance.now) blocks.now }
    requires few { length blocks.now ≤ 160 }
    requires empty { timelines.old.stays ≡ [] }
    requires lengths { timelines.old.lengths ≡ track_lengths instance.now.station }
    requires room { length blocks.now ≤ timelines.old.spare }
    ensures stand { Stand instance.now (placed blocks.now) timelines.new }
    ensures room { timelines.new.spare + length timelines.new.stays ≡ timelines.old.spare }
{
    for place in 0..blocks.len() {
        let block = block_at(blocks, place);
        settle(instance, timelines, &at_place(&block, place + 1));
    }
}

/// The pins in the order of their first units. Err is want of memory.
pub(crate) fn start(alloc: Global, instance: &Instance, pins: &[Block]) -> Result<Yard, AllocError>
    requires { AreUsable instance.now pins.now }
    ensures start { IfOk result (λ y. IsStart instance.now pins.now y.path.blocks) }
    ensures pins { IfOk result (λ y. y.path.pins ≡ length pins.now) }
    ensures yard { IfOk result (IsYard instance.now) }
{
    // The calls tell that the pins in order are a partial plan of at most 160 blocks.
    laws::few_blocks();
    starts();
    let path = Path::start_with(alloc, instance, pins)?;
    let mut timelines = Timelines::new(alloc, &track_lengths(alloc, instance)?)?;
    timelines.reserve(instance.units())?;
    stand_placed(instance, &mut timelines, path.blocks());
    Ok(Yard { path, timelines })
}

impl Yard {
    /// Whether the run goes through with the next block.
    pub(crate) fn goes_through(&self, instance: &Instance, block: &Block) -> bool
        requires yard { IsYard instance.now self.now }
        requires next { IsNextBlock instance.now self.now.path.blocks block.now }
        ensures { IsTrue result
            ↔ RunsThrough instance.now (placed (more_by self.now.path.blocks block.now)) }
    {
        // The calls say how the stays of blocks stand, and that a part of a run goes through.
        laws::stays_of_blocks();
        laws::places();
        laws::few_blocks();
        part_of_a_run();
        instance.units();
        self.timelines.clash();
        goes_through(instance, &self.timelines, block)
    }

    /// The path gets the next block.
    pub(crate) fn push(&mut self, instance: &Instance, block: Block)
        requires yard { IsYard instance.now self.old }
        requires next { IsNextBlock instance.now self.old.path.blocks block }
        requires through { RunsThrough instance.now (placed (more_by self.old.path.blocks block)) }
        ensures path { self.new.path
            ≡ record self.old.path {
              blocks = more_by self.old.path.blocks block;
              covered = masks_of instance.now (more_by self.old.path.blocks block);
            } }
        ensures yard { IsYard instance.now self.new }
    {
        laws::places();
        laws::few_blocks();
        instance.units();
        settle(instance, &mut self.timelines, &block);
        self.path.push(instance, block);
    }

    /// The path loses its last block, which is no pin.
    fn pop(&mut self, instance: &Instance)
        requires yard { IsYard instance.now self.old }
        requires more { self.old.path.pins < length self.old.path.blocks }
        ensures blocks { length self.old.path.blocks ≡ length self.new.path.blocks + 1 }
        ensures front { self.new.path.blocks
            ≡ take (length self.new.path.blocks) self.old.path.blocks }
        ensures pins { self.new.path.pins ≡ self.old.path.pins }
        ensures yard { IsYard instance.now self.new }
    {
        // The calls say how the stays of blocks stand, and that the run of those that are left goes through.
        laws::stays_of_blocks();
        laws::ids_do_not_matter();
        laws::few_blocks();
        instance.units();
        self.timelines.remove(self.path.blocks().len() as u32);
        self.path.pop(instance);
    }

    /// The path keeps that many of its first blocks, the pins among them.
    pub(crate) fn back_to(&mut self, instance: &Instance, keep: usize)
        requires yard { IsYard instance.now self.old }
        requires pins { self.old.path.pins ≤ keep }
        requires there { keep ≤ length self.old.path.blocks }
        ensures front { self.new.path.blocks ≡ take keep self.old.path.blocks }
        ensures pins { self.new.path.pins ≡ self.old.path.pins }
        ensures yard { IsYard instance.now self.new }
    {
        let mut left = self.path.blocks().len() - keep;
        'rest: while left > 0 {
            left -= 1;
            self.pop(instance);
        }
    }
}
