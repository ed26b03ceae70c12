// The present blocks, and what is kept beside them.
ghost use Rattle.std.specs.Prelude.{◌≡◌, ◌≢◌, ◌+◌, ◌^◌, ◌<◌, ◌≤◌, [], length, take, drop};
ghost use Rattle.std.specs.Prelude.{vec_capacity, All, IfOk, IfSome, IsPermutation};
ghost use Rattle.std.specs.List.{AllByRecursion};
ghost use Rattle.shunt_lists.specs.defs.Members.{In};
ghost use Rattle.shunt_base.specs.defs.Keys.{IsWellFormed};
ghost use Rattle.shunt_blocks.specs.defs.Shapes.{IsInRange};
ghost use Rattle.shunt_blocks.specs.defs.Lists.{AreInRange, track_lengths, stays_of};
ghost use Rattle.shunt_blocks.specs.declared.records.Block.{Block as OneBlock};
ghost use Rattle.shunt_audit.specs.defs.Listed.{insert_by_id};
ghost use Rattle.shunt_moves.specs.defs.States.{Ascend, block_with, without_block};
ghost use Rattle.shunt_moves.specs.defs.Kept.{Comes, Goes};
ghost use Rattle.shunt_moves.specs.defs.Tallies.{tally_of, sum_of};

use crate::cover::Cover;
use crate::faults::Faults;
use crate::types::Tally;
use shunt_base::Stay;
use shunt_blocks::{Block, laws, position_from, shape_of, stay, track_lengths, unit_from};
use shunt_instance::Instance;
use shunt_timeline::Timelines;
use std::alloc::{AllocError, Global};
use std::marker::Model;

/// How many blocks there may be.
const MOST: usize = 400;

/// A state in its night. It has room for 400 blocks, and knows at each moment how many findings of each kind they have.
#[derive(Drop)]
pub struct Present<'i> {
    pub instance: &'i Instance,
    // By ascending id.
    blocks: Vec<Block>,
    next: u32,
    timelines: Timelines,
    units: Cover,
    places: Cover,
    faults: Faults,
}

impl<'i> Model for Present<'i> {
    ghost use Rattle.std.specs.Prelude.{◌≤◌, vec_capacity};
    ghost use Rattle.shunt_moves.specs.defs.Kept.{Standing};

    ghost Value = { Standing };

    ghost use Rattle.shunt_moves.specs.defs.Kept.{IsKeptState};

    ghost view = { λ p. record {
      night = p.instance.now;
      state = record { blocks = p.blocks.items; next = p.next };
    } };

    ghost invariant = { λ p. IsKeptState p.instance.now p.blocks.items p.timelines p.units p.places
        p.faults × (400 ≤ vec_capacity p.blocks) };
}

/// How many blocks have lower ids, by binary search.
fn place_of(blocks: &[Block], id: u32) -> usize
    requires { Ascend blocks.now }
    ensures bound { result ≤ length blocks.now }
    ensures before { (b : OneBlock) → In b (take result blocks.now) → b.id < id }
    ensures after { (b : OneBlock) → In b (drop result blocks.now) → id ≤ b.id }
{
    blocks.partition_point(|block| block.id < id)
}

/// The block with an id.
pub fn find(blocks: &[Block], id: u32) -> Option<Block>
    requires { Ascend blocks.now }
    ensures { result ≡ block_with blocks.now id }
{
    let place = place_of(blocks, id);
    if place == blocks.len() {
        return None;
    }
    let block = blocks[place];
    if block.id != id {
        return None;
    }
    Some(block)
}

/// A block comes, for which there is room.
fn insert(blocks: &mut Vec<Block>, block: &Block)
    requires ascend { Ascend blocks.old.items }
    requires new { AllByRecursion (λ c. c.id ≢ block.now.id) blocks.old.items }
    requires room { length blocks.old.items < vec_capacity blocks.old }
    ensures items { blocks.new.items ≡ insert_by_id block.now blocks.old.items }
    ensures capacity { vec_capacity blocks.new ≡ vec_capacity blocks.old }
{
    let place = place_of(blocks, block.id);
    if blocks.insert(place, *block).is_err() {
        unreachable!();
    }
}

/// A block goes that is there.
fn remove(blocks: &mut Vec<Block>, block: &Block)
    requires ascend { Ascend blocks.old.items }
    requires there { In block.now blocks.old.items }
    ensures items { blocks.new.items ≡ without_block block.now.id blocks.old.items }
    ensures capacity { vec_capacity blocks.new ≡ vec_capacity blocks.old }
{
    let place = place_of(blocks, block.id);
    blocks.remove(place);
}

/// A stay comes, where there is one.
fn insert_stay(timelines: &mut Timelines, stay: Option<Stay>)
    requires formed { IfSome stay IsWellFormed }
    requires track { IfSome stay (λ s. s.track.0 < length timelines.old.lengths) }
    requires new { IfSome stay (λ s. All (λ t. t.id ≢ s.id) timelines.old.stays) }
    requires few { length timelines.old.stays < 400 }
    requires room { 0 < timelines.old.spare }
    ensures { Comes stay timelines.old timelines.new }
{
    if let Some(stay) = stay {
        timelines.insert(stay);
    }
}

/// The stay of a block goes, where it has one.
fn remove_stay(timelines: &mut Timelines, stay: Option<Stay>, id: u32)
    ensures { Goes id stay timelines.old timelines.new }
{
    if stay.is_some() {
        timelines.remove(id);
    }
}

impl<'i> Present<'i> {
    /// No blocks, with room for 400. The next id is 1.
    pub fn start(alloc: Global, instance: &'i Instance) -> Result<Present<'i>, AllocError>
        ensures night { IfOk result (λ p. p.night ≡ instance.now) }
        ensures state { IfOk result (λ p. p.state ≡ record { blocks = []; next = 1 }) }
    {
        let mut timelines = Timelines::new(alloc, &track_lengths(alloc, instance)?)?;
        timelines.reserve(MOST)?;
        Ok(Present {
            instance,
            blocks: Vec::with_capacity(alloc, MOST)?,
            next: 1,
            timelines,
            units: Cover::new(instance.units()),
            places: Cover::new(instance.positions()),
            faults: Faults::none(),
        })
    }

    /// The blocks by ascending id.
    pub fn blocks(&self) -> &[Block]
        ensures exact { result.now ≡ self.now.state.blocks }
        ensures ascend { Ascend result.now }
        ensures in_range { AreInRange self.now.night result.now }
    {
        &self.blocks
    }

    /// The id that the next new block gets.
    pub fn next(&self) -> u32
        ensures { result ≡ self.now.state.next }
    {
        self.next
    }

    /// Another id for the next new block.
    pub fn set_next(&mut self, next: u32)
        ensures { self.new ≡ record self.old { state = record self.old.state { next = next } } }
    {
        self.next = next;
    }

    /// The timelines with the blocks' stays.
    pub fn timelines(&self) -> &Timelines
        ensures lengths { result.now.lengths ≡ track_lengths self.now.night.station }
        ensures stays { IsPermutation
            (stays_of self.now.night self.now.state.blocks) result.now.stays }
        ensures room { 400 ≤ result.now.spare + length result.now.stays }
    {
        &self.timelines
    }

    /// The number of findings of each kind and the cost, at once.
    pub fn tally(&self) -> Tally
        ensures exact { result ≡ tally_of self.now.night self.now.state.blocks }
        ensures small { sum_of result < 2 ^ 32 }
    {
        let clash = self.timelines.clash();
        let Faults {
            wrong_type,
            too_soon,
            no_route_in,
            no_route_out,
            cost,
        } = self.faults;
        Tally {
            bare_units: self.units.bare(),
            twice_units: self.units.twice(),
            bare_places: self.places.bare(),
            twice_places: self.places.twice(),
            wrong_type,
            too_soon,
            no_route_in,
            no_route_out,
            crossing: clash.pairs,
            too_long: clash.over,
            cost,
        }
    }

    /// A block comes, in range and with a new id, where there are fewer than 400. It takes no memory.
    pub fn come(&mut self, block: &Block)
        requires in_range { IsInRange self.old.night block.now }
        requires new { AllByRecursion (λ c. c.id ≢ block.now.id) self.old.state.blocks }
        requires few { length self.old.state.blocks < 400 }
        ensures { self.new ≡ record self.old {
          state = record
              self.old.state { blocks = insert_by_id block.now self.old.state.blocks };
        } }
    {
        let instance = self.instance;
        insert_stay(&mut self.timelines, stay(instance, block));
        let shape = shape_of(block);
        let n = block.n as usize;
        self.units.raise(unit_from(instance, shape), n);
        self.places.raise(position_from(instance, shape), n);
        self.faults = self.faults.with(instance, block);
        insert(&mut self.blocks, block);
    }

    /// A block goes that is there. It takes no memory.
    pub fn go(&mut self, block: &Block)
        requires { In block.now self.old.state.blocks }
        ensures { self.new ≡ record self.old {
          state = record
              self.old.state { blocks = without_block block.now.id self.old.state.blocks };
        } }
    {
        // The first call says how the stays of blocks stand, the other that the night is well formed.
        laws::stays_of_blocks();
        let instance = self.instance;
        instance.station();
        remove_stay(&mut self.timelines, stay(instance, block), block.id);
        let shape = shape_of(block);
        let n = block.n as usize;
        self.units.lower(unit_from(instance, shape), n);
        self.places.lower(position_from(instance, shape), n);
        self.faults = self.faults.without(instance, block);
        remove(&mut self.blocks, block);
    }
}
