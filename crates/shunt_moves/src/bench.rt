// The workbench.
ghost use Rattle.std.specs.Prelude.{◌≡◌, ◌⊎◌, ◌↔◌, ◌+◌, ◌^◌, ◌<◌, ◌≤◌, [], ℕ, max, length};
ghost use Rattle.std.specs.Prelude.{vec_capacity, ◌++◌, ◌∷◌, All, Ok, Err, IsErr, IfOk, OnOk};
ghost use Rattle.std.specs.Prelude.{OnErr, IsPermutation};
ghost use Rattle.shunt_blocks.specs.defs.Lists.{track_lengths, stays_of, total_cost, IsFeasible};
ghost use Rattle.shunt_blocks.specs.defs.Lists.{AreInRange};
ghost use Rattle.shunt_plan.specs.defs.Plans.{IsPlanInRange};
ghost use Rattle.shunt_audit.specs.defs.Findings.{IsOfNight, AreFindings};
ghost use Rattle.shunt_audit.specs.defs.Listed.{by_id, findings_in};
ghost use Rattle.shunt_moves.specs.declared.types.MoveError.{MoveError as AnError};
ghost use Rattle.shunt_moves.specs.declared.types.MoveError.TheVariants as errors;
ghost use Rattle.shunt_moves.specs.defs.States.{State, greatest_id};
ghost use Rattle.shunt_moves.specs.defs.Edits.{edit as step};
ghost use Rattle.shunt_moves.specs.defs.Benches.{started, after_edit, after_undo, after_redo};
ghost use Rattle.shunt_moves.specs.defs.Tallies.{tally_of, sum_of};

use crate::exchange::Exchange;
use crate::present::Present;
use crate::types::{MoveError, Nothing, Tally};
use shunt_audit::findings_of;
use shunt_audit::types::Finding;
use shunt_blocks::Block;
use shunt_instance::Instance;
use shunt_lists::Items;
use shunt_plan::{Edit, Plan, plan_cost};
use shunt_timeline::Timelines;
use std::alloc::{AllocError, Global};
use std::marker::Model;

/// A plan's blocks that are changed by hand, with the states before and those that were undone.
///
/// Contracts see the present state, the past states and the undone ones, each list the latest first. It keeps the present
/// blocks with what is wrong with them, and of each other state the exchange that leads to it: what goes, what comes, and the
/// next id. So undo and redo need no memory.
#[derive(Drop)]
pub struct Workbench<'i> {
    alloc: Global,
    present: Present<'i>,
    // The latest last. Each has room for what both hold together.
    past: Vec<Exchange>,
    undone: Vec<Exchange>,
}

impl<'i> Model for Workbench<'i> {
    ghost use Rattle.std.specs.Prelude.{reverse, vec_capacity};
    ghost use Rattle.shunt_moves.specs.defs.Benches.{Bench};

    ghost Value = { Bench };

    ghost use Rattle.shunt_moves.specs.defs.Exchanges.{IsBench, trail};

    ghost view = { λ w. record {
      night = w.present.night;
      present = w.present.state;
      past = trail w.present.state (reverse w.past.items);
      undone = trail w.present.state (reverse w.undone.items);
    } };

    ghost invariant = { λ w. IsBench w.present.night w.present.state w.past.items w.undone.items
        (vec_capacity w.past) (vec_capacity w.undone) };
}

/// The greater of two numbers.
fn greater(first: u32, second: u32) -> u32
    ensures { result ≡ max first second }
{
    if first < second { second } else { first }
}

/// The greatest id of these blocks, or 0.
fn greatest_id(blocks: &[Block]) -> u32
    ensures { result ≡ greatest_id blocks.now }
{
    let mut greatest = 0;
    for block in blocks {
        greatest = greater(greatest, block.id);
    }
    greatest
}

/// These blocks come, where there are none.
fn fill(present: &mut Present<'_>, blocks: &[Block])
    requires in_range { AreInRange present.old.night blocks.now }
    requires empty { present.old.state.blocks ≡ [] }
    ensures night { present.new.night ≡ present.old.night }
    ensures blocks { present.new.state.blocks ≡ by_id blocks.now }
{
    let mut left = blocks.len();
    'rest: while left > 0 {
        left -= 1;
        present.come(&blocks[left]);
    }
}

/// Room for one past exchange more, and for as many undone ones. Err is want of memory.
fn reserve(past: &mut Vec<Exchange>, undone: &mut Vec<Exchange>) -> Result<(), AllocError>
    ensures past { past.new.items ≡ past.old.items }
    ensures undone { undone.new.items ≡ undone.old.items }
    ensures past_room { vec_capacity past.old ≤ vec_capacity past.new }
    ensures undone_room { vec_capacity undone.old ≤ vec_capacity undone.new }
    ensures past_ok { OnOk result (length past.old.items + 1 ≤ vec_capacity past.new) }
    ensures undone_ok { OnOk result (length past.old.items + 1 ≤ vec_capacity undone.new) }
{
    past.reserve(1)?;
    let more = (past.len() + 1).saturating_sub(undone.len());
    undone.reserve(more)
}

/// One exchange more, for which there is room.
fn push(exchanges: &mut Vec<Exchange>, exchange: Exchange)
    requires { length exchanges.old.items < vec_capacity exchanges.old }
    ensures items { exchanges.new.items ≡ exchanges.old.items ++ exchange ∷ [] }
    ensures capacity { vec_capacity exchanges.old ≤ vec_capacity exchanges.new }
{
    if exchanges.push(exchange).is_err() {
        unreachable!();
    }
}

impl<'i> Workbench<'i> {
    /// The blocks of a plan in range, by ascending id. The next id is one more than the greatest of theirs, or 1; there are no
    /// past and no undone states.
    pub fn start(
        alloc: Global,
        instance: &'i Instance,
        plan: &Plan,
    ) -> Result<Workbench<'i>, AllocError>
        requires { IsPlanInRange instance.now plan.now }
        ensures { IfOk result (λ w. w ≡ started instance.now plan.now.blocks) }
    {
        let blocks = plan.blocks.as_slice();
        let mut present = Present::start(alloc, instance)?;
        fill(&mut present, blocks);
        present.set_next(greatest_id(blocks) + 1);
        Ok(Workbench {
            alloc,
            present,
            past: Vec::new(alloc),
            undone: Vec::new(alloc),
        })
    }

    /// Makes an edit, or refuses it for the first reason that holds in the order of the reasons.
    ///
    /// An accepted edit puts the old state on the past list and empties the undone list. After any refusal, want of memory
    /// included, all is as it was. Memory is taken only if no other reason holds.
    pub fn apply(&mut self, edit: &Edit) -> Result<(), MoveError>
        ensures refused { (error : AnError)
            → step self.old.night self.old.present edit.now ≡ Err error → result ≡ Err error }
        ensures accepted { (next : State) → step self.old.night self.old.present edit.now ≡ Ok next
            → (result ≡ Ok tt) ⊎ (result ≡ Err errors.Memory) }
        ensures made { OnOk result (self.new ≡ after_edit self.old edit.now) }
        ensures unchanged { OnErr result (self.new ≡ self.old) }
    {
        let exchange = match self.present.planned(edit) {
            Ok(exchange) => exchange,
            Err(error) => return Err(error),
        };
        if reserve(&mut self.past, &mut self.undone).is_err() {
            return Err(MoveError::Memory);
        }
        let back = self.present.exchange(&exchange);
        push(&mut self.past, back);
        self.undone.clear();
        Ok(())
    }

    /// Goes back to the last past state and puts the present one on the undone list. Nothing exactly when there is no past
    /// state, and then all is as it was. It takes no memory.
    pub fn undo(&mut self) -> Result<(), Nothing>
        ensures made { self.new ≡ after_undo self.old }
        ensures nothing { IsErr result ↔ (self.old.past ≡ []) }
    {
        let Some(exchange) = self.past.pop() else {
            return Err(Nothing);
        };
        let back = self.present.exchange(&exchange);
        push(&mut self.undone, back);
        Ok(())
    }

    /// Goes on to the last undone state and puts the present one on the past list. Nothing exactly when there is no undone
    /// state, and then all is as it was. It takes no memory.
    pub fn redo(&mut self) -> Result<(), Nothing>
        ensures made { self.new ≡ after_redo self.old }
        ensures nothing { IsErr result ↔ (self.old.undone ≡ []) }
    {
        let Some(exchange) = self.undone.pop() else {
            return Err(Nothing);
        };
        let back = self.present.exchange(&exchange);
        push(&mut self.past, back);
        Ok(())
    }

    /// How many findings of each kind from 1 to 10 the present blocks have, and what they cost: at once, whatever their number.
    /// It takes no memory.
    pub fn tally(&self) -> Tally
        ensures exact { result ≡ tally_of self.now.night self.now.present.blocks }
        ensures small { sum_of result < 2 ^ 32 }
    {
        self.present.tally()
    }

    /// The present blocks by ascending id, with their cost.
    pub fn plan(&self) -> Result<Plan, AllocError>
        ensures blocks { IfOk result (λ p. p.blocks ≡ self.now.present.blocks) }
        ensures cost { IfOk result
            (λ p. p.cost ≡ total_cost self.now.night self.now.present.blocks) }
        ensures in_range { IfOk result (IsPlanInRange self.now.night) }
    {
        let blocks = Vec::from_slice(self.alloc, self.present.blocks())?;
        let mut plan = Plan {
            blocks: Items::from_vec(blocks),
            cost: 0,
        };
        plan.cost = plan_cost(self.present.instance, &plan);
        Ok(plan)
    }

    /// The findings of the present blocks, by kind and then by the numbers that they carry.
    pub fn findings(&self) -> Result<Vec<Finding>, AllocError>
        ensures exact { IfOk result
            (λ v. v.items ≡ findings_in self.now.night self.now.present.blocks) }
        ensures told { IfOk result
            (λ v. AreFindings self.now.night self.now.present.blocks v.items) }
        ensures of_night { IfOk result (λ v. All (IsOfNight self.now.night) v.items) }
        ensures none { IfOk result
            (λ v. (v.items ≡ []) ↔ IsFeasible self.now.night self.now.present.blocks) }
    {
        findings_of(self.alloc, self.present.instance, self.present.blocks())
    }

    /// The timelines that the workbench keeps: the lengths of the station's tracks, exactly the stays of the present blocks,
    /// each once, and room for 400 in all. It takes no memory.
    pub fn timelines(&self) -> &Timelines
        ensures lengths { result.now.lengths ≡ track_lengths self.now.night.station }
        ensures stays { IsPermutation
            (stays_of self.now.night self.now.present.blocks) result.now.stays }
        ensures room { 400 ≤ result.now.spare + length result.now.stays }
    {
        self.present.timelines()
    }
}
