// Plans whose cost no other option of one block lowers.
ghost use Rattle.std.specs.Prelude.{◌≡◌, ◌≢◌, ◌↔◌, ◌⊎◌, ◌+◌, ◌^◌, ◌<◌, ◌≤◌, [], map, length, take};
ghost use Rattle.std.specs.Prelude.{drop, slice_index_or, All, IsTrue, OnOk, OnErr, IfOk, IfSome};
ghost use Rattle.std.specs.Prelude.{IfNone, Option, None};
ghost use Rattle.std.specs.List.{cons_option};
ghost use Rattle.shunt_lists.specs.defs.Members.{In};
ghost use Rattle.shunt_base.specs.declared.keys.Stay.{Stay as OneStay};
ghost use Rattle.shunt_base.specs.defs.Keys.{AreStays};
ghost use Rattle.shunt_stays.specs.defs.Run.{GoesThrough};
ghost use Rattle.shunt_blocks.specs.declared.records.Block.{Block as OneBlock};
ghost use Rattle.shunt_blocks.specs.declared.records.Park.{Park as OnePark};
ghost use Rattle.shunt_blocks.specs.defs.Shapes.{shape_of, IsWithinTrains};
ghost use Rattle.shunt_blocks.specs.defs.Blocks.{IsBlock, IsOption};
ghost use Rattle.shunt_blocks.specs.defs.Costs.{cost_with};
ghost use Rattle.shunt_blocks.specs.defs.Stays.{stay_of};
ghost use Rattle.shunt_blocks.specs.defs.Lists.{IsFeasible, AreInRange, track_lengths, total_cost};
ghost use Rattle.shunt_blocks.specs.defs.Pins.{IsKept, Keeps, without_id};
ghost use Rattle.shunt_blocks.specs.defs.Polished.{IsPolished};
ghost use Rattle.shunt_plan.specs.defs.Plans.{IsPlanInRange};
ghost use Rattle.shunt_search.specs.defs.Polish.{unparked, others_of, Stand, RunsWith, NoLess};
ghost use Rattle.shunt_search.specs.defs.Polish.{IsLeast, IsLeastBut, AreLeast};

use shunt_blocks::{Block, Park, block_cost, laws, shape_of, stay, track_lengths};
use shunt_choices::laws::shape_options;
use shunt_choices::options;
use shunt_cross::Clash;
use shunt_instance::Instance;
use shunt_lists::Items;
use shunt_plan::{Plan, plan_cost};
use shunt_stays::laws::{clash_law, part_of_a_run};
use shunt_timeline::Timelines;
use std::alloc::{AllocError, Global};

/// The block with another option.
fn with_park(block: &Block, park: Option<Park>) -> Block
    ensures { result ≡ record block.now { park = park } }
{
    Block { park, ..*block }
}

/// Whether nothing clashes.
fn is_none(clash: Clash) -> bool
    ensures { IsTrue result ↔ (clash.pairs ≡ 0) × (clash.over ≡ 0) }
{
    if clash.pairs != 0 {
        return false;
    }
    clash.over == 0
}

/// Whether the run of these stays goes through with that of a block.
pub(crate) fn goes_through(instance: &Instance, others: &Timelines, block: &Block) -> bool
    requires within { IsWithinTrains instance.now block.now }
    requires lengths { others.now.lengths ≡ track_lengths instance.now.station }
    requires new { All (λ s. s.id ≢ block.now.id) others.now.stays }
    requires few { length others.now.stays < 65536 }
    ensures { IsTrue result ↔ RunsWith instance.now block.now block.now.park others.now }
{
    // The call says when counts are 0.
    clash_law();
    let alone = others.clash();
    let Some(stay) = stay(instance, block) else {
        return is_none(alone);
    };
    is_none(others.clash_with(&stay))
}

/// What a block costs with an option, where that is less than this and its run goes through among these stays.
fn cheaper(
    instance: &Instance,
    others: &Timelines,
    block: &Block,
    option: Option<Park>,
    most: u64,
) -> Option<u64>
    requires block { IsBlock instance.now block.now }
    requires option { IsOption instance.now (shape_of block.now) option }
    requires lengths { others.now.lengths ≡ track_lengths instance.now.station }
    requires new { All (λ s. s.id ≢ block.now.id) others.now.stays }
    requires few { length others.now.stays < 65536 }
    ensures cost { IfSome result (λ n. n ≡ cost_with instance.now (shape_of block.now) option) }
    ensures less { IfSome result (λ n. n < most) }
    ensures through { IfSome result (λ n. RunsWith instance.now block.now option others.now) }
    ensures none { IfNone result (NoLess instance.now block.now others.now most option) }
{
    let parked = with_park(block, option);
    let cost = block_cost(instance, &parked);
    if cost >= most {
        return None;
    }
    if goes_through(instance, others, &parked) {
        Some(cost)
    } else {
        None
    }
}

/// The cheapest option with which a block goes through among these stays: unparked, where no other costs less.
fn cheapest_through(instance: &Instance, others: &Timelines, block: &Block) -> Option<Park>
    requires block { IsBlock instance.now block.now }
    requires lengths { others.now.lengths ≡ track_lengths instance.now.station }
    requires new { All (λ s. s.id ≢ block.now.id) others.now.stays }
    requires few { length others.now.stays < 65536 }
    requires through { GoesThrough others.now.lengths others.now.stays }
    ensures option { IsOption instance.now (shape_of block.now) result }
    ensures through { RunsWith instance.now block.now result others.now }
    ensures least { (option : Option OnePark) → IsOption instance.now (shape_of block.now) option
        → NoLess instance.now block.now others.now
        (cost_with instance.now (shape_of block.now) result) option }
{
    // The call says which options these are.
    shape_options();
    let mut best = None;
    let mut least = block_cost(instance, &with_park(block, None));
    let mut options = options(instance, shape_of(block));
    'options: while let Some(option) = options.next() {
        if let Some(cost) = cheaper(instance, others, block, option, least) {
            best = option;
            least = cost;
        }
    }
    best
}

/// The stay of a block comes, where it has one.
pub(crate) fn settle(instance: &Instance, timelines: &mut Timelines, block: &Block)
    requires within { IsWithinTrains instance.now block.now }
    requires lengths { timelines.old.lengths ≡ track_lengths instance.now.station }
    requires new { All (λ s. s.id ≢ block.now.id) timelines.old.stays }
    requires few { length timelines.old.stays < 65536 }
    requires room { 0 < timelines.old.spare }
    ensures lengths { timelines.new.lengths ≡ timelines.old.lengths }
    ensures stays { (s : OneStay) → In s timelines.new.stays
        ↔ In s (cons_option (stay_of instance.now block.now) timelines.old.stays) }
    ensures count { length timelines.new.stays
        ≡ length (cons_option (stay_of instance.now block.now) timelines.old.stays) }
    ensures room { timelines.new.spare + length timelines.new.stays ≡ timelines.old.spare
        + length timelines.old.stays }
{
    if let Some(stay) = stay(instance, block) {
        timelines.insert(stay);
    }
}

/// The block at a place.
pub(crate) fn block_at(blocks: &[Block], place: usize) -> Block
    requires { place < length blocks.now }
    ensures { (d : OneBlock) → result ≡ slice_index_or blocks.now place d }
{
    blocks[place]
}

/// The stay of the block at a place goes, where it has one. The stays of the others go through by themselves.
fn withdraw(instance: &Instance, blocks: &[Block], timelines: &mut Timelines, place: usize) -> Block
    requires feasible { IsFeasible instance.now blocks.now }
    requires stand { Stand instance.now blocks.now timelines.old }
    requires place { place < length blocks.now }
    ensures block { (d : OneBlock) → result ≡ slice_index_or blocks.now place d }
    ensures is { IsBlock instance.now result }
    ensures new { All (λ s. s.id ≢ result.id) timelines.new.stays }
    ensures others { Stand instance.now (others_of blocks.now place) timelines.new }
    ensures formed { AreStays timelines.new.stays }
    ensures through { GoesThrough timelines.new.lengths timelines.new.stays }
    ensures few { length timelines.new.stays < length blocks.now }
    ensures room { timelines.new.spare + length timelines.new.stays ≡ timelines.old.spare
        + length timelines.old.stays }
{
    // The calls say how the stays of blocks stand, and that a part of a run goes through.
    laws::stays_of_blocks();
    part_of_a_run();
    instance.station();
    let block = block_at(blocks, place);
    timelines.remove(block.id);
    timelines.clash();
    block
}

/// Gives a block its cheapest option, where that costs less than its own, and says whether it did.
fn improve(
    instance: &Instance,
    blocks: &mut [Block],
    timelines: &mut Timelines,
    place: usize,
) -> bool
    requires feasible { IsFeasible instance.now blocks.old }
    requires stand { Stand instance.now blocks.old timelines.old }
    requires few { length blocks.old ≤ 160 }
    requires room { length blocks.old ≤ timelines.old.spare + length timelines.old.stays }
    requires place { place < length blocks.old }
    ensures feasible { IsFeasible instance.now blocks.new }
    ensures stand { Stand instance.now blocks.new timelines.new }
    ensures room { length blocks.new ≤ timelines.new.spare + length timelines.new.stays }
    ensures shapes { map unparked blocks.new ≡ map unparked blocks.old }
    ensures others { others_of blocks.new place ≡ others_of blocks.old place }
    ensures cheaper { IsTrue result
        → total_cost instance.now blocks.new < total_cost instance.now blocks.old }
    ensures same { (blocks.new ≡ blocks.old) ⊎ IsTrue result }
    ensures least { (d : OneBlock)
        → IsTrue result ⊎ IsLeast instance.now blocks.old (slice_index_or blocks.old place d) }
{
    // The calls say how the stays of blocks stand, and that a part of a run goes through.
    laws::stays_of_blocks();
    part_of_a_run();
    instance.station();
    let block = withdraw(instance, blocks, timelines, place);
    let option = cheapest_through(instance, timelines, &block);
    let parked = with_park(&block, option);
    if block_cost(instance, &parked) < block_cost(instance, &block) {
        settle(instance, timelines, &parked);
        blocks[place] = parked;
        return true;
    }
    settle(instance, timelines, &block);
    false
}

/// Whether two blocks differ in nothing but their ids.
fn same_but_id(pin: &Block, block: &Block) -> bool
    ensures { IsTrue result ↔ (without_id pin.now ≡ without_id block.now) }
{
    Block { id: 0, ..*pin } == Block { id: 0, ..*block }
}

/// Whether one of the pins has a block's shape and option.
fn is_pin(pins: &[Block], block: &Block) -> bool
    ensures { IsTrue result ↔ IsKept pins.now block.now }
{
    for pin in pins {
        if same_but_id(pin, block) {
            return true;
        }
    }
    false
}

/// Gives a block its cheapest option, where it is no pin and that costs less than its own, and says whether it did.
fn improve_free(
    instance: &Instance,
    pins: &[Block],
    blocks: &mut [Block],
    timelines: &mut Timelines,
    place: usize,
) -> bool
    requires feasible { IsFeasible instance.now blocks.old }
    requires stand { Stand instance.now blocks.old timelines.old }
    requires few { length blocks.old ≤ 160 }
    requires room { length blocks.old ≤ timelines.old.spare + length timelines.old.stays }
    requires place { place < length blocks.old }
    ensures feasible { IsFeasible instance.now blocks.new }
    ensures stand { Stand instance.now blocks.new timelines.new }
    ensures room { length blocks.new ≤ timelines.new.spare + length timelines.new.stays }
    ensures shapes { map unparked blocks.new ≡ map unparked blocks.old }
    ensures keeps { Keeps blocks.old pins.now → Keeps blocks.new pins.now }
    ensures cheaper { IsTrue result
        → total_cost instance.now blocks.new < total_cost instance.now blocks.old }
    ensures same { (blocks.new ≡ blocks.old) ⊎ IsTrue result }
    ensures least { (d : OneBlock) → IsTrue result
        ⊎ IsLeastBut instance.now pins.now blocks.old (slice_index_or blocks.old place d) }
{
    let block = block_at(blocks, place);
    if is_pin(pins, &block) {
        return false;
    }
    improve(instance, blocks, timelines, place)
}

/// Gives each block that is no pin its cheapest option, one after the other, and says whether one has changed.
fn sweep(
    instance: &Instance,
    pins: &[Block],
    blocks: &mut [Block],
    timelines: &mut Timelines,
) -> bool
    requires feasible { IsFeasible instance.now blocks.old }
    requires stand { Stand instance.now blocks.old timelines.old }
    requires few { length blocks.old ≤ 160 }
    requires room { length blocks.old ≤ timelines.old.spare + length timelines.old.stays }
    ensures feasible { IsFeasible instance.now blocks.new }
    ensures stand { Stand instance.now blocks.new timelines.new }
    ensures room { length blocks.new ≤ timelines.new.spare + length timelines.new.stays }
    ensures shapes { map unparked blocks.new ≡ map unparked blocks.old }
    ensures keeps { Keeps blocks.old pins.now → Keeps blocks.new pins.now }
    ensures cheaper { IsTrue result
        → total_cost instance.now blocks.new < total_cost instance.now blocks.old }
    ensures same { (blocks.new ≡ blocks.old) ⊎ IsTrue result }
    ensures least { IsTrue result ⊎ AreLeast instance.now pins.now (length blocks.old) blocks.old }
{
    let mut changed = false;
    for place in 0..blocks.len() {
        if improve_free(instance, pins, blocks, timelines, place) {
            changed = true;
        }
    }
    changed
}

/// The stays of these blocks come.
fn stand(instance: &Instance, timelines: &mut Timelines, blocks: &[Block])
    requires feasible { IsFeasible instance.now blocks.now }
    requires few { length blocks.now ≤ 160 }
    requires empty { timelines.old.stays ≡ [] }
    requires lengths { timelines.old.lengths ≡ track_lengths instance.now.station }
    requires room { length blocks.now ≤ timelines.old.spare }
    ensures stand { Stand instance.now blocks.now timelines.new }
    ensures room { length blocks.now ≤ timelines.new.spare + length timelines.new.stays }
{
    for block in blocks {
        settle(instance, timelines, block);
    }
}

/// Changes options of blocks that are feasible, but of the pins, until none of them alone gives a feasible list of lower cost. Err is
/// want of memory, and then nothing changes.
pub(crate) fn polish_around(
    alloc: Global,
    instance: &Instance,
    pins: &[Block],
    blocks: &mut [Block],
) -> Result<(), AllocError>
    requires { IsFeasible instance.now blocks.old }
    ensures feasible { IsFeasible instance.now blocks.new }
    ensures shapes { map unparked blocks.new ≡ map unparked blocks.old }
    ensures keeps { Keeps blocks.old pins.now → Keeps blocks.new pins.now }
    ensures cost { total_cost instance.now blocks.new ≤ total_cost instance.now blocks.old }
    ensures least { OnOk result (AreLeast instance.now pins.now (length blocks.new) blocks.new) }
    ensures err { OnErr result (blocks.new ≡ blocks.old) }
{
    // The calls tell that there are at most 160 blocks.
    laws::feasible_lists();
    instance.station();
    let mut timelines = Timelines::new(alloc, &track_lengths(alloc, instance)?)?;
    timelines.reserve(blocks.len())?;
    stand(instance, &mut timelines, blocks);
    'sweeps: while sweep(instance, pins, blocks, &mut timelines) {}
    Ok(())
}

/// The blocks as a plan that states their cost.
pub(crate) fn planned(instance: &Instance, blocks: Vec<Block>) -> Plan
    requires { AreInRange instance.now blocks.items }
    ensures blocks { result.blocks ≡ blocks.items }
    ensures cost { result.cost ≡ total_cost instance.now blocks.items }
    ensures in_range { IsPlanInRange instance.now result }
{
    let mut plan = Plan {
        blocks: Items::from_vec(blocks),
        cost: 0,
    };
    plan.cost = plan_cost(instance, &plan);
    plan
}

/// A polished plan with the ids and shapes of a feasible one in range: it costs no more, and states its cost. Err is want of
/// memory.
pub fn polish(alloc: Global, instance: &Instance, plan: &Plan) -> Result<Plan, AllocError>
    requires in_range { IsPlanInRange instance.now plan.now }
    requires feasible { IsFeasible instance.now plan.now.blocks }
    ensures polished { IfOk result (λ p. IsPolished instance.now [] p.blocks) }
    ensures shapes { IfOk result (λ p. map unparked p.blocks ≡ map unparked plan.now.blocks) }
    ensures cheaper { IfOk result
        (λ p. total_cost instance.now p.blocks ≤ total_cost instance.now plan.now.blocks) }
    ensures cost { IfOk result (λ p. p.cost ≡ total_cost instance.now p.blocks) }
    ensures in_range { IfOk result (IsPlanInRange instance.now) }
{
    // The calls tell that feasible blocks are in range.
    laws::feasible_lists();
    instance.station();
    let mut blocks = Vec::from_slice(alloc, plan.blocks.as_slice())?;
    polish_around(alloc, instance, &[], &mut blocks)?;
    Ok(planned(instance, blocks))
}
