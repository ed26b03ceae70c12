// The line of a report, in JSON.
ghost use Rattle.std.specs.Prelude.{◌≡◌, ◌<◌, ◌≤◌, ◌*◌, ◌++◌, IsAscii, All, map, length, codes};
ghost use Rattle.std.specs.Prelude.{false, IfOk};
ghost use Rattle.serde_json.specs.Data.{array, string};
ghost use Rattle.serde_json.specs.View.{view, items_of};
ghost use Rattle.serde_json.specs.Written.{has_float, compact_text};
ghost use Rattle.shunt_stays.specs.defs.Run.{run_of};
ghost use Rattle.shunt_base.specs.defs.Spelling.{minute_text};
ghost use Rattle.shunt_rows.specs.defs.Written.{side_text};
ghost use Rattle.shunt_blocks.specs.defs.Shapes.{IsWithinTrains, IsInRange};
ghost use Rattle.shunt_blocks.specs.defs.Lists.{CanStand, stays_of, track_lengths};
ghost use Rattle.shunt_tracks.specs.defs.Answer.{answer};
ghost use Rattle.shunt_plan.specs.defs.Plans.{IsPlanInRange};
ghost use Rattle.shunt_rows.specs.defs.Written.{move_word};
ghost use Rattle.shunt_report.specs.defs.JsonTexts.{IsStepOf, ways_cost, route_sum, cost_value};
ghost use Rattle.shunt_report.specs.defs.JsonTexts.{event_value, steps_of, value_with, json_of};

use crate::plans::{couples_in, splits_in, unparked_in};
use crate::zones::minute_of;
use serde_json::{Value, json};
use shunt_base::{Name, Side, minute_bytes};
use shunt_blocks::laws::stays_of_blocks;
use shunt_blocks::{Block, stays_of, track_lengths, way_in, way_out};
use shunt_instance::Instance;
use shunt_plan::{Plan, plan_cost};
use shunt_text::Text;
use shunt_tracks::{Ran, Step, run_lists};
use std::alloc::{AllocError, Global};
use std::str::from_utf8;

// ASCII bytes as a text.
fn as_text(bytes: &[u8]) -> &str
    requires { IsAscii bytes.now }
    ensures { result.now ≡ bytes.now }
{
    match from_utf8(bytes) {
        Ok(text) => text,
        Err(_) => unreachable!(),
    }
}

fn name_of(name: &Name) -> &str
    ensures { result.now ≡ name.now }
{
    as_text(name.bytes())
}

fn move_of(enters: bool) -> &'static str
    ensures { result.now ≡ move_word enters }
{
    if enters { "enter" } else { "leave" }
}

fn side_of(side: Side) -> &'static str
    ensures { result.now ≡ side_text side }
{
    match side {
        Side::A => "A",
        Side::B => "B",
    }
}

// What the ways in and out of a block cost.
fn ways_cost(instance: &Instance, block: &Block) -> u64
    requires { IsWithinTrains instance.now block.now }
    ensures exact { result ≡ ways_cost instance.now block.now }
    ensures small { result ≤ 2000000 }
{
    let cost_in = way_in(instance, block).unwrap_or(0);
    let cost_out = way_out(instance, block).unwrap_or(0);
    (cost_in + cost_out) as u64
}

fn route_sum(instance: &Instance, blocks: &[Block]) -> u64
    requires few { length blocks.now ≤ 400 }
    requires each { All (IsInRange instance.now) blocks.now }
    ensures { result ≡ route_sum instance.now blocks.now }
{
    let mut sum = 0;
    for block in blocks {
        sum += ways_cost(instance, block);
    }
    sum
}

// What that many blocks cost together, each of them this much.
fn times(count: usize, each: u32) -> u64
    requires { count ≤ 400 }
    ensures { result ≡ count * each }
{
    count as u64 * u64::from(each)
}

fn cost_value(alloc: Global, instance: &Instance, plan: &Plan) -> Result<Value, AllocError>
    requires { IsPlanInRange instance.now plan.now }
    ensures { IfOk result (λ v. view v ≡ cost_value instance.now plan.now.blocks) }
{
    let station = instance.station();
    let blocks = plan.blocks.as_slice();
    let couple = times(couples_in(blocks), station.couple);
    let route = route_sum(instance, blocks);
    let split = times(splits_in(blocks), station.split);
    let total = plan_cost(instance, plan);
    let unparked = times(unparked_in(blocks), station.unparked);
    json!(in alloc; {"couple": couple, "route": route, "split": split, "total": total, "unparked": unparked})
}

fn minute_value(alloc: Global, number: u16) -> Result<Value, AllocError>
    requires { number < 2880 }
    ensures { IfOk result (λ v. view v ≡ string (minute_text number)) }
{
    let bytes = minute_bytes(minute_of(number));
    Value::try_from_str(alloc, as_text(&bytes))
}

fn event_value(alloc: Global, instance: &Instance, step: &Step) -> Result<Value, AllocError>
    requires { IsStepOf instance.now step.now }
    ensures { IfOk result (λ v. view v ≡ event_value instance.now step.now) }
{
    let tracks = instance.station().tracks.as_slice();
    let event = step.event;
    let minute = minute_value(alloc, event.key.minute)?;
    let turn = move_of(event.key.enters);
    let side = side_of(event.side);
    let track = name_of(&tracks[usize::from(event.track.0)].name);
    json!(in alloc; {"block": event.key.id, "load": step.load, "minute": &minute, "move": turn, "side": side, "track": track})
}

fn events_value(alloc: Global, instance: &Instance, steps: &[Step]) -> Result<Value, AllocError>
    requires { All (IsStepOf instance.now) steps.now }
    ensures { IfOk result
        (λ v. view v ≡ array (items_of (map (event_value instance.now) steps.now))) }
{
    let mut events = Vec::new(alloc);
    for step in steps {
        events.push(event_value(alloc, instance, step)?)?;
    }
    Ok(Value::from(events))
}

// What comes of the run of blocks.
fn run_blocks(alloc: Global, instance: &Instance, blocks: &[Block]) -> Result<Ran, AllocError>
    requires { CanStand instance.now blocks.now }
    ensures { IfOk result (λ r. r
        ≡ answer (run_of (track_lengths instance.now.station) (stays_of instance.now blocks.now))) }
{
    // The first call tells that the night is well formed, the second that these are stays on its tracks.
    instance.units();
    stays_of_blocks();
    let lengths = track_lengths(alloc, instance)?;
    let stays = stays_of(alloc, instance, blocks)?;
    run_lists(alloc, &lengths, &stays)
}

fn events_of(alloc: Global, instance: &Instance, ran: &Ran) -> Result<Value, AllocError>
    requires { All (IsStepOf instance.now) (steps_of ran.now) }
    ensures { IfOk result
        (λ v. view v ≡ array (items_of (map (event_value instance.now) (steps_of ran.now)))) }
{
    match ran {
        Ran::Through(steps) => events_value(alloc, instance, steps.as_slice()),
        Ran::Blocked(_) => Ok(Value::Array(Vec::new(alloc))),
        Ran::Over { .. } => Ok(Value::Array(Vec::new(alloc))),
    }
}

fn value_with(
    alloc: Global,
    instance: &Instance,
    plan: &Plan,
    ran: &Ran,
) -> Result<Value, AllocError>
    requires plan { IsPlanInRange instance.now plan.now }
    requires steps { All (IsStepOf instance.now) (steps_of ran.now) }
    ensures { IfOk result
        (λ v. view v ≡ value_with instance.now plan.now.blocks (steps_of ran.now)) }
{
    let count = plan.blocks.len();
    let cost = cost_value(alloc, instance, plan)?;
    let events = events_of(alloc, instance, ran)?;
    let station = name_of(&instance.station().name);
    json!(in alloc; {"blocks": count, "cost": &cost, "events": &events, "station": station})
}

// The text of a value without spaces, and the end of its line.
fn line_of(alloc: Global, value: &Value) -> Result<Vec<u8>, AllocError>
    requires { has_float (view value.now) ≡ false }
    ensures { IfOk result (λ v. v.items ≡ compact_text (view value.now) ++ codes "\n") }
{
    let line = value.to_string(alloc)?;
    let mut text = Text::new(alloc);
    text.push(line.as_bytes())?;
    text.push(b"\n")?;
    Ok(text.into_bytes())
}

/// The line of a report: a JSON object without spaces, whose keys ascend.
///
/// It has `blocks`, their number; `cost`, an object of the sums `couple`, `route`, `split`, `total` and `unparked` in cost units, of
/// which `route` is that of the ways in and out; `events`, an array of the entries and leaves in key order; and `station`, its name.
/// An event has `block`, its id; `load`, the load in dm of its track just after it; `minute`; `move`, `enter` or `leave`; `side`; and
/// `track`, by name. There are no events where not all of them can be done. The plan is in range. The error is want of memory.
#[tactic(auto, unfolding(crate::specs::defs::JsonTexts::json_of))]
pub fn json_text(alloc: Global, instance: &Instance, plan: &Plan) -> Result<Vec<u8>, AllocError>
    requires { IsPlanInRange instance.now plan.now }
    ensures { IfOk result (λ v. v.items ≡ json_of instance.now plan.now.blocks) }
{
    // The calls tell that the night is well formed, and what the stays of blocks are.
    instance.station();
    stays_of_blocks();
    let ran = run_blocks(alloc, instance, plan.blocks.as_slice())?;
    let value = value_with(alloc, instance, plan, &ran)?;
    line_of(alloc, &value)
}
