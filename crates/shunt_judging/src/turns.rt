// Doing turns on a workbench, and telling each.
ghost use Rattle.std.specs.Prelude.{◌≡◌, ◌++◌, ◌≤◌, length, IfOk, OnOk};
ghost use Rattle.shunt_moves.specs.defs.Benches.{after_edit};
ghost use Rattle.shunt_moves.specs.defs.Edits.{edit as step};
ghost use Rattle.shunt_judging.specs.defs.Replayed.{after_turn, after_turns, edit_outcome};
ghost use Rattle.shunt_judging.specs.defs.Replayed.{turn_outcome, line_of, line_with, lines_from};
ghost use Rattle.shunt_judging.specs.defs.Replayed.{TellsEdit, step_told};

use shunt_moves::{MoveError, Nothing, Workbench};
use shunt_plan::{Edit, Turn};
use shunt_report::{TurnOutcome, turn_text};
use std::alloc::{AllocError, Global};

// How an edit ended that was answered so. The error is want of memory.
fn edit_ended(answer: Result<(), MoveError>) -> Result<TurnOutcome, AllocError>
    ensures { IfOk result (λ ended. TellsEdit answer ended) }
{
    match answer {
        Ok(()) => Ok(TurnOutcome::Ok),
        Err(MoveError::NoBlock) => Ok(TurnOutcome::NoBlock),
        Err(MoveError::BadCount) => Ok(TurnOutcome::BadCount),
        Err(MoveError::NotAdjacent) => Ok(TurnOutcome::NotAdjacent),
        Err(MoveError::BadRange) => Ok(TurnOutcome::BadRange),
        Err(MoveError::Full) => Ok(TurnOutcome::Full),
        Err(MoveError::IdsSpent) => Ok(TurnOutcome::IdsSpent),
        Err(MoveError::Memory) => Err(AllocError),
    }
}

// How an undo or a redo ended that was answered so.
fn step_ended(answer: Result<(), Nothing>) -> TurnOutcome
    ensures { result ≡ step_told answer }
{
    match answer {
        Ok(()) => TurnOutcome::Ok,
        Err(Nothing) => TurnOutcome::Nothing,
    }
}

fn do_edit(bench: &mut Workbench<'_>, edit: &Edit) -> Result<TurnOutcome, AllocError>
    ensures bench { IfOk result (λ _. bench.new ≡ after_edit bench.old edit.now) }
    ensures ended { IfOk result
        (λ ended. ended ≡ edit_outcome (step bench.old.night bench.old.present edit.now)) }
{
    let answer = bench.apply(edit);
    edit_ended(answer)
}

// Does a turn. The error is want of memory.
fn do_turn(bench: &mut Workbench<'_>, turn: &Turn) -> Result<TurnOutcome, AllocError>
    ensures bench { IfOk result (λ _. bench.new ≡ after_turn bench.old turn.now) }
    ensures ended { IfOk result (λ ended. ended ≡ turn_outcome bench.old turn.now) }
{
    match turn {
        Turn::Edit(edit) => do_edit(bench, edit),
        Turn::Undo => Ok(step_ended(bench.undo())),
        Turn::Redo => Ok(step_ended(bench.redo())),
    }
}

// The line of a turn that ended so and left the bench as it is.
fn line_of(
    alloc: Global,
    bench: &Workbench<'_>,
    number: u32,
    ended: TurnOutcome,
) -> Result<Vec<u8>, AllocError>
    ensures { IfOk result
        (λ v. v.items ≡ line_with number ended bench.now.night bench.now.present.blocks) }
{
    let tally = bench.tally();
    turn_text(alloc, number, ended, tally.total(), tally.cost)
}

// Does a turn, and appends its line.
fn tell_turn(
    alloc: Global,
    bench: &mut Workbench<'_>,
    number: u32,
    turn: &Turn,
    text: &mut Vec<u8>,
) -> Result<(), AllocError>
    ensures bench { OnOk result (bench.new ≡ after_turn bench.old turn.now) }
    ensures text { OnOk result
        (text.new.items ≡ text.old.items ++ line_of number bench.old turn.now) }
{
    let ended = do_turn(bench, turn)?;
    let line = line_of(alloc, bench, number, ended)?;
    text.extend_from_slice(&line)
}

/// Does all turns, also behind one that is refused, and gives their lines. The error is want of memory.
pub fn do_turns(
    alloc: Global,
    bench: &mut Workbench<'_>,
    turns: &[Turn],
) -> Result<Vec<u8>, AllocError>
    requires { length turns.now ≤ 10000 }
    ensures bench { IfOk result (λ _. bench.new ≡ after_turns bench.old turns.now) }
    ensures text { IfOk result (λ v. v.items ≡ lines_from 1 bench.old turns.now) }
{
    let mut text = Vec::new(alloc);
    let mut number = 0;
    'turns: for turn in turns {
        number += 1;
        tell_turn(alloc, bench, number, turn, &mut text)?;
    }
    Ok(text)
}
