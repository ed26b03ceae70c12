// The moves of a plan, shared among drivers.
ghost use Rattle.std.specs.Prelude.{◌≡◌, ◌≤◌, ◌<◌, ◌+◌, ◌^◌, All, AllPairs, IfOk, IfSome, length};
ghost use Rattle.std.specs.Prelude.{map};
ghost use Rattle.shunt_lists.specs.defs.Members.{AreDistinct};
ghost use Rattle.shunt_plan.specs.defs.Plans.{IsPlanInRange};
ghost use Rattle.shunt_zones.specs.defs.Moves.{moves_of, IsMoveOf};
ghost use Rattle.shunt_drivers.specs.defs.SharedMoves.{IsLeast};
ghost use Rattle.shunt_drivers.specs.defs.CrewFormat.{IsCrew};
ghost use Rattle.shunt_drivers.specs.defs.RosterFormat.{name_of, IsRoster};
ghost use Rattle.shunt_drivers.specs.defs.Spans.{spans_of};
ghost use Rattle.shunt_drivers.specs.defs.Dealt.{dealt};
ghost use Rattle.shunt_drivers.specs.defs.Shared.{IsFewest};

use crate::records::{Crew, Duty, Sharing};
use crate::shares::{MoveShare, MoveShares, share_spans};
use crate::spans::spans_of;
use shunt_base::Minute;
use shunt_blocks::laws;
use shunt_instance::Instance;
use shunt_plan::Plan;
use shunt_tracks::Event;
use shunt_zones::{laws as zones_laws, moves_of};
use std::alloc::{AllocError, Global};

// When these moves run, shared among drivers.
fn shares_of(
    alloc: Global,
    instance: &Instance,
    crew: &Crew,
    moves: &[Event],
) -> Result<MoveShares, AllocError>
    requires of_night { All (IsMoveOf instance.now) moves.now }
    requires crew { IsCrew instance.now.station crew.now }
    requires rise { AllPairs (λ e f. e.key.minute ≤ f.key.minute) moves.now }
    requires few { length moves.now ≤ 800 }
    ensures least { IfOk result
        (λ s. IsLeast (spans_of instance.now crew.now moves.now) s.shares.items s.drivers s.busy) }
    ensures many { IfOk result (λ s. length s.shares.items ≡ length moves.now) }
    ensures numbered { IfOk result (λ s. All (λ x. x.driver < 800) s.shares.items) }
    ensures below { IfOk result (λ s. s.drivers ≤ 800) }
    ensures in_time { IfOk result (λ s. IfSome s.busy (λ b. b < 2880)) }
{
    let spans = spans_of(alloc, instance, crew, moves)?;
    share_spans(alloc, &spans)
}

// The duty of a driver, counted from 0.
fn duty_by(driver: usize, enters: bool, id: u32) -> Duty
    requires { driver < 800 }
    ensures exact { result ≡ record { driver = driver + 1; enters = enters; id = id } }
    ensures small { result.id < 2 ^ 32 }
{
    Duty {
        driver: driver as u32 + 1,
        enters,
        id,
    }
}

// The duties of these moves, each with its share's driver, counted from 1.
fn duties_of(alloc: Global, moves: &[Event], shares: &[MoveShare]) -> Result<Vec<Duty>, AllocError>
    requires many { length shares.now ≡ length moves.now }
    requires numbered { All (λ s. s.driver < 800) shares.now }
    ensures exact { IfOk result (λ v. v.items ≡ dealt moves.now shares.now) }
    ensures small { IfOk result (λ v. All (λ d. d.id < 2 ^ 32) v.items) }
{
    let mut duties = Vec::new(alloc);
    for i in 0..moves.len() {
        let key = moves[i].key;
        duties.push(duty_by(shares[i].driver, key.enters, key.id))?;
    }
    Ok(duties)
}

fn minute_of(busy: Option<u16>) -> Option<Minute>
    requires { IfSome busy (λ b. b < 2880) }
    ensures { result ≡ busy }
{
    match busy {
        Some(minute) => Minute::new(minute),
        None => None,
    }
}

fn count_of(drivers: usize) -> u32
    requires { drivers ≤ 800 }
    ensures { result ≡ drivers }
{
    drivers as u32
}

// These moves shared among drivers.
fn shared(
    alloc: Global,
    instance: &Instance,
    crew: &Crew,
    moves: &[Event],
) -> Result<Sharing, AllocError>
    requires of_night { All (IsMoveOf instance.now) moves.now }
    requires crew { IsCrew instance.now.station crew.now }
    requires rise { AllPairs (λ e f. e.key.minute ≤ f.key.minute) moves.now }
    requires differ { AreDistinct (map name_of moves.now) }
    requires few { length moves.now ≤ 800 }
    ensures fewest { IfOk result
        (λ s. IsFewest instance.now crew.now moves.now s.duties.items s.drivers s.busy) }
    ensures roster { IfOk result (λ s. IsRoster moves.now s.duties.items) }
{
    let shares = shares_of(alloc, instance, crew, moves)?;
    let duties = duties_of(alloc, moves, &shares.shares)?;
    Ok(Sharing {
        duties,
        drivers: count_of(shares.drivers),
        busy: minute_of(shares.busy),
    })
}

/// The moves of a plan in range, shared among as few drivers as can be.
///
/// The crew is one that a file can state over the instance's station. The duties are those of the moves in key order. Drivers are
/// numbered from 1 to `drivers`, each has a move, and no two moves of one driver run at one minute. `busy` is the first minute at
/// which `drivers` moves run, and None exactly when there are no moves. A file can state these duties. The error is want of
/// memory.
pub fn share_moves(
    alloc: Global,
    instance: &Instance,
    plan: &Plan,
    crew: &Crew,
) -> Result<Sharing, AllocError>
    requires plan { IsPlanInRange instance.now plan.now }
    requires crew { IsCrew instance.now.station crew.now }
    ensures fewest { IfOk result (λ s. IsFewest instance.now crew.now
        (moves_of instance.now plan.now.blocks) s.duties.items s.drivers s.busy) }
    ensures roster { IfOk result
        (λ s. IsRoster (moves_of instance.now plan.now.blocks) s.duties.items) }
{
    // The calls tell that the night is well formed, what its stays are, and that the minutes of moves rise.
    instance.station();
    laws::stays_of_blocks();
    zones_laws::moves_rise();
    let moves = moves_of(alloc, instance, plan)?;
    shared(alloc, instance, crew, &moves)
}
