// Timelines of as many stays as plans may have, many times over.
ghost use Rattle.std.specs.Prelude.{◌≡◌, ◌+◌, ◌≤◌, ◌<◌, length};
ghost use Rattle.std.specs.List.{All};
ghost use Rattle.shunt_base.specs.defs.Keys.{IsWellFormed};

use crate::stays::stay;
use shunt_base::{Side, Stay};
use shunt_cross::Clash;
use shunt_timeline::Timelines;
use std::alloc::Global;

/// How many stays stand one after the other.
const STAYS: u16 = 30_000;

// A stay of 1 dm that enters and leaves by one side.
fn brief(id: u32, track: u8, enter: u16, leave: u16) -> Stay
    requires { enter < leave }
    ensures formed { IsWellFormed result }
    ensures id { result.id ≡ id }
    ensures track { result.track.0 ≡ track }
{
    stay(id, track, 1, (Side::A, Side::A), (enter, leave), 1)
}

// The next stay on sixty tracks by turns, on each of which it leaves before another one comes.
fn next(number: u16) -> Stay
    requires { number < 30000 }
    ensures formed { IsWellFormed result }
    ensures id { result.id ≡ number }
    ensures track { result.track.0 < 60 }
{
    let minute = number / 60 * 2 + 1;
    brief(u32::from(number), (number % 60) as u8, minute, minute + 1)
}

// A stay comes whose id is above those of all others.
fn come(timelines: &mut Timelines, stay: Stay)
    requires formed { IsWellFormed stay }
    requires track { stay.track.0 < length timelines.old.lengths }
    requires above { All (λ s. s.id < stay.id) timelines.old.stays }
    requires few { length timelines.old.stays < 65536 }
    requires room { 0 < timelines.old.spare }
    ensures above { All (λ s. s.id < stay.id + 1) timelines.new.stays }
    ensures count { length timelines.new.stays ≡ length timelines.old.stays + 1 }
    ensures lengths { timelines.new.lengths ≡ timelines.old.lengths }
    ensures spare { timelines.new.spare + 1 ≡ timelines.old.spare }
{
    timelines.insert(stay);
}

fn has(timelines: &Timelines, over: u32) -> bool {
    timelines.clash() == Clash { pairs: 0, over }
}

/// Whether 30,000 stays on sixty tracks are counted as they come, and one more that is in the way of 500 of them.
pub(crate) fn are_many_counted(alloc: Global) -> Option<bool> {
    let Ok(mut timelines) = Timelines::new(alloc, &[1; 60]) else {
        return None;
    };
    if timelines.reserve(30_001).is_err() {
        return None;
    }
    for number in 0..STAYS {
        come(&mut timelines, next(number));
        if !has(&timelines, 0) {
            return Some(false);
        }
    }
    come(&mut timelines, brief(30_000, 0, 0, 2_000));
    let over = has(&timelines, 500);
    let removed = timelines.remove(30_000).is_some();
    Some(over && removed && has(&timelines, 0))
}
