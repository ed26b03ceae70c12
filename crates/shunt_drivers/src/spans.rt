// When moves run.
ghost use Rattle.std.specs.Prelude.{◌≡◌, ◌<◌, ◌+◌, All, length, IfOk};
ghost use Rattle.shunt_zones.specs.defs.Moves.{trains_of, train_of, IsMoveOf};
ghost use Rattle.shunt_drivers.specs.defs.CrewFormat.{IsCrew};
ghost use Rattle.shunt_drivers.specs.defs.Spans.{is_between, minutes_of, span_of, spans_of};

use crate::crew::is_same_side;
use crate::records::{Crew, Takes};
use crate::shares::MoveSpan;
use shunt_base::{ArrId, DepId, EventKey, Side, TrackId};
use shunt_instance::{Instance, Origin, Train};
use shunt_tracks::Event;
use std::alloc::{AllocError, Global};

fn train_of(instance: &Instance, key: EventKey) -> &Train
    requires { key.train < length (trains_of instance.now key) }
    ensures { result.now ≡ train_of instance.now key }
{
    if key.enters {
        instance.arrive(ArrId(key.train))
    } else {
        instance.depart(DepId(key.train))
    }
}

fn is_between(origin: Origin, track: TrackId, side: Side, takes: &Takes) -> bool
    ensures { result ≡ is_between origin track side takes.now }
{
    match origin {
        Origin::Platform(platform) => {
            takes.platform.0 == platform.0
                && takes.track.0 == track.0
                && is_same_side(takes.side, side)
        }
        Origin::Track(_) => false,
    }
}

// How many minutes a driver is with a move.
fn minutes_of(instance: &Instance, crew: &Crew, event: Event) -> u16
    requires { IsMoveOf instance.now event }
    ensures { result ≡ minutes_of instance.now crew.now event }
{
    let origin = train_of(instance, event.key).origin;
    for takes in crew.takes.as_slice() {
        if is_between(origin, event.track, event.side, takes) {
            return takes.minutes;
        }
    }
    crew.other
}

/// When a move runs.
pub(crate) fn span_of(instance: &Instance, crew: &Crew, event: Event) -> MoveSpan
    requires of_night { IsMoveOf instance.now event }
    requires crew { IsCrew instance.now.station crew.now }
    ensures { result ≡ span_of instance.now crew.now event }
{
    let minutes = minutes_of(instance, crew, event);
    MoveSpan {
        start: event.key.minute,
        end: event.key.minute + minutes,
    }
}

/// When each of these moves runs, in their order.
pub(crate) fn spans_of(
    alloc: Global,
    instance: &Instance,
    crew: &Crew,
    moves: &[Event],
) -> Result<Vec<MoveSpan>, AllocError>
    requires of_night { All (IsMoveOf instance.now) moves.now }
    requires crew { IsCrew instance.now.station crew.now }
    ensures { IfOk result (λ v. v.items ≡ spans_of instance.now crew.now moves.now) }
{
    let mut spans = Vec::new(alloc);
    for event in moves {
        spans.push(span_of(instance, crew, *event))?;
    }
    Ok(spans)
}
