// The place at which a visit more would stand among the fixed ones, and what is gained with it.
ghost use Rattle.std.specs.Prelude.{◌≡◌, ◌<◌, ◌≤◌, ℕ, pos, IfOk, IfSome, Some, Option, List};
ghost use Rattle.shunt_prices.specs.defs.Sums.{IsWithin};
ghost use Rattle.shunt_stacks.specs.defs.Spans.{Span, IsSpan, best};
ghost use Rattle.shunt_recount.specs.defs.Visits.{span_of, IsBest};
ghost use Rattle.shunt_recount.specs.defs.Moments.{IsRank, IsStop, AreMoments, AreKnown, IsValue};
ghost use Rattle.shunt_recount.specs.defs.Moments.{fixed_of, free_of, events_of};
ghost use Rattle.shunt_recount.specs.defs.Places.{IsBeside, IsPlaceAt, Surround, IsPast, IsInPlace};

use crate::known::{Known, PartEnd, found};
use crate::moments::{Moments, Stop, rank, stop_of};
use crate::tables::Table;
use crate::values::value;
use crate::visits::Visit;
use shunt_stacks::laws::nests;
use std::alloc::{AllocError, Global};

/// The events from x on, where so many of the listed ones have passed, and before an end, with the room that is left there.
#[derive(Clone, Copy, Drop)]
pub(crate) struct Place {
    pub x: u32,
    pub passed: usize,
    pub key: PartEnd,
}

/// Where one comes by a fixed visit at the start of a place: behind it where it is gone by an event, and inside it where it stands there.
/// None where it doesn't go, or the event is one of its own.
fn past_stop(place: Place, stop: Stop, at: u32) -> Option<Place>
    ensures { IfSome result (IsPast at place stop) }
{
    let visit = stop.visit;
    if visit.gone > place.key.end || visit.length > place.key.room {
        return None;
    }
    if visit.gone <= at {
        return Some(Place {
            x: visit.gone,
            passed: stop.gone,
            key: place.key,
        });
    }
    if visit.inside > at || visit.until <= at {
        return None;
    }
    let key = PartEnd {
        end: visit.until,
        top: stop.until,
        room: place.key.room - visit.length,
    };
    Some(Place {
        x: visit.inside,
        passed: stop.inside,
        key,
    })
}

/// The next place on the way to an event. None where a fixed visit doesn't go, or a free one comes before the event.
fn next_place(moments: &Moments, place: Place, at: u32, last: usize) -> Option<Place>
    requires moments { AreMoments moments.now }
    requires place { IsPlaceAt moments.now at place }
    requires last { IsRank (events_of moments.now) at last }
    requires before { place.passed < last }
    ensures later { IfSome result (λ q. place.passed < q.passed) }
    ensures there { IfSome result (IsPlaceAt moments.now at) }
    ensures leads { (room : ℕ) → Surround moments.now room at place
        → IfSome result (Surround moments.now room at) }
{
    nests();
    let moment = &moments.list[place.passed];
    if !moment.is_fixed {
        return None;
    }
    let stop = moment.stops.first()?;
    past_stop(place, *stop, at)
}

/// The place that an event begins, up to where the fixed visits stand that stand there. None where one doesn't go, or a free one comes before
/// the event.
fn place_at(moments: &Moments, at: u32, last: usize, room: u32) -> Option<Place>
    requires moments { AreMoments moments.now }
    requires last { IsRank (events_of moments.now) at last }
    requires within { at < moments.now.end }
    ensures there { IfSome result (IsPlaceAt moments.now at) }
    ensures begins { IfSome result (λ p. p.passed ≡ last) }
    ensures surround { IfSome result (Surround moments.now room at) }
{
    let key = PartEnd {
        end: moments.end,
        top: moments.events.len(),
        room,
    };
    let mut place = Place {
        x: 0,
        passed: 0,
        key,
    };
    'places: while place.passed < last {
        place = next_place(moments, place, at, last)?;
    }
    Some(place)
}

/// What is gained with a visit more that gains nothing, by what is gained over all events, at its place without it, inside it and behind it.
fn in_place(
    whole: i64,
    without: Option<i64>,
    inside: Option<i64>,
    behind: Option<i64>,
) -> Option<i64>
    requires whole { IsWithin 2560000000000000 whole }
    requires without { IfSome without (IsWithin 2560000000000000) }
    requires inside { IfSome inside (IsWithin 2560000000000000) }
    requires behind { IfSome behind (IsWithin 2560000000000000) }
    ensures exact { IfSome result (IsInPlace (Some whole) without inside behind) }
    ensures small { IfSome result (IsWithin 10240000000000000) }
{
    let without = without?;
    let inside = inside?;
    let behind = behind?;
    Some(whole - without + (inside + behind))
}

/// The greatest gain from where so many listed events have passed on and before an end: where it isn't known, it is found by itself.
fn gain_from(
    alloc: Global,
    moments: &Moments,
    known: &Known,
    passed: usize,
    key: PartEnd,
) -> Result<Option<i64>, AllocError>
    requires moments { AreMoments moments.now }
    requires known { AreKnown moments.now known.now }
    requires end { key.end ≤ moments.now.end }
    requires top { IsRank (events_of moments.now) key.end key.top }
    requires passed { passed ≤ key.top }
    ensures { IfOk result (IsValue moments.now passed key.end key.room) }
{
    if let Some(gain) = found(known, key.top - passed, key) {
        return Ok(gain);
    }
    let mut fresh = Known::new(alloc)?;
    value(moments, &mut fresh, passed, key)
}

/// What is gained with a stop more at its place. None where it doesn't go there.
fn gain_there(
    alloc: Global,
    moments: &Moments,
    known: &Known,
    place: Place,
    own: Stop,
    whole: i64,
) -> Result<Option<i64>, AllocError>
    requires moments { AreMoments moments.now }
    requires known { AreKnown moments.now known.now }
    requires place { IsPlaceAt moments.now own.visit.comes place }
    requires ranks { IsStop (events_of moments.now) own }
    requires span { IsSpan (span_of own.visit) }
    requires bare { own.visit.gain ≡ pos 0 }
    requires whole { IsWithin 2560000000000000 whole }
    ensures exact { (room : ℕ) → IsBest (fixed_of moments.now) (free_of moments.now) 0
        moments.now.end room (Some whole) → IsRank (events_of moments.now) own.visit.comes
        place.passed → Surround moments.now room own.visit.comes place → (others more : List Span)
        → IsBeside (fixed_of moments.now) (free_of moments.now) others more (span_of own.visit)
        → IfOk result (λ g. IfSome g
        (λ z. best moments.now.end others more 0 moments.now.end room ≡ Some z)) }
    ensures small { IfOk result (λ g. IfSome g (IsWithin 10240000000000000)) }
{
    nests();
    if own.visit.gone > place.key.end || own.visit.length > place.key.room {
        return Ok(None);
    }
    let within = PartEnd {
        end: own.visit.until,
        top: own.until,
        room: place.key.room - own.visit.length,
    };
    let without = gain_from(alloc, moments, known, place.passed, place.key)?;
    let inside = gain_from(alloc, moments, known, own.inside, within)?;
    let behind = gain_from(alloc, moments, known, own.gone, place.key)?;
    Ok(in_place(whole, without, inside, behind))
}

/// The greatest gain over all events with a visit more that gains nothing, by the table of the gains without it, of which the greatest is
/// given. None where the visit doesn't go, or a free one comes before it. Err is want of memory.
pub(crate) fn gain_beside(
    alloc: Global,
    table: &Table,
    own: Visit,
    room: u32,
    whole: i64,
) -> Result<Option<i64>, AllocError>
    requires moments { AreMoments table.now.moments }
    requires known { AreKnown table.now.moments table.now.known }
    requires span { IsSpan (span_of own) }
    requires bare { own.gain ≡ pos 0 }
    requires comes { own.comes < table.now.moments.end }
    requires whole { IsBest (fixed_of table.now.moments) (free_of table.now.moments) 0
        table.now.moments.end room (Some whole) }
    requires small { IsWithin 2560000000000000 whole }
    ensures exact { (others more : List Span) → IsBeside (fixed_of table.now.moments)
        (free_of table.now.moments) others more (span_of own) → IfOk result (λ g. IfSome g
        (λ z. best table.now.moments.end others more 0 table.now.moments.end room ≡ Some z)) }
    ensures small { IfOk result (λ g. IfSome g (IsWithin 10240000000000000)) }
{
    let moments = &table.moments;
    let stop = stop_of(&moments.events, own);
    let at = stop.visit.comes;
    let last = rank(&moments.events, at);
    let Some(place) = place_at(moments, at, last, room) else {
        return Ok(None);
    };
    gain_there(alloc, moments, &table.known, place, stop, whole)
}
