// The greatest gain over the events, row by row.
ghost use Rattle.std.specs.Prelude.{◌≡◌, ℕ, ◌+◌, ◌-◌, ◌<◌, ◌≤◌, map, length, IfOk, IfSome, Some};
ghost use Rattle.std.specs.Prelude.{None, true, false, slice_index_or};
ghost use Rattle.shunt_lists.specs.defs.Members.{In};
ghost use Rattle.shunt_prices.specs.defs.Sums.{IsWithin};
ghost use Rattle.shunt_stacks.specs.defs.Spans.{greater, plus, greatest_of, best, best_with};
ghost use Rattle.shunt_recount.specs.declared.moments.Stop.{Stop as AStop};
ghost use Rattle.shunt_recount.specs.defs.Visits.{span_of};
ghost use Rattle.shunt_recount.specs.defs.Moments.{event_at, IsRank, stop_spans, AreMoments};
ghost use Rattle.shunt_recount.specs.defs.Moments.{fixed_of, free_of, events_of, IsStopAt};
ghost use Rattle.shunt_recount.specs.defs.Moments.{IsValue, AreGains, AreKnown};

use crate::known::{Known, PartEnd, found, remember, taken};
use crate::moments::{Moment, Moments, Stop};
use shunt_stacks::laws::nests;
use std::alloc::AllocError;

/// The greater of two gains, where there are such.
fn greater(one: Option<i64>, other: Option<i64>) -> Option<i64>
    ensures { result ≡ greater one other }
{
    match (one, other) {
        (None, other) => other,
        (Some(x), None) => Some(x),
        (Some(x), Some(y)) => Some(x.max(y)),
    }
}

/// A gain with those inside and behind, where there are both.
fn together(gain: i64, inside: Option<i64>, behind: Option<i64>) -> Option<i64>
    requires gain { IsWithin 16000000000000 gain }
    requires inside { IfSome inside (IsWithin 2560000000000000) }
    requires behind { IfSome behind (IsWithin 2560000000000000) }
    ensures { result ≡ plus (Some gain) (plus inside behind) }
{
    let inside = inside?;
    let behind = behind?;
    Some(gain + (inside + behind))
}

/// The greatest gain before an end with a visit that comes at the next event of a row of gains. None where the visit isn't gone before the
/// end, or is longer than the room.
#[cycle(values)]
fn with_stop(
    moments: &Moments,
    known: &mut Known,
    gains: &[Option<i64>],
    stop: Stop,
    key: PartEnd,
) -> Result<Option<i64>, AllocError>
    requires moments { AreMoments moments.now }
    requires known { AreKnown moments.now known.old }
    requires end { key.end ≤ moments.now.end }
    requires top { IsRank (events_of moments.now) key.end key.top }
    requires some { 1 ≤ length gains.now }
    requires few { length gains.now ≤ key.top }
    requires gains { AreGains moments.now key.end key.room gains.now }
    requires stop { IsStopAt moments.now (key.top - length gains.now) stop }
    ensures known { AreKnown moments.now known.new }
    ensures is { IfOk result (λ g. (n : ℕ) → key.end ≤ stop.visit.comes + n → g ≡ best_with
        (best n (fixed_of moments.now) (free_of moments.now)) key.end key.room
        (span_of stop.visit)) }
{
    let visit = stop.visit;
    if visit.gone > key.end || visit.length > key.room {
        return Ok(None);
    }
    let behind = gains[key.top - stop.gone];
    let within = PartEnd {
        end: visit.until,
        top: stop.until,
        room: key.room - visit.length,
    };
    let inside = value(moments, known, stop.inside, within)?;
    Ok(together(visit.gain, inside, behind))
}

/// The greatest of a gain and those with each of the visits that come at the next event of a row of gains.
#[cycle(values)]
fn greatest(
    moments: &Moments,
    known: &mut Known,
    gains: &[Option<i64>],
    without: Option<i64>,
    stops: &[Stop],
    key: PartEnd,
) -> Result<Option<i64>, AllocError>
    requires moments { AreMoments moments.now }
    requires known { AreKnown moments.now known.old }
    requires end { key.end ≤ moments.now.end }
    requires top { IsRank (events_of moments.now) key.end key.top }
    requires some { 1 ≤ length gains.now }
    requires few { length gains.now ≤ key.top }
    requires gains { AreGains moments.now key.end key.room gains.now }
    requires stops { (s : AStop) → In s stops.now
        → IsStopAt moments.now (key.top - length gains.now) s }
    ensures known { AreKnown moments.now known.new }
    ensures is { IfOk result (λ g. (n : ℕ)
        → key.end ≤ event_at (events_of moments.now) (key.top - length gains.now) + n
        → g ≡ greater without (greatest_of (map (best_with (best n (fixed_of moments.now)
        (free_of moments.now)) key.end key.room) (stop_spans stops.now)))) }
{
    let mut gain = without;
    'stops: for stop in stops {
        gain = greater(gain, with_stop(moments, known, gains, *stop, key)?);
    }
    Ok(gain)
}

/// The greatest gain without a free visit that comes at a moment: that from the event behind it on. None where a fixed one comes.
fn without(moment: &Moment, gains: &[Option<i64>]) -> Option<i64>
    requires { 1 ≤ length gains.now }
    ensures fixed { moment.now.is_fixed ≡ true → result ≡ None }
    ensures free { moment.now.is_fixed ≡ false
        → result ≡ slice_index_or gains.now (length gains.now - 1) None }
{
    if moment.is_fixed {
        return None;
    }
    gains[gains.len() - 1]
}

/// The next gain of a row: nothing at the end itself, and then from the event before it on, from the one before that on, and so on. With the
/// fixed visit that comes at the event, and where none does, with a free one or with none.
#[cycle(values)]
fn next_gain(
    moments: &Moments,
    known: &mut Known,
    gains: &[Option<i64>],
    key: PartEnd,
) -> Result<Option<i64>, AllocError>
    requires moments { AreMoments moments.now }
    requires known { AreKnown moments.now known.old }
    requires end { key.end ≤ moments.now.end }
    requires top { IsRank (events_of moments.now) key.end key.top }
    requires few { length gains.now ≤ key.top }
    requires gains { AreGains moments.now key.end key.room gains.now }
    ensures known { AreKnown moments.now known.new }
    ensures is { IfOk result
        (IsValue moments.now (key.top - length gains.now) key.end key.room) }
{
    nests();
    if gains.is_empty() {
        return Ok(Some(0));
    }
    let moment = &moments.list[key.top - gains.len()];
    greatest(
        moments,
        known,
        gains,
        without(moment, gains),
        &moment.stops,
        key,
    )
}

/// A row of gains that goes on to that many events before its end.
#[cycle(values)]
fn filled(
    moments: &Moments,
    known: &mut Known,
    gains: Vec<Option<i64>>,
    back: usize,
    key: PartEnd,
) -> Result<Vec<Option<i64>>, AllocError>
    requires moments { AreMoments moments.now }
    requires known { AreKnown moments.now known.old }
    requires end { key.end ≤ moments.now.end }
    requires top { IsRank (events_of moments.now) key.end key.top }
    requires back { back ≤ key.top }
    requires gains { AreGains moments.now key.end key.room gains.items }
    ensures known { AreKnown moments.now known.new }
    ensures long { IfOk result (λ v. back < length v.items) }
    ensures gains { IfOk result (λ v. AreGains moments.now key.end key.room v.items) }
{
    let mut gains = gains;
    'gains: while gains.len() <= back {
        let gain = next_gain(moments, known, &gains, key)?;
        gains.push(gain)?;
    }
    Ok(gains)
}

/// The greatest gain from where so many listed events have passed on and before an end, which is found once. None where the fixed visits
/// don't go.
#[cycle(values)]
pub(crate) fn value(
    moments: &Moments,
    known: &mut Known,
    passed: usize,
    key: PartEnd,
) -> Result<Option<i64>, AllocError>
    requires moments { AreMoments moments.now }
    requires known { AreKnown moments.now known.old }
    requires end { key.end ≤ moments.now.end }
    requires top { IsRank (events_of moments.now) key.end key.top }
    requires passed { passed ≤ key.top }
    ensures known { AreKnown moments.now known.new }
    ensures is { IfOk result (IsValue moments.now passed key.end key.room) }
{
    let back = key.top - passed;
    if let Some(gain) = found(known, back, key) {
        return Ok(gain);
    }
    let begun = taken(known, key);
    let gains = filled(moments, known, begun, back, key)?;
    let gain = gains[back];
    remember(known, key, gains)?;
    Ok(gain)
}
