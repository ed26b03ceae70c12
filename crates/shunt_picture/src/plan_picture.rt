// The picture of a plan.
ghost use Rattle.std.specs.Prelude.{◌≡◌, ◌≤◌, ◌<◌, ◌*◌, ◌+◌, max, All, map, length, IfOk};
ghost use Rattle.std.specs.List.{range_with_len};
ghost use Rattle.shunt_instance.specs.defs.Words.{train_at, is_standing};
ghost use Rattle.shunt_blocks.specs.defs.Lists.{AreInRange};
ghost use Rattle.shunt_plan.specs.defs.Plans.{IsPlanInRange};
ghost use Rattle.shunt_picture.specs.defs.Lanes.{IsLaneOf};
ghost use Rattle.shunt_picture.specs.defs.Pictures.{kind_of, earlier, first_move, shown_from};
ghost use Rattle.shunt_picture.specs.defs.Pictures.{first_hour, last_hour, IsPictureOf};
ghost use Rattle.shunt_picture.specs.defs.Layouts.{kind_width, loose_width, columns_of, lines_high};
ghost use Rattle.shunt_picture.specs.defs.Layouts.{lane_high, end_of, AreStacked, IsLaidOut};
ghost use Rattle.shunt_picture.specs.defs.Layouts.{IsInside};
ghost use Rattle.shunt_picture.specs.defs.Svg.{wide};
ghost use Rattle.shunt_picture.specs.defs.PictureTexts.{right_of, bars_note, marks_note};

use crate::lanes::lane_of;
use crate::marks::{arrive_marks, depart_marks, far_end, rows_high, stands, train_rows};
use crate::picture_texts::{bars_note, marks_note, right_of, title_words};
use crate::records::{Lane, LegendType, Loose, Picture, TrainMark};
use crate::svg::wide;
use crate::told::looses_of;
use crate::words::kind_words;
use shunt_audit::audit;
use shunt_audit::types::Finding;
use shunt_base::{ArrId, DepId, TrackId, copy_name};
use shunt_blocks::Block;
use shunt_instance::{Instance, Train, UnitType};
use shunt_lists::Items;
use shunt_plan::Plan;
use std::alloc::{AllocError, Global};

fn kind_of(alloc: Global, kind: &UnitType) -> Result<LegendType, AllocError>
    ensures { IfOk result (λ k. k ≡ kind_of kind.now) }
{
    let name = copy_name(alloc, &kind.name)?;
    let words = kind_words(alloc, &kind.name, kind.length)?;
    Ok(LegendType {
        name,
        length: kind.length,
        words: Items::from_vec(words),
    })
}

fn kinds_of(alloc: Global, types: &[UnitType]) -> Result<Vec<LegendType>, AllocError>
    ensures { IfOk result (λ v. v.items ≡ map kind_of types.now) }
{
    let mut kinds = Vec::new(alloc);
    for kind in types {
        let shown = kind_of(alloc, kind)?;
        kinds.push(shown)?;
    }
    Ok(kinds)
}

// The lesser of a minute and that of a train that doesn't stand.
fn earlier(minute: u16, train: &Train) -> u16
    ensures exact { result ≡ earlier minute train.now }
    ensures less { result ≤ minute }
{
    if stands(train) {
        minute
    } else {
        train.minute.number().min(minute)
    }
}

// The first minute in which an arriving train moves, or 47:00.
fn first_arrive(instance: &Instance) -> u16
    ensures exact { result ≡ first_move instance.now.arrive }
    ensures small { result ≤ 2820 }
{
    let mut first = 2820;
    for k in 0..instance.arrivals() as u8 {
        first = earlier(first, instance.arrive(ArrId(k)));
    }
    first
}

// The same of departing trains.
fn first_depart(instance: &Instance) -> u16
    ensures exact { result ≡ first_move instance.now.depart }
    ensures small { result ≤ 2820 }
{
    let mut first = 2820;
    for k in 0..instance.departures() as u8 {
        first = earlier(first, instance.depart(DepId(k)));
    }
    first
}

// The minute of an arriving train, or 0 where there is none with this number.
fn arrive_minute(instance: &Instance, train: usize) -> u16
    ensures value { result ≡ (train_at instance.now.arrive train).minute }
    ensures small { result < 2880 }
{
    if train < instance.arrivals() {
        instance.arrive(ArrId(train as u8)).minute.number()
    } else {
        0
    }
}

fn depart_minute(instance: &Instance, train: usize) -> u16
    ensures value { result ≡ (train_at instance.now.depart train).minute }
    ensures small { result < 2880 }
{
    if train < instance.departures() {
        instance.depart(DepId(train as u8)).minute.number()
    } else {
        0
    }
}

// Whether a train stands on a track when the night begins: those that do come first.
fn any_stands(instance: &Instance) -> bool
    ensures { result ≡ is_standing (train_at instance.now.arrive 0) }
{
    if instance.arrivals() == 0 {
        return false;
    }
    stands(instance.arrive(ArrId(0)))
}

// From when on a night is shown: with trains that stand already an hour before its first move.
fn shown_from(stands: bool, first: u16) -> u16
    ensures exact { result ≡ shown_from stands first }
    ensures less { result ≤ first }
{
    if stands {
        first.saturating_sub(60)
    } else {
        first
    }
}

// The hour of that minute.
fn first_hour(instance: &Instance) -> u16
    ensures exact { result ≡ first_hour instance.now }
    ensures small { result < 48 }
{
    let first = first_arrive(instance).min(first_depart(instance));
    shown_from(any_stands(instance), first) / 60
}

// The hour after the last train.
fn last_hour(instance: &Instance) -> u16
    ensures exact { result ≡ last_hour instance.now }
    ensures small { result ≤ 48 }
{
    let arrive = arrive_minute(instance, instance.arrivals().saturating_sub(1));
    let depart = depart_minute(instance, instance.departures().saturating_sub(1));
    let last = arrive.max(depart);
    (last / 60 + 1).max(first_hour(instance) + 1)
}

// How high a lane is, in pixels.
fn height_of(lane: &Lane) -> u32
    ensures { result ≡ lane_high lane.now }
{
    16 * (u32::from(lane.last.saturating_sub(lane.first)) + 1) + 34
}

// Lanes, and where the last of them ends.
#[derive(Drop)]
struct LaneStack {
    lanes: Vec<Lane>,
    bottom: u32,
}

// The lanes of all tracks, one below the other from a place on.
fn lanes_of(
    alloc: Global,
    instance: &Instance,
    findings: &[Finding],
    blocks: &[Block],
    from: u16,
    to: u16,
    top: u32,
) -> Result<LaneStack, AllocError>
    requires blocks { AreInRange instance.now blocks.now }
    requires top { top ≤ 4000000 }
    ensures tracks { IfOk result (λ s. map (λ l. l.track.0) s.lanes.items
        ≡ range_with_len 0 (length instance.now.station.tracks)) }
    ensures lanes { IfOk result
        (λ s. All (IsLaneOf instance.now findings.now blocks.now from to) s.lanes.items) }
    ensures stacked { IfOk result (λ s. AreStacked top s.lanes.items s.bottom) }
    ensures high { IfOk result (λ s. s.bottom ≤ 8000000) }
{
    let mut lanes = Vec::new(alloc);
    let mut bottom = top;
    for track in 0..instance.station().tracks.len() as u8 {
        let lane = lane_of(
            alloc,
            instance,
            findings,
            blocks,
            TrackId(track),
            from,
            to,
            bottom,
        )?;
        bottom += height_of(&lane);
        lanes.push(lane)?;
    }
    Ok(LaneStack { lanes, bottom })
}

// How many entries for which there is so much room a line has.
fn columns_of(from: u16, to: u16, room: u32) -> u32
    ensures { result ≡ columns_of from to room }
{
    ((144 + 120 * u32::from(to.saturating_sub(from))) / room.max(1)).max(1)
}

// The greater one of a room and that for the entry of a type.
fn with_kind(room: u32, kind: &LegendType) -> u32
    ensures exact { result ≡ max (kind_width kind.now) room }
    ensures small { room ≤ 4000 → result ≤ 4000 }
{
    (38 + wide(7, kind.words.as_slice()) as u32).max(room)
}

// The same for a loose block.
fn with_loose(room: u32, loose: &Loose) -> u32
    ensures exact { result ≡ max (loose_width loose.now) room }
    ensures small { room ≤ 4000 → result ≤ 4000 }
{
    let marks = wide(7, loose.marks.as_slice()) as u32;
    (29 + marks + wide(7, loose.words.as_slice()) as u32).max(room)
}

// Room for the entry of each of these types.
fn kinds_room(kinds: &[LegendType]) -> u32
    ensures each { All (λ k. kind_width k ≤ result) kinds.now }
    ensures small { result ≤ 4000 }
{
    let mut room = 1;
    for kind in kinds {
        room = with_kind(room, kind);
    }
    room
}

// Room for the entry of each of these blocks.
fn looses_room(looses: &[Loose]) -> u32
    ensures each { All (λ l. loose_width l ≤ result) looses.now }
    ensures small { result ≤ 4000 }
{
    let mut room = 1;
    for loose in looses {
        room = with_loose(room, loose);
    }
    room
}

// Where that many entries end, each with its room.
fn lines_end(room: u32, columns: u32) -> u64
    ensures { result ≡ 6 + room * columns }
{
    6 + u64::from(room) * u64::from(columns)
}

// Where the title and the notes end, or another place where that is further.
fn words_end(title: &[u8], least: u64) -> u64
    ensures least { least ≤ result }
    ensures title { 6 + wide 9 title.now ≤ result }
    ensures bars { 6 + wide 6 bars_note ≤ result }
    ensures marks { 6 + wide 6 marks_note ≤ result }
{
    let title = 6 + wide(9, title);
    let notes = (6 + wide(6, bars_note())).max(6 + wide(6, marks_note()));
    title.max(notes).max(least)
}

// How high that many entries are, in lines of that many.
fn lines_high(entries: usize, columns: u32) -> u32
    ensures exact { result ≡ lines_high entries columns }
    ensures small { result ≤ 65552 }
{
    let entries = entries.min(4096) as u32;
    16 * (entries / columns.max(1) + 1)
}

// The furthest of three places.
fn furthest(first: u64, second: u64, third: u64) -> u64
    ensures first { first ≤ result }
    ensures second { second ≤ result }
    ensures third { third ≤ result }
{
    first.max(second).max(third)
}

// Where the words of all trains end, or another place where that is further.
fn trains_end(from: u16, arrive: &[TrainMark], depart: &[TrainMark], least: u64) -> u64
    ensures least { least ≤ result }
    ensures arrive { All (λ t. end_of from t ≤ result) arrive.now }
    ensures depart { All (λ t. end_of from t ≤ result) depart.now }
{
    far_end(from, depart, far_end(from, arrive, least))
}

/// The picture of a plan in range.
///
/// Each stay has exactly one bar, on its track and from the minute of its entry to that of its leave. No two bars of a row overlap. Where
/// the plan has no finding, rows show who stands in front of whom: a block that enters while another one stands has a row nearer the
/// end by which it enters, and the lanes' rows go from the A end down to the B end. Bars and loose blocks have the numbers 5 to 10 of
/// the audit's findings that name them, and no others; trains have the places of their units and positions that are bare or in two
/// blocks. The line of a track's load has the load at each minute at which a block comes or goes. The parts stand one below the other,
/// the words of trains in one row don't meet, nor those of bars, and nothing is cut off. The error is want of memory.
pub fn picture(alloc: Global, instance: &Instance, plan: &Plan) -> Result<Picture, AllocError>
    requires { IsPlanInRange instance.now plan.now }
    ensures plan { IfOk result (λ p. IsPictureOf instance.now plan.now p) }
    ensures layout { IfOk result (λ p. IsLaidOut p) }
    ensures inside { IfOk result (λ p. IsInside p) }
{
    let audit = audit(alloc, instance, plan)?;
    let findings = audit.findings.as_slice();
    let blocks = plan.blocks.as_slice();
    let station = instance.station();
    let from = first_hour(instance);
    let to = last_hour(instance);
    let kinds = kinds_of(alloc, station.types.as_slice())?;
    let arrive = arrive_marks(alloc, instance, findings)?;
    let depart = depart_marks(alloc, instance, findings)?;
    let arrive_rows = train_rows(alloc, from, &arrive)?;
    let depart_rows = train_rows(alloc, from, &depart)?;
    let kind_room = kinds_room(&kinds);
    let kind_columns = columns_of(from, to, kind_room);
    let arrive_top = 64 + lines_high(kinds.len(), kind_columns);
    let depart_top = arrive_top + rows_high(&arrive_rows) + 8;
    let lanes_top = depart_top + rows_high(&depart_rows) + 22;
    let stack = lanes_of(
        alloc,
        instance,
        findings,
        blocks,
        60 * from,
        60 * to,
        lanes_top,
    )?;
    let loose = looses_of(alloc, instance, findings, blocks)?;
    let loose_room = looses_room(&loose);
    let loose_columns = columns_of(from, to, loose_room);
    let height = stack.bottom + lines_high(loose.len(), loose_columns) + 40;
    let title = title_words(
        alloc,
        &station.name,
        findings.len() as u64,
        audit.cost,
        plan.cost,
    )?;
    let right = right_of(from, to);
    let kinds_end = lines_end(kind_room, kind_columns);
    let looses_end = lines_end(loose_room, loose_columns);
    let least = words_end(&title, furthest(right, kinds_end, looses_end));
    let width = trains_end(from, &arrive, &depart, least);
    let name = copy_name(alloc, &station.name)?;
    Ok(Picture {
        station: name,
        kinds: Items::from_vec(kinds),
        from,
        to,
        findings: findings.len() as u64,
        cost: audit.cost,
        stated: plan.cost,
        arrive: Items::from_vec(arrive),
        arrive_rows: Items::from_vec(arrive_rows),
        depart: Items::from_vec(depart),
        depart_rows: Items::from_vec(depart_rows),
        lanes: Items::from_vec(stack.lanes),
        loose: Items::from_vec(loose),
        kind_room,
        kind_columns,
        loose_room,
        loose_columns,
        arrive_top,
        depart_top,
        lanes_top,
        loose_top: stack.bottom,
        width,
        height,
    })
}
