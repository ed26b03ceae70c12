// The trains above the lanes.
ghost use Rattle.std.specs.Prelude.{◌≡◌, ◌≢◌, ℕ, ◌<◌, ◌≤◌, ◌+◌, ◌++◌, ◌∷◌, [], max, All, IfOk};
ghost use Rattle.std.specs.Prelude.{OnOk, map, length, slice_index, if◌then◌else◌};
ghost use Rattle.std.specs.List.{flat_map, range_with_len};
ghost use Rattle.shunt_instance.specs.defs.Wellformed.{IsTrain, IsOrigin};
ghost use Rattle.shunt_picture.specs.defs.Marks.{tells, is_told, places_of, origin_name};
ghost use Rattle.shunt_picture.specs.defs.Marks.{train_words, place_text, places_text};
ghost use Rattle.shunt_picture.specs.defs.Marks.{fault_places, mark_of, train_mark, arrive_mark};
ghost use Rattle.shunt_picture.specs.defs.Marks.{depart_mark};
ghost use Rattle.shunt_picture.specs.defs.Layouts.{trains_high, width_of, end_of, AreTrainRows};
ghost use Rattle.shunt_instance.specs.defs.Words.{is_standing};

use crate::records::TrainMark;
use crate::svg::wide;
use crate::words::{push_letters, x_of};
use shunt_audit::types::Finding;
use shunt_base::{ArrId, DepId, Name, TypeId, copy_name};
use shunt_instance::{Instance, Origin, Train};
use shunt_lists::Items;
use shunt_text::Text;
use std::alloc::{AllocError, Global};

// Whether a finding is of a kind, of 1 to 4, and of the unit or position before the one with a number.
fn tells(finding: &Finding, kind: u8, number: usize) -> bool
    ensures { result ≡ tells kind number finding.now }
{
    match *finding {
        Finding::UnitBare(unit) => kind == 1 && usize::from(unit) + 1 == number,
        Finding::UnitTwice(unit) => kind == 2 && usize::from(unit) + 1 == number,
        Finding::PlaceBare(position) => kind == 3 && usize::from(position) + 1 == number,
        Finding::PlaceTwice(position) => kind == 4 && usize::from(position) + 1 == number,
        _ => false,
    }
}

fn is_told(findings: &[Finding], kind: u8, number: usize) -> bool
    ensures { result ≡ is_told findings.now kind number }
{
    findings.iter().any(|finding| tells(finding, kind, number))
}

// Adds a place of a train, whose first unit has a number, where a finding of a kind is of it.
fn note_place(
    places: &mut Vec<u8>,
    findings: &[Finding],
    kind: u8,
    first: usize,
    place: u8,
) -> Result<(), AllocError>
    requires { first ≤ 160 }
    ensures { OnOk result (places.new.items ≡ places.old.items
        ++ (if is_told findings.now kind (first + place) then place ∷ [] else [])) }
{
    if is_told(findings, kind, first + usize::from(place)) {
        places.push(place)?;
    }
    Ok(())
}

// The places of a train with that many units, whose first one has a number, that findings of a kind are of.
fn places_of(
    alloc: Global,
    findings: &[Finding],
    kind: u8,
    first: usize,
    count: usize,
) -> Result<Vec<u8>, AllocError>
    requires first { first ≤ 160 }
    requires count { count ≤ 8 }
    ensures { IfOk result (λ v. v.items ≡ places_of findings.now kind first count) }
{
    let mut places = Vec::new(alloc);
    for place in 1..count as u8 + 1 {
        note_place(&mut places, findings, kind, first, place)?;
    }
    Ok(places)
}

// The name of a platform or a track.
fn origin_name(instance: &Instance, origin: Origin) -> &Name
    requires { IsOrigin instance.now.station origin }
    ensures { result.now ≡ origin_name instance.now.station origin }
{
    let station = instance.station();
    match origin {
        Origin::Platform(platform) => &station.platforms.as_slice()[usize::from(platform.0)],
        Origin::Track(track) => &station.tracks.as_slice()[usize::from(track.0)].name,
    }
}

// Whether a train stands on a track when the night begins.
pub(crate) fn stands(train: &Train) -> bool
    ensures { result ≡ is_standing train.now }
{
    match train.origin {
        Origin::Platform(_) => false,
        Origin::Track(_) => true,
    }
}

// A train's name, where it comes from or goes to, and its types.
#[tactic(auto, unfolding(crate::specs::defs::Marks::train_words))]
fn train_words(
    alloc: Global,
    name: &Name,
    place: &Name,
    kinds: &[TypeId],
) -> Result<Vec<u8>, AllocError>
    ensures { IfOk result (λ v. v.items ≡ train_words name.now place.now kinds.now) }
{
    let mut text = Text::new(alloc);
    text.push(name.bytes())?;
    text.push(b" ")?;
    text.push(place.bytes())?;
    text.push(b" ")?;
    push_letters(&mut text, kinds)?;
    Ok(text.into_bytes())
}

#[tactic(auto, unfolding(crate::specs::defs::Marks::place_text))]
fn push_place(text: &mut Text, kind: u8, place: u8) -> Result<(), AllocError>
    ensures { OnOk result (text.new ≡ text.old ++ place_text kind place) }
{
    text.push(b" ")?;
    text.push_number(u64::from(kind))?;
    text.push(b":")?;
    text.push_number(u64::from(place))
}

// Places of units or positions, each with the number of its finding.
fn push_places(text: &mut Text, kind: u8, places: &[u8]) -> Result<(), AllocError>
    ensures { OnOk result (text.new ≡ text.old ++ places_text kind places.now) }
{
    for place in places {
        push_place(text, kind, *place)?;
    }
    Ok(())
}

// The places of what of a train is bare or twice.
#[tactic(auto, unfolding(crate::specs::defs::Marks::fault_places))]
fn fault_places(alloc: Global, kind: u8, bare: &[u8], twice: &[u8]) -> Result<Vec<u8>, AllocError>
    requires { kind ≤ 3 }
    ensures { IfOk result (λ v. v.items ≡ fault_places kind bare.now twice.now) }
{
    let mut text = Text::new(alloc);
    push_places(&mut text, kind, bare)?;
    push_places(&mut text, kind + 1, twice)?;
    Ok(text.into_bytes())
}

// A train with the name of its platform or track, and with the places that findings of a kind and of the next one tell of.
fn mark_of(
    alloc: Global,
    train: &Train,
    place: Name,
    kind: u8,
    bare: Vec<u8>,
    twice: Vec<u8>,
) -> Result<TrainMark, AllocError>
    requires { kind ≤ 3 }
    ensures { IfOk result (λ m. m ≡ mark_of train.now place kind bare.items twice.items) }
{
    let name = copy_name(alloc, &train.name)?;
    let kinds = Vec::from_slice(alloc, train.units.as_slice())?;
    let words = train_words(alloc, &train.name, &place, train.units.as_slice())?;
    let marks = fault_places(alloc, kind, &bare, &twice)?;
    Ok(TrainMark {
        name,
        place,
        stands: stands(train),
        minute: train.minute,
        kinds: Items::from_vec(kinds),
        bare: Items::from_vec(bare),
        twice: Items::from_vec(twice),
        words: Items::from_vec(words),
        marks: Items::from_vec(marks),
    })
}

// A train whose first unit or position has a number. Findings of the first kind say what is bare, and those of the next one what is
// twice.
fn train_mark(
    alloc: Global,
    instance: &Instance,
    findings: &[Finding],
    train: &Train,
    kind: u8,
    first: usize,
) -> Result<TrainMark, AllocError>
    requires train { IsTrain instance.now.station train.now }
    requires kind { kind ≤ 3 }
    requires first { first ≤ 160 }
    ensures { IfOk result
        (λ m. m ≡ train_mark instance.now.station findings.now train.now kind first) }
{
    let count = train.units.len();
    let place = copy_name(alloc, origin_name(instance, train.origin))?;
    let bare = places_of(alloc, findings, kind, first, count)?;
    let twice = places_of(alloc, findings, kind + 1, first, count)?;
    mark_of(alloc, train, place, kind, bare, twice)
}

fn arrive_mark(
    alloc: Global,
    instance: &Instance,
    findings: &[Finding],
    k: u8,
) -> Result<TrainMark, AllocError>
    requires { k < length instance.now.arrive }
    ensures { IfOk result (λ m. m ≡ arrive_mark instance.now findings.now k) }
{
    let first = instance.first_unit(ArrId(k));
    let train = instance.arrive(ArrId(k));
    train_mark(alloc, instance, findings, train, 1, first)
}

fn depart_mark(
    alloc: Global,
    instance: &Instance,
    findings: &[Finding],
    k: u8,
) -> Result<TrainMark, AllocError>
    requires { k < length instance.now.depart }
    ensures { IfOk result (λ m. m ≡ depart_mark instance.now findings.now k) }
{
    let first = instance.first_position(DepId(k));
    let train = instance.depart(DepId(k));
    train_mark(alloc, instance, findings, train, 3, first)
}

pub(crate) fn arrive_marks(
    alloc: Global,
    instance: &Instance,
    findings: &[Finding],
) -> Result<Vec<TrainMark>, AllocError>
    ensures exact { IfOk result (λ v. v.items ≡ map (arrive_mark instance.now findings.now)
        (range_with_len 0 (length instance.now.arrive))) }
    ensures few { IfOk result (λ v. length v.items ≤ 100) }
{
    let mut marks = Vec::new(alloc);
    for k in 0..instance.arrivals() as u8 {
        let mark = arrive_mark(alloc, instance, findings, k)?;
        marks.push(mark)?;
    }
    Ok(marks)
}

pub(crate) fn depart_marks(
    alloc: Global,
    instance: &Instance,
    findings: &[Finding],
) -> Result<Vec<TrainMark>, AllocError>
    ensures exact { IfOk result (λ v. v.items ≡ map (depart_mark instance.now findings.now)
        (range_with_len 0 (length instance.now.depart))) }
    ensures few { IfOk result (λ v. length v.items ≤ 100) }
{
    let mut marks = Vec::new(alloc);
    for k in 0..instance.departures() as u8 {
        let mark = depart_mark(alloc, instance, findings, k)?;
        marks.push(mark)?;
    }
    Ok(marks)
}

// How wide a train is drawn, in pixels.
fn width_of(train: &TrainMark) -> u64
    ensures exact { result ≡ width_of train.now }
    ensures small { result ≤ 10000 }
{
    10 + wide(7, train.words.as_slice()) + wide(7, train.marks.as_slice())
}

// Where its words end.
fn end_of(from: u16, train: &TrainMark) -> u64
    ensures exact { result ≡ end_of from train.now }
    ensures small { result ≤ 200000 }
{
    x_of(from, train.minute.number()) + width_of(train)
}

// The further one of a place and where a train's words end.
fn farther(from: u16, train: &TrainMark, far: u64) -> u64
    ensures { result ≡ max (end_of from train.now) far }
{
    end_of(from, train).max(far)
}

// Where the words of these trains end, or another place where that is further.
pub(crate) fn far_end(from: u16, trains: &[TrainMark], least: u64) -> u64
    ensures least { least ≤ result }
    ensures trains { All (λ t. end_of from t ≤ result) trains.now }
{
    let mut far = least;
    for train in trains {
        far = farther(from, train, far);
    }
    far
}

// The first of the rows whose words end before a place, or one more.
fn row_from(ends: &[u64], x: u64) -> usize
    ensures within { result ≤ length ends.now }
    ensures free { result < length ends.now → slice_index ends.now result ≤ x }
{
    for i in 0..ends.len() {
        if ends[i] <= x {
            return i;
        }
    }
    ends.len()
}

// Notes where the words of a row end, or of one more.
fn note_end(ends: &mut Vec<u64>, row: usize, end: u64) -> Result<(), AllocError>
    requires { row ≤ length ends.old.items }
    ensures within { OnOk result (row < length ends.new.items) }
    ensures longer { OnOk result (length ends.old.items ≤ length ends.new.items) }
    ensures few { OnOk result (length ends.new.items ≤ length ends.old.items + 1) }
    ensures here { OnOk result (slice_index ends.new.items row ≡ end) }
    ensures others { OnOk result ((k : ℕ) → k < length ends.old.items → k ≢ row
        → slice_index ends.new.items k ≡ slice_index ends.old.items k) }
{
    if row < ends.len() {
        ends[row] = end;
        return Ok(());
    }
    ends.push(end)?;
    Ok(())
}

// A row for each train, the first one in which its words have room.
pub(crate) fn train_rows(
    alloc: Global,
    from: u16,
    trains: &[TrainMark],
) -> Result<Vec<u16>, AllocError>
    requires { length trains.now ≤ 100 }
    ensures { IfOk result (λ v. AreTrainRows from trains.now v.items) }
{
    let mut rows = Vec::new(alloc);
    let mut ends = Vec::new(alloc);
    for train in trains {
        let x = x_of(from, train.minute.number());
        let end = end_of(from, train);
        let row = row_from(&ends, x);
        note_end(&mut ends, row, end)?;
        rows.push(row as u16)?;
    }
    Ok(rows)
}

// How high these rows are together, in pixels.
pub(crate) fn rows_high(rows: &[u16]) -> u32
    ensures exact { result ≡ trains_high rows.now }
    ensures small { result ≤ 800000 }
{
    let mut last = 0;
    for row in rows {
        last = last.max(u32::from(*row));
    }
    12 * (last + 1)
}
