// What is told of blocks.
ghost use Rattle.std.specs.Prelude.{◌≡◌, ◌++◌, ◌∷◌, [], IfOk, OnOk, All, if◌then◌else◌};
ghost use Rattle.shunt_blocks.specs.defs.Shapes.{IsWithinTrains, IsOnTrack, IsInRange};
ghost use Rattle.shunt_picture.specs.defs.Told.{kinds_of, names, is_marked, faults_of, told_of};
ghost use Rattle.shunt_picture.specs.defs.Told.{track_name, track_words, loose_words, loose_of};
ghost use Rattle.shunt_picture.specs.defs.Told.{loose_with, loose_at, looses_of};

use crate::records::{Loose, Told};
use crate::words::{faults_words, push_label, push_time};
use shunt_audit::types::Finding;
use shunt_base::{Minute, Name, TypeId, copy_name};
use shunt_blocks::{Block, Park, block_cost, block_length, stay};
use shunt_instance::Instance;
use shunt_lists::Items;
use shunt_text::Text;
use std::alloc::{AllocError, Global};

// The types of the units.
fn kinds_of(alloc: Global, instance: &Instance, block: &Block) -> Result<Vec<TypeId>, AllocError>
    requires { IsWithinTrains instance.now block.now }
    ensures { IfOk result (λ v. v.items ≡ kinds_of instance.now block.now) }
{
    let from = usize::from(block.p - 1);
    let count = usize::from(block.n);
    let units = instance.arrive(block.arr).units.as_slice();
    Vec::from_slice(alloc, &units[from..from + count])
}

// Whether a finding is of a kind and names a block.
fn names(finding: &Finding, kind: u8, id: u32) -> bool
    ensures { result ≡ names kind id finding.now }
{
    match *finding {
        Finding::WrongType(other) => kind == 5 && other == id,
        Finding::TooSoon(other) => kind == 6 && other == id,
        Finding::NoRouteIn(other) => kind == 7 && other == id,
        Finding::NoRouteOut(other) => kind == 8 && other == id,
        Finding::Crossing(first, second) => kind == 9 && (first == id || second == id),
        Finding::TooLong(other, _) => kind == 10 && other == id,
        _ => false,
    }
}

fn is_marked(findings: &[Finding], id: u32, kind: u8) -> bool
    ensures { result ≡ is_marked findings.now id kind }
{
    findings.iter().any(|finding| names(finding, kind, id))
}

// Adds the number of a kind where a finding of it names a block.
fn note_fault(
    faults: &mut Vec<u8>,
    findings: &[Finding],
    id: u32,
    kind: u8,
) -> Result<(), AllocError>
    ensures { OnOk result (faults.new.items ≡ faults.old.items
        ++ (if is_marked findings.now id kind then kind ∷ [] else [])) }
{
    if is_marked(findings, id, kind) {
        faults.push(kind)?;
    }
    Ok(())
}

// The numbers of the findings that name a block.
fn faults_of(alloc: Global, findings: &[Finding], id: u32) -> Result<Vec<u8>, AllocError>
    ensures { IfOk result (λ v. v.items ≡ faults_of findings.now id) }
{
    let mut faults = Vec::new(alloc);
    for kind in 5..11u8 {
        note_fault(&mut faults, findings, id, kind)?;
    }
    Ok(faults)
}

pub(crate) fn told_of(
    alloc: Global,
    instance: &Instance,
    findings: &[Finding],
    block: &Block,
) -> Result<Told, AllocError>
    requires { IsWithinTrains instance.now block.now }
    ensures { IfOk result (λ t. t ≡ told_of instance.now findings.now block.now) }
{
    let arr = copy_name(alloc, &instance.arrive(block.arr).name)?;
    let dep = copy_name(alloc, &instance.depart(block.dep).name)?;
    let kinds = kinds_of(alloc, instance, block)?;
    let faults = faults_of(alloc, findings, block.id)?;
    Ok(Told {
        id: block.id,
        arr,
        p: block.p,
        dep,
        q: block.q,
        kinds: Items::from_vec(kinds),
        length: block_length(instance, block),
        cost: block_cost(instance, block),
        faults: Items::from_vec(faults),
    })
}

// The name of the track on which a block is parked.
fn track_name(
    alloc: Global,
    instance: &Instance,
    park: Option<Park>,
) -> Result<Option<Name>, AllocError>
    requires { IsOnTrack instance.now.station park }
    ensures { IfOk result (λ n. n ≡ track_name instance.now park) }
{
    match park {
        None => Ok(None),
        Some(park) => {
            let tracks = instance.station().tracks.as_slice();
            let name = copy_name(alloc, &tracks[usize::from(park.track.0)].name)?;
            Ok(Some(name))
        }
    }
}

// Where a loose block is parked.
pub(crate) fn push_track(text: &mut Text, track: &Option<Name>) -> Result<(), AllocError>
    ensures { OnOk result (text.new ≡ text.old ++ track_words track.now) }
{
    match track {
        None => Ok(()),
        Some(name) => {
            text.push(b" on ")?;
            text.push(name.bytes())
        }
    }
}

// A loose block's label, and the minutes of its trains.
#[tactic(auto, unfolding(crate::specs::defs::Told::loose_words))]
fn loose_words(
    alloc: Global,
    told: &Told,
    enter: Minute,
    leave: Minute,
    track: &Option<Name>,
) -> Result<Vec<u8>, AllocError>
    ensures { IfOk result (λ v. v.items ≡ loose_words told.now enter leave track.now) }
{
    let mut text = Text::new(alloc);
    push_label(&mut text, told)?;
    text.push(b" ")?;
    push_time(&mut text, enter.number())?;
    text.push(b" ")?;
    push_time(&mut text, leave.number())?;
    push_track(&mut text, track)?;
    Ok(text.into_bytes())
}

fn loose_with(
    alloc: Global,
    told: Told,
    enter: Minute,
    leave: Minute,
    track: Option<Name>,
) -> Result<Loose, AllocError>
    ensures { IfOk result (λ l. l ≡ loose_with told enter leave track) }
{
    let words = loose_words(alloc, &told, enter, leave, &track)?;
    let marks = faults_words(alloc, told.faults.as_slice())?;
    Ok(Loose {
        told,
        enter,
        leave,
        track,
        words: Items::from_vec(words),
        marks: Items::from_vec(marks),
    })
}

fn loose_of(
    alloc: Global,
    instance: &Instance,
    findings: &[Finding],
    block: &Block,
) -> Result<Loose, AllocError>
    requires { IsWithinTrains instance.now block.now }
    ensures { IfOk result (λ l. l ≡ loose_of instance.now findings.now block.now) }
{
    let told = told_of(alloc, instance, findings, block)?;
    let track = track_name(alloc, instance, block.park)?;
    let enter = instance.arrive(block.arr).minute;
    let leave = instance.depart(block.dep).minute;
    loose_with(alloc, told, enter, leave, track)
}

// Adds a block that has no stay.
fn note_loose(
    looses: &mut Vec<Loose>,
    alloc: Global,
    instance: &Instance,
    findings: &[Finding],
    block: &Block,
) -> Result<(), AllocError>
    requires { IsWithinTrains instance.now block.now }
    ensures { OnOk result
        (looses.new.items ≡ looses.old.items ++ loose_at instance.now findings.now block.now) }
{
    if stay(instance, block).is_some() {
        return Ok(());
    }
    let loose = loose_of(alloc, instance, findings, block)?;
    looses.push(loose)?;
    Ok(())
}

// The blocks that have no stay.
pub(crate) fn looses_of(
    alloc: Global,
    instance: &Instance,
    findings: &[Finding],
    blocks: &[Block],
) -> Result<Vec<Loose>, AllocError>
    requires { All (IsInRange instance.now) blocks.now }
    ensures { IfOk result (λ v. v.items ≡ looses_of instance.now findings.now blocks.now) }
{
    let mut looses = Vec::new(alloc);
    for block in blocks {
        note_loose(&mut looses, alloc, instance, findings, block)?;
    }
    Ok(looses)
}
