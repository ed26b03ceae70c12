// The trains of a made night.
ghost use Rattle.std.specs.Prelude.{◌≡◌, ℕ, ◌+◌, ◌*◌, ◌%◌, ◌<◌, ◌≤◌, ◌==◌, if◌then◌else◌, IsTrue};
ghost use Rattle.std.specs.Prelude.{length, reverse, IfOk, OnOk};
ghost use Rattle.std.specs.List.{range_with_len};
ghost use Rattle.shunt_base.specs.defs.Spelling.{is_name_byte};
ghost use Rattle.shunt_make.specs.defs.Draws.{next, after, drawn, drawn_for};
ghost use Rattle.shunt_make.specs.defs.Made.{train_count, train_of, size_of, kind_of, arriving_of};
ghost use Rattle.shunt_make.specs.defs.Made.{arriving, turned, departing_of, departing};
ghost use Rattle.shunt_make.specs.defs.Made.{timetable_of};

use crate::draws::Draws;
use crate::stations::numbered_name;
use shunt_base::{Minute, PlatformId, TypeId};
use shunt_instance::{Origin, Timetable, Train};
use shunt_lists::Items;
use std::alloc::{AllocError, Global};

fn minute_of(number: u16) -> Minute
    requires { number < 2880 }
    ensures { result ≡ number }
{
    match Minute::new(number) {
        Some(minute) => minute,
        None => unreachable!(),
    }
}

fn made_train(
    alloc: Global,
    letter: u8,
    first: u16,
    i: u32,
    platform: u8,
    kinds: Vec<TypeId>,
) -> Result<Train, AllocError>
    requires letter { IsTrue (is_name_byte letter) }
    requires first { first ≤ 1740 }
    requires few { i < 80 }
    ensures { IfOk result (λ t. t ≡ train_of letter first i platform kinds.items) }
{
    Ok(Train {
        name: numbered_name(alloc, letter, i + 1)?,
        minute: minute_of(first + 6 * i as u16),
        origin: Origin::Platform(PlatformId(platform)),
        units: Items::from_vec(kinds),
        placed: Items::from_vec(Vec::new(alloc)),
    })
}

fn made_kind(draws: &mut Draws) -> TypeId
    ensures made { result ≡ record { 0 = drawn (next draws.old.state) 3 } }
    ensures state { draws.new.state ≡ next draws.old.state }
{
    TypeId(draws.below(3) as u8)
}

fn made_kinds(alloc: Global, draws: &mut Draws, count: u32) -> Result<Vec<TypeId>, AllocError>
    ensures made { IfOk result
        (λ v. v.items ≡ drawn_for kind_of draws.old.state (range_with_len 0 count)) }
    ensures state { OnOk result (draws.new.state ≡ after draws.old.state count) }
{
    let mut kinds = Vec::new(alloc);
    for _place in 0..count {
        kinds.push(made_kind(draws))?;
    }
    Ok(kinds)
}

fn train_count(units: u32) -> u32
    requires { units ≤ 160 }
    ensures exact { result ≡ train_count units }
    ensures few { result ≤ 80 }
{
    (units + 1) / 2
}

fn size(units: u32, i: u32) -> u32
    requires units { units ≤ 160 }
    requires few { i < 80 }
    ensures { result ≡ size_of units i }
{
    if units % 2 == 1 && i + 1 == train_count(units) {
        1
    } else {
        2
    }
}

fn arriving_train(alloc: Global, draws: &mut Draws, units: u32, i: u32) -> Result<Train, AllocError>
    requires units { units ≤ 160 }
    requires few { i < 80 }
    ensures made { IfOk result
        (λ t. (x : ℕ) → draws.old.state ≡ after x (2 * i) → t ≡ arriving_of x units i) }
    ensures state { OnOk result (draws.new.state ≡ after draws.old.state (size_of units i)) }
{
    let kinds = made_kinds(alloc, draws, size(units, i))?;
    let platform = if i % 2 == 0 { 0 } else { 1 };
    made_train(alloc, b'a', 1200, i, platform, kinds)
}

fn arriving_trains(alloc: Global, draws: &mut Draws, units: u32) -> Result<Vec<Train>, AllocError>
    requires { units ≤ 160 }
    ensures made { IfOk result (λ v. v.items ≡ arriving draws.old.state units) }
    ensures state { OnOk result (draws.new.state ≡ after draws.old.state units) }
{
    let mut trains = Vec::new(alloc);
    for i in 0..train_count(units) {
        trains.push(arriving_train(alloc, draws, units, i)?)?;
    }
    Ok(trains)
}

fn turned_kinds(
    alloc: Global,
    draws: &mut Draws,
    kinds: &[TypeId],
) -> Result<Vec<TypeId>, AllocError>
    ensures made { IfOk result (λ v. v.items ≡ turned (next draws.old.state) kinds.now) }
    ensures state { draws.new.state ≡ next draws.old.state }
{
    if draws.below(2) == 1 {
        kinds.iter().rev().copied().collect(alloc)
    } else {
        kinds.iter().copied().collect(alloc)
    }
}

fn departing_train(
    alloc: Global,
    draws: &mut Draws,
    arrive: &[Train],
    shift: u32,
    i: u32,
) -> Result<Train, AllocError>
    requires few { length arrive.now ≤ 80 }
    requires shift { shift < length arrive.now }
    requires there { i < length arrive.now }
    ensures made { IfOk result (λ t. t ≡ departing_of arrive.now shift i (next draws.old.state)) }
    ensures state { draws.new.state ≡ next draws.old.state }
{
    let like = &arrive[(i + shift) as usize % arrive.len()];
    let kinds = turned_kinds(alloc, draws, like.units.as_slice())?;
    let platform = if i % 2 == 0 { 1 } else { 0 };
    made_train(alloc, b'd', 1740, i, platform, kinds)
}

fn shifted_trains(
    alloc: Global,
    draws: &mut Draws,
    arrive: &[Train],
    shift: u32,
) -> Result<Vec<Train>, AllocError>
    requires few { length arrive.now ≤ 80 }
    requires shift { shift < length arrive.now }
    ensures { IfOk result (λ v. v.items ≡ drawn_for (departing_of arrive.now shift) draws.old.state
        (range_with_len 0 (length arrive.now))) }
{
    let mut trains = Vec::new(alloc);
    for i in 0..arrive.len() {
        trains.push(departing_train(alloc, draws, arrive, shift, i as u32)?)?;
    }
    Ok(trains)
}

fn departing_trains(
    alloc: Global,
    draws: &mut Draws,
    arrive: &[Train],
) -> Result<Vec<Train>, AllocError>
    requires { length arrive.now ≤ 80 }
    ensures { IfOk result (λ v. v.items ≡ departing draws.old.state arrive.now) }
{
    let count = arrive.len() as u32;
    if count == 0 {
        return Ok(Vec::new(alloc));
    }
    let shift = draws.below(count);
    let trains = shifted_trains(alloc, draws, arrive, shift)?;
    Ok(trains)
}

/// The timetable: first its arriving trains are drawn, then its departing ones.
pub(crate) fn made_timetable(
    alloc: Global,
    draws: &mut Draws,
    units: u32,
) -> Result<Timetable, AllocError>
    requires { units ≤ 160 }
    ensures { IfOk result (λ t. t ≡ timetable_of draws.old.state units) }
{
    let arrive = arriving_trains(alloc, draws, units)?;
    let depart = departing_trains(alloc, draws, &arrive)?;
    Ok(Timetable {
        arrive: Items::from_vec(arrive),
        depart: Items::from_vec(depart),
    })
}
