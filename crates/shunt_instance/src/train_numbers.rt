// Trains in their order, and the numbers of their units and positions.
ghost use Rattle.std.specs.Prelude.{◌≡◌, ◌<◌, ◌≤◌, ◌++◌, map, length, All, IfOk, OnOk};
ghost use Rattle.shunt_instance.specs.defs.Words.{minute_at, turn_of};
ghost use Rattle.shunt_instance.specs.defs.Wellformed.{IsStation, AreTrains};
ghost use Rattle.shunt_instance.specs.defs.Instance.{sort_by_minute, numbered_from, make_unit};
ghost use Rattle.shunt_instance.specs.defs.Instance.{make_position, units_of, positions_of};
ghost use Rattle.shunt_instance.specs.defs.Instance.{ready_of, leaves_of};
ghost use Rattle.shunt_instance.specs.defs.Tables.{AreFirsts};

use crate::records::{Position, Station, Train, Unit};
use shunt_base::{ArrId, DepId, Minute, TypeId};
use shunt_lists::Items;
use std::alloc::{AllocError, Global};

/// These trains by minute, and those of one minute in the order in which they came.
pub(crate) fn sorted(trains: Items<Train>) -> Result<Vec<Train>, AllocError>
    ensures { IfOk result (λ v. v.items ≡ sort_by_minute trains) }
{
    let mut trains = trains.into_vec();
    trains.sort_by_key(|t| t.minute.number())?;
    Ok(trains)
}

fn push_units(units: &mut Vec<Unit>, train: ArrId, kinds: &[TypeId]) -> Result<(), AllocError>
    requires { length kinds.now ≤ 8 }
    ensures { OnOk result
        (units.new.items ≡ units.old.items ++ numbered_from make_unit train.0 1 kinds.now) }
{
    for (i, kind) in kinds.iter().enumerate() {
        units.push(Unit {
            train,
            place: (i + 1) as u8,
            kind: *kind,
        })?;
    }
    Ok(())
}

/// The units of these arriving trains by their numbers.
pub(crate) fn number_units(alloc: Global, trains: &[Train]) -> Result<Vec<Unit>, AllocError>
    requires few { length trains.now ≤ 100 }
    requires short { All (λ t. length t.units ≤ 8) trains.now }
    ensures { IfOk result (λ v. v.items ≡ units_of trains.now) }
{
    let mut units = Vec::new(alloc);
    for (i, train) in trains.iter().enumerate() {
        push_units(&mut units, ArrId(i as u8), train.units.as_slice())?;
    }
    Ok(units)
}

fn push_positions(
    positions: &mut Vec<Position>,
    train: DepId,
    kinds: &[TypeId],
) -> Result<(), AllocError>
    requires { length kinds.now ≤ 8 }
    ensures { OnOk result (positions.new.items ≡ positions.old.items
        ++ numbered_from make_position train.0 1 kinds.now) }
{
    for (i, kind) in kinds.iter().enumerate() {
        positions.push(Position {
            train,
            place: (i + 1) as u8,
            kind: *kind,
        })?;
    }
    Ok(())
}

/// The positions of these departing trains by their numbers.
pub(crate) fn number_positions(alloc: Global, trains: &[Train]) -> Result<Vec<Position>, AllocError>
    requires few { length trains.now ≤ 100 }
    requires short { All (λ t. length t.units ≤ 8) trains.now }
    ensures { IfOk result (λ v. v.items ≡ positions_of trains.now) }
{
    let mut positions = Vec::new(alloc);
    for (i, train) in trains.iter().enumerate() {
        push_positions(&mut positions, DepId(i as u8), train.units.as_slice())?;
    }
    Ok(positions)
}

/// For each train how many units the trains before it have.
pub(crate) fn first_numbers(alloc: Global, trains: &[Train]) -> Result<Vec<usize>, AllocError>
    requires few { length trains.now ≤ 100 }
    requires short { All (λ t. length t.units ≤ 8) trains.now }
    ensures { IfOk result (λ v. AreFirsts trains.now v.items) }
{
    let mut firsts = Vec::new(alloc);
    let mut count: usize = 0;
    for train in trains {
        firsts.push(count)?;
        count += train.units.len();
    }
    Ok(firsts)
}

fn ready_minute(station: &Station, arrive: &[Train], unit: Unit) -> u16
    requires station { IsStation station.now }
    requires train { unit.train.0 < length arrive.now }
    requires kind { unit.kind.0 < length station.now.types }
    ensures { result ≡ ready_of station.now arrive.now unit }
{
    let kind = &station.types.as_slice()[unit.kind.0 as usize];
    arrive[unit.train.0 as usize].minute.number() + kind.turn
}

/// When each unit is ready.
pub(crate) fn ready_minutes(
    alloc: Global,
    station: &Station,
    arrive: &[Train],
    units: &[Unit],
) -> Result<Vec<u16>, AllocError>
    requires station { IsStation station.now }
    requires trains { AreTrains station.now arrive.now }
    requires units { units.now ≡ units_of arrive.now }
    ensures { IfOk result (λ v. v.items ≡ map (ready_of station.now arrive.now) units.now) }
{
    let mut ready = Vec::new(alloc);
    for unit in units {
        ready.push(ready_minute(station, arrive, *unit))?;
    }
    Ok(ready)
}

fn leave_minute(depart: &[Train], position: Position) -> Minute
    requires { position.train.0 < length depart.now }
    ensures { result ≡ leaves_of depart.now position }
{
    depart[position.train.0 as usize].minute
}

/// When each position leaves.
pub(crate) fn leave_minutes(
    alloc: Global,
    depart: &[Train],
    positions: &[Position],
) -> Result<Vec<Minute>, AllocError>
    requires few { length depart.now ≤ 100 }
    requires positions { positions.now ≡ positions_of depart.now }
    ensures { IfOk result (λ v. v.items ≡ map (leaves_of depart.now) positions.now) }
{
    let mut leaves = Vec::new(alloc);
    for position in positions {
        leaves.push(leave_minute(depart, *position))?;
    }
    Ok(leaves)
}
