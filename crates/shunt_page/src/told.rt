// What is told of units, trains and tracks.
ghost use Rattle.std.specs.Prelude.{◌≡◌, ◌<◌, ◌++◌, ◌∷◌, [], length, All, IfOk, OnOk};
ghost use Rattle.shunt_instance.specs.defs.Instance.{unit_total};
ghost use Rattle.shunt_instance.specs.defs.Wellformed.{IsTrain, IsOrigin};
ghost use Rattle.shunt_blocks.specs.defs.Shapes.{IsWithinTrains, IsOnTrack, IsInRange};
ghost use Rattle.shunt_picture.specs.defs.Marks.{origin_name};
ghost use Rattle.shunt_page.specs.defs.Told.{unit_told, units_told, train_told, arrive_told};
ghost use Rattle.shunt_picture.specs.defs.Told.{track_name};
ghost use Rattle.shunt_page.specs.defs.Told.{depart_told, loose_of, loose_at, looses_of};

use crate::records::{LooseRow, TrainTold, UnitTold};
use shunt_base::{Name, copy_name};
use shunt_blocks::{Block, Park, shape_of, stay, unit_from};
use shunt_instance::{Instance, Origin, Train};
use shunt_lists::Items;
use std::alloc::{AllocError, Global};

// The unit with a number, by its train, its place there and its type.
pub(crate) fn unit_told(
    alloc: Global,
    instance: &Instance,
    unit: usize,
) -> Result<UnitTold, AllocError>
    requires { unit < unit_total instance.now }
    ensures { IfOk result (λ t. t ≡ unit_told instance.now unit) }
{
    let unit = instance.unit(unit);
    let types = instance.station().types.as_slice();
    let train = copy_name(alloc, &instance.arrive(unit.train).name)?;
    let kind = copy_name(alloc, &types[usize::from(unit.kind.0)].name)?;
    Ok(UnitTold {
        train,
        place: unit.place,
        kind,
    })
}

// The units of a block.
pub(crate) fn units_told(
    alloc: Global,
    instance: &Instance,
    block: &Block,
) -> Result<Vec<UnitTold>, AllocError>
    requires { IsWithinTrains instance.now block.now }
    ensures { IfOk result (λ v. v.items ≡ units_told instance.now block.now) }
{
    let from = unit_from(instance, shape_of(block));
    let mut units = Vec::new(alloc);
    for k in 0..block.n {
        let unit = unit_told(alloc, instance, from + usize::from(k))?;
        units.push(unit)?;
    }
    Ok(units)
}

// The name of a platform or a track.
fn origin_name(instance: &Instance, origin: Origin) -> &Name
    requires { IsOrigin instance.now.station origin }
    ensures { result.now ≡ origin_name instance.now.station origin }
{
    let station = instance.station();
    match origin {
        Origin::Platform(platform) => &station.platforms.as_slice()[usize::from(platform.0)],
        Origin::Track(track) => &station.tracks.as_slice()[usize::from(track.0)].name,
    }
}

pub(crate) fn train_told(
    alloc: Global,
    instance: &Instance,
    train: &Train,
) -> Result<TrainTold, AllocError>
    requires { IsTrain instance.now.station train.now }
    ensures { IfOk result (λ t. t ≡ train_told instance.now.station train.now) }
{
    let name = copy_name(alloc, &train.name)?;
    let place = copy_name(alloc, origin_name(instance, train.origin))?;
    Ok(TrainTold {
        name,
        place,
        minute: train.minute,
    })
}

pub(crate) fn arrive_told(
    alloc: Global,
    instance: &Instance,
    block: &Block,
) -> Result<TrainTold, AllocError>
    requires { IsWithinTrains instance.now block.now }
    ensures { IfOk result (λ t. t ≡ arrive_told instance.now block.now) }
{
    train_told(alloc, instance, instance.arrive(block.arr))
}

pub(crate) fn depart_told(
    alloc: Global,
    instance: &Instance,
    block: &Block,
) -> Result<TrainTold, AllocError>
    requires { IsWithinTrains instance.now block.now }
    ensures { IfOk result (λ t. t ≡ depart_told instance.now block.now) }
{
    train_told(alloc, instance, instance.depart(block.dep))
}

// The name of the track on which a block is parked.
pub(crate) fn parked_on(
    alloc: Global,
    instance: &Instance,
    park: Option<Park>,
) -> Result<Option<Name>, AllocError>
    requires { IsOnTrack instance.now.station park }
    ensures { IfOk result (λ n. n ≡ track_name instance.now park) }
{
    match park {
        None => Ok(None),
        Some(park) => {
            let tracks = instance.station().tracks.as_slice();
            let name = copy_name(alloc, &tracks[usize::from(park.track.0)].name)?;
            Ok(Some(name))
        }
    }
}

fn loose_of(alloc: Global, instance: &Instance, block: &Block) -> Result<LooseRow, AllocError>
    requires { IsWithinTrains instance.now block.now }
    ensures { IfOk result (λ l. l ≡ loose_of instance.now block.now) }
{
    let units = units_told(alloc, instance, block)?;
    let arr = arrive_told(alloc, instance, block)?;
    let dep = depart_told(alloc, instance, block)?;
    let track = parked_on(alloc, instance, block.park)?;
    Ok(LooseRow {
        id: block.id,
        units: Items::from_vec(units),
        arr,
        dep,
        track,
    })
}

// Adds a block that has no stay.
fn note_loose(
    looses: &mut Vec<LooseRow>,
    alloc: Global,
    instance: &Instance,
    block: &Block,
) -> Result<(), AllocError>
    requires { IsWithinTrains instance.now block.now }
    ensures { OnOk result (looses.new.items ≡ looses.old.items ++ loose_at instance.now block.now) }
{
    if stay(instance, block).is_some() {
        return Ok(());
    }
    let loose = loose_of(alloc, instance, block)?;
    looses.push(loose)?;
    Ok(())
}

// The blocks that have no stay.
pub(crate) fn looses_of(
    alloc: Global,
    instance: &Instance,
    blocks: &[Block],
) -> Result<Vec<LooseRow>, AllocError>
    requires { All (IsInRange instance.now) blocks.now }
    ensures { IfOk result (λ v. v.items ≡ looses_of instance.now blocks.now) }
{
    let mut looses = Vec::new(alloc);
    for block in blocks {
        note_loose(&mut looses, alloc, instance, block)?;
    }
    Ok(looses)
}
