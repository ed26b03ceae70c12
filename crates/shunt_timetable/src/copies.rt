// A timetable once more.
ghost use Rattle.std.specs.Prelude.{◌≡◌, IfOk};

use shunt_base::Name;
use shunt_instance::{Timetable, Train};
use shunt_lists::Items;
use std::alloc::{AllocError, Global};

fn copy_items<T: Copy + Drop>(alloc: Global, items: &Items<T>) -> Result<Items<T>, AllocError>
    ensures { IfOk result (λ v. v ≡ items.now) }
{
    Ok(Items::from_vec(Vec::from_slice(alloc, items.as_slice())?))
}

/// The same train once more. The error is want of memory.
pub fn copy_train(alloc: Global, train: &Train) -> Result<Train, AllocError>
    ensures { IfOk result (λ t. t ≡ train.now) }
{
    Ok(Train {
        name: Name::new(alloc, train.name.bytes())?,
        minute: train.minute,
        origin: train.origin,
        units: copy_items(alloc, &train.units)?,
        placed: copy_items(alloc, &train.placed)?,
    })
}

/// The same trains once more. The error is want of memory.
pub fn copy_trains(alloc: Global, trains: &[Train]) -> Result<Vec<Train>, AllocError>
    ensures { IfOk result (λ v. v.items ≡ trains.now) }
{
    let mut copies = Vec::new(alloc);
    'trains: for train in trains {
        copies.push(copy_train(alloc, train)?)?;
    }
    Ok(copies)
}

/// The same timetable once more. The error is want of memory.
pub fn copy_timetable(alloc: Global, timetable: &Timetable) -> Result<Timetable, AllocError>
    ensures { IfOk result (λ t. t ≡ timetable.now) }
{
    let arrive = copy_trains(alloc, timetable.arrive.as_slice())?;
    let depart = copy_trains(alloc, timetable.depart.as_slice())?;
    Ok(Timetable {
        arrive: Items::from_vec(arrive),
        depart: Items::from_vec(depart),
    })
}
