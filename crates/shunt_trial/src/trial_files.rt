// The files of a trial in memory.
ghost use Rattle.std.specs.Prelude.{◌≡◌, [], ◌∷◌, ◌++◌, map, IfOk, OnOk};
ghost use Rattle.std.specs.FinMap as finite;
ghost use Rattle.shunt_store.specs.defs.Files.{Closed, content};
ghost use Rattle.shunt_instance.specs.defs.Wellformed.{IsStation, IsTimetable};
ghost use Rattle.shunt_inputs.specs.defs.Replies.{pair_of};
ghost use Rattle.shunt_inputs.specs.defs.Writes.{written};
ghost use Rattle.shunt_trial.specs.defs.Tried.{station_file, timetable_file};
ghost use Rattle.shunt_trial.specs.defs.Rehearsed.{held_files, night_files};

use shunt_inputs::FileText;
use shunt_instance::{Station, Timetable};
use shunt_station::write_station;
use shunt_store::SureStore;
use shunt_timetable::write_timetable;
use std::alloc::{AllocError, Global};

fn put_station(
    alloc: Global,
    store: &mut SureStore,
    name: &str,
    station: &Station,
) -> Result<(), AllocError>
    requires closed { store.old.stage ≡ Closed }
    requires formed { IsStation station.now }
    ensures files { OnOk result
        (store.new.files ≡ finite.insert store.old.files name.now (station_file station.now)) }
    ensures closed { OnOk result (store.new.stage ≡ Closed) }
{
    let text = write_station(alloc, station)?;
    store.put(name, &text)
}

fn put_timetable(
    alloc: Global,
    store: &mut SureStore,
    name: &str,
    station: &Station,
    timetable: &Timetable,
) -> Result<(), AllocError>
    requires closed { store.old.stage ≡ Closed }
    requires station { IsStation station.now }
    requires timetable { IsTimetable station.now timetable.now }
    ensures files { OnOk result (store.new.files
        ≡ finite.insert store.old.files name.now (timetable_file station.now timetable.now)) }
    ensures closed { OnOk result (store.new.stage ≡ Closed) }
{
    let text = write_timetable(alloc, station, timetable)?;
    store.put(name, &text)
}

/// A store with the two files of a night, under these names.
pub(crate) fn store_of(
    alloc: Global,
    station_name: &str,
    timetable_name: &str,
    station: &Station,
    timetable: &Timetable,
) -> Result<SureStore, AllocError>
    requires station { IsStation station.now }
    requires timetable { IsTimetable station.now timetable.now }
    ensures files { IfOk result (λ store. store.files
        ≡ night_files station_name.now timetable_name.now station.now timetable.now) }
    ensures closed { IfOk result (λ store. store.stage ≡ Closed) }
{
    let mut store = SureStore::new(alloc);
    put_station(alloc, &mut store, station_name, station)?;
    put_timetable(alloc, &mut store, timetable_name, station, timetable)?;
    Ok(store)
}

/// Puts these files into the store, one after the other.
pub(crate) fn put_all(store: &mut SureStore, writes: &[FileText]) -> Result<(), AllocError>
    requires { store.old.stage ≡ Closed }
    ensures files { OnOk result
        (store.new.files ≡ written (map pair_of writes.now) store.old.files) }
    ensures closed { OnOk result (store.new.stage ≡ Closed) }
{
    'files: for write in writes {
        store.put(write.name.as_str(), &write.bytes)?;
    }
    Ok(())
}

// A file of the store, under its name.
fn file_of(alloc: Global, store: &SureStore, name: &str) -> Result<FileText, AllocError>
    ensures { IfOk result (λ f. pair_of f ≡ (name.now, content store.now.files name.now)) }
{
    let held = store.file(name).unwrap_or(&[]);
    let name = String::from_str(alloc, name)?;
    let bytes = Vec::from_slice(alloc, held)?;
    Ok(FileText { name, bytes })
}

fn push_file(
    alloc: Global,
    files: &mut Vec<FileText>,
    store: &SureStore,
    name: &str,
) -> Result<(), AllocError>
    ensures { OnOk result (map pair_of files.new.items ≡ map pair_of files.old.items
        ++ (name.now, content store.now.files name.now) ∷ []) }
{
    let file = file_of(alloc, store, name)?;
    files.push(file)?;
    Ok(())
}

/// The files of these names in the store, in the order of the names.
pub(crate) fn files_of(
    alloc: Global,
    store: &SureStore,
    station: &str,
    timetable: &str,
    plan: &str,
    certificate: &str,
) -> Result<Vec<FileText>, AllocError>
    ensures { IfOk result (λ fs. map pair_of fs.items
        ≡ held_files station.now timetable.now plan.now certificate.now store.now.files) }
{
    let mut files = Vec::new(alloc);
    push_file(alloc, &mut files, store, station)?;
    push_file(alloc, &mut files, store, timetable)?;
    push_file(alloc, &mut files, store, plan)?;
    push_file(alloc, &mut files, store, certificate)?;
    Ok(files)
}
