// Files in a list, where the first of a name counts.
ghost use Rattle.std.specs.Prelude.{◌≡◌, ◌≢◌, ◌<◌, ◌≤◌, ◌++◌, [], length, take, slice_index_or};
ghost use Rattle.std.specs.Prelude.{Some, None, IfSome, IfNone, IfOk, OnOk, OnErr, option_map, All};
ghost use Rattle.std.specs.FinMap as map;
ghost use Rattle.shunt_store.specs.defs.Table.{files_of, names_of, name_at, IsPlaceOf, IsFirst};
ghost use Rattle.shunt_store.specs.defs.Files.{content};
ghost use Rattle.shunt_store.specs.declared.table.File.{File};

use std::alloc::{AllocError, Global};

#[derive(Debug, Drop)]
pub struct File {
    pub name: Vec<u8>,
    pub bytes: Vec<u8>,
}

/// If the first file of a name stands.
pub fn place_of(files: &[File], name: &[u8]) -> Option<usize>
    ensures some { IfSome result (λ place. IsPlaceOf files.now name.now place) }
    ensures found { IfSome result (λ _. map.get (files_of files.now) name.now ≢ None) }
    ensures none { IfNone result (map.get (files_of files.now) name.now ≡ None) }
    ensures lacks { IfNone result (All (λ f. f.name.items ≢ name.now) files.now) }
{
    let place = first_of(files, name);
    if place < files.len() {
        Some(place)
    } else {
        None
    }
}

// If the first file of a name stands, or behind the last.
fn first_of(files: &[File], name: &[u8]) -> usize
    ensures within { result ≤ length files.now }
    ensures before { All (λ f. f.name.items ≢ name.now) (take result files.now) }
    ensures here { (d : File) → result < length files.now
        → (slice_index_or files.now result d).name.items ≡ name.now }
{
    for (i, file) in files.iter().enumerate() {
        if file.name.as_slice() == name {
            return i;
        }
    }
    files.len()
}

/// What the file at a place holds.
pub fn bytes_of(files: &[File], place: usize) -> &[u8]
    requires { IsFirst files.now place }
    ensures { map.get (files_of files.entry.now) (name_at files.entry.now place) ≡ Some result.now }
{
    &files[place].bytes
}

/// What the files have at a name.
pub fn bytes_at<'a>(files: &'a [File], name: &[u8]) -> Option<&'a [u8]>
    ensures { option_map (λ b. b.now) result ≡ map.get (files_of files.entry.now) name.now }
{
    match place_of(files, name) {
        Some(place) => Some(bytes_of(files, place)),
        None => None,
    }
}

// Puts bytes into the file at a place.
fn put_at(files: &mut Vec<File>, place: usize, bytes: Vec<u8>)
    requires { IsFirst files.old.items place }
    ensures files { files_of files.new.items
        ≡ map.insert (files_of files.old.items) (name_at files.old.items place) bytes.items }
    ensures place { IsPlaceOf files.new.items (name_at files.old.items place) place }
{
    files[place].bytes = bytes;
}

/// Puts bytes at a name, and says where the file stands.
pub fn put(
    alloc: Global,
    files: &mut Vec<File>,
    name: &[u8],
    bytes: &[u8],
) -> Result<usize, AllocError>
    ensures ok { OnOk result
        (files_of files.new.items ≡ map.insert (files_of files.old.items) name.now bytes.now) }
    ensures place { IfOk result (λ place. IsPlaceOf files.new.items name.now place) }
    ensures err { OnErr result (files.new.items ≡ files.old.items) }
{
    let bytes = Vec::from_slice(alloc, bytes)?;
    if let Some(place) = place_of(files, name) {
        put_at(files, place, bytes);
        return Ok(place);
    }
    let place = files.len();
    let name = Vec::from_slice(alloc, name)?;
    files.push(File { name, bytes })?;
    Ok(place)
}
