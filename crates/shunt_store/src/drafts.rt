// A file that is being written: beside the one that it is to replace, or in place.
ghost use Rattle.std.specs.Prelude.{◌≡◌, ◌<◌, ◌≤◌, ◌++◌, [], length, take, IfOk, IfSome, IfNone};
ghost use Rattle.std.specs.Prelude.{string_bytes};
ghost use Rattle.shunt_store.specs.defs.Parts.{part_endings, EndsWith};

use crate::noted::Noted;
use crate::parts::part_of;
use std::alloc::{AllocError, Allocator};
use std::fs::{OpenFile, Permissions};
use std::io::Write;
use std::path::{Path, PathBuf};
use std::rt::Files as FileSystem;
use std::{fs, io};

/// Through how many links a name leads at most, as in the system's own calls.
const MOST_LINKS: usize = 40;

// What is written, and what it is to replace.
#[derive(Drop)]
pub struct Beside<A: Allocator> {
    part: String<A>,
    target: PathBuf<A>,
}

/// Nothing is beside it if it is written in place.
#[derive(Drop)]
pub struct FileDraft<F, A: Allocator> {
    pub file: F,
    beside: Option<Beside<A>>,
    pub text: Noted,
}

// How a name is written: a device, a pipe, a folder, and what the system keeps are not replaced. What isn't there is.
#[derive(Drop)]
enum WriteWay {
    InPlace,
    Anew,
    Over(Permissions),
}

fn way_of<R: FileSystem>(rt: &R, name: &str) -> WriteWay {
    if name.starts_with("/dev/") || name.starts_with("/proc/") {
        return WriteWay::InPlace;
    }
    match fs::metadata(rt, name) {
        Ok(metadata) if metadata.is_file() => WriteWay::Over(metadata.permissions()),
        Ok(_) => WriteWay::InPlace,
        Err(_) => WriteWay::Anew,
    }
}

// Where a name leads through links whose end isn't there.
fn followed<R: FileSystem + Alloc>(rt: &R, name: &str) -> Result<PathBuf<R::A>, AllocError> {
    let mut path = Path::new(name).to_path_buf(rt.alloc())?;
    for _ in 0..MOST_LINKS {
        let Ok(link) = fs::read_link(rt, path.as_str()) else {
            break;
        };
        path = match path.parent() {
            Some(folder) => folder.join(rt.alloc(), link.as_str())?,
            None => link,
        };
    }
    Ok(path)
}

// Where a name leads through links, which a renaming would replace.
fn resolved<R: FileSystem + Alloc>(rt: &R, name: &str) -> Result<PathBuf<R::A>, AllocError> {
    match fs::canonicalize(rt, name) {
        Ok(path) => Ok(path),
        Err(_) => followed(rt, name),
    }
}

// Where a file is written, and what it is to replace.
fn places<R: FileSystem + Alloc>(
    rt: &R,
    name: &str,
    endings: usize,
) -> Result<Beside<R::A>, AllocError>
    ensures { IfOk result (λ b. EndsWith (string_bytes b.part) (part_endings endings)) }
{
    let target = resolved(rt, name)?;
    let part = part_of(rt.alloc(), target.as_str(), endings)?;
    Ok(Beside { part, target })
}

// An empty file beside another, whose permissions it has where that is there.
fn create_part<R: FileSystem>(rt: &R, part: &str, way: WriteWay) -> io::Result<R::File> {
    let file = fs::create(rt, part)?;
    if let WriteWay::Over(permissions) = way {
        if let Err(e) = file.set_permissions(permissions) {
            let _ = fs::remove_file(rt, part);
            return Err(e);
        }
    }
    Ok(file)
}

/// A file to be written, which is empty, and whose part has so many endings. None if the system refuses it.
pub fn begin<R: FileSystem + Alloc>(
    rt: &R,
    name: &str,
    endings: usize,
) -> Result<Option<FileDraft<R::File, R::A>>, AllocError>
    ensures empty { IfOk result (λ draft. IfSome draft (λ d. d.text.bytes ≡ [])) }
    ensures part { IfOk result (λ draft. IfSome draft
        (λ d. IfSome d.beside (λ b. EndsWith (string_bytes b.part) (part_endings endings)))) }
{
    let way = way_of(rt, name);
    if let WriteWay::InPlace = way {
        return Ok(
            fs::create(rt, name).ok().map(|file| FileDraft {
                file,
                beside: None,
                text: Noted::new(),
            }),
        );
    }
    let beside = places(rt, name, endings)?;
    match create_part(rt, beside.part.as_str(), way) {
        Ok(file) => Ok(Some(FileDraft {
            file,
            beside: Some(beside),
            text: Noted::new(),
        })),
        Err(_) => Ok(None),
    }
}

// How much of the piece a file takes: some of it. None where it takes nothing, or fails.
fn take_some<F: Write>(file: &mut F, piece: &[u8]) -> Option<usize>
    ensures bound { IfSome result (λ n. n ≤ length piece.now) }
    ensures some { IfSome result (λ n. 0 < length piece.now → 0 < n) }
{
    let n = file.write(piece).ok()?;
    if n == 0 && !piece.is_empty() {
        return None;
    }
    Some(n)
}

/// Appends the front of the piece, as many bytes as it answers. None where nothing of it is taken.
pub fn write_on<F: Write, A: Allocator>(draft: &mut FileDraft<F, A>, piece: &[u8]) -> Option<usize>
    ensures bound { IfSome result (λ n. n ≤ length piece.now) }
    ensures some { IfSome result (λ n. 0 < length piece.now → 0 < n) }
    ensures text { IfSome result
        (λ n. draft.new.text.bytes ≡ draft.old.text.bytes ++ take n piece.now) }
    ensures none { IfNone result (draft.new.text.bytes ≡ draft.old.text.bytes) }
{
    let n = take_some(&mut draft.file, piece)?;
    draft.text.note(&piece[..n]);
    Some(n)
}

// Has the disk keep a renaming, if the system lets a folder be synced.
fn sync_folder<R: FileSystem>(rt: &R, target: Path<'_>) {
    let folder = match target.parent() {
        Some(folder) => folder.as_str(),
        None => "",
    };
    if let Ok(folder) = fs::open(rt, if folder.is_empty() { "." } else { folder }) {
        let _ = folder.sync_all();
    }
}

/// Puts what was written in the place of what it is to replace, and returns whether that went through.
/// Nothing stays beside it.
pub fn settle<R: FileSystem + Alloc>(rt: &R, draft: &FileDraft<R::File, R::A>) -> bool {
    let Some(beside) = &draft.beside else {
        return true;
    };
    let (part, target) = (beside.part.as_str(), beside.target.as_str());
    if draft.file.sync_all().is_ok() && fs::rename(rt, part, target).is_ok() {
        sync_folder(rt, Path::new(target));
        return true;
    }
    let _ = fs::remove_file(rt, part);
    false
}

/// Removes what was written beside what it was to replace. If that fails it stays there.
pub fn discard<R: FileSystem + Alloc>(rt: &R, draft: &FileDraft<R::File, R::A>) {
    if let Some(beside) = &draft.beside {
        let _ = fs::remove_file(rt, beside.part.as_str());
    }
}
