// Cases as folders of plain files.
use std::io::{Error, ErrorKind};
use std::{fs, io};

// The status of a run whose words spell no command, which makes no call.
const WRONG_WORDS: u32 = 2;

/// A file of a run.
#[derive(Debug, Drop)]
pub(crate) struct RunFile {
    pub(crate) name: String,
    pub(crate) bytes: Vec<u8>,
}

/// A file that a run is to leave, and the pattern of its text.
#[derive(Debug, Drop)]
pub(crate) struct WantedFile {
    pub(crate) name: String,
    pub(crate) pattern: String,
}

/// A run of the program, and what is to come of it.
#[derive(Debug, Drop)]
pub(crate) struct ExpectedRun {
    pub(crate) words: Vec<String>,
    pub(crate) files: Vec<RunFile>,
    /// The words and the names of the files, in order.
    pub(crate) names: Vec<String>,
    pub(crate) status: u32,
    pub(crate) printed: String,
    pub(crate) written: Vec<WantedFile>,
    /// How many calls of the store the run makes, where the case says so.
    pub(crate) calls: Option<u32>,
    /// Whether it is too slow to be run again with calls that fail.
    pub(crate) is_slow: bool,
}

impl ExpectedRun {
    /// What the file of a name holds before the run. None where there is none.
    pub(crate) fn before(&self, name: &str) -> Option<&[u8]> {
        let file = self.files.iter().find(|file| file.name.as_str() == name)?;
        Some(file.bytes.as_slice())
    }

    /// The pattern of what the file of a name is to hold after the run, where the case has one.
    pub(crate) fn pattern_of(&self, name: &str) -> Option<&str> {
        let wanted = self
            .written
            .iter()
            .find(|wanted| wanted.name.as_str() == name)?;
        Some(wanted.pattern.as_str())
    }
}

// The names in a folder, in order, none where there is no such folder.
fn names_in(rt: &HostRuntime, folder: &str) -> io::Result<Vec<String>> {
    let mut names = Vec::new(rt.alloc());
    let entries = match fs::read_dir(rt, folder) {
        Ok(entries) => entries,
        Err(error) if error.kind() == ErrorKind::NotFound => return Ok(names),
        Err(error) => return Err(error),
    };
    for entry in entries {
        names.push(String::from_str(rt.alloc(), entry?.file_name())?)?;
    }
    names.sort_unstable();
    Ok(names)
}

/// The paths of the folders in a folder, in order.
pub(crate) fn folders_in(rt: &HostRuntime, folder: &str) -> io::Result<Vec<String>> {
    let mut folders = Vec::new(rt.alloc());
    for name in names_in(rt, folder)? {
        let path = format!(in rt.alloc(); "{folder}/{name}")?;
        if fs::metadata(rt, &path)?.is_dir() {
            folders.push(path)?;
        }
    }
    Ok(folders)
}

// The text of a file of a folder. None where there is no such file.
fn text_in(rt: &HostRuntime, folder: &str, name: &str) -> io::Result<Option<String>> {
    let path = format!(in rt.alloc(); "{folder}/{name}")?;
    match fs::read_to_string(rt, &path) {
        Ok(text) => Ok(Some(text)),
        Err(error) if error.kind() == ErrorKind::NotFound => Ok(None),
        Err(error) => Err(error),
    }
}

// The number that a file of a folder holds. None where there is no such file.
fn number_in(rt: &HostRuntime, folder: &str, name: &str) -> io::Result<Option<u32>> {
    let Some(text) = text_in(rt, folder, name)? else {
        return Ok(None);
    };
    match text.trim().parse::<u32>() {
        Ok(number) => Ok(Some(number)),
        Err(_) => Err(Error::from(ErrorKind::InvalidData)),
    }
}

// The size to which a line `NAME SIZE` has a file filled up, 0 where no line names it.
fn size_of(lines: &str, name: &str) -> usize {
    for line in lines.lines() {
        if let Some((named, size)) = line.split_once(' ')
            && named == name
        {
            return size.parse::<usize>().unwrap_or(0);
        }
    }
    0
}

// Adds the files of `in`, each filled up with line ends to its size in `pad`.
fn add_files(rt: &HostRuntime, folder: &str, files: &mut Vec<RunFile>) -> io::Result<()> {
    let inputs = format!(in rt.alloc(); "{folder}/in")?;
    let pad = text_in(rt, folder, "pad")?;
    let pad = pad.as_deref().unwrap_or("");
    for name in names_in(rt, &inputs)? {
        let mut bytes = fs::read(rt, format!(in rt.alloc(); "{inputs}/{name}")?)?;
        let size = size_of(pad, &name).max(bytes.len());
        bytes.resize(size, b'\n')?;
        files.push(RunFile { name, bytes })?;
    }
    Ok(())
}

// The files of `after`.
fn read_written(rt: &HostRuntime, folder: &str) -> io::Result<Vec<WantedFile>> {
    let mut written = Vec::new(rt.alloc());
    let outputs = format!(in rt.alloc(); "{folder}/after")?;
    for name in names_in(rt, &outputs)? {
        let pattern = text_in(rt, &outputs, &name)?.unwrap_or(String::new(rt.alloc()));
        written.push(WantedFile { name, pattern })?;
    }
    Ok(written)
}

// The words of a case, one a line.
fn read_words(rt: &HostRuntime, folder: &str) -> io::Result<Vec<String>> {
    let mut words = Vec::new(rt.alloc());
    let text = fs::read_to_string(rt, format!(in rt.alloc(); "{folder}/words")?)?;
    for word in text.lines() {
        words.push(String::from_str(rt.alloc(), word)?)?;
    }
    Ok(words)
}

// The case of a folder, which begins with some files.
fn read_over(rt: &HostRuntime, folder: &str, mut files: Vec<RunFile>) -> io::Result<ExpectedRun> {
    let words = read_words(rt, folder)?;
    add_files(rt, folder, &mut files)?;
    let written = read_written(rt, folder)?;
    let names = words.iter().chain(files.iter().map(|file| &file.name));
    let names = names.chain(written.iter().map(|wanted| &wanted.name));
    let mut names: Vec<String> = names.map(|name| name.clone()).try_collect(rt.alloc())?;
    names.sort_unstable();
    names.dedup();
    let status = number_in(rt, folder, "status")?.unwrap_or(0);
    let calls = match number_in(rt, folder, "calls")? {
        None if status == WRONG_WORDS => Some(0),
        calls => calls,
    };
    Ok(ExpectedRun {
        words,
        files,
        names,
        status,
        printed: text_in(rt, folder, "stdout")?.unwrap_or(String::new(rt.alloc())),
        written,
        calls,
        is_slow: text_in(rt, folder, "slow")?.is_some(),
    })
}

/// The case of a folder.
pub(crate) fn read_case(rt: &HostRuntime, folder: &str) -> io::Result<ExpectedRun> {
    read_over(rt, folder, Vec::new(rt.alloc()))
}

/// The case that goes on with the files that the case of a folder leaves, where there is one.
pub(crate) fn read_next(
    rt: &HostRuntime,
    folder: &str,
    left: Vec<RunFile>,
) -> io::Result<Option<ExpectedRun>> {
    let next = format!(in rt.alloc(); "{folder}/then")?;
    match fs::metadata(rt, &next) {
        Ok(_) => Ok(Some(read_over(rt, &next, left)?)),
        Err(error) if error.kind() == ErrorKind::NotFound => Ok(None),
        Err(error) => Err(error),
    }
}
