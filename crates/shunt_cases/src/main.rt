//! Runs the program over files in memory, once or more for each case, and says what isn't as the case has it. The cases are the folders
//! in the folder that the first word names, or in the current one; a second word leaves those alone whose names contain it.
#![tactic(auto)]

mod cases;
mod checks;
mod patterns;
mod runs;

use cases::{folders_in, read_case, read_next};
use checks::{RunReport, check, left_by};
use std::process::ExitCode;
use std::{env, io};

// Whether all that the case of a folder has is so, and the case behind it, where one goes on with the files that it leaves.
fn passes(rt: &HostRuntime, folder: &str) -> io::Result<bool> {
    let case = read_case(rt, folder)?;
    let mut report = RunReport::new(rt, folder);
    let plain = check(&mut report, &case)?;
    let left = left_by(rt.alloc(), &case, &plain)?;
    if let Some(next) = read_next(rt, folder, left)? {
        check(&mut report, &next)?;
    }
    Ok(!report.differs())
}

// A case that can't be read fails.
fn is_passed(rt: &HostRuntime, folder: &str) -> io::Result<bool> {
    match passes(rt, folder) {
        Ok(passed) => Ok(passed),
        Err(error) => {
            println!(rt; "{folder}: {error}")?;
            Ok(false)
        }
    }
}

fn main(rt: HostRuntime) -> io::Result<ExitCode> {
    let mut words = env::args(&rt)?.skip(1);
    let folder = words.next();
    let part = words.next();
    let (mut passed, mut failed) = (0u64, 0u64);
    for case in folders_in(&rt, folder.as_deref().unwrap_or("."))? {
        if !case.contains(part.as_deref().unwrap_or("")) {
            continue;
        }
        if is_passed(&rt, &case)? {
            passed = passed.saturating_add(1);
        } else {
            failed = failed.saturating_add(1);
        }
    }
    println!(rt; "{passed} passed, {failed} failed")?;
    Ok(ExitCode::from(u8::from(failed > 0)))
}
