// What isn't as a case has it.
use crate::cases::{ExpectedRun, RunFile};
use crate::patterns::fits;
use crate::runs::{Ended, RunWay, run_case};
use std::alloc::{AllocError, Global};
use std::io;

const STORE_FAILED: u32 = 4;

const SINK_FAILED: u32 = 8;

/// How many calls are made to fail at most, one a run.
const MOST_RUNS: u32 = 300;

/// Tells what differs in a case, line by line.
#[derive(Drop)]
pub(crate) struct RunReport<'r> {
    rt: &'r HostRuntime,
    name: &'r str,
    differs: bool,
}

impl<'r> RunReport<'r> {
    pub(crate) fn new(rt: &'r HostRuntime, name: &'r str) -> RunReport<'r> {
        RunReport {
            rt,
            name,
            differs: false,
        }
    }

    /// Whether something was told.
    pub(crate) fn differs(&self) -> bool {
        self.differs
    }

    fn tell(&mut self, way: RunWay, what: &str) -> io::Result<()> {
        self.differs = true;
        let name = self.name;
        println!(self.rt; "{name}{way}: {what}")
    }
}

// The beginning of a text.
fn short(bytes: &[u8]) -> &str {
    let text = std::str::from_utf8(bytes).unwrap_or("bytes that are no text");
    text.get(..400).unwrap_or(text)
}

// What a run that isn't disturbed printed and left, against the case.
fn check_plain(report: &mut RunReport<'_>, case: &ExpectedRun, ended: &Ended) -> io::Result<()> {
    let alloc = report.rt.alloc();
    let (status, wanted) = (ended.status, case.status);
    if status != wanted {
        report.tell(
            RunWay::Whole,
            &format!(in alloc; "status {status}, and not {wanted}")?,
        )?;
    }
    if !fits(ended.out.bytes(), &case.printed) {
        let printed = short(ended.out.bytes());
        report.tell(RunWay::Whole, &format!(in alloc; "it printed {printed:?}")?)?;
    }
    for name in &case.names {
        if let Some(what) = unlike(case, ended, name) {
            report.tell(RunWay::Whole, &format!(in alloc; "file {name} {what}")?)?;
        }
    }
    Ok(())
}

// What isn't as the case has it of the file of a name.
fn unlike(case: &ExpectedRun, ended: &Ended, name: &str) -> Option<&'static str> {
    let now = ended.store.file(name);
    match case.pattern_of(name) {
        Some(pattern) => match now {
            None => Some("is missing"),
            Some(bytes) if fits(bytes, pattern) => None,
            Some(_) => Some("is not as in out"),
        },
        None if now == case.before(name) => None,
        None => Some("was written"),
    }
}

// Whether two runs of a case ended alike.
fn is_same(case: &ExpectedRun, first: &Ended, second: &Ended) -> bool {
    first.status == second.status
        && first.out.bytes() == second.out.bytes()
        && leaves_same(case, first, second)
}

fn leaves_same(case: &ExpectedRun, first: &Ended, second: &Ended) -> bool {
    case.names
        .iter()
        .all(|name| first.store.file(name) == second.store.file(name))
}

// Whether a file that held and would hold so may hold this after a failure: all of either.
fn is_whole(before: Option<&[u8]>, whole: Option<&[u8]>, now: Option<&[u8]>) -> bool {
    now == before || now == whole
}

// What must not be where a call of the store failed.
fn wrong_of_store(case: &ExpectedRun, plain: &Ended, ended: &Ended) -> Option<&'static str> {
    if ended.status != STORE_FAILED {
        return Some("the status is not 4");
    }
    if !ended.out.bytes().is_empty() {
        return Some("something was printed");
    }
    for name in &case.names {
        let (whole, now) = (plain.store.file(name), ended.store.file(name));
        if !is_whole(case.before(name), whole, now) {
            return Some("a file holds what it may not");
        }
    }
    None
}

// What must not be where a call of the sink failed.
fn wrong_of_sink(case: &ExpectedRun, plain: &Ended, ended: &Ended) -> Option<&'static str> {
    if ended.status != SINK_FAILED {
        return Some("the status is not 8");
    }
    if !plain.out.bytes().starts_with(ended.out.bytes()) {
        return Some("what was printed is no front");
    }
    if !leaves_same(case, plain, ended) {
        return Some("a file is not whole");
    }
    None
}

// The call that is to fail next: each of the first 64, and then one of ever more.
fn next_call(call: u64) -> u64 {
    if call < 64 {
        call + 1
    } else {
        call.saturating_add(call / 4)
    }
}

// Calls of the store fail in turn, up to the first run that makes fewer.
fn check_store(report: &mut RunReport<'_>, case: &ExpectedRun, plain: &Ended) -> io::Result<()> {
    let mut call = 1u64;
    for _ in 0..MOST_RUNS {
        let way = RunWay::PieceFails(call);
        let ended = run_case(report.rt.alloc(), case, way)?;
        if is_same(case, plain, &ended) {
            break;
        }
        if let Some(what) = wrong_of_store(case, plain, &ended) {
            report.tell(way, what)?;
        }
        call = next_call(call);
    }
    Ok(())
}

// Each call of the sink fails in turn, up to the first run that makes fewer.
fn check_sink(report: &mut RunReport<'_>, case: &ExpectedRun, plain: &Ended) -> io::Result<()> {
    for call in 1..MOST_RUNS {
        let way = RunWay::SinkFails(u64::from(call));
        let ended = run_case(report.rt.alloc(), case, way)?;
        if is_same(case, plain, &ended) {
            break;
        }
        if let Some(what) = wrong_of_sink(case, plain, &ended) {
            report.tell(way, what)?;
        }
    }
    Ok(())
}

// The last of that many calls of the store is one that the run makes, and the next one isn't.
fn check_calls(report: &mut RunReport<'_>, case: &ExpectedRun, plain: &Ended) -> io::Result<()> {
    let Some(calls) = case.calls else {
        return Ok(());
    };
    let last = RunWay::CallFails(u64::from(calls));
    let ended = run_case(report.rt.alloc(), case, last)?;
    if calls > 0 && ended.status != STORE_FAILED {
        report.tell(last, "the run makes fewer calls")?;
    }
    let next = RunWay::CallFails(u64::from(calls).saturating_add(1));
    let ended = run_case(report.rt.alloc(), case, next)?;
    if !is_same(case, plain, &ended) {
        report.tell(next, "the run makes more calls")?;
    }
    Ok(())
}

/// Runs a case in all ways, says what differs, and hands out the run that isn't disturbed.
pub(crate) fn check(report: &mut RunReport<'_>, case: &ExpectedRun) -> io::Result<Ended> {
    let plain = run_case(report.rt.alloc(), case, RunWay::Whole)?;
    check_plain(report, case, &plain)?;
    if report.differs {
        return Ok(plain);
    }
    let pieces = run_case(report.rt.alloc(), case, RunWay::Pieces)?;
    if !is_same(case, &plain, &pieces) {
        report.tell(RunWay::Pieces, "it ends otherwise")?;
    }
    if !case.is_slow {
        check_calls(report, case, &plain)?;
        check_store(report, case, &plain)?;
        check_sink(report, case, &plain)?;
    }
    Ok(plain)
}

/// The files that a run of a case left.
pub(crate) fn left_by(
    alloc: Global,
    case: &ExpectedRun,
    ended: &Ended,
) -> Result<Vec<RunFile>, AllocError> {
    let mut files = Vec::new(alloc);
    for name in &case.names {
        if let Some(bytes) = ended.store.file(name) {
            let bytes = Vec::from_slice(alloc, bytes)?;
            files.push(RunFile {
                name: name.clone()?,
                bytes,
            })?;
        }
    }
    Ok(files)
}
