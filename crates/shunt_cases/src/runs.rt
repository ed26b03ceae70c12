// Runs of the program over files in memory.
ghost use Rattle.std.specs.Prelude.{◌≡◌, IfOk};
ghost use Rattle.shunt_store.specs.defs.Files.{Closed};

use crate::cases::{ExpectedRun, RunFile};
use shunt::run;
use shunt_store::{MemSink, MemStore};
use std::alloc::{AllocError, Global};
use std::fmt;

/// How many bytes a call moves at most where files go by pieces.
const PIECE: usize = 7;

/// How a case is run.
#[derive(Clone, Copy, Debug)]
pub(crate) enum RunWay {
    Whole,
    Pieces,
    /// This call of the store fails.
    CallFails(u64),
    /// Files go by pieces, and this call of the store fails.
    PieceFails(u64),
    /// This call of the sink fails.
    SinkFails(u64),
}

impl fmt::Display for RunWay {
    fn fmt<W: fmt::Write>(&self, f: &mut fmt::Formatter<W>) -> fmt::Result {
        match self {
            RunWay::Whole => Ok(()),
            RunWay::Pieces => write!(f, ", by pieces of {PIECE} bytes"),
            RunWay::CallFails(call) => write!(f, ", where call {call} of the store fails"),
            RunWay::PieceFails(call) => write!(
                f,
                ", by pieces of {PIECE} bytes, where call {call} of the store fails"
            ),
            RunWay::SinkFails(call) => write!(f, ", where call {call} of the sink fails"),
        }
    }
}

/// How a run ended, what it printed, and the files that it left.
#[derive(Drop)]
pub(crate) struct Ended {
    pub(crate) status: u32,
    pub(crate) out: MemSink,
    pub(crate) store: MemStore,
}

fn store_of(alloc: Global, files: &[RunFile]) -> Result<MemStore, AllocError>
    ensures { IfOk result (λ s. s.stage ≡ Closed) }
{
    let mut store = MemStore::new(alloc);
    for file in files {
        store.put(&file.name, &file.bytes)?;
    }
    Ok(store)
}

/// Runs a case over its files.
pub(crate) fn run_case(
    alloc: Global,
    case: &ExpectedRun,
    way: RunWay,
) -> Result<Ended, AllocError> {
    let mut store = store_of(alloc, &case.files)?;
    let mut out = MemSink::new(alloc);
    match way {
        RunWay::Whole => {}
        RunWay::Pieces => store.set_piece(PIECE),
        RunWay::CallFails(call) => store.fail_at(call)?,
        RunWay::PieceFails(call) => {
            store.set_piece(PIECE);
            store.fail_at(call)?;
        }
        RunWay::SinkFails(call) => out.fail_at(call)?,
    }
    let status = run(alloc, &case.words, &mut store, &mut out) as u32;
    Ok(Ended { status, out, store })
}
