// What a search answers.
ghost use Rattle.std.specs.Prelude.{◌≡◌};
ghost use Rattle.shunt_proof.specs.declared.recorder.RecordError.TheVariants as record_errors;
ghost use Rattle.shunt_search.specs.declared.solved.SolveError.TheVariants as errors;
ghost use Rattle.shunt_search.specs.defs.Conditions.{search_error};

use shunt_matching::types::Shortage;
use shunt_plan::Plan;
use shunt_proof::{RecordError, Version};
use std::alloc::{AllocError, AllocFailed};

/// What a search found: a plan, and a bound that the nodes prove which it noted.
#[derive(Debug, Drop)]
pub struct Solved {
    /// A feasible plan, with ids from 1 on in the order of first units.
    pub plan: Plan,
    /// What the plan costs, in cost units.
    pub cost: u64,
    /// No feasible plan costs less, in cost units. It is at most the cost.
    pub bound: u64,
    /// How many nodes were noted, from 1 to 5,000.
    pub nodes: u32,
    /// The version of a certificate that has them.
    pub version: Version,
}

/// Why a search found nothing.
#[derive(Clone, Copy, Debug, PartialEq, Eq)]
pub enum SolveError {
    /// What the pins leave has no matching.
    NoMatching(Shortage),
    /// What keeps the nodes failed, and counted it.
    Recorder,
    /// Memory ran out.
    Memory,
}

impl From<AllocError> for SolveError {
    ghost from_gives = { λ _ e. e ≡ errors.Memory };

    fn from(_: AllocError) -> Self {
        SolveError::Memory
    }
}

impl<T: Drop> From<AllocFailed<T>> for SolveError {
    ghost from_gives = { λ _ e. e ≡ errors.Memory };

    fn from(_: AllocFailed<T>) -> Self {
        SolveError::Memory
    }
}

impl From<RecordError> for SolveError {
    ghost from_gives = { λ r e. e ≡ search_error r };

    fn from(error: RecordError) -> Self {
        match error {
            RecordError::Fault => SolveError::Recorder,
            RecordError::Memory => SolveError::Memory,
        }
    }
}
