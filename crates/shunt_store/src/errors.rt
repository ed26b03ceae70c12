// What can go wrong with files and output.
ghost use Rattle.std.specs.Prelude.{◌≡◌};
ghost use Rattle.shunt_store.specs.declared.errors.StoreError.TheVariants as store;
ghost use Rattle.shunt_store.specs.declared.errors.SinkError.TheVariants as sink;
ghost use Rattle.shunt_store.specs.declared.errors.ReadAllError.TheVariants as all;
ghost use Rattle.shunt_store.specs.defs.Errors.{IsSameCause};

use std::alloc::{AllocError, AllocFailed};
use thiserror::Error;

/// Why a call of a store was refused.
#[derive(Clone, Copy, Debug, PartialEq, Eq, Error)]
pub enum StoreError {
    /// The store failed, and counted it.
    #[error("the file could not be read or written")]
    Fault,
    /// Memory ran out.
    #[error("out of memory")]
    Memory,
}

impl From<AllocError> for StoreError {
    ghost from_gives = { λ _ e. e ≡ store.Memory };

    fn from(_: AllocError) -> Self {
        StoreError::Memory
    }
}

impl<T: Drop> From<AllocFailed<T>> for StoreError {
    ghost from_gives = { λ _ e. e ≡ store.Memory };

    fn from(_: AllocFailed<T>) -> Self {
        StoreError::Memory
    }
}

/// Why a file was not read whole.
#[derive(Clone, Copy, Debug, PartialEq, Eq, Error)]
pub enum ReadAllError {
    /// The store failed, and counted it.
    #[error("the file could not be read")]
    Fault,
    /// The file has more bytes than the limit.
    #[error("the file is too long")]
    TooLong,
    /// Memory ran out.
    #[error("out of memory")]
    Memory,
}

impl From<StoreError> for ReadAllError {
    ghost from_gives = { λ e f. IsSameCause e f };

    fn from(e: StoreError) -> Self {
        match e {
            StoreError::Fault => ReadAllError::Fault,
            StoreError::Memory => ReadAllError::Memory,
        }
    }
}

impl From<AllocError> for ReadAllError {
    ghost from_gives = { λ _ e. e ≡ all.Memory };

    fn from(_: AllocError) -> Self {
        ReadAllError::Memory
    }
}

/// Why a call of a sink was refused.
#[derive(Clone, Copy, Debug, PartialEq, Eq, Error)]
pub enum SinkError {
    /// The sink failed, and counted it.
    #[error("the output could not be written")]
    Fault,
    /// Memory ran out.
    #[error("out of memory")]
    Memory,
}

impl From<AllocError> for SinkError {
    ghost from_gives = { λ _ e. e ≡ sink.Memory };

    fn from(_: AllocError) -> Self {
        SinkError::Memory
    }
}
