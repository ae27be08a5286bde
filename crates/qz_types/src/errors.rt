//! What the calls that do a transaction answer where they don't succeed.
ghost use Rattle.std.specs.Prelude.{◌≡◌};

use crate::Refusal;
use qz_civil::NoMemory;
use std::alloc::{AllocError, AllocFailed};
use thiserror::Error;

/// Why a transaction over tables in memory wasn't done. It changed nothing then.
#[derive(Debug, Drop)]
pub enum StepRefused {
    /// The transaction's own refusal, the first in its order.
    Refused(Refusal),
    /// Is answered only where the transaction would be accepted.
    NoMemory,
}

impl From<AllocError> for StepRefused {
    ghost use Rattle.qz_types.specs.declared.errors.StepRefused.TheVariants as step;

    ghost from_gives = { λ _ e. e ≡ step.NoMemory };

    fn from(_error: AllocError) -> StepRefused {
        StepRefused::NoMemory
    }
}

impl<T: Drop> From<AllocFailed<T>> for StepRefused {
    ghost use Rattle.qz_types.specs.declared.errors.StepRefused.TheVariants as step;

    ghost from_gives = { λ _ e. e ≡ step.NoMemory };

    fn from(_error: AllocFailed<T>) -> StepRefused {
        StepRefused::NoMemory
    }
}

impl From<NoMemory> for StepRefused {
    ghost use Rattle.qz_types.specs.declared.errors.StepRefused.TheVariants as step;

    ghost from_gives = { λ _ e. e ≡ step.NoMemory };

    fn from(_error: NoMemory) -> StepRefused {
        StepRefused::NoMemory
    }
}

/// Why a store didn't accept an entry. Of several reasons the first in this order is answered, except that want of memory
/// may come before a full journal. Only `Fault` changes the store.
#[derive(Debug, Drop, Error)]
pub enum SubmitError {
    /// An earlier call was answered `Fault`. The offset, in bytes, is that of the gate of the record that failed.
    #[error("the store is closed at {at}")]
    Closed { at: u64 },
    #[error("the transaction is refused")]
    Refused(Refusal),
    /// The record needs more bytes than are left after its gate.
    #[error("the journal is full: {need} bytes are needed and {room} are left")]
    JournalFull { need: u64, room: u64 },
    #[error("no memory")]
    NoMemory,
    /// The disk failed, and its count of faults rose. From now on the store is closed: a crash may leave the history
    /// with the entry or without it, and only a new mount says which.
    #[error("the disk failed")]
    Fault,
}

impl From<StepRefused> for SubmitError {
    ghost use Rattle.qz_types.specs.Errors.{submit_error};

    ghost from_gives = { λ refused e. e ≡ submit_error refused };

    fn from(refused: StepRefused) -> SubmitError {
        match refused {
            StepRefused::Refused(refusal) => SubmitError::Refused(refusal),
            StepRefused::NoMemory => SubmitError::NoMemory,
        }
    }
}

impl From<NoMemory> for SubmitError {
    ghost use Rattle.qz_types.specs.declared.errors.SubmitError.TheVariants as submit;

    ghost from_gives = { λ _ e. e ≡ submit.NoMemory };

    fn from(_error: NoMemory) -> SubmitError {
        SubmitError::NoMemory
    }
}
