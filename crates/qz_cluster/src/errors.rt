//! Why stores weren't opened, and what ends a run of steps.
ghost use Rattle.std.specs.Prelude.{◌≡◌};

use qz_trigger_store::MountError;
use qz_types::{NoMemory, Store};
use std::alloc::AllocError;
use thiserror::Error;

/// Which store wasn't opened, and why.
#[derive(Clone, Copy, PartialEq, Eq, Debug)]
pub struct MountFault {
    pub store: Store,
    pub error: MountError,
}

/// Why a step has no answer. After an error of a restart both stores are closed; after any other nothing is done, except
/// that a join may have checked in.
#[derive(Clone, Copy, PartialEq, Eq, Debug, Error)]
pub enum StepEnd {
    /// The step would be accepted, and its record needs more bytes than are left.
    #[error("the journal is full: {need} bytes are needed and {room} are left")]
    JournalFull { need: u64, room: u64 },
    /// A restart found no store on this disk. No honest disk that held a whole list loses one.
    #[error("the disk has no store any more")]
    NotAStore { store: Store },
    /// A restart found a damaged store, at this offset. No honest disk that held a whole list damages one.
    #[error("the store is damaged at {at}")]
    Damaged { store: Store, at: u64 },
    #[error("no memory")]
    NoMemory,
}

impl From<NoMemory> for StepEnd {
    ghost use Rattle.qz_cluster.specs.declared.errors.StepEnd.TheVariants as ends;

    ghost from_gives = { λ _ e. e ≡ ends.NoMemory };

    fn from(_error: NoMemory) -> StepEnd {
        StepEnd::NoMemory
    }
}

impl From<AllocError> for StepEnd {
    ghost use Rattle.qz_cluster.specs.declared.errors.StepEnd.TheVariants as ends;

    ghost from_gives = { λ _ e. e ≡ ends.NoMemory };

    fn from(_error: AllocError) -> StepEnd {
        StepEnd::NoMemory
    }
}
