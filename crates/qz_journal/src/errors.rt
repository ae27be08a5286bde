//! What the journal's calls answer where they don't succeed.
ghost use Rattle.std.specs.Prelude.{◌≡◌};

use qz_civil::NoMemory;
use std::alloc::{AllocError, AllocFailed};
use thiserror::Error;

/// Why no journal was made. `Fault` is returned only if the disk's count of faults rose in the call.
#[derive(Clone, Copy, PartialEq, Eq, Debug, Error)]
pub enum CreateError {
    /// The disk begins as a store of this kind does, in any version.
    #[error("the store exists")]
    Exists,
    /// The disk begins as a store of the other kind does, in any version.
    #[error("the disk holds the other store")]
    OtherKind,
    #[error("the disk failed")]
    Fault,
}

/// Why no new store was made and opened, in the order in which the causes are looked for. `Fault` is returned only if the disk's
/// count of faults rose in the call.
#[derive(Clone, Copy, PartialEq, Eq, Debug, Error)]
pub enum NewStoreError {
    /// The disk begins as a store of this kind does, in any version.
    #[error("the store exists")]
    Exists,
    /// The disk begins as a store of the other kind does, in any version.
    #[error("the disk holds the other store")]
    OtherKind,
    /// There is no memory for what an open store needs. Nothing was written.
    #[error("no memory")]
    NoMemory,
    #[error("the disk failed")]
    Fault,
}

/// Why no journal was opened. `Fault` is returned only if the disk's count of faults rose in the call.
#[derive(Clone, Copy, PartialEq, Eq, Debug, Error)]
pub enum MountError {
    #[error("the disk failed")]
    Fault,
    /// The first 16 bytes aren't all there, or aren't the header of a store of this kind.
    #[error("no store of this kind")]
    NotAStore,
    /// At this offset, in bytes, the least such, a gate is missing, or it is open and the length after it isn't 1 to
    /// 32768, or the length or the payload passes the end.
    #[error("the store is damaged at {at}")]
    Damaged { at: u64 },
    #[error("no memory")]
    NoMemory,
}

/// A payload needs more bytes than are left. Both numbers are in bytes and count from the byte after the gate.
#[derive(Clone, Copy, PartialEq, Eq, Debug, Error)]
#[error("the journal is full: {need} bytes are needed and {room} are left")]
pub struct JournalFull {
    pub need: u64,
    pub room: u64,
}

/// Why a payload wasn't added. `Fault` is returned only if the disk's count of faults rose in the call.
#[derive(Clone, Copy, PartialEq, Eq, Debug, Error)]
pub enum AppendError {
    /// The journal is closed, since a fault of an earlier call or since a crash. The offset, in bytes, is that of the
    /// gate after the last payload that was added: at a fault, the gate of the payload that failed.
    #[error("the journal is closed at {at}")]
    Closed { at: u64 },
    #[error("the journal is full: {need} bytes are needed and {room} are left")]
    JournalFull { need: u64, room: u64 },
    #[error("the disk failed")]
    Fault,
}

impl From<NoMemory> for MountError {
    ghost use Rattle.qz_journal.specs.declared.errors.MountError.TheVariants as mount;

    ghost from_gives = { λ _ e. e ≡ mount.NoMemory };

    fn from(_error: NoMemory) -> MountError {
        MountError::NoMemory
    }
}

impl From<AllocError> for MountError {
    ghost use Rattle.qz_journal.specs.declared.errors.MountError.TheVariants as mount;

    ghost from_gives = { λ _ e. e ≡ mount.NoMemory };

    fn from(_error: AllocError) -> MountError {
        MountError::NoMemory
    }
}

impl<T: Drop> From<AllocFailed<T>> for MountError {
    ghost use Rattle.qz_journal.specs.declared.errors.MountError.TheVariants as mount;

    ghost from_gives = { λ _ e. e ≡ mount.NoMemory };

    fn from(_error: AllocFailed<T>) -> MountError {
        MountError::NoMemory
    }
}
