//! What a follower answers where it doesn't go on.
ghost use Rattle.std.specs.Prelude.{◌≡◌};

use std::alloc::AllocError;
use thiserror::Error;

/// Why a stream isn't followed any further. The first cause in the order of the bytes is answered, and at one gate
/// `BadStream` before `JournalFull`. Memory may be wanted for any payload.
#[derive(Clone, Copy, PartialEq, Eq, Debug, Error)]
pub enum FollowFault {
    /// At this offset, in bytes, stands the first bad place: one of the first six bytes that no trigger store has there; a gate
    /// whose payload would be empty, longer than 32768 bytes, or beyond the 2^29 bytes that a store may have; the gate of a
    /// payload that is no part of a snapshot, and no record of a transaction that is accepted; or the gate of the slot in use, 6 or
    /// 11, where the first payload is a part of a snapshot, and none that an opening takes begins where that slot leads.
    #[error("bad stream at {at}")]
    BadStream { at: u64 },
    /// A store that has the records alone has no room for the next one. Both numbers are in bytes.
    #[error("the journal is full: {need} bytes are needed and {room} are left")]
    JournalFull { need: u64, room: u64 },
    #[error("no memory")]
    NoMemory,
}

impl From<AllocError> for FollowFault {
    ghost use Rattle.qz_follow.specs.declared.faults.FollowFault.TheVariants as fault;

    ghost from_gives = { λ _ e. e ≡ fault.NoMemory };

    fn from(_error: AllocError) -> FollowFault {
        FollowFault::NoMemory
    }
}
