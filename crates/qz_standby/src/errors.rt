//! Why there are no new stores.
use qz_follow::FollowFault;
use qz_types::Store;
use thiserror::Error;

/// Why a stream wasn't read to its end.
#[derive(Clone, Copy, PartialEq, Eq, Debug, Error)]
pub enum Unread {
    /// A read of the input failed.
    #[error("read fault")]
    Failed,
    /// The follower that the stream was fed to answered this fault; `NoMemory` may also mean that there is no follower.
    #[error("{fault}")]
    Stream { fault: FollowFault },
}

/// Why both stores weren't made. Of several causes the first in this order is answered, where want of memory may come at any time.
#[derive(Clone, Copy, PartialEq, Eq, Debug, Error)]
pub enum Unmade {
    /// A disk begins as its own store does, in any version. Both were only read.
    #[error("the store exists")]
    Exists,
    /// No disk begins as its own store does, and this is the first that begins as the other one. Both were only read.
    #[error("a disk holds the other store")]
    NotAStore { store: Store },
    /// The stream has so many bytes, and that is less than a header; or it ends before the snapshot that it begins with is whole, and this
    /// is the gate of the slot that leads to it. Both disks were only read.
    #[error("the stream ends within what it begins with: a bad place at {at}")]
    Short { at: u64 },
    /// The snapshot needs so many bytes, and a new store has room for so many: both disks were only read. Or the records behind it do:
    /// the disk of triggers has a store without entries then, and the other one was only read.
    #[error("there is no room in a store: {need} bytes are needed and {room} are there")]
    NoRoom { need: u64, room: u64 },
    /// A disk that began with no store has none yet, or one without entries.
    #[error("no memory")]
    NoMemory,
    /// A disk failed while it was looked at, or while its store was made. What began as a store is as it was; what didn't has no store,
    /// or one of the first entries.
    #[error("a disk failed")]
    Fault,
}
