//! Where a stream stands, and what a call answers.
use thiserror::Error;

/// Where a stream stands after the bytes that were fed so far.
#[derive(Clone, Copy, PartialEq, Eq, Debug)]
pub enum Place {
    /// Fewer than the 16 bytes of the header are there, and none of them is bad.
    Header,
    /// The next byte is a gate; or a gate is open, and the payload after it isn't whole.
    Block,
    /// A payload is whole, and no byte after it was read.
    Whole,
    /// A gate isn't open. All bytes after it are passed over.
    Ended,
    /// The bytes have a bad place. All bytes after it are passed over.
    Bad,
}

/// What became of a piece.
#[derive(Clone, Copy, PartialEq, Eq, Debug)]
pub enum Next {
    /// A payload is whole after so many bytes of the piece. The others weren't read.
    Payload { used: usize },
    /// The piece is used up, and no payload is whole.
    More,
    /// The stream has ended at a gate that isn't open. What is left of the piece is passed over.
    Ended,
}

/// At this offset, in bytes, stands the first place that no trigger store has: one of the first six bytes, or an open gate
/// whose payload would be empty, longer than 32768 bytes, or beyond the 2^29 bytes that a store may have.
#[derive(Clone, Copy, PartialEq, Eq, Debug, Error)]
#[error("no trigger store: a bad place at {at}")]
pub struct BadStream {
    pub at: u64,
}
