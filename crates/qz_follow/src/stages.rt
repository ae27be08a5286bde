//! How far a follower has come with the base of its stream.

/// Where a stream's entries begin: with a new store, or with the tables of its base, which is the snapshot at the slot in use.
#[derive(Clone, Copy, PartialEq, Eq, Debug)]
pub enum Stage {
    /// No payload is whole, so it isn't known whether there is a base.
    First,
    /// There is one, its snapshot isn't whole, and the gate of the slot that leads to it is here.
    Awaited { slot: u64 },
    /// There is none, or it was read.
    Settled,
}
