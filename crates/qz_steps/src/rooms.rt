//! How full the stores are, and what comes of a checkpoint.

/// How full a store is.
#[derive(Clone, Copy, PartialEq, Eq, Debug)]
pub struct Fill {
    /// The offset of the closed gate: how many bytes stand before it, the header counted.
    pub bytes: u64,
    /// How many payloads stand before it: entries and parts of snapshots.
    pub payloads: u64,
}

/// How full both stores are.
#[derive(Clone, Copy, PartialEq, Eq, Debug)]
pub struct Room {
    pub triggers: Fill,
    /// How many entries of the trigger store came after its last snapshot, or in all where there is none.
    pub behind: u64,
    pub states: Fill,
}

/// What came of a checkpoint, where the disk didn't fail.
#[derive(Clone, Copy, PartialEq, Eq, Debug)]
pub enum Marked {
    /// A snapshot was made.
    Made,
    /// The snapshot has no room in the store, and nothing was done.
    NoRoom,
}
