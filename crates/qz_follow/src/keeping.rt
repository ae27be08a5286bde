//! What a follower keeps in memory.

/// What a follower keeps beside its tables and the payload that isn't whole yet.
#[derive(Clone, Copy, PartialEq, Eq, Debug)]
pub enum Keeping {
    /// Nothing: its memory doesn't grow with the stream, but with its tables alone. It can't be promoted.
    Tables,
    /// The payloads of records, as they came: a promotion writes them into the new store byte for byte. Its memory grows with them.
    Payloads,
}
