//! What is the same for all records.

/// The most bytes that a record has; it has at least one.
pub const RECORD_LIMIT: u64 = 32768;

/// The byte that a record begins with, as it is written: version two.
pub(crate) const VERSION: u8 = 2;
