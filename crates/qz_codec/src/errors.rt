//! Why bytes could not be read.

use thiserror::Error;

/// Why bytes were not read as a record.
#[derive(Clone, Copy, PartialEq, Eq, Debug, Error)]
pub enum ReadError {
    /// The bytes are no record. `at` is the place, from 0, of the first byte of the first wrong field: one that isn't
    /// whole, is out of its range, or breaks a rule together with the fields before it. Where only bytes after the
    /// record are too many, it is the record's end.
    #[error("no record: the field at byte {at} is wrong")]
    BadRecord { at: u32 },
    /// Memory ran out. Nothing is known of the bytes.
    #[error("no memory")]
    NoMemory,
}
