//! The calls that a disk in memory records.
use qz_civil::List;

/// A call that answered Ok. Offsets and counts are in bytes.
#[derive(Drop, PartialEq, Eq, Debug)]
pub enum Call {
    Len,
    Read { at: u64, count: u64 },
    Write { at: u64, bytes: List<u8> },
    Sync,
    /// The image is what the restart brought up.
    Restart { image: List<u8> },
}
