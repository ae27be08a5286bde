//! What threads may share.
use crate::boarded::Boarded;
use qz_disk::Disk;
use qz_shared::crosses_threads;
use std::sync::Wait;

/// A law, and no work: the row of a store with a board may be shared by threads, and its seats and notes sent to them,
/// wherever its disk and its handle may be sent.
pub fn boards_cross_threads<D: Disk + Send, R: Wait + Drop + Send>() {
    crosses_threads::<Boarded<D, R>>();
}
