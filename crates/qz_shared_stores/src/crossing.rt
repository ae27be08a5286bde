//! What threads may share.
use crate::{SharedStates, SharedTriggers};
use qz_disk::Disk;
use qz_shared::crosses_threads;

/// A law, and no work: the rows of both stores may be shared by threads, and their seats and notes sent to them, wherever
/// their disk may be sent.
pub fn stores_cross_threads<D: Disk + Send>() {
    crosses_threads::<SharedTriggers<D>>();
    crosses_threads::<SharedStates<D>>();
}
