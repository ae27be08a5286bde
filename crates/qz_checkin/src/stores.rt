//! An open state store.
use crate::rows::States;
use qz_disk::Disk;
use qz_stores::Store;

/// A state store on a disk. Its history is a list of entries, each of which was accepted at the rows that those before
/// it left. The disk holds their records; the store keeps the rows after the last, and how many there are.
#[derive(Drop)]
pub struct StateStore<D: Disk> {
    pub(crate) store: Store<D, States>,
}
