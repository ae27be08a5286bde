//! What a call gives back.
use qz_disk::Disk;
use qz_top::Status;

/// How a call ended, with the disks that it was handed, that of triggers first. There are none only with `NoMemory`, where the
/// stores were given up.
#[derive(Drop)]
pub struct Served<D: Disk> {
    pub status: Status,
    pub disks: Option<(D, D)>,
}
