//! A script in progress.
ghost use Rattle.qz_cluster.specs.View.{IsTold};

use qz_cluster::Cluster;
use qz_disk::Disk;
use std::alloc::Global;
use std::snapshot::Snapshot;

/// The cluster that a script works on, and the states that it went through, which contracts alone see and which take
/// no bytes: the first as the stores were opened, then one after each step that was answered.
#[derive(Drop)]
pub(crate) struct Run<D: Disk> {
    pub(crate) alloc: Global,
    pub(crate) cluster: Cluster<D>,
    pub(crate) trail: Vec<Snapshot<Cluster<D>>>,
    /// The cluster as it was when the script began, which contracts alone see.
    pub(crate) begun: Snapshot<Cluster<D>>,
    /// Whether the disks are the call's own. That one fails is then want of memory.
    pub(crate) is_own: bool,
    // Disks that told what they hold when the script began still do.
    ghost told: { IsTold begun.value → ∥ IsTold cluster ∥₁ },
}
