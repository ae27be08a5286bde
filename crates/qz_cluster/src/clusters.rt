//! Both stores, and who works on them.
use qz_checkin::StateStore;
use qz_disk::Disk;
use qz_trigger_store::TriggerStore;
use qz_types::MemberRow;
use std::alloc::Global;

/// Both stores, and under which epoch each node that joined works. Epochs are held in memory alone: where a cluster is
/// opened, no node holds one.
#[derive(Drop)]
pub struct Cluster<D: Disk> {
    pub(crate) alloc: Global,
    pub(crate) triggers: TriggerStore<D>,
    pub(crate) states: StateStore<D>,
    /// In the order of the nodes' names.
    pub(crate) held: Vec<MemberRow>,
    /// Whether there are stores: a restart that failed leaves none.
    pub(crate) standing: bool,
}
