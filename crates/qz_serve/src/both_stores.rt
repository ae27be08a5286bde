//! Both stores, while no thread is at work on them.
ghost use Rattle.std.specs.Prelude.{◌≡◌, ◌⊎◌, OnOk, Err, true, false};

use qz_disk::Disk;
use qz_shared_stores::{SharedStates, SharedTriggers};
use std::alloc::Global;

/// Both stores of a call, which are the call's own while no thread is at work.
#[derive(Drop)]
pub(crate) struct BothStores<D: Disk> {
    pub(crate) alloc: Global,
    pub(crate) triggers: SharedTriggers<D>,
    pub(crate) states: SharedStates<D>,
}
