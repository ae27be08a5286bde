//! Checkpoints that are cut off.
use crate::entries::{ACQUIRE, ADD_JOB, ADD_TRIGGER, COMPLETE, FIRE, JOIN, takes};
use crate::snapshots::new_disk;
use qz_disk::{CutDisk, Disk, MemDisk};
use qz_journal::TRIGGERS;
use qz_trigger_store::{Keep, SubmitError, TriggerStore};
use std::alloc::Global;

/// Six entries that leave a member alone.
const SIX: &[&[u8]] = &[ADD_JOB, ADD_TRIGGER, JOIN, ACQUIRE, FIRE, COMPLETE];

// Whether so many snapshots are made.
fn is_marked<D: Disk>(store: &mut TriggerStore<D>, snapshots: u32) -> bool {
    for _ in 0..snapshots {
        if store.checkpoint().ok() != Some(true) {
            return false;
        }
    }
    true
}

// The disk of a store with six entries and, after these, so many snapshots.
fn with_six(alloc: Global, snapshots: u32) -> Option<MemDisk> {
    match TriggerStore::mount(alloc, new_disk(alloc, TRIGGERS)?, Keep::Tables) {
        Ok(mut store) => {
            let is_right = takes(alloc, &mut store, SIX) && is_marked(&mut store, snapshots);
            let disk = store.into_disk();
            if is_right {
                Some(disk)
            } else {
                drop(disk);
                None
            }
        }
        Err(error) => {
            drop(error);
            None
        }
    }
}

// Whether a store has the six entries and the member.
fn has_six<D: Disk>(alloc: Global, disk: D) -> bool {
    match TriggerStore::mount(alloc, disk, Keep::Tables) {
        Ok(store) => {
            let tables = store.tables();
            let one = tables.len_members() == 1 && tables.len_jobs() == 0;
            let is_right = one && store.history_len() == 6;
            drop(store);
            is_right
        }
        Err(error) => {
            drop(error);
            false
        }
    }
}

// Whether a checkpoint fails on a disk that is cut after so many calls, and all that was there is found after a restart.
fn is_kept(alloc: Global, snapshots: u32, calls: u64) -> Option<bool> {
    let disk = CutDisk::new(with_six(alloc, snapshots)?, calls);
    match TriggerStore::mount(alloc, disk, Keep::Tables) {
        Ok(mut store) => {
            let failed = matches!(store.checkpoint(), Err(SubmitError::Fault)) && store.closed();
            let restarted = store.crash().is_ok();
            let found = has_six(alloc, store.into_disk());
            Some(failed && restarted && found)
        }
        Err(error) => {
            drop(error);
            None
        }
    }
}

#[test]
fn a_checkpoint_that_is_cut_off_loses_nothing(rt: HostRuntime) {
    // An opening makes four calls. A first checkpoint makes 8. The third one has to close a slot before it
    // sets that, and makes 10.
    for (snapshots, many) in [(0, 8), (2, 10)] {
        for calls in 0..many {
            assert!(rt;
                is_kept(rt.alloc(), snapshots, 4 + calls) == Some(true),
                "after {calls} calls behind {snapshots} snapshots"
            );
        }
    }
}
