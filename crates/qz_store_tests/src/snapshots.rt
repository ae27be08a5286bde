//! A store that opens at a snapshot and goes on there, and a checkpoint of a cluster.
use crate::entries::{ACQUIRE, ADD_JOB, ADD_TRIGGER, Came, FIRE, JOIN, submit, takes};
use qz_cluster::{Checked, Cluster};
use qz_disk::{Disk, MemDisk};
use qz_journal::{STATES, TRIGGERS, create};
use qz_trigger_store::{Keep, TriggerStore};
use std::alloc::Global;

/// A disk with a new store of this kind.
pub(super) fn new_disk(alloc: Global, kind: u8) -> Option<MemDisk> {
    let mut disk = MemDisk::new(alloc);
    let made = create(&mut disk, kind);
    if made.is_ok() {
        Some(disk)
    } else {
        drop(disk);
        None
    }
}

// Whether a snapshot is made, after which no entry is to be replayed.
fn is_marked<D: Disk>(store: &mut TriggerStore<D>) -> bool {
    store.checkpoint().ok() == Some(true) && store.behind() == 0
}

// Whether there are five entries, of which this many are listed, and two came after the snapshot.
fn has_two_after<D: Disk>(store: &TriggerStore<D>, listed: u64) -> bool {
    store.history_len() == 5 && store.listed() == listed && store.behind() == 2
}

// The disk of a store with a snapshot after three of five entries.
fn with_snapshot<D: Disk>(alloc: Global, disk: D) -> Option<D> {
    match TriggerStore::mount(alloc, disk, Keep::Tables) {
        Ok(mut store) => {
            let taken = takes(alloc, &mut store, &[ADD_JOB, ADD_TRIGGER, JOIN])
                && is_marked(&mut store)
                && takes(alloc, &mut store, &[ACQUIRE, FIRE]);
            let is_right = taken && has_two_after(&store, 5);
            let disk = store.into_disk();
            if is_right { Some(disk) } else { None }
        }
        Err(error) => {
            drop(error);
            None
        }
    }
}

// Whether it opens there, still has the job of before the snapshot, and makes another snapshot.
fn opens_there<D: Disk>(alloc: Global, disk: D) -> bool {
    match TriggerStore::mount(alloc, disk, Keep::Tables) {
        Ok(mut store) => {
            let opened = has_two_after(&store, 2);
            let has_job = submit(alloc, &mut store, ADD_JOB) == Came::Refused;
            let marked = is_marked(&mut store) && store.history_len() == 5;
            drop(store);
            opened && has_job && marked
        }
        Err(error) => {
            drop(error);
            false
        }
    }
}

fn is_opened_at_its_snapshot(alloc: Global) -> Option<bool> {
    let disk = with_snapshot(alloc, new_disk(alloc, TRIGGERS)?)?;
    Some(opens_there(alloc, disk))
}

#[test]
fn a_store_opens_at_its_snapshot(rt: HostRuntime) {
    assert!(rt; is_opened_at_its_snapshot(rt.alloc()) == Some(true));
}

// Whether a new cluster makes a snapshot of its trigger store.
fn is_checked<D: Disk>(alloc: Global, triggers: D, states: D) -> bool {
    match Cluster::mount(alloc, triggers, states, Keep::Tables) {
        Ok(mut cluster) => {
            let checked = cluster.behind() == 0 && cluster.checkpoint().ok() == Some(Checked::Done);
            drop(cluster.into_disks());
            checked
        }
        Err(error) => {
            drop(error);
            false
        }
    }
}

fn is_cluster_checked(alloc: Global) -> Option<bool> {
    Some(is_checked(alloc, new_disk(alloc, TRIGGERS)?, new_disk(alloc, STATES)?))
}

#[test]
fn a_cluster_makes_a_snapshot(rt: HostRuntime) {
    assert!(rt; is_cluster_checked(rt.alloc()) == Some(true));
}
