//! An entry whose disk fails, a restart, and a store that goes on with what is found there.
use crate::entries::{ADD_JOB, Came, JOIN, submit, takes};
use crate::snapshots::new_disk;
use qz_disk::{CutDisk, Disk};
use qz_journal::TRIGGERS;
use qz_trigger_store::{Keep, TriggerStore};
use std::alloc::Global;

// Restarts a store. Whether it was closed meanwhile, with this many entries, and is open now with so many.
fn restarts<D: Disk>(store: &mut TriggerStore<D>, before: u64, after: u64) -> bool {
    if store.crash().is_err() {
        return false;
    }
    match store.reread() {
        Ok(reread) => {
            let closed = store.closed() && store.history_len() == before;
            store.open(reread);
            let anew = match store.accepted() {
                Some(accepted) => accepted.entries().is_empty() && accepted.moments().is_empty(),
                None => false,
            };
            closed && anew && !store.closed() && store.history_len() == after
        }
        Err(_) => false,
    }
}

// Whether a store takes a job, fails at a node and is closed then, restarts with this many entries, takes the node after that, and
// restarts once more with so many.
fn goes_on<D: Disk>(alloc: Global, store: &mut TriggerStore<D>, found: u64, after: u64) -> bool {
    takes(alloc, store, &[ADD_JOB])
        && submit(alloc, store, JOIN) == Came::Failed
        && submit(alloc, store, JOIN) == Came::Other
        && restarts(store, 1, found)
        && takes(alloc, store, &[JOIN])
        && restarts(store, after, after)
}

// The same on a disk that is cut after so many calls.
fn goes_on_cut(alloc: Global, calls: u64, found: u64, after: u64) -> bool {
    let Some(disk) = new_disk(alloc, TRIGGERS) else {
        return false;
    };
    match TriggerStore::mount(alloc, CutDisk::new(disk, calls), Keep::Entries) {
        Ok(mut store) => {
            let is_right = goes_on(alloc, &mut store, found, after);
            drop(store);
            is_right
        }
        Err(error) => {
            drop(error);
            false
        }
    }
}

#[test]
fn an_undecided_entry_is_decided_by_a_restart(rt: HostRuntime) {
    // A mount makes four calls and a submit makes four: the second submit is cut after none of its calls, or 1, 2 or 3.
    for (calls, found, after) in [(8, 1, 2), (9, 1, 2), (10, 1, 2), (11, 2, 3)] {
        assert!(rt;
            goes_on_cut(rt.alloc(), calls, found, after),
            "after {calls} calls"
        );
    }
}
