//! Worked examples: a store that begins with a snapshot of its tables.
use crate::entries::{ADD_JOB, ADD_TRIGGER, Came, entry_of, submit};
use qz_disk::{CutDisk, Disk, MemDisk};
use qz_journal::MountError;
use qz_plain::PlainStore;
use qz_stores::CompactError;
use qz_trigger_store::{Keep, TriggerStore};
use std::alloc::Global;

// Tables with a job.
fn with_job(alloc: Global) -> Option<PlainStore> {
    let entry = entry_of(alloc, ADD_JOB)?;
    let mut tables = PlainStore::new(alloc, 2);
    let done = tables.step(entry);
    let is_done = done.is_ok();
    drop(done);
    if is_done {
        Some(tables)
    } else {
        drop(tables);
        None
    }
}

// The disk of a store that began with the job, and took one entry since.
fn with_beginning<D: Disk>(alloc: Global, disk: D) -> Option<D> {
    let tables = with_job(alloc)?;
    match TriggerStore::compacted(alloc, disk, 2, tables, Keep::Tables) {
        Ok(mut store) => {
            let new = store.history_len() == 0 && store.behind() == 0;
            let is_right = new && submit(alloc, &mut store, ADD_TRIGGER) == Came::Accepted;
            let disk = store.into_disk();
            if is_right { Some(disk) } else { None }
        }
        Err(error) => {
            drop(error);
            None
        }
    }
}

// Whether the store opens at its beginning: it has the job and the one entry.
fn opens_at_its_beginning<D: Disk>(alloc: Global, disk: D) -> bool {
    match TriggerStore::mount(alloc, disk, Keep::Tables) {
        Ok(mut store) => {
            let opened = store.history_len() == 1 && store.listed() == 1 && store.behind() == 1;
            let has_job = submit(alloc, &mut store, ADD_JOB) == Came::Refused;
            drop(store);
            opened && has_job
        }
        Err(error) => {
            drop(error);
            false
        }
    }
}

// Whether it is opened so, and no store is begun over it.
fn is_opened_and_kept(alloc: Global) -> Option<bool> {
    let disk = with_beginning(alloc, MemDisk::new(alloc))?;
    let opened = opens_at_its_beginning(alloc, disk);
    let disk = with_beginning(alloc, MemDisk::new(alloc))?;
    let again = with_beginning(alloc, disk);
    let is_kept = again.is_none();
    drop(again);
    Some(opened && is_kept)
}

#[test]
fn a_store_opens_at_its_beginning(rt: HostRuntime) {
    assert!(rt; is_opened_and_kept(rt.alloc()) == Some(true));
}

// Whether there is no store, or the one that began with the job.
fn has_none_or_all<D: Disk>(alloc: Global, disk: D) -> bool {
    match TriggerStore::mount(alloc, disk, Keep::Tables) {
        Ok(store) => {
            let is_whole = store.tables().len_jobs() == 1 && store.history_len() == 0;
            drop(store);
            is_whole
        }
        Err((error, disk)) => {
            drop(disk);
            matches!(error, MountError::NotAStore)
        }
    }
}

// Whether a beginning that is cut off after so many calls fails, and leaves that.
fn is_none_or_all(alloc: Global, calls: u64) -> Option<bool> {
    let disk = CutDisk::new(MemDisk::new(alloc), calls);
    match TriggerStore::compacted(alloc, disk, 2, with_job(alloc)?, Keep::Tables) {
        Ok(store) => {
            drop(store);
            Some(false)
        }
        Err((error, mut disk)) => {
            let failed = error == CompactError::Fault && disk.restart().is_ok();
            Some(failed && has_none_or_all(alloc, disk))
        }
    }
}

#[test]
fn a_beginning_that_is_cut_off_leaves_no_store_or_all(rt: HostRuntime) {
    // Two looks, the header, a group of payloads, a slot and the kind make 14 calls.
    for calls in 0..14 {
        assert!(rt;
            is_none_or_all(rt.alloc(), calls) == Some(true),
            "after {calls} calls"
        );
    }
}
