//! Entries of the worked examples as their records, all at 2024-01-01T00:00:00Z.
use qz_codec::get_command;
use qz_disk::Disk;
use qz_trigger_store::{SubmitError, TriggerStore};
use qz_types::Entry;
use std::alloc::Global;

/// A client adds the job `report`.
pub(super) const ADD_JOB: &[u8] =
    b"\x02\0\0\x01\x8c\xc2Q\xf4\0\0\0\0\0\0\0\0\x07DEFAULT\0\x06report\0\x02ok\0\0\0\0\0\0";

/// A client adds its trigger `t1`, which fires once, at that moment.
pub(super) const ADD_TRIGGER: &[u8] =
    b"\x02\0\0\x01\x8c\xc2Q\xf4\0\0\0\0\0\0\x02\0\x07DEFAULT\0\x02t1\0\x07DEFAULT\0\x06rep\
    ort\0\0\0\x05\0\0\0\0\0\0\0\0\0\0\0\0\0\0\0\0\0\0\0\0\0\x01\x8c\xc2Q\xf4\0\0\0";

/// A joins, with the epoch 1.
pub(super) const JOIN: &[u8] = b"\x02\0\0\x01\x8c\xc2Q\xf4\0\0\0\0\0\0\x0e\0\x01A";

/// A acquires what is due then, which gets the entry number 1.
pub(super) const ACQUIRE: &[u8] =
    b"\x02\0\0\x01\x8c\xc2Q\xf4\0\x01\0\x01A\0\0\0\0\0\0\0\x01\0\0\0\0\x10\0\0\x01\x8c\xc2\
    Q\xf4\0\0\0\0\0\0\0\0\0\0\0\0\x01";

/// A fires the entry 1.
pub(super) const FIRE: &[u8] =
    b"\x02\0\0\x01\x8c\xc2Q\xf4\0\x01\0\x01A\0\0\0\0\0\0\0\x01\0\0\0\0\x12\0\0\0\0\0\0\0\
    \x01";

/// A completes it.
pub(super) const COMPLETE: &[u8] =
    b"\x02\0\0\x01\x8c\xc2Q\xf4\0\x01\0\x01A\0\0\0\0\0\0\0\x01\0\0\0\0\x13\0\0\0\0\0\0\0\
    \x01\0";

/// The entry of a record.
pub(super) fn entry_of(alloc: Global, record: &[u8]) -> Option<Entry> {
    get_command(alloc, record).ok()
}

/// What came of an entry.
#[derive(Clone, Copy, PartialEq)]
pub(super) enum Came {
    Accepted,
    Refused,
    /// The disk failed.
    Failed,
    Other,
}

/// What a store answers to the entry of a record.
pub(super) fn submit<D: Disk>(alloc: Global, store: &mut TriggerStore<D>, record: &[u8]) -> Came {
    let Some(entry) = entry_of(alloc, record) else {
        return Came::Other;
    };
    match store.submit(entry) {
        Ok(reply) => {
            drop(reply);
            Came::Accepted
        }
        Err(SubmitError::Refused(refusal)) => {
            drop(refusal);
            Came::Refused
        }
        Err(SubmitError::Fault) => Came::Failed,
        Err(error) => {
            drop(error);
            Came::Other
        }
    }
}

/// Whether a store accepts the entries of all these records.
pub(super) fn takes<D: Disk>(
    alloc: Global,
    store: &mut TriggerStore<D>,
    records: &[&[u8]],
) -> bool {
    for record in records {
        if submit(alloc, store, record) != Came::Accepted {
            return false;
        }
    }
    true
}
