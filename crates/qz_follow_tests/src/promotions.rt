//! A follower that becomes a store.
use crate::streams::{BASED, STORE};
use qz_disk::MemDisk;
use qz_follow::{Follower, Keeping, PromoteFault};
use qz_trigger_store::{Keep, TriggerStore};
use std::alloc::{AllocError, Global};

// What a store has that was promoted: its version, and how many entries.
type Promoted = Result<(u8, u64), PromoteFault>;

// Follows these bytes, promotes the follower onto a new disk, and opens that again.
fn promote(alloc: Global, bytes: &[u8]) -> Option<Promoted> {
    let Ok(mut follower) = Follower::new(alloc, Keeping::Payloads) else {
        return None;
    };
    match follower.feed(bytes) {
        Ok(_) => match follower.promote(MemDisk::new(alloc)) {
            Ok(store) => open_again(alloc, store).map(Ok),
            Err((fault, disk)) => {
                drop(disk);
                Some(Err(fault))
            }
        },
        Err(_) => {
            drop(follower);
            None
        }
    }
}

// The version of a store and how many entries it has, as a mount of its disk says.
fn open_again(alloc: Global, store: TriggerStore<MemDisk>) -> Option<(u8, u64)> {
    match TriggerStore::mount(alloc, store.into_disk(), Keep::Tables) {
        Ok(store) => {
            let found = (store.version(), store.history_len());
            drop(store);
            Some(found)
        }
        Err(refused) => {
            drop(refused);
            None
        }
    }
}

#[test]
fn a_store_is_promoted(rt: HostRuntime) {
    assert!(rt; promote(rt.alloc(), STORE) == Some(Ok((2, 6))));
    // the last payload isn't whole
    assert!(rt; promote(rt.alloc(), &STORE[..297]) == Some(Ok((2, 5))));
}

#[test]
fn a_version_one_store_is_promoted(rt: HostRuntime) -> Result<(), AllocError> {
    let mut bytes = Vec::from_slice(rt.alloc(), STORE)?;
    bytes[4] = 1;
    // an entry that is submitted would be refused there
    assert!(rt; promote(rt.alloc(), &bytes) == Some(Ok((1, 6))));
    Ok(())
}

#[test]
fn a_short_header_isnt_promoted(rt: HostRuntime) {
    assert!(rt; promote(rt.alloc(), &STORE[..15]) == Some(Err(PromoteFault::Short { at: 15 })));
    assert!(rt; promote(rt.alloc(), &STORE[..16]) == Some(Ok((2, 0))));
}

#[test]
fn a_base_is_promoted(rt: HostRuntime) {
    // what is opened again begins with the base, and has the entry behind it
    assert!(rt; promote(rt.alloc(), BASED) == Some(Ok((2, 1))));
    // the snapshot isn't whole
    assert!(rt; promote(rt.alloc(), &BASED[..94]) == Some(Err(PromoteFault::Short { at: 6 })));
}
