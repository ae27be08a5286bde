//! An open trigger store.
ghost use Rattle.std.specs.Prelude.{◌≡◌, Some};
ghost use Rattle.qz_model.specs.History.{replay_from, replies_from, moments_from};
ghost use Rattle.qz_stores.specs.View.{base_of, found_of, added_of};
ghost use Rattle.qz_trigger_store.specs.declared.accepted.Accepted.{Accepted as AcceptedData};

use crate::accepted::Accepted;
use crate::triggers::Triggers;
use qz_disk::Disk;
use qz_stores::Store;
use std::alloc::Global;

/// A trigger store on a disk. Its history is a base and a list of entries since. The base is how many entries came before, and
/// the tables that they left: those of a new store, in the version that the header of the disk has, or those of the snapshot
/// that it was opened from. Each entry was accepted at the tables that those before it left. The disk holds their records; the
/// store keeps the tables after the last, and where it was opened so also the entries that it accepted itself.
#[derive(Drop)]
pub struct TriggerStore<D: Disk> {
    pub(crate) alloc: Global,
    pub(crate) store: Store<D, Triggers>,
    // what it accepted, where that is kept
    pub(crate) accepted: Option<Accepted>,
    ghost entries: { (a : AcceptedData) → accepted ≡ Some a → a.entries.items ≡ added_of store },
    ghost moments: { (a : AcceptedData) → accepted ≡ Some a → a.moments.items ≡ moments_from (replay_from (base_of store) (found_of store)) (added_of store) },
    ghost replies: { (a : AcceptedData) → accepted ≡ Some a → a.replies.items ≡ replies_from (replay_from (base_of store) (found_of store)) (added_of store) },
}
