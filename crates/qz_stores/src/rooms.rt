//! How full a store is.
ghost use Rattle.std.specs.Prelude.{◌≡◌};
ghost use Rattle.qz_stores.specs.View.{view};

use crate::{Kind, Store};
use qz_disk::Disk;

impl<D: Disk, K: Kind> Store<D, K> {
    /// How many payloads stand before the closed gate: entries, parts of snapshots, and those that were before the snapshot
    /// from which the store was opened.
    pub fn payloads(&self) -> u64
        ensures { result ≡ (view self.now).payloads }
    {
        self.journal.payloads()
    }
}
