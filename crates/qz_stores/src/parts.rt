//! What a store shows of itself.
ghost use Rattle.std.specs.Prelude.{◌≡◌, ◌≤◌, ◌+◌, true, ◌++◌, length, not};
ghost use Rattle.qz_journal.specs.Layout.{is_version};
ghost use Rattle.qz_stores.specs.Bases.{WholeList};
ghost use Rattle.qz_stores.specs.Kinds.{replay};
ghost use Rattle.qz_stores.specs.Opening.{OpensWith};
ghost use Rattle.qz_stores.specs.View.{view, version_of, base_count_of, behind_of, found_of, added_of, kept_of, disk_of, disk_state, GoesOnFrom};

use crate::{Kind, Store};
use qz_disk::Disk;

impl<D: Disk, K: Kind> Store<D, K> {
    /// The version of the format that the store has: 1 or 2.
    pub fn version(&self) -> u8
        ensures value { result ≡ version_of self.now }
        ensures known { is_version result ≡ true }
    {
        self.version
    }

    /// How many entries there are in all, those that came before the base counted.
    pub fn history_len(&self) -> u64
        ensures { result ≡ base_count_of self.now + length (found_of self.now ++ added_of self.now) }
    {
        self.count
    }

    /// How many entries the history lists: those before the base are left out.
    pub fn listed(&self) -> u64
        ensures { result ≡ length (found_of self.now ++ added_of self.now) }
    {
        self.count - self.base_count
    }

    /// How many entries came after the snapshot in use, or in all where no slot is open.
    pub fn behind(&self) -> u64
        ensures value { result ≡ behind_of self.now }
        ensures few { result ≤ base_count_of self.now + length (found_of self.now ++ added_of self.now) }
        // So many entries does the next opening list, where the disk held a whole list when the store was opened.
        ensures next { D.honest → (view self.now).is_open ≡ true → (w : WholeList K.State K.Entry) → GoesOnFrom self.now w → OpensWith K.kind (disk_state self.now).content result }
    {
        self.count - self.snapshot
    }

    /// Whether a call of this store was answered `Fault`, or a restart of it began and didn't end.
    pub fn closed(&self) -> bool
        ensures { result ≡ not (view self.now).is_open }
    {
        !self.is_open
    }

    /// The state that the history leaves.
    pub fn state(&self) -> &K
        ensures kept { result.now ≡ kept_of self.now }
        ensures value { K.state result.now ≡ replay K.kind (view self.now).history }
    {
        &self.state
    }

    /// The offset, in bytes, of the gate after the last record.
    pub fn gate(&self) -> u64
        ensures { result ≡ (view self.now).gate }
    {
        self.journal.gate()
    }

    /// Gives the disk back.
    pub fn into_disk(self) -> D
        ensures { result ≡ disk_of self }
    {
        let Store {
            alloc: _,
            journal,
            version: _,
            base_count: _,
            base: _,
            count: _,
            snapshot: _,
            state: _,
            opened: _,
            found: _,
            added: _,
            is_open: _,
            undecided,
        } = self;
        drop(undecided);
        journal.into_disk()
    }
}
