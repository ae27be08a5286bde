//! What a store shows of itself.
ghost use Rattle.std.specs.Prelude.{◌≡◌, ◌+◌, ◌≤◌, true, length, not, is_some, IfSome};
ghost use Rattle.qz_journal.specs.Layout.{is_version};
ghost use Rattle.qz_types.specs.Words.{member_of};
ghost use Rattle.qz_model.specs.History.{replay};
ghost use Rattle.qz_model.specs.Invariant.{TablesValid};
ghost use Rattle.qz_trigger_store.specs.Bytes.{Whole};
ghost use Rattle.qz_trigger_store.specs.Entries.{is_old};
ghost use Rattle.qz_trigger_store.specs.Opening.{OpensWith};
ghost use Rattle.qz_trigger_store.specs.View.{view, version_of, added_of, behind_of, moments_of, replies_of, keeps_of, tables_of, disk_of, disk_state, GoesOnFrom};

use crate::{Accepted, TriggerStore};
use qz_disk::Disk;
use qz_tables::Tables;
use qz_types::Text;

impl<D: Disk> TriggerStore<D> {
    /// The version of the format that the store's header has: 1 or 2. A store of version 1 stays one when it is upgraded.
    pub fn version(&self) -> u8
        ensures value { result ≡ version_of self.now }
        ensures known { is_version result ≡ true }
    {
        self.store.version()
    }

    /// Whether the store is one of version 1 that wasn't upgraded. It takes no command but an Upgrade, and no fire time
    /// passes 2099.
    pub fn is_old(&self) -> bool
        ensures { result ≡ is_old (replay (view self.now).history) }
    {
        self.store.state().is_old()
    }

    /// How many entries there are in all, those before the base counted.
    pub fn history_len(&self) -> u64
        ensures { result ≡ (view self.now).history.base_count + length (view self.now).history.entries }
    {
        self.store.history_len()
    }

    /// How many entries the history lists, those before the base left out.
    pub fn listed(&self) -> u64
        ensures { result ≡ length (view self.now).history.entries }
    {
        self.store.listed()
    }

    /// How many entries came after the snapshot in use, or in all where no slot is open.
    pub fn behind(&self) -> u64
        ensures value { result ≡ behind_of self.now }
        ensures few { result ≤ (view self.now).history.base_count + length (view self.now).history.entries }
        // So many entries does the next opening list, where the disk held a whole list when the store was opened.
        ensures next { D.honest → (view self.now).is_open ≡ true → (w : Whole) → GoesOnFrom self.now w → OpensWith (disk_state self.now).content result }
    {
        self.store.behind()
    }

    /// Whether a call of this store was answered `Fault`, or a restart of it began and didn't end.
    pub fn closed(&self) -> bool
        ensures { result ≡ not (view self.now).is_open }
    {
        self.store.closed()
    }

    /// Whether a node of this name is a member.
    pub fn is_member(&self, node: &Text) -> bool
        ensures { result ≡ is_some (member_of node.now (replay (view self.now).history).members) }
    {
        self.tables().get_member(node).is_some()
    }

    /// The tables that the history leaves, which are valid.
    pub fn tables(&self) -> &Tables
        ensures kept { result.now.tables ≡ tables_of self.now }
        ensures value { result.now.tables ≡ replay (view self.now).history }
        ensures valid { TablesValid result.now.tables }
    {
        self.store.state().tables.tables()
    }

    /// The entries that were accepted since the mount, if the store keeps them.
    pub fn accepted(&self) -> Option<&Accepted>
        ensures keeps { is_some result ≡ keeps_of self.now }
        ensures entries { IfSome result (λ a. a.now.entries.items ≡ added_of self.now) }
        ensures moments { IfSome result (λ a. a.now.moments.items ≡ moments_of self.now) }
        ensures replies { IfSome result (λ a. a.now.replies.items ≡ replies_of self.now) }
    {
        self.accepted.as_ref()
    }

    /// Gives the disk back.
    pub fn into_disk(self) -> D
        ensures { result ≡ disk_of self }
    {
        let TriggerStore {
            alloc: _,
            store,
            accepted: _,
        } = self;
        store.into_disk()
    }
}
