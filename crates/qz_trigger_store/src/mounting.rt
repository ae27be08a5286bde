//! Opening what is on a disk.
ghost use Rattle.std.specs.Prelude.{◌≡◌, ◌⊎◌, ◌+◌, ◌-◌, ◌≤◌, [], length, None, IfOk, IfErr, IfSome, MatchResult, is_some};
ghost use Rattle.qz_civil.specs.Causes.{Rose};
ghost use Rattle.qz_journal.specs.Slots.{slots_of as slots_in, slot_in_use};
ghost use Rattle.qz_journal.specs.Tails.{start_of};
ghost use Rattle.qz_journal.specs.Through.{OnlyReads, OnlyReadsUnless};
ghost use Rattle.qz_trigger_store.specs.Bytes.{Whole, list_of, IsWhole, BeginsNew, Stands, StandsFrom};
ghost use Rattle.qz_trigger_store.specs.Opening.{IsOpened, IsRefused};
ghost use Rattle.qz_trigger_store.specs.View.{view, version_of, found_of, added_of, behind_of, slots_of, opened_of, keeps_of, keeps_entries, disk_state, GoesOnFrom};

use crate::{Accepted, Keep, TriggerStore};
use qz_disk::Disk;
use qz_journal::MountError;
use qz_stores::Store;
use std::alloc::Global;

impl<D: Disk> TriggerStore<D> {
    /// Opens the store that is on a disk, of the version that its header has, from the slot in use on: its base is the tables of
    /// the snapshot there, or of a new store where no slot is open, and it replays the entries since. It syncs first, so that
    /// what it reads is what a crash leaves, and writes nothing. An `Err` hands the disk back. `NotAStore` is returned where the
    /// header isn't a trigger store's. `Damaged` names the bad gate that cuts off the snapshot in use; else the gate of the slot in use
    /// also where no snapshot of valid tables stands there, and else also the gate of the first payload that is no part of a
    /// snapshot, and is no record or whose command is refused. `Fault` is returned only where the disk's count of faults rose.
    /// What the store keeps in memory is said by `keep`.
    pub fn mount(alloc: Global, disk: D, keep: Keep) -> Result<TriggerStore<D>, (MountError, D)>
        ensures opened { IfOk result (λ store. IsOpened (view store)) }
        ensures nothing_added { IfOk result (λ store. added_of store ≡ []) }
        ensures keeps { IfOk result (λ store. keeps_of store ≡ keeps_entries keep) }
        ensures behind { IfOk result (λ store. behind_of store ≡ length (found_of store)) }
        ensures begins { IfOk result (λ store. slot_in_use (slots_of store) ≡ None → BeginsNew (version_of store) (view store).history) }
        ensures bytes { D.honest → IfOk result (λ store. (opened_of store ≡ (D.state disk).content) × (slots_of store ≡ slots_in (D.state disk).content)) }
        ensures stands { D.honest → IfOk result (λ store. StandsFrom (version_of store) (D.state disk).content (view store).history) }
        // Where no slot is open, what was found is the whole list, and it starts as a new store does.
        ensures without_slots { D.honest → IfOk result (λ store. slot_in_use (slots_in (D.state disk).content) ≡ None
            → IsWhole (list_of (version_of store) (found_of store)) (D.state disk).content) }
        ensures reads { D.honest → IfOk result (λ store. OnlyReads (D.state disk) (disk_state store)) }
        // No more is read than the header and what stands from the slot's offset on.
        ensures reads_tail { D.honest → MatchResult result
            (λ store. (disk_state store).bytes_read ≤ (D.state disk).bytes_read + (16 + (length (D.state disk).content - start_of (slots_in (D.state disk).content))))
            (λ e. (D.state e.1).bytes_read ≤ (D.state disk).bytes_read + (16 + (length (D.state disk).content - start_of (slots_in (D.state disk).content)))) }
        ensures reads_err { D.honest → IfErr result (λ e. OnlyReadsUnless (e.0 ≡ MountError.Fault) (D.state disk) (D.state e.1)) }
        ensures refused { D.honest → IfErr result (λ e. IsRefused (D.state disk).content e.0) }
        // Where the bytes hold a whole list, the store has an end of it, or memory or the disk fails.
        ensures whole { D.honest → (w : Whole) → IsWhole w (D.state disk).content
            → MatchResult result (λ store. GoesOnFrom store w × Stands w (D.state disk).content (view store).history) (λ e. (e.0 ≡ MountError.Fault) ⊎ (e.0 ≡ MountError.NoMemory)) }
        ensures later { IfOk result (λ store. D.faults disk ≤ (view store).faults) }
        ensures fault { IfErr result (λ e. (D.faults disk ≤ D.faults e.1)
            × (e.0 ≡ MountError.Fault → Rose (D.faults disk) (D.faults e.1))) }
    {
        match Store::mount(alloc, disk) {
            Ok(store) => Ok(TriggerStore {
                alloc,
                store,
                accepted: nothing_accepted(alloc, keep),
            }),
            Err(refused) => Err(refused),
        }
    }
}

// What a store that keeps this has of its entries before the first.
pub(crate) fn nothing_accepted(alloc: Global, keep: Keep) -> Option<Accepted>
    ensures keeps { is_some result ≡ keeps_entries keep }
    ensures none { IfSome result (λ a. (a.entries.items ≡ []) × (a.moments.items ≡ []) × (a.replies.items ≡ [])) }
{
    match keep {
        Keep::Tables => None,
        Keep::Entries => Some(Accepted::new(alloc)),
    }
}
