//! Many entries more, which another store accepted, with the tables that they leave.
ghost use Rattle.std.specs.Prelude.{◌≡◌, ◌+◌, ◌≤◌, ◌++◌, All, length, IfOk, IfErr, MatchResult, true, false};
ghost use Rattle.std.specs.List.{AllZip};
ghost use Rattle.qz_civil.specs.Causes.{Rose};
ghost use Rattle.qz_disk.specs.Disk.{LeavesOnly};
ghost use Rattle.qz_journal.specs.Commits.{HaveRoom};
ghost use Rattle.qz_journal.specs.Layout.{IsPayload};
ghost use Rattle.qz_model.specs.History.{IsLegalFrom, replay_from};
ghost use Rattle.qz_trigger_store.specs.Bytes.{Whole, IsWhole};
ghost use Rattle.qz_trigger_store.specs.Entries.{IsRecordOf};
ghost use Rattle.qz_trigger_store.specs.Extending.{with_entries, HoldsFirst, Has, Extends};
ghost use Rattle.qz_trigger_store.specs.View.{view, version_of, added_of, behind_of, slots_of, opened_of, keeps_of, tables_of, disk_of, disk_state, GoesOnFrom, IsOpenedAsBefore};

use crate::TriggerStore;
use crate::triggers::Triggers;
use qz_civil::List;
use qz_disk::Disk;
use qz_logs::Log;
use qz_plain::PlainStore;
use qz_stores::ExtendError;
use qz_types::Entry;

impl<D: Disk> TriggerStore<D> {
    /// Puts these records at the end of an open store in which they have room, and takes over the tables that their entries leave:
    /// no transaction is done again, and nothing is read. A store of version 1 takes all commands, as at `adopt`. The records go out
    /// in groups of 256 KiB at most, each with two syncs. All memory is taken before the first device call. An `Err` hands the
    /// disk back.
    pub fn extended(
        self,
        tables: PlainStore,
        records: &[List<u8>],
        entries: &Log<Entry>,
    ) -> Result<TriggerStore<D>, (ExtendError, D)>
        requires open { (view self).is_open ≡ true }
        requires alone { keeps_of self ≡ false }
        requires sizes { All IsPayload records.now }
        requires room { HaveRoom records.now (view self).gate (view self).payloads }
        requires recorded { ∥ AllZip IsRecordOf records.now entries.now.items ∥₁ }
        requires legal { ∥ IsLegalFrom (tables_of self) entries.now.items ∥₁ }
        requires state { tables.tables ≡ replay_from (tables_of self) entries.now.items }
        ensures extends { IfOk result (λ s. Extends records.now entries.now.items (view self) (view s)) }
        ensures entries { IfOk result (λ s. added_of s ≡ added_of self ++ entries.now.items) }
        ensures tables { IfOk result (λ s. tables_of s ≡ tables.tables) }
        ensures opened { IfOk result (λ s. IsOpenedAsBefore self s) }
        ensures same { IfOk result (λ s. (keeps_of s ≡ keeps_of self) × (slots_of s ≡ slots_of self)) }
        ensures behind { IfOk result (λ s. behind_of s ≡ behind_of self + length entries.now.items) }
        ensures goes_on { (w : Whole) → GoesOnFrom self w → IfOk result (λ s. GoesOnFrom s w) }
        // Whatever whole list the disk held when the store was opened, it now holds that with all entries.
        ensures has { D.honest → (w : Whole) → w.version ≡ version_of self → IsWhole w (opened_of self)
            → IfOk result (λ s. Has (with_entries w (added_of self ++ entries.now.items)) (disk_state s)) }
        // A crash at any moment leaves it with the first of them.
        ensures any_moment { D.honest → (w : Whole) → w.version ≡ version_of self → IsWhole w (opened_of self)
            → MatchResult result
            (λ s. LeavesOnly (disk_state self) (disk_state s) (HoldsFirst (with_entries w (added_of self)) entries.now.items))
            (λ e. LeavesOnly (disk_state self) (D.state e.1) (HoldsFirst (with_entries w (added_of self)) entries.now.items)) }
        ensures starved { IfErr result (λ e. e.0 ≡ ExtendError.NoMemory → e.1 ≡ disk_of self) }
        ensures had { D.honest → (w : Whole) → w.version ≡ version_of self → IsWhole w (opened_of self)
            → IfErr result (λ e. e.0 ≡ ExtendError.NoMemory → Has (with_entries w (added_of self)) (D.state e.1)) }
        ensures later { MatchResult result (λ s. (view self).faults ≤ (view s).faults) (λ e. (view self).faults ≤ D.faults e.1) }
        ensures fault { IfErr result (λ e. e.0 ≡ ExtendError.Fault → Rose (view self).faults (D.faults e.1)) }
    {
        tables.is_valid();
        let TriggerStore {
            alloc,
            store,
            accepted,
        } = self;
        drop(accepted);
        match store.extended(Triggers { tables }, records, entries) {
            Ok(store) => Ok(TriggerStore {
                alloc,
                store,
                accepted: None,
            }),
            Err(refused) => Err(refused),
        }
    }
}
