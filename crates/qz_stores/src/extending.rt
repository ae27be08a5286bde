//! Many entries more, which another store accepted, with the state that they leave.
ghost use Rattle.std.specs.Prelude.{◌≡◌, ◌+◌, ◌≤◌, ◌++◌, [], All, length, IfOk, IfErr, MatchResult, true};
ghost use Rattle.std.specs.List.{AllZip};
ghost use Rattle.qz_civil.specs.Causes.{Rose};
ghost use Rattle.qz_disk.specs.Disk.{LeavesOnly};
ghost use Rattle.qz_journal.specs.Commits.{HaveRoom};
ghost use Rattle.qz_journal.specs.Groups.{TakesAny};
ghost use Rattle.qz_journal.specs.Layout.{IsPayload};
ghost use Rattle.qz_journal.specs.View.{payloads_of};
ghost use Rattle.qz_stores.specs.Bases.{WholeList, IsWhole};
ghost use Rattle.qz_stores.specs.Extending.{with_entries, HoldsFirst, Has, Extends};
ghost use Rattle.qz_stores.specs.View.{view, version_of, added_of, behind_of, slots_of, opened_of, state_of, disk_of, disk_state, GoesOnFrom, IsOpenedAsBefore};

use crate::{Kind, Store};
use qz_civil::List;
use qz_disk::Disk;
use qz_journal::{GROUP_LENGTH, Group};
use qz_logs::Log;

/// Why a store didn't take over entries.
#[derive(Drop, Clone, Copy, PartialEq, Eq, Debug)]
pub enum ExtendError {
    /// Nothing was done.
    NoMemory,
    /// The disk failed, and its count of faults rose. It holds what it held, and the first of the entries.
    Fault,
}

impl<D: Disk, K: Kind> Store<D, K> {
    /// Puts these records at the end of an open store in which they have room, and takes over the state that their entries leave:
    /// no transaction is done again, and nothing is read. The records go out in groups of 256 KiB at most, each with two syncs. All
    /// memory is taken before the first device call. An `Err` hands the disk back.
    pub fn extended(
        self,
        state: K,
        records: &[List<u8>],
        entries: &Log<K::Entry>,
    ) -> Result<Store<D, K>, (ExtendError, D)>
        requires open { (view self).is_open ≡ true }
        requires sizes { All IsPayload records.now }
        requires room { HaveRoom records.now (view self).gate (view self).payloads }
        requires recorded { ∥ AllZip K.kind.IsRecordOf records.now entries.now.items ∥₁ }
        requires legal { ∥ K.kind.IsLegalFrom (state_of self) entries.now.items ∥₁ }
        requires state { K.state state ≡ K.kind.replay_from (state_of self) entries.now.items }
        ensures extends { IfOk result (λ s. Extends K.kind records.now entries.now.items (view self) (view s)) }
        ensures entries { IfOk result (λ s. added_of s ≡ added_of self ++ entries.now.items) }
        ensures state { IfOk result (λ s. state_of s ≡ K.state state) }
        ensures opened { IfOk result (λ s. IsOpenedAsBefore self s) }
        ensures slots { IfOk result (λ s. slots_of s ≡ slots_of self) }
        ensures behind { IfOk result (λ s. behind_of s ≡ behind_of self + length entries.now.items) }
        ensures goes_on { (w : WholeList K.State K.Entry) → GoesOnFrom self w → IfOk result (λ s. GoesOnFrom s w) }
        // Whatever whole list the disk held when the store was opened, it now holds that with all entries.
        ensures has { D.honest → (w : WholeList K.State K.Entry) → w.version ≡ version_of self → IsWhole K.kind w (opened_of self)
            → IfOk result (λ s. Has K.kind (with_entries w (added_of self ++ entries.now.items)) (disk_state s)) }
        // A crash at any moment leaves it with the first of them.
        ensures any_moment { D.honest → (w : WholeList K.State K.Entry) → w.version ≡ version_of self → IsWhole K.kind w (opened_of self)
            → MatchResult result
            (λ s. LeavesOnly (disk_state self) (disk_state s) (HoldsFirst K.kind (with_entries w (added_of self)) entries.now.items))
            (λ e. LeavesOnly (disk_state self) (D.state e.1) (HoldsFirst K.kind (with_entries w (added_of self)) entries.now.items)) }
        ensures starved { IfErr result (λ e. e.0 ≡ ExtendError.NoMemory → e.1 ≡ disk_of self) }
        ensures had { D.honest → (w : WholeList K.State K.Entry) → w.version ≡ version_of self → IsWhole K.kind w (opened_of self)
            → IfErr result (λ e. e.0 ≡ ExtendError.NoMemory → Has K.kind (with_entries w (added_of self)) (D.state e.1)) }
        ensures later { MatchResult result (λ s. (view self).faults ≤ (view s).faults) (λ e. (view self).faults ≤ D.faults e.1) }
        ensures fault { IfErr result (λ e. e.0 ≡ ExtendError.Fault → Rose (view self).faults (D.faults e.1)) }
    {
        match Group::with_capacity(self.alloc, GROUP_LENGTH) {
            Ok(group) => self.extended_by(group, state, records, entries),
            Err(_) => {
                drop(state);
                Err((ExtendError::NoMemory, self.into_disk()))
            }
        }
    }

    // The same, with the memory of this group, which has no payloads.
    fn extended_by(
        self,
        mut group: Group,
        state: K,
        records: &[List<u8>],
        entries: &Log<K::Entry>,
    ) -> Result<Store<D, K>, (ExtendError, D)>
        requires group { (payloads_of group ≡ []) × TakesAny group }
        requires open { (view self).is_open ≡ true }
        requires sizes { All IsPayload records.now }
        requires room { HaveRoom records.now (view self).gate (view self).payloads }
        requires recorded { ∥ AllZip K.kind.IsRecordOf records.now entries.now.items ∥₁ }
        requires legal { ∥ K.kind.IsLegalFrom (state_of self) entries.now.items ∥₁ }
        requires state { K.state state ≡ K.kind.replay_from (state_of self) entries.now.items }
        ensures extends { IfOk result (λ s. Extends K.kind records.now entries.now.items (view self) (view s)) }
        ensures entries { IfOk result (λ s. added_of s ≡ added_of self ++ entries.now.items) }
        ensures state { IfOk result (λ s. state_of s ≡ K.state state) }
        ensures opened { IfOk result (λ s. IsOpenedAsBefore self s) }
        ensures slots { IfOk result (λ s. slots_of s ≡ slots_of self) }
        ensures behind { IfOk result (λ s. behind_of s ≡ behind_of self + length entries.now.items) }
        ensures has { D.honest → (w : WholeList K.State K.Entry) → w.version ≡ version_of self → IsWhole K.kind w (opened_of self)
            → IfOk result (λ s. Has K.kind (with_entries w (added_of self ++ entries.now.items)) (disk_state s)) }
        ensures any_moment { D.honest → (w : WholeList K.State K.Entry) → w.version ≡ version_of self → IsWhole K.kind w (opened_of self)
            → MatchResult result
            (λ s. LeavesOnly (disk_state self) (disk_state s) (HoldsFirst K.kind (with_entries w (added_of self)) entries.now.items))
            (λ e. LeavesOnly (disk_state self) (D.state e.1) (HoldsFirst K.kind (with_entries w (added_of self)) entries.now.items)) }
        ensures failed { IfErr result (λ e. (e.0 ≡ ExtendError.Fault) × Rose (view self).faults (D.faults e.1)) }
        ensures later { MatchResult result (λ s. (view self).faults ≤ (view s).faults) (λ e. (view self).faults ≤ D.faults e.1) }
    {
        let Store {
            alloc,
            mut journal,
            version,
            base_count,
            base,
            count,
            snapshot,
            state: before,
            opened,
            found,
            added,
            is_open,
            undecided,
        } = self;
        drop(before);
        match journal.append_all(&mut group, records) {
            Ok(()) => Ok(Store {
                alloc,
                journal,
                version,
                base_count,
                base,
                count: count + records.len() as u64,
                snapshot,
                state,
                opened,
                found,
                added: Log::joined(&added, entries),
                is_open,
                undecided,
            }),
            Err(_) => {
                drop(state);
                drop(undecided);
                Err((ExtendError::Fault, journal.into_disk()))
            }
        }
    }
}
