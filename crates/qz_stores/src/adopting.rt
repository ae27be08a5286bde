//! One entry more, which another store accepted.
ghost use Rattle.std.specs.Prelude.{◌≡◌, ◌≢◌, ◌+◌, ◌++◌, ◌∷◌, [], length, IfOk, OnOk, OnErr, IfErr, Ok, Err, true};
ghost use Rattle.qz_journal.specs.Layout.{IsPayload};
ghost use Rattle.qz_stores.specs.Adopting.{adopted};
ghost use Rattle.qz_stores.specs.Stores.{HasRoom, IsUnwritten, Submits};
ghost use Rattle.qz_stores.specs.Kinds.{IsAccepted};
ghost use Rattle.qz_stores.specs.View.{view, added_of, behind_of, kept_of, state_of, IsOpenedAsBefore, IsAsBefore, LeavesHistories};

use crate::{Kind, Ready, Store};
use qz_civil::List;
use qz_disk::Disk;
use qz_types::SubmitError;

impl<D: Disk, K: Kind> Store<D, K> {
    /// Does the transaction of an entry that another store accepted, and appends the record which that store has of it, byte for
    /// byte. The version of this store isn't asked, as where a history is read. Else all is as at `submit`: all memory is
    /// taken before the first device call, and after an error other than `Fault` all is as it was.
    pub fn adopt(&mut self, entry: K::Entry, payload: &[u8]) -> Result<K::Reply, SubmitError>
        requires proper { K.kind.IsProper entry }
        requires record { K.kind.IsRecordOf payload.now entry × IsPayload payload.now }
        ensures one { Submits (adopted K.kind payload.now) entry result (view self.old) (view self.new) }
        ensures unchanged { result ≢ Err SubmitError.Fault → OnErr result (IsAsBefore self.old self.new) }
        ensures opened { IsOpenedAsBefore self.old self.new }
        ensures entries { OnOk result (added_of self.new ≡ added_of self.old ++ entry ∷ []) }
        ensures behind { OnOk result (behind_of self.new ≡ behind_of self.old + 1) }
        // A crash at any moment leaves the history before the call or the one after it.
        ensures leaves { D.honest → LeavesHistories self.old self.new }
    {
        match self.prepare_adopted(&entry, payload) {
            Ok(ready) => {
                let (entry, reply) = self.commit(entry, ready)?;
                drop(entry);
                Ok(reply)
            }
            Err(error) => {
                drop(entry);
                Err(error)
            }
        }
    }

    /// The first half of `adopt`: all that is decided without the disk, and all memory.
    #[tactic(auto, using(crate::proofs::Adopted::adopt_error_is, crate::proofs::Adopted::adopt_unwritten_is))]
    pub fn prepare_adopted(
        &mut self,
        entry: &K::Entry,
        payload: &[u8],
    ) -> Result<Ready<K::Change>, SubmitError>
        requires proper { K.kind.IsProper entry.now }
        requires record { K.kind.IsRecordOf payload.now entry.now × IsPayload payload.now }
        ensures open { OnOk result (self.old.is_open ≡ true) }
        ensures ready { IfOk result (λ r. K.Prepares (kept_of self.new) entry.now r.change) }
        ensures accepted { OnOk result (IsAccepted K.kind (state_of self.old) entry.now) }
        ensures record { IfOk result (λ r. r.record ≡ payload.now) }
        ensures fits { OnOk result (HasRoom (length payload.now) (view self.old)) }
        ensures err { IfErr result (λ e. Submits (adopted K.kind payload.now) entry.now (Err e) (view self.old) (view self.old)) }
        ensures same { IsAsBefore self.old self.new }
    {
        if !self.is_open {
            let at = self.journal.gate();
            return Err(SubmitError::Closed { at });
        }
        let change = self.state.prepare(entry)?;
        match self.copy(payload) {
            Ok(record) => Ok(Ready { record, change }),
            Err(error) => {
                drop(change);
                Err(error)
            }
        }
    }

    // A copy of a record, if it has room.
    fn copy(&self, payload: &[u8]) -> Result<List<u8>, SubmitError>
        requires { IsPayload payload.now }
        ensures record { IfOk result (λ r. r ≡ payload.now) }
        ensures fits { OnOk result (HasRoom (length payload.now) (view self.now)) }
        ensures err { IfErr result (IsUnwritten (length payload.now) (view self.now)) }
    {
        self.find_room(payload.len() as u32)?;
        let Ok(copy) = Vec::from_slice(self.alloc, payload) else {
            return Err(SubmitError::NoMemory);
        };
        Ok(List::from_vec(copy))
    }
}
