//! One entry more.
ghost use Rattle.std.specs.Prelude.{◌≡◌, ◌≢◌, ◌+◌, ◌++◌, ◌∷◌, [], length, IsOk, IfOk, OnOk, OnErr, IfErr, Ok, Err, Some, None, true, false, MatchOption};
ghost use Rattle.qz_journal.specs.Layout.{IsPayload};
ghost use Rattle.qz_stores.specs.Adopting.{adopted};
ghost use Rattle.qz_stores.specs.Stores.{HasRoom, IsUnwritten, Appends, Submits};
ghost use Rattle.qz_stores.specs.Kinds.{IsAccepted, submitted, entry_kind};
ghost use Rattle.qz_stores.specs.View.{view, added_of, behind_of, kept_of, state_of, IsOpenedAsBefore, IsAsBefore, LeavesHistories};

use crate::{Kind, Store};
use qz_civil::List;
use qz_disk::Disk;
use qz_journal::{JournalFull, fits};
use qz_logs::Log;
use qz_types::{Refusal, SubmitError};
use std::mem;

/// All that an accepted entry needs, so that nothing but the disk can fail.
#[derive(Drop)]
pub struct Ready<C: Drop> {
    pub record: List<u8>,
    pub change: C,
}

impl<D: Disk, K: Kind> Store<D, K> {
    /// Does one transaction, and answers its reply once its record is on the disk. The errors are decided in their
    /// order, `Closed` and `Refused` without memory, and of the refusals first what the version of the store refuses;
    /// `NoMemory` is returned only where the transaction would be accepted, and there it may be returned before `JournalFull`. All memory is taken before the first device call. After an error
    /// other than `Fault` all is as it was, and no device call was made.
    pub fn submit(&mut self, entry: K::Entry) -> Result<K::Reply, SubmitError>
        requires { K.kind.IsProper entry }
        ensures one { Submits (entry_kind K.kind) entry result (view self.old) (view self.new) }
        ensures unchanged { result ≢ Err SubmitError.Fault → OnErr result (IsAsBefore self.old self.new) }
        ensures opened { IsOpenedAsBefore self.old self.new }
        ensures entries { OnOk result (added_of self.new ≡ added_of self.old ++ entry ∷ []) }
        ensures behind { OnOk result (behind_of self.new ≡ behind_of self.old + 1) }
        ensures recorded { OnOk result (K.kind.IsRecordOf (K.kind.record_of entry) entry) }
        // A crash at any moment leaves the history before the call or the one after it.
        ensures leaves { D.honest → LeavesHistories self.old self.new }
    {
        match self.prepare(&entry) {
            Ok(ready) => {
                let (entry, reply) = self.commit(entry, ready)?;
                drop(entry);
                Ok(reply)
            }
            Err(error) => {
                drop(entry);
                Err(error)
            }
        }
    }

    /// Whether an entry would be accepted, apart from the room on the disk: else `Closed` or `Refused`. It takes no
    /// memory.
    pub fn check(&self, entry: &K::Entry) -> Result<(), SubmitError>
        ensures ok { OnOk result (((view self.now).is_open ≡ true) × IsOk ((entry_kind K.kind).answer (view self.now).history entry.now)) }
        ensures err { IfErr result (λ e. Submits (entry_kind K.kind) entry.now (Err e) (view self.now) (view self.now)) }
        ensures decided { result ≢ Err SubmitError.NoMemory }
    {
        if !self.is_open {
            let at = self.journal.gate();
            return Err(SubmitError::Closed { at });
        }
        match self.refusal(entry) {
            None => Ok(()),
            Some(refusal) => Err(SubmitError::Refused(refusal)),
        }
    }

    // Why an open store refuses an entry, or None where it accepts it.
    fn refusal(&self, entry: &K::Entry) -> Option<Refusal>
        ensures { MatchOption result (IsOk (submitted K.kind (state_of self.now) entry.now)) (λ x. submitted K.kind (state_of self.now) entry.now ≡ Err x) }
    {
        match self.state.version_refusal(entry) {
            None => self.state.refusal(entry),
            refused => refused,
        }
    }

    /// The first half of `submit`: all that is decided without the disk, and all memory.
    #[tactic(auto, using(crate::proofs::Refused::error_is, crate::proofs::Refused::unwritten_is))]
    pub fn prepare(&mut self, entry: &K::Entry) -> Result<Ready<K::Change>, SubmitError>
        requires { K.kind.IsProper entry.now }
        ensures open { OnOk result (self.old.is_open ≡ true) }
        ensures ready { IfOk result (λ r. K.Prepares (kept_of self.new) entry.now r.change) }
        ensures current { OnOk result (K.kind.version_refusal (state_of self.old) entry.now ≡ None) }
        ensures accepted { OnOk result (IsAccepted K.kind (state_of self.old) entry.now) }
        ensures record { IfOk result (λ r. (r.record ≡ K.kind.record_of entry.now) × IsPayload r.record) }
        ensures recorded { OnOk result (K.kind.IsRecordOf (K.kind.record_of entry.now) entry.now) }
        ensures fits { IfOk result (λ r. HasRoom (length r.record) (view self.old)) }
        ensures err { IfErr result (λ e. Submits (entry_kind K.kind) entry.now (Err e) (view self.old) (view self.old)) }
        ensures same { IsAsBefore self.old self.new }
    {
        if !self.is_open {
            let at = self.journal.gate();
            return Err(SubmitError::Closed { at });
        }
        if let Some(refusal) = self.state.version_refusal(entry) {
            return Err(SubmitError::Refused(refusal));
        }
        let change = self.state.prepare(entry)?;
        match self.record(entry) {
            Ok(record) => Ok(Ready { record, change }),
            Err(error) => {
                drop(change);
                Err(error)
            }
        }
    }

    // The record of an entry that would be accepted, if it has room.
    fn record(&self, entry: &K::Entry) -> Result<List<u8>, SubmitError>
        requires { K.kind.IsProper entry.now }
        ensures record { IfOk result (λ r. (r ≡ K.kind.record_of entry.now) × IsPayload r) }
        ensures recorded { OnOk result (K.kind.IsRecordOf (K.kind.record_of entry.now) entry.now) }
        ensures fits { IfOk result (λ r. HasRoom (length r) (view self.now)) }
        ensures err { IfErr result (IsUnwritten (length (K.kind.record_of entry.now)) (view self.now)) }
    {
        let record = self.state.record(self.alloc, entry)?;
        self.find_room(record.len() as u32)?;
        Ok(record)
    }

    // Whether a record of this length has room on the disk.
    pub(crate) fn find_room(&self, length: u32) -> Result<(), SubmitError>
        ensures ok { OnOk result (HasRoom length (view self.now)) }
        ensures err { IfErr result (IsUnwritten length (view self.now)) }
    {
        match fits(self.journal.gate(), self.journal.payloads(), length) {
            Ok(()) => Ok(()),
            Err(JournalFull { need, room }) => Err(SubmitError::JournalFull { need, room }),
        }
    }

    /// The second half of `submit` and of `adopt`: puts the record on the disk, and then does the transaction. It hands the entry back.
    pub fn commit(
        &mut self,
        entry: K::Entry,
        ready: Ready<K::Change>,
    ) -> Result<(K::Entry, K::Reply), SubmitError>
        requires proper { K.kind.IsProper entry }
        requires open { self.old.is_open ≡ true }
        requires ready { K.Prepares (kept_of self.old) entry ready.change }
        requires accepted { IsAccepted K.kind (state_of self.old) entry }
        requires record { K.kind.IsRecordOf ready.record entry × IsPayload ready.record }
        requires fits { HasRoom (length ready.record) (view self.old) }
        ensures ok { IfOk result (λ r. (r.0 ≡ entry) × Appends (adopted K.kind ready.record) entry r.1 (view self.old) (view self.new)) }
        ensures err { IfErr result (λ e. (e ≡ SubmitError.Fault) × Submits (adopted K.kind ready.record) entry (Err e) (view self.old) (view self.new)) }
        ensures answered { IfOk result (λ r. K.kind.answer (state_of self.old) entry ≡ Ok r.1) }
        ensures state { OnOk result (state_of self.new ≡ K.kind.after (state_of self.old) entry) }
        ensures opened { IsOpenedAsBefore self.old self.new }
        ensures entries { OnOk result (added_of self.new ≡ added_of self.old ++ entry ∷ []) }
        ensures behind { OnOk result (behind_of self.new ≡ behind_of self.old + 1) }
        ensures same { OnErr result (added_of self.new ≡ added_of self.old) }
        // A crash at any moment leaves the history before the call or the one after it.
        ensures leaves { D.honest → LeavesHistories self.old self.new }
    {
        match self.journal.append(ready.record.as_slice()) {
            Ok(()) => {
                let Ready { record: _, change } = ready;
                let reply = self.state.commit(&entry, change);
                self.added = Log::and(&self.added, &entry);
                self.count += 1;
                Ok((entry, reply))
            }
            // A fault: the journal is open, and the record has room.
            Err(_) => {
                drop(ready);
                Err(close(&mut self.is_open, &mut self.undecided, entry))
            }
        }
    }
}

// Closes a store at a fault, which leaves it unknown whether the disk has the entry.
fn close<E: Drop>(is_open: &mut bool, undecided: &mut Option<E>, entry: E) -> SubmitError
    ensures closed { is_open.new ≡ false }
    ensures undecided { undecided.new ≡ Some entry }
    ensures fault { result ≡ SubmitError.Fault }
{
    *is_open = false;
    drop(mem::replace(undecided, Some(entry)));
    SubmitError::Fault
}
