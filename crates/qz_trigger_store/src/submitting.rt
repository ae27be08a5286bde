//! One entry more.
ghost use Rattle.std.specs.Prelude.{◌≡◌, ◌≢◌, ◌+◌, ◌++◌, ◌∷◌, [], length, IsTrue, IsOk, IfOk, OnOk, OnErr, IfErr, IfSome, Err, None, true, is_some};
ghost use Rattle.qz_codec.specs.Layout.{record_of};
ghost use Rattle.qz_journal.specs.Layout.{IsPayload};
ghost use Rattle.qz_types.specs.Entries.{is_entry};
ghost use Rattle.qz_types.specs.Outcomes.{IsAccepted};
ghost use Rattle.qz_model.specs.Transaction.{transaction};
ghost use Rattle.qz_model.specs.Upgrading.{version_refusal};
ghost use Rattle.qz_schedule_law.specs.Following.{FollowsSchedules};
ghost use Rattle.qz_plain.specs.Prepared.{Prepares};
ghost use Rattle.qz_plain.specs.Replies.{CopiesReply, IsCopyOf};
ghost use Rattle.qz_stores.specs.Stores.{HasRoom, Submits};
ghost use Rattle.qz_stores.specs.View.{kept_of};
ghost use Rattle.qz_trigger_store.specs.Accepted.{HasRoomForOne, IsKept};
ghost use Rattle.qz_trigger_store.specs.Entries.{IsRecordOf, trigger_entry, adopted_entry};
ghost use Rattle.qz_trigger_store.specs.View.{view, added_of, behind_of, keeps_of, tables_of, IsOpenedAsBefore, IsAsBefore, LeavesEither};

use crate::{Accepted, TriggerStore};
use qz_disk::Disk;
use qz_plain::{Prepared, same_reply};
use qz_stores::Ready;
use qz_types::{Entry, NoMemory, Reply, SubmitError};

// All that an accepted entry needs, so that nothing but the disk can fail.
#[derive(Drop)]
pub(crate) struct Whole {
    pub(crate) ready: Ready<Prepared>,
    // the reply once more, if it is kept and takes memory
    pub(crate) copy: Option<Reply>,
}

#[tactic(auto, using(crate::proofs::Outcomes::accepted_by, crate::proofs::Outcomes::passes, crate::proofs::Accepting::copied))]
impl<D: Disk> TriggerStore<D> {
    /// Does one transaction, and answers its reply once its record is on the disk. The errors are decided in their
    /// order, `Closed` and `Refused` without memory: a store of version 1 that wasn't upgraded refuses all but an Upgrade
    /// with `OldStore`, before the transaction is asked; `NoMemory` comes only where the transaction would be accepted,
    /// and there it may come before `JournalFull`. All memory is taken before the first device call. After an error
    /// other than `Fault` all is as it was, and no device call was made.
    pub fn submit(&mut self, entry: Entry) -> Result<Reply, SubmitError>
        ensures one { Submits trigger_entry entry result (view self.old) (view self.new) }
        ensures unchanged { result ≢ Err SubmitError.Fault → OnErr result (IsAsBefore self.old self.new) }
        ensures opened { IsOpenedAsBefore self.old self.new }
        ensures entries { OnOk result (added_of self.new ≡ added_of self.old ++ entry ∷ []) }
        ensures behind { OnOk result (behind_of self.new ≡ behind_of self.old + 1) }
        ensures keeps { keeps_of self.new ≡ keeps_of self.old }
        ensures recorded { OnOk result (IsRecordOf (record_of entry) entry) }
        ensures any_moment { D.honest → LeavesEither self.old self.new }
        // Triggers that weren't disturbed have fired for the first times of their schedules.
        ensures schedules { FollowsSchedules (view self.new).history }
    {
        match self.prepare(&entry) {
            Ok(whole) => self.commit(entry, whole),
            Err(error) => {
                drop(entry);
                Err(error)
            }
        }
    }

    /// Whether an entry would be accepted, apart from the room on the disk: else `Closed` or `Refused`. It takes no
    /// memory.
    pub fn check(&self, entry: &Entry) -> Result<(), SubmitError>
        ensures ok { OnOk result (((view self.now).is_open ≡ true) × IsOk (trigger_entry.answer (view self.now).history entry.now)) }
        ensures err { IfErr result (λ e. Submits trigger_entry entry.now (Err e) (view self.now) (view self.now)) }
        ensures decided { result ≢ Err SubmitError.NoMemory }
    {
        self.store.check(entry)
    }

    // All that is decided without the disk, and all memory.
    fn prepare(&mut self, entry: &Entry) -> Result<Whole, SubmitError>
        requires { IsTrue (is_entry entry.now) }
        ensures open { OnOk result ((view self.old).is_open ≡ true) }
        ensures prepared { IfOk result (λ w. Prepares (kept_of self.new.store).tables entry.now w.ready.change) }
        ensures current { OnOk result (version_refusal (tables_of self.old) entry.now.command ≡ None) }
        ensures accepted { OnOk result (IsAccepted (transaction (tables_of self.old) entry.now)) }
        ensures copy { IfOk result (λ w. keeps_of self.old ≡ true → CopiesReply w.copy (transaction (tables_of self.old) entry.now)) }
        ensures record { IfOk result (λ w. (w.ready.record ≡ record_of entry.now) × IsPayload w.ready.record) }
        ensures recorded { OnOk result (IsRecordOf (record_of entry.now) entry.now) }
        ensures fits { IfOk result (λ w. HasRoom (length w.ready.record) (view self.old)) }
        ensures room { OnOk result (IfSome self.new.accepted HasRoomForOne) }
        ensures err { IfErr result (λ e. Submits trigger_entry entry.now (Err e) (view self.old) (view self.old)) }
        ensures same { IsAsBefore self.old self.new }
    {
        let ready = self.store.prepare(entry)?;
        match self.copy(entry, &ready) {
            Ok(copy) => Ok(Whole { ready, copy }),
            Err(NoMemory) => {
                drop(ready);
                Err(SubmitError::NoMemory)
            }
        }
    }

    // Where the store keeps what it accepts: the reply of an entry that would be accepted once more, and room for all that
    // is kept of it.
    pub(crate) fn copy(
        &mut self,
        entry: &Entry,
        ready: &Ready<Prepared>,
    ) -> Result<Option<Reply>, NoMemory>
        requires { Prepares (kept_of self.old.store).tables entry.now ready.now.change }
        ensures copy { IfOk result (λ copy. keeps_of self.old ≡ true → CopiesReply copy (transaction (tables_of self.old) entry.now)) }
        ensures room { OnOk result (IfSome self.new.accepted HasRoomForOne) }
        ensures store { self.new.store ≡ self.old.store }
        ensures same { IsAsBefore self.old self.new }
    {
        let Some(accepted) = &mut self.accepted else {
            return Ok(None);
        };
        accepted.reserve()?;
        self.store.state().tables.copy_reply(entry, &ready.change)
    }

    // Puts a record on the disk, and then does the transaction.
    pub(crate) fn commit(&mut self, entry: Entry, whole: Whole) -> Result<Reply, SubmitError>
        requires open { (view self.old).is_open ≡ true }
        requires prepared { Prepares (kept_of self.old.store).tables entry whole.ready.change }
        requires accepted { IsAccepted (transaction (tables_of self.old) entry) }
        requires copy { keeps_of self.old ≡ true → CopiesReply whole.copy (transaction (tables_of self.old) entry) }
        requires record { IsRecordOf whole.ready.record entry × IsPayload whole.ready.record }
        requires fits { HasRoom (length whole.ready.record) (view self.old) }
        requires room { IfSome self.old.accepted HasRoomForOne }
        ensures one { Submits (adopted_entry whole.ready.record) entry result (view self.old) (view self.new) }
        ensures only_fault { IfErr result (λ e. e ≡ SubmitError.Fault) }
        ensures opened { IsOpenedAsBefore self.old self.new }
        ensures entries { OnOk result (added_of self.new ≡ added_of self.old ++ entry ∷ []) }
        ensures behind { OnOk result (behind_of self.new ≡ behind_of self.old + 1) }
        ensures keeps { keeps_of self.new ≡ keeps_of self.old }
        ensures any_moment { D.honest → LeavesEither self.old self.new }
    {
        let Whole { ready, copy } = whole;
        match self.store.commit(entry, ready) {
            Ok((entry, reply)) => {
                let moment = self.store.state().tables.last_moment();
                keep(&mut self.accepted, entry, moment, copy, &reply);
                Ok(reply)
            }
            Err(error) => {
                drop(copy);
                Err(error)
            }
        }
    }
}

// Puts an entry last in what is kept, with its moment and its reply. Where nothing is kept, it does nothing.
fn keep(
    accepted: &mut Option<Accepted>,
    entry: Entry,
    moment: i64,
    copy: Option<Reply>,
    reply: &Reply,
)
    requires room { IfSome accepted.old HasRoomForOne }
    requires copy { is_some accepted.old ≡ true → IsCopyOf copy reply.now }
    ensures { IsKept accepted.old accepted.new entry moment reply.now }
{
    match accepted {
        Some(accepted) => accepted.push_reserved(entry, moment, same_reply(copy, reply)),
        None => {
            drop(entry);
            drop(copy);
        }
    }
}
