//! One entry more, which another store accepted.
ghost use Rattle.std.specs.Prelude.{◌≡◌, ◌≢◌, ◌+◌, ◌++◌, ◌∷◌, [], length, IsTrue, IfOk, OnOk, OnErr, IfErr, IfSome, Err, true};
ghost use Rattle.qz_journal.specs.Layout.{IsPayload};
ghost use Rattle.qz_types.specs.Entries.{is_entry};
ghost use Rattle.qz_types.specs.Outcomes.{IsAccepted};
ghost use Rattle.qz_model.specs.Transaction.{transaction};
ghost use Rattle.qz_schedule_law.specs.Following.{FollowsSchedules};
ghost use Rattle.qz_plain.specs.Prepared.{Prepares};
ghost use Rattle.qz_plain.specs.Replies.{CopiesReply};
ghost use Rattle.qz_stores.specs.Stores.{HasRoom, Submits};
ghost use Rattle.qz_stores.specs.View.{kept_of};
ghost use Rattle.qz_trigger_store.specs.Accepted.{HasRoomForOne};
ghost use Rattle.qz_trigger_store.specs.Entries.{IsRecordOf, adopted_entry};
ghost use Rattle.qz_trigger_store.specs.View.{view, added_of, behind_of, keeps_of, tables_of, IsOpenedAsBefore, IsAsBefore, LeavesEither};

use crate::TriggerStore;
use crate::submitting::Whole;
use qz_disk::Disk;
use qz_types::{Entry, NoMemory, Reply, SubmitError};

#[tactic(auto, using(crate::proofs::Outcomes::accepted_by, crate::proofs::Outcomes::passes))]
impl<D: Disk> TriggerStore<D> {
    /// Does the transaction of an entry that another store accepted, and appends the record which that store has of it, byte for
    /// byte. A store of version 1 adopts all commands, as it does when it reads its own records. Else all is as at `submit`: all
    /// memory is taken before the first device call, and after an error other than `Fault` all is as it was.
    pub fn adopt(&mut self, entry: Entry, payload: &[u8]) -> Result<Reply, SubmitError>
        requires { IsRecordOf payload.now entry × IsPayload payload.now }
        ensures one { Submits (adopted_entry payload.now) entry result (view self.old) (view self.new) }
        ensures unchanged { result ≢ Err SubmitError.Fault → OnErr result (IsAsBefore self.old self.new) }
        ensures opened { IsOpenedAsBefore self.old self.new }
        ensures entries { OnOk result (added_of self.new ≡ added_of self.old ++ entry ∷ []) }
        ensures behind { OnOk result (behind_of self.new ≡ behind_of self.old + 1) }
        ensures keeps { keeps_of self.new ≡ keeps_of self.old }
        ensures any_moment { D.honest → LeavesEither self.old self.new }
        ensures schedules { FollowsSchedules (view self.new).history }
    {
        match self.prepare_adopted(&entry, payload) {
            Ok(whole) => self.commit(entry, whole),
            Err(error) => {
                drop(entry);
                Err(error)
            }
        }
    }

    // All that is decided without the disk, and all memory.
    fn prepare_adopted(&mut self, entry: &Entry, payload: &[u8]) -> Result<Whole, SubmitError>
        requires entry { IsTrue (is_entry entry.now) }
        requires record { IsRecordOf payload.now entry.now × IsPayload payload.now }
        ensures open { OnOk result ((view self.old).is_open ≡ true) }
        ensures prepared { IfOk result (λ w. Prepares (kept_of self.new.store).tables entry.now w.ready.change) }
        ensures accepted { OnOk result (IsAccepted (transaction (tables_of self.old) entry.now)) }
        ensures copy { IfOk result (λ w. keeps_of self.old ≡ true → CopiesReply w.copy (transaction (tables_of self.old) entry.now)) }
        ensures record { IfOk result (λ w. w.ready.record ≡ payload.now) }
        ensures fits { OnOk result (HasRoom (length payload.now) (view self.old)) }
        ensures room { OnOk result (IfSome self.new.accepted HasRoomForOne) }
        ensures err { IfErr result (λ e. Submits (adopted_entry payload.now) entry.now (Err e) (view self.old) (view self.old)) }
        ensures same { IsAsBefore self.old self.new }
    {
        let ready = self.store.prepare_adopted(entry, payload)?;
        match self.copy(entry, &ready) {
            Ok(copy) => Ok(Whole { ready, copy }),
            Err(NoMemory) => {
                drop(ready);
                Err(SubmitError::NoMemory)
            }
        }
    }
}
