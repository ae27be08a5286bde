//! A history that is read payload by payload, and told.
ghost use Rattle.std.specs.Prelude.{◌≡◌, ◌⊎◌, ◌+◌, ◌^◌, ◌<◌, ◌++◌, [], length, nat_lt, if◌then◌else◌, false, IfOk, IfErr, IsTrue, OnOk};
ghost use Rattle.qz_model.specs.History.{replay_from, tables_left};
ghost use Rattle.qz_model.specs.Transaction.{transaction};
ghost use Rattle.qz_types.specs.Entries.{is_entry};
ghost use Rattle.qz_types.specs.Outcomes.{IsAccepted};
ghost use Rattle.qz_snapshot.specs.Opening.{is_part};
ghost use Rattle.qz_stores.specs.Opening.{IsUnfit};
ghost use Rattle.qz_stores.specs.Replaying.{IsPassed, IsTaken};
ghost use Rattle.qz_stores.specs.declared.kinds.TakeError.TheVariants as take_error;
ghost use Rattle.qz_trigger_store.specs.Kinds.{trigger_kind};
ghost use Rattle.qz_trigger_store.specs.Entries.{IsRecordOf};
ghost use Rattle.qz_history.specs.Objects.{object_text};
ghost use Rattle.qz_history.specs.Told.{told_entry, told_from};

use crate::objects::push_object;
use qz_codec::{ReadError, get_command};
use qz_logs::Log;
use qz_plain::PlainStore;
use qz_stores::TakeError;
use qz_types::{Entry, NoMemory, Reply, StepRefused};
use std::alloc::Global;
use std::snapshot::Snapshot;

/// A history as far as it was read, from its base on.
#[derive(Drop)]
pub(crate) struct Teller {
    pub(crate) alloc: Global,
    /// The number behind which entries are told.
    pub(crate) from: u64,
    /// How many entries came before the base, and the tables that they left.
    pub(crate) base_count: u32,
    pub(crate) base: Snapshot<PlainStore>,
    pub(crate) entries: Log<Entry>,
    /// The number of the last entry.
    pub(crate) count: u64,
    /// The tables that the last entry left.
    pub(crate) tables: PlainStore,
    ghost counted: { count ≡ base_count + length entries.items },
    ghost replayed: { tables.tables ≡ replay_from base.value.tables entries.items },
}

impl Teller {
    /// A history of which nothing was read but its base.
    pub(crate) fn new(alloc: Global, from: u64, base_count: u32, tables: PlainStore) -> Teller
        ensures base { (result.from ≡ from) × (result.base_count ≡ base_count) × (result.base.value.tables ≡ tables.tables) }
        ensures none { result.entries.items ≡ [] }
    {
        Teller {
            alloc,
            from,
            base_count,
            base: Snapshot::of(&tables),
            entries: Log::new(),
            count: u64::from(base_count),
            tables,
        }
    }

    /// The number of the first entry, if that isn't the first that was asked for.
    pub(crate) fn beginning(&self) -> Option<u64>
        ensures { result ≡ (if nat_lt self.now.from self.now.base_count then Some (self.now.base_count + 1) else None) }
    {
        let before = u64::from(self.base_count);
        if self.from < before {
            Some(before + 1)
        } else {
            None
        }
    }

    /// Reads one payload more, and puts into `text` what is told of it: nothing, where it is a part of a snapshot, or its number is
    /// not above `from`.
    pub(crate) fn take(self, text: &mut Vec<u8>, payload: &[u8]) -> Result<Teller, TakeError>
        requires room { self.count + 1 < 2 ^ 64 }
        ensures base { IfOk result (λ more. (more.from ≡ self.from) × (more.base_count ≡ self.base_count) × (more.base.value.tables ≡ self.base.value.tables)) }
        ensures next { IfOk result (λ more. IsPassed trigger_kind payload.now self.entries.items more.entries.items
            ⊎ IsTaken trigger_kind self.tables.tables payload.now self.entries.items more.entries.items) }
        ensures told { IfOk result (λ more. told_from self.from (self.base_count + 1) self.base.value.tables more.entries.items
            ≡ told_from self.from (self.base_count + 1) self.base.value.tables self.entries.items ++ text.new.items) }
        ensures unfit { IfErr result (λ x. x ≡ take_error.Unfit → (is_part payload.now ≡ false) × IsUnfit trigger_kind self.tables.tables payload.now) }
    {
        text.clear();
        if qz_snapshot::is_part(payload) {
            return Ok(self);
        }
        let Teller {
            alloc,
            from,
            base_count,
            base,
            entries,
            count,
            mut tables,
        } = self;
        match tell(alloc, from, count + 1, &mut tables, text, payload) {
            Ok(entry) => {
                let entries = Log::and(&entries, &entry);
                drop(entry);
                Ok(Teller {
                    alloc,
                    from,
                    base_count,
                    base,
                    entries,
                    count: count + 1,
                    tables,
                })
            }
            Err(error) => {
                drop(tables);
                Err(error)
            }
        }
    }
}

// Reads the entry of a payload, does it, and adds what is told of it.
fn tell(
    alloc: Global,
    from: u64,
    number: u64,
    tables: &mut PlainStore,
    text: &mut Vec<u8>,
    payload: &[u8],
) -> Result<Entry, TakeError>
    ensures is_record { IfOk result (λ e. IsRecordOf payload.now e) }
    ensures accepted { IfOk result (λ e. IsAccepted (transaction tables.old.tables e)) }
    ensures left { IfOk result (λ e. tables.new.tables ≡ tables_left tables.old.tables (transaction tables.old.tables e)) }
    ensures told { IfOk result (λ e. text.new.items ≡ text.old.items ++ told_entry from number tables.old.tables e) }
    ensures unfit { IfErr result (λ x. x ≡ take_error.Unfit → IsUnfit trigger_kind tables.old.tables payload.now) }
{
    let entry = match get_command(alloc, payload) {
        Ok(entry) => entry,
        Err(ReadError::BadRecord { at: _ }) => return Err(TakeError::Unfit),
        Err(ReadError::NoMemory) => return Err(TakeError::NoMemory),
    };
    match answer(alloc, from, number, tables, text, &entry) {
        Ok(()) => Ok(entry),
        Err(error) => {
            drop(entry);
            Err(error)
        }
    }
}

// Does an entry, and adds what is told of it.
#[tactic(auto, using(crate::proofs::Tellings::told_accepted))]
fn answer(
    alloc: Global,
    from: u64,
    number: u64,
    tables: &mut PlainStore,
    text: &mut Vec<u8>,
    entry: &Entry,
) -> Result<(), TakeError>
    requires valid { IsTrue (is_entry entry.now) }
    ensures accepted { OnOk result (IsAccepted (transaction tables.old.tables entry.now)) }
    ensures left { OnOk result (tables.new.tables ≡ tables_left tables.old.tables (transaction tables.old.tables entry.now)) }
    ensures told { OnOk result (text.new.items ≡ text.old.items ++ told_entry from number tables.old.tables entry.now) }
    ensures refused { IfErr result (λ x. x ≡ take_error.Unfit → IsAccepted (transaction tables.old.tables entry.now) → ⊥) }
{
    match tables.apply(entry) {
        Ok(reply) => {
            let moment = tables.last_moment();
            match say(alloc, from, number, moment, text, entry, reply) {
                Ok(()) => Ok(()),
                Err(NoMemory) => Err(TakeError::NoMemory),
            }
        }
        Err(StepRefused::Refused(refusal)) => {
            drop(refusal);
            Err(TakeError::Unfit)
        }
        Err(StepRefused::NoMemory) => Err(TakeError::NoMemory),
    }
}

// Adds the object of a transaction, if its number is above `from`.
fn say(
    alloc: Global,
    from: u64,
    number: u64,
    moment: i64,
    text: &mut Vec<u8>,
    entry: &Entry,
    reply: Reply,
) -> Result<(), NoMemory>
    ensures { OnOk result (text.new.items ≡ text.old.items ++ (if nat_lt from number then object_text number moment entry.now reply else [])) }
{
    if from < number {
        push_object(alloc, text, number, moment, entry, reply)
    } else {
        drop(reply);
        Ok(())
    }
}
