//! Whether a payload is the record of a transaction that is accepted.
ghost use Rattle.std.specs.Prelude.{◌≡◌, IfOk, IfErr};
ghost use Rattle.qz_plain.specs.Prepared.{Prepares};
ghost use Rattle.qz_stores.specs.Kinds.{IsAccepted};
ghost use Rattle.qz_trigger_store.specs.Entries.{IsRecordOf};
ghost use Rattle.qz_trigger_store.specs.Kinds.{trigger_kind};
ghost use Rattle.qz_follow.specs.Taking.{IsUnread};

use crate::FollowFault;
use qz_codec::{ReadError, get_command};
use qz_plain::{PlainStore, Prepared};
use qz_types::{Entry, StepRefused};
use std::alloc::Global;

/// Reads the entry of the payload at this gate, and has its transaction ready. The tables stay as they are.
pub(crate) fn decide(
    alloc: Global,
    tables: &mut PlainStore,
    payload: &[u8],
    gate: u64,
) -> Result<(Entry, Prepared), FollowFault>
    ensures is_record { IfOk result (λ r. IsRecordOf payload.now r.0) }
    ensures accepted { IfOk result (λ r. IsAccepted trigger_kind tables.old.tables r.0) }
    ensures ready { IfOk result (λ r. Prepares tables.new r.0 r.1) }
    ensures unfit { IfErr result (IsUnread trigger_kind tables.old.tables payload.now gate) }
    ensures same { tables.new.tables ≡ tables.old.tables }
{
    let entry = match get_command(alloc, payload) {
        Ok(entry) => entry,
        Err(ReadError::BadRecord { at: _ }) => return Err(FollowFault::BadStream { at: gate }),
        Err(ReadError::NoMemory) => return Err(FollowFault::NoMemory),
    };
    match tables.prepare(&entry) {
        Ok(prepared) => Ok((entry, prepared)),
        Err(StepRefused::Refused(refusal)) => {
            drop(refusal);
            drop(entry);
            Err(FollowFault::BadStream { at: gate })
        }
        Err(StepRefused::NoMemory) => {
            drop(entry);
            Err(FollowFault::NoMemory)
        }
    }
}
