//! The state store as a kind of store.
ghost use Rattle.std.specs.Prelude.{◌≡◌, OnOk, Err};
ghost use Rattle.qz_stores.specs.declared.kinds.TakeError.TheVariants as take_error;
ghost use Rattle.qz_checkin.specs.Rows.{IsAccepted, accepted, state_transaction};
ghost use Rattle.qz_checkin.specs.InMemory.{tables_in};

use crate::rows::States;
use qz_civil::List;
use qz_codec::{ReadError, get_state, put_state};
use qz_disk::Disk;
use qz_journal::{Journal, JournalFull, STATES};
use qz_stores::{CheckpointError, Kind, TakeError};
use qz_types::{NoMemory, Refusal, StateEntry, StateRow, StepRefused};
use std::alloc::Global;

/// A history from a new store on, as it was read from a disk, and the rows that it leaves.
pub type Reread = qz_stores::Reread<States>;

#[tactic(auto, using(crate::specs::Edits::valid_new, crate::proofs::Outcomes::refusal_as, crate::proofs::Outcomes::passes, crate::proofs::Outcomes::passes_as, crate::proofs::Outcomes::answered, crate::proofs::Outcomes::left_as))]
impl Kind for States {
    type Entry = StateEntry;

    type Reply = ();

    type Change = Option<StateRow>;

    ghost use Rattle.qz_checkin.specs.Rows.{StateTables};
    ghost use Rattle.qz_checkin.specs.History.{StateHistory};
    ghost use Rattle.qz_checkin.specs.InMemory.{tables_in, Prepares};
    ghost use Rattle.qz_checkin.specs.Kinds.{state_kind};
    ghost use Rattle.qz_checkin.specs.Laws.{state_lawful};

    ghost History = { StateHistory };

    ghost State = { StateTables };

    ghost kind = { state_kind };

    ghost state = { λ s. tables_in s };

    ghost Prepares = { λ s e row. Prepares s e row };

    fn number() -> u8 {
        STATES
    }

    fn new(alloc: Global, _version: u8) -> States {
        States {
            rows: Vec::new(alloc),
            last_moment: 0,
        }
    }

    // A state store has no snapshots.
    fn is_part(_payload: &[u8]) -> bool {
        false
    }

    fn read_base(
        _alloc: Global,
        _payloads: &List<List<u8>>,
    ) -> Result<Option<(States, u32)>, NoMemory> {
        Ok(None)
    }

    fn are_cut_short(_payloads: &List<List<u8>>) -> bool {
        false
    }

    fn take(&mut self, alloc: Global, payload: &[u8]) -> Result<StateEntry, TakeError> {
        let entry = match get_state(alloc, payload) {
            Ok(entry) => entry,
            Err(ReadError::BadRecord { at: _ }) => return Err(TakeError::Unfit),
            Err(ReadError::NoMemory) => return Err(TakeError::NoMemory),
        };
        match redo(self, &entry) {
            Ok(()) => Ok(entry),
            Err(error) => {
                drop(entry);
                Err(error)
            }
        }
    }

    fn version_refusal(&self, _entry: &StateEntry) -> Option<Refusal> {
        None
    }

    fn refusal(&self, entry: &StateEntry) -> Option<Refusal> {
        self.decide(entry)
    }

    fn prepare(&mut self, entry: &StateEntry) -> Result<Option<StateRow>, StepRefused> {
        if let Some(refusal) = self.decide(entry) {
            return Err(StepRefused::Refused(refusal));
        }
        Ok(self.make_row(entry)?)
    }

    fn record(&self, alloc: Global, entry: &StateEntry) -> Result<List<u8>, NoMemory> {
        put_state(alloc, entry)
    }

    fn commit(&mut self, entry: &StateEntry, row: Option<StateRow>) {
        self.apply_reserved(entry, row)
    }

    // None is made, and nothing is done.
    fn checkpoint<D: Disk>(
        &self,
        _alloc: Global,
        _journal: &mut Journal<D>,
        _entries: u64,
    ) -> Result<bool, CheckpointError> {
        Ok(false)
    }

    // No snapshot is made.
    fn first_snapshot(
        &self,
        alloc: Global,
    ) -> Result<Result<List<List<u8>>, JournalFull>, NoMemory> {
        Ok(Ok(List::new(alloc)))
    }

    ghost lawful = { state_lawful };

    ghost valid = { λ s. s.valid };
}

// Does an entry of a history once more.
fn redo(rows: &mut States, entry: &StateEntry) -> Result<(), TakeError>
    ensures accepted { OnOk result (state_transaction (tables_in rows.old) entry.now ≡ accepted (tables_in rows.new)) }
    ensures refused { result ≡ Err take_error.Unfit → IsAccepted (state_transaction (tables_in rows.old) entry.now) → ⊥ }
{
    if let Some(refusal) = rows.decide(entry) {
        drop(refusal);
        return Err(TakeError::Unfit);
    }
    let Ok(row) = rows.make_row(entry) else {
        return Err(TakeError::NoMemory);
    };
    rows.apply_reserved(entry, row);
    Ok(())
}
