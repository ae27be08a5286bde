//! A store in memory, whose entries add jobs.
use qz_journal::{JournalFull, fits};
use qz_shared::RowStore;
use qz_types::{Refusal, SubmitError};

// Bytes of a record.
const RECORD_LENGTH: u32 = 8;

#[derive(Clone, Copy, PartialEq, Eq, Debug)]
pub struct Added {
    pub seat: u32,
    pub job: u64,
}

/// Jobs are added by their numbers, from 0 on. A job whose number was reached exists.
#[derive(Drop)]
pub struct Jobs {
    pub entries: Vec<Added>,
    // the journal's gate, if there were one
    pub gate: u64,
    pub closed: bool,
}

impl RowStore for Jobs {
    type Entry = Added;

    type Reply = ();

    ghost use Rattle.std.specs.Prelude.{List as Lists, None, length, not, ⊤};
    ghost use Rattle.std.proofs.Common.{refl};
    ghost use mathlib.Core.List.{IsPrefix};
    ghost use Rattle.qz_shared_tests.specs.declared.jobs.Added.{Added as AddedData};
    ghost use Rattle.qz_shared_tests.specs.JobKind.{job_kind, lists_once, goes_nowhere};

    ghost History = { Lists AddedData };

    ghost kind = { job_kind };

    ghost listed = { λ h. h };

    ghost seat_of = { λ e. e.seat };

    ghost IsProper = { λ e. ⊤ };

    ghost state = { λ s. record { history = s.entries.items; gate = s.gate; payloads = length s.entries.items; is_open = not s.closed; undecided = None; faults = 0 } };

    ghost Went = { λ first now. IsPrefix first.entries.items now.entries.items };

    ghost histories_once = { lists_once };

    fn history_len(&self) -> u64 {
        self.entries.len() as u64
    }

    fn closed(&self) -> bool {
        self.closed
    }

    fn submit(&mut self, entry: Added) -> Result<(), SubmitError> {
        let count = self.entries.len() as u64;
        if self.closed {
            return Err(SubmitError::Closed { at: self.gate });
        }
        if entry.job < count {
            return Err(SubmitError::Refused(Refusal::JobExists));
        }
        if let Err(JournalFull { need, room }) = fits(self.gate, count, RECORD_LENGTH) {
            return Err(SubmitError::JournalFull { need, room });
        }
        match self.entries.push(entry) {
            Ok(()) => {
                self.gate += 13;
                Ok(())
            }
            Err(_) => Err(SubmitError::NoMemory),
        }
    }

    ghost lists = { λ e h. refl };

    ghost begun = { λ s. goes_nowhere s.entries.items };
}
