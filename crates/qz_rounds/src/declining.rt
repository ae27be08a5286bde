//! What a node's thread makes of a store's error.
ghost use Rattle.std.specs.Prelude.{◌≡◌};
ghost use Rattle.qz_rounds.specs.Declining.{declined_of};

use qz_run::Declined;
use qz_types::{Refusal, STATE_LIMIT, SubmitError};

/// Why a thread stops at this error. None for a refusal that ends nothing. A closed store is told as a fault.
pub fn declined(error: SubmitError) -> Option<Declined>
    ensures { result ≡ declined_of error }
{
    match error {
        SubmitError::Refused(Refusal::TooMany { count }) => Some(Declined::TooMany { count }),
        SubmitError::Refused(Refusal::RowsFull) => Some(Declined::TooMany { count: STATE_LIMIT }),
        SubmitError::Refused(Refusal::Fenced { live: _ }) => Some(Declined::Fenced),
        SubmitError::Refused(_) => None,
        SubmitError::JournalFull { need, room } => Some(Declined::JournalFull { need, room }),
        SubmitError::NoMemory => Some(Declined::NoMemory),
        SubmitError::Fault | SubmitError::Closed { at: _ } => Some(Declined::Fault),
    }
}
