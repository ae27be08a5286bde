//! Which cause counts where several threads ended early.
ghost use Rattle.std.specs.Prelude.{◌≡◌};
ghost use Rattle.qz_serve.specs.Causes.{least_cause, rank};

use qz_run::Declined;

// The order of causes: that of the exit numbers of their statuses.
fn rank(cause: &Declined) -> u32
    ensures { result ≡ rank cause.now }
{
    match cause {
        Declined::Fault => 0,
        Declined::JournalFull { .. } => 1,
        Declined::NoMemory => 2,
        Declined::TooMany { .. } => 3,
        Declined::Fenced => 4,
    }
}

/// Of two threads' causes the one of least exit number: a fault before a full journal, that before want of memory, that
/// before a limit, and that before a fence.
pub(super) fn least_cause(one: Option<Declined>, other: Option<Declined>) -> Option<Declined>
    ensures { result ≡ least_cause one other }
{
    match (one, other) {
        (Some(first), Some(second)) => {
            if rank(&second) < rank(&first) {
                Some(second)
            } else {
                Some(first)
            }
        }
        (Some(first), None) => Some(first),
        (None, second) => second,
    }
}
