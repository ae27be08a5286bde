//! Why a line isn't read.
ghost use Rattle.std.specs.Prelude.{◌≡◌};

use qz_cron_text::CronError;
use qz_types::NoMemory;
use std::alloc::AllocError;
use thiserror::Error;

/// What is wrong with a line. Of several faults the first in this order is reported.
#[derive(Clone, Copy, PartialEq, Eq, Debug, Error)]
pub enum LineFault {
    /// More than `LINE_LIMIT` bytes, even if all are blank.
    #[error("too long")]
    TooLong,
    /// The bytes aren't UTF-8, or they aren't one JSON value.
    #[error("not JSON")]
    NotJson,
    /// The format has this line, and the scheduler doesn't read it yet; or `times` doesn't take it.
    #[error("not here")]
    NotHere,
    /// An unknown or missing member, a value of another type, `null`, or a value out of its range.
    #[error("not a step")]
    Shape,
    /// The line is right except for its cron text.
    #[error("bad cron {}", .0.number())]
    Cron(CronError),
}

/// Why a line isn't read.
#[derive(Clone, Copy, PartialEq, Eq, Debug, Error)]
pub enum LineError {
    /// The line is bad.
    #[error("{0}")]
    Bad(LineFault),
    /// Memory ran out. The readers say what is known of the line then.
    #[error("no memory")]
    NoMemory,
}

impl From<LineFault> for LineError {
    ghost use Rattle.qz_job_json.specs.declared.faults.LineError.TheVariants as errors;

    ghost from_gives = { λ fault e. e ≡ errors.Bad fault };

    fn from(fault: LineFault) -> LineError {
        LineError::Bad(fault)
    }
}

impl From<NoMemory> for LineError {
    ghost use Rattle.qz_job_json.specs.declared.faults.LineError.TheVariants as errors;

    ghost from_gives = { λ _ e. e ≡ errors.NoMemory };

    fn from(_error: NoMemory) -> LineError {
        LineError::NoMemory
    }
}

impl From<AllocError> for LineError {
    ghost use Rattle.qz_job_json.specs.declared.faults.LineError.TheVariants as errors;

    ghost from_gives = { λ _ e. e ≡ errors.NoMemory };

    fn from(_error: AllocError) -> LineError {
        LineError::NoMemory
    }
}
