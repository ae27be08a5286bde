//! What is wrong with a cron text.
ghost use Rattle.std.specs.Prelude.{◌≡◌};
ghost use Rattle.qz_cron_text.specs.Errors.{error_number, u32_of};

use thiserror::Error;

/// The first fault of a text: `FieldCount` before all others; then field by field from the left, in each element
/// `BadToken`, `OutOfRange` and `BadStep`, and after the field's last element `NotAlone`; `BothDays` and `NoDays` are
/// last. Fields are numbered from 1 for the seconds to 7 for the years.
#[derive(Clone, Copy, PartialEq, Eq, Debug, Error)]
pub enum CronError {
    /// The text has neither six fields nor seven.
    #[error("there are {found} fields, and not six or seven")]
    FieldCount { found: u32 },
    /// An element is of no form that its field has. `at` is the offset of its first byte in the text, from 0; an empty
    /// element has the offset at which its first byte would be.
    #[error("field {field} has something else than a value at {at}")]
    BadToken { field: u8, at: u32 },
    /// A value isn't one of the field's, a range of years begins with a later year than it ends, the n of `L-n` isn't 0
    /// to 30, or the k of `a#k` isn't 1 to 5. It is the first such number of its element.
    #[error("{value} is out of the range of field {field}")]
    OutOfRange { field: u8, value: u16 },
    /// Neither the day of the month nor the day of the week is `?`.
    #[error("both the day of the month and the day of the week are given")]
    BothDays,
    /// Both the day of the month and the day of the week are `?`.
    #[error("neither the day of the month nor the day of the week is given")]
    NoDays,
    /// A step isn't 1 to 59.
    #[error("field {field} has a step that is not 1 to 59")]
    BadStep { field: u8 },
    /// A form that names no set of values is in a list.
    #[error("field {field} has a list with a form that must stand alone")]
    NotAlone { field: u8 },
}

impl CronError {
    /// Its number, from 1, for programs.
    pub fn number(self) -> u8
        ensures { result ≡ error_number self }
    {
        match self {
            CronError::FieldCount { found: _ } => 1,
            CronError::BadToken { field: _, at: _ } => 2,
            CronError::OutOfRange { field: _, value: _ } => 3,
            CronError::BothDays => 4,
            CronError::NoDays => 5,
            CronError::BadStep { field: _ } => 6,
            CronError::NotAlone { field: _ } => 7,
        }
    }
}

/// A place or a count in 32 bits, as faults give it. A greater one, of a text of 4 GiB and more, is given as the greatest.
pub fn u32_of(n: usize) -> u32
    ensures { result ≡ u32_of n }
{
    n.min(0xffff_ffff) as u32
}
