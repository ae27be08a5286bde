//! Rows of the tables that the tests work on.
ghost use Rattle.std.specs.Prelude.{◌≡◌, IsTrue};
ghost use Rattle.qz_civil.specs.Timings.{is_name};

use qz_civil::beside;
use qz_types::{JobRow, Key, NAME_LIMIT, Text};
use std::alloc::{AllocError, Global};

/// 2024-01-01T00:00:00Z.
pub(super) const T0: i64 = 1704067200000;

/// Whether the text is within the limits of names.
pub(super) fn is_class(class: &str) -> bool
    ensures { result ≡ is_name class.now }
{
    0 < class.len() && class.len() as u64 <= NAME_LIMIT
}

pub(super) fn key(alloc: Global, name: &str) -> Result<Key, AllocError> {
    Key::new(alloc, "DEFAULT", name)
}

/// A job of this class.
pub(super) fn job(alloc: Global, class: &str) -> Result<JobRow, AllocError>
    requires { IsTrue (is_name class.now) }
{
    let key = Key::new(alloc, "DEFAULT", "report")?;
    let (key, class) = beside(key, Text::from_str(alloc, class))?;
    Ok(JobRow {
        key,
        class,
        durable: false,
        no_concurrent: false,
        requests_recovery: false,
        payload: Text::new(alloc),
    })
}
