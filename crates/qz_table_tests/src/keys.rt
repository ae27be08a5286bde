//! Keys of the tests' rows, which are all of one group.
ghost use Rattle.std.specs.Prelude.{◌≡◌, IsTrue, IfOk};
ghost use Rattle.qz_civil.specs.Timings.{is_name};
ghost use Rattle.qz_types.specs.Rows.{is_key};

use qz_civil::beside;
use qz_types::{Key, NAME_LIMIT};
use std::alloc::{AllocError, Global};

/// Whether the text is within the limits of names.
pub(super) fn is_name(text: &str) -> bool
    ensures { result ≡ is_name text.now }
{
    0 < text.len() && text.len() as u64 <= NAME_LIMIT
}

fn key(alloc: Global, name: &str) -> Result<Key, AllocError>
    requires { IsTrue (is_name name.now) }
    ensures { IfOk result (λ key. IsTrue (is_key key)) }
{
    Key::new(alloc, "DEFAULT", name)
}

/// The keys of a trigger and of its job.
pub(super) fn keys(alloc: Global, trigger: &str, job: &str) -> Result<(Key, Key), AllocError>
    requires trigger { IsTrue (is_name trigger.now) }
    requires job { IsTrue (is_name job.now) }
    ensures { IfOk result (λ keys. IsTrue (is_key keys.0) × IsTrue (is_key keys.1)) }
{
    let trigger = key(alloc, trigger)?;
    beside(trigger, key(alloc, job))
}
