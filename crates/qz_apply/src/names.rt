//! Whether two texts or keys are the same.
ghost use Rattle.std.specs.Prelude.{◌≡◌};
ghost use Rattle.qz_types.specs.Words.{same_text, same_key};

use qz_types::Key;
use std::cmp::Ordering;

/// Whether two texts have the same bytes.
#[tactic(auto, unfolding(qz_types::specs::Words::same_text))]
pub fn same_text(a: &str, b: &str) -> bool
    ensures { result ≡ same_text a.now b.now }
{
    a.cmp(b) == Ordering::Equal
}

/// Whether two keys have the same group and the same name.
#[tactic(auto, unfolding(qz_types::specs::Words::same_key))]
pub fn same_key(a: &Key, b: &Key) -> bool
    ensures { result ≡ same_key a.now b.now }
{
    a.cmp(b) == Ordering::Equal
}
