//! Texts.
ghost use Rattle.std.specs.Prelude.{◌≡◌};
ghost use Rattle.std.specs.Ordering.{nat_cmp};
ghost use Rattle.std.specs.Cmp.Lexicographic.{slice_cmp};

use qz_civil::Text;
use std::cmp::Ordering;

/// Compares texts as their order does.
pub fn cmp(text: &Text, other: &Text) -> Ordering
    ensures { result ≡ slice_cmp nat_cmp text.now other.now }
{
    text.cmp(other)
}
