//! Numbers on the command line.
ghost use Rattle.std.specs.Prelude.{◌≡◌};
ghost use Rattle.qz_words.specs.Numbers as spec;

/// How many digits a number has at most. A greater one may not fit 64 bits.
pub(crate) const DIGITS: usize = 19;

/// The number of 1 to 19 digits that the word is.
#[tactic(auto, unfolding(crate::specs::Numbers::number_of))]
pub(crate) fn number_of(word: &str) -> Option<u64>
    ensures { result ≡ spec.number_of word.now }
{
    let digits = word.as_bytes();
    if digits.is_empty() || digits.len() > DIGITS {
        return None;
    }
    let mut number = 0u64;
    for b in digits {
        if !b.is_ascii_digit() {
            return None;
        }
        number = number * 10 + u64::from(*b - b'0');
    }
    Some(number)
}
