//! The words of the call that tells what was done.
ghost use Rattle.std.specs.Prelude.{◌≡◌};
ghost use Rattle.qz_words.specs.Histories as spec;

use crate::numbers::number_of;
use crate::wishes::{WordFault, wrong_count};
use qz_civil::Text;

/// The number behind which the words `history FROM` ask for what was done. Every other first word is unknown here, and so are no
/// words. No memory.
pub fn read_history(words: &[Text]) -> Result<u64, WordFault>
    ensures { result ≡ spec.history_of words.now }
{
    match words.split_first() {
        None => Err(WordFault::UnknownCommand),
        Some((word, further)) => match word.as_str() {
            "history" => history(further),
            _ => Err(WordFault::UnknownCommand),
        },
    }
}

fn history(further: &[Text]) -> Result<u64, WordFault>
    ensures { result ≡ spec.history further.now }
{
    match further {
        [from] => match number_of(from.as_str()) {
            Some(from) => Ok(from),
            None => Err(WordFault::BadNumber { place: 1 }),
        },
        _ => Err(wrong_count(further)),
    }
}
