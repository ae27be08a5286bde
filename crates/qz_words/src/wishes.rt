//! What a call is asked for.
ghost use Rattle.std.specs.Prelude.{◌≡◌, IfOk};
ghost use Rattle.qz_words.specs.Counts.{count_fault};
ghost use Rattle.qz_words.specs.Wishes as spec;

use crate::numbers::number_of;
use crate::running::{generate, run};
use qz_civil::{LAST, Text};

/// How many fire times of a trigger may be asked for.
pub const COUNT_LIMIT: u64 = 1000;

/// What a call is asked for.
#[derive(Clone, Copy, PartialEq, Eq, Debug)]
pub enum Wish {
    /// A script on new stores in memory.
    Own,
    /// New stores.
    Init,
    /// A script on the stores.
    Script,
    /// The commands of a document on the stores.
    Load,
    /// What the stores hold.
    List,
    /// A trigger store of format version 1 becomes one of version 2.
    Migrate,
    /// New stores, from the bytes of a trigger store.
    Follow,
    /// The same, and a snapshot stands in place of the entries.
    Compact,
    /// For each trigger of the input its first fire times after a moment.
    Times {
        /// In ms since 1970-01-01T00:00:00Z, from 0 to `LAST`.
        after: i64,
        /// From 1 to `COUNT_LIMIT`.
        count: u32,
    },
    /// The work of some nodes on a virtual clock.
    Run {
        /// From 1 to `NODE_LIMIT`.
        nodes: u32,
        /// In ms since 1970-01-01T00:00:00Z, from 0 to `until`.
        from: i64,
        /// In ms since 1970-01-01T00:00:00Z, up to `LAST`.
        until: i64,
        /// How many firings the run may make: from 1 to `BUDGET_LIMIT`.
        budget: u64,
    },
    /// The work of four nodes on jobs and triggers that are made from a number.
    Gen {
        seed: u64,
        /// From 1 to `JOB_LIMIT`.
        jobs: u32,
        /// From 1 to `DAY_LIMIT`.
        days: u32,
    },
}

/// What is wrong with the words of the command line. Places are counted from 1, after the first word.
#[derive(Clone, Copy, PartialEq, Eq, Debug)]
pub enum WordFault {
    /// No call begins with this word.
    UnknownCommand,
    /// So many words come after the first, and its call takes another number of them.
    WrongCount { found: u32 },
    /// The word at this place is no number of 1 to 19 digits.
    BadNumber { place: u32 },
    /// The number at this place is out of its range.
    OutOfRange { place: u32 },
}

/// What the words ask for. Of several faults the first in the order of `WordFault` is answered, and of two of one kind
/// the one further left. No memory.
pub fn read_words(words: &[Text]) -> Result<Wish, WordFault>
    ensures value { result ≡ spec.wish_of words.now }
    ensures valid { IfOk result spec.IsWish }
{
    match words.split_first() {
        None => Ok(Wish::Own),
        Some((word, further)) => match word.as_str() {
            "init" => alone(Wish::Init, further),
            "script" => alone(Wish::Script, further),
            "load" => alone(Wish::Load, further),
            "list" => alone(Wish::List, further),
            "migrate" => alone(Wish::Migrate, further),
            "follow" => alone(Wish::Follow, further),
            "compact" => alone(Wish::Compact, further),
            "times" => times(further),
            "run" => run(further),
            "gen" => generate(further),
            _ => Err(WordFault::UnknownCommand),
        },
    }
}

// A call without further words.
fn alone(wish: Wish, further: &[Text]) -> Result<Wish, WordFault>
    requires { spec.IsWish wish }
    ensures value { result ≡ spec.alone wish further.now }
    ensures valid { IfOk result spec.IsWish }
{
    if further.is_empty() {
        Ok(wish)
    } else {
        Err(wrong_count(further))
    }
}

/// The fault of so many words after the first.
pub(crate) fn wrong_count(further: &[Text]) -> WordFault
    ensures { result ≡ count_fault further.now }
{
    WordFault::WrongCount {
        found: u32::try_from(further.len()).unwrap_or(u32::MAX),
    }
}

fn times(further: &[Text]) -> Result<Wish, WordFault>
    ensures value { result ≡ spec.times further.now }
    ensures valid { IfOk result spec.IsWish }
{
    match further {
        [after, count] => of_numbers(number_of(after.as_str()), number_of(count.as_str())),
        _ => Err(wrong_count(further)),
    }
}

fn of_numbers(after: Option<u64>, count: Option<u64>) -> Result<Wish, WordFault>
    ensures value { result ≡ spec.of_numbers after count }
    ensures valid { IfOk result spec.IsWish }
{
    let Some(after) = after else {
        return Err(WordFault::BadNumber { place: 1 });
    };
    let Some(count) = count else {
        return Err(WordFault::BadNumber { place: 2 });
    };
    in_range(after, count)
}

fn in_range(after: u64, count: u64) -> Result<Wish, WordFault>
    ensures value { result ≡ spec.in_range after count }
    ensures valid { IfOk result spec.IsWish }
{
    if after > LAST as u64 {
        return Err(WordFault::OutOfRange { place: 1 });
    }
    if count < 1 || count > COUNT_LIMIT {
        return Err(WordFault::OutOfRange { place: 2 });
    }
    Ok(Wish::Times {
        after: after as i64,
        count: count as u32,
    })
}
