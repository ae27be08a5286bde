//! The words of the call on the system's clock.
ghost use Rattle.std.specs.Prelude.{◌≡◌, IfOk};
ghost use Rattle.qz_words.specs.Serves as spec;

use crate::numbers::number_of;
use crate::running::NODE_LIMIT;
use crate::wishes::{WordFault, wrong_count};
use qz_civil::{LAST, Text};

/// What `serve` is asked for.
#[derive(Clone, Copy, PartialEq, Eq, Debug)]
pub struct Serving {
    /// How many nodes work: from 1 to `NODE_LIMIT`.
    pub nodes: u32,
    /// They work up to this moment, in ms since 1970-01-01T00:00:00Z, from 0 to `LAST`.
    pub until: i64,
    /// How many times the status board is looked at while they work: from 1 to `LOOK_LIMIT`. None where there is no board.
    pub looks: Option<u32>,
}

/// How many times a board is looked at at most, while nodes work.
pub const LOOK_LIMIT: u64 = 1000;

/// What the words `serve NODES UNTIL [LOOKS]` ask for. Every other first word is unknown here, and so are no words. Of several
/// faults the first in the order of `WordFault` is answered, and of two of one kind the one further left. No memory.
pub fn read_serve(words: &[Text]) -> Result<Serving, WordFault>
    ensures value { result ≡ spec.serving_of words.now }
    ensures valid { IfOk result spec.IsServing }
{
    match words.split_first() {
        None => Err(WordFault::UnknownCommand),
        Some((word, further)) => match word.as_str() {
            "serve" => serve(further),
            _ => Err(WordFault::UnknownCommand),
        },
    }
}

fn serve(further: &[Text]) -> Result<Serving, WordFault>
    ensures value { result ≡ spec.serve further.now }
    ensures valid { IfOk result spec.IsServing }
{
    match further {
        [nodes, until] => serve_of(
            number_of(nodes.as_str()),
            number_of(until.as_str()),
            Some(None),
        ),
        [nodes, until, looks] => serve_of(
            number_of(nodes.as_str()),
            number_of(until.as_str()),
            some_looks(number_of(looks.as_str())),
        ),
        _ => Err(wrong_count(further)),
    }
}

// So many looks, if that is a number.
fn some_looks(number: Option<u64>) -> Option<Option<u64>>
    ensures { result ≡ spec.some_looks number }
{
    match number {
        Some(looks) => Some(Some(looks)),
        None => None,
    }
}

fn serve_of(
    nodes: Option<u64>,
    until: Option<u64>,
    looks: Option<Option<u64>>,
) -> Result<Serving, WordFault>
    ensures value { result ≡ spec.serve_of nodes until looks }
    ensures valid { IfOk result spec.IsServing }
{
    let Some(nodes) = nodes else {
        return Err(WordFault::BadNumber { place: 1 });
    };
    let Some(until) = until else {
        return Err(WordFault::BadNumber { place: 2 });
    };
    let Some(looks) = looks else {
        return Err(WordFault::BadNumber { place: 3 });
    };
    serve_in_range(nodes, until, looks)
}

fn serve_in_range(nodes: u64, until: u64, looks: Option<u64>) -> Result<Serving, WordFault>
    ensures value { result ≡ spec.serve_in_range nodes until looks }
    ensures valid { IfOk result spec.IsServing }
{
    if nodes < 1 || nodes > NODE_LIMIT {
        return Err(WordFault::OutOfRange { place: 1 });
    }
    if until > LAST as u64 {
        return Err(WordFault::OutOfRange { place: 2 });
    }
    let looks = match looks {
        Some(looks) => {
            if looks < 1 || looks > LOOK_LIMIT {
                return Err(WordFault::OutOfRange { place: 3 });
            }
            Some(looks as u32)
        }
        None => None,
    };
    Ok(Serving {
        nodes: nodes as u32,
        until: until as i64,
        looks,
    })
}
