//! Lines of a script.
ghost use Rattle.std.specs.Prelude.{◌≡◌, ◌⊎◌, Ok, Some, None, IsTrue, IfOk, IfErr, IfSome, option_map};
ghost use Rattle.std.specs.List.{list_all};
ghost use Rattle.serde_json.specs.View.{view};
ghost use Rattle.qz_steps.specs.Steps.{is_step};
ghost use Rattle.qz_job_json.specs.Faults.{ReadsAs};
ghost use Rattle.qz_job_json.specs.Lines.{is_blank, value_of, json_of, NeedsJson, HasNoJson, ReadsLineAs, word_in, own_reading, reading_of, given_of, meaning_of, meaning_of_value};

use crate::faults::{LineError, LineFault};
use crate::forms::Form;
use crate::members::{has_only, optional_integer_at, text_at};
use crate::steps::step_of;
use crate::words::Word;
use qz_io::LINE_LIMIT;
use qz_steps::Step;
use serde_json::Value;
use std::alloc::Global;

/// What a line asks for.
#[derive(Debug, Drop)]
pub struct Given {
    /// The line's own reading in place of one of the clock, in ms since 1970-01-01T00:00:00Z. Any number; 0 in a line that
    /// takes no reading.
    pub at: Option<i64>,
    pub step: Step,
}

/// Reads a line, which has no line feed. None is a blank line: it has only spaces, tabs and carriage returns.
pub fn read_step(alloc: Global, line: &[u8]) -> Result<Option<Given>, LineError>
    ensures meaning { ReadsLineAs result line.now (meaning_of line.now) }
    ensures valid { IfOk result (λ given. IfSome given (λ g. IsTrue (is_step g.step))) }
{
    match json_of(alloc, line)? {
        Some(value) => read_value(alloc, &value).map(Some),
        None => Ok(None),
    }
}

fn is_blank(line: &[u8]) -> bool
    ensures { result ≡ list_all is_blank line.now }
{
    line.iter()
        .all(|byte| matches!(*byte, b' ' | b'\t' | b'\r'))
}

/// The JSON value that the bytes are, NotJson where they are none. They may have any length.
pub fn value_of(alloc: Global, bytes: &[u8]) -> Result<Value, LineError>
    ensures ok { IfOk result (λ value. value_of bytes.now ≡ Some (view value)) }
    ensures err { IfErr result (λ error. (error ≡ LineError.NoMemory) ⊎ ((error ≡ LineError.Bad LineFault.NotJson) × (value_of bytes.now ≡ None))) }
{
    match Value::from_slice(alloc, bytes) {
        Ok(value) => Ok(value),
        Err(error) => {
            if error.is_memory() {
                Err(LineError::NoMemory)
            } else {
                Err(LineError::Bad(LineFault::NotJson))
            }
        }
    }
}

/// The JSON value of a line; None is a blank line.
pub(crate) fn json_of(alloc: Global, line: &[u8]) -> Result<Option<Value>, LineError>
    ensures ok { IfOk result (λ value. json_of line.now ≡ Ok (option_map view value)) }
    ensures err { IfErr result (λ error. HasNoJson error line.now) }
    ensures needed { IfOk result (λ value. IfSome value (λ v. NeedsJson line.now)) }
{
    if line.len() > LINE_LIMIT {
        return Err(LineError::Bad(LineFault::TooLong));
    }
    if is_blank(line) {
        return Ok(None);
    }
    value_of(alloc, line).map(Some)
}

/// The line that the JSON value is, by the text of its member `do`.
fn word_in(value: &Value) -> Result<Word, LineFault>
    ensures { result ≡ word_in (view value.now) }
{
    let text = text_at(value, "do").ok_or(LineFault::Shape)?;
    Word::of(text).ok_or(LineFault::Shape)
}

/// What a line says whose JSON value this is.
pub(crate) fn read_value(alloc: Global, value: &Value) -> Result<Given, LineError>
    ensures meaning { ReadsAs result (meaning_of_value (view value.now)) }
    ensures valid { IfOk result (λ given. IsTrue (is_step given.step)) }
{
    let word = word_in(value)?;
    given_of(alloc, word, value)
}

/// The reading that the line gives in place of the clock's, if it gives one; 0 in a line that takes none.
fn own_reading(value: &Value, word: Word) -> Option<Option<i64>>
    ensures { result ≡ own_reading word (view value.now) }
{
    match word {
        Word::Client(_) | Word::Node(_) | Word::Of(_) => optional_integer_at(value, "at"),
        Word::Untimed(_) => Some(Some(0)),
    }
}

/// The same, where each of its members is one that such a line has.
fn reading_of(value: &Value, word: Word) -> Option<Option<i64>>
    ensures { result ≡ reading_of word (view value.now) }
{
    if has_only(value, Form::Line(word)) {
        own_reading(value, word)
    } else {
        None
    }
}

/// The step with its reading.
#[tactic(auto, unfolding(crate::specs::Lines::given_of))]
fn given_of(alloc: Global, word: Word, value: &Value) -> Result<Given, LineError>
    ensures value { ReadsAs result (given_of word (view value.now)) }
    ensures valid { IfOk result (λ given. IsTrue (is_step given.step)) }
{
    let at = reading_of(value, word).ok_or(LineFault::Shape)?;
    let step = step_of(alloc, word, value)?;
    Ok(Given { at, step })
}
