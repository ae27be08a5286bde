//! The loop over the lines of an input.
ghost use Rattle.std.specs.Prelude.{◌≡◌, ◌≤◌, ℕ, List, Result, Err, [], OnErr};
ghost use Rattle.qz_civil.specs.Causes.{Rose};
ghost use Rattle.qz_io.specs.Handlers.{HandlesLines};
ghost use Rattle.qz_io.specs.LineStates.{LineState};
ghost use Rattle.qz_io.specs.Turns.{TurnDone, BeyondDone};

use crate::{Found, LINE_COUNT_LIMIT, LineReader, Source};
use std::alloc::Global;

/// What is done with the lines of an input, one after another. `K` is the output, and `X` what else is changed, as a
/// clock.
pub trait LineHandler<K, X> {
    /// Why no line after this one is handled.
    type Error;

    /// What a call makes of a line: the line, the answer, and the handler with `K` and `X` before and after.
    ghost handles: { List ℕ → Result (Unit {0}) Self.Error → LineState Self K X → LineState Self K X → Type 0 };

    /// Handles a line, which is given without its line feed.
    fn handle(&mut self, line: &[u8], out: &mut K, rest: &mut X) -> Result<(), Self::Error>
        ensures { handles line.now result (record { handler = self.old; out = out.old; rest = rest.old }) (record { handler = self.new; out = out.new; rest = rest.new }) };
}

/// Why the lines of an input weren't handled to its end.
#[derive(Clone, Copy, PartialEq, Eq, Debug)]
pub enum LinesEnd<E> {
    /// The handler refused the line of this number, counted from 1.
    Refused { line: u64, error: E },
    /// The line of this number has more than `LINE_LIMIT` bytes.
    TooLong { line: u64 },
    /// `LINE_COUNT_LIMIT` lines were handled, and one more begins.
    TooMany,
    /// A read of the input failed. Each line whose line feed was read was handled.
    ReadFault,
    /// There is no memory for the reader's buffer. Nothing was read.
    NoMemory,
}

/// Hands the lines of an input to a handler, one by one, to the input's end: no line is read before the one before it
/// was handled. It stops at the first line that the handler refuses.
pub fn handle_lines<S: Source, K, X, H: LineHandler<K, X>>(
    alloc: Global,
    input: &mut S,
    handler: &mut H,
    out: &mut K,
    rest: &mut X,
) -> Result<(), LinesEnd<H::Error>>
    ensures lines { HandlesLines H.handles result (S.left input.old) (S.left input.new) (record { handler = handler.old; out = out.old; rest = rest.old }) (record { handler = handler.new; out = out.new; rest = rest.new }) }
    ensures read { result ≡ Err LinesEnd.ReadFault → Rose (S.faults input.old) (S.faults input.new) }
{
    let mut reader = match LineReader::new(alloc) {
        Ok(reader) => reader,
        Err(_) => return Err(LinesEnd::NoMemory),
    };
    for number in 0..LINE_COUNT_LIMIT {
        match handle_next(&mut reader, number + 1, input, handler, out, rest) {
            Ok(true) => {}
            Ok(false) => return Ok(()),
            Err(end) => return Err(end),
        }
    }
    end_of_lines(&mut reader, input)
}

/// Handles the next line, which has this number. False where no further one can come.
fn handle_next<S: Source, K, X, H: LineHandler<K, X>>(
    reader: &mut LineReader,
    number: u64,
    input: &mut S,
    handler: &mut H,
    out: &mut K,
    rest: &mut X,
) -> Result<bool, LinesEnd<H::Error>>
    ensures done { TurnDone H.handles result number (S.left input.old) (S.left input.new) reader.old.pending reader.new.pending (record { handler = handler.old; out = out.old; rest = rest.old }) (record { handler = handler.new; out = out.new; rest = rest.new }) }
    ensures reads { S.faults input.old ≤ S.faults input.new }
    ensures read { result ≡ Err LinesEnd.ReadFault → Rose (S.faults input.old) (S.faults input.new) }
{
    match reader.next(input) {
        Ok(Found::Line) => match handler.handle(reader.line(), out, rest) {
            Ok(()) => Ok(true),
            Err(error) => Err(LinesEnd::Refused {
                line: number,
                error,
            }),
        },
        Ok(Found::LastLine) => match handler.handle(reader.line(), out, rest) {
            Ok(()) => Ok(false),
            Err(error) => Err(LinesEnd::Refused {
                line: number,
                error,
            }),
        },
        Ok(Found::TooLong) => Err(LinesEnd::TooLong { line: number }),
        Ok(Found::End) => Ok(false),
        Err(_) => Err(LinesEnd::ReadFault),
    }
}

/// After as many lines as an input may have: `TooMany` where one more begins.
fn end_of_lines<S: Source, E>(reader: &mut LineReader, input: &mut S) -> Result<(), LinesEnd<E>>
    ensures done { BeyondDone result (S.left input.old) (S.left input.new) reader.old.pending reader.new.pending }
    ensures reads { S.faults input.old ≤ S.faults input.new }
    ensures read { result ≡ Err LinesEnd.ReadFault → Rose (S.faults input.old) (S.faults input.new) }
{
    match reader.next(input) {
        Ok(Found::End) => Ok(()),
        Ok(Found::Line) => Err(LinesEnd::TooMany),
        Ok(Found::LastLine) => Err(LinesEnd::TooMany),
        Ok(Found::TooLong) => Err(LinesEnd::TooMany),
        Err(_) => Err(LinesEnd::ReadFault),
    }
}
