//! `times` on an input.
ghost use Rattle.std.specs.Prelude.{◌≡◌, ◌⊎◌, ◌≤◌, [], negsuc, ◌≤ℤ◌};
ghost use Rattle.std.specs.Io.KnownBytes.{Appends};
ghost use Rattle.qz_civil.specs.Causes.{Rose};
ghost use Rattle.qz_io.specs.Around.{without_clock, output_alone};
ghost use Rattle.qz_io.specs.Outside.{IsHandedOn};
ghost use Rattle.qz_times.specs.Answers.{Finishes, end_at, end_of};
ghost use Rattle.qz_times.specs.Runs.{IsRun};

use crate::answers::Answering;
use crate::ends::{LineEnd, TimesEnd};
use crate::known::Known;
use crate::queries::Query;
use qz_civil::LAST;
use qz_io::{LinesEnd, Sink, Source, handle_lines};
use qz_job_json::LineFault;
use std::alloc::Global;

/// Answers the lines of the input one by one: `ok` or a refusal to a zone or a calendar, and to a trigger its first fire times
/// or a refusal. Each answer is written before the next line is looked at. The output is flushed at the end, also where that
/// is an early one.
pub fn run_times<S: Source, K: Sink>(
    alloc: Global,
    input: &mut S,
    out: &mut K,
    query: Query,
) -> TimesEnd
    requires low { negsuc 0 ≤ℤ query.after }
    requires high { query.after ≤ℤ LAST }
    ensures run { IsRun result query (without_clock S.Source K.Sink input.old out.old) (without_clock S.Source K.Sink input.new out.new) }
    ensures read { result ≡ TimesEnd.ReadFault → Rose (S.faults input.old) (S.faults input.new) }
    ensures write { result ≡ TimesEnd.WriteFault → Rose (K.faults out.old) (K.faults out.new) }
    // All that `out` holds was handed on, or it failed.
    ensures handed { IsHandedOn (K.held out.new) (K.handed out.new) ⊎ Rose (K.faults out.old) (K.faults out.new) }
{
    let mut answering = Answering {
        alloc,
        query,
        known: Known::nothing(alloc),
    };
    let ended = handle_lines(alloc, input, &mut answering, out, &mut ());
    drop(answering);
    match ended {
        Ok(()) => finish(out),
        Err(end) => {
            hand_on(out);
            end_of(end)
        }
    }
}

/// Hands on what the output holds where the lines ended early. That this fails is passed over: another cause was met first.
fn hand_on<K: Sink>(out: &mut K)
    ensures kept { Appends (K.held out.old) (K.held out.new) [] }
    ensures handed { IsHandedOn (K.held out.new) (K.handed out.new) ⊎ Rose (K.faults out.old) (K.faults out.new) }
    ensures later { K.faults out.old ≤ K.faults out.new }
{
    let _ = out.flush();
}

/// All lines were answered: hands on what the output holds.
fn finish<K: Sink>(out: &mut K) -> TimesEnd
    ensures { Finishes result (output_alone K.Sink out.old) (output_alone K.Sink out.new) (K.faults out.old) (K.faults out.new) }
{
    match out.flush() {
        Ok(()) => TimesEnd::Done,
        Err(_) => TimesEnd::WriteFault,
    }
}

/// How lines end that weren't handled to the end of the input.
fn end_of(end: LinesEnd<LineEnd>) -> TimesEnd
    ensures { result ≡ end_of end }
{
    match end {
        LinesEnd::Refused { line, error } => end_at(line, error),
        LinesEnd::TooLong { line } => TimesEnd::Bad {
            line,
            fault: LineFault::TooLong,
        },
        LinesEnd::TooMany => TimesEnd::TooManyLines,
        LinesEnd::ReadFault => TimesEnd::ReadFault,
        LinesEnd::NoMemory => TimesEnd::NoMemory,
    }
}

/// How the line of this number ends the lines.
fn end_at(line: u64, end: LineEnd) -> TimesEnd
    ensures { result ≡ end_at line end }
{
    match end {
        LineEnd::Bad(fault) => TimesEnd::Bad { line, fault },
        LineEnd::WriteFault => TimesEnd::WriteFault,
        LineEnd::NoMemory => TimesEnd::NoMemory,
    }
}
