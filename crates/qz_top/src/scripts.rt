//! A script's run over an input.
ghost use Rattle.std.specs.Prelude.{◌≡◌, ◌≢◌, ℕ, ℤ, List, false};
ghost use Rattle.qz_civil.specs.Causes.{Rose};
ghost use Rattle.qz_io.specs.Around.{outside, output_alone};
ghost use Rattle.qz_cluster.specs.View.{triggers_of};
ghost use Rattle.qz_steps.specs.declared.steps.StepReply.{StepReply};
ghost use Rattle.qz_top.specs.HandingOn.{HandsOnAll};
ghost use Rattle.qz_top.specs.Moments.{Shows};
ghost use Rattle.qz_top.specs.Resting.{IsRestedWell};
ghost use Rattle.qz_top.specs.Runs.{IsOfScript, IsRun};
ghost use Rattle.qz_top.specs.Seen.{view, told_of};
ghost use Rattle.qz_top.specs.Statuses.{cut_status, status_at, status_of, Finishes};

use crate::checkpoints::end_lines;
use crate::line_handler::LineEnd;
use crate::runs::Run;
use crate::writing::hand_on;
use crate::{BadKind, Status};
use qz_cluster::StepEnd;
use qz_disk::Disk;
use qz_io::{Clock, LINE_COUNT_LIMIT, LinesEnd, Sink, Source, handle_lines};

/// Runs the lines of the input: each line's step is done and its reply written before the next line is looked at.
/// After the last line a checkpoint is made where one is due. At the end the output is flushed, also where that is an early one.
pub(crate) fn run_lines<S: Source, K: Sink, D: Disk, C: Clock>(
    input: &mut S,
    out: &mut K,
    run: &mut Run<D>,
    clock: &mut C,
) -> Status
    ensures run { (lines : List (List ℕ)) × (readings : List ℤ) × (replies : List StepReply)
        × IsRun (told_of run.old) result (view run.old) (view run.new) (outside S.Source K.Sink C.Clock input.old out.old clock.old) (outside S.Source K.Sink C.Clock input.new out.new clock.new) lines readings replies }
    ensures few { result ≡ Status.Ok → run.old.is_own ≡ false → IsRestedWell (triggers_of run.new.cluster) }
    ensures called { IsOfScript result }
    ensures shows { Shows ⊥ run.old run.new }
    ensures read { result ≡ Status.ReadFault → Rose (S.faults input.old) (S.faults input.new) }
    ensures write { result ≡ Status.WriteFault → Rose (K.faults out.old) (K.faults out.new) }
    ensures handed { HandsOnAll K.Sink out.old out.new }
{
    let alloc = run.alloc;
    match handle_lines(alloc, input, run, out, clock) {
        Ok(()) => end_lines(out, run),
        Err(end) => {
            hand_on(out);
            status_of(end)
        }
    }
}

/// All lines were done: hands on what the output holds, and answers whether a store is closed.
pub(crate) fn finish<K: Sink>(out: &mut K, closed: bool) -> Status
    ensures finishes { Finishes result closed (output_alone K.Sink out.old) (output_alone K.Sink out.new) (K.faults out.old) (K.faults out.new) }
    ensures other { result ≢ Status.NoMemory }
    ensures handed { HandsOnAll K.Sink out.old out.new }
{
    match out.flush() {
        Ok(()) if closed => Status::DiskFault,
        Ok(()) => Status::Ok,
        Err(_) => Status::WriteFault,
    }
}

/// The status of a script whose lines weren't handled to the end of the input.
fn status_of(end: LinesEnd<LineEnd>) -> Status
    ensures value { result ≡ status_of end }
    ensures called { IsOfScript result }
{
    match end {
        LinesEnd::Refused { line, error } => status_at(line, error),
        LinesEnd::TooLong { line } => Status::BadLine {
            line,
            fault: BadKind::TooLong,
        },
        LinesEnd::TooMany => Status::BadLine {
            line: LINE_COUNT_LIMIT + 1,
            fault: BadKind::TooManyLines,
        },
        LinesEnd::ReadFault => Status::ReadFault,
        LinesEnd::NoMemory => Status::NoMemory,
    }
}

/// The status of a script whose line of this number ended so.
pub(crate) fn status_at(line: u64, end: LineEnd) -> Status
    ensures value { result ≡ status_at line end }
    ensures called { IsOfScript result }
{
    match end {
        LineEnd::Bad(fault) => Status::BadLine { line, fault },
        LineEnd::WriteFault => Status::WriteFault,
        LineEnd::Unanswered => Status::NoMemory,
        LineEnd::NoMemory => Status::NoMemory,
        LineEnd::CutShort(end) => cut_status(end),
    }
}

/// The status of a script whose next step was cut short so.
fn cut_status(end: StepEnd) -> Status
    ensures value { result ≡ cut_status end }
    ensures called { IsOfScript result }
{
    match end {
        StepEnd::JournalFull { need, room } => Status::JournalFull { need, room },
        StepEnd::NotAStore { store } => Status::NotAStore { store },
        StepEnd::Damaged { store, at } => Status::Damaged { store, at },
        StepEnd::NoMemory => Status::NoMemory,
    }
}
