//! The handler of a script's lines: each line is read, done and answered.
ghost use Rattle.std.specs.Prelude.{◌≡◌, ◌⊎◌, ◌≤◌, ◌<◌, ◌∷◌, [], Err, IsTrue, IsOk, IfOk, IfErr, IfSome, OnOk, vec_len, vec_capacity, true};
ghost use Rattle.qz_civil.specs.Causes.{Rose};
ghost use Rattle.qz_io.specs.Around.{without_input};
ghost use Rattle.qz_io.specs.Clocks.{Tells};
ghost use Rattle.qz_steps.specs.Steps.{is_step};
ghost use Rattle.qz_steps.specs.declared.steps.StepReply.{StepReply as Reply};
ghost use Rattle.qz_job_json.specs.Lines.{ReadsLineAs};
ghost use Rattle.qz_report.specs.Replies.{reply_text};
ghost use Rattle.qz_cluster.specs.View.{view as cluster_view};
ghost use Rattle.qz_top.specs.Lines.{line_meaning};
ghost use Rattle.qz_top.specs.Moments.{Shows};
ghost use Rattle.qz_top.specs.Seen.{view, told_of};
ghost use Rattle.qz_top.specs.Trails.{RanSteps, is_fault};
ghost use Rattle.qz_top.specs.LineOutcomes.{IsOwn, taken_reading, line_end, StepDone, LineDone, NotDone, NotAnswered};

use crate::BadKind;
use crate::runs::Run;
use crate::statuses::kind_of;
use qz_cluster::StepEnd;
use qz_disk::Disk;
use qz_io::{Clock, LineHandler, Sink, write_all};
use qz_job_json::{Given, LineError, read_step};
use qz_report::reply_line;
use qz_steps::{Step, StepReply};
use qz_types::{NoMemory, Text};
use std::alloc::Global;
use std::snapshot::Snapshot;

/// What ends a script at a line.
#[derive(Clone, Copy)]
pub(crate) enum LineEnd {
    /// The line is bad. It did nothing.
    Bad(BadKind),
    /// The line's step was done, and the output failed before its reply was whole.
    WriteFault,
    /// The line's step was done, and there was no memory for its reply.
    Unanswered,
    /// There was no memory for the line or its step, which wasn't done; or disks of the call's own failed in the step.
    NoMemory,
    /// The line's step was cut short.
    CutShort(StepEnd),
}

impl<D: Disk, K: Sink, C: Clock> LineHandler<K, C> for Run<D> {
    ghost use Rattle.qz_top.specs.Handling.{Does};

    type Error = LineEnd;

    ghost handles = { Does K.Sink C.Clock };

    fn handle(&mut self, line: &[u8], out: &mut K, clock: &mut C) -> Result<(), LineEnd> {
        do_line(self.alloc, line, self, out, clock)
    }
}

/// Does what a line asks for, and writes the reply. A blank line asks for nothing.
fn do_line<K: Sink, D: Disk, C: Clock>(
    alloc: Global,
    line: &[u8],
    run: &mut Run<D>,
    out: &mut K,
    clock: &mut C,
) -> Result<(), LineEnd>
    ensures done { LineDone (told_of run.old) result line.now (view run.old) (view run.new) (without_input K.Sink C.Clock out.old clock.old) (without_input K.Sink C.Clock out.new clock.new) }
    ensures shows { Shows (IsOk result) run.old run.new }
    ensures later { K.faults out.old ≤ K.faults out.new }
    ensures write { result ≡ Err LineEnd.WriteFault → Rose (K.faults out.old) (K.faults out.new) }
{
    match read_line(alloc, line) {
        Ok(None) => Ok(()),
        Ok(Some(given)) => do_step(alloc, given, run, out, clock),
        Err(error) => Err(end_of(error)),
    }
}

#[tactic(auto, unfolding(crate::specs::Lines::line_meaning))]
fn read_line(alloc: Global, line: &[u8]) -> Result<Option<Given>, LineError>
    ensures meaning { ReadsLineAs result line.now (line_meaning line.now) }
    ensures valid { IfOk result (λ given. IfSome given (λ g. IsTrue (is_step g.step))) }
{
    read_step(alloc, line)
}

/// How a line ends a script that isn't read.
fn end_of(error: LineError) -> LineEnd
    ensures { result ≡ line_end error }
{
    match error {
        LineError::Bad(fault) => LineEnd::Bad(kind_of(fault)),
        LineError::NoMemory => LineEnd::NoMemory,
    }
}

/// Does a step at its own reading, or at one of the clock, and writes the reply.
pub(crate) fn do_step<K: Sink, D: Disk, C: Clock>(
    alloc: Global,
    given: Given,
    run: &mut Run<D>,
    out: &mut K,
    clock: &mut C,
) -> Result<(), LineEnd>
    requires { IsTrue (is_step given.step) }
    ensures done { StepDone (told_of run.old) result given (view run.old) (view run.new) (without_input K.Sink C.Clock out.old clock.old) (without_input K.Sink C.Clock out.new clock.new) }
    ensures shows { Shows (IsOk result) run.old run.new }
    ensures later { K.faults out.old ≤ K.faults out.new }
    ensures write { result ≡ Err LineEnd.WriteFault → Rose (K.faults out.old) (K.faults out.new) }
{
    let Given { at, step } = given;
    let at = reading_of(at, clock);
    let text = match answer_text(alloc, step, at, run) {
        Ok(text) => text,
        Err(end) => return Err(end),
    };
    match write_all(out, text.as_str().as_bytes()) {
        Ok(()) => Ok(()),
        Err(_) => Err(LineEnd::WriteFault),
    }
}

/// Does a step, and gives its reply line.
fn answer_text<D: Disk>(
    alloc: Global,
    step: Step,
    at: i64,
    run: &mut Run<D>,
) -> Result<Text, LineEnd>
    requires { IsTrue (is_step step) }
    ensures ok { IfOk result (λ text. (reply : Reply) × RanSteps (told_of run.old) (record { step = step; at = at } ∷ []) (reply ∷ []) (view run.old) (view run.new) × (text ≡ reply_text reply)) }
    ensures err { IfErr result (λ e. NotAnswered (told_of run.old) e (record { step = step; at = at }) (view run.old) (view run.new)) }
    ensures shows { Shows (IsOk result) run.old run.new }
{
    match answer(step, at, run) {
        Ok(reply) => match line_of(alloc, reply) {
            Ok(text) => Ok(text),
            Err(_) => Err(LineEnd::Unanswered),
        },
        Err(end) => Err(end),
    }
}

/// The line of a reply, which is let go.
fn line_of(alloc: Global, reply: StepReply) -> Result<Text, NoMemory>
    ensures { IfOk result (λ text. text ≡ reply_text reply) }
{
    let line = reply_line(alloc, &reply);
    drop(reply);
    line
}

/// Does a step, and shows the state after it. That disks of the call's own fail is want of memory.
fn answer<D: Disk>(step: Step, at: i64, run: &mut Run<D>) -> Result<StepReply, LineEnd>
    requires { IsTrue (is_step step) }
    ensures ok { IfOk result (λ reply. RanSteps (told_of run.old) (record { step = step; at = at } ∷ []) (reply ∷ []) (view run.old) (view run.new)) }
    ensures err { IfErr result (λ e. NotDone (told_of run.old) e (record { step = step; at = at }) (view run.old) (view run.new)) }
    ensures shows { Shows (IsOk result) run.old run.new }
{
    if run.trail.reserve(1).is_err() {
        drop(step);
        return Err(LineEnd::NoMemory);
    }
    match run.cluster.step(step, at) {
        Ok(reply) => {
            if run.is_own && is_fault(&reply) {
                drop(reply);
                return Err(LineEnd::NoMemory);
            }
            run.trail.push_reserved(Snapshot::of(&run.cluster));
            Ok(reply)
        }
        Err(end) => Err(LineEnd::CutShort(end)),
    }
}

fn is_fault(reply: &StepReply) -> bool
    ensures { result ≡ is_fault reply.now }
{
    match reply {
        StepReply::Fault => true,
        StepReply::Ok(_)
        | StepReply::Refused(_)
        | StepReply::Closed
        | StepReply::Stopped
        | StepReply::Restarted
        | StepReply::Shown(_)
        | StepReply::Marked(_)
        | StepReply::Room(_) => false,
    }
}

/// The step's own reading, or one of the clock.
fn reading_of<C: Clock>(own: Option<i64>, clock: &mut C) -> i64
    ensures own { IsOwn own result }
    ensures told { Tells (C.readings clock.old) (C.readings clock.new) (taken_reading own result) }
{
    match own {
        Some(at) => at,
        None => clock.now(),
    }
}
