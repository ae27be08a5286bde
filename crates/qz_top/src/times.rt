//! `times`: the fire times of the triggers of an input.
ghost use Rattle.std.specs.Prelude.{◌≡◌, [], negsuc, ◌≤ℤ◌};
ghost use Rattle.qz_civil.specs.Causes.{Rose};
ghost use Rattle.qz_io.specs.Around.{without_clock};
ghost use Rattle.qz_top.specs.Calls.{trail_of};
ghost use Rattle.qz_top.specs.HandingOn.{HandsOnAll, HandsOnWritten};
ghost use Rattle.qz_top.specs.Times.{IsOfTimes, TimesDone, status_of};

use crate::ended::{Ended, ran_no_script};
use crate::statuses::kind_of;
use crate::{BadKind, Status};
use qz_disk::Disk;
use qz_io::{LINE_COUNT_LIMIT, Sink, Source};
use qz_times::{Query, TimesEnd, run_times};
use qz_types::LAST;
use std::alloc::Global;

/// Answers the lines of the input. The disks aren't touched.
pub(crate) fn tell_times<S: Source, K: Sink, D: Disk>(
    alloc: Global,
    input: &mut S,
    out: &mut K,
    triggers: D,
    states: D,
    query: Query,
) -> Ended<D>
    requires low { negsuc 0 ≤ℤ query.after }
    requires high { query.after ≤ℤ LAST }
    ensures done { TimesDone result.status query (without_clock S.Source K.Sink input.old out.old) (without_clock S.Source K.Sink input.new out.new) }
    ensures called { IsOfTimes result.status }
    ensures disks { (result.triggers ≡ triggers) × (result.states ≡ states) }
    ensures trail { trail_of result.trail ≡ [] }
    ensures read { result.status ≡ Status.ReadFault → Rose (S.faults input.old) (S.faults input.new) }
    ensures write { result.status ≡ Status.WriteFault → Rose (K.faults out.old) (K.faults out.new) }
    ensures handed { HandsOnWritten K.Sink out.old out.new }
{
    let status = times(alloc, input, out, query);
    ran_no_script(alloc, status, triggers, states)
}

// The same, without the disks.
fn times<S: Source, K: Sink>(alloc: Global, input: &mut S, out: &mut K, query: Query) -> Status
    requires low { negsuc 0 ≤ℤ query.after }
    requires high { query.after ≤ℤ LAST }
    ensures done { TimesDone result query (without_clock S.Source K.Sink input.old out.old) (without_clock S.Source K.Sink input.new out.new) }
    ensures called { IsOfTimes result }
    ensures read { result ≡ Status.ReadFault → Rose (S.faults input.old) (S.faults input.new) }
    ensures write { result ≡ Status.WriteFault → Rose (K.faults out.old) (K.faults out.new) }
    ensures handed { HandsOnAll K.Sink out.old out.new }
{
    status_of(run_times(alloc, input, out, query))
}

fn status_of(end: TimesEnd) -> Status
    ensures value { result ≡ status_of end }
    ensures called { IsOfTimes result }
    ensures read { result ≡ Status.ReadFault → end ≡ TimesEnd.ReadFault }
    ensures write { result ≡ Status.WriteFault → end ≡ TimesEnd.WriteFault }
{
    match end {
        TimesEnd::Done => Status::Ok,
        TimesEnd::Bad { line, fault } => Status::BadLine {
            line,
            fault: kind_of(fault),
        },
        TimesEnd::TooManyLines => Status::BadLine {
            line: LINE_COUNT_LIMIT + 1,
            fault: BadKind::TooManyLines,
        },
        TimesEnd::ReadFault => Status::ReadFault,
        TimesEnd::WriteFault => Status::WriteFault,
        TimesEnd::NoMemory => Status::NoMemory,
    }
}
