//! `times`.
ghost use Rattle.std.specs.Prelude.{◌≡◌, negsuc, ◌≤ℤ◌};
ghost use Rattle.qz_civil.specs.Causes.{Rose};
ghost use Rattle.qz_io.specs.Around.{without_clock};
ghost use Rattle.qz_times.specs.Runs.{IsRun};

use qz_civil::LAST;
use qz_io::{Sink, Source};
use qz_times::{Query, TimesEnd};
use std::alloc::Global;

/// Tells the fire times of an input's triggers, as `qz_times::run_times` does.
pub fn run_times<S: Source, K: Sink>(
    alloc: Global,
    input: &mut S,
    out: &mut K,
    query: Query,
) -> TimesEnd
    requires low { negsuc 0 ≤ℤ query.after }
    requires high { query.after ≤ℤ LAST }
    ensures run { IsRun result query (without_clock S.Source K.Sink input.old out.old) (without_clock S.Source K.Sink input.new out.new) }
    ensures read { result ≡ TimesEnd.ReadFault → Rose (S.faults input.old) (S.faults input.new) }
    ensures write { result ≡ TimesEnd.WriteFault → Rose (K.faults out.old) (K.faults out.new) }
{
    qz_times::run_times(alloc, input, out, query)
}
