//! A script on the stores of two disks.
ghost use Rattle.std.specs.Prelude.{◌≡◌, ◌⊎◌};
ghost use Rattle.qz_civil.specs.Causes.{Rose};
ghost use Rattle.qz_io.specs.Around.{outside};
ghost use Rattle.qz_top.specs.Asked.{RanScript};
ghost use Rattle.qz_top.specs.Calls.{RanOnDisk};
ghost use Rattle.qz_top.specs.HandingOn.{HandsOnWritten};
ghost use Rattle.qz_top.specs.Moments.{BeginsOn};

use crate::Status;
use crate::ended::Ended;
use crate::opening::open_run;
use crate::runs::Run;
use crate::scripts::run_lines;
use qz_disk::Disk;
use qz_io::{Clock, Sink, Source};
use qz_trigger_store::Keep;
use std::alloc::Global;

/// Opens both stores, and runs the lines of the input on them.
pub(crate) fn script_on_disk<S: Source, K: Sink, D: Disk, C: Clock>(
    alloc: Global,
    input: &mut S,
    out: &mut K,
    triggers: D,
    states: D,
    clock: &mut C,
) -> Ended<D>
    ensures done { RanScript triggers states result (outside S.Source K.Sink C.Clock input.old out.old clock.old) (outside S.Source K.Sink C.Clock input.new out.new clock.new) }
    ensures disk { result.status ≡ Status.DiskFault → Rose (D.faults triggers) (D.faults result.triggers) ⊎ Rose (D.faults states) (D.faults result.states) }
    ensures read { result.status ≡ Status.ReadFault → Rose (S.faults input.old) (S.faults input.new) }
    ensures write { result.status ≡ Status.WriteFault → Rose (K.faults out.old) (K.faults out.new) }
    ensures handed { HandsOnWritten K.Sink out.old out.new }
{
    match open_run(alloc, triggers, states, Keep::Tables) {
        Ok(run) => run_opened(input, out, run, clock),
        Err(ended) => ended,
    }
}

// A script on the stores that were opened.
fn run_opened<S: Source, K: Sink, D: Disk, C: Clock>(
    input: &mut S,
    out: &mut K,
    mut run: Run<D>,
    clock: &mut C,
) -> Ended<D>
    ensures done { (triggers : D) → (states : D) → BeginsOn triggers states run
        → RanOnDisk triggers states result (outside S.Source K.Sink C.Clock input.old out.old clock.old) (outside S.Source K.Sink C.Clock input.new out.new clock.new) }
    ensures disk { (triggers : D) → (states : D) → BeginsOn triggers states run
        → result.status ≡ Status.DiskFault → Rose (D.faults triggers) (D.faults result.triggers) ⊎ Rose (D.faults states) (D.faults result.states) }
    ensures read { result.status ≡ Status.ReadFault → Rose (S.faults input.old) (S.faults input.new) }
    ensures write { result.status ≡ Status.WriteFault → Rose (K.faults out.old) (K.faults out.new) }
    ensures handed { HandsOnWritten K.Sink out.old out.new }
{
    let status = run_lines(input, out, &mut run, clock);
    run.end(status)
}
