//! Commands that are done in turn, as steps of a client.
ghost use Rattle.std.specs.Prelude.{◌≡◌, ◌≤◌, Err, IsOk};
ghost use Rattle.std.specs.List.{AllByRecursion};
ghost use Rattle.qz_civil.specs.Causes.{Rose};
ghost use Rattle.qz_io.specs.Around.{without_input};
ghost use Rattle.qz_top.specs.Clients.{IsOfClient, CommandsDone, given_command};
ghost use Rattle.qz_top.specs.LineOutcomes.{StepDone};
ghost use Rattle.qz_top.specs.Moments.{Shows};
ghost use Rattle.qz_top.specs.Seen.{view, told_of};

use crate::line_handler::{LineEnd, do_step};
use crate::runs::Run;
use qz_disk::Disk;
use qz_io::{Clock, Sink};
use qz_job_json::Given;
use qz_steps::Step;
use qz_types::{Command, List};
use std::alloc::Global;

/// Does the commands in turn, and writes their replies. Each is done at the moment `at` or, without one, at a reading of
/// the clock of its own, in ms since 1970-01-01T00:00:00Z.
pub(crate) fn do_commands<K: Sink, D: Disk, C: Clock>(
    alloc: Global,
    at: Option<i64>,
    commands: List<Command>,
    run: &mut Run<D>,
    out: &mut K,
    clock: &mut C,
) -> Result<(), LineEnd>
    requires { AllByRecursion IsOfClient commands }
    ensures done { CommandsDone (told_of run.old) result at commands (view run.old) (view run.new) (without_input K.Sink C.Clock out.old clock.old) (without_input K.Sink C.Clock out.new clock.new) }
    ensures shows { Shows (IsOk result) run.old run.new }
    ensures later { K.faults out.old ≤ K.faults out.new }
    ensures write { result ≡ Err LineEnd.WriteFault → Rose (K.faults out.old) (K.faults out.new) }
{
    for command in commands.into_vec() {
        match do_command(alloc, at, command, run, out, clock) {
            Ok(()) => {}
            Err(end) => return Err(end),
        }
    }
    Ok(())
}

// Does one command as a step of a client, and writes its reply.
fn do_command<K: Sink, D: Disk, C: Clock>(
    alloc: Global,
    at: Option<i64>,
    command: Command,
    run: &mut Run<D>,
    out: &mut K,
    clock: &mut C,
) -> Result<(), LineEnd>
    requires { IsOfClient command }
    ensures done { StepDone (told_of run.old) result (given_command at command) (view run.old) (view run.new) (without_input K.Sink C.Clock out.old clock.old) (without_input K.Sink C.Clock out.new clock.new) }
    ensures shows { Shows (IsOk result) run.old run.new }
    ensures later { K.faults out.old ≤ K.faults out.new }
    ensures write { result ≡ Err LineEnd.WriteFault → Rose (K.faults out.old) (K.faults out.new) }
{
    let step = Step::Client(command);
    do_step(alloc, Given { at, step }, run, out, clock)
}
