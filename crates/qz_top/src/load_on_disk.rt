//! `load`: the commands of a document on the stores of two disks.
ghost use Rattle.std.specs.Prelude.{◌≡◌, ◌≢◌, ◌⊎◌, true, false};
ghost use Rattle.qz_civil.specs.Causes.{Rose};
ghost use Rattle.qz_cluster.specs.View.{triggers_of};
ghost use Rattle.qz_document.specs.Items.{are_valid};
ghost use Rattle.qz_io.specs.Around.{outside, without_input};
ghost use Rattle.qz_top.specs.Asked.{RanLoad};
ghost use Rattle.qz_top.specs.Calls.{LoadedOnDisk};
ghost use Rattle.qz_top.specs.HandingOn.{HandsOnAll, HandsOnWritten};
ghost use Rattle.qz_top.specs.Loads.{Loads, DidDocument};
ghost use Rattle.qz_top.specs.Moments.{BeginsOn, Shows};
ghost use Rattle.qz_top.specs.Resting.{IsRestedWell};
ghost use Rattle.qz_top.specs.Seen.{view, told_of};

use crate::Status;
use crate::checkpoints::end_lines;
use crate::documents::document_of;
use crate::ended::Ended;
use crate::loading::do_commands;
use crate::opening::open_run;
use crate::runs::Run;
use crate::scripts::status_at;
use crate::writing::hand_on;
use qz_disk::Disk;
use qz_document::Document;
use qz_io::{Clock, Sink, Source};
use qz_trigger_store::Keep;
use std::alloc::Global;

/// Opens both stores, and does the commands of the document on the input.
pub(crate) fn load_on_disk<S: Source, K: Sink, D: Disk, C: Clock>(
    alloc: Global,
    input: &mut S,
    out: &mut K,
    triggers: D,
    states: D,
    clock: &mut C,
) -> Ended<D>
    ensures done { RanLoad triggers states result (outside S.Source K.Sink C.Clock input.old out.old clock.old) (outside S.Source K.Sink C.Clock input.new out.new clock.new) }
    ensures disk { result.status ≡ Status.DiskFault → Rose (D.faults triggers) (D.faults result.triggers) ⊎ Rose (D.faults states) (D.faults result.states) }
    ensures read { result.status ≡ Status.ReadFault → Rose (S.faults input.old) (S.faults input.new) }
    ensures write { result.status ≡ Status.WriteFault → Rose (K.faults out.old) (K.faults out.new) }
    ensures handed { HandsOnWritten K.Sink out.old out.new }
{
    match open_run(alloc, triggers, states, Keep::Tables) {
        Ok(run) => load_opened(input, out, run, clock),
        Err(ended) => ended,
    }
}

// Does the commands of the document on the stores that were opened.
fn load_opened<S: Source, K: Sink, D: Disk, C: Clock>(
    input: &mut S,
    out: &mut K,
    mut run: Run<D>,
    clock: &mut C,
) -> Ended<D>
    ensures done { (triggers : D) → (states : D) → BeginsOn triggers states run
        → LoadedOnDisk triggers states result (outside S.Source K.Sink C.Clock input.old out.old clock.old) (outside S.Source K.Sink C.Clock input.new out.new clock.new) }
    ensures disk { (triggers : D) → (states : D) → BeginsOn triggers states run
        → result.status ≡ Status.DiskFault → Rose (D.faults triggers) (D.faults result.triggers) ⊎ Rose (D.faults states) (D.faults result.states) }
    ensures read { result.status ≡ Status.ReadFault → Rose (S.faults input.old) (S.faults input.new) }
    ensures write { result.status ≡ Status.WriteFault → Rose (K.faults out.old) (K.faults out.new) }
    ensures handed { HandsOnWritten K.Sink out.old out.new }
{
    let status = load(input, out, &mut run, clock);
    run.end(status)
}

// The same, on the stores where they are.
fn load<S: Source, K: Sink, D: Disk, C: Clock>(
    input: &mut S,
    out: &mut K,
    run: &mut Run<D>,
    clock: &mut C,
) -> Status
    ensures loads { Loads (told_of run.old) result (view run.old) (view run.new) (outside S.Source K.Sink C.Clock input.old out.old clock.old) (outside S.Source K.Sink C.Clock input.new out.new clock.new) }
    ensures few { result ≡ Status.Ok → run.old.is_own ≡ false → IsRestedWell (triggers_of run.new.cluster) }
    ensures shows { Shows ⊥ run.old run.new }
    ensures read { result ≡ Status.ReadFault → Rose (S.faults input.old) (S.faults input.new) }
    ensures write { result ≡ Status.WriteFault → Rose (K.faults out.old) (K.faults out.new) }
    ensures handed { HandsOnWritten K.Sink out.old out.new }
{
    match document_of(run.alloc, input) {
        Ok(document) => do_document(document, out, run, clock),
        Err(status) => status,
    }
}

// Does the commands of a document, makes a checkpoint where one is due, and hands on what the output holds.
fn do_document<K: Sink, D: Disk, C: Clock>(
    document: Document,
    out: &mut K,
    run: &mut Run<D>,
    clock: &mut C,
) -> Status
    requires { are_valid document.commands ≡ true }
    ensures did { DidDocument (told_of run.old) result document (view run.old) (view run.new) (without_input K.Sink C.Clock out.old clock.old) (without_input K.Sink C.Clock out.new clock.new) }
    ensures few { result ≡ Status.Ok → run.old.is_own ≡ false → IsRestedWell (triggers_of run.new.cluster) }
    ensures shows { Shows ⊥ run.old run.new }
    ensures other { result ≢ Status.ReadFault }
    ensures write { result ≡ Status.WriteFault → Rose (K.faults out.old) (K.faults out.new) }
    ensures handed { HandsOnAll K.Sink out.old out.new }
{
    let Document { at, commands } = document;
    match do_commands(run.alloc, at, commands, run, out, clock) {
        Ok(()) => end_lines(out, run),
        Err(end) => {
            hand_on(out);
            status_at(0, end)
        }
    }
}
