//! The checkpoint at the end of a call, from which the next opening begins.
ghost use Rattle.std.specs.Prelude.{◌≡◌, ◌<◌, true, false, OnOk};
ghost use Rattle.qz_io.specs.Around.{output_alone};
ghost use Rattle.qz_cluster.specs.Steps.{is_closed};
ghost use Rattle.qz_cluster.specs.View.{view as cluster_view, triggers_of};
ghost use Rattle.qz_trigger_store.specs.View.{view as store_view, added_of, behind_of, keeps_of, IsOpenedAsBefore, LeavesEither};
ghost use Rattle.qz_top.specs.HandingOn.{HandsOnAll};
ghost use Rattle.qz_top.specs.Moments.{Shows};
ghost use Rattle.qz_top.specs.Resting.{Rests, RestsAs, RestsRun, RestsNodes, HasFewBehind, IsRestedWell};
ghost use Rattle.qz_top.specs.Seen.{view};
ghost use Rattle.qz_top.specs.Statuses.{Finishes};

use crate::Status;
use crate::runs::Run;
use crate::scripts::finish;
use crate::writing::hand_on;
use qz_cluster::Checked;
use qz_disk::Disk;
use qz_io::Sink;
use qz_trigger_store::TriggerStore;
use qz_types::SubmitError;

/// A checkpoint is made where at least so many entries came after the last snapshot, or in all where there is none.
pub(crate) const CHECKPOINT_AFTER: u64 = 4096;

/// Why there is no snapshot at the end of a call.
#[derive(Clone, Copy)]
pub(crate) enum Unchecked {
    /// The disk failed, and the store is closed.
    Fault,
    NoMemory,
}

/// Makes a checkpoint where one is due and the store is open.
pub(crate) fn rest<D: Disk>(triggers: &mut TriggerStore<D>) -> Result<(), Unchecked>
    ensures rests { Rests result (store_view triggers.old) (store_view triggers.new) }
    ensures few { OnOk result ((store_view triggers.new).is_open ≡ true → HasFewBehind triggers.new) }
    ensures not_due { behind_of triggers.old < 4096 → triggers.new ≡ triggers.old }
    ensures kept { IsOpenedAsBefore triggers.old triggers.new × (added_of triggers.new ≡ added_of triggers.old) × (keeps_of triggers.new ≡ keeps_of triggers.old) }
    ensures any_moment { D.honest → LeavesEither triggers.old triggers.new }
{
    if triggers.closed() {
        return Ok(());
    }
    if triggers.behind() < CHECKPOINT_AFTER {
        return Ok(());
    }
    match triggers.checkpoint() {
        Ok(_) => Ok(()),
        Err(SubmitError::Fault) => Err(Unchecked::Fault),
        Err(SubmitError::NoMemory) => Err(Unchecked::NoMemory),
        Err(SubmitError::Closed { at: _ }) => unreachable!(),
        Err(SubmitError::Refused(_)) => unreachable!(),
        Err(SubmitError::JournalFull { need: _, room: _ }) => unreachable!(),
    }
}

/// Makes one of the trigger store of a script. On disks of the call's own there is none, since they end with the call.
pub(crate) fn rest_run<D: Disk>(run: &mut Run<D>) -> Result<(), Unchecked>
    ensures rests { RestsAs result (view run.old) (view run.new) }
    ensures few { OnOk result (run.old.is_own ≡ false → (cluster_view run.new.cluster).triggers.is_open ≡ true → HasFewBehind (triggers_of run.new.cluster)) }
    ensures not_due { behind_of (triggers_of run.old.cluster) < 4096 → run.new ≡ run.old }
    ensures shows { Shows ⊥ run.old run.new }
{
    if run.is_own {
        return Ok(());
    }
    if run.cluster.behind() < CHECKPOINT_AFTER {
        return Ok(());
    }
    match run.cluster.checkpoint() {
        Ok(Checked::Done) => Ok(()),
        Ok(Checked::NoRoom) => Ok(()),
        Ok(Checked::Closed) => Ok(()),
        Ok(Checked::Fault) => Err(Unchecked::Fault),
        Err(_) => Err(Unchecked::NoMemory),
    }
}

/// Ends a script whose lines were all done: where no store is closed it makes a checkpoint if one is due; then it hands on what
/// the output holds, and answers whether a store is closed.
pub(crate) fn end_lines<K: Sink, D: Disk>(out: &mut K, run: &mut Run<D>) -> Status
    ensures rests { RestsRun result (view run.old) (view run.new) }
    ensures finishes { Finishes result (is_closed (cluster_view run.new.cluster)) (output_alone K.Sink out.old) (output_alone K.Sink out.new) (K.faults out.old) (K.faults out.new) }
    ensures few { result ≡ Status.Ok → run.old.is_own ≡ false → IsRestedWell (triggers_of run.new.cluster) }
    ensures shows { Shows ⊥ run.old run.new }
    ensures handed { HandsOnAll K.Sink out.old out.new }
{
    if run.cluster.closed() {
        return finish(out, true);
    }
    match rest_run(run) {
        Ok(()) => finish(out, false),
        Err(Unchecked::Fault) => finish(out, true),
        Err(Unchecked::NoMemory) => {
            hand_on(out);
            Status::NoMemory
        }
    }
}

/// Makes a checkpoint after the work of nodes, where that came to its end or spent its budget, and answers the status of the
/// call: only one that would be `Ok` tells that the checkpoint failed.
pub fn rest_nodes<D: Disk>(triggers: &mut TriggerStore<D>, status: Status) -> Status
    ensures rests { RestsNodes status result (store_view triggers.old) (store_view triggers.new) }
    ensures few { (result ≡ Status.Ok → (store_view triggers.new).is_open ≡ true → HasFewBehind triggers.new) }
    ensures kept { IsOpenedAsBefore triggers.old triggers.new × (added_of triggers.new ≡ added_of triggers.old) × (keeps_of triggers.new ≡ keeps_of triggers.old) }
    ensures any_moment { D.honest → LeavesEither triggers.old triggers.new }
{
    match status {
        Status::Ok => match rest(triggers) {
            Ok(()) => Status::Ok,
            Err(Unchecked::Fault) => Status::DiskFault,
            Err(Unchecked::NoMemory) => Status::NoMemory,
        },
        Status::Budget { firings } => {
            let _ = rest(triggers);
            Status::Budget { firings }
        }
        other => other,
    }
}
