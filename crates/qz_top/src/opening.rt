//! Opening both stores, and giving their disks back.
ghost use Rattle.std.specs.Prelude.{◌≡◌, ◌≢◌, ◌⊎◌, IfOk, IfErr};
ghost use Rattle.qz_civil.specs.Causes.{Rose};
ghost use Rattle.qz_io.specs.Outside.{Outside};
ghost use Rattle.qz_cluster.specs.View.{view as cluster_view, triggers_of, disk_of_triggers, disk_of_states, triggers_disk};
ghost use Rattle.qz_trigger_store.specs.Bytes.{Whole};
ghost use Rattle.qz_trigger_store.specs.View.{keeps_of, keeps_entries, GoesOnFrom};
ghost use Rattle.qz_top.specs.Calls.{NotOpened, refusal_of, trail_of};
ghost use Rattle.qz_top.specs.Moments.{BeginsOn};
ghost use Rattle.qz_top.specs.Resting.{IsRestedWell, OpensShortIfRoom};
ghost use Rattle.qz_top.specs.Seen.{states_in};

use crate::Status;
use crate::ended::{Ended, Trail, give_back, ran_no_script};
use crate::runs::Run;
use qz_cluster::{Cluster, MountError, MountFault};
use qz_disk::Disk;
use qz_trigger_store::Keep;
use std::alloc::Global;
use std::snapshot::Snapshot;

/// Opens both stores, the trigger store first; what that one keeps in memory is said by `keep`. Where one isn't opened, or
/// there is no memory, the call has ended.
pub(crate) fn open_run<D: Disk>(
    alloc: Global,
    triggers: D,
    states: D,
    keep: Keep,
) -> Result<Run<D>, Ended<D>>
    ensures ok { IfOk result (λ run. BeginsOn triggers states run) }
    ensures keeps { IfOk result (λ run. keeps_of (triggers_of run.cluster) ≡ keeps_entries keep) }
    ensures err { IfErr result (λ ended. (o : Outside) → NotOpened triggers states ended o o) }
    ensures other { IfErr result (λ ended. (ended.status ≢ Status.ReadFault) × (ended.status ≢ Status.WriteFault)) }
    ensures disk { IfErr result (λ ended. ended.status ≡ Status.DiskFault → Rose (D.faults triggers) (D.faults ended.triggers) ⊎ Rose (D.faults states) (D.faults ended.states)) }
{
    match Cluster::mount(alloc, triggers, states, keep) {
        Ok(cluster) => match Run::begin(alloc, cluster, false) {
            Ok(run) => Ok(run),
            Err(cluster) => {
                let (triggers, states) = cluster.into_disks();
                Err(ran_no_script(alloc, Status::NoMemory, triggers, states))
            }
        },
        Err((fault, triggers, states)) => Err(ran_no_script(
            alloc,
            refusal_of(fault),
            triggers,
            states,
        )),
    }
}

impl<D: Disk> Run<D> {
    /// The end of a call that worked on both stores: their disks and what was shown of them.
    pub(crate) fn end(self, status: Status) -> Ended<D>
        ensures status { result.status ≡ status }
        ensures shown { result.trail.on_disk.value ≡ self.trail }
        ensures trail { trail_of result.trail ≡ states_in self.trail }
        ensures disks { (result.triggers ≡ disk_of_triggers self.cluster) × (result.states ≡ disk_of_states self.cluster) }
        ensures short { D.honest → (w : Whole) → GoesOnFrom (triggers_of self.cluster) w → IsRestedWell (triggers_of self.cluster)
            → OpensShortIfRoom (cluster_view self.cluster).triggers (triggers_disk self.cluster).content }
    {
        let Run {
            cluster,
            trail,
            alloc,
            begun: _,
            is_own: _,
        } = self;
        let (triggers, states) = cluster.into_stores();
        Ended {
            status,
            triggers: give_back(triggers),
            states: states.into_disk(),
            trail: Trail {
                on_disk: Snapshot::of(&trail),
                in_memory: Snapshot::of(&Vec::new(alloc)),
            },
        }
    }
}

/// The status of a call whose store wasn't opened.
pub(crate) fn refusal_of(fault: MountFault) -> Status
    ensures { result ≡ refusal_of fault.store fault.error }
{
    let MountFault { store, error } = fault;
    match error {
        MountError::Fault => Status::DiskFault,
        MountError::NotAStore => Status::NotAStore { store },
        MountError::Damaged { at } => Status::Damaged { store, at },
        MountError::NoMemory => Status::NoMemory,
    }
}
