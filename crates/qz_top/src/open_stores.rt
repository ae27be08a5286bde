//! Opening both stores for the work of nodes.
ghost use Rattle.std.specs.Prelude.{◌≡◌, ◌≢◌, ◌⊎◌, true, IfOk, IfErr};
ghost use Rattle.qz_civil.specs.Causes.{Rose};
ghost use Rattle.qz_cluster.specs.View.{triggers_of};
ghost use Rattle.qz_io.specs.Outside.{Outside};
ghost use Rattle.qz_trigger_store.specs.View.{keeps_of};
ghost use Rattle.qz_top.specs.Calls.{FoundOld};
ghost use Rattle.qz_top.specs.Moments.{BeginsOn};
ghost use Rattle.qz_top.specs.OpenStores.{HasNoStores, JustOpened};

use crate::Status;
use crate::ended::{Ended, ran_no_script};
use crate::opening::open_run;
use crate::runs::Run;
use qz_checkin::StateStore;
use qz_disk::Disk;
use qz_trigger_store::{Keep, TriggerStore};
use std::alloc::Global;

/// Opens both stores, the trigger store first, which keeps what it accepts from then on. Where one isn't opened, or the trigger
/// store is one of version 1 that wasn't upgraded, or there is no memory, the call has ended.
pub fn open_node_stores<D: Disk>(
    alloc: Global,
    triggers: D,
    states: D,
) -> Result<(TriggerStore<D>, StateStore<D>), Ended<D>>
    ensures ok { IfOk result (λ stores. JustOpened triggers states stores.0 stores.1) }
    ensures err { IfErr result (λ ended. (o : Outside) → HasNoStores triggers states ended o o) }
    ensures other { IfErr result (λ ended. (ended.status ≢ Status.ReadFault) × (ended.status ≢ Status.WriteFault)) }
    ensures disk { IfErr result (λ ended. ended.status ≡ Status.DiskFault → Rose (D.faults triggers) (D.faults ended.triggers) ⊎ Rose (D.faults states) (D.faults ended.states)) }
{
    match open_run(alloc, triggers, states, Keep::Entries) {
        Ok(run) => stores_of(run),
        Err(ended) => Err(ended),
    }
}

// The stores of a run that begins, unless the trigger store is old.
fn stores_of<D: Disk>(run: Run<D>) -> Result<(TriggerStore<D>, StateStore<D>), Ended<D>>
    requires { keeps_of (triggers_of run.cluster) ≡ true }
    ensures ok { (triggers : D) → (states : D) → BeginsOn triggers states run → IfOk result (λ stores. JustOpened triggers states stores.0 stores.1) }
    ensures err { (triggers : D) → (states : D) → BeginsOn triggers states run → IfErr result (λ ended. (o : Outside) → FoundOld triggers states ended o o) }
    ensures old { IfErr result (λ ended. ended.status ≡ Status.OldStore) }
{
    let Run {
        alloc,
        cluster,
        trail,
        begun: _,
        is_own: _,
    } = run;
    drop(trail);
    let (triggers, states) = cluster.into_stores();
    if triggers.is_old() {
        return Err(ran_no_script(
            alloc,
            Status::OldStore,
            triggers.into_disk(),
            states.into_disk(),
        ));
    }
    Ok((triggers, states))
}
