//! What a call gives back.
ghost use Rattle.std.specs.Prelude.{◌≡◌, [], true};
ghost use Rattle.qz_trigger_store.specs.Bytes.{Whole};
ghost use Rattle.qz_trigger_store.specs.View.{view, disk_of, disk_state, GoesOnFrom};
ghost use Rattle.qz_top.specs.Calls.{trail_of};
ghost use Rattle.qz_top.specs.Resting.{HasFewBehind, OpensShortIfRoom};

use crate::Status;
use qz_cluster::Cluster;
use qz_disk::{Disk, MemDisk};
use qz_trigger_store::TriggerStore;
use std::alloc::Global;
use std::snapshot::Snapshot;

/// The states of a script, for contracts alone: they take no bytes. One list is of a script on the handed-in disks,
/// the other of one on the call's own; the one that isn't meant is empty. The first state is the one in which both
/// stores were opened, and then comes one after each step that was answered. Both are empty where a store wasn't opened,
/// and for a call that runs no script.
#[derive(Drop)]
pub struct Trail<D: Disk> {
    pub on_disk: Snapshot<Vec<Snapshot<Cluster<D>>>>,
    pub in_memory: Snapshot<Vec<Snapshot<Cluster<MemDisk>>>>,
}

/// How a call ended, with the disks that it was handed.
#[derive(Drop)]
pub struct Ended<D: Disk> {
    pub status: Status,
    pub triggers: D,
    pub states: D,
    pub trail: Trail<D>,
}

/// A call that ran no script.
pub(crate) fn ran_no_script<D: Disk>(
    alloc: Global,
    status: Status,
    triggers: D,
    states: D,
) -> Ended<D>
    ensures status { result.status ≡ status }
    ensures disks { (result.triggers ≡ triggers) × (result.states ≡ states) }
    ensures trail { trail_of result.trail ≡ [] }
{
    Ended {
        status,
        triggers,
        states,
        trail: Trail {
            on_disk: Snapshot::of(&Vec::new(alloc)),
            in_memory: Snapshot::of(&Vec::new(alloc)),
        },
    }
}

/// The disk of a trigger store whose call has ended. How many entries the next opening lists is asked for contracts alone.
pub fn give_back<D: Disk>(triggers: TriggerStore<D>) -> D
    ensures disk { result ≡ disk_of triggers }
    ensures short { D.honest → (view triggers).is_open ≡ true → (w : Whole) → GoesOnFrom triggers w → HasFewBehind triggers → OpensShortIfRoom (view triggers) (disk_state triggers).content }
{
    let _ = triggers.behind();
    triggers.into_disk()
}
