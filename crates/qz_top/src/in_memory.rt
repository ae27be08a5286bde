//! A script on stores in memory.
ghost use Rattle.std.specs.Prelude.{◌≡◌, IfSome, take, true, []};
ghost use Rattle.qz_civil.specs.Causes.{Rose};
ghost use Rattle.qz_io.specs.Around.{outside};
ghost use Rattle.qz_journal.specs.Layout.{new_header, Holds};
ghost use Rattle.qz_cluster.specs.View.{view as cluster_view, IsTold};
ghost use Rattle.qz_top.specs.Calls.{begun, trail_of, OwnDone};
ghost use Rattle.qz_top.specs.HandingOn.{HandsOnWritten};
ghost use Rattle.qz_top.specs.Seen.{view, told_of, states_in};
ghost use Rattle.qz_top.specs.Trails.{new_cluster};

use crate::Status;
use crate::ended::{Ended, Trail};
use crate::runs::Run;
use crate::scripts::run_lines;
use qz_cluster::Cluster;
use qz_disk::{Disk, MemDisk};
use qz_io::{Clock, Sink, Source};
use qz_journal::{STATES, TRIGGERS, create};
use qz_trigger_store::Keep;
use std::alloc::Global;
use std::snapshot::Snapshot;

/// How a script in memory ended, and the states that it went through.
#[derive(Drop)]
struct OwnEnded {
    status: Status,
    trail: Snapshot<Vec<Snapshot<Cluster<MemDisk>>>>,
}

/// Runs the lines of the input on new stores in memory. The disks aren't touched.
pub(crate) fn own_script<S: Source, K: Sink, D: Disk, C: Clock>(
    alloc: Global,
    input: &mut S,
    out: &mut K,
    triggers: D,
    states: D,
    clock: &mut C,
) -> Ended<D>
    ensures done { OwnDone result.status (trail_of result.trail) (outside S.Source K.Sink C.Clock input.old out.old clock.old) (outside S.Source K.Sink C.Clock input.new out.new clock.new) }
    ensures disks { (result.triggers ≡ triggers) × (result.states ≡ states) }
    ensures read { result.status ≡ Status.ReadFault → Rose (S.faults input.old) (S.faults input.new) }
    ensures write { result.status ≡ Status.WriteFault → Rose (K.faults out.old) (K.faults out.new) }
    ensures handed { HandsOnWritten K.Sink out.old out.new }
{
    let own = script_in_memory(alloc, input, out, clock);
    Ended {
        status: own.status,
        triggers,
        states,
        trail: Trail {
            on_disk: Snapshot::of(&Vec::new(alloc)),
            in_memory: own.trail,
        },
    }
}

// The same, without the disks.
fn script_in_memory<S: Source, K: Sink, C: Clock>(
    alloc: Global,
    input: &mut S,
    out: &mut K,
    clock: &mut C,
) -> OwnEnded
    ensures done { OwnDone result.status (states_in result.trail.value) (outside S.Source K.Sink C.Clock input.old out.old clock.old) (outside S.Source K.Sink C.Clock input.new out.new clock.new) }
    ensures read { result.status ≡ Status.ReadFault → Rose (S.faults input.old) (S.faults input.new) }
    ensures write { result.status ≡ Status.WriteFault → Rose (K.faults out.old) (K.faults out.new) }
    ensures handed { HandsOnWritten K.Sink out.old out.new }
{
    let Some(mut run) = new_run(alloc) else {
        return OwnEnded {
            status: Status::NoMemory,
            trail: Snapshot::of(&Vec::new(alloc)),
        };
    };
    let status = run_lines(input, out, &mut run, clock);
    let trail = Snapshot::of(&run.trail);
    drop(run);
    OwnEnded { status, trail }
}

// A script that begins on new stores. None, where there is no memory for them.
fn new_run(alloc: Global) -> Option<Run<MemDisk>>
    ensures told { IfSome result (λ run. told_of run) }
    ensures begun { IfSome result (λ run. view run ≡ begun true (new_cluster (cluster_view run.cluster).triggers.faults (cluster_view run.cluster).states.faults)) }
{
    let cluster = new_stores(alloc)?;
    match Run::begin(alloc, cluster, true) {
        Ok(run) => Some(run),
        Err(cluster) => {
            drop(cluster);
            None
        }
    }
}

// An open cluster on new stores.
fn new_stores(alloc: Global) -> Option<Cluster<MemDisk>>
    ensures told { IfSome result IsTold }
    ensures new { IfSome result (λ c. cluster_view c ≡ new_cluster (cluster_view c).triggers.faults (cluster_view c).states.faults) }
{
    let triggers = new_store(alloc, TRIGGERS)?;
    let states = new_store(alloc, STATES)?;
    match Cluster::mount(alloc, triggers, states, Keep::Tables) {
        Ok(cluster) => Some(cluster),
        Err(refused) => {
            drop(refused);
            None
        }
    }
}

// A disk in memory that has an empty store of this kind.
fn new_store(alloc: Global, kind: u8) -> Option<MemDisk>
    ensures empty { IfSome result (λ disk. Holds (⟦<MemDisk as Disk>⟧.state disk).content 2 kind []) }
    ensures header { IfSome result (λ disk. take 16 (⟦<MemDisk as Disk>⟧.state disk).content ≡ new_header 2 kind) }
{
    let mut disk = MemDisk::new(alloc);
    match create(&mut disk, kind) {
        Ok(()) => Some(disk),
        Err(_) => {
            drop(disk);
            None
        }
    }
}
