//! `gen`: jobs and triggers that a number gives, on the empty stores of two disks, and nodes that work on them.
ghost use Rattle.std.specs.Prelude.{◌≡◌, ◌≢◌, ◌⊎◌, ◌≤◌, [], map, true, false};
ghost use Rattle.qz_civil.specs.Causes.{Rose};
ghost use Rattle.qz_io.specs.Around.{output_alone};
ghost use Rattle.qz_model.specs.History.{replay};
ghost use Rattle.qz_cluster.specs.Steps.{is_closed};
ghost use Rattle.qz_cluster.specs.View.{view as cluster_view, triggers_of};
ghost use Rattle.qz_run.specs.Working.{IsPlan};
ghost use Rattle.qz_run_stores.specs.Ways.{KeepsTriggers, KeepsStates};
ghost use Rattle.qz_trigger_store.specs.Entries.{is_old};
ghost use Rattle.qz_trigger_store.specs.View.{view, found_of, keeps_of};
ghost use Rattle.qz_checkin.specs.View.{view as states_view};
ghost use Rattle.qz_top.specs.Generating.{GeneratedOnDisk, Generates, Generated, WorkedAndSummed, plan_of};
ghost use Rattle.qz_top.specs.HandingOn.{HandsOnWritten};
ghost use Rattle.qz_top.specs.Moments.{BeginsOn};
ghost use Rattle.qz_top.specs.NodeRuns.{both};
ghost use Rattle.qz_top.specs.Resting.{HasFewBehind};

use crate::Status;
use crate::checkpoints::rest_nodes;
use crate::ended::{Ended, give_back, ran_no_script};
use crate::filling::fill;
use crate::opening::open_run;
use crate::run_on_disk::{Left, work_on};
use crate::runs::Run;
use crate::telling::tell_summary;
use qz_checkin::StateStore;
use qz_disk::Disk;
use qz_generator::FIRST_MOMENT;
use qz_io::Sink;
use qz_node::{Job, Jobs};
use qz_run::Plan;
use qz_trigger_store::{Keep, TriggerStore};
use std::alloc::Global;

/// What `gen` makes: so many jobs with a trigger each, by this seed. The nodes work on them for so many days.
#[derive(Clone, Copy)]
pub(crate) struct Workload {
    pub(crate) seed: u64,
    pub(crate) jobs: u32,
    /// 1 to 28.
    pub(crate) days: u32,
}

/// Opens both stores. Where the history of the trigger store is empty and the store isn't old, it adds the jobs and the triggers,
/// lets nodes work on them, and writes the summary line.
pub(crate) fn gen_on_disk<K: Sink, D: Disk>(
    alloc: Global,
    workload: Workload,
    out: &mut K,
    triggers: D,
    states: D,
    jobs: &mut Jobs,
) -> Ended<D>
    requires some { 1 ≤ workload.days }
    requires few { workload.days ≤ 28 }
    ensures done { Generates workload (map means jobs.old.items) (map means jobs.new.items) triggers states result (output_alone K.Sink out.old) (output_alone K.Sink out.new) }
    ensures disk { result.status ≡ Status.DiskFault → Rose (D.faults triggers) (D.faults result.triggers) ⊎ Rose (D.faults states) (D.faults result.states) }
    ensures read { result.status ≢ Status.ReadFault }
    ensures write { result.status ≡ Status.WriteFault → Rose (K.faults out.old) (K.faults out.new) }
    ensures handed { HandsOnWritten K.Sink out.old out.new }
{
    match open_run(alloc, triggers, states, Keep::Entries) {
        Ok(run) => gen_opened(workload, out, run, jobs),
        Err(ended) => ended,
    }
}

// The same, on the stores that were opened.
fn gen_opened<K: Sink, D: Disk>(
    workload: Workload,
    out: &mut K,
    run: Run<D>,
    jobs: &mut Jobs,
) -> Ended<D>
    requires some { 1 ≤ workload.days }
    requires few { workload.days ≤ 28 }
    requires open { is_closed (cluster_view run.cluster) ≡ false }
    requires keeps { keeps_of (triggers_of run.cluster) ≡ true }
    ensures done { (triggers : D) → (states : D) → BeginsOn triggers states run
        → GeneratedOnDisk workload (map means jobs.old.items) (map means jobs.new.items) triggers states result (output_alone K.Sink out.old) (output_alone K.Sink out.new) }
    ensures disk { (triggers : D) → (states : D) → BeginsOn triggers states run
        → result.status ≡ Status.DiskFault → Rose (D.faults triggers) (D.faults result.triggers) ⊎ Rose (D.faults states) (D.faults result.states) }
    ensures read { result.status ≢ Status.ReadFault }
    ensures write { result.status ≡ Status.WriteFault → Rose (K.faults out.old) (K.faults out.new) }
    ensures handed { HandsOnWritten K.Sink out.old out.new }
{
    let Run {
        alloc,
        cluster,
        trail,
        begun: _,
        is_own: _,
    } = run;
    drop(trail);
    let (triggers, states) = cluster.into_stores();
    let Left {
        status,
        triggers,
        states,
    } = generate(alloc, &workload, triggers, states, out, jobs);
    ran_no_script(alloc, status, give_back(triggers), states.into_disk())
}

// The same, on the stores alone.
fn generate<K: Sink, D: Disk>(
    alloc: Global,
    workload: &Workload,
    triggers: TriggerStore<D>,
    states: StateStore<D>,
    out: &mut K,
    jobs: &mut Jobs,
) -> Left<D>
    requires some { 1 ≤ workload.now.days }
    requires few { workload.now.days ≤ 28 }
    requires open { is_closed (both triggers states) ≡ false }
    requires keeps { keeps_of triggers ≡ true }
    ensures did { Generated D.honest workload.now result.status (map means jobs.old.items) (map means jobs.new.items) (both triggers states) (both result.triggers result.states) (output_alone K.Sink out.old) (output_alone K.Sink out.new) }
    ensures disk { result.status ≡ Status.DiskFault → Rose (view triggers).faults (view result.triggers).faults ⊎ Rose (states_view states).faults (states_view result.states).faults }
    ensures any_moment { ∥ KeepsTriggers triggers result.triggers ∥₁ × ∥ KeepsStates states result.states ∥₁ }
    ensures behind { result.status ≡ Status.Ok → (view result.triggers).is_open ≡ true → HasFewBehind result.triggers }
    ensures read { result.status ≢ Status.ReadFault }
    ensures write { result.status ≡ Status.WriteFault → Rose (K.faults out.old) (K.faults out.new) }
    ensures handed { HandsOnWritten K.Sink out.old out.new }
{
    if triggers.history_len() > 0 {
        return Left {
            status: Status::Exists,
            triggers,
            states,
        };
    }
    if triggers.is_old() {
        return Left {
            status: Status::OldStore,
            triggers,
            states,
        };
    }
    let mut triggers = triggers;
    match fill(alloc, workload.seed, workload.jobs, &mut triggers) {
        Ok(()) => work_and_sum(alloc, workload.days, triggers, states, out, jobs),
        Err(status) => Left {
            status,
            triggers,
            states,
        },
    }
}

// The nodes' work on the stores that were filled, the summary line, and a checkpoint where one is due.
fn work_and_sum<K: Sink, D: Disk>(
    alloc: Global,
    days: u32,
    triggers: TriggerStore<D>,
    states: StateStore<D>,
    out: &mut K,
    jobs: &mut Jobs,
) -> Left<D>
    requires some { 1 ≤ days }
    requires few { days ≤ 28 }
    requires current { is_old (replay (view triggers).history) ≡ false }
    requires keeps { keeps_of triggers ≡ true }
    ensures worked { WorkedAndSummed (plan_of days) result.status (map means jobs.old.items) (map means jobs.new.items) (both triggers states) (both result.triggers result.states) (found_of triggers ≡ []) (output_alone K.Sink out.old) (output_alone K.Sink out.new) }
    ensures kept { ∥ KeepsTriggers triggers result.triggers ∥₁ × ∥ KeepsStates states result.states ∥₁ }
    ensures behind { result.status ≡ Status.Ok → (view result.triggers).is_open ≡ true → HasFewBehind result.triggers }
    ensures disk { is_closed (both triggers states) ≡ false → result.status ≡ Status.DiskFault → Rose (view triggers).faults (view result.triggers).faults ⊎ Rose (states_view states).faults (states_view result.states).faults }
    ensures read { result.status ≢ Status.ReadFault }
    ensures write { result.status ≡ Status.WriteFault → Rose (K.faults out.old) (K.faults out.new) }
    ensures handed { HandsOnWritten K.Sink out.old out.new }
{
    let plan = plan_of(days);
    let Left {
        status,
        mut triggers,
        states,
    } = work_on(alloc, &plan, triggers, states, jobs);
    let told = tell_summary(alloc, &triggers, status, out);
    let status = rest_nodes(&mut triggers, told);
    Left {
        status,
        triggers,
        states,
    }
}

// What the nodes are to do in so many days.
fn plan_of(days: u32) -> Plan
    requires some { 1 ≤ days }
    requires few { days ≤ 28 }
    ensures value { result ≡ plan_of days }
    ensures valid { IsPlan result }
{
    Plan {
        nodes: 4,
        from: FIRST_MOMENT,
        until: FIRST_MOMENT + i64::from(days) * 86400000 - 1,
        budget: 1000000,
    }
}
