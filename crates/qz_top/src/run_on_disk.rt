//! `run`: nodes work on the stores of two disks, on a virtual clock.
ghost use Rattle.std.specs.Prelude.{◌≡◌, ◌≢◌, ◌⊎◌, map, true, false};
ghost use Rattle.qz_civil.specs.Causes.{Rose};
ghost use Rattle.qz_io.specs.Around.{output_alone};
ghost use Rattle.qz_model.specs.History.{replay};
ghost use Rattle.qz_run.specs.Working.{IsPlan};
ghost use Rattle.qz_run_stores.specs.Going.{TriggersWent, StatesWent};
ghost use Rattle.qz_trigger_store.specs.Entries.{is_old};
ghost use Rattle.qz_trigger_store.specs.View.{view, keeps_of};
ghost use Rattle.qz_top.specs.HandingOn.{HandsOnWritten};
ghost use Rattle.qz_top.specs.NodeRuns.{both, status_of, IsOfNodes, Worked, RanNodesOnDisk, RanNodes};
ghost use Rattle.qz_top.specs.OpenStores.{JustOpened};

use crate::Status;
use crate::checkpoints::rest_nodes;
use crate::ended::{Ended, give_back, ran_no_script};
use crate::nodes::run_nodes;
use crate::open_stores::open_node_stores;
use crate::telling::tell_run;
use qz_checkin::StateStore;
use qz_disk::Disk;
use qz_io::Sink;
use qz_node::{Job, Jobs};
use qz_run::{Declined, Plan};
use qz_run_stores::RunStores;
use qz_trigger_store::TriggerStore;
use std::alloc::Global;

/// How the nodes' work ended, and the stores as it left them.
#[derive(Drop)]
pub(crate) struct Left<D: Disk> {
    pub(crate) status: Status,
    pub(crate) triggers: TriggerStore<D>,
    pub(crate) states: StateStore<D>,
}

/// Opens both stores, lets the nodes of the plan work on them with these jobs, writes what they added, and makes a checkpoint
/// where one is due.
pub(crate) fn run_on_disk<K: Sink, D: Disk>(
    alloc: Global,
    plan: Plan,
    out: &mut K,
    triggers: D,
    states: D,
    jobs: &mut Jobs,
) -> Ended<D>
    requires { IsPlan plan }
    ensures done { RanNodes plan (map means jobs.old.items) (map means jobs.new.items) triggers states result (output_alone K.Sink out.old) (output_alone K.Sink out.new) }
    ensures disk { result.status ≡ Status.DiskFault → Rose (D.faults triggers) (D.faults result.triggers) ⊎ Rose (D.faults states) (D.faults result.states) }
    ensures read { result.status ≢ Status.ReadFault }
    ensures write { result.status ≡ Status.WriteFault → Rose (K.faults out.old) (K.faults out.new) }
    ensures handed { HandsOnWritten K.Sink out.old out.new }
{
    match open_node_stores(alloc, triggers, states) {
        Ok((triggers, states)) => run_opened(alloc, plan, out, triggers, states, jobs),
        Err(ended) => ended,
    }
}

// The work on the stores that were opened.
fn run_opened<K: Sink, D: Disk>(
    alloc: Global,
    plan: Plan,
    out: &mut K,
    triggers: TriggerStore<D>,
    states: StateStore<D>,
    jobs: &mut Jobs,
) -> Ended<D>
    requires plan { IsPlan plan }
    requires keeps { keeps_of triggers ≡ true }
    requires current { is_old (replay (view triggers).history) ≡ false }
    ensures done { (first : D) → (second : D) → JustOpened first second triggers states
        → RanNodesOnDisk plan (map means jobs.old.items) (map means jobs.new.items) first second result (output_alone K.Sink out.old) (output_alone K.Sink out.new) }
    ensures disk { (first : D) → (second : D) → JustOpened first second triggers states
        → result.status ≡ Status.DiskFault → Rose (D.faults first) (D.faults result.triggers) ⊎ Rose (D.faults second) (D.faults result.states) }
    ensures read { result.status ≢ Status.ReadFault }
    ensures write { result.status ≡ Status.WriteFault → Rose (K.faults out.old) (K.faults out.new) }
    ensures handed { HandsOnWritten K.Sink out.old out.new }
{
    let Left {
        status,
        mut triggers,
        states,
    } = work_on(alloc, &plan, triggers, states, jobs);
    let told = tell_run(alloc, &triggers, status, out);
    let status = rest_nodes(&mut triggers, told);
    ran_no_script(alloc, status, give_back(triggers), states.into_disk())
}

/// The nodes' work on both stores.
pub(crate) fn work_on<D: Disk>(
    alloc: Global,
    plan: &Plan,
    triggers: TriggerStore<D>,
    states: StateStore<D>,
    jobs: &mut Jobs,
) -> Left<D>
    requires plan { IsPlan plan.now }
    requires current { is_old (replay (view triggers).history) ≡ false }
    ensures worked { Worked plan.now result.status (map means jobs.old.items) (map means jobs.new.items) (both triggers states) (both result.triggers result.states) }
    ensures triggers { TriggersWent triggers result.triggers }
    ensures states { StatesWent states result.states }
    ensures called { IsOfNodes result.status }
{
    let mut stores = RunStores::new(alloc, triggers, states);
    let end = run_nodes(&mut stores, jobs, plan);
    let (triggers, states) = stores.into_stores();
    Left {
        status: status_of(end, plan),
        triggers,
        states,
    }
}

// The status of a run whose nodes' work ended so.
fn status_of(end: Result<bool, Declined>, plan: &Plan) -> Status
    ensures value { result ≡ status_of plan.now end }
    ensures called { IsOfNodes result }
{
    match end {
        Ok(false) => Status::Ok,
        Ok(true) => Status::Budget {
            firings: plan.budget,
        },
        Err(Declined::TooMany { count }) => Status::TooMany { count },
        Err(Declined::JournalFull { need, room }) => Status::JournalFull { need, room },
        Err(Declined::Fault) => Status::DiskFault,
        Err(Declined::NoMemory) => Status::NoMemory,
        Err(Declined::Fenced) => Status::Fenced,
    }
}
