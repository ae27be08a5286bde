//! The top call on the system's clock.
ghost use Rattle.std.specs.Prelude.{◌≡◌, ◌≢◌, ◌⊎◌, ◌≤◌, ℕ, List, Option, map, true, false, Some, None, IfOk};
ghost use mathlib.Core.List.{IsPrefix};
ghost use Rattle.qz_civil.specs.Causes.{Rose};
ghost use Rattle.qz_disk.specs.Disk.{IsLawful};
ghost use Rattle.qz_io.specs.Around.{output_alone};
ghost use Rattle.qz_trigger_store.specs.View.{view as triggers_view, keeps_of};
ghost use Rattle.qz_top.specs.HandingOn.{HandsOnWritten};
ghost use Rattle.qz_top.specs.NodeRuns.{both, IsOfNodes};
ghost use Rattle.qz_top.specs.OpenStores.{JustOpened};
ghost use Rattle.qz_top.specs.Statuses.{Reported};
ghost use Rattle.qz_types.specs.Entries.{EntryData};
ghost use Rattle.qz_words.specs.Serves.{serving_of, IsServing};
ghost use Rattle.qz_serve.specs.Boards.{ShowsSoFar, plan, plan_of};
ghost use Rattle.qz_serve.specs.Courses.{AreBothOpen};
ghost use Rattle.qz_serve.specs.Ending.{EndedCall};
ghost use Rattle.qz_serve.specs.Going.{triggers_of};
ghost use Rattle.qz_serve.specs.Headlines.{HeadlineOfServe};
ghost use Rattle.qz_serve.specs.Serves.{DidAsAsked, DidServe, DiskFailed, HasCause, ServedOnDisk, GaveUp, status_of};

use crate::boards::open_board;
use crate::both_stores::BothStores;
use crate::courses::take_course;
use crate::served::Served;
use crate::telling::tell;
use crate::threads::Gate;
use qz_board_stores::StatusBoard;
use qz_checkin::StateStore;
use qz_disk::Disk;
use qz_io::Sink;
use qz_node::{Job, Jobs};
use qz_rounds::SharedClock;
use qz_run::Declined;
use qz_shared_stores::{SharedStates, SharedTriggers};
use qz_top::{Ended, Status, give_back, open_node_stores, report, rest_nodes};
use qz_trigger_store::TriggerStore;
use qz_types::{NoMemory, Text};
use qz_words::{Serving, read_serve};
use std::alloc::Global;
use std::sync::Wait;
use std::thread::Threads;

/// Does what `serve NODES UNTIL [LOOKS]` asks for, and writes a line on `err` where that didn't end well.
///
/// It opens both stores, and lets the nodes n1, n2 and so on work on them up to UNTIL by this clock, each in two threads: one
/// fires, executes and completes what is due, with the node's own list of `jobs`, and one checks in every 7.5 seconds and
/// recovers what nodes had in their hands that failed. A node without a list has no jobs. Then the call itself works as the node
/// `main`, with the first list, until the clock reads UNTIL and nothing is due by then, and all of its nodes leave and are
/// forgotten. It writes the lines that `run` writes.
///
/// With LOOKS a status board shows the trigger store. It is looked at so many times, evenly until UNTIL while the nodes work, and
/// once more after the last transaction. A line for each look is written before the other lines.
///
/// At the first limit that is passed, full journal or fault of a disk no further transaction is made, and the lines of what was
/// done are written. Every other first word is unknown here. The disks come back, unless memory ran out where a lock row or a
/// board was to be made for their stores.
pub fn serve<
    R: Threads + Wait + Sync,
    K: Sink,
    E: Sink,
    D: Disk + Send,
    C: SharedClock + Sync,
    G: Gate + Sync,
>(
    rt: &R,
    alloc: Global,
    words: &[Text],
    out: &mut K,
    err: &mut E,
    triggers: D,
    states: D,
    clock: &C,
    jobs: &mut Vec<Jobs>,
    gate: &G,
) -> Served<D>
    // What was done is what the words ask for: each of the cases is a definition of its own.
    ensures done { DidAsAsked D.Disk (C.shows clock.now) (serving_of words.now) (map (λ list. map means list.items) jobs.old.items) (map (λ list. map means list.items) jobs.new.items) triggers states result (output_alone K.Sink out.old) (output_alone K.Sink out.new) }
    // The headline: one history of each store, which no crash breaks and in which no job runs twice at once.
    ensures headline { HeadlineOfServe D.Disk (serving_of words.now) triggers states result (output_alone K.Sink out.old) (output_alone K.Sink out.new) }
    // Bad words are answered only where the words are refused, and a fault only where the object's count of faults rose.
    ensures cause { HasCause result.status (serving_of words.now) (Rose (K.faults out.old) (K.faults out.new)) (DiskFailed D.Disk triggers states result.disks) }
    // However the call ended, all that it wrote on `out` was handed on, or `out` failed.
    ensures handed { HandsOnWritten K.Sink out.old out.new }
    // The line on `err` was written and handed on, or `err` failed.
    ensures reported { Reported E.Sink result.status err.old err.new }
{
    let served = work(rt, alloc, words, out, triggers, states, clock, jobs, gate);
    disks_are_lawful::<D>();
    report(served.status, err);
    served
}

// The law on disks, which isn't at hand by itself where threads may be begun. It does nothing: its contract says so.
fn disks_are_lawful<D: Disk>()
    ensures { D.honest → (disk : D) → IsLawful (D.state disk) }
{}

// The same, without the line on `err`.
fn work<R: Threads + Wait + Sync, K: Sink, D: Disk + Send, C: SharedClock + Sync, G: Gate + Sync>(
    rt: &R,
    alloc: Global,
    words: &[Text],
    out: &mut K,
    triggers: D,
    states: D,
    clock: &C,
    jobs: &mut Vec<Jobs>,
    gate: &G,
) -> Served<D>
    ensures done { DidAsAsked D.Disk (C.shows clock.now) (serving_of words.now) (map (λ list. map means list.items) jobs.old.items) (map (λ list. map means list.items) jobs.new.items) triggers states result (output_alone K.Sink out.old) (output_alone K.Sink out.new) }
    ensures cause { HasCause result.status (serving_of words.now) (Rose (K.faults out.old) (K.faults out.new)) (DiskFailed D.Disk triggers states result.disks) }
    ensures handed { HandsOnWritten K.Sink out.old out.new }
{
    match read_serve(words) {
        Ok(serving) => serve_on_disk(rt, alloc, serving, out, triggers, states, clock, jobs, gate),
        Err(fault) => Served {
            status: Status::BadWords { fault },
            disks: Some((triggers, states)),
        },
    }
}

// Opens both stores, and lets the nodes work on them.
fn serve_on_disk<
    R: Threads + Wait + Sync,
    K: Sink,
    D: Disk + Send,
    C: SharedClock + Sync,
    G: Gate + Sync,
>(
    rt: &R,
    alloc: Global,
    serving: Serving,
    out: &mut K,
    triggers: D,
    states: D,
    clock: &C,
    jobs: &mut Vec<Jobs>,
    gate: &G,
) -> Served<D>
    requires { IsServing serving }
    ensures done { DidServe D.Disk (C.shows clock.now) serving (map (λ list. map means list.items) jobs.old.items) (map (λ list. map means list.items) jobs.new.items) triggers states result (output_alone K.Sink out.old) (output_alone K.Sink out.new) }
    ensures disk { result.status ≡ Status.DiskFault → DiskFailed D.Disk triggers states result.disks }
    ensures read { result.status ≢ Status.ReadFault }
    ensures write { result.status ≡ Status.WriteFault → Rose (K.faults out.old) (K.faults out.new) }
    ensures handed { HandsOnWritten K.Sink out.old out.new }
{
    match open_node_stores(alloc, triggers, states) {
        Ok((triggers, states)) => {
            serve_opened(rt, alloc, serving, out, triggers, states, clock, jobs, gate)
        }
        Err(ended) => {
            let Ended {
                status,
                triggers,
                states,
                trail: _,
            } = ended;
            Served {
                status,
                disks: Some((triggers, states)),
            }
        }
    }
}

// The nodes' work on the stores that were opened.
fn serve_opened<
    R: Threads + Wait + Sync,
    K: Sink,
    D: Disk + Send,
    C: SharedClock + Sync,
    G: Gate + Sync,
>(
    rt: &R,
    alloc: Global,
    serving: Serving,
    out: &mut K,
    triggers: TriggerStore<D>,
    states: StateStore<D>,
    clock: &C,
    jobs: &mut Vec<Jobs>,
    gate: &G,
) -> Served<D>
    requires serving { IsServing serving }
    requires keeps { keeps_of triggers ≡ true }
    requires both_open { AreBothOpen (both triggers states) }
    ensures done { (first : D) → (second : D) → JustOpened first second triggers states
        → ServedOnDisk D.Disk (C.shows clock.now) serving (map (λ list. map means list.items) jobs.old.items) (map (λ list. map means list.items) jobs.new.items) first second result (output_alone K.Sink out.old) (output_alone K.Sink out.new)
        ⊎ GaveUp D.Disk result (output_alone K.Sink out.old) (output_alone K.Sink out.new) }
    ensures disk { (first : D) → (second : D) → JustOpened first second triggers states → result.status ≡ Status.DiskFault → DiskFailed D.Disk first second result.disks }
    ensures read { result.status ≢ Status.ReadFault }
    ensures write { result.status ≡ Status.WriteFault → Rose (K.faults out.old) (K.faults out.new) }
    ensures handed { HandsOnWritten K.Sink out.old out.new }
{
    let stores = BothStores {
        alloc,
        triggers: SharedTriggers { store: triggers },
        states: SharedStates { store: states },
    };
    let Ok(shown) = open_board(rt, alloc, serving.looks, &stores.triggers.store) else {
        return without_memory(stores);
    };
    let mut board = shown;
    match take_course(rt, stores, clock, gate, serving, jobs, &mut board) {
        Ok((stores, cause)) => end_call(out, stores, board, status_of(cause)),
        Err(NoMemory) => Served {
            status: Status::NoMemory,
            disks: None,
        },
    }
}

// Gives the stores up.
fn without_memory<D: Disk>(stores: BothStores<D>) -> Served<D>
    ensures { (result.status ≡ Status.NoMemory) × (result.disks ≡ None) }
{
    drop(stores);
    Served {
        status: Status::NoMemory,
        disks: None,
    }
}

// Writes what was added, and makes a checkpoint where one is due.
fn end_call<K: Sink, D: Disk, H: Wait + Drop>(
    out: &mut K,
    stores: BothStores<D>,
    board: Option<StatusBoard<H>>,
    work: Status,
) -> Served<D>
    requires status { IsOfNodes work }
    requires keeps { keeps_of (triggers_of stores) ≡ true }
    requires shows { ShowsSoFar board (triggers_view (triggers_of stores)).history }
    ensures ended { (looks : Option ℕ) (opened : List EntryData) → IsPrefix opened (triggers_view (triggers_of stores)).history.entries → plan_of board ≡ plan looks opened
        → EndedCall looks opened work stores result (output_alone K.Sink out.old) (output_alone K.Sink out.new) }
    ensures read { result.status ≢ Status.ReadFault }
    ensures write { result.status ≡ Status.WriteFault → Rose (K.faults out.old) (K.faults out.new) }
    ensures handed { HandsOnWritten K.Sink out.old out.new }
{
    let BothStores {
        alloc,
        triggers,
        states,
    } = stores;
    let SharedTriggers { store: triggers } = triggers;
    let SharedStates { store: states } = states;
    let mut triggers = triggers;
    let told = tell(alloc, &triggers, board, work, out);
    let status = rest_nodes(&mut triggers, told);
    Served {
        status,
        disks: Some((give_back(triggers), states.into_disk())),
    }
}

// The status of nodes' work that ended so.
fn status_of(cause: Option<Declined>) -> Status
    ensures value { result ≡ status_of cause }
    ensures called { IsOfNodes result }
{
    match cause {
        None => Status::Ok,
        Some(Declined::TooMany { count }) => Status::TooMany { count },
        Some(Declined::JournalFull { need, room }) => Status::JournalFull { need, room },
        Some(Declined::Fault) => Status::DiskFault,
        Some(Declined::NoMemory) => Status::NoMemory,
        Some(Declined::Fenced) => Status::Fenced,
    }
}
