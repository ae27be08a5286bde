//! The top call that tells what was done.
ghost use Rattle.std.specs.Prelude.{◌≡◌, ◌⊎◌, None, Ok};
ghost use Rattle.qz_civil.specs.Causes.{Rose};
ghost use Rattle.qz_top.specs.HandingOn.{HandsOnWritten};
ghost use Rattle.qz_words.specs.Histories.{history_of};
ghost use Rattle.qz_tell.specs.Histories.{DidAsAsked, DiskFailed, IsComplete, NotOpened, Reports, ToldOnDisk};

use crate::readings::{refusal_of, tell};
use crate::reports::report;
use qz_cluster::Cluster;
use qz_disk::Disk;
use qz_io::Sink;
use qz_top::Status;
use qz_trigger_store::Keep;
use qz_types::Text;
use qz_words::read_history;
use std::alloc::Global;

/// How a call ended, with the disks that it was handed.
#[derive(Drop)]
pub struct Told<D: Disk> {
    pub status: Status,
    /// The number of the first transaction that the store lists, where that isn't the first that was asked for, and all went well.
    pub begins: Option<u64>,
    pub triggers: D,
    pub states: D,
}

/// Does what `history FROM` asks for, and writes a line on `err` where that didn't end well.
///
/// It opens both stores, and writes an object and a line feed for each transaction of the trigger store whose number is above FROM:
/// its number, the epoch under which a node asked, the line of a script that asks for it once more at its recorded moment, and the
/// text of its reply. Those that the store's base stands for aren't there. Where FROM is before the base, a line on `err` says
/// where the history begins.
///
/// The trigger store is read once to be opened and once to be told, so nothing is written where it isn't opened whole. Memory is
/// wanted for what an opening takes, and for one object. What was written is handed on at every end. The disks come back in every
/// case. Every other first word is unknown here.
pub fn history<K: Sink, E: Sink, D: Disk>(
    alloc: Global,
    words: &[Text],
    out: &mut K,
    err: &mut E,
    triggers: D,
    states: D,
) -> Told<D>
    // What was done is what the words ask for.
    ensures done { DidAsAsked D.Disk (history_of words.now) triggers states result (K.held out.old) (K.held out.new) }
    // A fault is answered only where the output failed, or a disk.
    ensures write { result.status ≡ Status.WriteFault → Rose (K.faults out.old) (K.faults out.new) }
    ensures disk { result.status ≡ Status.DiskFault → DiskFailed D.Disk triggers states result }
    // Where nothing failed and the stores hold whole lists, all was told, unless memory ran out.
    ensures complete { IsComplete D.Disk K.Sink (history_of words.now) triggers states result out.old out.new }
    // However the call ended, all that it wrote on `out` was handed on, or `out` failed.
    ensures handed { HandsOnWritten K.Sink out.old out.new }
    // The line on `err` was written and handed on, or `err` failed.
    ensures reported { Reports E.Sink result.status result.begins err.old err.new }
{
    let told = work(alloc, words, out, triggers, states);
    report(told.status, told.begins, err);
    told
}

// The same, without the line on `err`.
fn work<K: Sink, D: Disk>(
    alloc: Global,
    words: &[Text],
    out: &mut K,
    triggers: D,
    states: D,
) -> Told<D>
    ensures done { DidAsAsked D.Disk (history_of words.now) triggers states result (K.held out.old) (K.held out.new) }
    ensures write { result.status ≡ Status.WriteFault → Rose (K.faults out.old) (K.faults out.new) }
    ensures disk { result.status ≡ Status.DiskFault → DiskFailed D.Disk triggers states result }
    ensures handed { HandsOnWritten K.Sink out.old out.new }
{
    match read_history(words) {
        Ok(from) => tell_on_disk(alloc, from, out, triggers, states),
        Err(fault) => nothing_told(Status::BadWords { fault }, triggers, states),
    }
}

// Nothing was told.
fn nothing_told<D: Disk>(status: Status, triggers: D, states: D) -> Told<D>
    ensures { (result.status ≡ status) × (result.begins ≡ None) × (result.triggers ≡ triggers) × (result.states ≡ states) }
{
    Told {
        status,
        begins: None,
        triggers,
        states,
    }
}

// Opens both stores, and tells what the one of triggers has.
fn tell_on_disk<K: Sink, D: Disk>(
    alloc: Global,
    from: u64,
    out: &mut K,
    triggers: D,
    states: D,
) -> Told<D>
    ensures done { ToldOnDisk D.Disk from triggers states result (K.held out.old) (K.held out.new) ⊎ NotOpened D.Disk triggers states result (K.held out.old) (K.held out.new) }
    ensures write { result.status ≡ Status.WriteFault → Rose (K.faults out.old) (K.faults out.new) }
    ensures disk { result.status ≡ Status.DiskFault → DiskFailed D.Disk triggers states result }
    ensures handed { HandsOnWritten K.Sink out.old out.new }
{
    match Cluster::mount(alloc, triggers, states, Keep::Tables) {
        Ok(cluster) => {
            let (triggers, states) = cluster.into_disks();
            let (status, begins, triggers) = tell(alloc, from, out, triggers);
            Told {
                status,
                begins,
                triggers,
                states,
            }
        }
        Err((fault, triggers, states)) => nothing_told(refusal_of(fault), triggers, states),
    }
}
