//! `init`: new stores on the disks.
ghost use Rattle.std.specs.Prelude.{◌≡◌, ◌⊎◌, ◌≤◌, [], Err};
ghost use Rattle.qz_civil.specs.Causes.{Rose};
ghost use Rattle.qz_disk.specs.Disk.{LeavesOnly};
ghost use Rattle.qz_io.specs.Around.{output_alone};
ghost use Rattle.qz_journal.specs.Layout.{HasStore};
ghost use Rattle.qz_top.specs.Calls.{trail_of};
ghost use Rattle.qz_top.specs.HandingOn.{HandsOnAll, HandsOnWritten};
ghost use Rattle.qz_top.specs.Making.{Makes, IsInit, KeepsStores, SaysMade, unmade_status};

use crate::Status;
use crate::ended::{Ended, ran_no_script};
use crate::writing::hand_on;
use qz_disk::Disk;
use qz_io::{Sink, write_all};
use qz_journal::{CreateError, STATES, TRIGGERS, create};
use qz_types::Store;
use std::alloc::Global;

/// Why there is no new store on a disk, and none that was left.
#[derive(Clone, Copy)]
pub(crate) enum Unmade {
    /// The disk begins with the header of the other store.
    OtherKind,
    Fault,
}

/// Makes the stores on the disks that don't begin with their header, the trigger store first, and says so.
pub(crate) fn make_stores<K: Sink, D: Disk>(
    alloc: Global,
    out: &mut K,
    mut triggers: D,
    mut states: D,
) -> Ended<D>
    ensures made { IsInit D.Disk result.status triggers result.triggers states result.states }
    ensures keeps { KeepsStores D.Disk triggers result.triggers states result.states }
    ensures written { SaysMade result.status (output_alone K.Sink out.old) (output_alone K.Sink out.new) }
    ensures trail { trail_of result.trail ≡ [] }
    ensures write { result.status ≡ Status.WriteFault → Rose (K.faults out.old) (K.faults out.new) }
    ensures handed { HandsOnWritten K.Sink out.old out.new }
{
    let status = init(out, &mut triggers, &mut states);
    ran_no_script(alloc, status, triggers, states)
}

// The same, on the disks where they are.
fn init<K: Sink, D: Disk>(out: &mut K, triggers: &mut D, states: &mut D) -> Status
    ensures made { IsInit D.Disk result triggers.old triggers.new states.old states.new }
    ensures keeps { KeepsStores D.Disk triggers.old triggers.new states.old states.new }
    ensures written { SaysMade result (output_alone K.Sink out.old) (output_alone K.Sink out.new) }
    ensures write { result ≡ Status.WriteFault → Rose (K.faults out.old) (K.faults out.new) }
    ensures handed { HandsOnWritten K.Sink out.old out.new }
{
    let first = match make(triggers, TRIGGERS) {
        Ok(first) => first,
        Err(unmade) => return unmade_status(unmade, Store::Triggers),
    };
    let second = match make(states, STATES) {
        Ok(second) => second,
        Err(unmade) => return unmade_status(unmade, Store::States),
    };
    if !first && !second {
        return Status::Exists;
    }
    say_made(out)
}

// The status of an `init` that made no store on the disk of this one.
fn unmade_status(unmade: Unmade, store: Store) -> Status
    ensures { result ≡ unmade_status unmade store }
{
    match unmade {
        Unmade::OtherKind => Status::NotAStore { store },
        Unmade::Fault => Status::DiskFault,
    }
}

// Makes a store where none stands. False where one stood there.
fn make<D: Disk>(disk: &mut D, kind: u8) -> Result<bool, Unmade>
    ensures told { D.honest → Makes kind result (D.state disk.old) (D.state disk.new) }
    ensures kept { D.honest → HasStore kind (D.state disk.old).content → LeavesOnly (D.state disk.old) (D.state disk.new) (D.state disk.old).IsImage }
    ensures fault { result ≡ Err Unmade.Fault → Rose (D.faults disk.old) (D.faults disk.new) }
{
    match create(disk, kind) {
        Ok(()) => Ok(true),
        Err(CreateError::Exists) => Ok(false),
        Err(CreateError::OtherKind) => Err(Unmade::OtherKind),
        Err(CreateError::Fault) => Err(Unmade::Fault),
    }
}

fn say_made<K: Sink>(out: &mut K) -> Status
    ensures status { (result ≡ Status.Ok) ⊎ (result ≡ Status.WriteFault) }
    ensures written { SaysMade result (output_alone K.Sink out.old) (output_alone K.Sink out.new) }
    ensures write { result ≡ Status.WriteFault → Rose (K.faults out.old) (K.faults out.new) }
    ensures handed { HandsOnAll K.Sink out.old out.new }
{
    if write_all(out, b"created\n").is_err() {
        hand_on(out);
        return Status::WriteFault;
    }
    match out.flush() {
        Ok(()) => Status::Ok,
        Err(_) => Status::WriteFault,
    }
}
