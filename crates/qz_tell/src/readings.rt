//! Telling what stands on a disk.
ghost use Rattle.std.specs.Prelude.{◌≡◌, ◌≢◌, ◌⊎◌, ◌≤◌, None, Ok, Err, IfOk, IfErr, OnErr};
ghost use Rattle.std.specs.Io.KnownBytes.{Keeps};
ghost use Rattle.qz_civil.specs.Causes.{Rose};
ghost use Rattle.qz_model.specs.History.{History};
ghost use Rattle.qz_top.specs.Calls.{refusal_of};
ghost use Rattle.qz_top.specs.HandingOn.{HandsOnAll};
ghost use Rattle.qz_tell.specs.Histories.{MayEnd, OnlyRead, Stands, Tells, ToldAll, ToldPart, status_of};

use qz_cluster::{MountError, MountFault};
use qz_disk::Disk;
use qz_history::{TellError, tell_payloads};
use qz_io::Sink;
use qz_journal::{Journal, TRIGGERS};
use qz_top::Status;
use qz_types::Store;
use std::alloc::Global;

/// Tells what stands on a disk, and hands it on. On an honest disk that is the history that was opened before.
pub(crate) fn tell<K: Sink, D: Disk>(
    alloc: Global,
    from: u64,
    out: &mut K,
    triggers: D,
) -> (Status, Option<u64>, D)
    ensures told { (opened : History) → (D.honest → Stands D.Disk triggers opened) → Tells D.honest from opened result.0 result.1 (K.held out.old) (K.held out.new) }
    ensures ends { (opened : History) → (D.honest → Stands D.Disk triggers opened) → MayEnd D.honest result.0 }
    ensures reads { D.honest → OnlyRead (result.0 ≡ Status.DiskFault) (D.state triggers) (D.state result.2) }
    ensures later { D.faults triggers ≤ D.faults result.2 }
    ensures disk { result.0 ≡ Status.DiskFault → Rose (D.faults triggers) (D.faults result.2) }
    ensures write { result.0 ≡ Status.WriteFault → Rose (K.faults out.old) (K.faults out.new) }
    ensures handed { HandsOnAll K.Sink out.old out.new }
{
    let (told, triggers) = read(alloc, from, out, triggers);
    let (status, begins) = hand_on(told, out);
    (status, begins, triggers)
}

// Hands on what the output holds, and says how the call ends. That this fails is told where nothing else ended it.
fn hand_on<K: Sink>(told: Result<Option<u64>, Status>, out: &mut K) -> (Status, Option<u64>)
    requires other { IfErr told (λ s. s ≢ Status.Ok) }
    ensures kept { Keeps (K.held out.old) (K.held out.new) }
    ensures ok { result.0 ≡ Status.Ok → told ≡ Ok result.1 }
    ensures none { result.0 ≢ Status.Ok → result.1 ≡ None }
    ensures err { (result.0 ≡ Status.Ok) ⊎ ((result.0 ≡ Status.WriteFault) ⊎ (told ≡ Err result.0)) }
    ensures write { result.0 ≡ Status.WriteFault → (told ≡ Err Status.WriteFault) ⊎ Rose (K.faults out.old) (K.faults out.new) }
    ensures same { IfErr told (λ s. result.0 ≡ s) }
    ensures later { K.faults out.old ≤ K.faults out.new }
    ensures handed { HandsOnAll K.Sink out.old out.new }
{
    let flushed = out.flush();
    match told {
        Ok(begins) => match flushed {
            Ok(()) => (Status::Ok, begins),
            Err(_) => (Status::WriteFault, None),
        },
        Err(status) => (status, None),
    }
}

// Tells what stands on a disk: where it begins, if not with the first that was asked for.
fn read<K: Sink, D: Disk>(
    alloc: Global,
    from: u64,
    out: &mut K,
    triggers: D,
) -> (Result<Option<u64>, Status>, D)
    ensures all { (opened : History) → (D.honest → Stands D.Disk triggers opened) → IfOk result.0 (λ begins. ToldAll D.honest from opened begins (K.held out.old) (K.held out.new)) }
    ensures part { (opened : History) → (D.honest → Stands D.Disk triggers opened) → OnErr result.0 (ToldPart D.honest from opened (K.held out.old) (K.held out.new)) }
    ensures ends { (opened : History) → (D.honest → Stands D.Disk triggers opened) → IfErr result.0 (MayEnd D.honest) }
    ensures reads { D.honest → OnlyRead (result.0 ≡ Err Status.DiskFault) (D.state triggers) (D.state result.1) }
    ensures later { D.faults triggers ≤ D.faults result.1 }
    ensures disk { result.0 ≡ Err Status.DiskFault → Rose (D.faults triggers) (D.faults result.1) }
    ensures other { IfErr result.0 (λ s. s ≢ Status.Ok) }
    ensures write { result.0 ≡ Err Status.WriteFault → Rose (K.faults out.old) (K.faults out.new) }
    ensures later_out { K.faults out.old ≤ K.faults out.new }
{
    match Journal::mount_tail(alloc, triggers, TRIGGERS) {
        Ok((journal, start, payloads)) => {
            let (version, slot) = (journal.version(), journal.slot());
            match tell_payloads(alloc, from, version, slot, start, &payloads, out) {
                Ok(begins) => (Ok(begins), journal.into_disk()),
                Err(error) => (Err(status_of(error, start)), journal.into_disk()),
            }
        }
        Err((error, triggers)) => {
            let fault = MountFault {
                store: Store::Triggers,
                error,
            };
            (Err(refusal_of(fault)), triggers)
        }
    }
}

// The status of a reading that ended early. What is unfit at the second reading was fit at the first, and its place isn't known; the
// offset is that from which was read.
fn status_of(error: TellError, start: u64) -> Status
    ensures { result ≡ status_of start error }
{
    match error {
        TellError::NoMemory => Status::NoMemory,
        TellError::WriteFault => Status::WriteFault,
        TellError::Unfit => Status::Damaged {
            store: Store::Triggers,
            at: start,
        },
    }
}

/// The status of a call whose store wasn't opened.
pub(crate) fn refusal_of(fault: MountFault) -> Status
    ensures { result ≡ refusal_of fault.store fault.error }
{
    let MountFault { store, error } = fault;
    match error {
        MountError::Fault => Status::DiskFault,
        MountError::NotAStore => Status::NotAStore { store },
        MountError::Damaged { at } => Status::Damaged { store, at },
        MountError::NoMemory => Status::NoMemory,
    }
}
