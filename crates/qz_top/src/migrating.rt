//! `migrate`: the trigger store of a disk is taken from version 1 to version 2.
ghost use Rattle.std.specs.Prelude.{◌≡◌, ◌≢◌, ◌∷◌, [], ℤ, true};
ghost use Rattle.qz_civil.specs.Causes.{Rose};
ghost use Rattle.qz_io.specs.Around.{output_alone};
ghost use Rattle.qz_io.specs.Clocks.{Tells};
ghost use Rattle.qz_trigger_store.specs.View.{view, disk_of, LeavesEither};
ghost use Rattle.qz_top.specs.HandingOn.{HandsOnWritten};
ghost use Rattle.qz_top.specs.Migrating.{RanMigrate, Upgrades, AnswersAs, upgrade_entry};

use crate::Status;
use crate::ended::{Ended, ran_no_script};
use crate::opening::refusal_of;
use crate::writing::write_text;
use qz_cluster::MountFault;
use qz_disk::Disk;
use qz_io::{Clock, Sink};
use qz_trigger_store::{Keep, TriggerStore};
use qz_types::{Actor, Command, Entry, Reply, Store, SubmitError};
use std::alloc::Global;

/// Opens the trigger store, and upgrades it at one reading of the clock. It writes `migrated`, or `current` where the store needs
/// no upgrade.
pub(crate) fn migrate<K: Sink, D: Disk, C: Clock>(
    alloc: Global,
    out: &mut K,
    triggers: D,
    states: D,
    clock: &mut C,
) -> Ended<D>
    ensures done { RanMigrate triggers states result (C.readings clock.old) (C.readings clock.new) (output_alone K.Sink out.old) (output_alone K.Sink out.new) }
    ensures disk { result.status ≡ Status.DiskFault → Rose (D.faults triggers) (D.faults result.triggers) }
    ensures read { result.status ≢ Status.ReadFault }
    ensures write { result.status ≡ Status.WriteFault → Rose (K.faults out.old) (K.faults out.new) }
    ensures handed { HandsOnWritten K.Sink out.old out.new }
{
    match TriggerStore::mount(alloc, triggers, Keep::Tables) {
        Ok(mut store) => {
            let status = upgrade(&mut store, out, clock);
            ran_no_script(alloc, status, store.into_disk(), states)
        }
        Err((error, triggers)) => {
            let store = Store::Triggers;
            ran_no_script(
                alloc,
                refusal_of(MountFault { store, error }),
                triggers,
                states,
            )
        }
    }
}

// Upgrades a store that was opened, and says what came of it.
fn upgrade<K: Sink, D: Disk, C: Clock>(
    store: &mut TriggerStore<D>,
    out: &mut K,
    clock: &mut C,
) -> Status
    requires { (view store.old).is_open ≡ true }
    ensures done { (at : ℤ) × Tells (C.readings clock.old) (C.readings clock.new) (at ∷ []) × Upgrades result at (view store.old) (view store.new) (output_alone K.Sink out.old) (output_alone K.Sink out.new) }
    ensures unless_changed { view store.new ≡ view store.old → disk_of store.new ≡ disk_of store.old }
    ensures any_moment { D.honest → LeavesEither store.old store.new }
    ensures disk { result ≡ Status.DiskFault → Rose (view store.old).faults (view store.new).faults }
    ensures read { result ≢ Status.ReadFault }
    ensures write { result ≡ Status.WriteFault → Rose (K.faults out.old) (K.faults out.new) }
    ensures handed { HandsOnWritten K.Sink out.old out.new }
{
    let answer = store.submit(upgrade_entry(clock.now()));
    say(out, answer)
}

// The entry that upgrades a store.
#[tactic(auto, unfolding(qz_types::specs::Entries::is_entry))]
fn upgrade_entry(at: i64) -> Entry
    ensures { result ≡ upgrade_entry at }
{
    Entry {
        at,
        actor: Actor::Client,
        seat: 0,
        command: Command::Upgrade,
    }
}

// Says what the store answered to an upgrade, or answers why there is nothing to say.
fn say<K: Sink>(out: &mut K, answer: Result<Reply, SubmitError>) -> Status
    ensures said { AnswersAs answer result (output_alone K.Sink out.old) (output_alone K.Sink out.new) }
    ensures read { result ≢ Status.ReadFault }
    ensures write { result ≡ Status.WriteFault → Rose (K.faults out.old) (K.faults out.new) }
    ensures handed { HandsOnWritten K.Sink out.old out.new }
{
    match answer {
        Ok(reply) => {
            drop(reply);
            write_text(out, "migrated\n")
        }
        Err(SubmitError::Refused(_)) => write_text(out, "current\n"),
        Err(SubmitError::JournalFull { need, room }) => Status::JournalFull { need, room },
        Err(SubmitError::NoMemory) => Status::NoMemory,
        Err(SubmitError::Closed { at: _ } | SubmitError::Fault) => Status::DiskFault,
    }
}
