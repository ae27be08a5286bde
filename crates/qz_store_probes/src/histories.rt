//! The trigger store.
ghost use Rattle.std.specs.Prelude.{◌≡◌, ◌≢◌, ◌⊎◌, ◌+◌, ◌-◌, ◌≤◌, ◌++◌, ◌∷◌, [], length, true, false, Ok, Err, IsOk, IfOk, IfErr, OnOk, OnErr, MatchResult};
ghost use Rattle.qz_civil.specs.Causes.{Rose, HasCause};
ghost use Rattle.qz_codec.specs.Layout.{record_of};
ghost use Rattle.qz_disk.specs.Disk.{Restarts};
ghost use Rattle.qz_journal.specs.Commits.{LackRoom, HaveRoom};
ghost use Rattle.qz_journal.specs.Slots.{slots_of as slots_in};
ghost use Rattle.qz_journal.specs.Tails.{start_of};
ghost use Rattle.qz_journal.specs.Through.{OnlyReads, OnlyReadsUnless};
ghost use Rattle.qz_schedule_law.specs.Following.{FollowsSchedules};
ghost use Rattle.qz_snapshot.specs.Checkpoints.{snapshot_written};
ghost use Rattle.qz_stores.specs.Bases.{Opens};
ghost use Rattle.qz_stores.specs.Checkpoints.{Checks};
ghost use Rattle.qz_stores.specs.Stores.{Submits, Shuts};
ghost use Rattle.qz_trigger_store.specs.Bytes.{Whole, IsWhole, Stands, StandsFrom};
ghost use Rattle.qz_trigger_store.specs.Entries.{IsRecordOf, trigger_entry};
ghost use Rattle.qz_trigger_store.specs.Kinds.{trigger_kind};
ghost use Rattle.qz_trigger_store.specs.Opening.{IsOpened, IsRefused};
ghost use Rattle.qz_stores.specs.Restarting.{read_of, history_read, IsReread};
ghost use Rattle.qz_trigger_store.specs.View.{view, version_of, found_of, added_of, behind_of, tables_of, keeps_of, keeps_entries, disk_of, disk_state, GoesOnFrom, IsTold, IsOpenedAsBefore, IsAsBefore, LeavesEither};
ghost use Rattle.qz_types.specs.Tables.{recorded_moment};

use qz_civil::Failed;
use qz_disk::Disk;
use qz_trigger_store::{Keep, MountError, Reread, SubmitError, TriggerStore};
use qz_types::{Entry, Reply};
use std::alloc::Global;

/// Opens the trigger store on a disk, as `TriggerStore::mount` does.
pub fn mount_triggers<D: Disk>(
    alloc: Global,
    disk: D,
    keep: Keep,
) -> Result<TriggerStore<D>, (MountError, D)>
    ensures opened { IfOk result (λ store. IsOpened (view store)) }
    ensures nothing_added { IfOk result (λ store. added_of store ≡ []) }
    ensures keeps { IfOk result (λ store. keeps_of store ≡ keeps_entries keep) }
    ensures behind { IfOk result (λ store. behind_of store ≡ length (found_of store)) }
    ensures stands { D.honest → IfOk result (λ store. StandsFrom (version_of store) (D.state disk).content (view store).history) }
    ensures reads_tail { D.honest → MatchResult result
        (λ store. (disk_state store).bytes_read ≤ (D.state disk).bytes_read + (16 + (length (D.state disk).content - start_of (slots_in (D.state disk).content))))
        (λ e. (D.state e.1).bytes_read ≤ (D.state disk).bytes_read + (16 + (length (D.state disk).content - start_of (slots_in (D.state disk).content)))) }
    ensures reads { D.honest → IfOk result (λ store. OnlyReads (D.state disk) (disk_state store)) }
    ensures reads_err { D.honest → IfErr result (λ e. OnlyReadsUnless (e.0 ≡ MountError.Fault) (D.state disk) (D.state e.1)) }
    ensures refused { D.honest → IfErr result (λ e. IsRefused (D.state disk).content e.0) }
    ensures whole { D.honest → (w : Whole) → IsWhole w (D.state disk).content
        → MatchResult result (λ store. GoesOnFrom store w × Stands w (D.state disk).content (view store).history) (λ e. (e.0 ≡ MountError.Fault) ⊎ (e.0 ≡ MountError.NoMemory)) }
    ensures later { IfOk result (λ store. D.faults disk ≤ (view store).faults) }
    ensures fault { IfErr result (λ e. (D.faults disk ≤ D.faults e.1)
        × (e.0 ≡ MountError.Fault → Rose (D.faults disk) (D.faults e.1))) }
{
    TriggerStore::mount(alloc, disk, keep)
}

/// Submits a transaction, as `TriggerStore::submit` does.
pub fn submit<D: Disk>(store: &mut TriggerStore<D>, entry: Entry) -> Result<Reply, SubmitError>
    ensures one { Submits trigger_entry entry result (view store.old) (view store.new) }
    ensures unchanged { result ≢ Err SubmitError.Fault → OnErr result (IsAsBefore store.old store.new) }
    ensures opened { IsOpenedAsBefore store.old store.new }
    ensures behind { OnOk result (behind_of store.new ≡ behind_of store.old + 1) }
    ensures entries { OnOk result (added_of store.new ≡ added_of store.old ++ entry ∷ []) }
    ensures keeps { keeps_of store.new ≡ keeps_of store.old }
    ensures recorded { OnOk result (IsRecordOf (record_of entry) entry) }
    ensures any_moment { D.honest → LeavesEither store.old store.new }
    ensures schedules { FollowsSchedules (view store.new).history }
{
    store.submit(entry)
}

/// Whether a transaction would be accepted, as `TriggerStore::check` says.
pub fn check<D: Disk>(store: &TriggerStore<D>, entry: &Entry) -> Result<(), SubmitError>
    ensures ok { OnOk result (((view store.now).is_open ≡ true) × IsOk (trigger_entry.answer (view store.now).history entry.now)) }
    ensures err { IfErr result (λ e. Submits trigger_entry entry.now (Err e) (view store.now) (view store.now)) }
    ensures decided { result ≢ Err SubmitError.NoMemory }
{
    store.check(entry)
}

/// Lets the store's disk crash, as `TriggerStore::crash` does.
pub fn crash<D: Disk>(store: &mut TriggerStore<D>) -> Result<(), Failed>
    ensures shut { Shuts (view store.old) (view store.new) }
    ensures kept { IsOpenedAsBefore store.old store.new × (added_of store.new ≡ added_of store.old) × (keeps_of store.new ≡ keeps_of store.old) }
    ensures cause { HasCause (view store.old).faults (view store.new).faults result }
    ensures restarts { D.honest → Restarts result (disk_state store.old) (disk_state store.new) }
    ensures any_moment { D.honest → LeavesEither store.old store.new }
{
    store.crash()
}

/// Opens the store with a history that was read, as `TriggerStore::open` does.
pub fn open<D: Disk>(store: &mut TriggerStore<D>, reread: Reread)
    requires read { IsReread reread store.old.store }
    ensures opens { Opens trigger_kind (IsTold store.old) (view store.old) (view store.new) }
    ensures opened { IsOpened (view store.new) }
    ensures history { (view store.new).history ≡ history_read reread }
    ensures found { found_of store.new ≡ read_of reread }
    ensures nothing_added { added_of store.new ≡ [] }
    ensures stands { D.honest → StandsFrom (version_of store.new) (disk_state store.new).content (view store.new).history }
    ensures disk { disk_of store.new ≡ disk_of store.old }
    ensures any_moment { D.honest → LeavesEither store.old store.new }
{
    store.open(reread)
}

/// Makes a snapshot of the store's tables, as `TriggerStore::checkpoint` does.
pub fn checkpoint<D: Disk>(store: &mut TriggerStore<D>) -> Result<bool, SubmitError>
    ensures one { Checks result (view store.old) (view store.new) }
    ensures unchanged { result ≢ Ok true → result ≢ Err SubmitError.Fault → IsAsBefore store.old store.new }
    ensures no_room { result ≡ Ok false
        → LackRoom (snapshot_written (tables_of store.old) (view store.old).payloads ((view store.old).history.base_count + length (view store.old).history.entries)) (view store.old).gate (view store.old).payloads }
    ensures room { (result ≡ Ok true) ⊎ (result ≡ Err SubmitError.Fault)
        → HaveRoom (snapshot_written (tables_of store.old) (view store.old).payloads ((view store.old).history.base_count + length (view store.old).history.entries)) (view store.old).gate (view store.old).payloads }
    ensures opened { IsOpenedAsBefore store.old store.new }
    ensures behind { result ≡ Ok true → behind_of store.new ≡ 0 }
    ensures any_moment { D.honest → LeavesEither store.old store.new }
{
    store.checkpoint()
}

/// How many entries came after the last snapshot, as `TriggerStore::behind` says.
pub fn behind<D: Disk>(store: &TriggerStore<D>) -> u64
    ensures { result ≡ behind_of store.now }
{
    store.behind()
}
