//! The state store.
ghost use Rattle.std.specs.Prelude.{◌≡◌, ◌≢◌, ◌⊎◌, ◌≤◌, Err, IsTrue, IfOk, IfErr, OnErr, MatchResult};
ghost use Rattle.qz_civil.specs.Causes.{Rose};
ghost use Rattle.qz_checkin.specs.Bytes.{Whole, IsWhole, Stands};
ghost use Rattle.qz_checkin.specs.Entries.{of_states};
ghost use Rattle.qz_checkin.specs.History.{replay_states};
ghost use Rattle.qz_checkin.specs.Lateness as lateness;
ghost use Rattle.qz_checkin.specs.Opening.{IsOpened, IsRefused};
ghost use Rattle.qz_checkin.specs.Rows.{state_moment};
ghost use Rattle.qz_checkin.specs.View.{view, disk_state, whole_of, GoesOnFrom, IsTold, IsAsBefore, LeavesEither};
ghost use Rattle.qz_journal.specs.Through.{OnlyReads, OnlyReadsUnless};
ghost use Rattle.qz_stores.specs.Stores.{Submits};
ghost use Rattle.qz_types.specs.Rows.{is_node, is_interval};
ghost use Rattle.qz_types.specs.declared.states.StateCommand.TheVariants.{CheckIn, Forget};

use qz_checkin::{MountError, StateStore, SubmitError};
use qz_disk::Disk;
use qz_types::{Evidence, NoMemory, Text};
use std::alloc::Global;

/// Opens the state store on a disk, as `StateStore::mount` does.
pub fn mount_states<D: Disk>(alloc: Global, disk: D) -> Result<StateStore<D>, (MountError, D)>
    ensures opened { IfOk result (λ store. IsOpened (view store)) }
    ensures stands { D.honest → IfOk result (λ store. IsWhole (whole_of store) (D.state disk).content × GoesOnFrom store (whole_of store)) }
    ensures told { D.honest → IfOk result IsTold }
    ensures reads { D.honest → IfOk result (λ store. OnlyReads (D.state disk) (disk_state store)) }
    ensures reads_err { D.honest → IfErr result (λ e. OnlyReadsUnless (e.0 ≡ MountError.Fault) (D.state disk) (D.state e.1)) }
    ensures refused { D.honest → IfErr result (λ e. IsRefused (D.state disk).content e.0) }
    ensures whole { D.honest → (w : Whole) → IsWhole w (D.state disk).content
        → MatchResult result (λ store. GoesOnFrom store w × Stands w (D.state disk).content (view store).history) (λ e. (e.0 ≡ MountError.Fault) ⊎ (e.0 ≡ MountError.NoMemory)) }
    ensures later { IfOk result (λ store. D.faults disk ≤ (view store).faults) }
    ensures fault { IfErr result (λ e. (D.faults disk ≤ D.faults e.1)
        × (e.0 ≡ MountError.Fault → Rose (D.faults disk) (D.faults e.1))) }
{
    StateStore::mount(alloc, disk)
}

/// A node checks in, as `StateStore::check_in` has it.
pub fn check_in<D: Disk>(
    store: &mut StateStore<D>,
    at: i64,
    seat: u32,
    node: &Text,
    interval: i64,
) -> Result<(), SubmitError>
    requires node { IsTrue (is_node node.now) }
    requires interval { IsTrue (is_interval interval) }
    ensures one { Submits of_states (record { at = at; seat = seat; command = CheckIn node.now interval }) result (view store.old) (view store.new) }
    ensures unchanged { result ≢ Err SubmitError.Fault → OnErr result (IsAsBefore store.old store.new) }
    ensures any_moment { D.honest → LeavesEither store.old store.new }
{
    store.check_in(at, seat, node, interval)
}

/// A node's check-in is removed, as `StateStore::forget` has it.
pub fn forget<D: Disk>(
    store: &mut StateStore<D>,
    at: i64,
    seat: u32,
    node: &Text,
    last: i64,
) -> Result<(), SubmitError>
    requires { IsTrue (is_node node.now) }
    ensures one { Submits of_states (record { at = at; seat = seat; command = Forget node.now last }) result (view store.old) (view store.new) }
    ensures unchanged { result ≢ Err SubmitError.Fault → OnErr result (IsAsBefore store.old store.new) }
    ensures any_moment { D.honest → LeavesEither store.old store.new }
{
    store.forget(at, seat, node, last)
}

/// The place of a late node, as `StateStore::late_place` gives it.
pub fn late_place<D: Disk>(store: &StateStore<D>, at: i64, own: &Text) -> Option<u32>
    ensures { result ≡ lateness.late_place (replay_states (view store.now).history) (state_moment (replay_states (view store.now).history) at) own.now }
{
    store.late_place(at, own)
}

/// A late node, as `StateStore::failed` gives it.
pub fn failed<D: Disk>(
    store: &StateStore<D>,
    at: i64,
    own: &Text,
) -> Result<Option<Evidence>, NoMemory>
    ensures { IfOk result (λ found. found ≡ lateness.failed_by (replay_states (view store.now).history) (state_moment (replay_states (view store.now).history) at) own.now) }
{
    store.failed(at, own)
}
