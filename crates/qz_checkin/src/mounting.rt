//! Opening what is on a disk.
ghost use Rattle.std.specs.Prelude.{◌≡◌, ◌⊎◌, ◌≤◌, IfOk, IfErr, MatchResult};
ghost use Rattle.qz_civil.specs.Causes.{Rose};
ghost use Rattle.qz_journal.specs.Through.{OnlyReads, OnlyReadsUnless};
ghost use Rattle.qz_checkin.specs.Bytes.{Whole, IsWhole, Stands};
ghost use Rattle.qz_checkin.specs.Opening.{IsOpened, IsRefused};
ghost use Rattle.qz_checkin.specs.View.{view, disk_state, whole_of, GoesOnFrom, IsTold};

use crate::StateStore;
use qz_disk::Disk;
use qz_journal::MountError;
use qz_stores::Store;
use std::alloc::Global;

impl<D: Disk> StateStore<D> {
    /// Opens the store that is on a disk, of either version, and replays its history. It syncs first, so that what it reads
    /// is what a crash leaves, and writes nothing. An `Err` hands the disk back. `NotAStore` is returned when the header isn't
    /// a state store's. A state store has no snapshots: when a slot is open, `Damaged` names the gate of the slot in use, and
    /// else also the gate of the first payload that is no record or whose command is refused. `Fault` is returned only when
    /// the disk's count of faults rose.
    pub fn mount(alloc: Global, disk: D) -> Result<StateStore<D>, (MountError, D)>
        ensures opened { IfOk result (λ store. IsOpened (view store)) }
        // An honest disk holds the history, and nothing else.
        ensures stands { D.honest → IfOk result (λ store. IsWhole (whole_of store) (D.state disk).content × GoesOnFrom store (whole_of store)) }
        ensures told { D.honest → IfOk result IsTold }
        ensures reads { D.honest → IfOk result (λ store. OnlyReads (D.state disk) (disk_state store)) }
        ensures reads_err { D.honest → IfErr result (λ e. OnlyReadsUnless (e.0 ≡ MountError.Fault) (D.state disk) (D.state e.1)) }
        ensures refused { D.honest → IfErr result (λ e. IsRefused (D.state disk).content e.0) }
        // Where the bytes hold a whole list, its history is opened, or memory or the disk fails.
        ensures whole { D.honest → (w : Whole) → IsWhole w (D.state disk).content
            → MatchResult result (λ store. GoesOnFrom store w × Stands w (D.state disk).content (view store).history) (λ e. (e.0 ≡ MountError.Fault) ⊎ (e.0 ≡ MountError.NoMemory)) }
        ensures later { IfOk result (λ store. D.faults disk ≤ (view store).faults) }
        ensures fault { IfErr result (λ e. (D.faults disk ≤ D.faults e.1)
            × (e.0 ≡ MountError.Fault → Rose (D.faults disk) (D.faults e.1))) }
    {
        match Store::mount(alloc, disk) {
            Ok(store) => Ok(StateStore { store }),
            Err(refused) => Err(refused),
        }
    }
}
