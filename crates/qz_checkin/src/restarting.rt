//! A restart, in three calls.
ghost use Rattle.std.specs.Prelude.{◌≡◌, ◌⊎◌, Err, IfOk, IfErr, OnOk};
ghost use Rattle.qz_civil.specs.Causes.{Rose, HasCause};
ghost use Rattle.qz_disk.specs.Disk.{Restarts};
ghost use Rattle.qz_journal.specs.Through.{OnlyReads};
ghost use Rattle.qz_stores.specs.Stores.{Shuts};
ghost use Rattle.qz_stores.specs.Bases.{Opens};
ghost use Rattle.qz_stores.specs.Restarting.{history_read, IsReread};
ghost use Rattle.qz_checkin.specs.Kinds.{state_kind};
ghost use Rattle.qz_checkin.specs.Bytes.{Whole, IsWhole, IsDecided};
ghost use Rattle.qz_checkin.specs.Opening.{IsOpened};
ghost use Rattle.qz_checkin.specs.View.{view, entries_of, whole_of, whole_read, disk_of, disk_state, GoesOnFrom, IsTold, LeavesEither};

use crate::{Reread, StateStore};
use qz_civil::Failed;
use qz_disk::Disk;
use qz_journal::MountError;

impl<D: Disk> StateStore<D> {
    /// A crash of the disk. The store is closed until `open`, so that several disks can crash before anything on them is
    /// read.
    pub fn crash(&mut self) -> Result<(), Failed>
        ensures shut { Shuts (view self.old) (view self.new) }
        ensures cause { HasCause (view self.old).faults (view self.new).faults result }
        ensures restarts { D.honest → Restarts result (disk_state self.old) (disk_state self.new) }
        ensures any_moment { D.honest → LeavesEither self.old self.new }
    {
        self.store.crash()
    }

    /// Reads what is on the disk, as `mount` does. The store is closed until `open`, with its history and its undecided
    /// entry, whatever is answered. `Fault` is returned only when the disk's count of faults rose. `NotAStore` and `Damaged`
    /// are returned only when the disk isn't honest, or held no whole list when the store was opened; the offset of `Damaged`
    /// may then be that of a bad gate, though a payload before it is unfit too.
    pub fn reread(&mut self) -> Result<Reread, MountError>
        ensures shut { Shuts (view self.old) (view self.new) }
        ensures kept { entries_of self.new ≡ entries_of self.old }
        ensures read { IfOk result (λ reread. IsReread reread self.new.store) }
        ensures decided { D.honest → IfOk result (λ reread. (w : Whole) → GoesOnFrom self.old w → IsDecided w.start (view self.old).history (view self.old).undecided (history_read reread)) }
        ensures stands { D.honest → IfOk result (λ reread. IsWhole (whole_read reread) (disk_state self.old).content) }
        // An honest disk that held a whole list has the history, or that with the undecided entry, so it or memory fails.
        ensures refused { D.honest → (w : Whole) → GoesOnFrom self.old w → IfErr result (λ e. (e ≡ MountError.Fault) ⊎ (e ≡ MountError.NoMemory)) }
        ensures fault { result ≡ Err MountError.Fault → Rose (view self.old).faults (view self.new).faults }
        ensures reads { D.honest → OnOk result (OnlyReads (disk_state self.old) (disk_state self.new)) }
        ensures any_moment { D.honest → LeavesEither self.old self.new }
    {
        self.store.reread()
    }

    /// Opens the store with what was read. It makes no device call, takes no memory, and can't fail.
    pub fn open(&mut self, reread: Reread)
        requires { IsReread reread self.old.store }
        ensures opens { Opens state_kind (IsTold self.old) (view self.old) (view self.new) }
        ensures opened { IsOpened (view self.new) }
        ensures history { (view self.new).history ≡ history_read reread }
        ensures stands { D.honest → IsWhole (whole_of self.new) (disk_state self.new).content × GoesOnFrom self.new (whole_of self.new) }
        ensures told { D.honest → IsTold self.new }
        ensures disk { disk_of self.new ≡ disk_of self.old }
        ensures any_moment { D.honest → LeavesEither self.old self.new }
    {
        self.store.open(reread)
    }
}
