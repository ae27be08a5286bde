//! A restart: a crash of the disk, and what is found on it afterwards. It has three calls, so that both disks of a
//! cluster can crash before either is read, and neither store is opened until both were read.
ghost use Rattle.std.specs.Prelude.{◌≡◌, ◌⊎◌, [], length, None, IfOk, IfErr, OnOk, Err};
ghost use Rattle.qz_civil.specs.Causes.{Rose, HasCause};
ghost use Rattle.qz_disk.specs.Disk.{Restarts};
ghost use Rattle.qz_journal.specs.Slots.{slot_in_use};
ghost use Rattle.qz_journal.specs.Through.{OnlyReads};
ghost use Rattle.qz_stores.specs.Bases.{Opens};
ghost use Rattle.qz_stores.specs.Restarting.{read_of, history_read, IsReread};
ghost use Rattle.qz_stores.specs.Stores.{Shuts};
ghost use Rattle.qz_trigger_store.specs.Bytes.{Whole, BeginsNew, StandsFrom, IsDecided};
ghost use Rattle.qz_trigger_store.specs.Kinds.{trigger_kind};
ghost use Rattle.qz_trigger_store.specs.Opening.{IsOpened};
ghost use Rattle.qz_trigger_store.specs.View.{view, version_of, found_of, added_of, behind_of, slots_of, opened_of, keeps_of, disk_of, disk_state, GoesOnFrom, IsTold, IsOpenedAsBefore, LeavesEither};

use crate::{Accepted, Reread, TriggerStore};
use qz_civil::Failed;
use qz_disk::Disk;
use qz_journal::MountError;

impl<D: Disk> TriggerStore<D> {
    /// A crash of the disk. From then on the store is closed, also after an `Err`, which is returned only where the
    /// disk's count of faults rose.
    pub fn crash(&mut self) -> Result<(), Failed>
        ensures shut { Shuts (view self.old) (view self.new) }
        ensures kept { IsOpenedAsBefore self.old self.new × (added_of self.new ≡ added_of self.old) × (keeps_of self.new ≡ keeps_of self.old) }
        ensures cause { HasCause (view self.old).faults (view self.new).faults result }
        ensures restarts { D.honest → Restarts result (disk_state self.old) (disk_state self.new) }
        ensures any_moment { D.honest → LeavesEither self.old self.new }
    {
        self.store.crash()
    }

    /// Reads the disk from the slot in use on and replays what is there, for `open`. The store is closed from then on, and keeps
    /// its history. `Fault` is returned only where the disk's count of faults rose. `NotAStore` and `Damaged` come only where the
    /// disk isn't honest, or held no whole list when the store was opened. They mean what they mean at a mount, but where a bad
    /// gate comes after a payload that is unfit, the offset is that of the gate.
    pub fn reread(&mut self) -> Result<Reread, MountError>
        ensures shut { Shuts (view self.old) (view self.new) }
        ensures kept { IsOpenedAsBefore self.old self.new × (added_of self.new ≡ added_of self.old) × (keeps_of self.new ≡ keeps_of self.old) }
        ensures read { IfOk result (λ reread. IsReread reread self.new.store) }
        // Where the disk held a whole list when the store was opened, what was read is an end of it and of what was added.
        ensures decided { D.honest → IfOk result (λ reread. (w : Whole) → GoesOnFrom self.old w → IsDecided w.start (view self.old).history (view self.old).undecided (history_read reread)) }
        ensures stands { D.honest → IfOk result (λ reread. StandsFrom reread.version (disk_state self.old).content (history_read reread)) }
        ensures reads { D.honest → OnOk result (OnlyReads (disk_state self.old) (disk_state self.new)) }
        ensures refused { D.honest → (w : Whole) → GoesOnFrom self.old w → IfErr result (λ e. (e ≡ MountError.Fault) ⊎ (e ≡ MountError.NoMemory)) }
        ensures fault { result ≡ Err MountError.Fault → Rose (view self.old).faults (view self.new).faults }
        ensures any_moment { D.honest → LeavesEither self.old self.new }
    {
        self.store.reread()
    }

    /// Opens the store with what `reread` found. It makes no device call and can't fail. What was accepted before is
    /// counted as found: where the store keeps what it accepts, that begins anew.
    pub fn open(&mut self, reread: Reread)
        requires read { IsReread reread self.old.store }
        ensures opens { Opens trigger_kind (IsTold self.old) (view self.old) (view self.new) }
        ensures opened { IsOpened (view self.new) }
        ensures history { (view self.new).history ≡ history_read reread }
        ensures found { found_of self.new ≡ read_of reread }
        ensures nothing_added { added_of self.new ≡ [] }
        ensures keeps { keeps_of self.new ≡ keeps_of self.old }
        ensures behind { behind_of self.new ≡ length (read_of reread) }
        ensures begins { slot_in_use (slots_of self.new) ≡ None → BeginsNew (version_of self.new) (view self.new).history }
        ensures bytes { D.honest → opened_of self.new ≡ (disk_state self.old).content }
        ensures stands { D.honest → StandsFrom (version_of self.new) (disk_state self.new).content (view self.new).history }
        ensures disk { disk_of self.new ≡ disk_of self.old }
        ensures any_moment { D.honest → LeavesEither self.old self.new }
    {
        self.store.open(reread);
        if self.accepted.is_some() {
            self.accepted = Some(Accepted::new(self.alloc));
        }
    }
}
