//! A restart: a crash of the disk, and what is found on it afterwards. It has three calls, so that several disks can
//! crash before any is read, and no store is opened until all were read.
ghost use Rattle.std.specs.Prelude.{◌≡◌, ◌⊎◌, [], length, None, IfOk, IfErr, OnOk, Err};
ghost use Rattle.qz_civil.specs.Causes.{Rose, HasCause};
ghost use Rattle.qz_disk.specs.Disk.{Restarts};
ghost use Rattle.qz_journal.specs.Slots.{slot_in_use};
ghost use Rattle.qz_journal.specs.Through.{OnlyReads};
ghost use Rattle.qz_stores.specs.Stores.{Shuts};
ghost use Rattle.qz_stores.specs.Bases.{WholeList, IsDecided, Opens};
ghost use Rattle.qz_stores.specs.Bytes.{BeginsNew};
ghost use Rattle.qz_stores.specs.Opening.{IsOpened, StandsFrom};
ghost use Rattle.qz_stores.specs.Restarting.{read_of, history_read, IsReread};
ghost use Rattle.qz_stores.specs.View.{view, version_of, added_of, found_of, opened_of, behind_of, slots_of, disk_of, disk_state, GoesOnFrom, IsTold, IsOpenedAsBefore, LeavesHistories};

use crate::replaying::replay;
use crate::{Kind, Reread, Store};
use qz_civil::Failed;
use qz_disk::Disk;
use qz_journal::MountError;
use qz_logs::Log;
use std::mem;
use std::snapshot::Snapshot;

impl<D: Disk, K: Kind> Store<D, K> {
    /// A crash of the disk. From then on the store is closed, also after an `Err`, which is returned only where the
    /// disk's count of faults rose.
    pub fn crash(&mut self) -> Result<(), Failed>
        ensures shut { Shuts (view self.old) (view self.new) }
        ensures kept { IsOpenedAsBefore self.old self.new × (added_of self.new ≡ added_of self.old) }
        ensures cause { HasCause (view self.old).faults (view self.new).faults result }
        ensures restarts { D.honest → Restarts result (disk_state self.old) (disk_state self.new) }
        ensures leaves { D.honest → LeavesHistories self.old self.new }
    {
        self.is_open = false;
        self.journal.crash()
    }

    /// Reads the disk from the slot in use on and replays what is there, for `open`, in the version that its header has. The
    /// store is closed from then on, and keeps its history. `Fault` is returned only where the disk's count of faults rose.
    /// `NotAStore` and `Damaged` are returned only where the disk isn't honest, or held no whole list when the store was opened. They mean
    /// what they mean at a mount, but where a bad gate comes after a payload that is unfit, the offset is that of the gate.
    pub fn reread(&mut self) -> Result<Reread<K>, MountError>
        ensures shut { Shuts (view self.old) (view self.new) }
        ensures kept { IsOpenedAsBefore self.old self.new × (added_of self.new ≡ added_of self.old) }
        ensures read { IfOk result (λ reread. IsReread reread self.new) }
        // Where the disk held a whole list when the store was opened, another end of the history's whole list was read, or of that
        // with the undecided entry. It starts as that list did.
        ensures decided { D.honest → IfOk result (λ reread. (w : WholeList K.State K.Entry) → GoesOnFrom self.old w → IsDecided K.kind w.start (view self.old).history (view self.old).undecided (history_read reread)) }
        ensures stands { D.honest → IfOk result (λ reread. StandsFrom K.kind reread.version (disk_state self.old).content (history_read reread)) }
        ensures reads { D.honest → OnOk result (OnlyReads (disk_state self.old) (disk_state self.new)) }
        ensures refused { D.honest → (w : WholeList K.State K.Entry) → GoesOnFrom self.old w → IfErr result (λ e. (e ≡ MountError.Fault) ⊎ (e ≡ MountError.NoMemory)) }
        ensures fault { result ≡ Err MountError.Fault → Rose (view self.old).faults (view self.new).faults }
        ensures leaves { D.honest → LeavesHistories self.old self.new }
    {
        self.is_open = false;
        let (start, payloads) = self.journal.remount_tail(self.alloc)?;
        // the payloads end at an offset
        let _gate = self.journal.gate();
        let (version, slot) = (self.journal.version(), self.journal.slot());
        replay::<K>(self.alloc, version, slot, start, &payloads)
    }

    /// Opens the store with what `reread` found. It makes no device call and can't fail. What was accepted before is
    /// counted as found.
    pub fn open(&mut self, reread: Reread<K>)
        requires read { IsReread reread self.old }
        ensures opens { Opens K.kind (IsTold self.old) (view self.old) (view self.new) }
        ensures opened { IsOpened K.kind (view self.new) }
        ensures history { (view self.new).history ≡ history_read reread }
        ensures found { found_of self.new ≡ read_of reread }
        ensures nothing_added { added_of self.new ≡ [] }
        ensures behind { behind_of self.new ≡ length (read_of reread) }
        ensures begins { slot_in_use (slots_of self.new) ≡ None → BeginsNew K.kind (version_of self.new) (view self.new).history }
        ensures bytes { D.honest → opened_of self.new ≡ (disk_state self.old).content }
        ensures stands { D.honest → StandsFrom K.kind (version_of self.new) (disk_state self.new).content (view self.new).history }
        ensures disk { disk_of self.new ≡ disk_of self.old }
        ensures leaves { D.honest → LeavesHistories self.old self.new }
    {
        let Reread {
            version,
            base_count,
            base,
            entries,
            count,
            state,
        } = reread;
        self.version = version;
        self.base_count = base_count;
        self.base = base;
        self.count = count;
        self.snapshot = base_count;
        self.state = state;
        self.opened = Snapshot::of(&self.journal);
        self.found = entries;
        self.added = Log::new();
        settle(&mut self.undecided);
        self.is_open = true;
    }
}

// No entry is undecided any more.
fn settle<E: Drop>(undecided: &mut Option<E>)
    ensures { undecided.new ≡ None }
{
    drop(mem::replace(undecided, None));
}
