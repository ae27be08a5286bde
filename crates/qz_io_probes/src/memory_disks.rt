//! Disks in memory, and those that fail by a rule.
ghost use Rattle.std.specs.Prelude.{◌≡◌, ◌+◌, OnOk};
ghost use Rattle.qz_civil.specs.Causes.{HasCause};
ghost use Rattle.qz_disk.specs.Disk.{Syncs, Restarts};
ghost use Rattle.qz_disk.specs.Failing.{FailsOrPasses, LiftsTheCut};
ghost use Rattle.qz_disk.specs.Recorded.{Records, RecordsRestart, record_of, state_of, length_of};
ghost use Rattle.qz_disk.specs.declared.calls.Call.TheVariants.{Sync};

use qz_civil::Failed;
use qz_disk::{CutDisk, Disk, FaultDisk, MemDisk};

/// Syncs a disk in memory, which records that.
pub fn memory_sync(disk: &mut MemDisk) -> Result<(), Failed>
    ensures length { OnOk result (length_of disk.new ≡ length_of disk.old) }
    ensures told { Unit {0} → Syncs result (state_of disk.old) (state_of disk.new) }
    ensures recorded { Records Sync result (record_of disk.old) (record_of disk.new) }
{
    disk.sync()
}

/// Restarts a disk in memory, which records what comes up.
pub fn memory_restart(disk: &mut MemDisk) -> Result<(), Failed>
    ensures told { Unit {0} → Restarts result (state_of disk.old) (state_of disk.new) }
    ensures recorded { RecordsRestart result (record_of disk.old) (record_of disk.new) }
{
    disk.restart()
}

/// Syncs a disk whose calls fail by a list.
pub fn failing_sync<D: Disk>(outer: &mut FaultDisk<D>) -> Result<(), Failed>
    ensures cause { HasCause (D.faults outer.old.inner + outer.old.failures) (D.faults outer.new.inner + outer.new.failures) result }
    ensures told { D.honest → Syncs result (D.state outer.old.inner) (D.state outer.new.inner) }
    ensures call { FailsOrPasses D.faults result outer.old outer.new }
{
    outer.sync()
}

/// Restarts a disk that is cut.
pub fn cut_restart<D: Disk>(outer: &mut CutDisk<D>) -> Result<(), Failed>
    ensures cause { HasCause (D.faults outer.old.inner + outer.old.failures) (D.faults outer.new.inner + outer.new.failures) result }
    ensures told { D.honest → Restarts result (D.state outer.old.inner) (D.state outer.new.inner) }
    ensures call { LiftsTheCut D.faults result outer.old outer.new }
{
    outer.restart()
}
