//! Disks of any kind.
ghost use Rattle.std.specs.Prelude.{◌≡◌, ◌+◌, ◌≤◌, max, length, OnOk};
ghost use Rattle.qz_civil.specs.Causes.{HasCause};
ghost use Rattle.qz_disk.specs.Disk.{Reads, Writes, Syncs, Restarts};

use qz_civil::Failed;
use qz_disk::Disk;

/// Reads from a disk.
pub fn read_at<D: Disk>(disk: &mut D, at: u64, into: &mut [u8]) -> Result<(), Failed>
    requires { at + length into.old ≤ D.len disk.old }
    ensures length { D.len disk.new ≡ D.len disk.old }
    ensures cause { HasCause (D.faults disk.old) (D.faults disk.new) result }
    ensures told { D.honest → Reads at result into.new (D.state disk.old) (D.state disk.new) }
{
    disk.read(at, into)
}

/// Writes to a disk.
pub fn write_at<D: Disk>(disk: &mut D, at: u64, from: &[u8]) -> Result<(), Failed>
    requires { at ≤ D.len disk.old }
    ensures length { OnOk result (D.len disk.new ≡ max (D.len disk.old) (at + length from.now)) }
    ensures cause { HasCause (D.faults disk.old) (D.faults disk.new) result }
    ensures told { D.honest → Writes at from.now result (D.state disk.old) (D.state disk.new) }
{
    disk.write_at(at, from)
}

/// Syncs a disk.
pub fn sync<D: Disk>(disk: &mut D) -> Result<(), Failed>
    ensures length { OnOk result (D.len disk.new ≡ D.len disk.old) }
    ensures cause { HasCause (D.faults disk.old) (D.faults disk.new) result }
    ensures told { D.honest → Syncs result (D.state disk.old) (D.state disk.new) }
{
    disk.sync()
}

/// Lets a disk crash, and brings it up again.
pub fn restart<D: Disk>(disk: &mut D) -> Result<(), Failed>
    ensures cause { HasCause (D.faults disk.old) (D.faults disk.new) result }
    ensures told { D.honest → Restarts result (D.state disk.old) (D.state disk.new) }
{
    disk.restart()
}
