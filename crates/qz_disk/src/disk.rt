//! The trait of all disks.
ghost use Rattle.std.specs.Prelude.{◌≡◌, ◌+◌, ◌≤◌, max, ℕ, length, IfOk, OnOk, OnErr};
ghost use Rattle.qz_civil.specs.Causes.{HasCause};
ghost use Rattle.qz_disk.specs.Disk.{DiskState, IsLawful, Measured, Reads, Writes, Syncs, Restarts};

use qz_civil::Failed;

/// A disk, or a file on one. Offsets and lengths are in bytes.
///
/// Each call answers `Failed` only if the count of faults rose in it. What the content is, and what a crash may leave
/// of it, is known of the honest types alone, by the clauses called `told`. A real file isn't one of them.
pub trait Disk: Drop {
    /// Whether disks of this type do what the clauses called `told` say.
    ghost honest: { Type 0 };

    /// The length, which is known of every disk.
    ghost len: { Self → ℕ };

    /// How often the disk has failed. The count never falls.
    ghost faults: { Self → ℕ };

    /// What an honest disk is at this moment.
    ghost state: { Self → DiskState };

    /// The length. A caller asks for it before its first read or write, and again after a write or a sync that failed
    /// and after a restart: these may leave any length.
    fn len(&mut self) -> Result<u64, Failed>
        ensures length { IfOk result (λ n. n ≡ len self.new) }
        ensures length_err { OnErr result (len self.new ≡ len self.old) }
        ensures cause { HasCause (faults self.old) (faults self.new) result }
        ensures told { honest → Measured (state self.old) (state self.new) };

    /// Fills the buffer with the bytes from this offset on. A read that failed may have filled a part of it.
    fn read(&mut self, at: u64, into: &mut [u8]) -> Result<(), Failed>
        requires { at + length into.old ≤ len self.old }
        ensures length { len self.new ≡ len self.old }
        ensures cause { HasCause (faults self.old) (faults self.new) result }
        ensures told { honest → Reads at result into.new (state self.old) (state self.new) };

    /// Writes over what is there, and past the end. Until a sync, a crash may leave any bytes in the range. A write
    /// that failed may have left any bytes there already.
    fn write_at(&mut self, at: u64, from: &[u8]) -> Result<(), Failed>
        requires { at ≤ len self.old }
        ensures length { OnOk result (len self.new ≡ max (len self.old) (at + length from.now)) }
        ensures cause { HasCause (faults self.old) (faults self.new) result }
        ensures told { honest → Writes at from.now result (state self.old) (state self.new) };

    /// After it, a crash leaves what a read gives. A sync that failed may have lost what was written since the last
    /// one, and a later sync that answers Ok doesn't bring it back.
    fn sync(&mut self) -> Result<(), Failed>
        ensures length { OnOk result (len self.new ≡ len self.old) }
        ensures cause { HasCause (faults self.old) (faults self.new) result }
        ensures told { honest → Syncs result (state self.old) (state self.new) };

    /// A crash, and what comes up after it: one of the images is the content.
    fn restart(&mut self) -> Result<(), Failed>
        ensures cause { HasCause (faults self.old) (faults self.new) result }
        ensures told { honest → Restarts result (state self.old) (state self.new) };

    ghost lawful: { honest → (disk : Self) → IsLawful (state disk) };

    ghost whole: { honest → (disk : Self) → len disk ≡ length (state disk).content };
}
