//! The trait of open files.
ghost use Rattle.std.specs.Prelude.{◌≡◌, ◌+◌, ◌<◌, ◌≤◌, ◌^◌, max, ℕ, length, IfOk, OnErr, OnOk, Err};
ghost use Rattle.qz_civil.specs.Causes.{HasCause};
ghost use Rattle.qz_disk.specs.Disk.{DiskState, IsLawful, Measured, Syncs, Restarts};
ghost use Rattle.qz_disk.specs.Handle.{ReadsPart, WritesPart};

/// Why a call of an open file failed.
#[derive(Clone, Copy, PartialEq, Eq, Debug)]
pub enum HandleError {
    /// A signal interrupted the call before it did anything. The same call may be made again.
    Interrupted,
    Failed,
}

/// An open file as a system gives it: a read or a write may do a part of what it is asked, and any call may be
/// interrupted. Offsets and lengths are in bytes.
///
/// Each call fails only if the count of faults rose in it; interruptions count too. What the content is, and what a
/// crash may leave of it, is known of the honest types alone, by the clauses called `told`.
pub trait FileHandle: Drop {
    /// Whether files of this type do what the clauses called `told` say.
    ghost honest: { Type 0 };

    /// The length, which is known of every file.
    ghost len: { Self → ℕ };

    /// How often a call failed or was interrupted. The count never falls.
    ghost faults: { Self → ℕ };

    /// What an honest file is at this moment.
    ghost state: { Self → DiskState };

    fn len(&mut self) -> Result<u64, HandleError>
        ensures length { IfOk result (λ n. n ≡ len self.new) }
        ensures length_err { OnErr result (len self.new ≡ len self.old) }
        ensures cause { HasCause (faults self.old) (faults self.new) result }
        ensures told { honest → Measured (state self.old) (state self.new) };

    /// Fills the front of the buffer with the bytes from this offset on, and answers how many: at least one, if the
    /// buffer isn't empty.
    fn read_at(&mut self, at: u64, into: &mut [u8]) -> Result<usize, HandleError>
        requires { at + length into.old ≤ len self.old }
        ensures bound { IfOk result (λ n. n ≤ length into.old) }
        ensures some { 0 < length into.old → IfOk result (λ n. 0 < n) }
        ensures fits { IfOk result (λ n. at + n < 2 ^ 64) }
        ensures length { len self.new ≡ len self.old }
        ensures cause { HasCause (faults self.old) (faults self.new) result }
        ensures interrupted { honest → result ≡ Err HandleError.Interrupted → Measured (state self.old) (state self.new) }
        ensures told { honest → ReadsPart at result into.new (state self.old) (state self.new) };

    /// Writes bytes of the front of the buffer, and answers how many: at least one, if the buffer isn't empty.
    fn write_at(&mut self, at: u64, from: &[u8]) -> Result<usize, HandleError>
        requires { at ≤ len self.old }
        ensures bound { IfOk result (λ n. n ≤ length from.now) }
        ensures some { 0 < length from.now → IfOk result (λ n. 0 < n) }
        ensures fits { IfOk result (λ n. at + n < 2 ^ 64) }
        ensures length { IfOk result (λ n. len self.new ≡ max (len self.old) (at + n)) }
        ensures interrupted_length { result ≡ Err HandleError.Interrupted → len self.new ≡ len self.old }
        ensures cause { HasCause (faults self.old) (faults self.new) result }
        ensures interrupted { honest → result ≡ Err HandleError.Interrupted → Measured (state self.old) (state self.new) }
        ensures told { honest → WritesPart at from.now result (state self.old) (state self.new) };

    /// Makes what was written outlast a crash.
    fn sync(&mut self) -> Result<(), HandleError>
        ensures length { OnOk result (len self.new ≡ len self.old) }
        ensures interrupted_length { result ≡ Err HandleError.Interrupted → len self.new ≡ len self.old }
        ensures cause { HasCause (faults self.old) (faults self.new) result }
        ensures interrupted { honest → result ≡ Err HandleError.Interrupted → Measured (state self.old) (state self.new) }
        ensures told { honest → Syncs result (state self.old) (state self.new) };

    /// Opens the file anew, as after a crash.
    fn restart(&mut self) -> Result<(), HandleError>
        ensures cause { HasCause (faults self.old) (faults self.new) result }
        ensures interrupted { honest → result ≡ Err HandleError.Interrupted → Measured (state self.old) (state self.new) }
        ensures told { honest → Restarts result (state self.old) (state self.new) };

    ghost lawful: { honest → (handle : Self) → IsLawful (state handle) };

    ghost whole: { honest → (handle : Self) → len handle ≡ length (state handle).content };
}
