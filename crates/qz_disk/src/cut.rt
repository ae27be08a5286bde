//! A disk that stops, as at a power failure.
ghost use Rattle.std.specs.Prelude.{◌≡◌, ◌≢◌, ◌+◌, ◌-◌, ◌^◌, ◌≤◌, min, max, ℕ, Option, Some, None, length, OnOk, OnErr, IfOk, true, false, ◌↔◌};
ghost use Rattle.std.specs.Bool.{OnTrue};
ghost use Rattle.qz_civil.specs.Causes.{HasCause, Rose};
ghost use Rattle.qz_disk.specs.Counts.{one_less, counted};
ghost use Rattle.qz_disk.specs.Disk.{Measured, Reads, Writes, Syncs, Restarts};

use crate::Disk;
use qz_civil::Failed;

/// Passes a number of calls on to the disk within, and then fails every call until `restart`. That call and all after
/// it are passed on. A call that it fails does nothing to the disk within.
#[derive(Drop)]
pub struct CutDisk<D: Disk> {
    inner: D,
    // None, where all calls pass
    passes: Option<u64>,
    failures: u64,
}

impl<D: Disk> CutDisk<D> {
    /// A disk whose first `passes` calls pass.
    pub fn new(inner: D, passes: u64) -> Self
        ensures { result ≡ record { inner = inner; passes = Some passes; failures = 0 } }
    {
        CutDisk {
            inner,
            passes: Some(passes),
            failures: 0,
        }
    }
}

// Counts a call. Whether it has to fail.
fn is_cut(passes: &mut Option<u64>, failures: &mut u64) -> bool
    ensures cut { result ≡ true → (passes.old ≡ Some 0) × (failures.new ≡ counted failures.old) }
    ensures passed { result ≡ false → (passes.old ≢ Some 0) × (failures.new ≡ failures.old) }
    ensures passes { passes.new ≡ one_less passes.old }
    ensures rose { OnTrue result (Rose failures.old failures.new) }
    ensures later { failures.old ≤ failures.new }
{
    if let Some(left) = passes {
        if *left == 0 {
            *failures = failures.saturating_add(1);
            return true;
        }
        *left -= 1;
    }
    false
}

#[tactic(auto, using(crate::proofs::Causes::own_failures, crate::proofs::Moments::no_call))]
impl<D: Disk> Disk for CutDisk<D> {
    ghost use Rattle.qz_disk.specs.Failing.{CutsOrPasses, LiftsTheCut};

    ghost honest = { D.honest };

    ghost len = { λ d. D.len d.inner };

    ghost faults = { λ d. D.faults d.inner + d.failures };

    ghost state = { λ d. D.state d.inner };

    ghost lawful = { λ h d. D.lawful h d.inner };

    ghost whole = { λ h d. D.whole h d.inner };

    fn len(&mut self) -> Result<u64, Failed>
        ensures length { IfOk result (λ n. n ≡ D.len self.new.inner) }
        ensures length_err { OnErr result (D.len self.new.inner ≡ D.len self.old.inner) }
        ensures cause { HasCause (D.faults self.old.inner + self.old.failures) (D.faults self.new.inner + self.new.failures) result }
        ensures told { D.honest → Measured (D.state self.old.inner) (D.state self.new.inner) }
        ensures call { CutsOrPasses D.faults result self.old self.new }
    {
        if is_cut(&mut self.passes, &mut self.failures) {
            return Err(Failed);
        }
        self.inner.len()
    }

    fn read(&mut self, at: u64, into: &mut [u8]) -> Result<(), Failed>
        requires { at + length into.old ≤ D.len self.old.inner }
        ensures length { D.len self.new.inner ≡ D.len self.old.inner }
        ensures cause { HasCause (D.faults self.old.inner + self.old.failures) (D.faults self.new.inner + self.new.failures) result }
        ensures told { D.honest → Reads at result into.new (D.state self.old.inner) (D.state self.new.inner) }
        ensures call { CutsOrPasses D.faults result self.old self.new }
    {
        if is_cut(&mut self.passes, &mut self.failures) {
            return Err(Failed);
        }
        self.inner.read(at, into)
    }

    fn write_at(&mut self, at: u64, from: &[u8]) -> Result<(), Failed>
        requires { at ≤ D.len self.old.inner }
        ensures length { OnOk result (D.len self.new.inner ≡ max (D.len self.old.inner) (at + length from.now)) }
        ensures cause { HasCause (D.faults self.old.inner + self.old.failures) (D.faults self.new.inner + self.new.failures) result }
        ensures told { D.honest → Writes at from.now result (D.state self.old.inner) (D.state self.new.inner) }
        ensures call { CutsOrPasses D.faults result self.old self.new }
    {
        if is_cut(&mut self.passes, &mut self.failures) {
            return Err(Failed);
        }
        self.inner.write_at(at, from)
    }

    fn sync(&mut self) -> Result<(), Failed>
        ensures length { OnOk result (D.len self.new.inner ≡ D.len self.old.inner) }
        ensures cause { HasCause (D.faults self.old.inner + self.old.failures) (D.faults self.new.inner + self.new.failures) result }
        ensures told { D.honest → Syncs result (D.state self.old.inner) (D.state self.new.inner) }
        ensures call { CutsOrPasses D.faults result self.old self.new }
    {
        if is_cut(&mut self.passes, &mut self.failures) {
            return Err(Failed);
        }
        self.inner.sync()
    }

    fn restart(&mut self) -> Result<(), Failed>
        ensures cause { HasCause (D.faults self.old.inner + self.old.failures) (D.faults self.new.inner + self.new.failures) result }
        ensures told { D.honest → Restarts result (D.state self.old.inner) (D.state self.new.inner) }
        ensures call { LiftsTheCut D.faults result self.old self.new }
    {
        self.passes = None;
        self.inner.restart()
    }
}
