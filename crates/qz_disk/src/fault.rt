//! A disk whose calls fail by a list.
ghost use Rattle.std.specs.Prelude.{◌≡◌, ◌+◌, ◌-◌, ◌^◌, ◌≤◌, min, max, ℕ, length, OnOk, OnErr, IfOk, true, false, ◌↔◌};
ghost use Rattle.std.specs.Bool.{OnTrue};
ghost use Rattle.qz_civil.specs.Causes.{HasCause, Rose};
ghost use Rattle.qz_disk.specs.Counts.{is_listed, counted};
ghost use Rattle.qz_disk.specs.Disk.{Measured, Reads, Writes, Syncs, Restarts};

use crate::Disk;
use qz_civil::{Failed, List};

/// Fails the calls with the listed numbers, and passes all others on to the disk within. Calls of any kind count, from
/// 1. A call that it fails does nothing to the disk within.
#[derive(Drop)]
pub struct FaultDisk<D: Disk> {
    inner: D,
    failing: List<u64>,
    calls: u64,
    failures: u64,
}

impl<D: Disk> FaultDisk<D> {
    /// A disk whose calls with these numbers fail.
    pub fn new(inner: D, failing: List<u64>) -> Self
        ensures { result ≡ record { inner = inner; failing = failing; calls = 0; failures = 0 } }
    {
        FaultDisk {
            inner,
            failing,
            calls: 0,
            failures: 0,
        }
    }
}

// Counts a call. Whether it has to fail.
pub(crate) fn has_to_fail(failing: &List<u64>, calls: &mut u64, failures: &mut u64) -> bool
    ensures calls { calls.new ≡ counted calls.old }
    ensures value { result ≡ is_listed failing.now (counted calls.old) }
    ensures listed { result ≡ true → failures.new ≡ counted failures.old }
    ensures passed { result ≡ false → failures.new ≡ failures.old }
    ensures rose { OnTrue result (Rose failures.old failures.new) }
    ensures later { failures.old ≤ failures.new }
{
    *calls = calls.saturating_add(1);
    let listed = failing.as_slice().contains(calls);
    if listed {
        *failures = failures.saturating_add(1);
    }
    listed
}

#[tactic(auto, using(crate::proofs::Causes::own_failures, crate::proofs::Moments::no_call))]
impl<D: Disk> Disk for FaultDisk<D> {
    ghost use Rattle.qz_disk.specs.Failing.{FailsOrPasses};

    ghost honest = { D.honest };

    ghost len = { λ d. D.len d.inner };

    ghost faults = { λ d. D.faults d.inner + d.failures };

    ghost state = { λ d. D.state d.inner };

    ghost lawful = { λ h d. D.lawful h d.inner };

    ghost whole = { λ h d. D.whole h d.inner };

    fn len(&mut self) -> Result<u64, Failed>
        ensures length { IfOk result (λ n. n ≡ D.len self.new.inner) }
        ensures length_err { OnErr result (D.len self.new.inner ≡ D.len self.old.inner) }
        ensures cause { HasCause (D.faults self.old.inner + self.old.failures) (D.faults self.new.inner + self.new.failures) result }
        ensures told { D.honest → Measured (D.state self.old.inner) (D.state self.new.inner) }
        ensures call { FailsOrPasses D.faults result self.old self.new }
    {
        if has_to_fail(&self.failing, &mut self.calls, &mut self.failures) {
            return Err(Failed);
        }
        self.inner.len()
    }

    fn read(&mut self, at: u64, into: &mut [u8]) -> Result<(), Failed>
        requires { at + length into.old ≤ D.len self.old.inner }
        ensures length { D.len self.new.inner ≡ D.len self.old.inner }
        ensures cause { HasCause (D.faults self.old.inner + self.old.failures) (D.faults self.new.inner + self.new.failures) result }
        ensures told { D.honest → Reads at result into.new (D.state self.old.inner) (D.state self.new.inner) }
        ensures call { FailsOrPasses D.faults result self.old self.new }
    {
        if has_to_fail(&self.failing, &mut self.calls, &mut self.failures) {
            return Err(Failed);
        }
        self.inner.read(at, into)
    }

    fn write_at(&mut self, at: u64, from: &[u8]) -> Result<(), Failed>
        requires { at ≤ D.len self.old.inner }
        ensures length { OnOk result (D.len self.new.inner ≡ max (D.len self.old.inner) (at + length from.now)) }
        ensures cause { HasCause (D.faults self.old.inner + self.old.failures) (D.faults self.new.inner + self.new.failures) result }
        ensures told { D.honest → Writes at from.now result (D.state self.old.inner) (D.state self.new.inner) }
        ensures call { FailsOrPasses D.faults result self.old self.new }
    {
        if has_to_fail(&self.failing, &mut self.calls, &mut self.failures) {
            return Err(Failed);
        }
        self.inner.write_at(at, from)
    }

    fn sync(&mut self) -> Result<(), Failed>
        ensures length { OnOk result (D.len self.new.inner ≡ D.len self.old.inner) }
        ensures cause { HasCause (D.faults self.old.inner + self.old.failures) (D.faults self.new.inner + self.new.failures) result }
        ensures told { D.honest → Syncs result (D.state self.old.inner) (D.state self.new.inner) }
        ensures call { FailsOrPasses D.faults result self.old self.new }
    {
        if has_to_fail(&self.failing, &mut self.calls, &mut self.failures) {
            return Err(Failed);
        }
        self.inner.sync()
    }

    fn restart(&mut self) -> Result<(), Failed>
        ensures cause { HasCause (D.faults self.old.inner + self.old.failures) (D.faults self.new.inner + self.new.failures) result }
        ensures told { D.honest → Restarts result (D.state self.old.inner) (D.state self.new.inner) }
        ensures call { FailsOrPasses D.faults result self.old self.new }
    {
        if has_to_fail(&self.failing, &mut self.calls, &mut self.failures) {
            return Err(Failed);
        }
        self.inner.restart()
    }
}
