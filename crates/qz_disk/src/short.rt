//! An open file whose calls are cut short.
ghost use Rattle.std.specs.Prelude.{◌≡◌, ◌+◌, ◌<◌, ◌≤◌, ◌^◌, max, length, Err, IfOk, OnOk, OnErr};
ghost use Rattle.qz_civil.specs.Causes.{HasCause};
ghost use Rattle.qz_disk.specs.Disk.{Measured, Syncs, Restarts};
ghost use Rattle.qz_disk.specs.Handle.{ReadsPart, WritesPart};

use crate::fault::has_to_fail;
use crate::{Disk, FileHandle, HandleError};
use qz_civil::{Failed, List};

/// An open file over a disk, for tests. A read or a write moves a limited number of bytes, and the calls with the listed
/// numbers are interrupted. Calls of any kind count, from 1. All others are passed on to the disk.
#[derive(Drop)]
pub struct ShortHandle<D: Disk> {
    disk: D,
    most: usize,
    interrupted: List<u64>,
    calls: u64,
    faults: u64,
    ghost some: { 0 < most },
}

impl<D: Disk> ShortHandle<D> {
    /// A file that moves at most `most` bytes in one call.
    pub fn new(disk: D, most: usize, interrupted: List<u64>) -> Self
        requires { 0 < most }
        ensures disk { result.disk ≡ disk }
        ensures most { result.most ≡ most }
        ensures interrupted { (result.interrupted ≡ interrupted) × (result.calls ≡ 0) }
        ensures faults { result.faults ≡ 0 }
    {
        ShortHandle {
            disk,
            most,
            interrupted,
            calls: 0,
            faults: 0,
        }
    }

    // Counts a call that must be interrupted or passes the last offset.
    fn begin(&mut self, at: u64, count: usize) -> Result<(), HandleError>
        ensures fits { OnOk result (at + count < 2 ^ 64) }
        ensures disk { self.new.disk ≡ self.old.disk }
        ensures most { self.new.most ≡ self.old.most }
        ensures cause { HasCause self.old.faults self.new.faults result }
    {
        if has_to_fail(&self.interrupted, &mut self.calls, &mut self.faults) {
            return Err(HandleError::Interrupted);
        }
        if at.checked_add(count as u64).is_none() {
            self.faults = self.faults.saturating_add(1);
            return Err(HandleError::Failed);
        }
        Ok(())
    }
}

#[tactic(auto, using(crate::proofs::Causes::own_failures, crate::proofs::ShortCalls::passed_on))]
impl<D: Disk> FileHandle for ShortHandle<D> {
    ghost use Rattle.qz_disk.specs.declared.handle.HandleError.TheVariants.{Interrupted};

    ghost honest = { D.honest };

    ghost len = { λ f. D.len f.disk };

    ghost faults = { λ f. D.faults f.disk + f.faults };

    ghost state = { λ f. D.state f.disk };

    ghost lawful = { λ h f. D.lawful h f.disk };

    ghost whole = { λ h f. D.whole h f.disk };

    fn len(&mut self) -> Result<u64, HandleError> {
        self.begin(0, 0)?;
        match self.disk.len() {
            Ok(len) => Ok(len),
            Err(Failed) => Err(HandleError::Failed),
        }
    }

    fn read_at(&mut self, at: u64, into: &mut [u8]) -> Result<usize, HandleError> {
        let count = into.len().min(self.most);
        self.begin(at, count)?;
        match self.disk.read(at, &mut into[..count]) {
            Ok(()) => Ok(count),
            Err(Failed) => Err(HandleError::Failed),
        }
    }

    fn write_at(&mut self, at: u64, from: &[u8]) -> Result<usize, HandleError> {
        let count = from.len().min(self.most);
        self.begin(at, count)?;
        match self.disk.write_at(at, &from[..count]) {
            Ok(()) => Ok(count),
            Err(Failed) => Err(HandleError::Failed),
        }
    }

    fn sync(&mut self) -> Result<(), HandleError> {
        self.begin(0, 0)?;
        match self.disk.sync() {
            Ok(()) => Ok(()),
            Err(Failed) => Err(HandleError::Failed),
        }
    }

    fn restart(&mut self) -> Result<(), HandleError> {
        self.begin(0, 0)?;
        match self.disk.restart() {
            Ok(()) => Ok(()),
            Err(Failed) => Err(HandleError::Failed),
        }
    }
}
