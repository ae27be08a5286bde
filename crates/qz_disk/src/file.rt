//! A disk over an open file.
ghost use Rattle.std.specs.Prelude.{◌≡◌, ◌≤◌, ◌+◌, ◌<◌, ◌^◌, length, max, Ok, OnOk, OnErr, IfOk};
ghost use Rattle.qz_civil.specs.Causes.{HasCause};
ghost use Rattle.qz_disk.specs.Disk.{Measured, Reads, Writes, Syncs, Restarts};
ghost use Rattle.qz_disk.specs.Handle.{ReadsPart, WritesPart};

use crate::{Disk, FileHandle, HandleError};
use qz_civil::Failed;

/// How often a call is made that signals interrupt, before that counts as a failure: once, and a thousand times again.
const TRIES: u32 = 1001;

/// A disk over an open file. It reads and writes on until all is done, and repeats a call that a signal interrupted, at
/// most 1000 times. It makes no call again that failed.
#[derive(Drop)]
pub struct FileDisk<H: FileHandle> {
    handle: H,
}

impl<H: FileHandle> FileDisk<H> {
    pub fn new(handle: H) -> Self
        ensures { result ≡ record { handle = handle } }
    {
        FileDisk { handle }
    }
}

fn measure<H: FileHandle>(handle: &mut H) -> Result<u64, Failed>
    ensures length { IfOk result (λ n. n ≡ H.len handle.new) }
    ensures length_err { OnErr result (H.len handle.new ≡ H.len handle.old) }
    ensures cause { HasCause (H.faults handle.old) (H.faults handle.new) result }
    ensures told { H.honest → Measured (H.state handle.old) (H.state handle.new) }
{
    for _try in 0..TRIES {
        match handle.len() {
            Ok(len) => return Ok(len),
            Err(HandleError::Interrupted) => {}
            Err(HandleError::Failed) => return Err(Failed),
        }
    }
    Err(Failed)
}

fn read_part<H: FileHandle>(handle: &mut H, at: u64, into: &mut [u8]) -> Result<usize, Failed>
    requires { at + length into.old ≤ H.len handle.old }
    ensures bound { IfOk result (λ n. n ≤ length into.old) }
    ensures some { 0 < length into.old → IfOk result (λ n. 0 < n) }
    ensures fits { IfOk result (λ n. at + n < 2 ^ 64) }
    ensures length { H.len handle.new ≡ H.len handle.old }
    ensures cause { HasCause (H.faults handle.old) (H.faults handle.new) result }
    ensures told { H.honest → ReadsPart at result into.new (H.state handle.old) (H.state handle.new) }
{
    for _try in 0..TRIES {
        match handle.read_at(at, into) {
            Ok(count) => return Ok(count),
            Err(HandleError::Interrupted) => {}
            Err(HandleError::Failed) => return Err(Failed),
        }
    }
    Err(Failed)
}

fn read_whole<H: FileHandle>(handle: &mut H, at: u64, into: &mut [u8]) -> Result<(), Failed>
    requires { at + length into.old ≤ H.len handle.old }
    ensures length { H.len handle.new ≡ H.len handle.old }
    ensures cause { HasCause (H.faults handle.old) (H.faults handle.new) result }
    ensures told { H.honest → Reads at result into.new (H.state handle.old) (H.state handle.new) }
{
    let mut done = 0;
    while done < into.len() {
        done += read_part(handle, at + done as u64, &mut into[done..])?;
    }
    Ok(())
}

fn write_part<H: FileHandle>(handle: &mut H, at: u64, from: &[u8]) -> Result<usize, Failed>
    requires { at ≤ H.len handle.old }
    ensures bound { IfOk result (λ n. n ≤ length from.now) }
    ensures some { 0 < length from.now → IfOk result (λ n. 0 < n) }
    ensures fits { IfOk result (λ n. at + n < 2 ^ 64) }
    ensures length { IfOk result (λ n. H.len handle.new ≡ max (H.len handle.old) (at + n)) }
    ensures cause { HasCause (H.faults handle.old) (H.faults handle.new) result }
    ensures told { H.honest → WritesPart at from.now result (H.state handle.old) (H.state handle.new) }
{
    for _try in 0..TRIES {
        match handle.write_at(at, from) {
            Ok(count) => return Ok(count),
            Err(HandleError::Interrupted) => {}
            Err(HandleError::Failed) => return Err(Failed),
        }
    }
    Err(Failed)
}

fn write_whole<H: FileHandle>(handle: &mut H, at: u64, from: &[u8]) -> Result<(), Failed>
    requires { at ≤ H.len handle.old }
    ensures length { OnOk result (H.len handle.new ≡ max (H.len handle.old) (at + length from.now)) }
    ensures cause { HasCause (H.faults handle.old) (H.faults handle.new) result }
    ensures told { H.honest → Writes at from.now result (H.state handle.old) (H.state handle.new) }
{
    let mut done = write_part(handle, at, from)?;
    while done < from.len() {
        done += write_part(handle, at + done as u64, &from[done..])?;
    }
    Ok(())
}

fn settle<H: FileHandle>(handle: &mut H) -> Result<(), Failed>
    ensures length { OnOk result (H.len handle.new ≡ H.len handle.old) }
    ensures cause { HasCause (H.faults handle.old) (H.faults handle.new) result }
    ensures told { H.honest → Syncs result (H.state handle.old) (H.state handle.new) }
{
    for _try in 0..TRIES {
        match handle.sync() {
            Ok(()) => return Ok(()),
            Err(HandleError::Interrupted) => {}
            Err(HandleError::Failed) => return Err(Failed),
        }
    }
    Err(Failed)
}

fn reopen<H: FileHandle>(handle: &mut H) -> Result<(), Failed>
    ensures cause { HasCause (H.faults handle.old) (H.faults handle.new) result }
    ensures told { H.honest → Restarts result (H.state handle.old) (H.state handle.new) }
{
    for _try in 0..TRIES {
        match handle.restart() {
            Ok(()) => return Ok(()),
            Err(HandleError::Interrupted) => {}
            Err(HandleError::Failed) => return Err(Failed),
        }
    }
    Err(Failed)
}

impl<H: FileHandle> Disk for FileDisk<H> {
    ghost honest = { H.honest };

    ghost len = { λ d. H.len d.handle };

    ghost faults = { λ d. H.faults d.handle };

    ghost state = { λ d. H.state d.handle };

    ghost lawful = { λ h d. H.lawful h d.handle };

    ghost whole = { λ h d. H.whole h d.handle };

    fn len(&mut self) -> Result<u64, Failed> {
        measure(&mut self.handle)
    }

    fn read(&mut self, at: u64, into: &mut [u8]) -> Result<(), Failed> {
        read_whole(&mut self.handle, at, into)
    }

    fn write_at(&mut self, at: u64, from: &[u8]) -> Result<(), Failed> {
        write_whole(&mut self.handle, at, from)
    }

    fn sync(&mut self) -> Result<(), Failed> {
        settle(&mut self.handle)
    }

    fn restart(&mut self) -> Result<(), Failed> {
        reopen(&mut self.handle)
    }
}
