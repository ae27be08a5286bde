//! A file of the system.
ghost use Rattle.std.specs.Prelude.{◌≡◌, ◌≤◌, ◌+◌, ◌<◌, ◌^◌, length, max, is_err, true, Err, OnOk, OnErr, IfOk, if◌then◌else◌};
ghost use Rattle.qz_civil.specs.Causes.{HasCause};
ghost use Rattle.qz_disk.specs.Counts.{counted};
ghost use Rattle.qz_disk.specs.Disk.{untold};
ghost use Rattle.qz_disk.specs.System.{IsRefusedIf, KeepsFailing};

use crate::{FileHandle, HandleError};
use qz_civil::Text;
use std::fs::{File, OpenFile, OpenOptions};
use std::io;
use std::os::unix::fs::FileExt;
use std::path::Path;
use std::rt::HostRuntime;

/// A file of the system, named by its path. Its length and its failures are known, and nothing of its content.
///
/// The file is opened at the first call, and locked until it is closed: where another program holds the lock, the call
/// fails. A missing file reads as an empty one, and is made at the first write. The first sync of an open file also syncs
/// its folder, whichever run made the file: POSIX keeps a new name over a crash only then. A read that gives nothing, and
/// a write that takes nothing, is a failure. After a write or a sync that failed the length is unknown, and passes for 0
/// until `len` is called. `restart` closes the file and opens it again.
///
/// After a sync that failed, Linux may show what never reached the device, and call a later sync done. So each later call
/// of this object fails, `restart` too. A new object over the same path doesn't know of it: only what is read after the
/// file system was mounted again, or after its cache was dropped, is what the device has.
#[derive(Drop)]
pub struct SystemFile {
    rt: HostRuntime,
    path: Text,
    // None before the first call, and while there is no such file
    file: Option<File>,
    // The folder was synced since the file was opened.
    is_named: bool,
    // A sync failed, so that no later call can be believed.
    is_lost: bool,
    len: u64,
    faults: u64,
}

impl SystemFile {
    /// The file with this path. Nothing is opened yet.
    pub fn new(rt: HostRuntime, path: Text) -> Self
        ensures length { result.len ≡ 0 }
        ensures faults { result.faults ≡ 0 }
    {
        SystemFile {
            rt,
            path,
            file: None,
            is_named: false,
            is_lost: false,
            len: 0,
            faults: 0,
        }
    }
}

fn cause_of(error: io::Error) -> HandleError {
    if error.kind() == io::ErrorKind::Interrupted {
        HandleError::Interrupted
    } else {
        HandleError::Failed
    }
}

// Opens the file for reading and writing, and takes its lock. None, if it is missing and isn't to be made.
fn open_file(rt: &HostRuntime, path: &str, make: bool) -> Result<Option<File>, HandleError> {
    match OpenOptions::new()
        .read(true)
        .write(true)
        .create(make)
        .open(rt, path)
    {
        Ok(file) if file.try_lock().is_ok() => Ok(Some(file)),
        Ok(_) => Err(HandleError::Failed),
        Err(error) if error.kind() == io::ErrorKind::NotFound && !make => Ok(None),
        Err(error) => Err(cause_of(error)),
    }
}

// Syncs the folder that holds the file, so that a crash doesn't lose the file's name.
fn sync_folder(rt: &HostRuntime, path: &str) -> io::Result<()> {
    let folder = match Path::new(path).parent() {
        Some(parent) if !parent.as_str().is_empty() => parent,
        _ => Path::new("."),
    };
    File::open(rt, folder)?.sync_all()
}

// What a read or a write of a buffer of this length comes to.
fn part(asked: usize, done: io::Result<usize>) -> Result<usize, HandleError>
    ensures bound { IfOk result (λ n. n ≤ asked) }
    ensures some { 0 < asked → IfOk result (λ n. 0 < n) }
{
    match done {
        Ok(count) if count <= asked && (count > 0 || asked == 0) => Ok(count),
        Ok(_) => Err(HandleError::Failed),
        Err(error) => Err(cause_of(error)),
    }
}

// Counts a call that failed.
fn counted<T: Drop>(faults: &mut u64, outcome: Result<T, HandleError>) -> Result<T, HandleError>
    ensures cause { HasCause faults.old faults.new result }
    ensures counts { faults.new ≡ (if is_err result then counted faults.old else faults.old) }
    ensures same { result ≡ outcome }
{
    if outcome.is_err() {
        *faults = faults.saturating_add(1);
    }
    outcome
}

impl SystemFile {
    // Opens the file, if it isn't open yet. Fails after a sync that failed.
    fn attach(&mut self, make: bool) -> Result<(), HandleError>
        ensures len { self.new.len ≡ self.old.len }
        ensures faults { self.new.faults ≡ self.old.faults }
        ensures lost { IsRefusedIf self.old.is_lost self.new.is_lost result }
    {
        if self.is_lost {
            return Err(HandleError::Failed);
        }
        if self.file.is_none() {
            self.file = open_file(&self.rt, self.path.as_str(), make)?;
        }
        Ok(())
    }

    fn measure(&mut self) -> Result<u64, HandleError>
        ensures len { self.new.len ≡ self.old.len }
        ensures faults { self.new.faults ≡ self.old.faults }
        ensures lost { IsRefusedIf self.old.is_lost self.new.is_lost result }
    {
        self.attach(false)?;
        match &self.file {
            Some(file) => match file.metadata() {
                Ok(data) => Ok(data.len()),
                Err(error) => Err(cause_of(error)),
            },
            None => Ok(0),
        }
    }

    fn fill(&mut self, at: u64, into: &mut [u8]) -> Result<usize, HandleError>
        requires { at + length into.old < 2 ^ 64 }
        ensures bound { IfOk result (λ n. n ≤ length into.old) }
        ensures some { 0 < length into.old → IfOk result (λ n. 0 < n) }
        ensures len { self.new.len ≡ self.old.len }
        ensures faults { self.new.faults ≡ self.old.faults }
        ensures lost { IsRefusedIf self.old.is_lost self.new.is_lost result }
    {
        self.attach(false)?;
        match &self.file {
            Some(file) => part(into.len(), file.read_at(into, at)),
            None => part(into.len(), Ok(0)),
        }
    }

    fn put(&mut self, at: u64, from: &[u8]) -> Result<usize, HandleError>
        ensures bound { IfOk result (λ n. n ≤ length from.now) }
        ensures some { 0 < length from.now → IfOk result (λ n. 0 < n) }
        ensures fits { IfOk result (λ n. at + n < 2 ^ 64) }
        ensures len { self.new.len ≡ self.old.len }
        ensures faults { self.new.faults ≡ self.old.faults }
        ensures lost { IsRefusedIf self.old.is_lost self.new.is_lost result }
    {
        if at.checked_add(from.len() as u64).is_none() {
            return Err(HandleError::Failed);
        }
        self.attach(true)?;
        match &self.file {
            Some(file) => part(from.len(), file.write_at(from, at)),
            None => Err(HandleError::Failed),
        }
    }

    fn settle(&mut self) -> Result<(), HandleError>
        ensures len { self.new.len ≡ self.old.len }
        ensures faults { self.new.faults ≡ self.old.faults }
        ensures lost { IsRefusedIf self.old.is_lost self.new.is_lost result }
    {
        self.attach(false)?;
        let Some(file) = &self.file else {
            return Ok(());
        };
        if let Err(error) = file.sync_all() {
            return Err(cause_of(error));
        }
        if !self.is_named {
            if let Err(error) = sync_folder(&self.rt, self.path.as_str()) {
                return Err(cause_of(error));
            }
            self.is_named = true;
        }
        Ok(())
    }
}

impl FileHandle for SystemFile {
    ghost use Rattle.qz_disk.specs.declared.handle.HandleError.TheVariants.{Failed, Interrupted};

    ghost honest = { ⊥ };

    ghost len = { λ f. f.len };

    ghost faults = { λ f. f.faults };

    ghost state = { λ _. untold };

    ghost lawful = { λ h f. absurd h };

    ghost whole = { λ h f. absurd h };

    fn len(&mut self) -> Result<u64, HandleError>
        ensures length { IfOk result (λ n. n ≡ self.new.len) }
        ensures length_err { OnErr result (self.new.len ≡ self.old.len) }
        ensures cause { HasCause self.old.faults self.new.faults result }
        ensures counts { self.new.faults ≡ (if is_err result then counted self.old.faults else self.old.faults) }
        ensures lost { KeepsFailing self.old.is_lost self.new.is_lost result }
    {
        let measured = self.measure();
        if let Ok(len) = measured {
            self.len = len;
        }
        counted(&mut self.faults, measured)
    }

    fn read_at(&mut self, at: u64, into: &mut [u8]) -> Result<usize, HandleError>
        requires { at + length into.old ≤ self.old.len }
        ensures bound { IfOk result (λ n. n ≤ length into.old) }
        ensures some { 0 < length into.old → IfOk result (λ n. 0 < n) }
        ensures fits { IfOk result (λ n. at + n < 2 ^ 64) }
        ensures length { self.new.len ≡ self.old.len }
        ensures cause { HasCause self.old.faults self.new.faults result }
        ensures counts { self.new.faults ≡ (if is_err result then counted self.old.faults else self.old.faults) }
        ensures lost { KeepsFailing self.old.is_lost self.new.is_lost result }
    {
        let _len = self.len;
        let filled = self.fill(at, into);
        counted(&mut self.faults, filled)
    }

    fn write_at(&mut self, at: u64, from: &[u8]) -> Result<usize, HandleError>
        requires { at ≤ self.old.len }
        ensures bound { IfOk result (λ n. n ≤ length from.now) }
        ensures some { 0 < length from.now → IfOk result (λ n. 0 < n) }
        ensures fits { IfOk result (λ n. at + n < 2 ^ 64) }
        ensures length { IfOk result (λ n. self.new.len ≡ max self.old.len (at + n)) }
        ensures interrupted_length { result ≡ Err Interrupted → self.new.len ≡ self.old.len }
        ensures cause { HasCause self.old.faults self.new.faults result }
        ensures counts { self.new.faults ≡ (if is_err result then counted self.old.faults else self.old.faults) }
        ensures lost { KeepsFailing self.old.is_lost self.new.is_lost result }
    {
        let wrote = self.put(at, from);
        match wrote {
            Ok(count) => self.len = self.len.max(at + count as u64),
            Err(HandleError::Interrupted) => {}
            Err(HandleError::Failed) => self.len = 0,
        }
        counted(&mut self.faults, wrote)
    }

    fn sync(&mut self) -> Result<(), HandleError>
        ensures length { OnOk result (self.new.len ≡ self.old.len) }
        ensures interrupted_length { result ≡ Err Interrupted → self.new.len ≡ self.old.len }
        ensures cause { HasCause self.old.faults self.new.faults result }
        ensures counts { self.new.faults ≡ (if is_err result then counted self.old.faults else self.old.faults) }
        ensures lost { KeepsFailing self.old.is_lost self.new.is_lost result }
        ensures loses { result ≡ Err Failed → self.new.is_lost ≡ true }
    {
        let synced = self.settle();
        if synced == Err(HandleError::Failed) {
            self.len = 0;
            self.is_lost = true;
        }
        counted(&mut self.faults, synced)
    }

    fn restart(&mut self) -> Result<(), HandleError>
        ensures cause { HasCause self.old.faults self.new.faults result }
        ensures counts { self.new.faults ≡ (if is_err result then counted self.old.faults else self.old.faults) }
        ensures lost { KeepsFailing self.old.is_lost self.new.is_lost result }
    {
        self.file = None;
        self.is_named = false;
        self.len = 0;
        let opened = self.attach(false);
        counted(&mut self.faults, opened)
    }
}
