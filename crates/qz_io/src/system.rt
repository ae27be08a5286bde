//! The real source, sinks and clock. Contracts tell nothing of what they give or take.
ghost use Rattle.std.specs.Prelude.{◌≡◌, ◌<◌, ◌≤◌, ◌⊎◌, pos, None, IfOk, is_err, length, if◌then◌else◌};
ghost use Rattle.std.specs.Io.{ReadsAtMost};
ghost use Rattle.qz_civil.specs.Causes.{HasCause};
ghost use Rattle.qz_io.specs.Memory.{counted};

use crate::{Clock, Sink, Source};
use qz_civil::Failed;
use std::io::{ErrorKind, Read, Write};
use std::marker::Model;
use std::rt::Clock as SystemClock;

/// How often a call that a signal interrupts is repeated before that counts as a failure.
const MAX_REPEATS: u32 = 1000;

/// Reads, and reads again where a signal interrupted the call.
fn read_retrying<R: Read>(reader: &mut R, into: &mut [u8]) -> Result<usize, Failed>
    ensures { ReadsAtMost result into.new }
{
    for _ in 0..=MAX_REPEATS {
        match reader.read(into) {
            Ok(count) => return Ok(count),
            Err(error) => {
                if error.kind() != ErrorKind::Interrupted {
                    break;
                }
            }
        }
    }
    Err(Failed)
}

/// Writes, and writes again where a signal interrupted the call. A write that takes nothing of a piece has failed.
fn write_retrying<W: Write>(writer: &mut W, from: &[u8]) -> Result<usize, Failed>
    ensures bound { IfOk result (λ n. n ≤ length from.now) }
    ensures some { 0 < length from.now → IfOk result (λ n. 0 < n) }
{
    for _ in 0..=MAX_REPEATS {
        match writer.write(from) {
            Ok(count) => {
                if count > 0 || from.is_empty() {
                    return Ok(count);
                }
                break;
            }
            Err(error) => {
                if error.kind() != ErrorKind::Interrupted {
                    break;
                }
            }
        }
    }
    Err(Failed)
}

/// Flushes, and flushes again where a signal interrupted the call.
fn flush_retrying<W: Write>(writer: &mut W) -> Result<(), Failed> {
    for _ in 0..=MAX_REPEATS {
        match writer.flush() {
            Ok(()) => return Ok(()),
            Err(error) => {
                if error.kind() != ErrorKind::Interrupted {
                    break;
                }
            }
        }
    }
    Err(Failed)
}

/// A source over a reader of the system. For standard input give it `rt.reader()`, whose `read` is one `read(2)` into
/// the caller's buffer, with nothing read ahead. Contracts see it as the number of its failures, and tell nothing of the
/// bytes.
#[derive(Drop)]
pub struct StdSource<R> {
    reader: R,
    faults: u64,
}

impl<R> Model for StdSource<R> {
    ghost use Rattle.std.specs.Prelude.{ℕ};

    ghost Value = { ℕ };

    ghost view = { λ a. a.faults };
}

impl<R: Read + Drop> StdSource<R> {
    /// No memory.
    pub fn new(reader: R) -> StdSource<R>
        ensures { result ≡ 0 }
    {
        StdSource { reader, faults: 0 }
    }
}

impl<R: Read + Drop> Source for StdSource<R> {
    ghost left = { λ _. None };

    ghost faults = { λ s. s };

    fn read(&mut self, into: &mut [u8]) -> Result<usize, Failed>
        requires { 0 < length into.old }
        ensures bound { ReadsAtMost result into.new }
        ensures cause { HasCause self.old self.new result }
        ensures counts { self.new ≡ (if is_err result then counted self.old else self.old) }
    {
        let result = read_retrying(&mut self.reader, into);
        if result.is_err() {
            self.faults = self.faults.saturating_add(1);
        }
        result
    }
}

/// A sink over a writer of the system. For standard output and error give it `rt.stdout()` and `rt.stderr()`: each
/// `write` is one `write(2)` of the piece as it stands, with no buffer between, so a piece that was taken has left the
/// program, and `flush` does nothing. Contracts see it as the number of its failures, and tell nothing of the bytes.
#[derive(Drop)]
pub struct StdSink<W> {
    writer: W,
    faults: u64,
}

impl<W> Model for StdSink<W> {
    ghost use Rattle.std.specs.Prelude.{ℕ};

    ghost Value = { ℕ };

    ghost view = { λ a. a.faults };
}

impl<W: Write + Drop> StdSink<W> {
    /// No memory.
    pub fn new(writer: W) -> StdSink<W>
        ensures { result ≡ 0 }
    {
        StdSink { writer, faults: 0 }
    }
}

impl<W: Write + Drop> Sink for StdSink<W> {
    ghost held = { λ _. None };

    ghost handed = { λ _. None };

    ghost faults = { λ s. s };

    fn write(&mut self, from: &[u8]) -> Result<usize, Failed>
        ensures bound { IfOk result (λ n. n ≤ length from.now) }
        ensures some { 0 < length from.now → IfOk result (λ n. 0 < n) }
        ensures cause { HasCause self.old self.new result }
        ensures counts { self.new ≡ (if is_err result then counted self.old else self.old) }
    {
        let result = write_retrying(&mut self.writer, from);
        if result.is_err() {
            self.faults = self.faults.saturating_add(1);
        }
        result
    }

    fn flush(&mut self) -> Result<(), Failed>
        ensures cause { HasCause self.old self.new result }
        ensures counts { self.new ≡ (if is_err result then counted self.old else self.old) }
    {
        let result = flush_retrying(&mut self.writer);
        if result.is_err() {
            self.faults = self.faults.saturating_add(1);
        }
        result
    }
}

/// The system's clock, in ms since 1970-01-01T00:00:00Z. Where the system gives no reading, or one that is past the
/// end of `i64`, it gives 0 and counts that. Contracts see it as that count, and tell nothing of its readings.
#[derive(Drop)]
pub struct RealClock<C> {
    system: C,
    faults: u64,
}

impl<C> Model for RealClock<C> {
    ghost use Rattle.std.specs.Prelude.{ℕ};

    ghost Value = { ℕ };

    ghost view = { λ a. a.faults };
}

impl<C: SystemClock + Drop> RealClock<C> {
    /// A clock over the runtime, or over a reference to it. No memory.
    pub fn new(system: C) -> RealClock<C>
        ensures { result ≡ 0 }
    {
        RealClock { system, faults: 0 }
    }

    /// How often the system gave no reading. The count stops at its type's end.
    pub fn faults(&self) -> u64
        ensures { result ≡ self.now }
    {
        self.faults
    }
}

impl<C: SystemClock + Drop> Clock for RealClock<C> {
    ghost readings = { λ _. None };

    fn now(&mut self) -> i64
        ensures counts { (self.new ≡ self.old) ⊎ ((self.new ≡ counted self.old) × (result ≡ pos 0)) }
    {
        let reading = match self.system.since_1970() {
            Ok(time) => i64::try_from(time.as_millis()).ok(),
            Err(_) => None,
        };
        match reading {
            Some(millis) => millis,
            None => {
                self.faults = self.faults.saturating_add(1);
                0
            }
        }
    }
}
