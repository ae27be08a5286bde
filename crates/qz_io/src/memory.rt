//! A source and a sink in memory.
ghost use Rattle.std.specs.Prelude.{◌≡◌, ◌<◌, ◌≤◌, if◌then◌else◌, Some, IsOk, IfOk, OnOk, is_err, length};
ghost use Rattle.std.specs.Io.KnownBytes.{WriteAppends, Keeps};
ghost use Rattle.qz_civil.specs.Causes.{HasCause};
ghost use Rattle.qz_io.specs.Memory.{counted};
ghost use Rattle.qz_io.specs.Outside.{IsHandedOn};

use crate::{Sink, Source};
use qz_civil::{Failed, List};
use std::alloc::Global;
use std::marker::Model;

/// A source that gives the bytes of a list. It never fails. Contracts see it as the bytes that are left.
#[derive(Drop)]
pub struct MemSource {
    bytes: List<u8>,
    at: usize,
}

impl Model for MemSource {
    ghost use Rattle.std.specs.Prelude.{ℕ, List as Items, ◌≤◌, drop, length};

    ghost Value = { Items ℕ };

    ghost view = { λ a. drop a.at a.bytes };

    ghost invariant = { λ a. a.at ≤ length a.bytes };
}

impl MemSource {
    /// A source that gives these bytes. No memory.
    pub fn new(bytes: List<u8>) -> MemSource
        ensures { result ≡ bytes }
    {
        MemSource { bytes, at: 0 }
    }
}

impl Source for MemSource {
    ghost left = { λ s. Some s };

    ghost faults = { λ _. 0 };

    fn read(&mut self, into: &mut [u8]) -> Result<usize, Failed> {
        let rest = &self.bytes.as_slice()[self.at..];
        let count = rest.len().min(into.len());
        into[..count].copy_from_slice(&rest[..count]);
        self.at += count;
        Ok(count)
    }
}

/// A sink that keeps what is written, and hands it on at a flush alone. It fails where no memory is found, and counts
/// that.
#[derive(Drop)]
pub struct MemSink {
    bytes: Vec<u8>,
    /// So many of the bytes were handed on.
    handed: usize,
    starved: u64,
}

impl Model for MemSink {
    ghost use Rattle.std.specs.Prelude.{◌≤◌, take, length};
    ghost use Rattle.qz_io.specs.Memory.{MemSinkData};

    ghost Value = { MemSinkData };

    ghost view = { λ a. record { bytes = a.bytes.items; handed = take a.handed a.bytes.items; starved = a.starved } };

    ghost invariant = { λ a. a.handed ≤ length a.bytes.items };
}

impl MemSink {
    ghost use Rattle.std.specs.Prelude.{[]};

    /// A sink that holds nothing. It grows by this allocator. No memory.
    pub fn new(alloc: Global) -> MemSink
        ensures { result ≡ record { bytes = []; handed = []; starved = 0 } }
    {
        MemSink {
            bytes: Vec::new(alloc),
            handed: 0,
            starved: 0,
        }
    }

    /// The bytes that it holds.
    pub fn bytes(&self) -> &[u8]
        ensures { result.now ≡ self.now.bytes }
    {
        &self.bytes
    }

    /// Those of them that a flush has handed on.
    pub fn handed(&self) -> &[u8]
        ensures { result.now ≡ self.now.handed }
    {
        &self.bytes[..self.handed]
    }

    /// How often it found no memory. The count stops at its type's end.
    pub fn starved(&self) -> u64
        ensures { result ≡ self.now.starved }
    {
        self.starved
    }
}

impl Sink for MemSink {
    ghost held = { λ s. Some s.bytes };

    ghost handed = { λ s. Some s.handed };

    ghost faults = { λ s. s.starved };

    fn write(&mut self, from: &[u8]) -> Result<usize, Failed>
        ensures bound { IfOk result (λ n. n ≤ length from.now) }
        ensures some { 0 < length from.now → IfOk result (λ n. 0 < n) }
        ensures bytes { WriteAppends (Some self.old.bytes) (Some self.new.bytes) result from.now }
        ensures cause { HasCause self.old.starved self.new.starved result }
        ensures starved { self.new.starved ≡ (if is_err result then counted self.old.starved else self.old.starved) }
        ensures handed { self.new.handed ≡ self.old.handed }
    {
        match self.bytes.extend_from_slice(from) {
            Ok(()) => Ok(from.len()),
            Err(_) => {
                self.starved = self.starved.saturating_add(1);
                Err(Failed)
            }
        }
    }

    fn flush(&mut self) -> Result<(), Failed>
        ensures bytes { Keeps (Some self.old.bytes) (Some self.new.bytes) }
        ensures cause { HasCause self.old.starved self.new.starved result }
        ensures handed { OnOk result (IsHandedOn (Some self.new.bytes) (Some self.new.handed)) }
        ensures ok { IsOk result }
        ensures exact { self.new ≡ record self.old { handed = self.old.bytes } }
    {
        self.handed = self.bytes.len();
        Ok(())
    }
}
