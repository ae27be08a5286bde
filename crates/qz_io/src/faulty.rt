//! A source and a sink in memory with planned failures.
ghost use Rattle.std.specs.Prelude.{◌≡◌, ◌<◌, ◌≤◌, Some, IfOk, OnOk, OnErr, is_err, [], length, if◌then◌else◌};
ghost use Rattle.std.specs.Io.{ReadsAtMost};
ghost use Rattle.std.specs.Io.KnownBytes.{ReadConsumes, WriteAppends, Keeps};
ghost use Rattle.qz_civil.specs.Causes.{HasCause};
ghost use Rattle.qz_io.specs.Memory.{counted, fails_next, SourceFollowsPlan, SinkFollowsPlan};
ghost use Rattle.qz_io.specs.Outside.{IsHandedOn};

use crate::{MemSink, MemSource, Sink, Source};
use qz_civil::{Failed, List};
use std::alloc::Global;
use std::marker::Model;

/// Which calls fail, how many calls there were, and how many of them failed. Both counts stop at their type's end.
#[derive(Drop)]
struct Plan {
    failing: List<u64>,
    calls: u64,
    faults: u64,
}

impl Plan {
    fn new(failing: List<u64>) -> Plan
        ensures { result ≡ record { failing = failing; calls = 0; faults = 0 } }
    {
        Plan {
            failing,
            calls: 0,
            faults: 0,
        }
    }

    /// Counts a call, and answers whether it is one of those that fail.
    fn call(&mut self) -> bool
        ensures planned { result ≡ fails_next self.old.failing self.old.calls }
        ensures counts { self.new ≡ record self.old {
          calls = counted self.old.calls;
          faults = (if result then counted self.old.faults else self.old.faults);
        } }
        ensures later { self.old.faults ≤ self.new.faults }
    {
        self.calls = self.calls.saturating_add(1);
        let number = self.calls;
        let fails = self.failing.as_slice().iter().any(|n| *n == number);
        if fails {
            self.fail();
        }
        fails
    }

    /// Counts a failure.
    fn fail(&mut self)
        ensures counts { self.new ≡ record self.old { faults = counted self.old.faults } }
        ensures later { self.old.faults ≤ self.new.faults }
    {
        self.faults = self.faults.saturating_add(1);
    }
}

/// A source that gives the bytes of a list, but whose planned calls fail. Calls are counted from 1, and a planned call
/// takes nothing.
#[derive(Drop)]
pub struct FaultSource {
    inner: MemSource,
    plan: Plan,
}

impl Model for FaultSource {
    ghost use Rattle.qz_io.specs.Memory.{FaultSourceData};

    ghost Value = { FaultSourceData };

    ghost view = { λ a. record {
      left = a.inner;
      failing = a.plan.failing;
      calls = a.plan.calls;
      faults = a.plan.faults;
    } };
}

impl FaultSource {
    /// A source that gives these bytes, and whose calls with these numbers fail. No memory.
    pub fn new(bytes: List<u8>, failing: List<u64>) -> FaultSource
        ensures { result ≡ record { left = bytes; failing = failing; calls = 0; faults = 0 } }
    {
        FaultSource {
            inner: MemSource::new(bytes),
            plan: Plan::new(failing),
        }
    }
}

impl Source for FaultSource {
    ghost left = { λ s. Some s.left };

    ghost faults = { λ s. s.faults };

    fn read(&mut self, into: &mut [u8]) -> Result<usize, Failed>
        requires { 0 < length into.old }
        ensures bound { ReadsAtMost result into.new }
        ensures bytes { ReadConsumes (Some self.old.left) (Some self.new.left) result into.new }
        ensures cause { HasCause self.old.faults self.new.faults result }
        ensures plan { SourceFollowsPlan self.old self.new (is_err result) }
    {
        if self.plan.call() {
            return Err(Failed);
        }
        self.inner.read(into)
    }
}

/// A sink that keeps what is written and hands it on at a flush, but whose planned calls fail. Writes and flushes are
/// counted together from 1, so a flush alone can fail, and a planned call does nothing. It fails too where no memory is
/// found.
#[derive(Drop)]
pub struct FaultSink {
    inner: MemSink,
    plan: Plan,
}

impl Model for FaultSink {
    ghost use Rattle.qz_io.specs.Memory.{FaultSinkData};

    ghost Value = { FaultSinkData };

    ghost view = { λ a. record {
      bytes = a.inner.bytes;
      handed = a.inner.handed;
      failing = a.plan.failing;
      calls = a.plan.calls;
      faults = a.plan.faults;
      starved = a.inner.starved;
    } };
}

impl FaultSink {
    /// A sink that holds nothing, and whose calls with these numbers fail. It grows by this allocator. No memory.
    pub fn new(alloc: Global, failing: List<u64>) -> FaultSink
        ensures { result ≡ record { bytes = []; handed = []; failing = failing; calls = 0; faults = 0; starved = 0 } }
    {
        FaultSink {
            inner: MemSink::new(alloc),
            plan: Plan::new(failing),
        }
    }

    /// The bytes that it holds.
    pub fn bytes(&self) -> &[u8]
        ensures { result.now ≡ self.now.bytes }
    {
        self.inner.bytes()
    }

    /// Those of them that a flush has handed on.
    pub fn handed(&self) -> &[u8]
        ensures { result.now ≡ self.now.handed }
    {
        self.inner.handed()
    }

    /// How often it found no memory. The count stops at its type's end.
    pub fn starved(&self) -> u64
        ensures { result ≡ self.now.starved }
    {
        self.inner.starved()
    }
}

impl Sink for FaultSink {
    ghost held = { λ s. Some s.bytes };

    ghost handed = { λ s. Some s.handed };

    ghost faults = { λ s. s.faults };

    fn write(&mut self, from: &[u8]) -> Result<usize, Failed>
        ensures bound { IfOk result (λ n. n ≤ length from.now) }
        ensures some { 0 < length from.now → IfOk result (λ n. 0 < n) }
        ensures bytes { WriteAppends (Some self.old.bytes) (Some self.new.bytes) result from.now }
        ensures cause { HasCause self.old.faults self.new.faults result }
        ensures plan { SinkFollowsPlan self.old self.new (is_err result) }
        ensures handed { self.new.handed ≡ self.old.handed }
    {
        if self.plan.call() {
            return Err(Failed);
        }
        let result = self.inner.write(from);
        if result.is_err() {
            self.plan.fail();
        }
        result
    }

    fn flush(&mut self) -> Result<(), Failed>
        ensures bytes { Keeps (Some self.old.bytes) (Some self.new.bytes) }
        ensures cause { HasCause self.old.faults self.new.faults result }
        ensures plan { SinkFollowsPlan self.old self.new (is_err result) }
        ensures handed { OnOk result (IsHandedOn (Some self.new.bytes) (Some self.new.handed)) }
        ensures not_handed { OnErr result (self.new.handed ≡ self.old.handed) }
        ensures exact { is_err result ≡ fails_next self.old.failing self.old.calls }
    {
        if self.plan.call() {
            return Err(Failed);
        }
        self.inner.flush()
    }
}
